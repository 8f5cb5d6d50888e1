// The messages that a call sends.
ghost use Rattle.std.specs.Prelude.{◌≡◌, ◌≤◌, length, true, IfSome, IfOk, OnOk};
ghost use Rattle.attempt_buffer.specs.Buffers.{is_open};
ghost use Rattle.grpc_frame.specs.Messages.{framed};
ghost use Rattle.call_core.specs.Parts.{begun_row, committed_buffer, has_room, pushed_buffer, pushed_over};
ghost use Rattle.call_core.specs.Steps.{accepted, full_with, send_refusal, send_reply, sent};
ghost use Rattle.call_core.specs.Turns.{goes, left, lent_at};

use crate::chosen::is_too_long;
use crate::live::furthest;
use crate::state::CallState;
use crate::turn::Turn;
use a6_numbers::Tokens;
use attempt_buffer::{Buffer, PushFault, Pushed};
use attempt_ledger::Ledger;
use grpc_base::{EndCause, NoMemory, Octets, Refusal, Reply};
use grpc_frame::frame_message;
use std::alloc::Global;

/// The bytes before a message.
const PREFIX: usize = 5;

/// The bytes of the longest framed message.
const FRAMED: usize = 4_194_309;

/// What an uncommitted call holds at most, in bytes.
const UNCOMMITTED: usize = 262_144;

/// Once a committed call holds so many bytes, it takes no more.
const COMMITTED: u32 = 65_536;

/// Whether a message of so many bytes finds room.
fn has_room(is_committed: bool, has_outstanding: bool, held: u32, len: usize) -> bool
    ensures { result ≡ has_room is_committed has_outstanding held len }
{
    if is_committed {
        return held < COMMITTED;
    }
    has_outstanding || (len <= UNCOMMITTED && len + PREFIX + held as usize <= UNCOMMITTED)
}

/// Begins a row, before the first message, and commits the messages to it where its call is.
pub fn open_row(buffer: &mut Buffer, row: u64, is_committed: bool) -> Result<(), NoMemory>
    ensures { OnOk result (buffer.new ≡ begun_row row is_committed buffer.old) }
{
    if buffer.can_open(row) {
        buffer.open(row)?;
    }
    if is_committed {
        commit_buffer(buffer, row);
    }
    Ok(())
}

/// Commits the messages to a row, where it is open.
pub fn commit_buffer(buffer: &mut Buffer, row: u64)
    ensures { buffer.new ≡ committed_buffer row buffer.old }
{
    if buffer.is_open(row) {
        buffer.commit(row);
    }
}

/// Appends a framed message, if there is room, and reports whether the messages overflowed.
fn push_framed(
    buffer: &mut Buffer,
    framed: Octets,
    outstanding: Option<u64>,
) -> Result<bool, NoMemory>
    requires limit { length framed ≤ 4194309 }
    requires open { IfSome outstanding (λ row. is_open row buffer.old ≡ true) }
    ensures over { IfOk result (λ over. over ≡ pushed_over buffer.old framed outstanding) }
    ensures buffer { OnOk result (buffer.new ≡ pushed_buffer buffer.old framed outstanding) }
{
    match buffer.push(framed, outstanding) {
        Ok(Pushed::Kept) => Ok(false),
        Ok(Pushed::Overflow) => Ok(true),
        Err(PushFault::Full { held: _ }) => Ok(false),
        Err(PushFault::NoMemory) => Err(NoMemory),
    }
}

/// A message for the wire; none is longer than the largest limit.
fn framed_of(alloc: Global, message: &Octets) -> Result<Octets, NoMemory>
    ensures ok { IfOk result (λ text. text ≡ framed message.now) }
    ensures limit { IfOk result (λ text. length text ≤ 4194309) }
{
    match frame_message(alloc, message.as_slice()) {
        Ok(framed) if framed.len() <= FRAMED => Ok(framed),
        Ok(_) | Err(_) => Err(NoMemory),
    }
}

impl CallState {
    /// Why the application may send nothing further.
    pub fn send_refusal(&self) -> Option<Refusal>
        ensures { result ≡ send_refusal self.now }
    {
        if self.ended.is_some() {
            Some(Refusal::CallEnded)
        } else if self.is_finished {
            Some(Refusal::AfterFinish)
        } else {
            None
        }
    }

    /// What the call holds, where a message of so many bytes finds no room.
    pub fn full(&self, len: usize) -> Option<u32>
        ensures { result ≡ full_with len self.now }
    {
        let outstanding = furthest(&self.buffer, self.live.as_slice());
        let held = self.buffer.held();
        let is_committed = self.attempts.committed.is_some();
        let has_room = has_room(is_committed, outstanding.is_some(), held, len);
        (!has_room).then_some(held)
    }

    /// Takes a message, for which there is room. The call is committed where its messages overflow.
    fn accept(
        &mut self,
        turn: &mut Turn,
        ledger: &mut Ledger,
        tokens: &Option<Tokens>,
        message: &Octets,
    ) -> Result<(), NoMemory>
        ensures { OnOk result (left self.new ledger.new turn.new ≡ goes (accepted message.now turn.old.moment (lent_at self.old ledger.old tokens.now turn.old)) turn.old) }
    {
        let framed = framed_of(turn.alloc, message)?;
        let row = furthest(&self.buffer, self.live.as_slice());
        let is_over = push_framed(&mut self.buffer, framed, row)?;
        self.longest = self.longest.max(message.len());
        match row {
            Some(row) if is_over => self.commit(turn, ledger, tokens, row),
            Some(_) | None => Ok(()),
        }
    }

    /// The application sends a message.
    pub fn send(
        &mut self,
        turn: &mut Turn,
        ledger: &mut Ledger,
        tokens: &Option<Tokens>,
        message: &Octets,
    ) -> Result<Reply, NoMemory>
        ensures reply { IfOk result (λ r. r ≡ send_reply message.now self.old) }
        ensures after { OnOk result (left self.new ledger.new turn.new ≡ goes (sent message.now turn.old.moment (lent_at self.old ledger.old tokens.now turn.old)) turn.old) }
    {
        if let Some(refusal) = self.send_refusal() {
            return Ok(Reply::Refused { refusal });
        }
        if is_too_long(&self.chosen, message.len()) {
            self.close(turn, ledger, tokens, EndCause::Request)?;
            return Ok(Reply::Done);
        }
        if let Some(held) = self.full(message.len()) {
            return Ok(Reply::Full { held });
        }
        self.accept(turn, ledger, tokens, message)?;
        Ok(Reply::Done)
    }
}
