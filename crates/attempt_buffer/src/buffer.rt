// The messages of a call, for all its attempts.
ghost use Rattle.std.specs.Prelude.{◌≡◌, ◌≢◌, ◌≤◌, ◌<◌, ◌+◌, ℕ, ◌==◌, true, false, None, Some, Ok, Err, [], ◌∷◌, ◌++◌, length, take, drop, is_some, IfSome, IfNone, IfOk, OnOk, OnErr, if◌then◌else◌};
ghost use Rattle.attempt_buffer.specs.Buffers.{after_taking, appended, can_open, closed, committed_to, held, is_open, left_of, opened, push_answer, pushed_to, text_of};

use crate::cursors::{Cursor, remove_cursor};
use crate::messages::{Messages, Spot};
use crate::state::State;
use bytes::BytesMut;
use grpc_base::{NoMemory, Octets};
use std::alloc::Global;
use std::marker::Model;

/// How a message was accepted.
#[derive(Clone, Copy, Debug, PartialEq, Eq)]
pub enum Pushed {
    Kept,
    /// The messages overflowed the buffer, and the call is committed to the row that was sent furthest.
    Overflow,
}

/// Why a message was not accepted. The buffer is then as before.
#[derive(Clone, Copy, Debug, PartialEq, Eq)]
pub enum PushFault {
    /// So many bytes are held, and there is no room.
    Full { held: u32 },
    NoMemory,
}

impl From<NoMemory> for PushFault {
    ghost use Rattle.std.specs.Prelude.{◌≡◌};
    ghost use Rattle.attempt_buffer.specs.declared.buffer.PushFault.TheVariants as faults;

    ghost from_gives = { λ _ e. e ≡ faults.NoMemory };

    fn from(_e: NoMemory) -> PushFault {
        PushFault::NoMemory
    }
}

/// The framed messages of a call, each held once, and how far each of its attempts has sent them.
///
/// Before the call is committed, every message is held for the attempts to come, up to 262,144 bytes in all. Once it is committed to
/// an attempt, each message that this attempt has sent whole is given up.
#[derive(Drop)]
pub struct Buffer {
    state: State,
}

impl Model for Buffer {
    ghost use Rattle.attempt_buffer.specs.Buffers.{Buffered};
    ghost use Rattle.attempt_buffer.specs.Cursors.{IsSound, seen_state};

    ghost Value = { Buffered };

    ghost view = { λ b. seen_state b.state };

    ghost invariant = { λ b. IsSound b.state.messages b.state.cursors.items b.state.committed };
}

impl Buffer {
    /// What an uncommitted call holds at most, in bytes.
    const UNCOMMITTED: usize = 262_144;

    /// Once a committed call holds so many bytes, it takes no more.
    const COMMITTED: u32 = 65_536;

    /// No message, and no attempt.
    pub fn new(alloc: Global) -> Buffer
        ensures { result ≡ record { messages = []; cursors = []; committed = None; is_whole = true } }
    {
        Buffer {
            state: State {
                messages: Messages::new(alloc),
                cursors: Vec::new(alloc),
                committed: None,
                is_whole: true,
            },
        }
    }

    /// The bytes of the messages that are held: all of them before the call is committed, and then those from the first one on
    /// that the committed attempt hasn't sent whole.
    pub fn kept(&self) -> u64
        ensures { result ≡ length (text_of self.now) }
    {
        self.state.messages.bytes() as u64
    }

    /// The bytes that the call still has to send: all messages, or once it is committed what the committed attempt hasn't sent.
    pub fn held(&self) -> u32
        ensures { result ≡ held self.now }
    {
        let bytes = self.state.messages.bytes();
        match self.state.committed {
            Some(committed) => (bytes - committed.cursor.spot.taken) as u32,
            None => bytes as u32,
        }
    }

    /// The bytes that an attempt has still to send; 0 where its row isn't open.
    pub fn ready(&self, row: u64) -> u64
        ensures { result ≡ length (left_of row self.now) }
    {
        match self.state.spot_of(row) {
            Some(spot) => (self.state.messages.bytes() - spot.taken) as u64,
            None => 0,
        }
    }

    /// Whether this row is open.
    pub fn is_open(&self, row: u64) -> bool
        ensures { result ≡ is_open row self.now }
    {
        self.state.spot_of(row).is_some()
    }

    /// Whether an attempt may begin: no message was given up, the row isn't open, and neither is a committed one.
    pub fn can_open(&self, row: u64) -> bool
        ensures { result ≡ can_open row self.now }
    {
        let is_open = match self.state.committed {
            Some(committed) => committed.is_open,
            None => false,
        };
        self.state.is_whole && !is_open && self.state.spot_of(row).is_none()
    }

    /// Begins an attempt, before the first message. On out of memory all is as before.
    pub fn open(&mut self, row: u64) -> Result<(), NoMemory>
        requires { can_open row self.old ≡ true }
        ensures ok { OnOk result (self.new ≡ opened row self.old) }
        ensures err { OnErr result (self.new ≡ self.old) }
    {
        self.state.cursors.push(Cursor {
            row,
            spot: Spot::START,
        })?;
        Ok(())
    }

    /// Appends the next bytes of an attempt to `out`, and takes them off what it has still to send; every other row keeps what it
    /// has. On out of memory both are as before.
    pub fn take(&mut self, row: u64, len: u32, out: &mut BytesMut) -> Result<(), NoMemory>
        requires open { is_open row self.old ≡ true }
        requires within { len ≤ length (left_of row self.old) }
        ensures bytes { OnOk result (out.new.items ≡ out.old.items ++ take len (left_of row self.old)) }
        ensures ok { OnOk result (self.new ≡ after_taking row len self.old) }
        ensures left { OnOk result ((t : ℕ) → left_of t self.new ≡ (if t == row then drop len (left_of row self.old) else left_of t self.old)) }
        ensures err { OnErr result (self.new ≡ self.old) }
        ensures err_out { OnErr result (out.new.items ≡ out.old.items) }
    {
        let len = len as usize;
        out.reserve(len)?;
        let Some(spot) = self.state.spot_of(row) else {
            return Ok(());
        };
        let afterwards = self.state.messages.copy(spot, len, out);
        self.state.stand(row, afterwards);
        Ok(())
    }

    /// Commits the call to an open row: every other row is closed, and the messages that this one has sent whole are given up. What
    /// it has still to send stays.
    pub fn commit(&mut self, row: u64)
        requires { is_open row self.old ≡ true }
        ensures after { self.new ≡ committed_to row self.old }
        ensures left { (t : ℕ) → left_of t self.new ≡ (if t == row then left_of row self.old else []) }
    {
        if let Some(spot) = self.state.spot_of(row) {
            self.state.commit_at(row, spot);
        }
    }

    /// Closes a row; one that isn't open changes nothing. A call that is committed to it stays so, and what the row hadn't sent is
    /// held until the call is committed to another.
    pub fn close(&mut self, row: u64)
        ensures { self.new ≡ closed row self.old }
    {
        if self.state.is_committed_row(row) {
            self.state.shut();
        } else {
            remove_cursor(&mut self.state.cursors, row);
        }
    }

    /// Appends a framed message. `outstanding` is the open row to which the call is committed where its messages overflow the buffer.
    pub fn push(&mut self, framed: Octets, outstanding: Option<u64>) -> Result<Pushed, PushFault>
        requires limit { length framed ≤ 4194309 }
        requires open { IfSome outstanding (λ row. is_open row self.old ≡ true) }
        ensures answer { result ≢ Err PushFault.NoMemory → result ≡ push_answer self.old (length framed) outstanding }
        ensures ok { IfOk result (λ pushed. self.new ≡ pushed_to self.old framed pushed outstanding) }
        ensures err { OnErr result (self.new ≡ self.old) }
    {
        let held = self.held();
        if self.state.committed.is_some() {
            if held >= Buffer::COMMITTED {
                return Err(PushFault::Full { held });
            }
            self.append(framed)?;
            return Ok(Pushed::Kept);
        }
        if held as usize + framed.len() <= Buffer::UNCOMMITTED {
            self.append(framed)?;
            return Ok(Pushed::Kept);
        }
        let Some(row) = outstanding else {
            return Err(PushFault::Full { held });
        };
        self.overflow(framed, row)?;
        Ok(Pushed::Overflow)
    }

    /// Appends a message for which there is room; one of no bytes is none.
    fn append(&mut self, framed: Octets) -> Result<(), NoMemory>
        requires limit { length framed ≤ 4194309 }
        requires room { length (text_of self.old) + length framed ≤ (if is_some self.old.committed then 8454153 else 262144) }
        ensures ok { OnOk result (self.new ≡ appended framed self.old) }
        ensures err { OnErr result (self.new ≡ self.old) }
    {
        if framed.is_empty() {
            return Ok(());
        }
        self.append_filled(framed)
    }

    fn append_filled(&mut self, framed: Octets) -> Result<(), NoMemory>
        requires filled { 0 < length framed }
        requires limit { length framed ≤ 4194309 }
        requires room { length (text_of self.old) + length framed ≤ (if is_some self.old.committed then 8454153 else 262144) }
        ensures ok { OnOk result (self.new ≡ record self.old { messages = self.old.messages ++ framed ∷ [] }) }
        ensures err { OnErr result (self.new ≡ self.old) }
    {
        self.state.messages.push(framed)?;
        Ok(())
    }

    /// Appends a message, and commits the call to a row.
    fn overflow(&mut self, framed: Octets, row: u64) -> Result<(), NoMemory>
        requires filled { 0 < length framed }
        requires limit { length framed ≤ 4194309 }
        requires uncommitted { self.old.committed ≡ None }
        requires open { is_open row self.old ≡ true }
        ensures ok { OnOk result (self.new ≡ committed_to row (appended framed self.old)) }
        ensures err { OnErr result (self.new ≡ self.old) }
    {
        let Some(spot) = self.state.spot_of(row) else {
            return Ok(());
        };
        self.state.messages.push(framed)?;
        self.state.commit_at(row, spot);
        Ok(())
    }
}
