// One call, as the channel drives it.
ghost use Rattle.std.specs.Prelude.{◌≡◌, ◌≤◌, ◌==◌, ℕ, [], None, drop, if◌then◌else◌, length, IfOk, OnOk, OnErr};
ghost use Rattle.std.specs.Option.{option_copied};
ghost use Rattle.attempt_buffer.specs.Buffers.{left_of};
ghost use Rattle.call_core.specs.Parts.{fed_out};
ghost use Rattle.call_core.specs.Steps.{can_send, can_take, cancel_reply, cancelled, closed_by, configured, deadline_at, fed_row, finish_reply, finished, received_news, lent, made_due, new_call, next_due, pick_failed, placed_at, ready_of, send_reply, sent, take_reply, taken, timed_out, waits};

use crate::act::CallAct;
use crate::chosen::{deadline_at, is_too_long, waits};
use crate::new_rows::own_end;
use crate::state::CallState;
use crate::take::end_reply;
use crate::turn::Turn;
use a6_numbers::Tokens;
use attempt_ledger::{Ledger, News, Placed, RowCause};
use bytes::BytesMut;
use grpc_base::{Chosen, Code, EndCause, Items, Moment, NoMemory, Octets, Refusal, Reply, Request};
use ledger_stamps::configure_call;
use std::alloc::Global;
use std::marker::Model;

/// One call: the attempts that it makes, the messages that it sends, and what came for its application.
///
/// Its rows stand in the ledger that each call is lent; the call is found there by the number it began with, and
/// keeps the places of its own rows, so that what it does costs time in these alone. Where a place or a number names nothing of
/// this call, nothing changes. On out of memory the call and the ledger may be changed in part.
#[derive(Drop)]
pub struct Call {
    alloc: Global,
    state: CallState,
}

impl Model for Call {
    ghost use Rattle.call_core.specs.declared.state.CallState.{CallState};

    ghost Value = { CallState };

    ghost view = { λ c. c.state };
}

impl Call {
    /// A call of this number that began at this moment. It waits for its configuration.
    pub fn new(alloc: Global, call: u32, request: Request, moment: Moment) -> Call
        ensures { result ≡ new_call call request moment }
    {
        Call {
            alloc,
            state: CallState::new(alloc, call, request, moment),
        }
    }

    /// The call gets its configuration, at most once: the first attempt is due, and a message above the limit that was sent before
    /// ends the call.
    pub fn configure(
        &mut self,
        ledger: &mut Ledger,
        chosen: Chosen,
        moment: Moment,
    ) -> Result<Items<CallAct>, NoMemory>
        ensures call { OnOk result (self.new ≡ (configured chosen moment (lent self.old ledger.old None [])).call) }
        ensures ledger { OnOk result (ledger.new ≡ (configured chosen moment (lent self.old ledger.old None [])).ledger) }
        ensures acts { IfOk result (λ acts. acts ≡ (configured chosen moment (lent self.old ledger.old None [])).acts) }
    {
        let mut turn = Turn::new(self.alloc, moment, 0);
        if self.state.ended.is_some() || self.state.chosen.is_some() {
            return Ok(turn.acts);
        }
        self.state.chosen = Some(chosen);
        self.state.attempts.forced = Some(moment.nanos());
        self.state.attempts.stopped = false;
        configure_call(
            self.alloc,
            &mut ledger.calls,
            self.state.number,
            ledger.entry,
        );
        if is_too_long(&self.state.chosen, self.state.longest) {
            self.state
                .close(&mut turn, ledger, &None, EndCause::Request)?;
        }
        Ok(turn.acts)
    }

    /// The application sends a message.
    pub fn send(
        &mut self,
        ledger: &mut Ledger,
        message: Octets,
        moment: Moment,
        tokens: &Option<Tokens>,
    ) -> Result<(Reply, Items<CallAct>), NoMemory>
        ensures reply { IfOk result (λ r. r.0 ≡ send_reply message self.old) }
        ensures acts { IfOk result (λ r. r.1 ≡ (sent message moment (lent self.old ledger.old tokens.now [])).acts) }
        ensures call { OnOk result (self.new ≡ (sent message moment (lent self.old ledger.old tokens.now [])).call) }
        ensures ledger { OnOk result (ledger.new ≡ (sent message moment (lent self.old ledger.old tokens.now [])).ledger) }
    {
        let mut turn = Turn::new(self.alloc, moment, 0);
        let reply = self.state.send(&mut turn, ledger, tokens, &message)?;
        Ok((reply, turn.acts))
    }

    /// The application sends no further message.
    pub fn finish(&mut self) -> Reply
        ensures reply { result ≡ finish_reply self.old }
        ensures call { self.new ≡ finished self.old }
    {
        if let Some(refusal) = self.state.send_refusal() {
            return Reply::Refused { refusal };
        }
        self.state.is_finished = true;
        Reply::Done
    }

    /// The application takes the head, the next message or the end. Bytes are given on and not copied.
    pub fn take(&mut self, ledger: &Ledger) -> Result<Reply, NoMemory>
        ensures reply { IfOk result (λ r. r ≡ take_reply ledger.now self.old) }
        ensures call { OnOk result (self.new ≡ taken self.old) }
    {
        let call = &mut self.state;
        if call.inbox.is_end_taken {
            return Ok(Reply::Refused {
                refusal: Refusal::CallEnded,
            });
        }
        if let Some(meta) = call.inbox.head.take() {
            return Ok(Reply::Head { meta });
        }
        if let Some(octets) = call.inbox.messages.pop() {
            return Ok(Reply::Message { octets });
        }
        let Some(cause) = call.ended else {
            return Ok(Reply::NotYet);
        };
        let rows = ledger.rows.as_slice();
        let reply = end_reply(self.alloc, rows, call.attempts.committed, cause)?;
        call.inbox.is_end_taken = true;
        Ok(reply)
    }

    /// The application gives the call up.
    pub fn cancel(
        &mut self,
        ledger: &mut Ledger,
        moment: Moment,
        tokens: &Option<Tokens>,
    ) -> Result<(Reply, Items<CallAct>), NoMemory>
        ensures reply { IfOk result (λ r. r.0 ≡ cancel_reply self.old) }
        ensures acts { IfOk result (λ r. r.1 ≡ (cancelled moment (lent self.old ledger.old tokens.now [])).acts) }
        ensures call { OnOk result (self.new ≡ (cancelled moment (lent self.old ledger.old tokens.now [])).call) }
        ensures ledger { OnOk result (ledger.new ≡ (cancelled moment (lent self.old ledger.old tokens.now [])).ledger) }
    {
        if self.state.ended.is_some() {
            let refusal = Refusal::CallEnded;
            return Ok((Reply::Refused { refusal }, Items::new(self.alloc)));
        }
        let acts = self.close(ledger, EndCause::Cancelled, moment, tokens)?;
        Ok((Reply::Done, acts))
    }

    /// The channel ends the call, unless it has ended.
    pub fn close(
        &mut self,
        ledger: &mut Ledger,
        cause: EndCause,
        moment: Moment,
        tokens: &Option<Tokens>,
    ) -> Result<Items<CallAct>, NoMemory>
        ensures call { OnOk result (self.new ≡ (closed_by cause moment (lent self.old ledger.old tokens.now [])).call) }
        ensures ledger { OnOk result (ledger.new ≡ (closed_by cause moment (lent self.old ledger.old tokens.now [])).ledger) }
        ensures acts { IfOk result (λ acts. acts ≡ (closed_by cause moment (lent self.old ledger.old tokens.now [])).acts) }
    {
        let mut turn = Turn::new(self.alloc, moment, 0);
        if !self.state.ended.is_some() {
            self.state.close(&mut turn, ledger, tokens, cause)?;
        }
        Ok(turn.acts)
    }

    /// The call ends where its deadline has passed.
    pub fn deadline(
        &mut self,
        ledger: &mut Ledger,
        moment: Moment,
        tokens: &Option<Tokens>,
    ) -> Result<Items<CallAct>, NoMemory>
        ensures call { OnOk result (self.new ≡ (timed_out moment (lent self.old ledger.old tokens.now [])).call) }
        ensures ledger { OnOk result (ledger.new ≡ (timed_out moment (lent self.old ledger.old tokens.now [])).ledger) }
        ensures acts { IfOk result (λ acts. acts ≡ (timed_out moment (lent self.old ledger.old tokens.now [])).acts) }
    {
        match self.deadline_at() {
            Some(deadline) if deadline <= moment.nanos() => {
                self.close(ledger, EndCause::Deadline, moment, tokens)
            }
            Some(_) | None => Ok(Items::new(self.alloc)),
        }
    }

    /// A queued row got its link.
    pub fn placed(
        &mut self,
        ledger: &mut Ledger,
        row: u64,
        at: Placed,
    ) -> Result<Items<CallAct>, NoMemory>
        ensures call { OnOk result (self.new ≡ (placed_at row at (lent self.old ledger.old None [])).call) }
        ensures ledger { OnOk result (ledger.new ≡ (placed_at row at (lent self.old ledger.old None [])).ledger) }
        ensures acts { IfOk result (λ acts. acts ≡ (placed_at row at (lent self.old ledger.old None [])).acts) }
    {
        self.state.place(self.alloc, ledger, row, at)?;
        Ok(Items::new(self.alloc))
    }

    /// A pick request answered that a queued row fails.
    pub fn picked_fail(
        &mut self,
        ledger: &mut Ledger,
        row: u64,
        moment: Moment,
        word: u64,
        tokens: &mut Option<Tokens>,
    ) -> Result<Items<CallAct>, NoMemory>
        ensures call { OnOk result (self.new ≡ (pick_failed row moment word (lent self.old ledger.old tokens.old [])).call) }
        ensures ledger { OnOk result (ledger.new ≡ (pick_failed row moment word (lent self.old ledger.old tokens.old [])).ledger) }
        ensures acts { IfOk result (λ acts. acts ≡ (pick_failed row moment word (lent self.old ledger.old tokens.old [])).acts) }
        ensures tokens { OnOk result (tokens.new ≡ (pick_failed row moment word (lent self.old ledger.old tokens.old [])).tokens) }
    {
        let mut turn = Turn::new(self.alloc, moment, word);
        let end = own_end(self.alloc, Code::Unavailable, RowCause::Pick, 0);
        self.state.end_at(&mut turn, ledger, tokens, row, end)?;
        Ok(turn.acts)
    }

    /// News of a row from its link.
    pub fn news(
        &mut self,
        ledger: &mut Ledger,
        row: u64,
        news: News,
        moment: Moment,
        word: u64,
        tokens: &mut Option<Tokens>,
    ) -> Result<Items<CallAct>, NoMemory>
        ensures call { OnOk result (self.new ≡ (received_news row news moment word (lent self.old ledger.old tokens.old [])).call) }
        ensures ledger { OnOk result (ledger.new ≡ (received_news row news moment word (lent self.old ledger.old tokens.old [])).ledger) }
        ensures acts { IfOk result (λ acts. acts ≡ (received_news row news moment word (lent self.old ledger.old tokens.old [])).acts) }
        ensures tokens { OnOk result (tokens.new ≡ (received_news row news moment word (lent self.old ledger.old tokens.old [])).tokens) }
    {
        let mut turn = Turn::new(self.alloc, moment, word);
        self.state.receive(&mut turn, ledger, tokens, row, news)?;
        Ok(turn.acts)
    }

    /// Makes the attempt that is due at this moment, if one is. Where the tokens forbid it none is due any more.
    pub fn due(
        &mut self,
        ledger: &mut Ledger,
        moment: Moment,
        tokens: &Option<Tokens>,
    ) -> Result<Items<CallAct>, NoMemory>
        ensures call { OnOk result (self.new ≡ (made_due moment (lent self.old ledger.old tokens.now [])).call) }
        ensures ledger { OnOk result (ledger.new ≡ (made_due moment (lent self.old ledger.old tokens.now [])).ledger) }
        ensures acts { IfOk result (λ acts. acts ≡ (made_due moment (lent self.old ledger.old tokens.now [])).acts) }
    {
        let mut turn = Turn::new(self.alloc, moment, 0);
        match self.next_due() {
            Some(due) if moment.nanos() < due => {}
            Some(due) => self.state.make_at(&mut turn, ledger, tokens, due)?,
            None => {}
        }
        Ok(turn.acts)
    }

    /// The moment at which the next attempt is due, in nanoseconds.
    pub fn next_due(&self) -> Option<u64>
        ensures { result ≡ next_due self.now }
    {
        self.state.next_due()
    }

    /// What the application asked for.
    pub fn request(&self) -> &Request
        ensures { result.now ≡ self.now.request }
    {
        &self.state.request
    }

    /// The call's configuration, once it has it.
    pub fn chosen(&self) -> Option<&Chosen>
        ensures { option_copied result ≡ self.now.chosen }
    {
        self.state.chosen.as_ref()
    }

    /// Why the call ended.
    pub fn ended(&self) -> Option<EndCause>
        ensures { result ≡ self.now.ended }
    {
        self.state.ended
    }

    /// Whether the call waits for ready.
    pub fn waits(&self) -> bool
        ensures { result ≡ waits self.now }
    {
        waits(&self.state.request, &self.state.chosen)
    }

    /// The moment from which on the deadline has passed, in nanoseconds.
    pub fn deadline_at(&self) -> Option<u64>
        ensures { result ≡ deadline_at self.now }
    {
        deadline_at(self.state.begun, &self.state.request, &self.state.chosen)
    }

    /// The bytes that a row has still to send, and whether no message follows them.
    pub fn ready(&self, row: u64) -> (u64, bool)
        ensures left { result.0 ≡ ready_of row self.now }
        ensures finished { result.1 ≡ self.now.is_finished }
    {
        (self.state.buffer.ready(row), self.state.is_finished)
    }

    /// Appends the next bytes of a row; nothing where it hasn't so many to send.
    #[tactic(auto, using(crate::proofs::Feeding::unfed_left))]
    pub fn feed(&mut self, row: u64, len: u32, out: &mut BytesMut) -> Result<(), NoMemory>
        ensures call { OnOk result (self.new ≡ fed_row row len self.old) }
        ensures out { OnOk result (out.new.items ≡ fed_out row len self.old.buffer out.old.items) }
        ensures left { OnOk result (len ≤ length (left_of row self.old.buffer) → (t : ℕ) → left_of t self.new.buffer ≡ (if t == row then drop len (left_of row self.old.buffer) else left_of t self.old.buffer)) }
        ensures err { OnErr result (self.new ≡ self.old) }
    {
        let buffer = &mut self.state.buffer;
        if !buffer.is_open(row) || buffer.ready(row) < u64::from(len) {
            return Ok(());
        }
        buffer.take(row, len, out)?;
        Ok(())
    }

    /// Whether a take would not answer NotYet.
    pub fn can_take(&self, _ledger: &Ledger) -> bool
        ensures { result ≡ can_take self.now }
    {
        let call = &self.state;
        call.inbox.is_end_taken
            || call.inbox.head.is_some()
            || !call.inbox.messages.is_empty()
            || call.ended.is_some()
    }

    /// Whether a send of a message of so many bytes would not answer Full.
    pub fn can_send(&self, len: u32) -> bool
        ensures { result ≡ can_send len self.now }
    {
        let len = len as usize;
        self.state.send_refusal().is_some()
            || is_too_long(&self.state.chosen, len)
            || !self.state.full(len).is_some()
    }
}
