// The calls and the ledger of a channel, as its links are lent them for the requests of their attempts.
ghost use Rattle.std.specs.Prelude.{◌≡◌, ◌≢◌, ◌≤◌, ◌+◌, [], length, IfOk, OnOk};
ghost use Rattle.std.specs.Option.{option_copied};
ghost use Rattle.attempt_ledger.specs.declared.ledger.Ledger.{Ledger};
ghost use Rattle.grpc_base.specs.Authorities.{IsAuthority};
ghost use Rattle.call_core.specs.Steps as step;
ghost use Rattle.h2_hpack.specs.Tables.{list_size};
ghost use Rattle.channel_core.specs.CallEvents.{reply_by, step_by};
ghost use Rattle.channel_core.specs.Tables.{finish_reply_of, no_buckets, take_reply_of};
ghost use Rattle.channel_core.specs.Books.{blank_request, book_acted, book_asked, book_begun, book_configured, book_finished, book_placed, book_taken, bucket_set, call_of, has_drawn, has_ended, has_stream, head_for, head_of, lacks_call, left_until, limit_at, lines_of, link_at, link_of, no_ledger, row_at, slot_at, timers_set, waits_at};

use crate::state::authority::Authority;
use crate::state::buckets::Buckets;
use crate::state::call_event::CallEvent;
use crate::state::slots::Slots;
use attempt_ledger::{Ledger, LinkSeen, News, Placed, Row};
use bytes::BytesMut;
use call_core::{Call, CallAct};
use grpc_base::{
    Chosen, Duration, Field, Fields, Items, Moment, NoMemory, Octets, Refusal, Reply, Request,
    Text, Throttle,
};
use grpc_meta::request_fields;
use h2_link::Feed;
use ledger_stamps::{add_call, link_gone, link_read};
use std::alloc::Global;

/// The calls, their buckets, and what the channel did, at the moment of the step.
#[derive(Drop)]
pub struct Book {
    pub alloc: Global,
    pub authority: Authority,
    pub moment: Moment,
    pub ledger: Ledger,
    pub calls: Slots,
    pub buckets: Buckets,
}

impl Book {
    pub fn new(alloc: Global, authority: Authority, moment: Moment) -> Result<Book, NoMemory>
        ensures { IfOk result (λ b. b ≡ record b { authority = authority; moment = moment; ledger = no_ledger; calls = []; buckets = no_buckets }) }
    {
        let buckets = Buckets::new(alloc)?;
        Ok(Book {
            alloc,
            authority,
            moment,
            ledger: Ledger::new(alloc),
            calls: Slots::new(alloc),
            buckets,
        })
    }

    /// The row at a place.
    pub fn row(&self, place: u64) -> Option<&Row>
        ensures { option_copied result ≡ row_at self.now place }
    {
        self.ledger.rows.get((place as usize).checked_sub(1)?)
    }

    /// The link of a number, as the ledger has it.
    pub fn link(&self, link: u32) -> Option<&LinkSeen>
        ensures { option_copied result ≡ link_at self.now link }
    {
        self.ledger.links.get((link as usize).checked_sub(1)?)
    }

    /// The call of the row at a place; 0, which is no call's number, where there is no row.
    pub fn call_of_row(&self, place: u64) -> u32
        ensures { result ≡ call_of (row_at self.now place) }
    {
        self.row(place).map_or(0, |row| row.call)
    }

    /// The link of the row at a place; 0, which is no link's number, where it has none.
    pub fn link_of_row(&self, place: u64) -> u32
        ensures { result ≡ link_of (row_at self.now place) }
    {
        self.row(place)
            .and_then(|row| row.placed)
            .map_or(0, |placed| placed.link)
    }

    pub fn has_ended(&self, place: u64) -> bool
        ensures { result ≡ has_ended (row_at self.now place) }
    {
        self.row(place).is_none_or(|row| row.ended.is_some())
    }

    pub fn has_stream(&self, place: u64) -> bool
        ensures { result ≡ has_stream (row_at self.now place) }
    {
        self.row(place).is_some_and(|row| row.stream.is_some())
    }

    /// Whether a random word was drawn at the end of the row at a place.
    pub fn has_drawn(&self, place: u64) -> bool
        ensures { result ≡ has_drawn (row_at self.now place) }
    {
        self.row(place)
            .and_then(|row| row.ended.as_ref())
            .is_some_and(|end| end.word.is_some())
    }

    pub fn lacks_call(&self, call: u32) -> Option<Refusal>
        ensures { result ≡ lacks_call (slot_at self.now call) }
    {
        self.calls
            .get(call)
            .is_none()
            .then_some(Refusal::NoSuchCall)
    }

    pub fn waits(&self, call: u32) -> bool
        ensures { result ≡ waits_at (slot_at self.now call) }
    {
        self.calls.get(call).is_some_and(|slot| slot.call.waits())
    }

    /// The limit on each message of a call's response.
    pub fn response_limit(&self, call: u32) -> u32
        ensures { result ≡ limit_at (slot_at self.now call) }
    {
        self.calls
            .get(call)
            .and_then(|slot| slot.call.chosen())
            .map_or(0, |chosen| chosen.response.bytes())
    }

    /// Notes the moments for which the timers of a call stand.
    pub fn set_timers(&mut self, call: u32, due: Option<u64>, deadline: Option<u64>)
        ensures { self.new ≡ timers_set due deadline call self.old }
    {
        if let Some(slot) = self.calls.get_mut(call) {
            slot.due = due;
            slot.deadline = deadline;
        }
    }

    pub fn begin(&mut self, request: &Request) -> Result<u32, NoMemory>
        ensures book { OnOk result (self.new ≡ book_begun request.now self.old) }
        ensures number { IfOk result (λ n. n ≡ length self.old.ledger.calls + 1) }
    {
        let request = request.copy()?;
        let number = add_call(self.alloc, &mut self.ledger.calls, self.ledger.entry)?;
        let call = Call::new(self.alloc, number, request, self.moment);
        self.calls.push(call)?;
        Ok(number)
    }

    /// A call that has no configuration yet gets the bucket of the config that is held.
    fn set_bucket(&mut self, call: u32)
        ensures { self.new ≡ record self.old { calls = bucket_set call self.old } }
    {
        if let Some(slot) = self.calls.get_mut(call) {
            slot.set_bucket(self.buckets.last());
        }
    }

    pub fn configure(&mut self, call: u32, chosen: Chosen) -> Result<Items<CallAct>, NoMemory>
        ensures book { OnOk result (self.new ≡ (book_configured chosen call self.old).book) }
        ensures acts { IfOk result (λ acts. acts ≡ (book_configured chosen call self.old).acts) }
    {
        self.set_bucket(call);
        let Some(slot) = self.calls.get_mut(call) else {
            return Ok(Items::new(self.alloc));
        };
        slot.call.configure(&mut self.ledger, chosen, self.moment)
    }

    /// Does to a call what an event says. Nothing where there is no such call.
    pub fn act_on(
        &mut self,
        call: u32,
        event: &CallEvent,
    ) -> Result<(Reply, Items<CallAct>), NoMemory>
        ensures reply { IfOk result (λ r. r.0 ≡ reply_by event.now (slot_at self.old call)) }
        ensures book { OnOk result (self.new ≡ (book_asked (step_by event.now self.old.moment) call self.old).book) }
        ensures acts { IfOk result (λ r. r.1 ≡ (book_asked (step_by event.now self.old.moment) call self.old).acts) }
    {
        let Some(slot) = self.calls.get_mut(call) else {
            return Ok((Reply::Done, Items::new(self.alloc)));
        };
        let none = None;
        let tokens = self.buckets.tokens(slot.bucket, &none);
        event.act(&mut slot.call, &mut self.ledger, self.moment, tokens)
    }

    #[tactic(auto, using(crate::proofs::BookLaws::put_back))]
    pub fn news(
        &mut self,
        call: u32,
        row: u64,
        news: News,
        word: u64,
    ) -> Result<Items<CallAct>, NoMemory>
        ensures book { OnOk result (self.new ≡ (book_acted (step.received_news row news self.old.moment word) call self.old).book) }
        ensures acts { IfOk result (λ acts. acts ≡ (book_acted (step.received_news row news self.old.moment word) call self.old).acts) }
    {
        let Some(slot) = self.calls.get_mut(call) else {
            return Ok(Items::new(self.alloc));
        };
        let mut tokens = self.buckets.take(slot.bucket);
        let acts = slot.call.news(&mut self.ledger, row, news, self.moment, word, &mut tokens)?;
        self.buckets.put(slot.bucket, tokens);
        Ok(acts)
    }

    pub fn placed(&mut self, call: u32, row: u64, at: Placed) -> Result<Items<CallAct>, NoMemory>
        ensures book { OnOk result (self.new ≡ (book_placed row at call self.old).book) }
        ensures acts { IfOk result (λ acts. acts ≡ (book_placed row at call self.old).acts) }
    {
        let Some(slot) = self.calls.get_mut(call) else {
            return Ok(Items::new(self.alloc));
        };
        slot.call.placed(&mut self.ledger, row, at)
    }

    pub fn finish(&mut self, call: u32) -> Reply
        ensures reply { result ≡ finish_reply_of (slot_at self.old call) }
        ensures book { self.new ≡ book_finished call self.old }
    {
        match self.calls.get_mut(call) {
            Some(slot) => slot.call.finish(),
            None => Reply::Done,
        }
    }

    pub fn take(&mut self, call: u32) -> Result<Reply, NoMemory>
        ensures reply { IfOk result (λ r. r ≡ take_reply_of self.old.ledger (slot_at self.old call)) }
        ensures book { OnOk result (self.new ≡ book_taken call self.old) }
    {
        match self.calls.get_mut(call) {
            Some(slot) => slot.call.take(&self.ledger),
            None => Ok(Reply::Done),
        }
    }

    /// The request of an attempt of a call.
    fn head_for(&self, row: &Row) -> Result<Fields, NoMemory>
        ensures fields { IfOk result (λ f. f ≡ head_for self.now row.now (slot_at self.now row.now.call)) }
        ensures some { IfOk result (λ f. f ≢ []) }
        ensures size { IfOk result (λ f. list_size f ≤ 16384) }
    {
        let Some(slot) = self.calls.get(row.call) else {
            return blank_request(self.alloc);
        };
        request_fields(
            self.alloc,
            slot.call.request(),
            self.authority.text(),
            left_until(self.moment, slot.call.deadline_at()),
            row.number.max(1),
        )
    }
}

/// The time that is left until a deadline, in nanoseconds, from 1 to the longest.
fn left_until(moment: Moment, deadline: Option<u64>) -> Option<u64>
    ensures { result ≡ left_until moment deadline }
{
    match deadline {
        Some(deadline) => Some(
            deadline
                .saturating_sub(moment.nanos())
                .max(1)
                .min(Duration::LIMIT),
        ),
        None => None,
    }
}

/// The request for a tag that names no attempt.
fn blank_request(alloc: Global) -> Result<Fields, NoMemory>
    ensures { IfOk result (λ f. f ≡ blank_request) }
{
    let mut fields = Fields::new(alloc);
    fields.push(Field {
        name: Octets::of_static(b":method"),
        value: Octets::of_static(b"POST"),
    })?;
    Ok(fields)
}

impl Feed for Book {
    ghost use Rattle.channel_core.specs.Books.{lines_of};
    ghost use Rattle.channel_core.specs.Feeding.{IsFed, fed_on, fed_self};

    ghost lines = { lines_of };

    ghost same = { IsFed };

    ghost same_self = { fed_self };

    ghost same_on = { fed_on };

    fn head(&mut self, tag: u64) -> Result<Fields, NoMemory> {
        match self.row(tag) {
            Some(row) => self.head_for(row),
            None => blank_request(self.alloc),
        }
    }

    fn ready(&self, tag: u64) -> (u64, bool) {
        match self.calls.get(self.call_of_row(tag)) {
            Some(slot) => slot.call.ready(tag),
            None => (0, false),
        }
    }

    fn take(&mut self, tag: u64, len: u32, out: &mut BytesMut) -> Result<(), NoMemory> {
        let call = self.call_of_row(tag);
        self.calls.feed(call, tag, len, out)
    }
}
