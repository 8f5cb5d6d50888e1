// The calls of a connection, and what its streams ask of them.
ghost use Rattle.std.specs.Prelude.{◌≡◌, ◌<◌, ◌==◌, ◌++◌, ◌∷◌, [], filter, length, not, OnOk, IfSome, Result, slice_get, true};
ghost use Rattle.std.specs.List.{list_any};
ghost use Rattle.grpc_base.specs.declared.event.Event.TheVariants as event;
ghost use Rattle.grpc_base.specs.declared.request.Request.{Request};
ghost use Rattle.live_pump.specs.Pumps.{HandleSeen};
ghost use Rattle.relay_asks.specs.Asking.{stream_of};
ghost use Rattle.relay_asks.specs.declared.ask.RelayAsk.TheVariants as ask;
ghost use Rattle.relay_calls.specs.Calls.{begun, closed, dropped, held, is_live, no_calls, settled, silenced, waits};
ghost use Rattle.relay_calls.specs.Taking.{GivesUpAll, GivesUpAt, TakesAt, ReportsError};
ghost use Rattle.relay_calls.specs.Posting.{Becomes, Eyes, PostsAll, PostsAs, PostsAsk, PostsNow, PostsTurn, Sends, SendsIf, ReportsThat, came_of, eyes_of, is_held, length_of};

use crate::call::{RelayCall, number_of, place_of};
use crate::fault::CallsFault;
use crate::takes::{give_up, take_one};
use grpc_base::{Event, Glance, NoMemory, Octets, Post, PostError, Reply, Request};
use relay_asks::RelayAsk;
use std::alloc::Global;
use std::marker::Model;
use std::mem;

/// The calls of a connection's streams at a channel, and the asks that wait for room. After out of memory they are of no use any more.
#[derive(Debug, Drop)]
pub struct RelayCalls {
    alloc: Global,
    /// The calls that were begun and are not over, in the order of their Begins.
    calls: Vec<RelayCall>,
    /// The asks that wait, in order.
    waiting: Vec<RelayAsk>,
}

impl Model for RelayCalls {
    ghost use Rattle.relay_calls.specs.Calls.{Calls};

    ghost Value = { Calls };

    ghost view = { λ c. record { calls = c.calls.items; waiting = c.waiting.items } };
}

/// The length of a message, for a look at the channel.
fn length_of(message: &Octets) -> u32
    ensures { result ≡ length_of message.now }
{
    u32::try_from(message.len()).unwrap_or(u32::MAX)
}

/// Keeps the asks of other streams.
fn keep_others(asks: &mut Vec<RelayAsk>, stream: u32)
    ensures { asks.new.items ≡ filter (λ a. not (stream_of a == stream)) asks.old.items }
{
    asks.retain(|a| a.stream() != stream);
}

/// Keeps the calls that are not over.
fn keep_live(calls: &mut Vec<RelayCall>)
    ensures { calls.new.items ≡ filter is_live calls.old.items }
{
    calls.retain(|c| c.is_live());
}

impl RelayCalls {
    /// No calls.
    pub fn new(alloc: Global) -> RelayCalls
        ensures { result ≡ no_calls }
    {
        RelayCalls {
            alloc,
            calls: Vec::new(alloc),
            waiting: Vec::new(alloc),
        }
    }

    /// How many calls there are.
    pub fn len(&self) -> usize
        ensures { result ≡ length self.now.calls }
    {
        self.calls.len()
    }

    /// Whether an ask of a stream waits.
    fn waits(&self, stream: u32) -> bool
        ensures { result ≡ waits self.now stream }
    {
        self.waiting.iter().any(|a| a.stream() == stream)
    }

    /// Whether an ask waits since one of its stream does. A Cancel does not.
    fn is_held(&self, ask: &RelayAsk) -> bool
        ensures { result ≡ is_held self.now ask.now }
    {
        match ask {
            RelayAsk::Cancel { stream: _ } => false,
            _ => self.waits(ask.stream()),
        }
    }

    /// An ask waits.
    fn hold(&mut self, ask: RelayAsk) -> Result<(), NoMemory>
        ensures { OnOk result (self.new ≡ held self.old ask) }
    {
        self.waiting.push(ask)?;
        Ok(())
    }

    /// The asks of a stream that wait are dropped.
    fn drop_waiting(&mut self, stream: u32)
        ensures { self.new ≡ dropped self.old stream }
    {
        keep_others(&mut self.waiting, stream);
    }

    /// Takes the asks that wait.
    fn take_waiting(&mut self) -> Vec<RelayAsk>
        ensures taken { result.items ≡ self.old.waiting }
        ensures rest { self.new ≡ record self.old { waiting = [] } }
    {
        mem::replace(&mut self.waiting, Vec::new(self.alloc))
    }

    /// The stream asks no more but a Cancel.
    fn silence(&mut self, stream: u32)
        ensures { self.new ≡ silenced self.old stream }
    {
        if let Some(place) = place_of(&self.calls, stream) {
            self.calls[place].asking = false;
        }
    }

    /// Nothing more of the call of a stream is asked or taken.
    fn close(&mut self, stream: u32)
        ensures { self.new ≡ closed self.old stream }
    {
        if let Some(place) = place_of(&self.calls, stream) {
            let call = &mut self.calls[place];
            call.asking = false;
            call.is_open = false;
        }
    }

    /// A call was begun.
    fn keep(&mut self, stream: u32, call: u32) -> Result<(), NoMemory>
        ensures { OnOk result (self.new ≡ begun self.old stream call) }
    {
        self.calls.push(RelayCall {
            stream,
            call,
            asking: true,
            is_open: true,
        })?;
        Ok(())
    }

    /// The calls that are over are forgotten.
    pub fn settle(&mut self)
        ensures { self.new ≡ settled self.old }
    {
        keep_live(&mut self.calls);
    }

    /// Begins a call.
    fn begin<P: Post>(
        &mut self,
        post: &mut P,
        stream: u32,
        request: Request,
    ) -> Result<(), CallsFault>
        ensures posted { let eyes : Eyes P = eyes_of P.made P.errors P.last_error P.looks P.last_look in PostsAs eyes (event.Begin request) self.old (ask.Begin stream request) post.old self.new post.new result }
        ensures reports_that { let before : HandleSeen = record { made = P.made post.old; errors = P.errors post.old; last = P.last_error post.old } in let after : HandleSeen = record { made = P.made post.new; errors = P.errors post.new; last = P.last_error post.new } in ReportsThat before after result }
        ensures share { P.share post.new ≡ P.share post.old }
    {
        let came = post.post(Event::Begin { request });
        self.note_begun(stream, came)
    }

    /// What a Begin came to.
    fn note_begun(&mut self, stream: u32, came: Result<Reply, PostError>) -> Result<(), CallsFault>
        ensures { (request : Request) → Becomes self.old (came_of self.old (ask.Begin stream request) came) self.new result }
    {
        match came? {
            Reply::Call { call } => Ok(self.keep(stream, call)?),
            Reply::Refused { refusal } => Err(CallsFault::Gone {
                refusal: refusal.number(),
            }),
            _ => Ok(()),
        }
    }

    /// Posts a message for which a look showed room. It waits where it is answered that there is none.
    fn send_now<P: Post>(
        &mut self,
        post: &mut P,
        stream: u32,
        call: u32,
        message: Octets,
    ) -> Result<(), CallsFault>
        ensures posted { let eyes : Eyes P = eyes_of P.made P.errors P.last_error P.looks P.last_look in SendsIf eyes true call message self.old (ask.Send stream message) post.old self.new post.new result }
        ensures reports_that { let before : HandleSeen = record { made = P.made post.old; errors = P.errors post.old; last = P.last_error post.old } in let after : HandleSeen = record { made = P.made post.new; errors = P.errors post.new; last = P.last_error post.new } in ReportsThat before after result }
        ensures share { P.share post.new ≡ P.share post.old }
    {
        let posted = message.share()?;
        let came = post.post(Event::Send {
            call,
            message: posted,
        });
        self.note_sent(stream, message, came)
    }

    /// What a Send came to.
    fn note_sent(
        &mut self,
        stream: u32,
        message: Octets,
        came: Result<Reply, PostError>,
    ) -> Result<(), CallsFault>
        ensures { Becomes self.old (came_of self.old (ask.Send stream message) came) self.new result }
    {
        match came? {
            Reply::Full { held: _ } => Ok(self.hold(RelayAsk::Send { stream, message })?),
            _ => Ok(()),
        }
    }

    /// Posts a message where a look shows room for it; else it waits.
    fn send<P: Post + Glance>(
        &mut self,
        post: &mut P,
        stream: u32,
        call: u32,
        message: Octets,
    ) -> Result<(), CallsFault>
        ensures posted { let eyes : Eyes P = eyes_of P.made P.errors P.last_error P.looks P.last_look in Sends eyes call message self.old (ask.Send stream message) post.old self.new post.new result }
        ensures reports_that { let before : HandleSeen = record { made = P.made post.old; errors = P.errors post.old; last = P.last_error post.old } in let after : HandleSeen = record { made = P.made post.new; errors = P.errors post.new; last = P.last_error post.new } in ReportsThat before after result }
        ensures share { P.share post.new ≡ P.share post.old }
    {
        if post.can_send(call, length_of(&message)) {
            return self.send_now(post, stream, call, message);
        }
        Ok(self.hold(RelayAsk::Send { stream, message })?)
    }

    /// Says that a stream has no further message. A refusal is passed over.
    fn finish<P: Post>(&mut self, post: &mut P, stream: u32, call: u32) -> Result<(), CallsFault>
        ensures posted { let eyes : Eyes P = eyes_of P.made P.errors P.last_error P.looks P.last_look in PostsAs eyes (event.Finish call) self.old (ask.Finish stream) post.old self.new post.new result }
        ensures reports_that { let before : HandleSeen = record { made = P.made post.old; errors = P.errors post.old; last = P.last_error post.old } in let after : HandleSeen = record { made = P.made post.new; errors = P.errors post.new; last = P.last_error post.new } in ReportsThat before after result }
        ensures share { P.share post.new ≡ P.share post.old }
    {
        let came = post.post(Event::Finish { call });
        self.note_finished(stream, came)
    }

    /// What a Finish came to.
    fn note_finished(
        &mut self,
        stream: u32,
        came: Result<Reply, PostError>,
    ) -> Result<(), CallsFault>
        ensures { Becomes self.old (came_of self.old (ask.Finish stream) came) self.new result }
    {
        drop(came?);
        self.silence(stream);
        Ok(())
    }

    /// Gives a call up. A refusal is passed over.
    fn cancel<P: Post>(&mut self, post: &mut P, stream: u32, call: u32) -> Result<(), CallsFault>
        ensures posted { let eyes : Eyes P = eyes_of P.made P.errors P.last_error P.looks P.last_look in PostsAs eyes (event.Cancel call) self.old (ask.Cancel stream) post.old self.new post.new result }
        ensures reports_that { let before : HandleSeen = record { made = P.made post.old; errors = P.errors post.old; last = P.last_error post.old } in let after : HandleSeen = record { made = P.made post.new; errors = P.errors post.new; last = P.last_error post.new } in ReportsThat before after result }
        ensures share { P.share post.new ≡ P.share post.old }
    {
        let came = post.post(Event::Cancel { call });
        self.note_cancelled(stream, came)
    }

    /// What a Cancel came to.
    fn note_cancelled(
        &mut self,
        stream: u32,
        came: Result<Reply, PostError>,
    ) -> Result<(), CallsFault>
        ensures { Becomes self.old (came_of self.old (ask.Cancel stream) came) self.new result }
    {
        drop(came?);
        self.close(stream);
        Ok(())
    }

    /// Posts an ask whose stream does not wait, or a Cancel.
    fn post_now<P: Post + Glance>(&mut self, post: &mut P, ask: RelayAsk) -> Result<(), CallsFault>
        ensures posted { let eyes : Eyes P = eyes_of P.made P.errors P.last_error P.looks P.last_look in PostsNow eyes self.old ask post.old self.new post.new result }
        ensures reports_that { let before : HandleSeen = record { made = P.made post.old; errors = P.errors post.old; last = P.last_error post.old } in let after : HandleSeen = record { made = P.made post.new; errors = P.errors post.new; last = P.last_error post.new } in ReportsThat before after result }
        ensures share { P.share post.new ≡ P.share post.old }
    {
        match ask {
            RelayAsk::Begin { stream, request } => self.begin(post, stream, request),
            RelayAsk::Send { stream, message } => match number_of(&self.calls, stream) {
                Some(call) => self.send(post, stream, call, message),
                None => Ok(()),
            },
            RelayAsk::Finish { stream } => match number_of(&self.calls, stream) {
                Some(call) => self.finish(post, stream, call),
                None => Ok(()),
            },
            RelayAsk::Cancel { stream } => {
                self.drop_waiting(stream);
                match number_of(&self.calls, stream) {
                    Some(call) => self.cancel(post, stream, call),
                    None => Ok(()),
                }
            }
        }
    }

    /// Posts an ask, or keeps it waiting.
    fn post_ask<P: Post + Glance>(&mut self, post: &mut P, ask: RelayAsk) -> Result<(), CallsFault>
        ensures posted { let eyes : Eyes P = eyes_of P.made P.errors P.last_error P.looks P.last_look in PostsAsk eyes self.old ask post.old self.new post.new result }
        ensures reports_that { let before : HandleSeen = record { made = P.made post.old; errors = P.errors post.old; last = P.last_error post.old } in let after : HandleSeen = record { made = P.made post.new; errors = P.errors post.new; last = P.last_error post.new } in ReportsThat before after result }
        ensures share { P.share post.new ≡ P.share post.old }
    {
        if self.is_held(&ask) {
            return Ok(self.hold(ask)?);
        }
        self.post_now(post, ask)
    }

    /// Posts asks, one after the other.
    fn post_all<P: Post + Glance>(
        &mut self,
        post: &mut P,
        asks: Vec<RelayAsk>,
    ) -> Result<(), CallsFault>
        ensures posted { let eyes : Eyes P = eyes_of P.made P.errors P.last_error P.looks P.last_look in PostsAll eyes self.old post.old asks.items self.new post.new result }
        ensures reports_that { let before : HandleSeen = record { made = P.made post.old; errors = P.errors post.old; last = P.last_error post.old } in let after : HandleSeen = record { made = P.made post.new; errors = P.errors post.new; last = P.last_error post.new } in ReportsThat before after result }
        ensures share { P.share post.new ≡ P.share post.old }
    {
        let mut rest = asks.into_iter();
        while let Some(ask) = rest.next() {
            match self.post_ask(post, ask) {
                Ok(()) => {}
                Err(fault) => return Err(fault),
            }
        }
        Ok(())
    }

    /// Posts the asks that wait, and then these, in order. A Send for which a look shows no room, or that is answered so, waits, and the
    /// later asks of its stream with it. A Cancel does not wait: it drops those of its stream that wait. An ask of a stream for which
    /// no call was begun here is passed over, as is each refusal but that of a Begin.
    pub fn post_turn<P: Post + Glance>(
        &mut self,
        post: &mut P,
        asks: Vec<RelayAsk>,
    ) -> Result<(), CallsFault>
        ensures posted { let eyes : Eyes P = eyes_of P.made P.errors P.last_error P.looks P.last_look in PostsTurn eyes self.old post.old asks.items self.new post.new result }
        ensures reports_that { let before : HandleSeen = record { made = P.made post.old; errors = P.errors post.old; last = P.last_error post.old } in let after : HandleSeen = record { made = P.made post.new; errors = P.errors post.new; last = P.last_error post.new } in ReportsThat before after result }
        ensures share { P.share post.new ≡ P.share post.old }
    {
        let waited = self.take_waiting();
        match self.post_all(post, waited) {
            Ok(()) => self.post_all(post, asks),
            Err(fault) => Err(fault),
        }
    }
    /// The stream of the call at a place.
    pub fn stream_at(&self, place: usize) -> u32
        requires { place < length self.now.calls }
        ensures { IfSome (slice_get self.now.calls place) (λ k. result ≡ k.stream) }
    {
        self.calls[place].stream
    }

    /// Takes once of the call at a place, where it is open and a look shows that something has come: its head, a message or its end.
    pub fn take_at<P: Post + Glance>(
        &mut self,
        post: &mut P,
        place: usize,
    ) -> Result<Option<Reply>, PostError>
        requires { place < length self.old.calls }
        ensures taken { let eyes : Eyes P = eyes_of P.made P.errors P.last_error P.looks P.last_look in TakesAt eyes place self.old post.old self.new post.new result }
        ensures many { length self.new.calls ≡ length self.old.calls }
        ensures reports_that { let before : HandleSeen = record { made = P.made post.old; errors = P.errors post.old; last = P.last_error post.old } in let after : HandleSeen = record { made = P.made post.new; errors = P.errors post.new; last = P.last_error post.new } in ReportsError before after result }
        ensures share { P.share post.new ≡ P.share post.old }
    {
        take_one(post, &mut self.calls[place])
    }

    /// Gives the call at a place up, where it is open.
    fn give_up_at<P: Post>(&mut self, post: &mut P, place: usize) -> Result<(), PostError>
        requires { place < length self.old.calls }
        ensures given_up { let eyes : Eyes P = eyes_of P.made P.errors P.last_error P.looks P.last_look in GivesUpAt eyes place self.old post.old self.new post.new result }
        ensures many { length self.new.calls ≡ length self.old.calls }
        ensures reports_that { let before : HandleSeen = record { made = P.made post.old; errors = P.errors post.old; last = P.last_error post.old } in let after : HandleSeen = record { made = P.made post.new; errors = P.errors post.new; last = P.last_error post.new } in ReportsError before after result }
        ensures share { P.share post.new ≡ P.share post.old }
    {
        give_up(post, &mut self.calls[place])
    }

    /// Posts a Cancel for each call that is open, in the order of their Begins, and drops the asks that wait. A refusal is passed over.
    pub fn give_up_all<P: Post>(&mut self, post: &mut P) -> Result<(), PostError>
        ensures given_up { let eyes : Eyes P = eyes_of P.made P.errors P.last_error P.looks P.last_look in GivesUpAll eyes (record self.old { waiting = [] }) post.old self.new post.new result }
        ensures reports_that { let before : HandleSeen = record { made = P.made post.old; errors = P.errors post.old; last = P.last_error post.old } in let after : HandleSeen = record { made = P.made post.new; errors = P.errors post.new; last = P.last_error post.new } in ReportsError before after result }
        ensures share { P.share post.new ≡ P.share post.old }
    {
        self.waiting.clear();
        let mut place = 0;
        while place < self.calls.len() {
            self.give_up_at(post, place)?;
            place += 1;
        }
        Ok(())
    }
}
