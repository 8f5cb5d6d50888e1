// One connection of a client, with its calls at the channel.
ghost use Rattle.std.specs.Prelude.{◌≡◌, ◌<◌, ◌≤◌, ◌↔◌, [], ℕ, length, IfOk, OnOk, Some, None, Err, Result, Option};
ghost use Rattle.grpc_base.specs.declared.event.Reply.{Reply};
ghost use Rattle.live_pump.specs.Pumps.{HandleSeen};
ghost use Rattle.relay_calls.specs.Posting.{Eyes, PostsTurn, ReportsThat, eyes_of};
ghost use Rattle.relay_calls.specs.Taking.{GivesUpAll, ReportsError};
ghost use Rattle.relay_connection.specs.Arriving.{Arrives};
ghost use Rattle.relay_connection.specs.Draining.{Drains};
ghost use Rattle.relay_connection.specs.Relay.{given, silent};
ghost use Rattle.relay_front.specs.Cores.{fresh_core};
ghost use Rattle.relay_front.specs.Turns.{Given, GivenAs, GivesAt};
ghost use Rattle.relay_calls.specs.Calls.{settled};

use grpc_base::{Glance, NoMemory, Octets, Post, PostError, Reply};
use relay_calls::{CallsFault, RelayCalls};
use relay_connection::{RelayAsk, RelayConnection, RelayFault};
use std::alloc::Global;
use std::marker::Model;

/// One connection of a client, as a relay keeps it: the connection, the calls that its streams have at the channel, and the asks that
/// wait for room there. It has no clock and no thread. After out of memory it is of no use any more.
#[derive(Debug, Drop)]
pub struct RelayCore {
    connection: RelayConnection,
    calls: RelayCalls,
}

impl Model for RelayCore {
    ghost use Rattle.relay_front.specs.Cores.{Core};

    ghost Value = { Core };

    ghost view = { λ c. record { relay = c.connection; calls = c.calls } };
}

impl RelayCore {
    /// A new connection: the server's SETTINGS are to be sent, and there are no calls.
    pub fn new(alloc: Global) -> Result<RelayCore, NoMemory>
        ensures { IfOk result (λ c. c ≡ fresh_core) }
    {
        Ok(RelayCore {
            connection: RelayConnection::new(alloc)?,
            calls: RelayCalls::new(alloc),
        })
    }

    /// Takes a piece of the client's bytes, and gives what it asks. Of the piece that breaks the protocol these are the asks of the
    /// frames before, and a Cancel for each call that is open. Broken comes exactly where a piece before broke it, with that code.
    pub fn arrived(&mut self, piece: &[u8]) -> Result<Vec<RelayAsk>, RelayFault>
        ensures broken { (code : ℕ) → (result ≡ Err (RelayFault.Broken code)) ↔ (self.old.relay.link.wire.broken ≡ Some code) }
        ensures same { (code : ℕ) → result ≡ Err (RelayFault.Broken code) → self.new ≡ self.old }
        ensures roomless { result ≡ Err RelayFault.RoomTooSmall → ⊥ }
        ensures asks { IfOk result (λ asks. Arrives (silent self.old.relay) piece.now (record { relay = self.new.relay; asks = asks.items })) }
        ensures calls { self.new.calls ≡ self.old.calls }
    {
        self.connection.arrived(piece)
    }

    /// Gives an item of the response of a stream's call: a head, a message of at most 4,194,304 bytes or the end. A call that is not
    /// open gets none: one that did not begin, that has its end, or that was cancelled.
    pub fn give(&mut self, stream: u32, item: Reply) -> Result<(), NoMemory>
        ensures { OnOk result (self.new ≡ record self.old { relay = given self.old.relay stream item }) }
    {
        self.connection.give(stream, item)
    }

    /// Gives bytes to write, whole frames, as many as the room has. First come the link's own frames: its SETTINGS, the
    /// acknowledgements of SETTINGS and PING, the WINDOW_UPDATEs for DATA, and RST_STREAM for stream errors. Then each time the next
    /// header block or DATA of the lowest stream that may send it. It stops at the first frame that has no room, for which a
    /// frame counts at least 17 bytes and a header block one more than it has, or once nothing may be sent. Broken comes exactly where
    /// the link is broken, with its code; RoomTooSmall exactly under 16,393 where it is not.
    pub fn drain(&mut self, room: u32) -> Result<Octets, RelayFault>
        ensures broken { (code : ℕ) → (result ≡ Err (RelayFault.Broken code)) ↔ (self.old.relay.link.wire.broken ≡ Some code) }
        ensures small { (result ≡ Err RelayFault.RoomTooSmall) ↔ ((self.old.relay.link.wire.broken ≡ None) × (room < 16393)) }
        ensures same { (code : ℕ) → result ≡ Err (RelayFault.Broken code) → self.new ≡ self.old }
        ensures kept { result ≡ Err RelayFault.RoomTooSmall → self.new ≡ self.old }
        ensures drains { IfOk result (λ octets. Drains room self.old.relay (record { relay = self.new.relay; octets = octets })) }
        ensures within { IfOk result (λ octets. length octets ≤ room) }
        ensures calls { self.new.calls ≡ self.old.calls }
    {
        self.connection.drain(room)
    }

    /// Posts the asks that wait, and then these, in order.
    pub(crate) fn post_asks<P: Post + Glance>(
        &mut self,
        post: &mut P,
        asks: Vec<RelayAsk>,
    ) -> Result<(), CallsFault>
        ensures posted { let eyes : Eyes P = eyes_of P.made P.errors P.last_error P.looks P.last_look in PostsTurn eyes self.old.calls post.old asks.items self.new.calls post.new result }
        ensures relay { self.new.relay ≡ self.old.relay }
        ensures reports_that { let before : HandleSeen = record { made = P.made post.old; errors = P.errors post.old; last = P.last_error post.old } in let after : HandleSeen = record { made = P.made post.new; errors = P.errors post.new; last = P.last_error post.new } in ReportsThat before after result }
        ensures share { P.share post.new ≡ P.share post.old }
    {
        self.calls.post_turn(post, asks)
    }

    /// How many calls there are.
    pub(crate) fn count(&self) -> usize
        ensures { result ≡ length self.now.calls.calls }
    {
        self.calls.len()
    }

    /// Takes once of the call at a place, where it is open and something has come, and gives its stream what came.
    pub(crate) fn take_at<P: Post + Glance>(
        &mut self,
        post: &mut P,
        place: usize,
    ) -> Result<(), CallsFault>
        requires { place < length self.old.calls.calls }
        ensures taken { let eyes : Eyes P = eyes_of P.made P.errors P.last_error P.looks P.last_look in GivesAt eyes place self.old post.old self.new post.new result }
        ensures many { OnOk result (length self.new.calls.calls ≡ length self.old.calls.calls) }
        ensures reports_that { let before : HandleSeen = record { made = P.made post.old; errors = P.errors post.old; last = P.last_error post.old } in let after : HandleSeen = record { made = P.made post.new; errors = P.errors post.new; last = P.last_error post.new } in ReportsThat before after result }
        ensures share { P.share post.new ≡ P.share post.old }
    {
        let stream = self.calls.stream_at(place);
        let came = self.calls.take_at(post, place);
        self.give_item(stream, came)
    }

    /// Gives a stream what a Take of its call came to.
    fn give_item(
        &mut self,
        stream: u32,
        came: Result<Option<Reply>, PostError>,
    ) -> Result<(), CallsFault>
        ensures given { Given self.old stream came self.new result }
        ensures calls { self.new.calls ≡ self.old.calls }
        ensures reports_that { GivenAs came result }
    {
        match came? {
            Some(item) => Ok(self.connection.give(stream, item)?),
            None => Ok(()),
        }
    }

    /// The calls that are over are forgotten.
    pub(crate) fn settle(&mut self)
        ensures { self.new ≡ record self.old { calls = settled self.old.calls } }
    {
        self.calls.settle();
    }

    /// Posts a Cancel for each call that is open.
    pub(crate) fn give_up<P: Post>(&mut self, post: &mut P) -> Result<(), PostError>
        ensures given_up { let eyes : Eyes P = eyes_of P.made P.errors P.last_error P.looks P.last_look in GivesUpAll eyes (record self.old.calls { waiting = [] }) post.old self.new.calls post.new result }
        ensures relay { self.new.relay ≡ self.old.relay }
        ensures reports_that { let before : HandleSeen = record { made = P.made post.old; errors = P.errors post.old; last = P.last_error post.old } in let after : HandleSeen = record { made = P.made post.new; errors = P.errors post.new; last = P.last_error post.new } in ReportsError before after result }
        ensures share { P.share post.new ≡ P.share post.old }
    {
        self.calls.give_up_all(post)
    }
}
