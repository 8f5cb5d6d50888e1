// The calls that give bytes.
ghost use Rattle.std.specs.Prelude.{◌≡◌, ◌<◌, ◌↔◌, ◌&&◌, not, IsTrue, is_some, is_none, IfOk, OnOk, None, Err};
ghost use Rattle.h2_link.specs.Drains.{Drains, next, opened_between};
ghost use Rattle.h2_link.specs.Feeds.{Holds};

use crate::fault::DrainFault;
use crate::feed::Feed;
use crate::link::{FRAME_BYTES, Link};
use crate::news::Drained;
use crate::state::State;
use bytes::BytesMut;
use grpc_base::{NoMemory, Octets};
use std::alloc::Global;

/// Room that most drains find enough, so that their memory is taken once.
const FIRST_ROOM: usize = 512;

impl State {
    /// Sends all that may be sent and fits.
    pub(crate) fn send_all<F: Feed>(
        &mut self,
        alloc: Global,
        room: u32,
        feed: &mut F,
    ) -> Result<BytesMut, NoMemory>
        requires holds { Holds self.old (F.lines feed.old) }
        ensures drains { IfOk result (λ out. Drains room self.old (F.lines feed.old) out.items self.new (F.lines feed.new)) }
        ensures same { F.same feed.old feed.new }
    {
        let mut out = BytesMut::with_capacity(alloc, FIRST_ROOM)?;
        loop {
            let left = u64::from(room) - out.len() as u64;
            if !self.send_one(alloc, left, feed, &mut out)? {
                return Ok(out);
            }
        }
    }
}

impl Link {
    /// Whether a drain with room enough would give something.
    pub fn can_drain<F: Feed>(&self, feed: &F) -> bool
        requires holds { self.now.wire.broken ≡ None → Holds self.now.wire (F.lines feed.now) }
        ensures { result ≡ is_none self.now.wire.broken && is_some (next self.now.wire (F.lines feed.now)) }
    {
        self.state.broken.is_none() && self.state.can_send(feed)
    }

    /// Gives whole frames within the room, as many as fit. First comes the preface with the client's SETTINGS, once, then the queued
    /// frames. Then come HEADERS of the tags that wait, the least first, while the peer allows more streams, and DATA of the
    /// stream with the lowest number that may send. It stops exactly where nothing may be sent, or what stands next does
    /// not fit.
    ///
    /// Gone comes exactly where the link is broken, and else RoomTooSmall exactly where the room is below 16,393 bytes.
    pub fn drain<F: Feed>(&mut self, room: u32, feed: &mut F) -> Result<Drained, DrainFault>
        requires holds { self.old.wire.broken ≡ None → Holds self.old.wire (F.lines feed.old) }
        ensures gone { (result ≡ Err DrainFault.Gone) ↔ IsTrue (is_some self.old.wire.broken) }
        ensures small { (result ≡ Err DrainFault.RoomTooSmall) ↔ ((self.old.wire.broken ≡ None) × (room < 16393)) }
        ensures same_gone { result ≡ Err DrainFault.Gone → (self.new ≡ self.old) × (F.lines feed.new ≡ F.lines feed.old) }
        ensures same_small { result ≡ Err DrainFault.RoomTooSmall → (self.new ≡ self.old) × (F.lines feed.new ≡ F.lines feed.old) }
        ensures drains { IfOk result (λ d. Drains room self.old.wire (F.lines feed.old) d.octets self.new.wire (F.lines feed.new)) }
        ensures rest { OnOk result (self.new.rest ≡ self.old.rest) }
        ensures opened { IfOk result (λ d. d.opened ≡ opened_between self.old.wire self.new.wire) }
        ensures same { F.same feed.old feed.new }
    {
        if self.state.broken.is_some() {
            return Err(DrainFault::Gone);
        }
        if (room as usize) < FRAME_BYTES {
            return Err(DrainFault::RoomTooSmall);
        }
        let alloc = self.alloc;
        let before = self.state.live_count();
        let out = self.state.send_all(alloc, room, feed)?;
        let opened = self.state.opened_from(alloc, before)?;
        let octets = Octets::of_buffer(out)?;
        Ok(Drained { octets, opened })
    }
}
