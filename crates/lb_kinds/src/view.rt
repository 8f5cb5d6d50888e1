// The view of a policy, with its states kept, so that a pick request costs one pass at most.
ghost use Rattle.std.specs.Prelude.{◌≡◌, ◌<◌, [], map, take, drop, slice_get, IfSome};
ghost use Rattle.std.specs.List.{position_from};
ghost use Rattle.lb_policy.specs.Table.{is_ready, is_open, is_starting, subs_in, state_of_view, lasting_state, upholds_tier, IsView};
ghost use Rattle.lb_policy.specs.Steps.{noted_sub, failed_in, failed_after};

use crate::marked::Marked;
use crate::scan;
use arrayvec::ArrayVec;
use grpc_base::Conn;
use lb_policy::SubSeen;
use std::marker::Model;

/// The subchannels that a policy was given, and which of them have failed: they were in TRANSIENT_FAILURE, and have not
/// been READY since.
#[derive(Debug, Drop)]
pub struct View {
    subs: ArrayVec<Marked, 64>,
    state: Conn,
    lasting: Conn,
}

impl Model for View {
    ghost use Rattle.lb_kinds.specs.Seen.{Viewed, IsKept, viewed};

    ghost Value = { Viewed };

    ghost view = { λ v. viewed v.subs.items };

    ghost invariant = { λ v. IsKept v.subs.items v.state v.lasting };
}

impl View {
    /// The empty view.
    pub fn new() -> View
        ensures { result ≡ record { subs = []; failed = [] } }
    {
        View {
            subs: ArrayVec::new(),
            state: Conn::Failure,
            lasting: Conn::Failure,
        }
    }

    /// Takes these subchannels in place of those that it had. Those have failed that are in TRANSIENT_FAILURE, or had
    /// failed before and are not READY.
    pub fn set(&mut self, subs: &[SubSeen])
        requires { IsView subs.now }
        ensures { self.new ≡ record { subs = subs.now; failed = failed_in self.old.failed subs.now } }
    {
        let marked = scan::mark_all(self.subs.as_slice(), subs);
        self.state = scan::state_of(marked.as_slice());
        self.lasting = scan::lasting_state_of(marked.as_slice());
        self.subs = marked;
    }

    /// Notes the state of one subchannel: in TRANSIENT_FAILURE it has failed, until it is READY.
    pub fn note(&mut self, sub: u32, state: Conn)
        ensures { self.new ≡ record { subs = map (noted_sub sub state) self.old.subs; failed = failed_after sub state self.old.failed self.old.subs } }
    {
        scan::note_in(self.subs.as_mut_slice(), sub, state);
        self.state = scan::state_of(self.subs.as_slice());
        self.lasting = scan::lasting_state_of(self.subs.as_slice());
    }

    /// READY, CONNECTING or TRANSIENT_FAILURE by the states of the subchannels alone.
    pub fn state(&self) -> Conn
        ensures { result ≡ state_of_view self.now.subs }
    {
        self.state
    }

    /// The same where a subchannel has failed until it is READY.
    pub fn lasting_state(&self) -> Conn
        ensures { result ≡ lasting_state self.now.failed self.now.subs }
    {
        self.lasting
    }

    /// The first READY subchannel.
    pub fn first_ready(&self) -> Option<u32>
        ensures { result ≡ slice_get (subs_in is_ready self.now.subs) 0 }
    {
        scan::first_ready(self.subs.as_slice())
    }

    /// The first subchannel that is not in TRANSIENT_FAILURE.
    pub fn first_open(&self) -> Option<u32>
        ensures { result ≡ slice_get (subs_in is_open self.now.subs) 0 }
    {
        scan::first_open(self.subs.as_slice())
    }

    /// All READY subchannels.
    pub fn all_ready(&self) -> ArrayVec<u32, 64>
        ensures { result.items ≡ subs_in is_ready self.now.subs }
    {
        scan::all_ready(self.subs.as_slice())
    }

    /// All subchannels that are IDLE or CONNECTING.
    pub fn all_starting(&self) -> ArrayVec<u32, 64>
        ensures { result.items ≡ subs_in is_starting self.now.subs }
    {
        scan::all_starting(self.subs.as_slice())
    }

    /// The place of the first READY subchannel, from 0.
    pub fn place_of_ready(&self) -> Option<usize>
        ensures place { result ≡ position_from (λ s. is_ready s.state) 0 self.now.subs }
        ensures within { IfSome result (λ place. place < 64) }
    {
        scan::place_of_ready(self.subs.as_slice())
    }

    /// The place of the first subchannel that is READY or has not failed, from 0.
    pub fn place_of_upholding(&self) -> Option<usize>
        ensures place { result ≡ position_from (upholds_tier self.now.failed) 0 self.now.subs }
        ensures within { IfSome result (λ place. place < 64) }
    {
        scan::place_of_upholding(self.subs.as_slice())
    }

    /// The READY ones of so many subchannels from a place on.
    pub fn ready_from(&self, place: usize, count: usize) -> ArrayVec<u32, 64>
        ensures { result.items ≡ subs_in is_ready (take count (drop place self.now.subs)) }
    {
        scan::all_ready(part(self.subs.as_slice(), place, count))
    }

    /// Those of the first so many subchannels that are IDLE or CONNECTING.
    pub fn starting_of_first(&self, count: usize) -> ArrayVec<u32, 64>
        ensures { result.items ≡ subs_in is_starting (take count self.now.subs) }
    {
        scan::all_starting(part(self.subs.as_slice(), 0, count))
    }
}

/// So many elements from a place on, as far as there are any.
fn part(subs: &[Marked], place: usize, count: usize) -> &[Marked]
    ensures { result.now ≡ take count (drop place subs.now) }
{
    let rest = &subs[place.min(subs.len())..];
    &rest[..count.min(rest.len())]
}
