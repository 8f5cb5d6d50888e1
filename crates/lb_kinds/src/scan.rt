// Passes over the subchannels of a view.
ghost use Rattle.std.specs.Prelude.{◌≡◌, ◌<◌, ◌≤◌, length, map, not, ◌||◌, slice_get, IfSome};
ghost use Rattle.std.specs.List.{list_any, position_from};
ghost use Rattle.lb_policy.specs.Table.{has_state, is_ready, is_open, is_starting, is_one_of, subs_in, state_of_view, state_by};
ghost use Rattle.lb_kinds.specs.Seen.{plain, failed_of, marked_by, noted_mark};

use crate::conn;
use crate::marked::Marked;
use arrayvec::ArrayVec;
use grpc_base::Conn;
use lb_policy::SubSeen;

/// The state by what is READY and what may still become so.
fn state_by_hope(ready: bool, hope: bool) -> Conn
    ensures { result ≡ state_by ready hope }
{
    if ready {
        Conn::Ready
    } else if hope {
        Conn::Connecting
    } else {
        Conn::Failure
    }
}

/// The state by the states of the subchannels alone.
pub fn state_of(subs: &[Marked]) -> Conn
    ensures { result ≡ state_of_view (plain subs.now) }
{
    state_by_hope(any_ready(subs), any_open(subs))
}

/// The state where a failure lasts until its subchannel is READY.
pub fn lasting_state_of(subs: &[Marked]) -> Conn
    ensures { result ≡ state_by (has_state is_ready (plain subs.now)) (list_any (λ m. not m.failed) subs.now) }
{
    state_by_hope(any_ready(subs), any_unfailed(subs))
}

fn any_unfailed(subs: &[Marked]) -> bool
    ensures { result ≡ list_any (λ m. not m.failed) subs.now }
{
    subs.iter().any(|marked| !marked.failed)
}

fn any_ready(subs: &[Marked]) -> bool
    ensures { result ≡ has_state is_ready (plain subs.now) }
{
    for marked in subs {
        if conn::is_ready(marked.seen.state) {
            return true;
        }
    }
    false
}

fn any_open(subs: &[Marked]) -> bool
    ensures { result ≡ has_state is_open (plain subs.now) }
{
    for marked in subs {
        if conn::is_open(marked.seen.state) {
            return true;
        }
    }
    false
}

/// The first READY subchannel.
pub fn first_ready(subs: &[Marked]) -> Option<u32>
    ensures { result ≡ slice_get (subs_in is_ready (plain subs.now)) 0 }
{
    for marked in subs {
        if conn::is_ready(marked.seen.state) {
            return Some(marked.seen.sub);
        }
    }
    None
}

/// The first subchannel that is not in TRANSIENT_FAILURE.
pub fn first_open(subs: &[Marked]) -> Option<u32>
    ensures { result ≡ slice_get (subs_in is_open (plain subs.now)) 0 }
{
    for marked in subs {
        if conn::is_open(marked.seen.state) {
            return Some(marked.seen.sub);
        }
    }
    None
}

/// The place of the first READY subchannel.
pub fn place_of_ready(subs: &[Marked]) -> Option<usize>
    requires { length subs.now ≤ 64 }
    ensures place { result ≡ position_from (λ s. is_ready s.state) 0 (plain subs.now) }
    ensures within { IfSome result (λ place. place < 64) }
{
    for (place, marked) in subs.iter().enumerate() {
        if conn::is_ready(marked.seen.state) {
            return Some(place);
        }
    }
    None
}

/// The place of the first subchannel that is READY or has not failed.
pub fn place_of_upholding(subs: &[Marked]) -> Option<usize>
    requires { length subs.now ≤ 64 }
    ensures place { result ≡ position_from (λ m. is_ready m.seen.state || not m.failed) 0 subs.now }
    ensures within { IfSome result (λ place. place < 64) }
{
    for (place, marked) in subs.iter().enumerate() {
        if conn::is_ready(marked.seen.state) || !marked.failed {
            return Some(place);
        }
    }
    None
}

/// All READY subchannels.
pub fn all_ready(subs: &[Marked]) -> ArrayVec<u32, 64>
    requires { length subs.now ≤ 64 }
    ensures { result.items ≡ subs_in is_ready (plain subs.now) }
{
    let mut numbers = ArrayVec::new();
    for marked in subs {
        if conn::is_ready(marked.seen.state) {
            numbers.push(marked.seen.sub);
        }
    }
    numbers
}

/// All subchannels that are IDLE or CONNECTING.
pub fn all_starting(subs: &[Marked]) -> ArrayVec<u32, 64>
    requires { length subs.now ≤ 64 }
    ensures { result.items ≡ subs_in is_starting (plain subs.now) }
{
    let mut numbers = ArrayVec::new();
    for marked in subs {
        if conn::is_starting(marked.seen.state) {
            numbers.push(marked.seen.sub);
        }
    }
    numbers
}

/// Whether the subchannel of a number has failed.
fn has_failed(subs: &[Marked], sub: u32) -> bool
    ensures { result ≡ is_one_of (failed_of subs.now) sub }
{
    for marked in subs {
        if marked.failed && marked.seen.sub == sub {
            return true;
        }
    }
    false
}

fn mark_of(before: &[Marked], seen: SubSeen) -> Marked
    ensures { result ≡ marked_by (failed_of before.now) seen }
{
    let failed = !conn::is_open(seen.state)
        || has_failed(before, seen.sub) && !conn::is_ready(seen.state);
    Marked { seen, failed }
}

/// These subchannels with their marks, where those before had failed that were marked.
pub fn mark_all(before: &[Marked], subs: &[SubSeen]) -> ArrayVec<Marked, 64>
    requires { length subs.now ≤ 64 }
    ensures { result.items ≡ map (marked_by (failed_of before.now)) subs.now }
{
    let mut marked = ArrayVec::new();
    for seen in subs {
        marked.push(mark_of(before, *seen));
    }
    marked
}

/// Notes the state of one subchannel.
pub fn note_in(subs: &mut [Marked], sub: u32, state: Conn)
    ensures { subs.new ≡ map (noted_mark sub state) subs.old }
{
    for marked in subs.iter_mut() {
        *marked = noted_one(*marked, sub, state);
    }
}

fn noted_one(marked: Marked, sub: u32, state: Conn) -> Marked
    ensures { result ≡ noted_mark sub state marked }
{
    if marked.seen.sub != sub {
        return marked;
    }
    let failed = match state {
        Conn::Failure => true,
        Conn::Ready => false,
        _ => marked.failed,
    };
    Marked {
        seen: SubSeen {
            state,
            ..marked.seen
        },
        failed,
    }
}
