// The rows of a call that are queued or outstanding.
ghost use Rattle.std.specs.Prelude.{◌≡◌, None, IfSome, true, map};
ghost use Rattle.attempt_buffer.specs.Buffers.{is_open};
ghost use Rattle.call_core.specs.Parts.{find_live, further, furthest, furthest_from, is_further, kept_alone, linked, without};

use attempt_buffer::Buffer;
use grpc_base::Items;
use std::alloc::Global;
use std::mem;

/// A row that is queued or outstanding.
#[derive(Clone, Copy, Debug, PartialEq, Eq)]
pub struct LiveRow {
    /// Its place in the ledger, from 1.
    pub place: u64,
    /// The number of its attempt.
    pub number: u32,
    /// The link on which it was placed; None while it is queued.
    pub link: Option<u32>,
}

/// The live row of a place.
pub fn find_live(live: &[LiveRow], place: u64) -> Option<LiveRow>
    ensures { result ≡ find_live place live.now }
{
    for row in live {
        if row.place == place {
            return Some(*row);
        }
    }
    None
}

/// Leaves out the row of a place.
pub fn leave(alloc: Global, live: &mut Items<LiveRow>, place: u64)
    ensures { live.new ≡ without place live.old }
{
    let mut list = mem::replace(live, Items::new(alloc)).into_vec();
    list.retain(|row| row.place != place);
    *live = Items::of_vec(list);
}

/// Leaves out every other row.
pub fn keep_alone(alloc: Global, live: &mut Items<LiveRow>, place: u64)
    ensures { live.new ≡ kept_alone place live.old }
{
    let mut list = mem::replace(live, Items::new(alloc)).into_vec();
    list.retain(|row| row.place == place);
    *live = Items::of_vec(list);
}

/// The row of a place got its link.
pub fn set_link(alloc: Global, live: &mut Items<LiveRow>, place: u64, link: u32)
    ensures { live.new ≡ map (linked place link) live.old }
{
    let mut list = mem::replace(live, Items::new(alloc)).into_vec();
    link_all(&mut list, place, link);
    *live = Items::of_vec(list);
}

fn link_all(live: &mut [LiveRow], place: u64, link: u32)
    ensures { live.new ≡ map (linked place link) live.old }
{
    for index in 0..live.len() {
        live[index] = linked(live[index], place, link);
    }
}

fn linked(row: LiveRow, place: u64, link: u32) -> LiveRow
    ensures { result ≡ linked place link row }
{
    if row.place == place {
        LiveRow {
            link: Some(link),
            ..row
        }
    } else {
        row
    }
}

/// Of two open rows the one that has less to send, and of equals the one of the lower number.
fn further(buffer: &Buffer, best: Option<LiveRow>, row: LiveRow) -> Option<LiveRow>
    ensures { result ≡ further buffer.now best row }
{
    match best {
        _ if !buffer.is_open(row.place) => best,
        Some(other) if !is_further(buffer, row, other) => best,
        _ => Some(row),
    }
}

fn is_further(buffer: &Buffer, row: LiveRow, other: LiveRow) -> bool
    ensures { result ≡ is_further buffer.now row other }
{
    let left = buffer.ready(row.place);
    let others = buffer.ready(other.place);
    left < others || (left == others && row.number < other.number)
}

/// The place of the open row that was sent furthest, of equals the one of the lowest number.
#[tactic(auto, using(crate::proofs::Rows::open_found))]
pub fn furthest(buffer: &Buffer, live: &[LiveRow]) -> Option<u64>
    ensures value { result ≡ furthest buffer.now live.now }
    ensures open { IfSome result (λ place. is_open place buffer.now ≡ true) }
{
    match furthest_row(buffer, live) {
        Some(row) => Some(row.place),
        None => None,
    }
}

fn furthest_row(buffer: &Buffer, live: &[LiveRow]) -> Option<LiveRow>
    ensures { result ≡ furthest_from buffer.now None live.now }
{
    let mut best = None;
    for row in live {
        best = further(buffer, best, *row);
    }
    best
}
