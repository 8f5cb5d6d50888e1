// The table of load balancing policies by kind, width, view, failed subchannels and turns (gRPC, "Load Balancing in gRPC").
ghost use Rattle.std.specs.Prelude.{◌%◌, ◌≡◌, IfOk, [], length, not};
ghost use Rattle.std.specs.List.{list_all, list_any};
ghost use Rattle.std.specs.Option.{option_copied};
ghost use Rattle.lb_policy.specs.Table.{choices_by, choices_in_tiers, has_state, is_among, is_one_of, is_open, is_ready, is_starting, lasting_state, pick_at, pick_by, pick_without, place_by, state_by, state_of_kind, state_of_tiers, state_of_view, subs_in, tier, tier_has_failed, tier_is_ready, tiers_to_wish, wish_by};
ghost use Rattle.slow_net.specs.Parts.{first_of_tiers, passes_tier};

use grpc_base::{Conn, Kind, NoMemory, Pick};
use lb_policy::SubSeen;
use std::alloc::Global;

/// Whether a state is READY.
pub fn is_ready(state: Conn) -> bool
    ensures { result ≡ is_ready state }
{
    matches!(state, Conn::Ready)
}

/// Whether a state is any but TRANSIENT_FAILURE.
pub fn is_open(state: Conn) -> bool
    ensures { result ≡ is_open state }
{
    !matches!(state, Conn::Failure)
}

fn is_starting(state: Conn) -> bool
    ensures { result ≡ is_starting state }
{
    matches!(state, Conn::Idle | Conn::Connecting)
}

/// Whether a number is one of these.
pub fn is_one_of(numbers: &[u32], number: u32) -> bool
    ensures { result ≡ is_one_of numbers.now number }
{
    numbers.iter().any(|other| *other == number)
}

fn is_among(numbers: &[u32], seen: SubSeen) -> bool
    ensures { result ≡ is_among numbers.now seen }
{
    is_one_of(numbers, seen.sub)
}

fn any_ready(view: &[SubSeen]) -> bool
    ensures { result ≡ has_state is_ready view.now }
{
    view.iter().any(|seen| is_ready(seen.state))
}

fn any_open(view: &[SubSeen]) -> bool
    ensures { result ≡ has_state is_open view.now }
{
    view.iter().any(|seen| is_open(seen.state))
}

/// The state by whether anything is READY, and whether anything may still become so.
fn state_by(ready: bool, hope: bool) -> Conn
    ensures { result ≡ state_by ready hope }
{
    if ready {
        Conn::Ready
    } else if hope {
        Conn::Connecting
    } else {
        Conn::Failure
    }
}

fn state_of_view(view: &[SubSeen]) -> Conn
    ensures { result ≡ state_of_view view.now }
{
    state_by(any_ready(view), any_open(view))
}

fn any_unfailed(failed: &[u32], view: &[SubSeen]) -> bool
    ensures { result ≡ list_any (λ s. not (is_among failed.now s)) view.now }
{
    view.iter().any(|seen| !is_among(failed, *seen))
}

fn lasting_state(failed: &[u32], view: &[SubSeen]) -> Conn
    ensures { result ≡ lasting_state failed.now view.now }
{
    state_by(any_ready(view), any_unfailed(failed, view))
}

/// The subchannels of a tier, counted from 0.
#[tactic(auto, using(crate::proofs::TableLaws::tier_at))]
fn tier(width: u64, view: &[SubSeen], place: usize) -> Result<&[SubSeen], NoMemory>
    ensures { IfOk result (λ t. t.now ≡ tier width view.now place) }
{
    let start = place.checked_mul(width as usize).ok_or(NoMemory)?;
    let rest = &view[start.min(view.len())..];
    Ok(&rest[..(width as usize).min(rest.len())])
}

fn have_failed(failed: &[u32], members: &[SubSeen]) -> bool
    ensures { result ≡ list_all (is_among failed.now) members.now }
{
    members.iter().all(|seen| is_among(failed, *seen))
}

fn tier_has_failed(failed: &[u32], members: &[SubSeen]) -> bool
    ensures { result ≡ tier_has_failed failed.now members.now }
{
    let ready = any_ready(members);
    let failed = have_failed(failed, members);
    !ready && failed
}

/// Whether a tier is ready, or with a list of failed subchannels whether it has not failed.
fn passes_tier(failed: Option<&[u32]>, members: &[SubSeen]) -> bool
    ensures { result ≡ passes_tier (option_copied failed.entry) members.now }
{
    match failed {
        Some(failed) => !tier_has_failed(failed, members),
        None => any_ready(members),
    }
}

/// The first of so many tiers from one on that passes.
#[tactic(auto, using(crate::proofs::TableLaws::tier_step))]
fn first_of_tiers(
    failed: Option<&[u32]>,
    width: u64,
    view: &[SubSeen],
    place: usize,
    left: usize,
) -> Result<Option<usize>, NoMemory>
    ensures { IfOk result (λ t. t ≡ first_of_tiers (passes_tier (option_copied failed.entry)) width view.now place left) }
{
    if left == 0 {
        return Ok(None);
    }
    if passes_tier(failed, tier(width, view, place)?) {
        return Ok(Some(place));
    }
    let next = place.checked_add(1).ok_or(NoMemory)?;
    first_of_tiers(failed, width, view, next, left - 1)
}

fn state_of_tiers(width: u64, failed: &[u32], view: &[SubSeen]) -> Result<Conn, NoMemory>
    ensures { IfOk result (λ c. c ≡ state_of_tiers width failed.now view.now) }
{
    let ready = first_of_tiers(None, width, view, 0, view.len())?;
    let hope = first_of_tiers(Some(failed), width, view, 0, view.len())?;
    Ok(state_by(ready.is_some(), hope.is_some()))
}

/// The state of a policy.
pub fn state_of_kind(
    kind: Kind,
    width: u64,
    failed: &[u32],
    view: &[SubSeen],
) -> Result<Conn, NoMemory>
    ensures { IfOk result (λ c. c ≡ state_of_kind kind width failed.now view.now) }
{
    match kind {
        Kind::PickFirst => Ok(lasting_state(failed, view)),
        Kind::RoundRobin => Ok(state_of_view(view)),
        Kind::Priority => state_of_tiers(width, failed, view),
    }
}

fn ready_in(alloc: Global, view: &[SubSeen]) -> Result<Vec<u32>, NoMemory>
    ensures { IfOk result (λ v. v.items ≡ subs_in is_ready view.now) }
{
    let subs = view
        .iter()
        .copied()
        .filter(|seen| is_ready(seen.state))
        .map(|seen| seen.sub)
        .collect(alloc)?;
    Ok(subs)
}

fn open_in(alloc: Global, view: &[SubSeen]) -> Result<Vec<u32>, NoMemory>
    ensures { IfOk result (λ v. v.items ≡ subs_in is_open view.now) }
{
    let subs = view
        .iter()
        .copied()
        .filter(|seen| is_open(seen.state))
        .map(|seen| seen.sub)
        .collect(alloc)?;
    Ok(subs)
}

fn starting_in(alloc: Global, view: &[SubSeen]) -> Result<Vec<u32>, NoMemory>
    ensures { IfOk result (λ v. v.items ≡ subs_in is_starting view.now) }
{
    let subs = view
        .iter()
        .copied()
        .filter(|seen| is_starting(seen.state))
        .map(|seen| seen.sub)
        .collect(alloc)?;
    Ok(subs)
}

/// The tiers up to the first that has not failed, or all of them.
#[tactic(auto, using(std::proofs::lemmas::List::take_min))]
fn tiers_to_wish<'a>(
    width: u64,
    failed: &[u32],
    view: &'a [SubSeen],
) -> Result<&'a [SubSeen], NoMemory>
    ensures { IfOk result (λ v. v.now ≡ tiers_to_wish width failed.now view.now) }
{
    let Some(place) = first_of_tiers(Some(failed), width, view, 0, view.len())? else {
        return Ok(view);
    };
    let next = place.checked_add(1).ok_or(NoMemory)?;
    let end = next.checked_mul(width as usize).ok_or(NoMemory)?;
    Ok(&view[..end.min(view.len())])
}

/// The subchannels that a policy wishes connected.
pub fn wish_by(
    alloc: Global,
    kind: Kind,
    width: u64,
    failed: &[u32],
    view: &[SubSeen],
) -> Result<Vec<u32>, NoMemory>
    ensures { IfOk result (λ v. v.items ≡ wish_by kind width failed.now view.now) }
{
    match kind {
        Kind::PickFirst => first_open(alloc, view),
        Kind::RoundRobin => starting_in(alloc, view),
        Kind::Priority => starting_in(alloc, tiers_to_wish(width, failed, view)?),
    }
}

fn first_open(alloc: Global, view: &[SubSeen]) -> Result<Vec<u32>, NoMemory>
    ensures { IfOk result (λ v. v.items ≡ wish_by Kind.PickFirst 1 [] view.now) }
{
    if any_ready(view) {
        return Ok(Vec::new(alloc));
    }
    let mut open = open_in(alloc, view)?;
    open.truncate(1);
    Ok(open)
}

fn choices_in_tiers(alloc: Global, width: u64, view: &[SubSeen]) -> Result<Vec<u32>, NoMemory>
    ensures { IfOk result (λ v. v.items ≡ choices_in_tiers width view.now) }
{
    match first_of_tiers(None, width, view, 0, view.len())? {
        Some(place) => ready_in(alloc, tier(width, view, place)?),
        None => Ok(Vec::new(alloc)),
    }
}

fn choices_by(alloc: Global, kind: Kind, width: u64, view: &[SubSeen]) -> Result<Vec<u32>, NoMemory>
    ensures { IfOk result (λ v. v.items ≡ choices_by kind width view.now) }
{
    match kind {
        Kind::Priority => choices_in_tiers(alloc, width, view),
        _ => ready_in(alloc, view),
    }
}

/// What a policy answers to a pick request.
pub fn pick_by(
    alloc: Global,
    kind: Kind,
    width: u64,
    failed: &[u32],
    view: &[SubSeen],
    turns: u64,
) -> Result<Pick, NoMemory>
    ensures { IfOk result (λ p. p ≡ pick_by kind width failed.now view.now turns) }
{
    let state = state_of_kind(kind, width, failed, view)?;
    let choices = choices_by(alloc, kind, width, view)?;
    Ok(pick_at(kind, choices.as_slice(), turns, state))
}

/// The choice whose turn it is, or what the state says where there is none.
fn pick_at(kind: Kind, choices: &[u32], turns: u64, state: Conn) -> Pick
    ensures { result ≡ pick_at choices.now (place_by kind turns (length choices.now)) state }
{
    match kind {
        Kind::PickFirst => pick_first(choices, state),
        _ => pick_in_turn(choices, turns, state),
    }
}

/// The choice whose turn it is, each turn one further, or what the state says where there is none.
fn pick_in_turn(choices: &[u32], turns: u64, state: Conn) -> Pick
    ensures { result ≡ pick_at choices.now (turns % length choices.now) state }
{
    if choices.is_empty() {
        return pick_without(state);
    }
    let place = turns % choices.len() as u64;
    Pick::Place(choices[place as usize])
}

fn pick_first(choices: &[u32], state: Conn) -> Pick
    ensures { result ≡ pick_at choices.now 0 state }
{
    match choices.first() {
        Some(sub) => Pick::Place(*sub),
        None => pick_without(state),
    }
}

fn pick_without(state: Conn) -> Pick
    ensures { result ≡ pick_without state }
{
    match state {
        Conn::Failure => Pick::Fail,
        _ => Pick::Wait,
    }
}
