// What happens to load balancing policies.
ghost use Rattle.std.specs.Prelude.{◌++◌, ◌≡◌, ◌∷◌, [], IfOk, OnOk, Some, filter, map, option_map};
ghost use Rattle.std.specs.Option.{option_map_or};
ghost use Rattle.lb_policy.specs.Steps.{counts_as_failed, failed_after, failed_in};
ghost use Rattle.session_actions.specs.Policies.{activated_in, addresses_given, begun_policy, current_policy, given_addresses, policy_begun, policy_retired, policy_took_over, retired_in, with_policy};
ghost use Rattle.session_actions.specs.Subchannels.{noted_by_policies, noted_state};
ghost use Rattle.session_actions.specs.Words.{changed};
ghost use Rattle.session_actions.specs.declared.entry.OpenEntry.{OpenEntry};

use crate::posted::posted_addresses;
use crate::table::Table;
use attempt_ledger::Generation;
use grpc_base::{Address, Conn, Items, Kind, NoMemory};
use lb_policy::SubSeen;
use session_actions::{PolicyUse, Seen, Subchannel};
use slow_attempts::{entry, fits_in_32_bits, sum};
use slow_net::{current_policy, is_live_policy, is_one_of, is_open, is_ready, view_of};
use std::alloc::Global;
use std::mem;

fn begun_policy(alloc: Global, number: u32, kind: Kind, seen: &Seen) -> Result<PolicyUse, NoMemory>
    ensures { IfOk result (λ g. g ≡ record (begun_policy kind seen.now) { number = number }) }
{
    let activated = match current_policy(seen) {
        Some(_) => None,
        None => Some(entry(seen)?),
    };
    Ok(PolicyUse {
        number,
        generation: Generation {
            kind,
            activated,
            retired: None,
        },
        addresses: Items::new(alloc),
        failed: Items::new(alloc),
    })
}

/// A policy begins: as the current one where there is none, and else as the pending one.
pub fn policy_begun(alloc: Global, seen: &mut Seen, kind: Kind) -> Result<(), NoMemory>
    ensures { OnOk result (seen.new ≡ policy_begun kind seen.old) }
{
    let number = fits_in_32_bits(sum(seen.policies.len() as u64, 1)?)?;
    let policy = begun_policy(alloc, number, kind, seen)?;
    seen.policies.push(policy)
}

#[tactic(auto, using(crate::proofs::Places::put_changed, crate::proofs::Places::none_changed))]
fn retire(policies: &mut Table<PolicyUse>, generation: u32, entry: u64)
    ensures { policies.new ≡ changed (retired_in entry) generation policies.old }
{
    if let Some(found) = policies.get_mut(u64::from(generation)) {
        found.generation.retired = Some(entry);
    }
}

fn retired_at(alloc: Global, seen: &mut Seen, generation: u32, entry: u64)
    ensures { seen.new ≡ with_policy (retired_in entry) generation seen.old }
{
    let mut policies = Table::take(alloc, &mut seen.policies);
    retire(&mut policies, generation, entry);
    seen.policies = policies.into_items();
}

/// A policy is given up.
pub fn policy_retired(alloc: Global, seen: &mut Seen, generation: u32) -> Result<(), NoMemory>
    ensures { OnOk result (seen.new ≡ policy_retired generation seen.old) }
{
    let entry = entry(seen)?;
    retired_at(alloc, seen, generation, entry);
    Ok(())
}

#[tactic(auto, using(crate::proofs::Places::put_changed, crate::proofs::Places::none_changed))]
fn activate(policies: &mut Table<PolicyUse>, generation: u32, entry: u64)
    ensures { policies.new ≡ changed (activated_in entry) generation policies.old }
{
    if let Some(found) = policies.get_mut(u64::from(generation)) {
        found.generation.activated = Some(entry);
    }
}

fn activated_at(alloc: Global, seen: &mut Seen, generation: u32, entry: u64)
    ensures { seen.new ≡ with_policy (activated_in entry) generation seen.old }
{
    let mut policies = Table::take(alloc, &mut seen.policies);
    activate(&mut policies, generation, entry);
    seen.policies = policies.into_items();
}

/// The current policy is given up.
fn current_retired(alloc: Global, seen: &mut Seen) -> Result<(), NoMemory>
    ensures { OnOk result (seen.new ≡ option_map_or (λ g. policy_retired g.number seen.old) (current_policy seen.old) seen.old) }
{
    let number = match current_policy(seen) {
        Some(policy) => policy.number,
        None => return Ok(()),
    };
    policy_retired(alloc, seen, number)
}

/// The pending policy becomes the current one, and the one before is given up.
pub fn policy_took_over(alloc: Global, seen: &mut Seen, generation: u32) -> Result<(), NoMemory>
    ensures { OnOk result (seen.new ≡ policy_took_over generation seen.old) }
{
    let entry = entry(seen)?;
    current_retired(alloc, seen)?;
    activated_at(alloc, seen, generation, entry);
    Ok(())
}

fn counts_as_failed(before: &[u32], seen: SubSeen) -> bool
    ensures { result ≡ counts_as_failed before.now seen }
{
    !is_open(seen.state) || (is_one_of(before, seen.sub) && !is_ready(seen.state))
}

/// The subchannels of a new view that failed.
fn failed_in(alloc: Global, before: &[u32], view: &[SubSeen]) -> Result<Vec<u32>, NoMemory>
    ensures { IfOk result (λ v. v.items ≡ failed_in before.now view.now) }
{
    let failed = view
        .iter()
        .copied()
        .filter(|seen| counts_as_failed(before, *seen))
        .map(|seen| seen.sub)
        .collect(alloc)?;
    Ok(failed)
}

/// A policy gets addresses, and with them a view.
fn give(
    alloc: Global,
    policy: &mut PolicyUse,
    seen: &Seen,
    addresses: Items<Address>,
) -> Result<(), NoMemory>
    ensures { OnOk result (policy.new ≡ given_addresses addresses seen.now policy.old) }
{
    let view = view_of(alloc, addresses.as_slice(), seen.subs.as_slice())?;
    let failed = failed_in(alloc, policy.failed.as_slice(), view.as_slice())?;
    policy.failed = Items::of_vec(failed);
    policy.addresses = addresses;
    Ok(())
}

#[tactic(auto, using(crate::proofs::Places::put_on, crate::proofs::Places::none_changed))]
fn give_in(
    alloc: Global,
    policies: &mut Table<PolicyUse>,
    seen: &Seen,
    generation: u32,
    addresses: Items<Address>,
) -> Result<(), NoMemory>
    ensures { OnOk result (policies.new ≡ changed (given_addresses addresses seen.now) generation policies.old) }
{
    match policies.get_mut(u64::from(generation)) {
        Some(found) => give(alloc, found, seen, addresses),
        None => Ok(()),
    }
}

fn given(
    alloc: Global,
    seen: &mut Seen,
    generation: u32,
    addresses: Items<Address>,
) -> Result<(), NoMemory>
    ensures { OnOk result (seen.new ≡ with_policy (given_addresses addresses seen.old) generation seen.old) }
{
    let mut policies = Table::take(alloc, &mut seen.policies);
    give_in(alloc, &mut policies, seen, generation, addresses)?;
    seen.policies = policies.into_items();
    Ok(())
}

/// A policy gets the addresses of the resolver's result.
pub fn addresses_given(alloc: Global, seen: &mut Seen, generation: u32) -> Result<(), NoMemory>
    ensures { (o : OpenEntry) → seen.old.current ≡ Some o → OnOk result (seen.new ≡ addresses_given generation o.event seen.old) }
{
    match posted_addresses(alloc, seen)? {
        Some(addresses) => given(alloc, seen, generation, addresses),
        None => Ok(()),
    }
}

/// The subchannels of a view that failed, once one of them is in another state.
fn failed_after(
    alloc: Global,
    sub: Subchannel,
    failed: &[u32],
    view: &[SubSeen],
) -> Result<Vec<u32>, NoMemory>
    ensures { IfOk result (λ v. v.items ≡ failed_after sub.number sub.state failed.now view.now) }
{
    match sub.state {
        Conn::Failure => also_failed(alloc, sub.number, failed, view),
        Conn::Ready => no_longer_failed(alloc, sub.number, failed),
        _ => {
            let same = failed.iter().copied().collect(alloc)?;
            Ok(same)
        }
    }
}

fn also_failed(
    alloc: Global,
    sub: u32,
    failed: &[u32],
    view: &[SubSeen],
) -> Result<Vec<u32>, NoMemory>
    ensures { IfOk result (λ v. v.items ≡ failed_after sub Conn.Failure failed.now view.now) }
{
    let numbers = view
        .iter()
        .copied()
        .map(|seen| seen.sub)
        .filter(|number| *number == sub || is_one_of(failed, *number))
        .collect(alloc)?;
    Ok(numbers)
}

fn no_longer_failed(alloc: Global, sub: u32, failed: &[u32]) -> Result<Vec<u32>, NoMemory>
    ensures { IfOk result (λ v. v.items ≡ failed_after sub Conn.Ready failed.now []) }
{
    let numbers = failed
        .iter()
        .copied()
        .filter(|number| *number != sub)
        .collect(alloc)?;
    Ok(numbers)
}

/// A policy notes the state of a subchannel, if it was not retired.
fn noted_state(
    alloc: Global,
    seen: &Seen,
    sub: Subchannel,
    mut policy: PolicyUse,
) -> Result<PolicyUse, NoMemory>
    ensures { IfOk result (λ g. g ≡ noted_state seen.now sub policy) }
{
    if !is_live_policy(&policy) {
        return Ok(policy);
    }
    let view = view_of(alloc, policy.addresses.as_slice(), seen.subs.as_slice())?;
    let failed = failed_after(alloc, sub, policy.failed.as_slice(), view.as_slice())?;
    policy.failed = Items::of_vec(failed);
    Ok(policy)
}

fn note_all(
    alloc: Global,
    seen: &Seen,
    sub: Subchannel,
    policies: Vec<PolicyUse>,
) -> Result<Vec<PolicyUse>, NoMemory>
    ensures { IfOk result (λ v. v.items ≡ map (noted_state seen.now sub) policies.items) }
{
    let mut noted = Vec::new(alloc);
    let mut rest = policies.into_iter();
    while let Some(policy) = rest.next() {
        noted.push(noted_state(alloc, seen, sub, policy)?)?;
    }
    Ok(noted)
}

/// The live policies note the state of a subchannel.
pub fn noted_by_policies(alloc: Global, seen: &mut Seen, sub: Subchannel) -> Result<(), NoMemory>
    ensures { OnOk result (seen.new ≡ noted_by_policies sub seen.old) }
{
    let policies = mem::replace(&mut seen.policies, Items::new(alloc)).into_vec();
    let policies = note_all(alloc, seen, sub, policies)?;
    seen.policies = Items::of_vec(policies);
    Ok(())
}
