// What a result of the resolver makes of policies: one is retired, one begins, and one gets the addresses.
ghost use Rattle.std.specs.Prelude.{◌≡◌, find, not};
ghost use Rattle.std.specs.Option.{option_copied};
ghost use Rattle.session_actions.specs.Policies.{are_same_addresses, begin_if, is_other_kind, is_same_kind, is_to_retire, next_begun, next_given, next_retired, result_of, wanted_kind, wants_addresses};
ghost use Rattle.session_actions.specs.Words.{holds};

use grpc_base::{Address, AddressList, Event, Kind};
use session_actions::{Action, OpenEntry, PolicyUse, Seen};
use slow_attempts::held_config;
use slow_calls::is_after_event;
use slow_net::{has_live_kind, is_live_policy, is_pending, is_same_address, is_same_kind};

/// The addresses of the event's result, after it.
fn result_of(current: &OpenEntry) -> Option<&AddressList>
    ensures { option_copied result ≡ result_of current.now }
{
    if !is_after_event(current) {
        return None;
    }
    match &current.event {
        Event::Resolved {
            addresses,
            config: _,
        } => Some(addresses.as_list()),
        _ => None,
    }
}

/// The kind of the config that is held, after a result.
fn wanted_kind(current: &OpenEntry, seen: &Seen) -> Option<Kind>
    ensures { result ≡ wanted_kind current.now seen.now }
{
    if result_of(current).is_none() {
        return None;
    }
    let held = held_config(seen)?;
    Some(held.config.kind)
}

fn is_wanted(current: &OpenEntry, seen: &Seen, policy: &PolicyUse) -> bool
    ensures { result ≡ holds (λ k. is_same_kind policy.now.generation.kind k) (wanted_kind current.now seen.now) }
{
    match wanted_kind(current, seen) {
        Some(kind) => is_same_kind(policy.generation.kind, kind),
        None => false,
    }
}

fn is_unwanted(current: &OpenEntry, seen: &Seen, policy: &PolicyUse) -> bool
    ensures { result ≡ holds (λ k. is_other_kind k policy.now) (wanted_kind current.now seen.now) }
{
    match wanted_kind(current, seen) {
        Some(kind) => !is_same_kind(policy.generation.kind, kind),
        None => false,
    }
}

fn is_to_retire(current: &OpenEntry, seen: &Seen, policy: &PolicyUse) -> bool
    ensures { result ≡ is_to_retire current.now seen.now policy.now }
{
    is_live_policy(policy)
        && (seen.shut || (is_pending(policy) && is_unwanted(current, seen, policy)))
}

fn first_to_retire<'a>(current: &OpenEntry, seen: &'a Seen) -> Option<&'a PolicyUse>
    ensures { option_copied result ≡ find (is_to_retire current.now seen.now) seen.now.policies }
{
    seen.policies
        .as_slice()
        .iter()
        .find(|policy| is_to_retire(current, seen, policy))
}

/// A policy is retired.
pub fn next_retired(current: &OpenEntry, seen: &Seen) -> Option<Action>
    ensures { result ≡ next_retired current.now seen.now }
{
    let policy = first_to_retire(current, seen)?;
    Some(Action::PolicyRetired {
        generation: policy.number,
    })
}

fn begin_if(seen: &Seen, kind: Kind) -> Option<Action>
    ensures { result ≡ begin_if seen.now kind }
{
    if has_live_kind(kind, seen) {
        None
    } else {
        Some(Action::PolicyBegins { kind })
    }
}

/// A policy of the wanted kind begins.
pub fn next_begun(current: &OpenEntry, seen: &Seen) -> Option<Action>
    ensures { result ≡ next_begun current.now seen.now }
{
    let kind = wanted_kind(current, seen)?;
    begin_if(seen, kind)
}

fn are_same_addresses(addresses: &[Address], others: &[Address]) -> bool
    ensures { result ≡ are_same_addresses addresses.now others.now }
{
    match (addresses.split_first(), others.split_first()) {
        (None, None) => true,
        (Some((first, rest)), Some((other, more))) => is_same_address(*first, *other)
            && are_same_addresses(rest, more),
        _ => false,
    }
}

fn has_others(current: &OpenEntry, policy: &PolicyUse) -> bool
    ensures { result ≡ holds (λ addresses. not (are_same_addresses policy.now.addresses addresses)) (result_of current.now) }
{
    match result_of(current) {
        Some(list) => !are_same_addresses(policy.addresses.as_slice(), list.as_slice()),
        None => false,
    }
}

fn wants_addresses(current: &OpenEntry, seen: &Seen, policy: &PolicyUse) -> bool
    ensures { result ≡ wants_addresses current.now seen.now policy.now }
{
    is_live_policy(policy) && is_wanted(current, seen, policy) && has_others(current, policy)
}

fn first_to_give<'a>(current: &OpenEntry, seen: &'a Seen) -> Option<&'a PolicyUse>
    ensures { option_copied result ≡ find (wants_addresses current.now seen.now) seen.now.policies }
{
    seen.policies
        .as_slice()
        .iter()
        .find(|policy| wants_addresses(current, seen, policy))
}

/// The policy of the wanted kind gets the addresses of the result.
pub fn next_given(current: &OpenEntry, seen: &Seen) -> Option<Action>
    ensures { result ≡ next_given current.now seen.now }
{
    let policy = first_to_give(current, seen)?;
    Some(Action::AddressesGiven {
        generation: policy.number,
    })
}
