// Which policy is current and which is to take over, the addresses that they list, and the state of the channel.
ghost use Rattle.std.specs.Prelude.{◌++◌, ◌≡◌, IfOk, OnOk, option_map};
ghost use Rattle.std.specs.List.{list_any};
ghost use Rattle.std.specs.Option.{option_copied};
ghost use Rattle.lb_policy.specs.Table.{is_ready};
ghost use Rattle.session_actions.specs.Words.{holds};
ghost use Rattle.slow_net.specs.Parts.{addresses_of};
ghost use Rattle.session_actions.specs.Policies.{channel_state, current_policy, is_current, is_failure, is_live_policy, is_pending, is_same_kind, listed, live_policies, may_take_over, next_take_over, pending_policy, policy_state};

use crate::table::is_ready;
use crate::views::{is_same_kind, policy_state};
use grpc_base::{Address, Conn, Kind, NoMemory};
use session_actions::{Action, PolicyUse, Seen};
use slow_attempts::is_unconfigured;
use std::alloc::Global;

/// Whether a policy was not retired.
pub fn is_live_policy(policy: &PolicyUse) -> bool
    ensures { result ≡ is_live_policy policy.now }
{
    policy.generation.retired.is_none()
}

fn is_current(policy: &PolicyUse) -> bool
    ensures { result ≡ is_current policy.now }
{
    is_live_policy(policy) && policy.generation.activated.is_some()
}

/// Whether a policy is to take over.
pub fn is_pending(policy: &PolicyUse) -> bool
    ensures { result ≡ is_pending policy.now }
{
    is_live_policy(policy) && policy.generation.activated.is_none()
}

/// The current policy.
pub fn current_policy(seen: &Seen) -> Option<&PolicyUse>
    ensures { option_copied result ≡ current_policy seen.now }
{
    seen.policies
        .as_slice()
        .iter()
        .find(|policy| is_current(policy))
}

/// The policy that is to take over.
pub fn pending_policy(seen: &Seen) -> Option<&PolicyUse>
    ensures { option_copied result ≡ pending_policy seen.now }
{
    seen.policies
        .as_slice()
        .iter()
        .find(|policy| is_pending(policy))
}

/// The addresses that the current and the pending policy list.
#[tactic(auto, using(crate::proofs::LiveLaws::listed_by))]
pub fn listed(alloc: Global, seen: &Seen) -> Result<Vec<Address>, NoMemory>
    ensures { IfOk result (λ v. v.items ≡ listed seen.now) }
{
    let mut list = Vec::new(alloc);
    append_addresses(&mut list, current_policy(seen))?;
    append_addresses(&mut list, pending_policy(seen))?;
    Ok(list)
}

fn append_addresses(list: &mut Vec<Address>, policy: Option<&PolicyUse>) -> Result<(), NoMemory>
    ensures { OnOk result (list.new.items ≡ list.old.items ++ addresses_of (option_copied policy.entry)) }
{
    if let Some(policy) = policy {
        list.extend_from_slice(policy.addresses.as_slice())?;
    }
    Ok(())
}

/// The state of the current policy.
pub fn current_state(alloc: Global, seen: &Seen) -> Result<Option<Conn>, NoMemory>
    ensures { IfOk result (λ c. c ≡ option_map (λ g. policy_state g seen.now) (current_policy seen.now)) }
{
    match current_policy(seen) {
        Some(policy) => Ok(Some(policy_state(alloc, policy, seen)?)),
        None => Ok(None),
    }
}

/// The state of the channel.
pub fn channel_state(alloc: Global, seen: &Seen) -> Result<Conn, NoMemory>
    ensures { IfOk result (λ c. c ≡ channel_state seen.now) }
{
    if seen.shut {
        return Ok(Conn::Shutdown);
    }
    if let Some(policy) = current_policy(seen) {
        return policy_state(alloc, policy, seen);
    }
    if is_unconfigured(seen) {
        Ok(Conn::Failure)
    } else {
        Ok(Conn::Idle)
    }
}

/// Whether a state is TRANSIENT_FAILURE.
pub fn is_failure(state: Conn) -> bool
    ensures { result ≡ is_failure state }
{
    matches!(state, Conn::Failure)
}

fn is_current_ready(alloc: Global, seen: &Seen) -> Result<bool, NoMemory>
    ensures { IfOk result (λ b. b ≡ holds (λ h. is_ready (policy_state h seen.now)) (current_policy seen.now)) }
{
    match current_policy(seen) {
        Some(policy) => Ok(is_ready(policy_state(alloc, policy, seen)?)),
        None => Ok(false),
    }
}

fn may_take_over(alloc: Global, seen: &Seen, policy: &PolicyUse) -> Result<bool, NoMemory>
    ensures { IfOk result (λ b. b ≡ may_take_over seen.now policy.now) }
{
    let state = policy_state(alloc, policy, seen)?;
    let stays = is_current_ready(alloc, seen)?;
    Ok(is_ready(state) || is_failure(state) || !stays)
}

/// The pending policy becomes the current one.
pub fn next_take_over(alloc: Global, seen: &Seen) -> Result<Option<Action>, NoMemory>
    ensures { IfOk result (λ a. a ≡ next_take_over seen.now) }
{
    let Some(policy) = pending_policy(seen) else {
        return Ok(None);
    };
    if may_take_over(alloc, seen, policy)? {
        let generation = policy.number;
        Ok(Some(Action::PolicyTakesOver { generation }))
    } else {
        Ok(None)
    }
}

fn is_of_kind(kind: Kind, policy: Option<&PolicyUse>) -> bool
    ensures { result ≡ holds (λ g. is_same_kind g.generation.kind kind) (option_copied policy.entry) }
{
    match policy {
        Some(policy) => is_same_kind(policy.generation.kind, kind),
        None => false,
    }
}

/// Whether the current or the pending policy is of a kind.
#[tactic(auto, using(crate::proofs::LiveLaws::any_live))]
pub fn has_live_kind(kind: Kind, seen: &Seen) -> bool
    ensures { result ≡ list_any (λ g. is_same_kind g.generation.kind kind) (live_policies seen.now) }
{
    is_of_kind(kind, current_policy(seen)) || is_of_kind(kind, pending_policy(seen))
}
