// The views of policies: the subchannels of their addresses, in their order, and what the table says of them.
ghost use Rattle.std.specs.Prelude.{◌≡◌, IfOk, find};
ghost use Rattle.std.specs.Option.{option_map_or};
ghost use Rattle.lb_policy.specs.Table.{pick_of, state_of, wish_of};
ghost use Rattle.session_actions.specs.Policies.{is_live_sub, is_same_address, is_same_kind, is_shutdown, policy_of, policy_state, turns_of, view_of, width_of};
ghost use Rattle.slow_net.specs.Parts.{seen_of, view_in};

use crate::table::{pick_by, state_of_kind, wish_by};
use grpc_base::{Address, Conn, Kind, NoMemory, Pick};
use lb_policy::SubSeen;
use session_actions::{PolicyKind, PolicyUse, Seen, Subchannel};
use std::alloc::Global;

/// Whether a state is SHUTDOWN.
pub fn is_shutdown(state: Conn) -> bool
    ensures { result ≡ is_shutdown state }
{
    matches!(state, Conn::Shutdown)
}

/// Whether two kinds are the same.
pub fn is_same_kind(kind: Kind, other: Kind) -> bool
    ensures { result ≡ is_same_kind kind other }
{
    kind.number() == other.number()
}

/// Whether two addresses are the same.
pub fn is_same_address(address: Address, other: Address) -> bool
    ensures { result ≡ is_same_address address other }
{
    address.ip == other.ip && address.port == other.port
}

fn is_live_sub(address: Address, sub: Subchannel) -> bool
    ensures { result ≡ is_live_sub address sub }
{
    is_same_address(sub.address, address) && !is_shutdown(sub.state)
}

/// The subchannel of an address that is not shut down.
pub fn live_sub(subs: &[Subchannel], address: Address) -> Option<Subchannel>
    ensures { result ≡ find (is_live_sub address) subs.now }
{
    subs.iter().copied().find(|sub| is_live_sub(address, *sub))
}

fn seen_of(sub: Subchannel) -> SubSeen
    ensures { result ≡ seen_of sub }
{
    SubSeen {
        sub: sub.number,
        state: sub.state,
    }
}

/// The view of these addresses: their subchannels, in their order.
pub fn view_of(
    alloc: Global,
    addresses: &[Address],
    subs: &[Subchannel],
) -> Result<Vec<SubSeen>, NoMemory>
    ensures { IfOk result (λ v. v.items ≡ view_in addresses.now subs.now) }
{
    let view = addresses
        .iter()
        .copied()
        .filter_map(|address| live_sub(subs, address))
        .map(|sub| seen_of(sub))
        .collect(alloc)?;
    Ok(view)
}

/// The policy of a kind that the channel was given.
fn of_kind(kind: Kind, policies: &[PolicyKind]) -> Option<PolicyKind>
    ensures { result ≡ find (λ p. is_same_kind p.kind kind) policies.now }
{
    policies
        .iter()
        .copied()
        .find(|policy| is_same_kind(policy.kind, kind))
}

fn width_or_one(policy: Option<PolicyKind>) -> u64
    ensures { result ≡ option_map_or (λ p. p.width) policy 1 }
{
    match policy {
        Some(policy) => policy.width,
        None => 1,
    }
}

/// The width of the tiers of a kind.
fn width_of(kind: Kind, policies: &[PolicyKind]) -> u64
    ensures { result ≡ width_of kind policies.now }
{
    width_or_one(of_kind(kind, policies))
}

/// How many pick requests a policy answered.
fn turns_of(policy: &PolicyUse, seen: &Seen) -> u64
    ensures { result ≡ turns_of policy.now seen.now }
{
    let number = policy.number;
    seen.asks
        .as_slice()
        .iter()
        .filter(|ask| ask.generation == number)
        .count() as u64
}

/// The state of a policy.
pub fn policy_state(alloc: Global, policy: &PolicyUse, seen: &Seen) -> Result<Conn, NoMemory>
    ensures { IfOk result (λ c. c ≡ policy_state policy.now seen.now) }
{
    let kind = policy.generation.kind;
    let width = width_of(kind, seen.setup.policies.as_slice());
    let view = view_of(alloc, policy.addresses.as_slice(), seen.subs.as_slice())?;
    state_of_kind(kind, width, policy.failed.as_slice(), view.as_slice())
}

/// The subchannels that a policy wishes connected.
pub fn wish_of(alloc: Global, policy: &PolicyUse, seen: &Seen) -> Result<Vec<u32>, NoMemory>
    ensures { IfOk result (λ v. v.items ≡ wish_of (policy_of policy.now seen.now)) }
{
    let kind = policy.generation.kind;
    let width = width_of(kind, seen.setup.policies.as_slice());
    let view = view_of(alloc, policy.addresses.as_slice(), seen.subs.as_slice())?;
    wish_by(
        alloc,
        kind,
        width,
        policy.failed.as_slice(),
        view.as_slice(),
    )
}

/// What a policy answers to its next pick request.
pub fn pick_of(alloc: Global, policy: &PolicyUse, seen: &Seen) -> Result<Pick, NoMemory>
    ensures { IfOk result (λ p. p ≡ pick_of (policy_of policy.now seen.now)) }
{
    let kind = policy.generation.kind;
    let width = width_of(kind, seen.setup.policies.as_slice());
    let view = view_of(alloc, policy.addresses.as_slice(), seen.subs.as_slice())?;
    let turns = turns_of(policy, seen);
    pick_by(
        alloc,
        kind,
        width,
        policy.failed.as_slice(),
        view.as_slice(),
        turns,
    )
}
