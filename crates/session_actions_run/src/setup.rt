// What the channel of a script is made with.
ghost use Rattle.std.specs.Prelude.{◌≡◌, IfOk};
ghost use Rattle.resolver_core.specs.AnyTargets.{IsTarget};
ghost use Rattle.session_actions_run.specs.Reports.{setup_of};

use grpc_base::{Items, Kind, NoMemory};
use resolver_core::Target;
use session_actions::{PolicyKind, Setup};
use std::alloc::Global;

/// How many addresses a tier of the policy `priority` has.
const TIER_WIDTH: u64 = 8;

/// What the channel of a target is made with: the target's authority, and one policy of each kind, as the program `grpcc` has them.
pub fn setup_of(alloc: Global, target: &Target) -> Result<Setup, NoMemory>
    requires { IsTarget target.now }
    ensures { IfOk result (λ s. s ≡ setup_of target.now) }
{
    let authority = target.authority(alloc)?;
    let mut policies = Items::new(alloc);
    policies.push(PolicyKind {
        kind: Kind::PickFirst,
        width: 1,
    })?;
    policies.push(PolicyKind {
        kind: Kind::RoundRobin,
        width: 1,
    })?;
    policies.push(PolicyKind {
        kind: Kind::Priority,
        width: TIER_WIDTH,
    })?;
    Ok(Setup {
        authority,
        policies,
    })
}
