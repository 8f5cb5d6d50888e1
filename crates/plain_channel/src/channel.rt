// A new channel over them.
ghost use Rattle.std.specs.Prelude.{◌≡◌, [], ◌∷◌, IfOk};
ghost use Rattle.plain_channel.specs.declared.plain.Plain.TheVariants as plain;
ghost use Rattle.channel_core.specs.Core.{IsNew};

use crate::plain::Plain;
use channel_core::ChannelCore;
use grpc_base::{Items, NoMemory, Text, is_authority};
use lb_kinds::{PickFirst, RoundRobin};
use policy_rack::policies_ready;
use std::alloc::Global;

/// An authority that requests may name.
pub const AUTHORITY: &[u8] = b"127.0.0.1:50051";

/// Why there is no channel.
#[derive(Clone, Copy, Debug, PartialEq, Eq)]
pub enum Unmade {
    /// The text is no authority.
    NoAuthority,
    /// The policies may not be passed to a channel.
    NoPolicies,
    /// Out of memory.
    NoMemory,
}

impl From<NoMemory> for Unmade {
    fn from(_e: NoMemory) -> Unmade {
        Unmade::NoMemory
    }
}

/// `pick_first` and `round_robin`, new.
pub fn plain_policies(alloc: Global) -> Result<Vec<Plain>, NoMemory>
    ensures { IfOk result (λ policies. policies.items ≡ plain.First (record { view = record { subs = []; failed = [] }; turns = 0 }) ∷ plain.Round (record { view = record { subs = []; failed = [] }; turns = 0 }) ∷ []) }
{
    let mut policies = Items::new(alloc);
    policies.push(Plain::First(PickFirst::new()))?;
    policies.push(Plain::Round(RoundRobin::new()))?;
    Ok(policies.into_vec())
}

/// A new channel whose requests have this authority.
#[tactic(auto, using(crate::proofs::NewLaws::is_new))]
pub fn new_channel(alloc: Global, authority: Text) -> Result<ChannelCore<Plain>, Unmade>
    ensures { IfOk result (IsNew authority) }
{
    if !is_authority(authority.as_slice()) {
        return Err(Unmade::NoAuthority);
    }
    let policies = plain_policies(alloc)?;
    if !policies_ready(policies.as_slice()) {
        return Err(Unmade::NoPolicies);
    }
    let core = ChannelCore::new(alloc, authority, policies)?;
    Ok(core)
}
