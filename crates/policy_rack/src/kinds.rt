// Which kinds some policies have.
ghost use Rattle.std.specs.Prelude.{◌≡◌, map};
ghost use Rattle.policy_rack.specs.Kinds.{same_kind, has_policy, first_place, kinds_of};

use grpc_base::{Kind, KindSet};
use lb_policy::Balancer;

pub fn is_same(one: Kind, other: Kind) -> bool
    ensures { result ≡ same_kind one other }
{
    one == other
}

/// Whether one of them is of this kind.
pub fn has_kind<P: Balancer>(policies: &[P], kind: Kind) -> bool
    ensures { result ≡ has_policy kind (map P.seen policies.now) }
{
    for policy in policies {
        if is_same(policy.kind(), kind) {
            return true;
        }
    }
    false
}

/// The place of the first one of this kind.
pub fn place_of<P: Balancer>(policies: &[P], kind: Kind) -> Option<usize>
    ensures { result ≡ first_place kind (map P.seen policies.now) }
{
    for (place, policy) in policies.iter().enumerate() {
        if is_same(policy.kind(), kind) {
            return Some(place);
        }
    }
    None
}

/// The set of their kinds.
#[tactic(auto, using(crate::proofs::KindLaws::kinds_gathered))]
pub fn set_of<P: Balancer>(policies: &[P]) -> KindSet
    ensures { result ≡ kinds_of (map P.seen policies.now) }
{
    let mut kinds = KindSet::new();
    for policy in policies {
        kinds.add(policy.kind());
    }
    kinds
}
