// Which policies a channel may be passed.
ghost use Rattle.std.specs.Prelude.{◌≡◌, map};
ghost use Rattle.policy_rack.specs.Kinds.{kinds_differ, are_ready};

use crate::kinds::has_kind;
use grpc_base::Kind;
use lb_policy::{Balancer, Policy};

/// Whether no two of them are of one kind, and one is `pick_first`.
pub fn policies_ready<P: Balancer>(policies: &[P]) -> bool
    ensures { result ≡ are_ready (map P.seen policies.now) }
{
    differ(policies) && has_kind(policies, Kind::PickFirst)
}

/// `policies_ready` of boxed policies.
pub fn boxes_ready(boxes: &Vec<Box<dyn Policy>>) -> bool
    ensures { result ≡ are_ready (map (λ b. seen b) boxes.now.items) }
{
    policies_ready(boxes.as_slice())
}

fn differ<P: Balancer>(policies: &[P]) -> bool
    ensures { result ≡ kinds_differ (map P.seen policies.now) }
{
    match policies {
        [] => true,
        [first, rest @ ..] => !has_kind(rest, first.kind()) && differ(rest),
    }
}
