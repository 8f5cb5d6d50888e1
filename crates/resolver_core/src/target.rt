// The target that a channel is made for.
ghost use Rattle.std.specs.Prelude.{◌≡◌, ◌≢◌, ◌<◌, ◌↔◌, None, Err, [], IfOk, IsSomeAnd, length};
ghost use Rattle.grpc_base.specs.Addresses.{address_limit};
ghost use Rattle.grpc_base.specs.Pieces.{pieces};
ghost use Rattle.resolver_core.specs.Targets.{target_of, target_items, items_of, listed_of};

use crate::item::read_address;
use grpc_base::{AddressList, NoMemory, first_piece};

/// Why a text is no target.
#[derive(Clone, Copy, Debug, PartialEq, Eq)]
pub enum TargetFault {
    /// It is not `ipv4:` and addresses with commas between them.
    BadTarget,
    /// It is, and has more than 64 of them, counted with repeats.
    TooMany,
    /// It is `dns:` without a host, or a host and a port, after it.
    BadHost,
    /// The allocator gave no memory for the name of a host.
    NoMemory,
}

impl From<NoMemory> for TargetFault {
    ghost use Rattle.std.specs.Prelude.{◌≡◌};
    ghost use Rattle.resolver_core.specs.declared.target.TargetFault.TheVariants as faults;

    ghost from_gives = { λ _ e. e ≡ faults.NoMemory };

    fn from(_e: NoMemory) -> TargetFault {
        TargetFault::NoMemory
    }
}

/// The addresses of a target `ipv4:a.b.c.d:port,..`, in their order, each once; without a port it is 443
/// (gRPC Name Resolution, "ipv4"). It takes no memory and knows no other scheme: neither NoMemory nor BadHost comes.
pub fn read_target(text: &[u8]) -> Result<AddressList, TargetFault>
    ensures value { result ≡ target_of text.now }
    ensures some { IfOk result (λ addresses. addresses ≢ []) }
    ensures bad { (result ≡ Err TargetFault.BadTarget) ↔ (target_items text.now ≡ None) }
    ensures too_many { (result ≡ Err TargetFault.TooMany) ↔ IsSomeAnd (target_items text.now) (λ items. address_limit < length items) }
    ensures no_other { (result ≢ Err TargetFault.BadHost) × (result ≢ Err TargetFault.NoMemory) }
{
    match text.strip_prefix(b"ipv4:") {
        Some(items) => read_items(items),
        None => Err(TargetFault::BadTarget),
    }
}

/// The addresses of these items.
fn read_items(text: &[u8]) -> Result<AddressList, TargetFault>
    ensures { result ≡ listed_of (items_of (pieces 44 text.now)) }
{
    let mut addresses = AddressList::new();
    let mut left = 64u32;
    let mut over = false;
    let mut rest = Some(text);
    while let Some(items) = rest {
        let (item, more) = first_piece(items, b',');
        let Some(address) = read_address(item) else {
            return Err(TargetFault::BadTarget);
        };
        if left == 0 {
            over = true;
        } else {
            left -= 1;
            let Ok(()) = addresses.push(address) else {
                return Err(TargetFault::TooMany);
            };
        }
        rest = more;
    }
    if over {
        return Err(TargetFault::TooMany);
    }
    Ok(addresses)
}
