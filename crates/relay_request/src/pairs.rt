// The metadata of a request that comes from outside.
ghost use Rattle.std.specs.Prelude.{◌≡◌, [], if◌then◌else◌, IfOk, OnOk, IfSome, Some, None};
ghost use Rattle.grpc_base.specs.Metadata.{IsRequestMetadata};
ghost use Rattle.relay_request.specs.Pairs.{metadata_from, with_pair};

use grpc_base::{Field, MetaFault, Metadata, NoMemory};
use std::alloc::Global;

/// Appends a pair, where a request may have it; one of another name or value is passed over. False exactly where the
/// metadata would become too long.
fn push_pair(meta: &mut Metadata, pair: &Field) -> Result<bool, NoMemory>
    ensures pushed { IfOk result (λ fits. with_pair (Some meta.old) pair.now ≡ (if fits then Some meta.new else None)) }
    ensures kept { OnOk result (IsRequestMetadata meta.old → IsRequestMetadata meta.new) }
{
    let name = pair.name.as_slice();
    let value = pair.value.as_slice();
    match meta.push(name, value) {
        Ok(()) => Ok(true),
        Err(MetaFault::BadName) => Ok(true),
        Err(MetaFault::BadValue) => Ok(true),
        Err(MetaFault::TooLong) => Ok(false),
        Err(MetaFault::NoMemory) => Err(NoMemory),
    }
}

/// Of these pairs those that a request may have; None exactly where they come to more than 14,336 bytes as they are sent.
pub(crate) fn metadata_of(alloc: Global, pairs: &Metadata) -> Result<Option<Metadata>, NoMemory>
    ensures meta { IfOk result (λ m. m ≡ metadata_from (Some []) pairs.now) }
    ensures kept { IfOk result (λ m. IfSome m IsRequestMetadata) }
{
    let mut meta = Metadata::new(alloc);
    for pair in pairs.as_slice() {
        if !push_pair(&mut meta, pair)? {
            return Ok(None);
        }
    }
    Ok(Some(meta))
}
