// Metadata of a request: names with their values in hex, with commas.
ghost use Rattle.std.specs.Prelude.{◌≡◌, ◌≤◌, ◌+◌, ◌++◌, ◌∷◌, [], List, true, false, IfOk, IfSome, IfNone};
ghost use Rattle.grpc_base.specs.declared.fields.Field.{Field};
ghost use Rattle.grpc_base.specs.Metadata.{IsPair, IsRequestMetadata, meta_limit, meta_size, pair_size};
ghost use Rattle.script_fields.specs.Reading.{SpellsMeta};
ghost use Rattle.script_fields.specs.Spelling.{pair_text};
ghost use Rattle.script_fields.specs.Values.{IsBytes};

use crate::read::hex_bytes::bytes_of;
use grpc_base::{MetaFault, Metadata, NoMemory, first_piece, split_at_byte};
use std::alloc::Global;

/// The metadata that this text spells, by the rules of a request; a dash is none.
pub fn meta_of(alloc: Global, text: &[u8]) -> Result<Option<Metadata>, NoMemory>
    ensures some { IfOk result (λ o. IfSome o (SpellsMeta text.now)) }
    ensures kept { IfOk result (λ o. IfSome o IsRequestMetadata) }
    ensures none { IfOk result (λ o. IfNone o ((pairs : List Field) → SpellsMeta text.now pairs → ⊥)) }
{
    let mut meta = Metadata::new(alloc);
    if text == b"-".as_slice() {
        return Ok(Some(meta));
    }
    let mut rest = Some(text);
    while let Some(items) = rest {
        let (item, afterwards) = first_piece(items, b',');
        if !push_pair(alloc, &mut meta, item)? {
            return Ok(None);
        }
        rest = afterwards;
    }
    Ok(Some(meta))
}

/// Appends the pair that this text spells. False exactly where no pair that the metadata may have is spelled so.
fn push_pair(alloc: Global, meta: &mut Metadata, item: &[u8]) -> Result<bool, NoMemory>
    ensures pushed { IfOk result (λ y. y ≡ true → (f : Field) × IsBytes f.value × (item.now ≡ pair_text f) × (meta.new ≡ meta.old ++ f ∷ [])) }
    ensures kept { IfOk result (λ y. y ≡ true → IsRequestMetadata meta.old → IsRequestMetadata meta.new) }
    ensures refused { IfOk result (λ y. y ≡ false → (f : Field) → IsPair f → IsBytes f.value → item.now ≡ pair_text f → meta_size meta.old + pair_size f ≤ meta_limit → ⊥) }
{
    let Some((name, digits)) = split_at_byte(item, b':') else {
        return Ok(false);
    };
    let Some(value) = bytes_of(alloc, digits)? else {
        return Ok(false);
    };
    match meta.push(name, value.as_slice()) {
        Ok(()) => Ok(true),
        Err(MetaFault::NoMemory) => Err(NoMemory),
        Err(MetaFault::BadName) => Ok(false),
        Err(MetaFault::BadValue) => Ok(false),
        Err(MetaFault::TooLong) => Ok(false),
    }
}
