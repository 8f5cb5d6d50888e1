// Values of bytes, which travel as base64.
ghost use Rattle.std.specs.Prelude.{◌≡◌, ◌==◌, IfOk, OnOk, ◌++◌, map};
ghost use Rattle.std.specs.Option.{option_map};
ghost use Rattle.base64.specs.GeneralPurpose.{decoded_of};
ghost use Rattle.grpc_base.specs.Metadata.{is_binary_name};
ghost use Rattle.grpc_meta.specs.RequestFields.{sent};
ghost use Rattle.grpc_meta.specs.Base64.{bytes_of_base64};
ghost use Rattle.grpc_meta.specs.ResponseFields.{between_commas, binary_pairs, pair_if_read};

use base64::DecodeAllocError;
use base64::engine::general_purpose::{GeneralPurpose, STANDARD, STANDARD_NO_PAD};
use grpc_base::{Field, NoMemory, Octets};
use std::alloc::{AllocError, Global};

/// The most texts that one field may have between its commas.
const MOST_TEXTS: usize = 64;

/// Whether a value of this name is bytes, sent as base64.
pub fn is_binary_name(name: &[u8]) -> bool
    ensures { result ≡ is_binary_name name.now }
{
    name.ends_with(b"-bin")
}

/// The pair as it is sent.
pub fn sent(alloc: Global, pair: &Field) -> Result<Field, NoMemory>
    ensures { IfOk result (λ f. f ≡ sent pair.now) }
{
    if !is_binary_name(pair.name.as_slice()) {
        return pair.share();
    }
    let name = pair.name.share()?;
    let text = STANDARD_NO_PAD.encode(alloc, pair.value.as_slice())?;
    let value = Octets::of_vec(text.into_bytes())?;
    Ok(Field { name, value })
}

/// Appends the pairs of a field whose values are bytes.
pub fn push_binary(alloc: Global, pairs: &mut Vec<Field>, field: &Field) -> Result<(), NoMemory>
    ensures { OnOk result (pairs.new.items ≡ pairs.old.items ++ binary_pairs field.now.name field.now.value) }
{
    let texts = texts_of(alloc, field.value.as_slice())?;
    if texts.len() > MOST_TEXTS {
        return Ok(());
    }
    for text in &texts {
        push_text(alloc, pairs, &field.name, text)?;
    }
    Ok(())
}

/// The texts between the commas.
fn texts_of(alloc: Global, value: &[u8]) -> Result<Vec<&[u8]>, AllocError>
    ensures { IfOk result (λ v. map (λ x. x.now) v.items ≡ between_commas value.now) }
{
    value.split(|b| *b == b',').collect(alloc)
}

/// Appends the pair of one text; one that is no base64 is passed over.
fn push_text(
    alloc: Global,
    pairs: &mut Vec<Field>,
    name: &Octets,
    text: &[u8],
) -> Result<(), NoMemory>
    ensures { OnOk result (pairs.new.items ≡ pairs.old.items ++ pair_if_read name.now (bytes_of_base64 text.now)) }
{
    let Some(bytes) = read_base64(alloc, text)? else {
        return Ok(());
    };
    let name = name.share()?;
    let value = Octets::of_vec(bytes)?;
    pairs.push(Field { name, value })?;
    Ok(())
}

/// The bytes of a base64 text, with all of its padding or with none; its unused bits have to be 0.
fn read_base64(alloc: Global, text: &[u8]) -> Result<Option<Vec<u8>>, NoMemory>
    ensures { IfOk result (λ o. option_map (λ v. v.items) o ≡ bytes_of_base64 text.now) }
{
    // a text of whole groups has its padding or needs none, and any other has none
    if text.len() % 4 == 0 {
        decoded(alloc, &STANDARD, text)
    } else {
        decoded(alloc, &STANDARD_NO_PAD, text)
    }
}

/// The bytes of a text that this engine accepts.
fn decoded(alloc: Global, engine: &GeneralPurpose, text: &[u8]) -> Result<Option<Vec<u8>>, NoMemory>
    ensures { IfOk result (λ o. option_map (λ v. v.items) o ≡ decoded_of engine.now text.now) }
{
    match engine.decode(alloc, text) {
        Ok(bytes) => Ok(Some(bytes)),
        Err(DecodeAllocError::OutOfMemory) => Err(NoMemory),
        Err(DecodeAllocError::DecodeError(_)) => Ok(None),
    }
}
