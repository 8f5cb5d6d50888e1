// Header blocks of the client.
ghost use Rattle.std.specs.Prelude.{◌≡◌, ◌<◌, ◌≤◌, ◌^◌, ◌+◌, ◌++◌, ◌∷◌, [], length, take, bytes_eq, ◌&&◌, None, IfOk, IfSome, OnOk};
ghost use Rattle.h2_hpack.specs.Integers.{integer_bytes};
ghost use Rattle.h2_hpack.specs.Encoding.{block_bytes, field_bytes, name_bytes, text_bytes, index_where, same_name, same_pair};

use crate::integer::put_integer;
use crate::lookup::{StaticMatch, static_match};
use bytes::BytesMut;
use grpc_base::{Field, Fields, NoMemory};
use std::alloc::Global;

/// A dynamic table size update to 0, which may stand before a block (RFC 7541, section 6.3).
pub const SIZE_UPDATE_TO_ZERO: u8 = 0x20;

/// A field that many blocks have, and its bytes.
#[derive(Clone, Copy, Debug)]
struct FixedField {
    name: &'static [u8],
    value: &'static [u8],
    bytes: &'static [u8],
}

/// Room that most blocks find enough, so that their memory is taken once.
const FIRST_ROOM: usize = 192;

/// The block of a header list: each field by its index where the static table has it, else as a literal that the
/// peer does not add to its table; no Huffman text. A decoder reads the list back whatever its table, if the sizes
/// of the fields come to 16,384 at most.
pub fn encode_fields(alloc: Global, fields: &Fields) -> Result<BytesMut, NoMemory>
    ensures { IfOk result (λ block. block.items ≡ block_bytes fields.now) }
{
    let mut block = Vec::with_capacity(alloc, FIRST_ROOM)?;
    append_fields(&mut block, fields)?;
    Ok(BytesMut::from_vec(block))
}

/// Appends the block of a header list, for a caller that keeps the memory for its next one.
#[tactic(auto, using(crate::proofs::EncodeLemmas::written_after, crate::proofs::EncodeLemmas::all_written_after))]
pub fn append_fields(block: &mut Vec<u8>, fields: &Fields) -> Result<(), NoMemory>
    ensures { OnOk result (block.new.items ≡ block.old.items ++ block_bytes fields.now) }
{
    for field in fields.as_slice() {
        append_field(block, field)?;
    }
    Ok(())
}

/// Appends a field; the bytes of a fixed one are not made anew.
fn append_field(block: &mut Vec<u8>, field: &Field) -> Result<(), NoMemory>
    ensures { OnOk result (block.new.items ≡ block.old.items ++ field_bytes field.now) }
{
    if let Some(bytes) = fixed_bytes(field) {
        block.extend_from_slice(bytes)?;
        return Ok(());
    }
    put_field(block, field)
}

/// The bytes of a field that each request of gRPC has; None for any other.
fn fixed_bytes(field: &Field) -> Option<&'static [u8]>
    ensures { IfSome result (λ bytes. bytes.now ≡ field_bytes field.now) }
{
    let [first, ..] = field.value.as_slice() else {
        return None;
    };
    let fixed = fixed_field(*first)?;
    if is_field(field, fixed.name, fixed.value) {
        Some(fixed.bytes)
    } else {
        None
    }
}

/// The field that each request of gRPC has and whose value begins with this byte.
#[tactic(auto, using(crate::proofs::EncodeLemmas::method_written, crate::proofs::EncodeLemmas::scheme_written, crate::proofs::EncodeLemmas::trailers_written, crate::proofs::EncodeLemmas::type_written))]
fn fixed_field(first: u8) -> Option<FixedField>
    ensures { IfSome result (λ f. f.bytes.now ≡ field_bytes (record { name = f.name.now; value = f.value.now })) }
{
    match first {
        b'P' => Some(FixedField {
            name: b":method",
            value: b"POST",
            bytes: b"\x83",
        }),
        b'h' => Some(FixedField {
            name: b":scheme",
            value: b"http",
            bytes: b"\x86",
        }),
        b't' => Some(FixedField {
            name: b"te",
            value: b"trailers",
            bytes: b"\x00\x02te\x08trailers",
        }),
        b'a' => Some(FixedField {
            name: b"content-type",
            value: b"application/grpc",
            bytes: b"\x0f\x10\x10application/grpc",
        }),
        _ => None,
    }
}

/// Whether a field has this name and this value.
fn is_field(field: &Field, name: &[u8], value: &[u8]) -> bool
    ensures { result ≡ (bytes_eq field.now.name name.now && bytes_eq field.now.value value.now) }
{
    field.name.as_slice() == name && field.value.as_slice() == value
}

/// Appends a field by what the static table has of it.
fn put_field(block: &mut Vec<u8>, field: &Field) -> Result<(), NoMemory>
    ensures { OnOk result (block.new.items ≡ block.old.items ++ field_bytes field.now) }
{
    let name = field.name.as_slice();
    let value = field.value.as_slice();
    match static_match(name, value) {
        StaticMatch::Pair(index) => put_integer(block, 7, 128, index),
        StaticMatch::Name(index) => put_named(block, index, value),
        StaticMatch::Nothing => put_spelled(block, name, value),
    }
}

/// Appends a literal without indexing by the index of its name (RFC 7541, section 6.2.2).
fn put_named(block: &mut Vec<u8>, index: u64, value: &[u8]) -> Result<(), NoMemory>
    ensures { OnOk result (block.new.items ≡ block.old.items ++ (integer_bytes 4 0 index ++ text_bytes value.now)) }
{
    put_integer(block, 4, 0, index)?;
    put_text(block, value)
}

/// Appends a literal without indexing whose name is written out.
fn put_spelled(block: &mut Vec<u8>, name: &[u8], value: &[u8]) -> Result<(), NoMemory>
    ensures { OnOk result (block.new.items ≡ block.old.items ++ (name_bytes name.now None ++ text_bytes value.now)) }
{
    put_integer(block, 4, 0, 0)?;
    put_text(block, name)?;
    put_text(block, value)
}

/// Appends a string as it is (RFC 7541, section 5.2).
fn put_text(block: &mut Vec<u8>, text: &[u8]) -> Result<(), NoMemory>
    ensures { OnOk result (block.new.items ≡ block.old.items ++ text_bytes text.now) }
{
    put_integer(block, 7, 0, text.len() as u64)?;
    block.extend_from_slice(text)?;
    Ok(())
}
