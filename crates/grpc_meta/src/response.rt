// What the application gets of a response's header list.
ghost use Rattle.std.specs.Prelude.{◌≡◌, ◌++◌, IfOk, OnOk, bytes_eq};
ghost use Rattle.std.specs.List.{list_all, list_any};
ghost use Rattle.grpc_meta.specs.ResponseFields.{is_field_name, is_field_name_byte, is_field_value, is_for_application, pairs_of, protocol_names, shown_of};

use crate::binary::{is_binary_name, push_binary};
use grpc_base::{Field, Fields, Metadata, NoMemory};
use http_header::is_token_char;
use std::alloc::Global;

/// The metadata that the application gets: the fields that the protocol does not read itself, each value of
/// bytes decoded. A field that HTTP does not allow is left out, and so is a value of bytes that is no base64.
pub fn shown(alloc: Global, fields: &Fields) -> Result<Metadata, NoMemory>
    ensures { IfOk result (λ m. m ≡ shown_of fields.now) }
{
    let mut pairs = Vec::new(alloc);
    for field in fields.as_slice() {
        push_shown(alloc, &mut pairs, field)?;
    }
    Ok(Metadata::of_vec(pairs))
}

/// Appends what the application gets of one field.
fn push_shown(alloc: Global, pairs: &mut Vec<Field>, field: &Field) -> Result<(), NoMemory>
    ensures { OnOk result (pairs.new.items ≡ pairs.old.items ++ pairs_of field.now) }
{
    let name = field.name.as_slice();
    if !(is_for_application(name)
        && is_field_name(name)
        && is_field_value(field.value.as_slice()))
    {
        return Ok(());
    }
    if is_binary_name(name) {
        return push_binary(alloc, pairs, field);
    }
    pairs.push(field.share()?)?;
    Ok(())
}

/// Whether the protocol leaves this name to the application.
fn is_for_application(name: &[u8]) -> bool
    ensures { result ≡ is_for_application name.now }
{
    !name.starts_with(b":") && !is_protocol_name(name)
}

/// Whether the protocol reads this name itself.
fn is_protocol_name(name: &[u8]) -> bool
    ensures { result ≡ list_any (λ n. bytes_eq name.now n) protocol_names }
{
    name == b"content-type".as_slice()
        || name == b"grpc-status".as_slice()
        || name == b"grpc-message".as_slice()
        || name == b"grpc-encoding".as_slice()
        || name == b"grpc-accept-encoding".as_slice()
        || name == b"grpc-retry-pushback-ms".as_slice()
}

/// Whether this name may stand in a header.
fn is_field_name(name: &[u8]) -> bool
    ensures { result ≡ is_field_name name.now }
{
    !name.is_empty() && name.len() <= 65_535 && are_name_bytes(name)
}

/// Whether each byte is one of a token, and no capital.
fn are_name_bytes(name: &[u8]) -> bool
    ensures { result ≡ list_all is_field_name_byte name.now }
{
    name.iter()
        .all(|b| is_token_char(*b) && !matches!(*b, b'A'..=b'Z'))
}

/// Whether this value may stand in a header.
fn is_field_value(value: &[u8]) -> bool
    ensures { result ≡ is_field_value value.now }
{
    value
        .iter()
        .all(|b| *b == b'\t' || (*b >= b' ' && *b != 0x7f))
}
