// The fields of requests and of responses.
ghost use Rattle.std.specs.Prelude.{IfOk};
ghost use Rattle.grpc_base.specs.Authorities.{IsAuthority};
ghost use Rattle.grpc_base.specs.Metadata.{IsRequestMetadata};

use crate::headers::fields_of;
use grpc_base::{Field, Fields, Metadata, Octets, Pushback, Request, Text, is_authority};
use grpc_meta::{pushback, request_fields, shown, timeout_text};
use std::alloc::Global;
use table_rows::{Said, Wrong, bytes_of, number};

/// Appends what of a response the application is shown.
fn append_shown(alloc: Global, input: &str, out: &mut Said) -> Result<(), Wrong> {
    let meta = shown(alloc, &fields_of(alloc, input)?)?;
    for field in meta.as_slice() {
        if !out.is_empty() {
            out.text(b" ");
        }
        out.text(field.name.as_slice());
        out.text(b"=");
        out.text(field.value.as_slice());
    }
    Ok(())
}

/// Whether a response with this field alone is shown.
fn is_shown(alloc: Global, name: &[u8], value: &[u8]) -> Result<bool, Wrong> {
    let mut fields = Fields::new(alloc);
    let name = Octets::of_slice(alloc, name)?;
    let value = Octets::of_slice(alloc, value)?;
    fields.push(Field { name, value })?;
    Ok(!shown(alloc, &fields)?.is_empty())
}

/// Appends the bytes that alone are a name, or a value, of what is shown.
fn append_bytes(alloc: Global, are_names: bool, out: &mut Said) -> Result<(), Wrong> {
    for byte in 0..=255u8 {
        let is_one = if are_names {
            is_shown(alloc, &[byte], b"")?
        } else {
            is_shown(alloc, b"v", &[byte])?
        };
        if is_one {
            out.text(&[byte]);
        }
    }
    Ok(())
}

/// Appends the text of a time left.
fn append_timeout(input: &str, out: &mut Said) -> Result<(), Wrong> {
    let left = number(input)?;
    if left < 1 || left > 1_000_000_000_000_000_000 {
        return Err(Wrong::Form);
    }
    out.text(timeout_text(left).as_slice());
    Ok(())
}

/// Appends the pushback of a response.
fn append_pushback(alloc: Global, input: &str, out: &mut Said) -> Result<(), Wrong> {
    match pushback(&fields_of(alloc, input)?) {
        Pushback::None => out.text(b"-"),
        Pushback::Stop => out.text(b"stop"),
        Pushback::After(millis) => out.number(u64::from(millis)),
    }
    Ok(())
}

/// An authority of this text.
fn authority_of(alloc: Global, text: &str) -> Result<Text, Wrong>
    ensures { IfOk result IsAuthority }
{
    let text = Text::of_vec(bytes_of(alloc, text)?);
    if is_authority(text.as_slice()) {
        Ok(text)
    } else {
        Err(Wrong::Form)
    }
}

/// Metadata of these fields.
fn metadata_of(alloc: Global, fields: &[Field]) -> Result<Metadata, Wrong>
    ensures { IfOk result (λ meta. IsRequestMetadata meta) }
{
    let mut meta = Metadata::new(alloc);
    for field in fields {
        match meta.push(field.name.as_slice(), field.value.as_slice()) {
            Ok(()) => {}
            Err(_) => return Err(Wrong::Form),
        }
    }
    Ok(meta)
}

/// The fields of a request with this path and metadata, to this authority, with so much time left, as its attempt of this number.
fn requested(
    alloc: Global,
    path: &str,
    meta: &Fields,
    authority: &str,
    left: Option<u64>,
    attempt: u32,
) -> Result<Fields, Wrong> {
    let path = Text::of_vec(bytes_of(alloc, path)?);
    let meta = metadata_of(alloc, meta.as_slice())?;
    let Ok(request) = Request::new(path, meta, None, None) else {
        return Err(Wrong::Form);
    };
    let authority = authority_of(alloc, authority)?;
    if let Some(left) = left {
        if left < 1 || left > 1_000_000_000_000_000_000 {
            return Err(Wrong::Form);
        }
    }
    if attempt < 1 {
        return Err(Wrong::Form);
    }
    Ok(request_fields(alloc, &request, &authority, left, attempt)?)
}

/// The fields of the request of a row.
fn request_of(alloc: Global, input: &str) -> Result<Fields, Wrong> {
    let mut parts = input.splitn(5, ' ');
    let path = parts.next().ok_or(Wrong::Form)?;
    let authority = parts.next().ok_or(Wrong::Form)?;
    let left = match parts.next().ok_or(Wrong::Form)? {
        "-" => None,
        text => Some(number(text)?),
    };
    let Ok(attempt) = u32::try_from(number(parts.next().ok_or(Wrong::Form)?)?) else {
        return Err(Wrong::Form);
    };
    let meta = fields_of(alloc, parts.next().ok_or(Wrong::Form)?)?;
    requested(alloc, path, &meta, authority, left, attempt)
}

/// Appends the fields of a request, a line a field.
fn append_request(alloc: Global, input: &str, out: &mut Said) -> Result<(), Wrong> {
    let fields = request_of(alloc, input)?;
    for field in fields.as_slice() {
        out.text(field.name.as_slice());
        out.text(b" ");
        out.text(field.value.as_slice());
        out.text(b"\n");
    }
    Ok(())
}

/// Appends how many fields a request has, and how much their sizes come to.
fn append_size(alloc: Global, input: &str, out: &mut Said) -> Result<(), Wrong> {
    let fields = request_of(alloc, input)?;
    let mut size = 0u64;
    for field in fields.as_slice() {
        let len = field.name.len().saturating_add(field.value.len());
        size = size.saturating_add(len as u64).saturating_add(32);
    }
    out.number(fields.len() as u64);
    out.text(b" fields, ");
    out.number(size);
    Ok(())
}

/// Appends the answer to a row about fields.
pub fn answer(alloc: Global, kind: &str, input: &str, out: &mut Said) -> Result<(), Wrong> {
    match kind {
        "shown" => append_shown(alloc, input, out),
        "name-bytes" => append_bytes(alloc, true, out),
        "value-bytes" => append_bytes(alloc, false, out),
        "timeout" => append_timeout(input, out),
        "pushback" => append_pushback(alloc, input, out),
        "request" => append_request(alloc, input, out),
        "request-size" => append_size(alloc, input, out),
        _ => Err(Wrong::Form),
    }
}
