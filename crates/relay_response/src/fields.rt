// The header lists of a response.
ghost use Rattle.std.specs.Prelude.{◌≡◌, ◌++◌, ◌∷◌, [], codes, drop, map, if◌then◌else◌, IfOk, OnOk};
ghost use Rattle.std.specs.Fmt.{decimal};
ghost use Rattle.grpc_base.specs.Codes.{code_number};
ghost use Rattle.grpc_meta.specs.RequestFields.{field, sent};
ghost use Rattle.relay_response.specs.Blocks.{end_fields, head_fields, message_fields, response_fields};
ghost use Rattle.script_fields.specs.Spelling.{percent_text};

use base64::engine::general_purpose::STANDARD_NO_PAD;
use grpc_base::{Code, Field, Fields, Metadata, NoMemory, Octets, Text};
use itoa::Buffer;
use script_fields::append_text;
use std::alloc::Global;

/// How many fields a response has at most beside its metadata, in one block.
const FIXED_FIELDS: usize = 4;

/// Appends a field whose name and value live as long as the program.
fn push_fixed(
    fields: &mut Fields,
    name: &'static [u8],
    value: &'static [u8],
) -> Result<(), NoMemory>
    ensures { OnOk result (fields.new ≡ fields.old ++ field name.now value.now ∷ []) }
{
    fields.push(Field {
        name: Octets::of_static(name),
        value: Octets::of_static(value),
    })
}

/// Appends what begins a response (gRPC over HTTP/2, "Responses").
fn push_head(fields: &mut Fields) -> Result<(), NoMemory>
    ensures { OnOk result (fields.new ≡ fields.old ++ head_fields) }
{
    push_fixed(fields, b":status", b"200")?;
    push_fixed(fields, b"content-type", b"application/grpc")?;
    Ok(())
}

/// Appends the code of a response; that of most, 0, is not copied.
fn push_code(alloc: Global, fields: &mut Fields, code: Code) -> Result<(), NoMemory>
    ensures { OnOk result (fields.new ≡ fields.old ++ field (codes "grpc-status") (decimal (code_number code)) ∷ []) }
{
    let mut buffer = Buffer::new();
    let digits = buffer.format(code.number());
    fields.push(Field {
        name: Octets::of_static(b"grpc-status"),
        value: Octets::of_slice(alloc, digits.as_bytes())?,
    })
}

/// A text as it is sent: what is not visible ASCII is escaped (gRPC over HTTP/2, "Percent-Encoded").
fn escaped(alloc: Global, text: &[u8]) -> Result<Octets, NoMemory>
    ensures { IfOk result (λ o. o ≡ percent_text text.now) }
{
    let mut bytes = Vec::new(alloc);
    append_text(alloc, &mut bytes, text)?;
    let mut octets = Octets::of_vec(bytes)?;
    octets.advance(1);
    Ok(octets)
}

/// Appends the text of a status, where it has one.
fn push_message(alloc: Global, fields: &mut Fields, text: &Text) -> Result<(), NoMemory>
    ensures { OnOk result (fields.new ≡ fields.old ++ message_fields text.now) }
{
    if text.len() == 0 {
        return Ok(());
    }
    let value = escaped(alloc, text.as_slice())?;
    fields.push(Field {
        name: Octets::of_static(b"grpc-message"),
        value,
    })
}

/// A pair as it is sent: a value of bytes is base64 without padding (gRPC over HTTP/2, "Binary-Header").
fn sent(alloc: Global, pair: &Field) -> Result<Field, NoMemory>
    ensures { IfOk result (λ f. f ≡ sent pair.now) }
{
    if !pair.name.as_slice().ends_with(b"-bin") {
        return pair.share();
    }
    let name = pair.name.share()?;
    let text = STANDARD_NO_PAD.encode(alloc, pair.value.as_slice())?;
    let value = Octets::of_vec(text.into_bytes())?;
    Ok(Field { name, value })
}

/// Appends metadata as it is sent.
fn push_metadata(alloc: Global, fields: &mut Fields, meta: &Metadata) -> Result<(), NoMemory>
    ensures { OnOk result (fields.new ≡ fields.old ++ map sent meta.now) }
{
    for pair in meta.as_slice() {
        fields.push(sent(alloc, pair)?)?;
    }
    Ok(())
}

/// The header list that begins a response.
pub(crate) fn response_fields(alloc: Global, meta: &Metadata) -> Result<Fields, NoMemory>
    ensures { IfOk result (λ fields. fields ≡ response_fields meta.now) }
{
    let mut fields = Fields::new(alloc);
    fields.reserve(meta.len().saturating_add(FIXED_FIELDS))?;
    push_head(&mut fields)?;
    push_metadata(alloc, &mut fields, meta)?;
    Ok(fields)
}

/// Appends what begins a response, where it was not given before.
fn push_head_unless(fields: &mut Fields, headed: bool) -> Result<(), NoMemory>
    ensures { OnOk result (fields.new ≡ fields.old ++ (if headed then [] else head_fields)) }
{
    if headed {
        return Ok(());
    }
    push_head(fields)
}

/// The header list that ends a response: trailers, or the whole response where no head was given.
pub(crate) fn end_fields(
    alloc: Global,
    headed: bool,
    code: Code,
    text: &Text,
    meta: &Metadata,
) -> Result<Fields, NoMemory>
    ensures { IfOk result (λ fields. fields ≡ end_fields headed code text.now meta.now) }
{
    let mut fields = Fields::new(alloc);
    fields.reserve(meta.len().saturating_add(FIXED_FIELDS))?;
    push_head_unless(&mut fields, headed)?;
    push_code(alloc, &mut fields, code)?;
    push_message(alloc, &mut fields, text)?;
    push_metadata(alloc, &mut fields, meta)?;
    Ok(fields)
}
