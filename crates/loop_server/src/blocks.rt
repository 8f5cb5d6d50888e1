// The header blocks of an answer.
ghost use Rattle.std.specs.Prelude.{◌≡◌, ◌<◌, ◌≤◌, ◌++◌, ◌∷◌, [], ◌+◌, ◌-◌, true, codes, if◌then◌else◌, IfOk, IfSome, OnOk, length};
ghost use Rattle.std.specs.List.{list_any};
ghost use Rattle.std.specs.Fmt.{decimal};
ghost use Rattle.h2_hpack.specs.Encoding.{block_bytes};
ghost use Rattle.h2_hpack.specs.Tables.{field_size, list_size};
ghost use Rattle.loop_server.specs.Blocks.{field, fields_of, fits, head_fields, is_head, is_pushback, pushback_field, pushback_fields, pushback_room, room_after, status_fields};

use bytes::BytesMut;
use grpc_base::{AnswerPart, Field, Fields, NoMemory, Octets};
use h2_hpack::encode_fields;
use itoa::Buffer;
use std::alloc::Global;

/// What the sizes of the pushbacks of one block may come to, so that its header list is within 16,384.
const PUSHBACK_ROOM: usize = 16_000;

/// The size of a field beyond its value's: 22 bytes of its name and 32 (RFC 7541, section 4.1).
const PUSHBACK_SIZE: usize = 54;

/// The header block that begins a response: `:status: 200` by its index, and the type of gRPC after the index of
/// `content-type`.
const HEAD_BLOCK: &[u8] = b"\x88\x0f\x10\x10application/grpc";

/// The header block that ends a response with code 0 and nothing else: `grpc-status: 0`, a literal without indexing.
const OK_BLOCK: &[u8] = b"\x00\x0bgrpc-status\x010";

/// The name of the field with the code of a response.
const STATUS_NAME: &[u8] = b"grpc-status";

/// Appends a field whose name and value live as long as the program.
fn push_fixed(
    fields: &mut Fields,
    name: &'static [u8],
    value: &'static [u8],
) -> Result<(), NoMemory>
    ensures { OnOk result (fields.new ≡ fields.old ++ field name.now value.now ∷ []) }
{
    fields.push(Field {
        name: Octets::of_static(name),
        value: Octets::of_static(value),
    })
}

/// Appends a field whose name lives as long as the program.
fn push_copied(
    alloc: Global,
    fields: &mut Fields,
    name: &'static [u8],
    value: &[u8],
) -> Result<(), NoMemory>
    ensures { OnOk result (fields.new ≡ fields.old ++ field name.now value.now ∷ []) }
{
    fields.push(Field {
        name: Octets::of_static(name),
        value: Octets::of_slice(alloc, value)?,
    })
}

/// Appends what begins a response (gRPC over HTTP/2, "Responses").
fn push_head(fields: &mut Fields) -> Result<(), NoMemory>
    ensures { OnOk result (fields.new ≡ fields.old ++ head_fields) }
{
    push_fixed(fields, b":status", b"200")?;
    push_fixed(fields, b"content-type", b"application/grpc")?;
    Ok(())
}

/// Appends the pushbacks of these parts, as long as they fit (gRFC A6, "Pushback").
fn push_pushbacks(alloc: Global, fields: &mut Fields, parts: &[AnswerPart]) -> Result<(), NoMemory>
    ensures { OnOk result (fields.new ≡ fields.old ++ pushback_fields pushback_room parts.now) }
{
    let mut room = PUSHBACK_ROOM;
    for part in parts {
        room = push_pushback(alloc, fields, room, part)?;
    }
    Ok(())
}

/// Appends the pushback of a part, where it is one that fits, and answers how much room is left.
fn push_pushback(
    alloc: Global,
    fields: &mut Fields,
    room: usize,
    part: &AnswerPart,
) -> Result<usize, NoMemory>
    ensures fields { OnOk result (fields.new ≡ fields.old ++ fields_of room part.now) }
    ensures room { IfOk result (λ left. left ≡ room_after room part.now) }
{
    match part {
        AnswerPart::Pushback(text) => push_fitting(alloc, fields, room, text.as_slice()),
        _ => Ok(room),
    }
}

/// The same of the text of a pushback.
fn push_fitting(
    alloc: Global,
    fields: &mut Fields,
    room: usize,
    text: &[u8],
) -> Result<usize, NoMemory>
    ensures fields { OnOk result (fields.new ≡ fields.old ++ (if fits text.now room then pushback_field text.now ∷ [] else [])) }
    ensures room { IfOk result (λ left. left ≡ (if fits text.now room then room - field_size (pushback_field text.now) else room)) }
{
    if !fits(text, room) {
        return Ok(room);
    }
    push_copied(alloc, fields, b"grpc-retry-pushback-ms", text)?;
    Ok(room - (PUSHBACK_SIZE + text.len()))
}

/// Whether a pushback has room for its name, its text and 32.
fn fits(text: &[u8], room: usize) -> bool
    ensures fits { result ≡ fits text.now room }
    ensures within { result ≡ true → 54 + length text.now ≤ room }
{
    PUSHBACK_SIZE <= room && text.len() <= room - PUSHBACK_SIZE
}

/// Appends the code of a response; that of most, 0, is not copied.
fn push_status(alloc: Global, fields: &mut Fields, code: u32) -> Result<(), NoMemory>
    ensures { OnOk result (fields.new ≡ fields.old ++ field (codes "grpc-status") (decimal code) ∷ []) }
{
    if code == 0 {
        return push_fixed(fields, STATUS_NAME, b"0");
    }
    let mut buffer = Buffer::new();
    let digits = buffer.format(code);
    push_copied(alloc, fields, STATUS_NAME, digits.as_bytes())
}

fn is_head(part: &AnswerPart) -> bool
    ensures { result ≡ is_head part.now }
{
    matches!(part, AnswerPart::Head)
}

fn has_head(parts: &[AnswerPart]) -> bool
    ensures { result ≡ list_any is_head parts.now }
{
    for part in parts {
        if is_head(part) {
            return true;
        }
    }
    false
}

fn is_pushback(part: &AnswerPart) -> bool
    ensures { result ≡ is_pushback part.now }
{
    matches!(part, AnswerPart::Pushback(_))
}

fn has_pushback(parts: &[AnswerPart]) -> bool
    ensures { result ≡ list_any is_pushback parts.now }
{
    for part in parts {
        if is_pushback(part) {
            return true;
        }
    }
    false
}

/// Appends what begins a response, where it was not sent before.
fn push_head_unless(fields: &mut Fields, sent: bool) -> Result<(), NoMemory>
    ensures { OnOk result (fields.new ≡ fields.old ++ (if sent then [] else head_fields)) }
{
    if sent {
        return Ok(());
    }
    push_head(fields)
}

/// The header block that begins a response.
#[tactic(auto, using(crate::proofs::Heads::head_written))]
pub(crate) fn head_block() -> &'static [u8]
    ensures block { result.now ≡ block_bytes head_fields }
    ensures fits { length result.now < 16384 }
{
    HEAD_BLOCK
}

/// The header list that ends a response after these parts.
fn status_fields(alloc: Global, before: &[AnswerPart], code: u32) -> Result<Fields, NoMemory>
    ensures fields { IfOk result (λ fields. fields ≡ status_fields before.now code) }
{
    let mut fields = Fields::new(alloc);
    push_head_unless(&mut fields, has_head(before))?;
    push_pushbacks(alloc, &mut fields, before)?;
    push_status(alloc, &mut fields, code)?;
    Ok(fields)
}

/// The header block that ends a response after these parts, where it is the one of most responses, which is not made anew.
#[tactic(auto, using(crate::proofs::Heads::ok_written))]
pub(crate) fn ok_block(before: &[AnswerPart], code: u32) -> Option<&'static [u8]>
    ensures block { IfSome result (λ block. block.now ≡ block_bytes (status_fields before.now code)) }
    ensures fits { IfSome result (λ block. length block.now < 16384) }
{
    if code == 0 && has_head(before) && !has_pushback(before) {
        Some(OK_BLOCK)
    } else {
        None
    }
}

/// The header block that ends a response after these parts: trailers, or the whole response where no head is among them.
pub(crate) fn status_block(
    alloc: Global,
    before: &[AnswerPart],
    code: u32,
) -> Result<BytesMut, NoMemory>
    ensures block { IfOk result (λ block. block.items ≡ block_bytes (status_fields before.now code)) }
    ensures fits { IfOk result (λ block. length block.items < 16384) }
{
    let fields = status_fields(alloc, before, code)?;
    encode_block(alloc, &fields)
}

/// The header block of a list.
fn encode_block(alloc: Global, fields: &Fields) -> Result<BytesMut, NoMemory>
    requires { list_size fields.now ≤ 16384 }
    ensures block { IfOk result (λ block. block.items ≡ block_bytes fields.now) }
    ensures fits { IfOk result (λ block. length block.items < 16384) }
{
    let block = encode_fields(alloc, fields)?;
    Ok(block)
}
