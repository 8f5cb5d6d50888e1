// The ends of attempts.
ghost use Rattle.std.specs.Prelude.{◌≡◌, [], ◌∷◌, IfOk, MatchOption, Some, codes, slice_get, true};
ghost use Rattle.std.specs.Option.{option_map_or};
ghost use Rattle.grpc_meta.specs.ResponseFields.{values_of};
ghost use Rattle.grpc_status.specs.StatusMaps.{text_of_message};
ghost use Rattle.h2_link.specs.Status.{is_interim};
ghost use Rattle.grpc_link.specs.Ends.{asked, end_without_block, end_with, framing_end, http_code, http_end, is_grpc, is_head, is_ok, reset_end, status_end, unseen_end};
ghost use Rattle.grpc_link.specs.Response.{end_before_head, end_after_head, headers_end, trailers_end};

use attempt_ledger::{EndNews, RowCause};
use grpc_base::error_code::REFUSED_STREAM;
use grpc_base::{Code, Field, Fields, Metadata, NoMemory, Octets, Pushback, Text};
use grpc_meta::{pushback, shown};
use grpc_status::{message_text, of_http, of_reset, of_text};
use h2_link::http_status;
use std::alloc::Global;

// The first value of a name, and the fields after it.
fn first_value<'a>(fields: &'a [Field], name: &[u8]) -> Option<(&'a Octets, &'a [Field])>
    ensures { MatchOption result (values_of name.now fields.now ≡ []) (λ x. values_of name.now fields.now ≡ x.0.now ∷ values_of name.now x.1.now) }
{
    let [first, rest @ ..] = fields else {
        return None;
    };
    if first.name.as_slice() == name {
        Some((&first.value, rest))
    } else {
        first_value(rest, name)
    }
}

/// Whether a status is that of an interim response (RFC 9110, section 15.2).
pub fn is_interim(status: Option<u32>) -> bool
    ensures { result ≡ is_interim status }
{
    match status {
        Some(status) => 100 <= status && status < 200,
        None => false,
    }
}

// Whether the first content type is that of gRPC.
fn has_grpc_type(fields: &[Field]) -> bool
    ensures { result ≡ is_grpc (slice_get (values_of (codes "content-type") fields.now) 0) }
{
    match first_value(fields, b"content-type") {
        Some((value, _)) => is_grpc(value.as_slice()),
        None => false,
    }
}

fn is_grpc(value: &[u8]) -> bool
    ensures { result ≡ is_grpc (Some value.now) }
{
    if !value.starts_with(b"application/grpc") {
        return false;
    }
    match value.get(16) {
        Some(byte) => *byte == b'+' || *byte == b';',
        None => true,
    }
}

// Whether a header list is the head of a response.
fn is_head(fields: &Fields) -> bool
    ensures { result ≡ is_head fields.now }
{
    http_status(fields.as_slice()) == Some(200) && has_grpc_type(fields.as_slice())
}

fn http_code(fields: &Fields) -> Code
    ensures { result ≡ http_code fields.now }
{
    match http_status(fields.as_slice()) {
        Some(status) => of_http(status),
        None => Code::Unknown,
    }
}

fn asked(ends: bool, fields: &Fields) -> Pushback
    ensures { result ≡ asked ends fields.now }
{
    if ends {
        pushback(fields)
    } else {
        Pushback::None
    }
}

// The text of the first `grpc-message`.
fn message_of(alloc: Global, fields: &[Field]) -> Result<Text, NoMemory>
    ensures { IfOk result (λ t. t ≡ option_map_or text_of_message (slice_get (values_of (codes "grpc-message") fields.now) 0) []) }
{
    match first_value(fields, b"grpc-message") {
        Some((value, _)) => message_text(alloc, value.as_slice()),
        None => Ok(Text::new(alloc)),
    }
}

// An end that a header block makes.
fn end_with(
    alloc: Global,
    code: Code,
    cause: RowCause,
    pushback: Pushback,
    fields: &Fields,
    seen: u64,
) -> Result<EndNews, NoMemory>
    ensures { IfOk result (λ e. e ≡ end_with code cause pushback fields.now seen) }
{
    let text = message_of(alloc, fields.as_slice())?;
    let meta = shown(alloc, fields)?;
    Ok(EndNews {
        code,
        text,
        meta,
        pushback,
        unseen: false,
        seen,
        cause,
    })
}

// The end by trailers, or by a response of trailers alone.
fn status_end(alloc: Global, fields: &Fields, seen: u64) -> Result<EndNews, NoMemory>
    ensures { IfOk result (λ e. e ≡ status_end fields.now seen) }
{
    let asks = asked(true, fields);
    let Some((value, others)) = first_value(fields.as_slice(), b"grpc-status") else {
        return end_with(alloc, http_code(fields), RowCause::Http, asks, fields, seen);
    };
    let code = match first_value(others, b"grpc-status") {
        None => of_text(value.as_slice()),
        Some(_) => Code::Unknown,
    };
    end_with(alloc, code, RowCause::Status, asks, fields, seen)
}

fn framing_end(alloc: Global, ends: bool, fields: &Fields, seen: u64) -> Result<EndNews, NoMemory>
    ensures { IfOk result (λ e. e ≡ framing_end ends fields.now seen) }
{
    let asks = asked(ends, fields);
    end_with(alloc, Code::Internal, RowCause::Framing, asks, fields, seen)
}

fn http_end(alloc: Global, fields: &Fields, seen: u64) -> Result<EndNews, NoMemory>
    ensures { IfOk result (λ e. e ≡ http_end fields.now seen) }
{
    let code = http_code(fields);
    end_with(alloc, code, RowCause::Http, Pushback::None, fields, seen)
}

/// An end that no header block makes.
pub fn end_without_block(
    alloc: Global,
    code: Code,
    cause: RowCause,
    unseen: bool,
    seen: u64,
) -> EndNews
    ensures { result ≡ end_without_block code cause unseen seen }
{
    EndNews {
        code,
        text: Text::new(alloc),
        meta: Metadata::new(alloc),
        pushback: Pushback::None,
        unseen,
        seen,
        cause,
    }
}

/// The end by RST_STREAM.
pub fn reset_end(alloc: Global, has_head: bool, number: u32, seen: u64) -> EndNews
    ensures { result ≡ reset_end has_head number seen }
{
    let unseen = number == REFUSED_STREAM && !has_head;
    end_without_block(alloc, of_reset(number), RowCause::Reset, unseen, seen)
}

/// The end by GOAWAY.
pub fn unseen_end(alloc: Global, opened: bool, seen: u64) -> EndNews
    ensures { result ≡ unseen_end opened seen }
{
    let cause = if opened {
        RowCause::Goaway
    } else {
        RowCause::Unsent
    };
    end_without_block(alloc, Code::Unavailable, cause, true, seen)
}

/// The end that a header list makes, where a head came or not and all messages are whole or not.
pub fn headers_end(
    alloc: Global,
    has_head: bool,
    whole: bool,
    fields: &Fields,
    ends: bool,
    seen: u64,
) -> Result<Option<EndNews>, NoMemory>
    ensures { IfOk result (λ e. e ≡ headers_end has_head whole fields.now ends seen) }
{
    if has_head {
        let end = end_after_head(alloc, whole, fields, ends, seen)?;
        Ok(Some(end))
    } else {
        end_before_head(alloc, fields, ends, seen)
    }
}

fn end_after_head(
    alloc: Global,
    whole: bool,
    fields: &Fields,
    ends: bool,
    seen: u64,
) -> Result<EndNews, NoMemory>
    ensures { IfOk result (λ e. Some e ≡ end_after_head whole fields.now ends seen) }
{
    if ends {
        trailers_end(alloc, whole, fields, seen)
    } else {
        framing_end(alloc, ends, fields, seen)
    }
}

fn trailers_end(alloc: Global, whole: bool, fields: &Fields, seen: u64) -> Result<EndNews, NoMemory>
    ensures { IfOk result (λ e. e ≡ trailers_end whole fields.now seen) }
{
    let end = status_end(alloc, fields, seen)?;
    if is_ok(end.code) && !whole {
        framing_end(alloc, true, fields, seen)
    } else {
        Ok(end)
    }
}

fn is_ok(code: Code) -> bool
    ensures { result ≡ is_ok code }
{
    matches!(code, Code::Ok)
}

fn end_before_head(
    alloc: Global,
    fields: &Fields,
    ends: bool,
    seen: u64,
) -> Result<Option<EndNews>, NoMemory>
    ensures { IfOk result (λ e. e ≡ end_before_head fields.now ends seen) }
{
    let status = http_status(fields.as_slice());
    if is_interim(status) {
        if ends {
            return Ok(Some(framing_end(alloc, ends, fields, seen)?));
        }
        return Ok(None);
    }
    if ends {
        return Ok(Some(status_end(alloc, fields, seen)?));
    }
    if is_head(fields) {
        return Ok(None);
    }
    if status.is_none() {
        return Ok(Some(framing_end(alloc, ends, fields, seen)?));
    }
    Ok(Some(http_end(alloc, fields, seen)?))
}
