// What header lists of a response say: values of names, the HTTP status, and the end that a list makes
// (gRPC over HTTP/2, "Responses"; RFC 9110, section 15).
ghost use Rattle.std.specs.Prelude.{◌≡◌, [], ◌∷◌, IfOk, MatchOption, codes, if◌then◌else◌, slice_get};
ghost use Rattle.std.specs.Option.{option_map_or};
ghost use Rattle.grpc_meta.specs.ResponseFields.{pushback_of, values_of};
ghost use Rattle.grpc_status.specs.StatusMaps.{text_of_message};
ghost use Rattle.session_actions.specs.Responses.{block_end, http_code, http_status, is_grpc, is_head, is_interim, plain_end, status_end, three_digits};
ghost use Rattle.session_actions.specs.Words.{holds, is_number};
ghost use Rattle.grpc_base.specs.declared.plan.Pushback.TheVariants as pushbacks;

use attempt_ledger::RowCause;
use grpc_base::error_code::CANCEL;
use grpc_base::{Code, Field, Fields, Metadata, NoMemory, Octets, Pushback, Text, read_number};
use grpc_meta::{pushback, shown};
use grpc_status::{message_text, of_http, of_text};
use session_actions::{Block, Outcome};
use std::alloc::Global;

/// The first value of a name, and the fields after it.
fn first_value<'a>(name: &[u8], fields: &'a [Field]) -> Option<(&'a Octets, &'a [Field])>
    ensures first { MatchOption result (values_of name.now fields.now ≡ []) (λ x. values_of name.now fields.now ≡ x.0.now ∷ values_of name.now x.1.now) }
{
    let (first, rest) = fields.split_first()?;
    if first.name.as_slice() == name {
        Some((&first.value, rest))
    } else {
        first_value(name, rest)
    }
}

/// The HTTP status: that of the one `:status`, if it has three digits.
pub(crate) fn http_status(fields: &Fields) -> Option<u32>
    ensures { result ≡ http_status fields.now }
{
    let (value, rest) = first_value(b":status", fields.as_slice())?;
    match first_value(b":status", rest) {
        Some(_) => None,
        None => status_number(value.as_slice()),
    }
}

/// The number that three digits write.
#[tactic(auto, using(crate::proofs::LinkLaws::three_small))]
fn status_number(value: &[u8]) -> Option<u32>
    ensures { result ≡ three_digits (value.now ∷ []) }
{
    if value.len() != 3 {
        return None;
    }
    match read_number(value) {
        Some(number) => Some(number as u32),
        None => None,
    }
}

/// Whether a status is that of an interim response (RFC 9110, section 15.2).
pub(crate) fn is_interim(status: Option<u32>) -> bool
    ensures { result ≡ is_interim status }
{
    match status {
        Some(status) => 100 <= status && status < 200,
        None => false,
    }
}

/// Whether a content type is that of gRPC.
fn is_grpc(value: &[u8]) -> bool
    ensures { result ≡ is_grpc value.now }
{
    if !value.starts_with(b"application/grpc") {
        return false;
    }
    match value.get(16) {
        Some(byte) => *byte == b'+' || *byte == b';',
        None => true,
    }
}

/// Whether a header list is the head of a response.
pub(crate) fn is_head(fields: &Fields) -> bool
    ensures { result ≡ is_head fields.now }
{
    is_200(http_status(fields)) && has_grpc_type(fields)
}

fn is_200(status: Option<u32>) -> bool
    ensures { result ≡ is_number 200 status }
{
    match status {
        Some(status) => status == 200,
        None => false,
    }
}

/// Whether the first content type is that of gRPC.
fn has_grpc_type(fields: &Fields) -> bool
    ensures { result ≡ holds is_grpc (slice_get (values_of (codes "content-type") fields.now) 0) }
{
    match first_value(b"content-type", fields.as_slice()) {
        Some((value, _)) => is_grpc(value.as_slice()),
        None => false,
    }
}

/// The code of the HTTP status.
pub(crate) fn http_code(fields: &Fields) -> Code
    ensures { result ≡ http_code fields.now }
{
    match http_status(fields) {
        Some(status) => of_http(status),
        None => Code::Unknown,
    }
}

/// An end that no header block makes.
pub(crate) fn plain_end(
    alloc: Global,
    code: Code,
    cause: RowCause,
    unseen: bool,
    reset: Option<u32>,
) -> Outcome
    ensures { result ≡ plain_end code cause unseen reset }
{
    Outcome {
        code,
        text: Text::new(alloc),
        meta: Metadata::new(alloc),
        pushback: Pushback::None,
        unseen,
        cause,
        reset,
    }
}

/// The text of the first `grpc-message`.
fn message_of(alloc: Global, fields: &Fields) -> Result<Text, NoMemory>
    ensures { IfOk result (λ t. t ≡ option_map_or text_of_message (slice_get (values_of (codes "grpc-message") fields.now) 0) []) }
{
    match first_value(b"grpc-message", fields.as_slice()) {
        Some((value, _)) => message_text(alloc, value.as_slice()),
        None => Ok(Text::new(alloc)),
    }
}

/// What a header block asks of the next attempt, where it ends its stream.
fn asked_by(block: &Block) -> Pushback
    ensures { result ≡ (if block.now.ends then pushback_of (values_of (codes "grpc-retry-pushback-ms") block.now.fields) else pushbacks.None) }
{
    if block.ends {
        pushback(&block.fields)
    } else {
        Pushback::None
    }
}

/// An end by a header block.
pub(crate) fn block_end(
    alloc: Global,
    code: Code,
    cause: RowCause,
    reset: u32,
    block: &Block,
) -> Result<Outcome, NoMemory>
    ensures { IfOk result (λ o. o ≡ block_end code cause reset block.now) }
{
    let text = message_of(alloc, &block.fields)?;
    let meta = shown(alloc, &block.fields)?;
    Ok(Outcome {
        code,
        text,
        meta,
        pushback: asked_by(block),
        unseen: false,
        cause,
        reset: Some(reset),
    })
}

/// The end by the `grpc-status` of a header block, and by the HTTP status where there is none.
pub(crate) fn status_end(alloc: Global, block: &Block) -> Result<Outcome, NoMemory>
    ensures { IfOk result (λ o. o ≡ status_end (values_of (codes "grpc-status") block.now.fields) block.now) }
{
    let Some((value, rest)) = first_value(b"grpc-status", block.fields.as_slice()) else {
        return block_end(
            alloc,
            http_code(&block.fields),
            RowCause::Http,
            CANCEL,
            block,
        );
    };
    if first_value(b"grpc-status", rest).is_some() {
        return block_end(alloc, Code::Unknown, RowCause::Status, CANCEL, block);
    }
    let code = of_text(value.as_slice());
    block_end(alloc, code, RowCause::Status, CANCEL, block)
}
