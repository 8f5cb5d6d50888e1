// The header list of a request.
ghost use Rattle.std.specs.Prelude.{◌≡◌, ◌≤◌, ◌++◌, ◌∷◌, [], map, IfOk, IfSome, OnOk};
ghost use Rattle.grpc_base.specs.Authorities.{IsAuthority};
ghost use Rattle.grpc_base.specs.Limits.{duration_limit};
ghost use Rattle.grpc_meta.specs.RequestFields.{attempt_fields, field, fields_of_request, greatest_list, list_limit, list_size, sent, timeout_fields};

use crate::binary::sent;
use crate::timeout::timeout_text;
use grpc_base::{Field, Fields, Metadata, NoMemory, Octets, Request, Text};
use itoa::Buffer;
use std::alloc::Global;

/// How many fields a request has at most beside its metadata.
const FIXED_FIELDS: usize = 8;

/// The header list of an attempt's request (gRPC over HTTP/2, "Requests"). `authority` is that of the channel's target, `left` the
/// time that the call has left in nanoseconds, and `number` counts its attempts from 1.
///
/// Its size is at most that of the longest path, authority, time left and metadata, and of the greatest attempt number.
pub fn request_fields(
    alloc: Global,
    request: &Request,
    authority: &Text,
    left: Option<u64>,
    number: u32,
) -> Result<Fields, NoMemory>
    requires authority { IsAuthority authority.now }
    requires left { IfSome left (λ t. (1 ≤ t) × (t ≤ duration_limit)) }
    requires number { 1 ≤ number }
    ensures list { IfOk result (λ fields. fields ≡ fields_of_request request.now authority.now left number) }
    ensures greatest { IfOk result (λ fields. list_size fields ≤ greatest_list) }
    ensures fits { IfOk result (λ fields. list_size fields ≤ list_limit) }
{
    let mut fields = Fields::new(alloc);
    fields.reserve(FIXED_FIELDS.saturating_add(request.meta().len()))?;
    let (path, authority) = copies_of(alloc, request.path().as_slice(), authority.as_slice())?;
    push_fixed(&mut fields, b":method", b"POST")?;
    push_fixed(&mut fields, b":scheme", b"http")?;
    push_owned(&mut fields, b":path", path)?;
    push_owned(&mut fields, b":authority", authority)?;
    push_timeout(alloc, &mut fields, left)?;
    push_fixed(&mut fields, b"te", b"trailers")?;
    push_fixed(&mut fields, b"content-type", b"application/grpc")?;
    push_attempts(alloc, &mut fields, number)?;
    push_metadata(alloc, &mut fields, request.meta())?;
    Ok(fields)
}

/// Copies of two texts, which share one run of memory.
#[tactic(auto, using(crate::proofs::CopyLemmas::first_part, crate::proofs::CopyLemmas::second_part))]
fn copies_of(alloc: Global, first: &[u8], second: &[u8]) -> Result<(Octets, Octets), NoMemory>
    ensures first { IfOk result (λ x. x.0 ≡ first.now) }
    ensures second { IfOk result (λ x. x.1 ≡ second.now) }
{
    let mut both = Vec::with_capacity(alloc, first.len().saturating_add(second.len()))?;
    both.extend_from_slice(first)?;
    both.extend_from_slice(second)?;
    let mut rest = Octets::of_vec(both)?;
    let prefix = rest.part(0, first.len())?;
    rest.advance(first.len());
    Ok((prefix, rest))
}

/// Appends a field whose name lives as long as the program.
fn push_owned(fields: &mut Fields, name: &'static [u8], value: Octets) -> Result<(), NoMemory>
    ensures { OnOk result (fields.new ≡ fields.old ++ field name.now value ∷ []) }
{
    let name = Octets::of_static(name);
    fields.push(Field { name, value })
}

/// The same of a value that is copied.
fn push(
    alloc: Global,
    fields: &mut Fields,
    name: &'static [u8],
    value: &[u8],
) -> Result<(), NoMemory>
    ensures { OnOk result (fields.new ≡ fields.old ++ field name.now value.now ∷ []) }
{
    let value = Octets::of_slice(alloc, value)?;
    push_owned(fields, name, value)
}

/// Appends a field whose name and value live as long as the program.
fn push_fixed(
    fields: &mut Fields,
    name: &'static [u8],
    value: &'static [u8],
) -> Result<(), NoMemory>
    ensures { OnOk result (fields.new ≡ fields.old ++ field name.now value.now ∷ []) }
{
    fields.push(Field {
        name: Octets::of_static(name),
        value: Octets::of_static(value),
    })
}

/// Appends the time left, where there is a deadline.
fn push_timeout(alloc: Global, fields: &mut Fields, left: Option<u64>) -> Result<(), NoMemory>
    requires { IfSome left (λ t. (1 ≤ t) × (t ≤ duration_limit)) }
    ensures { OnOk result (fields.new ≡ fields.old ++ timeout_fields left) }
{
    match left {
        Some(left) => push(
            alloc,
            fields,
            b"grpc-timeout",
            timeout_text(left).as_slice(),
        ),
        None => Ok(()),
    }
}

/// Appends how many attempts there were before this one, where there were any.
fn push_attempts(alloc: Global, fields: &mut Fields, number: u32) -> Result<(), NoMemory>
    requires { 1 ≤ number }
    ensures { OnOk result (fields.new ≡ fields.old ++ attempt_fields number) }
{
    if number <= 1 {
        return Ok(());
    }
    let mut buffer = Buffer::new();
    let before = buffer.format(number - 1);
    push(
        alloc,
        fields,
        b"grpc-previous-rpc-attempts",
        before.as_bytes(),
    )
}

/// Appends the pairs of the application as they are sent.
fn push_metadata(alloc: Global, fields: &mut Fields, meta: &Metadata) -> Result<(), NoMemory>
    ensures { OnOk result (fields.new ≡ fields.old ++ map sent meta.now) }
{
    for pair in meta.as_slice() {
        fields.push(sent(alloc, pair)?)?;
    }
    Ok(())
}
