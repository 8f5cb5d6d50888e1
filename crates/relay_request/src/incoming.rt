// What a header list asks.
ghost use Rattle.std.specs.Prelude.{◌≡◌, ◌≤◌, IfOk, IfSome, Some};
ghost use Rattle.grpc_base.specs.Limits.{duration_limit};
ghost use Rattle.grpc_base.specs.Metadata.{IsRequestMetadata};
ghost use Rattle.grpc_base.specs.Requests.{IsPath};
ghost use Rattle.relay_request.specs.Incoming.{by_timeout, incoming};

use crate::head::call_path;
use crate::pairs::metadata_of;
use crate::timeout::timeout_asked;
use grpc_base::{Code, Fields, Metadata, NoMemory, Request, RequestFault, Text};
use grpc_meta::shown;
use std::alloc::Global;

/// What a request's header list asks of a proxy.
#[derive(Debug, Drop)]
pub enum Incoming {
    /// A call.
    Begins(Request),
    /// Nothing that the proxy does: it is refused with this status.
    Refused(Code),
}

/// Reads the header list of a request (gRPC over HTTP/2, "Requests"). One that lacks `:method POST`, one path of a method
/// or a content type of gRPC is refused with UNIMPLEMENTED; one whose metadata comes to more than 14,336 bytes with
/// RESOURCE_EXHAUSTED; one whose `grpc-timeout` is unreadable with INTERNAL, in this order. Fields that a call may not have as
/// metadata are passed over, and values of bytes are decoded.
pub fn read_request(alloc: Global, fields: &Fields) -> Result<Incoming, NoMemory>
    ensures { IfOk result (λ r. r ≡ incoming fields.now) }
{
    let Some(path) = call_path(fields.as_slice()) else {
        return Ok(Incoming::Refused(Code::Unimplemented));
    };
    let pairs = shown(alloc, fields)?;
    let Some(meta) = metadata_of(alloc, &pairs)? else {
        return Ok(Incoming::Refused(Code::ResourceExhausted));
    };
    let Some(timeout) = timeout_asked(fields.as_slice()) else {
        return Ok(Incoming::Refused(Code::Internal));
    };
    let path = Text::of_slice(alloc, path.as_slice())?;
    Ok(begins(path, meta, timeout))
}

/// The call of these parts.
fn begins(path: Text, meta: Metadata, timeout: Option<u64>) -> Incoming
    requires path { IsPath path }
    requires meta { IsRequestMetadata meta }
    requires timeout { IfSome timeout (λ t. t ≤ duration_limit) }
    ensures { result ≡ by_timeout path meta (Some timeout) }
{
    match Request::new(path, meta, None, timeout) {
        Ok(request) => Incoming::Begins(request),
        Err(RequestFault::BadPath) => unreachable!(),
        Err(RequestFault::BadTimeout) => unreachable!(),
    }
}
