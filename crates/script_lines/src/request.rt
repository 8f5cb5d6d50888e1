// The request that a line begins.
ghost use Rattle.std.specs.Prelude.{[], ◌∷◌, IfOk, IfErr};
ghost use Rattle.script_lines.specs.Fields.{AreFieldsFault, IsRequestText, request_fields};
ghost use Rattle.script_lines.specs.Lines.{IsReportedBy};

use crate::cause::{BAD_PATH, LineFault, PAST_LIMIT, bad};
use crate::field::{meta_field_of, path_field_of, timeout_field_of, wait_field_of};
use grpc_base::{Request, RequestFault};
use std::alloc::Global;

/// The request of a path, a wait, a timeout and metadata.
pub fn request_of(
    alloc: Global,
    path: &[u8],
    wait: &[u8],
    timeout: &[u8],
    meta: &[u8],
) -> Result<Request, LineFault>
    ensures ok { IfOk result (λ r. IsRequestText r path.now wait.now timeout.now meta.now) }
    ensures bad { IfErr result (IsReportedBy (AreFieldsFault request_fields (path.now ∷ wait.now ∷ timeout.now ∷ meta.now ∷ []))) }
{
    let path = path_field_of(alloc, path)?;
    let wait = wait_field_of(wait)?;
    let timeout = timeout_field_of(timeout)?;
    let meta = meta_field_of(alloc, meta)?;
    match Request::new(path, meta, wait, timeout) {
        Ok(request) => Ok(request),
        Err(RequestFault::BadPath) => Err(bad(BAD_PATH)),
        Err(RequestFault::BadTimeout) => Err(bad(PAST_LIMIT)),
    }
}
