// Status codes by the HTTP status, by the code of a reset and by the text of `grpc-status`.
ghost use Rattle.std.specs.Prelude.{◌≡◌};
ghost use Rattle.grpc_status.specs.StatusMaps.{looked_up, http_codes, reset_codes, code_of_text};

use grpc_base::error_code::{
    CANCEL, COMPRESSION_ERROR, CONNECT_ERROR, ENHANCE_YOUR_CALM, FLOW_CONTROL_ERROR,
    FRAME_SIZE_ERROR, INADEQUATE_SECURITY, INTERNAL_ERROR, NO_ERROR, PROTOCOL_ERROR,
    REFUSED_STREAM, SETTINGS_TIMEOUT,
};
use grpc_base::{Code, read_number};

/// The code of a response that has no `grpc-status`, by its HTTP status
/// ("HTTP to gRPC Status Code Mapping"); any other status is UNKNOWN.
pub fn of_http(status: u32) -> Code
    ensures { result ≡ looked_up http_codes status }
{
    match status {
        400 => Code::Internal,
        401 => Code::Unauthenticated,
        403 => Code::PermissionDenied,
        404 => Code::Unimplemented,
        429 | 502 | 503 | 504 => Code::Unavailable,
        _ => Code::Unknown,
    }
}

/// The code of an attempt that the peer reset, by the error code of its RST_STREAM
/// (gRPC over HTTP/2, "Errors"); any other error code is UNKNOWN.
pub fn of_reset(code: u32) -> Code
    ensures { result ≡ looked_up reset_codes code }
{
    match code {
        NO_ERROR
        | PROTOCOL_ERROR
        | INTERNAL_ERROR
        | FLOW_CONTROL_ERROR
        | SETTINGS_TIMEOUT
        | FRAME_SIZE_ERROR
        | COMPRESSION_ERROR
        | CONNECT_ERROR => Code::Internal,
        REFUSED_STREAM => Code::Unavailable,
        CANCEL => Code::Cancelled,
        ENHANCE_YOUR_CALM => Code::ResourceExhausted,
        INADEQUATE_SECURITY => Code::PermissionDenied,
        _ => Code::Unknown,
    }
}

/// The code that a `grpc-status` says: its digits as a number from 0 to 16, leading zeros included.
/// Any other value is UNKNOWN.
pub fn of_text(value: &[u8]) -> Code
    ensures { result ≡ code_of_text value.now }
{
    match read_number(value) {
        Some(number) => Code::new(number).unwrap_or(Code::Unknown),
        None => Code::Unknown,
    }
}
