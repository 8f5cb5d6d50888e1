// The error codes of HTTP/2 (RFC 9113, section 7).
ghost use Rattle.std.specs.Prelude.{◌≡◌};
ghost use Rattle.grpc_base.specs.ErrorCodes.{no_error, protocol_error, internal_error, flow_control_error, settings_timeout, stream_closed, frame_size_error, refused_stream, cancel, compression_error, connect_error, enhance_your_calm, inadequate_security, http_1_1_required};
ghost use Rattle.grpc_base.specs.declared.error_code.TheConstants.{NO_ERROR, PROTOCOL_ERROR, INTERNAL_ERROR, FLOW_CONTROL_ERROR, SETTINGS_TIMEOUT, STREAM_CLOSED, FRAME_SIZE_ERROR, REFUSED_STREAM, CANCEL, COMPRESSION_ERROR, CONNECT_ERROR, ENHANCE_YOUR_CALM, INADEQUATE_SECURITY, HTTP_1_1_REQUIRED};

/// No error, as in a graceful shutdown.
pub const NO_ERROR: u32 = 0;

/// The peer broke the protocol, and no other code is closer.
pub const PROTOCOL_ERROR: u32 = 1;

/// A fault inside the sender itself.
pub const INTERNAL_ERROR: u32 = 2;

/// The peer sent more than a window allows.
pub const FLOW_CONTROL_ERROR: u32 = 3;

/// A SETTINGS frame was not acknowledged in time.
pub const SETTINGS_TIMEOUT: u32 = 4;

/// A frame came for a stream that was closed.
pub const STREAM_CLOSED: u32 = 5;

/// A frame of a size that it may not have.
pub const FRAME_SIZE_ERROR: u32 = 6;

/// The stream was refused before any work on it.
pub const REFUSED_STREAM: u32 = 7;

/// The stream is no longer wanted.
pub const CANCEL: u32 = 8;

/// The header table can no longer be kept.
pub const COMPRESSION_ERROR: u32 = 9;

/// A CONNECT request's connection was lost.
pub const CONNECT_ERROR: u32 = 10;

/// The peer causes too much load.
pub const ENHANCE_YOUR_CALM: u32 = 11;

/// The transport is not secure enough.
pub const INADEQUATE_SECURITY: u32 = 12;

/// The request has to be sent over HTTP/1.1.
pub const HTTP_1_1_REQUIRED: u32 = 13;

/// A law for proofs: each constant is the number that the standard gives its code. The call does nothing.
pub fn error_codes_are_the_standards()
    ensures no_error { NO_ERROR ≡ no_error }
    ensures protocol_error { PROTOCOL_ERROR ≡ protocol_error }
    ensures internal_error { INTERNAL_ERROR ≡ internal_error }
    ensures flow_control_error { FLOW_CONTROL_ERROR ≡ flow_control_error }
    ensures settings_timeout { SETTINGS_TIMEOUT ≡ settings_timeout }
    ensures stream_closed { STREAM_CLOSED ≡ stream_closed }
    ensures frame_size_error { FRAME_SIZE_ERROR ≡ frame_size_error }
    ensures refused_stream { REFUSED_STREAM ≡ refused_stream }
    ensures cancel { CANCEL ≡ cancel }
    ensures compression_error { COMPRESSION_ERROR ≡ compression_error }
    ensures connect_error { CONNECT_ERROR ≡ connect_error }
    ensures enhance_your_calm { ENHANCE_YOUR_CALM ≡ enhance_your_calm }
    ensures inadequate_security { INADEQUATE_SECURITY ≡ inadequate_security }
    ensures http_1_1_required { HTTP_1_1_REQUIRED ≡ http_1_1_required }
{}
