// The rules that one frame keeps by itself, each as a test (RFC 9113, sections 4.2 and 6).
ghost use Rattle.std.specs.Prelude.{◌≡◌, ◌≤◌};
ghost use Rattle.h2_frame.specs.Frames.{has_flag, is_padded, has_priority, fields_size, kind_allows_length, flags_allow_length, is_of_connection, kind_allows_stream, is_overpadded, is_zero_update};

use crate::flags;
use crate::kinds::{
    CONTINUATION, DATA, GOAWAY, HEADERS, PING, PRIORITY, RST_STREAM, SETTINGS, WINDOW_UPDATE,
};
use grpc_base::limits::PAYLOAD_BYTES;

/// The most bytes that a payload may have.
pub const PAYLOAD_LIMIT: u32 = PAYLOAD_BYTES as u32;

/// The bits of a stream's number or an increment, which follow a reserved bit.
pub const WITHOUT_RESERVED_BIT: u32 = 0x7fff_ffff;

fn has_flag(flags: u8, flag: u8) -> bool
    ensures { result ≡ has_flag flags flag }
{
    flags & flag != 0
}

pub fn is_padded(kind: u8, flags: u8) -> bool
    ensures { result ≡ is_padded kind flags }
{
    matches!(kind, DATA | HEADERS) && has_flag(flags, flags::PADDED)
}

/// How many bytes the Pad Length and priority fields take.
pub fn fields_size(kind: u8, flags: u8) -> u32
    ensures value { result ≡ fields_size kind flags }
    ensures within { result ≤ 6 }
{
    let pad_length = if is_padded(kind, flags) { 1 } else { 0 };
    let priority = if kind == HEADERS && has_flag(flags, flags::PRIORITY) {
        5
    } else {
        0
    };
    pad_length + priority
}

pub fn kind_allows_length(kind: u8, length: u32) -> bool
    ensures { result ≡ kind_allows_length kind length }
{
    match kind {
        PRIORITY => length == 5,
        RST_STREAM | WINDOW_UPDATE => length == 4,
        SETTINGS => length % 6 == 0,
        PING => length == 8,
        GOAWAY => 8 <= length,
        _ => true,
    }
}

pub fn flags_allow_length(kind: u8, flags: u8, length: u32) -> bool
    ensures { result ≡ flags_allow_length kind flags length }
{
    if kind == SETTINGS {
        !has_flag(flags, flags::ACK) || length == 0
    } else {
        fields_size(kind, flags) <= length
    }
}

pub fn is_of_connection(kind: u8) -> bool
    ensures { result ≡ is_of_connection kind }
{
    matches!(kind, SETTINGS | PING | GOAWAY)
}

pub fn kind_allows_stream(kind: u8, stream: u32) -> bool
    ensures { result ≡ kind_allows_stream kind stream }
{
    match kind {
        SETTINGS | PING | GOAWAY => stream == 0,
        DATA | HEADERS | PRIORITY | RST_STREAM | CONTINUATION => stream != 0,
        _ => true,
    }
}

/// Whether the padding is longer than what is left over the fields; the payload may still lack its end.
pub fn is_overpadded(kind: u8, flags: u8, length: u32, payload: &[u8]) -> bool
    ensures { result ≡ is_overpadded kind flags length payload.now }
{
    match payload {
        [pad, ..] => is_padded(kind, flags)
            && u32::from(*pad) > length.saturating_sub(fields_size(kind, flags)),
        [] => false,
    }
}

/// Whether the connection's window is to grow by nothing; the payload may still lack its end.
pub fn is_zero_update(kind: u8, stream: u32, payload: &[u8]) -> bool
    ensures { result ≡ is_zero_update kind stream payload.now }
{
    match payload {
        [a, b, c, d, ..] => {
            kind == WINDOW_UPDATE
                && stream == 0
                && u32::from_be_bytes([*a, *b, *c, *d]) & WITHOUT_RESERVED_BIT == 0
        }
        _ => false,
    }
}
