// The frame at the start of some bytes.
ghost use Rattle.std.specs.Prelude.{◌≡◌, ◌<◌, ◌≤◌, ◌^◌, ◌↔◌, ℕ, IsTrue, length, take};
ghost use Rattle.h2_frame.specs.Frames.{IsFrame, kind_allows_length, flags_allow_length, kind_allows_stream};
ghost use Rattle.h2_frame.specs.Readings.{IsProperPrefix, IsFault, fault_place, is_fault, reading_of, reading_of_payload};
ghost use Rattle.h2_frame.specs.Steps.{IfGot, seen, reported, reading_of_header};

use crate::part::read_part;
use crate::rules::{
    PAYLOAD_LIMIT, WITHOUT_RESERVED_BIT, flags_allow_length, is_overpadded, is_zero_update,
    kind_allows_length, kind_allows_stream,
};
use crate::{Frame, FrameStep, HEADER_SIZE};
use grpc_base::error_code::{FRAME_SIZE_ERROR, PROTOCOL_ERROR};

/// Reads the frame at the start of the bytes; no memory is taken, and the payload lies in the bytes.
///
/// `Got` has the frame and its size, and the bytes go on after it. `More` comes exactly where the bytes are a
/// proper prefix of a frame. `Bad` comes exactly where they begin with no frame and can't go on to be one, from the
/// first byte on that shows it. Its code is FRAME_SIZE_ERROR for a length that the payload may not have, and
/// PROTOCOL_ERROR for a stream, a padding or an increment that the frame may not have.
pub fn next_frame<'a>(bytes: &'a [u8]) -> FrameStep<'a>
    ensures got { IfGot result (λ frame len. (len ≤ length bytes.now) × IsFrame (take len bytes.now) (seen frame)) }
    ensures more { (result ≡ FrameStep.More) ↔ IsProperPrefix bytes.now }
    ensures bad { (code : ℕ) → (result ≡ FrameStep.Bad code) ↔ IsFault bytes.now code }
    // Less than a frame is at most a header and a payload of 16,384 bytes without its last byte.
    ensures short { result ≡ FrameStep.More → length bytes.now ≤ 16392 }
    // All three at once, as a function of the bytes.
    ensures exact { reported result ≡ reading_of bytes.now }
{
    read_prefix(bytes)
}

/// How many bytes show the fault of these: the fewest of their first bytes for which `next_frame` answers Bad, at most
/// 13; all of them where they have no fault.
pub fn fault_place(bytes: &[u8]) -> usize
    ensures value { result ≡ fault_place bytes.now }
    // The place of the fault by the grammar.
    ensures place { (code : ℕ) (fault : IsFault bytes.now code) → result ≡ fault.place }
{
    for place in 0..bytes.len() {
        if is_bad(&next_frame(&bytes[..place])) {
            return place;
        }
    }
    bytes.len()
}

fn is_bad(step: &FrameStep) -> bool
    ensures { result ≡ is_fault (reported step.now) }
{
    matches!(step, FrameStep::Bad { code: _ })
}

// The header at once where all of it is there, and else byte by byte.
fn read_prefix<'a>(bytes: &'a [u8]) -> FrameStep<'a>
    ensures { reported result ≡ reading_of bytes.now }
{
    match bytes {
        [a, b, c, kind, flags, p, q, r, s, payload @ ..] => {
            let length = u32::from_be_bytes([0, *a, *b, *c]);
            let stream = u32::from_be_bytes([*p, *q, *r, *s]) & WITHOUT_RESERVED_BIT;
            read_header(length, *kind, *flags, stream, payload)
        }
        _ => read_part(bytes),
    }
}

// What a whole header says, and then the payload.
fn read_header<'a>(length: u32, kind: u8, flags: u8, stream: u32, bytes: &'a [u8]) -> FrameStep<'a>
    requires in_range { stream < 2 ^ 31 }
    ensures { reported result ≡ reading_of_header length kind flags stream bytes.now }
{
    if length > PAYLOAD_LIMIT
        || !kind_allows_length(kind, length)
        || !flags_allow_length(kind, flags, length)
    {
        return FrameStep::Bad {
            code: FRAME_SIZE_ERROR,
        };
    }
    if !kind_allows_stream(kind, stream) {
        return FrameStep::Bad {
            code: PROTOCOL_ERROR,
        };
    }
    read_payload(length, kind, flags, stream, bytes)
}

// The payload, which is looked at as far as it has come.
fn read_payload<'a>(length: u32, kind: u8, flags: u8, stream: u32, bytes: &'a [u8]) -> FrameStep<'a>
    requires within { length ≤ 16384 }
    requires by_kind { IsTrue (kind_allows_length kind length) }
    requires by_flags { IsTrue (flags_allow_length kind flags length) }
    requires in_range { stream < 2 ^ 31 }
    requires by_stream { IsTrue (kind_allows_stream kind stream) }
    ensures { reported result ≡ reading_of_payload length kind flags stream bytes.now }
{
    if is_overpadded(kind, flags, length, bytes) || is_zero_update(kind, stream, bytes) {
        return FrameStep::Bad {
            code: PROTOCOL_ERROR,
        };
    }
    let size = length as usize;
    if bytes.len() < size {
        return FrameStep::More;
    }
    let payload = &bytes[..size];
    let frame = Frame {
        kind,
        flags,
        stream,
        payload,
    };
    FrameStep::Got {
        frame,
        len: HEADER_SIZE + size,
    }
}
