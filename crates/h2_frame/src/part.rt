// Less than a frame's header, read one byte after the other, so that a fault is reported at the first byte that shows it.
ghost use Rattle.std.specs.Prelude.{◌≡◌, ◌<◌, ℕ, length};
ghost use Rattle.h2_frame.specs.Readings.{reading_of, reading_4, reading_6};
ghost use Rattle.h2_frame.specs.Steps.{reported};

use crate::FrameStep;
use crate::rules::{PAYLOAD_LIMIT, flags_allow_length, is_of_connection, kind_allows_length};
use grpc_base::error_code::{FRAME_SIZE_ERROR, PROTOCOL_ERROR};

/// What fewer than nine bytes are. It begins with the three bytes of the length.
pub fn read_part<'a>(bytes: &'a [u8]) -> FrameStep<'a>
    requires { length bytes.now < 9 }
    ensures { reported result ≡ reading_of bytes.now }
{
    let [a, rest @ ..] = bytes else {
        return FrameStep::More;
    };
    let highest = u32::from(*a) * 65536;
    if highest > PAYLOAD_LIMIT {
        return FrameStep::Bad {
            code: FRAME_SIZE_ERROR,
        };
    }
    let [b, rest @ ..] = rest else {
        return FrameStep::More;
    };
    let higher = highest + u32::from(*b) * 256;
    if higher > PAYLOAD_LIMIT {
        return FrameStep::Bad {
            code: FRAME_SIZE_ERROR,
        };
    }
    let [c, rest @ ..] = rest else {
        return FrameStep::More;
    };
    let length = higher + u32::from(*c);
    if length > PAYLOAD_LIMIT {
        return FrameStep::Bad {
            code: FRAME_SIZE_ERROR,
        };
    }
    read_type(length, rest)
}

// The frame type and the flags.
fn read_type<'a>(len: u32, bytes: &'a [u8]) -> FrameStep<'a>
    requires { length bytes.now < 6 }
    ensures { reported result ≡ reading_4 len bytes.now }
{
    let [kind, rest @ ..] = bytes else {
        return FrameStep::More;
    };
    if !kind_allows_length(*kind, len) {
        return FrameStep::Bad {
            code: FRAME_SIZE_ERROR,
        };
    }
    let [flags, rest @ ..] = rest else {
        return FrameStep::More;
    };
    if !flags_allow_length(*kind, *flags, len) {
        return FrameStep::Bad {
            code: FRAME_SIZE_ERROR,
        };
    }
    read_stream(*kind, rest)
}

// The first three bytes of the stream's number, whose reserved bit is ignored.
fn read_stream<'a>(kind: u8, bytes: &'a [u8]) -> FrameStep<'a>
    requires { length bytes.now < 4 }
    ensures { (len flags : ℕ) → reported result ≡ reading_6 len kind flags bytes.now }
{
    let of_connection = is_of_connection(kind);
    let [p, rest @ ..] = bytes else {
        return FrameStep::More;
    };
    let high = u32::from(*p % 128) * 16777216;
    if of_connection && high > 0 {
        return FrameStep::Bad {
            code: PROTOCOL_ERROR,
        };
    }
    let [q, rest @ ..] = rest else {
        return FrameStep::More;
    };
    let high = high + u32::from(*q) * 65536;
    if of_connection && high > 0 {
        return FrameStep::Bad {
            code: PROTOCOL_ERROR,
        };
    }
    let [r, ..] = rest else {
        return FrameStep::More;
    };
    let high = high + u32::from(*r) * 256;
    if of_connection && high > 0 {
        return FrameStep::Bad {
            code: PROTOCOL_ERROR,
        };
    }
    FrameStep::More
}
