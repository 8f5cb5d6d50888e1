// The bytes of a frame, and of its header alone.
ghost use Rattle.std.specs.Prelude.{◌≡◌, ◌<◌, ◌^◌, ◌++◌, ◌+◌, ◌≤◌, length, OnOk, OnErr, IsOk};
ghost use Rattle.h2_frame.specs.Frames.{header_bytes, written};
ghost use Rattle.h2_frame.specs.Steps.{seen};

use crate::Frame;
use bytes::BytesMut;
use grpc_base::NoMemory;

/// How many bytes stand before a payload.
pub const HEADER_SIZE: usize = 9;

/// What stands before a payload (RFC 9113, section 4.1).
#[derive(Clone, Copy, Debug, PartialEq, Eq)]
pub struct FrameHeader {
    /// The frame type, one of `kinds`.
    pub kind: u8,
    /// See `flags`.
    pub flags: u8,
    /// The stream's number, 0 for the connection.
    pub stream: u32,
    /// How many bytes the payload has.
    pub length: u32,
    ghost in_range: { stream < 2 ^ 31 },
    ghost fits: { length ≤ 16384 },
}

/// Appends the bytes of the frame, the reserved bit unset. The buffer grows once, and not at all where it
/// has room. On out of memory its bytes are as before.
pub fn write_frame(out: &mut BytesMut, frame: &Frame) -> Result<(), NoMemory>
    ensures ok { OnOk result (out.new.items ≡ out.old.items ++ written (seen frame.now)) }
    ensures err { OnErr result (out.new.items ≡ out.old.items) }
    ensures room { 9 + length frame.now.payload.now ≤ out.old.spare → IsOk result }
{
    let header = FrameHeader {
        kind: frame.kind,
        flags: frame.flags,
        stream: frame.stream,
        length: frame.payload.len() as u32,
    };
    out.reserve(HEADER_SIZE + frame.payload.len())?;
    write_header(out, header)?;
    out.extend_from_slice(frame.payload)?;
    Ok(())
}

/// Appends the header alone, the reserved bit unset; the payload is for the caller to append. On out of memory the
/// bytes are as before.
pub fn write_header(out: &mut BytesMut, header: FrameHeader) -> Result<(), NoMemory>
    ensures ok { OnOk result (out.new.items ≡ out.old.items ++ header_bytes header.length header.kind header.flags header.stream) }
    ensures err { OnErr result (out.new.items ≡ out.old.items) }
    ensures room { 9 ≤ out.old.spare → IsOk result }
    ensures spare { out.old.spare ≤ out.new.spare + 9 }
{
    out.extend_from_slice(&bytes_of(header))?;
    Ok(())
}

fn bytes_of(header: FrameHeader) -> [u8; 9]
    ensures { result ≡ header_bytes header.length header.kind header.flags header.stream }
{
    let [_, a, b, c] = header.length.to_be_bytes();
    let [p, q, r, s] = header.stream.to_be_bytes();
    [a, b, c, header.kind, header.flags, p, q, r, s]
}
