// The frames that a client sends (RFC 9113, section 6).
ghost use Rattle.std.specs.Prelude.{◌≡◌, IfOk};
ghost use Rattle.h2_frame.specs.Frames.{bytes_32};
ghost use Rattle.h2_frame.specs.Payloads.{bytes_64};
ghost use Rattle.h2_frame.specs.Sent.{data_frame, headers_frame, ping_ack, ping_frame, rst_stream_frame, settings_ack, window_update_frame};

use grpc_base::{NoMemory, Octets};
use h2_frame::{flags, kinds};
use session_actions::WireFrame;
use std::alloc::Global;

/// The same frame; its bytes are shared.
pub fn frame_copy(frame: &WireFrame) -> Result<WireFrame, NoMemory>
    ensures { IfOk result (λ f. f ≡ frame.now) }
{
    Ok(WireFrame {
        kind: frame.kind,
        flags: frame.flags,
        stream: frame.stream,
        payload: frame.payload.share()?,
    })
}

/// Bytes of messages, with END_STREAM or without (section 6.1).
pub fn data_frame(stream: u32, content: Octets, ends: bool) -> WireFrame
    ensures { result ≡ data_frame stream content ends }
{
    WireFrame {
        kind: kinds::DATA,
        flags: if ends { flags::END_STREAM } else { 0 },
        stream,
        payload: content,
    }
}

/// A whole header block that ends no stream (section 6.2).
pub fn headers_frame(stream: u32, block: Octets) -> WireFrame
    ensures { result ≡ headers_frame stream block }
{
    WireFrame {
        kind: kinds::HEADERS,
        flags: flags::END_HEADERS,
        stream,
        payload: block,
    }
}

/// The end of a stream by an error (section 6.4).
pub fn rst_stream_frame(alloc: Global, stream: u32, code: u32) -> Result<WireFrame, NoMemory>
    ensures { IfOk result (λ f. f ≡ rst_stream_frame stream code) }
{
    Ok(WireFrame {
        kind: kinds::RST_STREAM,
        flags: 0,
        stream,
        payload: number_32(alloc, code)?,
    })
}

/// The acknowledgement of the peer's settings (section 6.5).
pub fn settings_ack() -> WireFrame
    ensures { result ≡ settings_ack }
{
    WireFrame {
        kind: kinds::SETTINGS,
        flags: flags::ACK,
        stream: 0,
        payload: Octets::new(),
    }
}

/// A question whether the peer is there (section 6.7).
pub fn ping_frame(alloc: Global, word: u64) -> Result<WireFrame, NoMemory>
    ensures { IfOk result (λ f. f ≡ ping_frame word) }
{
    Ok(WireFrame {
        kind: kinds::PING,
        flags: 0,
        stream: 0,
        payload: number_64(alloc, word)?,
    })
}

/// The answer to the peer's (section 6.7).
pub fn ping_ack(alloc: Global, word: u64) -> Result<WireFrame, NoMemory>
    ensures { IfOk result (λ f. f ≡ ping_ack word) }
{
    Ok(WireFrame {
        kind: kinds::PING,
        flags: flags::ACK,
        stream: 0,
        payload: number_64(alloc, word)?,
    })
}

/// Leave to send so many bytes more, on a stream or on the whole link, stream 0 (section 6.9).
pub fn window_update_frame(alloc: Global, stream: u32, by: u32) -> Result<WireFrame, NoMemory>
    ensures { IfOk result (λ f. f ≡ window_update_frame stream by) }
{
    Ok(WireFrame {
        kind: kinds::WINDOW_UPDATE,
        flags: 0,
        stream,
        payload: number_32(alloc, by)?,
    })
}

/// A number in four bytes, the highest first.
fn number_32(alloc: Global, number: u32) -> Result<Octets, NoMemory>
    ensures { IfOk result (λ o. o ≡ bytes_32 number) }
{
    Octets::of_slice(
        alloc,
        &[
            (number / 16_777_216) as u8,
            (number / 65_536 % 256) as u8,
            (number / 256 % 256) as u8,
            (number % 256) as u8,
        ],
    )
}

/// A number in eight bytes, the highest first.
fn number_64(alloc: Global, number: u64) -> Result<Octets, NoMemory>
    ensures { IfOk result (λ o. o ≡ bytes_64 number) }
{
    let high = (number / 4_294_967_296) as u32;
    let low = (number % 4_294_967_296) as u32;
    Octets::of_slice(
        alloc,
        &[
            (high / 16_777_216) as u8,
            (high / 65_536 % 256) as u8,
            (high / 256 % 256) as u8,
            (high % 256) as u8,
            (low / 16_777_216) as u8,
            (low / 65_536 % 256) as u8,
            (low / 256 % 256) as u8,
            (low % 256) as u8,
        ],
    )
}
