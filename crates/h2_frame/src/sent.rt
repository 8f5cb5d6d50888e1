// The frames that a client sends. On out of memory the buffer's bytes are as before.
ghost use Rattle.std.specs.Prelude.{◌≡◌, ◌<◌, ◌≤◌, ◌+◌, ◌++◌, ◌^◌, IsOk, OnErr, OnOk, length};
ghost use Rattle.h2_frame.specs.Frames.{written};
ghost use Rattle.h2_frame.specs.Sent.{data_frame, headers_frame, ping_ack, ping_frame, rst_stream_frame, settings_ack, settings_frame, window_update_frame};
ghost use Rattle.h2_frame.specs.Payloads.{setting_bytes};

use crate::{Frame, FrameHeader, HEADER_SIZE, Setting, flags, kinds, write_frame, write_header};
use bytes::BytesMut;
use grpc_base::NoMemory;

const SETTING_SIZE: usize = 6;

/// Appends DATA with these bytes of messages, unpadded (RFC 9113, section 6.1).
pub fn write_data(
    out: &mut BytesMut,
    stream: u32,
    content: &[u8],
    ends: bool,
) -> Result<(), NoMemory>
    requires stream { (0 < stream) × (stream < 2 ^ 31) }
    requires size { length content.now ≤ 16384 }
    ensures ok { OnOk result (out.new.items ≡ out.old.items ++ written (data_frame stream content.now ends)) }
    ensures err { OnErr result (out.new.items ≡ out.old.items) }
    ensures room { 9 + length content.now ≤ out.old.spare → IsOk result }
{
    let data = Frame {
        kind: kinds::DATA,
        flags: if ends { flags::END_STREAM } else { 0 },
        stream,
        payload: content,
    };
    write_frame(out, &data)
}

/// Appends HEADERS with a whole header block, which ends no stream (section 6.2).
pub fn write_headers(out: &mut BytesMut, stream: u32, block: &[u8]) -> Result<(), NoMemory>
    requires stream { (0 < stream) × (stream < 2 ^ 31) }
    requires size { length block.now ≤ 16384 }
    ensures ok { OnOk result (out.new.items ≡ out.old.items ++ written (headers_frame stream block.now)) }
    ensures err { OnErr result (out.new.items ≡ out.old.items) }
    ensures room { 9 + length block.now ≤ out.old.spare → IsOk result }
{
    let headers = Frame {
        kind: kinds::HEADERS,
        flags: flags::END_HEADERS,
        stream,
        payload: block,
    };
    write_frame(out, &headers)
}

/// Appends RST_STREAM with this error code (section 6.4).
pub fn write_rst_stream(out: &mut BytesMut, stream: u32, code: u32) -> Result<(), NoMemory>
    requires stream { (0 < stream) × (stream < 2 ^ 31) }
    ensures ok { OnOk result (out.new.items ≡ out.old.items ++ written (rst_stream_frame stream code)) }
    ensures err { OnErr result (out.new.items ≡ out.old.items) }
    ensures room { 13 ≤ out.old.spare → IsOk result }
{
    let reset = Frame {
        kind: kinds::RST_STREAM,
        flags: 0,
        stream,
        payload: &code.to_be_bytes(),
    };
    write_frame(out, &reset)
}

/// Appends the client's SETTINGS (section 6.5).
pub fn write_settings(out: &mut BytesMut, settings: &[Setting]) -> Result<(), NoMemory>
    requires size { length settings.now ≤ 2730 }
    ensures ok { OnOk result (out.new.items ≡ out.old.items ++ written (settings_frame settings.now)) }
    ensures err { OnErr result (out.new.items ≡ out.old.items) }
{
    let header = FrameHeader {
        kind: kinds::SETTINGS,
        flags: 0,
        stream: 0,
        length: (settings.len() * SETTING_SIZE) as u32,
    };
    out.reserve(HEADER_SIZE + settings.len() * SETTING_SIZE)?;
    write_header(out, header)?;
    for setting in settings {
        out.extend_from_slice(&bytes_of(*setting))?;
    }
    Ok(())
}

/// Appends the acknowledgement of the peer's SETTINGS (section 6.5.3).
pub fn write_settings_ack(out: &mut BytesMut) -> Result<(), NoMemory>
    ensures ok { OnOk result (out.new.items ≡ out.old.items ++ written settings_ack) }
    ensures err { OnErr result (out.new.items ≡ out.old.items) }
    ensures room { 9 ≤ out.old.spare → IsOk result }
{
    let ack = Frame {
        kind: kinds::SETTINGS,
        flags: flags::ACK,
        stream: 0,
        payload: &[],
    };
    write_frame(out, &ack)
}

/// Appends PING with this word (section 6.7).
pub fn write_ping(out: &mut BytesMut, word: u64) -> Result<(), NoMemory>
    ensures ok { OnOk result (out.new.items ≡ out.old.items ++ written (ping_frame word)) }
    ensures err { OnErr result (out.new.items ≡ out.old.items) }
    ensures room { 17 ≤ out.old.spare → IsOk result }
{
    let ping = Frame {
        kind: kinds::PING,
        flags: 0,
        stream: 0,
        payload: &word.to_be_bytes(),
    };
    write_frame(out, &ping)
}

/// Appends the answer to the peer's PING with this word (section 6.7).
pub fn write_ping_ack(out: &mut BytesMut, word: u64) -> Result<(), NoMemory>
    ensures ok { OnOk result (out.new.items ≡ out.old.items ++ written (ping_ack word)) }
    ensures err { OnErr result (out.new.items ≡ out.old.items) }
    ensures room { 17 ≤ out.old.spare → IsOk result }
{
    let ack = Frame {
        kind: kinds::PING,
        flags: flags::ACK,
        stream: 0,
        payload: &word.to_be_bytes(),
    };
    write_frame(out, &ack)
}

/// Appends WINDOW_UPDATE for a stream, or for the connection, stream 0 (section 6.9).
pub fn write_window_update(out: &mut BytesMut, stream: u32, by: u32) -> Result<(), NoMemory>
    requires stream { stream < 2 ^ 31 }
    requires by { (0 < by) × (by < 2 ^ 31) }
    ensures ok { OnOk result (out.new.items ≡ out.old.items ++ written (window_update_frame stream by)) }
    ensures err { OnErr result (out.new.items ≡ out.old.items) }
    ensures room { 13 ≤ out.old.spare → IsOk result }
{
    let update = Frame {
        kind: kinds::WINDOW_UPDATE,
        flags: 0,
        stream,
        payload: &by.to_be_bytes(),
    };
    write_frame(out, &update)
}

fn bytes_of(setting: Setting) -> [u8; 6]
    ensures { result ≡ setting_bytes setting }
{
    let [a, b] = setting.identifier.to_be_bytes();
    let [c, d, e, f] = setting.value.to_be_bytes();
    [a, b, c, d, e, f]
}
