// Frames as they are written.
use bytes::BytesMut;
use grpc_base::NoMemory;
use h2_frame::{
    FrameHeader, FrameStep, Setting, next_frame, write_data, write_frame, write_header,
    write_headers, write_ping, write_ping_ack, write_rst_stream, write_settings,
    write_settings_ack, write_window_update,
};
use std::alloc::Global;
use table_rows::{Said, Wrong, bytes_of_hex, number, part};

/// One more than the greatest stream.
const STREAMS: u32 = 2_147_483_648;

/// The most bytes of a payload.
const PAYLOAD: usize = 16_384;

/// The number at a place of a row.
fn small(input: &str, place: usize) -> Result<u32, Wrong> {
    match u32::try_from(number(part(input, place))?) {
        Ok(small) => Ok(small),
        Err(_) => Err(Wrong::Form),
    }
}

/// The number of 16 bits at a place of a row.
fn word(input: &str, place: usize) -> Result<u16, Wrong> {
    match u16::try_from(number(part(input, place))?) {
        Ok(word) => Ok(word),
        Err(_) => Err(Wrong::Form),
    }
}

/// The byte at a place of a row.
fn byte(input: &str, place: usize) -> Result<u8, Wrong> {
    match u8::try_from(number(part(input, place))?) {
        Ok(byte) => Ok(byte),
        Err(_) => Err(Wrong::Form),
    }
}

/// Writes the frame that some bytes are.
fn frame(buffer: &mut BytesMut, bytes: &[u8]) -> Result<(), Wrong> {
    let FrameStep::Got { frame, len: _ } = next_frame(bytes) else {
        return Err(Wrong::Form);
    };
    write_frame(buffer, &frame)?;
    Ok(())
}

/// Writes the header of a frame of a type, some flags, a stream and a length.
fn header(buffer: &mut BytesMut, input: &str) -> Result<(), Wrong> {
    let stream = small(input, 3)?;
    let length = small(input, 4)?;
    if stream >= STREAMS || length > 16_384 {
        return Err(Wrong::Form);
    }
    let header = FrameHeader {
        kind: byte(input, 1)?,
        flags: byte(input, 2)?,
        stream,
        length,
    };
    write_header(buffer, header)?;
    Ok(())
}

/// Writes two settings, each a number and a value.
fn settings(buffer: &mut BytesMut, input: &str) -> Result<(), Wrong> {
    let first = Setting {
        identifier: word(input, 1)?,
        value: small(input, 2)?,
    };
    let second = Setting {
        identifier: word(input, 3)?,
        value: small(input, 4)?,
    };
    write_settings(buffer, &[first, second])?;
    Ok(())
}

/// Writes a frame of a stream: what `data`, `data-end` and `headers` have, or a code for `reset`.
fn of_stream(buffer: &mut BytesMut, input: &str, bytes: &[u8]) -> Result<(), Wrong> {
    let stream = small(input, 1)?;
    if stream == 0 || stream >= STREAMS || bytes.len() > PAYLOAD {
        return Err(Wrong::Form);
    }
    let written: Result<(), NoMemory> = match part(input, 0) {
        "data" => write_data(buffer, stream, bytes, false),
        "data-end" => write_data(buffer, stream, bytes, true),
        "headers" => write_headers(buffer, stream, bytes),
        _ => write_rst_stream(buffer, stream, small(input, 2)?),
    };
    written?;
    Ok(())
}

/// Writes a WINDOW_UPDATE of a stream by so much.
fn window(buffer: &mut BytesMut, input: &str) -> Result<(), Wrong> {
    let stream = small(input, 1)?;
    let by = small(input, 2)?;
    if stream >= STREAMS || by == 0 || by >= STREAMS {
        return Err(Wrong::Form);
    }
    write_window_update(buffer, stream, by)?;
    Ok(())
}

/// Writes a frame by the words of a row.
fn write_words(alloc: Global, buffer: &mut BytesMut, input: &str) -> Result<(), Wrong> {
    match part(input, 0) {
        "frame" => frame(buffer, bytes_of_hex(alloc, part(input, 1))?.as_slice()),
        "header" => header(buffer, input),
        "settings" => settings(buffer, input),
        "settings-ack" => Ok(write_settings_ack(buffer)?),
        "ping" => Ok(write_ping(buffer, number(part(input, 1))?)?),
        "ping-ack" => Ok(write_ping_ack(buffer, number(part(input, 1))?)?),
        "window" => window(buffer, input),
        "reset" => of_stream(buffer, input, b""),
        _ => of_stream(
            buffer,
            input,
            bytes_of_hex(alloc, part(input, 2))?.as_slice(),
        ),
    }
}

/// The bytes that a frame is written as, in hex.
pub fn write(alloc: Global, input: &str, out: &mut Said) -> Result<(), Wrong> {
    let mut buffer = BytesMut::new(alloc);
    write_words(alloc, &mut buffer, input)?;
    out.hex(alloc, buffer.as_slice());
    Ok(())
}
