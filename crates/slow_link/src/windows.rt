// Streams that were opened, and flow-control windows (RFC 9113, sections 5.1.1, 5.2 and 6.9).
ghost use Rattle.std.specs.Prelude.{◌≡◌, ◌≤◌, ◌+◌, ◌++◌, ◌==◌, IfOk, OnOk, filter, filter_map, fold, if◌then◌else◌, length, map, slice_index_or};
ghost use Rattle.h2_frame.specs.Numbers.{headers_type};
ghost use Rattle.h2_frame.specs.Payloads.{increment, last_stream, number_at, ping_word, reset_code};
ghost use Rattle.session_actions.specs.Links.{read_in, written_in};
ghost use Rattle.session_actions.specs.Reading.{first_window, is_data_on, opened_streams, raise_by, raised, room, used};

use crate::links::{first_read, first_written};
use crate::settings::initial_window;
use grpc_base::{Items, NoMemory};
use h2_frame::kinds;
use session_actions::{Link, Traffic, WireFrame};
use std::alloc::Global;

/// The streams that the client opened (section 5.1.1).
pub fn opened_streams(alloc: Global, link: &Link) -> Result<Items<u32>, NoMemory>
    ensures { IfOk result (λ s. s ≡ opened_streams link.now) }
{
    let mut streams = Items::new(alloc);
    add_opened(&mut streams, link.traffic.as_slice())?;
    Ok(streams)
}

/// Appends the streams of the HEADERS that were written.
fn add_opened(streams: &mut Items<u32>, traffic: &[Traffic]) -> Result<(), NoMemory>
    ensures { OnOk result (streams.new ≡ streams.old ++ map (λ f. f.stream) (filter (λ f. f.kind == headers_type) (filter_map written_in traffic.now))) }
{
    let Some((frame, rest)) = first_written(traffic) else {
        return Ok(());
    };
    if frame.kind != kinds::HEADERS {
        return add_opened(streams, rest);
    }
    streams.push(frame.stream)?;
    add_opened(streams, rest)
}

/// What WINDOW_UPDATE frames that were read added to the window of a stream, or of the link, stream 0 (section 6.9).
pub(crate) fn raised(stream: u32, link: &Link) -> Result<u64, NoMemory>
    ensures { IfOk result (λ n. n ≡ raised stream link.now) }
{
    raised_with(0, stream, link.traffic.as_slice())
}

fn raised_with(before: u64, stream: u32, traffic: &[Traffic]) -> Result<u64, NoMemory>
    ensures { IfOk result (λ n. n ≡ fold (λ a r. a + raise_by stream r.frame) before (filter_map read_in traffic.now)) }
{
    match first_read(traffic) {
        Some((read, rest)) => {
            let more = raise_by(stream, &read.frame);
            raised_with(sum(before, u64::from(more))?, stream, rest)
        }
        None => Ok(before),
    }
}

/// By how much a frame raises the window of a stream.
fn raise_by(stream: u32, frame: &WireFrame) -> u32
    ensures { result ≡ raise_by stream frame.now }
{
    if frame.kind == kinds::WINDOW_UPDATE && frame.stream == stream {
        increment(frame.payload.as_slice())
    } else {
        0
    }
}

/// How many bytes of DATA were written on a stream, or on the whole link, stream 0.
pub fn used(stream: u32, link: &Link) -> Result<u64, NoMemory>
    ensures { IfOk result (λ n. n ≡ used stream link.now) }
{
    used_with(0, stream, link.traffic.as_slice())
}

fn used_with(before: u64, stream: u32, traffic: &[Traffic]) -> Result<u64, NoMemory>
    ensures { IfOk result (λ n. n ≡ fold (λ a f. a + (if is_data_on stream f then length f.payload else 0)) before (filter_map written_in traffic.now)) }
{
    match first_written(traffic) {
        Some((frame, rest)) => {
            let more = use_of(stream, frame);
            used_with(sum(before, more)?, stream, rest)
        }
        None => Ok(before),
    }
}

/// How many bytes of a window a frame uses.
fn use_of(stream: u32, frame: &WireFrame) -> u64
    ensures { result ≡ (if is_data_on stream frame.now then length frame.now.payload else 0) }
{
    if is_data_on(stream, frame) {
        frame.payload.len() as u64
    } else {
        0
    }
}

/// Whether a frame is DATA on a stream; each is on the whole link, stream 0.
fn is_data_on(stream: u32, frame: &WireFrame) -> bool
    ensures { result ≡ is_data_on stream frame.now }
{
    frame.kind == kinds::DATA && (stream == 0 || frame.stream == stream)
}

/// The flow-control window that is left on a stream, or on the whole link, stream 0 (section 6.9).
pub fn room(alloc: Global, stream: u32, link: &Link) -> Result<u64, NoMemory>
    ensures { IfOk result (λ n. n ≡ room stream link.now) }
{
    let first = first_window(alloc, stream, link)?;
    let whole = sum(u64::from(first), raised(stream, link)?)?;
    Ok(whole.saturating_sub(used(stream, link)?))
}

fn first_window(alloc: Global, stream: u32, link: &Link) -> Result<u32, NoMemory>
    ensures { IfOk result (λ n. n ≡ first_window stream link.now) }
{
    if stream == 0 {
        Ok(65_535)
    } else {
        initial_window(alloc, link)
    }
}

/// The sum, or out of memory where it passes its type.
pub(crate) fn sum(first: u64, second: u64) -> Result<u64, NoMemory>
    ensures { IfOk result (λ n. n ≡ first + second) }
{
    match first.checked_add(second) {
        Some(sum) => Ok(sum),
        None => Err(NoMemory),
    }
}

/// The increment of WINDOW_UPDATE (section 6.9).
pub fn increment(payload: &[u8]) -> u32
    ensures { result ≡ increment payload.now }
{
    number_at(0, payload) % 2_147_483_648
}

/// The last stream of GOAWAY (section 6.8).
pub fn last_stream(payload: &[u8]) -> u32
    ensures { result ≡ last_stream payload.now }
{
    number_at(0, payload) % 2_147_483_648
}

/// The error code of RST_STREAM (section 6.4).
pub fn reset_code(payload: &[u8]) -> u32
    ensures { result ≡ reset_code payload.now }
{
    number_at(0, payload)
}

/// The word of PING (section 6.7).
pub fn ping_word(payload: &[u8]) -> u64
    ensures { result ≡ ping_word payload.now }
{
    u64::from(number_at(0, payload)) * 4_294_967_296 + u64::from(number_at(4, payload))
}

/// A number of four bytes at a place of a payload; a byte that is missing counts as 0.
fn number_at(place: usize, payload: &[u8]) -> u32
    requires { place ≤ 4 }
    ensures { result ≡ number_at place payload.now }
{
    byte_at(payload, place) * 16_777_216
        + byte_at(payload, place + 1) * 65_536
        + byte_at(payload, place + 2) * 256
        + byte_at(payload, place + 3)
}

/// The byte at a place, or 0.
fn byte_at(payload: &[u8], place: usize) -> u32
    ensures value { result ≡ slice_index_or payload.now place 0 }
    ensures within { result ≤ 255 }
{
    u32::from(payload.get(place).copied().unwrap_or(0))
}
