// What a link has to send before any request (RFC 9113, sections 3.4, 4.3.1 and 5.1.1; RFC 7541, section 4.2).
ghost use Rattle.std.specs.Prelude.{◌≡◌, ◌+◌, ◌++◌, IfOk, OnOk, filter, filter_map, fold, if◌then◌else◌, map};
ghost use Rattle.std.specs.List.{list_any};
ghost use Rattle.h2_frame.specs.Frames.{written};
ghost use Rattle.session_actions.specs.Links.{is_settings, read_in, settings_of, written_in};
ghost use Rattle.session_actions.specs.Reading.{is_setting};
ghost use Rattle.session_actions.specs.Writing.{bytes_of, controls_written, has_begun, is_control, is_preface_of, next_control, next_stream, owes_update, owes_update_from};

use crate::frames::frame_copy;
use crate::links::{first_read, first_written, is_settings};
use crate::settings::{is_setting, settings_of};
use crate::windows::opened_streams;
use bytes::BytesMut;
use grpc_base::{Items, NoMemory, Octets};
use h2_frame::settings::HEADER_TABLE_SIZE;
use h2_frame::{FrameHeader, kinds, write_header};
use session_actions::{Link, Sent, Traffic, WireFrame};
use std::alloc::Global;

/// The client's connection preface: "PRI * HTTP/2.0", "SM", and SETTINGS that allow no push and header lists of at most
/// 16,384 bytes (RFC 9113, section 3.4).
const PREFACE: [u8; 45] = [
    80, 82, 73, 32, 42, 32, 72, 84, 84, 80, 47, 50, 46, 48, 13, 10, 13, 10, 83, 77, 13, 10, 13, 10,
    0, 0, 12, 4, 0, 0, 0, 0, 0, 0, 2, 0, 0, 0, 0, 0, 6, 0, 0, 64, 0,
];

/// The bytes of what the client writes. A frame that no link has, with more than 16,384 bytes of payload or on a stream
/// from 2^31 on, is answered by out of memory.
pub fn bytes_of(alloc: Global, sent: &Sent) -> Result<Octets, NoMemory>
    ensures { IfOk result (λ o. o ≡ bytes_of sent.now) }
{
    match sent {
        Sent::Preface => Octets::of_slice(alloc, &PREFACE),
        Sent::Frame { frame } => written(alloc, frame),
    }
}

/// The bytes of a frame.
fn written(alloc: Global, frame: &WireFrame) -> Result<Octets, NoMemory>
    ensures { IfOk result (λ o. o ≡ written frame.now) }
{
    let payload = frame.payload.as_slice();
    if 16_384 < payload.len() {
        return Err(NoMemory);
    }
    if 2_147_483_648 <= frame.stream {
        return Err(NoMemory);
    }
    let header = FrameHeader {
        kind: frame.kind,
        flags: frame.flags,
        stream: frame.stream,
        length: payload.len() as u32,
    };
    let mut out = BytesMut::new(alloc);
    write_header(&mut out, header)?;
    out.extend_from_slice(payload)?;
    Octets::of_buffer(out)
}

/// Whether the preface was written.
pub fn has_begun(link: &Link) -> bool
    ensures { result ≡ has_begun link.now }
{
    link.traffic
        .as_slice()
        .iter()
        .any(|item| is_preface_of(item))
}

fn is_preface_of(traffic: &Traffic) -> bool
    ensures { result ≡ is_preface_of traffic.now }
{
    matches!(
        traffic,
        Traffic::Written {
            sent: Sent::Preface
        }
    )
}

/// Whether a frame is a control frame.
fn is_control(frame: &WireFrame) -> bool
    ensures { result ≡ is_control frame.now }
{
    frame.kind == kinds::SETTINGS
        || frame.kind == kinds::PING
        || frame.kind == kinds::WINDOW_UPDATE
        || frame.kind == kinds::RST_STREAM
}

/// How many control frames were written.
pub fn controls_written(link: &Link) -> Result<usize, NoMemory>
    ensures { IfOk result (λ n. n ≡ controls_written link.now) }
{
    controls_with(0, link.traffic.as_slice())
}

fn controls_with(before: usize, traffic: &[Traffic]) -> Result<usize, NoMemory>
    ensures { IfOk result (λ n. n ≡ fold (λ a f. a + (if is_control f then 1 else 0)) before (filter_map written_in traffic.now)) }
{
    let Some((frame, rest)) = first_written(traffic) else {
        return Ok(before);
    };
    if !is_control(frame) {
        return controls_with(before, rest);
    }
    match before.checked_add(1) {
        Some(count) => controls_with(count, rest),
        None => Err(NoMemory),
    }
}

/// The next control frame that is owed.
pub fn next_control(link: &Link) -> Result<Option<Sent>, NoMemory>
    ensures { IfOk result (λ s. s ≡ next_control link.now) }
{
    match link.owed.get(controls_written(link)?) {
        Some(frame) => Ok(Some(Sent::Frame {
            frame: frame_copy(frame)?,
        })),
        None => Ok(None),
    }
}

/// The number of the next stream (RFC 9113, section 5.1.1).
pub fn next_stream(alloc: Global, link: &Link) -> Result<u32, NoMemory>
    ensures { IfOk result (λ n. n ≡ next_stream link.now) }
{
    let count = opened_streams(alloc, link)?.len();
    if 1_073_741_823 < count {
        return Err(NoMemory);
    }
    Ok(2 * count as u32 + 1)
}

/// Whether the next header block begins with a dynamic table size update to 0 (RFC 7541, section 4.2).
pub fn owes_update(alloc: Global, link: &Link) -> Result<bool, NoMemory>
    ensures { IfOk result (λ b. b ≡ owes_update link.now) }
{
    let mut named = Items::new(alloc);
    add_named(alloc, &mut named, link.traffic.as_slice())?;
    Ok(owes_update_from(named.as_slice(), false, link.traffic.as_slice()))
}

/// Appends of each SETTINGS that was read whether it names SETTINGS_HEADER_TABLE_SIZE.
fn add_named(alloc: Global, named: &mut Items<bool>, traffic: &[Traffic]) -> Result<(), NoMemory>
    ensures { OnOk result (named.new ≡ named.old ++ map (λ r. list_any (is_setting 1) (settings_of r.frame)) (filter (λ r. is_settings r.frame) (filter_map read_in traffic.now))) }
{
    let Some((read, rest)) = first_read(traffic) else {
        return Ok(());
    };
    if !is_settings(&read.frame) {
        return add_named(alloc, named, rest);
    }
    named.push(names_table_size(alloc, &read.frame)?)?;
    add_named(alloc, named, rest)
}

/// Whether SETTINGS name SETTINGS_HEADER_TABLE_SIZE.
fn names_table_size(alloc: Global, frame: &WireFrame) -> Result<bool, NoMemory>
    ensures { IfOk result (λ b. b ≡ list_any (is_setting 1) (settings_of frame.now)) }
{
    let settings = settings_of(alloc, frame)?;
    Ok(
        settings
            .as_slice()
            .iter()
            .any(|setting| is_setting(HEADER_TABLE_SIZE, *setting)),
    )
}

/// The same by the acknowledgements and the header blocks that were written.
fn owes_update_from(named: &[bool], owes: bool, traffic: &[Traffic]) -> bool
    ensures { result ≡ owes_update_from named.now owes (filter_map written_in traffic.now) }
{
    let Some((frame, rest)) = first_written(traffic) else {
        return owes;
    };
    if frame.kind == kinds::HEADERS {
        return owes_update_from(named, false, rest);
    }
    if frame.kind != kinds::SETTINGS {
        return owes_update_from(named, owes, rest);
    }
    match named {
        [first, others @ ..] => owes_update_from(others, owes || *first, rest),
        [] => owes_update_from(named, owes, rest),
    }
}
