// The errors of a link that one frame does not show by itself.
ghost use Rattle.std.specs.Prelude.{◌≡◌, false};
ghost use Rattle.std.specs.List.{list_any};
ghost use Rattle.h2_frame.specs.Payloads.{settings_in};
ghost use Rattle.h2_frame.specs.Steps.{seen};
ghost use Rattle.h2_server.specs.LinkErrors.{link_error, settings_of, is_first, is_bad_setting, is_misplaced, is_even, is_of_opened, is_unopened, overflows_link, overflows_streams};

use crate::block::OpenBlock;
use crate::live::{LARGEST_WINDOW, LiveStream};
use crate::state::State;
use grpc_base::error_code::{FLOW_CONTROL_ERROR, PROTOCOL_ERROR};
use h2_frame::settings::{ENABLE_PUSH, INITIAL_WINDOW_SIZE, MAX_FRAME_SIZE};
use h2_frame::{Frame, Setting, flags, kinds, next_setting};

/// The error of a frame, before any header block is decoded.
pub(crate) fn link_error(state: &State, frame: Frame) -> Option<u32>
    ensures { result ≡ link_error state.now (seen frame.entry) }
{
    if !state.ready && !is_first(frame) {
        return Some(PROTOCOL_ERROR);
    }
    if frame.kind == kinds::PUSH_PROMISE || has_bad_setting(frame) {
        return Some(PROTOCOL_ERROR);
    }
    if is_misplaced(&state.block, frame) || is_unopened(state.last, frame) {
        return Some(PROTOCOL_ERROR);
    }
    if overflows_link(state.window, frame) || has_overflow(state.live.as_slice(), frame) {
        return Some(FLOW_CONTROL_ERROR);
    }
    None
}

/// SETTINGS without ACK.
fn is_first(frame: Frame) -> bool
    ensures { result ≡ is_first (seen frame.entry) }
{
    frame.kind == kinds::SETTINGS && frame.flags & flags::ACK == 0
}

fn settings_of<'a>(frame: Frame<'a>) -> &'a [u8]
    ensures { settings_in result.now ≡ settings_of (seen frame.entry) }
{
    if frame.kind == kinds::SETTINGS {
        frame.payload
    } else {
        &[]
    }
}

fn is_bad_setting(setting: Setting) -> bool
    ensures { result ≡ is_bad_setting setting }
{
    match setting.identifier {
        ENABLE_PUSH => setting.value > 1,
        MAX_FRAME_SIZE => setting.value < 16_384 || 16_777_215 < setting.value,
        _ => false,
    }
}

fn has_bad_setting(frame: Frame) -> bool
    ensures { result ≡ list_any is_bad_setting (settings_of (seen frame.entry)) }
{
    let mut rest = settings_of(frame);
    while let Some((setting, afterwards)) = next_setting(rest) {
        if is_bad_setting(setting) {
            return true;
        }
        rest = afterwards;
    }
    false
}

/// CONTINUATION outside a header block, or any other frame in one.
fn is_misplaced(block: &Option<OpenBlock>, frame: Frame) -> bool
    ensures { result ≡ is_misplaced block.now (seen frame.entry) }
{
    match block {
        None => frame.kind == kinds::CONTINUATION,
        Some(block) => { frame.kind != kinds::CONTINUATION || frame.stream != block.number.get() }
    }
}

fn is_even(stream: u32) -> bool
    ensures { result ≡ is_even stream }
{
    stream % 2 == 0
}

fn is_of_opened(kind: u8) -> bool
    ensures { result ≡ is_of_opened kind }
{
    matches!(kind, kinds::DATA | kinds::RST_STREAM | kinds::WINDOW_UPDATE)
}

/// A frame of a stream that the client has not opened, or HEADERS of one that it cannot open.
fn is_unopened(last: u32, frame: Frame) -> bool
    ensures { result ≡ is_unopened last (seen frame.entry) }
{
    if frame.kind == kinds::HEADERS {
        return is_even(frame.stream);
    }
    is_of_opened(frame.kind) && frame.stream != 0 && (is_even(frame.stream) || last < frame.stream)
}

/// WINDOW_UPDATE that lifts the link's send window above the largest.
fn overflows_link(window: u32, frame: Frame) -> bool
    ensures { result ≡ overflows_link window (seen frame.entry) }
{
    if frame.kind != kinds::WINDOW_UPDATE || frame.stream != 0 {
        return false;
    }
    u64::from(window) + u64::from(frame.increment()) > u64::from(LARGEST_WINDOW)
}

/// An initial window size above the largest window, or one that lifts the window of a stream above it.
fn overflows_streams(live: &[LiveStream], setting: Setting) -> bool
    ensures { result ≡ overflows_streams live.now setting }
{
    if setting.identifier != INITIAL_WINDOW_SIZE {
        return false;
    }
    if setting.value > LARGEST_WINDOW {
        return true;
    }
    for stream in live {
        if i64::from(setting.value) + i64::from(stream.credit) > i64::from(LARGEST_WINDOW) {
            return true;
        }
    }
    false
}

fn has_overflow(live: &[LiveStream], frame: Frame) -> bool
    ensures { result ≡ list_any (overflows_streams live.now) (settings_of (seen frame.entry)) }
{
    let mut rest = settings_of(frame);
    while let Some((setting, afterwards)) = next_setting(rest) {
        if overflows_streams(live, setting) {
            return true;
        }
        rest = afterwards;
    }
    false
}
