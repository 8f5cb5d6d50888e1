// The rules that a frame keeps with those before it on its link (RFC 9113, sections 3.4, 5.1, 6.5.2, 6.6, 6.9.1, 6.9.2 and 6.10).
ghost use Rattle.std.specs.Prelude.{◌≡◌, ◌==◌, IfOk, filter};
ghost use Rattle.std.specs.List.{list_any};
ghost use Rattle.session_actions.specs.Attempts.{is_outstanding};
ghost use Rattle.session_actions.specs.Reading.{is_bad_setting, is_misplaced, is_of_opened, is_outstanding_on, is_unopened, is_wide_setting, lifts_link, lifts_stream, link_error};
ghost use Rattle.session_actions.specs.Words.{holds};

use crate::blocks::open_block;
use crate::links::{has_settings, is_settings};
use crate::settings::{is_setting, settings_of};
use crate::windows::{increment, opened_streams, raised, sum, used};
use grpc_base::NoMemory;
use grpc_base::error_code::{FLOW_CONTROL_ERROR, PROTOCOL_ERROR};
use h2_frame::settings::{ENABLE_PUSH, INITIAL_WINDOW_SIZE, MAX_FRAME_SIZE};
use h2_frame::{Setting, kinds};
use session_actions::{Attempt, Link, OpenBlock, Seen, WireFrame};
use std::alloc::Global;

/// The largest flow-control window (section 6.9.1).
const LARGEST_WINDOW: u64 = 2_147_483_647;

/// The code of the first rule that a whole frame breaks.
pub fn link_error(
    alloc: Global,
    link: &Link,
    frame: &WireFrame,
    seen: &Seen,
) -> Result<Option<u32>, NoMemory>
    ensures { IfOk result (λ e. e ≡ link_error link.now frame.now seen.now) }
{
    if !has_settings(link) && !is_settings(frame) {
        return Ok(Some(PROTOCOL_ERROR));
    }
    if frame.kind == kinds::PUSH_PROMISE {
        return Ok(Some(PROTOCOL_ERROR));
    }
    let settings = settings_of(alloc, frame)?;
    if has_bad_setting(settings.as_slice()) {
        return Ok(Some(PROTOCOL_ERROR));
    }
    if is_misplaced(&open_block(alloc, link)?, frame) {
        return Ok(Some(PROTOCOL_ERROR));
    }
    if is_unopened(alloc, link, frame)? {
        return Ok(Some(PROTOCOL_ERROR));
    }
    if lifts_link(link, frame)? {
        return Ok(Some(FLOW_CONTROL_ERROR));
    }
    if has_wide_setting(link, seen, settings.as_slice())? {
        return Ok(Some(FLOW_CONTROL_ERROR));
    }
    Ok(None)
}

fn has_bad_setting(settings: &[Setting]) -> bool
    ensures { result ≡ list_any is_bad_setting settings.now }
{
    settings.iter().any(|setting| is_bad_setting(*setting))
}

/// Whether a setting has a value that it may not have (section 6.5.2).
fn is_bad_setting(setting: Setting) -> bool
    ensures { result ≡ is_bad_setting setting }
{
    (is_setting(ENABLE_PUSH, setting) && setting.value != 0)
        || (is_setting(MAX_FRAME_SIZE, setting)
            && !(16_384 <= setting.value && setting.value <= 16_777_215))
}

/// Whether a frame stands inside a header block, or CONTINUATION outside its own (section 6.10).
fn is_misplaced(begun: &Option<OpenBlock>, frame: &WireFrame) -> bool
    ensures { result ≡ is_misplaced begun.now frame.now }
{
    match begun {
        Some(block) => !(frame.kind == kinds::CONTINUATION && frame.stream == block.stream),
        None => frame.kind == kinds::CONTINUATION,
    }
}

/// Whether frames of this kind stand on a stream that the client opened (section 5.1).
fn is_of_opened(kind: u8) -> bool
    ensures { result ≡ is_of_opened kind }
{
    kind == kinds::DATA
        || kind == kinds::HEADERS
        || kind == kinds::RST_STREAM
        || kind == kinds::WINDOW_UPDATE
}

/// Whether a frame stands on a stream that the client did not open.
fn is_unopened(alloc: Global, link: &Link, frame: &WireFrame) -> Result<bool, NoMemory>
    ensures { IfOk result (λ b. b ≡ is_unopened link.now frame.now) }
{
    let opened = opened_streams(alloc, link)?;
    let is_opened = is_one_of(opened.as_slice(), frame.stream);
    Ok(is_of_opened(frame.kind) && frame.stream != 0 && !is_opened)
}

fn is_one_of(numbers: &[u32], number: u32) -> bool
    ensures { result ≡ list_any (λ m. m == number) numbers.now }
{
    numbers.iter().any(|other| *other == number)
}

/// Whether WINDOW_UPDATE takes the window of the link above the largest (section 6.9.1).
fn lifts_link(link: &Link, frame: &WireFrame) -> Result<bool, NoMemory>
    ensures { IfOk result (λ b. b ≡ lifts_link link.now frame.now) }
{
    let most = sum(LARGEST_WINDOW, used(0, link)?)?;
    let before = sum(65_535, raised(0, link)?)?;
    let after = sum(before, u64::from(increment(frame.payload.as_slice())))?;
    Ok(frame.kind == kinds::WINDOW_UPDATE && frame.stream == 0 && most < after)
}

/// Whether an attempt is outstanding: it was placed, and has not ended.
pub fn is_outstanding(attempt: &Attempt) -> bool
    ensures { result ≡ is_outstanding attempt.now }
{
    attempt.row.placed.is_some() && attempt.row.ended.is_none()
}

/// Whether an attempt is outstanding on a link.
pub fn is_outstanding_on(link: &Link, attempt: &Attempt) -> bool
    ensures { result ≡ is_outstanding_on link.now attempt.now }
{
    match attempt.row.placed {
        Some(placed) => is_outstanding(attempt) && placed.link == link.number,
        None => false,
    }
}

/// Whether this first size takes the window of a stream above the largest (section 6.9.2).
fn lifts_stream(link: &Link, size: u32, stream: u32) -> Result<bool, NoMemory>
    ensures { IfOk result (λ b. b ≡ lifts_stream link.now size stream) }
{
    let most = sum(LARGEST_WINDOW, used(stream, link)?)?;
    let after = sum(u64::from(size), raised(stream, link)?)?;
    Ok(most < after)
}

/// The same of the stream of an attempt, if it has one.
fn lifts_stream_of(link: &Link, size: u32, attempt: &Attempt) -> Result<bool, NoMemory>
    ensures { IfOk result (λ b. b ≡ holds (lifts_stream link.now size) attempt.now.row.stream) }
{
    match attempt.row.stream {
        Some(stream) => lifts_stream(link, size, stream),
        None => Ok(false),
    }
}

/// The same of some stream of the attempts that are outstanding on a link.
fn lifts_some(link: &Link, size: u32, attempts: &[Attempt]) -> Result<bool, NoMemory>
    ensures { IfOk result (λ b. b ≡ list_any (λ a. holds (lifts_stream link.now size) a.row.stream) (filter (is_outstanding_on link.now) attempts.now)) }
{
    let Some((first, others)) = attempts.split_first() else {
        return Ok(false);
    };
    if !is_outstanding_on(link, first) {
        return lifts_some(link, size, others);
    }
    if lifts_stream_of(link, size, first)? {
        return Ok(true);
    }
    lifts_some(link, size, others)
}

/// Whether a setting makes a window too large (section 6.9.2).
fn is_wide_setting(link: &Link, seen: &Seen, setting: Setting) -> Result<bool, NoMemory>
    ensures { IfOk result (λ b. b ≡ is_wide_setting link.now seen.now setting) }
{
    if !is_setting(INITIAL_WINDOW_SIZE, setting) {
        return Ok(false);
    }
    if LARGEST_WINDOW < u64::from(setting.value) {
        return Ok(true);
    }
    lifts_some(link, setting.value, seen.attempts.as_slice())
}

fn has_wide_setting(link: &Link, seen: &Seen, settings: &[Setting]) -> Result<bool, NoMemory>
    ensures { IfOk result (λ b. b ≡ list_any (is_wide_setting link.now seen.now) settings.now) }
{
    let Some((first, others)) = settings.split_first() else {
        return Ok(false);
    };
    if is_wide_setting(link, seen, *first)? {
        return Ok(true);
    }
    has_wide_setting(link, seen, others)
}
