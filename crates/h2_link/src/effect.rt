// What something that the peer sent does to a stream for it alone.
ghost use Rattle.std.specs.Prelude.{◌≡◌, ◌+ℤ◌, ◌≤ℤ◌, pos};
ghost use Rattle.h2_link.specs.StreamErrors.{headers_error, data_error, window_error};
ghost use Rattle.h2_link.specs.Steps.{headers_effect, data_effect, window_effect, reset_owed};

use crate::live::{LARGEST_WINDOW, LiveStream, WindowSize};
use crate::status::is_interim;
use grpc_base::error_code::{CANCEL, FLOW_CONTROL_ERROR, PROTOCOL_ERROR};

/// What becomes of a stream.
#[derive(Clone, Copy, Debug)]
pub(crate) enum Effect {
    /// It goes on.
    Continues(LiveStream),
    /// Its attempt ends, and it is reset with this code, if with any.
    Ends(Option<u32>),
    /// A stream error: its attempt ends, and it is reset with this code.
    Faults(u32),
}

fn headers_error(stream: &LiveStream, status: Option<u32>, end: bool) -> Option<u32>
    ensures { result ≡ headers_error stream.now status end }
{
    if !stream.head && is_interim(status) {
        return if end { Some(PROTOCOL_ERROR) } else { None };
    }
    if !end && (stream.head || status.is_none()) {
        return Some(PROTOCOL_ERROR);
    }
    None
}

fn reset_owed(stream: &LiveStream) -> Option<u32>
    ensures { result ≡ reset_owed stream.now }
{
    if stream.finished { None } else { Some(CANCEL) }
}

/// A header block of this status, without or with END_STREAM.
pub(crate) fn headers_effect(stream: &LiveStream, status: Option<u32>, end: bool) -> Effect
    ensures { result ≡ headers_effect stream.now status end }
{
    if let Some(code) = headers_error(stream, status, end) {
        return Effect::Faults(code);
    }
    if end {
        return Effect::Ends(reset_owed(stream));
    }
    Effect::Continues(LiveStream {
        number: stream.number,
        tag: stream.tag,
        head: stream.head || !is_interim(status),
        finished: stream.finished,
        credit: stream.credit,
    })
}

/// DATA without or with END_STREAM.
pub(crate) fn data_effect(stream: &LiveStream, end: bool) -> Effect
    ensures { result ≡ data_effect stream.now end }
{
    if !stream.head {
        return Effect::Faults(PROTOCOL_ERROR);
    }
    if end {
        return Effect::Ends(reset_owed(stream));
    }
    Effect::Continues(*stream)
}

fn raised_credit(credit: i32, by: u32) -> i32
    requires { (credit +ℤ pos by) ≤ℤ pos 2147483647 }
    ensures { result ≡ credit +ℤ pos by }
{
    (i64::from(credit) + i64::from(by)) as i32
}

/// WINDOW_UPDATE under this initial window size.
pub(crate) fn window_effect(initial: &WindowSize, stream: &LiveStream, by: u32) -> Effect
    ensures { result ≡ window_effect initial.now stream.now by }
{
    if by == 0 {
        return Effect::Faults(PROTOCOL_ERROR);
    }
    let raised = i64::from(initial.get()) + i64::from(stream.credit) + i64::from(by);
    if raised > i64::from(LARGEST_WINDOW) {
        return Effect::Faults(FLOW_CONTROL_ERROR);
    }
    Effect::Continues(LiveStream {
        number: stream.number,
        tag: stream.tag,
        head: stream.head,
        finished: stream.finished,
        credit: raised_credit(stream.credit, by),
    })
}
