// What something does to a stream for it alone.
ghost use Rattle.std.specs.Prelude.{◌≡◌, ◌+ℤ◌, ◌≤ℤ◌, pos};
ghost use Rattle.h2_server.specs.Steps.{request_effect, response_effect, trailers_effect, window_effect};

use crate::live::{LARGEST_WINDOW, LiveStream, WindowSize};
use grpc_base::error_code::{FLOW_CONTROL_ERROR, PROTOCOL_ERROR};

/// What becomes of a stream.
#[derive(Clone, Copy, Debug)]
pub(crate) enum Effect {
    /// It goes on.
    Continues(LiveStream),
    /// Both sides have ended it, or one has reset it.
    Closes,
    /// A stream error: it is reset with this code.
    Faults(u32),
}

/// END_STREAM of the client, or none.
pub(crate) fn request_effect(stream: &LiveStream, end: bool) -> Effect
    ensures { result ≡ request_effect stream.now end }
{
    if !end {
        return Effect::Continues(*stream);
    }
    if stream.finished {
        return Effect::Closes;
    }
    Effect::Continues(LiveStream {
        number: stream.number,
        ended: true,
        finished: stream.finished,
        credit: stream.credit,
    })
}

/// END_STREAM of the server, or none.
pub(crate) fn response_effect(stream: &LiveStream, end: bool) -> Effect
    ensures { result ≡ response_effect stream.now end }
{
    if !end {
        return Effect::Continues(*stream);
    }
    if stream.ended {
        return Effect::Closes;
    }
    Effect::Continues(LiveStream {
        number: stream.number,
        ended: stream.ended,
        finished: true,
        credit: stream.credit,
    })
}

/// A second header block, without or with END_STREAM.
pub(crate) fn trailers_effect(stream: &LiveStream, end: bool) -> Effect
    ensures { result ≡ trailers_effect stream.now end }
{
    if !end {
        return Effect::Faults(PROTOCOL_ERROR);
    }
    request_effect(stream, end)
}

fn raised_credit(credit: i32, by: u32) -> i32
    requires { (credit +ℤ pos by) ≤ℤ pos 2147483647 }
    ensures { result ≡ credit +ℤ pos by }
{
    (i64::from(credit) + i64::from(by)) as i32
}

/// WINDOW_UPDATE under this initial window size.
pub(crate) fn window_effect(initial: &WindowSize, stream: &LiveStream, by: u32) -> Effect
    ensures { result ≡ window_effect initial.now stream.now by }
{
    if by == 0 {
        return Effect::Faults(PROTOCOL_ERROR);
    }
    let raised = i64::from(initial.get()) + i64::from(stream.credit) + i64::from(by);
    if raised > i64::from(LARGEST_WINDOW) {
        return Effect::Faults(FLOW_CONTROL_ERROR);
    }
    Effect::Continues(LiveStream {
        number: stream.number,
        ended: stream.ended,
        finished: stream.finished,
        credit: raised_credit(stream.credit, by),
    })
}
