// How much of its DATA a stream may send at once.
ghost use Rattle.std.specs.Prelude.{◌≡◌, ◌≤◌, ℕ, min, pos, ◌+ℤ◌, ◌-ℤ◌, IfSome};
ghost use Rattle.h2_server.specs.LinkErrors.{send_window};
ghost use Rattle.h2_server.specs.Outcomes.{ShareFits};
ghost use Rattle.h2_server.specs.Sends.{least_of, share_as};
ghost use Rattle.h2_stream.specs.Stream.{or_zero};

use crate::live::{LiveStream, WindowSize};
use crate::state::State;
use grpc_base::limits::PAYLOAD_BYTES;

/// The DATA of one frame: how many bytes, and whether END_STREAM.
#[derive(Clone, Copy, Debug, PartialEq, Eq)]
pub struct Share {
    pub len: u32,
    pub ends: bool,
}

/// The send window of a stream, or 0 for one below 0.
fn own_window(initial: &WindowSize, stream: &LiveStream) -> u64
    ensures { result ≡ or_zero (send_window initial.now stream.now) }
{
    (i64::from(initial.get()) + i64::from(stream.credit)).max(0) as u64
}

fn least_of(window: u32, own: u64, left: u64) -> u64
    ensures least { result ≡ min (min 16384 window) (min own left) }
    ensures size { result ≤ 16384 }
{
    let frame = (PAYLOAD_BYTES as u64).min(u64::from(window));
    frame.min(own.min(left))
}

fn share_as(len: u32, left: u64, finished: bool) -> Option<Share>
    ensures share { result ≡ share_as len left finished }
    ensures len { IfSome result (λ x. x.len ≡ len) }
{
    let ends = finished && u64::from(len) == left;
    if 0 < len || ends {
        Some(Share { len, ends })
    } else {
        None
    }
}

/// The credit of a stream after so many bytes of DATA more.
#[tactic(auto, using(crate::proofs::Windows::lowered))]
pub(crate) fn lowered_credit(initial: &WindowSize, credit: i32, len: u32) -> i32
    requires { len ≤ or_zero (pos initial.now +ℤ credit) }
    ensures { result ≡ credit -ℤ pos len }
{
    let _initial = initial.get();
    (i64::from(credit) - i64::from(len)) as i32
}

impl State {
    /// What a stream, which was found, may send of so many bytes that are left.
    pub(crate) fn share_found(
        &self,
        stream: &LiveStream,
        left: u64,
        finished: bool,
    ) -> Option<Share>
        ensures share { result ≡ share_as (least_of self.now.window self.now.initial stream.now left) left finished }
        ensures fits { IfSome result (λ x. ShareFits self.now stream.now left x) }
    {
        let initial = self.initial;
        let own = own_window(&initial, stream);
        let len = least_of(self.window, own, left) as u32;
        share_as(len, left, finished)
    }
}
