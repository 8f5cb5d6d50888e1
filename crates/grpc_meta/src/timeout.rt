// The text of the time that a call has left.
ghost use Rattle.std.specs.Prelude.{◌≡◌, ◌<◌, ◌≤◌, ◌∷◌, [], length, Some};
ghost use Rattle.std.specs.Int.{div_ceil};
ghost use Rattle.grpc_base.specs.Limits.{duration_limit};
ghost use Rattle.grpc_meta.specs.Timeouts.{timeout_of, unit_for};

use arrayvec::ArrayString;
use itoa::Buffer;
use std::marker::Model;

/// The value of `grpc-timeout`: one to eight digits and a unit.
#[derive(Debug, Drop)]
pub struct TimeoutText {
    text: ArrayString<9>,
}

impl Model for TimeoutText {
    ghost use Rattle.std.specs.Prelude.{List, ℕ};

    ghost Value = { List ℕ };

    ghost view = { λ t. t.text.bytes };
}

impl TimeoutText {
    /// The text's bytes.
    pub fn as_slice(&self) -> &[u8]
        ensures { result.now ≡ self.now }
    {
        self.text.as_str().as_bytes()
    }
}

/// A unit of `grpc-timeout`: its nanoseconds and its letter.
#[derive(Clone, Copy)]
struct Unit {
    nanos: u64,
    letter: char,
}

/// The most that eight digits write.
const MOST: u64 = 99_999_999;

/// The text of a time left in nanoseconds, in the finest unit in which it has at most eight digits when it is
/// rounded up (gRPC over HTTP/2, "Timeout").
pub fn timeout_text(left: u64) -> TimeoutText
    requires positive { 1 ≤ left }
    requires within { left ≤ duration_limit }
    ensures text { result ≡ timeout_of left }
    ensures short { length result ≤ 9 }
{
    let unit = unit_for(left);
    let mut buffer = Buffer::new();
    let mut text = ArrayString::new();
    text.push_str(buffer.format(left.div_ceil(unit.nanos)));
    text.push(unit.letter);
    TimeoutText { text }
}

/// The finest unit in which a time has at most eight digits. No time within the longest duration needs hours.
fn unit_for(left: u64) -> Unit
    requires { left ≤ duration_limit }
    ensures unit { unit_for left ≡ Some (result.nanos, result.letter ∷ []) }
    ensures short { div_ceil left result.nanos ≤ 99999999 }
    ensures letter { result.letter < 128 }
{
    let (nanos, letter) = if left <= MOST {
        (1, 'n')
    } else if left <= MOST * 1_000 {
        (1_000, 'u')
    } else if left <= MOST * 1_000_000 {
        (1_000_000, 'm')
    } else if left <= MOST * 1_000_000_000 {
        (1_000_000_000, 'S')
    } else {
        (60_000_000_000, 'M')
    };
    Unit { nanos, letter }
}
