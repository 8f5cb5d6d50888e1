// How the attempts of one call ended, seen in the whole list of its rows.
ghost use Rattle.std.specs.Prelude.{◌≡◌, is_some};
ghost use Rattle.attempt_ledger.specs.Ends.{delay_of, is_above, is_counted, is_cut, is_followed, is_follower, is_stop, millis_after};

use crate::numbering::is_transparent;
use crate::{Row, RowCause, RowEnd};
use grpc_base::{Pushback, Throttle};

/// Whether a transparent retry follows a row among those after it.
pub fn is_followed(row: &Row, after: &[Row]) -> bool
    ensures { result ≡ is_followed row.now after.now }
{
    after.iter().any(|later| is_follower(row, later))
}

fn is_follower(row: &Row, later: &Row) -> bool
    ensures { result ≡ is_follower row.now later.now }
{
    is_transparent(later.kind) && later.number == row.number
}

/// Whether an end counts: the client didn't give the attempt up, and no transparent retry follows it.
pub fn is_counted(row: &Row, after: &[Row], end: &RowEnd) -> bool
    ensures { result ≡ is_counted row.now after.now end.now }
{
    !is_cut(end.cause) && !is_followed(row, after)
}

fn is_cut(cause: RowCause) -> bool
    ensures { result ≡ is_cut cause }
{
    matches!(cause, RowCause::Cut)
}

/// Whether a server forbids a further attempt.
pub fn is_stop(pushback: Pushback) -> bool
    ensures { result ≡ is_stop pushback }
{
    matches!(pushback, Pushback::Stop)
}

/// The delay that a server asks for, in milliseconds.
pub fn delay_of(pushback: Pushback) -> Option<u32>
    ensures { result ≡ delay_of pushback }
{
    match pushback {
        Pushback::After(millis) => Some(millis),
        Pushback::None | Pushback::Stop => None,
    }
}

/// The moment so many milliseconds after an end, in nanoseconds.
pub fn millis_after(end: &RowEnd, millis: u32) -> u64
    ensures { result ≡ millis_after end.now millis }
{
    end.moment.nanos() + u64::from(millis) * NANOS_A_MILLI
}

const NANOS_A_MILLI: u64 = 1_000_000;

/// Whether more than half of the tokens are left, where any are counted.
pub fn is_above(throttle: Option<Throttle>, tokens: Option<u32>) -> bool
    ensures { result ≡ is_above throttle tokens }
{
    match (throttle, tokens) {
        (Some(throttle), Some(tokens)) => u64::from(throttle.start) < 2 * u64::from(tokens),
        _ => true,
    }
}
