// The timeout that a request asks for.
ghost use Rattle.std.specs.Prelude.{◌≡◌, ◌≤◌, ◌^◌, ◌<◌, codes, IfSome, Some, min, ◌*◌};
ghost use Rattle.grpc_base.specs.Limits.{duration_limit};
ghost use Rattle.grpc_meta.specs.ResponseFields.{values_of};
ghost use Rattle.relay_request.specs.Timeouts.{asked_by, nanos_of, time_of, timeout_of_text};

use crate::head::first_value;
use grpc_base::{Field, read_number};

/// The longest duration in nanoseconds.
const LONGEST: u64 = 1_000_000_000_000_000_000;

/// The nanoseconds in a unit of `grpc-timeout`.
fn nanos_of(unit: &[u8]) -> Option<u64>
    ensures { result ≡ nanos_of unit.now }
{
    if unit == b"n".as_slice() {
        Some(1)
    } else if unit == b"u".as_slice() {
        Some(1_000)
    } else if unit == b"m".as_slice() {
        Some(1_000_000)
    } else if unit == b"S".as_slice() {
        Some(1_000_000_000)
    } else if unit == b"M".as_slice() {
        Some(60_000_000_000)
    } else if unit == b"H".as_slice() {
        Some(3_600_000_000_000)
    } else {
        None
    }
}

/// So many units, at most the longest duration.
fn bounded(number: u64, nanos: u64) -> u64
    ensures time { result ≡ min (number * nanos) duration_limit }
    ensures within { result ≤ duration_limit }
{
    number.saturating_mul(nanos).min(LONGEST)
}

/// So many units as these digits write, where they are one to eight.
fn time_in(digits: &[u8], nanos: u64) -> Option<u64>
    ensures time { result ≡ time_of digits.now (Some nanos) }
    ensures within { IfSome result (λ t. t ≤ duration_limit) }
{
    if digits.len() > 8 {
        return None;
    }
    match read_number(digits) {
        Some(number) => Some(bounded(number, nanos)),
        None => None,
    }
}

/// The time that a value of `grpc-timeout` says, in nanoseconds: one to eight digits and a unit (gRPC over HTTP/2,
/// "Timeout"); one above 1,000,000,000,000,000,000 ns counts as that. None exactly where the value is no timeout.
pub fn read_timeout(value: &[u8]) -> Option<u64>
    ensures time { result ≡ timeout_of_text value.now }
    ensures within { IfSome result (λ t. t ≤ duration_limit) }
{
    let last = value.len().checked_sub(1)?;
    let nanos = nanos_of(&value[last..])?;
    time_in(&value[..last], nanos)
}

/// The timeout of a request, by the first `grpc-timeout` of its header list; the outer None where that is no timeout.
pub(crate) fn timeout_asked(fields: &[Field]) -> Option<Option<u64>>
    ensures asked { result ≡ asked_by (values_of (codes "grpc-timeout") fields.now) }
    ensures within { IfSome result (λ o. IfSome o (λ t. t ≤ duration_limit)) }
{
    match first_value(fields, b"grpc-timeout") {
        None => Some(None),
        Some((value, _)) => match read_timeout(value.as_slice()) {
            None => None,
            Some(time) => Some(Some(time)),
        },
    }
}
