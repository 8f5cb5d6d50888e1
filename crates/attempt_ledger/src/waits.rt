// The wait before a retry.
ghost use Rattle.std.specs.Prelude.{◌≡◌, ◌≤◌, ◌*◌, ◌/◌, ◌^◌, min};
ghost use Rattle.grpc_base.specs.Backoff.{capped_wait, draw, grown, spread_wait};
ghost use Rattle.grpc_base.specs.Limits.{duration_limit};

use grpc_base::{Duration, RetryPolicy};

/// The wait before a retry in nanoseconds, which is the `n`-th since the server last asked for a delay
/// (gRFC A6, "Exponential Backoff").
pub fn retry_wait(policy: &RetryPolicy, n: u32, word: u64) -> u64
    ensures value { result ≡ spread_wait (capped_wait policy.now.initial policy.now.multiplier policy.now.limit n) word }
    ensures within { result ≤ 2 * duration_limit }
{
    let raw = grow(
        policy.initial.nanos(),
        policy.multiplier,
        n.saturating_sub(1),
    );
    let wait = raw.min(policy.limit.nanos());
    let fifth = wait / 5;
    wait - fifth + draw_up_to(word, 2 * fifth)
}

/// `start` after it grew so many times by a factor in thousandths, rounded down, never past the longest duration.
fn grow(start: u64, factor: u64, times: u32) -> u64
    requires { start ≤ duration_limit }
    ensures value { result ≡ grown start factor (10 ^ 18) times }
    ensures within { result ≤ duration_limit }
{
    let mut value = start;
    for times_so_far in 0..times {
        value = grow_once(value, factor);
    }
    value
}

fn grow_once(value: u64, factor: u64) -> u64
    requires { value ≤ duration_limit }
    ensures value { result ≡ min (value * factor / 1000) (10 ^ 18) }
    ensures within { result ≤ duration_limit }
{
    let product = u128::from(value) * u128::from(factor) / 1000;
    product.min(u128::from(Duration::LIMIT)) as u64
}

/// A random word of 64 bits spread evenly over 0 to `n`, both included.
fn draw_up_to(word: u64, n: u64) -> u64
    ensures value { result ≡ draw word n }
    ensures within { result ≤ n }
{
    let spread = u128::from(word) * (u128::from(n) + 1);
    (spread / (1 << 64)) as u64
}
