// The waits before retries and before dials.
ghost use Rattle.std.specs.Prelude.{◌≡◌, ◌≤◌, ◌+◌, ◌-◌, ◌*◌, ◌/◌, ◌^◌};
ghost use Rattle.grpc_base.specs.Backoff.{capped_wait, connect_wait, spread_wait};
ghost use Rattle.grpc_base.specs.Limits.{duration_limit};

use crate::draws::draw_up_to;
use crate::growth::grow;
use grpc_base::{Duration, RetryPolicy};

/// The base of the wait before the `n`-th retry in nanoseconds, `n` from 1: `initial`, times the multiplier
/// for each further retry, at most the policy's limit (gRFC A6, "Exponential Backoff").
pub fn cap(policy: &RetryPolicy, n: u32) -> u64
    requires { 1 ≤ n }
    ensures value { result ≡ capped_wait policy.now.initial policy.now.multiplier policy.now.limit n }
    ensures within { result ≤ duration_limit }
{
    let raw = grow(
        policy.initial.nanos(),
        policy.multiplier,
        Duration::LIMIT,
        n - 1,
    );
    raw.min(policy.limit.nanos())
}

/// The wait before a retry in nanoseconds: its base `cap` spread by a fifth to both sides by a random word, so that no retry
/// comes before four fifths of its base (gRFC A6, "Exponential Backoff").
pub fn retry_wait(cap: u64, word: u64) -> u64
    requires { cap ≤ duration_limit }
    ensures value { result ≡ spread_wait cap word }
    ensures least { cap - cap / 5 ≤ result }
    ensures most { result ≤ cap + cap / 5 }
{
    spread_wait(cap, word)
}

/// The wait of the `n`-th dial since the last success in nanoseconds, `n` from 1: 1 s, times 1.6 for each
/// further dial, at most 120 s, spread by a fifth to both sides. The first dial's is not spread
/// (gRPC, "Connection Backoff Protocol").
pub fn next_connect_wait(n: u32, word: u64) -> u64
    requires { 1 ≤ n }
    ensures value { result ≡ connect_wait n word }
    ensures within { result ≤ 144 * 10 ^ 9 }
{
    if n == 1 {
        return CONNECT_FIRST;
    }
    let base = grow(CONNECT_FIRST, CONNECT_FACTOR, CONNECT_LIMIT, n - 1);
    spread_wait(base, word)
}

/// A wait spread by a fifth to both sides by a random word.
fn spread_wait(wait: u64, word: u64) -> u64
    requires { wait ≤ duration_limit }
    ensures value { result ≡ spread_wait wait word }
    ensures least { wait - wait / 5 ≤ result }
    ensures most { result ≤ wait + wait / 5 }
{
    let fifth = wait / 5;
    wait - fifth + draw_up_to(word, 2 * fifth)
}

const CONNECT_FIRST: u64 = 1_000_000_000;

const CONNECT_FACTOR: u64 = 1600;

const CONNECT_LIMIT: u64 = 120_000_000_000;
