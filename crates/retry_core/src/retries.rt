// The next retry of a call.
ghost use Rattle.std.specs.Prelude.{◌≡◌, ◌≤◌, ◌+◌, ◌-◌, ◌/◌, ℕ, IfNone};
ghost use Rattle.grpc_base.specs.Backoff.{capped_wait};
ghost use Rattle.attempt_ledger.specs.Ends.{delay_of};
ghost use Rattle.attempt_ledger.specs.declared.next.Next.TheVariants as next;
ghost use Rattle.retry_core.specs.Retries.{after_retryable_end, is_licensed, retry_due};

use a6_numbers::{cap, retry_wait};
use attempt_ledger::{Next, RowEnd};
use grpc_base::{Pushback, RetryPolicy};

/// What follows an attempt's end that counts, in a call that wasn't committed to it before: a further attempt and the moment at
/// which it is due in nanoseconds, or Final, and then this end is the call's (gRFC A6, "Retry Policy").
///
/// `number` is the attempt's, from 1. `since` is how many attempts ended since the server last asked for a delay, this one
/// included; it is not read where this end asks for one. `above` says whether more than half of the tokens are left after this
/// end, and `word` is the random word of the wait, if one is drawn. It takes no memory.
pub fn after_end(
    policy: &RetryPolicy,
    number: u32,
    since: u32,
    ended: &RowEnd,
    above: bool,
    word: u64,
) -> Next
    requires number { 1 ≤ number }
    requires since { IfNone (delay_of ended.now.pushback) (1 ≤ since) }
    ensures next { result ≡ after_retryable_end policy.now number since ended.now above word }
    ensures least { (due : ℕ) → result ≡ next.Again due → IfNone (delay_of ended.now.pushback) (let c = capped_wait policy.now.initial policy.now.multiplier policy.now.limit since in ended.now.moment + (c - c / 5) ≤ due) }
{
    if is_licensed(policy, number, ended, above) {
        Next::Again {
            due: retry_due(policy, since, ended, word),
        }
    } else {
        Next::Final
    }
}

fn is_licensed(policy: &RetryPolicy, number: u32, ended: &RowEnd, above: bool) -> bool
    ensures { result ≡ is_licensed policy.now number ended.now above }
{
    policy.codes.has(ended.code)
        && !matches!(ended.pushback, Pushback::Stop)
        && above
        && number < policy.max
}

fn retry_due(policy: &RetryPolicy, since: u32, ended: &RowEnd, word: u64) -> u64
    requires { IfNone (delay_of ended.now.pushback) (1 ≤ since) }
    ensures value { result ≡ retry_due policy.now since ended.now word }
    ensures least { IfNone (delay_of ended.now.pushback) (let c = capped_wait policy.now.initial policy.now.multiplier policy.now.limit since in ended.now.moment + (c - c / 5) ≤ result) }
{
    let wait = match ended.pushback {
        Pushback::After(millis) => u64::from(millis) * NANOS_OF_MILLI,
        Pushback::None | Pushback::Stop => retry_wait(cap(policy, since), word),
    };
    ended.moment.nanos() + wait
}

const NANOS_OF_MILLI: u64 = 1_000_000;
