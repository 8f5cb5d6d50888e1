// Throttling: the tokens of a bucket.
ghost use Rattle.std.specs.Option.{option_copied};
ghost use Rattle.std.specs.Prelude.{fold, ◌≡◌};
ghost use Rattle.session_actions.specs.Tokens.{allows_attempt, has_tokens, plan_of_attempt, run_of, tokens_after, tokens_by, tokens_in, tokens_of, tokens_with};
ghost use Rattle.session_actions.specs.Words.{numbered};

use crate::attempts::call_of;
use crate::configs::{config_of_call, plan_of};
use crate::ledger_words::{codes_of, is_above, is_stop, is_success};
use crate::words::numbered;
use attempt_ledger::RowEnd;
use grpc_base::{CallPlan, Code, Pushback, Throttle};
use session_actions::{Attempt, Call, Seen, ThrottleRun};

/// The tokens after one counted end.
pub fn tokens_after(
    throttle: &Throttle,
    plan: &CallPlan,
    code: Code,
    asks: Pushback,
    count: u32,
) -> u32
    ensures { result ≡ tokens_after throttle.now plan.now code asks count }
{
    if is_success(code) {
        let more = u64::from(count) + u64::from(throttle.ratio);
        return more.min(u64::from(throttle.start)) as u32;
    }
    if codes_of(plan).has(code) || is_stop(asks) {
        return count.saturating_sub(1000);
    }
    count
}

/// The run of throttle settings whose bucket is that of a call.
pub fn run_of<'a>(call: &Call, seen: &'a Seen) -> Option<&'a ThrottleRun>
    ensures { option_copied result ≡ run_of call.now seen.now }
{
    numbered(&seen.runs, config_of_call(call, seen)?.run?)
}

/// The plan of the call of an attempt.
fn plan_of_attempt(attempt: &Attempt, seen: &Seen) -> CallPlan
    ensures { result ≡ plan_of_attempt attempt.now seen.now }
{
    match call_of(attempt, seen) {
        Some(call) => plan_of(call, seen),
        None => CallPlan::None,
    }
}

/// The tokens of a bucket after an end of an attempt.
fn tokens_with(run: &ThrottleRun, seen: &Seen, count: u32, attempt: &Attempt, end: &RowEnd) -> u32
    ensures { result ≡ tokens_with run.now seen.now count attempt.now end.now }
{
    let plan = plan_of_attempt(attempt, seen);
    tokens_after(&run.throttle, &plan, end.code, end.pushback, count)
}

/// The tokens of a bucket after the end of the row at a place.
fn tokens_by(run: &ThrottleRun, seen: &Seen, count: u32, place: u64) -> u32
    ensures { result ≡ tokens_by run.now seen.now count (numbered seen.now.attempts place) }
{
    let Some(attempt) = numbered(&seen.attempts, place) else {
        return count;
    };
    match &attempt.row.ended {
        Some(end) => tokens_with(run, seen, count, attempt, end),
        None => count,
    }
}

/// The tokens of a bucket after the ends of these rows.
fn tokens_from(run: &ThrottleRun, seen: &Seen, count: u32, places: &[u64]) -> u32
    ensures { result ≡ fold (λ n place. tokens_by run.now seen.now n (numbered seen.now.attempts place)) count places.now }
{
    match places.split_first() {
        None => count,
        Some((place, rest)) => tokens_from(run, seen, tokens_by(run, seen, count, *place), rest),
    }
}

/// The tokens of a bucket.
pub fn tokens_in(run: &ThrottleRun, seen: &Seen) -> u32
    ensures { result ≡ tokens_in run.now seen.now }
{
    tokens_from(run, seen, run.throttle.start, run.ends.as_slice())
}

/// The tokens of the bucket of a call, where it has one.
pub fn tokens_of(call: &Call, seen: &Seen) -> Option<u32>
    ensures { result ≡ tokens_of call.now seen.now }
{
    Some(tokens_in(run_of(call, seen)?, seen))
}

/// Whether so many tokens are above half of the start, or none are counted.
pub fn allows_attempt(call: &Call, tokens: Option<u32>, seen: &Seen) -> bool
    ensures { result ≡ allows_attempt call.now tokens seen.now }
{
    let throttle = match run_of(call, seen) {
        Some(run) => Some(run.throttle),
        None => None,
    };
    is_above(throttle, tokens)
}

/// Whether the tokens of a call's bucket allow a further attempt.
pub fn has_tokens(call: &Call, seen: &Seen) -> bool
    ensures { result ≡ has_tokens call.now seen.now }
{
    allows_attempt(call, tokens_of(call, seen), seen)
}
