// What the end of an attempt means for its call.
ghost use Rattle.std.specs.Prelude.{◌≡◌};
ghost use Rattle.call_core.specs.Parts.{delayed_after, due_of, has_none, is_final, is_followed, is_refusal, is_unsent, judged, judged_hedge, judged_retry, word_of};
ghost use Rattle.call_core.specs.Steps.{call_plan};

use crate::attempts::Attempts;
use crate::state::CallState;
use attempt_ledger::{Next, RowCause, RowEnd};
use grpc_base::{CallPlan, HedgePolicy, Pushback, RetryPolicy};
use hedge_core::HedgeState;

/// What follows an end that counts, in a call that wasn't committed to a row before.
#[derive(Clone, Copy, Debug, PartialEq, Eq)]
pub struct Judged {
    pub attempts: Attempts,
    /// The random word of the wait, where one was drawn.
    pub word: Option<u64>,
    /// Whether the call is committed to the row and ends.
    pub closes: bool,
}

impl CallState {
    /// What the end of a row with this number means, where it counts and the call isn't committed.
    pub fn judge(&self, number: u32, end: &RowEnd, above: bool, word: u64) -> Judged
        ensures { result ≡ judged (call_plan self.now) self.now.attempts number (has_none self.now.live) end.now above word }
    {
        let attempts = self.attempts;
        match self.plan() {
            CallPlan::None => Judged {
                attempts,
                word: None,
                closes: true,
            },
            CallPlan::Retry(policy) => judged_retry(&policy, attempts, number, end, above, word),
            CallPlan::Hedge(policy) => judged_hedge(&policy, attempts, self.is_idle(), end, above),
        }
    }
}

/// Whether a transparent retry follows the end of a row.
pub fn is_followed(attempts: &Attempts, cause: RowCause, unseen: bool) -> bool
    ensures { result ≡ is_followed attempts.now cause unseen }
{
    is_unsent(cause)
        || (is_refusal(cause)
            && unseen
            && !attempts.committed.is_some()
            && !attempts.is_refusal_followed)
}

/// Whether the request never left the client.
pub fn is_unsent(cause: RowCause) -> bool
    ensures { result ≡ is_unsent cause }
{
    matches!(cause, RowCause::Unsent)
}

/// Whether the server refused the request, so that one transparent retry of the call is spent.
pub fn is_refusal(cause: RowCause) -> bool
    ensures { result ≡ is_refusal cause }
{
    matches!(cause, RowCause::Goaway | RowCause::Reset)
}

fn judged_retry(
    policy: &RetryPolicy,
    attempts: Attempts,
    number: u32,
    end: &RowEnd,
    above: bool,
    word: u64,
) -> Judged
    ensures { result ≡ judged_retry policy.now attempts number end.now above word }
{
    let number = number.max(1);
    let since = number.saturating_sub(attempts.delayed).max(1);
    let next = retry_core::after_end(policy, number, since, end, above, word);
    Judged {
        attempts: Attempts {
            forced: due_of(next),
            delayed: delayed_after(end.pushback, number, attempts.delayed),
            ..attempts
        },
        word: word_of(next, end.pushback, word),
        closes: is_final(next),
    }
}

fn is_final(next: Next) -> bool
    ensures { result ≡ is_final next }
{
    matches!(next, Next::Final)
}

fn due_of(next: Next) -> Option<u64>
    ensures { result ≡ due_of next }
{
    match next {
        Next::Again { due } => Some(due),
        Next::Final => None,
    }
}

fn delayed_after(pushback: Pushback, number: u32, delayed: u32) -> u32
    ensures { result ≡ delayed_after pushback number delayed }
{
    match pushback {
        Pushback::After(_) => number,
        Pushback::None | Pushback::Stop => delayed,
    }
}

/// The word of a wait, unless the server asks for a delay.
fn word_of(next: Next, pushback: Pushback, word: u64) -> Option<u64>
    ensures { result ≡ word_of next pushback word }
{
    match (next, pushback) {
        (Next::Final, _) | (Next::Again { .. }, Pushback::After(_)) => None,
        (Next::Again { .. }, Pushback::None | Pushback::Stop) => Some(word),
    }
}

fn judged_hedge(
    policy: &HedgePolicy,
    attempts: Attempts,
    is_alone: bool,
    end: &RowEnd,
    above: bool,
) -> Judged
    ensures { result ≡ judged_hedge policy.now attempts is_alone end.now above }
{
    let mut state = HedgeState {
        sent: attempts.sent.max(1),
        last_placed: None,
        forced: attempts.forced,
        stopped: attempts.stopped,
        outstanding: 1,
    };
    let next = hedge_core::after_end(policy, &mut state, end, above);
    Judged {
        attempts: Attempts {
            forced: state.forced,
            stopped: state.stopped,
            ..attempts
        },
        word: None,
        closes: !policy.codes.has(end.code) || (is_alone && is_final(next)),
    }
}
