// The attempts that are due.
ghost use Rattle.std.specs.Prelude.{◌≡◌, OnOk};
ghost use Rattle.hedge_core.specs.DueMoments as hedging;
ghost use Rattle.call_core.specs.Parts.{hedge_of, is_tested, kind_of_next, next_forced, next_of_plan};
ghost use Rattle.call_core.specs.Steps.{due_at, next_due, refused_due};
ghost use Rattle.call_core.specs.Turns.{goes, left, lent_at};

use crate::attempts::Attempts;
use crate::state::CallState;
use crate::tokens::is_above;
use crate::turn::Turn;
use a6_numbers::Tokens;
use attempt_ledger::{Ledger, RowKind};
use grpc_base::{CallPlan, HedgePolicy, NoMemory};
use hedge_core::{HedgeState, due_next};

/// The moment at which the next attempt is due, in nanoseconds.
fn next_of_plan(plan: &CallPlan, attempts: &Attempts) -> Option<u64>
    ensures { result ≡ next_of_plan plan.now attempts.now }
{
    match plan {
        CallPlan::None => next_forced(1, attempts),
        CallPlan::Retry(policy) => next_forced(policy.max, attempts),
        CallPlan::Hedge(policy) if attempts.sent == 0 => next_forced(policy.max, attempts),
        CallPlan::Hedge(policy) => next_hedge(policy, attempts),
    }
}

/// The moment that the configuration or an end asks for, where one attempt more is allowed of so many.
fn next_forced(most: u32, attempts: &Attempts) -> Option<u64>
    ensures { result ≡ next_forced most attempts.now }
{
    if attempts.stopped || most <= attempts.sent {
        return None;
    }
    attempts.forced
}

fn next_hedge(policy: &HedgePolicy, attempts: &Attempts) -> Option<u64>
    ensures { result ≡ hedging.next_due policy.now (hedge_of attempts.now) }
{
    let state = HedgeState {
        sent: attempts.sent,
        last_placed: attempts.placed.map(|placed| placed.nanos()),
        forced: attempts.forced,
        stopped: attempts.stopped,
        outstanding: 0,
    };
    due_next(policy, &state)
}

/// Whether the next attempt is a further one that the tokens have to allow: each hedge but the first attempt.
fn is_tested(plan: &CallPlan, attempts: &Attempts) -> bool
    ensures { result ≡ is_tested plan.now attempts.now }
{
    match plan {
        CallPlan::Hedge(_) => attempts.sent != 0,
        CallPlan::None | CallPlan::Retry(_) => false,
    }
}

fn kind_of_next(plan: &CallPlan, attempts: &Attempts) -> RowKind
    ensures { result ≡ kind_of_next plan.now attempts.now }
{
    match plan {
        _ if attempts.sent == 0 => RowKind::First,
        CallPlan::Hedge(_) => RowKind::Hedge,
        CallPlan::None | CallPlan::Retry(_) => RowKind::Retry,
    }
}

impl CallState {
    /// The moment at which the next attempt is due, in nanoseconds.
    pub fn next_due(&self) -> Option<u64>
        ensures { result ≡ next_due self.now }
    {
        next_of_plan(&self.plan(), &self.attempts)
    }

    /// Makes the attempt that is due, or finds that the tokens forbid it.
    pub fn make_at(
        &mut self,
        turn: &mut Turn,
        ledger: &mut Ledger,
        tokens: &Option<Tokens>,
        due: u64,
    ) -> Result<(), NoMemory>
        ensures { OnOk result (left self.new ledger.new turn.new ≡ goes (due_at turn.old.moment due (lent_at self.old ledger.old tokens.now turn.old)) turn.old) }
    {
        if is_tested(&self.plan(), &self.attempts) && !is_above(tokens) {
            return self.refuse(turn, ledger, tokens);
        }
        let number = self.attempts.sent.saturating_add(1);
        let kind = kind_of_next(&self.plan(), &self.attempts);
        let place = self.add(turn, ledger, number, kind, due, None)?;
        self.attempts = Attempts {
            sent: number,
            newest: Some(place),
            placed: None,
            forced: None,
            ..self.attempts
        };
        Ok(())
    }

    /// The tokens forbid the attempt that is due: none is due any more, and where no row is left the last end that counts is the
    /// call's.
    fn refuse(
        &mut self,
        turn: &mut Turn,
        ledger: &mut Ledger,
        tokens: &Option<Tokens>,
    ) -> Result<(), NoMemory>
        ensures { OnOk result (left self.new ledger.new turn.new ≡ goes (refused_due turn.old.moment (lent_at self.old ledger.old tokens.now turn.old)) turn.old) }
    {
        self.attempts.stopped = true;
        match self.attempts.last {
            Some(last) if self.is_idle() => self.close_by_row(turn, ledger, tokens, last),
            Some(_) | None => Ok(()),
        }
    }
}
