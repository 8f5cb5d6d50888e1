// The answer of a pick request is acted on.
ghost use Rattle.std.specs.Prelude.{◌≡◌, IfOk};
ghost use Rattle.session_actions.specs.Policies.{follow_ask, follow_pick, is_unfollowed, next_of_pick, placed_on};

use attempt_ledger::{Ask, Placed};
use grpc_base::{NoMemory, Pick};
use session_actions::{Action, Attempt, Seen, Subchannel};
use slow_attempts::{entry, last_of, now, numbered};
use slow_ends::{end_of, pick_end};
use std::alloc::Global;

fn is_unfollowed(attempt: &Attempt) -> bool
    ensures { result ≡ is_unfollowed attempt.now }
{
    attempt.row.placed.is_none() && attempt.row.ended.is_none()
}

fn placed_on(ask: Ask, seen: &Seen, sub: &Subchannel) -> Result<Placed, NoMemory>
    ensures { IfOk result (λ at. at ≡ placed_on ask seen.now sub.now) }
{
    Ok(Placed {
        entry: entry(seen)?,
        moment: now(seen),
        generation: ask.generation,
        sub: sub.number,
        link: sub.link.unwrap_or(0),
    })
}

fn placing(ask: Ask, seen: &Seen, attempt: &Attempt, sub: u32) -> Result<Option<Action>, NoMemory>
    ensures { IfOk result (λ a. a ≡ follow_pick ask seen.now attempt.now (Pick.Place sub)) }
{
    match numbered(&seen.subs, u64::from(sub)) {
        Some(sub) => Ok(Some(Action::AttemptPlaced {
            row: attempt.place,
            at: placed_on(ask, seen, sub)?,
        })),
        None => Ok(None),
    }
}

fn follow_pick(
    alloc: Global,
    ask: Ask,
    seen: &Seen,
    attempt: &Attempt,
) -> Result<Option<Action>, NoMemory>
    ensures { IfOk result (λ a. a ≡ follow_pick ask seen.now attempt.now ask.answer) }
{
    match ask.answer {
        Pick::Place(sub) => placing(ask, seen, attempt, sub),
        Pick::Fail => Ok(Some(Action::AttemptEnds {
            row: attempt.place,
            end: end_of(attempt, pick_end(alloc), seen)?,
        })),
        Pick::Wait => Ok(None),
    }
}

fn follow_ask(alloc: Global, seen: &Seen, ask: Ask) -> Result<Option<Action>, NoMemory>
    ensures { IfOk result (λ a. a ≡ follow_ask seen.now ask) }
{
    let Some(attempt) = numbered(&seen.attempts, ask.row) else {
        return Ok(None);
    };
    let entry = entry(seen)?;
    if is_unfollowed(attempt) && ask.entry == entry {
        follow_pick(alloc, ask, seen, attempt)
    } else {
        Ok(None)
    }
}

/// The attempt of the last pick request is placed, or ends.
pub fn next_of_pick(alloc: Global, seen: &Seen) -> Result<Option<Action>, NoMemory>
    ensures { IfOk result (λ a. a ≡ next_of_pick seen.now) }
{
    match last_of(&seen.asks) {
        Some(ask) => follow_ask(alloc, seen, *ask),
        None => Ok(None),
    }
}
