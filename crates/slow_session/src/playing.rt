// A session, from its events.
ghost use Rattle.std.specs.Prelude.{◌≡◌, IfOk, IfSome, None, OnOk, false};
ghost use Rattle.session_actions.specs.Actions.{after, following};
ghost use Rattle.session_actions.specs.Sessions.{IsNext, new_session};
ghost use Rattle.session_actions.specs.declared.action.Action.TheVariants as action;
ghost use Rattle.slow_session.specs.Parts.{is_opening};
ghost use Rattle.slow_session.specs.Plays.{IsSessionOf, Makes, Plays, Settles};

use crate::adding::after;
use crate::following::following;
use crate::report::{Report, report_of};
use crate::room::may_open;
use grpc_base::{Items, NoMemory, Stamped};
use session_actions::{Action, Seen, Setup};
use std::alloc::Global;

/// The most actions of one entry.
const ACTIONS: u32 = 1_048_576;

/// Nothing has happened yet.
pub fn new_session(alloc: Global, setup: Setup) -> Seen
    ensures { result ≡ new_session setup }
{
    Seen {
        setup,
        entries: Items::new(alloc),
        current: None,
        calls: Items::new(alloc),
        attempts: Items::new(alloc),
        asks: Items::new(alloc),
        policies: Items::new(alloc),
        subs: Items::new(alloc),
        links: Items::new(alloc),
        configs: Items::new(alloc),
        runs: Items::new(alloc),
        answered: false,
        wants: true,
        shut: false,
    }
}

fn is_opening(action: &Action) -> bool
    ensures { result ≡ is_opening action.now }
{
    matches!(action, Action::EntryOpens { .. })
}

/// The action that comes next; none opens an entry.
#[tactic(auto, using(crate::proofs::RunLaws::is_next))]
pub fn next_action(alloc: Global, seen: &Seen) -> Result<Option<Action>, NoMemory>
    ensures exact { IfOk result (λ a. a ≡ following seen.now) }
    ensures next { IfOk result (λ a. IfSome a (λ x. IsNext x seen.now)) }
    ensures unposted { IfOk result (λ a. IfSome a (λ x. is_opening x ≡ false)) }
{
    match following(alloc, seen)? {
        Some(action) => {
            if is_opening(&action) {
                return Err(NoMemory);
            }
            Ok(Some(action))
        }
        None => Ok(None),
    }
}

/// The actions that follow, until the entry is made.
#[tactic(auto, using(crate::proofs::RunLaws::one_more, crate::proofs::RunLaws::none_more))]
fn settle(alloc: Global, seen: &mut Seen) -> Result<(), NoMemory>
    ensures { OnOk result (Settles seen.old seen.new) }
{
    for _step in 0..ACTIONS {
        match next_action(alloc, seen)? {
            Some(action) => after(alloc, seen, action)?,
            None => return is_between(seen),
        }
    }
    Err(NoMemory)
}

/// No entry is being made.
fn is_between(seen: &Seen) -> Result<(), NoMemory>
    ensures { OnOk result (seen.now.current ≡ None) }
{
    if seen.current.is_none() {
        Ok(())
    } else {
        Err(NoMemory)
    }
}

/// An event is posted, and its entry is made. Where the session has no room for it, the answer is out of memory.
pub fn make_entry(alloc: Global, seen: &mut Seen, stamped: Stamped) -> Result<(), NoMemory>
    ensures { OnOk result (Makes stamped seen.old seen.new) }
{
    if !may_open(&stamped.event, seen)? {
        return Err(NoMemory);
    }
    open_entry(alloc, seen, stamped)?;
    settle(alloc, seen)
}

fn open_entry(alloc: Global, seen: &mut Seen, stamped: Stamped) -> Result<(), NoMemory>
    ensures { OnOk result (seen.new ≡ after (action.EntryOpens stamped.moment stamped.word stamped.event) seen.old) }
{
    let Stamped {
        moment,
        word,
        event,
    } = stamped;
    after(
        alloc,
        seen,
        Action::EntryOpens {
            posted: moment,
            word,
            event,
        },
    )
}

/// All that has happened once these events were posted, in turn.
pub fn play(alloc: Global, setup: Setup, events: Vec<Stamped>) -> Result<Seen, NoMemory>
    ensures { IfOk result (λ t. Plays events.items (new_session setup) t) }
{
    let mut seen = new_session(alloc, setup);
    let mut rest = events.into_iter();
    while let Some(stamped) = rest.next() {
        make_entry(alloc, &mut seen, stamped)?;
    }
    Ok(seen)
}

/// The journal and the ledger of the session of these events.
pub fn run(alloc: Global, setup: Setup, events: Vec<Stamped>) -> Result<Report, NoMemory>
    ensures { IfOk result (λ r. IsSessionOf setup events.items r.journal.entries r.ledger) }
{
    let seen = play(alloc, setup, events)?;
    let report = report_of(alloc, seen)?;
    Ok(report)
}
