// Which action comes next.
ghost use Rattle.std.specs.Prelude.{◌≡◌, IfOk};
ghost use Rattle.session_actions.specs.Actions.{config_action, following, following_in, of_calls, of_event, of_frames, of_links, of_policies, of_settling, of_stage};
ghost use Rattle.session_actions.specs.Policies.{next_of_pass};
ghost use Rattle.session_actions.specs.Words.{first_of};
ghost use Rattle.slow_session.specs.Parts.{early_end, of_clock, of_commitments, of_ends};

use crate::events::{event_action, frame_action, is_loss};
use crate::picks::next_of_pick;
use crate::results::{next_begun, next_given, next_retired};
use grpc_base::{EndCause, NoMemory};
use session_actions::{Action, Call, OpenEntry, Seen, Stage};
use slow_attempts::is_to_configure;
use slow_calls::{
    lacks_config, next_cancelled, next_deadline, next_long_request, next_long_response, next_over,
    next_shut_down,
};
use slow_ends::{
    next_cut, next_due_attempt, next_final, next_headed, next_inherited, next_overflow, next_reset,
    next_transparent, next_wire_end,
};
use slow_net::{
    next_added, next_asked, next_connected, next_of_clock, next_of_links, next_shut, next_take_over,
};
use std::alloc::Global;

/// What follows at once for calls: the first half.
fn of_ends(alloc: Global, seen: &Seen) -> Result<Option<Action>, NoMemory>
    ensures { IfOk result (λ a. a ≡ of_ends seen.now) }
{
    if let Some(action) = next_cut(alloc, seen)? {
        return Ok(Some(action));
    }
    if let Some(action) = next_transparent(seen) {
        return Ok(Some(action));
    }
    if let Some(action) = next_inherited(seen) {
        return Ok(Some(action));
    }
    if let Some(action) = next_over(seen) {
        return Ok(Some(action));
    }
    Ok(next_final(seen))
}

fn of_commitments(
    alloc: Global,
    current: &OpenEntry,
    seen: &Seen,
) -> Result<Option<Action>, NoMemory>
    ensures { IfOk result (λ a. a ≡ of_commitments current.now seen.now) }
{
    if let Some(action) = next_cancelled(current, seen) {
        return Ok(Some(action));
    }
    if let Some(action) = next_long_request(current, seen) {
        return Ok(Some(action));
    }
    if let Some(action) = next_overflow(seen)? {
        return Ok(Some(action));
    }
    if let Some(action) = next_headed(alloc, seen)? {
        return Ok(Some(action));
    }
    next_long_response(alloc, seen)
}

/// What follows at once for calls.
#[tactic(auto, using(crate::proofs::OrderLaws::calls_in_two))]
fn of_calls(alloc: Global, current: &OpenEntry, seen: &Seen) -> Result<Option<Action>, NoMemory>
    ensures { IfOk result (λ a. a ≡ of_calls current.now seen.now) }
{
    if let Some(action) = of_ends(alloc, seen)? {
        return Ok(Some(action));
    }
    of_commitments(alloc, current, seen)
}

/// The end by the wire that comes before the resets, unless the event is the loss of a link.
fn early_end(alloc: Global, current: &OpenEntry, seen: &Seen) -> Result<Option<Action>, NoMemory>
    ensures { IfOk result (λ a. a ≡ early_end current.now seen.now) }
{
    if is_loss(&current.event) {
        Ok(None)
    } else {
        next_wire_end(alloc, seen)
    }
}

/// What follows at once for links.
fn of_links(alloc: Global, current: &OpenEntry, seen: &Seen) -> Result<Option<Action>, NoMemory>
    ensures { IfOk result (λ a. a ≡ of_links current.now seen.now) }
{
    if let Some(action) = next_of_pick(alloc, seen)? {
        return Ok(Some(action));
    }
    if let Some(action) = next_of_links(seen) {
        return Ok(Some(action));
    }
    if let Some(action) = early_end(alloc, current, seen)? {
        return Ok(Some(action));
    }
    if let Some(action) = next_reset(alloc, seen)? {
        return Ok(Some(action));
    }
    next_wire_end(alloc, seen)
}

/// What follows at once for policies.
fn of_policies(alloc: Global, current: &OpenEntry, seen: &Seen) -> Result<Option<Action>, NoMemory>
    ensures { IfOk result (λ a. a ≡ of_policies current.now seen.now) }
{
    if let Some(action) = next_shut_down(seen) {
        return Ok(Some(action));
    }
    if let Some(action) = next_retired(current, seen) {
        return Ok(Some(action));
    }
    if let Some(action) = next_begun(current, seen) {
        return Ok(Some(action));
    }
    if let Some(action) = next_given(current, seen) {
        return Ok(Some(action));
    }
    if let Some(action) = next_shut(alloc, seen)? {
        return Ok(Some(action));
    }
    next_added(alloc, seen)
}

/// Deadlines that have come, and the event itself.
fn of_event(alloc: Global, current: &OpenEntry, seen: &Seen) -> Result<Option<Action>, NoMemory>
    ensures { IfOk result (λ a. a ≡ of_event current.now seen.now) }
{
    if let Some(action) = next_deadline(seen) {
        return Ok(Some(action));
    }
    event_action(alloc, &current.event, seen)
}

/// The frames of an event, one by one.
fn of_frames(alloc: Global, current: &OpenEntry, seen: &Seen) -> Result<Option<Action>, NoMemory>
    ensures { IfOk result (λ a. a ≡ of_frames current.now seen.now) }
{
    match frame_action(alloc, current, seen)? {
        Some(action) => Ok(Some(action)),
        None => Ok(Some(Action::SettlingBegins)),
    }
}

fn config_action(seen: &Seen, call: &Call) -> Option<Action>
    ensures { result ≡ config_action seen.now call.now }
{
    if is_to_configure(seen, call) {
        return Some(Action::CallConfigured {
            call: call.number,
            config: seen.configs.len() as u64,
        });
    }
    if lacks_config(seen, call) {
        return Some(Action::CallEnds {
            call: call.number,
            cause: EndCause::NoConfig,
        });
    }
    None
}

fn first_config(seen: &Seen, calls: &[Call]) -> Option<Action>
    ensures { result ≡ first_of (config_action seen.now) calls.now }
{
    let (first, rest) = calls.split_first()?;
    match config_action(seen, first) {
        Some(action) => Some(action),
        None => first_config(seen, rest),
    }
}

/// The pass over the queue goes on.
fn next_of_pass(alloc: Global, current: &OpenEntry, seen: &Seen) -> Result<Option<Action>, NoMemory>
    ensures { IfOk result (λ a. a ≡ next_of_pass current.now seen.now) }
{
    match current.turn {
        Some(turn) => next_asked(alloc, Some(turn), seen),
        None => Ok(None),
    }
}

/// What is due by now, up to the configurations.
fn of_clock(alloc: Global, seen: &Seen) -> Result<Option<Action>, NoMemory>
    ensures { IfOk result (λ a. a ≡ of_clock seen.now) }
{
    if let Some(action) = next_of_clock(seen) {
        return Ok(Some(action));
    }
    if let Some(action) = next_take_over(alloc, seen)? {
        return Ok(Some(action));
    }
    if let Some(action) = next_connected(alloc, seen)? {
        return Ok(Some(action));
    }
    Ok(first_config(seen, seen.calls.as_slice()))
}

/// What is due by now.
#[tactic(auto, using(crate::proofs::OrderLaws::settling_in_two))]
fn of_settling(alloc: Global, current: &OpenEntry, seen: &Seen) -> Result<Option<Action>, NoMemory>
    ensures { IfOk result (λ a. a ≡ of_settling current.now seen.now) }
{
    if let Some(action) = of_clock(alloc, seen)? {
        return Ok(Some(action));
    }
    if let Some(action) = next_of_pass(alloc, current, seen)? {
        return Ok(Some(action));
    }
    if let Some(action) = next_due_attempt(seen)? {
        return Ok(Some(action));
    }
    if let Some(action) = next_asked(alloc, None, seen)? {
        return Ok(Some(action));
    }
    Ok(Some(Action::EntryCloses))
}

fn of_stage(alloc: Global, current: &OpenEntry, seen: &Seen) -> Result<Option<Action>, NoMemory>
    ensures { IfOk result (λ a. a ≡ of_stage current.now seen.now current.now.stage) }
{
    match current.stage {
        Stage::Event => of_event(alloc, current, seen),
        Stage::Replied => of_frames(alloc, current, seen),
        Stage::Settling => of_settling(alloc, current, seen),
    }
}

fn following_in(alloc: Global, seen: &Seen, current: &OpenEntry) -> Result<Option<Action>, NoMemory>
    ensures { IfOk result (λ a. a ≡ following_in seen.now current.now) }
{
    if let Some(action) = of_calls(alloc, current, seen)? {
        return Ok(Some(action));
    }
    if let Some(action) = of_links(alloc, current, seen)? {
        return Ok(Some(action));
    }
    if let Some(action) = of_policies(alloc, current, seen)? {
        return Ok(Some(action));
    }
    of_stage(alloc, current, seen)
}

/// The action that comes next while an entry is being made.
pub fn following(alloc: Global, seen: &Seen) -> Result<Option<Action>, NoMemory>
    ensures { IfOk result (λ a. a ≡ following seen.now) }
{
    match &seen.current {
        Some(current) => following_in(alloc, seen, current),
        None => Ok(None),
    }
}
