// What happens to attempts.
ghost use Rattle.std.specs.Prelude.{◌++◌, ◌+◌, ◌≡◌, ◌∷◌, [], IfOk, OnOk, Some, length, option_map};
ghost use Rattle.std.specs.Option.{option_map_or};
ghost use Rattle.session_actions.specs.AttemptEnds.{attempt_ended, stream_reset, with_end, with_reset_queued};
ghost use Rattle.session_actions.specs.Attempts.{marked_row, with_attempt};
ghost use Rattle.session_actions.specs.Commitments.{call_committed, with_commitment};
ghost use Rattle.session_actions.specs.Making.{attempt_made, hedge_withheld, new_row, with_row, without_turn_unless};
ghost use Rattle.session_actions.specs.Policies.{attempt_placed, pick_requested, turn_at, with_placing};
ghost use Rattle.session_actions.specs.Words.{changed};
ghost use Rattle.session_actions.specs.Writing.{with_stream};
ghost use Rattle.slow_changes.specs.Parts.{ended_as, run_of_end, with_run_end};

use crate::calls::marked;
use crate::entries::{drawn_if, with_turn};
use crate::links::owe;
use crate::table::Table;
use attempt_ledger::{Ask, Placed, Row, RowEnd, RowKind};
use grpc_base::{NoMemory, Pick};
use session_actions::{Attempt, MarkKind, Seen, ThrottleRun, Turn};
use slow_attempts::{
    call_of, config_of_call, entry, is_cut, is_to_follow, is_transparent, numbered, sum,
};
use slow_ends::{link_number, stream_number};
use slow_link::rst_stream_frame;
use std::alloc::Global;

/// Something happened to the call of the row at a place.
fn marked_row(alloc: Global, seen: &mut Seen, what: MarkKind, row: u64) -> Result<(), NoMemory>
    ensures { OnOk result (seen.new ≡ marked_row what row seen.old) }
{
    let call = match numbered(&seen.attempts, row) {
        Some(found) => found.row.call,
        None => return Ok(()),
    };
    marked(alloc, seen, what, call)
}

fn new_row(call: u32, number: u32, kind: RowKind, due: u64) -> Row
    ensures { result ≡ new_row call number kind due }
{
    Row {
        call,
        number,
        kind,
        due,
        placed: None,
        stream: None,
        ended: None,
        committed: None,
    }
}

/// A row at the end of the ledger; the answer is its place.
fn add_row(seen: &mut Seen, row: Row) -> Result<u64, NoMemory>
    ensures place { IfOk result (λ n. n ≡ length seen.old.attempts + 1) }
    ensures seen { OnOk result (seen.new ≡ with_row row seen.old) }
{
    let place = sum(seen.attempts.len() as u64, 1)?;
    let made = entry(seen)?;
    seen.attempts.push(Attempt {
        place,
        row,
        made,
        reset: false,
    })?;
    Ok(place)
}

/// A new pass over the queue begins, unless the one that goes on is kept.
fn without_turn_unless(seen: &mut Seen, keeps: bool)
    ensures { seen.new ≡ without_turn_unless keeps seen.old }
{
    if !keeps {
        with_turn(seen, None);
    }
}

/// An attempt is made.
pub fn attempt_made(
    alloc: Global,
    seen: &mut Seen,
    call: u32,
    number: u32,
    kind: RowKind,
    due: u64,
) -> Result<(), NoMemory>
    ensures { OnOk result (seen.new ≡ attempt_made call number kind due seen.old) }
{
    let row = add_row(seen, new_row(call, number, kind, due))?;
    marked(alloc, seen, MarkKind::Made { row }, call)?;
    without_turn_unless(seen, is_transparent(kind));
    Ok(())
}

/// A hedge is due, and the tokens forbid it.
pub fn hedge_withheld(alloc: Global, seen: &mut Seen, call: u32) -> Result<(), NoMemory>
    ensures { OnOk result (seen.new ≡ hedge_withheld call seen.old) }
{
    marked(alloc, seen, MarkKind::Withheld, call)?;
    with_turn(seen, None);
    Ok(())
}

fn turn_at(seen: &Seen, row: u64) -> Option<Turn>
    ensures { result ≡ turn_at row seen.now }
{
    let found = numbered(&seen.attempts, row)?;
    Some(Turn {
        call: found.row.call,
        row,
    })
}

/// The current policy is asked for a pick, and answers.
pub fn pick_requested(
    seen: &mut Seen,
    row: u64,
    generation: u32,
    answer: Pick,
) -> Result<(), NoMemory>
    ensures { OnOk result (seen.new ≡ pick_requested row generation answer seen.old) }
{
    let turn = turn_at(seen, row);
    let entry = entry(seen)?;
    seen.asks.push(Ask {
        entry,
        generation,
        row,
        answer,
    })?;
    with_turn(seen, turn);
    Ok(())
}

#[tactic(auto, using(crate::proofs::Places::put_changed, crate::proofs::Places::none_changed))]
fn place(attempts: &mut Table<Attempt>, row: u64, at: Placed)
    ensures { attempts.new ≡ changed (with_placing at) row attempts.old }
{
    if let Some(found) = attempts.get_mut(row) {
        found.row.placed = Some(at);
    }
}

/// An attempt is on a link.
pub fn attempt_placed(alloc: Global, seen: &mut Seen, row: u64, at: Placed) -> Result<(), NoMemory>
    ensures { OnOk result (seen.new ≡ attempt_placed row at seen.old) }
{
    let mut attempts = Table::take(alloc, &mut seen.attempts);
    place(&mut attempts, row, at);
    seen.attempts = attempts.into_items();
    marked_row(alloc, seen, MarkKind::Placed { row }, row)
}

#[tactic(auto, using(crate::proofs::Places::put_changed, crate::proofs::Places::none_changed))]
fn commit(attempts: &mut Table<Attempt>, row: u64, entry: u64)
    ensures { attempts.new ≡ changed (with_commitment entry) row attempts.old }
{
    if let Some(found) = attempts.get_mut(row) {
        found.row.committed = Some(entry);
    }
}

/// A call is committed to an attempt.
pub fn call_committed(alloc: Global, seen: &mut Seen, row: u64) -> Result<(), NoMemory>
    ensures { OnOk result (seen.new ≡ call_committed row seen.old) }
{
    let entry = entry(seen)?;
    let mut attempts = Table::take(alloc, &mut seen.attempts);
    commit(&mut attempts, row, entry);
    seen.attempts = attempts.into_items();
    marked_row(alloc, seen, MarkKind::Committed, row)
}

/// The run whose bucket an end of an attempt changes, where it counts.
fn run_of_end(attempt: &Attempt, end: &RowEnd, seen: &Seen) -> Option<u64>
    ensures { result ≡ run_of_end attempt.now end.now seen.now }
{
    let call = call_of(attempt, seen)?;
    if is_cut(end.cause) || is_to_follow(call, end.cause, end.unseen, seen) {
        return None;
    }
    config_of_call(call, seen)?.run
}

#[tactic(auto, using(crate::proofs::Places::put_on, crate::proofs::Places::none_changed))]
fn add_end(runs: &mut Table<ThrottleRun>, run: u64, place: u64) -> Result<(), NoMemory>
    ensures { OnOk result (runs.new ≡ changed (λ u. record u { ends = u.ends ++ place ∷ [] }) run runs.old) }
{
    match runs.get_mut(run) {
        Some(found) => found.ends.push(place),
        None => Ok(()),
    }
}

fn with_run_end(
    alloc: Global,
    seen: &mut Seen,
    run: Option<u64>,
    place: u64,
) -> Result<(), NoMemory>
    ensures { OnOk result (seen.new ≡ with_run_end run place seen.old) }
{
    let Some(run) = run else {
        return Ok(());
    };
    let mut runs = Table::take(alloc, &mut seen.runs);
    add_end(&mut runs, run, place)?;
    seen.runs = runs.into_items();
    Ok(())
}

#[tactic(auto, using(crate::proofs::Places::put_changed, crate::proofs::Places::none_changed))]
fn end(attempts: &mut Table<Attempt>, row: u64, end: RowEnd)
    ensures { attempts.new ≡ changed (with_end end) row attempts.old }
{
    if let Some(found) = attempts.get_mut(row) {
        found.row.ended = Some(end);
    }
}

fn with_attempt_ended(alloc: Global, seen: &mut Seen, row: u64, row_end: RowEnd)
    ensures { seen.new ≡ with_attempt (with_end row_end) row seen.old }
{
    let mut attempts = Table::take(alloc, &mut seen.attempts);
    end(&mut attempts, row, row_end);
    seen.attempts = attempts.into_items();
}

fn ended_as(
    alloc: Global,
    seen: &mut Seen,
    row: u64,
    call: u32,
    run: Option<u64>,
    end: RowEnd,
) -> Result<(), NoMemory>
    ensures { OnOk result (seen.new ≡ ended_as row call run end seen.old) }
{
    let draws = end.word.is_some();
    with_run_end(alloc, seen, run, row)?;
    with_attempt_ended(alloc, seen, row, end);
    marked(alloc, seen, MarkKind::Ended { row }, call)?;
    drawn_if(seen, draws)
}

/// An attempt ends.
#[tactic(auto, using(crate::proofs::Steps::ended_is))]
pub fn attempt_ended(alloc: Global, seen: &mut Seen, row: u64, end: RowEnd) -> Result<(), NoMemory>
    ensures { OnOk result (seen.new ≡ attempt_ended row end seen.old) }
{
    let (place, call, run) = match numbered(&seen.attempts, row) {
        Some(found) => (found.place, found.row.call, run_of_end(found, &end, seen)),
        None => return Ok(()),
    };
    ended_as(alloc, seen, place, call, run, end)
}

#[tactic(auto, using(crate::proofs::Places::put_changed, crate::proofs::Places::none_changed))]
fn queue_reset(attempts: &mut Table<Attempt>, row: u64)
    ensures { attempts.new ≡ changed with_reset_queued row attempts.old }
{
    if let Some(found) = attempts.get_mut(row) {
        found.reset = true;
    }
}

/// RST_STREAM is queued for the stream of an attempt that ended.
pub fn stream_reset(alloc: Global, seen: &mut Seen, row: u64, code: u32) -> Result<(), NoMemory>
    ensures { OnOk result (seen.new ≡ stream_reset row code seen.old) }
{
    let (place, link, stream) = match numbered(&seen.attempts, row) {
        Some(found) => (found.place, link_number(found), stream_number(found)),
        None => return Ok(()),
    };
    let frame = rst_stream_frame(alloc, stream, code)?;
    let mut attempts = Table::take(alloc, &mut seen.attempts);
    queue_reset(&mut attempts, place);
    seen.attempts = attempts.into_items();
    owe(alloc, seen, frame, link)
}

#[tactic(auto, using(crate::proofs::Places::put_changed, crate::proofs::Places::none_changed))]
fn give_stream(attempts: &mut Table<Attempt>, row: u64, stream: u32)
    ensures { attempts.new ≡ changed (with_stream stream) row attempts.old }
{
    if let Some(found) = attempts.get_mut(row) {
        found.row.stream = Some(stream);
    }
}

/// HEADERS that are written give an attempt its stream.
pub fn stream_given(alloc: Global, seen: &mut Seen, place: u64, stream: u32)
    ensures { seen.new ≡ with_attempt (with_stream stream) place seen.old }
{
    let mut attempts = Table::take(alloc, &mut seen.attempts);
    give_stream(&mut attempts, place, stream);
    seen.attempts = attempts.into_items();
}
