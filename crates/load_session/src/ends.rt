// Which end was taken first of each call, and how many calls came out how.
ghost use Rattle.std.specs.Prelude.{◌≡◌, ◌+◌, ◌≤◌, ◌∷◌, [], ℕ, Option, List, IfOk, length, map};
ghost use Rattle.std.specs.List.{count_by, range_with_len};
ghost use Rattle.load_session.specs.Sums.{call_taken, calls_with, end_code, first_end, has_outcome, is_other, is_zero};
ghost use Rattle.load_session.specs.Steps.{noted, noted_entry};

use grpc_base::{Entry, Event, NoMemory, Reply};
use std::alloc::Global;

/// How a call came out.
#[derive(Clone, Copy, Debug, PartialEq, Eq)]
pub enum Outcome {
    /// Its end was taken, and its code is OK.
    Well,
    /// Its end was taken, and has another code.
    Failed,
    /// Its end was not taken.
    Open,
}

/// How many of the calls from 1 on came out in each way.
#[derive(Clone, Copy, Debug, PartialEq, Eq)]
pub(crate) struct Counts {
    pub well: u32,
    pub failed: u32,
    pub unended: u32,
}

/// How many of the calls from 1 to `calls` came out in each way.
pub(crate) fn outcomes(alloc: Global, entries: &[Entry], calls: u32) -> Result<Counts, NoMemory>
    requires { calls ≤ 10000 }
    ensures well { IfOk result (λ o. o.well ≡ calls_with Outcome.Well calls entries.now) }
    ensures failed { IfOk result (λ o. o.failed ≡ calls_with Outcome.Failed calls entries.now) }
    ensures unended { IfOk result (λ o. o.unended ≡ calls_with Outcome.Open calls entries.now) }
{
    let ends = first_ends(alloc, entries, calls)?;
    let ends = after_the_first(ends.as_slice());
    Ok(Counts {
        well: count(ends, Outcome::Well),
        failed: count(ends, Outcome::Failed),
        unended: count(ends, Outcome::Open),
    })
}

/// For each number up to `calls`, the code of the first end that was taken of the call with this number.
fn first_ends(alloc: Global, entries: &[Entry], calls: u32) -> Result<Vec<Option<u32>>, NoMemory>
    requires { calls ≤ 10000 }
    ensures { IfOk result (λ ends. ends.items ≡ map (first_end entries.now) (range_with_len 0 (calls + 1))) }
{
    let mut ends = none_noted(alloc, calls as usize + 1)?;
    for entry in entries {
        note_entry(&mut ends, entry);
    }
    Ok(ends)
}

/// For each number below `count`, that no end is noted.
fn none_noted(alloc: Global, count: usize) -> Result<Vec<Option<u32>>, NoMemory>
    ensures { IfOk result (λ ends. ends.items ≡ map (first_end []) (range_with_len 0 count)) }
{
    let mut ends = Vec::new(alloc);
    for _call in 0..count {
        ends.push(None)?;
    }
    Ok(ends)
}

/// Notes the end that an entry took, if it did.
fn note_entry(ends: &mut Vec<Option<u32>>, entry: &Entry)
    ensures { ends.new.items ≡ noted_entry entry.now ends.old.items }
{
    if let Some(call) = call_taken(&entry.event) {
        if let Some(code) = end_code(&entry.reply) {
            note(ends, call, code);
        }
    }
}

/// Notes the end of a call, where none is noted.
fn note(ends: &mut Vec<Option<u32>>, call: u32, code: u32)
    ensures { ends.new.items ≡ noted call code ends.old.items }
{
    let place = call as usize;
    if place < ends.len() && ends[place].is_none() {
        ends[place] = Some(code);
    }
}

/// The call of which an event takes.
fn call_taken(event: &Event) -> Option<u32>
    ensures { result ≡ call_taken event.now }
{
    match event {
        Event::Take { call } => Some(*call),
        _ => None,
    }
}

/// The code of an end.
fn end_code(reply: &Reply) -> Option<u32>
    ensures { result ≡ end_code reply.now }
{
    match reply {
        Reply::End {
            code,
            text: _,
            meta: _,
            cause: _,
        } => Some(code.number()),
        _ => None,
    }
}

/// All but the first.
fn after_the_first(ends: &[Option<u32>]) -> &[Option<u32>]
    ensures { (first : Option ℕ) (rest : List (Option ℕ)) → ends.now ≡ first ∷ rest → result.now ≡ rest }
{
    match ends {
        [] => ends,
        [_first, rest @ ..] => rest,
    }
}

/// How many ends have an outcome.
fn count(ends: &[Option<u32>], outcome: Outcome) -> u32
    requires { length ends.now ≤ 10000 }
    ensures { result ≡ count_by (has_outcome outcome) ends.now }
{
    let mut count = 0;
    for end in ends {
        if has_outcome(*end, outcome) {
            count += 1;
        }
    }
    count
}

/// Whether an end, or that there is none, has an outcome.
fn has_outcome(end: Option<u32>, outcome: Outcome) -> bool
    ensures { result ≡ has_outcome outcome end }
{
    match outcome {
        Outcome::Well => is_zero(end),
        Outcome::Failed => is_other(end),
        Outcome::Open => end.is_none(),
    }
}

fn is_zero(end: Option<u32>) -> bool
    ensures { result ≡ is_zero end }
{
    match end {
        Some(code) => code == 0,
        None => false,
    }
}

fn is_other(end: Option<u32>) -> bool
    ensures { result ≡ is_other end }
{
    match end {
        Some(code) => code != 0,
        None => false,
    }
}
