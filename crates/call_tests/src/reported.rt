// What calls reply and ask for, and how they stand, as words.
use crate::fixture::Fixture;
use attempt_ledger::{Row, RowCause, RowKind};
use call_core::CallAct;
use grpc_base::{EndCause, NoMemory, Reply};
use std::alloc::Global;
use std::test::Fail;

fn cause_word(cause: EndCause) -> &'static str {
    match cause {
        EndCause::Row => "row",
        EndCause::Deadline => "deadline",
        EndCause::Cancelled => "cancelled",
        EndCause::Request => "request",
        EndCause::Response => "response",
        EndCause::NoConfig => "noconfig",
        EndCause::Shut => "shut",
    }
}

/// A reply as words.
pub fn report_reply(alloc: Global, reply: &Reply) -> Result<String, NoMemory> {
    let text = match reply {
        Reply::Done => format!(in alloc; "done")?,
        Reply::NotYet => format!(in alloc; "notyet")?,
        Reply::Full { held } => format!(in alloc; "full {held}")?,
        Reply::Head { meta: _ } => format!(in alloc; "head")?,
        Reply::Message { octets } => {
            let len = octets.len();
            format!(in alloc; "message {len}")?
        }
        Reply::End { code, cause, .. } => {
            let number = code.number();
            let cause = cause_word(*cause);
            format!(in alloc; "end {number} {cause}")?
        }
        Reply::Refused { refusal } => {
            let number = refusal.number();
            format!(in alloc; "refused {number}")?
        }
        _ => format!(in alloc; "?")?,
    };
    Ok(text)
}

fn report_act(alloc: Global, act: CallAct) -> Result<String, NoMemory> {
    let text = match act {
        CallAct::Cut(row) => format!(in alloc; ", cut {row}")?,
        CallAct::Drop(row) => format!(in alloc; ", drop {row}")?,
        CallAct::Queue(row) => format!(in alloc; ", queue {row}")?,
        CallAct::End(cause) => {
            let cause = cause_word(cause);
            format!(in alloc; ", end {cause}")?
        }
    };
    Ok(text)
}

/// Appends what a call asks for.
pub fn report_acts(alloc: Global, reported: &mut String, acts: &[CallAct]) -> Result<(), NoMemory> {
    for act in acts {
        reported.push_str(report_act(alloc, *act)?.as_str())?;
    }
    Ok(())
}

fn number_word(alloc: Global, number: Option<u64>) -> Result<String, NoMemory> {
    match number {
        Some(number) => Ok(format!(in alloc; "{number}")?),
        None => Ok(format!(in alloc; "-")?),
    }
}

/// How a row stands: made, open once it is placed, cut, or the code of its end.
fn row_word(alloc: Global, row: &Row) -> Result<String, NoMemory> {
    let star = if row.committed.is_some() { "*" } else { "" };
    match &row.ended {
        Some(end) if end.cause == RowCause::Cut => Ok(format!(in alloc; " cut{star}")?),
        Some(end) => {
            let code = end.code.number();
            Ok(format!(in alloc; " {code}{star}")?)
        }
        None if row.placed.is_some() => Ok(format!(in alloc; " open{star}")?),
        None => Ok(format!(in alloc; " made{star}")?),
    }
}

/// How the calls stand: the next due moment of each, the tokens, and each row of the ledger.
pub fn report_state(fixture: &Fixture) -> Result<String, Fail> {
    let mut reported = String::new(fixture.alloc);
    for call in fixture.calls.as_slice() {
        reported.push_str(number_word(fixture.alloc, call.next_due())?.as_str())?;
        reported.push_str(" ")?;
    }
    let tokens = match &fixture.tokens {
        Some(tokens) => Some(u64::from(tokens.count())),
        None => None,
    };
    reported.push_str(number_word(fixture.alloc, tokens)?.as_str())?;
    for row in fixture.ledger.rows.as_slice() {
        reported.push_str(row_word(fixture.alloc, row)?.as_str())?;
    }
    Ok(reported)
}

fn kind_word(kind: RowKind) -> &'static str {
    match kind {
        RowKind::First => "first",
        RowKind::Retry => "retry",
        RowKind::Hedge => "hedge",
        RowKind::Transparent => "transparent",
    }
}

/// A row of the ledger: its call, kind, number and due moment, when it was placed and ended, the tokens and the random word of
/// its end.
pub fn report_row(fixture: &Fixture, place: u64) -> Result<String, Fail> {
    let index = usize::try_from(place.checked_sub(1).ok_or("no place")?)?;
    let row = fixture.ledger.rows.get(index).ok_or("no such row")?;
    let (call, number, due) = (row.call, row.number, row.due);
    let kind = kind_word(row.kind);
    let placed = row.placed.map(|placed| placed.moment.nanos());
    let placed = number_word(fixture.alloc, placed)?;
    let end = match &row.ended {
        Some(end) => {
            let moment = end.moment.nanos();
            let tokens = number_word(fixture.alloc, end.tokens.map(u64::from))?;
            let word = number_word(fixture.alloc, end.word)?;
            format!(in fixture.alloc; "ended {moment}, tokens {tokens}, word {word}")?
        }
        None => format!(in fixture.alloc; "not ended")?,
    };
    Ok(format!(in fixture.alloc; "call {call} {kind} {number} due {due} placed {placed} {end}")?)
}

/// What a call reports of itself: its deadline, whether it waits for ready and has its configuration, and why it ended.
pub fn report_facts(fixture: &Fixture, number: u64) -> Result<String, Fail> {
    let index = usize::try_from(number.checked_sub(1).ok_or("no number")?)?;
    let call = fixture.calls.get(index).ok_or("no such call")?;
    let deadline = number_word(fixture.alloc, call.deadline_at())?;
    let waits = if call.waits() { ", waits" } else { "" };
    let has = if call.chosen().is_some() {
        "has"
    } else {
        "has no"
    };
    let path = call.request().path().len();
    let ended = match call.ended() {
        Some(cause) => cause_word(cause),
        None => "-",
    };
    Ok(format!(in fixture.alloc;
        "deadline {deadline}{waits}, {has} config, path of {path}, ended {ended}"
    )?)
}
