// Tables of steps. A line is a moment in nanoseconds, a step and, after ` = `, what the call replied and asked for and, after
// ` / `, how it stands then. Done again, a table is written down as the same lines. A line that begins with `#` begins anew,
// under a plan.
use crate::fixture::Fixture;
use crate::plans::chosen_of;
use crate::reported::report_state;
use attempt_ledger::{Row, RowEnd, check_rows};
use grpc_base::NoMemory;
use std::alloc::Global;
use std::test::Fail;

/// The words of a line.
fn words_of<'a>(alloc: Global, line: &'a str) -> Result<Vec<&'a str>, Fail> {
    let mut words = Vec::new(alloc);
    for word in line.split_whitespace() {
        words.push(word)?;
    }
    Ok(words)
}

fn copy_end(end: &RowEnd) -> Result<RowEnd, NoMemory> {
    let text = end.text.copy()?;
    let meta = end.meta.copy()?;
    Ok(RowEnd {
        entry: end.entry,
        moment: end.moment,
        code: end.code,
        text,
        meta,
        pushback: end.pushback,
        unseen: end.unseen,
        seen: end.seen,
        cause: end.cause,
        tokens: end.tokens,
        word: end.word,
    })
}

fn copy_row(row: &Row) -> Result<Row, NoMemory> {
    let ended = match &row.ended {
        Some(end) => Some(copy_end(end)?),
        None => None,
    };
    Ok(Row {
        call: row.call,
        number: row.number,
        kind: row.kind,
        due: row.due,
        placed: row.placed,
        stream: row.stream,
        ended,
        committed: row.committed,
    })
}

/// Whether the rows of a call keep the laws of attempts.
fn keeps_laws(fixture: &Fixture, call: u64) -> Result<bool, Fail> {
    let mut rows = Vec::new(fixture.alloc);
    for row in fixture.ledger.rows.as_slice() {
        if u64::from(row.call) == call {
            rows.push(copy_row(row)?)?;
        }
    }
    Ok(check_rows(&fixture.chosen, rows.as_slice()).is_ok())
}

fn keep_laws(fixture: &Fixture) -> Result<bool, Fail> {
    for place in 0..fixture.calls.len() as u64 {
        if !keeps_laws(fixture, place + 1)? {
            return Ok(false);
        }
    }
    Ok(true)
}

/// The line that comes of a step.
fn line_of(fixture: &mut Fixture, line: &str) -> Result<String, Fail> {
    let (step, _) = line.split_once(" = ").ok_or("a line without a reply")?;
    let words = words_of(fixture.alloc, step)?;
    let reported = fixture.act(words.as_slice())?;
    if !keep_laws(fixture)? {
        return Ok(format!(in fixture.alloc; "{step} breaks a law of attempts")?);
    }
    let state = report_state(fixture)?;
    Ok(format!(in fixture.alloc; "{step} = {reported} / {state}")?)
}

/// The first line of a table that is not written down as it stands, with what is written down in its place; empty where there
/// is none.
pub fn first_wrong(alloc: Global, table: &str) -> Result<String, Fail> {
    let mut fixture = Fixture::new(alloc, chosen_of(&["#", "none"])?)?;
    for line in table.lines() {
        if line.starts_with("#") {
            let words = words_of(alloc, line)?;
            fixture = Fixture::new(alloc, chosen_of(words.as_slice())?)?;
        } else {
            let made = line_of(&mut fixture, line)?;
            if made.as_str() != line {
                return Ok(made);
            }
        }
    }
    Ok(String::new(alloc))
}
