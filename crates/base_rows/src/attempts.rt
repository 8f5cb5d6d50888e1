// Rows of the ledger, and the first of them that breaks a law of rows.
use crate::policies::{code, plan, small, throttle};
use attempt_ledger::{Placed, Row, RowCause, RowEnd, RowKind, check_rows};
use grpc_base::{Chosen, MessageLimit, Metadata, Moment, Pushback, Text};
use std::alloc::Global;
use table_rows::{Said, Wrong, number};

/// The field of a row at a place; a row leaves out the last ones where they are `-`.
fn field(row: &str, place: usize) -> &str {
    row.split(':').nth(place).unwrap_or("-")
}

fn optional(text: &str) -> Result<Option<u64>, Wrong> {
    if text == "-" {
        return Ok(None);
    }
    Ok(Some(number(text)?))
}

fn optional_small(text: &str) -> Result<Option<u32>, Wrong> {
    if text == "-" {
        return Ok(None);
    }
    Ok(Some(small(text)?))
}

fn moment(text: &str) -> Result<Moment, Wrong> {
    Moment::new(number(text)?).ok_or(Wrong::Form)
}

fn kind(text: &str) -> Result<RowKind, Wrong> {
    match text {
        "first" => Ok(RowKind::First),
        "retry" => Ok(RowKind::Retry),
        "hedge" => Ok(RowKind::Hedge),
        "transparent" => Ok(RowKind::Transparent),
        _ => Err(Wrong::Form),
    }
}

fn cause(text: &str) -> Result<RowCause, Wrong> {
    match text {
        "status" => Ok(RowCause::Status),
        "http" => Ok(RowCause::Http),
        "reset" => Ok(RowCause::Reset),
        "framing" => Ok(RowCause::Framing),
        "lost" => Ok(RowCause::Lost),
        "goaway" => Ok(RowCause::Goaway),
        "unsent" => Ok(RowCause::Unsent),
        "pick" => Ok(RowCause::Pick),
        "cut" => Ok(RowCause::Cut),
        _ => Err(Wrong::Form),
    }
}

fn pushback(text: &str) -> Result<Pushback, Wrong> {
    match text {
        "-" => Ok(Pushback::None),
        "stop" => Ok(Pushback::Stop),
        _ => Ok(Pushback::After(small(text)?)),
    }
}

fn placed(text: &str) -> Result<Option<Placed>, Wrong> {
    if text == "-" {
        return Ok(None);
    }
    Ok(Some(Placed {
        entry: 1,
        moment: moment(text)?,
        generation: 1,
        sub: 1,
        link: 1,
    }))
}

fn ended(alloc: Global, row: &str) -> Result<Option<RowEnd>, Wrong> {
    if field(row, 11) == "-" {
        return Ok(None);
    }
    let entry = number(field(row, 5))?;
    let moment = moment(field(row, 6))?;
    let code = code(field(row, 7))?;
    let pushback = pushback(field(row, 8))?;
    let seen = number(field(row, 10))?;
    let cause = cause(field(row, 11))?;
    let tokens = optional_small(field(row, 12))?;
    let word = optional(field(row, 13))?;
    Ok(Some(RowEnd {
        entry,
        moment,
        code,
        text: Text::new(alloc),
        meta: Metadata::new(alloc),
        pushback,
        unseen: field(row, 9) == "yes",
        seen,
        cause,
        tokens,
        word,
    }))
}

/// The row of these fields: number, kind, due, placed, stream, then of its end the entry, moment, code, pushback, unseen, seen, cause,
/// tokens and word, and the entry of its commitment.
fn row(alloc: Global, row: &str) -> Result<Row, Wrong> {
    let number_of = small(field(row, 0))?;
    let kind = kind(field(row, 1))?;
    let due = number(field(row, 2))?;
    let placed = placed(field(row, 3))?;
    let stream = optional_small(field(row, 4))?;
    let committed = optional(field(row, 14))?;
    Ok(Row {
        call: 1,
        number: number_of,
        kind,
        due,
        placed,
        stream,
        ended: ended(alloc, row)?,
        committed,
    })
}

/// The rows of these words.
fn rows_of(alloc: Global, words: &str) -> Result<Vec<Row>, Wrong> {
    let mut rows = Vec::new(alloc);
    for word in words.split(' ') {
        if !word.is_empty() {
            rows.push(row(alloc, word)?).ok().ok_or(Wrong::NoMemory)?;
        }
    }
    Ok(rows)
}

/// Appends the first row at fault and its law, of a call of this plan and this throttling.
fn append_fault(policy: &str, tokens: &str, rows: &[Row], out: &mut Said) -> Result<(), Wrong> {
    let limit = MessageLimit::new(MessageLimit::LARGEST).ok_or(Wrong::Form)?;
    let chosen = Chosen {
        wait: None,
        timeout: None,
        request: limit,
        response: limit,
        plan: plan(policy)?,
        throttle: throttle(tokens)?,
    };
    match check_rows(&chosen, rows) {
        Ok(()) => out.text(b"ok"),
        Err(fault) => {
            out.number(fault.row);
            out.text(b" ");
            out.number(u64::from(fault.law));
        }
    }
    Ok(())
}

/// The first row at fault of a call, and its law; the plan and the throttling stand before the rows.
pub fn checked(alloc: Global, input: &str, out: &mut Said) -> Result<(), Wrong> {
    let (policy, rest) = input.split_once(' ').ok_or(Wrong::Form)?;
    let (tokens, words) = rest.split_once(' ').unwrap_or((rest, ""));
    let rows = rows_of(alloc, words)?;
    append_fault(policy, tokens, rows.as_slice(), out)
}
