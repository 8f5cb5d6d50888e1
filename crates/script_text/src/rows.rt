// Rows of the ledger as lines.
ghost use Rattle.std.specs.Prelude.{◌≡◌, ◌++◌, ◌∷◌, [], OnOk};
ghost use Rattle.script_text.specs.Output.{spaced};
ghost use Rattle.script_text.specs.Spelling.{number_or_dash};
ghost use Rattle.script_text.specs.Report.{kind_text, row_cause_text, pushback_text, placed_words, ended_words, drawn_words, row_text};

use attempt_ledger::{Placed, Row, RowCause, RowEnd, RowKind};
use grpc_base::{NoMemory, Pushback};
use script_fields::{append_number, append_number_or_dash, append_word};

/// Appends the line of a row.
pub fn append_row(out: &mut Vec<u8>, row: &Row) -> Result<(), NoMemory>
    ensures { OnOk result (out.new.items ≡ out.old.items ++ row_text row.now ++ 10 ∷ []) }
{
    out.extend_from_slice(b"row")?;
    append_number(out, row.call as u64)?;
    append_number(out, row.number as u64)?;
    append_word(out, kind_bytes(row.kind))?;
    append_number(out, row.due)?;
    append_placed(out, &row.placed)?;
    append_small(out, row.stream)?;
    append_ended(out, &row.ended)?;
    append_number_or_dash(out, row.committed)?;
    append_drawn(out, &row.ended)?;
    out.push(b'\n')?;
    Ok(())
}

/// Why an attempt was made, as a word.
fn kind_bytes(kind: RowKind) -> &'static [u8]
    ensures { result.now ≡ kind_text kind }
{
    match kind {
        RowKind::First => b"first",
        RowKind::Retry => b"retry",
        RowKind::Hedge => b"hedge",
        RowKind::Transparent => b"transparent",
    }
}

/// Why an attempt ended, as a word.
fn row_cause_bytes(cause: RowCause) -> &'static [u8]
    ensures { result.now ≡ row_cause_text cause }
{
    match cause {
        RowCause::Status => b"status",
        RowCause::Http => b"http",
        RowCause::Reset => b"reset",
        RowCause::Framing => b"framing",
        RowCause::Lost => b"lost",
        RowCause::Goaway => b"goaway",
        RowCause::Unsent => b"unsent",
        RowCause::Pick => b"pick",
        RowCause::Cut => b"cut",
    }
}

/// Appends a number of 32 bits after a space, or a dash.
fn append_small(out: &mut Vec<u8>, number: Option<u32>) -> Result<(), NoMemory>
    ensures { OnOk result (out.new.items ≡ out.old.items ++ 32 ∷ number_or_dash number) }
{
    match number {
        Some(number) => append_number(out, number as u64),
        None => append_word(out, b"-"),
    }
}

/// Appends where an attempt was placed.
fn append_placed(out: &mut Vec<u8>, placed: &Option<Placed>) -> Result<(), NoMemory>
    ensures { OnOk result (out.new.items ≡ out.old.items ++ spaced (placed_words placed.now)) }
{
    match placed {
        Some(placed) => {
            append_number(out, placed.entry)?;
            append_number(out, placed.generation as u64)?;
            append_number(out, placed.sub as u64)?;
            append_number(out, placed.link as u64)
        }
        None => {
            out.extend_from_slice(b" - - - -")?;
            Ok(())
        }
    }
}

/// Appends how an attempt ended.
fn append_ended(out: &mut Vec<u8>, ended: &Option<RowEnd>) -> Result<(), NoMemory>
    ensures { OnOk result (out.new.items ≡ out.old.items ++ spaced (ended_words ended.now)) }
{
    match ended {
        Some(ended) => {
            append_number(out, ended.entry)?;
            append_number(out, ended.code.number() as u64)?;
            append_pushback(out, ended.pushback)?;
            append_number(out, ended.seen)?;
            append_word(out, row_cause_bytes(ended.cause))
        }
        None => {
            out.extend_from_slice(b" - - - - -")?;
            Ok(())
        }
    }
}

/// Appends the tokens after the end of an attempt, and the random word of the wait before its retry.
fn append_drawn(out: &mut Vec<u8>, ended: &Option<RowEnd>) -> Result<(), NoMemory>
    ensures { OnOk result (out.new.items ≡ out.old.items ++ spaced (drawn_words ended.now)) }
{
    match ended {
        Some(ended) => {
            append_small(out, ended.tokens)?;
            append_number_or_dash(out, ended.word)
        }
        None => {
            out.extend_from_slice(b" - -")?;
            Ok(())
        }
    }
}

/// Appends what a server asks of the next retry.
fn append_pushback(out: &mut Vec<u8>, pushback: Pushback) -> Result<(), NoMemory>
    ensures { OnOk result (out.new.items ≡ out.old.items ++ 32 ∷ pushback_text pushback) }
{
    match pushback {
        Pushback::None => append_word(out, b"-"),
        Pushback::After(millis) => append_number(out, millis as u64),
        Pushback::Stop => append_word(out, b"stop"),
    }
}
