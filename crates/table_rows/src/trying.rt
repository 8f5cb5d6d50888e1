// Tries each row of standard input.
use crate::said::Said;
use crate::text::{Wrong, bytes_of};
use std::alloc::Global;
use std::io;

/// What public calls answer to the rows of a table.
pub trait Answers {
    /// Appends the answer to an input of this kind. A later row of a kind may go on from an earlier one.
    fn answer(
        &mut self,
        alloc: Global,
        kind: &str,
        input: &str,
        out: &mut Said,
    ) -> Result<(), Wrong>;
}

/// Whether a row is answered as it wants.
fn is_answered<A: Answers>(answers: &mut A, alloc: Global, row: &str) -> Result<bool, Wrong> {
    let (given, want) = row.split_once(" =>").ok_or(Wrong::Form)?;
    let (kind, input) = given.split_once(' ').ok_or(Wrong::Form)?;
    let mut out = Said::new(alloc);
    answers.answer(alloc, kind, input, &mut out)?;
    let want = bytes_of(alloc, want.strip_prefix(' ').unwrap_or(want))?;
    Ok(out.is(want.as_slice()))
}

/// The beginning of a row, for a message.
fn beginning(row: &str) -> &str {
    row.get(..160).unwrap_or(row)
}

/// Tries each row, prints each one that fails, and at the end how many passed and how many failed.
pub fn run<R: Input + Print + AllocGlobal, A: Answers>(rt: &R, answers: &mut A) -> io::Result<()> {
    let mut passed = 0u64;
    let mut failed = 0u64;
    for line in rt.lines(rt.alloc()) {
        let line = line?;
        let row = line.as_str();
        if !row.is_empty() && !row.starts_with('#') {
            if is_answered(answers, rt.alloc(), row) == Ok(true) {
                passed = passed.saturating_add(1);
            } else {
                failed = failed.saturating_add(1);
                println!(rt; "failed: {}", beginning(row))?;
            }
        }
    }
    println!(rt; "{passed} passed, {failed} failed")
}
