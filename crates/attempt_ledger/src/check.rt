// The laws that the rows of one call keep among themselves.
ghost use Rattle.std.specs.Prelude.{◌≡◌, ◌⊎◌, ◌↔◌, ◌<◌, ◌≤◌, ◌+◌, ℕ, IfNone, IfSome, IsOk, length, take, drop};
ghost use Rattle.attempt_ledger.specs.declared.check.RowFault.{RowFault};
ghost use Rattle.attempt_ledger.specs.Faults.{Breaks, BreaksAt, IsFault, IsLowestBroken};
ghost use Rattle.attempt_ledger.specs.Numbering.{KeepsNumbering, attempts_of};

use crate::Row;
use crate::hedging::keeps_hedging;
use crate::numbering::{is_transparent, keeps_numbering};
use crate::retries::keeps_retries;
use crate::throttling::keeps_throttling;
use crate::transparent::keeps_transparent;
use grpc_base::Chosen;

/// The first row at which the rows of a call break a law, and the lowest law that they break there.
#[derive(Clone, Copy, Debug, PartialEq, Eq)]
pub struct RowFault {
    /// The place of the row among the call's rows, from 1.
    pub row: u64,
    /// The law's number: 8 for the numbering of attempts, 9 for retries, 10 for hedging, 11 for transparent retries, 12 for
    /// throttling.
    pub law: u8,
}

impl RowFault {
    /// The number of the law of numbering.
    pub const NUMBERING: u8 = 8;

    /// The number of the law of retries.
    pub const RETRIES: u8 = 9;

    /// The number of the law of hedging.
    pub const HEDGING: u8 = 10;

    /// The number of the law of transparent retries.
    pub const TRANSPARENT: u8 = 11;

    /// The number of the law of throttling.
    pub const THROTTLING: u8 = 12;
}

/// Whether the rows of one call, in the order of their making, keep the laws of attempts under its configuration, as far
/// as the rows of one call show them (gRFC A6). An end counts unless the client gave the attempt up or a transparent row
/// follows it.
///
/// - Numbering: the rows that aren't transparent are numbered from 1 in order, up to the plan's maximum, or 1 without a
///   plan. The first is a First, the others are retries or hedges by the plan. Each row is due at or before its placing,
///   and placed at or before its end. It has a stream only where it is placed; and where it ended without a placing, a
///   failed pick ended it, with the code UNAVAILABLE.
/// - Retries: an end can be tried again where it counts, its code is one of the policy's, the server doesn't forbid it,
///   more than half of the tokens are left, and one more attempt is allowed. Each retry has such an end of the number
///   before it, to whose row the call wasn't committed by the entry of that end, and is due when the server's pushback asks,
///   or else after a wait. An end has a random word just where such a wait is drawn. An end that counts and can't be
///   tried again commits its row.
/// - Hedging: each hedge is due the delay after a row before it was placed, when such a row ended, or when its pushback
///   asks. No end before that moment forbids it, or has another code than the policy's, unless a transparent row follows.
/// - Transparent retries: each follows the last row of its number before it, is due at its end, and is committed then if
///   that row was. An end is followed where the request was never sent, and once a call where the peer refused it unseen
///   while the call wasn't committed. In the entry of a commitment both are allowed.
/// - Throttling: a count of tokens is at most the start, after a failure at most the start less a token, and after a
///   success at least the ratio, or the start where that is less.
///
/// The fault has the first row that breaks a law, and the lowest law that it breaks; a law is broken at a row of the whole
/// list. Rows are compared with each other, so the time grows with the square of their number for each attempt.
pub fn check_rows(chosen: &Chosen, rows: &[Row]) -> Result<(), RowFault>
    ensures ok { IsOk result ↔ ((law : ℕ) → (place : ℕ) → BreaksAt chosen.now law rows.now place → ⊥) }
    ensures fault { (fault : RowFault) → (result ≡ Err fault) ↔ IsFault chosen.now rows.now fault }
{
    match first_fault(chosen, rows) {
        Some(fault) => Err(fault),
        None => Ok(()),
    }
}

/// The fault of these rows. None where they break no law.
fn first_fault(chosen: &Chosen, rows: &[Row]) -> Option<RowFault>
    ensures some { IfSome result (IsFault chosen.now rows.now) }
    ensures none { IfNone result ((law : ℕ) → (place : ℕ) → BreaksAt chosen.now law rows.now place → ⊥) }
{
    let mut count = 0;
    for (place, row) in rows.iter().enumerate() {
        let before = &rows[..place];
        let after = &rows[place + 1..];
        if let Some(law) = lowest_broken(chosen, rows, count, before, row, after) {
            return Some(RowFault {
                row: place as u64 + 1,
                law,
            });
        }
        if !is_transparent(row.kind) {
            count = row.number;
        }
    }
    None
}

/// The lowest law that a row breaks between these, of which so many before it are attempts.
fn lowest_broken(
    chosen: &Chosen,
    rows: &[Row],
    count: u32,
    before: &[Row],
    row: &Row,
    after: &[Row],
) -> Option<u8>
    requires { count ≡ length (attempts_of before.now) }
    ensures some { IfSome result (IsLowestBroken chosen.now rows.now before.now row.now after.now) }
    ensures none { IfNone result ((law : ℕ) → Breaks chosen.now rows.now law before.now row.now after.now → ⊥) }
    ensures numbered { IfNone result (KeepsNumbering chosen.now.plan count row.now) }
{
    if !keeps_numbering(&chosen.plan, count, row) {
        return Some(RowFault::NUMBERING);
    }
    if !keeps_retries(chosen, rows, row, after) {
        return Some(RowFault::RETRIES);
    }
    if !keeps_hedging(&chosen.plan, rows, before, row) {
        return Some(RowFault::HEDGING);
    }
    if !keeps_transparent(rows, before, row, after) {
        return Some(RowFault::TRANSPARENT);
    }
    if !keeps_throttling(chosen, row, after) {
        return Some(RowFault::THROTTLING);
    }
    None
}
