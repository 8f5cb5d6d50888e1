// The law of transparent retries among the rows of a call.
ghost use Rattle.std.specs.Prelude.{◌≡◌, ◌↔◌, IsTrue, length};
ghost use Rattle.std.specs.List.{list_any};
ghost use Rattle.attempt_ledger.specs.Ends.{some_row};
ghost use Rattle.attempt_ledger.specs.TransparentRows.{KeepsTransparent, allows_follower, comes_before, follows, follows_end, has_number, inherits, is_by_peer, is_committed_at, is_committed_before, is_refused, is_retry_taken, is_taken_by, is_unsent, may_follow, must_follow, needs_follower, row_needs_follower};

use crate::ends::is_followed;
use crate::numbering::is_transparent;
use crate::{Row, RowCause, RowEnd};

/// Whether the row keeps the law of transparent retries among all rows of its call, between these.
pub fn keeps_transparent(rows: &[Row], before: &[Row], row: &Row, after: &[Row]) -> bool
    ensures { IsTrue result ↔ KeepsTransparent rows.now before.now row.now after.now }
{
    if is_transparent(row.kind) && !follows_some(rows, before, row) {
        return false;
    }
    !row_needs_follower(rows, before.len(), row) || is_followed(row, after)
}

/// Whether a transparent row follows one before it in the right way.
fn follows_some(rows: &[Row], before: &[Row], follower: &Row) -> bool
    ensures { result ≡ some_row (follows rows.now follower.now) before.now }
{
    for (place, row) in before.iter().enumerate() {
        if follows(rows, follower, place, row, &before[place + 1..]) {
            return true;
        }
    }
    false
}

/// Whether a transparent row follows this one in the right way, with these between them.
fn follows(rows: &[Row], follower: &Row, place: usize, row: &Row, between: &[Row]) -> bool
    ensures { result ≡ follows rows.now follower.now place row.now between.now }
{
    has_number(follower.number, row)
        && !some_has_number(follower.number, between)
        && follows_end(rows, follower, place, row)
}

fn some_has_number(number: u32, rows: &[Row]) -> bool
    ensures { result ≡ list_any (has_number number) rows.now }
{
    rows.iter().any(|row| has_number(number, row))
}

fn has_number(number: u32, row: &Row) -> bool
    ensures { result ≡ has_number number row.now }
{
    row.number == number
}

/// Whether a transparent row is due at the end of this row, that end allows it, and it inherits a commitment.
fn follows_end(rows: &[Row], follower: &Row, place: usize, row: &Row) -> bool
    ensures { result ≡ follows_end rows.now follower.now place row.now }
{
    match &row.ended {
        Some(end) => {
            allows_follower(rows, place, end)
                && follower.due == end.moment.nanos()
                && inherits(follower, row, end)
        }
        None => false,
    }
}

/// Whether a transparent row may follow this end.
fn allows_follower(rows: &[Row], place: usize, end: &RowEnd) -> bool
    ensures { result ≡ allows_follower rows.now place end.now }
{
    is_unsent(end.cause) || (is_refused(end) && may_follow(rows, end, place))
}

/// Whether a row that follows a committed one is committed at its end.
fn inherits(follower: &Row, row: &Row, end: &RowEnd) -> bool
    ensures { result ≡ inherits follower.now row.now end.now }
{
    row.committed.is_none() || is_committed_at(end.entry, follower)
}

/// Whether a transparent row has to follow this one.
fn row_needs_follower(rows: &[Row], place: usize, row: &Row) -> bool
    ensures { result ≡ row_needs_follower rows.now place row.now }
{
    match &row.ended {
        Some(end) => needs_follower(rows, place, end),
        None => false,
    }
}

fn needs_follower(rows: &[Row], place: usize, end: &RowEnd) -> bool
    ensures { result ≡ needs_follower rows.now place end.now }
{
    is_unsent(end.cause) || (is_refused(end) && must_follow(rows, end, place))
}

/// Whether the request never left the client.
fn is_unsent(cause: RowCause) -> bool
    ensures { result ≡ is_unsent cause }
{
    matches!(cause, RowCause::Unsent)
}

/// Whether the peer ended the stream without a response.
fn is_by_peer(cause: RowCause) -> bool
    ensures { result ≡ is_by_peer cause }
{
    matches!(cause, RowCause::Reset | RowCause::Goaway)
}

/// Whether the peer refused the request unseen.
fn is_refused(end: &RowEnd) -> bool
    ensures { result ≡ is_refused end.now }
{
    end.unseen && is_by_peer(end.cause)
}

/// Whether a transparent row may follow the refusal at this place: the call isn't committed, and it is the first.
fn may_follow(rows: &[Row], end: &RowEnd, place: usize) -> bool
    ensures { result ≡ may_follow rows.now end.now place }
{
    !is_retry_taken(rows, end, place) && !some_committed_before(end.entry, rows)
}

/// Whether it has to: it may, and no commitment stands in the same entry.
fn must_follow(rows: &[Row], end: &RowEnd, place: usize) -> bool
    ensures { result ≡ must_follow rows.now end.now place }
{
    may_follow(rows, end, place) && !some_committed_at(end.entry, rows)
}

fn some_committed_before(entry: u64, rows: &[Row]) -> bool
    ensures { result ≡ list_any (is_committed_before entry) rows.now }
{
    rows.iter().any(|row| is_committed_before(entry, row))
}

fn is_committed_before(entry: u64, row: &Row) -> bool
    ensures { result ≡ is_committed_before entry row.now }
{
    match row.committed {
        Some(committed) => committed < entry,
        None => false,
    }
}

fn some_committed_at(entry: u64, rows: &[Row]) -> bool
    ensures { result ≡ list_any (is_committed_at entry) rows.now }
{
    rows.iter().any(|row| is_committed_at(entry, row))
}

fn is_committed_at(entry: u64, row: &Row) -> bool
    ensures { result ≡ is_committed_at entry row.now }
{
    match row.committed {
        Some(committed) => committed == entry,
        None => false,
    }
}

/// Whether the call's one retry after an end by the peer was made before this end.
fn is_retry_taken(rows: &[Row], end: &RowEnd, place: usize) -> bool
    ensures { result ≡ is_retry_taken rows.now end.now place }
{
    for (other_place, other) in rows.iter().enumerate() {
        if is_taken_by(end, place, other_place, other, &rows[other_place + 1..]) {
            return true;
        }
    }
    false
}

fn is_taken_by(end: &RowEnd, place: usize, other_place: usize, other: &Row, after: &[Row]) -> bool
    ensures { result ≡ is_taken_by end.now place other_place other.now after.now }
{
    match &other.ended {
        Some(other_end) => {
            is_by_peer(other_end.cause)
                && comes_before(other_end, other_place, end, place)
                && is_followed(other, after)
        }
        None => false,
    }
}

/// Whether an end comes before another: by its entry, then by the bytes of its link, then by the places of the rows.
fn comes_before(end: &RowEnd, place: usize, other: &RowEnd, other_place: usize) -> bool
    ensures { result ≡ comes_before end.now place other.now other_place }
{
    if end.entry != other.entry {
        return end.entry < other.entry;
    }
    if end.seen != other.seen {
        return end.seen < other.seen;
    }
    place < other_place
}
