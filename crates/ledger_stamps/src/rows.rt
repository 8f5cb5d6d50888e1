// The stamps of rows.
ghost use Rattle.std.specs.Prelude.{◌≡◌, ◌<◌, ◌++◌, ◌∷◌, [], length, IfOk, OnOk, OnErr};
ghost use Rattle.ledger_stamps.specs.Steps.{changed, changed_at, committed_row, ended_row, placed_row, streamed_row};

use crate::place::index_of;
use attempt_ledger::{Placed, Row, RowEnd};
use grpc_base::{Items, NoMemory};
use std::alloc::Global;
use std::mem;

/// Adds a row, and reports its place. On out of memory the rows are as before.
pub fn add_row(rows: &mut Items<Row>, row: Row) -> Result<u64, NoMemory>
    ensures place { IfOk result (λ place. place ≡ length rows.new) }
    ensures ok { OnOk result (rows.new ≡ rows.old ++ row ∷ []) }
    ensures err { OnErr result (rows.new ≡ rows.old) }
{
    rows.push(row)?;
    Ok(rows.len() as u64)
}

/// The row got its link.
pub fn place_row(alloc: Global, rows: &mut Items<Row>, place: u64, placed: Placed)
    ensures { rows.new ≡ changed_at (placed_row placed) rows.old place }
{
    let mut list = mem::replace(rows, Items::new(alloc)).into_vec();
    if let Some(index) = index_of(place, list.len()) {
        placed_at(&mut list, index, placed);
    }
    *rows = Items::of_vec(list);
}

/// The row got its stream.
pub fn give_stream(alloc: Global, rows: &mut Items<Row>, place: u64, stream: u32)
    ensures { rows.new ≡ changed_at (streamed_row stream) rows.old place }
{
    let mut list = mem::replace(rows, Items::new(alloc)).into_vec();
    if let Some(index) = index_of(place, list.len()) {
        stream_at(&mut list, index, stream);
    }
    *rows = Items::of_vec(list);
}

/// The row ended.
pub fn end_row(alloc: Global, rows: &mut Items<Row>, place: u64, end: RowEnd)
    ensures { rows.new ≡ changed_at (ended_row end) rows.old place }
{
    let mut list = mem::replace(rows, Items::new(alloc)).into_vec();
    if let Some(index) = index_of(place, list.len()) {
        ended_at(&mut list, index, end);
    }
    *rows = Items::of_vec(list);
}

/// The call was committed to the row in this entry.
pub fn commit_row(alloc: Global, rows: &mut Items<Row>, place: u64, entry: u64)
    ensures { rows.new ≡ changed_at (committed_row entry) rows.old place }
{
    let mut list = mem::replace(rows, Items::new(alloc)).into_vec();
    if let Some(index) = index_of(place, list.len()) {
        committed_at(&mut list, index, entry);
    }
    *rows = Items::of_vec(list);
}

fn placed_at(rows: &mut Vec<Row>, index: usize, placed: Placed)
    requires { index < length rows.old.items }
    ensures { rows.new.items ≡ changed (placed_row placed) rows.old.items index }
{
    let chosen = &mut rows[index];
    stamp_placed(chosen, placed);
}

fn stamp_placed(row: &mut Row, placed: Placed)
    ensures { row.new ≡ placed_row placed row.old }
{
    if row.placed.is_none() {
        row.placed = Some(placed);
    }
}

fn stream_at(rows: &mut Vec<Row>, index: usize, stream: u32)
    requires { index < length rows.old.items }
    ensures { rows.new.items ≡ changed (streamed_row stream) rows.old.items index }
{
    let chosen = &mut rows[index];
    stamp_stream(chosen, stream);
}

fn stamp_stream(row: &mut Row, stream: u32)
    ensures { row.new ≡ streamed_row stream row.old }
{
    if row.stream.is_none() {
        row.stream = Some(stream);
    }
}

fn ended_at(rows: &mut Vec<Row>, index: usize, end: RowEnd)
    requires { index < length rows.old.items }
    ensures { rows.new.items ≡ changed (ended_row end) rows.old.items index }
{
    let chosen = &mut rows[index];
    stamp_ended(chosen, end);
}

fn stamp_ended(row: &mut Row, end: RowEnd)
    ensures { row.new ≡ ended_row end row.old }
{
    if row.ended.is_none() {
        row.ended = Some(end);
    }
}

fn committed_at(rows: &mut Vec<Row>, index: usize, entry: u64)
    requires { index < length rows.old.items }
    ensures { rows.new.items ≡ changed (committed_row entry) rows.old.items index }
{
    let chosen = &mut rows[index];
    stamp_committed(chosen, entry);
}

fn stamp_committed(row: &mut Row, entry: u64)
    ensures { row.new ≡ committed_row entry row.old }
{
    if row.committed.is_none() {
        row.committed = Some(entry);
    }
}
