// The rows of turns: what a turn answers and posts.
use crate::connection::Connected;
use crate::words::{say_entries, say_turn};
use relay_front::{RelayTurn, relay_close, relay_turn};
use std::alloc::Global;
use table_rows::{Said, Wrong, bytes_of_hex};

/// What was answered, and the entries since this was said last.
pub fn say_came(at: &mut Connected, turn: RelayTurn, out: &mut Said) -> Result<(), Wrong> {
    say_turn(out, turn)?;
    let entries = at.channel.entries();
    say_entries(out, entries.get(at.seen..).ok_or(Wrong::Form)?);
    at.seen = entries.len();
    Ok(())
}

/// One turn with these bytes.
pub fn turn(alloc: Global, at: &mut Connected, input: &str, out: &mut Said) -> Result<(), Wrong> {
    let bytes = bytes_of_hex(alloc, input)?;
    let turn = relay_turn(&mut at.channel, &mut at.core, bytes.as_slice());
    say_came(at, turn, out)
}

/// The calls are given up.
pub fn close(at: &mut Connected, out: &mut Said) -> Result<(), Wrong> {
    let turn = relay_close(&mut at.channel, &mut at.core);
    say_came(at, turn, out)
}
