// The cursors of a call's rows.
ghost use Rattle.std.specs.Prelude.{◌≡◌, ◌==◌, not, map, []};
ghost use Rattle.std.specs.List.{filter, find};
ghost use Rattle.attempt_buffer.specs.Cursors.{at_spot};

use crate::messages::Spot;

/// How far a row has sent the messages.
#[derive(Clone, Copy, Debug)]
pub struct Cursor {
    pub row: u64,
    pub spot: Spot,
}

impl Cursor {
    /// The cursor at another spot, where it is this row's.
    fn moved(self, row: u64, spot: Spot) -> Cursor
        ensures { result ≡ at_spot row spot self }
    {
        if self.row == row {
            Cursor { row, spot }
        } else {
            self
        }
    }
}

/// The row to which a call is committed. Once it closed, its spot says what it had sent.
#[derive(Clone, Copy, Debug)]
pub struct Committed {
    pub cursor: Cursor,
    pub is_open: bool,
}

/// The cursor of a row.
pub fn find_cursor(cursors: &[Cursor], row: u64) -> Option<Cursor>
    ensures { result ≡ find (λ c. c.row == row) cursors.now }
{
    for cursor in cursors {
        if cursor.row == row {
            return Some(*cursor);
        }
    }
    None
}

/// Moves a row's cursor.
pub fn move_cursor(cursors: &mut [Cursor], row: u64, spot: Spot)
    ensures { cursors.new ≡ map (at_spot row spot) cursors.old }
{
    for place in 0..cursors.len() {
        cursors[place] = cursors[place].moved(row, spot);
    }
}

/// Takes every cursor out.
pub fn close_all(cursors: &mut Vec<Cursor>)
    ensures { cursors.new.items ≡ [] }
{
    cursors.clear();
}

/// Takes a row's cursor out.
pub fn remove_cursor(cursors: &mut Vec<Cursor>, row: u64)
    ensures { cursors.new.items ≡ filter (λ c. not (c.row == row)) cursors.old.items }
{
    cursors.retain(|cursor| cursor.row != row);
}
