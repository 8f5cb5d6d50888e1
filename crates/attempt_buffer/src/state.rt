// The parts of a buffer, between which a step is made.
ghost use Rattle.std.specs.Prelude.{◌≡◌, ◌≤◌, ◌==◌, ◌&&◌, IfSome, length};
ghost use Rattle.std.specs.List.{concat};
ghost use Rattle.std.specs.Option.{option_map};
ghost use Rattle.attempt_buffer.specs.Buffers.{committed_at, is_committed_row, taken_by, taken_to};
ghost use Rattle.attempt_buffer.specs.Cursors.{IsAt, IsSound, committed_spot, seen_committed, seen_state, shut_code, spot_from};
ghost use Rattle.attempt_buffer.specs.Spots.{MessagesAreSized};

use crate::cursors::{Committed, Cursor, close_all, find_cursor, move_cursor};
use crate::messages::{Messages, Spot};

/// Messages, the cursors of the open rows but for the committed one, the committed row, and whether no message was given up.
#[derive(Drop)]
pub struct State {
    pub messages: Messages,
    pub cursors: Vec<Cursor>,
    pub committed: Option<Committed>,
    pub is_whole: bool,
}

/// Where the committed row stands, if it is this one and open.
fn committed_spot(committed: Option<Committed>, row: u64) -> Option<Spot>
    ensures { result ≡ committed_spot row committed }
{
    match committed {
        Some(committed) => {
            if committed.is_open && committed.cursor.row == row {
                Some(committed.cursor.spot)
            } else {
                None
            }
        }
        None => None,
    }
}

/// The committed row, closed.
fn shut(committed: Option<Committed>) -> Option<Committed>
    ensures { result ≡ option_map shut_code committed }
{
    match committed {
        Some(committed) => Some(Committed {
            cursor: committed.cursor,
            is_open: false,
        }),
        None => None,
    }
}

/// Whether no message is given up, where so many more are.
fn is_still_whole(is_whole: bool, passed: usize) -> bool
    ensures { result ≡ (is_whole && (passed == 0)) }
{
    is_whole && passed == 0
}

impl State {
    /// Whether the call is committed to this row, and the row is open.
    pub fn is_committed_row(&self, row: u64) -> bool
        ensures { result ≡ is_committed_row row (option_map seen_committed self.now.committed) }
    {
        match self.committed {
            Some(committed) => committed.is_open && committed.cursor.row == row,
            None => false,
        }
    }

    fn find_spot(&self, row: u64) -> Option<Spot>
        ensures { result ≡ spot_from row self.now.cursors.items self.now.committed }
    {
        match committed_spot(self.committed, row) {
            Some(spot) => Some(spot),
            None => match find_cursor(&self.cursors, row) {
                Some(cursor) => Some(cursor.spot),
                None => None,
            },
        }
    }

    /// Where an open row stands.
    pub fn spot_of(&self, row: u64) -> Option<Spot>
        requires { IsSound self.now.messages self.now.cursors.items self.now.committed }
        ensures taken { option_map (λ s. s.taken) result ≡ taken_by row (seen_state self.now) }
        ensures spot { IfSome result (IsAt self.now.messages) }
    {
        self.find_spot(row)
    }

    /// Closes the committed row.
    pub fn shut(&mut self)
        ensures { self.new ≡ record self.old { committed = option_map shut_code self.old.committed } }
    {
        self.committed = shut(self.committed);
    }

    /// Commits the call to a row at this spot, gives up what it has passed, and closes every other row.
    pub fn commit_at(&mut self, row: u64, spot: Spot)
        requires sized { MessagesAreSized self.old.messages }
        requires at { IsAt self.old.messages spot }
        requires fits { length (concat self.old.messages) ≤ 8454153 }
        ensures seen { seen_state self.new ≡ committed_at row spot.taken (seen_state self.old) }
        ensures sound { IsSound self.new.messages self.new.cursors.items self.new.committed }
    {
        self.messages.give_up(spot.message);
        close_all(&mut self.cursors);
        self.committed = Some(Committed {
            cursor: Cursor {
                row,
                spot: Spot {
                    message: 0,
                    offset: spot.offset,
                    taken: spot.offset,
                },
            },
            is_open: true,
        });
        self.is_whole = is_still_whole(self.is_whole, spot.message);
    }

    /// An open row stands at this spot.
    pub fn stand(&mut self, row: u64, spot: Spot)
        requires sound { IsSound self.old.messages self.old.cursors.items self.old.committed }
        requires at { IsAt self.old.messages spot }
        ensures seen { seen_state self.new ≡ taken_to row spot.taken (seen_state self.old) }
        ensures sound { IsSound self.new.messages self.new.cursors.items self.new.committed }
    {
        if self.is_committed_row(row) {
            self.commit_at(row, spot);
        } else {
            move_cursor(&mut self.cursors, row, spot);
        }
    }
}
