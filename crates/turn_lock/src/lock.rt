// The lock, and what its calls answer.
use crate::chronicle::Chronicle;
use crate::rule::{InTurns, View};
use crate::seat::Seat;
use atomic_table::Table;
use std::alloc::Global;
use std::marker::Model;
use std::snapshot::Snapshot;

/// A state that handles take turns at. Contracts see which lock it is, and what of the state no turn changes.
#[derive(Drop)]
pub struct TurnLock<S: Chronicle> {
    pub(crate) table: Table<Option<S>, View<S::Entry>, Snapshot<S>, InTurns<S>, Global>,
}

impl<S: Chronicle> Model for TurnLock<S> {
    ghost use Rattle.std.specs.Prelude.{◌≡◌};
    ghost use Rattle.turn_lock.specs.History.{LockId};

    ghost Value = { LockId };

    ghost view = { λ l. record { table = l.table.shared.table_id; origin = S.origin l.table.shared.key.value } };

    ghost invariant = { λ l. (l.table.shared.table_id.words ≡ 3) × (l.table.shared.table_id.slots ≡ 1) };
}

/// A beginning of the history: its length, and its mark.
#[derive(Clone, Copy, Debug, PartialEq, Eq)]
pub struct Front {
    pub count: u64,
    pub mark: u8,
}

/// Another handle has the turn, by this number, which is not 0.
#[derive(Clone, Copy, Debug, PartialEq, Eq)]
pub struct Busy {
    pub holder: u64,
}

/// What `close` gives back where another handle has the turn.
#[derive(Drop)]
pub struct Held<S: Chronicle> {
    pub holder: u64,
    pub lock: TurnLock<S>,
    pub seat: Seat<S>,
}
