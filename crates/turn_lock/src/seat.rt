// A thread's handle of a lock.
use crate::chronicle::Chronicle;
use crate::rule::View;
use std::marker::Model;

/// A handle of one lock. Contracts see which lock it is of, what it has seen of the history, its own entries with
/// their places, its parts of the 2^32 of the first handle, and the holders that its claims found.
#[derive(Drop)]
pub struct Seat<S: Chronicle> {
    pub(crate) inner: atomic_table::Seat<Option<S>, View<S::Entry>>,
    pub(crate) number: u64,
}

impl<S: Chronicle> Model for Seat<S> {
    ghost use Rattle.std.specs.Prelude.{◌≡◌, false, [], ◌<◌};
    ghost use Rattle.turn_lock.specs.History.{SeatSeen};

    ghost Value = { SeatSeen S.Entry };

    ghost view = { λ s. record {
      lock = record { table = s.inner.table_id; origin = s.inner.me.0.origin };
      seen = s.inner.me.0.seen;
      own = s.inner.me.0.own;
      parts = s.inner.me.0.parts;
      found = s.inner.me.0.found;
    } };

    ghost invariant = { λ s. (s.inner.me.1 ≡ []) × (s.inner.me.0.turn ≡ false) × (s.inner.me.0.reported ≡ []) × (s.inner.me.0.number ≡ s.number) × (0 < s.number) × (0 < s.inner.me.0.parts) };
}
