// What is under a lock, and what is done in a turn.
ghost use Rattle.std.specs.Prelude.{◌≡◌, ℕ, ◌<◌, ◌≤◌, List, length};
ghost use Rattle.turn_lock.specs.History.{StartsWith};

/// A state that keeps a history. Its meaning is the list of entries.
pub trait Chronicle: Drop {
    type Entry;

    ghost entries: { Self → List Self.Entry };

    /// What a reader of the `front` learns of the history besides its length.
    ghost mark_of: { List Self.Entry → ℕ };

    /// What of the state no turn changes.
    ghost origin: { Self → List ℕ };

    /// How many entries there are, at most 2^60.
    fn count(&self) -> u64
        ensures count { result ≡ length (entries self.now) }
        ensures limit { result ≤ 1152921504606846976 };

    /// The mark of the history, at most 7.
    fn mark(&self) -> u8
        ensures mark { result ≡ mark_of (entries self.now) }
        ensures small { result < 8 };
}

/// What is done in one turn. Its meaning is a relation between the job and the state before, the answer, and both after.
pub trait Job<S: Chronicle> {
    type Answer;

    ghost runs: { Self → S → Self.Answer → Self → S → Type 0 };

    /// Runs on the state, and appends entries at most. The state's origin stays.
    fn run(&mut self, state: &mut S) -> Self::Answer
        ensures runs { runs self.old state.old result self.new state.new }
        ensures appends { StartsWith (S.entries state.new) (S.entries state.old) }
        ensures kept { S.origin state.new ≡ S.origin state.old };
}
