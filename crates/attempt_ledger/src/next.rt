// What follows the end of an attempt.

/// Whether a further attempt follows the end of one.
#[derive(Clone, Copy, Debug, PartialEq, Eq)]
pub enum Next {
    /// A further attempt is due at this moment, in nanoseconds.
    Again { due: u64 },
    /// No further attempt is due.
    Final,
}
