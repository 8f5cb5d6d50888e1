// How far a script was run.

/// How far a script was run.
#[derive(Clone, Copy, Debug, PartialEq, Eq)]
pub enum Ran {
    /// To its end.
    Whole,
    /// Up to an event for which the journal has no room.
    Full,
}
