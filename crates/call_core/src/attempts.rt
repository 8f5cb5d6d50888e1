// What a call knows of its attempts.
ghost use Rattle.std.specs.Prelude.{◌≡◌};
ghost use Rattle.call_core.specs.Parts.{names, no_attempts};

use grpc_base::Moment;

/// What a call knows of its attempts. Rows are named by their places, from 1.
#[derive(Clone, Copy, Debug, PartialEq, Eq)]
pub struct Attempts {
    /// How many attempts were made; a transparent retry is none.
    pub sent: u32,
    /// The row of the newest of them.
    pub newest: Option<u64>,
    /// The moment at which that row was placed.
    pub placed: Option<Moment>,
    /// The moment of the next attempt that the configuration or an end asks for, in nanoseconds.
    pub forced: Option<u64>,
    /// Whether no further attempt is due: before the configuration, after the server or the tokens forbade it, and once the call
    /// is committed or ended.
    pub stopped: bool,
    /// The number of the last attempt after which the server asked for a delay; 0 before.
    pub delayed: u32,
    /// The row of the last end that counts.
    pub last: Option<u64>,
    /// Whether a transparent retry followed a refusal by the server; one does in a call.
    pub is_refusal_followed: bool,
    /// The row to which the call is committed.
    pub committed: Option<u64>,
}

impl Attempts {
    /// No attempt, before the configuration.
    pub fn none() -> Attempts
        ensures { result ≡ no_attempts }
    {
        Attempts {
            sent: 0,
            newest: None,
            placed: None,
            forced: None,
            stopped: true,
            delayed: 0,
            last: None,
            is_refusal_followed: false,
            committed: None,
        }
    }
}

/// Whether a row is this one.
pub fn names(place: u64, row: Option<u64>) -> bool
    ensures { result ≡ names place row }
{
    row.is_some_and(|row| row == place)
}
