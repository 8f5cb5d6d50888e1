// How the workers of a live run ended.
ghost use Rattle.std.specs.Prelude.{◌≡◌};
ghost use Rattle.live_run.specs.Outcomes.{graver, outcome_of};

use grpc_base::PostError;

/// How workers ended.
#[derive(Clone, Copy, Debug, PartialEq, Eq)]
pub enum Outcome {
    /// Each did all that it had to do.
    Whole,
    /// The session had no room for an event of one.
    Full,
    /// One found no memory.
    NoMemory,
}

impl Outcome {
    /// How a worker ended that was given this error.
    pub fn of_error(error: PostError) -> Outcome
        ensures { result ≡ outcome_of error }
    {
        match error {
            PostError::NoMemory { spent: _ } => Outcome::NoMemory,
            PostError::SessionFull {
                entries: _,
                octets: _,
            } => Outcome::Full,
        }
    }

    /// How both ended: want of memory stands before a full session.
    pub fn with(self, other: Outcome) -> Outcome
        ensures { result ≡ graver self other }
    {
        match self {
            Outcome::NoMemory => Outcome::NoMemory,
            Outcome::Full => match other {
                Outcome::NoMemory => Outcome::NoMemory,
                _ => Outcome::Full,
            },
            Outcome::Whole => other,
        }
    }
}
