// What one turn of a relay's connection comes to.
ghost use Rattle.std.specs.Prelude.{◌≡◌};
ghost use Rattle.relay_front.specs.Turns.{answer_of, is_going, turn_of};

use grpc_base::PostError;
use relay_calls::CallsFault;

/// What one turn of a relay's connection came to.
#[derive(Clone, Copy, Debug, PartialEq, Eq)]
pub enum RelayTurn {
    /// It goes on.
    Going,
    /// The client's bytes broke the protocol, with this error code of HTTP/2.
    Broken { code: u32 },
    /// The channel was shut down: a Begin was refused with this number.
    Gone { refusal: u8 },
    /// A post failed.
    Failed(PostError),
    /// Out of memory.
    NoMemory,
}

impl RelayTurn {
    /// Whether it goes on.
    pub(crate) fn is_going(&self) -> bool
        ensures { result ≡ is_going self.now }
    {
        matches!(self, RelayTurn::Going)
    }
}

/// The answer of a turn that this fault ended.
pub(crate) fn turn_of(fault: CallsFault) -> RelayTurn
    ensures { result ≡ turn_of fault }
{
    match fault {
        CallsFault::Gone { refusal } => RelayTurn::Gone { refusal },
        CallsFault::Failed(error) => RelayTurn::Failed(error),
        CallsFault::NoMemory => RelayTurn::NoMemory,
    }
}

/// The answer of a turn.
pub(crate) fn answer_of(came: Result<(), CallsFault>) -> RelayTurn
    ensures { result ≡ answer_of came }
{
    match came {
        Ok(()) => RelayTurn::Going,
        Err(fault) => turn_of(fault),
    }
}
