// Why no more is posted.
use grpc_base::{NoMemory, PostError};

/// Why no more is posted for the calls of a connection.
#[derive(Clone, Copy, Debug, PartialEq, Eq)]
pub enum CallsFault {
    /// The channel was shut down: a Begin was refused with this number.
    Gone { refusal: u8 },
    /// A post failed.
    Failed(PostError),
    /// Out of memory.
    NoMemory,
}

impl From<NoMemory> for CallsFault {
    ghost use Rattle.std.specs.Prelude.{◌≡◌};
    ghost use Rattle.relay_calls.specs.declared.fault.CallsFault.TheVariants as fault;

    ghost from_gives = { λ _ e. e ≡ fault.NoMemory };

    fn from(_e: NoMemory) -> CallsFault {
        CallsFault::NoMemory
    }
}

impl From<PostError> for CallsFault {
    ghost use Rattle.std.specs.Prelude.{◌≡◌};
    ghost use Rattle.relay_calls.specs.declared.fault.CallsFault.TheVariants as fault;

    ghost from_gives = { λ error e. e ≡ fault.Failed error };

    fn from(error: PostError) -> CallsFault {
        CallsFault::Failed(error)
    }
}
