// Why a call has no answer.
use crate::status::Status;
use grpc_base::{NoMemory, PostError, Refusal};
use thiserror::Error;

/// Why a call, or a step of one, has no answer.
#[derive(Debug, Drop, Error)]
pub enum CallError {
    /// The call ended with a status other than OK.
    #[error("the call ended with a status other than OK")]
    Status(Status),
    /// The call ended OK and has so many messages where one is wanted.
    #[error("the response has {messages} messages, and one is wanted")]
    Cardinality { messages: usize },
    /// The channel refused what was asked, and is as before.
    #[error("the channel refused: {}", words_of(*.0))]
    Refused(Refusal),
    /// The channel has no memory, or its session no room.
    #[error("the channel could not take it: {}", cause_of(*.0))]
    Failed(PostError),
    /// The caller itself has no memory. The channel is as before.
    #[error("out of memory")]
    NoMemory,
}

/// What a refusal says.
fn words_of(refusal: Refusal) -> &'static str {
    match refusal {
        Refusal::NoSuchCall => "it has no call of this number",
        Refusal::CallEnded => "the call has ended",
        Refusal::AfterFinish => "the call is finished and sends no further message",
        Refusal::Shut => "it was shut down",
        _ => "it is no event of a call",
    }
}

/// What kept an event from the channel.
fn cause_of(error: PostError) -> &'static str {
    match error {
        PostError::NoMemory { spent: _ } => "out of memory",
        PostError::SessionFull {
            entries: _,
            octets: _,
        } => "its session is full",
    }
}

impl From<NoMemory> for CallError {
    ghost use Rattle.std.specs.Prelude.{◌≡◌};
    ghost use Rattle.client_calls.specs.declared.error.CallError.TheVariants as fault;

    ghost from_gives = { λ _ e. e ≡ fault.NoMemory };

    fn from(_e: NoMemory) -> CallError {
        CallError::NoMemory
    }
}
