// How a call ended.
ghost use Rattle.std.specs.Prelude.{◌≡◌};
ghost use Rattle.client_calls.specs.Answers.{source_of};

use grpc_base::{Code, EndCause, Metadata, Text};

/// How a call ended ("Status codes and their use in gRPC").
#[derive(Debug, Drop)]
pub struct Status {
    pub code: Code,
    /// The status message: bytes, which the standard wants to be UTF-8.
    pub text: Text,
    /// The trailers.
    pub meta: Metadata,
    /// Why the call ended.
    pub cause: EndCause,
}

/// Who said how a call ended.
#[derive(Clone, Copy, Debug, PartialEq, Eq)]
pub enum StatusSource {
    /// The attempt to which the call is committed ended so: by what the server sent, or by what became of its stream or its link.
    Attempt,
    /// The channel itself, whatever the server sent: the deadline, a cancel, a message that is too long, no service config, or the
    /// channel's end.
    Channel,
}

impl Status {
    /// Who said so.
    pub fn source(&self) -> StatusSource
        ensures { result ≡ source_of self.now.cause }
    {
        match self.cause {
            EndCause::Row => StatusSource::Attempt,
            EndCause::Deadline
            | EndCause::Cancelled
            | EndCause::Request
            | EndCause::Response
            | EndCause::NoConfig
            | EndCause::Shut => StatusSource::Channel,
        }
    }
}
