ghost use Rattle.std.specs.Prelude.{◌≡◌};
ghost use Rattle.h2_stream.specs.State.{after_local_end, after_remote_end, is_closed_locally, is_closed_remotely};

/// Which side has ended a stream (RFC 9113, section 5.1).
///
/// The section's first states, idle and reserved, are missing: a stream is made when HEADERS open it, and a push is
/// never accepted.
#[derive(Clone, Copy, Debug, PartialEq, Eq)]
pub enum StreamState {
    /// Both sides may send.
    Open,
    /// This side has sent END_STREAM.
    HalfClosedLocal,
    /// The peer has sent END_STREAM.
    HalfClosedRemote,
    /// Both sides have sent END_STREAM.
    Closed,
}

impl StreamState {
    /// Whether this side has sent END_STREAM.
    pub fn is_closed_locally(self) -> bool
        ensures { result ≡ is_closed_locally self }
    {
        matches!(self, StreamState::HalfClosedLocal | StreamState::Closed)
    }

    /// Whether the peer has sent END_STREAM.
    pub fn is_closed_remotely(self) -> bool
        ensures { result ≡ is_closed_remotely self }
    {
        matches!(self, StreamState::HalfClosedRemote | StreamState::Closed)
    }

    /// The state once this side has sent END_STREAM.
    pub(crate) fn after_local_end(self) -> Self
        ensures { result ≡ after_local_end self }
    {
        if self.is_closed_remotely() {
            StreamState::Closed
        } else {
            StreamState::HalfClosedLocal
        }
    }

    /// The state once the peer has sent END_STREAM.
    pub(crate) fn after_remote_end(self) -> Self
        ensures { result ≡ after_remote_end self }
    {
        if self.is_closed_locally() {
            StreamState::Closed
        } else {
            StreamState::HalfClosedRemote
        }
    }
}
