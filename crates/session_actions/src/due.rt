// When the next attempt of a call is due.
use grpc_base::Moment;

/// What the marks of a call say of its next attempt.
#[derive(Clone, Copy, Debug, PartialEq, Eq)]
pub struct DueState {
    /// The place of the row of the newest attempt; a transparent retry is no further attempt.
    pub newest: Option<u64>,
    /// The moment at which that row was placed.
    pub placed: Option<Moment>,
    /// The moment to which an end, or the configuration, sets the next attempt.
    pub forced: Option<u64>,
    /// Whether no further attempt is made; of a call before its configuration none is, too.
    pub stopped: bool,
}
