// One attempt of a call.
use attempt_ledger::Row;

/// A row of the ledger, with what the ledger does not have. Rows are numbered from 1, by their places.
#[derive(Debug, Drop)]
pub struct Attempt {
    pub place: u64,
    pub row: Row,
    /// The entry in which it was made.
    pub made: u64,
    /// Whether its RST_STREAM was queued.
    pub reset: bool,
}
