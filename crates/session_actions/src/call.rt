// A call of the application.
use attempt_ledger::CallEnd;
use grpc_base::{Items, Moment, Octets, Request};

/// What happened to a call.
#[derive(Clone, Copy, Debug, PartialEq, Eq)]
pub enum MarkKind {
    /// It got its configuration.
    Configured,
    /// An attempt was made, by the place of its row; it was placed; it ended.
    Made { row: u64 },
    Placed { row: u64 },
    Ended { row: u64 },
    /// A hedge was due, and the tokens were too few.
    Withheld,
    /// It was committed to an attempt.
    Committed,
    /// It ended.
    Closed,
}

/// What happened to a call, and when.
#[derive(Clone, Copy, Debug, PartialEq, Eq)]
pub struct Mark {
    pub what: MarkKind,
    pub moment: Moment,
}

/// A call. Calls are numbered from 1.
#[derive(Debug, Drop)]
pub struct Call {
    pub number: u32,
    pub request: Request,
    /// The entry and the moment of its begin.
    pub begun: u64,
    pub begun_at: Moment,
    /// The messages that were accepted.
    pub messages: Items<Octets>,
    /// Whether no further message comes.
    pub finished: bool,
    /// How many items of its response the application took, and whether the end was one.
    pub taken: u64,
    pub end_taken: bool,
    /// The number of the valid config that it got, and the entry in which it did.
    pub config: Option<u64>,
    pub configured: Option<u64>,
    pub end: Option<CallEnd>,
    /// What happened to it, in order.
    pub marks: Items<Mark>,
}
