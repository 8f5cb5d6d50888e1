// The response on a stream, and how it ends an attempt.
use attempt_ledger::RowCause;
use grpc_base::{Code, Items, Metadata, Octets, Pushback, Text};

/// What the end of an attempt says.
#[derive(Debug, Drop)]
pub struct Outcome {
    pub code: Code,
    pub text: Text,
    pub meta: Metadata,
    pub pushback: Pushback,
    /// Whether the server cannot have processed the request.
    pub unseen: bool,
    pub cause: RowCause,
    /// For an end by a broken rule: the code with which the stream is reset. For any other end it is not looked at.
    pub reset: Option<u32>,
}

/// What came on a stream so far, and what bears on its send window.
#[derive(Debug, Drop)]
pub struct Response {
    /// The metadata of its head.
    pub head: Option<Metadata>,
    /// Its whole messages, and the bytes after them.
    pub messages: Items<Octets>,
    pub rest: Text,
    /// Whether the next message is longer than the limit of its call.
    pub large: bool,
    pub end: Option<Outcome>,
    /// Whether the peer's END_STREAM was taken.
    pub closes: bool,
    /// The initial size of the stream's send window, what WINDOW_UPDATE added to it, and what DATA used of it.
    pub initial: u64,
    pub raised: u64,
    pub used: u64,
}
