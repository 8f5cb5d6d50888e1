// One attempt of a call, as a row of the ledger.
use grpc_base::{Code, Metadata, Moment, Pushback, Text};

/// Why an attempt was made.
#[derive(Clone, Copy, Debug, PartialEq, Eq)]
pub enum RowKind {
    /// The first attempt of its call.
    First,
    /// A retry (gRFC A6, "Retry Policy").
    Retry,
    /// A hedged attempt (gRFC A6, "Hedging Policy").
    Hedge,
    /// A transparent retry, which the server cannot have seen (gRFC A6, "Transparent Retries").
    Transparent,
}

/// Why an attempt ended.
#[derive(Clone, Copy, Debug, PartialEq, Eq)]
pub enum RowCause {
    /// The response has a `grpc-status`.
    Status,
    /// It has none, and the HTTP status decides.
    Http,
    /// The peer reset the stream.
    Reset,
    /// The peer broke the framing of messages or a rule of its stream.
    Framing,
    /// The link was lost or broken after the request's head was sent.
    Lost,
    /// A GOAWAY leaves the stream out.
    Goaway,
    /// The link was lost, broken or retiring before the request's head was sent.
    Unsent,
    /// A pick request answered that the attempt fails.
    Pick,
    /// The client gave the attempt up.
    Cut,
}

/// How an attempt got its link. Entries count from 1.
#[derive(Clone, Copy, Debug, PartialEq, Eq)]
pub struct Placed {
    pub entry: u64,
    pub moment: Moment,
    /// The generation of the policy that was asked.
    pub generation: u32,
    pub sub: u32,
    pub link: u32,
}

/// How an attempt ended. Entries count from 1.
#[derive(Debug, Drop)]
pub struct RowEnd {
    pub entry: u64,
    pub moment: Moment,
    pub code: Code,
    pub text: Text,
    pub meta: Metadata,
    pub pushback: Pushback,
    /// Whether the server cannot have processed the request.
    pub unseen: bool,
    /// The bytes of the link up to the end of the frame that made the end.
    pub seen: u64,
    pub cause: RowCause,
    /// The tokens after the end, where the call's config has throttling.
    pub tokens: Option<u32>,
    /// The random word of the wait before the retry, where one is drawn.
    pub word: Option<u64>,
}

/// An attempt.
#[derive(Debug, Drop)]
pub struct Row {
    pub call: u32,
    /// The attempt's number within its call, from 1; a transparent retry has that of the attempt it follows.
    pub number: u32,
    pub kind: RowKind,
    /// The moment at which it was due, in nanoseconds.
    pub due: u64,
    pub placed: Option<Placed>,
    pub stream: Option<u32>,
    pub ended: Option<RowEnd>,
    /// The entry at which the call was committed to it.
    pub committed: Option<u64>,
}
