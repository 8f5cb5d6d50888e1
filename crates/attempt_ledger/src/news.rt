// What a link reports of its attempts. A tag names the attempt; it is the one that the attempt was placed with.
use crate::RowCause;
use grpc_base::{Code, Metadata, Octets, Pushback, Text};

/// An attempt's end, as far as its link knows it: the fields of `RowEnd` but for the entry, the moment, the tokens and
/// the random word.
#[derive(Debug, Drop)]
pub struct EndNews {
    pub code: Code,
    pub text: Text,
    pub meta: Metadata,
    pub pushback: Pushback,
    /// Whether the server cannot have processed the request.
    pub unseen: bool,
    /// The bytes of the link up to the end of the frame that made the end.
    pub seen: u64,
    pub cause: RowCause,
}

/// News of a link. `seen` counts the bytes of the link up to the end of the frame that reported it.
#[derive(Debug, Drop)]
pub enum News {
    /// The peer's first SETTINGS came, so attempts may be placed (RFC 9113, section 3.4).
    Ready,
    /// The head of the response.
    Head { tag: u64, meta: Metadata, seen: u64 },
    /// The next whole message of the response.
    Message { tag: u64, octets: Octets, seen: u64 },
    /// The next message of the response is longer than the limit of its call.
    TooLarge { tag: u64, seen: u64 },
    /// The attempt ended.
    Ended { tag: u64, end: EndNews },
    /// The peer sent GOAWAY: the link takes no further attempt (RFC 9113, section 6.8).
    Retiring,
    /// The peer broke a rule of the whole link, with this error code (RFC 9113, sections 5.4.1 and 7).
    Broken { code: u32 },
}
