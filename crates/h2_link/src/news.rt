// What a link reports to its caller.
use grpc_base::{Fields, Items, Octets};

/// News of a link. A tag names the stream that was opened for it; `seen` counts the link's bytes up to the end of the
/// frame that brought the news.
#[derive(Debug, Drop)]
pub enum LinkNews {
    /// The peer's first SETTINGS came.
    Ready,
    /// A whole header block, without or with END_STREAM. An interim response (a `:status` from 100 to 199) is reported as
    /// any other block is.
    Fields {
        tag: u64,
        fields: Fields,
        end: bool,
        seen: u64,
    },
    /// The bytes of one DATA frame, without its padding, without or with END_STREAM.
    Data {
        tag: u64,
        octets: Octets,
        end: bool,
        seen: u64,
    },
    /// The peer reset the stream with this code.
    Reset {
        tag: u64,
        code: u32,
        seen: u64,
    },
    /// A stream error of the peer, for which the stream is reset with this code. Where a header block makes it, the
    /// block's own news stand before it.
    Fault {
        tag: u64,
        code: u32,
        seen: u64,
    },
    /// The peer will not act on the request: its GOAWAY names a lower last stream, or no stream was opened yet.
    Unseen {
        tag: u64,
        seen: u64,
    },
    /// The peer's first GOAWAY came: no stream is opened any more.
    Retiring,
    /// The link is broken with this code.
    Broken {
        code: u32,
    },
}

/// What one call of `arrived` took, and what it reported.
#[derive(Debug, Drop)]
pub struct Arrival {
    /// How many bytes of the piece were taken.
    pub taken: usize,
    /// The length of the link's whole frames so far, without one that broke it.
    pub read: u64,
    /// The news of the one frame that these bytes ended, or of its fault.
    pub news: Items<LinkNews>,
}

/// What was drained.
#[derive(Debug, Drop)]
pub struct Drained {
    /// Whole frames.
    pub octets: Octets,
    /// The tags whose streams these frames opened, each with the number of its stream.
    pub opened: Items<(u64, u32)>,
}
