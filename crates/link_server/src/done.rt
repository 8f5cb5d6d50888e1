// How a link that was served ended.

/// How a link that was served ended.
#[derive(Clone, Copy, Debug, PartialEq, Eq)]
pub enum LinkDone {
    /// The peer sends nothing further.
    Ended,
    /// A read of the link failed.
    ReadFailed,
    /// A write of the link failed.
    WriteFailed,
    /// Its bytes broke the protocol, with this error code of HTTP/2.
    Broken { code: u32 },
    /// Out of memory.
    NoMemory,
}

/// What a turn of a link came to.
#[derive(Clone, Copy, Debug, PartialEq, Eq)]
pub enum Turned {
    /// All that the server had for the link was written, and nothing more has come so far.
    Quiet,
    /// More may have come, or is to be written.
    More,
    /// The link has ended.
    Over(LinkDone),
}
