/// What the peer did wrong, with an error code of RFC 9113, section 7.
#[derive(Clone, Copy, Debug, PartialEq, Eq)]
pub enum StreamFault {
    /// A stream error (section 5.4.2): the stream is to be reset with this code.
    Stream(u32),
    /// A connection error (section 5.4.1): the link is broken with this code.
    Link(u32),
}
