// The identifiers of RFC 9113, section 6.5.2.

/// The most bytes of the peer's dynamic table of header fields, 4,096 at first.
pub const HEADER_TABLE_SIZE: u16 = 1;

/// Whether the peer may push, 1 at first.
pub const ENABLE_PUSH: u16 = 2;

/// How many streams the peer may have open, without a limit at first.
pub const MAX_CONCURRENT_STREAMS: u16 = 3;

/// The window that each stream begins with, 65,535 at first.
pub const INITIAL_WINDOW_SIZE: u16 = 4;

/// The most bytes of a payload, 16,384 at first.
pub const MAX_FRAME_SIZE: u16 = 5;

/// The most that the sizes of a header list may come to, without a limit at first.
pub const MAX_HEADER_LIST_SIZE: u16 = 6;
