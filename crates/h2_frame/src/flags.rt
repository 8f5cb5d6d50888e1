// The flags of RFC 9113, section 6; a bit that a frame type does not define is ignored.

/// The sender's last frame on the stream (DATA, HEADERS).
pub const END_STREAM: u8 = 0x1;

/// The answer to a SETTINGS or PING frame.
pub const ACK: u8 = 0x1;

/// The last frame of a header block (HEADERS, CONTINUATION).
pub const END_HEADERS: u8 = 0x4;

/// A Pad Length field and padding (DATA, HEADERS).
pub const PADDED: u8 = 0x8;

/// Priority fields, which are passed over (HEADERS).
pub const PRIORITY: u8 = 0x20;
