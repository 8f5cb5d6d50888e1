// The frame types of RFC 9113, section 6.

/// Bytes of a message (section 6.1).
pub const DATA: u8 = 0;

/// The beginning of a header block (section 6.2).
pub const HEADERS: u8 = 1;

/// A priority, which is passed over (section 6.3).
pub const PRIORITY: u8 = 2;

/// The end of a stream by an error (section 6.4).
pub const RST_STREAM: u8 = 3;

/// Parameters of the connection, or their acknowledgement (section 6.5).
pub const SETTINGS: u8 = 4;

/// A stream that a server would open (section 6.6).
pub const PUSH_PROMISE: u8 = 5;

/// A question whether the peer is there, or its answer (section 6.7).
pub const PING: u8 = 6;

/// The end of a connection's new streams (section 6.8).
pub const GOAWAY: u8 = 7;

/// Leave to send more bytes (section 6.9).
pub const WINDOW_UPDATE: u8 = 8;

/// More of a header block (section 6.10).
pub const CONTINUATION: u8 = 9;
