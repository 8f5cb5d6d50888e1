// A frame and the answers of a reader (RFC 9113, section 4.1).
//
//   bytes    3         1      1         4           `length`
//        +--------+--------+-------+---------+--------------------+
//        | length |  kind  | flags | stream  |      payload       |
//        +--------+--------+-------+---------+--------------------+
//                                   the first bit of the stream's number is reserved
ghost use Rattle.std.specs.Prelude.{◌<◌, ◌^◌, IsTrue};
ghost use Rattle.h2_frame.specs.Frames.{is_allowed};

/// A frame of RFC 9113, section 4.1, which keeps the rules of sections 4.2 and 6 that one frame shows by itself.
#[derive(Clone, Copy, Debug)]
pub struct Frame<'a> {
    /// The frame type, one of `kinds` or an unknown one.
    pub kind: u8,
    /// The flags as they came; see `flags`.
    pub flags: u8,
    /// The stream's number, 0 for the connection, without the reserved bit.
    pub stream: u32,
    /// The payload with its Pad Length and priority fields and its padding, at most 16,384 bytes.
    pub payload: &'a [u8],
    ghost in_range: { stream < 2 ^ 31 },
    ghost allowed: { IsTrue (is_allowed (record { kind = kind; flags = flags; stream = stream; payload = payload.now })) },
}

/// What stands at the start of some bytes.
#[derive(Clone, Copy, Debug)]
pub enum FrameStep<'a> {
    /// A whole frame, and how many bytes it has.
    Got { frame: Frame<'a>, len: usize },
    /// Less than a frame.
    More,
    /// No frame, however the bytes go on; the code is one of `error_code`.
    Bad { code: u32 },
}
