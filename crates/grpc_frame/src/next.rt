// What stands at the start of some bytes.
ghost use Rattle.std.specs.Prelude.{◌≡◌};
ghost use Rattle.grpc_frame.specs.Messages.{length_reported, next_by, next_of};

/// How many bytes stand before a message: its flag and its length.
pub const PREFIX_SIZE: usize = 5;

/// What is wrong with the next message of a stream.
#[derive(Clone, Copy, Debug, PartialEq, Eq)]
pub enum MessageFault {
    /// Its flag is not 0: it says that the message is compressed, or nothing that is known.
    BadFlag,
    /// It is longer than the limit.
    TooLarge { length: u32 },
}

/// What stands at the start of some bytes.
#[derive(Clone, Copy, Debug, PartialEq, Eq)]
pub enum NextMessage {
    /// A message of so many bytes after its prefix.
    Whole { length: u32 },
    /// Less than a message.
    Partial,
    Fault { fault: MessageFault },
}

/// The message or the fault at the start of the bytes.
pub fn next_message(limit: u32, bytes: &[u8]) -> NextMessage
    ensures { result ≡ next_of limit bytes.now }
{
    match bytes {
        [] => NextMessage::Partial,
        [0, ..] => next_by(limit, bytes.len(), length_reported(bytes)),
        _ => NextMessage::Fault {
            fault: MessageFault::BadFlag,
        },
    }
}

// A message of this length, of which so many bytes are there.
fn next_by(limit: u32, size: usize, length: Option<u32>) -> NextMessage
    ensures { result ≡ next_by limit size length }
{
    match length {
        Some(length) if length > limit => NextMessage::Fault {
            fault: MessageFault::TooLarge { length },
        },
        Some(length) if PREFIX_SIZE + length as usize <= size => NextMessage::Whole { length },
        _ => NextMessage::Partial,
    }
}

/// The length that a prefix has, where all of it is there.
pub fn length_reported(bytes: &[u8]) -> Option<u32>
    ensures { result ≡ length_reported bytes.now }
{
    match bytes {
        [0, a, b, c, d, ..] => Some(u32::from_be_bytes([*a, *b, *c, *d])),
        _ => None,
    }
}
