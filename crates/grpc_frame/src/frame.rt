// A message for the wire (gRPC over HTTP/2, "Length-Prefixed-Message").
//
//   bytes  1       4         `length`
//        +------+--------+--------------------+
//        | flag | length |      message       |
//        +------+--------+--------------------+
ghost use Rattle.std.specs.Prelude.{◌≡◌, ◌<◌, ◌↔◌, Err, IfOk, length};
ghost use Rattle.grpc_base.specs.Limits.{message_limit};
ghost use Rattle.grpc_frame.specs.Messages.{framed};

use crate::next::PREFIX_SIZE;
use bytes::BytesMut;
use grpc_base::limits::MESSAGE_BYTES;
use grpc_base::{NoMemory, Octets};
use std::alloc::{AllocError, Global};

/// Why a message is not framed.
#[derive(Clone, Copy, Debug, PartialEq, Eq)]
pub enum FrameFault {
    /// It has more than 4,194,304 bytes.
    TooLarge,
    NoMemory,
}

impl From<NoMemory> for FrameFault {
    ghost use Rattle.std.specs.Prelude.{◌≡◌};
    ghost use Rattle.grpc_frame.specs.declared.frame.FrameFault.TheVariants as faults;

    ghost from_gives = { λ _ e. e ≡ faults.NoMemory };

    fn from(_e: NoMemory) -> FrameFault {
        FrameFault::NoMemory
    }
}

impl From<AllocError> for FrameFault {
    ghost use Rattle.std.specs.Prelude.{◌≡◌};
    ghost use Rattle.grpc_frame.specs.declared.frame.FrameFault.TheVariants as faults;

    ghost from_gives = { λ _ e. e ≡ faults.NoMemory };

    fn from(_e: AllocError) -> FrameFault {
        FrameFault::NoMemory
    }
}

/// A message after its flag, which says that it is not compressed, and its length
/// (gRPC over HTTP/2, "Length-Prefixed-Message").
pub fn frame_message(alloc: Global, message: &[u8]) -> Result<Octets, FrameFault>
    ensures ok { IfOk result (λ text. text ≡ framed message.now) }
    ensures too_large { (result ≡ Err FrameFault.TooLarge) ↔ (message_limit < length message.now) }
{
    if message.len() > MESSAGE_BYTES {
        return Err(FrameFault::TooLarge);
    }
    let mut text = BytesMut::with_capacity(alloc, PREFIX_SIZE + message.len())?;
    text.extend_from_slice(&[0])?;
    text.extend_from_slice(&(message.len() as u32).to_be_bytes())?;
    text.extend_from_slice(message)?;
    Ok(Octets::of_buffer(text)?)
}
