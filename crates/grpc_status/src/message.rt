// The text of a status.
ghost use Rattle.std.specs.Prelude.{◌≡◌, IfOk};
ghost use Rattle.grpc_status.specs.StatusMaps.{text_of_message};

use grpc_base::{NoMemory, Text};
use percent_encoding::percent_decode;
use std::alloc::Global;

/// The text that a `grpc-message` says: percent-decoded, with U+FFFD for each part that is not UTF-8.
pub fn message_text(alloc: Global, value: &[u8]) -> Result<Text, NoMemory>
    ensures { IfOk result (λ t. t ≡ text_of_message value.now) }
{
    let text = percent_decode(value).decode_utf8_lossy(alloc)?;
    let text = text.into_owned(alloc)?;
    Ok(Text::of_vec(text.into_bytes()))
}
