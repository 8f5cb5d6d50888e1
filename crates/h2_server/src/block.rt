// A header block that CONTINUATION is to complete.
ghost use Rattle.std.specs.Prelude.{◌≡◌, ◌≤◌, length};

use crate::live::StreamNumber;
use grpc_base::Text;
use std::marker::Model;

/// A header block has at most so many bytes.
pub(crate) const BLOCK_LIMIT: usize = 65_536;

/// What came of a header block so far (RFC 9113, section 4.3).
#[derive(Debug, Drop)]
pub(crate) struct OpenBlock {
    /// The stream of its HEADERS.
    pub number: StreamNumber,
    /// Whether its HEADERS had END_STREAM.
    pub ends: bool,
    pub bytes: Text,
}

impl Model for OpenBlock {
    ghost use Rattle.std.specs.Prelude.{◌≤◌, length};
    ghost use Rattle.h2_server.specs.Wire.{Block};

    ghost Value = { Block };

    ghost view = { λ b. record { number = b.number; ends = b.ends; bytes = b.bytes } };

    ghost invariant = { λ b. length b.bytes ≤ 65536 };
}

impl OpenBlock {
    /// How many bytes came.
    pub(crate) fn len(&self) -> usize
        ensures value { result ≡ length self.now.bytes }
        ensures within { result ≤ 65536 }
    {
        self.bytes.len()
    }
}
