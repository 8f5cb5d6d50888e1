// The header blocks of a response.
ghost use Rattle.std.specs.Prelude.{◌≡◌, ◌<◌, ◌≤◌, length, IfOk};
ghost use Rattle.h2_hpack.specs.Encoding.{block_bytes};
ghost use Rattle.relay_response.specs.Blocks.{end_block, fitting, head_block};

use crate::fields::{end_fields, response_fields};
use crate::fit::fitting;
use grpc_base::{Code, Fields, Metadata, NoMemory, Octets, Text};
use h2_hpack::encode_fields;
use std::alloc::Global;
use std::marker::Model;

/// The bytes of a header block that fits one frame, also after an update of the table's size.
#[derive(Debug, Drop)]
pub struct Block {
    bytes: Octets,
}

impl Model for Block {
    ghost use Rattle.std.specs.Prelude.{ℕ, List, ◌<◌, length};

    ghost Value = { List ℕ };

    ghost view = { λ b. b.bytes };

    ghost invariant = { λ b. length b.bytes < 16384 };
}

impl Block {
    /// The block of a header list.
    fn of_fields(alloc: Global, fields: &Fields) -> Result<Block, NoMemory>
        requires { length (block_bytes fields.now) < 16384 }
        ensures { IfOk result (λ block. block ≡ block_bytes fields.now) }
    {
        let block = encode_fields(alloc, fields)?;
        let bytes = Octets::of_buffer(block)?;
        Ok(Block { bytes })
    }

    /// The bytes as a slice.
    pub fn as_slice(&self) -> &[u8]
        ensures bytes { result.now ≡ self.now }
        ensures fits { length result.now < 16384 }
    {
        self.bytes.as_slice()
    }

    /// How many bytes there are.
    pub fn len(&self) -> usize
        ensures len { result ≡ length self.now }
        ensures fits { result < 16384 }
    {
        self.bytes.len()
    }
}

/// The block of the fields that a header list has room for.
fn fitting_block(alloc: Global, all: &Fields) -> Result<Block, NoMemory>
    ensures { IfOk result (λ block. block ≡ block_bytes (fitting 16384 all.now)) }
{
    let fields = fitting(alloc, all)?;
    Block::of_fields(alloc, &fields)
}

/// The header block that begins a response with this metadata: `:status: 200` and the content type of gRPC stand before it. A
/// field with which the header list would pass 16,384 is left out.
pub fn head_block(alloc: Global, meta: &Metadata) -> Result<Block, NoMemory>
    ensures { IfOk result (λ block. block ≡ head_block meta.now) }
{
    let all = response_fields(alloc, meta)?;
    fitting_block(alloc, &all)
}

/// The header block that ends a response: the code, the text where there is one, and the metadata. Where no head was given, this
/// is the whole response: what begins one stands before. A field with which the header list would pass 16,384 is left out.
pub fn end_block(
    alloc: Global,
    headed: bool,
    code: Code,
    text: &Text,
    meta: &Metadata,
) -> Result<Block, NoMemory>
    ensures { IfOk result (λ block. block ≡ end_block headed code text.now meta.now) }
{
    let all = end_fields(alloc, headed, code, text, meta)?;
    fitting_block(alloc, &all)
}
