// Header blocks that wait to be sent.
ghost use Rattle.std.specs.Prelude.{◌≡◌, ◌<◌, ◌≤◌, ◌++◌, ◌∷◌, [], drop, length, nat_lt, OnOk};
ghost use Rattle.relay_answer.specs.Answering.{first_sent, first_text};

use crate::waiting::WaitingText;
use bytes::BytesMut;
use grpc_base::NoMemory;
use h2_server::ServerLink;
use relay_response::Block;
use std::alloc::Global;
use std::marker::Model;

/// A header block, and the bytes of messages that go before it.
#[derive(Debug, Drop)]
pub struct Part {
    pub text: WaitingText,
    pub block: Block,
    /// Whether it ends the response.
    pub ends: bool,
}

/// Parts in their order.
#[derive(Debug, Drop)]
pub struct Parts {
    list: Vec<Part>,
}

impl Model for Parts {
    ghost use Rattle.std.specs.Prelude.{List};
    ghost use Rattle.relay_answer.specs.declared.parts.Part.{Part};

    ghost Value = { List Part };

    ghost view = { λ p. p.list.items };
}

impl Parts {
    pub(crate) fn new(alloc: Global) -> Parts
        ensures { result ≡ [] }
    {
        Parts {
            list: Vec::new(alloc),
        }
    }

    /// Appends a part.
    pub(crate) fn push(&mut self, part: Part) -> Result<(), NoMemory>
        ensures { OnOk result (self.new ≡ self.old ++ part ∷ []) }
    {
        self.list.push(part)?;
        Ok(())
    }

    /// The parts as a slice.
    pub(crate) fn as_slice(&self) -> &[Part]
        ensures { result.now ≡ self.now }
    {
        self.list.as_slice()
    }

    /// Takes the first part off.
    pub(crate) fn pop_first(&mut self)
        requires { 0 < length self.old }
        ensures { self.new ≡ drop 1 self.old }
    {
        let _part = self.list.remove(0);
    }

    /// Leaves out the first bytes of those that go before the first block.
    pub(crate) fn advance_first(&mut self, count: usize)
        requires some { 0 < length self.old }
        requires there { count ≤ length (first_text self.old) }
        ensures { self.new ≡ first_sent count self.old }
    {
        let part = &mut self.list[0];
        part.text.advance(count);
    }
}
