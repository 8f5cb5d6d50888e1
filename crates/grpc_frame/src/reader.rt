// The messages of a stream whose bytes come in pieces.
ghost use Rattle.std.specs.Prelude.{◌≡◌, ◌≤◌, ◌++◌, [], None, IfOk, OnOk, drop, length, take};
ghost use Rattle.grpc_frame.specs.Messages.{messages_of};
ghost use Rattle.grpc_frame.specs.Reader.{given, is_whole, reader_of};

use crate::next::MessageFault;
use crate::read::read_on;
use bytes::BytesMut;
use grpc_base::{NoMemory, Octets};
use std::alloc::Global;
use std::marker::Model;
use std::mem;

/// Reads the messages of one stream (gRPC over HTTP/2, "Length-Prefixed-Message").
///
/// The time that it takes is linear in what is fed. A message that lies whole in one piece is shared with it, and each byte
/// of another one is copied once.
#[derive(Debug, Drop)]
pub struct MessageReader {
    limit: u32,
    /// The message that is not whole yet, with its prefix.
    rest: BytesMut,
    fault: Option<MessageFault>,
}

impl Model for MessageReader {
    ghost use Rattle.grpc_frame.specs.Reader.{IsReader, ReaderSeen};

    ghost Value = { ReaderSeen };

    ghost view = { λ r. record { limit = r.limit; rest = r.rest.items; fault = r.fault } };

    ghost invariant = { λ r. IsReader (record { limit = r.limit; rest = r.rest.items; fault = r.fault }) };
}

/// What a reader gives for a piece.
#[derive(Debug, Drop)]
pub struct Fed {
    /// The messages that became whole, in their order, up to a fault.
    pub messages: Vec<Octets>,
    pub fault: Option<MessageFault>,
}

impl MessageReader {
    /// A reader that was fed nothing, of messages of at most so many bytes.
    pub fn new(alloc: Global, limit: u32) -> MessageReader
        ensures { result ≡ reader_of limit [] }
    {
        MessageReader {
            limit,
            rest: BytesMut::new(alloc),
            fault: None,
        }
    }

    /// Takes the next bytes of the stream. After a fault it gives no message, and the same fault, for good. On out of
    /// memory messages are lost: the reader is of no use any more.
    pub fn feed(&mut self, octets: &Octets) -> Result<Fed, NoMemory>
        ensures messages { IfOk result (λ f. f.messages.items ≡ (given self.old octets.now).messages) }
        ensures fault { IfOk result (λ f. f.fault ≡ (given self.old octets.now).fault) }
        ensures after { OnOk result (self.new ≡ (given self.old octets.now).reader) }
    {
        let alloc = *self.rest.allocator();
        if let Some(fault) = self.fault {
            return Ok(Fed {
                messages: Vec::new(alloc),
                fault: Some(fault),
            });
        }
        let rest = mem::replace(&mut self.rest, BytesMut::new(alloc));
        let read = read_on(self.limit, rest, octets)?;
        self.rest = read.rest;
        self.fault = read.fault;
        Ok(Fed {
            messages: read.messages,
            fault: read.fault,
        })
    }

    /// Whether all that was fed is whole messages: none is cut off, and there was no fault.
    pub fn whole(&self) -> bool
        ensures { result ≡ is_whole self.now }
    {
        self.fault.is_none() && self.rest.is_empty()
    }
}
