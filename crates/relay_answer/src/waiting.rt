// Bytes of messages that wait to be sent.
ghost use Rattle.std.specs.Prelude.{◌≡◌, ◌≤◌, ◌++◌, [], drop, false, length, OnOk};
ghost use Rattle.grpc_frame.specs.Messages.{framed};
ghost use Rattle.h2_server.specs.Sends.{data_sent, share_of};
ghost use Rattle.relay_answer.specs.Answering.{message_text, taken};

use bytes::BytesMut;
use grpc_base::NoMemory;
use grpc_base::limits::MESSAGE_BYTES;
use h2_server::ServerLink;
use std::alloc::Global;
use std::marker::Model;

/// How many bytes stand before a message: its flag and its length.
const PREFIX_SIZE: usize = 5;

/// Framed messages, one after the other, or what is left of them.
#[derive(Debug, Drop)]
pub struct WaitingText {
    bytes: BytesMut,
}

impl Model for WaitingText {
    ghost use Rattle.std.specs.Prelude.{ℕ, List};

    ghost Value = { List ℕ };

    ghost view = { λ t. t.bytes.items };
}

/// Appends a message as it is framed (gRPC over HTTP/2, "Length-Prefixed-Message").
fn append_framed(bytes: &mut BytesMut, message: &[u8]) -> Result<(), NoMemory>
    requires { length message.now ≤ 4194304 }
    ensures { OnOk result (bytes.new.items ≡ bytes.old.items ++ framed message.now) }
{
    bytes.reserve(PREFIX_SIZE + message.len())?;
    bytes.extend_from_slice(&[0])?;
    bytes.extend_from_slice(&(message.len() as u32).to_be_bytes())?;
    bytes.extend_from_slice(message)?;
    Ok(())
}

impl WaitingText {
    /// No bytes.
    pub(crate) fn new(alloc: Global) -> WaitingText
        ensures { result ≡ [] }
    {
        WaitingText {
            bytes: BytesMut::new(alloc),
        }
    }

    /// Appends a message as it is framed; none of one that is too long.
    pub(crate) fn append(&mut self, message: &[u8]) -> Result<(), NoMemory>
        ensures { OnOk result (self.new ≡ self.old ++ message_text message.now) }
    {
        if message.len() > MESSAGE_BYTES {
            return Ok(());
        }
        append_framed(&mut self.bytes, message)?;
        Ok(())
    }

    /// Leaves out the first `count` bytes.
    pub(crate) fn advance(&mut self, count: usize)
        requires { count ≤ length self.old }
        ensures { self.new ≡ drop count self.old }
    {
        self.bytes.advance(count);
    }

    /// The bytes as a slice.
    pub(crate) fn as_slice(&self) -> &[u8]
        ensures { result.now ≡ self.now }
    {
        self.bytes.as_slice()
    }

    /// How many bytes there are.
    pub(crate) fn len(&self) -> usize
        ensures { result ≡ length self.now }
    {
        self.bytes.len()
    }

    /// Sends as many of the bytes as one frame of DATA may have now.
    pub(crate) fn send(
        &mut self,
        stream: u32,
        link: &mut ServerLink,
        out: &mut BytesMut,
    ) -> Result<(), NoMemory>
        ensures rest { OnOk result (self.new ≡ drop (taken (share_of link.old.wire stream (length self.old) false)) self.old) }
        ensures link { OnOk result (link.new ≡ record link.old { wire = (data_sent link.old.wire stream self.old false).wire }) }
        ensures out { OnOk result (out.new.items ≡ out.old.items ++ (data_sent link.old.wire stream self.old false).octets) }
    {
        match link.send_data(stream, self.as_slice(), false, out)? {
            Some(share) => {
                self.advance(share.len as usize);
                Ok(())
            }
            None => Ok(()),
        }
    }
}
