// What one stream answers.
ghost use Rattle.std.specs.Prelude.{◌≡◌, ◌++◌, ◌&&◌, ◌==◌, ◌+◌, length, max, IfOk, OnOk, false};
ghost use Rattle.h2_server.specs.Sends.{share_of};
ghost use Rattle.relay_answer.specs.Answering.{block_room, end_given, fresh, head_given, is_sent, message_given, room_by, room_of, text_room, with_block};
ghost use Rattle.relay_answer.specs.Moves.{moved, moved_by};

use crate::parts::{Part, Parts};
use crate::waiting::WaitingText;
use bytes::BytesMut;
use grpc_base::{Code, Metadata, NoMemory, Octets, Text};
use h2_server::ServerLink;
use relay_response::{Block, end_block, head_block};
use std::alloc::Global;
use std::marker::Model;
use std::mem;

/// The most bytes of a frame that no window holds back.
const CONTROL_ROOM: u64 = 17;

/// How many bytes stand before the payload of a frame.
const HEADER_ROOM: u64 = 9;

/// What one stream has to answer: header blocks and the bytes of messages, in the order in which they were given.
#[derive(Debug, Drop)]
pub struct AnsweringStream {
    alloc: Global,
    /// Whether a head was given.
    headed: bool,
    parts: Parts,
    /// The bytes after all parts.
    text: WaitingText,
}

impl Model for AnsweringStream {
    ghost use Rattle.relay_answer.specs.Answering.{Answering};

    ghost Value = { Answering };

    ghost view = { λ s. record { headed = s.headed; parts = s.parts; text = s.text } };
}

/// The room for which DATA of these bytes is tested; None where none of them may be sent.
fn text_room(stream: u32, text: &[u8], link: &ServerLink) -> Option<u64>
    ensures { result ≡ text_room (share_of link.now.wire stream (length text.now) false) }
{
    match link.share(stream, text.len() as u64, false) {
        Some(share) => Some((HEADER_ROOM + u64::from(share.len)).max(CONTROL_ROOM)),
        None => None,
    }
}

/// The room for which a header block is tested.
fn block_room(block: &Block) -> u64
    ensures { result ≡ block_room block.now }
{
    (HEADER_ROOM + 1 + block.len() as u64).max(CONTROL_ROOM)
}

/// The room for which the first frame of these parts, or of the bytes after them, is tested.
fn room_by(stream: u32, parts: &[Part], text: &[u8], link: &ServerLink) -> Option<u64>
    ensures { result ≡ room_by link.now.wire stream text.now parts.now }
{
    let [part, _parts @ ..] = parts else {
        return text_room(stream, text, link);
    };
    if part.text.len() != 0 {
        return text_room(stream, part.text.as_slice(), link);
    }
    Some(block_room(&part.block))
}

impl AnsweringStream {
    /// Nothing was given.
    pub fn new(alloc: Global) -> AnsweringStream
        ensures { result ≡ fresh }
    {
        AnsweringStream {
            alloc,
            headed: false,
            parts: Parts::new(alloc),
            text: WaitingText::new(alloc),
        }
    }

    /// A header block is given, after all that waits.
    fn push_block(&mut self, block: Block, ends: bool) -> Result<(), NoMemory>
        ensures { OnOk result (self.new ≡ with_block self.old block ends) }
    {
        let alloc = self.alloc;
        let text = mem::replace(&mut self.text, WaitingText::new(alloc));
        self.parts.push(Part { text, block, ends })
    }

    /// The head of the response is given.
    pub fn give_head(&mut self, meta: &Metadata) -> Result<(), NoMemory>
        ensures { OnOk result (self.new ≡ head_given self.old meta.now) }
    {
        let block = head_block(self.alloc, meta)?;
        self.headed = true;
        self.push_block(block, false)
    }

    /// The next message is given. One of more than 4,194,304 bytes is left out.
    pub fn give_message(&mut self, message: &Octets) -> Result<(), NoMemory>
        ensures { OnOk result (self.new ≡ message_given self.old message.now) }
    {
        self.text.append(message.as_slice())
    }

    /// The end is given: trailers, or the whole response where no head was given.
    pub fn give_end(&mut self, code: Code, text: &Text, meta: &Metadata) -> Result<(), NoMemory>
        ensures { OnOk result (self.new ≡ end_given self.old code text.now meta.now) }
    {
        let block = end_block(self.alloc, self.headed, code, text, meta)?;
        self.push_block(block, true)
    }

    /// Whether all that was given was sent.
    pub fn is_sent(&self) -> bool
        ensures { result ≡ is_sent self.now }
    {
        self.parts.as_slice().is_empty() && self.text.len() == 0
    }

    /// The room for which the next frame is tested: its bytes, at least 17, and one more for a header block, which may begin
    /// with an update of the table's size. None where nothing may be sent now: nothing waits, or the windows hold it back.
    pub fn next_room(&self, stream: u32, link: &ServerLink) -> Option<u64>
        ensures { result ≡ room_of link.now.wire stream self.now }
    {
        room_by(stream, self.parts.as_slice(), self.text.as_slice(), link)
    }

    /// Sends the next frame on this stream of a link: a header block, or as many bytes of messages as one frame may have. Where
    /// nothing may be sent now it sends nothing.
    pub fn send(
        &mut self,
        stream: u32,
        link: &mut ServerLink,
        out: &mut BytesMut,
    ) -> Result<(), NoMemory>
        ensures answer { OnOk result (self.new ≡ (moved link.old.wire stream self.old).answer) }
        ensures link { OnOk result (link.new ≡ record link.old { wire = (moved link.old.wire stream self.old).wire }) }
        ensures out { OnOk result (out.new.items ≡ out.old.items ++ (moved link.old.wire stream self.old).octets) }
    {
        let [part, _parts @ ..] = self.parts.as_slice() else {
            return self.text.send(stream, link, out);
        };
        if part.text.len() == 0 {
            link.send_block(stream, part.block.as_slice(), part.ends, out)?;
            self.parts.pop_first();
            return Ok(());
        }
        match link.send_data(stream, part.text.as_slice(), false, out)? {
            Some(share) => {
                self.parts.advance_first(share.len as usize);
                Ok(())
            }
            None => Ok(()),
        }
    }
}
