// A link: what it is to its callers, and the calls that take bytes (RFC 9113, sections 3.4, 5.4.1 and 6.8).
//
//   new -----------------------> prefaced ------------> retiring: no further stream, those up to its last one go on
//    |  the server's SETTINGS       |        GOAWAY        |
//    |                              |                      |
//    +------------------------------+----------------------+----> broken, for good: the peer broke a rule of the connection
ghost use Rattle.std.specs.Prelude.{◌≡◌, ◌<◌, ◌≤◌, ◌+◌, ◌^◌, ◌↔◌, ◌||◌, ◌++◌, [], true, IsTrue, length, is_some, IfOk, OnOk, OnErr, None, Err};
ghost use Rattle.h2_frame.specs.Readings.{reading_of, Partial};
ghost use Rattle.h2_link.specs.Received.{handled};
ghost use Rattle.h2_link.specs.Steps.{placed, cut, pinged, sealed_wire};
ghost use Rattle.h2_link.specs.Wire.{fresh_wire, kept_bytes};

use crate::fault::{LinkFault, PlaceFault};
use crate::news::{Arrival, LinkNews};
use crate::state::State;
use grpc_base::{Items, NoMemory};
use std::alloc::Global;
use std::marker::Model;
use std::mem;

/// The most bytes of a frame: nine of its header and 16,384 of its payload.
pub(crate) const FRAME_BYTES: usize = 16_393;

/// One HTTP/2 connection as a client keeps it (RFC 9113). Of what was read it holds the bytes of the next frame, those
/// of an open header block and the table of the header blocks, and nothing else.
#[derive(Debug, Drop)]
pub struct Link {
    pub(crate) alloc: Global,
    pub(crate) state: State,
    rest: Vec<u8>,
}

impl Model for Link {
    ghost use Rattle.std.specs.Prelude.{◌≡◌};
    ghost use Rattle.h2_frame.specs.Readings.{reading_of, Partial};
    ghost use Rattle.h2_link.specs.Wire.{Seen};

    ghost Value = { Seen };

    ghost view = { λ l. record { wire = l.state; rest = l.rest.items } };

    ghost invariant = { λ l. reading_of l.rest.items ≡ Partial };
}

impl Link {
    /// A new link: its preface is to be sent.
    pub fn new(alloc: Global) -> Result<Link, NoMemory>
        ensures { IfOk result (λ l. l ≡ record { wire = fresh_wire; rest = [] }) }
    {
        let state = State::new(alloc)?;
        Ok(Link {
            alloc,
            state,
            rest: Vec::new(alloc),
        })
    }

    /// A tag waits for a stream, which a drain opens; a tag that waits already goes on waiting. A caller gives each tag
    /// once, so that it names one stream. Gone comes exactly where the link is broken or retiring.
    pub fn place(&mut self, tag: u64) -> Result<(), PlaceFault>
        ensures gone { (result ≡ Err PlaceFault.Gone) ↔ IsTrue (is_some self.old.wire.broken || self.old.wire.retiring) }
        ensures same { result ≡ Err PlaceFault.Gone → self.new ≡ self.old }
        ensures after { OnOk result (self.new ≡ record self.old { wire = placed self.old.wire tag }) }
    {
        if self.state.broken.is_some() || self.state.retiring {
            return Err(PlaceFault::Gone);
        }
        self.state.place(tag)?;
        Ok(())
    }

    /// The attempt of a tag is given up. Its stream is reset with this code; a tag without a stream only ceases to wait.
    /// A tag that is not live changes nothing, and on a broken link none is.
    pub fn reset(&mut self, tag: u64, code: u32) -> Result<(), NoMemory>
        ensures { OnOk result (self.new ≡ record self.old { wire = cut self.old.wire tag code }) }
    {
        self.state.cut(tag, code)
    }

    /// A PING with this word is to be sent. A broken link does not change.
    pub fn ping(&mut self, word: u64) -> Result<(), NoMemory>
        ensures { OnOk result (self.new ≡ record self.old { wire = pinged self.old.wire word }) }
    {
        self.state.ping(word)
    }

    /// The effects of the last frame are complete. The resets of one frame's effects are sent in the order of their
    /// streams: those that the frame itself made, and those that `reset` made before this call or the next frame.
    /// Later ones stand after them, in the order of the calls.
    pub fn seal(&mut self)
        ensures { self.new ≡ record self.old { wire = sealed_wire self.old.wire } }
    {
        self.state.seal();
    }

    /// How many bytes of input the link holds: those of the next frame, and those of an open header block.
    pub fn kept(&self) -> u64
        ensures value { result ≡ kept_bytes self.now }
        ensures within { result ≤ 16392 + 65536 }
    {
        let block = self.state.block_len();
        let rest = self.rest.len();
        rest as u64 + block as u64
    }

    /// Takes a piece up to the byte that ends a frame or shows a fault, or else all of it, and reports the news of that
    /// one frame. So a caller can place and reset before it hands in the rest. Gone comes exactly where the link is
    /// broken.
    pub fn arrived(&mut self, piece: &[u8]) -> Result<Arrival, LinkFault>
        requires { 0 < length piece.now }
        ensures gone { (result ≡ Err LinkFault.Gone) ↔ IsTrue (is_some self.old.wire.broken) }
        ensures same { result ≡ Err LinkFault.Gone → self.new ≡ self.old }
        ensures whole { OnOk result ((self.old.wire.broken ≡ None) × (reading_of self.old.rest ≡ Partial)) }
        ensures taken { IfOk result (λ a. a.taken ≡ (handled self.old piece.now).taken) }
        ensures within { IfOk result (λ a. (1 ≤ a.taken) × (a.taken ≤ length piece.now)) }
        ensures news { IfOk result (λ a. a.news ≡ (handled self.old piece.now).news) }
        ensures read { IfOk result (λ a. a.read ≡ self.new.wire.read) }
        ensures after { OnOk result (self.new ≡ (handled self.old piece.now).link) }
    {
        if self.state.broken.is_some() {
            return Err(LinkFault::Gone);
        }
        let (taken, news) = if self.rest.is_empty() {
            self.receive_first(piece)?
        } else {
            self.receive_after(piece)?
        };
        Ok(Arrival {
            taken,
            read: self.state.read,
            news,
        })
    }

    /// A piece on a link that holds no bytes: a frame in it is not copied.
    fn receive_first(&mut self, piece: &[u8]) -> Result<(usize, Items<LinkNews>), NoMemory>
        requires some { 0 < length piece.now }
        requires none { self.old.rest ≡ [] }
        ensures handled { IfOk result (λ a. record { taken = a.0; link = self.new; news = a.1 } ≡ handled self.old piece.now) }
        ensures within { IfOk result (λ a. (1 ≤ a.0) × (a.0 ≤ length piece.now)) }
    {
        let alloc = self.alloc;
        match self.state.receive(alloc, piece)? {
            Some(prefix) => Ok(prefix),
            None => {
                extend(&mut self.rest, piece)?;
                Ok((piece.len(), Items::new(alloc)))
            }
        }
    }

    /// A piece after the bytes that the link holds. Of the piece no more is copied than the longest frame needs.
    fn receive_after(&mut self, piece: &[u8]) -> Result<(usize, Items<LinkNews>), NoMemory>
        requires { 0 < length piece.now }
        ensures handled { IfOk result (λ a. record { taken = a.0; link = self.new; news = a.1 } ≡ handled self.old piece.now) }
        ensures within { IfOk result (λ a. (1 ≤ a.0) × (a.0 ≤ length piece.now)) }
    {
        let alloc = self.alloc;
        let mut joined = mem::replace(&mut self.rest, Vec::new(alloc));
        let held = joined.len();
        let more = piece.len().min(FRAME_BYTES - held);
        extend(&mut joined, &piece[..more])?;
        match self.state.receive(alloc, joined.as_slice())? {
            Some((shown, news)) => {
                joined.clear();
                self.rest = joined;
                Ok((shown - held, news))
            }
            None => {
                self.rest = joined;
                Ok((piece.len(), Items::new(alloc)))
            }
        }
    }
}

fn extend(bytes: &mut Vec<u8>, more: &[u8]) -> Result<(), NoMemory>
    ensures ok { OnOk result (bytes.new.items ≡ bytes.old.items ++ more.now) }
    ensures err { OnErr result (bytes.new.items ≡ bytes.old.items) }
{
    bytes.extend_from_slice(more)?;
    Ok(())
}
