// A link: what it is to its callers, and the calls that take bytes.
ghost use Rattle.std.specs.Prelude.{◌≡◌, ◌<◌, ◌≤◌, ◌+◌, ◌↔◌, ◌++◌, [], ℕ, length, IfOk, OnOk, OnErr, None, Some, Err};
ghost use Rattle.std.specs.List.{list_any};
ghost use Rattle.h2_server.specs.Received.{IsPart, handled};
ghost use Rattle.h2_server.specs.Outcomes.{WentAs, kept_bytes};
ghost use Rattle.h2_server.specs.Sends.{block_sent, data_sent, goaway_bytes, next_control, reset_sent, share_of};
ghost use Rattle.h2_server.specs.Wire.{fresh};

use crate::fault::LinkFault;
use crate::news::Arrival;
use crate::receive::Prefix;
use crate::share::Share;
use crate::state::State;
use bytes::BytesMut;
use grpc_base::NoMemory;
use std::alloc::Global;
use std::marker::Model;
use std::mem;

/// The most bytes of a frame: nine of its header and 16,384 of its payload.
pub(crate) const FRAME_BYTES: usize = 16_393;

/// One HTTP/2 connection as a server keeps it (RFC 9113). Of what was read it holds the bytes of the preface or of the
/// next frame, those of an open header block and the table of the header blocks, and nothing else.
#[derive(Debug, Drop)]
pub struct ServerLink {
    alloc: Global,
    /// Whether the client's preface came.
    prefaced: bool,
    state: State,
    rest: Vec<u8>,
}

impl Model for ServerLink {
    ghost use Rattle.h2_server.specs.Received.{IsPart};
    ghost use Rattle.h2_server.specs.Wire.{Seen};

    ghost Value = { Seen };

    ghost view = { λ l. record { prefaced = l.prefaced; wire = l.state; rest = l.rest.items } };

    ghost invariant = { λ l. IsPart l.prefaced l.rest.items };
}

impl ServerLink {
    /// A new link: the server's SETTINGS are to be sent.
    pub fn new(alloc: Global) -> Result<ServerLink, NoMemory>
        ensures { IfOk result (λ l. l ≡ fresh) }
    {
        let state = State::new(alloc)?;
        Ok(ServerLink {
            alloc,
            prefaced: false,
            state,
            rest: Vec::new(alloc),
        })
    }

    /// The code with which the link is broken.
    pub fn broken(&self) -> Option<u32>
        ensures { result ≡ self.now.wire.broken }
    {
        self.state.broken
    }

    /// How many bytes of input the link holds: those of the next frame, and those of an open header block.
    pub fn kept(&self) -> u64
        ensures value { result ≡ kept_bytes self.now }
        ensures within { result ≤ 16392 + 65536 }
    {
        let block = self.state.block_len();
        let rest = self.rest.len();
        rest as u64 + block as u64
    }

    /// Takes a piece up to the byte that ends the preface or a frame or shows a fault, or else all of it, and reports the
    /// news of that one frame. So a caller can act on them before it hands in the rest. Broken comes exactly where the
    /// link was broken before, with its code.
    pub fn arrived(&mut self, piece: &[u8]) -> Result<Arrival, LinkFault>
        requires { 0 < length piece.now }
        ensures gone { (code : ℕ) → (result ≡ Err (LinkFault.Broken code)) ↔ (self.old.wire.broken ≡ Some code) }
        ensures same { (code : ℕ) → result ≡ Err (LinkFault.Broken code) → self.new ≡ self.old }
        ensures whole { OnOk result ((self.old.wire.broken ≡ None) × IsPart self.old.prefaced self.old.rest) }
        ensures taken { IfOk result (λ a. a.taken ≡ (handled self.old piece.now).taken) }
        ensures within { IfOk result (λ a. (1 ≤ a.taken) × (a.taken ≤ length piece.now)) }
        ensures news { IfOk result (λ a. a.news ≡ (handled self.old piece.now).news) }
        ensures after { OnOk result (self.new ≡ (handled self.old piece.now).link) }
    {
        if let Some(code) = self.state.broken {
            return Err(LinkFault::Broken { code });
        }
        let (taken, news) = if self.rest.is_empty() {
            self.receive_first(piece)?
        } else {
            self.receive_after(piece)?
        };
        Ok(Arrival { taken, news })
    }

    /// A piece on a link that holds no bytes: a frame in it is not copied.
    fn receive_first(&mut self, piece: &[u8]) -> Result<Prefix, NoMemory>
        requires some { 0 < length piece.now }
        requires none { self.old.rest ≡ [] }
        ensures handled { IfOk result (λ a. record { taken = a.0; link = self.new; news = a.1 } ≡ handled self.old piece.now) }
        ensures within { IfOk result (λ a. (1 ≤ a.0) × (a.0 ≤ length piece.now)) }
    {
        let alloc = self.alloc;
        match self.state.receive(alloc, self.prefaced, piece)? {
            Some(prefix) => {
                self.prefaced = true;
                Ok(prefix)
            }
            None => {
                extend(&mut self.rest, piece)?;
                Ok((piece.len(), None))
            }
        }
    }

    /// A piece after the bytes that the link holds. Of the piece no more is copied than the longest frame needs.
    fn receive_after(&mut self, piece: &[u8]) -> Result<Prefix, NoMemory>
        requires { 0 < length piece.now }
        ensures handled { IfOk result (λ a. record { taken = a.0; link = self.new; news = a.1 } ≡ handled self.old piece.now) }
        ensures within { IfOk result (λ a. (1 ≤ a.0) × (a.0 ≤ length piece.now)) }
    {
        let alloc = self.alloc;
        let mut joined = mem::replace(&mut self.rest, Vec::new(alloc));
        let held = joined.len();
        let more = piece.len().min(FRAME_BYTES - held);
        extend(&mut joined, &piece[..more])?;
        match self.state.receive(alloc, self.prefaced, joined.as_slice())? {
            Some((shown, news)) => {
                joined.clear();
                self.prefaced = true;
                self.rest = joined;
                Ok((shown - held, news))
            }
            None => {
                self.rest = joined;
                Ok((piece.len(), None))
            }
        }
    }

    /// Sends the first queued frame, if there is one and it has no more bytes than the room; says whether it did. Queued
    /// are the server's SETTINGS, once; the acknowledgements of SETTINGS and PING; the WINDOW_UPDATEs for DATA; and
    /// RST_STREAM for stream errors, each in the order in which its cause came. A broken link has none.
    pub fn send_control(&mut self, room: u64, out: &mut BytesMut) -> Result<bool, NoMemory>
        ensures went { IfOk result (λ sent. WentAs sent room self.old.wire out.old.items (next_control self.old.wire) self.new.wire out.new.items) }
        ensures rest { OnOk result (self.new ≡ record self.old { wire = self.new.wire }) }
    {
        self.state.send_control(room, out)
    }

    /// Sends a header block of a response, without or with END_STREAM, after a table size update to 0 where the
    /// acknowledgement of a SETTINGS_HEADER_TABLE_SIZE was sent and no block since. A stream that is closed, or whose
    /// response has ended, sends nothing.
    pub fn send_block(
        &mut self,
        stream: u32,
        block: &[u8],
        ends: bool,
        out: &mut BytesMut,
    ) -> Result<(), NoMemory>
        requires { length block.now < 16384 }
        ensures state { OnOk result (self.new ≡ record self.old { wire = (block_sent self.old.wire stream block.now ends).wire }) }
        ensures out { OnOk result (out.new.items ≡ out.old.items ++ (block_sent self.old.wire stream block.now ends).octets) }
    {
        self.state.send_block(stream, block, ends, out)
    }

    /// What a stream may send in one frame of so many bytes that are left: as many as 16,384 and both windows allow,
    /// with END_STREAM exactly if nothing is left over them and nothing will be added. None where that is neither a
    /// byte nor END_STREAM, and for a stream that is closed, or whose response has ended.
    pub fn share(&self, stream: u32, left: u64, finished: bool) -> Option<Share>
        ensures { result ≡ share_of self.now.wire stream left finished }
    {
        self.state.share_of(stream, left, finished)
    }

    /// Sends one frame of DATA, the first bytes of those that are left, as `share` says. Answers that share.
    pub fn send_data(
        &mut self,
        stream: u32,
        left: &[u8],
        finished: bool,
        out: &mut BytesMut,
    ) -> Result<Option<Share>, NoMemory>
        ensures share { IfOk result (λ x. x ≡ share_of self.old.wire stream (length left.now) finished) }
        ensures state { OnOk result (self.new ≡ record self.old { wire = (data_sent self.old.wire stream left.now finished).wire }) }
        ensures out { OnOk result (out.new.items ≡ out.old.items ++ (data_sent self.old.wire stream left.now finished).octets) }
    {
        self.state.send_data(stream, left, finished, out)
    }

    /// Sends RST_STREAM, which closes the stream. A stream that is closed sends nothing.
    pub fn send_reset(&mut self, stream: u32, code: u32, out: &mut BytesMut) -> Result<(), NoMemory>
        ensures state { OnOk result (self.new ≡ record self.old { wire = (reset_sent self.old.wire stream code).wire }) }
        ensures out { OnOk result (out.new.items ≡ out.old.items ++ (reset_sent self.old.wire stream code).octets) }
    {
        self.state.send_reset(stream, code, out)
    }

    /// Sends GOAWAY with the last stream that the client opened. The link goes on as before.
    pub fn send_goaway(&self, code: u32, out: &mut BytesMut) -> Result<(), NoMemory>
        ensures { OnOk result (out.new.items ≡ out.old.items ++ goaway_bytes self.now.wire code) }
    {
        self.state.send_goaway(code, out)
    }
}

fn extend(bytes: &mut Vec<u8>, more: &[u8]) -> Result<(), NoMemory>
    ensures ok { OnOk result (bytes.new.items ≡ bytes.old.items ++ more.now) }
    ensures err { OnErr result (bytes.new.items ≡ bytes.old.items) }
{
    bytes.extend_from_slice(more)?;
    Ok(())
}
