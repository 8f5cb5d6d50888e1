// One connection of a client.
ghost use Rattle.std.specs.Prelude.{◌≡◌, ◌<◌, ◌≤◌, ◌-◌, ◌++◌, ◌↔◌, [], ℕ, drop, length, position, IfOk, OnOk, None, Some, Err};
ghost use Rattle.h2_server.specs.Received.{handled};
ghost use Rattle.relay_connection.specs.Arriving.{Arrives};
ghost use Rattle.relay_connection.specs.Draining.{Drains, goes, next, next_sent, stream_step};
ghost use Rattle.relay_connection.specs.Outcomes.{WentAs};
ghost use Rattle.relay_connection.specs.Relay.{fields_reported, fresh_relay, given, on_stream, silent, stream_opened, reported};
ghost use Rattle.relay_connection.specs.Streams.{cancels, may_send};

use crate::fault::RelayFault;
use crate::stream::{RelayStream, StreamNews};
use crate::streams::{cancel_all, give_at, next_place, place_of, receive_at, send_at};
use bytes::BytesMut;
use grpc_base::{Fields, NoMemory, Octets, Reply};
use h2_server::{LinkFault, RequestNews, ServerLink};
use relay_asks::RelayAsk;
use std::alloc::Global;
use std::marker::Model;

/// The most bytes of a frame that no window holds back.
const CONTROL_ROOM: u64 = 17;

/// The least room of a drain: the largest frame has so many bytes.
const LEAST_ROOM: u32 = 16_393;

/// One connection of a client, as a relay keeps it. It has no clock and no thread: bytes come in and are asked, items of responses
/// are given, and bytes go out. After out of memory it is of no use any more.
#[derive(Debug, Drop)]
pub struct RelayConnection {
    alloc: Global,
    link: ServerLink,
    /// The last stream that began, 0 for none.
    last: u32,
    /// The streams that are not over, in the order of their opening.
    streams: Vec<RelayStream>,
}

impl Model for RelayConnection {
    ghost use Rattle.relay_connection.specs.Relay.{Relay};

    ghost Value = { Relay };

    ghost view = { λ c. record { link = c.link; last = c.last; streams = c.streams.items } };
}

impl RelayConnection {
    /// A new connection: the server's SETTINGS are to be sent.
    pub fn new(alloc: Global) -> Result<RelayConnection, NoMemory>
        ensures { IfOk result (λ c. c ≡ fresh_relay) }
    {
        Ok(RelayConnection {
            alloc,
            link: ServerLink::new(alloc)?,
            last: 0,
            streams: Vec::new(alloc),
        })
    }

    /// Takes a piece of the client's bytes, and gives what it asks. Of the piece that breaks the protocol these are the asks of the
    /// frames before, and a Cancel for each call that is open. Broken comes exactly where a piece before broke it, with that code.
    pub fn arrived(&mut self, piece: &[u8]) -> Result<Vec<RelayAsk>, RelayFault>
        ensures broken { (code : ℕ) → (result ≡ Err (RelayFault.Broken code)) ↔ (self.old.link.wire.broken ≡ Some code) }
        ensures same { (code : ℕ) → result ≡ Err (RelayFault.Broken code) → self.new ≡ self.old }
        ensures roomless { result ≡ Err RelayFault.RoomTooSmall → ⊥ }
        ensures asks { IfOk result (λ asks. Arrives (silent self.old) piece.now (record { relay = self.new; asks = asks.items })) }
    {
        if let Some(code) = self.link.broken() {
            return Err(RelayFault::Broken { code });
        }
        let alloc = self.alloc;
        let mut asks = Vec::new(alloc);
        self.take(piece, &mut asks)?;
        Ok(asks)
    }

    /// Takes a piece, up to its end or until the link is broken.
    fn take(&mut self, piece: &[u8], asks: &mut Vec<RelayAsk>) -> Result<(), NoMemory>
        ensures { OnOk result (Arrives (record { relay = self.old; asks = asks.old.items }) piece.now (record { relay = self.new; asks = asks.new.items })) }
    {
        let mut rest = piece;
        while !rest.is_empty() && self.link.broken().is_none() {
            let taken = self.take_frame(rest, asks)?;
            rest = afterwards(rest, taken);
        }
        Ok(())
    }

    /// Takes one frame of a piece, and says how many bytes it has.
    fn take_frame(&mut self, piece: &[u8], asks: &mut Vec<RelayAsk>) -> Result<usize, NoMemory>
        requires some { 0 < length piece.now }
        requires whole { self.old.link.wire.broken ≡ None }
        ensures relay { OnOk result (self.new ≡ (reported (record self.old { link = (handled self.old.link piece.now).link }) (handled self.old.link piece.now).news).relay) }
        ensures asks { OnOk result (asks.new.items ≡ asks.old.items ++ (reported (record self.old { link = (handled self.old.link piece.now).link }) (handled self.old.link piece.now).news).asks) }
        ensures taken { IfOk result (λ taken. taken ≡ (handled self.old.link piece.now).taken) }
        ensures within { IfOk result (λ taken. (1 ≤ taken) × (taken ≤ length piece.now)) }
    {
        match self.link.arrived(piece) {
            Ok(arrival) => {
                self.receive(arrival.news, asks)?;
                Ok(arrival.taken)
            }
            Err(LinkFault::NoMemory) => Err(NoMemory),
            Err(LinkFault::Broken { code: _ }) => Ok(piece.len()),
        }
    }

    /// What the link reported.
    fn receive(
        &mut self,
        news: Option<RequestNews>,
        asks: &mut Vec<RelayAsk>,
    ) -> Result<(), NoMemory>
        ensures relay { OnOk result (self.new ≡ (reported self.old news).relay) }
        ensures asks { OnOk result (asks.new.items ≡ asks.old.items ++ (reported self.old news).asks) }
    {
        match news {
            None => Ok(()),
            Some(
                RequestNews::Fields {
                    stream,
                    fields,
                    end,
                },
            ) => self.receive_fields(stream, &fields, end, asks),
            Some(
                RequestNews::Data {
                    stream,
                    octets,
                    end,
                },
            ) => self.receive_stream(stream, &StreamNews::Data { octets, end }, asks),
            Some(RequestNews::Reset { stream, code: _ })
            | Some(RequestNews::Fault { stream, code: _ }) => {
                self.receive_stream(stream, &StreamNews::Breaks, asks)
            }
            Some(RequestNews::Broken { code: _ }) => self.break_off(asks),
        }
    }

    /// The link is broken.
    fn break_off(&mut self, asks: &mut Vec<RelayAsk>) -> Result<(), NoMemory>
        ensures relay { OnOk result (self.new ≡ record self.old { streams = [] }) }
        ensures asks { OnOk result (asks.new.items ≡ asks.old.items ++ cancels self.old.streams) }
    {
        cancel_all(&self.streams, asks)?;
        self.streams.clear();
        Ok(())
    }

    /// A header list: of a stream that begins, or trailers.
    fn receive_fields(
        &mut self,
        number: u32,
        fields: &Fields,
        end: bool,
        asks: &mut Vec<RelayAsk>,
    ) -> Result<(), NoMemory>
        ensures relay { OnOk result (self.new ≡ (fields_reported self.old number fields.now end).relay) }
        ensures asks { OnOk result (asks.new.items ≡ asks.old.items ++ (fields_reported self.old number fields.now end).asks) }
    {
        if self.last < number {
            return self.open_stream(number, fields, end, asks);
        }
        self.receive_stream(number, &StreamNews::Trailers { end }, asks)
    }

    fn open_stream(
        &mut self,
        number: u32,
        fields: &Fields,
        end: bool,
        asks: &mut Vec<RelayAsk>,
    ) -> Result<(), NoMemory>
        ensures relay { OnOk result (self.new ≡ (stream_opened self.old number fields.now end).relay) }
        ensures asks { OnOk result (asks.new.items ≡ asks.old.items ++ (stream_opened self.old number fields.now end).asks) }
    {
        let alloc = self.alloc;
        let stream = RelayStream::begin(alloc, number, fields, end, asks)?;
        self.streams.push(stream)?;
        self.last = number;
        Ok(())
    }

    /// News of the stream of a number.
    fn receive_stream(
        &mut self,
        number: u32,
        news: &StreamNews,
        asks: &mut Vec<RelayAsk>,
    ) -> Result<(), NoMemory>
        ensures relay { OnOk result (self.new ≡ (on_stream self.old number news.now).relay) }
        ensures asks { OnOk result (asks.new.items ≡ asks.old.items ++ (on_stream self.old number news.now).asks) }
    {
        let Some(place) = place_of(&self.streams, number) else {
            return Ok(());
        };
        let alloc = self.alloc;
        receive_at(alloc, &mut self.streams, place, news, asks)?;
        Ok(())
    }

    /// Gives an item of the response of a stream's call: a head, a message of at most 4,194,304 bytes or the end. A call that is not
    /// open gets none: one that did not begin, that has its end, or that was cancelled.
    pub fn give(&mut self, stream: u32, item: Reply) -> Result<(), NoMemory>
        ensures { OnOk result (self.new ≡ given self.old stream item) }
    {
        let Some(place) = place_of(&self.streams, stream) else {
            return Ok(());
        };
        give_at(&mut self.streams, place, &item)?;
        Ok(())
    }

    /// Gives bytes to write, whole frames, as many as the room has. First come the link's own frames: its SETTINGS, the
    /// acknowledgements of SETTINGS and PING, the WINDOW_UPDATEs for DATA, and RST_STREAM for stream errors. Then each time the next
    /// header block or DATA of the lowest stream that may send it. It stops at the first frame that has no room, for which a
    /// frame counts at least 17 bytes and a header block one more than it has, or once nothing may be sent. Broken comes exactly where
    /// the link is broken, with its code; RoomTooSmall exactly under 16,393 where it is not.
    pub fn drain(&mut self, room: u32) -> Result<Octets, RelayFault>
        ensures broken { (code : ℕ) → (result ≡ Err (RelayFault.Broken code)) ↔ (self.old.link.wire.broken ≡ Some code) }
        ensures small { (result ≡ Err RelayFault.RoomTooSmall) ↔ ((self.old.link.wire.broken ≡ None) × (room < 16393)) }
        ensures same { (code : ℕ) → result ≡ Err (RelayFault.Broken code) → self.new ≡ self.old }
        ensures kept { result ≡ Err RelayFault.RoomTooSmall → self.new ≡ self.old }
        ensures drains { IfOk result (λ octets. Drains room self.old (record { relay = self.new; octets = octets })) }
        ensures within { IfOk result (λ octets. length octets ≤ room) }
    {
        if let Some(code) = self.link.broken() {
            return Err(RelayFault::Broken { code });
        }
        if room < LEAST_ROOM {
            return Err(RelayFault::RoomTooSmall);
        }
        let out = self.send_all(u64::from(room))?;
        Ok(Octets::of_buffer(out)?)
    }

    /// Sends frames, until the next one has no room, or there is none.
    fn send_all(&mut self, room: u64) -> Result<BytesMut, NoMemory>
        ensures { IfOk result (λ out. Drains room self.old (record { relay = self.new; octets = out.items })) }
    {
        let alloc = self.alloc;
        let mut out = BytesMut::new(alloc);
        loop {
            let left = room.saturating_sub(out.len() as u64);
            if !self.send_next(left, &mut out)? {
                return Ok(out);
            }
        }
    }

    /// Sends the next frame where so much room suffices; says whether it did.
    fn send_next(&mut self, left: u64, out: &mut BytesMut) -> Result<bool, NoMemory>
        ensures { IfOk result (λ went. WentAs went (goes left (record { relay = self.old; octets = out.old.items }) (next self.old)) (record { relay = self.old; octets = out.old.items }) (record { relay = self.new; octets = out.new.items })) }
    {
        if left < CONTROL_ROOM {
            return Ok(false);
        }
        if self.link.send_control(u64::MAX, out)? {
            return Ok(true);
        }
        self.send_stream(left, out)
    }

    /// Sends the next frame of the first stream that may send something, where so much room suffices; says whether it did.
    fn send_stream(&mut self, left: u64, out: &mut BytesMut) -> Result<bool, NoMemory>
        ensures { IfOk result (λ went. WentAs went (goes left (record { relay = self.old; octets = out.old.items }) (stream_step self.old (position (may_send self.old.link.wire) self.old.streams))) (record { relay = self.old; octets = out.old.items }) (record { relay = self.new; octets = out.new.items })) }
    {
        let Some(place) = next_place(&self.streams, &self.link) else {
            return Ok(false);
        };
        if !self.streams[place].fits(left, &self.link) {
            return Ok(false);
        }
        send_at(&mut self.streams, place, &mut self.link, out)?;
        Ok(true)
    }
}

/// The bytes after so many.
fn afterwards(bytes: &[u8], taken: usize) -> &[u8]
    requires { taken ≤ length bytes.now }
    ensures { result.now ≡ drop taken bytes.now }
{
    &bytes[taken..]
}
