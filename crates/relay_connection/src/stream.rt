// One stream: what it asks, and what it answers.
ghost use Rattle.std.specs.Prelude.{◌≡◌, ◌++◌, IfOk, OnOk};
ghost use Rattle.relay_connection.specs.Streams.{begun_as, broken_off, ended_if, fits, is_numbered, is_over, item_given, may_send, sent, stream_begun, stream_data, stream_reported, with_status};

use bytes::BytesMut;
use grpc_base::{Code, Fields, Metadata, NoMemory, Octets, Reply, Text};
use h2_server::ServerLink;
use relay_answer::AnsweringStream;
use relay_asks::{AskingStream, RelayAsk};
use std::alloc::Global;

/// One stream of a client.
#[derive(Debug, Drop)]
pub struct RelayStream {
    pub asking: AskingStream,
    pub answer: AnsweringStream,
}

/// What a link reports of a stream after its header list.
#[derive(Debug, Drop)]
pub enum StreamNews {
    /// Bytes of DATA, without or with END_STREAM.
    Data { octets: Octets, end: bool },
    /// A second header list, without or with END_STREAM.
    Trailers { end: bool },
    /// A reset, or a stream error.
    Breaks,
}

impl RelayStream {
    /// A stream that begins with this header list, without or with END_STREAM.
    pub(crate) fn begin(
        alloc: Global,
        number: u32,
        fields: &Fields,
        end: bool,
        asks: &mut Vec<RelayAsk>,
    ) -> Result<RelayStream, NoMemory>
        ensures stream { IfOk result (λ s. s ≡ (stream_begun number fields.now end).stream) }
        ensures asks { OnOk result (asks.new.items ≡ asks.old.items ++ (stream_begun number fields.now end).asks) }
    {
        let (asking, status) = AskingStream::begin(alloc, number, fields, asks)?;
        RelayStream::begin_as(alloc, asking, status, end, asks)
    }

    fn begin_as(
        alloc: Global,
        asking: AskingStream,
        status: Option<Code>,
        end: bool,
        asks: &mut Vec<RelayAsk>,
    ) -> Result<RelayStream, NoMemory>
        ensures stream { IfOk result (λ s. s ≡ (begun_as asking status end).stream) }
        ensures asks { OnOk result (asks.new.items ≡ asks.old.items ++ (begun_as asking status end).asks) }
    {
        let mut stream = RelayStream {
            asking,
            answer: AnsweringStream::new(alloc),
        };
        stream.give_status(alloc, status)?;
        stream.end_if(end, asks)?;
        Ok(stream)
    }

    /// The status that its response gets by itself, if it gets one.
    fn give_status(&mut self, alloc: Global, status: Option<Code>) -> Result<(), NoMemory>
        ensures { OnOk result (self.new ≡ record self.old { answer = with_status self.old.answer status }) }
    {
        match status {
            None => Ok(()),
            Some(code) => self
                .answer
                .give_end(code, &Text::new(alloc), &Metadata::new(alloc)),
        }
    }

    /// END_STREAM, or none.
    fn end_if(&mut self, end: bool, asks: &mut Vec<RelayAsk>) -> Result<(), NoMemory>
        ensures stream { OnOk result (self.new ≡ (ended_if end self.old).stream) }
        ensures asks { OnOk result (asks.new.items ≡ asks.old.items ++ (ended_if end self.old).asks) }
    {
        if !end {
            return Ok(());
        }
        self.asking.end(asks)
    }

    /// Bytes of DATA.
    fn receive_data(
        &mut self,
        alloc: Global,
        octets: &Octets,
        end: bool,
        asks: &mut Vec<RelayAsk>,
    ) -> Result<(), NoMemory>
        ensures stream { OnOk result (self.new ≡ (stream_data self.old octets.now end).stream) }
        ensures asks { OnOk result (asks.new.items ≡ asks.old.items ++ (stream_data self.old octets.now end).asks) }
    {
        let status = self.asking.receive_data(octets, asks)?;
        self.give_status(alloc, status)?;
        self.end_if(end, asks)
    }

    /// A reset, or a stream error: what waits is never sent.
    fn break_off(&mut self, alloc: Global, asks: &mut Vec<RelayAsk>) -> Result<(), NoMemory>
        ensures stream { OnOk result (self.new ≡ (broken_off self.old).stream) }
        ensures asks { OnOk result (asks.new.items ≡ asks.old.items ++ (broken_off self.old).asks) }
    {
        self.answer = AnsweringStream::new(alloc);
        self.asking.cancel(asks)
    }

    /// What the link reports of it.
    pub(crate) fn receive(
        &mut self,
        alloc: Global,
        news: &StreamNews,
        asks: &mut Vec<RelayAsk>,
    ) -> Result<(), NoMemory>
        ensures stream { OnOk result (self.new ≡ (stream_reported self.old news.now).stream) }
        ensures asks { OnOk result (asks.new.items ≡ asks.old.items ++ (stream_reported self.old news.now).asks) }
    {
        match news {
            StreamNews::Data { octets, end } => self.receive_data(alloc, octets, *end, asks),
            StreamNews::Trailers { end } => self.end_if(*end, asks),
            StreamNews::Breaks => self.break_off(alloc, asks),
        }
    }

    /// An item of its call's response: a head, a message or the end. Another reply gives nothing.
    pub(crate) fn give(&mut self, item: &Reply) -> Result<(), NoMemory>
        ensures { OnOk result (self.new ≡ item_given self.old item.now) }
    {
        match item {
            Reply::Head { meta } => self.answer.give_head(meta),
            Reply::Message { octets } => self.answer.give_message(octets),
            Reply::End {
                code,
                text,
                meta,
                cause: _,
            } => {
                self.asking.answer();
                self.answer.give_end(*code, text, meta)
            }
            _ => Ok(()),
        }
    }

    /// Whether it has this number.
    pub(crate) fn is_numbered(&self, number: u32) -> bool
        ensures { result ≡ is_numbered number self.now }
    {
        self.asking.number() == number
    }

    /// Whether nothing more is to come or to go: its request has ended, its call too, and all was sent.
    pub(crate) fn is_over(&self) -> bool
        ensures { result ≡ is_over self.now }
    {
        !self.asking.is_asking() && !self.asking.is_open() && self.answer.is_sent()
    }

    /// Whether it may send something now.
    pub(crate) fn may_send(&self, link: &ServerLink) -> bool
        ensures { result ≡ may_send link.now.wire self.now }
    {
        self.answer.next_room(self.asking.number(), link).is_some()
    }

    /// Whether it may send something now for which so much room is left.
    pub(crate) fn fits(&self, left: u64, link: &ServerLink) -> bool
        ensures { result ≡ fits left link.now.wire self.now }
    {
        match self.answer.next_room(self.asking.number(), link) {
            Some(room) => room <= left,
            None => false,
        }
    }

    /// Sends its next frame.
    pub(crate) fn send(&mut self, link: &mut ServerLink, out: &mut BytesMut) -> Result<(), NoMemory>
        ensures stream { OnOk result (self.new ≡ (sent link.old.wire self.old).stream) }
        ensures link { OnOk result (link.new ≡ record link.old { wire = (sent link.old.wire self.old).wire }) }
        ensures out { OnOk result (out.new.items ≡ out.old.items ++ (sent link.old.wire self.old).octets) }
    {
        let number = self.asking.number();
        self.answer.send(number, link, out)
    }
}
