// What one stream asks, as its request comes.
ghost use Rattle.std.specs.Prelude.{◌≡◌, ◌++◌, ◌∷◌, [], if◌then◌else◌, map, IfOk, OnOk, Some, None};
ghost use Rattle.relay_asks.specs.Asking.{answered, begun, begun_by, data_reported, end_reported, given_up, judged, opened, sent, status_of};

use crate::ask::RelayAsk;
use grpc_base::limits::MESSAGE_BYTES;
use grpc_base::{Code, Fields, NoMemory, Octets};
use grpc_frame::{Fed, MessageFault, MessageReader};
use relay_request::{Incoming, read_request};
use std::alloc::Global;
use std::marker::Model;

/// One stream of a client, as far as it asks.
#[derive(Debug, Drop)]
pub struct AskingStream {
    number: u32,
    /// Whether what comes is asked: its request began a call, has not ended, and was not given up.
    asking: bool,
    /// Whether its call was begun, and neither ended nor was given up.
    is_open: bool,
    reader: MessageReader,
}

impl Model for AskingStream {
    ghost use Rattle.relay_asks.specs.Asking.{Asking};

    ghost Value = { Asking };

    ghost view = { λ s. record { number = s.number; asking = s.asking; is_open = s.is_open; reader = s.reader } };
}

/// Appends an ask where it is wanted.
fn push_if(asks: &mut Vec<RelayAsk>, wanted: bool, ask: RelayAsk) -> Result<(), NoMemory>
    ensures { OnOk result (asks.new.items ≡ asks.old.items ++ (if wanted then ask ∷ [] else [])) }
{
    if !wanted {
        return Ok(());
    }
    asks.push(ask)?;
    Ok(())
}

/// Appends a Send for each message.
fn push_sends(asks: &mut Vec<RelayAsk>, stream: u32, messages: Vec<Octets>) -> Result<(), NoMemory>
    ensures { OnOk result (asks.new.items ≡ asks.old.items ++ map (sent stream) messages.items) }
{
    let mut rest = messages.into_iter();
    while let Some(message) = rest.next() {
        asks.push(RelayAsk::Send { stream, message })?;
    }
    Ok(())
}

/// The status of a stream whose request has this fault; none where its call is not open.
fn status_of(is_open: bool, fault: MessageFault) -> Option<Code>
    ensures { result ≡ status_of is_open fault }
{
    if !is_open {
        return None;
    }
    match fault {
        MessageFault::BadFlag => Some(Code::Internal),
        MessageFault::TooLarge { length: _ } => Some(Code::ResourceExhausted),
    }
}

impl AskingStream {
    /// A stream whose request begins a call, or begins none.
    fn new(alloc: Global, number: u32, begins: bool) -> AskingStream
        ensures { result ≡ opened number begins }
    {
        AskingStream {
            number,
            asking: begins,
            is_open: begins,
            reader: MessageReader::new(alloc, MESSAGE_BYTES as u32),
        }
    }

    /// A stream that begins with this header list, and the status that its response gets where the list begins no call.
    pub fn begin(
        alloc: Global,
        number: u32,
        fields: &Fields,
        asks: &mut Vec<RelayAsk>,
    ) -> Result<(AskingStream, Option<Code>), NoMemory>
        ensures stream { IfOk result (λ r. r.0 ≡ (begun number fields.now).stream) }
        ensures status { IfOk result (λ r. r.1 ≡ (begun number fields.now).status) }
        ensures asks { OnOk result (asks.new.items ≡ asks.old.items ++ (begun number fields.now).asks) }
    {
        let incoming = read_request(alloc, fields)?;
        AskingStream::begin_as(alloc, number, incoming, asks)
    }

    fn begin_as(
        alloc: Global,
        number: u32,
        incoming: Incoming,
        asks: &mut Vec<RelayAsk>,
    ) -> Result<(AskingStream, Option<Code>), NoMemory>
        ensures stream { IfOk result (λ r. r.0 ≡ (begun_by number incoming).stream) }
        ensures status { IfOk result (λ r. r.1 ≡ (begun_by number incoming).status) }
        ensures asks { OnOk result (asks.new.items ≡ asks.old.items ++ (begun_by number incoming).asks) }
    {
        match incoming {
            Incoming::Begins(request) => {
                asks.push(RelayAsk::Begin {
                    stream: number,
                    request,
                })?;
                Ok((AskingStream::new(alloc, number, true), None))
            }
            Incoming::Refused(code) => { Ok((AskingStream::new(alloc, number, false), Some(code))) }
        }
    }

    /// Its number.
    pub fn number(&self) -> u32
        ensures { result ≡ self.now.number }
    {
        self.number
    }

    /// Whether what comes is still asked.
    pub fn is_asking(&self) -> bool
        ensures { result ≡ self.now.asking }
    {
        self.asking
    }

    /// Whether its call was begun, and neither ended nor was given up.
    pub fn is_open(&self) -> bool
        ensures { result ≡ self.now.is_open }
    {
        self.is_open
    }

    /// Takes the bytes of DATA: asks a Send for each message that they complete, and a Cancel where they show a message that is
    /// compressed or longer than 4,194,304 bytes. Answers the status that the response gets by itself then.
    pub fn receive_data(
        &mut self,
        octets: &Octets,
        asks: &mut Vec<RelayAsk>,
    ) -> Result<Option<Code>, NoMemory>
        ensures stream { OnOk result (self.new ≡ (data_reported self.old octets.now).stream) }
        ensures status { IfOk result (λ s. s ≡ (data_reported self.old octets.now).status) }
        ensures asks { OnOk result (asks.new.items ≡ asks.old.items ++ (data_reported self.old octets.now).asks) }
    {
        if !self.asking {
            return Ok(None);
        }
        let Fed { messages, fault } = self.reader.feed(octets)?;
        push_sends(asks, self.number, messages)?;
        self.judge(fault, asks)
    }

    /// What a fault of its messages makes of it, if there is one.
    fn judge(
        &mut self,
        fault: Option<MessageFault>,
        asks: &mut Vec<RelayAsk>,
    ) -> Result<Option<Code>, NoMemory>
        ensures stream { OnOk result (self.new ≡ (judged self.old fault).stream) }
        ensures status { IfOk result (λ s. s ≡ (judged self.old fault).status) }
        ensures asks { OnOk result (asks.new.items ≡ asks.old.items ++ (judged self.old fault).asks) }
    {
        let Some(fault) = fault else {
            return Ok(None);
        };
        let status = status_of(self.is_open, fault);
        self.cancel(asks)?;
        Ok(status)
    }

    /// The request ends: asks a Finish. A message that is cut off is dropped.
    pub fn end(&mut self, asks: &mut Vec<RelayAsk>) -> Result<(), NoMemory>
        ensures stream { OnOk result (self.new ≡ (end_reported self.old).stream) }
        ensures asks { OnOk result (asks.new.items ≡ asks.old.items ++ (end_reported self.old).asks) }
    {
        let asking = self.asking;
        let stream = self.number;
        self.asking = false;
        push_if(asks, asking, RelayAsk::Finish { stream })
    }

    /// Asks a Cancel where its call is open, and leaves the stream as it is.
    pub fn ask_cancel(&self, asks: &mut Vec<RelayAsk>) -> Result<(), NoMemory>
        ensures { OnOk result (asks.new.items ≡ asks.old.items ++ (given_up self.now).asks) }
    {
        let stream = self.number;
        push_if(asks, self.is_open, RelayAsk::Cancel { stream })
    }

    /// The stream is given up: asks a Cancel where its call is open, and nothing from then on.
    pub fn cancel(&mut self, asks: &mut Vec<RelayAsk>) -> Result<(), NoMemory>
        ensures stream { OnOk result (self.new ≡ (given_up self.old).stream) }
        ensures asks { OnOk result (asks.new.items ≡ asks.old.items ++ (given_up self.old).asks) }
    {
        self.ask_cancel(asks)?;
        self.asking = false;
        self.is_open = false;
        Ok(())
    }

    /// The end of its call was given. What comes is asked all the same.
    pub fn answer(&mut self)
        ensures { self.new ≡ answered self.old }
    {
        self.is_open = false;
    }
}
