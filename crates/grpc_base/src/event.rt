// What is reported to the channel, what it replies, and how one step is kept.
ghost use Rattle.std.specs.Prelude.{◌≡◌, ◌≤◌, IfOk};
ghost use Rattle.grpc_base.specs.Refusals.{refusal_number};
ghost use Rattle.grpc_base.specs.Conns.{conn_number};
ghost use Rattle.grpc_base.specs.declared.event.Reply.TheVariants as reply;

use crate::{Address, BoxedAddresses, Code, Metadata, Moment, NoMemory, Octets, Request, Text};
use std::alloc::{AllocError, AllocFailed};

/// A connectivity state ("gRPC Connectivity Semantics and API").
#[derive(Clone, Copy, Debug, PartialEq, Eq)]
pub enum Conn {
    Idle,
    Connecting,
    Ready,
    /// TRANSIENT_FAILURE.
    Failure,
    Shutdown,
}

impl Conn {
    /// Its number, from 0 to 4.
    pub fn number(self) -> u8
        ensures { result ≡ conn_number self }
    {
        match self {
            Conn::Idle => 0,
            Conn::Connecting => 1,
            Conn::Ready => 2,
            Conn::Failure => 3,
            Conn::Shutdown => 4,
        }
    }
}

/// Why a call ended.
#[derive(Clone, Copy, Debug, PartialEq, Eq)]
pub enum EndCause {
    /// Its committed attempt ended.
    Row,
    /// Its deadline passed.
    Deadline,
    /// The application cancelled it.
    Cancelled,
    /// A message of the request was longer than allowed.
    Request,
    /// A message of the response was longer than allowed.
    Response,
    /// The channel has no service config, and the call does not wait for ready.
    NoConfig,
    /// The channel was shut down.
    Shut,
}

/// The first fault of a JSON text, at an offset in bytes from 0.
#[derive(Clone, Copy, Debug, PartialEq, Eq)]
pub enum JsonFault {
    /// The text is no longer the beginning of a JSON text with an object at its top.
    Syntax { at: u64 },
    /// A key stands twice in one object; the place of the second one's opening quote.
    RepeatedKey { at: u64 },
    /// A bracket opens the 33rd level.
    TooDeep { at: u64 },
    /// A number has an exponent; the place of its first byte.
    Number { at: u64 },
    /// The text has more than 65,536 bytes.
    TooLong,
    /// Out of memory.
    NoMemory,
}

impl From<NoMemory> for JsonFault {
    ghost use Rattle.std.specs.Prelude.{◌≡◌};
    ghost use Rattle.grpc_base.specs.declared.event.JsonFault.TheVariants as faults;

    ghost from_gives = { λ _ e. e ≡ faults.NoMemory };

    fn from(_e: NoMemory) -> JsonFault {
        JsonFault::NoMemory
    }
}

impl From<AllocError> for JsonFault {
    ghost use Rattle.std.specs.Prelude.{◌≡◌};
    ghost use Rattle.grpc_base.specs.declared.event.JsonFault.TheVariants as faults;

    ghost from_gives = { λ _ e. e ≡ faults.NoMemory };

    fn from(_e: AllocError) -> JsonFault {
        JsonFault::NoMemory
    }
}

impl<T: Drop> From<AllocFailed<T>> for JsonFault {
    ghost use Rattle.std.specs.Prelude.{◌≡◌};
    ghost use Rattle.grpc_base.specs.declared.event.JsonFault.TheVariants as faults;

    ghost from_gives = { λ _ e. e ≡ faults.NoMemory };

    fn from(_e: AllocFailed<T>) -> JsonFault {
        JsonFault::NoMemory
    }
}

/// The first fault of a service config.
#[derive(Debug, Drop, PartialEq, Eq)]
pub enum ConfigFault {
    /// The text is not JSON.
    Json { fault: JsonFault },
    /// A value is of the wrong kind or out of range.
    Field { path: Text },
    /// A method has both a retry and a hedging policy.
    BothPolicies { path: Text },
    /// A name stands twice.
    RepeatedName { path: Text },
    /// No policy that the config names is supported.
    NoSupportedPolicy,
    /// Out of memory.
    NoMemory,
}

/// What is reported to the channel: by the application, the resolver, the links and the clock.
#[derive(Debug, Drop)]
pub enum Event {
    /// The application begins a call.
    Begin {
        request: Request,
    },
    /// It sends a message.
    Send {
        call: u32,
        message: Octets,
    },
    /// It sends no further message.
    Finish {
        call: u32,
    },
    /// It asks for the head, the next message or the end.
    Take {
        call: u32,
    },
    /// It gives the call up.
    Cancel {
        call: u32,
    },
    /// The resolver has addresses and maybe a service config.
    Resolved {
        addresses: BoxedAddresses,
        config: Option<Octets>,
    },
    /// The resolver failed.
    ResolveFailed,
    /// The environment asks what to dial.
    TakeDial,
    /// The dial of this subchannel is a link.
    LinkUp {
        sub: u32,
    },
    /// The dial of this subchannel failed.
    DialFailed {
        sub: u32,
    },
    /// Bytes came on a link.
    Arrived {
        link: u32,
        piece: Octets,
    },
    /// A link is gone.
    LinkLost {
        link: u32,
    },
    /// The environment asks for bytes to write, at most `room`.
    Drain {
        link: u32,
        room: u32,
    },
    /// The environment asks for a PING with these eight bytes.
    Ping {
        link: u32,
        word: u64,
    },
    /// Time passed.
    Tick,
    /// The channel is shut down.
    Shutdown,
}

/// Why an event is refused.
#[derive(Clone, Copy, Debug, PartialEq, Eq)]
pub enum Refusal {
    /// No call has that number.
    NoSuchCall,
    /// The call ended; of a Take, its end was taken.
    CallEnded,
    /// The application sends no further message for this call.
    AfterFinish,
    /// No subchannel has this number.
    NoSuchSub,
    /// No dial of this subchannel is under way.
    NotDialing,
    /// No link has this number.
    NoSuchLink,
    /// The link is gone.
    LinkGone,
    /// The room is below 16,393 bytes, which the largest frame takes.
    RoomTooSmall,
    /// The channel was shut down.
    Shut,
}

impl Refusal {
    /// Its number, from 1 to 9.
    pub fn number(self) -> u8
        ensures value { result ≡ refusal_number self }
        ensures within { (1 ≤ result) × (result ≤ 9) }
    {
        match self {
            Refusal::NoSuchCall => 1,
            Refusal::CallEnded => 2,
            Refusal::AfterFinish => 3,
            Refusal::NoSuchSub => 4,
            Refusal::NotDialing => 5,
            Refusal::NoSuchLink => 6,
            Refusal::LinkGone => 7,
            Refusal::RoomTooSmall => 8,
            Refusal::Shut => 9,
        }
    }
}

/// What the channel replies to an event.
#[derive(Debug, Drop)]
pub enum Reply {
    /// The call's number.
    Call {
        call: u32,
    },
    Done,
    /// The call holds this many bytes that are not sent; the message is not taken.
    Full {
        held: u32,
    },
    /// The head of the response.
    Head {
        meta: Metadata,
    },
    /// The next message of the response.
    Message {
        octets: Octets,
    },
    /// The end of the call.
    End {
        code: Code,
        text: Text,
        meta: Metadata,
        cause: EndCause,
    },
    /// Nothing further has come.
    NotYet,
    /// The service config is invalid.
    BadConfig {
        fault: ConfigFault,
    },
    /// Dial this address for this subchannel, and give up at this moment.
    Dial {
        sub: u32,
        address: Address,
        until: u64,
    },
    /// The link's number.
    Link {
        link: u32,
    },
    /// Bytes to write.
    Octets {
        octets: Octets,
    },
    /// The event is refused, and changes nothing.
    Refused {
        refusal: Refusal,
    },
}

/// An event with the moment and the random word that came with it.
#[derive(Debug, Drop)]
pub struct Stamped {
    pub moment: Moment,
    pub word: u64,
    pub event: Event,
}

/// One step of the channel as its journal keeps it: the moment of the step, the event's word, the event,
/// the reply, and the channel's state after the step.
#[derive(Debug, Drop)]
pub struct Entry {
    pub moment: Moment,
    pub word: u64,
    pub event: Event,
    pub reply: Reply,
    pub state: Conn,
}

impl ConfigFault {
    /// The same fault.
    pub fn copy(&self) -> Result<ConfigFault, NoMemory>
        ensures { IfOk result (λ f. f ≡ self.now) }
    {
        let fault = match self {
            ConfigFault::Json { fault } => ConfigFault::Json { fault: *fault },
            ConfigFault::Field { path } => ConfigFault::Field { path: path.copy()? },
            ConfigFault::BothPolicies { path } => ConfigFault::BothPolicies { path: path.copy()? },
            ConfigFault::RepeatedName { path } => ConfigFault::RepeatedName { path: path.copy()? },
            ConfigFault::NoSupportedPolicy => ConfigFault::NoSupportedPolicy,
            ConfigFault::NoMemory => ConfigFault::NoMemory,
        };
        Ok(fault)
    }
}

/// The reply that a call ended, with copies of its text and metadata.
fn end_reply(code: Code, text: &Text, meta: &Metadata, cause: EndCause) -> Result<Reply, NoMemory>
    ensures { IfOk result (λ r. r ≡ reply.End code text.now meta.now cause) }
{
    let text = text.copy()?;
    let meta = meta.copy()?;
    Ok(Reply::End {
        code,
        text,
        meta,
        cause,
    })
}

impl Reply {
    /// The same reply; its bytes are shared.
    pub fn copy(&self) -> Result<Reply, NoMemory>
        ensures { IfOk result (λ r. r ≡ self.now) }
    {
        let reply = match self {
            Reply::Call { call } => Reply::Call { call: *call },
            Reply::Done => Reply::Done,
            Reply::Full { held } => Reply::Full { held: *held },
            Reply::Head { meta } => Reply::Head { meta: meta.copy()? },
            Reply::Message { octets } => Reply::Message {
                octets: octets.share()?,
            },
            Reply::End {
                code,
                text,
                meta,
                cause,
            } => end_reply(*code, text, meta, *cause)?,
            Reply::NotYet => Reply::NotYet,
            Reply::BadConfig { fault } => Reply::BadConfig {
                fault: fault.copy()?,
            },
            Reply::Dial {
                sub,
                address,
                until,
            } => Reply::Dial {
                sub: *sub,
                address: *address,
                until: *until,
            },
            Reply::Link { link } => Reply::Link { link: *link },
            Reply::Octets { octets } => Reply::Octets {
                octets: octets.share()?,
            },
            Reply::Refused { refusal } => Reply::Refused { refusal: *refusal },
        };
        Ok(reply)
    }
}
