// A connection, and the frames that passed on it.
use grpc_base::{Fields, Items, Octets, Text};
use std::marker::Model;

/// A frame.
#[derive(Debug, Drop)]
pub struct WireFrame {
    pub kind: u8,
    pub flags: u8,
    pub stream: u32,
    pub payload: Octets,
}

impl Model for WireFrame {
    ghost use Rattle.h2_frame.specs.Frames.{FrameSeen};

    ghost Value = { FrameSeen };

    ghost view = { λ f. record { kind = f.kind; flags = f.flags; stream = f.stream; payload = f.payload } };
}

/// A whole header block.
#[derive(Debug, Drop)]
pub struct Block {
    pub fields: Fields,
    /// Whether it ends its stream.
    pub ends: bool,
}

/// A whole frame that was read.
#[derive(Debug, Drop)]
pub struct ReadFrame {
    pub frame: WireFrame,
    /// How many bytes of the link were read up to its end.
    pub end: u64,
    /// The header block that it completes.
    pub block: Option<Block>,
}

/// What the client writes: its connection preface with SETTINGS, or a frame.
#[derive(Debug, Drop)]
pub enum Sent {
    Preface,
    Frame { frame: WireFrame },
}

/// What passed on a link.
#[derive(Debug, Drop)]
pub enum Traffic {
    Read { read: ReadFrame },
    Written { sent: Sent },
}

/// Why a link is over.
#[derive(Clone, Copy, Debug, PartialEq, Eq)]
pub enum LinkOver {
    /// The environment lost it.
    Lost,
    /// The peer broke a rule.
    Broken,
    /// The server's SETTINGS did not come in time.
    TimedOut,
}

/// A link. Links are numbered from 1.
#[derive(Debug, Drop)]
pub struct Link {
    pub number: u32,
    pub sub: u32,
    /// The entry in which it came up.
    pub up: u64,
    /// The bytes that came.
    pub received: Octets,
    /// What was read and written, in the order in which it was.
    pub traffic: Items<Traffic>,
    /// All control frames that were queued so far, in order; those that were written are its beginning.
    pub owed: Items<WireFrame>,
    pub over: Option<LinkOver>,
    /// The first entry after which it is gone.
    pub gone: Option<u64>,
}

/// A header block that is begun.
#[derive(Debug, Drop)]
pub struct OpenBlock {
    pub stream: u32,
    /// Whether it ends its stream.
    pub ends: bool,
    pub bytes: Text,
}

/// What the bytes of a link show that were not read yet.
#[derive(Debug, Drop)]
pub enum NextRead {
    /// No whole frame.
    Nothing,
    /// A whole frame that breaks no rule.
    Frame { read: ReadFrame },
    /// The peer broke a rule of the whole link.
    Broken { code: u32 },
}
