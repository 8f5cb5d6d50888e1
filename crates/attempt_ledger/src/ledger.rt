// The ledger: every attempt, call, pick request, generation and link, in the order of their making.
ghost use Rattle.std.specs.Prelude.{◌≡◌, []};

use crate::Row;
use grpc_base::{EndCause, Items, Kind, Pick};
use std::alloc::Global;

/// How a call ended. Entries count from 1.
#[derive(Clone, Copy, Debug, PartialEq, Eq)]
pub struct CallEnd {
    pub entry: u64,
    /// In nanoseconds.
    pub moment: u64,
    pub cause: EndCause,
}

/// A call, by the entries at which things happened to it.
#[derive(Debug, Drop)]
pub struct CallSeen {
    pub begun: u64,
    /// The entry at which it got its configuration.
    pub configured: Option<u64>,
    /// For each of its rows, in order, the entry at which the row was made.
    pub made: Items<u64>,
    pub end: Option<CallEnd>,
}

/// A pick request and its answer.
#[derive(Clone, Copy, Debug, PartialEq, Eq)]
pub struct Ask {
    pub entry: u64,
    pub generation: u32,
    /// The place of the row that asked, from 1.
    pub row: u64,
    pub answer: Pick,
}

/// One use of a policy, by the entries at which it became current and was retired.
#[derive(Clone, Copy, Debug, PartialEq, Eq)]
pub struct Generation {
    pub kind: Kind,
    pub activated: Option<u64>,
    pub retired: Option<u64>,
}

/// A link.
#[derive(Clone, Copy, Debug, PartialEq, Eq)]
pub struct LinkSeen {
    pub sub: u32,
    /// The entry at which it came up.
    pub up: u64,
    /// The first entry after which it is gone.
    pub gone: Option<u64>,
    /// The bytes up to the last frame that was applied.
    pub read: u64,
}

/// What the channel did. Rows, calls, generations and links are numbered from 1 by their places.
#[derive(Debug, Drop)]
pub struct Ledger {
    pub rows: Items<Row>,
    pub calls: Items<CallSeen>,
    pub asks: Items<Ask>,
    pub generations: Items<Generation>,
    pub links: Items<LinkSeen>,
    /// The entry that is being made, or the last one.
    pub entry: u64,
}

impl Ledger {
    /// The empty ledger.
    pub fn new(alloc: Global) -> Ledger
        ensures { result ≡ record { rows = []; calls = []; asks = []; generations = []; links = []; entry = 0 } }
    {
        Ledger {
            rows: Items::new(alloc),
            calls: Items::new(alloc),
            asks: Items::new(alloc),
            generations: Items::new(alloc),
            links: Items::new(alloc),
            entry: 0,
        }
    }

    /// The entry that is being made, or the last one.
    pub fn at(&self) -> u64
        ensures { result ≡ self.now.entry }
    {
        self.entry
    }
}
