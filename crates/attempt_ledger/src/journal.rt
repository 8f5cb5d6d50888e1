// The journal: every event that the channel was given, with its reply, in order.
ghost use Rattle.std.specs.Prelude.{◌≡◌, []};

use grpc_base::{Entry, Items};
use std::alloc::Global;

/// The steps of a channel in order. Entries count from 1.
#[derive(Debug, Drop)]
pub struct Journal {
    pub entries: Items<Entry>,
}

impl Journal {
    /// The empty journal.
    pub fn new(alloc: Global) -> Journal
        ensures { result ≡ record { entries = [] } }
    {
        Journal {
            entries: Items::new(alloc),
        }
    }
}
