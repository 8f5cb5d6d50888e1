// What a step of the channel lends to one of its calls.
ghost use Rattle.std.specs.Prelude.{◌≡◌, []};

use crate::act::CallAct;
use grpc_base::{Items, Moment};
use std::alloc::Global;

/// The moment and the random word of a step, and what a call asks of the channel in it, in order. The ledger and the tokens of the
/// call's config are lent beside it: each has a place of its own in the channel.
#[derive(Drop)]
pub struct Turn {
    pub alloc: Global,
    pub moment: Moment,
    pub word: u64,
    pub acts: Items<CallAct>,
}

impl Turn {
    pub fn new(alloc: Global, moment: Moment, word: u64) -> Turn
        ensures { result ≡ record { alloc = alloc; moment = moment; word = word; acts = [] } }
    {
        Turn {
            alloc,
            moment,
            word,
            acts: Items::new(alloc),
        }
    }
}
