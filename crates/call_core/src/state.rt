// A call's record.
//
//   Begin ---> without a config -----------> configured --------------------> committed to one attempt
//                 |          a config is held    |    a head, an overflow,         |
//                 |                              |    or a last end                | that attempt ends,
//                 | Cancel, deadline, Shutdown,  | Cancel, deadline, Shutdown,     | or as before
//                 | no config to wait for        | a message above its limit       |
//                 v                              v                                 v
//                 +-------------------------> ended <------------------------------+
//
// A commitment cuts off all other attempts. What came is still taken once the call has ended, and then its end.
ghost use Rattle.std.specs.Prelude.{◌≡◌};
ghost use Rattle.call_core.specs.Parts.{has_none};
ghost use Rattle.call_core.specs.Steps.{call_plan, new_call};

use crate::attempts::Attempts;
use crate::inbox::Inbox;
use crate::live::LiveRow;
use attempt_buffer::Buffer;
use grpc_base::{CallPlan, Chosen, EndCause, Items, Moment, Request};
use std::alloc::Global;

/// What a call knows.
#[derive(Drop)]
pub struct CallState {
    /// Its number in the ledger, from 1.
    pub number: u32,
    pub request: Request,
    /// The moment of its Begin.
    pub begun: Moment,
    /// Its configuration, once it has it.
    pub chosen: Option<Chosen>,
    /// Whether the application sends no further message.
    pub is_finished: bool,
    /// The bytes of the longest message that was accepted.
    pub longest: usize,
    /// The messages that it sends.
    pub buffer: Buffer,
    pub attempts: Attempts,
    /// Its rows that are queued or outstanding, by their places.
    pub live: Items<LiveRow>,
    pub inbox: Inbox,
    pub ended: Option<EndCause>,
}

impl CallState {
    /// A call that began.
    pub fn new(alloc: Global, number: u32, request: Request, begun: Moment) -> CallState
        ensures { result ≡ new_call number request begun }
    {
        CallState {
            number,
            request,
            begun,
            chosen: None,
            is_finished: false,
            longest: 0,
            buffer: Buffer::new(alloc),
            attempts: Attempts::none(),
            live: Items::new(alloc),
            inbox: Inbox::new(alloc),
            ended: None,
        }
    }

    /// Its plan; none before the configuration.
    pub fn plan(&self) -> CallPlan
        ensures { result ≡ call_plan self.now }
    {
        let chosen = self.chosen.as_ref();
        chosen.map_or(CallPlan::None, |chosen| chosen.plan)
    }

    /// Whether no row is queued or outstanding.
    #[tactic(auto, using(crate::proofs::Rows::none_exact))]
    pub fn is_idle(&self) -> bool
        ensures { result ≡ has_none self.now.live }
    {
        self.live.is_empty()
    }
}
