// A session as one list of actions: what may be looked at (plain history) and the actions themselves, as data. What each action needs and adds, and
// which one is next, stands in specs/. There Actions shows the whole; its parts are read in this order. What is everywhere: Words, Entries, Calls. A
// call: Configs, Attempts, Tokens, DueAttempts, Making, Commitments, CallEnds, Deliveries. The wire: Links, Reading, Responses, Writing, AttemptEnds.
// Connections: Policies, Subchannels. An entry: Refusals, Events, Closing, Actions, Sessions.
#![tactic(auto)]

mod action;
mod attempt;
mod call;
mod config;
mod due;
mod entry;
mod laws;
mod link;
mod policy;
mod response;
mod seen;
mod subchannel;

pub use action::{Action, CommitCause};
pub use attempt::Attempt;
pub use call::{Call, Mark, MarkKind};
pub use config::{HeldConfig, ThrottleRun};
pub use due::DueState;
pub use entry::{OpenEntry, Stage, Turn};
pub use laws::posts_decide;
pub use link::{Block, Link, LinkOver, NextRead, OpenBlock, ReadFrame, Sent, Traffic, WireFrame};
pub use policy::PolicyUse;
pub use response::{Outcome, Response};
pub use seen::{PolicyKind, Seen, Setup};
pub use subchannel::Subchannel;
