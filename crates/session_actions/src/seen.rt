// All that has happened. No flow-control window, decoder table, token count, timer queue or rest of a frame is kept: each is computed. Some things
// are kept though they follow from the actions, since that is shorter. Of the entry that is being made: stage, drawn, turn. Of a subchannel: dials,
// again, until. Of a policy: failed. Of an attempt: reset. And wants.
use crate::{Attempt, Call, HeldConfig, Link, OpenEntry, PolicyUse, Subchannel, ThrottleRun};
use attempt_ledger::Ask;
use grpc_base::{Entry, Items, Kind, Text};

/// A load balancing policy that the channel was given, with the width of its tiers (1 where it has none).
#[derive(Clone, Copy, Debug, PartialEq, Eq)]
pub struct PolicyKind {
    pub kind: Kind,
    pub width: u64,
}

/// What a channel is made with.
#[derive(Debug, Drop)]
pub struct Setup {
    pub authority: Text,
    pub policies: Items<PolicyKind>,
}

/// What has happened so far.
#[derive(Debug, Drop)]
pub struct Seen {
    pub setup: Setup,
    /// The journal.
    pub entries: Items<Entry>,
    /// The entry that is being made.
    pub current: Option<OpenEntry>,
    pub calls: Items<Call>,
    pub attempts: Items<Attempt>,
    pub asks: Items<Ask>,
    pub policies: Items<PolicyUse>,
    pub subs: Items<Subchannel>,
    pub links: Items<Link>,
    pub configs: Items<HeldConfig>,
    pub runs: Items<ThrottleRun>,
    /// Whether the resolver has answered, with whatever.
    pub answered: bool,
    /// Whether a resolution is wanted: the resolver has not answered since the begin, a dial that failed or timed out, or a link that was lost or
    /// broke. No action depends on it; the environment may look at it.
    pub wants: bool,
    /// Whether the channel was shut down.
    pub shut: bool,
}
