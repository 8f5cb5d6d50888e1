// Kinds of load balancing policy, sets of them, and what a policy answers to a pick request.
ghost use Rattle.std.specs.Prelude.{◌≡◌, ◌≢◌, ◌<◌, Bool, IfSome, IfNone};
ghost use Rattle.grpc_base.specs.Kinds.{kind_name, kind_number, kind_named, kind_named_in_any_case, no_kinds, all_kinds, with_kind, has_kind};

use std::marker::Model;

/// A kind of load balancing policy.
#[derive(Clone, Copy, Debug, PartialEq, Eq)]
pub enum Kind {
    PickFirst,
    RoundRobin,
    /// Tiers of subchannels: a later one is used while every earlier one has failed.
    Priority,
}

/// How many kinds there are.
const KINDS: usize = Kind::ALL.len();

impl Kind {
    /// All kinds, in the order of their numbers.
    pub const ALL: [Kind; 3] = [Kind::PickFirst, Kind::RoundRobin, Kind::Priority];

    /// Its number, from 0: its place among all kinds.
    pub fn number(self) -> usize
        ensures { result ≡ kind_number self }
    {
        match self {
            Kind::PickFirst => 0,
            Kind::RoundRobin => 1,
            Kind::Priority => 2,
        }
    }

    /// Its name in a service config.
    pub fn name(&self) -> &'static str
        ensures { result.now ≡ kind_name self.now }
    {
        match self {
            Kind::PickFirst => "pick_first",
            Kind::RoundRobin => "round_robin",
            Kind::Priority => "priority",
        }
    }

    /// The kind of this name, spelled exactly.
    pub fn of_name(text: &[u8]) -> Option<Kind>
        ensures { result ≡ kind_named text.now }
    {
        Kind::ALL
            .iter()
            .copied()
            .find(|kind| kind.name().as_bytes() == text)
    }

    /// The kind of this name, whatever the case of ASCII's letters.
    pub fn of_name_in_any_case(text: &[u8]) -> Option<Kind>
        ensures { result ≡ kind_named_in_any_case text.now }
    {
        Kind::ALL
            .iter()
            .copied()
            .find(|kind| kind.name().as_bytes().eq_ignore_ascii_case(text))
    }
}

/// A set of kinds.
#[derive(Clone, Copy, Debug, PartialEq, Eq)]
pub struct KindSet {
    members: [bool; KINDS],
}

impl Model for KindSet {
    ghost use Rattle.std.specs.Prelude.{List, Bool};

    ghost Value = { List Bool };

    ghost view = { λ s. s.members };

    ghost inverse = { λ bs. record { members = bs } };
}

impl KindSet {
    /// The empty set.
    pub fn new() -> KindSet
        ensures { result ≡ no_kinds }
    {
        KindSet {
            members: [false; KINDS],
        }
    }

    /// The set of all kinds.
    pub fn all() -> KindSet
        ensures { result ≡ all_kinds }
    {
        KindSet {
            members: [true; KINDS],
        }
    }

    /// Adds a kind.
    pub fn add(&mut self, kind: Kind)
        ensures { self.new ≡ with_kind self.old kind }
    {
        self.members[kind.number()] = true;
    }

    /// Whether the set has this kind.
    pub fn has(&self, kind: Kind) -> bool
        ensures { result ≡ has_kind self.now kind }
    {
        self.members[kind.number()]
    }
}

/// What a policy answers to a pick request ("Load Balancing in gRPC").
#[derive(Clone, Copy, Debug, PartialEq, Eq)]
pub enum Pick {
    /// Use the subchannel of this number.
    Place(u32),
    /// Wait for another state.
    Wait,
    /// End the attempt, unless its call waits for ready.
    Fail,
}
