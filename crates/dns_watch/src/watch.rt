// When a name is looked up.
ghost use Rattle.std.specs.Prelude.{◌≡◌, ◌≤◌, ◌∷◌, [], List};
ghost use Rattle.grpc_base.specs.Limits.{moment_limit};
ghost use Rattle.dns_watch.specs.Schedule.{answered, failures_to, is_turn, newest_of, turn_after};
ghost use Rattle.dns_watch.specs.declared.watch.DnsAnswer.{DnsAnswer};

use a6_numbers::next_connect_wait;
use grpc_base::DnsName;
use std::marker::Model;

/// How long an answer with addresses stands before the name may be looked up again, in nanoseconds.
const FRESH: u64 = 30_000_000_000;

/// A lookup that was answered: when, with which random word, and whether it found addresses.
#[derive(Clone, Copy, Debug, PartialEq, Eq)]
pub struct DnsAnswer {
    pub moment: u64,
    pub word: u64,
    pub found: bool,
}

/// The newest lookup that was answered, and how many failed in a row up to it; the count stands still at its type's end.
#[derive(Clone, Copy, Debug, PartialEq, Eq)]
pub struct Newest {
    pub moment: u64,
    pub word: u64,
    pub failures: u32,
}

/// The schedule of a name's lookups. The first is made at once; after one that found addresses a further one is
/// made once the channel wants it, 30 s later at the earliest. After failures in a row, once the wait of as many
/// failed dials is over (gRPC, "Connection Backoff Protocol"). Moments are in nanoseconds, at most
/// 4,000,000,000,000,000,000.
#[derive(Debug, Drop)]
pub struct DnsWatch {
    name: DnsName,
    newest: Option<Newest>,
}

impl Model for DnsWatch {
    ghost use Rattle.std.specs.Prelude.{◌≤◌, IfSome};
    ghost use Rattle.grpc_base.specs.Limits.{moment_limit};
    ghost use Rattle.dns_watch.specs.Schedule.{WatchSeen};

    ghost Value = { WatchSeen };

    ghost view = { λ w. record { name = w.name; newest = w.newest } };

    ghost invariant = { λ w. IfSome w.newest (λ n. n.moment ≤ moment_limit) };
}

impl DnsWatch {
    /// The schedule of a name that was not looked up yet.
    pub fn new(name: DnsName) -> DnsWatch
        ensures { result ≡ record { name = name; newest = newest_of [] } }
    {
        DnsWatch { name, newest: None }
    }

    /// The name.
    pub fn name(&self) -> &DnsName
        ensures { result.now ≡ self.now.name }
    {
        &self.name
    }

    /// Whether the name is to be looked up at a moment; `wanted` says whether the channel wants a new result.
    pub fn turn(&self, moment: u64, wanted: bool) -> bool
        requires { moment ≤ moment_limit }
        ensures value { result ≡ is_turn self.now.newest moment wanted }
        ensures law { (log : List DnsAnswer) → self.now.newest ≡ newest_of log → result ≡ turn_after log moment wanted }
    {
        self.is_turn(moment, wanted)
    }

    /// Whether the name is to be looked up at a moment, by the newest answer.
    fn is_turn(&self, moment: u64, wanted: bool) -> bool
        requires { moment ≤ moment_limit }
        ensures { result ≡ is_turn self.now.newest moment wanted }
    {
        let Some(newest) = self.newest else {
            return true;
        };
        if newest.failures == 0 {
            return wanted && newest.moment + FRESH <= moment;
        }
        newest.moment + next_connect_wait(newest.failures, newest.word) <= moment
    }

    /// Notes that a lookup was answered at a moment, with a random word that spreads the wait after a failure.
    #[tactic(auto, using(crate::proofs::WaitLaws::answered_law))]
    pub fn answered(&mut self, moment: u64, word: u64, found: bool)
        requires { moment ≤ moment_limit }
        ensures value { self.new ≡ answered self.old (record { moment = moment; word = word; found = found }) }
        ensures law { (log : List DnsAnswer) → self.old.newest ≡ newest_of log → self.new.newest ≡ newest_of (record { moment = moment; word = word; found = found } ∷ log) }
    {
        let failures = if found {
            0
        } else {
            self.failures().saturating_add(1)
        };
        self.newest = Some(Newest {
            moment,
            word,
            failures,
        });
    }

    /// How many lookups failed in a row up to now.
    fn failures(&self) -> u32
        ensures { result ≡ failures_to self.now.newest }
    {
        match self.newest {
            Some(newest) => newest.failures,
            None => 0,
        }
    }
}
