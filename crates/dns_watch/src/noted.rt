// What a lookup notes of what it did.
ghost use Rattle.std.specs.Prelude.{◌≡◌, Some, None};
ghost use Rattle.grpc_base.specs.Counts.{one_more};
ghost use Rattle.dns_watch.specs.Lookups.{CountsFaults, looked_of};

use crate::Looked;
use crate::lookup::{is_found, looked_of};

/// How many lookups were made, how many of them failed, and the answer of the last one.
#[derive(Debug, Drop)]
pub(crate) struct Noted {
    pub lookups: u64,
    pub faults: u64,
    pub last: Option<Looked>,
}

impl Noted {
    /// No lookup was made.
    pub fn new() -> Noted
        ensures { result ≡ record { lookups = 0; faults = 0; last = None } }
    {
        Noted {
            lookups: 0,
            faults: 0,
            last: None,
        }
    }

    /// Notes a lookup that found these IPv4 addresses, and gives its answer.
    pub fn note(&mut self, port: u16, ips: &[u32]) -> Looked
        ensures answer { result ≡ looked_of port ips.now }
        ensures lookups { self.new.lookups ≡ one_more self.old.lookups }
        ensures faults { CountsFaults self.old.faults self.new.faults result }
        ensures last { self.new.last ≡ Some result }
    {
        let answer = looked_of(port, ips);
        self.lookups = self.lookups.saturating_add(1);
        if !is_found(&answer) {
            self.faults = self.faults.saturating_add(1);
        }
        self.last = Some(looked_of(port, ips));
        answer
    }
}
