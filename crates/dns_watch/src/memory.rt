// A lookup in memory, whose answers are made before, and which fails at the lookups at which it is made to.
ghost use Rattle.std.specs.Prelude.{◌≡◌, ◌∷◌, ◌↔◌, [], ℕ, List, Some, None, IfSome, IfNone};
ghost use Rattle.gate_io.specs.Memory.{FailsNext};
ghost use Rattle.grpc_base.specs.Counts.{one_more};
ghost use Rattle.dns_watch.specs.Lookups.{Answers, CountsFaults, looked_of};
ghost use Rattle.dns_watch.specs.Memory.{Finds, FindsNothing, MayFind, ips_of};

use crate::noted::Noted;
use crate::{Looked, Lookup};
use grpc_base::{DnsName, Items};
use std::marker::Model;
use std::vec::IntoIter;

/// A lookup in memory: each gives the next of its answers, whatever the name.
#[derive(Drop)]
pub struct MemLookup {
    answers: IntoIter<Items<u32>>,
    failing: Vec<u64>,
    noted: Noted,
}

impl Model for MemLookup {
    ghost use Rattle.std.specs.Vec.Iter.{into_iter_items};
    ghost use Rattle.dns_watch.specs.Memory.{LookupSeen};

    ghost Value = { LookupSeen };

    ghost view = { λ l. record { answers = into_iter_items l.answers; failing = l.failing.items; lookups = l.noted.lookups; faults = l.noted.faults; last = l.noted.last } };
}

impl MemLookup {
    /// A lookup that finds the IPv4 addresses of each of these answers in turn. Its lookups count from 1; those in
    /// `failing` fail, and take no answer, and so does each lookup once no answer is left.
    pub fn new(answers: Vec<Items<u32>>, failing: Vec<u64>) -> MemLookup
        ensures { result ≡ record { answers = answers.items; failing = failing.items; lookups = 0; faults = 0; last = None } }
    {
        MemLookup {
            answers: answers.into_iter(),
            failing,
            noted: Noted::new(),
        }
    }

    /// The next answer; None exactly where this lookup is to fail or no answer is left.
    fn next(&mut self) -> Option<Items<u32>>
        ensures some { IfSome result (λ ips. self.old.answers ≡ ips ∷ self.new.answers) }
        ensures none { IfNone result (self.new.answers ≡ self.old.answers) }
        ensures nothing { (result ≡ None) ↔ FindsNothing self.old }
        ensures same { (self.new.failing ≡ self.old.failing) × (self.new.lookups ≡ self.old.lookups) × (self.new.faults ≡ self.old.faults) × (self.new.last ≡ self.old.last) }
    {
        if self.failing.contains(&self.noted.lookups.saturating_add(1)) {
            return None;
        }
        self.answers.next()
    }
}

/// The IPv4 addresses of an answer.
fn ips_of(answer: &Option<Items<u32>>) -> &[u32]
    ensures { result.now ≡ ips_of answer.now }
{
    match answer {
        Some(ips) => ips.as_slice(),
        None => &[],
    }
}

impl Lookup for MemLookup {
    ghost lookups = { λ l. l.lookups };

    ghost faults = { λ l. l.faults };

    ghost last = { λ l. l.last };

    ghost may_find = { λ l _ ips. MayFind l ips };

    fn lookup(&mut self, name: &DnsName) -> Looked
        ensures answer { Answers (λ _ ips. MayFind self.old ips) name.now result }
        ensures left { (ips : List ℕ) × Finds self.old ips self.new.answers × (result ≡ looked_of name.now.port ips) }
        ensures lookups { self.new.lookups ≡ one_more self.old.lookups }
        ensures faults { CountsFaults self.old.faults self.new.faults result }
        ensures last { self.new.last ≡ Some result }
        ensures failing { self.new.failing ≡ self.old.failing }
    {
        let answer = self.next();
        self.noted.note(name.port, ips_of(&answer))
    }
}
