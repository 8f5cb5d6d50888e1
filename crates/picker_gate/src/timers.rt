// Timers by their moments.
ghost use Rattle.std.specs.Prelude.{◌≡◌, ◌≤◌, ◌<◌, ◌||◌, ◌&&◌, [], ℕ, not, IsTrue, OnOk, OnErr, IfSome, IfNone, slice_get};
ghost use Rattle.std.specs.List.Sorted.{IsStrictlySortedBy};
ghost use Rattle.std.specs.BTreeSet.{insert_key};
ghost use Rattle.std.specs.Set.{remove_key};
ghost use Rattle.picker_gate.specs.Pairs.{first_due, has, is_same, next_moment, pair_cmp};

use grpc_base::NoMemory;
use std::alloc::Global;
use std::collections::BTreeSet;
use std::marker::Model;

/// What is to happen at its moment: due moments and deadlines of calls, calls that wait for their configuration. Each timer is a
/// moment in nanoseconds and a key, as the number of a call. Contracts see the list of timers, the earliest first and those of
/// one moment by their keys. No call looks at every timer.
#[derive(Drop)]
pub struct Timers {
    timers: BTreeSet<(u64, u64)>,
}

impl Model for Timers {
    ghost use Rattle.std.specs.Prelude.{ℕ, List};
    ghost use Rattle.std.specs.List.Sorted.{IsStrictlySortedBy};
    ghost use Rattle.picker_gate.specs.Pairs.{pair_cmp};

    ghost Value = { List (ℕ × ℕ) };

    ghost view = { λ t. t.timers.keys };

    ghost invariant = { λ t. IsStrictlySortedBy pair_cmp t.timers.keys };
}

impl Timers {
    /// No timer.
    pub fn new(alloc: Global) -> Timers
        ensures { result ≡ [] }
    {
        Timers {
            timers: BTreeSet::new(alloc),
        }
    }

    /// Sets a timer, unless it stands already. On out of memory all is as before.
    pub fn insert(&mut self, moment: u64, key: u64) -> Result<(), NoMemory>
        ensures ok { OnOk result (self.new ≡ insert_key pair_cmp self.old (moment, key)) }
        ensures stands { OnOk result ((t : ℕ × ℕ) → has self.new t ≡ (is_same (moment, key) t || has self.old t)) }
        ensures err { OnErr result (self.new ≡ self.old) }
        ensures ordered { IsStrictlySortedBy pair_cmp self.new }
    {
        self.timers.insert((moment, key))?;
        Ok(())
    }

    /// Takes a timer off, and says whether it stood.
    pub fn remove(&mut self, moment: u64, key: u64) -> bool
        ensures stood { result ≡ has self.old (moment, key) }
        ensures left { self.new ≡ remove_key (is_same (moment, key)) self.old }
        ensures stands { (t : ℕ × ℕ) → has self.new t ≡ (not (is_same (moment, key) t) && has self.old t) }
        ensures ordered { IsStrictlySortedBy pair_cmp self.new }
    {
        self.timers.remove(&(moment, key))
    }

    /// The first timer at or before this moment; None exactly where all are later.
    pub fn first_due(&self, moment: u64) -> Option<(u64, u64)>
        ensures first { result ≡ first_due self.now moment }
        ensures there { IfSome result (λ t. IsTrue (has self.now t)) }
        ensures due { IfSome result (λ t. t.0 ≤ moment) }
        ensures none { IfNone result ((t : ℕ × ℕ) → IsTrue (has self.now t) → moment < t.0) }
        ensures ordered { IsStrictlySortedBy pair_cmp self.now }
    {
        match self.first() {
            Some(timer) if timer.0 <= moment => Some(timer),
            Some(_) | None => None,
        }
    }

    /// The moment of the first timer; None exactly where there is none.
    pub fn next(&self) -> Option<u64>
        ensures next { result ≡ next_moment self.now }
        ensures least { IfSome result (λ m. (t : ℕ × ℕ) → IsTrue (has self.now t) → m ≤ t.0) }
    {
        match self.first() {
            Some(timer) => Some(timer.0),
            None => None,
        }
    }

    fn first(&self) -> Option<(u64, u64)>
        ensures first { result ≡ slice_get self.now 0 }
        ensures there { IfSome result (λ t. IsTrue (has self.now t)) }
        ensures least { IfSome result (λ f. (t : ℕ × ℕ) → IsTrue (has self.now t) → f.0 ≤ t.0) }
        ensures none { IfNone result (self.now ≡ []) }
        ensures ordered { IsStrictlySortedBy pair_cmp self.now }
    {
        match self.timers.first() {
            Some(timer) => Some(*timer),
            None => None,
        }
    }
}
