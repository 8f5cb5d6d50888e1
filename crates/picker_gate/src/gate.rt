// The queue of attempts that wait for a pick.
ghost use Rattle.std.specs.Prelude.{◌≡◌, ◌||◌, ◌&&◌, [], ℕ, not, false, IsTrue, OnOk, OnErr, IfSome, IfNone};
ghost use Rattle.std.specs.List.Sorted.{IsStrictlySortedBy};
ghost use Rattle.std.specs.BTreeSet.{insert_key};
ghost use Rattle.std.specs.Set.{remove_key};
ghost use Rattle.std.specs.BTreeMap.Range.{IsLtBy, IsLeBy};
ghost use Rattle.picker_gate.specs.Pairs.{has, is_same, next_after, pair_cmp};

use grpc_base::NoMemory;
use std::alloc::Global;
use std::collections::BTreeSet;
use std::marker::Model;
use std::ops::Bound;

/// Attempts that wait for a pick, each as its call's number and its row's place in the ledger, in the order in which they are
/// served: by call, and within a call by row. Contracts see the list of pairs in that order.
#[derive(Drop)]
pub struct Gate {
    pairs: BTreeSet<(u32, u64)>,
}

impl Model for Gate {
    ghost use Rattle.std.specs.Prelude.{ℕ, List};
    ghost use Rattle.std.specs.List.Sorted.{IsStrictlySortedBy};
    ghost use Rattle.picker_gate.specs.Pairs.{pair_cmp};

    ghost Value = { List (ℕ × ℕ) };

    ghost view = { λ g. g.pairs.keys };

    ghost invariant = { λ g. IsStrictlySortedBy pair_cmp g.pairs.keys };
}

impl Gate {
    /// No attempt waits.
    pub fn new(alloc: Global) -> Gate
        ensures { result ≡ [] }
    {
        Gate {
            pairs: BTreeSet::new(alloc),
        }
    }

    /// Lets an attempt wait, unless it does already. On out of memory all is as before.
    pub fn join(&mut self, call: u32, row: u64) -> Result<(), NoMemory>
        ensures ok { OnOk result (self.new ≡ insert_key pair_cmp self.old (call, row)) }
        ensures waits { OnOk result ((q : ℕ × ℕ) → has self.new q ≡ (is_same (call, row) q || has self.old q)) }
        ensures err { OnErr result (self.new ≡ self.old) }
        ensures ordered { IsStrictlySortedBy pair_cmp self.new }
    {
        self.pairs.insert((call, row))?;
        Ok(())
    }

    /// Takes an attempt off, and says whether it waited.
    pub fn leave(&mut self, call: u32, row: u64) -> bool
        ensures waited { result ≡ has self.old (call, row) }
        ensures left { self.new ≡ remove_key (is_same (call, row)) self.old }
        ensures waits { (q : ℕ × ℕ) → has self.new q ≡ (not (is_same (call, row) q) && has self.old q) }
        ensures ordered { IsStrictlySortedBy pair_cmp self.new }
    {
        self.pairs.remove(&(call, row))
    }

    /// The first attempt after this one, which need not wait itself; None exactly where none stands after it.
    pub fn first_after(&self, call: u32, row: u64) -> Option<(u32, u64)>
        ensures first { result ≡ next_after self.now (call, row) }
        ensures there { IfSome result (λ p. IsTrue (has self.now p)) }
        ensures afterwards { IfSome result (λ p. IsLtBy pair_cmp (call, row) p) }
        ensures least { IfSome result (λ p. (q : ℕ × ℕ) → IsLtBy pair_cmp (call, row) q → IsTrue (has self.now q) → IsLeBy pair_cmp p q) }
        ensures none { IfNone result ((q : ℕ × ℕ) → IsLtBy pair_cmp (call, row) q → has self.now q ≡ false) }
        ensures ordered { IsStrictlySortedBy pair_cmp self.now }
    {
        // Mostly none waits.
        if self.pairs.is_empty() {
            return None;
        }
        match self
            .pairs
            .range((Bound::Excluded((call, row)), Bound::Unbounded))
            .next()
        {
            Some(pair) => Some(*pair),
            None => None,
        }
    }
}
