// The tags that have no stream yet.
ghost use Rattle.std.specs.Prelude.{◌≡◌, [], drop, OnOk, slice_get};
ghost use Rattle.std.specs.Ordering.{nat_cmp};
ghost use Rattle.std.specs.BTreeSet.{insert_key};
ghost use Rattle.std.specs.Set.{remove_key};
ghost use Rattle.std.specs.BTreeMap.{is_at};

use grpc_base::NoMemory;
use std::alloc::Global;
use std::collections::BTreeSet;
use std::marker::Model;

/// Tags in rising order, each once.
#[derive(Debug, Drop)]
pub(crate) struct Waiting {
    tags: BTreeSet<u64>,
}

impl Model for Waiting {
    ghost use Rattle.std.specs.Prelude.{ℕ, List};

    ghost Value = { List ℕ };

    ghost view = { λ w. w.tags.keys };
}

impl Waiting {
    pub(crate) fn new(alloc: Global) -> Waiting
        ensures { result ≡ [] }
    {
        Waiting {
            tags: BTreeSet::new(alloc),
        }
    }

    pub(crate) fn insert(&mut self, tag: u64) -> Result<(), NoMemory>
        ensures { OnOk result (self.new ≡ insert_key nat_cmp self.old tag) }
    {
        self.tags.insert(tag)?;
        Ok(())
    }

    pub(crate) fn remove(&mut self, tag: u64)
        ensures { self.new ≡ remove_key (is_at (nat_cmp tag)) self.old }
    {
        self.tags.remove(&tag);
    }

    /// The least tag.
    pub(crate) fn first(&self) -> Option<u64>
        ensures { result ≡ slice_get self.now 0 }
    {
        self.tags.first().copied()
    }

    /// Takes the least tag off.
    pub(crate) fn pop_first(&mut self)
        ensures { self.new ≡ drop 1 self.old }
    {
        let _least = self.tags.pop_first();
    }
}
