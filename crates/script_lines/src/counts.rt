// How many answers each path of a server script had.
ghost use Rattle.std.specs.Prelude.{◌≡◌, ◌≢◌, ℕ, List, OnOk, OnErr};
ghost use Rattle.script_lines.specs.Answers.{count_of};

use grpc_base::NoMemory;
use std::alloc::Global;
use std::collections::BTreeMap;
use std::marker::Model;

/// How often each path stood, as a map in the order of the paths. Contracts see it as a list of paths with their counts.
#[derive(Drop)]
pub struct Counts {
    counts: BTreeMap<Vec<u8>, u32>,
}

impl Model for Counts {
    ghost use Rattle.std.specs.Prelude.{map};
    ghost use Rattle.script_lines.specs.Answers.{Answered};

    ghost Value = { Answered };

    ghost view = { λ c. map (λ e. (e.0.items, e.1)) c.counts.entries };
}

impl Counts {
    /// No path stood.
    pub fn new(alloc: Global) -> Counts
        ensures { (path : List ℕ) → count_of result path ≡ 0 }
    {
        Counts {
            counts: BTreeMap::new(alloc),
        }
    }

    /// How often this path stood.
    pub fn of(&self, path: &[u8]) -> u32
        ensures { result ≡ count_of self.now path.now }
    {
        match self.counts.get(path) {
            Some(count) => *count,
            None => 0,
        }
    }

    /// Sets how often this path stood. On out of memory all is as before.
    pub fn set(&mut self, path: Vec<u8>, count: u32) -> Result<(), NoMemory>
        ensures ok { OnOk result (count_of self.new path.items ≡ count) }
        ensures others { OnOk result ((other : List ℕ) → other ≢ path.items → count_of self.new other ≡ count_of self.old other) }
        ensures err { OnErr result ((other : List ℕ) → count_of self.new other ≡ count_of self.old other) }
    {
        self.counts.insert(path, count)?;
        Ok(())
    }
}
