// The journal with the room that was made for its next entry.
ghost use Rattle.std.specs.Prelude.{◌≡◌, ◌≤◌, ◌++◌, ◌∷◌, [], length, OnErr, OnOk};
ghost use Rattle.channel_core.specs.Core.{last_moment, last_state};
ghost use Rattle.std.specs.Prelude.{max};

use attempt_ledger::Journal;
use grpc_base::{Conn, Entry, Items, Moment, NoMemory};
use std::alloc::Global;
use std::marker::Model;
use std::mem;

/// A journal, and for how many entries there is room after its last one.
#[derive(Debug, Drop)]
pub struct Kept {
    alloc: Global,
    journal: Journal,
    room: usize,
}

impl Model for Kept {
    ghost use Rattle.channel_core.specs.Core.{KeptSeen};

    ghost Value = { KeptSeen };

    ghost view = { λ k. record { entries = k.journal.entries; room = k.room } };
}

impl Kept {
    /// The empty journal, without room.
    pub fn new(alloc: Global) -> Kept
        ensures { result ≡ record { entries = []; room = 0 } }
    {
        Kept {
            alloc,
            journal: Journal::new(alloc),
            room: 0,
        }
    }

    /// Makes room for one entry. The journal is as before, whatever the answer.
    pub fn reserve_one(&mut self) -> Result<(), NoMemory>
        ensures ok { OnOk result (1 ≤ self.new.room) }
        ensures entries { self.new.entries ≡ self.old.entries }
    {
        if self.room > 0 {
            return Ok(());
        }
        let mut entries = mem::replace(
            &mut self.journal.entries,
            Items::new(self.alloc),
        ).into_vec();
        let reserved = entries.try_reserve(1);
        self.room = entries.capacity() - entries.len();
        self.journal.entries = Items::of_vec(entries);
        reserved?;
        Ok(())
    }

    /// Appends an entry in the room that was made for it. On out of memory the journal is as before.
    pub fn append(&mut self, entry: Entry) -> Result<(), NoMemory>
        requires { 1 ≤ self.old.room }
        ensures ok { OnOk result (self.new.entries ≡ self.old.entries ++ entry ∷ []) }
        ensures err { OnErr result (self.new.entries ≡ self.old.entries) }
    {
        self.journal.entries.push(entry)?;
        self.room -= 1;
        Ok(())
    }

    /// How many entries there are.
    pub fn len(&self) -> usize
        ensures { result ≡ length self.now.entries }
    {
        self.journal.entries.len()
    }

    /// The journal.
    pub fn journal(&self) -> &Journal
        ensures { result.now ≡ record { entries = self.now.entries } }
    {
        &self.journal
    }

    /// The moment of a step that is asked for at this moment: no earlier than the last one.
    pub fn step_moment(&self, moment: Moment) -> Moment
        ensures { result ≡ max moment (last_moment self.now.entries) }
    {
        let last = self.journal.entries.as_slice().last();
        last.map_or(moment, |entry| later(moment, entry.moment))
    }

    /// The channel's state after the last entry.
    pub fn last_state(&self) -> Conn
        ensures { result ≡ last_state self.now.entries }
    {
        let last = self.journal.entries.as_slice().last();
        last.map_or(Conn::Idle, |entry| entry.state)
    }
}

/// The later of two moments.
fn later(a: Moment, b: Moment) -> Moment
    ensures { result ≡ max a b }
{
    if a.nanos() < b.nanos() { b } else { a }
}
