// A source and a sink in memory, which fail at the calls at which they are made to.
ghost use Rattle.std.specs.Prelude.{◌≡◌, ◌<◌, ◌↔◌, ◌⊎◌, [], Some, false, true, length};
ghost use Rattle.gate_io.specs.Memory.{FailsNext, GivesMost, TakesMost};
ghost use Rattle.gate_io.specs.Outside.{Reads, CountsRead, Writes, CountsWrite, one_more};

use crate::copied::copy_prefix;
use crate::{ReadAnswer, Sink, Source, WriteAnswer};
use std::alloc::Global;
use std::marker::Model;

/// Bytes in memory, read in pieces.
#[derive(Debug, Drop)]
pub struct MemSource {
    bytes: Vec<u8>,
    at: usize,
    most: usize,
    failing: Vec<u64>,
    calls: u64,
    faults: u64,
}

impl Model for MemSource {
    ghost use Rattle.std.specs.Prelude.{◌<◌, ◌≤◌, length, drop};
    ghost use Rattle.gate_io.specs.Memory.{SourceSeen};

    ghost Value = { SourceSeen };

    ghost view = { λ s. record { left = drop s.at s.bytes.items; most = s.most; failing = s.failing.items; calls = s.calls; faults = s.faults } };

    ghost invariant = { λ s. (s.at ≤ length s.bytes.items) × (0 < s.most) };
}

impl MemSource {
    /// A source of these bytes that gives at most `most` of them in one read.
    /// The calls of `read` count from 1, and those in `failing` fail.
    pub fn new(bytes: Vec<u8>, most: usize, failing: Vec<u64>) -> MemSource
        requires { 0 < most }
        ensures { result ≡ record { left = bytes.items; most = most; failing = failing.items; calls = 0; faults = 0 } }
    {
        MemSource {
            bytes,
            at: 0,
            most,
            failing,
            calls: 0,
            faults: 0,
        }
    }
}

impl Source for MemSource {
    ghost left = { λ s. Some s.left };

    ghost faults = { λ s. s.faults };

    #[tactic(auto, using(crate::proofs::ReadLaws::prefix_and_rest, crate::proofs::ReadLaws::nothing_left))]
    fn read(&mut self, buf: &mut [u8]) -> ReadAnswer
        requires { 0 < length buf.old }
        ensures bytes { Reads (Some self.old.left) (Some self.new.left) (length buf.old) buf.new result }
        ensures count { CountsRead self.old.faults self.new.faults result }
        ensures failed { (result ≡ ReadAnswer.Failed) ↔ FailsNext self.old.failing self.old.calls }
        ensures most { GivesMost self.old (length buf.old) result }
        ensures calls { self.new.calls ≡ one_more self.old.calls }
        ensures same { (self.new.failing ≡ self.old.failing) × (self.new.most ≡ self.old.most) }
    {
        self.calls = self.calls.saturating_add(1);
        if self.failing.contains(&self.calls) {
            self.faults = self.faults.saturating_add(1);
            return ReadAnswer::Failed;
        }
        let count = copy_prefix(&self.bytes.as_slice()[self.at..], self.most, buf);
        if count == 0 {
            return ReadAnswer::End;
        }
        self.at += count;
        ReadAnswer::Got(count)
    }
}

/// A sink that keeps what it takes, piece by piece.
#[derive(Debug, Drop)]
pub struct MemSink {
    taken: Vec<u8>,
    most: usize,
    failing: Vec<u64>,
    calls: u64,
    wanting: bool,
    faults: u64,
}

impl Model for MemSink {
    ghost use Rattle.std.specs.Prelude.{◌<◌};
    ghost use Rattle.gate_io.specs.Memory.{SinkSeen};

    ghost Value = { SinkSeen };

    ghost view = { λ s. record { taken = s.taken.items; most = s.most; failing = s.failing.items; calls = s.calls; wanting = s.wanting; faults = s.faults } };

    ghost invariant = { λ s. 0 < s.most };
}

impl MemSink {
    /// A sink that takes at most `most` bytes in one write.
    /// The calls of `write` count from 1, and those in `failing` fail; out of memory fails too.
    pub fn new(alloc: Global, most: usize, failing: Vec<u64>) -> MemSink
        requires { 0 < most }
        ensures { result ≡ record { taken = []; most = most; failing = failing.items; calls = 0; wanting = false; faults = 0 } }
    {
        MemSink {
            taken: Vec::new(alloc),
            most,
            failing,
            calls: 0,
            wanting: false,
            faults: 0,
        }
    }

    /// What was taken so far.
    pub fn taken(&self) -> &[u8]
        ensures { result.now ≡ self.now.taken }
    {
        self.taken.as_slice()
    }
}

impl Sink for MemSink {
    ghost taken = { λ s. Some s.taken };

    ghost faults = { λ s. s.faults };

    fn write(&mut self, piece: &[u8]) -> WriteAnswer
        requires { 0 < length piece.now }
        ensures bytes { Writes (Some self.old.taken) (Some self.new.taken) piece.now result }
        ensures count { CountsWrite self.old.faults self.new.faults result }
        ensures failed { (result ≡ WriteAnswer.Failed) ↔ (FailsNext self.old.failing self.old.calls ⊎ (self.new.wanting ≡ true)) }
        ensures most { TakesMost self.old (length piece.now) result }
        ensures calls { self.new.calls ≡ one_more self.old.calls }
        ensures same { (self.new.failing ≡ self.old.failing) × (self.new.most ≡ self.old.most) }
    {
        self.calls = self.calls.saturating_add(1);
        self.wanting = false;
        if self.failing.contains(&self.calls) {
            self.faults = self.faults.saturating_add(1);
            return WriteAnswer::Failed;
        }
        let count = piece.len().min(self.most);
        if self.taken.extend_from_slice(&piece[..count]).is_err() {
            self.wanting = true;
            self.faults = self.faults.saturating_add(1);
            return WriteAnswer::Failed;
        }
        WriteAnswer::Took(count)
    }
}
