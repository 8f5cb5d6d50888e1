// A source and a sink that never fail: their count of faults is always 0.
ghost use Rattle.std.specs.Prelude.{◌≡◌, ◌+◌, Some, None, length, min};

use crate::copied::copy_prefix;
use crate::{ReadAnswer, Sink, Source, WriteAnswer};
use std::marker::Model;

/// Bytes in memory, each read of which gives as many as fit.
#[derive(Debug, Drop)]
pub struct SteadySource {
    bytes: Vec<u8>,
    at: usize,
}

impl Model for SteadySource {
    ghost use Rattle.std.specs.Prelude.{◌≤◌, List, ℕ, length, drop};

    ghost Value = { List ℕ };

    ghost view = { λ s. drop s.at s.bytes.items };

    ghost invariant = { λ s. s.at ≤ length s.bytes.items };
}

impl SteadySource {
    /// A source of these bytes.
    pub fn new(bytes: Vec<u8>) -> SteadySource
        ensures { result ≡ bytes.items }
    {
        SteadySource { bytes, at: 0 }
    }
}

impl Source for SteadySource {
    ghost left = { λ s. Some s };

    ghost faults = { λ _. 0 };

    #[tactic(auto, using(crate::proofs::ReadLaws::prefix_and_rest, crate::proofs::ReadLaws::nothing_left))]
    fn read(&mut self, buf: &mut [u8]) -> ReadAnswer {
        let count = copy_prefix(&self.bytes.as_slice()[self.at..], usize::MAX, buf);
        if count == 0 {
            return ReadAnswer::End;
        }
        self.at += count;
        ReadAnswer::Got(count)
    }
}

/// A sink that takes every piece whole and keeps only their number of bytes, so that no write can fail.
#[derive(Clone, Copy, Debug, Default)]
pub struct SteadySink {
    count: u64,
}

impl Model for SteadySink {
    ghost use Rattle.std.specs.Prelude.{ℕ};

    ghost Value = { ℕ };

    ghost view = { λ s. s.count };

    ghost inverse = { λ n. record { count = n } };
}

impl SteadySink {
    /// A sink that has taken nothing.
    pub fn new() -> SteadySink
        ensures { result ≡ 0 }
    {
        SteadySink { count: 0 }
    }

    /// How many bytes were taken; the count stands still at its type's end.
    pub fn count(&self) -> u64
        ensures { result ≡ self.now }
    {
        self.count
    }
}

impl Sink for SteadySink {
    ghost taken = { λ _. None };

    ghost faults = { λ _. 0 };

    fn write(&mut self, piece: &[u8]) -> WriteAnswer
        ensures whole { result ≡ WriteAnswer.Took (length piece.now) }
        ensures counted { self.new ≡ min (self.old + length piece.now) 18446744073709551615 }
    {
        self.count = self.count.saturating_add(piece.len() as u64);
        WriteAnswer::Took(piece.len())
    }
}
