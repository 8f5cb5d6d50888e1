// Sources and sinks: what they answer, and what a caller may rest on.
ghost use Rattle.std.specs.Prelude.{◌<◌, List, ℕ, Option, length};
ghost use Rattle.gate_io.specs.Outside.{Reads, CountsRead, Writes, CountsWrite};

/// What a read answers.
#[derive(Clone, Copy, Debug, PartialEq, Eq)]
pub enum ReadAnswer {
    /// So many bytes came, at least one.
    Got(usize),
    /// The input is at its end.
    End,
    /// The read failed; what is left is as before.
    Failed,
}

/// What a write answers.
#[derive(Clone, Copy, Debug, PartialEq, Eq)]
pub enum WriteAnswer {
    /// So many bytes from the start were taken, at least one.
    Took(usize),
    /// The write failed; nothing was taken.
    Failed,
}

/// Where bytes come from.
pub trait Source {
    /// The bytes that are left, where the source shows them. Memory does, and a standard stream does not.
    ghost left: { Self → Option (List ℕ) };

    /// How often a read has failed.
    ghost faults: { Self → ℕ };

    /// Reads into the first bytes of a buffer that is not empty.
    fn read(&mut self, buf: &mut [u8]) -> ReadAnswer
        requires { 0 < length buf.old }
        ensures bytes { Reads (left self.old) (left self.new) (length buf.old) buf.new result }
        ensures count { CountsRead (faults self.old) (faults self.new) result };
}

/// Where bytes go.
pub trait Sink {
    /// The bytes that were taken, where the sink shows them. Memory does, and a standard stream does not.
    ghost taken: { Self → Option (List ℕ) };

    /// How often a write has failed.
    ghost faults: { Self → ℕ };

    /// Takes some bytes from the start of a piece that is not empty.
    fn write(&mut self, piece: &[u8]) -> WriteAnswer
        requires { 0 < length piece.now }
        ensures bytes { Writes (taken self.old) (taken self.new) piece.now result }
        ensures count { CountsWrite (faults self.old) (faults self.new) result };
}
