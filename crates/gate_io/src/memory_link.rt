// Links in memory, which fail at the calls at which they are made to.
ghost use Rattle.std.specs.Prelude.{◌≡◌, ◌<◌, ◌↔◌, ◌⊎◌, [], Some, false, true, length};
ghost use Rattle.gate_io.specs.Memory.{FailsNext, TakesMost};
ghost use Rattle.gate_io.specs.Outside.{Writes, CountsWrite, one_more};
ghost use Rattle.gate_io.specs.Links.{CountsFaults, CountsQuiet, LinkReads};
ghost use Rattle.gate_io.specs.MemoryLinks.{LinkGivesMost};

use crate::{LinkIn, LinkOut, LinkRead, MemSink, MemSource, ReadAnswer, Sink, Source, WriteAnswer};
use std::marker::Model;

/// Bytes in memory that come on a link.
#[derive(Debug, Drop)]
pub struct MemLinkIn {
    source: MemSource,
    ends: bool,
    quiet: u64,
}

impl Model for MemLinkIn {
    ghost use Rattle.gate_io.specs.Memory.{LinkInSeen};

    ghost Value = { LinkInSeen };

    ghost view = { λ l. record { source = l.source; ends = l.ends; quiet = l.quiet } };
}

impl MemLinkIn {
    /// What comes are the bytes of this source, and reads fail where its reads do. After the bytes the link
    /// ends, or stays quiet for good.
    pub fn new(source: MemSource, ends: bool) -> MemLinkIn
        ensures { result ≡ record { source = source; ends = ends; quiet = 0 } }
    {
        MemLinkIn {
            source,
            ends,
            quiet: 0,
        }
    }
}

impl LinkIn for MemLinkIn {
    ghost left = { λ l. Some l.source.left };

    ghost faults = { λ l. l.source.faults };

    ghost quiet = { λ l. l.quiet };

    fn read(&mut self, buf: &mut [u8]) -> LinkRead
        requires { 0 < length buf.old }
        ensures bytes { LinkReads (Some self.old.source.left) (Some self.new.source.left) (length buf.old) buf.new result }
        ensures faults { CountsFaults self.old.source.faults self.new.source.faults result }
        ensures quiet { CountsQuiet self.old.quiet self.new.quiet result }
        ensures failed { (result ≡ LinkRead.Failed) ↔ FailsNext self.old.source.failing self.old.source.calls }
        ensures most { LinkGivesMost self.old.source (length buf.old) result }
        ensures open { result ≡ LinkRead.Quiet → (self.old.ends ≡ false) × (self.old.source.left ≡ []) }
        ensures ended { result ≡ LinkRead.End → self.old.ends ≡ true }
        ensures calls { self.new.source.calls ≡ one_more self.old.source.calls }
        ensures same { (self.new.ends ≡ self.old.ends) × (self.new.source.failing ≡ self.old.source.failing) × (self.new.source.most ≡ self.old.source.most) }
    {
        match self.source.read(buf) {
            ReadAnswer::Got(count) => LinkRead::Got(count),
            ReadAnswer::Failed => LinkRead::Failed,
            ReadAnswer::End => {
                if self.ends {
                    return LinkRead::End;
                }
                self.quiet = self.quiet.saturating_add(1);
                LinkRead::Quiet
            }
        }
    }
}

/// What goes on a link, kept in memory.
#[derive(Debug, Drop)]
pub struct MemLinkOut {
    sink: MemSink,
    closed: bool,
    faults: u64,
}

impl Model for MemLinkOut {
    ghost use Rattle.gate_io.specs.Memory.{LinkOutSeen};

    ghost Value = { LinkOutSeen };

    ghost view = { λ l. record { sink = l.sink; closed = l.closed; faults = l.faults } };
}

impl MemLinkOut {
    /// What goes is kept by this sink, and writes fail where its writes do, and once the link is closed.
    pub fn new(sink: MemSink) -> MemLinkOut
        ensures { result ≡ record { sink = sink; closed = false; faults = 0 } }
    {
        MemLinkOut {
            sink,
            closed: false,
            faults: 0,
        }
    }

    /// What was taken so far.
    pub fn taken(&self) -> &[u8]
        ensures { result.now ≡ self.now.sink.taken }
    {
        self.sink.taken()
    }

    /// Whether the link was closed.
    pub fn is_closed(&self) -> bool
        ensures { result ≡ self.now.closed }
    {
        self.closed
    }

    /// A write on a link that is open.
    fn write_open(&mut self, piece: &[u8]) -> WriteAnswer
        requires { 0 < length piece.now }
        ensures bytes { Writes (Some self.old.sink.taken) (Some self.new.sink.taken) piece.now result }
        ensures count { CountsWrite self.old.faults self.new.faults result }
        ensures failed { (result ≡ WriteAnswer.Failed) ↔ (FailsNext self.old.sink.failing self.old.sink.calls ⊎ (self.new.sink.wanting ≡ true)) }
        ensures most { TakesMost self.old.sink (length piece.now) result }
        ensures calls { self.new.sink.calls ≡ one_more self.old.sink.calls }
        ensures same { (self.new.sink.failing ≡ self.old.sink.failing) × (self.new.sink.most ≡ self.old.sink.most) }
        ensures closed { self.new.closed ≡ self.old.closed }
    {
        match self.sink.write(piece) {
            WriteAnswer::Took(count) => WriteAnswer::Took(count),
            WriteAnswer::Failed => {
                self.faults = self.faults.saturating_add(1);
                WriteAnswer::Failed
            }
        }
    }
}

impl LinkOut for MemLinkOut {
    ghost taken = { λ l. Some l.sink.taken };

    ghost faults = { λ l. l.faults };

    ghost closed = { λ l. l.closed };

    fn write(&mut self, piece: &[u8]) -> WriteAnswer
        requires { 0 < length piece.now }
        ensures bytes { Writes (Some self.old.sink.taken) (Some self.new.sink.taken) piece.now result }
        ensures count { CountsWrite self.old.faults self.new.faults result }
        ensures closed { self.new.closed ≡ self.old.closed }
        ensures late { self.old.closed ≡ true → (result ≡ WriteAnswer.Failed) × (self.new.sink ≡ self.old.sink) }
        ensures failed { self.old.closed ≡ false → ((result ≡ WriteAnswer.Failed) ↔ (FailsNext self.old.sink.failing self.old.sink.calls ⊎ (self.new.sink.wanting ≡ true))) }
        ensures most { TakesMost self.old.sink (length piece.now) result }
        ensures calls { self.old.closed ≡ false → self.new.sink.calls ≡ one_more self.old.sink.calls }
        ensures same { (self.new.sink.failing ≡ self.old.sink.failing) × (self.new.sink.most ≡ self.old.sink.most) }
    {
        if self.closed {
            self.faults = self.faults.saturating_add(1);
            return WriteAnswer::Failed;
        }
        self.write_open(piece)
    }

    fn close(&mut self)
        ensures closed { self.new.closed ≡ true }
        ensures bytes { self.new.sink ≡ self.old.sink }
        ensures count { self.new.faults ≡ self.old.faults }
    {
        self.closed = true;
    }
}
