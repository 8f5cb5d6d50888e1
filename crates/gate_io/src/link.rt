// Links, and what opens them: what they answer, and what a caller may rest on.
ghost use Rattle.std.specs.Prelude.{◌≡◌, ◌<◌, List, ℕ, Bool, true, false, Option, length};
ghost use Rattle.gate_io.specs.Outside.{CountsWrite, Writes, one_more};
ghost use Rattle.gate_io.specs.Links.{AcceptCounts, CountsFaults, CountsQuiet, DialGives, HappensSo, LinkReads};

use crate::{Pause, WriteAnswer};
use grpc_base::Address;

/// What a read of a link answers.
#[derive(Clone, Copy, Debug, PartialEq, Eq)]
pub enum LinkRead {
    /// So many bytes came, at least one.
    Got(usize),
    /// Nothing has come so far.
    Quiet,
    /// The peer sends nothing further.
    End,
    /// The read failed; what is left is as before.
    Failed,
}

/// What a dial or an accept answers.
#[derive(Debug, Drop)]
pub enum Dialed<I, O> {
    /// A link is open: what comes and what goes.
    Open(I, O),
    Failed,
}

/// What happened at a listener whose links are waited for together.
#[derive(Debug, Drop)]
pub enum Happened<I, O> {
    /// A link was accepted: what comes and what goes.
    Came(I, O),
    /// Something may have changed at the link that was accepted as this one, from 1.
    At(u32),
    /// Something may have changed at each link.
    Anywhere,
    /// Nothing so far.
    Nothing,
    /// The next link can't be accepted.
    Failed,
}

/// What comes on a link.
pub trait LinkIn: Send + Drop {
    /// The bytes that are left, where the link shows them. Memory does, and a socket does not.
    ghost left: { Self → Option (List ℕ) };

    /// How often a read has failed.
    ghost faults: { Self → ℕ };

    /// How often a read was quiet.
    ghost quiet: { Self → ℕ };

    /// Reads into the first bytes of a buffer that is not empty.
    fn read(&mut self, buf: &mut [u8]) -> LinkRead
        requires { 0 < length buf.old }
        ensures bytes { LinkReads (left self.old) (left self.new) (length buf.old) buf.new result }
        ensures faults { CountsFaults (faults self.old) (faults self.new) result }
        ensures quiet { CountsQuiet (quiet self.old) (quiet self.new) result };

    /// Says how long the reads that follow may wait for bytes. A link whose reads wait for nothing passes it over.
    fn wait_at_most(&mut self, _: Pause)
        ensures bytes { left self.new ≡ left self.old }
        ensures faults { faults self.new ≡ faults self.old }
        ensures quiet { quiet self.new ≡ quiet self.old }
    {}
}

/// What goes on a link.
pub trait LinkOut: Send + Drop {
    /// The bytes that were taken, where the link shows them. Memory does, and a socket does not.
    ghost taken: { Self → Option (List ℕ) };

    /// How often a write has failed.
    ghost faults: { Self → ℕ };

    /// Whether the link was closed.
    ghost closed: { Self → Bool };

    /// Takes some bytes from the start of a piece that is not empty.
    fn write(&mut self, piece: &[u8]) -> WriteAnswer
        requires { 0 < length piece.now }
        ensures bytes { Writes (taken self.old) (taken self.new) piece.now result }
        ensures count { CountsWrite (faults self.old) (faults self.new) result }
        ensures closed { closed self.new ≡ closed self.old };

    /// Closes the link, both ways.
    fn close(&mut self)
        ensures closed { closed self.new ≡ true }
        ensures bytes { taken self.new ≡ taken self.old }
        ensures count { faults self.new ≡ faults self.old };
}

/// What opens links to addresses.
pub trait Dialer: Send + Drop {
    type In: LinkIn;

    type Out: LinkOut;

    /// The bytes that each link which is still to be opened will have left, in order, where the dialer says them.
    ghost coming: { Self → Option (List (List ℕ)) };

    /// How often a dial has failed.
    ghost faults: { Self → ℕ };

    /// Dials an address, and gives up at the moment `until`.
    fn dial(&mut self, to: Address, until: u64) -> Dialed<Self::In, Self::Out>
        ensures { DialGives Self.In.LinkIn.left (coming self.old) (coming self.new) (faults self.old) (faults self.new) result };

    /// Waits until bytes come on a link that it opened, until one takes some again, until the clock of the same world says that there is
    /// news, or until a moment comes, if there is one. It waits at most for 50 ms, and for less after a try that was not long in vain. False
    /// where it can't wait, so that its user pauses otherwise.
    fn wait(&self, _pause: Pause, _due: Option<u64>) -> bool {
        false
    }
}

/// What accepts links.
pub trait Listener: Send + Drop {
    type In: LinkIn;

    type Out: LinkOut;

    /// How often an open or an accept has failed.
    ghost faults: { Self → ℕ };

    /// Listens at a port, and says whether that is so.
    fn open(&mut self, port: u16) -> bool
        ensures open { result ≡ true → faults self.new ≡ faults self.old }
        ensures failed { result ≡ false → faults self.new ≡ one_more (faults self.old) };

    /// The next link, as soon as there is one.
    fn accept(&mut self) -> Dialed<Self::In, Self::Out>
        ensures { AcceptCounts (faults self.old) (faults self.new) result };

    /// Listens at a port for links that are waited for together, whose reads and writes do not wait, and says whether that is so.
    fn open_together(&mut self, port: u16) -> bool
        ensures open { result ≡ true → faults self.new ≡ faults self.old }
        ensures failed { result ≡ false → faults self.new ≡ one_more (faults self.old) }
    {
        self.open(port)
    }

    /// What happened next at a listener that is open for such links. It accepts a link only where `accepts` is true. Where nothing happened
    /// so far and `waits` is true, it waits until something does, or until some seconds are over: then something may have changed at each
    /// link.
    ///
    /// A link at which a read was quiet is named once there is something to be read, or once its peer takes bytes that were held. A link
    /// whose last read was not quiet need not be named. A listener that can't wait for its links accepts one where it may, and else says
    /// that each may be read.
    fn next(&mut self, accepts: bool, _waits: bool) -> Happened<Self::In, Self::Out>
        ensures { HappensSo accepts (faults self.old) (faults self.new) result }
    {
        if !accepts {
            return Happened::Anywhere;
        }
        match self.accept() {
            Dialed::Open(input, output) => Happened::Came(input, output),
            Dialed::Failed => Happened::Failed,
        }
    }
}
