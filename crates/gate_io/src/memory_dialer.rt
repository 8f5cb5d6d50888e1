// A dialer and a listener in memory, whose links are made before, and which fail at the calls at which they are made to.
ghost use Rattle.std.specs.Prelude.{◌≡◌, ◌↔◌, ◌⊎◌, ◌∷◌, [], ℕ, Some, None, IfSome, IfNone, false, true, map};
ghost use Rattle.gate_io.specs.Memory.{FailsNext, LinkInSeen, LinkOutSeen};
ghost use Rattle.gate_io.specs.MemoryLinks.{lefts_of, opened_of};
ghost use Rattle.gate_io.specs.Outside.{one_more};
ghost use Rattle.gate_io.specs.Links.{AcceptCounts, DialGives};
ghost use Rattle.gate_io.specs.declared.link.Dialed.TheVariants as dialed;

use crate::{Dialed, Dialer, Listener, MemLinkIn, MemLinkOut};
use grpc_base::Address;
use std::marker::Model;
use std::vec::IntoIter;

/// A link in memory that is to be opened.
#[derive(Debug, Drop)]
pub struct MemLink {
    pub input: MemLinkIn,
    pub output: MemLinkOut,
}

/// Links in memory that are opened one after another.
#[derive(Drop)]
struct MemLinks {
    links: IntoIter<MemLink>,
    failing: Vec<u64>,
    calls: u64,
    faults: u64,
}

impl Model for MemLinks {
    ghost use Rattle.std.specs.Vec.Iter.{into_iter_items};
    ghost use Rattle.gate_io.specs.Memory.{LinksSeen};
    ghost use Rattle.gate_io.specs.declared.memory_dialer.MemLink.{MemLink};

    ghost Value = { LinksSeen MemLink };

    ghost view = { λ l. record { links = into_iter_items l.links; failing = l.failing.items; calls = l.calls; faults = l.faults } };
}

impl MemLinks {
    fn new(links: Vec<MemLink>, failing: Vec<u64>) -> MemLinks
        ensures { result ≡ record { links = links.items; failing = failing.items; calls = 0; faults = 0 } }
    {
        MemLinks {
            links: links.into_iter(),
            failing,
            calls: 0,
            faults: 0,
        }
    }

    /// Counts a fault.
    fn fail(&mut self)
        ensures faults { self.new.faults ≡ one_more self.old.faults }
        ensures same { (self.new.links ≡ self.old.links) × (self.new.failing ≡ self.old.failing) × (self.new.calls ≡ self.old.calls) }
    {
        self.faults = self.faults.saturating_add(1);
    }

    /// The next link; None exactly where this call is to fail or no link is left.
    fn next(&mut self) -> Option<MemLink>
        ensures some { IfSome result (λ l. (self.old.links ≡ l ∷ self.new.links) × (self.new.faults ≡ self.old.faults)) }
        ensures none { IfNone result ((self.new.links ≡ self.old.links) × (self.new.faults ≡ one_more self.old.faults)) }
        ensures failed { (result ≡ None) ↔ (FailsNext self.old.failing self.old.calls ⊎ (self.old.links ≡ [])) }
        ensures calls { (self.new.calls ≡ one_more self.old.calls) × (self.new.failing ≡ self.old.failing) }
    {
        self.calls = self.calls.saturating_add(1);
        if self.failing.contains(&self.calls) {
            self.fail();
            return None;
        }
        match self.links.next() {
            Some(link) => Some(link),
            None => {
                self.fail();
                None
            }
        }
    }
}

/// A dialer in memory: each dial opens the next of its links, whatever the address.
#[derive(Drop)]
pub struct MemDialer {
    links: MemLinks,
}

impl Model for MemDialer {
    ghost use Rattle.gate_io.specs.Memory.{LinksSeen};
    ghost use Rattle.gate_io.specs.declared.memory_dialer.MemLink.{MemLink};

    ghost Value = { LinksSeen MemLink };

    ghost view = { λ d. d.links };
}

impl MemDialer {
    /// A dialer that opens these links. Its dials count from 1; those in `failing` fail, and open no link,
    /// and so does each dial once no link is left.
    pub fn new(links: Vec<MemLink>, failing: Vec<u64>) -> MemDialer
        ensures { result ≡ record { links = links.items; failing = failing.items; calls = 0; faults = 0 } }
    {
        MemDialer {
            links: MemLinks::new(links, failing),
        }
    }
}

impl Dialer for MemDialer {
    type In = MemLinkIn;

    type Out = MemLinkOut;

    ghost coming = { λ d. Some (lefts_of d.links) };

    ghost faults = { λ d. d.faults };

    fn dial(&mut self, _to: Address, _until: u64) -> Dialed<MemLinkIn, MemLinkOut>
        ensures gives { DialGives (λ (l : LinkInSeen). Some l.source.left) (Some (lefts_of self.old.links)) (Some (lefts_of self.new.links)) self.old.faults self.new.faults result }
        ensures next { (i : LinkInSeen) (o : LinkOutSeen) → result ≡ dialed.Open i o → self.old.links ≡ record { input = i; output = o } ∷ self.new.links }
        ensures same { result ≡ dialed.Failed → self.new.links ≡ self.old.links }
        ensures fails { (result ≡ dialed.Failed) ↔ (FailsNext self.old.failing self.old.calls ⊎ (self.old.links ≡ [])) }
        ensures calls { (self.new.calls ≡ one_more self.old.calls) × (self.new.failing ≡ self.old.failing) }
    {
        opened(self.links.next())
    }
}

/// A listener in memory: each accept gives the next of its links.
#[derive(Drop)]
pub struct MemListener {
    links: MemLinks,
    opens: bool,
}

impl Model for MemListener {
    ghost use Rattle.gate_io.specs.Memory.{ListenerSeen};
    ghost use Rattle.gate_io.specs.declared.memory_dialer.MemLink.{MemLink};

    ghost Value = { ListenerSeen MemLink };

    ghost view = { λ l. record { links = l.links; opens = l.opens } };
}

impl MemListener {
    /// A listener that opens at every port or at none, and accepts these links. Its accepts count from 1;
    /// those in `failing` fail, and take no link, and so does each accept once no link is left.
    pub fn new(opens: bool, links: Vec<MemLink>, failing: Vec<u64>) -> MemListener
        ensures { result ≡ record { links = record { links = links.items; failing = failing.items; calls = 0; faults = 0 }; opens = opens } }
    {
        MemListener {
            links: MemLinks::new(links, failing),
            opens,
        }
    }
}

impl Listener for MemListener {
    type In = MemLinkIn;

    type Out = MemLinkOut;

    ghost faults = { λ l. l.links.faults };

    fn open(&mut self, _port: u16) -> bool
        ensures open { result ≡ true → self.new.links.faults ≡ self.old.links.faults }
        ensures failed { result ≡ false → self.new.links.faults ≡ one_more self.old.links.faults }
        ensures reported { result ≡ self.old.opens }
        ensures same { (self.new.opens ≡ self.old.opens) × (self.new.links.links ≡ self.old.links.links) }
        ensures calls { (self.new.links.calls ≡ self.old.links.calls) × (self.new.links.failing ≡ self.old.links.failing) }
    {
        if !self.opens {
            self.links.fail();
        }
        self.opens
    }

    fn accept(&mut self) -> Dialed<MemLinkIn, MemLinkOut>
        ensures counts { AcceptCounts self.old.links.faults self.new.links.faults result }
        ensures next { (i : LinkInSeen) (o : LinkOutSeen) → result ≡ dialed.Open i o → self.old.links.links ≡ record { input = i; output = o } ∷ self.new.links.links }
        ensures same { result ≡ dialed.Failed → self.new.links.links ≡ self.old.links.links }
        ensures fails { (result ≡ dialed.Failed) ↔ (FailsNext self.old.links.failing self.old.links.calls ⊎ (self.old.links.links ≡ [])) }
        ensures calls { (self.new.links.calls ≡ one_more self.old.links.calls) × (self.new.links.failing ≡ self.old.links.failing) × (self.new.opens ≡ self.old.opens) }
    {
        opened(self.links.next())
    }
}

/// The two ends of a link, where there is one.
fn opened(link: Option<MemLink>) -> Dialed<MemLinkIn, MemLinkOut>
    ensures { result ≡ opened_of link }
{
    match link {
        Some(link) => Dialed::Open(link.input, link.output),
        None => Dialed::Failed,
    }
}
