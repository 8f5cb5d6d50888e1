// The modes `serve` and `relay` over links that the test holds.
use crate::program::{each_policy, run_over};
use gate_io::{
    Dialed, LinkIn, LinkRead, Listener, MemLink, MemLinkIn, MemLinkOut, MemListener, MemSink,
    MemSource,
};
use std::alloc::Global;
use std::sync::atomic::{AtomicU64, Ordering};
use std::test::Fail;

/// The port of the test's words.
const PORT: u16 = 50_061;

/// After so many reads a link ends though the other one was not read.
const POLL_DELAY: u64 = 100_000;

/// A link that is quiet until the other one was read, and then ends.
#[derive(Drop)]
struct HeldIn<'a> {
    own: &'a AtomicU64,
    other: &'a AtomicU64,
    quiet: u64,
}

impl LinkIn for HeldIn<'_> {
    ghost use Rattle.std.specs.Prelude.{None};

    ghost left = { λ _. None };

    ghost faults = { λ _. 0 };

    ghost quiet = { λ l. l.quiet };

    fn read(&mut self, _buf: &mut [u8]) -> LinkRead {
        let before = self.own.fetch_add(1, Ordering::SeqCst);
        if self.other.load(Ordering::SeqCst) > 0 || before >= POLL_DELAY {
            return LinkRead::End;
        }
        self.quiet = self.quiet.saturating_add(1);
        LinkRead::Quiet
    }
}

/// Two such links, accepted one after the other.
#[derive(Drop)]
struct Pair<'a> {
    alloc: Global,
    first: &'a AtomicU64,
    second: &'a AtomicU64,
    accepted: u64,
    faults: u64,
}

impl<'a> Listener for Pair<'a> {
    type In = HeldIn<'a>;

    type Out = MemLinkOut;

    ghost faults = { λ p. p.faults };

    fn open(&mut self, port: u16) -> bool {
        if port == PORT {
            return true;
        }
        self.faults = self.faults.saturating_add(1);
        false
    }

    fn accept(&mut self) -> Dialed<HeldIn<'a>, MemLinkOut> {
        self.accepted = self.accepted.saturating_add(1);
        let (own, other) = match self.accepted {
            1 => (self.first, self.second),
            2 => (self.second, self.first),
            _ => {
                self.faults = self.faults.saturating_add(1);
                return Dialed::Failed;
            }
        };
        let sink = MemSink::new(self.alloc, 65_536, Vec::new(self.alloc));
        let quiet = 0;
        Dialed::Open(HeldIn { own, other, quiet }, MemLinkOut::new(sink))
    }
}

/// The status and what was written, of words that serve a script of no bytes at two links; both were read in time.
#[test]
fn links_are_served_side_by_side(rt: HostRuntime) -> Result<(), Fail> {
    let alloc = rt.alloc();
    let (first, second) = (AtomicU64::new(0), AtomicU64::new(0));
    let mut listener = Pair {
        alloc,
        first: &first,
        second: &second,
        accepted: 0,
        faults: 0,
    };
    let mut source = MemSource::new(Vec::new(alloc), 64, Vec::new(alloc));
    let mut report = MemSink::new(alloc, 64, Vec::new(alloc));
    let line = b"serve --port 50061 --links 2";
    let boxes = each_policy(alloc)?;
    let status = run_over(
        &rt,
        alloc,
        line,
        &mut source,
        &mut report,
        &mut listener,
        boxes,
    )?;
    assert_eq!(rt; status, 0);
    assert_eq!(rt; report.taken(), b"served 2\n".as_slice());
    assert!(rt; first.load(Ordering::SeqCst) <= POLL_DELAY);
    assert!(rt; second.load(Ordering::SeqCst) <= POLL_DELAY);
    Ok(())
}

#[test]
fn a_link_that_is_not_accepted_ends_with_8(rt: HostRuntime) -> Result<(), Fail> {
    let alloc = rt.alloc();
    let input = MemLinkIn::new(MemSource::new(Vec::new(alloc), 64, Vec::new(alloc)), true);
    let output = MemLinkOut::new(MemSink::new(alloc, 64, Vec::new(alloc)));
    let mut links = Vec::new(alloc);
    links.push(MemLink { input, output })?;
    let mut listener = MemListener::new(true, links, Vec::new(alloc));
    let mut source = MemSource::new(Vec::new(alloc), 64, Vec::new(alloc));
    let mut report = MemSink::new(alloc, 64, Vec::new(alloc));
    let line = b"serve --port 1 --links 2";
    let boxes = each_policy(alloc)?;
    let status = run_over(
        &rt,
        alloc,
        line,
        &mut source,
        &mut report,
        &mut listener,
        boxes,
    )?;
    assert_eq!(rt; status, 8);
    assert!(rt; report.taken().is_empty());
    Ok(())
}

/// The script of a relay: its target.
fn relay_script(alloc: Global) -> Result<MemSource, Fail> {
    let mut text = Vec::new(alloc);
    text.extend_from_slice(b"channel 2 ipv4:127.0.0.1:50051\n")?;
    Ok(MemSource::new(text, 64, Vec::new(alloc)))
}

/// Two links on which nothing comes, and no server: the report has the target's addresses first, and after them the one Shutdown.
#[test]
fn links_are_relayed_side_by_side(rt: HostRuntime) -> Result<(), Fail> {
    let alloc = rt.alloc();
    let (first, second) = (AtomicU64::new(0), AtomicU64::new(0));
    let mut listener = Pair {
        alloc,
        first: &first,
        second: &second,
        accepted: 0,
        faults: 0,
    };
    let mut source = relay_script(alloc)?;
    let mut report = MemSink::new(alloc, 65_536, Vec::new(alloc));
    let line = b"relay --port 50061 --links 2 --seed 1 --nets 1";
    let boxes = each_policy(alloc)?;
    let status = run_over(
        &rt,
        alloc,
        line,
        &mut source,
        &mut report,
        &mut listener,
        boxes,
    )?;
    assert_eq!(rt; status, 0);
    let text = report.taken();
    assert!(rt; text.starts_with(b"channel 2 ipv4:127.0.0.1:50051\n0 "));
    assert!(rt; text.ends_with(b" shutdown = done\nend 2 0 0 0\n"));
    assert!(rt; first.load(Ordering::SeqCst) <= POLL_DELAY);
    assert!(rt; second.load(Ordering::SeqCst) <= POLL_DELAY);
    Ok(())
}

#[test]
fn a_link_that_is_not_accepted_ends_a_relay_with_8(rt: HostRuntime) -> Result<(), Fail> {
    let alloc = rt.alloc();
    let input = MemLinkIn::new(MemSource::new(Vec::new(alloc), 64, Vec::new(alloc)), true);
    let output = MemLinkOut::new(MemSink::new(alloc, 65_536, Vec::new(alloc)));
    let mut links = Vec::new(alloc);
    links.push(MemLink { input, output })?;
    let mut listener = MemListener::new(true, links, Vec::new(alloc));
    let mut source = relay_script(alloc)?;
    let mut report = MemSink::new(alloc, 64, Vec::new(alloc));
    let line = b"relay --port 1 --links 2 --seed 1 --nets 1";
    let boxes = each_policy(alloc)?;
    let status = run_over(
        &rt,
        alloc,
        line,
        &mut source,
        &mut report,
        &mut listener,
        boxes,
    )?;
    assert_eq!(rt; status, 8);
    assert!(rt; report.taken().is_empty());
    Ok(())
}
