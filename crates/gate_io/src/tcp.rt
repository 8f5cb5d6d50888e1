// Links over TCP, the trusted edge: they show no bytes, and count faults and quiet reads.
ghost use Rattle.std.specs.Prelude.{◌≡◌, ◌<◌, ◌≤◌, ℕ, None, Some, IfSome, length, false, true};
ghost use Rattle.gate_io.specs.declared.wire.Received.TheVariants as received;

use crate::first_answer::FirstAnswer;
use crate::sleepers::Sleeper;
use crate::wire::{Received, Wire};
use crate::{LinkIn, LinkOut, LinkRead, Pause, WriteAnswer};
use std::alloc::Global;
use std::io;
use std::net::TcpStream;
use std::sync::{Arc, Mutex};

/// What comes over a TCP connection. A read waits at most 5 ms, and less where it is asked to; it is quiet as long as the connection does
/// not stand yet, and fails where it can't be made.
#[derive(Drop)]
pub struct TcpIn {
    wire: Arc<Mutex<Wire>>,
    /// How long a read waits.
    pause: Pause,
    faults: u64,
    quiet: u64,
}

/// What goes over a TCP connection. A write over one that was dialled does not wait: what the peer does not take at once is held, and goes
/// out in later reads and writes; one that finds 268,435,456 bytes held fails. A write over a connection that was accepted waits, for at most
/// 20 s. Whoever reads the same connection does so in the same thread.
#[derive(Drop)]
pub struct TcpOut {
    wire: Arc<Mutex<Wire>>,
    closed: bool,
    faults: u64,
}

/// Both ends of a connection that was accepted, and waits, or of one that was dialled. Small frames are sent at once. Where one waits for
/// the links of a dialer, it is notified when this one is closed.
pub(crate) fn link_over(
    alloc: Global,
    stream: TcpStream,
    waits: bool,
    answer: FirstAnswer,
    sleeper: Option<Arc<Sleeper>>,
) -> io::Result<(TcpIn, TcpOut)> {
    let wire = Wire::new(alloc, stream, waits, answer, sleeper)?;
    ends_of(alloc, wire, Pause::Long)
}

/// Both ends of a connection that was accepted and does not wait, since it is waited for with others. Its reads are quiet as long as its
/// peer did not take what is held.
pub(crate) fn polled_link_over(alloc: Global, stream: TcpStream) -> io::Result<(TcpIn, TcpOut)> {
    let mut wire = Wire::new(alloc, stream, false, FirstAnswer::new(None), None)?;
    wire.read_last();
    ends_of(alloc, wire, Pause::None)
}

/// Both ends of a connection, whose reads wait so long.
fn ends_of(alloc: Global, wire: Wire, pause: Pause) -> io::Result<(TcpIn, TcpOut)> {
    let wire = Arc::new(alloc, Mutex::new(wire))?;
    let input = TcpIn {
        wire: wire.clone()?,
        pause,
        faults: 0,
        quiet: 0,
    };
    let output = TcpOut {
        wire,
        closed: false,
        faults: 0,
    };
    Ok((input, output))
}

/// One read of a connection. It is quiet where another thread has it.
fn receive(wire: &Mutex<Wire>, pause: Pause, buf: &mut [u8]) -> Received
    ensures { (n : ℕ) → result ≡ received.Count n → n ≤ length buf.new }
{
    match wire.try_lock() {
        Some(mut wire) => wire.receive(pause, buf),
        None => Received::Quiet,
    }
}

/// Some of a piece that a connection takes.
fn take(wire: &Mutex<Wire>, piece: &[u8]) -> Option<usize>
    requires { 0 < length piece.now }
    ensures { IfSome result (λ n. (0 < n) × (n ≤ length piece.now)) }
{
    match wire.try_lock() {
        Some(mut wire) => wire.take(piece),
        None => None,
    }
}

impl LinkIn for TcpIn {
    ghost left = { λ _. None };

    ghost faults = { λ l. l.faults };

    ghost quiet = { λ l. l.quiet };

    fn read(&mut self, buf: &mut [u8]) -> LinkRead {
        match receive(&self.wire, self.pause, buf) {
            Received::Count(0) => LinkRead::End,
            Received::Count(count) => LinkRead::Got(count),
            Received::Quiet => {
                self.quiet = self.quiet.saturating_add(1);
                LinkRead::Quiet
            }
            Received::Failed => {
                self.faults = self.faults.saturating_add(1);
                LinkRead::Failed
            }
        }
    }

    fn wait_at_most(&mut self, pause: Pause) {
        if pause == self.pause {
            return;
        }
        // Where it cannot be set, reads wait as before.
        if let Some(wire) = self.wire.try_lock() {
            if wire.wait_at_most(pause) {
                self.pause = pause;
            }
        }
    }
}

impl LinkOut for TcpOut {
    ghost taken = { λ _. None };

    ghost faults = { λ l. l.faults };

    ghost closed = { λ l. l.closed };

    fn write(&mut self, piece: &[u8]) -> WriteAnswer {
        match take(&self.wire, piece) {
            Some(count) => WriteAnswer::Took(count),
            None => {
                self.faults = self.faults.saturating_add(1);
                WriteAnswer::Failed
            }
        }
    }

    fn close(&mut self) {
        self.closed = true;
        if let Some(mut wire) = self.wire.try_lock() {
            wire.close();
        }
    }
}
