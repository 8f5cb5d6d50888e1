// One connection over TCP, which both of its ends share: with one descriptor, and what is still to be sent.
ghost use Rattle.std.specs.Prelude.{◌≡◌, ◌<◌, ◌≤◌, ℕ, IfSome, length};
ghost use Rattle.gate_io.specs.declared.wire.Received.{Received};
ghost use Rattle.gate_io.specs.declared.wire.Received.TheVariants as received;
ghost use Rattle.gate_io.specs.declared.wire.Sent.{Sent};
ghost use Rattle.gate_io.specs.declared.wire.Sent.TheVariants as sent;

use crate::Pause;
use crate::first_answer::FirstAnswer;
use crate::sleepers::Sleeper;
use crate::standard::{TRIES, write_some};
use std::alloc::Global;
use std::io;
use std::io::{ErrorKind, Read, Write};
use std::net::{Shutdown, TcpStream};
use std::sync::Arc;
use std::time::Duration;

/// How many milliseconds a write waits for a peer that takes nothing before it fails: as long as gRPC's keepalive waits
/// for an answer where nothing else is set.
const WRITE_WAIT: u64 = 20_000;

/// So many bytes that a peer did not take are held for it, as many as a session has at most; a write that finds more fails.
const HELD_BYTES: usize = 268_435_456;

/// So many bytes that were sent may stay before those that are held.
const FORGOTTEN_BYTES: usize = 1_048_576;

/// What one read of a stream gave.
#[derive(Clone, Copy, Debug)]
pub(crate) enum Received {
    Count(usize),
    Quiet,
    Failed,
}

/// What one write to a stream came to.
#[derive(Clone, Copy, Debug)]
enum Sent {
    Count(usize),
    /// The system takes nothing at the moment, or the connection does not stand yet.
    Full,
    Failed,
}

/// A connection. One that was accepted waits in its reads and writes; one that was dialled does not, and holds the bytes that the system
/// did not take so far.
#[derive(Drop)]
pub(crate) struct Wire {
    stream: TcpStream,
    waits: bool,
    /// What was taken of writes, and how much of it was sent.
    held: Vec<u8>,
    sent: usize,
    broken: bool,
    /// Whether nothing is read as long as something is held. So a peer that reads nothing makes its server hold no more than one read of
    /// it asks for, and the end of what it sends is seen after all that it was sent.
    reads_last: bool,
    /// Whether an answer came, for the dialer.
    answer: FirstAnswer,
    /// Who waits for its dialer's links, until it is closed.
    sleeper: Option<Arc<Sleeper>>,
}

impl Wire {
    /// A connection that was accepted, or one that was dialled, which stands as soon as the peer answers.
    pub(crate) fn new(
        alloc: Global,
        stream: TcpStream,
        waits: bool,
        answer: FirstAnswer,
        sleeper: Option<Arc<Sleeper>>,
    ) -> io::Result<Wire> {
        stream.set_nodelay(true)?;
        stream.set_read_timeout(Pause::Long.time())?;
        stream.set_write_timeout(Some(Duration::from_millis(WRITE_WAIT)))?;
        stream.set_nonblocking(!waits)?;
        Ok(Wire {
            stream,
            waits,
            held: Vec::new(alloc),
            sent: 0,
            broken: false,
            reads_last: false,
            answer,
            sleeper,
        })
    }

    /// Says how long reads that wait do so, and whether that could be said.
    pub(crate) fn wait_at_most(&self, pause: Pause) -> bool {
        match pause.time() {
            Some(time) => self.stream.set_read_timeout(Some(time)).is_ok(),
            None => true,
        }
    }

    /// From now on nothing is read as long as something is held.
    pub(crate) fn read_last(&mut self) {
        self.reads_last = true;
    }

    /// Whether something is to be sent before the next read.
    fn comes_after(&self) -> bool {
        self.reads_last && !self.broken && self.sent < self.held.len()
    }

    /// One read, which waits unless the pause is none. What is held goes out before it.
    pub(crate) fn receive(&mut self, pause: Pause, buf: &mut [u8]) -> Received
        ensures { (n : ℕ) → result ≡ received.Count n → n ≤ length buf.new }
    {
        self.send_held();
        if self.comes_after() {
            return Received::Quiet;
        }
        let got = self.receive_within(pause, buf);
        if let Received::Count(count) = got {
            self.answer.receive(&buf[..count]);
        }
        got
    }

    /// One read, which waits unless the pause is none.
    fn receive_within(&mut self, pause: Pause, buf: &mut [u8]) -> Received
        ensures { (n : ℕ) → result ≡ received.Count n → n ≤ length buf.new }
    {
        let waits = pause != Pause::None;
        if waits == self.waits {
            return receive_some(&mut self.stream, buf);
        }
        if self.stream.set_nonblocking(!waits).is_err() {
            return Received::Failed;
        }
        let got = receive_some(&mut self.stream, buf);
        match self.stream.set_nonblocking(!self.waits) {
            Ok(()) => got,
            Err(_) => Received::Failed,
        }
    }

    /// Takes some of a piece: sends it, or holds it until the peer takes it. None where that failed.
    pub(crate) fn take(&mut self, piece: &[u8]) -> Option<usize>
        requires { 0 < length piece.now }
        ensures { IfSome result (λ n. (0 < n) × (n ≤ length piece.now)) }
    {
        if self.waits {
            return write_some(&mut self.stream, piece);
        }
        self.send_held();
        if self.broken {
            return None;
        }
        if !self.held.is_empty() {
            return self.hold(piece);
        }
        match send_some(&mut self.stream, piece) {
            Sent::Count(count) => Some(count),
            Sent::Full => self.hold(piece),
            Sent::Failed => None,
        }
    }

    /// Sends what is held, as far as the system takes it.
    fn send_held(&mut self) {
        for _ in 0..TRIES {
            if self.sent >= self.held.len() {
                self.held.clear();
                self.sent = 0;
                return;
            }
            match send_some(&mut self.stream, &self.held[self.sent..]) {
                Sent::Count(count) => self.sent = self.sent.saturating_add(count),
                Sent::Full => return,
                Sent::Failed => {
                    self.broken = true;
                    return;
                }
            }
        }
    }

    /// Holds a piece. None where too much is held already.
    fn hold(&mut self, piece: &[u8]) -> Option<usize>
        requires { 0 < length piece.now }
        ensures { IfSome result (λ n. (0 < n) × (n ≤ length piece.now)) }
    {
        if self.held.len().saturating_sub(self.sent) >= HELD_BYTES {
            return None;
        }
        self.forget_sent();
        match self.held.extend_from_slice(piece) {
            Ok(()) => Some(piece.len()),
            Err(_) => None,
        }
    }

    /// Forgets what was sent, where that is much, and more than what is left, which is moved then.
    fn forget_sent(&mut self) {
        let left = self.held.len().saturating_sub(self.sent);
        if FORGOTTEN_BYTES.max(left) <= self.sent && self.sent <= self.held.len() {
            drop(self.held.drain(..self.sent));
            self.sent = 0;
        }
    }

    /// Sends what the peer takes at once, and closes the connection both ways.
    pub(crate) fn close(&mut self) {
        self.send_held();
        // A connection that is gone already cannot be shut down again.
        let _ = self.stream.shutdown(Shutdown::Both);
        if let Some(sleeper) = self.sleeper.take() {
            sleeper.closed();
        }
    }
}

/// One read, made again where a signal interrupted it.
fn receive_some(stream: &mut TcpStream, buf: &mut [u8]) -> Received
    ensures { (n : ℕ) → result ≡ received.Count n → n ≤ length buf.new }
{
    for _ in 0..TRIES {
        match stream.read(buf) {
            Ok(count) if count <= buf.len() => return Received::Count(count),
            Ok(_) => return Received::Failed,
            Err(error) => match error.kind() {
                ErrorKind::Interrupted => {}
                ErrorKind::WouldBlock | ErrorKind::TimedOut => return Received::Quiet,
                _ => return Received::Failed,
            },
        }
    }
    Received::Failed
}

/// One write, made again where a signal interrupted it.
fn send_some(stream: &mut TcpStream, piece: &[u8]) -> Sent
    ensures { (n : ℕ) → result ≡ sent.Count n → (0 < n) × (n ≤ length piece.now) }
{
    for _ in 0..TRIES {
        match stream.write(piece) {
            Ok(count) if 0 < count && count <= piece.len() => return Sent::Count(count),
            Ok(_) => return Sent::Failed,
            Err(error) => match error.kind() {
                ErrorKind::Interrupted => {}
                ErrorKind::WouldBlock => return Sent::Full,
                _ => return Sent::Failed,
            },
        }
    }
    Sent::Failed
}
