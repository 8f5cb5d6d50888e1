// A listener that waits for its links and for the next one at once.
use crate::standard::TRIES;
use crate::tcp::polled_link_over;
use crate::{TcpIn, TcpOut};
use mio::net::{TcpListener, TcpStream};
use mio::{Events, Interest, Poll, Token};
use std::alloc::Global;
use std::collections::VecDeque;
use std::io;
use std::io::ErrorKind;
use std::net::{Net, SocketAddr};
use std::time::Duration;

/// How many events one wait gives at most.
const EVENTS: usize = 256;

/// How many milliseconds a wait takes at most.
const LONGEST: u64 = 5_000;

/// The token of the listener. Each link's is its number, from 1.
const LISTENER: usize = 0;

/// What was seen at a listener and its links.
#[derive(Drop)]
pub(crate) enum Seen {
    Link(TcpIn, TcpOut),
    /// Something may have changed at the link of this number.
    At(u32),
    /// The longest wait is over.
    Late,
    Nothing,
}

/// A listener and the links that it accepted, in one set. A link that is closed leaves the set by itself.
#[derive(Drop)]
pub(crate) struct ListenSet {
    alloc: Global,
    listener: TcpListener,
    poll: Poll,
    events: Events<Global>,
    /// Whether a connection may be there that was not accepted.
    may_accept: bool,
    /// The links that are still to be named.
    named: VecDeque<u32>,
    accepted: u32,
}

impl ListenSet {
    /// A listener at an address, with no link.
    pub(crate) fn open<R: Net>(rt: &R, alloc: Global, addr: SocketAddr) -> io::Result<ListenSet> {
        let mut listener = TcpListener::bind(rt, addr)?;
        let poll = Poll::new(rt)?;
        poll.registry()
            .register(&mut listener, Token(LISTENER), Interest::READABLE)?;
        Ok(ListenSet {
            alloc,
            listener,
            poll,
            events: Events::with_capacity(alloc, EVENTS)?,
            may_accept: true,
            named: VecDeque::new(alloc),
            accepted: 0,
        })
    }

    /// The port at which it is.
    pub(crate) fn port(&self) -> Option<u16> {
        let addr = self.listener.local_addr().ok()?;
        Some(addr.port())
    }

    /// What is seen next.
    pub(crate) fn next(&mut self, accepts: bool, waits: bool) -> io::Result<Seen> {
        match self.seen(accepts)? {
            Seen::Nothing => {}
            seen => return Ok(seen),
        }
        let is_late = self.wait(waits)?;
        match self.seen(accepts)? {
            Seen::Nothing if is_late => Ok(Seen::Late),
            seen => Ok(seen),
        }
    }

    /// What can be seen without a wait.
    fn seen(&mut self, accepts: bool) -> io::Result<Seen> {
        if accepts {
            if let Some(stream) = self.accept()? {
                let (input, output) = self.add(stream)?;
                return Ok(Seen::Link(input, output));
            }
        }
        match self.named.pop_front() {
            Some(number) => Ok(Seen::At(number)),
            None => Ok(Seen::Nothing),
        }
    }

    /// The next connection, if there is one. One that its peer gave up before it was accepted is passed over.
    fn accept(&mut self) -> io::Result<Option<TcpStream>> {
        for _ in 0..TRIES {
            if !self.may_accept {
                return Ok(None);
            }
            match self.listener.accept() {
                Ok((stream, _)) => return Ok(Some(stream)),
                Err(error) => match error.kind() {
                    ErrorKind::ConnectionAborted | ErrorKind::Interrupted => {}
                    ErrorKind::WouldBlock => self.may_accept = false,
                    _ => return Err(error),
                },
            }
        }
        Ok(None)
    }

    /// Takes a connection into the set, under the next number.
    fn add(&mut self, mut stream: TcpStream) -> io::Result<(TcpIn, TcpOut)> {
        self.accepted = self.accepted.saturating_add(1);
        let both = Interest::READABLE | Interest::WRITABLE;
        let token = Token(self.accepted as usize);
        self.poll.registry().register(&mut stream, token, both)?;
        polled_link_over(self.alloc, std::net::TcpStream::from(stream))
    }

    /// Waits until something is to be seen, and says whether the longest wait was over before that.
    fn wait(&mut self, waits: bool) -> io::Result<bool> {
        let time = if waits { LONGEST } else { 0 };
        self.poll
            .poll(&mut self.events, Some(Duration::from_millis(time)))?;
        for event in self.events.iter() {
            let Token(token) = event.token();
            match u32::try_from(token) {
                Ok(0) => self.may_accept = true,
                Ok(number) => self.named.push_back(number)?,
                Err(_) => {}
            }
        }
        Ok(waits && self.events.is_empty())
    }
}
