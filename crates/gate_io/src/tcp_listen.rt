// A listener over TCP.
ghost use Rattle.std.specs.Prelude.{◌≡◌, true, false};

use crate::first_answer::FirstAnswer;
use crate::listen_set::{ListenSet, Seen};
use crate::standard::TRIES;
use crate::tcp::link_over;
use crate::{Dialed, Happened, Listener, TcpIn, TcpOut};
use std::alloc::Global;
use std::io;
use std::io::ErrorKind;
use std::net::{Ipv4Addr, Net, SocketAddr, SocketAddrV4, TcpListener, TcpStream};

/// Listens over TCP on the loopback address, for links that wait in their reads and writes, or for links that are waited for together.
#[derive(Drop)]
pub struct TcpListen<R> {
    rt: R,
    alloc: Global,
    listener: Option<TcpListener>,
    /// Where the links are waited for together.
    set: Option<ListenSet>,
    faults: u64,
}

impl<R: Net<Stream = TcpStream, Listener = TcpListener>> TcpListen<R> {
    /// A listener of this runtime that is not open yet.
    pub fn new(rt: R, alloc: Global) -> TcpListen<R> {
        TcpListen {
            rt,
            alloc,
            listener: None,
            set: None,
            faults: 0,
        }
    }

    /// The port at which it listens, where it is open.
    pub fn port(&self) -> Option<u16> {
        if let Some(set) = &self.set {
            return set.port();
        }
        let listener = self.listener.as_ref()?;
        let addr = listener.local_addr().ok()?;
        Some(addr.port())
    }

    /// The next connection. One that its peer gave up before it was accepted is passed over.
    fn next_link(&self) -> io::Result<(TcpIn, TcpOut)> {
        let Some(listener) = &self.listener else {
            return Err(io::Error::from(ErrorKind::NotConnected));
        };
        for _ in 0..TRIES {
            match listener.accept() {
                Ok((stream, _)) => {
                    return link_over(self.alloc, stream, true, FirstAnswer::new(None), None);
                }
                Err(error) => match error.kind() {
                    ErrorKind::ConnectionAborted | ErrorKind::Interrupted => {}
                    _ => return Err(error),
                },
            }
        }
        Err(io::Error::from(ErrorKind::ConnectionAborted))
    }
}

impl<R: Net<Stream = TcpStream, Listener = TcpListener> + Send + Drop> Listener for TcpListen<R> {
    type In = TcpIn;

    type Out = TcpOut;

    ghost faults = { λ l. l.faults };

    fn open(&mut self, port: u16) -> bool {
        let addr = SocketAddr::V4(SocketAddrV4::new(Ipv4Addr::LOCALHOST, port));
        match TcpListener::bind(&self.rt, addr) {
            Ok(listener) => {
                self.listener = Some(listener);
                true
            }
            Err(_) => {
                self.faults = self.faults.saturating_add(1);
                false
            }
        }
    }

    fn accept(&mut self) -> Dialed<TcpIn, TcpOut> {
        match self.next_link() {
            Ok((input, output)) => Dialed::Open(input, output),
            Err(_) => {
                self.faults = self.faults.saturating_add(1);
                Dialed::Failed
            }
        }
    }

    fn open_together(&mut self, port: u16) -> bool {
        let addr = SocketAddr::V4(SocketAddrV4::new(Ipv4Addr::LOCALHOST, port));
        match ListenSet::open(&self.rt, self.alloc, addr) {
            Ok(set) => {
                self.set = Some(set);
                true
            }
            Err(_) => {
                self.faults = self.faults.saturating_add(1);
                false
            }
        }
    }

    fn next(&mut self, accepts: bool, waits: bool) -> Happened<TcpIn, TcpOut> {
        match seen(&mut self.set, accepts, waits) {
            Ok(Seen::Link(input, output)) => Happened::Came(input, output),
            Ok(Seen::At(number)) => Happened::At(number),
            Ok(Seen::Late) => Happened::Anywhere,
            Ok(Seen::Nothing) => Happened::Nothing,
            Err(_) if !accepts => Happened::Anywhere,
            Err(_) => {
                self.faults = self.faults.saturating_add(1);
                Happened::Failed
            }
        }
    }
}

/// What is seen next, where the links are waited for together.
fn seen(set: &mut Option<ListenSet>, accepts: bool, waits: bool) -> io::Result<Seen> {
    match set {
        Some(set) => set.next(accepts, waits),
        None => Err(io::Error::from(ErrorKind::NotConnected)),
    }
}
