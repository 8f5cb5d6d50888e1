// A listener that says on standard error that it listens.
use gate_io::{Dialed, Happened, Listener, TcpIn, TcpListen, TcpOut};
use std::alloc::Global;
use std::net::{Net, TcpListener, TcpStream};

/// A listener over TCP that says `listening <port>` on standard error once it is open, so that what calls it can wait for that.
#[derive(Drop)]
pub struct Announced<R> {
    rt: R,
    listener: TcpListen<R>,
}

impl<R: Net<Stream = TcpStream, Listener = TcpListener> + Copy> Announced<R> {
    /// A listener of this runtime that is not open yet.
    pub fn new(rt: R, alloc: Global) -> Announced<R> {
        Announced {
            rt,
            listener: TcpListen::new(rt, alloc),
        }
    }
}

impl<R: Net<Stream = TcpStream, Listener = TcpListener> + Eprint> Announced<R> {
    /// Says at which port it listens, if it does.
    fn announce(&self) {
        if let Some(port) = self.listener.port() {
            // Where standard error takes nothing, the listener listens all the same.
            let _ = eprintln!(self.rt; "listening {port}");
        }
    }
}

impl<R: Net<Stream = TcpStream, Listener = TcpListener> + Eprint + Send + Drop> Listener
    for Announced<R> {
    type In = TcpIn;

    type Out = TcpOut;

    ghost faults = { λ a. a.listener.faults };

    fn open(&mut self, port: u16) -> bool {
        let is_open = self.listener.open(port);
        self.announce();
        is_open
    }

    fn accept(&mut self) -> Dialed<TcpIn, TcpOut> {
        self.listener.accept()
    }

    fn open_together(&mut self, port: u16) -> bool {
        let is_open = self.listener.open_together(port);
        self.announce();
        is_open
    }

    fn next(&mut self, accepts: bool, waits: bool) -> Happened<TcpIn, TcpOut> {
        self.listener.next(accepts, waits)
    }
}
