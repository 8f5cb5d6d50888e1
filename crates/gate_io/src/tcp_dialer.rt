// A dialer over TCP.
ghost use Rattle.std.specs.Prelude.{◌≡◌, None, Some};

use crate::first_answer::FirstAnswer;
use crate::lately::{Lately, Turn};
use crate::sleepers::Sleeper;
use crate::std_clock::nanos_now;
use crate::tcp::link_over;
use crate::waiting::Waiting;
use crate::{Dialed, Dialer, Pause, TcpIn, TcpOut};
use grpc_base::Address;
use std::alloc::Global;
use std::io::ErrorKind;
use std::net::{Ipv4Addr, Net, SocketAddr, SocketAddrV4, TcpStream};
use std::sync::{Arc, Mutex};
use std::{io, time};

/// Dials over TCP. A dial gives its link at once, and connects after that: the reads of the link are quiet until the connection stands,
/// and fail where it can't be made.
#[derive(Drop)]
pub struct TcpDialer<R> {
    rt: R,
    alloc: Global,
    lately: Option<Arc<Mutex<Lately>>>,
    /// Its links.
    waiting: Waiting,
    faults: u64,
}

impl<R: Net<Stream = TcpStream> + time::Clock> TcpDialer<R> {
    /// A dialer of this runtime.
    pub fn new(rt: R, alloc: Global) -> TcpDialer<R> {
        TcpDialer {
            rt,
            alloc,
            lately: None,
            waiting: Waiting::new(alloc, None),
            faults: 0,
        }
    }

    /// One of several dialers, which know together what was dialled: a dial that nobody answered to its end is followed by one that fails at
    /// once, and so are three connections that were over right after their SETTINGS. So such an address is seen to fail: the next one gets
    /// its turn, and it is dialled again after the wait after a failed dial. The clock beside them wakes the one that waits for its links.
    pub(crate) fn beside(
        rt: R,
        alloc: Global,
        lately: Arc<Mutex<Lately>>,
        sleeper: Arc<Sleeper>,
    ) -> TcpDialer<R> {
        TcpDialer {
            rt,
            alloc,
            lately: Some(lately),
            waiting: Waiting::new(alloc, Some(sleeper)),
            faults: 0,
        }
    }

    /// Whether a dial is made now. Where another dialer notes one at this moment, it is, with no note.
    fn turn(&self, to: Address, until: u64, now: u64) -> Turn {
        let Some(lately) = &self.lately else {
            return Turn::Made(None);
        };
        match lately.try_lock() {
            Some(mut lately) => lately.dial(to, until, now),
            None => Turn::Made(None),
        }
    }

    /// A connection to an address that begins before the moment `until`.
    fn connect(&self, to: Address, until: u64) -> io::Result<(TcpIn, TcpOut)> {
        let now = nanos_now(&self.rt);
        if until <= now {
            return Err(io::Error::from(ErrorKind::TimedOut));
        }
        let Turn::Made(reported) = self.turn(to, until, now) else {
            return Err(io::Error::from(ErrorKind::TimedOut));
        };
        let addr = SocketAddr::V4(SocketAddrV4::new(Ipv4Addr::from_bits(to.ip), to.port));
        let mut stream = mio::net::TcpStream::connect(&self.rt, addr)?;
        // Where it can't be waited for, the link is looked at as often as its user pauses.
        let _ = self.waiting.add(&self.rt, &mut stream);
        let answer = FirstAnswer::new(reported);
        let stream = TcpStream::from(stream);
        link_over(self.alloc, stream, false, answer, self.waiting.opened())
    }
}

impl<R: Net<Stream = TcpStream> + time::Clock + Send + Drop> Dialer for TcpDialer<R> {
    type In = TcpIn;

    type Out = TcpOut;

    ghost coming = { λ _. None };

    ghost faults = { λ d. d.faults };

    fn dial(&mut self, to: Address, until: u64) -> Dialed<TcpIn, TcpOut> {
        match self.connect(to, until) {
            Ok((input, output)) => Dialed::Open(input, output),
            Err(_) => {
                self.faults = self.faults.saturating_add(1);
                Dialed::Failed
            }
        }
    }

    fn wait(&self, pause: Pause, due: Option<u64>) -> bool {
        let longest = longest(pause);
        let nanos = match due {
            Some(due) => due.saturating_sub(nanos_now(&self.rt)).min(longest),
            None => longest,
        };
        self.waiting.wait(&self.rt, nanos)
    }
}

/// How many nanoseconds a wait takes at most that bytes, news and a moment end: the longer nothing came, the longer.
fn longest(pause: Pause) -> u64 {
    match pause {
        Pause::None => 0,
        Pause::Brief => 1_000_000,
        Pause::Short => 5_000_000,
        Pause::Long => 50_000_000,
    }
}
