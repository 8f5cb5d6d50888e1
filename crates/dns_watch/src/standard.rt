// Looking names up by the system's resolver, the trusted edge.
ghost use Rattle.std.specs.Bool.{⊤};

use crate::noted::Noted;
use crate::{Looked, Lookup};
use arrayvec::ArrayVec;
use grpc_base::DnsName;
use std::net::{Net, SocketAddr, ToSocketAddrs};

/// The most IPv4 addresses of an answer.
const MOST: usize = 64;

/// Looks names up by the system's resolver, which gives up to 32 addresses of a name. A host that is written as an IPv4
/// address is that address.
#[derive(Drop)]
pub struct StdLookup<R> {
    rt: R,
    noted: Noted,
}

impl<R: Net> StdLookup<R> {
    /// The resolver of this runtime.
    pub fn new(rt: R) -> StdLookup<R> {
        StdLookup {
            rt,
            noted: Noted::new(),
        }
    }

    /// The IPv4 addresses of a name in the order of the system's answer; none where the lookup fails.
    fn ips_of(&self, name: &DnsName) -> ArrayVec<u32, MOST> {
        let mut ips = ArrayVec::new();
        let Ok(host) = str::from_utf8(name.host.as_slice()) else {
            return ips;
        };
        let Ok(found) = (host, name.port).to_socket_addrs(&self.rt) else {
            return ips;
        };
        for addr in found {
            if let SocketAddr::V4(addr) = addr {
                if ips.is_full() {
                    return ips;
                }
                ips.push(addr.ip().to_bits());
            }
        }
        ips
    }
}

impl<R: Net + Send + Drop> Lookup for StdLookup<R> {
    ghost lookups = { λ l. l.noted.lookups };

    ghost faults = { λ l. l.noted.faults };

    ghost last = { λ l. l.noted.last };

    ghost may_find = { λ _ _ _. ⊤ };

    fn lookup(&mut self, name: &DnsName) -> Looked {
        let ips = self.ips_of(name);
        self.noted.note(name.port, ips.as_slice())
    }
}
