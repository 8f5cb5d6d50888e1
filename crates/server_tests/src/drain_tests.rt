// A link whose server finds no memory for what it has to send.
ghost use Rattle.std.specs.Prelude.{None};

use gate_io::{MemLinkIn, MemLinkOut, MemSink, MemSource};
use grpc_base::{NoMemory, Octets};
use link_server::{LinkDone, Serving, serve_link};
use loop_server::ServerFault;
use std::alloc::Global;
use std::test::Fail;

/// A server that gives four bytes at each drain but one, counted from 1, for which it finds no memory.
#[derive(Drop)]
struct Short {
    drains: u64,
    without: u64,
    breaks: u64,
}

impl Serving for Short {
    ghost given = { λ _ _. None };

    ghost drained = { λ _ _. None };

    ghost breaks = { λ s. s.breaks };

    ghost last_code = { λ _. 0 };

    fn arrived(&mut self, _link: u32, _piece: &[u8]) -> Result<(), ServerFault> {
        Ok(())
    }

    fn drain(&mut self, _link: u32) -> Result<Octets, NoMemory> {
        self.drains = self.drains.saturating_add(1);
        if self.drains == self.without {
            return Err(NoMemory);
        }
        Ok(Octets::of_static(b"four"))
    }
}

/// What comes on the link: two bytes, a byte at a read, and then its end.
fn input(alloc: Global) -> Result<MemLinkIn, Fail> {
    let source = MemSource::new(b"ab".to_vec(alloc)?, 1, Vec::new(alloc));
    Ok(MemLinkIn::new(source, true))
}

#[test]
fn a_link_ends_where_a_drain_finds_no_memory(rt: HostRuntime) -> Result<(), Fail> {
    let alloc = rt.alloc();
    for (without, done, goes) in [
        (0, LinkDone::Ended, "fourfourfour"),
        (1, LinkDone::NoMemory, ""),
        (2, LinkDone::NoMemory, "four"),
        (3, LinkDone::NoMemory, "fourfour"),
    ] {
        let mut server = Short {
            drains: 0,
            without,
            breaks: 0,
        };
        let mut output = MemLinkOut::new(MemSink::new(alloc, 64, Vec::new(alloc)));
        let came = serve_link(&rt, &mut server, 1, &mut input(alloc)?, &mut output);
        assert_eq!(rt; (without, came), (without, done));
        assert_eq!(rt; (without, output.taken()), (without, goes.as_bytes()));
        assert!(rt; output.is_closed());
    }
    Ok(())
}
