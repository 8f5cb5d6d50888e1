// Links, dialers and listeners, in memory and over TCP on this machine; clocks, random words and worlds.
use gate_io::{
    Clock, Dialed, Dialer, Draws, LinkIn, LinkOut, LinkRead, ListClock, Listener, MemDialer,
    MemLink, MemLinkIn, MemLinkOut, MemListener, MemSink, MemSource, MemWorld, PcgDraws, StdClock,
    TcpDialer, TcpListen, TcpWorld, World, WriteAnswer,
};
use grpc_base::Address;
use std::alloc::{AllocError, Global};
use std::test::Fail;

/// 127.0.0.1.
const LOOPBACK: u32 = 0x7f00_0001;

/// Five seconds in nanoseconds, more than any dial on this machine takes.
const FIVE_SECONDS: u64 = 5_000_000_000;

/// A link on which these bytes come, three at a time; its second write fails.
fn link(alloc: Global, bytes: &[u8]) -> Result<MemLink, AllocError> {
    let source = MemSource::new(bytes.to_vec(alloc)?, 3, Vec::new(alloc));
    let failing = vec![in alloc; 2]?;
    Ok(MemLink {
        input: MemLinkIn::new(source, true),
        output: MemLinkOut::new(MemSink::new(alloc, 8, failing)),
    })
}

#[test]
fn a_link_in_memory_fails_ends_and_stays_quiet_as_it_is_made(rt: HostRuntime) -> Result<(), Fail> {
    let failing = vec![in rt.alloc(); 2]?;
    let source = MemSource::new(b"abcd".to_vec(rt.alloc())?, 3, failing);
    let mut open = MemLinkIn::new(source, false);
    let mut buf = [0u8; 4];
    assert_eq!(rt; open.read(&mut buf), LinkRead::Got(3));
    assert_eq!(rt; open.read(&mut buf), LinkRead::Failed);
    assert_eq!(rt; open.read(&mut buf), LinkRead::Got(1));
    assert_eq!(rt; buf[0], b'd');
    assert_eq!(rt; open.read(&mut buf), LinkRead::Quiet);
    assert_eq!(rt; open.read(&mut buf), LinkRead::Quiet);
    let MemLink {
        mut input,
        mut output,
    } = link(rt.alloc(), b"")?;
    assert_eq!(rt; input.read(&mut buf), LinkRead::End);
    assert_eq!(rt; output.write(b"first"), WriteAnswer::Took(5));
    assert_eq!(rt; output.write(b"second"), WriteAnswer::Failed);
    assert!(rt; !output.is_closed());
    output.close();
    assert!(rt; output.is_closed());
    assert_eq!(rt; output.write(b"third"), WriteAnswer::Failed);
    assert_eq!(rt; output.taken(), b"first".as_slice());
    Ok(())
}

#[test]
fn a_dialer_and_a_listener_in_memory_open_links_in_order(rt: HostRuntime) -> Result<(), Fail> {
    let alloc = rt.alloc();
    let to = Address {
        ip: LOOPBACK,
        port: 1,
    };
    let mut links = Vec::new(alloc);
    links.push(link(alloc, b"1")?)?;
    links.push(link(alloc, b"2")?)?;
    let mut dialer = MemDialer::new(links, vec![in alloc; 2]?);
    let mut buf = [0u8; 4];
    for byte in [Some(b'1'), None, Some(b'2'), None] {
        match dialer.dial(to, 0) {
            Dialed::Open(mut input, _) => {
                assert_eq!(rt; input.read(&mut buf), LinkRead::Got(1));
                assert_eq!(rt; Some(buf[0]), byte);
            }
            Dialed::Failed => assert_eq!(rt; None, byte),
        }
    }
    let mut links = Vec::new(alloc);
    links.push(link(alloc, b"3")?)?;
    let mut listener = MemListener::new(true, links, vec![in alloc; 1]?);
    assert!(rt; listener.open(50_051));
    assert!(rt; matches!(listener.accept(), Dialed::Failed));
    assert!(rt; matches!(listener.accept(), Dialed::Open(_, _)));
    assert!(rt; matches!(listener.accept(), Dialed::Failed));
    assert!(rt; !MemListener::new(false, Vec::new(alloc), Vec::new(alloc)).open(50_051));
    Ok(())
}

#[test]
fn clocks_and_random_words(rt: HostRuntime) -> Result<(), Fail> {
    let clock = ListClock::new(vec![in rt.alloc(); 5, 3, 9]?);
    for moment in [5, 3, 9, 9, 9] {
        assert_eq!(rt; clock.now(), moment);
    }
    // The first word of Rust's `Pcg64::seed_from_u64(0)`, from the tests of its crate.
    let mut draws = PcgDraws::new(0);
    assert_eq!(rt; draws.word(), 2_354_861_276_966_075_475);
    let second = draws.word();
    let mut again = PcgDraws::new(0);
    let mut forked = again.fork();
    assert_eq!(rt; again.word(), second);
    assert_eq!(rt;
        forked.word(),
        PcgDraws::new(2_354_861_276_966_075_475).word()
    );
    let world = MemWorld::new(clock, Vec::new(rt.alloc()));
    let (clock, mut draws, dialers) = world.parts(0);
    assert_eq!(rt; clock.now(), 9);
    assert_eq!(rt; draws.word(), 2_354_861_276_966_075_475);
    assert_eq!(rt; dialers.len(), 0);
    Ok(())
}

#[test]
fn the_clock_of_the_system_gives_a_moment_of_this_century(rt: HostRuntime) {
    let clock = StdClock::new(rt);
    let moment = clock.now();
    // The beginning of 2020, and that of 2096.
    assert!(rt; 1_577_836_800_000_000_000 < moment);
    assert!(rt; moment < 3_976_214_400_000_000_000);
}

/// A listener on a port of the system's choice, and its address.
fn listening(rt: HostRuntime) -> Option<(TcpListen<HostRuntime>, Address)> {
    let mut listener = TcpListen::new(rt, rt.alloc());
    if !listener.open(0) {
        return None;
    }
    let port = listener.port()?;
    Some((listener, Address { ip: LOOPBACK, port }))
}

#[test]
fn links_over_tcp_are_quiet_give_end_and_report_a_reset(rt: HostRuntime) -> Result<(), Fail> {
    let (mut listener, to) = listening(rt).expect(&rt, "a port");
    let until = StdClock::new(rt).now() + FIVE_SECONDS;
    let mut dialer = TcpDialer::new(rt, rt.alloc());
    let Dialed::Open(mut input, mut output) = dialer.dial(to, until) else {
        panic!(rt; "the dial failed");
    };
    let Dialed::Open(mut peer_input, mut peer_output) = listener.accept() else {
        panic!(rt; "the accept failed");
    };
    let mut buf = [0u8; 8];
    assert_eq!(rt; input.read(&mut buf), LinkRead::Quiet);
    assert_eq!(rt; output.write(b"ping"), WriteAnswer::Took(4));
    assert_eq!(rt; peer_input.read(&mut buf), LinkRead::Got(4));
    assert_eq!(rt; &buf[..4], b"ping".as_slice());
    assert_eq!(rt; peer_output.write(b"pong"), WriteAnswer::Took(4));
    assert_eq!(rt; input.read(&mut buf), LinkRead::Got(4));
    assert_eq!(rt; &buf[..4], b"pong".as_slice());
    output.close();
    assert_eq!(rt; peer_input.read(&mut buf), LinkRead::End);
    Ok(())
}

#[test]
fn a_dial_that_nobody_answers_fails(rt: HostRuntime) -> Result<(), Fail> {
    let (listener, to) = listening(rt).expect(&rt, "a port");
    let now = StdClock::new(rt).now();
    let mut dialer = TcpDialer::new(rt, rt.alloc());
    assert!(rt; matches!(dialer.dial(to, now), Dialed::Failed));
    drop(listener);
    // The system may say at once that nobody listens; else the first read fails.
    if let Dialed::Open(mut input, _output) = dialer.dial(to, now + FIVE_SECONDS) {
        assert_eq!(rt; input.read(&mut [0u8; 8]), LinkRead::Failed);
    }
    Ok(())
}

#[test]
fn a_peer_that_resets_is_a_fault(rt: HostRuntime) -> Result<(), Fail> {
    let (mut listener, to) = listening(rt).expect(&rt, "a port");
    let (clock, _, mut dialers) = TcpWorld::new(rt, rt.alloc())?.parts(0);
    assert_eq!(rt; dialers.len(), 4);
    let until = clock.now() + FIVE_SECONDS;
    let Dialed::Open(mut input, mut output) = dialers[0].dial(to, until) else {
        panic!(rt; "the dial failed");
    };
    let Dialed::Open(peer_input, peer_output) = listener.accept() else {
        panic!(rt; "the accept failed");
    };
    assert_eq!(rt; output.write(b"never read"), WriteAnswer::Took(10));
    // A socket that is closed with bytes unread resets its connection.
    drop(peer_input);
    drop(peer_output);
    let mut buf = [0u8; 8];
    assert_eq!(rt; input.read(&mut buf), LinkRead::Failed);
    assert_eq!(rt; output.write(b"late"), WriteAnswer::Failed);
    Ok(())
}
