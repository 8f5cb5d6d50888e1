// One link of a scripted server, over memory: what goes out, and how it ends.
use crate::exchange::{bytes_of, script_of};
use gate_io::{Listener, MemLink, MemLinkIn, MemLinkOut, MemListener, MemSink, MemSource};
use link_server::{LinkDone, ScriptServer, Served, Turned, serve_link, serve_links, serve_turn};
use std::alloc::Global;
use std::process::Abort;
use std::sync::Wait;
use std::test::Fail;

/// The script, what comes and what goes, in hex.
#[derive(Clone, Copy)]
struct Exchange {
    script: &'static str,
    comes: &'static str,
    goes: &'static str,
}

/// The client's preface and SETTINGS, and a call of one message; its answer stands after the acknowledgement and the windows.
const UNARY: Exchange = Exchange {
    script: "answer /a.B/C 1 h,m6f6b,s0",
    comes: "505249202a20485454502f322e300d0a0d0a534d0d0a0d0a00000004000000000000000a010400000001838604062f612e422f4300000700010000000100000000026869",
    goes: "00000004000000000000000004010000000000000408000000000000000007000014010400000001880f10106170706c69636174696f6e2f6772706300000700000000000100000000026f6b00000f010500000001000b677270632d7374617475730130",
};

/// A window of 0, which opens by 3 bytes, by a SETTINGS of 2 more and by 9 more.
const WINDOWS: Exchange = Exchange {
    script: "answer /a.B/C 1 h,m6f6b,s0",
    comes: "505249202a20485454502f322e300d0a0d0a534d0d0a0d0a00000604000000000000040000000000000a010500000001838604062f612e422f430000040800000000010000000300000604000000000000040000000200000408000000000100000009",
    goes: "000000040000000000000000040100000000000014010400000001880f10106170706c69636174696f6e2f6772706300000300000000000100000000000004010000000000000200000000000100020000020000000000016f6b00000f010500000001000b677270632d7374617475730130",
};

/// How a link of an exchange is cut, and which of its reads and writes fails, from 1; none at 0.
#[derive(Clone, Copy)]
struct Cut {
    read: usize,
    write: usize,
    failed_read: u64,
    failed_write: u64,
}

const WHOLE: Cut = Cut {
    read: 65_536,
    write: 65_536,
    failed_read: 0,
    failed_write: 0,
};

const BYTES: Cut = Cut {
    read: 1,
    write: 1,
    failed_read: 0,
    failed_write: 0,
};

/// What was sent, whether the link was closed, and how the serving ended.
#[derive(Drop)]
struct Ran {
    output: MemLinkOut,
    done: LinkDone,
}

fn run<R: Wait>(rt: &R, alloc: Global, exchange: &Exchange, cut: Cut) -> Result<Ran, Fail> {
    let mut core = ScriptServer::new(alloc, script_of(alloc, exchange.script)?)?;
    let comes = bytes_of(alloc, exchange.comes)?;
    let source = MemSource::new(
        Vec::from_slice(alloc, comes.as_slice())?,
        cut.read.max(1),
        vec![in alloc; cut.failed_read]?,
    );
    let mut input = MemLinkIn::new(source, true);
    let sink = MemSink::new(alloc, cut.write.max(1), vec![in alloc; cut.failed_write]?);
    let mut output = MemLinkOut::new(sink);
    let done = serve_link(rt, &mut core, 1, &mut input, &mut output);
    Ok(Ran { output, done })
}

/// An exchange goes as it says, cut so, and ends so; the link is closed.
fn expect<R: Wait + Abort>(
    rt: &R,
    alloc: Global,
    exchange: &Exchange,
    cut: Cut,
    done: LinkDone,
) -> Result<(), Fail> {
    let ran = run(rt, alloc, exchange, cut)?;
    let goes = bytes_of(alloc, exchange.goes)?;
    assert_eq!(rt; ran.done, done);
    assert!(rt; ran.output.taken() == goes.as_slice());
    assert!(rt; ran.output.is_closed());
    Ok(())
}

#[test]
fn a_link_is_served_to_its_end(rt: HostRuntime) -> Result<(), Fail> {
    let alloc = rt.alloc();
    expect(&rt, alloc, &UNARY, WHOLE, LinkDone::Ended)?;
    expect(&rt, alloc, &UNARY, BYTES, LinkDone::Ended)?;
    expect(&rt, alloc, &WINDOWS, BYTES, LinkDone::Ended)
}

#[test]
fn a_link_that_breaks_or_fails_is_closed(rt: HostRuntime) -> Result<(), Fail> {
    let alloc = rt.alloc();
    let nothing = Exchange {
        script: "",
        comes: "50",
        goes: "000000040000000000",
    };
    let broken = Exchange {
        comes: "474554",
        ..nothing
    };
    expect(&rt, alloc, &broken, WHOLE, LinkDone::Broken { code: 1 })?;
    let cut = Cut {
        failed_read: 1,
        ..WHOLE
    };
    expect(&rt, alloc, &nothing, cut, LinkDone::ReadFailed)?;
    let cut = Cut {
        failed_write: 1,
        ..WHOLE
    };
    let unsent = Exchange {
        goes: "-",
        ..nothing
    };
    expect(&rt, alloc, &unsent, cut, LinkDone::WriteFailed)
}

/// A link of an exchange, whole.
fn link_of(alloc: Global, exchange: &Exchange) -> Result<MemLink, Fail> {
    let comes = bytes_of(alloc, exchange.comes)?;
    let bytes = Vec::from_slice(alloc, comes.as_slice())?;
    let source = MemSource::new(bytes, 65_536, Vec::new(alloc));
    let sink = MemSink::new(alloc, 65_536, Vec::new(alloc));
    Ok(MemLink {
        input: MemLinkIn::new(source, true),
        output: MemLinkOut::new(sink),
    })
}

#[test]
fn a_turn_serves_what_has_come(rt: HostRuntime) -> Result<(), Fail> {
    let alloc = rt.alloc();
    let mut core = ScriptServer::new(alloc, script_of(alloc, UNARY.script)?)?;
    let MemLink {
        mut input,
        mut output,
    } = link_of(alloc, &UNARY)?;
    let turned = serve_turn(&mut core, 1, &mut input, &mut output);
    assert_eq!(rt; turned, Turned::Over(LinkDone::Ended));
    assert!(rt; output.taken() == bytes_of(alloc, UNARY.goes)?.as_slice());
    assert!(rt; output.is_closed());
    Ok(())
}

/// Two links of a listener in memory, and one more than it has.
#[test]
fn links_take_turns_to_their_ends(rt: HostRuntime) -> Result<(), Fail> {
    let alloc = rt.alloc();
    for (asked, served) in [(2, Served::Whole), (3, Served::NotListening)] {
        let mut core = ScriptServer::new(alloc, script_of(alloc, UNARY.script)?)?;
        let mut links = Vec::new(alloc);
        links.push(link_of(alloc, &UNARY)?)?;
        links.push(link_of(alloc, &WINDOWS)?)?;
        let mut listener = MemListener::new(true, links, Vec::new(alloc));
        assert!(rt; listener.open_together(1));
        let done = serve_links(&rt, alloc, &mut core, &mut listener, asked);
        assert_eq!(rt; done, served);
    }
    Ok(())
}
