// Each pump over links and posts that fail, as tables; and the worker that keeps links open.
use crate::names::names;
use crate::{Channel, Plan};
use gate_io::{
    LinkIn, LinkOut, ListClock, MemDialer, MemLink, MemLinkIn, MemLinkOut, MemSink, MemSource,
};
use grpc_base::{CallLine, Items, Metadata, NoTender, Octets, PostError, Request, Text};
use keepalive_core::{KeepRule, KeepTable};
use live_pump::{
    DialTurn, Pumped, call_worker, dial_once, net_worker, pump_in, pump_out, tick_if_due,
};
use std::alloc::{AllocError, Global};
use std::sync::Wait;
use std::test::Fail;

/// What comes on a link: these bytes; the calls in `failing` fail.
fn input(
    alloc: Global,
    bytes: &[u8],
    ends: bool,
    failing: &[u64],
) -> Result<MemLinkIn, AllocError> {
    let source = MemSource::new(bytes.to_vec(alloc)?, 8, failing.to_vec(alloc)?);
    Ok(MemLinkIn::new(source, ends))
}

/// What goes on a link, four bytes at a time; the calls in `failing` fail.
fn output(alloc: Global, failing: &[u64]) -> Result<MemLinkOut, AllocError> {
    Ok(MemLinkOut::new(MemSink::new(alloc, 4, failing.to_vec(alloc)?)))
}

/// The error of a channel whose posts fail.
const SPENT: PostError = PostError::NoMemory { spent: true };

/// A plan whose posts are refused, or fail.
fn plan(refuses: bool, fails: bool) -> Plan {
    let mut plan = Plan::new();
    plan.refuses = refuses;
    plan.fails = fails;
    plan.drains = true;
    plan
}

#[test]
fn what_comes_is_posted_and_nothing_else(rt: HostRuntime) -> Result<(), Fail> {
    let alloc = rt.alloc();
    let gone = Pumped::Gone { refusal: 9 };
    let rows = [
        (
            1,
            b"bytes".as_slice(),
            false,
            0,
            plan(false, false),
            Pumped::Going,
            "arrived ",
        ),
        (
            2,
            b"".as_slice(),
            false,
            0,
            plan(false, false),
            Pumped::Going,
            "",
        ),
        (
            3,
            b"".as_slice(),
            true,
            0,
            plan(false, false),
            Pumped::Lost,
            "lost ",
        ),
        (
            4,
            b"bytes".as_slice(),
            true,
            1,
            plan(false, false),
            Pumped::Lost,
            "lost ",
        ),
        (
            5,
            b"bytes".as_slice(),
            false,
            0,
            plan(true, false),
            gone,
            "arrived ",
        ),
        (6, b"".as_slice(), true, 0, plan(true, false), gone, "lost "),
        (
            7,
            b"bytes".as_slice(),
            false,
            0,
            plan(false, true),
            Pumped::Failed(SPENT),
            "",
        ),
        (
            8,
            b"".as_slice(),
            false,
            0,
            plan(false, true),
            Pumped::Going,
            "",
        ),
    ];
    for (row, bytes, ends, failing, plan, answer, posted) in rows {
        let mut channel = Channel::new(alloc, plan).expect(&rt, "0 is a moment");
        let mut input = input(alloc, bytes, ends, &[failing])?;
        assert_eq!(rt;
            (row, pump_in(alloc, &mut channel, &mut input, 3)),
            (row, answer)
        );
        assert_eq!(rt; (row, names(alloc, &channel)?.as_str()), (row, posted));
    }
    Ok(())
}

#[test]
fn what_is_drained_is_written_whole_or_the_link_is_lost(rt: HostRuntime) -> Result<(), Fail> {
    let alloc = rt.alloc();
    let mut idle = plan(false, false);
    idle.drains = false;
    let rows = [
        (1, idle, 0, Pumped::Going, "", b"".as_slice()),
        (
            2,
            plan(false, false),
            0,
            Pumped::Going,
            "drain ",
            b"drained".as_slice(),
        ),
        (
            3,
            plan(false, false),
            1,
            Pumped::Lost,
            "drain lost ",
            b"".as_slice(),
        ),
        (
            4,
            plan(false, false),
            2,
            Pumped::Lost,
            "drain lost ",
            b"drai".as_slice(),
        ),
        (
            5,
            plan(true, false),
            0,
            Pumped::Gone { refusal: 9 },
            "drain ",
            b"".as_slice(),
        ),
        (
            6,
            plan(false, true),
            0,
            Pumped::Failed(SPENT),
            "",
            b"".as_slice(),
        ),
    ];
    for (row, plan, failing, answer, posted, written) in rows {
        let mut channel = Channel::new(alloc, plan).expect(&rt, "0 is a moment");
        let mut output = output(alloc, &[failing])?;
        assert_eq!(rt;
            (row, pump_out(&mut channel, &mut output, 3)),
            (row, answer)
        );
        assert_eq!(rt; (row, names(alloc, &channel)?.as_str()), (row, posted));
        assert_eq!(rt; (row, output.taken()), (row, written));
        assert!(rt; !output.is_closed());
    }
    Ok(())
}

/// A link in memory that stays quiet after these bytes.
fn link(alloc: Global, bytes: &[u8]) -> Result<MemLink, AllocError> {
    Ok(MemLink {
        input: input(alloc, bytes, false, &[])?,
        output: output(alloc, &[])?,
    })
}

/// A dialer with one such link; the dials in `failing` fail.
fn dialer(alloc: Global, bytes: &[u8], failing: &[u64]) -> Result<MemDialer, AllocError> {
    let mut links = Vec::new(alloc);
    links.push(link(alloc, bytes)?)?;
    Ok(MemDialer::new(links, failing.to_vec(alloc)?))
}

#[test]
fn a_dial_is_posted_as_what_it_came_to(rt: HostRuntime) -> Result<(), Fail> {
    let alloc = rt.alloc();
    let mut wanted = plan(false, false);
    wanted.dials = 1;
    let mut refused = wanted;
    refused.refuses = true;
    let mut failed = wanted;
    failed.fails = true;
    let rows = [
        (1, plan(false, false), 0, "nothing", ""),
        (2, wanted, 0, "opened", "dial up "),
        (3, wanted, 1, "refused", "dial down "),
        (4, refused, 0, "gone", "dial "),
        (5, failed, 0, "failed", ""),
    ];
    for (row, plan, failing, answer, posted) in rows {
        let mut channel = Channel::new(alloc, plan).expect(&rt, "0 is a moment");
        let mut dialer = dialer(alloc, b"", &[failing])?;
        let came = match dial_once(&mut channel, &mut dialer) {
            DialTurn::Nothing => "nothing",
            DialTurn::Opened { link: 1, .. } => "opened",
            DialTurn::Refused { sub: 7 } => "refused",
            DialTurn::Gone { refusal: 9 } => "gone",
            DialTurn::Failed(_) => "failed",
            _ => "other",
        };
        assert_eq!(rt; (row, came), (row, answer));
        assert_eq!(rt; (row, names(alloc, &channel)?.as_str()), (row, posted));
    }
    Ok(())
}

#[test]
fn a_tick_is_posted_once_it_is_due(rt: HostRuntime) -> Result<(), Fail> {
    let alloc = rt.alloc();
    for (due, answer) in [
        (None, false),
        (Some(6), false),
        (Some(5), true),
        (Some(4), true),
    ] {
        let mut plan = Plan::new();
        plan.due = due;
        let mut channel = Channel::new(alloc, plan).expect(&rt, "0 is a moment");
        let clock = ListClock::new(vec![in alloc; 5]?);
        assert_eq!(rt; tick_if_due(&mut channel, &clock), Ok(answer));
        assert_eq!(rt;
            names(alloc, &channel)?.as_str(),
            if answer { "tick " } else { "" }
        );
    }
    Ok(())
}

#[test]
fn a_worker_makes_rounds_until_the_channel_is_shut(rt: HostRuntime) -> Result<(), Fail> {
    let alloc = rt.alloc();
    let mut rounds = Plan::new();
    rounds.dials = 1;
    // Each round looks three times: at its beginning, for a dial, and for a tick.
    rounds.glances = 9;
    let mut channel = Channel::new(alloc, rounds).expect(&rt, "0 is a moment");
    let mut dialer = dialer(alloc, b"settings and more", &[])?;
    // A clock that goes back.
    let clock = ListClock::new(vec![in alloc; 5, 3, 9, 2]?);
    let end = net_worker(
        &rt,
        alloc,
        &mut channel,
        &mut dialer,
        &clock,
        &mut NoTender::new(),
    );
    assert_eq!(rt; end, Pumped::Shut);
    assert_eq!(rt;
        names(alloc, &channel)?.as_str(),
        "dial up arrived arrived arrived "
    );
    Ok(())
}

/// How a worker of three rounds ends, and what it posts, where these calls of its dialer and of its one link fail: the
/// dial, a read or a write, counted from 1.
fn run<W: Wait>(
    rt: &W,
    alloc: Global,
    dial: u64,
    read: u64,
    write: u64,
) -> Result<(Pumped, String), Fail> {
    let mut rounds = plan(false, false);
    rounds.dials = 1;
    rounds.glances = 9;
    let Some(mut channel) = Channel::new(alloc, rounds) else {
        return Err(Fail::new("0 is no moment"));
    };
    let mut links = Vec::new(alloc);
    links.push(MemLink {
        input: input(alloc, b"settings and more", false, &[read])?,
        output: output(alloc, &[write])?,
    })?;
    let end = net_worker(
        rt,
        alloc,
        &mut channel,
        &mut MemDialer::new(links, vec![in alloc; dial]?),
        &ListClock::new(vec![in alloc; 0]?),
        &mut NoTender::new(),
    );
    Ok((end, names(alloc, &channel)?))
}

#[test]
fn a_device_that_fails_once_in_a_run_is_reported_once(rt: HostRuntime) -> Result<(), Fail> {
    // A drain is written in two pieces, so the third write is the second round's first.
    for (dial, read, write, posted) in [
        (
            0,
            0,
            0,
            "dial up drain arrived drain arrived drain arrived ",
        ),
        (1, 0, 0, "dial down "),
        (0, 1, 0, "dial up drain lost "),
        (0, 2, 0, "dial up drain arrived drain lost "),
        (0, 3, 0, "dial up drain arrived drain arrived drain lost "),
        (0, 0, 1, "dial up drain lost "),
        (0, 0, 2, "dial up drain lost "),
        (0, 0, 3, "dial up drain arrived drain lost "),
        (0, 0, 6, "dial up drain arrived drain arrived drain lost "),
    ] {
        let row = (dial, read, write);
        let (end, all) = run(&rt, rt.alloc(), dial, read, write)?;
        assert_eq!(rt; (row, end, all.as_str()), (row, Pumped::Shut, posted));
    }
    Ok(())
}

#[test]
fn a_peer_that_never_answers_is_pinged_and_lost(rt: HostRuntime) -> Result<(), Fail> {
    let alloc = rt.alloc();
    let mut rounds = Plan::new();
    rounds.dials = 1;
    rounds.glances = 18;
    let mut channel = Channel::new(alloc, rounds).expect(&rt, "0 is a moment");
    let mut dialer = dialer(alloc, b"settings", &[])?;
    // The link is opened at 0 and its bytes come at 1; then each round reads the clock for the tender and for the tick.
    let clock = ListClock::new(vec![in alloc; 0, 1, 1, 1, 11, 11, 12, 12, 13]?);
    let rule = KeepRule {
        time: 10,
        timeout: 1,
    };
    let Ok(mut table) = KeepTable::new(alloc, rule) else {
        panic!(rt; "the rule is refused");
    };
    let end = net_worker(&rt, alloc, &mut channel, &mut dialer, &clock, &mut table);
    assert_eq!(rt; end, Pumped::Shut);
    assert_eq!(rt;
        names(alloc, &channel)?.as_str(),
        "dial up arrived ping lost "
    );
    Ok(())
}

/// A line of a script with two messages.
fn line(alloc: Global) -> Result<CallLine, Fail> {
    let path = Text::of_slice(alloc, b"/a.B/C")?;
    let Ok(request) = Request::new(path, Metadata::new(alloc), None, None) else {
        return Err(Fail::new("the path is refused"));
    };
    let mut messages = Items::new(alloc);
    messages.push(Octets::of_static(b"one"))?;
    messages.push(Octets::of_static(b"two"))?;
    Ok(CallLine { request, messages })
}

#[test]
fn a_worker_makes_each_line_up_to_its_end(rt: HostRuntime) -> Result<(), Fail> {
    let alloc = rt.alloc();
    let mut lines = Vec::new(alloc);
    lines.push(line(alloc)?)?;
    lines.push(line(alloc)?)?;
    let whole = "begin send send finish take take begin send send finish take ";
    for (refuses, fails, answer, posted) in [
        (false, false, Ok(()), whole),
        (true, false, Ok(()), "begin begin "),
        (false, true, Err(SPENT), ""),
    ] {
        let mut plan = plan(refuses, fails);
        plan.messages = 1;
        let mut channel = Channel::new(alloc, plan).expect(&rt, "0 is a moment");
        assert_eq!(rt; call_worker(&rt, &mut channel, lines.as_slice()), answer);
        assert_eq!(rt; names(alloc, &channel)?.as_str(), posted);
    }
    Ok(())
}
