// Reports whose lines are written out by the formats' rules, and sinks that fail.
use attempt_ledger::{CallSeen, Journal, Ledger, LinkSeen, Placed, Row, RowCause, RowEnd, RowKind};
use gate_io::MemSink;
use grpc_base::{
    Address, AddressList, BoxedAddresses, Code, ConfigFault, Conn, EndCause, Entry, Event, Field,
    Items, JsonFault, KindSet, Metadata, Moment, NoMemory, Octets, Pushback, Refusal, Reply,
    Request, Stamped, Text,
};
use script_text::{ReportFault, write_config, write_report, write_script};
use service_config::read_config;
use std::alloc::Global;
use std::test::Fail;

const LINES: &[u8] = b"channel 2 ipv4:127.0.0.1:50051
0 0 begin /a.B/C yes 1000 - = call 1
1 18446744073709551615 send 1 6869 = done
1 0 send 1 - = full 65536
1 0 finish 1 = notyet
1 0 take 1 = head a:78,b-bin:
1 0 cancel 1 = message 6f6b
1 0 resolved - - = badconfig 1 1:17
1 0 resolved 127.0.0.1:50051,10.0.0.2:1 7b7d = badconfig 2 methodConfig[0].timeout
1 0 unresolved = badconfig 5 -
1 0 dial = dial 1 127.0.0.1:50051 20000000000
1 0 up 1 = link 1
1 0 nodial 2 = refused 5
1 0 arrived 1 00ff = octets -
1 0 lost 1 = octets 0a
1 0 drain 1 65536 = done
1 0 ping 1 0000000000000102 = done
1 0 shutdown = done
1 0 tick = end 5 a%20b%25- a:78,b-bin: row
1 0 tick = end 14 %2D a:78,b-bin: deadline
1 0 tick = end 0 - a:78,b-bin: cancelled
1 0 tick = end 2 !$&~%7F%FF%0A a:78,b-bin: shut
1 0 tick = end 13 - a:78,b-bin: request
1 0 tick = end 13 - a:78,b-bin: response
1 0 tick = end 14 - a:78,b-bin: noconfig
1 0 tick = badconfig 1 2:0
1 0 tick = badconfig 1 3:9
1 0 tick = badconfig 1 4:10
1 0 tick = badconfig 1 5:65536
1 0 tick = badconfig 3 methodConfig[0]
1 0 tick = badconfig 4 methodConfig[1].name[0]
row 1 1 first 2 6 1 1 1 1 10 0 - 77 status 10 - -
row 1 2 retry 18446744073709551615 - - - - - - - - - - - - -
row 2 1 hedge 3 6 2 3 4 5 9 14 250 78 cut - 9500 -
row 2 1 transparent 3 6 2 3 4 - 9 16 stop 0 unsent 11 0 18446744073709551615
end 30 2 4 3
";

const LOCAL: Address = Address {
    ip: 2_130_706_433,
    port: 50_051,
};

const OTHER: Address = Address {
    ip: 167_772_162,
    port: 1,
};

/// Appends an entry at moment 1 with the word 0.
fn step(entries: &mut Items<Entry>, event: Event, reply: Reply) -> Result<(), Fail> {
    let moment = Moment::new(1).ok_or("moment")?;
    entries.push(Entry {
        moment,
        word: 0,
        event,
        reply,
        state: Conn::Ready,
    })?;
    Ok(())
}

fn tick(entries: &mut Items<Entry>, fault: ConfigFault) -> Result<(), Fail> {
    step(entries, Event::Tick, Reply::BadConfig { fault })
}

/// Two pairs, one of them with an empty value.
fn pairs(alloc: Global) -> Result<Metadata, Fail> {
    let mut pairs = Vec::new(alloc);
    for (name, value) in [(b"a".as_slice(), b"x".as_slice()), (b"b-bin", b"")] {
        let name = Octets::of_slice(alloc, name)?;
        let value = Octets::of_slice(alloc, value)?;
        pairs.push(Field { name, value })?;
    }
    Ok(Metadata::of_vec(pairs))
}

/// What the application asks for.
fn push_calls(alloc: Global, entries: &mut Items<Entry>) -> Result<(), Fail> {
    let path = Text::of_slice(alloc, b"/a.B/C")?;
    let request = Request::new(path, Metadata::new(alloc), Some(true), Some(1000))?;
    let moment = Moment::new(0).ok_or("moment")?;
    entries.push(Entry {
        moment,
        word: 0,
        event: Event::Begin { request },
        reply: Reply::Call { call: 1 },
        state: Conn::Idle,
    })?;
    let moment = Moment::new(1).ok_or("moment")?;
    let message = Octets::of_slice(alloc, b"hi")?;
    entries.push(Entry {
        moment,
        word: u64::MAX,
        event: Event::Send { call: 1, message },
        reply: Reply::Done,
        state: Conn::Idle,
    })?;
    let message = Octets::new();
    step(
        entries,
        Event::Send { call: 1, message },
        Reply::Full { held: 65_536 },
    )?;
    step(entries, Event::Finish { call: 1 }, Reply::NotYet)?;
    let meta = pairs(alloc)?;
    step(entries, Event::Take { call: 1 }, Reply::Head { meta })?;
    let octets = Octets::of_slice(alloc, b"ok")?;
    step(
        entries,
        Event::Cancel { call: 1 },
        Reply::Message { octets },
    )
}

/// What the resolver says.
fn push_results(alloc: Global, entries: &mut Items<Entry>) -> Result<(), Fail> {
    let fault = ConfigFault::Json {
        fault: JsonFault::Syntax { at: 17 },
    };
    let addresses = BoxedAddresses::new(alloc, AddressList::new())?;
    let config = None;
    step(
        entries,
        Event::Resolved { addresses, config },
        Reply::BadConfig { fault },
    )?;
    let mut addresses = AddressList::new();
    let _ = addresses.push(LOCAL);
    let _ = addresses.push(OTHER);
    let addresses = BoxedAddresses::new(alloc, addresses)?;
    let config = Some(Octets::of_slice(alloc, b"{}")?);
    let path = Text::of_slice(alloc, b"methodConfig[0].timeout")?;
    let fault = ConfigFault::Field { path };
    step(
        entries,
        Event::Resolved { addresses, config },
        Reply::BadConfig { fault },
    )?;
    let fault = ConfigFault::NoSupportedPolicy;
    step(entries, Event::ResolveFailed, Reply::BadConfig { fault })
}

/// What becomes of dials.
fn push_dials(entries: &mut Items<Entry>) -> Result<(), Fail> {
    let dial = Reply::Dial {
        sub: 1,
        address: LOCAL,
        until: 20_000_000_000,
    };
    step(entries, Event::TakeDial, dial)?;
    step(entries, Event::LinkUp { sub: 1 }, Reply::Link { link: 1 })?;
    step(
        entries,
        Event::DialFailed { sub: 2 },
        Reply::Refused {
            refusal: Refusal::NotDialing,
        },
    )
}

/// What links bring and take.
fn push_octets(alloc: Global, entries: &mut Items<Entry>) -> Result<(), Fail> {
    let piece = Octets::of_slice(alloc, &[0, 255])?;
    let octets = Octets::new();
    step(
        entries,
        Event::Arrived { link: 1, piece },
        Reply::Octets { octets },
    )?;
    let octets = Octets::of_slice(alloc, b"\n")?;
    step(
        entries,
        Event::LinkLost { link: 1 },
        Reply::Octets { octets },
    )?;
    step(
        entries,
        Event::Drain {
            link: 1,
            room: 65_536,
        },
        Reply::Done,
    )?;
    step(entries, Event::Ping { link: 1, word: 258 }, Reply::Done)?;
    step(entries, Event::Shutdown, Reply::Done)
}

/// The ends of calls.
fn push_ends(alloc: Global, entries: &mut Items<Entry>) -> Result<(), Fail> {
    for (code, text, cause) in [
        (Code::NotFound, b"a b%-".as_slice(), EndCause::Row),
        (Code::Unavailable, b"-", EndCause::Deadline),
        (Code::Ok, b"", EndCause::Cancelled),
        (Code::Unknown, b"!$&~\x7f\xff\n", EndCause::Shut),
        (Code::Internal, b"", EndCause::Request),
        (Code::Internal, b"", EndCause::Response),
        (Code::Unavailable, b"", EndCause::NoConfig),
    ] {
        let text = Text::of_slice(alloc, text)?;
        let meta = pairs(alloc)?;
        let reply = Reply::End {
            code,
            text,
            meta,
            cause,
        };
        step(entries, Event::Tick, reply)?;
    }
    Ok(())
}

/// The other faults of a service config.
fn push_faults(alloc: Global, entries: &mut Items<Entry>) -> Result<(), Fail> {
    for fault in [
        JsonFault::RepeatedKey { at: 0 },
        JsonFault::TooDeep { at: 9 },
        JsonFault::Number { at: 10 },
        JsonFault::TooLong,
    ] {
        tick(entries, ConfigFault::Json { fault })?;
    }
    let path = Text::of_slice(alloc, b"methodConfig[0]")?;
    tick(entries, ConfigFault::BothPolicies { path })?;
    let path = Text::of_slice(alloc, b"methodConfig[1].name[0]")?;
    tick(entries, ConfigFault::RepeatedName { path })
}

/// An end at this entry.
fn ended(
    alloc: Global,
    entry: u64,
    code: Code,
    pushback: Pushback,
    seen: u64,
    cause: RowCause,
) -> Result<RowEnd, Fail> {
    let moment = Moment::new(4).ok_or("moment")?;
    Ok(RowEnd {
        entry,
        moment,
        code,
        text: Text::new(alloc),
        meta: Metadata::new(alloc),
        pushback,
        unseen: false,
        seen,
        cause,
        tokens: None,
        word: None,
    })
}

/// A placing at entry 6.
fn placed(generation: u32, sub: u32, link: u32) -> Result<Placed, Fail> {
    let moment = Moment::new(3).ok_or("moment")?;
    Ok(Placed {
        entry: 6,
        moment,
        generation,
        sub,
        link,
    })
}

/// The rows of the first call.
fn push_first_rows(alloc: Global, rows: &mut Items<Row>) -> Result<(), Fail> {
    let placed = placed(1, 1, 1)?;
    let end = ended(alloc, 10, Code::Ok, Pushback::None, 77, RowCause::Status)?;
    rows.push(Row {
        call: 1,
        number: 1,
        kind: RowKind::First,
        due: 2,
        placed: Some(placed),
        stream: Some(1),
        ended: Some(end),
        committed: Some(10),
    })?;
    rows.push(Row {
        call: 1,
        number: 2,
        kind: RowKind::Retry,
        due: u64::MAX,
        placed: None,
        stream: None,
        ended: None,
        committed: None,
    })?;
    Ok(())
}

fn push_hedge(alloc: Global, rows: &mut Items<Row>) -> Result<(), Fail> {
    let hedge = placed(2, 3, 4)?;
    let mut end = ended(
        alloc,
        9,
        Code::Unavailable,
        Pushback::After(250),
        78,
        RowCause::Cut,
    )?;
    end.tokens = Some(9500);
    rows.push(Row {
        call: 2,
        number: 1,
        kind: RowKind::Hedge,
        due: 3,
        placed: Some(hedge),
        stream: Some(5),
        ended: Some(end),
        committed: None,
    })?;
    Ok(())
}

fn push_transparent(alloc: Global, rows: &mut Items<Row>) -> Result<(), Fail> {
    let again = placed(2, 3, 4)?;
    let mut end = ended(
        alloc,
        9,
        Code::Unauthenticated,
        Pushback::Stop,
        0,
        RowCause::Unsent,
    )?;
    end.tokens = Some(0);
    end.word = Some(u64::MAX);
    rows.push(Row {
        call: 2,
        number: 1,
        kind: RowKind::Transparent,
        due: 3,
        placed: Some(again),
        stream: None,
        ended: Some(end),
        committed: Some(11),
    })?;
    Ok(())
}

/// The session whose report is `LINES`.
fn session(alloc: Global) -> Result<(Journal, Ledger), Fail> {
    let mut journal = Journal::new(alloc);
    push_calls(alloc, &mut journal.entries)?;
    push_results(alloc, &mut journal.entries)?;
    push_dials(&mut journal.entries)?;
    push_octets(alloc, &mut journal.entries)?;
    push_ends(alloc, &mut journal.entries)?;
    push_faults(alloc, &mut journal.entries)?;
    let mut ledger = Ledger::new(alloc);
    push_first_rows(alloc, &mut ledger.rows)?;
    push_hedge(alloc, &mut ledger.rows)?;
    push_transparent(alloc, &mut ledger.rows)?;
    for begun in [1, 2] {
        ledger.calls.push(CallSeen {
            begun,
            configured: None,
            made: Items::new(alloc),
            end: None,
        })?;
    }
    for sub in [1, 2, 3] {
        ledger.links.push(LinkSeen {
            sub,
            up: 3,
            gone: None,
            read: 0,
        })?;
    }
    Ok((journal, ledger))
}

#[test]
fn each_kind_of_line_is_as_the_formats_say(rt: HostRuntime) -> Result<(), Fail> {
    let alloc = rt.alloc();
    let (journal, ledger) = session(alloc)?;
    let target = Text::of_slice(alloc, b"ipv4:127.0.0.1:50051")?;
    let mut sink = MemSink::new(alloc, usize::MAX, Vec::new(alloc));
    assert_eq!(rt;
        write_report(alloc, &journal, &ledger, &target, &mut sink),
        Ok(())
    );
    assert_eq!(rt; sink.taken(), LINES);
    Ok(())
}

#[test]
fn a_write_that_fails_leaves_a_prefix(rt: HostRuntime) -> Result<(), Fail> {
    let alloc = rt.alloc();
    let (journal, ledger) = session(alloc)?;
    let target = Text::of_slice(alloc, b"ipv4:127.0.0.1:50051")?;
    for (failing, prefix) in [
        (1, b"".as_slice()),
        (2, b"channel 2 "),
        (3, b"channel 2 ipv4:127.0"),
    ] {
        let mut sink = MemSink::new(alloc, 10, vec![in alloc; failing]?);
        let answer = write_report(alloc, &journal, &ledger, &target, &mut sink);
        assert_eq!(rt; answer, Err(ReportFault::Write), "write {failing}");
        assert_eq!(rt; sink.taken(), prefix, "write {failing}");
    }
    Ok(())
}

/// Appends an event of a script.
fn push_event(events: &mut Vec<Stamped>, moment: u64, word: u64, event: Event) -> Result<(), Fail> {
    let moment = Moment::new(moment).ok_or("moment")?;
    events.push(Stamped {
        moment,
        word,
        event,
    })?;
    Ok(())
}

#[test]
fn a_script_is_written_whole(rt: HostRuntime) -> Result<(), Fail> {
    let alloc = rt.alloc();
    let target = Text::of_slice(alloc, b"dns:///api.example.com")?;
    let message = Octets::of_slice(alloc, b"hi")?;
    let mut events = Vec::new(alloc);
    push_event(&mut events, 0, 7, Event::Send { call: 2, message })?;
    push_event(&mut events, 9, u64::MAX, Event::Tick)?;
    let mut sink = MemSink::new(alloc, usize::MAX, Vec::new(alloc));
    assert_eq!(rt;
        write_script(alloc, &target, events.as_slice(), &mut sink),
        Ok(())
    );
    let lines = b"channel 2 dns:///api.example.com\n0 7 send 2 6869\n9 18446744073709551615 tick\n";
    assert_eq!(rt; sink.taken(), lines.as_slice());
    let mut failing = MemSink::new(alloc, 7, vec![in alloc; 2]?);
    assert_eq!(rt;
        write_script(alloc, &target, events.as_slice(), &mut failing),
        Err(ReportFault::Write)
    );
    assert_eq!(rt; failing.taken(), b"channel".as_slice());
    Ok(())
}

/// A service config, and its lines.
const CONFIG: &[u8] =
    b"{\"loadBalancingConfig\":[{\"round_robin\":{}}],\"methodConfig\":[{\"name\":[{\"service\":\"a.B\"},{\"service\":\"a.C\",\"method\":\"Get\"}],\"timeout\":\"1.5s\",\"retryPolicy\":{\"maxAttempts\":9,\"initialBackoff\":\"0.1s\",\"maxBackoff\":\"1s\",\"backoffMultiplier\":2,\"retryableStatusCodes\":[\"UNAVAILABLE\"]}}],\"retryThrottling\":{\"maxTokens\":10,\"tokenRatio\":0.5466}}";

const CONFIG_LINES: &[u8] = b"policy round_robin
throttle 10000 546
method a.B/* - 1500000000 - - retry 5 100000000 1000000000 2000 14
method a.C/Get - 1500000000 - - retry 5 100000000 1000000000 2000 14
end 2
";

#[test]
fn a_config_is_written_whole(rt: HostRuntime) -> Result<(), Fail> {
    let alloc = rt.alloc();
    let config = read_config(alloc, CONFIG, KindSet::all())
        .ok()
        .ok_or("a valid config")?;
    let mut sink = MemSink::new(alloc, usize::MAX, Vec::new(alloc));
    assert_eq!(rt; write_config(alloc, &config, &mut sink), Ok(()));
    assert_eq!(rt; sink.taken(), CONFIG_LINES);
    let mut failing = MemSink::new(alloc, 7, vec![in alloc; 2]?);
    assert_eq!(rt;
        write_config(alloc, &config, &mut failing),
        Err(ReportFault::Write)
    );
    assert_eq!(rt; failing.taken(), b"policy ".as_slice());
    Ok(())
}
