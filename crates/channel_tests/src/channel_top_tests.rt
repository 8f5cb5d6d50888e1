// The top call on whole inputs: every status, and what is written with it.
use crate::program::{each_policy, no_listener, run, still_world};
use channel_top::run_steady;
use gate_io::{MemSink, MemSource, SteadySink, SteadySource};
use policy_rack::boxes_ready;
use std::alloc::Global;
use std::process::Abort;
use std::sync::Wait;
use std::test::Fail;
use std::thread::Threads;

/// A script of one call, up to its answer.
const PREFIX: &str =
    "channel 1 ipv4:127.0.0.1:50051\n0 0 resolved 127.0.0.1:50051 -\n0 0 dial\n0 0 up 1\n0 0 drain 1 65536\n1 0 arrived 1 000000040000000000\n2 0 begin /a.B/C - - -\n2 0 send 1 6869\n2 0 finish 1\n3 0 drain 1 65536\n";

/// The answer with the status 0.
const OK: &str =
    "4 0 arrived 1 00003b01050000000100073a73746174757303323030000c636f6e74656e742d74797065106170706c69636174696f6e2f67727063000b677270632d7374617475730130\n";

const TAKE: &str = "4 0 take 1\n";

/// The words, the script in pieces of at most so many bytes, and the calls that fail: the status and what was written.
#[derive(Drop)]
struct Case {
    word: &'static str,
    parts: [&'static str; 3],
    piece: usize,
    failed_read: u64,
    failed_write: u64,
}

fn answer<R: Threads + Wait + Sync>(
    rt: &R,
    alloc: Global,
    case: &Case,
) -> Result<(u8, MemSink), Fail> {
    let mut text = Vec::new(alloc);
    for part in case.parts {
        text.extend_from_slice(part.as_bytes())?;
    }
    let piece = if case.piece == 0 { 65_536 } else { case.piece };
    let mut script = MemSource::new(text, piece, vec![in alloc; case.failed_read]?);
    let mut report = MemSink::new(alloc, 65_536, vec![in alloc; case.failed_write]?);
    let status = run(rt, alloc, case.word.as_bytes(), &mut script, &mut report)?;
    Ok((status, report))
}

fn of_parts(word: &'static str, a: &'static str, b: &'static str, c: &'static str) -> Case {
    Case {
        word,
        parts: [a, b, c],
        piece: 0,
        failed_read: 0,
        failed_write: 0,
    }
}

/// A report of one call, as version 1 has it, and its script in version 2.
const OLD_REPORT: &str =
    "channel 1 ipv4:127.0.0.1:50051\n0 0 resolved 127.0.0.1:50051 - = done\n0 0 dial = dial 1 127.0.0.1:50051 20000000000\n4 0 take 1 = end 0 - - row\nrow 1 1 first 2 6 1 1 1 1 10 0 - 77 status 10\nend 11 1 1 1\n";

#[test]
fn a_report_that_is_not_read_whole_is_not_migrated(rt: HostRuntime) -> Result<(), Fail> {
    let alloc = rt.alloc();
    let mut read = of_parts("migrate", OLD_REPORT, "", "");
    read.piece = 64;
    read.failed_read = 2;
    let (status, report) = answer(&rt, alloc, &read)?;
    assert_eq!(rt; status, 4);
    assert!(rt; report.taken().is_empty());
    Ok(())
}

#[test]
fn a_fault_of_the_environment_has_its_status(rt: HostRuntime) -> Result<(), Fail> {
    let mut read = of_parts("replay", PREFIX, OK, TAKE);
    read.piece = 64;
    read.failed_read = 2;
    let (status, report) = answer(&rt, rt.alloc(), &read)?;
    assert_eq!(rt; status, 4);
    assert!(rt; report.taken().is_empty());
    let mut write = of_parts("replay", PREFIX, OK, TAKE);
    write.failed_write = 1;
    let (status, report) = answer(&rt, rt.alloc(), &write)?;
    assert_eq!(rt; status, 5);
    assert!(rt; report.taken().is_empty());
    let mut words = of_parts("", "", "", "");
    words.failed_write = 1;
    let (status, _) = answer(&rt, rt.alloc(), &words)?;
    assert_eq!(rt; status, 5);
    Ok(())
}

#[test]
fn steady_ends_answer_as_well(rt: HostRuntime) -> Result<(), Fail> {
    let mut script = SteadySource::new(Vec::new(rt.alloc()));
    let mut report = SteadySink::new();
    let words = vec![in rt.alloc(); String::from_str(rt.alloc(), "replay")?]?;
    let boxes = each_policy(rt.alloc())?;
    if !boxes_ready(&boxes) {
        return Err("no two of one kind, and pick_first among them".into());
    }
    let world = still_world(rt.alloc())?;
    let mut listener = no_listener(rt.alloc());
    let status = run_steady(
        &rt,
        rt.alloc(),
        words.as_slice(),
        &mut script,
        &mut report,
        world,
        &mut listener,
        boxes,
    );
    assert_eq!(rt; status, 0);
    assert_eq!(rt; report.count(), 0);
    Ok(())
}
