// The mode that reads a config, and the words, on whole inputs: every status, and what is written with it.
use crate::program::{run, run_with};
use gate_io::{MemSink, MemSource};
use lb_kinds::PickFirst;
use lb_policy::Policy;
use std::alloc::Global;
use std::sync::Wait;
use std::test::Fail;
use std::thread::Threads;

/// The status and what was written, of words with a space between and bytes that are read in pieces of 64, where these calls
/// of read and write fail.
fn answer<R: Threads + Wait + Sync>(
    rt: &R,
    alloc: Global,
    line: &[u8],
    bytes: Vec<u8>,
    failed_read: u64,
    failed_write: u64,
) -> Result<(u8, MemSink), Fail> {
    let mut source = MemSource::new(bytes, 64, vec![in alloc; failed_read]?);
    let mut report = MemSink::new(alloc, 65_536, vec![in alloc; failed_write]?);
    let status = run(rt, alloc, line, &mut source, &mut report)?;
    Ok((status, report))
}

fn bytes_of(alloc: Global, text: &[u8]) -> Result<Vec<u8>, Fail> {
    let mut bytes = Vec::new(alloc);
    bytes.extend_from_slice(text)?;
    Ok(bytes)
}

#[test]
fn the_kinds_of_the_policies_count_as_supported(rt: HostRuntime) -> Result<(), Fail> {
    let alloc = rt.alloc();
    let mut boxes: Vec<Box<dyn Policy>> = Vec::new(alloc);
    boxes.push(Box::new(alloc, PickFirst::new())?)?;
    let input = bytes_of(alloc, b"{\"loadBalancingConfig\":[{\"round_robin\":{}}]}")?;
    let mut source = MemSource::new(input, 64, Vec::new(alloc));
    let mut report = MemSink::new(alloc, 65_536, Vec::new(alloc));
    assert_eq!(rt;
        run_with(&rt, alloc, b"config", &mut source, &mut report, boxes)?,
        3
    );
    assert_eq!(rt; report.taken(), b"fault config 5 -\n".as_slice());
    Ok(())
}

#[test]
fn a_port_that_does_not_open_ends_with_8(rt: HostRuntime) -> Result<(), Fail> {
    let alloc = rt.alloc();
    let line = b"serve --port 1 --links 1";
    let (status, report) = answer(&rt, alloc, line, Vec::new(alloc), 0, 0)?;
    assert_eq!(rt; status, 8);
    assert!(rt; report.taken().is_empty());
    Ok(())
}

/// Whether so many blanks, which are no config, are reported so.
fn is_reported<R: Threads + Wait + Sync>(
    rt: &R,
    alloc: Global,
    count: usize,
    failed_read: u64,
    want: &[u8],
) -> Result<bool, Fail> {
    let mut bytes = Vec::new(alloc);
    for _ in 0..count {
        bytes.push(b' ')?;
    }
    let (status, report) = answer(rt, alloc, b"config", bytes, failed_read, 0)?;
    Ok(status == 3 && report.taken() == want)
}

#[test]
fn a_config_above_65536_bytes_is_too_long(rt: HostRuntime) -> Result<(), Fail> {
    let alloc = rt.alloc();
    // The 1,025th read gives byte 65,537, and there is no further one that could fail.
    assert!(rt; is_reported(&rt, alloc, 70_000, 1_026, b"fault config 1 5:65536\n")?);
    Ok(())
}

/// The status where nothing is written.
fn status_of<R: Threads + Wait + Sync>(
    rt: &R,
    alloc: Global,
    line: &[u8],
    failed_read: u64,
    failed_write: u64,
) -> Result<Option<u8>, Fail> {
    let input =
        b"{\"loadBalancingConfig\":[{\"round_robin\":{}}],\"passed over\":\"so that it takes two reads\"}";
    let bytes = bytes_of(alloc, input)?;
    let (status, report) = answer(rt, alloc, line, bytes, failed_read, failed_write)?;
    if report.taken().is_empty() {
        return Ok(Some(status));
    }
    Ok(None)
}

#[test]
fn a_fault_of_the_environment_has_its_status(rt: HostRuntime) -> Result<(), Fail> {
    let alloc = rt.alloc();
    assert!(rt; status_of(&rt, alloc, b"config", 2, 0)? == Some(4));
    assert!(rt; status_of(&rt, alloc, b"config", 0, 1)? == Some(5));
    assert!(rt; status_of(&rt, alloc, b"config --help", 0, 1)? == Some(5));
    assert!(rt; status_of(&rt, alloc, b"config more", 0, 1)? == Some(5));
    Ok(())
}
