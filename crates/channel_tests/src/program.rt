// The top call as the program makes it: with one policy of each kind, over a world in memory.
use channel_top::run_channel;
use dns_watch::{MemLookup, MemNamedWorld};
use gate_io::{ListClock, Listener, MemListener, MemSink, MemSource, MemWorld, Sink, Source};
use lb_kinds::{PickFirst, RoundRobin};
use lb_policy::Policy;
use lb_priority::Priority;
use policy_rack::boxes_ready;
use std::alloc::Global;
use std::sync::Wait;
use std::test::Fail;
use std::thread::Threads;

/// One policy of each kind.
pub fn each_policy(alloc: Global) -> Result<Vec<Box<dyn Policy>>, Fail> {
    let mut boxes: Vec<Box<dyn Policy>> = Vec::new(alloc);
    boxes.push(Box::new(alloc, PickFirst::new())?)?;
    boxes.push(Box::new(alloc, RoundRobin::new())?)?;
    boxes.push(Box::new(alloc, Priority::new(8).unwrap())?)?;
    Ok(boxes)
}

/// A world whose clock stands and which opens no link.
pub fn still_world(alloc: Global) -> Result<MemNamedWorld, Fail> {
    let clock = ListClock::new(vec![in alloc; 0u64]?);
    let lookup = MemLookup::new(Vec::new(alloc), Vec::new(alloc));
    Ok(MemNamedWorld::new(alloc, MemWorld::new(clock, Vec::new(alloc)), lookup))
}

/// A listener that opens at no port.
pub fn no_listener(alloc: Global) -> MemListener {
    MemListener::new(false, Vec::new(alloc), Vec::new(alloc))
}

/// The words that a line has, with one space between.
pub fn words_of(alloc: Global, line: &[u8]) -> Result<Vec<String>, Fail> {
    let mut words = Vec::new(alloc);
    for word in line.split(|b| *b == b' ') {
        let text = String::from_utf8_lossy(alloc, word)?;
        words.push(text)?;
    }
    Ok(words)
}

/// The status of the program with these policies, over this listener.
pub fn run_over<R: Threads + Wait + Sync, S: Source, K: Sink, L: Listener>(
    rt: &R,
    alloc: Global,
    line: &[u8],
    source: &mut S,
    report: &mut K,
    listener: &mut L,
    boxes: Vec<Box<dyn Policy>>,
) -> Result<u8, Fail> {
    if !boxes_ready(&boxes) {
        return Err("no two of one kind, and pick_first among them".into());
    }
    let words = words_of(alloc, line)?;
    let world = still_world(alloc)?;
    Ok(run_channel(
        rt,
        alloc,
        words.as_slice(),
        source,
        report,
        world,
        listener,
        boxes,
    ))
}

/// The status of the program with these policies.
pub fn run_with<R: Threads + Wait + Sync, S: Source, K: Sink>(
    rt: &R,
    alloc: Global,
    line: &[u8],
    source: &mut S,
    report: &mut K,
    boxes: Vec<Box<dyn Policy>>,
) -> Result<u8, Fail> {
    let mut listener = no_listener(alloc);
    run_over(rt, alloc, line, source, report, &mut listener, boxes)
}

/// The status of the program with one policy of each kind.
pub fn run<R: Threads + Wait + Sync, S: Source, K: Sink>(
    rt: &R,
    alloc: Global,
    line: &[u8],
    source: &mut S,
    report: &mut K,
) -> Result<u8, Fail> {
    run_with(rt, alloc, line, source, report, each_policy(alloc)?)
}

/// The status and what was written, of an input that is read in pieces of at most so many bytes.
pub fn answer<R: Threads + Wait + Sync>(
    rt: &R,
    alloc: Global,
    line: &[u8],
    input: Vec<u8>,
    most: usize,
) -> Result<(u8, MemSink), Fail> {
    let mut source = MemSource::new(input, most.max(1), Vec::new(alloc));
    let mut report = MemSink::new(alloc, 65_536, Vec::new(alloc));
    let status = run(rt, alloc, line, &mut source, &mut report)?;
    Ok((status, report))
}
