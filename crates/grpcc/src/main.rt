// The program: hands its words and its standard streams to the top call, says on standard error what went wrong, and ends with
// its status.
#![tactic(auto)]

mod announced;
mod places;
mod remember;

use crate::announced::Announced;
use crate::places::hold_places;
use crate::remember::{FirstBytesKept, Remembering, reporting};
use channel_top::run_channel;
use dns_watch::TcpNamedWorld;
use fault_words::is_misspelled;
use gate_io::{Sink, Source, StdSink, StdSource};
use grpc_base::NoMemory;
use lb_kinds::{PickFirst, RoundRobin};
use lb_policy::Policy;
use lb_priority::Priority;
use policy_rack::boxes_ready;
use std::alloc::Global;
use std::env::args;
use std::io;
use std::net::{Net, TcpListener, TcpStream};
use std::process::ExitCode;
use std::rt::Env;
use std::sync::Wait;
use std::thread::Threads;
use std::time::Clock;

/// The status where memory is wanting.
const NO_MEMORY: u8 = 6;

/// How many addresses a tier of the policy `priority` has.
const TIER_WIDTH: u32 = 8;

/// Why the words of the command are not known.
enum NoWords {
    /// One of them is not text.
    NotText,
    NoMemory,
}

/// The words after the program's name.
fn words(rt: &(impl Env + AllocGlobal)) -> Result<Vec<String>, NoWords> {
    let mut all = match args(rt) {
        Ok(all) => all,
        Err(error) => {
            return Err(match error.kind() {
                io::ErrorKind::OutOfMemory => NoWords::NoMemory,
                _ => NoWords::NotText,
            });
        }
    };
    let _program = all.next();
    let mut words = Vec::new(rt.alloc());
    for word in all {
        if words.push(word).is_err() {
            return Err(NoWords::NoMemory);
        }
    }
    Ok(words)
}

/// The words that `help` and further words stand for, those words and `--help`; other words as they are.
fn with_help(alloc: Global, words: Vec<String>) -> Result<Vec<String>, NoMemory> {
    match words.as_slice() {
        [first, ..] if first.as_bytes() == b"help".as_slice() => {}
        _ => return Ok(words),
    }
    let mut asked = Vec::new(alloc);
    for word in words.into_iter().skip(1) {
        asked.push(word)?;
    }
    asked.push(String::from_str(alloc, "--help")?)?;
    Ok(asked)
}

/// Runs the top call over TCP with these policies, where they may be passed to it.
fn run_with<R, S: Source, K: Sink>(
    rt: &R,
    alloc: Global,
    words: &[String],
    script: &mut S,
    report: &mut K,
    boxes: Vec<Box<dyn Policy>>,
) -> Result<u8, NoMemory>
where
    R: Threads + Wait + Net<Stream = TcpStream, Listener = TcpListener> + Clock + Eprint,
    R: Copy + Send + Sync + Drop,
{
    let world = TcpNamedWorld::new(*rt, alloc)?;
    if !boxes_ready(&boxes) {
        return Ok(NO_MEMORY);
    }
    let mut listener = Announced::new(*rt, alloc);
    Ok(run_channel(
        rt,
        alloc,
        words,
        script,
        report,
        world,
        &mut listener,
        boxes,
    ))
}

/// Runs the top call with one policy of each kind.
fn run<R, S: Source, K: Sink>(
    rt: &R,
    alloc: Global,
    words: &[String],
    script: &mut S,
    report: &mut K,
) -> Result<u8, NoMemory>
where
    R: Threads + Wait + Net<Stream = TcpStream, Listener = TcpListener> + Clock + Eprint,
    R: Copy + Send + Sync + Drop,
{
    let mut boxes: Vec<Box<dyn Policy>> = Vec::new(alloc);
    boxes.push(Box::new(alloc, PickFirst::new())?)?;
    boxes.push(Box::new(alloc, RoundRobin::new())?)?;
    boxes.push(Box::new(alloc, Priority::new(TIER_WIDTH).unwrap())?)?;
    run_with(rt, alloc, words, script, report, boxes)
}

fn main(rt: HostRuntime) -> ExitCode {
    let _places = hold_places(&rt);
    let alloc: Global = rt.alloc();
    let (words, are_text) = match words(&rt) {
        Ok(words) => (words, true),
        Err(NoWords::NotText) => (Vec::new(alloc), false),
        Err(NoWords::NoMemory) => return ExitCode::from(NO_MEMORY),
    };
    let Ok(words) = with_help(alloc, words) else {
        return ExitCode::from(NO_MEMORY);
    };
    // A number with a sign or a leading zero is refused as no words are, before it is read.
    let is_refused = is_misspelled(words.as_slice());
    let run_words: &[String] = if is_refused { &[] } else { words.as_slice() };
    let mut input = Remembering::new(alloc, rt, words.as_slice(), rt.reader());
    let mut output = FirstBytesKept::new(words.as_slice(), io::writer(&rt));
    let ended = run(
        &rt,
        alloc,
        run_words,
        &mut StdSource::new(&mut input),
        &mut StdSink::new(&mut output),
    );
    let status = ended.unwrap_or(NO_MEMORY);
    reporting(
        &rt,
        alloc,
        status,
        words.as_slice(),
        are_text,
        &input,
        &output,
    );
    ExitCode::from(status)
}
