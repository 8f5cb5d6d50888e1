// Calls a service from the command line, and is the example of how to use `channel_client`. The words are read, the policies made, a channel
// is opened for the target, and the calls are the work that is passed to it.
#![tactic(auto)]

ghost use Rattle.std.specs.Prelude.{◌≡◌, map, true};
ghost use Rattle.policy_rack.specs.Kinds.{are_ready};

mod ask;
mod calls;
mod command;
mod once;
mod said;
mod tally;
mod units;

use crate::ask::{Asked, CALLS_OF_A_CHANNEL, Words, options_of, read_words};
use crate::calls::{Calls, calls_of};
use crate::said::{status_of, sum_up};
use anyhow::{Result, bail};
use channel_client::{record_clients, run_clients};
use dns_watch::TcpNamedWorld;
use gate_io::{Clock, StdClock, StdSink};
use lb_kinds::{PickFirst, RoundRobin};
use lb_policy::Policy;
use lb_priority::Priority;
use policy_rack::boxes_ready;
use std::env::args;
use std::fs::{self, File};
use std::net::{Net, TcpListener, TcpStream};
use std::process::ExitCode;
use std::rt::{Env, Files};
use std::sync::Wait;
use std::thread::Threads;
use std::time;

/// How many addresses a tier of the policy `priority` has.
const TIER_WIDTH: u32 = 8;

/// How many channels the most calls take, one after the other.
const MOST_CHANNELS: u64 = 200;

/// Makes so many calls over one channel with these policies, and gives the work back with how they ended.
fn call_service<R>(
    rt: &R,
    asked: &Asked,
    count: u64,
    policies: Vec<Box<dyn Policy>>,
) -> Result<Vec<Calls<R>>>
where
    R: Threads + Wait + Net<Stream = TcpStream, Listener = TcpListener> + time::Clock,
    R: Print + Eprint + Files<File = File> + AllocGlobal + Copy + Send + Sync + Drop,
    requires { are_ready (map (λ b. seen b) policies.items) ≡ true }
{
    let alloc = rt.alloc();
    let world = TcpNamedWorld::new(*rt, alloc)?;
    let works = calls_of(*rt, alloc, &asked.plan, count)?;
    let options = options_of(alloc, asked)?;
    let Some(path) = &asked.record else {
        let (works, _ended) = run_clients(rt, alloc, options, policies, world, works)?;
        return Ok(works);
    };
    let mut report = StdSink::new(fs::create(rt, path.as_str())?);
    let name = &asked.target;
    let (works, written) = record_clients(
        rt,
        alloc,
        options,
        policies,
        world,
        works,
        name,
        &mut report,
    )?;
    match written {
        Ok(_) => Ok(works),
        Err(_) => bail!("the report could not be written"),
    }
}

/// Makes so many calls over a channel with one policy of each kind.
fn call_once_more<R>(rt: &R, asked: &Asked, count: u64) -> Result<Vec<Calls<R>>>
where
    R: Threads + Wait + Net<Stream = TcpStream, Listener = TcpListener> + time::Clock,
    R: Print + Eprint + Files<File = File> + AllocGlobal + Copy + Send + Sync + Drop,
{
    let alloc = rt.alloc();
    let mut policies: Vec<Box<dyn Policy>> = Vec::new(alloc);
    policies.push(Box::new(alloc, PickFirst::new())?)?;
    policies.push(Box::new(alloc, RoundRobin::new())?)?;
    policies.push(Box::new(alloc, Priority::new(TIER_WIDTH).unwrap())?)?;
    if !boxes_ready(&policies) {
        bail!("a channel takes no such policies");
    }
    call_service(rt, asked, count, policies)
}

/// Keeps work that was done.
fn keep<R: Drop>(works: &mut Vec<Calls<R>>, done: Vec<Calls<R>>) -> Result<()> {
    for work in done {
        works.push(work)?;
    }
    Ok(())
}

/// Makes all calls, so many over one channel and then over the next, says how they ended, and gives the status.
fn call_all<R>(rt: &R, asked: &Asked) -> Result<u8>
where
    R: Threads + Wait + Net<Stream = TcpStream, Listener = TcpListener> + time::Clock,
    R: Print + Eprint + Files<File = File> + AllocGlobal + Copy + Send + Sync + Drop,
{
    let alloc = rt.alloc();
    let clock = StdClock::new(*rt);
    let begun = clock.now();
    let mut works: Vec<Calls<R>> = Vec::new(alloc);
    let mut left = asked.plan.count;
    for _ in 0..MOST_CHANNELS {
        if left == 0 {
            break;
        }
        let count = left.min(CALLS_OF_A_CHANNEL);
        left = left.saturating_sub(count);
        keep(&mut works, call_once_more(rt, asked, count)?)?;
    }
    let nanos = clock.now().saturating_sub(begun);
    sum_up(rt, alloc, &asked.plan, works.as_slice(), nanos)?;
    Ok(status_of(works.as_slice()))
}

/// Reads the words, and makes the calls.
fn run<R>(rt: &R) -> Result<u8>
where
    R: Threads + Wait + Net<Stream = TcpStream, Listener = TcpListener> + time::Clock,
    R: Print + Eprint + Env + Files<File = File> + AllocGlobal + Copy + Send + Sync + Drop,
{
    let alloc = rt.alloc();
    let mut words = Vec::new(alloc);
    for word in args(rt)? {
        words.push(word)?;
    }
    let asked = match read_words(rt, alloc, words.as_slice())? {
        Words::Run(asked) => asked,
        Words::Print(text) => {
            print!(rt; "{text}")?;
            return Ok(0);
        }
    };
    call_all(rt, &asked)
}

fn main(rt: HostRuntime) -> ExitCode {
    match run(&rt) {
        Ok(status) => ExitCode::from(status),
        Err(error) => {
            // Where standard error takes nothing, the status says it.
            let _ = eprintln!(rt; "error: {error}");
            ExitCode::from(2)
        }
    }
}
