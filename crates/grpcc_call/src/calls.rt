// The work of each thread: calls, one after another.
ghost use Rattle.std.specs.Prelude.{◌≡◌, ◌≤◌, IfOk, length};
ghost use Rattle.client_calls.specs.Entries.{others_in};

use crate::ask::Plan;
use crate::once::{Shown, call_once};
use crate::tally::Tally;
use anyhow::Result;
use channel_client::{CallError, ClientWork, Status, exchange};
use grpc_base::{Caller, Code, NoMemory, Octets, Request};
use std::alloc::Global;
use std::sync::Wait;
use std::time;
use std::time::Instant;

/// The calls of one thread, and how they ended.
#[derive(Drop)]
pub struct Calls<R> {
    pub shown: Shown<R>,
    request: Request,
    messages: Vec<Octets>,
    count: u64,
    /// Whether it is one call, which is shown.
    is_alone: bool,
    /// The end of the one call, or of the first that did not end OK.
    pub end: Option<Result<Status, CallError>>,
    pub tally: Tally,
}

/// What one call of several came to.
fn code_of(answer: &Result<Status, CallError>) -> Option<Code> {
    match answer {
        Ok(status) => Some(status.code),
        Err(_) => None,
    }
}

impl<R> Calls<R> {
    /// Counts a call that took so long, and keeps the first answer that is not OK.
    fn note(&mut self, answer: Result<Status, CallError>, nanos: u64) {
        // Where there is no memory for it, the figures lack this time.
        let _ = self.tally.times.push(nanos);
        match code_of(&answer) {
            Some(code) => self.tally.note(code),
            None => self.tally.failed = self.tally.failed.saturating_add(1),
        }
        if self.end.is_none() && code_of(&answer) != Some(Code::Ok) {
            self.end = Some(answer);
        }
    }
}

/// The moment that it is; None where the clock cannot be read.
fn moment<R: time::Clock>(rt: &R) -> Option<Instant> {
    Instant::now(rt).ok()
}

/// The nanoseconds since a moment; 0 where the clock could not be read.
fn nanos_since<R: time::Clock>(rt: &R, begun: Option<Instant>) -> u64 {
    let Some(begun) = begun else {
        return 0;
    };
    match begun.elapsed(rt) {
        Ok(time) => u64::try_from(time.as_nanos()).unwrap_or(u64::MAX),
        Err(_) => 0,
    }
}

/// Makes one call, and gives its end.
fn call_many_once<W: Wait, H: Caller>(
    rt: &W,
    alloc: Global,
    handle: &mut H,
    request: &Request,
    messages: &[Octets],
) -> Result<Status, CallError>
    ensures others { others_in (H.made handle.new) ≡ others_in (H.made handle.old) }
    ensures share { H.share handle.new ≡ H.share handle.old }
{
    let request = request.copy()?;
    match exchange(rt, alloc, handle, request, messages) {
        Ok(response) => Ok(response.status),
        Err(error) => Err(error),
    }
}

/// Makes the calls, one after another, up to the first that has no answer.
fn call_many<W: Wait, R: time::Clock, H: Caller>(rt: &W, calls: &mut Calls<R>, handle: &mut H)
    ensures others { others_in (H.made handle.new) ≡ others_in (H.made handle.old) }
    ensures share { H.share handle.new ≡ H.share handle.old }
{
    for _ in 0..calls.count {
        let begun = moment(&calls.shown.rt);
        let alloc = calls.shown.alloc;
        let answer = call_many_once(rt, alloc, handle, &calls.request, calls.messages.as_slice());
        let has_failed = answer.is_err();
        let nanos = nanos_since(&calls.shown.rt, begun);
        calls.note(answer, nanos);
        if has_failed {
            return;
        }
    }
}

impl<R: Print + Eprint + time::Clock> ClientWork for Calls<R> {
    ghost use Rattle.std.specs.Bool.{⊤};

    ghost shows = { λ _ _. ⊤ };

    fn work<W: Wait, H: Caller>(&mut self, rt: &W, handle: &mut H) {
        if self.is_alone {
            let answer = call_once(
                rt,
                &mut self.shown,
                handle,
                &self.request,
                self.messages.as_slice(),
            );
            self.end = Some(answer);
        } else {
            call_many(rt, self, handle);
        }
    }
}

/// The messages again; their bytes are shared.
fn shared(alloc: Global, messages: &[Octets]) -> Result<Vec<Octets>, NoMemory> {
    let mut all = Vec::with_capacity(alloc, messages.len())?;
    for message in messages {
        all.push(message.share()?)?;
    }
    Ok(all)
}

/// The work of one thread, which makes so many calls of this plan.
fn work_of<R>(rt: R, alloc: Global, plan: &Plan, count: u64) -> Result<Calls<R>>
where
    R: Drop,
{
    let request = plan.request.copy()?;
    let messages = shared(alloc, plan.messages.as_slice())?;
    Ok(Calls {
        shown: Shown {
            rt,
            alloc,
            is_hex: plan.is_hex,
            is_verbose: plan.is_verbose,
            is_broken: false,
        },
        request,
        messages,
        count,
        is_alone: plan.count == 1,
        end: None,
        tally: Tally::new(Vec::new(alloc)),
    })
}

/// How many of these calls the worker of this place makes.
fn share_of(count: u64, workers: u64, place: u64) -> u64 {
    match (count.checked_div(workers), count.checked_rem(workers)) {
        (Some(each), Some(rest)) if place < rest => each.saturating_add(1),
        (Some(each), _) => each,
        _ => count,
    }
}

/// The work of each thread, which share so many calls of this plan out.
pub fn calls_of<R>(rt: R, alloc: Global, plan: &Plan, count: u64) -> Result<Vec<Calls<R>>>
where
    R: Copy + Drop,
    ensures { IfOk result (λ works. length works.items ≤ 1024) }
{
    let workers = plan.workers.min(count).min(1024);
    let mut works = Vec::new(alloc);
    while works.len() < workers as usize {
        let share = share_of(count, workers, works.len() as u64);
        works.push(work_of(rt, alloc, plan, share)?)?;
    }
    Ok(works)
}
