// What happens to calls.
ghost use Rattle.std.specs.Prelude.{◌++◌, ◌+◌, ◌≡◌, ◌∷◌, [], IfOk, OnOk, Some, true};
ghost use Rattle.session_actions.specs.CallEnds.{call_ended};
ghost use Rattle.session_actions.specs.Calls.{marked};
ghost use Rattle.session_actions.specs.Configs.{call_configured};
ghost use Rattle.session_actions.specs.Deliveries.{begun_call, call_begun_by, is_end, item_taken, message_accepted, request_finished, with_message};
ghost use Rattle.session_actions.specs.Entries.{entry, now};
ghost use Rattle.session_actions.specs.Words.{changed};
ghost use Rattle.session_actions.specs.declared.entry.OpenEntry.{OpenEntry};

use crate::entries::replied;
use crate::posted::posted_request;
use crate::table::Table;
use attempt_ledger::CallEnd;
use grpc_base::{EndCause, Event, Items, Moment, NoMemory, Reply, Request};
use session_actions::{Call, Mark, MarkKind, OpenEntry, Seen};
use slow_attempts::{entry, fits_in_32_bits, now, sum};
use std::alloc::Global;

/// Something happened to a call now.
#[tactic(auto, using(crate::proofs::Places::put_on, crate::proofs::Places::none_changed))]
fn mark(calls: &mut Table<Call>, seen: &Seen, what: MarkKind, call: u32) -> Result<(), NoMemory>
    ensures { OnOk result (calls.new ≡ changed (λ c. record c { marks = c.marks ++ record { what = what; moment = now seen.now } ∷ [] }) call calls.old) }
{
    let moment = now(seen);
    match calls.get_mut(u64::from(call)) {
        Some(found) => found.marks.push(Mark { what, moment }),
        None => Ok(()),
    }
}

/// Something happened to a call now.
pub fn marked(alloc: Global, seen: &mut Seen, what: MarkKind, call: u32) -> Result<(), NoMemory>
    ensures { OnOk result (seen.new ≡ marked what call seen.old) }
{
    let mut calls = Table::take(alloc, &mut seen.calls);
    mark(&mut calls, seen, what, call)?;
    seen.calls = calls.into_items();
    Ok(())
}

fn begun_call(alloc: Global, number: u32, entry: u64, moment: Moment, request: Request) -> Call
    ensures { result ≡ begun_call number entry moment request }
{
    Call {
        number,
        request,
        begun: entry,
        begun_at: moment,
        messages: Items::new(alloc),
        finished: false,
        taken: 0,
        end_taken: false,
        config: None,
        configured: None,
        end: None,
        marks: Items::new(alloc),
    }
}

fn begun_with(alloc: Global, seen: &mut Seen, request: Request) -> Result<(), NoMemory>
    ensures { OnOk result (seen.new ≡ call_begun_by (Event.Begin request) seen.old) }
{
    let number = fits_in_32_bits(sum(seen.calls.len() as u64, 1)?)?;
    let call = begun_call(alloc, number, entry(seen)?, now(seen), request);
    seen.calls.push(call)?;
    replied(seen, Reply::Call { call: number });
    Ok(())
}

/// The application begins a call, which gets the next number.
#[tactic(auto, using(crate::proofs::Steps::begun_is))]
pub fn call_begun(alloc: Global, seen: &mut Seen) -> Result<(), NoMemory>
    ensures { (o : OpenEntry) → seen.old.current ≡ Some o → OnOk result (seen.new ≡ call_begun_by o.event seen.old) }
{
    match posted_request(seen)? {
        Some(request) => begun_with(alloc, seen, request),
        None => Ok(()),
    }
}

fn add_message(call: &mut Call, event: &Event) -> Result<(), NoMemory>
    ensures { OnOk result (call.new ≡ with_message event.now call.old) }
{
    match event {
        Event::Send { call: _, message } => call.messages.push(message.share()?),
        _ => Ok(()),
    }
}

#[tactic(auto, using(crate::proofs::Places::put_on, crate::proofs::Places::none_changed))]
fn accept_by(calls: &mut Table<Call>, event: &Event, call: u32) -> Result<(), NoMemory>
    ensures { OnOk result (calls.new ≡ changed (with_message event.now) call calls.old) }
{
    match calls.get_mut(u64::from(call)) {
        Some(found) => add_message(found, event),
        None => Ok(()),
    }
}

fn accept(calls: &mut Table<Call>, current: &Option<OpenEntry>, call: u32) -> Result<(), NoMemory>
    ensures { (o : OpenEntry) → current.now ≡ Some o → OnOk result (calls.new ≡ changed (with_message o.event) call calls.old) }
{
    match current {
        Some(open) => accept_by(calls, &open.event, call),
        None => Ok(()),
    }
}

/// A message of the application is kept, for each attempt of the call to send.
pub fn message_accepted(alloc: Global, seen: &mut Seen, call: u32) -> Result<(), NoMemory>
    ensures { (o : OpenEntry) → seen.old.current ≡ Some o → OnOk result (seen.new ≡ message_accepted call o.event seen.old) }
{
    let mut calls = Table::take(alloc, &mut seen.calls);
    accept(&mut calls, &seen.current, call)?;
    seen.calls = calls.into_items();
    replied(seen, Reply::Done);
    Ok(())
}

#[tactic(auto, using(crate::proofs::Places::put_changed, crate::proofs::Places::none_changed))]
fn finish(calls: &mut Table<Call>, call: u32)
    ensures { calls.new ≡ changed (λ c. record c { finished = true }) call calls.old }
{
    if let Some(found) = calls.get_mut(u64::from(call)) {
        found.finished = true;
    }
}

/// The application sends no further message.
pub fn request_finished(alloc: Global, seen: &mut Seen, call: u32)
    ensures { seen.new ≡ request_finished call seen.old }
{
    let mut calls = Table::take(alloc, &mut seen.calls);
    finish(&mut calls, call);
    seen.calls = calls.into_items();
    replied(seen, Reply::Done);
}

fn is_end(item: &Reply) -> bool
    ensures { result ≡ is_end item.now }
{
    matches!(item, Reply::End { .. })
}

fn count_item(call: &mut Call, ends: bool) -> Result<(), NoMemory>
    ensures { OnOk result (call.new ≡ record call.old { taken = call.old.taken + 1; end_taken = ends }) }
{
    call.taken = sum(call.taken, 1)?;
    call.end_taken = ends;
    Ok(())
}

#[tactic(auto, using(crate::proofs::Places::put_on, crate::proofs::Places::none_changed))]
fn take(calls: &mut Table<Call>, call: u32, item: &Reply) -> Result<(), NoMemory>
    ensures { OnOk result (calls.new ≡ changed (λ c. record c { taken = c.taken + 1; end_taken = is_end item.now }) call calls.old) }
{
    let ends = is_end(item);
    match calls.get_mut(u64::from(call)) {
        Some(found) => count_item(found, ends),
        None => Ok(()),
    }
}

/// The application takes the head, a message or the end of a response.
pub fn item_taken(alloc: Global, seen: &mut Seen, call: u32, item: Reply) -> Result<(), NoMemory>
    ensures { OnOk result (seen.new ≡ item_taken call item seen.old) }
{
    let mut calls = Table::take(alloc, &mut seen.calls);
    take(&mut calls, call, &item)?;
    seen.calls = calls.into_items();
    replied(seen, item);
    Ok(())
}

#[tactic(auto, using(crate::proofs::Places::put_changed, crate::proofs::Places::none_changed))]
fn end(calls: &mut Table<Call>, seen: &Seen, call: u32, cause: EndCause) -> Result<(), NoMemory>
    ensures { OnOk result (calls.new ≡ changed (λ c. record c { end = Some (record { entry = entry seen.now; moment = now seen.now; cause = cause }) }) call calls.old) }
{
    let end = CallEnd {
        entry: entry(seen)?,
        moment: now(seen).nanos(),
        cause,
    };
    if let Some(found) = calls.get_mut(u64::from(call)) {
        found.end = Some(end);
    }
    Ok(())
}

/// A call ends.
pub fn call_ended(
    alloc: Global,
    seen: &mut Seen,
    call: u32,
    cause: EndCause,
) -> Result<(), NoMemory>
    ensures { OnOk result (seen.new ≡ call_ended call cause seen.old) }
{
    let mut calls = Table::take(alloc, &mut seen.calls);
    mark(&mut calls, seen, MarkKind::Closed, call)?;
    end(&mut calls, seen, call, cause)?;
    seen.calls = calls.into_items();
    Ok(())
}

#[tactic(auto, using(crate::proofs::Places::put_changed, crate::proofs::Places::none_changed))]
fn configure(calls: &mut Table<Call>, seen: &Seen, call: u32, config: u64) -> Result<(), NoMemory>
    ensures { OnOk result (calls.new ≡ changed (λ c. record c { config = Some config; configured = Some (entry seen.now) }) call calls.old) }
{
    let entry = entry(seen)?;
    if let Some(found) = calls.get_mut(u64::from(call)) {
        found.config = Some(config);
        found.configured = Some(entry);
    }
    Ok(())
}

/// A call gets the service config that is held.
pub fn call_configured(
    alloc: Global,
    seen: &mut Seen,
    call: u32,
    config: u64,
) -> Result<(), NoMemory>
    ensures { OnOk result (seen.new ≡ call_configured call config seen.old) }
{
    let mut calls = Table::take(alloc, &mut seen.calls);
    mark(&mut calls, seen, MarkKind::Configured, call)?;
    configure(&mut calls, seen, call, config)?;
    seen.calls = calls.into_items();
    Ok(())
}
