// What is accepted of the application, and what it takes of a response.
ghost use Rattle.std.specs.Option.{option_map_or};
ghost use Rattle.std.specs.Prelude.{IfOk, [], length, map, nat_le, option_map, option_to_list, ◌++◌, ◌+◌, ◌∷◌, ◌≡◌};
ghost use Rattle.grpc_frame.specs.Messages.{framed};
ghost use Rattle.session_actions.specs.Attempts.{commitment};
ghost use Rattle.session_actions.specs.Deliveries.{available, code_of_cause, end_by_channel, end_by_row, end_item, held_bytes, is_accepted, is_by_row, next_item, response_items, send_action, take_action};
ghost use Rattle.session_actions.specs.Responses.{response};
ghost use Rattle.session_actions.specs.Writing.{drained};
ghost use Rattle.session_actions.specs.declared.action.Action.TheVariants as action;
ghost use Rattle.grpc_base.specs.declared.event.Reply.TheVariants as reply;

use attempt_ledger::RowEnd;
use grpc_base::{Code, EndCause, Items, Metadata, NoMemory, Octets, Reply, Text};
use session_actions::{Action, Call, Response, Seen};
use slow_attempts::{commitment, fits_in_32_bits, is_too_long, numbered, sum};
use slow_ends::{accepted_bytes, drained, furthest, response};
use std::alloc::Global;

/// How many bytes were written for the attempt to which a call is committed.
fn written_bytes(call: &Call, seen: &Seen) -> Result<u64, NoMemory>
    ensures { IfOk result (λ n. n ≡ option_map_or (λ k. drained k seen.now) (commitment call.now seen.now) 0) }
{
    match commitment(call, seen) {
        Some(attempt) => drained(attempt, seen),
        None => Ok(0),
    }
}

/// How many bytes a call holds.
fn held_bytes(call: &Call, seen: &Seen) -> Result<u64, NoMemory>
    ensures { IfOk result (λ n. n ≡ held_bytes call.now seen.now) }
{
    let accepted = accepted_bytes(call)?;
    let written = written_bytes(call, seen)?;
    Ok(accepted.saturating_sub(written))
}

/// The size of a message with its prefix.
#[tactic(auto, using(slow_ends::proofs::EndLaws::framed_size_one))]
fn framed_size(message: &[u8]) -> Result<u64, NoMemory>
    ensures { IfOk result (λ n. n ≡ length (framed message.now)) }
{
    sum(message.len() as u64, 5)
}

/// Whether so many bytes and a message more are kept for attempts to come.
fn fits(held: u64, message: &[u8]) -> Result<bool, NoMemory>
    ensures { IfOk result (λ b. b ≡ nat_le (held + length (framed message.now)) 262144) }
{
    let size = framed_size(message)?;
    let whole = sum(held, size)?;
    Ok(whole <= 262_144)
}

/// Whether a message that is not too long is accepted.
fn is_accepted(call: &Call, message: &[u8], seen: &Seen) -> Result<bool, NoMemory>
    ensures { IfOk result (λ b. b ≡ is_accepted call.now message.now seen.now) }
{
    let held = held_bytes(call, seen)?;
    if commitment(call, seen).is_some() {
        return Ok(held < 65_536);
    }
    if fits(held, message)? {
        return Ok(true);
    }
    Ok(furthest(call, seen)?.is_some())
}

/// The answer that a call holds too much.
fn full_reply(call: &Call, seen: &Seen) -> Result<Action, NoMemory>
    ensures { IfOk result (λ a. a ≡ action.EventAnswered (reply.Full (held_bytes call.now seen.now))) }
{
    let held = fits_in_32_bits(held_bytes(call, seen)?)?;
    Ok(Action::EventAnswered {
        reply: Reply::Full { held },
    })
}

/// What a Send does.
pub fn send_action(
    number: u32,
    message: &[u8],
    seen: &Seen,
    call: &Call,
) -> Result<Action, NoMemory>
    ensures { IfOk result (λ a. a ≡ send_action number message.now seen.now call.now) }
{
    if is_too_long(message, call, seen) {
        return Ok(Action::EventAnswered { reply: Reply::Done });
    }
    if is_accepted(call, message, seen)? {
        return Ok(Action::MessageAccepted { call: number });
    }
    full_reply(call, seen)
}

/// The code of an end by the channel.
fn code_of_cause(cause: EndCause) -> Code
    ensures { result ≡ code_of_cause cause }
{
    match cause {
        EndCause::Deadline => Code::DeadlineExceeded,
        EndCause::Cancelled => Code::Cancelled,
        EndCause::Request | EndCause::Response => Code::ResourceExhausted,
        EndCause::NoConfig | EndCause::Shut => Code::Unavailable,
        EndCause::Row => Code::Unknown,
    }
}

fn is_by_row(cause: EndCause) -> bool
    ensures { result ≡ is_by_row cause }
{
    matches!(cause, EndCause::Row)
}

/// The end of a call by the channel.
fn end_by_channel(alloc: Global, cause: EndCause) -> Reply
    ensures { result ≡ end_by_channel cause }
{
    Reply::End {
        code: code_of_cause(cause),
        text: Text::new(alloc),
        meta: Metadata::new(alloc),
        cause,
    }
}

/// The end of a call by its attempt.
fn end_by_row(end: &RowEnd) -> Result<Reply, NoMemory>
    ensures { IfOk result (λ r. r ≡ end_by_row end.now) }
{
    Ok(Reply::End {
        code: end.code,
        text: end.text.copy()?,
        meta: end.meta.copy()?,
        cause: EndCause::Row,
    })
}

/// The end of a call as the application gets it.
fn end_item(alloc: Global, call: &Call, seen: &Seen, cause: EndCause) -> Result<Reply, NoMemory>
    ensures { IfOk result (λ r. r ≡ end_item call.now seen.now cause) }
{
    if !is_by_row(cause) {
        return Ok(end_by_channel(alloc, cause));
    }
    let Some(attempt) = commitment(call, seen) else {
        return Ok(end_by_channel(alloc, cause));
    };
    match &attempt.row.ended {
        Some(end) => end_by_row(end),
        None => Ok(end_by_channel(alloc, cause)),
    }
}

/// One reply after others.
fn with_item(items: Items<Reply>, item: Reply) -> Result<Items<Reply>, NoMemory>
    ensures { IfOk result (λ l. l ≡ items ++ item ∷ []) }
{
    let mut items = items;
    items.push(item)?;
    Ok(items)
}

/// Messages, as replies after others.
#[tactic(auto, using(std::proofs::lemmas::List::append_assoc))]
fn with_messages(items: Items<Reply>, messages: &[Octets]) -> Result<Items<Reply>, NoMemory>
    ensures { IfOk result (λ l. l ≡ items ++ map (λ m. reply.Message m) messages.now) }
{
    let Some((first, rest)) = messages.split_first() else {
        return Ok(items);
    };
    let octets = first.share()?;
    let items = with_item(items, Reply::Message { octets })?;
    with_messages(items, rest)
}

/// A list of one reply.
fn one_item(alloc: Global, item: Reply) -> Result<Items<Reply>, NoMemory>
    ensures { IfOk result (λ l. l ≡ item ∷ []) }
{
    let mut items = Items::new(alloc);
    items.push(item)?;
    Ok(items)
}

/// The head of a response, if it came.
fn head_items(alloc: Global, head: &Option<Metadata>) -> Result<Items<Reply>, NoMemory>
    ensures { IfOk result (λ l. l ≡ option_to_list (option_map (λ meta. reply.Head meta) head.now)) }
{
    match head {
        Some(meta) => one_item(alloc, Reply::Head { meta: meta.copy()? }),
        None => Ok(Items::new(alloc)),
    }
}

/// The head and the messages of a response.
fn response_items(alloc: Global, response: &Response) -> Result<Items<Reply>, NoMemory>
    ensures { IfOk result (λ l. l ≡ response_items response.now) }
{
    let items = head_items(alloc, &response.head)?;
    with_messages(items, response.messages.as_slice())
}

/// What the committed attempt of a call has for the application.
fn committed_items(alloc: Global, call: &Call, seen: &Seen) -> Result<Items<Reply>, NoMemory>
    ensures { IfOk result (λ l. l ≡ option_map_or (λ k. response_items (response k seen.now)) (commitment call.now seen.now) []) }
{
    match commitment(call, seen) {
        Some(attempt) => {
            let response = response(alloc, attempt, seen)?;
            response_items(alloc, &response)
        }
        None => Ok(Items::new(alloc)),
    }
}

/// What a call has for its application.
fn available(alloc: Global, call: &Call, seen: &Seen) -> Result<Items<Reply>, NoMemory>
    ensures { IfOk result (λ l. l ≡ available call.now seen.now) }
{
    let items = committed_items(alloc, call, seen)?;
    let Some(end) = &call.end else {
        return Ok(items);
    };
    let item = end_item(alloc, call, seen, end.cause)?;
    with_item(items, item)
}

/// The next item of a call that the application gets.
pub fn next_item(alloc: Global, call: &Call, seen: &Seen) -> Result<Option<Reply>, NoMemory>
    ensures { IfOk result (λ o. o ≡ next_item call.now seen.now) }
{
    let items = available(alloc, call, seen)?;
    match numbered(&items, sum(call.taken, 1)?) {
        Some(item) => Ok(Some(item.copy()?)),
        None => Ok(None),
    }
}

/// What a Take does.
pub fn take_action(number: u32, item: Option<Reply>) -> Action
    ensures { result ≡ take_action number item }
{
    match item {
        Some(item) => Action::ItemTaken { call: number, item },
        None => Action::EventAnswered {
            reply: Reply::NotYet,
        },
    }
}
