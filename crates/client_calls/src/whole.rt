// A whole call: begun, sent, finished and received to its end.
ghost use Rattle.std.specs.Prelude.{◌≡◌, [], ◌∷◌, ◌++◌, None, MatchOption, IfOk, IfErr, OnOk};
ghost use Rattle.std.specs.Option.{option_or};
ghost use Rattle.grpc_base.specs.Posts.{AddsEntry};
ghost use Rattle.grpc_base.specs.declared.event.Event.TheVariants as event;
ghost use Rattle.grpc_base.specs.declared.event.Reply.{Reply};
ghost use Rattle.client_calls.specs.Answers.{reply_of, unless_refused};
ghost use Rattle.client_calls.specs.Entries.{FailsSome, others_in};
ghost use Rattle.client_calls.specs.Exchanges.{GathersTo, IsExchange, IsGathered, IsTransfer, Sends, end_of, head_of, messages_of};
ghost use Rattle.client_calls.specs.Unary.{EndsUnary, IsUnary};
ghost use Rattle.client_calls.specs.declared.calls.Received.{Received};
ghost use Rattle.client_calls.specs.declared.response.Response.{Response};

use crate::calls::{begin, cancel, finish, next, send};
use crate::error::CallError;
use crate::response::{Gathered, Response, UnaryResponse, unary_of};
use crate::status::Status;
use grpc_base::{Caller, Octets, Request};
use std::alloc::Global;
use std::sync::Wait;

/// The first message, and those after it.
fn first_message(messages: &[Octets]) -> Option<(&Octets, &[Octets])>
    ensures { MatchOption result (messages.now ≡ []) (λ x. messages.now ≡ x.0.now ∷ x.1.now) }
{
    messages.split_first()
}

/// A refusal is passed over: a call that has ended takes no message more, and its end says why.
fn unless_refused(done: Result<(), CallError>) -> Result<(), CallError>
    ensures { result ≡ unless_refused done }
{
    match done {
        Ok(()) | Err(CallError::Refused(_)) => Ok(()),
        Err(error) => Err(error),
    }
}

/// Sends one message. A refusal is passed over.
fn send_one<P: Caller>(post: &mut P, call: u32, message: &Octets) -> Result<(), CallError>
    ensures sent { OnOk result ((r : Reply) × AddsEntry (P.made post.old) (P.made post.new) (event.Send call message.now) r) }
    ensures failed { FailsSome (P.errors post.old) (P.errors post.new) result }
    ensures others { others_in (P.made post.new) ≡ others_in (P.made post.old) }
    ensures share { P.share post.new ≡ P.share post.old }
{
    let message = message.share()?;
    unless_refused(send(post, call, message))
}

/// Sends each message, in order. A refusal is passed over.
#[tactic(auto, using(crate::proofs::ExchangeLaws::sends_done))]
pub fn send_all<P: Caller>(post: &mut P, call: u32, messages: &[Octets]) -> Result<(), CallError>
    ensures sent { OnOk result (Sends call messages.now (P.made post.old) (P.made post.new)) }
    ensures failed { FailsSome (P.errors post.old) (P.errors post.new) result }
    ensures others { others_in (P.made post.new) ≡ others_in (P.made post.old) }
    ensures share { P.share post.new ≡ P.share post.old }
{
    let mut rest = messages;
    while let Some((message, later)) = first_message(rest) {
        send_one(post, call, message)?;
        rest = later;
    }
    Ok(())
}

/// Receives what comes next, adds it to the response, and gives the end.
fn gather_one<P: Caller>(
    post: &mut P,
    call: u32,
    gathered: &mut Gathered,
) -> Result<Option<Status>, CallError>
    ensures received { IfOk result (λ s. (x : Received) × AddsEntry (P.made post.old) (P.made post.new) (event.Take call) (reply_of x) × (s ≡ end_of x) × (gathered.new.head ≡ option_or gathered.old.head (head_of x)) × (gathered.new.messages.items ≡ gathered.old.messages.items ++ messages_of x)) }
    ensures failed { FailsSome (P.errors post.old) (P.errors post.new) result }
    ensures others { others_in (P.made post.new) ≡ others_in (P.made post.old) }
    ensures share { P.share post.new ≡ P.share post.old }
{
    gathered.reserve()?;
    let received = next(post, call)?;
    Ok(gathered.note(received)?)
}

/// The response with this end.
fn ended(gathered: Gathered, status: Status) -> Response
    ensures head { result.head ≡ gathered.head }
    ensures messages { result.messages.items ≡ gathered.messages.items }
    ensures status { result.status ≡ status }
{
    let Gathered { head, messages } = gathered;
    Response {
        head,
        messages,
        status,
    }
}

/// Receives up to the end.
fn gather_to_end<W: Wait, P: Caller>(
    rt: &W,
    post: &mut P,
    call: u32,
    gathered: &mut Gathered,
) -> Result<Status, CallError>
    requires { (gathered.old.head ≡ None) × (gathered.old.messages.items ≡ []) }
    ensures gathered { IfOk result (λ s. GathersTo call (P.made post.old) (P.made post.new) gathered.new.head gathered.new.messages.items s) }
    ensures failed { FailsSome (P.errors post.old) (P.errors post.new) result }
    ensures others { others_in (P.made post.new) ≡ others_in (P.made post.old) }
    ensures share { P.share post.new ≡ P.share post.old }
{
    for _ in rt.forever() {
        let came = gather_one(post, call, gathered)?;
        match came {
            Some(status) => return Ok(status),
            None => {}
        }
    }
    unreachable!()
}

/// Receives the whole response of a call that was begun.
pub(crate) fn gather<W: Wait, P: Caller>(
    rt: &W,
    alloc: Global,
    post: &mut P,
    call: u32,
) -> Result<Response, CallError>
    ensures gathered { IfOk result (λ r. IsGathered call (P.made post.old) (P.made post.new) r) }
    ensures failed { FailsSome (P.errors post.old) (P.errors post.new) result }
    ensures others { others_in (P.made post.new) ≡ others_in (P.made post.old) }
    ensures share { P.share post.new ≡ P.share post.old }
{
    let mut gathered = Gathered::new(alloc);
    let status = gather_to_end(rt, post, call, &mut gathered)?;
    Ok(ended(gathered, status))
}

/// Says that no message follows. A refusal is passed over.
fn finish_one<P: Caller>(post: &mut P, call: u32) -> Result<(), CallError>
    ensures finished { OnOk result ((r : Reply) × AddsEntry (P.made post.old) (P.made post.new) (event.Finish call) r) }
    ensures failed { FailsSome (P.errors post.old) (P.errors post.new) result }
    ensures others { others_in (P.made post.new) ≡ others_in (P.made post.old) }
    ensures share { P.share post.new ≡ P.share post.old }
{
    unless_refused(finish(post, call))
}

/// Makes a call that was begun.
fn transfer<W: Wait, P: Caller>(
    rt: &W,
    alloc: Global,
    post: &mut P,
    call: u32,
    messages: &[Octets],
) -> Result<Response, CallError>
    ensures transferred { IfOk result (λ r. IsTransfer call messages.now (P.made post.old) (P.made post.new) r) }
    ensures failed { FailsSome (P.errors post.old) (P.errors post.new) result }
    ensures others { others_in (P.made post.new) ≡ others_in (P.made post.old) }
    ensures share { P.share post.new ≡ P.share post.old }
{
    send_all(post, call, messages)?;
    finish_one(post, call)?;
    gather(rt, alloc, post, call)
}

/// A call whose requests and responses are all at hand: it is begun, each message is sent, it is finished, and the response is received to
/// its end. A message that comes too late for a call that has ended is passed over. On an error after the Begin the call is cancelled.
pub fn exchange<W: Wait, P: Caller>(
    rt: &W,
    alloc: Global,
    post: &mut P,
    request: Request,
    messages: &[Octets],
) -> Result<Response, CallError>
    ensures exchanged { IfOk result (λ r. IsExchange request messages.now (P.made post.old) (P.made post.new) r) }
    ensures failed { FailsSome (P.errors post.old) (P.errors post.new) result }
    ensures others { others_in (P.made post.new) ≡ others_in (P.made post.old) }
    ensures share { P.share post.new ≡ P.share post.old }
{
    let call = begin(post, request)?;
    let answer = transfer(rt, alloc, post, call, messages);
    if answer.is_err() {
        // The error is reported already; where the Cancel fails too, the call goes on to its deadline.
        let _ = cancel(post, call);
    }
    answer
}

/// A unary call: one message is sent, and one comes back. A call that ends with another status than OK, or without exactly one message,
/// gives that as its error.
pub fn unary<W: Wait, P: Caller>(
    rt: &W,
    alloc: Global,
    post: &mut P,
    request: Request,
    message: Octets,
) -> Result<UnaryResponse, CallError>
    ensures answered { IfOk result (λ u. (r : Response) × IsExchange request (message ∷ []) (P.made post.old) (P.made post.new) r × IsUnary r u) }
    ensures ended { IfErr result (λ e. EndsUnary request (message ∷ []) (P.made post.old) (P.made post.new) e) }
    ensures others { others_in (P.made post.new) ≡ others_in (P.made post.old) }
    ensures share { P.share post.new ≡ P.share post.old }
{
    let messages = [message];
    match exchange(rt, alloc, post, request, &messages) {
        Ok(response) => unary_of(response),
        Err(error) => Err(error),
    }
}
