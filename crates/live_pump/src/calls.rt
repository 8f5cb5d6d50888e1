// The worker that makes the calls of a script.
ghost use Rattle.std.specs.Prelude.{◌≡◌, [], ◌∷◌, ℕ, MatchOption, IfErr, OnErr, OnOk, IfOk, true, false};
ghost use Rattle.grpc_base.specs.Posts.{AddsEntry};
ghost use Rattle.grpc_base.specs.declared.event.Event.TheVariants as event;
ghost use Rattle.grpc_base.specs.declared.event.Reply.{Reply};
ghost use Rattle.grpc_base.specs.declared.event.Reply.TheVariants as reply;
ghost use Rattle.live_pump.specs.Calls.{GoesOn, GoesOnPrefix, LinePrefix, LinesPrefix, MakesLine, MakesLines, SendsAll, SendsPrefix, TakesAll, TakesPrefix, call_of, ends_takes};
ghost use Rattle.live_pump.specs.Pumps.{HandleSeen};
ghost use Rattle.live_pump.specs.Workers.{IsCauseOf};

use grpc_base::{CallLine, Caller, Event, Octets, Post, PostError, Reply};
use std::sync::Wait;

/// Sends one message as soon as there is room for it. A refused one is passed over.
fn send<P: Caller>(post: &mut P, call: u32, message: &Octets) -> Result<Reply, PostError>
    ensures sent { IfOk result (λ r. AddsEntry (P.made post.old) (P.made post.new) (event.Send call message.now) r × (P.errors post.new ≡ P.errors post.old)) }
    ensures error { IfErr result (λ e. let before : HandleSeen = record { made = P.made post.old; errors = P.errors post.old; last = P.last_error post.old } in let after : HandleSeen = record { made = P.made post.new; errors = P.errors post.new; last = P.last_error post.new } in IsCauseOf e before after) }
    ensures prefix { OnErr result (P.made post.new ≡ P.made post.old) }
    ensures share { P.share post.new ≡ P.share post.old }
{
    let message = match message.share() {
        Ok(message) => message,
        Err(_) => return Err(PostError::NoMemory { spent: false }),
    };
    post.await_send(call, message)
}

/// The first message, and those after it.
fn first_message(messages: &[Octets]) -> Option<(&Octets, &[Octets])>
    ensures { MatchOption result (messages.now ≡ []) (λ x. messages.now ≡ x.0.now ∷ x.1.now) }
{
    messages.split_first()
}

/// Sends each message.
#[tactic(auto, using(crate::proofs::CallLaws::sends_done, crate::proofs::CallLaws::sends_failed))]
fn send_all<P: Caller>(post: &mut P, call: u32, messages: &[Octets]) -> Result<(), PostError>
    ensures sent { OnOk result (SendsAll call messages.now (P.made post.old) (P.made post.new) × (P.errors post.new ≡ P.errors post.old)) }
    ensures error { IfErr result (λ e. let before : HandleSeen = record { made = P.made post.old; errors = P.errors post.old; last = P.last_error post.old } in let after : HandleSeen = record { made = P.made post.new; errors = P.errors post.new; last = P.last_error post.new } in IsCauseOf e before after) }
    ensures prefix { OnErr result (SendsPrefix call messages.now (P.made post.old) (P.made post.new)) }
    ensures share { P.share post.new ≡ P.share post.old }
{
    let mut rest = messages;
    while let Some((message, later)) = first_message(rest) {
        send(post, call, message)?;
        rest = later;
    }
    Ok(())
}

/// Whether nothing more is taken of a call after this reply.
fn ends_takes(reply: &Reply) -> bool
    ensures { result ≡ ends_takes reply.now }
{
    matches!(reply, Reply::End { .. } | Reply::Refused { .. })
}

/// Takes what comes next of a call, and says whether that ends it.
fn take_one<P: Caller>(post: &mut P, call: u32) -> Result<bool, PostError>
    ensures taken { IfOk result (λ ended. (r : Reply) × AddsEntry (P.made post.old) (P.made post.new) (event.Take call) r × (ended ≡ ends_takes r) × (P.errors post.new ≡ P.errors post.old)) }
    ensures error { IfErr result (λ e. let before : HandleSeen = record { made = P.made post.old; errors = P.errors post.old; last = P.last_error post.old } in let after : HandleSeen = record { made = P.made post.new; errors = P.errors post.new; last = P.last_error post.new } in IsCauseOf e before after) }
    ensures prefix { OnErr result (P.made post.new ≡ P.made post.old) }
    ensures share { P.share post.new ≡ P.share post.old }
{
    let reply = post.await_take(call)?;
    Ok(ends_takes(&reply))
}

/// Takes what comes of a call, up to its end.
fn take_all<W: Wait, P: Caller>(rt: &W, post: &mut P, call: u32) -> Result<(), PostError>
    ensures taken { OnOk result (TakesAll call (P.made post.old) (P.made post.new) × (P.errors post.new ≡ P.errors post.old)) }
    ensures error { IfErr result (λ e. let before : HandleSeen = record { made = P.made post.old; errors = P.errors post.old; last = P.last_error post.old } in let after : HandleSeen = record { made = P.made post.new; errors = P.errors post.new; last = P.last_error post.new } in IsCauseOf e before after) }
    ensures prefix { OnErr result (TakesPrefix call (P.made post.old) (P.made post.new)) }
    ensures share { P.share post.new ≡ P.share post.old }
{
    for _ in rt.forever() {
        if take_one(post, call)? {
            return Ok(());
        }
    }
    unreachable!()
}

/// Begins the call of a line, and gives its number; None where Begin was refused.
fn begin<P: Caller>(post: &mut P, line: &CallLine) -> Result<Option<u32>, PostError>
    ensures begun { IfOk result (λ call. (r : Reply) × AddsEntry (P.made post.old) (P.made post.new) (event.Begin line.now.request) r × (call ≡ call_of r) × (P.errors post.new ≡ P.errors post.old)) }
    ensures error { IfErr result (λ e. let before : HandleSeen = record { made = P.made post.old; errors = P.errors post.old; last = P.last_error post.old } in let after : HandleSeen = record { made = P.made post.new; errors = P.errors post.new; last = P.last_error post.new } in IsCauseOf e before after) }
    ensures prefix { OnErr result (P.made post.new ≡ P.made post.old) }
    ensures share { P.share post.new ≡ P.share post.old }
{
    let request = match line.request.copy() {
        Ok(request) => request,
        Err(_) => return Err(PostError::NoMemory { spent: false }),
    };
    let reply = post.post(Event::Begin { request })?;
    Ok(call_of(&reply))
}

/// The number of a call that was begun.
fn call_of(reply: &Reply) -> Option<u32>
    ensures { result ≡ call_of reply.now }
{
    match reply {
        Reply::Call { call } => Some(*call),
        _ => None,
    }
}

/// Says that a call sends no further message. A refused Finish is passed over.
fn finish<P: Caller>(post: &mut P, call: u32) -> Result<(), PostError>
    ensures finished { OnOk result ((r : Reply) × AddsEntry (P.made post.old) (P.made post.new) (event.Finish call) r × (P.errors post.new ≡ P.errors post.old)) }
    ensures error { IfErr result (λ e. let before : HandleSeen = record { made = P.made post.old; errors = P.errors post.old; last = P.last_error post.old } in let after : HandleSeen = record { made = P.made post.new; errors = P.errors post.new; last = P.last_error post.new } in IsCauseOf e before after) }
    ensures prefix { OnErr result (P.made post.new ≡ P.made post.old) }
    ensures share { P.share post.new ≡ P.share post.old }
{
    match post.post(Event::Finish { call }) {
        Ok(_) => Ok(()),
        Err(error) => Err(error),
    }
}

/// Makes the call of a line that was begun.
#[tactic(auto, using(crate::proofs::CallLaws::finish_failed, crate::proofs::CallLaws::takes_failed))]
fn make_call<W: Wait, P: Caller>(
    rt: &W,
    post: &mut P,
    line: &CallLine,
    call: u32,
) -> Result<(), PostError>
    ensures made { OnOk result (GoesOn line.now call (P.made post.old) (P.made post.new) × (P.errors post.new ≡ P.errors post.old)) }
    ensures error { IfErr result (λ e. let before : HandleSeen = record { made = P.made post.old; errors = P.errors post.old; last = P.last_error post.old } in let after : HandleSeen = record { made = P.made post.new; errors = P.errors post.new; last = P.last_error post.new } in IsCauseOf e before after) }
    ensures prefix { OnErr result (GoesOnPrefix line.now call (P.made post.old) (P.made post.new)) }
    ensures share { P.share post.new ≡ P.share post.old }
{
    send_all(post, call, line.messages.as_slice())?;
    finish(post, call)?;
    take_all(rt, post, call)
}

/// Makes the call of a line: its Begin, a Send for each message, its Finish, and Takes up to the end. A refused Begin
/// or Take ends the line.
#[tactic(auto, using(crate::proofs::CallLaws::line_refused, crate::proofs::CallLaws::line_made, crate::proofs::CallLaws::line_begun))]
fn make_line<W: Wait, P: Caller>(rt: &W, post: &mut P, line: &CallLine) -> Result<(), PostError>
    ensures made { OnOk result (MakesLine line.now (P.made post.old) (P.made post.new) × (P.errors post.new ≡ P.errors post.old)) }
    ensures error { IfErr result (λ e. let before : HandleSeen = record { made = P.made post.old; errors = P.errors post.old; last = P.last_error post.old } in let after : HandleSeen = record { made = P.made post.new; errors = P.errors post.new; last = P.last_error post.new } in IsCauseOf e before after) }
    ensures prefix { OnErr result (LinePrefix line.now (P.made post.old) (P.made post.new)) }
    ensures share { P.share post.new ≡ P.share post.old }
{
    match begin(post, line)? {
        Some(call) => make_call(rt, post, line, call),
        None => Ok(()),
    }
}

/// The first line, and those after it.
fn first_line(calls: &[CallLine]) -> Option<(&CallLine, &[CallLine])>
    ensures { MatchOption result (calls.now ≡ []) (λ x. calls.now ≡ x.0.now ∷ x.1.now) }
{
    calls.split_first()
}

/// Makes the calls of a script's lines, one after another: of each its Begin, a Send for each message, its Finish, and
/// Takes up to the end. Each Send waits for room, and each Take for something to take. A refused Send or Finish is
/// passed over, and a refused Begin or Take ends its line. The first post that fails ends the work; it is reported, or
/// that the worker found no memory itself.
#[tactic(auto, using(crate::proofs::CallLaws::lines_done, crate::proofs::CallLaws::lines_failed))]
pub fn call_worker<W: Wait, P: Caller>(
    rt: &W,
    post: &mut P,
    calls: &[CallLine],
) -> Result<(), PostError>
    ensures made { OnOk result (MakesLines calls.now (P.made post.old) (P.made post.new) × (P.errors post.new ≡ P.errors post.old)) }
    ensures error { IfErr result (λ e. let before : HandleSeen = record { made = P.made post.old; errors = P.errors post.old; last = P.last_error post.old } in let after : HandleSeen = record { made = P.made post.new; errors = P.errors post.new; last = P.last_error post.new } in IsCauseOf e before after) }
    ensures prefix { OnErr result (LinesPrefix calls.now (P.made post.old) (P.made post.new)) }
    ensures share { P.share post.new ≡ P.share post.old }
{
    let mut rest = calls;
    while let Some((line, later)) = first_line(rest) {
        make_line(rt, post, line)?;
        rest = later;
    }
    Ok(())
}
