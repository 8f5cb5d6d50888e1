// One call, step by step.
ghost use Rattle.std.specs.Prelude.{◌≡◌, Result};
ghost use Rattle.grpc_base.specs.Posts.{Posts};
ghost use Rattle.grpc_base.specs.declared.event.Event.TheVariants as event;
ghost use Rattle.grpc_base.specs.declared.event.Reply.{Reply};
ghost use Rattle.grpc_base.specs.declared.post.PostError.{PostError};
ghost use Rattle.client_calls.specs.Answers.{Begins, Does, Receives};
ghost use Rattle.client_calls.specs.Entries.{Fails, others_in};

use crate::error::CallError;
use crate::status::Status;
use grpc_base::{Caller, Event, Metadata, Octets, Post, Reply, Request};

/// What came next of a call: its head, then its messages in order, then its end.
#[derive(Debug, Drop)]
pub enum Received {
    /// The initial metadata of the response.
    Head(Metadata),
    Message(Octets),
    /// The end, after which nothing more comes.
    End(Status),
}

/// Begins a call, and gives its number at the channel.
#[tactic(auto, using(crate::proofs::EntryLaws::others_posted))]
pub fn begin<P: Post>(post: &mut P, request: Request) -> Result<u32, CallError>
    ensures begun { (came : Result Reply PostError) × Posts (P.made post.old) (P.made post.new) (event.Begin request) came × Begins came result }
    ensures failed { Fails (P.errors post.old) (P.errors post.new) (P.last_error post.new) result }
    ensures others { others_in (P.made post.new) ≡ others_in (P.made post.old) }
    ensures share { P.share post.new ≡ P.share post.old }
{
    match post.post(Event::Begin { request }) {
        Ok(Reply::Call { call }) => Ok(call),
        Ok(Reply::Refused { refusal }) => Err(CallError::Refused(refusal)),
        Ok(_) => unreachable!(),
        Err(error) => Err(CallError::Failed(error)),
    }
}

/// Sends a message, as soon as the call has room for it.
#[tactic(auto, using(crate::proofs::EntryLaws::others_posted))]
pub fn send<P: Caller>(post: &mut P, call: u32, message: Octets) -> Result<(), CallError>
    ensures sent { (came : Result Reply PostError) × Posts (P.made post.old) (P.made post.new) (event.Send call message) came × Does came result }
    ensures failed { Fails (P.errors post.old) (P.errors post.new) (P.last_error post.new) result }
    ensures others { others_in (P.made post.new) ≡ others_in (P.made post.old) }
    ensures share { P.share post.new ≡ P.share post.old }
{
    match post.await_send(call, message) {
        Ok(Reply::Done) => Ok(()),
        Ok(Reply::Refused { refusal }) => Err(CallError::Refused(refusal)),
        Ok(_) => unreachable!(),
        Err(error) => Err(CallError::Failed(error)),
    }
}

/// Says that the call sends no further message.
#[tactic(auto, using(crate::proofs::EntryLaws::others_posted))]
pub fn finish<P: Post>(post: &mut P, call: u32) -> Result<(), CallError>
    ensures finished { (came : Result Reply PostError) × Posts (P.made post.old) (P.made post.new) (event.Finish call) came × Does came result }
    ensures failed { Fails (P.errors post.old) (P.errors post.new) (P.last_error post.new) result }
    ensures others { others_in (P.made post.new) ≡ others_in (P.made post.old) }
    ensures share { P.share post.new ≡ P.share post.old }
{
    match post.post(Event::Finish { call }) {
        Ok(Reply::Done) => Ok(()),
        Ok(Reply::Refused { refusal }) => Err(CallError::Refused(refusal)),
        Ok(_) => unreachable!(),
        Err(error) => Err(CallError::Failed(error)),
    }
}

/// Gives the call up. Its end is then CANCELLED, unless it had ended.
#[tactic(auto, using(crate::proofs::EntryLaws::others_posted))]
pub fn cancel<P: Post>(post: &mut P, call: u32) -> Result<(), CallError>
    ensures cancelled { (came : Result Reply PostError) × Posts (P.made post.old) (P.made post.new) (event.Cancel call) came × Does came result }
    ensures failed { Fails (P.errors post.old) (P.errors post.new) (P.last_error post.new) result }
    ensures others { others_in (P.made post.new) ≡ others_in (P.made post.old) }
    ensures share { P.share post.new ≡ P.share post.old }
{
    match post.post(Event::Cancel { call }) {
        Ok(Reply::Done) => Ok(()),
        Ok(Reply::Refused { refusal }) => Err(CallError::Refused(refusal)),
        Ok(_) => unreachable!(),
        Err(error) => Err(CallError::Failed(error)),
    }
}

/// What comes next of the call, as soon as it has come.
#[tactic(auto, using(crate::proofs::EntryLaws::others_posted))]
pub fn next<P: Caller>(post: &mut P, call: u32) -> Result<Received, CallError>
    ensures received { (came : Result Reply PostError) × Posts (P.made post.old) (P.made post.new) (event.Take call) came × Receives came result }
    ensures failed { Fails (P.errors post.old) (P.errors post.new) (P.last_error post.new) result }
    ensures others { others_in (P.made post.new) ≡ others_in (P.made post.old) }
    ensures share { P.share post.new ≡ P.share post.old }
{
    match post.await_take(call) {
        Ok(Reply::Head { meta }) => Ok(Received::Head(meta)),
        Ok(Reply::Message { octets }) => Ok(Received::Message(octets)),
        Ok(
            Reply::End {
                code,
                text,
                meta,
                cause,
            },
        ) => Ok(Received::End(Status {
            code,
            text,
            meta,
            cause,
        })),
        Ok(Reply::Refused { refusal }) => Err(CallError::Refused(refusal)),
        Ok(_) => unreachable!(),
        Err(error) => Err(CallError::Failed(error)),
    }
}
