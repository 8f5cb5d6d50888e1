// The messages in the bytes of a stream (gRPC over HTTP/2, "Length-Prefixed-Message").
ghost use Rattle.std.specs.Prelude.{◌≡◌, ◌<◌, ◌-◌, ◌++◌, [], IfErr, IfOk, OnOk};
ghost use Rattle.grpc_frame.specs.Messages.{before, length_reported, messages_within, next_of};
ghost use Rattle.slow_link.specs.Parts.{WholeFits, next_found};

use grpc_base::{Items, NoMemory, Octets};
use grpc_frame::MessageFault;
use std::alloc::Global;

/// What stands at the start of a text.
#[derive(Clone, Copy, Debug)]
pub(crate) enum MessageStep {
    /// A message of so many bytes after its prefix.
    Whole { length: u32 },
    /// Less than a message.
    Partial,
    /// What is wrong with it.
    Fault { fault: MessageFault },
}

/// Appends the messages of a text, so many at most and none of them longer than the limit, and gives what follows them
/// and what is wrong with it.
pub(crate) fn add_messages<'a>(
    alloc: Global,
    limit: u32,
    most: usize,
    text: &'a [u8],
    messages: &mut Items<Octets>,
) -> Result<(&'a [u8], Option<MessageFault>), NoMemory>
    ensures whole { OnOk result (messages.new ≡ messages.old ++ (messages_within limit most text.now).whole) }
    ensures rest { IfOk result (λ r. r.0.now ≡ (messages_within limit most text.now).rest) }
    ensures fault { IfOk result (λ r. r.1 ≡ (messages_within limit most text.now).fault) }
{
    if most == 0 {
        return Ok((text, None));
    }
    match first_message(limit, most, text) {
        Ok((message, rest)) => {
            messages.push(Octets::of_slice(alloc, message)?)?;
            add_messages(alloc, limit, most - 1, rest, messages)
        }
        Err(fault) => Ok((text, fault)),
    }
}

/// The message before a text and what follows it; where there is none, what is wrong with the text.
#[tactic(auto, using(crate::proofs::LinkLaws::messages_by_one))]
fn first_message(
    limit: u32,
    most: usize,
    text: &[u8],
) -> Result<(&[u8], &[u8]), Option<MessageFault>>
    requires { 0 < most }
    ensures found { IfOk result (λ x. messages_within limit most text.now ≡ before x.0.now (messages_within limit (most - 1) x.1.now)) }
    ensures stopped { IfErr result (λ fault. messages_within limit most text.now ≡ record { whole = []; rest = text.now; fault = fault }) }
{
    let _ = most;
    match next_message(limit, text) {
        MessageStep::Whole { length } => {
            let (_, afterwards) = text.split_at(5);
            Ok(afterwards.split_at(length as usize))
        }
        MessageStep::Partial => Err(None),
        MessageStep::Fault { fault } => Err(Some(fault)),
    }
}

/// What stands at the start of a text.
pub(crate) fn next_message(limit: u32, text: &[u8]) -> MessageStep
    ensures next { next_found result ≡ next_of limit text.now }
    ensures fits { WholeFits result text.now }
{
    let [flag, ..] = text else {
        return MessageStep::Partial;
    };
    if *flag != 0 {
        return MessageStep::Fault {
            fault: MessageFault::BadFlag,
        };
    }
    match length_reported(text) {
        Some(length) if limit < length => MessageStep::Fault {
            fault: MessageFault::TooLarge { length },
        },
        Some(length) if 5 + length as usize <= text.len() => MessageStep::Whole { length },
        _ => MessageStep::Partial,
    }
}

/// The length that a prefix has, where all of it is there.
fn length_reported(text: &[u8]) -> Option<u32>
    ensures { result ≡ length_reported text.now }
{
    match text {
        [0, a, b, c, d, ..] => Some(u32::from_be_bytes([*a, *b, *c, *d])),
        _ => None,
    }
}
