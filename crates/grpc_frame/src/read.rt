// The messages of a rest and a piece.
ghost use Rattle.std.specs.Prelude.{◌≡◌, ◌≤◌, ◌++◌, ◌+◌, [], ◌∷◌, ℕ, IfOk, drop, length, take};
ghost use Rattle.grpc_frame.specs.declared.next.NextMessage.TheVariants as next;
ghost use Rattle.grpc_frame.specs.Messages.{messages_of, next_of};
ghost use Rattle.grpc_frame.specs.Read.{before_all, IsAsFar, kept, reported};

use crate::next::{MessageFault, NextMessage, PREFIX_SIZE, length_reported, next_message};
use bytes::BytesMut;
use grpc_base::{NoMemory, Octets};
use std::alloc::Global;

/// The messages that are whole, and the rest, which is empty after a fault.
#[derive(Drop)]
pub struct Read {
    pub messages: Vec<Octets>,
    pub rest: BytesMut,
    pub fault: Option<MessageFault>,
}

/// Reads on, from a message that is not whole yet.
pub fn read_on(limit: u32, rest: BytesMut, octets: &Octets) -> Result<Read, NoMemory>
    requires { next_of limit rest.items ≡ next.Partial }
    ensures reported { IfOk result (λ r. reported r ≡ kept (messages_of limit (rest.items ++ octets.now))) }
    ensures partial { IfOk result (λ r. next_of limit r.rest.items ≡ next.Partial) }
{
    let alloc = *rest.allocator();
    let mut messages = Vec::new(alloc);
    if rest.is_empty() {
        return read_from(alloc, limit, messages, octets, 0);
    }
    let begun = go_on(limit, rest, octets.as_slice())?;
    match next_message(limit, begun.rest.as_slice()) {
        NextMessage::Whole { length: _ } => {
            messages.push(message_in(begun.rest)?)?;
            read_from(alloc, limit, messages, octets, begun.taken)
        }
        NextMessage::Partial => Ok(Read {
            messages,
            rest: begun.rest,
            fault: None,
        }),
        NextMessage::Fault { fault } => Ok(Read {
            messages,
            rest: BytesMut::new(alloc),
            fault: Some(fault),
        }),
    }
}

// The message after its prefix, and nothing else.
fn message_in(text: BytesMut) -> Result<Octets, NoMemory>
    requires { 5 ≤ length text.items }
    ensures { IfOk result (λ message. message ≡ drop 5 text.items) }
{
    let mut message = Octets::of_buffer(text)?;
    message.advance(PREFIX_SIZE);
    Ok(message)
}

// A message that is not whole yet, and how many bytes it was given.
#[derive(Drop)]
struct Begun {
    rest: BytesMut,
    taken: usize,
}

// Gives the message bytes up to its end, or up to its fault, or all.
fn go_on(limit: u32, rest: BytesMut, bytes: &[u8]) -> Result<Begun, NoMemory>
    requires partial { next_of limit rest.items ≡ next.Partial }
    requires some { 1 ≤ length rest.items }
    ensures within { IfOk result (λ b. b.taken ≤ length bytes.now) }
    ensures rest { IfOk result (λ b. b.rest.items ≡ rest.items ++ take b.taken bytes.now) }
    ensures far { IfOk result (λ b. IsAsFar (next_of limit b.rest.items) (length b.rest.items) (b.taken ≡ length bytes.now)) }
{
    let mut rest = rest;
    let prefix = PREFIX_SIZE.saturating_sub(rest.len()).min(bytes.len());
    rest.extend_from_slice(&bytes[..prefix])?;
    match length_reported(rest.as_slice()) {
        Some(length) if length <= limit => {
            let lacking = PREFIX_SIZE + length as usize - rest.len();
            let more = lacking.min(bytes.len() - prefix);
            rest.reserve(lacking)?;
            rest.extend_from_slice(&bytes[prefix..prefix + more])?;
            Ok(Begun {
                rest,
                taken: prefix + more,
            })
        }
        _ => Ok(Begun {
            rest,
            taken: prefix,
        }),
    }
}

// Reads the messages of a piece from a place on.
fn read_from(
    alloc: Global,
    limit: u32,
    messages: Vec<Octets>,
    octets: &Octets,
    start: usize,
) -> Result<Read, NoMemory>
    requires { start ≤ length octets.now }
    ensures reported { IfOk result (λ r. reported r ≡ before_all messages.items (kept (messages_of limit (drop start octets.now)))) }
    ensures partial { IfOk result (λ r. next_of limit r.rest.items ≡ next.Partial) }
{
    let mut messages = messages;
    let mut at = start;
    let bytes = octets.as_slice();
    while let NextMessage::Whole { length } = next_message(limit, &bytes[at..]) {
        let end = at + PREFIX_SIZE + length as usize;
        messages.push(octets.part(at + PREFIX_SIZE, end)?)?;
        at = end;
    }
    read_end(alloc, limit, messages, &bytes[at..])
}

// Keeps what is after the last whole message, with room for the message that it begins once its length is there.
fn read_end(
    alloc: Global,
    limit: u32,
    messages: Vec<Octets>,
    bytes: &[u8],
) -> Result<Read, NoMemory>
    requires { (len : ℕ) → next_of limit bytes.now ≡ next.Whole len → ⊥ }
    ensures reported { IfOk result (λ r. reported r ≡ before_all messages.items (kept (messages_of limit bytes.now))) }
    ensures partial { IfOk result (λ r. next_of limit r.rest.items ≡ next.Partial) }
{
    let mut rest = BytesMut::new(alloc);
    let fault = match next_message(limit, bytes) {
        NextMessage::Fault { fault } => Some(fault),
        _ => {
            if let Some(length) = length_reported(bytes) {
                rest.reserve(PREFIX_SIZE + length as usize)?;
            }
            rest.extend_from_slice(bytes)?;
            None
        }
    };
    Ok(Read {
        messages,
        rest,
        fault,
    })
}
