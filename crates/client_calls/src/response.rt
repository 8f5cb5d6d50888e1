// The response of a call.
ghost use Rattle.std.specs.Prelude.{◌≡◌, ◌≢◌, ◌++◌, [], ◌∷◌, IfOk, IfErr, None, Some, length};
ghost use Rattle.std.specs.Option.{option_or};
ghost use Rattle.client_calls.specs.Exchanges.{end_of, head_of, messages_of};
ghost use Rattle.client_calls.specs.Unary.{IsUnary, IsNotUnary};

use crate::calls::Received;
use crate::error::CallError;
use crate::status::Status;
use grpc_base::{Code, Metadata, NoMemory, Octets};
use std::alloc::Global;

/// The whole response of a call: its head, its messages and its end.
#[derive(Debug, Drop)]
pub struct Response {
    /// The initial metadata; None where the response had no head of its own (a response of trailers alone).
    pub head: Option<Metadata>,
    pub messages: Vec<Octets>,
    pub status: Status,
}

/// The response of a call that ended OK with one message.
#[derive(Debug, Drop)]
pub struct UnaryResponse {
    /// The initial metadata.
    pub head: Option<Metadata>,
    pub message: Octets,
    /// The trailers.
    pub trailers: Metadata,
}

/// What was received so far.
#[derive(Drop)]
pub(crate) struct Gathered {
    pub head: Option<Metadata>,
    pub messages: Vec<Octets>,
}

impl Gathered {
    /// Nothing.
    pub fn new(alloc: Global) -> Gathered
        ensures { (result.head ≡ None) × (result.messages.items ≡ []) }
    {
        Gathered {
            head: None,
            messages: Vec::new(alloc),
        }
    }

    /// Makes room for one more message, so that none that was received is lost for want of memory.
    pub fn reserve(&mut self) -> Result<(), NoMemory>
        ensures { (self.new.head ≡ self.old.head) × (self.new.messages.items ≡ self.old.messages.items) }
    {
        self.messages.try_reserve(1)?;
        Ok(())
    }

    /// The first head is kept.
    fn note_head(&mut self, meta: Metadata)
        ensures { (self.new.head ≡ option_or self.old.head (Some meta)) × (self.new.messages.items ≡ self.old.messages.items) }
    {
        if self.head.is_none() {
            self.head = Some(meta);
        }
    }

    /// Adds a message.
    fn push(&mut self, octets: Octets) -> Result<(), NoMemory>
        ensures head { self.new.head ≡ self.old.head }
        ensures ok { IfOk result (λ _. self.new.messages.items ≡ self.old.messages.items ++ octets ∷ []) }
    {
        self.messages.push(octets)?;
        Ok(())
    }

    /// Notes what was received, and gives the end.
    pub fn note(&mut self, received: Received) -> Result<Option<Status>, NoMemory>
        ensures end { IfOk result (λ s. s ≡ end_of received) }
        ensures head { IfOk result (λ _. self.new.head ≡ option_or self.old.head (head_of received)) }
        ensures messages { IfOk result (λ _. self.new.messages.items ≡ self.old.messages.items ++ messages_of received) }
    {
        match received {
            Received::Head(meta) => {
                self.note_head(meta);
                Ok(None)
            }
            Received::Message(octets) => {
                self.push(octets)?;
                Ok(None)
            }
            Received::End(status) => Ok(Some(status)),
        }
    }
}

/// The one message of these.
fn one_of(mut messages: Vec<Octets>) -> Result<Octets, usize>
    ensures ok { IfOk result (λ message. messages.items ≡ message ∷ []) }
    ensures err { IfErr result (λ count. (count ≡ length messages.items) × (count ≢ 1)) }
{
    let count = messages.len();
    if count != 1 {
        return Err(count);
    }
    match messages.pop() {
        Some(message) => Ok(message),
        None => unreachable!(),
    }
}

/// The one message of a response that ended OK.
pub(crate) fn unary_of(response: Response) -> Result<UnaryResponse, CallError>
    ensures ok { IfOk result (λ u. IsUnary response u) }
    ensures err { IfErr result (λ e. IsNotUnary response e) }
{
    let Response {
        head,
        messages,
        status,
    } = response;
    if status.code != Code::Ok {
        return Err(CallError::Status(status));
    }
    match one_of(messages) {
        Ok(message) => Ok(UnaryResponse {
            head,
            message,
            trailers: status.meta,
        }),
        Err(messages) => Err(CallError::Cardinality { messages }),
    }
}
