// What came for the application and wasn't taken.
ghost use Rattle.std.specs.Prelude.{◌≡◌, ◌++◌, ◌∷◌, [], OnOk, OnErr, IfNone};
ghost use Rattle.call_core.specs.Parts.{first_of, fresh_inbox, has_none, rest_of};

use grpc_base::{Metadata, NoMemory, Octets};
use std::alloc::Global;
use std::collections::VecDeque;
use std::marker::Model;

/// Messages in their order. Contracts see the list of their bytes.
#[derive(Drop)]
pub struct Messages {
    list: VecDeque<Octets>,
}

impl Model for Messages {
    ghost use Rattle.std.specs.Prelude.{ℕ, List};

    ghost Value = { List (List ℕ) };

    ghost view = { λ m. m.list.items };
}

impl Messages {
    /// No messages.
    pub fn new(alloc: Global) -> Messages
        ensures { result ≡ [] }
    {
        Messages {
            list: VecDeque::new(alloc),
        }
    }

    /// Appends a message. On out of memory all is as before.
    pub fn push(&mut self, message: Octets) -> Result<(), NoMemory>
        ensures ok { OnOk result (self.new ≡ self.old ++ message ∷ []) }
        ensures err { OnErr result (self.new ≡ self.old) }
    {
        self.list.push_back(message)?;
        Ok(())
    }

    /// Takes the first message off.
    pub fn pop(&mut self) -> Option<Octets>
        ensures first { result ≡ first_of self.old }
        ensures rest { self.new ≡ rest_of self.old }
    {
        self.list.pop_front()
    }

    /// Whether there are none.
    pub fn is_empty(&self) -> bool
        ensures { result ≡ has_none self.now }
    {
        self.list.is_empty()
    }
}

/// What came for the application and wasn't taken, and whether it took the end.
#[derive(Drop)]
pub struct Inbox {
    pub head: Option<Metadata>,
    pub messages: Messages,
    pub is_end_taken: bool,
}

impl Inbox {
    /// Nothing came.
    pub fn new(alloc: Global) -> Inbox
        ensures { result ≡ fresh_inbox }
    {
        Inbox {
            head: None,
            messages: Messages::new(alloc),
            is_end_taken: false,
        }
    }
}
