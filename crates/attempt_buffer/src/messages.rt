// The framed messages of a call, each held once, and places among them.
ghost use Rattle.std.specs.Prelude.{◌≡◌, ◌<◌, ◌≤◌, ◌+◌, ◌-◌, ◌^◌, [], ◌∷◌, ◌++◌, length, take, drop, OnOk, OnErr};
ghost use Rattle.std.specs.List.{concat};
ghost use Rattle.attempt_buffer.specs.Spots.{IsSpot};

use bytes::BytesMut;
use grpc_base::{NoMemory, Octets};
use std::alloc::Global;
use std::collections::VecDeque;
use std::marker::Model;

/// A place among messages: a message, a byte in it, and how many bytes stand before it.
#[derive(Clone, Copy, Debug)]
pub struct Spot {
    pub message: usize,
    pub offset: usize,
    pub taken: usize,
}

impl Spot {
    /// The beginning.
    pub const START: Spot = Spot {
        message: 0,
        offset: 0,
        taken: 0,
    };

    /// So many bytes further, in a message of this length.
    fn afterwards(self, count: usize, len: usize) -> Spot
        requires offset { self.offset + count ≤ len }
        requires taken { self.taken + count < 2 ^ 64 }
        requires message { self.message + 1 < 2 ^ 64 }
        ensures taken { result.taken ≡ self.taken + count }
        ensures end { self.offset + count ≡ len → result ≡ record { message = self.message + 1; offset = 0; taken = self.taken + count } }
        ensures within { self.offset + count < len → result ≡ record self { offset = self.offset + count; taken = self.taken + count } }
    {
        let offset = self.offset + count;
        let taken = self.taken + count;
        if offset == len {
            Spot {
                message: self.message + 1,
                offset: 0,
                taken,
            }
        } else {
            Spot {
                message: self.message,
                offset,
                taken,
            }
        }
    }
}

/// The messages in their order, none of them empty. Contracts see the list of their bytes.
#[derive(Drop)]
pub struct Messages {
    list: VecDeque<Octets>,
    bytes: usize,
}

impl Model for Messages {
    ghost use Rattle.std.specs.Prelude.{◌≡◌, ℕ, List, length};
    ghost use Rattle.std.specs.List.{concat};
    ghost use Rattle.attempt_buffer.specs.Spots.{MessagesAreSized};

    ghost Value = { List (List ℕ) };

    ghost view = { λ m. m.list.items };

    ghost invariant = { λ m. (m.bytes ≡ length (concat m.list.items)) × MessagesAreSized m.list.items };
}

impl Messages {
    /// No messages.
    pub fn new(alloc: Global) -> Messages
        ensures { result ≡ [] }
    {
        Messages {
            list: VecDeque::new(alloc),
            bytes: 0,
        }
    }

    /// How many bytes all messages have.
    pub fn bytes(&self) -> usize
        ensures { result ≡ length (concat self.now) }
    {
        self.bytes
    }

    /// Appends a message. On out of memory all is as before.
    pub fn push(&mut self, framed: Octets) -> Result<(), NoMemory>
        requires filled { 0 < length framed }
        requires limit { length framed ≤ 4194309 }
        requires room { length (concat self.old) + length framed < 2 ^ 64 }
        ensures ok { OnOk result (self.new ≡ self.old ++ framed ∷ []) }
        ensures err { OnErr result (self.new ≡ self.old) }
    {
        let len = framed.len();
        self.list.push_back(framed)?;
        self.bytes += len;
        Ok(())
    }

    /// Gives up the first messages.
    pub fn give_up(&mut self, count: usize)
        requires { count ≤ length self.old }
        ensures { self.new ≡ drop count self.old }
    {
        for _message in 0..count {
            if let Some(message) = self.list.pop_front() {
                self.bytes -= message.len();
            }
        }
    }

    /// Appends some of the next bytes, at least one and at most so many, and gives the spot after them.
    fn copy_some(&self, spot: Spot, most: usize, out: &mut BytesMut) -> Spot
        requires spot { IsSpot self.now spot.message spot.offset spot.taken }
        requires some { 0 < most }
        requires within { spot.taken + most ≤ length (concat self.now) }
        requires room { length (concat self.now) < 2 ^ 64 }
        requires spare { most ≤ out.old.spare }
        ensures spot { IsSpot self.now result.message result.offset result.taken }
        ensures further { spot.taken < result.taken }
        ensures most { result.taken ≤ spot.taken + most }
        ensures bytes { out.new.items ≡ out.old.items ++ take (result.taken - spot.taken) (drop spot.taken (concat self.now)) }
        ensures spare { out.new.spare + (result.taken - spot.taken) ≡ out.old.spare }
    {
        let message = self.list[spot.message].as_slice();
        let rest = &message[spot.offset..];
        let count = most.min(rest.len());
        out.extend_reserved(&rest[..count]);
        spot.afterwards(count, message.len())
    }

    /// Appends the next bytes, and gives the spot after them.
    pub fn copy(&self, spot: Spot, len: usize, out: &mut BytesMut) -> Spot
        requires spot { IsSpot self.now spot.message spot.offset spot.taken }
        requires within { spot.taken + len ≤ length (concat self.now) }
        requires room { length (concat self.now) < 2 ^ 64 }
        requires spare { len ≤ out.old.spare }
        ensures spot { IsSpot self.now result.message result.offset result.taken }
        ensures taken { result.taken ≡ spot.taken + len }
        ensures bytes { out.new.items ≡ out.old.items ++ take len (drop spot.taken (concat self.now)) }
    {
        let end = spot.taken + len;
        let mut at = spot;
        while at.taken < end {
            at = self.copy_some(at, end - at.taken, out);
        }
        at
    }
}
