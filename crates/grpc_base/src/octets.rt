// Bytes that are shared without a copy.
ghost use Rattle.std.specs.Prelude.{◌≡◌, ◌≤◌, ◌-◌, [], List, ℕ, length, take, drop, slice_range, IfOk, OnOk, OnErr, IsTrue, ◌↔◌};

use crate::NoMemory;
use bytes::{Buf, Bytes, BytesMut};
use std::alloc::Global;
use std::marker::Model;

/// A run of bytes, as a message, a header value or a piece of a link; a clone shares them.
#[derive(Debug, Drop, PartialEq, Eq)]
pub struct Octets {
    shared: Bytes,
}

impl Model for Octets {
    ghost use Rattle.std.specs.Prelude.{ℕ, List};

    ghost Value = { List ℕ };

    ghost view = { λ o. o.shared };

    ghost inverse = { λ bs. record { shared = bs } };
}

impl Octets {
    /// No bytes.
    pub fn new() -> Octets
        ensures { result ≡ [] }
    {
        Octets {
            shared: Bytes::new(),
        }
    }

    /// A copy of these bytes.
    pub fn of_slice(alloc: Global, bytes: &[u8]) -> Result<Octets, NoMemory>
        ensures { IfOk result (λ o. o ≡ bytes.now) }
    {
        let shared = Bytes::copy_from_slice(alloc, bytes)?;
        Ok(Octets { shared })
    }

    /// These bytes, which live as long as the program; none is copied.
    pub fn of_static(bytes: &'static [u8]) -> Octets
        ensures { result ≡ bytes.now }
    {
        Octets {
            shared: Bytes::from_static(bytes),
        }
    }

    /// The bytes of this buffer.
    pub fn of_buffer(buffer: BytesMut) -> Result<Octets, NoMemory>
        ensures { IfOk result (λ o. o ≡ buffer.items) }
    {
        let shared = buffer.freeze()?;
        Ok(Octets { shared })
    }

    /// The bytes of this vector.
    pub fn of_vec(bytes: Vec<u8>) -> Result<Octets, NoMemory>
        ensures { IfOk result (λ o. o ≡ bytes.items) }
    {
        let shared = Bytes::from_vec(bytes)?;
        Ok(Octets { shared })
    }

    /// The same bytes, shared.
    pub fn share(&self) -> Result<Octets, NoMemory>
        ensures { IfOk result (λ o. o ≡ self.now) }
    {
        let shared = self.shared.clone()?;
        Ok(Octets { shared })
    }

    /// The bytes from `start` up to `end`, shared.
    pub fn part(&self, start: usize, end: usize) -> Result<Octets, NoMemory>
        requires ordered { start ≤ end }
        requires within { end ≤ length self.now }
        ensures { IfOk result (λ o. o ≡ slice_range self.now start end) }
    {
        let shared = self.shared.slice(start..end)?;
        Ok(Octets { shared })
    }

    /// Leaves out the first `count` bytes.
    pub fn advance(&mut self, count: usize)
        requires { count ≤ length self.old }
        ensures { self.new ≡ drop count self.old }
    {
        self.shared.advance(count);
    }

    /// The bytes as a slice.
    pub fn as_slice(&self) -> &[u8]
        ensures { result.now ≡ self.now }
    {
        self.shared.as_slice()
    }

    /// How many bytes there are.
    pub fn len(&self) -> usize
        ensures { result ≡ length self.now }
    {
        self.shared.len()
    }

    /// Whether there are none.
    pub fn is_empty(&self) -> bool
        ensures { IsTrue result ↔ (self.now ≡ []) }
    {
        self.shared.as_slice().is_empty()
    }
}
