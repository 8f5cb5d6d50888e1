// Addresses of a service, and the list of them that a target or a resolver result gives.
ghost use Rattle.std.specs.Prelude.{◌≡◌, ◌≤◌, ◌<◌, ◌↔◌, ◌++◌, ◌∷◌, [], length, IsTrue, IfOk, OnErr, OnOk, IsOk, IsErr, Contains};
ghost use Rattle.grpc_base.specs.Addresses.{IsAddressList, address_limit, address_text, has_address, with_address};

use crate::limits::ADDRESSES;
use crate::{NoMemory, append_decimal};
use arrayvec::ArrayVec;
use std::alloc::Global;
use std::marker::Model;

/// An IPv4 address and a port.
#[derive(Clone, Copy, Debug, Default, PartialEq, Eq)]
pub struct Address {
    /// The four numbers `a.b.c.d` as `a * 2^24 + b * 2^16 + c * 2^8 + d`.
    pub ip: u32,
    pub port: u16,
}

impl Address {
    /// Appends the address as `a.b.c.d:port`. On out of memory some of it may stand there.
    pub fn append_to(&self, out: &mut Vec<u8>) -> Result<(), NoMemory>
        ensures { OnOk result (out.new.items ≡ out.old.items ++ address_text self.now) }
    {
        let ip = self.ip as u64;
        append_decimal(out, ip / 0x100_0000)?;
        out.push(b'.')?;
        append_decimal(out, ip / 0x1_0000 % 256)?;
        out.push(b'.')?;
        append_decimal(out, ip / 256 % 256)?;
        out.push(b'.')?;
        append_decimal(out, ip % 256)?;
        out.push(b':')?;
        append_decimal(out, self.port as u64)
    }
}

/// The list has 64 other addresses.
#[derive(Clone, Copy, Debug, PartialEq, Eq)]
pub struct ListFull;

/// At most 64 addresses in order, none of them twice.
#[derive(Debug, Drop)]
pub struct AddressList {
    addresses: ArrayVec<Address, ADDRESSES>,
}

impl Model for AddressList {
    ghost use Rattle.std.specs.Prelude.{List};
    ghost use Rattle.grpc_base.specs.declared.address.Address.{Address};
    ghost use Rattle.grpc_base.specs.Addresses.{IsAddressList};

    ghost Value = { List Address };

    ghost view = { λ l. l.addresses.items };

    ghost invariant = { λ l. IsAddressList l.addresses.items };
}

impl AddressList {
    /// The empty list.
    pub fn new() -> AddressList
        ensures { result ≡ [] }
    {
        AddressList {
            addresses: ArrayVec::new(),
        }
    }

    /// Appends an address, and passes over one that is there.
    /// ListFull comes exactly where the list has 64 other addresses; it is then as before.
    pub fn push(&mut self, address: Address) -> Result<(), ListFull>
        ensures ok { OnOk result (self.new ≡ with_address self.old address) }
        ensures full { IsErr result ↔ ((Contains self.old address → ⊥) × (length self.old ≡ address_limit)) }
        ensures err { OnErr result (self.new ≡ self.old) }
    {
        if self.has(address) {
            return Ok(());
        }
        if self.addresses.is_full() {
            return Err(ListFull);
        }
        self.addresses.push(address);
        Ok(())
    }

    /// Whether the list has this address.
    pub fn has(&self, address: Address) -> bool
        ensures value { result ≡ has_address self.now address }
        ensures contains { IsTrue result ↔ Contains self.now address }
    {
        self.addresses.as_slice().contains(&address)
    }

    /// The addresses in their order.
    pub fn as_slice(&self) -> &[Address]
        ensures list { result.now ≡ self.now }
        ensures within { length self.now ≤ address_limit }
    {
        self.addresses.as_slice()
    }

    /// That no address is there twice and at most 64 are, which the type keeps. Nothing runs: it is for proofs.
    pub fn keeps_each_once(&self)
        ensures { IsAddressList self.now }
    {
        let _ = &self.addresses;
    }

    /// How many addresses there are.
    pub fn len(&self) -> usize
        ensures { result ≡ length self.now }
    {
        self.addresses.len()
    }

    /// Whether there are none.
    pub fn is_empty(&self) -> bool
        ensures { IsTrue result ↔ (self.now ≡ []) }
    {
        self.addresses.as_slice().is_empty()
    }
}

/// A list of addresses on the heap, for an event or an entry, which has little room. Contracts see the list alone.
#[derive(Debug, Drop)]
pub struct BoxedAddresses {
    list: Box<AddressList>,
}

impl Model for BoxedAddresses {
    ghost use Rattle.std.specs.Prelude.{List};
    ghost use Rattle.grpc_base.specs.declared.address.Address.{Address};

    ghost Value = { List Address };

    ghost view = { λ b. b.list.value };
}

impl BoxedAddresses {
    /// Moves a list to the heap.
    pub fn new(alloc: Global, list: AddressList) -> Result<BoxedAddresses, NoMemory>
        ensures { IfOk result (λ b. b ≡ list) }
    {
        let list = Box::new(alloc, list)?;
        Ok(BoxedAddresses { list })
    }

    /// The list.
    pub fn as_list(&self) -> &AddressList
        ensures { result.now ≡ self.now }
    {
        &self.list
    }

    /// Takes the list from the heap.
    pub fn into_list(self) -> AddressList
        ensures { result ≡ self }
    {
        Box::into_inner(self.list)
    }
}
