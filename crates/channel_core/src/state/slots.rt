// The calls of a channel.
ghost use Rattle.std.specs.Borrow.{sem};
ghost use Rattle.std.specs.Option.{option_copied, option_copied_mut};
ghost use Rattle.std.specs.Prelude.{◌≡◌, ◌∷◌, ◌++◌, ◌≤◌, ◌==◌, ℕ, [], None, Some, drop, if◌then◌else◌, length, OnOk, OnErr};
ghost use Rattle.channel_core.specs.Books.{deadline_of, due_at};
ghost use Rattle.channel_core.specs.Lending.{lends_call};
ghost use Rattle.channel_core.specs.Tables.{changed_call, fed_call, fed_out_of, left_at, numbered, with_bucket};

use bytes::BytesMut;
use call_core::Call;
use grpc_base::NoMemory;
use std::alloc::Global;
use std::marker::Model;

/// A call, the place of its config's bucket, and the moments of the timers that stand for it.
#[derive(Drop)]
pub struct CallSlot {
    pub call: Call,
    pub bucket: usize,
    pub due: Option<u64>,
    pub deadline: Option<u64>,
}

impl CallSlot {
    /// The moment at which an attempt is due, in nanoseconds. None is in a call that has ended.
    pub fn due_at(&self) -> Option<u64>
        ensures { result ≡ due_at (Some self.now) }
    {
        if self.call.ended().is_some() {
            return None;
        }
        self.call.next_due()
    }

    /// The deadline, in nanoseconds. None stands in a call that has ended.
    pub fn deadline_at(&self) -> Option<u64>
        ensures { result ≡ deadline_of (Some self.now) }
    {
        if self.call.ended().is_some() {
            return None;
        }
        self.call.deadline_at()
    }

    /// Names the bucket of a call that has no configuration yet.
    pub fn set_bucket(&mut self, bucket: usize)
        ensures { self.new ≡ with_bucket bucket self.old }
    {
        if self.call.chosen().is_none() {
            self.bucket = bucket;
        }
    }
}

/// The calls of a channel, numbered from 1. A number that names no call changes nothing.
#[derive(Drop)]
pub struct Slots {
    list: Vec<CallSlot>,
}

impl Model for Slots {
    ghost use Rattle.std.specs.Prelude.{List};
    ghost use Rattle.channel_core.specs.declared.state.slots.CallSlot.{CallSlot};

    ghost Value = { List CallSlot };

    ghost view = { λ s. s.list.items };
}

impl Slots {
    pub fn new(alloc: Global) -> Slots
        ensures { result ≡ [] }
    {
        Slots {
            list: Vec::new(alloc),
        }
    }

    pub fn count(&self) -> usize
        ensures { result ≡ length self.now }
    {
        self.list.len()
    }

    pub fn push(&mut self, call: Call) -> Result<(), NoMemory>
        ensures { OnOk result (self.new ≡ self.old ++ record { call = call; bucket = 0; due = None; deadline = None } ∷ []) }
    {
        self.list.push(CallSlot {
            call,
            bucket: 0,
            due: None,
            deadline: None,
        })?;
        Ok(())
    }

    /// The call of a number.
    pub fn get(&self, number: u32) -> Option<&CallSlot>
        ensures { option_copied result ≡ numbered self.now number }
    {
        self.list.get((number as usize).checked_sub(1)?)
    }

    /// The call of a number, to be changed.
    pub fn get_mut(&mut self, number: u32) -> Option<&mut CallSlot>
        ensures* writes_back { sem 𝓛 (lends_call self.entry number result) }
        ensures slot { option_copied_mut result ≡ numbered self.old number }
    {
        let index = (number as usize).checked_sub(1)?;
        self.list.get_mut(index)
    }
    /// Appends the next bytes of a call's row to `out`.
    pub fn feed(
        &mut self,
        number: u32,
        row: u64,
        len: u32,
        out: &mut BytesMut,
    ) -> Result<(), NoMemory>
        ensures calls { OnOk result (self.new ≡ changed_call (fed_call row len) self.old number) }
        ensures out { OnOk result (out.new.items ≡ fed_out_of row len out.old.items (numbered self.old number)) }
        ensures left { OnOk result (len ≤ length (left_at row (numbered self.old number)) → (t : ℕ) → left_at t (numbered self.new number) ≡ (if t == row then drop len (left_at row (numbered self.old number)) else left_at t (numbered self.old number))) }
        ensures err { OnErr result (self.new ≡ self.old) }
    {
        match self.get_mut(number) {
            Some(slot) => slot.call.feed(row, len, out),
            None => Ok(()),
        }
    }
}
