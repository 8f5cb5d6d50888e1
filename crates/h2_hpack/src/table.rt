// The dynamic table.
ghost use Rattle.std.specs.Prelude.{◌≡◌, ◌≤◌, ◌<◌, ◌^◌, List, IfOk, OnOk, slice_get, option_copied};
ghost use Rattle.h2_hpack.specs.Tables.{new_table, table_with, table_resized, table_limit, list_size, field_size, fitting};

use crate::size::{room_after, size_of_field};
use bytes::BytesMut;
use grpc_base::{Field, NoMemory, Octets};
use std::alloc::Global;
use std::collections::VecDeque;
use std::marker::Model;

/// The dynamic table, in a ring with its newest entry first.
#[derive(Debug, Drop)]
pub(crate) struct DynamicTable {
    alloc: Global,
    entries: VecDeque<Field>,
    size: usize,
    limit: usize,
}

impl Model for DynamicTable {
    ghost use Rattle.h2_hpack.specs.Tables.{Table, IsWithinLimit};

    ghost Value = { Table };

    ghost view = { λ t. record { entries = t.entries.items; limit = t.limit } };

    ghost invariant = { λ t. IsWithinLimit t.entries.items t.size t.limit };
}

impl DynamicTable {
    /// The empty table, of 4,096 at most.
    pub(crate) fn new(alloc: Global) -> DynamicTable
        ensures { result ≡ new_table }
    {
        DynamicTable {
            alloc,
            entries: VecDeque::new(alloc),
            size: 0,
            limit: 4096,
        }
    }

    /// The entry at a place, the newest one at 0.
    pub(crate) fn get(&self, place: usize) -> Option<&Field>
        ensures { option_copied result ≡ slice_get self.now.entries place }
    {
        self.entries.get(place)
    }

    /// Adds a copy of a field, once the oldest entries have made room for it (RFC 7541, section 4.4). An entry has
    /// memory of its own, so that the table keeps no block alive.
    pub(crate) fn add(&mut self, field: &Field) -> Result<(), NoMemory>
        ensures { OnOk result (self.new ≡ table_with self.old field.now) }
    {
        match room_after(field, self.limit) {
            Some(room) => {
                let entry = copy_of(self.alloc, field)?;
                let size = self.limit - room;
                self.size = evict(&mut self.entries, self.size, room);
                self.entries.push_front(entry)?;
                self.size += size;
            }
            None => {
                self.entries.clear();
                self.size = 0;
            }
        }
        Ok(())
    }

    /// Sets the size in force, and evicts what is above it (section 4.3).
    pub(crate) fn resize(&mut self, limit: usize)
        requires { limit ≤ table_limit }
        ensures { self.new ≡ table_resized self.old limit }
    {
        self.size = evict(&mut self.entries, self.size, limit);
        self.limit = limit;
    }
}

/// A copy of a field, its name and its value in one run of memory.
fn copy_of(alloc: Global, field: &Field) -> Result<Field, NoMemory>
    ensures { IfOk result (λ f. f ≡ field.now) }
{
    let room = field.name.len().saturating_add(field.value.len());
    let mut bytes = BytesMut::with_capacity(alloc, room)?;
    bytes.extend_from_slice(field.name.as_slice())?;
    let name = Octets::of_buffer(bytes.split()?)?;
    bytes.extend_from_slice(field.value.as_slice())?;
    let value = Octets::of_buffer(bytes)?;
    Ok(Field { name, value })
}

/// Takes the oldest entries off until the rest fits into the room; gives the size of the rest.
fn evict(entries: &mut VecDeque<Field>, size: usize, room: usize) -> usize
    requires { size ≡ list_size entries.old.items }
    ensures kept { entries.new.items ≡ fitting room entries.old.items }
    ensures size { result ≡ list_size entries.new.items }
    ensures fits { result ≤ room }
{
    let mut size = size;
    while size > room {
        let Some(oldest) = entries.pop_back() else {
            unreachable!()
        };
        size -= size_taken(oldest);
    }
    size
}

/// The size of an entry that is given up.
fn size_taken(entry: Field) -> usize
    requires { field_size entry < 2 ^ 64 }
    ensures { result ≡ field_size entry }
{
    size_of_field(&entry)
}
