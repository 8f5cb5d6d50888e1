// The fields that a header list has room for.
ghost use Rattle.std.specs.Prelude.{◌≡◌, ◌≤◌, ◌-◌, ◌+◌, ◌++◌, ◌∷◌, [], List, true, if◌then◌else◌, length, nat_le, IfOk, OnOk};
ghost use Rattle.grpc_base.specs.declared.fields.Field.{Field};
ghost use Rattle.h2_hpack.specs.Tables.{field_size, list_size};
ghost use Rattle.relay_response.specs.Blocks.{fitting};

use grpc_base::{Field, Fields, NoMemory};
use std::alloc::Global;

/// The greatest size of a header list (RFC 9113, section 10.5.1).
pub(crate) const LIST_LIMIT: usize = 16_384;

/// What a field adds to the size of its list beside its name and its value (RFC 7541, section 4.1).
const FIELD_SIZE: usize = 32;

/// Whether a field fits into so much room.
fn fits(field: &Field, room: usize) -> bool
    ensures fits { result ≡ nat_le (field_size field.now) room }
    ensures within { result ≡ true → field_size field.now ≤ room }
{
    let name = field.name.len();
    let value = field.value.len();
    FIELD_SIZE <= room && name <= room - FIELD_SIZE && value <= room - FIELD_SIZE - name
}

/// Appends a field where it fits, and answers how much room is left.
fn push_fitting(fields: &mut Fields, room: usize, field: &Field) -> Result<usize, NoMemory>
    ensures fields { OnOk result (fields.new ≡ fields.old ++ (if nat_le (field_size field.now) room then field.now ∷ [] else [])) }
    ensures room { IfOk result (λ left. left ≡ (if nat_le (field_size field.now) room then room - field_size field.now else room)) }
{
    if !fits(field, room) {
        return Ok(room);
    }
    let left = room - FIELD_SIZE - field.name.len() - field.value.len();
    fields.push(field.share()?)?;
    Ok(left)
}

/// Of these fields, from the first one on, each that the list has room for; one that it has no room for is left out.
pub(crate) fn fitting(alloc: Global, all: &Fields) -> Result<Fields, NoMemory>
    ensures { IfOk result (λ fields. fields ≡ fitting 16384 all.now) }
{
    let mut fields = Fields::new(alloc);
    fields.reserve(all.len())?;
    let mut room = LIST_LIMIT;
    for field in all.as_slice() {
        room = push_fitting(&mut fields, room, field)?;
    }
    Ok(fields)
}
