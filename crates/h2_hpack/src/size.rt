// Sizes of fields.
ghost use Rattle.std.specs.Prelude.{◌≡◌, ◌<◌, ◌-◌, ◌^◌, nat_le, Some, None, if◌then◌else◌};
ghost use Rattle.h2_hpack.specs.Tables.{field_size};

use grpc_base::Field;

/// The size of a field: its name, its value and 32 (RFC 7541, section 4.1).
pub(crate) fn size_of_field(field: &Field) -> usize
    requires { field_size field.now < 2 ^ 64 }
    ensures { result ≡ field_size field.now }
{
    field.name.len() + field.value.len() + 32
}

/// What a field leaves of some room; None exactly where it does not fit.
pub(crate) fn room_after(field: &Field, room: usize) -> Option<usize>
    ensures { result ≡ (if nat_le (field_size field.now) room then Some (room - field_size field.now) else None) }
{
    room.checked_sub(field.name.len())?
        .checked_sub(field.value.len())?
        .checked_sub(32)
}
