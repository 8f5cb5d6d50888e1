// The fields of an object, and those that may be absent.
ghost use Rattle.std.specs.Prelude.{◌≡◌, map, option_map};
ghost use Rattle.json_text.specs.Views.{tree_of};
ghost use Rattle.json_text.specs.Parts.{member_seen, text_in, flag_in};
ghost use Rattle.config_values.specs.Values.{duration, size};
ghost use Rattle.config_values.specs.Policies.{value_of, optional, seen_by, fields_at};

use crate::place::{Fault, Field, Object, Place};
use crate::value;
use grpc_base::{Duration, Text};
use json_text::{Json, member_of};

/// The fields of an object.
pub fn fields_at(object: Object, value: &Json) -> Result<&[(Text, Json)], Fault>
    ensures { seen_by (λ ms. map member_seen ms.now) result ≡ fields_at object (tree_of value.now) }
{
    value.as_object().ok_or(Fault::Wrong(Place::Whole(object)))
}

/// The value of a field, where it is there.
pub fn value_of<'a>(fields: &'a [(Text, Json)], field: Field) -> Option<&'a Json>
    ensures { option_map (λ v. tree_of v.now) result ≡ value_of field (map member_seen fields.now) }
{
    member_of(fields, field.name())
}

/// A text that may be absent.
pub fn text<'a>(
    object: Object,
    field: Field,
    fields: &'a [(Text, Json)],
) -> Result<Option<&'a [u8]>, Fault>
    ensures { seen_by (λ t. option_map (λ s. s.now) t) result ≡ optional text_in object field (map member_seen fields.now) }
{
    let Some(value) = value_of(fields, field) else {
        return Ok(None);
    };
    match value.as_str() {
        Some(text) => Ok(Some(text)),
        None => Err(Fault::Wrong(Place::Field(object, field))),
    }
}

/// A flag that may be absent.
pub fn flag(object: Object, field: Field, fields: &[(Text, Json)]) -> Result<Option<bool>, Fault>
    ensures { result ≡ optional flag_in object field (map member_seen fields.now) }
{
    let Some(value) = value_of(fields, field) else {
        return Ok(None);
    };
    match value.as_bool() {
        Some(flag) => Ok(Some(flag)),
        None => Err(Fault::Wrong(Place::Field(object, field))),
    }
}

/// A limit on messages that may be absent.
pub fn size(object: Object, field: Field, fields: &[(Text, Json)]) -> Result<Option<u32>, Fault>
    ensures { result ≡ optional size object field (map member_seen fields.now) }
{
    let Some(value) = value_of(fields, field) else {
        return Ok(None);
    };
    match value::size(value) {
        Some(size) => Ok(Some(size)),
        None => Err(Fault::Wrong(Place::Field(object, field))),
    }
}

/// A duration that may be absent.
pub fn duration(
    object: Object,
    field: Field,
    fields: &[(Text, Json)],
) -> Result<Option<Duration>, Fault>
    ensures { result ≡ optional duration object field (map member_seen fields.now) }
{
    let Some(value) = value_of(fields, field) else {
        return Ok(None);
    };
    match value::duration(value) {
        Some(duration) => Ok(Some(duration)),
        None => Err(Fault::Wrong(Place::Field(object, field))),
    }
}
