// What a server asks of the next retry.
ghost use Rattle.std.specs.Prelude.{◌≡◌, ◌++◌, ◌∷◌, [], List, codes, bytes_eq};
ghost use Rattle.grpc_base.specs.declared.fields.Field.{Field};
ghost use Rattle.grpc_meta.specs.ResponseFields.{delay_of, pushback_of, values_of};

use grpc_base::{Field, Fields, Pushback, read_number};

/// The longest wait in milliseconds.
const LONGEST: u64 = 2_147_483_647;

/// The pushback of a header list: one `grpc-retry-pushback-ms` of one to ten digits, at most 2,147,483,647, is a
/// wait in milliseconds; any other value, and more than one, means stop (gRFC A6, "Pushback").
pub fn pushback(fields: &Fields) -> Pushback
    ensures { result ≡ pushback_of (values_of (codes "grpc-retry-pushback-ms") fields.now) }
{
    let mut found = Pushback::None;
    for field in fields.as_slice() {
        found = with_field(found, field);
    }
    found
}

/// The pushback with one more field after those that were read.
fn with_field(found: Pushback, field: &Field) -> Pushback
    ensures { (before : List Field) → found ≡ pushback_of (values_of (codes "grpc-retry-pushback-ms") before) → result ≡ pushback_of (values_of (codes "grpc-retry-pushback-ms") (before ++ field.now ∷ [])) }
{
    if !is_pushback_name(field.name.as_slice()) {
        return found;
    }
    match found {
        Pushback::None => delay_of(field.value.as_slice()),
        _ => Pushback::Stop,
    }
}

/// Whether this is the name of a pushback.
fn is_pushback_name(name: &[u8]) -> bool
    ensures { result ≡ bytes_eq name.now (codes "grpc-retry-pushback-ms") }
{
    name == b"grpc-retry-pushback-ms".as_slice()
}

/// What one value says.
fn delay_of(value: &[u8]) -> Pushback
    ensures { result ≡ delay_of value.now }
{
    if value.len() > 10 {
        return Pushback::Stop;
    }
    match read_number(value) {
        Some(millis) if millis <= LONGEST => Pushback::After(millis as u32),
        _ => Pushback::Stop,
    }
}
