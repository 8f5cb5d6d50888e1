// The HTTP status of a header list.
ghost use Rattle.std.specs.Prelude.{◌≡◌, codes};
ghost use Rattle.std.specs.List.{list_any};
ghost use Rattle.h2_link.specs.Status.{http_status, is_interim, is_status, is_digit, three_digits};

use grpc_base::Field;

/// The HTTP status of a header list: the three digits of its one `:status`, if it has just one and that has three
/// digits (RFC 9110, section 15).
pub fn http_status(fields: &[Field]) -> Option<u32>
    ensures { result ≡ http_status fields.now }
{
    let [first, rest @ ..] = fields else {
        return None;
    };
    if !is_status(first) {
        return http_status(rest);
    }
    if has_status(rest) {
        return None;
    }
    three_digits(first.value.as_slice())
}

fn has_status(fields: &[Field]) -> bool
    ensures { result ≡ list_any is_status fields.now }
{
    for field in fields {
        if is_status(field) {
            return true;
        }
    }
    false
}

fn is_status(field: &Field) -> bool
    ensures { result ≡ is_status field.now }
{
    field.name.as_slice() == b":status".as_slice()
}

fn three_digits(text: &[u8]) -> Option<u32>
    ensures { result ≡ three_digits text.now }
{
    match text {
        [a, b, c] if is_digit(*a) && is_digit(*b) && is_digit(*c) => Some(
            u32::from(*a - b'0') * 100 + u32::from(*b - b'0') * 10 + u32::from(*c - b'0'),
        ),
        _ => None,
    }
}

fn is_digit(byte: u8) -> bool
    ensures { result ≡ is_digit byte }
{
    byte.is_ascii_digit()
}

/// Whether this is the status of an interim response (RFC 9110, section 15.2).
pub(crate) fn is_interim(status: Option<u32>) -> bool
    ensures { result ≡ is_interim status }
{
    match status {
        Some(status) => 100 <= status && status < 200,
        None => false,
    }
}
