// Whether a header list is the head of a call, and the path that it names.
ghost use Rattle.std.specs.Prelude.{◌≡◌, [], ◌∷◌, codes, IfSome, MatchOption, Some, option_map, slice_get};
ghost use Rattle.std.specs.List.{list_any};
ghost use Rattle.grpc_base.specs.Requests.{IsPath};
ghost use Rattle.grpc_meta.specs.ResponseFields.{values_of};
ghost use Rattle.relay_request.specs.Heads.{call_path, has_grpc_type, is_grpc_type, is_post, one_path};

use grpc_base::{Field, Octets, is_path};

/// The first value of a name, and the fields after it.
pub(crate) fn first_value<'a>(fields: &'a [Field], name: &[u8]) -> Option<(&'a Octets, &'a [Field])>
    ensures { MatchOption result (values_of name.now fields.now ≡ []) (λ x. values_of name.now fields.now ≡ x.0.now ∷ values_of name.now x.1.now) }
{
    let [first, rest @ ..] = fields else {
        return None;
    };
    if first.name.as_slice() == name {
        Some((&first.value, rest))
    } else {
        first_value(rest, name)
    }
}

/// Whether this is `:method POST`.
fn is_post(field: &Field) -> bool
    ensures { result ≡ is_post field.now }
{
    field.name.as_slice() == b":method".as_slice() && field.value.as_slice() == b"POST".as_slice()
}

fn has_post(fields: &[Field]) -> bool
    ensures { result ≡ list_any is_post fields.now }
{
    for field in fields {
        if is_post(field) {
            return true;
        }
    }
    false
}

/// Whether a content type is that of gRPC.
fn is_grpc_type(value: &[u8]) -> bool
    ensures { result ≡ is_grpc_type (Some value.now) }
{
    if !value.starts_with(b"application/grpc") {
        return false;
    }
    match value.get(16) {
        Some(byte) => *byte == b'+' || *byte == b';',
        None => true,
    }
}

/// Whether the first content type is that of gRPC.
fn has_grpc_type(fields: &[Field]) -> bool
    ensures { result ≡ has_grpc_type fields.now }
{
    match first_value(fields, b"content-type") {
        Some((value, _)) => is_grpc_type(value.as_slice()),
        None => false,
    }
}

/// The path of the method, where there is one `:path` and it is one.
fn one_path(fields: &[Field]) -> Option<&Octets>
    ensures path { option_map (λ p. p.now) result ≡ one_path (values_of (codes ":path") fields.now) }
    ensures is_path { IfSome result (λ p. IsPath p.now) }
{
    let (path, others) = first_value(fields, b":path")?;
    if first_value(others, b":path").is_some() || !is_path(path.as_slice()) {
        return None;
    }
    Some(path)
}

/// The path of the call that a header list begins; None exactly where it begins none: it lacks `:method POST`, one path of
/// a method, or a content type of gRPC.
pub(crate) fn call_path(fields: &[Field]) -> Option<&Octets>
    ensures path { option_map (λ p. p.now) result ≡ call_path fields.now }
    ensures is_path { IfSome result (λ p. IsPath p.now) }
{
    if !has_post(fields) || !has_grpc_type(fields) {
        return None;
    }
    one_path(fields)
}
