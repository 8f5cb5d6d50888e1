// What a name and a value of a request's metadata keep, and how much room they take.
ghost use Rattle.std.specs.Prelude.{◌≡◌, ◌≢◌, ◌<◌, ◌≤◌, ◌+◌, ◌↔◌, length, codes, not, IsTrue, MatchOption};
ghost use Rattle.grpc_base.specs.Metadata.{IsMetaName, IsMetaValue, IsTextValue, is_binary_name, meta_limit, meta_size, sent_length};
ghost use Rattle.grpc_base.specs.declared.fields.Field.{Field};

use crate::limits::METADATA_BYTES;
use crate::{Field, NoMemory};
use std::alloc::AllocFailed;
use std::error::Error;
use std::fmt;

/// Why a pair of metadata is refused, in the order of the tests.
#[derive(Clone, Copy, Debug, PartialEq, Eq)]
pub enum MetaFault {
    /// The name is not 1 to 256 of `a` to `z`, `0` to `9`, `-`, `_` and `.`, or the protocol uses it itself.
    BadName,
    /// The name does not end in `-bin`, and the value has a byte outside 0x20 to 0x7E or a space at an end.
    BadValue,
    /// With this pair the metadata would come to more than 14,336 bytes as it is sent.
    TooLong,
    NoMemory,
}

impl fmt::Display for MetaFault {
    fn fmt<W: fmt::Write>(&self, f: &mut fmt::Formatter<W>) -> fmt::Result {
        f.write_str(match self {
            MetaFault::BadName => "a metadata name that may not be sent",
            MetaFault::BadValue => "a metadata value that is not printable ASCII",
            MetaFault::TooLong => "more than 14,336 bytes of metadata",
            MetaFault::NoMemory => "out of memory",
        })
    }
}

impl Error for MetaFault {}

impl From<NoMemory> for MetaFault {
    ghost use Rattle.std.specs.Prelude.{◌≡◌};
    ghost use Rattle.grpc_base.specs.declared.meta_rule.MetaFault.TheVariants as faults;

    ghost from_gives = { λ _ e. e ≡ faults.NoMemory };

    fn from(_e: NoMemory) -> MetaFault {
        MetaFault::NoMemory
    }
}

impl<T: Drop> From<AllocFailed<T>> for MetaFault {
    ghost use Rattle.std.specs.Prelude.{◌≡◌};
    ghost use Rattle.grpc_base.specs.declared.meta_rule.MetaFault.TheVariants as faults;

    ghost from_gives = { λ _ e. e ≡ faults.NoMemory };

    fn from(_e: AllocFailed<T>) -> MetaFault {
        MetaFault::NoMemory
    }
}

/// Whether an application may send this name.
pub fn is_meta_name(name: &[u8]) -> bool
    ensures { IsTrue result ↔ IsMetaName name.now }
{
    !name.is_empty()
        && name.len() <= 256
        && name.iter().all(|b| matches!(*b, b'a'..=b'z' | b'0'..=b'9' | b'-' | b'_' | b'.'))
        && !name.starts_with(b"grpc-")
        && is_free_name(name)
}

/// Whether this is neither a name that the client writes itself nor one of a connection.
fn is_free_name(name: &[u8]) -> bool
    ensures { IsTrue result ↔ ((name.now ≢ codes "te") × (name.now ≢ codes "content-type") × (name.now ≢ codes "host") × ((name.now ≢ codes "connection") × (name.now ≢ codes "keep-alive") × (name.now ≢ codes "proxy-connection") × (name.now ≢ codes "transfer-encoding") × (name.now ≢ codes "upgrade"))) }
{
    name != b"te".as_slice()
        && name != b"content-type".as_slice()
        && name != b"host".as_slice()
        && !is_connection_name(name)
}

/// Whether HTTP/2 forbids this name, since it speaks of the connection (RFC 9113, section 8.2.2).
fn is_connection_name(name: &[u8]) -> bool
    ensures { IsTrue (not result) ↔ ((name.now ≢ codes "connection") × (name.now ≢ codes "keep-alive") × (name.now ≢ codes "proxy-connection") × (name.now ≢ codes "transfer-encoding") × (name.now ≢ codes "upgrade")) }
{
    name == b"connection".as_slice()
        || name == b"keep-alive".as_slice()
        || name == b"proxy-connection".as_slice()
        || name == b"transfer-encoding".as_slice()
        || name == b"upgrade".as_slice()
}

/// Whether a value of this name is any bytes, sent as base64.
pub fn is_binary_name(name: &[u8]) -> bool
    ensures { result ≡ is_binary_name name.now }
{
    name.ends_with(b"-bin")
}

/// Whether this name may have this value.
pub fn is_meta_value(name: &[u8], value: &[u8]) -> bool
    ensures { IsTrue result ↔ IsMetaValue name.now value.now }
{
    is_binary_name(name) || is_text_value(value)
}

/// Whether this is visible ASCII and spaces, with no space at either end.
fn is_text_value(value: &[u8]) -> bool
    ensures { IsTrue result ↔ IsTextValue value.now }
{
    value.iter().all(|b| (b' '..=b'~').contains(b))
        && !value.starts_with(b" ")
        && !value.ends_with(b" ")
}

/// What is left of `room` after one pair as it is sent, where it fits.
fn room_after(room: usize, name: &[u8], value: &[u8]) -> Option<usize>
    requires { room ≤ meta_limit }
    ensures { MatchOption result (room < length name.now + sent_length name.now value.now + 32) (λ left. left + (length name.now + sent_length name.now value.now + 32) ≡ room) }
{
    if name.len() > room || value.len() > room {
        return None;
    }
    let sent = if is_binary_name(name) {
        (value.len() * 4 + 2) / 3
    } else {
        value.len()
    };
    room.checked_sub(name.len() + sent + 32)
}

/// What is left of the limit after these pairs, where they fit.
fn room_after_all(pairs: &[Field]) -> Option<usize>
    ensures { MatchOption result (meta_limit < meta_size pairs.now) (λ left. left + meta_size pairs.now ≡ meta_limit) }
{
    let mut room = METADATA_BYTES;
    for pair in pairs {
        room = room_after(room, pair.name.as_slice(), pair.value.as_slice())?;
    }
    Some(room)
}

/// Whether one more pair fits.
pub fn has_room(pairs: &[Field], name: &[u8], value: &[u8]) -> bool
    ensures { IsTrue result ↔ (meta_size pairs.now + (length name.now + sent_length name.now value.now + 32) ≤ meta_limit) }
{
    match room_after_all(pairs) {
        Some(room) => room_after(room, name, value).is_some(),
        None => false,
    }
}
