// Static entries by their names and values.
ghost use Rattle.std.specs.Prelude.{◌≡◌, ◌≤◌, List, ℕ, drop, false, get_or, take, true};
ghost use Rattle.std.specs.List.{list_any};
ghost use Rattle.h2_hpack.specs.Encoding.{index_where, is_at, match_of, same_name, same_pair};
ghost use Rattle.h2_hpack.specs.StaticTable.{static_table};

use crate::static_table::static_entry;

/// What the static table has of a field.
#[derive(Clone, Copy, Debug)]
pub(crate) enum StaticMatch {
    /// The name and the value, at this lowest index.
    Pair(u64),
    /// The name with other values, at this lowest index.
    Name(u64),
    /// Not even the name.
    Nothing,
}

/// The places from which and up to which entries of a name are to be sought. No entry, or few, begin with the letters with
/// which the names of gRPC begin.
fn places_of(name: &[u8]) -> (u64, u64)
    ensures before { list_any (same_name name.now) (take result.0 static_table) ≡ false }
    ensures afterwards { list_any (same_name name.now) (drop result.1 static_table) ≡ false }
    ensures within { result.1 ≤ 61 }
{
    let [first, ..] = name else {
        return (0, 61);
    };
    match *first {
        b':' => places_of_pseudo(name),
        b'c' => places_of_c(name),
        b'g' => (0, 0),
        b't' => (56, 57),
        b'u' => (57, 58),
        b'x' => (0, 0),
        _ => (0, 61),
    }
}

/// The same for the name of a pseudo-header field, by the letter after its colon.
fn places_of_pseudo(name: &[u8]) -> (u64, u64)
    requires { get_or name.now 0 0 ≡ 58 }
    ensures before { list_any (same_name name.now) (take result.0 static_table) ≡ false }
    ensures afterwards { list_any (same_name name.now) (drop result.1 static_table) ≡ false }
    ensures within { result.1 ≤ 61 }
{
    let [_, second, ..] = name else {
        return (0, 14);
    };
    match *second {
        b'a' => (0, 1),
        b'm' => (1, 3),
        b'p' => (3, 5),
        b's' => (5, 14),
        _ => (0, 14),
    }
}

/// The same for a name that begins with `c`, as the content type of each request and response does.
#[tactic(auto, using(crate::proofs::LookupLemmas::content_type_before, crate::proofs::LookupLemmas::content_type_after, crate::proofs::LookupLemmas::c_none_before, crate::proofs::LookupLemmas::c_none_after))]
fn places_of_c(name: &[u8]) -> (u64, u64)
    requires { get_or name.now 0 0 ≡ 99 }
    ensures before { list_any (same_name name.now) (take result.0 static_table) ≡ false }
    ensures afterwards { list_any (same_name name.now) (drop result.1 static_table) ≡ false }
    ensures within { result.1 ≤ 61 }
{
    if name == b"content-type".as_slice() {
        (30, 31)
    } else {
        (23, 32)
    }
}

/// What the static table has of a name and a value, in one pass.
pub(crate) fn static_match(name: &[u8], value: &[u8]) -> StaticMatch
    ensures { result ≡ match_of (index_where (same_pair name.now value.now)) (index_where (same_name name.now)) }
{
    let (start, end) = places_of(name);
    let mut named = None;
    for place in start..end {
        if has_name(place, name) {
            if has_value(place, value) {
                return StaticMatch::Pair(place + 1);
            }
            if named.is_none() {
                named = Some(place + 1);
            }
        }
    }
    match named {
        Some(index) => StaticMatch::Name(index),
        None => StaticMatch::Nothing,
    }
}

/// Whether the entry at a place has this name.
fn has_name(place: u64, name: &[u8]) -> bool
    ensures { result ≡ is_at (same_name name.now) place }
{
    match static_entry(place) {
        Some((entry, _)) => entry.as_bytes() == name,
        None => false,
    }
}

/// Whether the entry at a place has this value too, where it has the name that is sought.
#[tactic(auto, using(crate::proofs::LookupLemmas::paired, crate::proofs::LookupLemmas::unpaired))]
fn has_value(place: u64, value: &[u8]) -> bool
    ensures { (name : List ℕ) → is_at (same_name name) place ≡ true → is_at (same_pair name value.now) place ≡ result }
{
    match static_entry(place) {
        Some((_, text)) => text.as_bytes() == value,
        None => false,
    }
}
