// Representations: indexed fields, literals, and dynamic table size updates.
ghost use Rattle.std.specs.Prelude.{◌≡◌, ◌≢◌, ◌≤◌, length, Ok, Err, IfOk, IfErr, IfSome, ok_or};
ghost use Rattle.h2_hpack.specs.Blocks.{indexed_at, literal_at, size_at, spelled_at};
ghost use Rattle.h2_hpack.specs.Tables.{field_at, table_limit};

use crate::fault::HpackFault;
use crate::integer::integer;
use crate::static_table::static_entry;
use crate::table::DynamicTable;
use crate::text::{append_text, frequent_text, text};
use grpc_base::{Field, Octets};
use std::alloc::Global;

/// Room that most fields find enough, so that their memory is taken once.
const FIRST_ROOM: usize = 64;

/// The field of an index, shared with the dynamic table.
#[tactic(auto, using(crate::proofs::LookupLemmas::past_static, crate::proofs::LookupLemmas::dynamic_at))]
fn field(table: &DynamicTable, index: u64) -> Result<Field, HpackFault>
    ensures ok { IfOk result (λ x. ok_or (field_at table.now index) HpackFault.BadIndex ≡ Ok x) }
    ensures fault { IfErr result (λ e. e ≢ HpackFault.NoMemory → ok_or (field_at table.now index) HpackFault.BadIndex ≡ Err e) }
{
    if index == 0 {
        return Err(HpackFault::BadIndex);
    }
    let place = index - 1;
    if let Some((name, value)) = static_entry(place) {
        return Ok(Field {
            name: Octets::of_static(name.as_bytes()),
            value: Octets::of_static(value.as_bytes()),
        });
    }
    match table.get((place - 61) as usize) {
        Some(entry) => Ok(entry.share()?),
        None => Err(HpackFault::BadIndex),
    }
}

/// A field by its index, and what follows it (RFC 7541, section 6.1).
pub(crate) fn indexed<'a>(
    table: &DynamicTable,
    first: u8,
    bytes: &'a [u8],
) -> Result<(Field, &'a [u8]), HpackFault>
    ensures ok { IfOk result (λ x. indexed_at table.now first bytes.now ≡ Ok (x.0, x.1.now)) }
    ensures shorter { IfOk result (λ x. length x.1.now ≤ length bytes.now) }
    ensures fault { IfErr result (λ e. e ≢ HpackFault.NoMemory → indexed_at table.now first bytes.now ≡ Err e) }
{
    let Some((index, rest)) = integer(7, first, bytes) else {
        return Err(HpackFault::BadInteger);
    };
    let field = field(table, index)?;
    Ok((field, rest))
}

/// A literal field, the index of whose name has so many bits, and what follows it (section 6.2).
pub(crate) fn literal<'a>(
    alloc: Global,
    table: &DynamicTable,
    bits: u32,
    first: u8,
    bytes: &'a [u8],
) -> Result<(Field, &'a [u8]), HpackFault>
    requires few { 1 ≤ bits }
    requires most { bits ≤ 7 }
    ensures ok { IfOk result (λ x. literal_at table.now bits first bytes.now ≡ Ok (x.0, x.1.now)) }
    ensures shorter { IfOk result (λ x. length x.1.now ≤ length bytes.now) }
    ensures fault { IfErr result (λ e. e ≢ HpackFault.NoMemory → literal_at table.now bits first bytes.now ≡ Err e) }
{
    let Some((index, rest)) = integer(bits, first, bytes) else {
        return Err(HpackFault::BadInteger);
    };
    if index == 0 {
        return spelled_field(alloc, rest);
    }
    let Field { name, .. } = field(table, index)?;
    let (value, rest) = text(alloc, rest)?;
    Ok((Field { name, value }, rest))
}

/// A field whose name and value both follow as strings, where both are frequent ones, and what follows them.
fn frequent_field(bytes: &[u8]) -> Option<(Field, &[u8])>
    ensures field { IfSome result (λ x. spelled_at bytes.now ≡ Ok (x.0, x.1.now)) }
    ensures shorter { IfSome result (λ x. length x.1.now ≤ length bytes.now) }
{
    let (name, rest) = frequent_text(bytes)?;
    let (value, rest) = frequent_text(rest)?;
    let field = Field {
        name: Octets::of_static(name),
        value: Octets::of_static(value),
    };
    Some((field, rest))
}

/// A field whose name and value both follow as strings, and what follows them. They share one run of memory.
#[tactic(auto, using(crate::proofs::TextLemmas::two_texts, crate::proofs::TextLemmas::bad_name, crate::proofs::TextLemmas::bad_value))]
fn spelled_field(alloc: Global, bytes: &[u8]) -> Result<(Field, &[u8]), HpackFault>
    ensures ok { IfOk result (λ x. spelled_at bytes.now ≡ Ok (x.0, x.1.now)) }
    ensures shorter { IfOk result (λ x. length x.1.now ≤ length bytes.now) }
    ensures fault { IfErr result (λ e. e ≢ HpackFault.NoMemory → spelled_at bytes.now ≡ Err e) }
{
    if let Some(found) = frequent_field(bytes) {
        return Ok(found);
    }
    let mut both = Vec::with_capacity(alloc, bytes.len().min(FIRST_ROOM))?;
    let rest = append_text(&mut both, bytes)?;
    let name_len = both.len();
    let rest = append_text(&mut both, rest)?;
    let mut value = Octets::of_vec(both)?;
    let name = value.part(0, name_len)?;
    value.advance(name_len);
    Ok((Field { name, value }, rest))
}

/// The size of a dynamic table size update, and what follows it (section 6.3).
pub(crate) fn table_size(first: u8, bytes: &[u8]) -> Result<(usize, &[u8]), HpackFault>
    ensures ok { IfOk result (λ x. size_at first bytes.now ≡ Ok (x.0, x.1.now)) }
    ensures within { IfOk result (λ x. x.0 ≤ table_limit) }
    ensures shorter { IfOk result (λ x. length x.1.now ≤ length bytes.now) }
    ensures fault { IfErr result (λ e. size_at first bytes.now ≡ Err e) }
{
    let Some((size, rest)) = integer(5, first, bytes) else {
        return Err(HpackFault::BadInteger);
    };
    if size <= 4096 {
        Ok((size as usize, rest))
    } else {
        Err(HpackFault::BadSize)
    }
}
