// JSON texts with an object at the top.
ghost use Rattle.std.specs.Prelude.{◌+◌, ◌≡◌, ◌<◌, ◌≤◌, ◌↔◌, ℕ, length, take, IfOk, Ok, Err};
ghost use Rattle.json_text.specs.Tree.{Tree};
ghost use Rattle.json_text.specs.Reading.{Gives, most_bytes, run, at_start, reading};
ghost use Rattle.json_text.specs.Grammar.{IsText, CanEnd};
ghost use Rattle.json_text.specs.Readable.{IsReadable};
ghost use Rattle.json_text.specs.Faults.{After, RepeatsName, OpensTooDeep, ExponentAt};
ghost use Rattle.json_text.specs.Views.{state_of, tree_of};

use crate::json::Json;
use crate::place::{Place, Reader};
use crate::reader::step;
use grpc_base::JsonFault;
use std::alloc::Global;

const MOST_BYTES: usize = 65536;

/// Reads a JSON text with an object at its top (RFC 8259), or reports its first fault.
#[tactic(auto, using(crate::proofs::Runs::read_is_text, crate::proofs::Runs::one_value, crate::proofs::Runs::text_is_right, crate::proofs::Runs::syntax_prefix, crate::proofs::Runs::syntax_first, crate::proofs::Runs::too_long_is, crate::proofs::Runs::too_long_only, crate::proofs::Runs::repeated_key_is, crate::proofs::Runs::too_deep_is, crate::proofs::Runs::number_is, crate::proofs::Readables::read_is_readable, crate::proofs::Readables::readable_is_read))]
pub fn read_json(alloc: Global, bytes: &[u8]) -> Result<Json, JsonFault>
    // The bytes are a text of the value that is read, and of no other.
    ensures found { IfOk result (λ json. IsText (tree_of json) bytes.now) }
    ensures only { (v : Tree) → IsText v bytes.now → IfOk result (λ json. tree_of json ≡ v) }

    // What is read has no name twice in an object, no exponent and at most 32 levels; a text of such a value that is not too long is read.
    ensures readable { IfOk result (λ json. IsReadable (tree_of json) 0) }
    ensures reads { (v : Tree) → IsText v bytes.now → IsReadable v 0 → length bytes.now ≤ 65536 → Gives tree_of result (Ok v) }

    // What is read, or which fault is reported at which place; out of memory alone is free.
    ensures exact { Gives tree_of result (reading bytes.now) }
    ensures too_long { (result ≡ Err JsonFault.TooLong) ↔ (65536 < length bytes.now) }

    // Each other fault is reported after the prefix of a text, with the place of what has it.
    ensures repeated { (at : ℕ) → result ≡ Err (JsonFault.RepeatedKey at) → After (λ prefix. RepeatsName at prefix) bytes.now }
    ensures deep { (at : ℕ) → result ≡ Err (JsonFault.TooDeep at) → After (λ prefix. OpensTooDeep at prefix) bytes.now }
    ensures exponent { (at : ℕ) → result ≡ Err (JsonFault.Number at) → After (λ prefix. ExponentAt at prefix) bytes.now }

    // Syntax is reported of no text, after the prefix of one, and at the byte with which it is no prefix any more.
    ensures wrong { (at : ℕ) (v : Tree) → result ≡ Err (JsonFault.Syntax at) → IsText v bytes.now → ⊥ }
    ensures prefix { (at : ℕ) → result ≡ Err (JsonFault.Syntax at) → (at ≤ length bytes.now) × CanEnd (take at bytes.now) }
    ensures first { (at : ℕ) → result ≡ Err (JsonFault.Syntax at) → at < length bytes.now → CanEnd (take (at + 1) bytes.now) → ⊥ }
{
    if bytes.len() > MOST_BYTES {
        return Err(JsonFault::TooLong);
    }
    read_whole(alloc, bytes)
}

/// The same, of bytes that are few enough.
#[tactic(auto, unfolding(crate::specs::Reading::reading))]
fn read_whole(alloc: Global, bytes: &[u8]) -> Result<Json, JsonFault>
    requires { length bytes.now ≤ most_bytes }
    ensures { Gives tree_of result (reading bytes.now) }
{
    let Reader { place, parents: _ } = read_all(alloc, bytes)?;
    match place {
        Place::End(value) => Ok(value),
        _ => Err(JsonFault::Syntax {
            at: bytes.len() as u64,
        }),
    }
}

/// The place after all of these bytes.
fn read_all(alloc: Global, bytes: &[u8]) -> Result<Reader, JsonFault>
    requires { length bytes.now ≤ most_bytes }
    ensures { Gives state_of result (run 0 at_start bytes.now) }
{
    let mut reader = Reader {
        place: Place::Top,
        parents: Vec::new(alloc),
    };
    for (at, byte) in bytes.iter().enumerate() {
        reader = step(alloc, reader, at as u64, *byte)?;
    }
    Ok(reader)
}
