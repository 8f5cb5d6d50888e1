// Bytes, texts, addresses and metadata.
ghost use Rattle.std.specs.Prelude.{◌≡◌, ◌++◌, ◌∷◌, OnOk, flat_map};
ghost use Rattle.script_fields.specs.Spelling.{hex_digits, hex_or_dash, word_bytes, percent_byte, percent_text, addresses_text, pair_text, meta_text, wait_text, config_hex};

use crate::write::numbers::append_word;
use grpc_base::{Address, Field, NoMemory, Octets};
use percent_encoding::{AsciiSet, CONTROLS, ascii_set, percent_encode};
use std::alloc::Global;

/// What a text writes as `%` and two digits, beside all from 0x80 on.
const ESCAPED: AsciiSet = ascii_set!(CONTROLS.add(b' ').add(b'%'));

/// Appends bytes in hex.
pub fn append_hex(alloc: Global, out: &mut Vec<u8>, bytes: &[u8]) -> Result<(), NoMemory>
    ensures { OnOk result (out.new.items ≡ out.old.items ++ hex_digits bytes.now) }
{
    let text = hex::encode(alloc, bytes)?;
    out.extend_from_slice(text.as_bytes())?;
    Ok(())
}

/// Appends the eight bytes of a word in hex, the highest first.
pub fn append_hex_of_word(alloc: Global, out: &mut Vec<u8>, word: u64) -> Result<(), NoMemory>
    ensures { OnOk result (out.new.items ≡ out.old.items ++ hex_digits (word_bytes word)) }
{
    append_hex(alloc, out, &word.to_be_bytes())
}

/// Appends bytes in hex after a space, a dash where there are none.
pub fn append_hex_word(alloc: Global, out: &mut Vec<u8>, bytes: &[u8]) -> Result<(), NoMemory>
    ensures { OnOk result (out.new.items ≡ out.old.items ++ 32 ∷ hex_or_dash bytes.now) }
{
    if bytes.is_empty() {
        return append_word(out, b"-");
    }
    out.push(b' ')?;
    append_hex(alloc, out, bytes)
}

/// Appends a text after a space: what is not visible ASCII is escaped, the empty text is a dash.
#[tactic(auto, using(crate::proofs::Digits::percent_plain))]
pub fn append_text(alloc: Global, out: &mut Vec<u8>, text: &[u8]) -> Result<(), NoMemory>
    ensures { OnOk result (out.new.items ≡ out.old.items ++ 32 ∷ percent_text text.now) }
{
    if text == b"".as_slice() {
        return append_word(out, b"-");
    }
    if text == b"-".as_slice() {
        return append_word(out, b"%2D");
    }
    out.push(b' ')?;
    append_escaped(alloc, out, text)
}

/// Appends a text with what is not visible ASCII escaped.
fn append_escaped(alloc: Global, out: &mut Vec<u8>, text: &[u8]) -> Result<(), NoMemory>
    ensures { OnOk result (out.new.items ≡ out.old.items ++ flat_map percent_byte text.now) }
{
    let mut escaped = String::new(alloc);
    percent_encode(text, ESCAPED).append_to(&mut escaped)?;
    out.extend_from_slice(escaped.as_bytes())?;
    Ok(())
}

/// Appends addresses with commas after a space, a dash where there are none.
pub fn append_addresses(out: &mut Vec<u8>, addresses: &[Address]) -> Result<(), NoMemory>
    ensures { OnOk result (out.new.items ≡ out.old.items ++ 32 ∷ addresses_text addresses.now) }
{
    let [first, rest @ ..] = addresses else {
        return append_word(out, b"-");
    };
    out.push(b' ')?;
    first.append_to(out)?;
    for address in rest {
        out.push(b',')?;
        address.append_to(out)?;
    }
    Ok(())
}

/// Appends a name and its value in hex.
fn append_pair(alloc: Global, out: &mut Vec<u8>, pair: &Field) -> Result<(), NoMemory>
    ensures { OnOk result (out.new.items ≡ out.old.items ++ pair_text pair.now) }
{
    out.extend_from_slice(pair.name.as_slice())?;
    out.push(b':')?;
    append_hex(alloc, out, pair.value.as_slice())
}

/// Appends metadata with commas after a space, a dash where there is none.
pub fn append_meta(alloc: Global, out: &mut Vec<u8>, pairs: &[Field]) -> Result<(), NoMemory>
    ensures { OnOk result (out.new.items ≡ out.old.items ++ 32 ∷ meta_text pairs.now) }
{
    let [first, rest @ ..] = pairs else {
        return append_word(out, b"-");
    };
    out.push(b' ')?;
    append_pair(alloc, out, first)?;
    for pair in rest {
        out.push(b',')?;
        append_pair(alloc, out, pair)?;
    }
    Ok(())
}

/// Appends whether a call waits for ready.
pub fn append_wait(out: &mut Vec<u8>, wait: Option<bool>) -> Result<(), NoMemory>
    ensures { OnOk result (out.new.items ≡ out.old.items ++ 32 ∷ wait_text wait) }
{
    match wait {
        None => append_word(out, b"-"),
        Some(true) => append_word(out, b"yes"),
        Some(false) => append_word(out, b"no"),
    }
}

/// Appends a service config in hex after a space, or a dash.
pub fn append_config(
    alloc: Global,
    out: &mut Vec<u8>,
    config: &Option<Octets>,
) -> Result<(), NoMemory>
    ensures { OnOk result (out.new.items ≡ out.old.items ++ 32 ∷ config_hex config.now) }
{
    match config {
        None => append_word(out, b"-"),
        Some(config) => {
            out.push(b' ')?;
            append_hex(alloc, out, config.as_slice())
        }
    }
}
