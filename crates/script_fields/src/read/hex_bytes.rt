// Bytes in lower-case hex.
ghost use Rattle.std.specs.Prelude.{◌≡◌, ◌<◌, ◌≢◌, ◌/◌, ◌%◌, ℕ, List, IfSome, IfNone, IfOk};
ghost use Rattle.script_fields.specs.Spelling.{lower_digit, hex_digits, hex_or_dash};
ghost use Rattle.script_fields.specs.Reading.{SpellsWord};
ghost use Rattle.script_fields.specs.Values.{IsBytes};

use grpc_base::NoMemory;
use std::alloc::Global;

/// The digit that this byte spells.
fn digit_of(byte: u8) -> Option<u8>
    ensures some { IfSome result (λ d. (d < 16) × (byte ≡ lower_digit d)) }
    ensures none { IfNone result ((d : ℕ) → d < 16 → byte ≢ lower_digit d) }
{
    match byte {
        b'0'..=b'9' => Some(byte - b'0'),
        b'a'..=b'f' => Some(byte - b'a' + 10),
        _ => None,
    }
}

/// The byte that these two digits spell.
fn byte_of(high: u8, low: u8) -> Option<u8>
    ensures some { IfSome result (λ b. (high ≡ lower_digit (b / 16)) × (low ≡ lower_digit (b % 16))) }
    ensures within { IfSome result (λ b. b < 256) }
    ensures none { IfNone result ((b : ℕ) → b < 256 → high ≡ lower_digit (b / 16) → low ≡ lower_digit (b % 16) → ⊥) }
{
    let high = digit_of(high)?;
    let low = digit_of(low)?;
    Some(high * 16 + low)
}

/// The bytes that these digits spell.
pub fn bytes_of(alloc: Global, text: &[u8]) -> Result<Option<Vec<u8>>, NoMemory>
    ensures some { IfOk result (λ o. IfSome o (λ v. IsBytes v.items × (text.now ≡ hex_digits v.items))) }
    ensures none { IfOk result (λ o. IfNone o ((v : List ℕ) → IsBytes v → text.now ≡ hex_digits v → ⊥)) }
{
    let mut bytes = Vec::with_capacity(alloc, text.len() / 2)?;
    let mut rest = text;
    while let [high, afterwards @ ..] = rest {
        let [low, afterwards @ ..] = afterwards else {
            return Ok(None);
        };
        let Some(byte) = byte_of(*high, *low) else {
            return Ok(None);
        };
        bytes.push(byte)?;
        rest = afterwards;
    }
    Ok(Some(bytes))
}

/// The bytes that these digits spell, and none for a dash.
pub fn bytes_or_dash(alloc: Global, text: &[u8]) -> Result<Option<Vec<u8>>, NoMemory>
    ensures some { IfOk result (λ o. IfSome o (λ v. IsBytes v.items × (text.now ≡ hex_or_dash v.items))) }
    ensures none { IfOk result (λ o. IfNone o ((v : List ℕ) → IsBytes v → text.now ≡ hex_or_dash v → ⊥)) }
{
    if text == b"-".as_slice() {
        return Ok(Some(Vec::new(alloc)));
    }
    if text.is_empty() {
        return Ok(None);
    }
    bytes_of(alloc, text)
}

/// The word that these sixteen digits spell, the highest byte first.
pub fn word_of_hex(text: &[u8]) -> Option<u64>
    ensures some { IfSome result (SpellsWord text.now) }
    ensures none { IfNone result ((w : ℕ) → SpellsWord text.now w → ⊥) }
{
    if text.len() != 16 {
        return None;
    }
    let bytes = [
        byte_of(text[0], text[1])?,
        byte_of(text[2], text[3])?,
        byte_of(text[4], text[5])?,
        byte_of(text[6], text[7])?,
        byte_of(text[8], text[9])?,
        byte_of(text[10], text[11])?,
        byte_of(text[12], text[13])?,
        byte_of(text[14], text[15])?,
    ];
    Some(u64::from_be_bytes(bytes))
}
