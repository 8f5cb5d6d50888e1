// Numbers in decimal digits, with no zero before another digit.
ghost use Rattle.std.specs.Prelude.{◌≡◌, ◌≤◌, ◌<◌, ◌↔◌, ◌^◌, ◌++◌, ◌∷◌, ℕ, List, IfSome, IfNone, IsTrue, decimal};
ghost use Rattle.grpc_base.specs.Numbers.{number_of};
ghost use Rattle.script_fields.specs.Reading.{SpellsNumber};
ghost use Rattle.script_fields.specs.Values.{IsNoDigit};

use grpc_base::{is_number, read_number, split_at_byte};

/// Whether this is a number of any length with no zero before another digit.
pub fn is_canonical(text: &[u8]) -> bool
    ensures { IsTrue result ↔ SpellsNumber text.now (number_of text.now) }
{
    if !is_number(text) {
        return false;
    }
    text[0] != b'0' || text.len() == 1
}

/// The number whose one spelling this is. None exactly where no number below 2^64 is spelled so.
fn number_of(text: &[u8]) -> Option<u64>
    ensures some { IfSome result (λ n. text.now ≡ decimal n) }
    ensures none { IfNone result ((n : ℕ) → n < 2 ^ 64 → text.now ≡ decimal n → ⊥) }
    ensures within { IfSome result (λ n. n < 2 ^ 64) }
{
    if !is_canonical(text) {
        return None;
    }
    let number = read_number(text)?;
    Some(number)
}

/// The number, where it is at most this one.
pub fn number_within(text: &[u8], most: u64) -> Option<u64>
    ensures some { IfSome result (λ n. (n ≤ most) × (text.now ≡ decimal n)) }
    ensures none { IfNone result ((n : ℕ) → n ≤ most → text.now ≡ decimal n → ⊥) }
{
    let number = number_of(text)?;
    if number > most {
        return None;
    }
    Some(number)
}

/// The number at the start, at most this one, and what stands after the byte that ends it.
pub fn number_before(text: &[u8], byte: u8, most: u64) -> Option<(u64, &[u8])>
    requires { IsNoDigit byte }
    ensures some { IfSome result (λ p. (p.0 ≤ most) × (text.now ≡ decimal p.0 ++ byte ∷ p.1.now)) }
    ensures none { IfNone result ((n : ℕ) (rest : List ℕ) → n ≤ most → text.now ≡ decimal n ++ byte ∷ rest → ⊥) }
{
    let (digits, rest) = split_at_byte(text, byte)?;
    Some((number_within(digits, most)?, rest))
}
