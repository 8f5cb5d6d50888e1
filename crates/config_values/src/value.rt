// The value of a field.
ghost use Rattle.std.specs.Prelude.{◌≡◌, ◌<◌, ◌≤◌, ◌^◌, ◌==◌, min, length, option_map, position, IfSome, IsTrue};
ghost use Rattle.std.specs.List.{list_all};
ghost use Rattle.grpc_base.specs.Numbers.{is_number, number_of};
ghost use Rattle.json_text.specs.Decimals.{parts_of};
ghost use Rattle.json_text.specs.Views.{tree_of};
ghost use Rattle.config_values.specs.Values.{duration, backoff, whole, up_to, size_of, size, attempts, multiplier, tokens, within_thousand, ratio_of, ratio};

use grpc_base::{Duration, is_number, read_number};
use json_text::{Json, milli, nanos};

fn has_zeros_alone(text: &[u8]) -> bool
    ensures { result ≡ list_all (λ b. b == 48) text.now }
{
    text.iter().all(|b| *b == b'0')
}

/// The number that digits write, or `limit` if it is larger.
fn value_up_to(limit: u64, digits: &[u8]) -> u64
    requires few { limit ≤ 10 ^ 10 }
    requires number { IsTrue (is_number digits.now) }
    ensures { result ≡ min (number_of digits.now) limit }
{
    match read_number(digits) {
        Some(value) => value.min(limit),
        None => limit,
    }
}

/// A whole number, or `limit` if it is larger.
pub fn whole_up_to(limit: u64, text: &[u8]) -> Option<u64>
    requires { limit ≤ 10 ^ 10 }
    ensures { result ≡ option_map (λ n. min n limit) (whole text.now) }
{
    if is_number(text) {
        Some(value_up_to(limit, text))
    } else {
        None
    }
}

/// A duration: a string of seconds.
#[tactic(auto, using(crate::proofs::Durations::nanos_within))]
pub fn duration(value: &Json) -> Option<Duration>
    ensures { result ≡ duration (tree_of value.now) }
{
    Duration::new(nanos(value.as_str()?)?)
}

/// A wait before a retry, which is above 0.
pub fn backoff(value: &Json) -> Option<Duration>
    ensures { result ≡ backoff (tree_of value.now) }
{
    let wait = duration(value)?;
    if wait.nanos() > 0 { Some(wait) } else { None }
}

fn size_of(text: &[u8]) -> Option<u32>
    ensures { result ≡ size_of text.now }
{
    let number = whole_up_to(4_294_967_296, text)?;
    if number <= 4_294_967_295 {
        Some(number as u32)
    } else {
        None
    }
}

/// A limit on messages in bytes: a number or a string of digits.
pub fn size(value: &Json) -> Option<u32>
    ensures { result ≡ size (tree_of value.now) }
{
    match value {
        Json::Number(text) => size_of(text.as_slice()),
        Json::Str(text) => size_of(text.as_slice()),
        _ => None,
    }
}

/// How many attempts, at least 2; more than 5 count as 5.
pub fn attempts(value: &Json) -> Option<u32>
    ensures { result ≡ attempts (tree_of value.now) }
{
    let number = whole_up_to(5, value.as_number()?)?;
    if number >= 2 {
        Some(number as u32)
    } else {
        None
    }
}

/// The growth of a wait in thousandths.
pub fn multiplier(value: &Json) -> Option<u64>
    ensures { result ≡ multiplier (tree_of value.now) }
{
    milli(value.as_number()?)
}

/// The tokens of a full bucket in thousandths, from 1 to 1,000 tokens.
pub fn tokens(value: &Json) -> Option<u32>
    ensures { result ≡ tokens (tree_of value.now) }
{
    let number = whole_up_to(1001, value.as_number()?)?;
    if number < 1 || number > 1000 {
        return None;
    }
    Some(number as u32 * 1000)
}

fn point_of(text: &[u8]) -> Option<usize>
    ensures point { result ≡ position (λ b. b == 46) text.now }
    ensures within { IfSome result (λ at. at < length text.now) }
{
    text.iter().position(|b| *b == b'.')
}

fn within_thousand(text: &[u8]) -> bool
    requires { IsTrue (is_number (parts_of text.now).0) }
    ensures { result ≡ within_thousand (parts_of text.now).0 (parts_of text.now).1 }
{
    match point_of(text) {
        None => value_up_to(1001, text) <= 1000,
        Some(at) => {
            let digits = value_up_to(1001, &text[..at]);
            digits < 1000 || digits == 1000 && has_zeros_alone(&text[at + 1..])
        }
    }
}

#[tactic(auto, using(crate::proofs::Durations::ratio_within, crate::proofs::Durations::multiplier_number))]
fn ratio_of(text: &[u8]) -> Option<u32>
    ensures { result ≡ ratio_of text.now }
{
    let Some(ratio) = milli(text) else {
        return None;
    };
    if !within_thousand(text) {
        return None;
    }
    Some(ratio as u32)
}

/// What one success adds, in thousandths.
pub fn ratio(value: &Json) -> Option<u32>
    ensures { result ≡ ratio (tree_of value.now) }
{
    ratio_of(value.as_number()?)
}
