// Multipliers in thousandths and durations in nanoseconds.
ghost use Rattle.std.specs.Prelude.{◌≡◌, ◌<◌, ◌≤◌, ◌^◌, ◌*◌, ◌==◌, length, option_map, position, IfSome, IsTrue, ◌⊎◌};
ghost use Rattle.std.specs.List.{list_all};
ghost use Rattle.std.specs.Char.{is_ascii_digit};
ghost use Rattle.grpc_base.specs.Numbers.{is_number};
ghost use Rattle.json_text.specs.Decimals.{fraction_of, parts_of, is_canonical, milli_by, milli_of, nanos_by, nanos_of};

use grpc_base::read_number;

fn has_zeros_alone(text: &[u8]) -> bool
    ensures { result ≡ list_all (λ b. b == 48) text.now }
{
    text.iter().all(|b| *b == b'0')
}

fn are_digits(text: &[u8]) -> bool
    ensures { result ≡ list_all is_ascii_digit text.now }
{
    text.iter().all(|b| b.is_ascii_digit())
}

fn is_number(text: &[u8]) -> bool
    ensures { result ≡ is_number text.now }
{
    !text.is_empty() && are_digits(text)
}

fn point_of(text: &[u8]) -> Option<usize>
    ensures point { result ≡ position (λ b. b == 46) text.now }
    ensures within { IfSome result (λ at. at < length text.now) }
{
    text.iter().position(|b| *b == b'.')
}

/// The digits after a point, in units of which so many make 1; what is less than a unit is dropped.
fn fraction_of(units: u64, digits: &[u8]) -> u64
    requires places { (units ≡ 1000) ⊎ (units ≡ 1000000000) }
    requires number { IsTrue (is_number digits.now) }
    ensures value { result ≡ fraction_of units digits.now }
    ensures below { result ≤ 23 * units }
{
    let mut unit = units / 10;
    let mut value = 0;
    for digit in digits {
        value += digit.saturating_sub(b'0') as u64 * unit;
        unit /= 10;
    }
    value
}

/// The text before its first point, and after it.
fn parts_of(text: &[u8]) -> (&[u8], Option<&[u8]>)
    ensures whole { result.0.now ≡ (parts_of text.now).0 }
    ensures digits { option_map (λ d. d.now) result.1 ≡ (parts_of text.now).1 }
{
    match point_of(text) {
        None => (text, None),
        Some(at) => (&text[..at], Some(&text[at + 1..])),
    }
}

/// Whether no 0 stands before another digit.
fn is_canonical(digits: &[u8]) -> bool
    ensures { result ≡ is_canonical digits.now }
{
    let [first, rest @ ..] = digits else {
        return false;
    };
    *first != b'0' || rest.is_empty()
}

const MOST_MULTIPLIER: u64 = 1_000_000;

fn milli_by(whole: &[u8], digits: Option<&[u8]>) -> Option<u64>
    ensures { result ≡ milli_by whole.now (option_map (λ d. d.now) digits.entry) }
{
    if !is_canonical(whole) {
        return None;
    }
    let value = read_number(whole)?;
    let (fraction, within) = match digits {
        None => (0, value <= MOST_MULTIPLIER),
        Some(digits) => {
            if !is_number(digits) {
                return None;
            }
            let is_zero = has_zeros_alone(digits);
            let within = value < MOST_MULTIPLIER || value == MOST_MULTIPLIER && is_zero;
            (fraction_of(1000, digits), within)
        }
    };
    if !within {
        return None;
    }
    let milli = value * 1000 + fraction;
    if milli > 0 { Some(milli) } else { None }
}

/// The thousandths of a JSON number, further digits dropped. None exactly where it is no number without
/// minus and exponent, is above 1,000,000, or has no thousandth.
pub fn milli(number: &[u8]) -> Option<u64>
    ensures { result ≡ milli_of number.now }
{
    let (whole, digits) = parts_of(number);
    milli_by(whole, digits)
}

const MOST_SECONDS: u64 = 1_000_000_000;

fn nanos_by(whole: &[u8], digits: Option<&[u8]>) -> Option<u64>
    ensures { result ≡ nanos_by whole.now (option_map (λ d. d.now) digits.entry) }
{
    let value = read_number(whole)?;
    let fraction = match digits {
        None => 0,
        Some(digits) => {
            if !is_number(digits) || digits.len() > 9 {
                return None;
            }
            fraction_of(1_000_000_000, digits)
        }
    };
    if value > MOST_SECONDS {
        return None;
    }
    let nanos = value * 1_000_000_000 + fraction;
    if nanos <= 1_000_000_000_000_000_000 {
        Some(nanos)
    } else {
        None
    }
}

/// The nanoseconds of a duration: digits, a point and one to nine digits where there is a fraction, and `s`.
/// None exactly where the text is not of that form, or is above 1,000,000,000 s.
pub fn nanos(text: &[u8]) -> Option<u64>
    ensures { result ≡ nanos_of text.now }
{
    if !text.ends_with(b"s") {
        return None;
    }
    let (whole, digits) = parts_of(&text[..text.len() - 1]);
    nanos_by(whole, digits)
}
