// Times as people write them.

/// The nanoseconds of a time, as `1.5s`, `200ms`, `2m`, `1h`, `10us` or `5ns`; None where it is none, or above u64.
pub fn nanos_of(text: &str) -> Option<u64> {
    let (number, unit) = split_unit(text)?;
    let (whole, fraction) = match number.split_once('.') {
        Some((whole, fraction)) => (whole, fraction),
        None => (number, ""),
    };
    let whole: u64 = whole.parse().ok()?;
    let nanos = whole.checked_mul(unit)?;
    nanos.checked_add(part_of(fraction, unit)?)
}

/// The number, and the nanoseconds of its unit.
fn split_unit(text: &str) -> Option<(&str, u64)> {
    if let Some(number) = text.strip_suffix("ns") {
        return Some((number, 1));
    }
    if let Some(number) = text.strip_suffix("us") {
        return Some((number, 1_000));
    }
    if let Some(number) = text.strip_suffix("ms") {
        return Some((number, 1_000_000));
    }
    if let Some(number) = text.strip_suffix("s") {
        return Some((number, 1_000_000_000));
    }
    if let Some(number) = text.strip_suffix("m") {
        return Some((number, 60_000_000_000));
    }
    let number = text.strip_suffix("h")?;
    Some((number, 3_600_000_000_000))
}

/// The nanoseconds of the digits after a point. What is below one is left out.
fn part_of(digits: &str, unit: u64) -> Option<u64> {
    let mut nanos: u64 = 0;
    let mut left = unit;
    for digit in digits.bytes() {
        if !digit.is_ascii_digit() {
            return None;
        }
        left /= 10;
        nanos = nanos.checked_add(left.checked_mul(u64::from(digit - b'0'))?)?;
    }
    Some(nanos)
}
