// Numbers in decimal digits.
ghost use Rattle.std.specs.Prelude.{◌≡◌, ◌≤◌, ◌^◌, ◌++◌, IfSome, IfNone, IsTrue, OnOk, OnErr, decimal};
ghost use Rattle.std.specs.List.{list_all};
ghost use Rattle.std.specs.Char.{is_ascii_digit};
ghost use Rattle.grpc_base.specs.Numbers.{is_number, number_of};

use crate::NoMemory;
use itoa::Buffer;

/// Appends the digits of a number. On out of memory the bytes are as before.
pub fn append_decimal(out: &mut Vec<u8>, number: u64) -> Result<(), NoMemory>
    ensures ok { OnOk result (out.new.items ≡ out.old.items ++ decimal number) }
    ensures err { OnErr result (out.new.items ≡ out.old.items) }
{
    let mut buffer = Buffer::new();
    out.extend_from_slice(buffer.format(number).as_bytes())?;
    Ok(())
}

/// The number that these digits write, leading zeros included. None exactly where there is no digit,
/// where a byte is none, and from 2^64 on.
pub fn read_number(text: &[u8]) -> Option<u64>
    ensures some { IfSome result (λ n. number_of text.now ≡ n) }
    ensures is_number { IfSome result (λ _. IsTrue (is_number text.now)) }
    ensures none { IfNone result (IsTrue (is_number text.now) → 2 ^ 64 ≤ number_of text.now) }
{
    if !is_number(text) {
        return None;
    }
    match std::str::from_utf8(text) {
        Ok(digits) => digits.parse::<u64>().ok(),
        Err(_) => None,
    }
}

/// Whether this is one digit or more.
pub fn is_number(text: &[u8]) -> bool
    ensures { result ≡ is_number text.now }
{
    !text.is_empty() && are_digits(text)
}

/// Whether each byte is a digit.
fn are_digits(text: &[u8]) -> bool
    ensures { result ≡ list_all is_ascii_digit text.now }
{
    text.iter().all(|b| b.is_ascii_digit())
}
