// Integers with a prefix, read and written.
ghost use Rattle.std.specs.Prelude.{◌≡◌, ◌<◌, ◌≤◌, ◌^◌, ◌+◌, ◌++◌, length, IfSome, OnOk, option_map};
ghost use Rattle.h2_hpack.specs.Integers.{tail_at, integer_at, tail_bytes, integer_bytes};

use grpc_base::NoMemory;

/// The rest of an integer at the start of some bytes, in at most `most` of them, and what follows it.
fn tail(bytes: &[u8], most: u32) -> Option<(u64, &[u8])>
    requires { most ≤ 8 }
    ensures value { option_map (λ x. (x.0, x.1.now)) result ≡ tail_at most bytes.now }
    ensures below { IfSome result (λ x. x.0 < 128 ^ most) }
    ensures shorter { IfSome result (λ x. length x.1.now < length bytes.now) }
{
    if most == 0 {
        return None;
    }
    let [byte, bytes @ ..] = bytes else {
        return None;
    };
    if *byte < 128 {
        return Some((*byte as u64, bytes));
    }
    let (high, after) = tail(bytes, most - 1)?;
    Some(((*byte - 128) as u64 + 128 * high, after))
}

/// The integer whose prefix is the last `bits` bits of `first`, and what follows it.
pub(crate) fn integer(bits: u32, first: u8, bytes: &[u8]) -> Option<(u64, &[u8])>
    requires few { 1 ≤ bits }
    requires most { bits ≤ 7 }
    ensures value { option_map (λ x. (x.0, x.1.now)) result ≡ integer_at bits first bytes.now }
    ensures shorter { IfSome result (λ x. length x.1.now ≤ length bytes.now) }
{
    let size = prefix_size(bits);
    let full = size - 1;
    let low = first % size;
    if low < full {
        return Some((low as u64, bytes));
    }
    let (high, after) = tail(bytes, 5)?;
    let value = full as u64 + high;
    if value <= u32::MAX as u64 {
        Some((value, after))
    } else {
        None
    }
}

/// How many numbers so many bits have.
fn prefix_size(bits: u32) -> u8
    requires { bits ≤ 7 }
    ensures value { result ≡ 2 ^ bits }
    ensures some { 1 ≤ result }
    ensures most { result ≤ 128 }
{
    1 << bits
}

/// Appends an integer, with `mark` in the bits before its prefix.
pub(crate) fn put_integer(
    out: &mut Vec<u8>,
    bits: u32,
    mark: u8,
    value: u64,
) -> Result<(), NoMemory>
    requires most { bits ≤ 7 }
    requires mark_is { mark + 2 ^ bits ≤ 256 }
    ensures { OnOk result (out.new.items ≡ out.old.items ++ integer_bytes bits mark value) }
{
    let full = prefix_size(bits) - 1;
    if value < full as u64 {
        out.push(mark + value as u8)?;
        return Ok(());
    }
    out.push(mark + full)?;
    put_tail(out, value - full as u64, 10)
}

/// Appends the rest of an integer, seven bits a byte, in at most so many bytes.
fn put_tail(out: &mut Vec<u8>, value: u64, most: u32) -> Result<(), NoMemory>
    ensures { OnOk result (out.new.items ≡ out.old.items ++ tail_bytes most value) }
{
    if most == 0 {
        return Ok(());
    }
    if value < 128 {
        out.push(value as u8)?;
        return Ok(());
    }
    out.push((value % 128 + 128) as u8)?;
    put_tail(out, value / 128, most - 1)
}
