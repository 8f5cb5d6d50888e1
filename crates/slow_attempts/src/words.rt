// Words on lists and numbers.
ghost use Rattle.std.specs.Option.{option_copied};
ghost use Rattle.std.specs.Prelude.{IfOk, ◌+◌, ◌≡◌};
ghost use Rattle.session_actions.specs.Words.{last_of, numbered};

use grpc_base::{Items, NoMemory};

/// The thing of a number; things are numbered from 1.
pub fn numbered<T>(items: &Items<T>, number: u64) -> Option<&T>
    ensures { option_copied result ≡ numbered items.now number }
{
    if number == 0 {
        return None;
    }
    items.get((number - 1) as usize)
}

/// The last thing.
pub fn last_of<T>(items: &Items<T>) -> Option<&T>
    ensures { option_copied result ≡ last_of items.now }
{
    numbered(items, items.len() as u64)
}

/// The sum of two numbers. One that passes its type is out of memory.
pub fn sum(first: u64, second: u64) -> Result<u64, NoMemory>
    ensures { IfOk result (λ n. n ≡ first + second) }
{
    first.checked_add(second).ok_or(NoMemory)
}

/// A number in 32 bits. One that has more is out of memory.
pub fn fits_in_32_bits(number: u64) -> Result<u32, NoMemory>
    ensures { IfOk result (λ n. n ≡ number) }
{
    match u32::try_from(number) {
        Ok(fits_in_32_bits) => Ok(fits_in_32_bits),
        Err(_) => Err(NoMemory),
    }
}
