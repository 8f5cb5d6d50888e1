// The entry that is being made, and the clock.
ghost use Rattle.std.specs.Prelude.{IfOk, ◌≡◌};
ghost use Rattle.grpc_base.specs.Backoff.{nth_word};
ghost use Rattle.session_actions.specs.Entries.{entry, last_moment, next_word, now};

use crate::words::{last_of, sum};
use grpc_base::{Moment, NoMemory};
use session_actions::Seen;

/// The number of the entry that is being made, or of the last one.
pub fn entry(seen: &Seen) -> Result<u64, NoMemory>
    ensures { IfOk result (λ n. n ≡ entry seen.now) }
{
    let made = seen.entries.len() as u64;
    if seen.current.is_none() {
        return Ok(made);
    }
    sum(made, 1)
}

/// The moment of the last entry.
pub fn last_moment(seen: &Seen) -> Moment
    ensures { result ≡ last_moment seen.now }
{
    match last_of(&seen.entries) {
        Some(entry) => entry.moment,
        None => Moment::new(0).unwrap(),
    }
}

/// The moment of the entry that is being made, or of the last one.
pub fn now(seen: &Seen) -> Moment
    ensures { result ≡ now seen.now }
{
    match &seen.current {
        Some(open) => open.moment,
        None => last_moment(seen),
    }
}

/// The k-th word of an entry, k from 0.
pub fn nth_word(word: u64, k: u64) -> u64
    ensures { result ≡ nth_word word k }
{
    let sum = u128::from(word) + u128::from(k) * 0x9E37_79B9_7F4A_7C15;
    (sum % (1 << 64)) as u64
}

/// The next random word of the entry.
pub fn next_word(seen: &Seen) -> u64
    ensures { result ≡ next_word seen.now }
{
    match &seen.current {
        Some(open) => nth_word(open.word, open.drawn),
        None => 0,
    }
}
