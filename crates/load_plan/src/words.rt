// The random words of a load.
ghost use Rattle.std.specs.Prelude.{◌≡◌, ◌≤◌};
ghost use Rattle.grpc_base.specs.Backoff.{draw, nth_word};

use a6_numbers::draw_up_to;

/// The word of every event of a load: the middle one, so that a wait spread by it is hardly moved.
pub const EVENT_WORD: u64 = 1 << 63;

/// What the seed grows by from one word to the next: 2^64 over the golden ratio.
const GOLDEN: u128 = 0x9E37_79B9_7F4A_7C15;

/// The word of a number, from 1, in the sequence of a seed.
pub fn word_of(seed: u64, number: u32) -> u64
    ensures { result ≡ nth_word seed number }
{
    let sum = u128::from(seed) + u128::from(number) * GOLDEN;
    (sum % (1 << 64)) as u64
}

/// The word of a number spread over 0 to `most`.
pub fn drawn(seed: u64, number: u32, most: u64) -> u64
    ensures value { result ≡ draw (nth_word seed number) most }
    ensures within { result ≤ most }
{
    draw_up_to(word_of(seed, number), most)
}
