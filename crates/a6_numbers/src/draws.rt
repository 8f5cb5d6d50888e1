// A random word spread over a range.
ghost use Rattle.std.specs.Prelude.{◌≡◌, ◌≤◌};
ghost use Rattle.grpc_base.specs.Backoff.{draw};

/// A random word of 64 bits spread evenly over 0 to `n`, both included.
pub fn draw_up_to(word: u64, n: u64) -> u64
    ensures value { result ≡ draw word n }
    ensures within { result ≤ n }
{
    let spread = u128::from(word) * (u128::from(n) + 1);
    (spread / (1 << 64)) as u64
}
