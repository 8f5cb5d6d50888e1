// Growth by a factor, for both kinds of wait.
ghost use Rattle.std.specs.Prelude.{◌≡◌, ◌≤◌, ◌*◌, ◌/◌, min};
ghost use Rattle.grpc_base.specs.Backoff.{grown};
ghost use Rattle.grpc_base.specs.Limits.{duration_limit};

/// `start` after it grew `times` times by a factor in thousandths, rounded down, never past `limit`.
///
/// A value that one growth leaves as it is stays so, and the loop ends there.
pub fn grow(start: u64, factor: u64, limit: u64, times: u32) -> u64
    requires start_within { start ≤ duration_limit }
    requires limit_within { limit ≤ duration_limit }
    ensures value { result ≡ grown start factor limit times }
    ensures within { result ≤ duration_limit }
{
    let mut value = start;
    for times_so_far in 0..times {
        let next = grow_once(value, factor, limit);
        if next == value {
            return value;
        }
        value = next;
    }
    value
}

/// One growth.
fn grow_once(value: u64, factor: u64, limit: u64) -> u64
    requires { value ≤ duration_limit }
    ensures { result ≡ min (value * factor / 1000) limit }
{
    let product = u128::from(value) * u128::from(factor) / 1000;
    product.min(u128::from(limit)) as u64
}
