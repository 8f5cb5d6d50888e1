// Places of a list, which count from 1.
ghost use Rattle.std.specs.Prelude.{◌≡◌, ◌<◌, IfSome};
ghost use Rattle.ledger_stamps.specs.Steps.{index_at, stamped};

/// The index of a place in a list of so many values; None where it names nothing.
pub fn index_of(place: u64, len: usize) -> Option<usize>
    ensures value { result ≡ index_at place len }
    ensures within { IfSome result (λ index. index < len) }
{
    if place == 0 || place > len as u64 {
        None
    } else {
        Some(place as usize - 1)
    }
}

/// The entry of a stamp that is written once.
pub fn stamp(written: Option<u64>, entry: u64) -> Option<u64>
    ensures { result ≡ stamped entry written }
{
    match written {
        Some(written) => Some(written),
        None => Some(entry),
    }
}
