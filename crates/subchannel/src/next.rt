// The least moment at which the clock changes a live subchannel.
ghost use Rattle.std.specs.Prelude.{◌≡◌};
ghost use Rattle.subchannel.specs.Boards.{numbered, sooner};
ghost use Rattle.subchannel.specs.Insides.{next_of_numbers, next_of_one};

use crate::scan::sub_at;
use crate::sub::Subchannel;

/// The least moment at which the clock changes the subchannel of one of these numbers.
pub fn next_of_live(subs: &[Subchannel], live: &[u32]) -> Option<u64>
    ensures { result ≡ next_of_numbers subs.now live.now }
{
    let mut soonest = None;
    for number in live {
        soonest = sooner_of(soonest, next_at(subs, *number));
    }
    soonest
}

fn next_at(subs: &[Subchannel], number: u32) -> Option<u64>
    ensures { result ≡ next_of_one (numbered subs.now number) }
{
    match sub_at(subs, number) {
        Some(sub) => sub.next(),
        None => None,
    }
}

/// The sooner of two moments, where there are any.
fn sooner_of(one: Option<u64>, other: Option<u64>) -> Option<u64>
    ensures { result ≡ sooner one other }
{
    match (one, other) {
        (None, other) => other,
        (one, None) => one,
        (Some(one), Some(other)) => Some(one.min(other)),
    }
}
