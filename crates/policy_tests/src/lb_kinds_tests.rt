// The table by state combinations, and turns.
ghost use Rattle.std.specs.Prelude.{◌≡◌};
ghost use Rattle.lb_policy.specs.Table.{IsView};

use grpc_base::{Conn, Kind, Pick};
use lb_kinds::{PickFirst, RoundRobin};
use lb_policy::{Policy, SubSeen};

pub fn state_of(digit: u32) -> Conn {
    match digit {
        0 => Conn::Idle,
        1 => Conn::Connecting,
        2 => Conn::Ready,
        _ => Conn::Failure,
    }
}

/// Subchannels 1 to 4 in these states.
pub fn view_of(states: [Conn; 4]) -> [SubSeen; 4]
    ensures { IsView result }
{
    let [first, second, third, fourth] = states;
    [
        SubSeen {
            sub: 1,
            state: first,
        },
        SubSeen {
            sub: 2,
            state: second,
        },
        SubSeen {
            sub: 3,
            state: third,
        },
        SubSeen {
            sub: 4,
            state: fourth,
        },
    ]
}

/// Hands a policy the first so many of the subchannels 1 to 4, in these states.
pub fn give<P: Policy>(policy: &mut P, states: [Conn; 4], count: u32)
    ensures { (P.seen policy.new).turns ≡ (P.seen policy.old).turns }
{
    let [first, second, third, fourth] = view_of(states);
    match count {
        0 => policy.accept(&[]),
        1 => policy.accept(&[first]),
        2 => policy.accept(&[first, second]),
        3 => policy.accept(&[first, second, third]),
        _ => policy.accept(&[first, second, third, fourth]),
    }
}

/// The digit of a subchannel that is not there.
const ABSENT: u32 = 4;

/// The digits of so many subchannels in the combination of this number.
fn digits_of(number: u32, count: u32) -> [u32; 4] {
    [
        if count > 0 { number % 4 } else { ABSENT },
        if count > 1 { number / 4 % 4 } else { ABSENT },
        if count > 2 { number / 16 % 4 } else { ABSENT },
        if count > 3 { number / 64 % 4 } else { ABSENT },
    ]
}

/// The number of the first subchannel whose digit passes, or 0.
fn first_where(digits: [u32; 4], from: u32, to: u32) -> u32 {
    let place = digits
        .iter()
        .position(|digit| from <= *digit && *digit <= to);
    place.map_or(0, |place| place as u32 + 1)
}

/// What any policy answers for such digits: its state, and its first pick.
fn wanted(digits: [u32; 4]) -> (Conn, Pick) {
    match (first_where(digits, 2, 2), first_where(digits, 0, 2)) {
        (0, 0) => (Conn::Failure, Pick::Fail),
        (0, _) => (Conn::Connecting, Pick::Wait),
        (ready, _) => (Conn::Ready, Pick::Place(ready)),
    }
}

/// A number with one decimal digit more.
fn with_digit(number: u32, digit: u32) -> u32 {
    number.wrapping_mul(10).wrapping_add(digit)
}

/// The subchannels that a policy wishes connected, as decimal digits in their order.
pub fn wish_of<P: Policy>(policy: &P) -> u32 {
    let mut wish = 0;
    for sub in policy.wish().as_slice() {
        wish = with_digit(wish, *sub);
    }
    wish
}

/// `pick_first` wishes the first one that is not in TRANSIENT_FAILURE, and none while one is READY.
fn first_wish(digits: [u32; 4]) -> u32 {
    if first_where(digits, 2, 2) == 0 {
        first_where(digits, 0, 2)
    } else {
        0
    }
}

/// `round_robin` wishes each one that is IDLE or CONNECTING.
fn round_wish(digits: [u32; 4]) -> u32 {
    let mut wish = 0;
    for (place, digit) in digits.iter().enumerate() {
        if *digit < 2 {
            wish = with_digit(wish, place as u32 + 1);
        }
    }
    wish
}

/// What a policy answers where it was given so many subchannels in these states.
fn reported<P: Policy>(policy: &mut P, digits: [u32; 4], count: u32) -> (u32, (Conn, Pick)) {
    policy.reset();
    let [first, second, third, fourth] = digits;
    let states = [
        state_of(first),
        state_of(second),
        state_of(third),
        state_of(fourth),
    ];
    give(policy, states, count);
    (wish_of(policy), (policy.state(), policy.pick()))
}

/// How many subchannels there are, and how many combinations of their states.
static COMBINATIONS: [(u32, u32); 5] = [(0, 1), (1, 4), (2, 16), (3, 64), (4, 256)];

#[test]
fn answers_each_combination_of_states(rt: HostRuntime) {
    let mut first = PickFirst::new();
    let mut round = RoundRobin::new();
    for (count, combinations) in COMBINATIONS {
        for number in 0..combinations {
            let digits = digits_of(number, count);
            let reported_first = reported(&mut first, digits, count);
            let reported_round = reported(&mut round, digits, count);
            assert!(rt;
                reported_first == (first_wish(digits), wanted(digits)),
                "at {count} {number}"
            );
            assert!(rt;
                reported_round == (round_wish(digits), wanted(digits)),
                "at {count} {number}"
            );
        }
    }
}

#[test]
fn takes_turns(rt: HostRuntime) {
    let mut round = RoundRobin::new();
    let states = [Conn::Ready, Conn::Ready, Conn::Ready, Conn::Failure];
    round.accept(&view_of(states));
    let picks = [round.pick(), round.pick(), round.pick(), round.pick()];
    let want = [
        Pick::Place(1),
        Pick::Place(2),
        Pick::Place(3),
        Pick::Place(1),
    ];
    assert!(rt; picks == want);
    round.note(3, Conn::Idle);
    round.note(9, Conn::Ready);
    assert_eq!(rt; round.pick(), Pick::Place(1));
    round.reset();
    assert_eq!(rt; round.pick(), Pick::Fail);
    assert_eq!(rt; round.kind(), Kind::RoundRobin);
}
