// The tables of all three kinds where failures last, and tiers.
ghost use Rattle.std.specs.Prelude.{◌≡◌};

use crate::lb_kinds_tests::{give, state_of, view_of, wish_of};
use grpc_base::{Conn, Kind, Pick};
use lb_kinds::{PickFirst, RoundRobin};
use lb_policy::Policy;
use lb_priority::{BadWidth, Priority};

/// A subchannel of the digits 4 and 5 failed, and was then noted IDLE or CONNECTING.
fn go_on<P: Policy>(policy: &mut P, sub: u32, digit: u32)
    ensures { (P.seen policy.new).turns ≡ (P.seen policy.old).turns }
{
    match digit {
        4 => policy.note(sub, Conn::Idle),
        5 => policy.note(sub, Conn::Connecting),
        _ => {}
    }
}

/// A pick as a digit: the subchannel, 0 for Wait and 5 for Fail.
fn digit_of(pick: Pick) -> u32 {
    match pick {
        Pick::Place(sub) => sub,
        Pick::Wait => 0,
        Pick::Fail => 5,
    }
}

/// READY is 1, CONNECTING 2, TRANSIENT_FAILURE 3.
fn number_of(state: Conn) -> u32 {
    match state {
        Conn::Ready => 1,
        Conn::Connecting => 2,
        _ => 3,
    }
}

/// What a policy answers for so many of four subchannels that got where these digits say: its state, its wish, and two
/// picks, as decimal digits.
fn answer<P: Policy>(policy: &mut P, digits: [u32; 4], count: u32) -> u32 {
    policy.reset();
    let [first, second, third, fourth] = digits;
    let states = [
        state_of(first),
        state_of(second),
        state_of(third),
        state_of(fourth),
    ];
    give(policy, states, count);
    go_on(policy, 1, first);
    go_on(policy, 2, second);
    go_on(policy, 3, third);
    go_on(policy, 4, fourth);
    let state = number_of(policy.state());
    let wish = wish_of(policy);
    let once = digit_of(policy.pick());
    let again = digit_of(policy.pick());
    state
        .wrapping_mul(1_000_000)
        .wrapping_add(wish.wrapping_mul(100))
        .wrapping_add(once.wrapping_mul(10))
        .wrapping_add(again)
}

/// The answers for the combinations from one number to another, each 31 times those before and itself added.
fn sum_of<P: Policy>(policy: &mut P, count: u32, from: u32, to: u32) -> u32 {
    let mut sum: u32 = 0;
    for number in from..to {
        let digits = [
            number % 6,
            number / 6 % 6,
            number / 36 % 6,
            number / 216 % 6,
        ];
        sum = sum
            .wrapping_mul(31)
            .wrapping_add(answer(policy, digits, count));
    }
    sum
}

/// So many subchannels, and which combinations of their six conditions.
static ROWS: [(u32, u32, u32); 10] = [
    (0, 0, 1),
    (1, 0, 6),
    (2, 0, 36),
    (3, 0, 216),
    (4, 0, 216),
    (4, 216, 432),
    (4, 432, 648),
    (4, 648, 864),
    (4, 864, 1_080),
    (4, 1_080, 1_296),
];

static PICK_FIRST: [u32; 10] = [
    3_000_055,
    3_664_954_092,
    2_357_523_769,
    4_231_976_508,
    312_361_533,
    312_361_533,
    1_202_242_409,
    4_231_976_508,
    2_940_849_100,
    2_940_849_100,
];

static ROUND_ROBIN: [u32; 10] = [
    3_000_055,
    3_632_952_332,
    933_300_458,
    3_373_460_165,
    2_869_003_150,
    2_869_003_150,
    1_755_074_942,
    3_373_460_165,
    2_869_003_150,
    2_869_003_150,
];

static TIERS_OF_1: [u32; 10] = [
    3_000_055,
    3_664_954_092,
    1_812_296_761,
    3_189_007_868,
    2_832_203_413,
    2_832_203_413,
    330_986_617,
    3_189_007_868,
    1_165_723_684,
    1_165_723_684,
];

static TIERS_OF_2: [u32; 10] = [
    3_000_055,
    3_664_954_092,
    3_963_705_784,
    23_732_854,
    1_399_254_327,
    1_399_254_327,
    3_845_517_432,
    23_732_854,
    4_027_741_894,
    4_027_741_894,
];

static TIERS_OF_3: [u32; 10] = [
    3_000_055,
    3_664_954_092,
    3_963_705_784,
    800_304_413,
    443_499_958,
    443_499_958,
    2_237_250_458,
    800_304_413,
    3_071_987_525,
    3_071_987_525,
];

static TIERS_OF_64: [u32; 10] = [
    3_000_055,
    3_664_954_092,
    3_963_705_784,
    800_304_413,
    2_869_003_150,
    2_869_003_150,
    1_755_074_942,
    800_304_413,
    1_202_523_421,
    1_202_523_421,
];

/// The first row that has not the sum that is wanted.
fn odd_row<P: Policy>(policy: &mut P, wanted: &[u32; 10]) -> Option<usize> {
    for (row, (count, from, to)) in ROWS.iter().copied().enumerate() {
        if sum_of(policy, count, from, to) != wanted[row] {
            return Some(row);
        }
    }
    None
}

#[test]
fn kinds_without_tiers_answer_each_condition(rt: HostRuntime) {
    assert_eq!(rt; odd_row(&mut PickFirst::new(), &PICK_FIRST), None);
    assert_eq!(rt; odd_row(&mut RoundRobin::new(), &ROUND_ROBIN), None);
}

#[test]
fn tiers_answer_each_condition(rt: HostRuntime) {
    let widths = [
        (1, &TIERS_OF_1),
        (2, &TIERS_OF_2),
        (3, &TIERS_OF_3),
        (64, &TIERS_OF_64),
    ];
    for (width, wanted) in widths {
        if let Ok(mut policy) = Priority::new(width) {
            assert_eq!(rt; odd_row(&mut policy, wanted), None, "width {width}");
        } else {
            assert!(rt; false, "width {width}");
        }
    }
}

#[test]
fn bounds_of_a_width(rt: HostRuntime) {
    assert!(rt; matches!(Priority::new(0), Err(BadWidth)));
    assert!(rt; Priority::new(1).is_ok());
    assert!(rt; Priority::new(64).is_ok());
    assert!(rt; matches!(Priority::new(65), Err(BadWidth)));
    assert!(rt; matches!(Priority::new(u32::MAX), Err(BadWidth)));
}

#[test]
fn failure_of_pick_first_lasts_while_it_dials_again(rt: HostRuntime) {
    let mut policy = PickFirst::new();
    give(&mut policy, [Conn::Idle; 4], 2);
    policy.note(1, Conn::Failure);
    assert!(rt; policy.state() == Conn::Connecting);
    policy.note(2, Conn::Failure);
    policy.note(1, Conn::Idle);
    assert_eq!(rt; wish_of(&policy), 1);
    policy.note(1, Conn::Connecting);
    assert!(rt; policy.state() == Conn::Failure);
    assert!(rt; policy.pick() == Pick::Fail);
    // a result with more addresses leaves the failed ones
    give(
        &mut policy,
        [Conn::Connecting, Conn::Failure, Conn::Idle, Conn::Idle],
        2,
    );
    assert!(rt; policy.state() == Conn::Failure);
    policy.note(1, Conn::Ready);
    assert!(rt; policy.pick() == Pick::Place(1));
    policy.note(1, Conn::Idle);
    assert!(rt; policy.state() == Conn::Connecting);
    assert!(rt; policy.pick() == Pick::Wait);
}

#[test]
fn a_tier_is_used_while_earlier_ones_have_failed(rt: HostRuntime) {
    let mut policy = Priority::new(2).unwrap();
    policy.accept(&view_of([Conn::Ready, Conn::Idle, Conn::Ready, Conn::Idle]));
    assert_eq!(rt; wish_of(&policy), 2);
    let picks = [policy.pick(), policy.pick()];
    assert!(rt; picks == [Pick::Place(1), Pick::Place(1)]);
    policy.reset();
    policy.accept(&view_of([Conn::Failure, Conn::Failure, Conn::Ready, Conn::Connecting]));
    policy.note(2, Conn::Idle);
    assert_eq!(rt; wish_of(&policy), 24);
    assert!(rt; policy.pick() == Pick::Place(3));
    policy.note(2, Conn::Ready);
    assert!(rt; policy.pick() == Pick::Place(2));
    assert_eq!(rt; wish_of(&policy), 0);
    assert!(rt; policy.kind() == Kind::Priority);
}
