// The next retry after worked ends.
use crate::ends::{ended, unavailable};
use attempt_ledger::{Next, RowEnd};
use grpc_base::{Code, Duration, Pushback, RetryPolicy};
use retry_core::after_end;
use std::process::Abort;
use std::test::Fail;

/// A word in the middle of all, which spreads a wait to itself.
const MIDDLE: u64 = 1 << 63;

/// What follows an end, where the number of attempts since the last delay is one, unless this end asks for a delay.
fn next_of(
    rt: &impl Abort,
    policy: &RetryPolicy,
    number: u32,
    since: u32,
    end: &RowEnd,
    above: bool,
    word: u64,
) -> Next {
    assert!(rt; number >= 1);
    if let Pushback::After(_) = end.pushback {
        return after_end(policy, number, since, end, above, word);
    }
    assert!(rt; since >= 1);
    after_end(policy, number, since, end, above, word)
}

/// Each line an attempt's number, how many attempts ended since the server last asked for a delay, the moment, code and pushback of
/// its end, whether the tokens suffice, and a random word. Then the moment at which the next attempt is due, if one is. The policy has
/// four attempts, 0.1 s at first, twice as long each time, at most 1 s.
#[test]
fn retries_of_the_worked_rows(rt: HostRuntime) -> Result<(), Fail> {
    let none = Pushback::None;
    let failed = Code::Unavailable;
    let rows = [
        (
            1,
            1,
            1_000_000,
            failed,
            none,
            true,
            MIDDLE,
            Some(101_000_000),
        ),
        (
            2,
            2,
            110_000_000,
            failed,
            none,
            true,
            MIDDLE,
            Some(310_000_000),
        ),
        (
            3,
            3,
            310_000_000,
            failed,
            none,
            true,
            MIDDLE,
            Some(710_000_000),
        ),
        (4, 4, 710_000_000, failed, none, true, MIDDLE, None),
        (
            1,
            0,
            2_000_000,
            failed,
            Pushback::After(7),
            true,
            MIDDLE,
            Some(9_000_000),
        ),
        (
            2,
            1,
            10_000_000,
            failed,
            none,
            true,
            MIDDLE,
            Some(110_000_000),
        ),
        (1, 1, 1_000_000, failed, none, true, 0, Some(81_000_000)),
        (
            1,
            1,
            1_000_000,
            failed,
            none,
            true,
            u64::MAX,
            Some(121_000_000),
        ),
        (
            1,
            5,
            1_000_000,
            failed,
            none,
            true,
            MIDDLE,
            Some(1_001_000_000),
        ),
        (
            1,
            0,
            1_000_000,
            failed,
            Pushback::After(0),
            true,
            0,
            Some(1_000_000),
        ),
        (1, 1, 1_000_000, failed, none, false, MIDDLE, None),
        (
            1,
            1,
            1_000_000,
            failed,
            Pushback::After(7),
            false,
            MIDDLE,
            None,
        ),
        (1, 1, 1_000_000, failed, Pushback::Stop, true, MIDDLE, None),
        (1, 1, 1_000_000, Code::Internal, none, true, MIDDLE, None),
        (1, 1, 1_000_000, Code::Ok, none, true, MIDDLE, None),
    ];
    let policy = RetryPolicy {
        max: 4,
        initial: Duration::new(100_000_000).ok_or("initial")?,
        limit: Duration::new(1_000_000_000).ok_or("limit")?,
        multiplier: 2_000,
        codes: unavailable(),
    };
    for (number, since, moment, code, pushback, above, word, due) in rows {
        let end = ended(rt.alloc(), moment, code, pushback)?;
        let want = match due {
            Some(due) => Next::Again { due },
            None => Next::Final,
        };
        let next = next_of(&rt, &policy, number, since, &end, above, word);
        assert!(rt; next == want, "{number} {since} {moment} {above} {word}");
    }
    Ok(())
}
