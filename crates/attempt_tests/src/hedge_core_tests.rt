// The next hedged attempt in worked states.
use crate::ends::{ended, unavailable};
use attempt_ledger::Next;
use grpc_base::{Code, Duration, HedgePolicy, Pushback};
use hedge_core::{HedgeState, after_end, due_next};
use std::test::Fail;

fn policy(max: u32, delay: u64) -> Result<HedgePolicy, Fail> {
    Ok(HedgePolicy {
        max,
        delay: Duration::new(delay).ok_or("a delay")?,
        codes: unavailable(),
    })
}

/// A policy has three attempts 50 ms apart. Each line how many attempts were made, when the newest was placed, what an end forced,
/// whether nothing is due any more, and the moment at which the next one is due.
#[test]
fn due_moments_of_worked_states(rt: HostRuntime) -> Result<(), Fail> {
    let rows = [
        (0, None, Some(7), false, None),
        (1, None, None, false, None),
        (1, Some(0), None, false, Some(50_000_000)),
        (1, Some(0), Some(5_000_000), false, Some(5_000_000)),
        (2, Some(5_000_000), None, false, Some(55_000_000)),
        (2, Some(5_000_000), Some(6_000_000), true, None),
        (3, Some(5_000_000), None, false, None),
        (3, Some(5_000_000), Some(5_000_000), false, None),
    ];
    let policy = policy(3, 50_000_000)?;
    for (sent, last_placed, forced, stopped, want) in rows {
        if let Some(placed) = last_placed {
            assert!(rt; placed <= 4_000_000_000_000_000_000);
        }
        let state = HedgeState {
            sent,
            last_placed,
            forced,
            stopped,
            outstanding: 1,
        };
        assert!(rt; due_next(&policy, &state) == want, "of {sent} {stopped}");
    }
    Ok(())
}

/// Each line the most attempts, how many were made and are outstanding, the moment, code and pushback of an end, whether the tokens
/// suffice. Then when the next attempt is due, if one is, and what is then forced, whether hedging stopped, and what is outstanding.
#[test]
fn ends_of_worked_states(rt: HostRuntime) -> Result<(), Fail> {
    let none = Pushback::None;
    let failed = Code::Unavailable;
    let rows = [
        (
            3,
            1,
            1,
            5_000_000,
            failed,
            none,
            true,
            Some(5_000_000),
            Some(5_000_000),
            false,
            0,
        ),
        (
            3,
            2,
            2,
            9_000_000,
            failed,
            none,
            true,
            Some(9_000_000),
            Some(9_000_000),
            false,
            1,
        ),
        (
            3,
            3,
            1,
            9_000_000,
            failed,
            none,
            true,
            None,
            Some(9_000_000),
            false,
            0,
        ),
        (2, 2, 2, 9, failed, none, true, None, Some(9), false, 1),
        (2, 2, 1, 9, failed, none, true, None, Some(9), false, 0),
        (
            3,
            1,
            1,
            9,
            failed,
            Pushback::After(7),
            true,
            Some(7_000_009),
            Some(7_000_009),
            false,
            0,
        ),
        (
            3,
            1,
            1,
            9,
            failed,
            Pushback::After(7),
            false,
            Some(7_000_009),
            Some(7_000_009),
            false,
            0,
        ),
        (3, 1, 1, 9, failed, none, false, None, Some(9), true, 0),
        (
            3,
            1,
            1,
            9,
            failed,
            Pushback::Stop,
            true,
            None,
            Some(9),
            true,
            0,
        ),
        (
            3,
            2,
            2,
            9,
            Code::InvalidArgument,
            none,
            true,
            None,
            None,
            true,
            1,
        ),
        (3, 1, 1, 9, Code::Ok, none, true, None, None, true, 0),
    ];
    for (
        max,
        sent,
        outstanding,
        moment,
        code,
        pushback,
        above,
        due,
        forced,
        stopped,
        left,
    ) in rows {
        let policy = policy(max, 1_000_000_000)?;
        let end = ended(rt.alloc(), moment, code, pushback)?;
        let mut state = HedgeState {
            sent,
            last_placed: Some(0),
            forced: None,
            stopped: false,
            outstanding,
        };
        assert!(rt; sent >= 1 && outstanding >= 1);
        let next = after_end(&policy, &mut state, &end, above);
        let want = match due {
            Some(due) => Next::Again { due },
            None => Next::Final,
        };
        let after = HedgeState {
            sent,
            last_placed: Some(0),
            forced,
            stopped,
            outstanding: left,
        };
        assert!(rt;
            next == want,
            "of {max} {sent} {outstanding} {moment} {above}"
        );
        assert!(rt;
            state == after,
            "after {max} {sent} {outstanding} {moment} {above}"
        );
    }
    Ok(())
}
