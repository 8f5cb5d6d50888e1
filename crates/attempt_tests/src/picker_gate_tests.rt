// A queue and timers through some steps.
use picker_gate::{Gate, Timers};
use std::test::Fail;

/// The last pair of the queue, from pair to pair, and how many there are, at most 99.
fn served(gate: &Gate) -> (u32, u64, u32) {
    let mut last = (0, 0);
    for count in 0..100 {
        let Some(next) = gate.first_after(last.0, last.1) else {
            return (last.0, last.1, count);
        };
        last = next;
    }
    (last.0, last.1, 100)
}

#[test]
fn a_queue_by_call_and_row(rt: HostRuntime) -> Result<(), Fail> {
    let mut gate = Gate::new(rt.alloc());
    assert!(rt; gate.first_after(0, 0).is_none());
    for (call, row) in [(2, 9), (1, 12), (3, 1), (1, 4), (2, 9)] {
        gate.join(call, row)?;
    }
    assert_eq!(rt; served(&gate), (3, 1, 4));
    assert_eq!(rt; gate.first_after(1, 4), Some((1, 12)));
    assert_eq!(rt; gate.first_after(1, 5), Some((1, 12)));
    assert_eq!(rt; gate.first_after(1, 12), Some((2, 9)));
    assert!(rt; gate.leave(2, 9));
    assert!(rt; !gate.leave(2, 9));
    assert_eq!(rt; gate.first_after(1, 12), Some((3, 1)));
    assert_eq!(rt; gate.first_after(3, 1), None);
    Ok(())
}

#[test]
fn timers_by_moment(rt: HostRuntime) -> Result<(), Fail> {
    let mut timers = Timers::new(rt.alloc());
    assert_eq!(rt; timers.next(), None);
    for (moment, key) in [(70, 1), (50, 9), (50, 2), (90, 3)] {
        timers.insert(moment, key)?;
    }
    assert_eq!(rt; timers.next(), Some(50));
    assert_eq!(rt; timers.first_due(49), None);
    assert_eq!(rt; timers.first_due(50), Some((50, 2)));
    assert!(rt; timers.remove(50, 2));
    assert!(rt; !timers.remove(50, 3));
    assert_eq!(rt; timers.first_due(1_000), Some((50, 9)));
    assert!(rt; timers.remove(50, 9));
    assert_eq!(rt; timers.first_due(69), None);
    assert_eq!(rt; timers.next(), Some(70));
    Ok(())
}
