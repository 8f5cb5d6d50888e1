// A ledger and a journal that are new.
use attempt_ledger::{Journal, Ledger};

#[test]
fn new_ones_are_empty(rt: HostRuntime) {
    let ledger = Ledger::new(rt.alloc());
    assert_eq!(rt; ledger.at(), 0);
    assert!(rt; ledger.rows.is_empty());
    assert!(rt; ledger.calls.is_empty());
    assert!(rt; ledger.asks.is_empty());
    assert!(rt; ledger.generations.is_empty());
    assert!(rt; ledger.links.is_empty());
    assert!(rt; Journal::new(rt.alloc()).entries.is_empty());
}
