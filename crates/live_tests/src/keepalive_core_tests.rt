// The keepalive of a link, by its worked rows.
use grpc_base::{Tend, Tender};
use keepalive_core::{
    KeepEntry, KeepFault, KeepKind, KeepLogFault, KeepRule, KeepTable, KeepTurn, Keepalive,
    check_keep,
};
use std::test::Fail;

/// Ten seconds of silence, and one for the answer.
const RULE: KeepRule = KeepRule {
    time: 10_000_000_000,
    timeout: 1_000_000_000,
};

#[test]
fn a_link_is_pinged_and_lost_by_the_rule(rt: HostRuntime) -> Result<(), Fail> {
    let bad = KeepRule {
        time: 0,
        timeout: 1,
    };
    assert!(rt; matches!(Keepalive::new(bad, 0), Err(KeepFault::BadRule)));
    assert!(rt; matches!(KeepTable::new(rt.alloc(), bad), Err(KeepFault::BadRule)));
    let Ok(mut keep) = Keepalive::new(RULE, 0) else {
        panic!(rt; "the rule is refused");
    };
    assert_eq!(rt; keep.turn(9_999_999_999), KeepTurn::Nothing);
    assert_eq!(rt; keep.next(), 10_000_000_000);
    assert_eq!(rt; keep.turn(10_000_000_000), KeepTurn::SendPing { word: 1 });
    assert_eq!(rt; keep.next(), 11_000_000_000);
    keep.octets(10_500_000_000);
    assert_eq!(rt; keep.turn(11_000_000_000), KeepTurn::Nothing);
    assert_eq!(rt; keep.turn(20_500_000_000), KeepTurn::SendPing { word: 2 });
    assert_eq!(rt; keep.turn(21_499_999_999), KeepTurn::Nothing);
    let lost = KeepTurn::Lost {
        heard: 10_500_000_000,
        sent: 20_500_000_000,
    };
    assert_eq!(rt; keep.turn(21_500_000_000), lost);
    keep.octets(21_600_000_000);
    assert_eq!(rt; keep.turn(1), lost);
    assert_eq!(rt; keep.next(), 21_500_000_000);
    Ok(())
}

#[test]
fn a_table_tends_the_links_that_were_opened(rt: HostRuntime) -> Result<(), Fail> {
    let Ok(mut table) = KeepTable::new(rt.alloc(), RULE) else {
        panic!(rt; "the rule is refused");
    };
    table.opened(3, 0)?;
    table.opened(5, 1_000_000_000)?;
    assert_eq!(rt; table.turn(4, 60_000_000_000), Tend::Nothing);
    assert_eq!(rt; table.turn(3, 10_000_000_000), Tend::Ping { word: 1 });
    assert_eq!(rt; table.turn(5, 10_000_000_000), Tend::Nothing);
    table.heard(3, 10_900_000_000);
    assert_eq!(rt; table.turn(3, 11_000_000_000), Tend::Nothing);
    assert_eq!(rt; table.turn(5, 11_000_000_000), Tend::Ping { word: 1 });
    assert_eq!(rt; table.turn(5, 12_000_000_000), Tend::Lost);
    Ok(())
}

#[test]
fn a_table_tends_a_thousand_links(rt: HostRuntime) -> Result<(), Fail> {
    let Ok(mut table) = KeepTable::new(rt.alloc(), RULE) else {
        panic!(rt; "the rule is refused");
    };
    for link in 0..1_000u32 {
        table.opened(link, 0)?;
    }
    assert_eq!(rt; table.turn(999, 10_000_000_000), Tend::Ping { word: 1 });
    assert_eq!(rt; table.turn(1_000, 10_000_000_000), Tend::Nothing);
    Ok(())
}

#[test]
fn a_list_breaks_the_rule_at_its_first_wrong_entry(rt: HostRuntime) {
    let kept = [
        KeepEntry {
            moment: 10_000_000_000,
            kind: KeepKind::Ping(1),
        },
        KeepEntry {
            moment: 10_500_000_000,
            kind: KeepKind::Octets,
        },
        KeepEntry {
            moment: 20_500_000_000,
            kind: KeepKind::Ping(2),
        },
        KeepEntry {
            moment: 21_500_000_000,
            kind: KeepKind::Lost,
        },
    ];
    assert_eq!(rt; check_keep(RULE, 0, &kept), Ok(()));
    let broken = [
        KeepEntry {
            moment: 10_000_000_000,
            kind: KeepKind::Ping(1),
        },
        KeepEntry {
            moment: 10_500_000_000,
            kind: KeepKind::Quiet,
        },
        KeepEntry {
            moment: 11_000_000_000,
            kind: KeepKind::Quiet,
        },
    ];
    assert_eq!(rt;
        check_keep(RULE, 0, &broken),
        Err(KeepLogFault { place: 3 })
    );
}
