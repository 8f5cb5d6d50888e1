// What a dialer is asked for.
ghost use Rattle.std.specs.Prelude.{None};

use crate::{Channel, DIALED, DIALED_UNTIL, Plan};
use gate_io::{Dialed, Dialer, MemLinkIn, MemLinkOut};
use grpc_base::Address;
use live_pump::{DialTurn, dial_once};
use std::test::Fail;

/// A dialer whose dials all fail, and which keeps what it was asked for last.
#[derive(Drop)]
struct Asked {
    to: Address,
    until: u64,
    faults: u64,
}

impl Dialer for Asked {
    type In = MemLinkIn;

    type Out = MemLinkOut;

    ghost coming = { λ d. None };

    ghost faults = { λ d. d.faults };

    fn dial(&mut self, to: Address, until: u64) -> Dialed<MemLinkIn, MemLinkOut> {
        self.to = to;
        self.until = until;
        self.faults = self.faults.saturating_add(1);
        Dialed::Failed
    }
}

#[test]
fn a_dial_goes_to_the_address_and_until_the_moment_that_were_given(
    rt: HostRuntime,
) -> Result<(), Fail> {
    let mut plan = Plan::new();
    plan.dials = 1;
    let mut channel = Channel::new(rt.alloc(), plan).expect(&rt, "0 is a moment");
    let mut dialer = Asked {
        to: Address::default(),
        until: 0,
        faults: 0,
    };
    let turn = dial_once(&mut channel, &mut dialer);
    assert!(rt; matches!(turn, DialTurn::Refused { sub: 7 }));
    assert_eq!(rt; (dialer.to, dialer.until), (DIALED, DIALED_UNTIL));
    Ok(())
}
