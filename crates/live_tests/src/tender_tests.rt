// What a tender is notified of: by the worker that keeps links open, and by what watches over its links.
use crate::{Channel, Plan};
use gate_io::{GivenUp, ListClock, MemDialer, MemLink, MemLinkIn, MemLinkOut, MemSink, MemSource};
use grpc_base::{NoMemory, NoTender, Tend, TendTurn, Tender};
use keepalive_core::{KeepRule, KeepTable};
use live_pump::{Pumped, net_worker};
use live_run::{Tending, Watching};
use std::alloc::{AllocError, Global};
use std::test::Fail;

/// A tender that lets every link be, and keeps what it was notified of.
#[derive(Drop)]
struct Noted {
    /// The last link that was opened, and when.
    opened: Option<(u32, u64)>,
    /// How often bytes came, and on which link and when they came last.
    pieces: u64,
    last_piece: Option<(u32, u64)>,
    turns: u64,
    last: Option<TendTurn>,
}

impl Noted {
    /// A tender that was notified of nothing.
    fn new() -> Noted {
        Noted {
            opened: None,
            pieces: 0,
            last_piece: None,
            turns: 0,
            last: None,
        }
    }
}

impl Tender for Noted {
    ghost turns = { λ t. t.turns };

    ghost last_turn = { λ t. t.last };

    fn opened(&mut self, link: u32, moment: u64) -> Result<(), NoMemory> {
        self.opened = Some((link, moment));
        Ok(())
    }

    fn heard(&mut self, link: u32, moment: u64) {
        self.pieces = self.pieces.saturating_add(1);
        self.last_piece = Some((link, moment));
    }

    fn turn(&mut self, link: u32, moment: u64) -> Tend {
        self.turns = self.turns.saturating_add(1);
        self.last = Some(TendTurn {
            link,
            moment,
            answer: Tend::Nothing,
        });
        Tend::Nothing
    }
}

/// A dialer with one link, on which three pieces come, of at most eight bytes each. Then it is quiet.
fn dialer(alloc: Global) -> Result<MemDialer, AllocError> {
    let source = MemSource::new(b"settings and more".to_vec(alloc)?, 8, Vec::new(alloc));
    let mut links = Vec::new(alloc);
    links.push(MemLink {
        input: MemLinkIn::new(source, false),
        output: MemLinkOut::new(MemSink::new(alloc, 4, Vec::new(alloc))),
    })?;
    Ok(MemDialer::new(links, Vec::new(alloc)))
}

#[test]
fn a_tender_is_notified_of_each_piece_that_comes_and_of_nothing_else(
    rt: HostRuntime,
) -> Result<(), Fail> {
    let alloc = rt.alloc();
    // The clock is read as the link opens, and in each round for a piece that came, for the tender and for the tick. Each round looks at
    // the channel three times: at its beginning, for a dial, and for a tick.
    for (rounds, looks, pieces, last_piece, last_turn) in [
        (1, 3, 1, 1, 2),
        (2, 6, 2, 4, 5),
        (3, 9, 3, 7, 8),
        (4, 12, 3, 7, 10),
    ] {
        let mut plan = Plan::new();
        plan.dials = 1;
        plan.glances = looks;
        let mut channel = Channel::new(alloc, plan).expect(&rt, "0 is a moment");
        let clock = ListClock::new(vec![in alloc; 0, 1, 2, 3, 4, 5, 6, 7, 8, 9, 10, 11]?);
        let mut noted = Noted::new();
        let mut dialer = dialer(alloc)?;
        let end = net_worker(&rt, alloc, &mut channel, &mut dialer, &clock, &mut noted);
        assert_eq!(rt; (rounds, end), (rounds, Pumped::Shut));
        assert_eq!(rt; (rounds, noted.opened), (rounds, Some((1, 0))));
        assert_eq!(rt;
            (rounds, noted.pieces, noted.last_piece),
            (rounds, pieces, Some((1, last_piece)))
        );
        let turn = TendTurn {
            link: 1,
            moment: last_turn,
            answer: Tend::Nothing,
        };
        assert_eq!(rt;
            (rounds, noted.turns, noted.last),
            (rounds, rounds, Some(turn))
        );
    }
    Ok(())
}

/// A PING after ten nanoseconds without bytes, and one for its answer.
const RULE: KeepRule = KeepRule {
    time: 10,
    timeout: 1,
};

/// What this tender answers at 10 of a link that was opened at 0, and on which bytes came at this moment.
fn at_ten<T: Tender>(tender: &mut T, came: Option<u64>) -> Result<Tend, NoMemory> {
    tender.opened(3, 0)?;
    if let Some(moment) = came {
        if moment <= 10 {
            tender.heard(3, moment);
        }
    }
    Ok(tender.turn(3, 10))
}

#[test]
fn bytes_that_come_put_a_ping_off_for_each_that_tends(rt: HostRuntime) -> Result<(), Fail> {
    let alloc = rt.alloc();
    for (came, answer) in [
        (None, Tend::Ping { word: 1 }),
        (Some(0), Tend::Ping { word: 1 }),
        (Some(1), Tend::Nothing),
    ] {
        let Ok(mut table) = KeepTable::new(alloc, RULE) else {
            panic!(rt; "the rule is refused");
        };
        let mut tending = Tending::new(alloc, Some(RULE));
        let kept = Tending::new(alloc, Some(RULE));
        let mut watching = Watching::new(kept, GivenUp::new(alloc)?);
        assert_eq!(rt;
            ("table", came, at_ten(&mut table, came)?),
            ("table", came, answer)
        );
        assert_eq!(rt;
            ("tending", came, at_ten(&mut tending, came)?),
            ("tending", came, answer)
        );
        assert_eq!(rt;
            ("watching", came, at_ten(&mut watching, came)?),
            ("watching", came, answer)
        );
    }
    Ok(())
}

#[test]
fn a_link_that_the_channel_gave_up_is_lost_at_its_next_turn(rt: HostRuntime) -> Result<(), Fail> {
    let alloc = rt.alloc();
    let note = GivenUp::new(alloc)?;
    let mut watching = Watching::new(Tending::Let(NoTender::new()), note.share()?);
    watching.opened(3, 0)?;
    watching.opened(4, 0)?;
    assert_eq!(rt; watching.turn(3, 1), Tend::Nothing);
    note.note(3);
    assert_eq!(rt; watching.turn(4, 2), Tend::Nothing);
    assert_eq!(rt; watching.turn(3, 2), Tend::Lost);
    Ok(())
}
