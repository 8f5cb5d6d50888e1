// What watches over the links of a live run: keepalives, and which links the channel has given up.
use crate::Tending;
use gate_io::GivenUp;
use grpc_base::{NoMemory, Tend, TendTurn, Tender};

/// Watches over the links of one worker. A link that the channel has given up is lost at its next turn, so that it is closed at once and not
/// only when its peer closes it; all others are as the tending says.
#[derive(Drop)]
pub struct Watching {
    tending: Tending,
    given_up: GivenUp,
    /// How many turns there were; the count stands still at its type's end.
    turns: u64,
    /// The last turn.
    last: Option<TendTurn>,
}

impl Watching {
    /// Tends links so, and reads of this note which are given up.
    pub fn new(tending: Tending, given_up: GivenUp) -> Watching {
        Watching {
            tending,
            given_up,
            turns: 0,
            last: None,
        }
    }
}

impl Tender for Watching {
    ghost turns = { λ w. w.turns };

    ghost last_turn = { λ w. w.last };

    fn opened(&mut self, link: u32, moment: u64) -> Result<(), NoMemory> {
        self.tending.opened(link, moment)
    }

    fn heard(&mut self, link: u32, moment: u64) {
        self.tending.heard(link, moment);
    }

    fn turn(&mut self, link: u32, moment: u64) -> Tend {
        let answer = if self.given_up.has(link) {
            Tend::Lost
        } else {
            self.tending.turn(link, moment)
        };
        self.turns = self.turns.saturating_add(1);
        self.last = Some(TendTurn {
            link,
            moment,
            answer,
        });
        answer
    }
}
