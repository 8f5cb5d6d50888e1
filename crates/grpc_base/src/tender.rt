// What watches over the links that a worker keeps open.
ghost use Rattle.std.specs.Prelude.{◌≡◌, ◌≤◌, ℕ, Option, Some, None};
ghost use Rattle.grpc_base.specs.Counts.{one_more};
ghost use Rattle.grpc_base.specs.Limits.{moment_limit};
ghost use Rattle.grpc_base.specs.declared.tender.Tend.TheVariants as tend;
ghost use Rattle.grpc_base.specs.declared.tender.TendTurn.{TendTurn};

use crate::NoMemory;

/// What is to be done about a link.
#[derive(Clone, Copy, Debug, PartialEq, Eq)]
pub enum Tend {
    Nothing,
    /// A PING with this number is to be sent.
    Ping { word: u64 },
    /// The link is to be given up.
    Lost,
}

/// A turn of a tender: the link, the moment and the answer.
#[derive(Clone, Copy, Debug, PartialEq, Eq)]
pub struct TendTurn {
    pub link: u32,
    pub moment: u64,
    pub answer: Tend,
}

/// Watches over links: it is notified when one opens and when bytes come, and is asked what is to be done.
/// Moments are in nanoseconds, at most 4,000,000,000,000,000,000.
pub trait Tender {
    /// How many turns there were.
    ghost turns: { Self → ℕ };

    /// The last turn.
    ghost last_turn: { Self → Option TendTurn };

    /// A link was opened.
    fn opened(&mut self, link: u32, moment: u64) -> Result<(), NoMemory>
        requires { moment ≤ moment_limit }
        ensures turns { (turns self.new ≡ turns self.old) × (last_turn self.new ≡ last_turn self.old) };

    /// Bytes came on a link.
    fn heard(&mut self, link: u32, moment: u64)
        requires { moment ≤ moment_limit }
        ensures turns { (turns self.new ≡ turns self.old) × (last_turn self.new ≡ last_turn self.old) };

    /// What is to be done about a link now.
    fn turn(&mut self, link: u32, moment: u64) -> Tend
        requires { moment ≤ moment_limit }
        ensures turns { (turns self.new ≡ one_more (turns self.old)) × (last_turn self.new ≡ Some (record { link = link; moment = moment; answer = result })) };
}

/// A tender that lets every link be.
#[derive(Clone, Copy, Debug, Default)]
pub struct NoTender {
    /// How many turns there were; the count stands still at its type's end.
    pub turns: u64,
    /// The last turn.
    pub last: Option<TendTurn>,
}

impl NoTender {
    /// A tender that had no turn.
    pub fn new() -> NoTender
        ensures { result ≡ record { turns = 0; last = None } }
    {
        NoTender {
            turns: 0,
            last: None,
        }
    }
}

impl Tender for NoTender {
    ghost turns = { λ t. t.turns };

    ghost last_turn = { λ t. t.last };

    fn opened(&mut self, _link: u32, _moment: u64) -> Result<(), NoMemory> {
        Ok(())
    }

    fn heard(&mut self, _link: u32, _moment: u64) {}

    fn turn(&mut self, link: u32, moment: u64) -> Tend
        requires { moment ≤ moment_limit }
        ensures turns { (self.new.turns ≡ one_more self.old.turns) × (self.new.last ≡ Some (record { link = link; moment = moment; answer = result })) }
        ensures nothing { result ≡ tend.Nothing }
    {
        self.turns = self.turns.saturating_add(1);
        self.last = Some(TendTurn {
            link,
            moment,
            answer: Tend::Nothing,
        });
        Tend::Nothing
    }
}
