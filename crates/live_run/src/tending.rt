// What watches over the links of a live run.
ghost use Rattle.std.specs.Prelude.{◌≡◌, None, Some, []};
ghost use Rattle.keepalive_core.specs.Keepalive.{IsKeepRule};
ghost use Rattle.keepalive_core.specs.declared.rule.KeepRule.{KeepRule};
ghost use Rattle.live_run.specs.declared.tending.Tending.TheVariants as tending;

use grpc_base::{NoMemory, NoTender, Tend, TendTurn, Tender};
use keepalive_core::{KeepRule, KeepTable};
use std::alloc::Global;

/// A table of keepalives, or none.
#[derive(Debug, Drop)]
pub enum Tending {
    Keep(KeepTable),
    Let(NoTender),
}

impl Tending {
    /// Keepalives by this rule; none where there is no rule, or where `KeepTable` takes none such.
    pub fn new(alloc: Global, rule: Option<KeepRule>) -> Tending
        ensures none { rule ≡ None → result ≡ tending.Let (record { turns = 0; last = None }) }
        ensures some { (r : KeepRule) → rule ≡ Some r → IsKeepRule r → result ≡ tending.Keep (record { rule = r; links = []; turns = 0; last = None }) }
    {
        match rule {
            Some(rule) => keeping(alloc, rule),
            None => Tending::Let(NoTender::new()),
        }
    }
}

/// Keepalives by a rule.
fn keeping(alloc: Global, rule: KeepRule) -> Tending
    ensures { IsKeepRule rule → result ≡ tending.Keep (record { rule = rule; links = []; turns = 0; last = None }) }
{
    match KeepTable::new(alloc, rule) {
        Ok(table) => Tending::Keep(table),
        Err(_) => Tending::Let(NoTender::new()),
    }
}

impl Tender for Tending {
    ghost use Rattle.live_run.specs.Tendings.{last_of, turns_of};

    ghost turns = { λ t. turns_of t };

    ghost last_turn = { λ t. last_of t };

    fn opened(&mut self, link: u32, moment: u64) -> Result<(), NoMemory> {
        match self {
            Tending::Keep(table) => table.opened(link, moment),
            Tending::Let(tender) => tender.opened(link, moment),
        }
    }

    fn heard(&mut self, link: u32, moment: u64) {
        match self {
            Tending::Keep(table) => table.heard(link, moment),
            Tending::Let(tender) => tender.heard(link, moment),
        }
    }

    fn turn(&mut self, link: u32, moment: u64) -> Tend {
        match self {
            Tending::Keep(table) => table.turn(link, moment),
            Tending::Let(tender) => tender.turn(link, moment),
        }
    }
}
