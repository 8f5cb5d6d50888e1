// The keepalives of the links that a worker keeps open.
ghost use Rattle.std.specs.Prelude.{◌≡◌, ◌≤◌, ◌↔◌, ◌++◌, ◌∷◌, [], ℕ, Err, IfOk, OnOk, OnErr, None, Some, length, slice_get, slice_set};
ghost use Rattle.grpc_base.specs.Counts.{one_more};
ghost use Rattle.grpc_base.specs.Limits.{moment_limit};
ghost use Rattle.keepalive_core.specs.Keepalive.{IsKeepRule, stand_after, stand_next};
ghost use Rattle.keepalive_core.specs.Table.{changed_in, opened_in, place_of, tend_in, tend_of, turned};
ghost use Rattle.keepalive_core.specs.declared.rule.KeepFault.TheVariants as fault;
ghost use Rattle.keepalive_core.specs.declared.rule.KeepKind.TheVariants as kind;

use crate::keepalive::is_rule;
use crate::{KeepFault, KeepRule, KeepTurn, Keepalive};
use grpc_base::{NoMemory, Tend, TendTurn, Tender};
use std::alloc::Global;
use std::marker::Model;

/// The keepalive of one link.
#[derive(Clone, Copy, Debug)]
pub struct KeptLink {
    link: u32,
    keep: Keepalive,
}

/// A tender with one keepalive for each link that was opened; about another link nothing is to be done.
#[derive(Debug, Drop)]
pub struct KeepTable {
    rule: KeepRule,
    links: Vec<KeptLink>,
    turns: u64,
    last: Option<TendTurn>,
}

impl Model for KeepTable {
    ghost use Rattle.keepalive_core.specs.Keepalive.{IsKeepRule};
    ghost use Rattle.keepalive_core.specs.TableSeen.{TableSeen};
    ghost use Rattle.keepalive_core.specs.declared.table.KeptLink.{KeptLink};

    ghost Value = { TableSeen KeptLink };

    ghost view = { λ t. record { rule = t.rule; links = t.links.items; turns = t.turns; last = t.last } };

    ghost invariant = { λ t. IsKeepRule t.rule };
}

impl KeepTable {
    /// A table with no link.
    pub fn new(alloc: Global, rule: KeepRule) -> Result<KeepTable, KeepFault>
        ensures ok { IfOk result (λ t. t ≡ record { rule = rule; links = []; turns = 0; last = None }) }
        ensures bad_rule { (result ≡ Err fault.BadRule) ↔ (IsKeepRule rule → ⊥) }
    {
        if !is_rule(rule) {
            return Err(KeepFault::BadRule);
        }
        Ok(KeepTable {
            rule,
            links: Vec::new(alloc),
            turns: 0,
            last: None,
        })
    }

    /// What the keepalive of a link says; nothing where the link was not opened.
    fn tend(&mut self, link: u32, moment: u64) -> Tend
        requires { moment ≤ moment_limit }
        ensures answer { result ≡ tend_in self.old.links link moment }
        ensures links { self.new.links ≡ changed_in link (turned moment) self.old.links }
        ensures same { (self.new.rule ≡ self.old.rule) × (self.new.turns ≡ self.old.turns) × (self.new.last ≡ self.old.last) }
    {
        let at = find(self.links.as_slice(), link);
        if at >= self.links.len() {
            return Tend::Nothing;
        }
        tend_of(self.links[at].keep.turn(moment))
    }
}

/// The place of a link, from 0; the number of links where it is not there.
fn find(links: &[KeptLink], link: u32) -> usize
    ensures { result ≡ place_of link links.now }
{
    let mut rest = links;
    let mut at = 0;
    while let [first, later @ ..] = rest {
        if first.link == link {
            return at;
        }
        at += 1;
        rest = later;
    }
    at
}

/// What a turn of a keepalive asks for.
fn tend_of(answer: KeepTurn) -> Tend
    ensures { result ≡ tend_of answer }
{
    match answer {
        KeepTurn::Nothing => Tend::Nothing,
        KeepTurn::SendPing { word } => Tend::Ping { word },
        KeepTurn::Lost { .. } => Tend::Lost,
    }
}

impl Tender for KeepTable {
    ghost turns = { λ t. t.turns };

    ghost last_turn = { λ t. t.last };

    fn opened(&mut self, link: u32, moment: u64) -> Result<(), NoMemory>
        requires { moment ≤ moment_limit }
        ensures turns { (self.new.turns ≡ self.old.turns) × (self.new.last ≡ self.old.last) }
        ensures links { OnOk result (self.new.links ≡ opened_in link (stand_after self.old.rule moment []) self.old.links) }
        ensures unopened { OnErr result (self.new.links ≡ self.old.links) }
        ensures rule { self.new.rule ≡ self.old.rule }
    {
        let keep = Keepalive::of_rule(self.rule, moment);
        let at = find(self.links.as_slice(), link);
        if at < self.links.len() {
            self.links[at].keep = keep;
            return Ok(());
        }
        self.links.push(KeptLink { link, keep })?;
        Ok(())
    }

    fn heard(&mut self, link: u32, moment: u64)
        requires { moment ≤ moment_limit }
        ensures turns { (self.new.turns ≡ self.old.turns) × (self.new.last ≡ self.old.last) }
        ensures links { self.new.links ≡ changed_in link (λ k. stand_next k kind.Octets moment) self.old.links }
        ensures rule { self.new.rule ≡ self.old.rule }
    {
        let at = find(self.links.as_slice(), link);
        if at < self.links.len() {
            self.links[at].keep.octets(moment);
        }
    }

    fn turn(&mut self, link: u32, moment: u64) -> Tend
        requires { moment ≤ moment_limit }
        ensures turns { (self.new.turns ≡ one_more self.old.turns) × (self.new.last ≡ Some (record { link = link; moment = moment; answer = result })) }
        ensures answer { result ≡ tend_in self.old.links link moment }
        ensures links { self.new.links ≡ changed_in link (turned moment) self.old.links }
        ensures rule { self.new.rule ≡ self.old.rule }
    {
        let answer = self.tend(link, moment);
        self.turns = self.turns.saturating_add(1);
        self.last = Some(TendTurn {
            link,
            moment,
            answer,
        });
        answer
    }
}
