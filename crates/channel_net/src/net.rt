// The net of a channel: its subchannels, the policies that use them, and their links.
ghost use Rattle.std.specs.Prelude.{◌≡◌, map, true, None, Some, is_some, IfOk, IfErr, OnOk, OnErr};
ghost use Rattle.std.specs.Option.{option_map};
ghost use Rattle.grpc_base.specs.Kinds.{has_kind};
ghost use Rattle.policy_rack.specs.Kinds.{are_ready, first_place, kinds_of};
ghost use Rattle.policy_rack.specs.Steps.{may_take_over};
ghost use Rattle.subchannel.specs.Records.{is_dialable, is_due};
ghost use Rattle.subchannel.specs.Boards.{first_number, next_of_all, numbered};
ghost use Rattle.channel_net.specs.Lists as lists;
ghost use Rattle.channel_net.specs.Steps as steps;

use crate::asker::Asker;
use crate::boards::{
    dial_at, dial_refusal, fail_at, is_idle_at, lose_at, ready_at, state_at, up_at, wish_at,
};
use crate::fault::LinkFault;
use crate::generations::{activate_live, begin_generation, drop_pending, is_numbered, retire_live};
use crate::links::{OwnLink, forget, forget_shut, link_in, push_link, shut_in};
use crate::replies::{Asked, Dialing};
use crate::view::{copied, view_of};
use attempt_ledger::Generation;
use grpc_base::{Address, AddressList, Conn, Items, Kind, KindSet, Moment, NoMemory, Refusal};
use lb_policy::Balancer;
use std::alloc::Global;
use std::marker::Model;
use std::mem;
use subchannel::Board;

/// The subchannels of a channel with their links, and the generations of policies that use them
/// ("gRPC Connectivity Semantics and API"; "Load Balancing in gRPC").
///
/// A change of a subchannel's state is reported to the live policies at once. After each event `clock` and then `settle` are
/// to be called.
#[derive(Drop)]
pub struct Net<P: Balancer> {
    alloc: Global,
    asker: Asker<P>,
    board: Board,
    current: AddressList,
    pending: AddressList,
    links: Vec<OwnLink>,
}

impl<P: Balancer> Model for Net<P> {
    ghost use Rattle.channel_net.specs.Steps.{NetSeen};

    ghost Value = { NetSeen };

    ghost view = { λ n. record { asker = n.asker; board = n.board; current = n.current; pending = n.pending; links = n.links.items } };
}

/// The most subchannels, and the most generations, after which a further list of addresses is answered as out of memory.
const MOST: u32 = 4_000_000_000;

impl<P: Balancer> Net<P> {
    /// A net of these policies, without subchannels.
    pub fn new(alloc: Global, policies: Vec<P>) -> Net<P>
        requires { are_ready (map P.seen policies.items) ≡ true }
        ensures { result ≡ steps.new_net (map P.seen policies.items) }
    {
        Net {
            alloc,
            asker: Asker::new(policies),
            board: Board::new(alloc),
            current: AddressList::new(),
            pending: AddressList::new(),
            links: Vec::new(alloc),
        }
    }

    /// The kinds of the policies.
    pub fn kinds(&self) -> KindSet
        ensures { result ≡ kinds_of self.now.asker.rack.policies }
    {
        self.asker.kinds()
    }

    /// Takes the addresses of a valid result of the resolver for the policy of a kind. They go to the current generation
    /// of that kind, which drops a pending one, or to the pending one of that kind, or to a new one. Answers the links of
    /// the subchannels that are SHUTDOWN by it. A kind that no policy has changes nothing.
    pub fn resolved(
        &mut self,
        kind: Kind,
        addresses: &AddressList,
        generations: &mut Items<Generation>,
        entry: u64,
    ) -> Result<Items<u32>, NoMemory>
        ensures after { OnOk result (self.new ≡ steps.net_resolved kind addresses.now self.old) }
        ensures stamps { OnOk result (generations.new ≡ steps.resolved_stamps entry kind self.old self.new generations.old) }
        ensures shut { IfOk result (λ links. links ≡ steps.resolved_shut kind addresses.now self.old) }
    {
        if self.kinds().has(kind) {
            self.take_result(kind, addresses, generations, entry)
        } else {
            Ok(Items::new(self.alloc))
        }
    }

    fn take_result(
        &mut self,
        kind: Kind,
        addresses: &AddressList,
        generations: &mut Items<Generation>,
        entry: u64,
    ) -> Result<Items<u32>, NoMemory>
        requires { has_kind (kinds_of self.old.asker.rack.policies) kind ≡ true }
        ensures after { OnOk result (self.new ≡ steps.net_taken kind addresses.now self.old) }
        ensures stamps { OnOk result (generations.new ≡ steps.taken_stamps entry kind self.old self.new generations.old) }
        ensures shut { IfOk result (λ links. links ≡ steps.kept_shut (steps.listed kind addresses.now self.old)) }
    {
        self.take_list(kind, addresses);
        let shut = self.keep()?;
        self.adopt(kind, addresses, generations, entry)?;
        Ok(shut)
    }

    fn take_list(&mut self, kind: Kind, addresses: &AddressList)
        ensures { self.new ≡ steps.listed kind addresses.now self.old }
    {
        if self.is_for_current(kind) {
            self.current = copied(addresses);
            self.pending = AddressList::new();
        } else {
            self.pending = copied(addresses);
        }
    }

    /// Whether a result of this kind goes to the current generation.
    fn is_for_current(&self, kind: Kind) -> bool
        ensures { result ≡ steps.is_for_current kind self.now.asker.rack }
    {
        match self.asker.current() {
            Some((_, current)) => current == kind,
            None => true,
        }
    }

    /// Keeps a live subchannel for each address of the two lists, and no other, and answers the links of those shut.
    pub(crate) fn keep(&mut self) -> Result<Items<u32>, NoMemory>
        ensures after { OnOk result (self.new ≡ steps.net_kept self.old) }
        ensures shut { IfOk result (λ links. links ≡ steps.kept_shut self.old) }
    {
        if self.board.made() >= MOST {
            return Err(NoMemory);
        }
        self.board.keep(&self.current, &self.pending)?;
        let shut = shut_in(self.alloc, &self.links, &self.board)?;
        forget_shut(&mut self.links, &self.board);
        Ok(shut)
    }

    /// Gives the policy of a kind its view, and stamps the generations.
    fn adopt(
        &mut self,
        kind: Kind,
        addresses: &AddressList,
        generations: &mut Items<Generation>,
        entry: u64,
    ) -> Result<(), NoMemory>
        requires { has_kind (kinds_of self.old.asker.rack.policies) kind ≡ true }
        ensures after { OnOk result (self.new ≡ steps.net_adopted kind addresses.now self.old) }
        ensures stamps { OnOk result (generations.new ≡ steps.taken_stamps entry kind self.old self.new generations.old) }
    {
        if self.asker.made() >= MOST {
            return Err(NoMemory);
        }
        let list = copied(addresses);
        let view = view_of(self.alloc, &self.board, &list)?;
        let pending = self.asker.pending();
        let made = self.asker.made();
        let generation = self.asker.adopt(kind, &view);
        drop_pending(generations, pending, generation, entry);
        if generation > made {
            let is_current = is_numbered(self.asker.current(), generation);
            begin_generation(generations, kind, generation, is_current, entry)?;
        }
        Ok(())
    }

    /// Takes the dial of the lowest-numbered CONNECTING subchannel that is not dialled; None exactly where there is none.
    /// The word spreads the wait of a further dial.
    pub fn dial(&mut self, moment: Moment, word: u64) -> Option<Dialing>
        ensures after { self.new ≡ steps.net_dialed moment word self.old }
        ensures answer { result ≡ steps.dial_answer moment word self.old }
    {
        match self.board.dialable() {
            Some(sub) => dial_at(&mut self.board, sub, moment, word),
            None => None,
        }
    }

    /// The dial of a subchannel is this link.
    pub fn up(&mut self, sub: u32, link: u32) -> Result<(), LinkFault>
        ensures after { OnOk result (self.new ≡ steps.net_up sub link self.old) }
        ensures taken { OnOk result (steps.dial_refusal (numbered self.old.board sub) ≡ None) }
        ensures refused { IfErr result (λ e. steps.LinkFaultIs (steps.dial_refusal (numbered self.old.board sub)) self.old self.new e) }
    {
        if let Some(refusal) = dial_refusal(&self.board, sub) {
            return Err(LinkFault::Refused(refusal));
        }
        if self.links.push(OwnLink { sub, link }).is_err() {
            return Err(LinkFault::NoMemory);
        }
        up_at(&mut self.board, sub);
        Ok(())
    }

    /// The dial of a subchannel failed.
    pub fn dial_failed(&mut self, sub: u32) -> Result<(), Refusal>
        ensures after { OnOk result (self.new ≡ steps.net_dial_failed sub self.old) }
        ensures taken { OnOk result (steps.dial_refusal (numbered self.old.board sub) ≡ None) }
        ensures refused { IfErr result (λ e. steps.dial_refusal (numbered self.old.board sub) ≡ Some e) }
        ensures unchanged { OnErr result (self.new ≡ self.old) }
    {
        if let Some(refusal) = dial_refusal(&self.board, sub) {
            return Err(refusal);
        }
        fail_at(&mut self.board, sub);
        self.report(sub);
        Ok(())
    }

    /// The server's first SETTINGS came on this link: its subchannel is READY. Nothing changes where the link is not the
    /// subchannel's own.
    pub fn ready(&mut self, sub: u32, link: u32)
        ensures { self.new ≡ steps.net_ready sub link self.old }
    {
        if self.owns(sub, link) {
            ready_at(&mut self.board, sub);
            self.report(sub);
        }
    }

    /// This link is lost, broken or retiring. Nothing changes where it is not the subchannel's own.
    pub fn down(&mut self, sub: u32, link: u32)
        ensures { self.new ≡ steps.net_down sub link self.old }
    {
        if self.owns(sub, link) {
            lose_at(&mut self.board, sub);
            forget(&mut self.links, sub);
            self.report(sub);
        }
    }

    fn owns(&self, sub: u32, link: u32) -> bool
        ensures { result ≡ steps.owns sub link self.now }
    {
        match link_in(&self.links, sub) {
            Some(own) => own == link,
            None => false,
        }
    }

    /// reports to the live policies the state of a subchannel.
    fn report(&mut self, sub: u32)
        ensures { self.new ≡ steps.net_reported sub self.old }
    {
        if let Some(state) = state_at(&self.board, sub) {
            self.asker.note(sub, state);
        }
    }

    /// Gives up the dials, and ends the backoffs, that are over by a moment, by subchannel number. Answers the links of
    /// subchannels whose dial was given up; those links are dead.
    pub fn clock(&mut self, moment: Moment) -> Result<Items<u32>, NoMemory>
        ensures { IfOk result (λ dead. steps.left self.new dead ≡ steps.net_clocked moment self.old) }
    {
        let mut dead = Items::new(self.alloc);
        'clocks: while self.clock_one(moment, &mut dead)? {}
        Ok(dead)
    }

    /// Makes the first change, by number, that the clock has made due, and reports whether there was one. A link that was
    /// given up goes to the list.
    fn clock_one(&mut self, moment: Moment, dead: &mut Items<u32>) -> Result<bool, NoMemory>
        ensures after { OnOk result (steps.left self.new dead.new ≡ steps.clock_round moment (steps.left self.old dead.old)) }
        ensures changed { IfOk result (λ b. b ≡ is_some (first_number (is_due moment) self.old.board)) }
    {
        let Some((sub, _)) = self.board.clock(moment.nanos()) else {
            return Ok(false);
        };
        push_link(dead, link_in(&self.links, sub))?;
        forget(&mut self.links, sub);
        self.report(sub);
        Ok(true)
    }

    /// Asks the current policy, which is one turn of it. None exactly where there is no current generation, or after
    /// 2^64 - 1 requests.
    pub fn ask(&mut self) -> Option<Asked>
        ensures after { self.new ≡ steps.net_asked self.old }
        ensures answer { result ≡ steps.net_answer self.old }
    {
        self.asker.ask()
    }

    /// Retires every generation, and so shuts every subchannel. Answers their links.
    pub fn shut(
        &mut self,
        generations: &mut Items<Generation>,
        entry: u64,
    ) -> Result<Items<u32>, NoMemory>
        ensures after { IfOk result (λ links. steps.left self.new links ≡ steps.net_shut self.old) }
        ensures stamps { OnOk result (generations.new ≡ steps.shut_stamps entry self.old.asker.rack generations.old) }
    {
        retire_live(generations, self.asker.current(), entry);
        retire_live(generations, self.asker.pending(), entry);
        self.asker.retire_all();
        self.current = AddressList::new();
        self.pending = AddressList::new();
        self.keep()
    }

    /// The state of the current generation; None exactly where there is none.
    pub fn state(&self) -> Option<Conn>
        ensures { result ≡ steps.net_state self.now }
    {
        self.asker.state()
    }

    /// The link of a subchannel, while it is the subchannel's own.
    pub fn link_of(&self, sub: u32) -> Option<u32>
        ensures { result ≡ lists.link_of self.now.links sub }
    {
        link_in(&self.links, sub)
    }

    /// The address of a subchannel; None exactly where none has this number.
    pub fn address_of(&self, sub: u32) -> Option<Address>
        ensures { result ≡ option_map (λ s. s.address) (numbered self.now.board sub) }
    {
        let sub = self.board.at(sub)?;
        Some(sub.address())
    }

    /// The state of a subchannel; None exactly where none has this number.
    pub fn state_of(&self, sub: u32) -> Option<Conn>
        ensures { result ≡ lists.state_at self.now.board sub }
    {
        state_at(&self.board, sub)
    }

    /// Whether a dial may be taken.
    pub fn dialable(&self) -> bool
        ensures { result ≡ is_some (first_number is_dialable self.now.board) }
    {
        self.board.dialable().is_some()
    }

    /// The least moment at which `clock` has something to change; None exactly where there is none.
    pub fn next(&self) -> Option<u64>
        ensures { result ≡ next_of_all self.now.board }
    {
        self.board.next()
    }

    /// Lets a pending generation take over if it may, and connects the IDLE subchannels that are wished, until neither
    /// has anything to do. Answers the links of the subchannels that are SHUTDOWN by a take-over.
    pub fn settle(
        &mut self,
        generations: &mut Items<Generation>,
        entry: u64,
    ) -> Result<Items<u32>, NoMemory>
        ensures after { IfOk result (λ links. steps.left self.new links ≡ steps.net_settled self.old) }
        ensures stamps { OnOk result (generations.new ≡ steps.settled_stamps entry self.old generations.old) }
    {
        let mut shut = Items::new(self.alloc);
        // After a take-over no generation is pending, so two rounds reach the end.
        let _first = self.take_over(generations, entry, &mut shut)?;
        self.connect_wished();
        if self.take_over(generations, entry, &mut shut)? {
            self.connect_wished();
        }
        Ok(shut)
    }

    /// Lets a pending generation take over if it may, and reports whether it did. The list is then of the links that it
    /// shut.
    #[tactic(auto, using(crate::proofs::TakeOvers::none_takes_over))]
    fn take_over(
        &mut self,
        generations: &mut Items<Generation>,
        entry: u64,
        shut: &mut Items<u32>,
    ) -> Result<bool, NoMemory>
        ensures after { OnOk result (steps.left self.new shut.new ≡ steps.net_taken_over (steps.left self.old shut.old)) }
        ensures stamps { OnOk result (generations.new ≡ steps.taken_over_stamps entry self.old generations.old) }
        ensures moved { IfOk result (λ b. b ≡ may_take_over self.old.asker.rack) }
    {
        // Mostly no generation is pending, and then nothing further is looked at.
        if self.asker.pending().is_none() {
            return Ok(false);
        }
        self.take_over_pending(generations, entry, shut)
    }

    /// The same where a generation is pending.
    fn take_over_pending(
        &mut self,
        generations: &mut Items<Generation>,
        entry: u64,
        shut: &mut Items<u32>,
    ) -> Result<bool, NoMemory>
        ensures after { OnOk result (steps.left self.new shut.new ≡ steps.net_taken_over (steps.left self.old shut.old)) }
        ensures stamps { OnOk result (generations.new ≡ steps.taken_over_stamps entry self.old generations.old) }
        ensures moved { IfOk result (λ b. b ≡ may_take_over self.old.asker.rack) }
    {
        let current = self.asker.current();
        let pending = self.asker.pending();
        if !self.asker.take_over() {
            return Ok(false);
        }
        retire_live(generations, current, entry);
        activate_live(generations, pending, entry);
        self.current = mem::replace(&mut self.pending, AddressList::new());
        *shut = self.keep()?;
        Ok(true)
    }

    /// Connects the IDLE subchannels that are wished, until there is none.
    fn connect_wished(&mut self)
        ensures { self.new ≡ steps.net_connected self.old }
    {
        'wishes: loop {
            match self.first_wished() {
                Some(sub) => self.connect(sub),
                None => return,
            }
        }
    }

    fn connect(&mut self, sub: u32)
        ensures { self.new ≡ steps.connected_at (Some sub) self.old }
    {
        wish_at(&mut self.board, sub);
        self.asker.note(sub, Conn::Connecting);
    }

    /// The lowest-numbered IDLE subchannel that a live policy wishes connected.
    fn first_wished(&self) -> Option<u32>
        ensures { result ≡ steps.first_wished self.now }
    {
        self.board
            .live()
            .iter()
            .copied()
            .find(|sub| is_idle_and_wished(&self.board, &self.asker, *sub))
    }
}

fn is_idle_and_wished<P: Balancer>(board: &Board, asker: &Asker<P>, sub: u32) -> bool
    ensures { result ≡ steps.idle_and_wished_in board.now asker.now.rack sub }
{
    is_idle_at(board, sub) && asker.wished(sub)
}
