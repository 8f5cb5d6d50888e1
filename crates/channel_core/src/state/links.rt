// The links of a channel.
ghost use Rattle.std.specs.Borrow.{sem};
ghost use Rattle.std.specs.Option.{option_copied, option_copied_mut, option_map};
ghost use Rattle.std.specs.Prelude.{◌≡◌, ◌<◌, ◌≤◌, ◌+◌, ◌++◌, ◌∷◌, ℕ, [], Some, min, true, length, IfOk, IfSome, OnOk, if◌then◌else◌};
ghost use Rattle.channel_core.specs.Lending.{lends_link};
ghost use Rattle.channel_core.specs.Tables.{DrainGives, SlotGives, arrival_at, arrival_of, marked_dead_in, can_drain_at, fresh_link, received_in, received_link, receives_at, is_dead, is_retiring, links_received, new_slot, numbered, pinged_in, placed_in, placed_link, reset_in, retired_in, sealed_in, takes_rows, takes_rows_at, with_link};

use grpc_base::NoMemory;
use grpc_base::error_code::CANCEL;
use grpc_link::{GrpcArrival, GrpcLink};
use h2_link::{DrainFault, Drained, Feed, LinkFault, PlaceFault};
use std::alloc::Global;
use std::marker::Model;

/// A link, whether it is lost, broken or timed out, and whether the peer's GOAWAY retired it.
#[derive(Drop)]
pub struct LinkSlot {
    link: GrpcLink,
    dead: bool,
    retiring: bool,
}

impl LinkSlot {
    fn place(&mut self, row: u64, limit: u32) -> Result<bool, NoMemory>
        ensures answer { IfOk result (λ placed. placed ≡ takes_rows_at (Some self.old)) }
        ensures after { OnOk result (self.new ≡ (if takes_rows_at (Some self.old) then with_link (placed_link row limit) self.old else self.old)) }
    {
        match self.link.place(row, limit) {
            Ok(()) => Ok(true),
            Err(PlaceFault::Gone) => Ok(false),
            Err(PlaceFault::NoMemory) => Err(NoMemory),
        }
    }

    fn arrived(&mut self, piece: &[u8]) -> Result<Option<GrpcArrival>, NoMemory>
        requires { 0 < length piece.now }
        ensures arrival { IfOk result (λ a. a ≡ arrival_at piece.now (Some self.old)) }
        ensures within { IfOk result (λ a. IfSome a (λ a. (1 ≤ a.taken) × (a.taken ≤ length piece.now))) }
        ensures after { OnOk result (self.new ≡ (if receives_at (Some self.old) then with_link (received_link piece.now) self.old else self.old)) }
    {
        if self.dead {
            return Ok(None);
        }
        match self.link.arrived(piece) {
            Ok(arrival) => Ok(Some(arrival)),
            Err(LinkFault::Gone) => Ok(None),
            Err(LinkFault::NoMemory) => Err(NoMemory),
        }
    }

    #[tactic(auto, using(crate::proofs::Feeds::holds_all))]
    fn drain<F: Feed>(&mut self, room: u32, feed: &mut F) -> Result<Option<Drained>, NoMemory>
        requires { (t : ℕ) → (F.lines feed.old t).held ≡ true }
        ensures drains { IfOk result (λ d. SlotGives room self.old (F.lines feed.old) d self.new (F.lines feed.new)) }
        ensures same { F.same feed.old feed.new }
    {
        match self.link.drain(room, feed) {
            Ok(drained) => Ok(Some(drained)),
            Err(DrainFault::Gone | DrainFault::RoomTooSmall) => Ok(None),
            Err(DrainFault::NoMemory) => Err(NoMemory),
        }
    }
}

/// The links of a channel, numbered from 1. What names no link changes nothing.
#[derive(Drop)]
pub struct LinkTable {
    alloc: Global,
    slots: Vec<LinkSlot>,
}

impl Model for LinkTable {
    ghost use Rattle.std.specs.Prelude.{List};
    ghost use Rattle.channel_core.specs.declared.state.links.LinkSlot.{LinkSlot};

    ghost Value = { List LinkSlot };

    ghost view = { λ t. t.slots.items };
}

impl LinkTable {
    pub fn new(alloc: Global) -> LinkTable
        ensures { result ≡ [] }
    {
        LinkTable {
            alloc,
            slots: Vec::new(alloc),
        }
    }

    /// A link comes up.
    pub fn add(&mut self) -> Result<(), NoMemory>
        ensures { OnOk result (self.new ≡ self.old ++ new_slot fresh_link ∷ []) }
    {
        let link = GrpcLink::new(self.alloc)?;
        self.slots.push(LinkSlot {
            link,
            dead: false,
            retiring: false,
        })?;
        Ok(())
    }

    /// The number of the next link; 4,294,967,295 where there were as many.
    pub fn next_number(&self) -> u32
        ensures { result ≡ min (length self.now + 1) 4294967295 }
    {
        let count = self.slots.len().min(u32::MAX as usize) as u32;
        count.saturating_add(1)
    }

    /// The link of a number.
    pub fn get(&self, link: u32) -> Option<&LinkSlot>
        ensures { option_copied result ≡ numbered self.now link }
    {
        self.slots.get((link as usize).checked_sub(1)?)
    }

    fn get_mut(&mut self, link: u32) -> Option<&mut LinkSlot>
        ensures* writes_back { sem 𝓛 (lends_link self.entry link result) }
        ensures slot { option_copied_mut result ≡ numbered self.old link }
    {
        let index = (link as usize).checked_sub(1)?;
        self.slots.get_mut(index)
    }

    /// Whether the link is lost, broken or timed out, or there is none.
    pub fn is_dead(&self, link: u32) -> bool
        ensures { result ≡ is_dead self.now link }
    {
        self.get(link).is_none_or(|slot| slot.dead)
    }

    /// Whether the peer's GOAWAY retired the link, or there is none.
    pub fn is_retiring(&self, link: u32) -> bool
        ensures { result ≡ is_retiring self.now link }
    {
        self.get(link).is_none_or(|slot| slot.retiring)
    }

    #[tactic(auto, using(crate::proofs::Places::put_changed, crate::proofs::Places::none_changed))]
    pub fn mark_dead(&mut self, link: u32)
        ensures { self.new ≡ marked_dead_in link self.old }
    {
        if let Some(slot) = self.get_mut(link) {
            slot.dead = true;
        }
    }

    #[tactic(auto, using(crate::proofs::Places::put_changed, crate::proofs::Places::none_changed))]
    pub fn retire(&mut self, link: u32)
        ensures { self.new ≡ retired_in link self.old }
    {
        if let Some(slot) = self.get_mut(link) {
            slot.retiring = true;
        }
    }

    /// Whether the attempt may be placed, and then it is.
    pub fn place(&mut self, link: u32, row: u64, limit: u32) -> Result<bool, NoMemory>
        ensures answer { IfOk result (λ placed. placed ≡ takes_rows link self.old) }
        ensures after { OnOk result (self.new ≡ placed_in link row limit self.old) }
    {
        match self.get_mut(link) {
            Some(slot) => slot.place(row, limit),
            None => Ok(false),
        }
    }

    /// Gives up the attempt of a row.
    #[tactic(auto, using(crate::proofs::Places::put_on, crate::proofs::Places::none_changed))]
    pub fn reset(&mut self, link: u32, row: u64) -> Result<(), NoMemory>
        ensures { OnOk result (self.new ≡ reset_in link row self.old) }
    {
        match self.get_mut(link) {
            Some(slot) => slot.link.reset(row, CANCEL),
            None => Ok(()),
        }
    }

    /// The effects of the link's last frame are complete.
    #[tactic(auto, using(crate::proofs::Places::put_changed, crate::proofs::Places::none_changed))]
    pub fn seal(&mut self, link: u32)
        ensures { self.new ≡ sealed_in link self.old }
    {
        if let Some(slot) = self.get_mut(link) {
            slot.link.seal();
        }
    }

    #[tactic(auto, using(crate::proofs::Places::put_on, crate::proofs::Places::none_changed))]
    pub fn ping(&mut self, link: u32, word: u64) -> Result<(), NoMemory>
        ensures { OnOk result (self.new ≡ pinged_in link word self.old) }
    {
        match self.get_mut(link) {
            Some(slot) => slot.link.ping(word),
            None => Ok(()),
        }
    }

    /// Hands the link the next bytes, at least one; None where it is dead or broken, or there is none.
    pub fn arrived(&mut self, link: u32, piece: &[u8]) -> Result<Option<GrpcArrival>, NoMemory>
        requires { 0 < length piece.now }
        ensures arrival { IfOk result (λ a. a ≡ option_map arrival_of (received_in link piece.now self.old)) }
        ensures within { IfOk result (λ a. IfSome a (λ a. (1 ≤ a.taken) × (a.taken ≤ length piece.now))) }
        ensures after { OnOk result (self.new ≡ links_received self.old (received_in link piece.now self.old)) }
    {
        match self.get_mut(link) {
            Some(slot) => slot.arrived(piece),
            None => Ok(None),
        }
    }

    /// Whole frames within the room, as many as fit; None where the link is broken, there is none, or the room is below 16,393
    /// bytes.
    pub fn drain<F: Feed>(
        &mut self,
        link: u32,
        room: u32,
        feed: &mut F,
    ) -> Result<Option<Drained>, NoMemory>
        requires { (t : ℕ) → (F.lines feed.old t).held ≡ true }
        ensures drains { IfOk result (λ d. DrainGives room self.old link (F.lines feed.old) d self.new (F.lines feed.new)) }
        ensures same { F.same feed.old feed.new }
    {
        match self.get_mut(link) {
            Some(slot) => slot.drain(room, feed),
            None => Ok(None),
        }
    }

    /// Whether a drain of the link with room enough would give something.
    #[tactic(auto, using(crate::proofs::Feeds::holds_all))]
    pub fn can_drain<F: Feed>(&self, link: u32, feed: &F) -> bool
        requires { (t : ℕ) → (F.lines feed.now t).held ≡ true }
        ensures { result ≡ can_drain_at (F.lines feed.now) (numbered self.now link) }
    {
        match self.get(link) {
            Some(slot) => slot.link.can_drain(feed),
            None => false,
        }
    }
}
