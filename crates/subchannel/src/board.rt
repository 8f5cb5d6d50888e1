// All subchannels that a channel made.
ghost use Rattle.std.specs.Prelude.{◌≡◌, ◌≤◌, ◌<◌, ◌↔◌, [], length, Some, None, OnOk, OnErr, IfOk, IsErr, IfSome, IfNone, false};
ghost use Rattle.std.specs.Option.{option_copied};
ghost use Rattle.grpc_base.specs.Limits.{moment_limit};
ghost use Rattle.subchannel.specs.Records.{wished, dialed, until_after, linked_up, failed, prefaced, lost, is_dialable, is_dialing, is_due};
ghost use Rattle.subchannel.specs.Boards.{numbered, HasNumber, changed_at, first_number, is_live_at, first_clocked, next_of_all, kept};
ghost use Rattle.subchannel.specs.Insides.{live_numbers};

use crate::keep::{live_after, new_subs, shut_unwanted};
use crate::next::next_of_live;
use crate::scan::{due_number, first_dialable, first_of_address, sub_at};
use crate::sub::{NotDialing, Subchannel};
use grpc_base::{Address, AddressList, Conn, NoMemory};
use std::alloc::Global;
use std::marker::Model;

/// The subchannels of a channel, numbered from 1 in the order of their making. A number is never used again.
///
/// Calls that look for a subchannel look at the live ones alone, however many were shut.
#[derive(Debug, Drop)]
pub struct Board {
    subs: Vec<Subchannel>,
    live: Vec<u32>,
}

impl Model for Board {
    ghost use Rattle.std.specs.Prelude.{List};
    ghost use Rattle.subchannel.specs.Records.{SubRecord};
    ghost use Rattle.subchannel.specs.Insides.{IsBoard};

    ghost Value = { List SubRecord };

    ghost view = { λ b. b.subs.items };

    ghost invariant = { λ b. IsBoard b.live.items b.subs.items };
}

impl Board {
    /// A board without subchannels.
    pub fn new(alloc: Global) -> Board
        ensures { result ≡ [] }
    {
        Board {
            subs: Vec::new(alloc),
            live: Vec::new(alloc),
        }
    }

    /// Shuts each subchannel whose address is in neither list, and makes one for each address that has no live
    /// one, those of `current` first. On out of memory the board is as before.
    pub fn keep(&mut self, current: &AddressList, pending: &AddressList) -> Result<(), NoMemory>
        requires { length self.old < 4000000000 }
        ensures ok { OnOk result (self.new ≡ kept current.now pending.now self.old) }
        ensures err { OnErr result (self.new ≡ self.old) }
    {
        let alloc = *self.subs.allocator();
        let mut added = new_subs(alloc, &self.subs, &self.live, current, pending)?;
        let live = live_after(alloc, &self.subs, &self.live, current, pending, added.len())?;
        self.subs.append(&mut added)?;
        shut_unwanted(&mut self.subs, &self.live, current, pending);
        self.live = live;
        Ok(())
    }

    /// How many subchannels were made.
    pub fn made(&self) -> u32
        ensures { result ≡ length self.now }
    {
        self.subs.len() as u32
    }

    /// The numbers of the subchannels that are not SHUTDOWN, rising.
    pub fn live(&self) -> &[u32]
        ensures { result.now ≡ live_numbers 1 self.now }
    {
        &self.live
    }

    /// The live subchannel of an address; None exactly where it has none.
    pub fn find(&self, address: Address) -> Option<u32>
        ensures { result ≡ first_number (is_live_at address) self.now }
    {
        first_of_address(&self.subs, &self.live, address)
    }

    /// The subchannel of a number; None exactly where none has it.
    pub fn at(&self, sub: u32) -> Option<&Subchannel>
        ensures { option_copied result ≡ numbered self.now sub }
    {
        sub_at(&self.subs, sub)
    }

    /// A policy wishes this subchannel connected.
    pub fn wished(&mut self, sub: u32)
        requires { HasNumber self.old sub }
        ensures { self.new ≡ changed_at wished self.old sub }
    {
        let chosen = &mut self.subs[sub as usize - 1];
        chosen.wished();
    }

    /// Takes the dial of this subchannel at a moment, and reports when it is given up.
    pub fn dial(&mut self, sub: u32, moment: u64, word: u64) -> Result<u64, NotDialing>
        requires number { HasNumber self.old sub }
        requires moment { moment ≤ moment_limit }
        ensures after { self.new ≡ changed_at (dialed moment word) self.old sub }
        ensures until { IfSome (numbered self.old sub) (λ s. IfOk result (λ t. t ≡ until_after s moment word)) }
        ensures refused { IfSome (numbered self.old sub) (λ s. IsErr result ↔ (is_dialable s ≡ false)) }
    {
        let chosen = &mut self.subs[sub as usize - 1];
        chosen.dial(moment, word)
    }

    /// The dial of this subchannel is a link.
    pub fn up(&mut self, sub: u32) -> Result<(), NotDialing>
        requires { HasNumber self.old sub }
        ensures after { self.new ≡ changed_at linked_up self.old sub }
        ensures refused { IfSome (numbered self.old sub) (λ s. IsErr result ↔ (is_dialing s ≡ false)) }
    {
        let chosen = &mut self.subs[sub as usize - 1];
        chosen.up()
    }

    /// The dial of this subchannel failed.
    pub fn failed(&mut self, sub: u32)
        requires { HasNumber self.old sub }
        ensures { self.new ≡ changed_at failed self.old sub }
    {
        let chosen = &mut self.subs[sub as usize - 1];
        chosen.failed();
    }

    /// The server's first SETTINGS came on the link of this subchannel.
    pub fn ready(&mut self, sub: u32)
        requires { HasNumber self.old sub }
        ensures { self.new ≡ changed_at prefaced self.old sub }
    {
        let chosen = &mut self.subs[sub as usize - 1];
        chosen.ready();
    }

    /// The link of this subchannel is lost, broken or retiring.
    pub fn lost(&mut self, sub: u32)
        requires { HasNumber self.old sub }
        ensures { self.new ≡ changed_at lost self.old sub }
    {
        let chosen = &mut self.subs[sub as usize - 1];
        chosen.lost();
    }

    /// Makes the first change, by number, that the clock has made due by this moment, and reports the state reached.
    pub fn clock(&mut self, moment: u64) -> Option<(u32, Conn)>
        requires { moment ≤ moment_limit }
        ensures after { self.new ≡ first_clocked moment self.old }
        ensures some { IfSome result (λ r. first_number (is_due moment) self.old ≡ Some r.0) }
        ensures state { IfSome result (λ r. IfSome (numbered self.new r.0) (λ s. s.state ≡ r.1)) }
        ensures none { IfNone result (first_number (is_due moment) self.old ≡ None) }
    {
        let number = due_number(&self.subs, &self.live, moment)?;
        let chosen = &mut self.subs[number as usize - 1];
        chosen.clock(moment);
        Some((number, chosen.state()))
    }

    /// The lowest-numbered CONNECTING subchannel whose dial is not taken; None exactly where there is none.
    pub fn dialable(&self) -> Option<u32>
        ensures { result ≡ first_number is_dialable self.now }
    {
        first_dialable(&self.subs, &self.live)
    }

    /// The least moment at which `clock` has something to change; None exactly where there is none.
    pub fn next(&self) -> Option<u64>
        ensures { result ≡ next_of_all self.now }
    {
        next_of_live(&self.subs, &self.live)
    }
}
