// How the channel settles after an event, until nothing changes.
ghost use Rattle.std.specs.Prelude.{◌≡◌, false, IfOk, OnOk};
ghost use Rattle.channel_core.specs.Settling as settling;
ghost use Rattle.channel_core.specs.Steps as steps;
ghost use Rattle.channel_core.specs.Books.{limit_at, slot_at};
ghost use Rattle.channel_core.specs.Tables.{takes_rows};

use crate::state::State;
use crate::state::call_event::CallEvent;
use crate::state::timers::{first_pair, number_of, sort_calls, take_due};
use attempt_ledger::{Ask, News, Placed, RowCause};
use call_core::own_end;
use grpc_base::{Chosen, Code, Conn, EndCause, Items, NoMemory, Pick};
use lb_policy::Balancer;
use ledger_stamps::add_ask;
use picker_gate::Timers;
use std::alloc::Global;

/// More rounds than a settling can have, since each but the last makes or serves an attempt; and more attempts than a queue holds.
const MOST: u64 = u64::MAX;

impl<P: Balancer> State<P> {
    /// The dial limits and backoffs that are over, what the policies wish, the calls without a configuration, and then rounds.
    pub fn settle(&mut self) -> Result<(), NoMemory>
        ensures { OnOk result (self.new ≡ settling.settled self.old) }
    {
        self.pass_limits()?;
        self.settle_net()?;
        self.serve_unconfigured()?;
        self.move_all(MOST)
    }

    /// Rounds until nothing moves, but no more than so many.
    #[tactic(auto, using(crate::proofs::SettlingLaws::rounds_step), unfolding(crate::specs::Settling::rounds))]
    fn move_all(&mut self, most: u64) -> Result<(), NoMemory>
        ensures { OnOk result (self.new ≡ settling.rounds most self.old) }
    {
        for _round in 0..most {
            if !self.move_on()? {
                return Ok(());
            }
        }
        Ok(())
    }

    /// The dial limits and backoffs that are over.
    #[tactic(auto, unfolding(crate::specs::Steps::clocked))]
    fn pass_limits(&mut self) -> Result<(), NoMemory>
        ensures { OnOk result (self.new ≡ steps.clocked self.old) }
    {
        let dead = self.net.clock(self.book.moment)?;
        let mut rest = dead.into_vec().into_iter();
        while let Some(link) = rest.next() {
            self.links.mark_dead(link);
            self.resolver.want();
            self.stamp_gone(link);
        }
        Ok(())
    }

    #[tactic(auto, unfolding(crate::specs::Steps::net_settled))]
    fn settle_net(&mut self) -> Result<(), NoMemory>
        ensures { OnOk result (self.new ≡ steps.net_settled self.old) }
    {
        let entry = self.book.ledger.entry;
        let shut = self.net.settle(&mut self.book.ledger.generations, entry)?;
        self.stamp_all_gone(shut);
        Ok(())
    }

    /// Calls without a configuration get one or end, by their numbers. Mostly there is none.
    #[tactic(auto, using(crate::proofs::Idling::none_unconfigured))]
    fn serve_unconfigured(&mut self) -> Result<(), NoMemory>
        ensures { OnOk result (self.new ≡ steps.unconfigured_served self.old) }
    {
        match (self.awaiting_config.next(), self.fail_fast.next()) {
            (None, None) => Ok(()),
            _ => self.serve_each_unconfigured(),
        }
    }

    #[tactic(auto, using(crate::proofs::Asking::all_unconfigured_by), unfolding(crate::specs::Steps::unconfigured_served))]
    fn serve_each_unconfigured(&mut self) -> Result<(), NoMemory>
        ensures { OnOk result (self.new ≡ steps.unconfigured_served self.old) }
    {
        if self.held.is_some() {
            let calls = take_due(self.alloc, &mut self.awaiting_config, 0)?;
            self.fail_fast = Timers::new(self.alloc);
            self.configure_all(calls)
        } else if self.unconfigured {
            let calls = take_due(self.alloc, &mut self.fail_fast, 0)?;
            self.act_on_all(calls, &CallEvent::Close(EndCause::NoConfig))?;
            Ok(())
        } else {
            Ok(())
        }
    }

    fn configure_all(&mut self, calls: Items<u64>) -> Result<(), NoMemory>
        ensures { OnOk result (self.new ≡ steps.all_configured calls self.old) }
    {
        let mut rest = calls.into_vec().into_iter();
        while let Some(call) = rest.next() {
            self.configure(number_of(call))?;
        }
        Ok(())
    }

    fn configure(&mut self, call: u32) -> Result<(), NoMemory>
        ensures { OnOk result (self.new ≡ steps.configured_call call self.old) }
    {
        let Some(chosen) = self.chosen_for(call) else {
            return Ok(());
        };
        let acts = self.book.configure(call, chosen)?;
        self.follow(call, acts)
    }

    /// What the config that is held chooses for a call.
    fn chosen_for(&self, call: u32) -> Option<Chosen>
        ensures { result ≡ steps.chosen_in self.now.held (slot_at self.now.book call) }
    {
        let config = self.held.as_ref()?;
        let slot = self.book.calls.get(call)?;
        Some(config.chosen(slot.call.request().path()))
    }

    /// One round: each call whose due moment has come makes one attempt, by the calls' numbers, and then the queue is served by
    /// call and row. Answers whether there was anything to do.
    fn move_on(&mut self) -> Result<bool, NoMemory>
        ensures state { OnOk result (self.new ≡ (settling.round self.old).state) }
        ensures moved { IfOk result (λ moved. moved ≡ (settling.round self.old).moved) }
    {
        let made = self.make_due()?;
        let served = self.serve_queued(MOST)?;
        Ok(made | served)
    }

    #[tactic(auto, using(crate::proofs::Idling::nothing_made))]
    fn make_due(&mut self) -> Result<bool, NoMemory>
        ensures state { OnOk result (self.new ≡ (steps.round_made self.old).state) }
        ensures moved { IfOk result (λ moved. moved ≡ (steps.round_made self.old).moved) }
    {
        let moment = self.book.moment.nanos();
        let Some(_) = self.dues.first_due(moment) else {
            return Ok(false);
        };
        self.make_each(moment)
    }

    #[tactic(auto, using(crate::proofs::Asking::all_made_by))]
    fn make_each(&mut self, moment: u64) -> Result<bool, NoMemory>
        requires { moment ≡ self.old.book.moment }
        ensures state { OnOk result (self.new ≡ (steps.round_made self.old).state) }
        ensures moved { IfOk result (λ moved. moved ≡ (steps.round_made self.old).moved) }
    {
        let calls = take_due(self.alloc, &mut self.dues, moment)?;
        self.forget_all(calls.as_slice());
        let ready = sort_calls(self.alloc, calls)?;
        let made = 0 < ready.len();
        self.act_on_all(ready, &CallEvent::Due)?;
        Ok(made)
    }

    fn forget_all(&mut self, calls: &[u64])
        ensures { self.new ≡ steps.dues_forgotten calls.now self.old }
    {
        for call in calls {
            self.forget_due(number_of(*call));
        }
    }

    fn forget_due(&mut self, call: u32)
        ensures { self.new ≡ steps.due_gone call self.old }
    {
        if let Some(slot) = self.book.calls.get_mut(call) {
            slot.due = None;
        }
    }

    /// Serves the queue by call and row, but no more than so many attempts; whether any attempt left it.
    #[tactic(auto, using(crate::proofs::SettlingLaws::passed_step), unfolding(crate::specs::Settling::passed))]
    fn serve_queued(&mut self, most: u64) -> Result<bool, NoMemory>
        ensures state { OnOk result (self.new ≡ (settling.passed most (0, 0) (settling.stays self.old)).state) }
        ensures moved { IfOk result (λ moved. moved ≡ (settling.passed most (0, 0) (settling.stays self.old)).moved) }
    {
        let mut moved = false;
        let mut call = 0;
        let mut row = 0;
        for _turn in 0..most {
            let Some((next_call, next_row)) = self.next_served(call, row) else {
                return Ok(moved);
            };
            call = next_call;
            row = next_row;
            moved |= self.serve(call, row)?;
        }
        Ok(moved)
    }

    /// The first attempt after another that is to be served in the state of the current policy.
    fn next_served(&self, call: u32, row: u64) -> Option<(u32, u64)>
        ensures { result ≡ steps.next_served (call, row) self.now }
    {
        match self.net.state() {
            Some(Conn::Ready) => first_pair(
                self.queue.first_after(call, row),
                self.ready_waiters.first_after(call, row),
            ),
            Some(Conn::Failure) => self.queue.first_after(call, row),
            Some(Conn::Idle | Conn::Connecting | Conn::Shutdown) | None => None,
        }
    }

    fn serve(&mut self, call: u32, row: u64) -> Result<bool, NoMemory>
        ensures state { OnOk result (self.new ≡ (settling.served call row self.old).state) }
        ensures moved { IfOk result (λ moved. moved ≡ (settling.served call row self.old).moved) }
    {
        let Some(asked) = self.net.ask() else {
            return Ok(false);
        };
        let ask = Ask {
            entry: self.book.ledger.entry,
            generation: asked.generation,
            row,
            answer: asked.pick,
        };
        add_ask(&mut self.book.ledger.asks, ask)?;
        match asked.pick {
            Pick::Place(sub) => self.place(call, row, asked.generation, sub),
            Pick::Wait => Ok(false),
            Pick::Fail => {
                self.fail(call, row)?;
                Ok(true)
            }
        }
    }

    fn place(&mut self, call: u32, row: u64, generation: u32, sub: u32) -> Result<bool, NoMemory>
        ensures state { OnOk result (self.new ≡ (settling.placed call row generation sub self.old).state) }
        ensures moved { IfOk result (λ moved. moved ≡ (settling.placed call row generation sub self.old).moved) }
    {
        let Some(link) = self.net.link_of(sub) else {
            return Ok(false);
        };
        let at = Placed {
            entry: self.book.ledger.entry,
            moment: self.book.moment,
            generation,
            sub,
            link,
        };
        if !self.offer(call, row, link)? {
            return Ok(false);
        }
        self.settle_in(call, row, at)?;
        Ok(true)
    }

    /// Offers an attempt to a link; whether the link took it.
    fn offer(&mut self, call: u32, row: u64, link: u32) -> Result<bool, NoMemory>
        ensures state { OnOk result (self.new ≡ settling.offered link row (limit_at (slot_at self.old.book call)) self.old) }
        ensures taken { IfOk result (λ taken. taken ≡ takes_rows link self.old.links) }
    {
        let limit = self.book.response_limit(call);
        let taken = self.links.place(link, row, limit)?;
        Ok(taken)
    }

    /// An attempt that a link took leaves the queue and is outstanding.
    fn settle_in(&mut self, call: u32, row: u64, at: Placed) -> Result<(), NoMemory>
        ensures { OnOk result (self.new ≡ settling.settled_in call row at self.old) }
    {
        self.unqueue(call, row);
        self.outstanding.join(at.link, row)?;
        let acts = self.book.placed(call, row, at)?;
        self.follow(call, acts)
    }

    #[tactic(auto, using(crate::proofs::Asking::pick_reported))]
    fn fail(&mut self, call: u32, row: u64) -> Result<(), NoMemory>
        ensures { OnOk result (self.new ≡ steps.pick_failed call row self.old) }
    {
        self.unqueue(call, row);
        let end = own_end(self.alloc, Code::Unavailable, RowCause::Pick, 0);
        self.give_news(call, row, News::Ended { tag: row, end })?;
        self.seal();
        Ok(())
    }
}
