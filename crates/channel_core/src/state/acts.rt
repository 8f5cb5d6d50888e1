// What the channel does about what a call did.
ghost use Rattle.std.specs.Prelude.{◌≡◌, OnOk};
ghost use Rattle.channel_core.specs.Steps as steps;
ghost use Rattle.channel_core.specs.Books.{link_at};

use crate::state::State;
use crate::state::timers::move_timer;
use call_core::CallAct;
use grpc_base::{Conn, Items, NoMemory};
use lb_policy::Balancer;
use ledger_stamps::link_gone;
use std::mem;

impl<P: Balancer> State<P> {
    /// Follows the acts of a call, and sets its timers.
    pub fn follow(&mut self, call: u32, acts: Items<CallAct>) -> Result<(), NoMemory>
        ensures { OnOk result (self.new ≡ steps.followed call acts self.old) }
    {
        let mut rest = acts.into_vec().into_iter();
        while let Some(act) = rest.next() {
            self.act(call, act)?;
        }
        self.set_timers(call)
    }

    fn act(&mut self, call: u32, act: CallAct) -> Result<(), NoMemory>
        ensures { OnOk result (self.new ≡ steps.act_done call act self.old) }
    {
        match act {
            CallAct::Cut(row) => self.cut(row),
            CallAct::Drop(row) => {
                self.unqueue(call, row);
                Ok(())
            }
            CallAct::Queue(row) => self.queue_row(call, row),
            CallAct::End(_) => {
                let _awaiting_config = self.awaiting_config.remove(0, u64::from(call));
                let _fail_fast = self.fail_fast.remove(0, u64::from(call));
                Ok(())
            }
        }
    }

    /// The attempt of a row was cut: its stream is reset.
    fn cut(&mut self, row: u64) -> Result<(), NoMemory>
        ensures { OnOk result (self.new ≡ steps.cut row self.old) }
    {
        let link = self.book.link_of_row(row);
        self.links.reset(link, row)?;
        self.resets.push(link)?;
        let _was = self.outstanding.leave(link, row);
        self.stamp_gone(link);
        Ok(())
    }

    pub fn unqueue(&mut self, call: u32, row: u64)
        ensures { self.new ≡ steps.unqueued call row self.old }
    {
        let _waited = self.queue.leave(call, row);
        let _waited = self.ready_waiters.leave(call, row);
    }

    fn queue_row(&mut self, call: u32, row: u64) -> Result<(), NoMemory>
        ensures { OnOk result (self.new ≡ steps.queued call row self.old) }
    {
        if self.book.waits(call) {
            self.ready_waiters.join(call, row)
        } else {
            self.queue.join(call, row)
        }
    }

    /// The effects of a frame, a call or a lost attempt are complete: resets that come stand after these.
    pub fn seal(&mut self)
        ensures { self.new ≡ steps.sealed self.old }
    {
        if self.resets.is_empty() {
            return;
        }
        let resets = mem::replace(&mut self.resets, Items::new(self.alloc));
        let mut rest = resets.into_vec().into_iter();
        while let Some(link) = rest.next() {
            self.seal_one(link);
        }
    }

    fn seal_one(&mut self, link: u32)
        ensures { self.new ≡ steps.sealed_one link self.old }
    {
        self.links.seal(link);
    }

    /// Whether nothing is left on a link that takes no further attempt.
    pub fn is_gone(&self, link: u32) -> bool
        ensures { result ≡ steps.is_gone link self.now }
    {
        self.links.is_dead(link)
            || ((self.links.is_retiring(link) || self.is_of_shut_sub(link))
                && !self.has_outstanding(link))
    }

    fn is_of_shut_sub(&self, link: u32) -> bool
        ensures { result ≡ steps.is_of_shut_sub link self.now }
    {
        matches!(
            self.net.state_of(self.sub_of(link)),
            None | Some(Conn::Shutdown)
        )
    }

    fn has_outstanding(&self, link: u32) -> bool
        ensures { result ≡ steps.has_outstanding link self.now }
    {
        self.outstanding
            .first_after(link, 0)
            .is_some_and(|pair| pair.0 == link)
    }

    /// Writes that a link is gone, where it is.
    pub fn stamp_gone(&mut self, link: u32)
        ensures { self.new ≡ steps.stamped_gone link self.old }
    {
        if self.is_gone(link) {
            let entry = self.book.ledger.entry;
            link_gone(&mut self.book.ledger.links, link, entry);
        }
    }

    pub fn stamp_all_gone(&mut self, links: Items<u32>)
        ensures { self.new ≡ steps.all_stamped_gone links self.old }
    {
        let mut rest = links.into_vec().into_iter();
        while let Some(link) = rest.next() {
            self.stamp_gone(link);
        }
    }

    /// The subchannel of a link; 0, which is none's number, where there is no such link.
    pub fn sub_of(&self, link: u32) -> u32
        ensures { result ≡ steps.sub_of (link_at self.now.book link) }
    {
        self.book.link(link).map_or(0, |seen| seen.sub)
    }

    /// Sets the timers of a call to its due moment and its deadline.
    pub fn set_timers(&mut self, call: u32) -> Result<(), NoMemory>
        ensures { OnOk result (self.new ≡ steps.timers_moved call self.old) }
    {
        let Some(slot) = self.book.calls.get(call) else {
            return Ok(());
        };
        let due = slot.due_at();
        let deadline = slot.deadline_at();
        move_timer(&mut self.dues, call, slot.due, due)?;
        move_timer(&mut self.deadlines, call, slot.deadline, deadline)?;
        self.book.set_timers(call, due, deadline);
        Ok(())
    }
}
