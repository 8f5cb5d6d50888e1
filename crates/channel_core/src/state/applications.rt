// What applications ask.
ghost use Rattle.std.specs.Prelude.{◌≡◌, ◌+◌, length, IfOk, OnOk};
ghost use Rattle.grpc_base.specs.declared.event.Reply.TheVariants as reply;
ghost use Rattle.channel_core.specs.Arrivals as arrivals;
ghost use Rattle.channel_core.specs.Books.{slot_at};
ghost use Rattle.channel_core.specs.CallEvents.{acted_by, all_acted_by, reply_by};
ghost use Rattle.channel_core.specs.Steps as steps;

use crate::state::State;
use crate::state::call_event::CallEvent;
use crate::state::timers::number_of;
use grpc_base::limits::MESSAGE_BYTES;
use grpc_base::{Code, EndCause, Items, Metadata, NoMemory, Reply, Request, Text};
use lb_policy::Balancer;
use std::alloc::Global;

impl<P: Balancer> State<P> {
    pub fn begin(&mut self, request: &Request) -> Result<Reply, NoMemory>
        ensures state { OnOk result (self.new ≡ steps.begun request.now self.old) }
        ensures reply { IfOk result (λ r. r ≡ reply.Call (length self.old.book.ledger.calls + 1)) }
    {
        let call = self.book.begin(request)?;
        let waits = request.wait() == Some(true);
        self.awaiting_config.insert(0, u64::from(call))?;
        if !waits {
            self.fail_fast.insert(0, u64::from(call))?;
        }
        self.set_timers(call)?;
        Ok(Reply::Call { call })
    }

    /// Does to a call what an event says, and follows it.
    pub fn act_on(&mut self, call: u32, event: &CallEvent) -> Result<Reply, NoMemory>
        ensures state { OnOk result (self.new ≡ acted_by event.now call self.old) }
        ensures reply { IfOk result (λ r. r ≡ reply_by event.now (slot_at self.old.book call)) }
    {
        let (reply, acts) = self.book.act_on(call, event)?;
        self.follow(call, acts)?;
        self.seal();
        Ok(reply)
    }

    /// The same to each of some calls, by the keys of their timers.
    pub fn act_on_all(&mut self, calls: Items<u64>, event: &CallEvent) -> Result<(), NoMemory>
        ensures { OnOk result (self.new ≡ all_acted_by event.now calls self.old) }
    {
        let mut rest = calls.into_vec().into_iter();
        while let Some(call) = rest.next() {
            drop(self.act_on(number_of(call), event)?);
        }
        Ok(())
    }
}

/// A longer message than may be is reported as the end that such a message brings. None comes, since a link refuses it.
pub fn within_limit(alloc: Global, reply: Reply) -> Reply
    ensures { result ≡ arrivals.within_limit reply }
{
    match reply {
        Reply::Message { octets } => {
            if octets.len() > MESSAGE_BYTES {
                Reply::End {
                    code: Code::ResourceExhausted,
                    text: Text::new(alloc),
                    meta: Metadata::new(alloc),
                    cause: EndCause::Response,
                }
            } else {
                Reply::Message { octets }
            }
        }
        other => other,
    }
}
