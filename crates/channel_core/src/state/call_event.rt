// What is done to a call that leaves the tokens of its config as they are.
ghost use Rattle.std.specs.Prelude.{◌≡◌, [], IfOk, OnOk};
ghost use Rattle.call_core.specs.Steps.{lent};
ghost use Rattle.channel_core.specs.CallEvents.{asks, step_by};

use a6_numbers::Tokens;
use attempt_ledger::Ledger;
use call_core::{Call, CallAct};
use grpc_base::{EndCause, Items, Moment, NoMemory, Octets, Reply};

#[derive(Drop)]
pub enum CallEvent {
    /// Its application sends a message.
    Send(Octets),
    /// Its application gives it up.
    Cancel,
    /// The channel ends it, unless it has ended.
    Close(EndCause),
    /// Its deadline may have come.
    Deadline,
    /// An attempt of it may be due.
    Due,
}

impl CallEvent {
    /// Does it to a call.
    pub fn act(
        &self,
        call: &mut Call,
        ledger: &mut Ledger,
        moment: Moment,
        tokens: &Option<Tokens>,
    ) -> Result<(Reply, Items<CallAct>), NoMemory>
        ensures reply { IfOk result (λ r. r.0 ≡ asks self.now call.old) }
        ensures call { OnOk result (call.new ≡ (step_by self.now moment (lent call.old ledger.old tokens.now [])).call) }
        ensures ledger { OnOk result (ledger.new ≡ (step_by self.now moment (lent call.old ledger.old tokens.now [])).ledger) }
        ensures acts { IfOk result (λ r. r.1 ≡ (step_by self.now moment (lent call.old ledger.old tokens.now [])).acts) }
    {
        match self {
            CallEvent::Send(message) => call.send(ledger, message.share()?, moment, tokens),
            CallEvent::Cancel => call.cancel(ledger, moment, tokens),
            CallEvent::Close(why) => Ok((Reply::Done, call.close(ledger, *why, moment, tokens)?)),
            CallEvent::Deadline => Ok((Reply::Done, call.deadline(ledger, moment, tokens)?)),
            CallEvent::Due => Ok((Reply::Done, call.due(ledger, moment, tokens)?)),
        }
    }
}
