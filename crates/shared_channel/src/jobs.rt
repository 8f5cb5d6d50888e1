// What is done in one turn at the channel under the lock.
ghost use Rattle.std.specs.Prelude.{◌≡◌, ◌≤◌, Err, option_map};
ghost use Rattle.grpc_base.specs.Limits.{moment_limit};

use crate::bell::Bell;
use crate::reading::Reading;
use crate::shared::Shared;
use attempt_ledger::Ledger;
use grpc_base::{Event, Moment, Octets, PostError, Reply, Stamped, View};
use lb_policy::Balancer;
use std::mem;
use turn_lock::Job;

/// The moment of so many nanoseconds, which are within the limit.
pub fn moment_of(nanos: u64) -> Moment
    requires { nanos ≤ moment_limit }
    ensures { result ≡ nanos }
{
    Moment::new(nanos).unwrap()
}

/// One step. The event is taken by the turn.
#[derive(Drop)]
pub struct Step<'b> {
    pub stamped: Stamped,
    /// Where it is rung, if the event may bring something to another thread's call, or something was due.
    pub bell: &'b Bell,
    pub is_news: bool,
}

impl<P: Balancer> Job<Shared<P>> for Step<'_> {
    ghost use Rattle.shared_channel.specs.Turns.{StepGives};

    type Answer = Result<Reply, PostError>;

    ghost runs = { λ job state answer job_after after. StepGives job.stamped state.watched.core answer after.watched.core };

    fn run(&mut self, state: &mut Shared<P>) -> Result<Reply, PostError> {
        let event = mem::replace(&mut self.stamped.event, Event::Tick);
        let is_due = state.watched.is_due(self.stamped.moment);
        let result = state.watched.step(Stamped {
            moment: self.stamped.moment,
            word: self.stamped.word,
            event,
        });
        state.watched.ring_if(self.bell, is_due, self.is_news);
        result
    }
}

/// The answer of a call that waits: none as long as it may wait.
fn refused(end: Option<PostError>) -> Option<Result<Reply, PostError>>
    ensures { result ≡ option_map (λ error. Err error) end }
{
    match end {
        Some(error) => Some(Err(error)),
        None => None,
    }
}

/// A Take, where something has come for the call, or nothing more comes.
#[derive(Drop)]
pub struct TakeStep<'b> {
    pub moment: Moment,
    pub word: u64,
    pub call: u32,
    /// Where it is rung, if something was due, and where it is noted that a worker ended for want of memory.
    pub bell: &'b Bell,
}

impl<P: Balancer> Job<Shared<P>> for TakeStep<'_> {
    ghost use Rattle.shared_channel.specs.Turns.{TakeGives};

    type Answer = Option<Result<Reply, PostError>>;

    ghost runs = { λ job state answer job_after after. TakeGives job.moment job.word job.call state.watched.core answer after.watched.core };

    fn run(&mut self, state: &mut Shared<P>) -> Option<Result<Reply, PostError>> {
        if !state.watched.core().can_take(self.call) {
            return refused(state.watched.end(self.bell.lacks()));
        }
        let is_due = state.watched.is_due(self.moment);
        let result = state.watched.step(Stamped {
            moment: self.moment,
            word: self.word,
            event: Event::Take { call: self.call },
        });
        state.watched.ring_if(self.bell, is_due, false);
        Some(result)
    }
}

/// A Send, where the call has room for the message, or nothing makes room any more. The message is taken by the turn that sends it.
#[derive(Drop)]
pub struct SendStep<'b> {
    pub moment: Moment,
    pub word: u64,
    pub call: u32,
    pub message: Octets,
    /// Where it is rung, if something was due, and where it is noted that a worker ended for want of memory.
    pub bell: &'b Bell,
}

impl<P: Balancer> Job<Shared<P>> for SendStep<'_> {
    ghost use Rattle.std.specs.Prelude.{◌≡◌, MatchOption};
    ghost use Rattle.shared_channel.specs.Turns.{SendGives};

    type Answer = Option<Result<Reply, PostError>>;

    ghost runs = { λ job state answer job_after after. SendGives job.moment job.word job.call job.message state.watched.core answer after.watched.core × MatchOption answer (job_after ≡ job) (λ _. Unit {0}) };

    fn run(&mut self, state: &mut Shared<P>) -> Option<Result<Reply, PostError>> {
        if let Ok(len) = u32::try_from(self.message.len()) {
            if !state.watched.core().can_send(self.call, len) {
                return refused(state.watched.end(self.bell.lacks()));
            }
        }
        let message = mem::replace(&mut self.message, Octets::new());
        let is_due = state.watched.is_due(self.moment);
        let result = state.watched.step(Stamped {
            moment: self.moment,
            word: self.word,
            event: Event::Send {
                call: self.call,
                message,
            },
        });
        state.watched.ring_if(self.bell, is_due, false);
        Some(result)
    }
}

/// A look at what the channel waits for.
#[derive(Drop)]
pub struct AtView;

impl<P: Balancer> Job<Shared<P>> for AtView {
    ghost use Rattle.std.specs.Prelude.{◌≡◌};
    ghost use Rattle.shared_channel.specs.Turns.{ShowsView};

    type Answer = View;

    ghost runs = { λ job state answer job_after after. (after ≡ state) × ShowsView state.watched.core answer };

    fn run(&mut self, state: &mut Shared<P>) -> View {
        state.watched.view()
    }
}

/// Whether a Drain of this link would give bytes, and whether the channel has given the link up.
#[derive(Drop)]
pub struct AtDrain {
    pub link: u32,
    pub is_given_up: bool,
}

/// Whether a link was opened and is gone.
fn is_given_up(ledger: &Ledger, link: u32) -> bool {
    let Some(place) = link.checked_sub(1) else {
        return false;
    };
    match ledger.links.get(place as usize) {
        Some(seen) => seen.gone.is_some(),
        None => false,
    }
}

impl<P: Balancer> Job<Shared<P>> for AtDrain {
    ghost use Rattle.std.specs.Prelude.{◌≡◌};
    ghost use Rattle.channel_core.specs.Applying.{can_drain_in};

    type Answer = bool;

    ghost runs = { λ job state answer job_after after. (after ≡ state) × (answer ≡ can_drain_in job.link state.watched.core.state) };

    fn run(&mut self, state: &mut Shared<P>) -> bool {
        let core = state.watched.core();
        self.is_given_up = is_given_up(core.ledger(), self.link);
        core.can_drain(self.link)
    }
}

/// Whether a Take of this call would be answered with other than NotYet.
#[derive(Drop)]
pub struct AtTake {
    pub call: u32,
}

impl<P: Balancer> Job<Shared<P>> for AtTake {
    ghost use Rattle.std.specs.Prelude.{◌≡◌};
    ghost use Rattle.shared_channel.specs.Turns.{CanTake};

    type Answer = bool;

    ghost runs = { λ job state answer job_after after. (after ≡ state) × CanTake job.call answer state.watched.core };

    fn run(&mut self, state: &mut Shared<P>) -> bool {
        state.watched.core().can_take(self.call)
    }
}

/// Whether a Send of a message of this length would be answered with other than Full.
#[derive(Drop)]
pub struct AtSend {
    pub call: u32,
    pub len: u32,
}

impl<P: Balancer> Job<Shared<P>> for AtSend {
    ghost use Rattle.std.specs.Prelude.{◌≡◌};
    ghost use Rattle.shared_channel.specs.Turns.{CanSend};

    type Answer = bool;

    ghost runs = { λ job state answer job_after after. (after ≡ state) × CanSend job.call job.len answer state.watched.core };

    fn run(&mut self, state: &mut Shared<P>) -> bool {
        state.watched.core().can_send(self.call, self.len)
    }
}

/// Lends the channel to a reading.
#[derive(Drop)]
pub struct Lend<'r, R> {
    pub reading: &'r mut R,
}

impl<P: Balancer, R: Reading<P>> Job<Shared<P>> for Lend<'_, R> {
    ghost use Rattle.std.specs.Prelude.{◌≡◌};
    ghost use Rattle.shared_channel.specs.Running.{IsRunning};

    type Answer = R::Answer;

    ghost runs = { λ job state answer job_after after. (after ≡ state) × IsRunning state.watched.origin state.watched.core × R.reads job.reading.now state.watched.core answer job_after.reading.now × (job_after.reading.ghost_name ≡ job.reading.ghost_name) };

    fn run(&mut self, state: &mut Shared<P>) -> R::Answer {
        self.reading
            .read(state.watched.core(), state.watched.nearly_full())
    }
}
