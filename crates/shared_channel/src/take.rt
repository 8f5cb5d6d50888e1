// A Take that is polled.
ghost use Rattle.std.specs.Prelude.{◌≡◌, ◌+◌, ℕ, ⊤};
ghost use Rattle.futures.specs.Poll.{IfReady, OnPending};
ghost use Rattle.futures.specs.Task.{Covers, Keeps};
ghost use Rattle.grpc_base.specs.Posts.{CountsErrors};
ghost use Rattle.grpc_base.specs.declared.event.Event.TheVariants as event;
ghost use Rattle.shared_channel.specs.Turns.{IsPending, TakesFrom, TakesPlace, words_of};

use crate::channel_seat::ChannelSeat;
use crate::jobs::{TakeStep, moment_of};
use crate::shared::Shared;
use futures::future::Future;
use futures::task::{Context, Poll};
use gate_io::{Clock, Draws};
use grpc_base::{PostError, Reply};
use lb_policy::Balancer;
use turn_lock::Chronicle;

/// A Take of one call, to be polled. Each poll makes one claim of the turn, and waits for nobody.
#[derive(Drop)]
pub struct TakeFuture<'b, 'a, P: Balancer, W, C: Clock, D: Draws>
where
    Shared<P>: Chronicle,
{
    pub(crate) seat: &'b mut ChannelSeat<'a, P, W, C, D>,
    pub(crate) call: u32,
}

impl<P: Balancer, W, C: Clock, D: Draws> Future for TakeFuture<'_, '_, P, W, C, D> {
    type Output = Result<Reply, PostError>;

    ghost gives = { λ f result. TakesFrom (C.may_give f.seat.now.clock.now) (words_of f.seat.now.next (D.words f.seat.now.draws) 0) f.call result f.seat.now.seat.seen };

    /// Ready holds the reply of the one Take that this poll made, or what kept its step from an entry. Pending comes only where nothing had
    /// come for the call, or where another handle had the turn; it makes no entry, and asks to be polled again.
    fn poll(&mut self, cx: &mut Context<'_>) -> Poll<Result<Reply, PostError>>
        ensures value { IfReady result (λ r. TakesFrom (C.may_give self.old.seat.now.clock.now) (words_of self.old.seat.now.next (D.words self.old.seat.now.draws) 0) self.old.call r self.old.seat.now.seat.seen) }
        ensures same { OnPending result ((x : _) → TakesFrom (C.may_give self.new.seat.now.clock.now) (words_of self.new.seat.now.next (D.words self.new.seat.now.draws) 0) self.new.call x self.new.seat.now.seat.seen → TakesFrom (C.may_give self.old.seat.now.clock.now) (words_of self.old.seat.now.next (D.words self.old.seat.now.draws) 0) self.old.call x self.old.seat.now.seat.seen) }
        ensures again { OnPending result ⊤ }
        ensures registered { OnPending result (Covers cx.new (λ _. ⊥)) }
        ensures kept { Keeps cx.old cx.new }
        ensures place { IfReady result (λ r. TakesPlace (C.may_give self.old.seat.now.clock.now) (words_of self.old.seat.now.next (D.words self.old.seat.now.draws) 0) (event.Take self.old.call) r self.old.seat.now.seat self.new.seat.now.seat) }
        ensures pending { OnPending result (IsPending self.old.call self.old.seat.now.seat self.new.seat.now.seat) }
        ensures taken { IfReady result (λ _. (k : ℕ) → words_of self.new.seat.now.next (D.words self.new.seat.now.draws) k ≡ words_of self.old.seat.now.next (D.words self.old.seat.now.draws) (k + 1)) }
        ensures left { OnPending result ((k : ℕ) → words_of self.new.seat.now.next (D.words self.new.seat.now.draws) k ≡ words_of self.old.seat.now.next (D.words self.old.seat.now.draws) k) }
        ensures errors { IfReady result (λ r. CountsErrors self.old.seat.now.tally.errors self.new.seat.now.tally.errors self.old.seat.now.tally.last_error self.new.seat.now.tally.last_error r) }
        ensures quiet { OnPending result (self.new.seat.now.tally ≡ self.old.seat.now.tally) }
    {
        let seat = &mut *self.seat;
        let mut take = TakeStep {
            moment: moment_of(seat.clock.now()),
            word: seat.next,
            call: self.call,
            bell: seat.bell,
        };
        match seat.lock.try_turn(&mut seat.seat, &mut take) {
            Ok(Some(result)) => {
                seat.bell.wake();
                seat.next = seat.draws.word();
                seat.tally.posted(&result);
                Poll::Ready(result)
            }
            Ok(None) => cx.yield_now(),
            Err(_) => cx.yield_now(),
        }
    }
}
