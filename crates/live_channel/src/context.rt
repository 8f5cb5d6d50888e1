// The workers beside the calls, each with a handle of its own.
ghost use Rattle.std.specs.Prelude.{◌≡◌, ◌≤◌, ◌-◌, ◌+◌, ◌++◌, ◌∷◌, [], ℕ, OnOk, map, take};
ghost use Rattle.grpc_base.specs.declared.event.Entry.{Entry};
ghost use Rattle.live_channel.specs.Handles.{IsFresh, OfLinks, OfNames, Splits, keepers_in, seats_in};
ghost use Rattle.turn_lock.specs.History.{SeatSeen};

use dns_watch::{DnsWatch, Lookup};
use gate_io::{Clock, Dialer, Draws, GivenUp};
use grpc_base::{NoMemory, Octets};
use keepalive_core::KeepRule;
use lb_policy::Balancer;
use live_run::{LinkJob, NameJob, NetJob, Outcome, Tending, Watching};
use shared_channel::{ChannelSeat, Seat, SharedChannel};
use std::alloc::Global;

/// The most workers that keep links open.
pub const NETS: usize = 4;

/// What every worker of a run has.
#[derive(Drop)]
pub struct WorkerContext<'a, P: Balancer, R, C: Clock> {
    pub rt: &'a R,
    pub alloc: Global,
    pub channel: &'a SharedChannel<P>,
    pub clock: &'a C,
    /// How many workers keep links open, at most.
    pub nets: u32,
    /// The rule of the keepalives, where there are some.
    pub keep: Option<KeepRule>,
}

impl<'a, P: Balancer, R, C: Clock> WorkerContext<'a, P, R, C> {
    /// A handle with the clock and random words.
    pub fn handle<D: Draws>(&self, seat: Seat<P>, draws: D) -> ChannelSeat<'a, P, R, C, D>
        requires lock { seat.lock ≡ self.now.channel.now }
        ensures seat { result.seat ≡ seat }
    {
        self.channel.seat(self.rt, seat, self.clock, draws)
    }

    /// A handle of its own for a worker.
    pub fn own_handle<D: Draws>(
        &self,
        seat: &mut Seat<P>,
        draws: &mut D,
    ) -> ChannelSeat<'a, P, R, C, D>
        requires lock { seat.old.lock ≡ self.now.channel.now }
        requires parts { 2 ≤ seat.old.parts }
        ensures kept { seat.new ≡ record seat.old { parts = seat.old.parts - 1 } }
        ensures fresh { IsFresh seat.old.lock result.seat }
    {
        let own = self.channel.split_seat(seat);
        self.handle(own, draws.fork())
    }
}

/// Adds a worker for each of the first dialers, each with a handle of its own.
pub fn add_nets<'a, R, P: Balancer, C: Clock, D: Draws, N: Dialer, L: Lookup>(
    context: &WorkerContext<'a, P, R, C>,
    seat: &mut Seat<P>,
    draws: &mut D,
    dialers: Vec<N>,
    links: &mut Vec<LinkJob<ChannelSeat<'a, P, R, C, D>, N, L, D>>,
) -> Result<(), NoMemory>
    requires lock { seat.old.lock ≡ context.now.channel.now }
    requires parts { 16 ≤ seat.old.parts }
    ensures parts { OnOk result (seat.old.parts ≤ seat.new.parts + 4) }
    ensures splits { OnOk result ((start : SeatSeen Entry) → Splits start (seats_in (λ h. h.seat) links.old.items) seat.old → Splits start (seats_in (λ h. h.seat) links.new.items) seat.new) }
    ensures keepers { OnOk result ((workers : ℕ) × (keepers_in N.coming links.new.items ≡ keepers_in N.coming links.old.items ++ map (λ held. OfLinks held) (take workers (map N.coming dialers.items)))) }
{
    let mut left = (context.nets as usize).min(NETS);
    let mut rest = dialers.into_iter();
    while let Some(dialer) = rest.next() {
        if left == 0 {
            return Ok(());
        }
        left -= 1;
        add_net(context, seat, draws, dialer, links)?;
    }
    Ok(())
}

/// Adds a worker for a dialer, with a handle of its own.
fn add_net<'a, R, P: Balancer, C: Clock, D: Draws, N: Dialer, L: Lookup>(
    context: &WorkerContext<'a, P, R, C>,
    seat: &mut Seat<P>,
    draws: &mut D,
    dialer: N,
    links: &mut Vec<LinkJob<ChannelSeat<'a, P, R, C, D>, N, L, D>>,
) -> Result<(), NoMemory>
    requires lock { seat.old.lock ≡ context.now.channel.now }
    requires parts { 2 ≤ seat.old.parts }
    ensures lock { seat.new.lock ≡ seat.old.lock }
    ensures parts { seat.old.parts ≡ seat.new.parts + 1 }
    ensures splits { OnOk result ((start : SeatSeen Entry) → Splits start (seats_in (λ h. h.seat) links.old.items) seat.old → Splits start (seats_in (λ h. h.seat) links.new.items) seat.new) }
    ensures keepers { OnOk result (keepers_in N.coming links.new.items ≡ keepers_in N.coming links.old.items ++ OfLinks (N.coming dialer) ∷ []) }
{
    let mut post = context.own_handle(seat, draws);
    let given_up = GivenUp::new(context.alloc)?;
    post.note_given_up(given_up.share()?);
    let tending = Tending::new(context.alloc, context.keep);
    let job = NetJob {
        alloc: context.alloc,
        post,
        dialer,
        tender: Watching::new(tending, given_up),
        outcome: Outcome::Whole,
    };
    links.push(LinkJob::Net(job))?;
    Ok(())
}

/// Adds the worker that looks a name up, with a handle of its own.
pub fn add_name<'a, R, P: Balancer, C: Clock, D: Draws, N: Dialer, L: Lookup>(
    context: &WorkerContext<'a, P, R, C>,
    seat: &mut Seat<P>,
    draws: &mut D,
    watch: DnsWatch,
    lookup: L,
    config: Option<Octets>,
    links: &mut Vec<LinkJob<ChannelSeat<'a, P, R, C, D>, N, L, D>>,
) -> Result<(), NoMemory>
    requires lock { seat.old.lock ≡ context.now.channel.now }
    requires parts { 2 ≤ seat.old.parts }
    ensures lock { seat.new.lock ≡ seat.old.lock }
    ensures parts { seat.old.parts ≡ seat.new.parts + 1 }
    ensures splits { OnOk result ((start : SeatSeen Entry) → Splits start (seats_in (λ h. h.seat) links.old.items) seat.old → Splits start (seats_in (λ h. h.seat) links.new.items) seat.new) }
    ensures keepers { OnOk result (keepers_in N.coming links.new.items ≡ keepers_in N.coming links.old.items ++ OfNames config ∷ []) }
{
    let job = NameJob {
        alloc: context.alloc,
        post: context.own_handle(seat, draws),
        watch,
        lookup,
        draws: draws.fork(),
        config,
        outcome: Outcome::Whole,
    };
    links.push(LinkJob::Name(job))?;
    Ok(())
}
