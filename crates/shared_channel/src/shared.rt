// The state under the lock.
use crate::watched::Watched;
use grpc_base::Entry;
use lb_policy::Balancer;
use turn_lock::Chronicle;

/// The state under the lock: a channel. Its history is the journal.
#[derive(Drop)]
pub struct Shared<P: Balancer> {
    pub(crate) watched: Watched<P>,
}

/// A handle of a shared channel.
pub type Seat<P> = turn_lock::Seat<Shared<P>>;

impl<P: Balancer> Chronicle for Shared<P> {
    ghost use Rattle.shared_channel.specs.Histories.{mark_in};

    type Entry = Entry;

    ghost entries = { λ s. s.watched.core.journal.entries };

    ghost mark_of = { λ entries. mark_in entries };

    // With what its channel was new.
    ghost origin = { λ s. s.watched.origin };

    fn count(&self) -> u64 {
        self.watched.count()
    }

    fn mark(&self) -> u8 {
        self.watched.state().number()
    }
}
