// What is read of the channel under the lock.
ghost use Rattle.std.specs.Prelude.{◌≡◌, true};
ghost use Rattle.channel_core.specs.Core.{CoreSeen};
ghost use Rattle.shared_channel.specs.Histories.{IsNearlyFull};

use channel_core::ChannelCore;
use lb_policy::Balancer;

/// What is read of the channel under the lock in one turn. Its meaning is a relation between the reading before, the channel, the
/// answer, and the reading after.
pub trait Reading<P: Balancer> {
    type Answer;

    ghost reads: { Self → CoreSeen → Self.Answer → Self → Type 0 };

    /// Reads the channel, which stays as it is. It says where a step found the journal nearly full.
    fn read(&mut self, core: &ChannelCore<P>, nearly_full: bool) -> Self::Answer
        requires { nearly_full ≡ true → IsNearlyFull core.now.journal.entries }
        ensures { reads self.old core.now result self.new };
}
