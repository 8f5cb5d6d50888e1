// The trait that a load balancing policy implements.
ghost use Rattle.std.specs.Prelude.{◌≡◌, ◌<◌};
ghost use Rattle.lb_policy.specs.Table.{PolicySeen, IsView, wish_of, state_of, pick_of};
ghost use Rattle.lb_policy.specs.Steps.{emptied, given, noted, turned};

use crate::SubSeen;
use arrayvec::ArrayVec;
use grpc_base::{Conn, Kind, Pick};

/// A load balancing policy ("Load Balancing in gRPC"): which subchannels it wants connected, in which state it is,
/// and which subchannel each pick request gets.
///
/// To contracts it is five things: its kind; the width of its tiers (1 where it has none); its view. The view is the subchannels that it was
/// given, with their states. Fourth is which of them have failed: they were in TRANSIENT_FAILURE, and have not been READY
/// since. Last is the number of its turns: the pick requests that it answered since it was reset. No call takes memory.
pub trait Policy: Send + Drop {
    ghost seen: { Self → PolicySeen };

    /// Its kind, which never changes; nor does the width of its tiers.
    fn kind(&self) -> Kind
        ensures { result ≡ (seen self.now).kind };

    /// Forgets its view, which of it have failed, and its turns.
    fn reset(&mut self)
        ensures { seen self.new ≡ emptied (seen self.old) };

    /// Takes a new view, and keeps its turns. Those of the view have failed that are in TRANSIENT_FAILURE, or had failed
    /// before and are not READY.
    fn accept(&mut self, subs: &[SubSeen])
        requires { IsView subs.now }
        ensures { seen self.new ≡ given subs.now (seen self.old) };

    /// Notes the state of a subchannel; one that is not in the view changes nothing. In TRANSIENT_FAILURE it has failed,
    /// until it is READY.
    fn note(&mut self, sub: u32, state: Conn)
        ensures { seen self.new ≡ noted sub state (seen self.old) };

    /// The subchannels of the view that it wants connected, in the order of the view.
    fn wish(&self) -> ArrayVec<u32, 64>
        ensures { result.items ≡ wish_of (seen self.now) };

    /// Its connectivity state.
    fn state(&self) -> Conn
        ensures { result ≡ state_of (seen self.now) };

    /// Answers a pick request, which is one turn.
    fn pick(&mut self) -> Pick
        requires { (seen self.old).turns < 18446744073709551615 }
        ensures answer { result ≡ pick_of (seen self.old) }
        ensures after { seen self.new ≡ turned (seen self.old) };
}
