// What serves links: bytes in, and bytes out.
ghost use Rattle.std.specs.Prelude.{◌≡◌, ◌<◌, ◌∷◌, [], ℕ, List, Option, OnErr, IfOk, length};
ghost use Rattle.link_server.specs.Serving.{CountsBreaks, Gains, IsSame};

use grpc_base::{NoMemory, Octets};
use loop_server::ServerFault;

/// A server that is given the bytes of its links and gives the bytes to send.
pub trait Serving {
    /// The pieces that it was given for a link, in order, where it shows them.
    ghost given: { Self → ℕ → Option (List (List ℕ)) };

    /// The octets that it gave for a link, drain by drain, where it shows them.
    ghost drained: { Self → ℕ → Option (List (List ℕ)) };

    /// How often it answered that a link is broken.
    ghost breaks: { Self → ℕ };

    /// The code with which the last of them was.
    ghost last_code: { Self → ℕ };

    /// Takes a piece of a link's bytes, which is not empty. Broken comes where the link's bytes broke the protocol, in this
    /// piece or before.
    fn arrived(&mut self, link: u32, piece: &[u8]) -> Result<(), ServerFault>
        requires { 0 < length piece.now }
        ensures given { Gains (given self.old) (given self.new) link (piece.now ∷ []) }
        ensures drained { IsSame (drained self.old) (drained self.new) }
        ensures breaks { CountsBreaks (breaks self.old) (last_code self.old) (breaks self.new) (last_code self.new) result };

    /// Gives all that may be sent on a link now.
    fn drain(&mut self, link: u32) -> Result<Octets, NoMemory>
        ensures given { IsSame (given self.old) (given self.new) }
        ensures drained { IfOk result (λ octets. Gains (drained self.old) (drained self.new) link (octets ∷ [])) }
        ensures kept { OnErr result (IsSame (drained self.old) (drained self.new)) }
        ensures breaks { (breaks self.new ≡ breaks self.old) × (last_code self.new ≡ last_code self.old) };

    /// Whether what was done since this was last asked may let the server give something on other links.
    fn frees_others(&mut self) -> bool
        ensures given { IsSame (given self.old) (given self.new) }
        ensures drained { IsSame (drained self.old) (drained self.new) }
        ensures breaks { (breaks self.new ≡ breaks self.old) × (last_code self.new ≡ last_code self.old) }
    {
        false
    }
}
