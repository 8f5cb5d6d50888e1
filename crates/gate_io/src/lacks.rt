// What a worker that ended for want of memory leaves for those that wait in its channel.
ghost use Rattle.std.specs.Prelude.{◌≡◌};

use grpc_base::{Glance, Post};

/// A channel whose waiting callers can be notified that a worker beside them ended for want of memory: what they wait for may never come.
pub trait NotesLack: Post + Glance {
    /// Lets those know that wait in the channel that a worker beside them ended for want of memory. No entry is made.
    fn note_lack(&mut self)
        ensures made { Self.made self.new ≡ Self.made self.old }
        ensures errors { (Self.errors self.new ≡ Self.errors self.old) × (Self.last_error self.new ≡ Self.last_error self.old) }
        ensures looks { (Self.looks self.new ≡ Self.looks self.old) × (Self.last_look self.new ≡ Self.last_look self.old) }
        ensures share { Self.share self.new ≡ Self.share self.old };
}
