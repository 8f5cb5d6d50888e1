// What a program does over a channel.
ghost use Rattle.std.specs.Prelude.{◌≡◌, [], List};
ghost use Rattle.grpc_base.specs.declared.event.Entry.{Entry};
ghost use Rattle.client_calls.specs.Entries.{others_in};

use grpc_base::Caller;
use std::sync::Wait;

/// Work of one thread: calls over a handle of the channel that is its own. What it finds out stays in it, and it is given back.
pub trait ClientWork {
    /// What the work says, when it is done, of the entries that its handle made.
    ghost shows: { Self → List Entry → Type 0 };

    /// Does the work. Its handle is new: it made no entry before. It makes calls over it, and nothing else.
    fn work<W: Wait, H: Caller>(&mut self, rt: &W, handle: &mut H)
        ensures shows { H.made handle.old ≡ [] → shows self.new (H.made handle.new) }
        ensures others { others_in (H.made handle.new) ≡ others_in (H.made handle.old) }
        ensures share { H.share handle.new ≡ H.share handle.old };
}
