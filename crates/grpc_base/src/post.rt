// Posting events to a channel, looking at it, and waiting for its replies.
ghost use Rattle.std.specs.Prelude.{◌≡◌, ℕ, Option, Some, List, IfOk, false};
ghost use Rattle.grpc_base.specs.Counts.{one_more};
ghost use Rattle.grpc_base.specs.Posts.{CountsErrors, Posts, is_full, is_not_yet};
ghost use Rattle.grpc_base.specs.declared.event.Entry.{Entry};
ghost use Rattle.grpc_base.specs.declared.event.Event.TheVariants as event;
ghost use Rattle.grpc_base.specs.declared.post.Look.{Look};
ghost use Rattle.grpc_base.specs.declared.post.Look.TheVariants as look;
ghost use Rattle.grpc_base.specs.declared.post.PostError.{PostError};

use crate::{Conn, Event, NoMemory, Octets, Reply};

/// What one look at a channel shows.
#[derive(Clone, Copy, Debug, PartialEq, Eq)]
pub struct View {
    /// The channel's connectivity state.
    pub state: Conn,
    /// Whether a new result of the resolver is wanted.
    pub wants_resolution: bool,
    /// The next moment at which something is due.
    pub next: Option<u64>,
    /// Whether an address waits to be dialled.
    pub dialable: bool,
    /// Whether a step ran out of memory half way, so that each later one answers so.
    pub spent: bool,
}

/// A look at a channel: the call, its arguments and its answer.
#[derive(Clone, Copy, Debug, PartialEq, Eq)]
pub enum Look {
    Glance { view: View },
    CanDrain { link: u32, answer: bool },
    CanTake { call: u32, answer: bool },
    CanSend { call: u32, len: u32, answer: bool },
}

/// Why an event made no entry.
#[derive(Clone, Copy, Debug, PartialEq, Eq)]
pub enum PostError {
    /// Out of memory. With `spent: false` all is as before; with `spent: true` each later step answers the same.
    NoMemory { spent: bool },
    /// The session has so many entries and bytes, and no room for the event: it may have 1,048,576 entries
    /// and 268,435,456 bytes.
    SessionFull { entries: u64, octets: u64 },
}

impl From<NoMemory> for PostError {
    ghost use Rattle.std.specs.Prelude.{◌≡◌, false};
    ghost use Rattle.grpc_base.specs.declared.post.PostError.TheVariants as failed;

    ghost from_gives = { λ _ e. e ≡ failed.NoMemory false };

    /// A caller that finds no memory itself has left the channel as it was.
    fn from(_e: NoMemory) -> PostError {
        PostError::NoMemory { spent: false }
    }
}

/// A channel to which events are posted. Each post that is answered makes one entry, and no other call does.
pub trait Post {
    /// The entries that were made through this handle.
    ghost made: { Self → List Entry };

    /// How often a post or an awaiting call has failed.
    ghost errors: { Self → ℕ };

    /// The error of the last one that failed.
    ghost last_error: { Self → Option PostError };

    /// How often the channel was looked at.
    ghost looks: { Self → ℕ };

    /// The last look.
    ghost last_look: { Self → Option Look };

    /// Numbers that name the channel and the share in it that is the handle's. No call changes them.
    ghost share: { Self → List ℕ };

    /// Makes an entry of an event, and answers its reply.
    fn post(&mut self, event: Event) -> Result<Reply, PostError>
        ensures made { Posts (made self.old) (made self.new) event result }
        ensures errors { CountsErrors (errors self.old) (errors self.new) (last_error self.old) (last_error self.new) result }
        ensures looks { (looks self.new ≡ looks self.old) × (last_look self.new ≡ last_look self.old) }
        ensures share { share self.new ≡ share self.old };
}

/// A channel that can be looked at, with no entry made.
pub trait Glance: Post {
    /// The channel's state, and what it waits for.
    fn glance(&mut self) -> View
        ensures made { Self.made self.new ≡ Self.made self.old }
        ensures errors { (Self.errors self.new ≡ Self.errors self.old) × (Self.last_error self.new ≡ Self.last_error self.old) }
        ensures looks { (Self.looks self.new ≡ one_more (Self.looks self.old)) × (Self.last_look self.new ≡ Some (look.Glance result)) }
        ensures share { Self.share self.new ≡ Self.share self.old };

    /// Whether a Drain of this link would give bytes.
    fn can_drain(&mut self, link: u32) -> bool
        ensures made { Self.made self.new ≡ Self.made self.old }
        ensures errors { (Self.errors self.new ≡ Self.errors self.old) × (Self.last_error self.new ≡ Self.last_error self.old) }
        ensures looks { (Self.looks self.new ≡ one_more (Self.looks self.old)) × (Self.last_look self.new ≡ Some (look.CanDrain link result)) }
        ensures share { Self.share self.new ≡ Self.share self.old };

    /// Whether a Take of this call would be answered with other than NotYet.
    fn can_take(&mut self, call: u32) -> bool
        ensures made { Self.made self.new ≡ Self.made self.old }
        ensures errors { (Self.errors self.new ≡ Self.errors self.old) × (Self.last_error self.new ≡ Self.last_error self.old) }
        ensures looks { (Self.looks self.new ≡ one_more (Self.looks self.old)) × (Self.last_look self.new ≡ Some (look.CanTake call result)) }
        ensures share { Self.share self.new ≡ Self.share self.old };

    /// Whether a Send of a message of this length would be answered with other than Full.
    fn can_send(&mut self, call: u32, len: u32) -> bool
        ensures made { Self.made self.new ≡ Self.made self.old }
        ensures errors { (Self.errors self.new ≡ Self.errors self.old) × (Self.last_error self.new ≡ Self.last_error self.old) }
        ensures looks { (Self.looks self.new ≡ one_more (Self.looks self.old)) × (Self.last_look self.new ≡ Some (look.CanSend call len result)) }
        ensures share { Self.share self.new ≡ Self.share self.old };
}

/// A channel on which a caller can wait. Waiting makes no entries.
pub trait Caller: Post {
    /// Takes the head, the next message or the end of a call, as soon as one has come.
    fn await_take(&mut self, call: u32) -> Result<Reply, PostError>
        ensures made { Posts (Self.made self.old) (Self.made self.new) (event.Take call) result }
        ensures come { IfOk result (λ r. is_not_yet r ≡ false) }
        ensures errors { CountsErrors (Self.errors self.old) (Self.errors self.new) (Self.last_error self.old) (Self.last_error self.new) result }
        ensures looks { (Self.looks self.new ≡ Self.looks self.old) × (Self.last_look self.new ≡ Self.last_look self.old) }
        ensures share { Self.share self.new ≡ Self.share self.old };

    /// Sends a message as soon as the call has room for it.
    fn await_send(&mut self, call: u32, message: Octets) -> Result<Reply, PostError>
        ensures made { Posts (Self.made self.old) (Self.made self.new) (event.Send call message) result }
        ensures taken { IfOk result (λ r. is_full r ≡ false) }
        ensures errors { CountsErrors (Self.errors self.old) (Self.errors self.new) (Self.last_error self.old) (Self.last_error self.new) result }
        ensures looks { (Self.looks self.new ≡ Self.looks self.old) × (Self.last_look self.new ≡ Self.last_look self.old) }
        ensures share { Self.share self.new ≡ Self.share self.old };
}
