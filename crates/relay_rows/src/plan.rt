// What a channel in memory replies.
ghost use Rattle.std.specs.Prelude.{◌≡◌, ◌⊎◌, ℕ, true, IfSome};
ghost use Rattle.grpc_base.specs.Posts.{MayReply};
ghost use Rattle.grpc_base.specs.declared.event.Event.TheVariants as event;
ghost use Rattle.grpc_base.specs.declared.event.Refusal.TheVariants as refusal;
ghost use Rattle.grpc_base.specs.declared.event.Reply.TheVariants as reply;

use crate::items::Item;
use grpc_base::{Event, Refusal, Reply};
use std::alloc::Global;
use table_rows::{Wrong, number};

/// An item that is to come of a call.
#[derive(Debug, Drop)]
struct Coming {
    call: u32,
    item: Item,
}

/// What the channel replies.
#[derive(Debug, Drop)]
pub struct Plan {
    /// What is to come, in order.
    coming: Vec<Coming>,
    /// How many messages it has room for.
    room: u32,
    /// Whether its looks show room that there is not.
    lies: bool,
    /// Whether it was shut down.
    shut: bool,
    /// Whether it refuses Send, Finish, Cancel and Take.
    refuses: bool,
    /// Which post fails, from 1; 0 for none.
    fails: u64,
    /// How many calls were begun.
    begun: u32,
    /// How many posts came.
    posts: u64,
    alloc: Global,
}

/// Whether an event of a call may be refused since there is no such call.
fn is_of_call(event: &Event) -> bool
    ensures { result ≡ true → MayReply event.now (reply.Refused refusal.NoSuchCall) }
{
    matches!(
        event,
        Event::Send { .. } | Event::Finish { .. } | Event::Cancel { .. } | Event::Take { .. }
    )
}

impl Plan {
    /// A channel with room, of whose calls nothing is to come.
    pub fn new(alloc: Global) -> Plan {
        Plan {
            coming: Vec::new(alloc),
            room: u32::MAX,
            lies: false,
            shut: false,
            refuses: false,
            fails: 0,
            begun: 0,
            posts: 0,
            alloc,
        }
    }

    /// Takes what a row says: `comes CALL ITEM`, `room N`, `lies`, `shut`, `refuses`, `fails N`.
    pub fn take(&mut self, kind: &str, input: &str) -> Result<(), Wrong> {
        match kind {
            "comes" => return self.expect(input),
            "room" => self.room = number_of(input)?,
            "fails" => self.fails = number(input)?,
            "lies" => self.lies = true,
            "shut" => self.shut = true,
            "refuses" => self.refuses = true,
            _ => return Err(Wrong::Form),
        }
        Ok(())
    }

    /// One more item that is to come.
    fn expect(&mut self, input: &str) -> Result<(), Wrong> {
        let (call, words) = input.split_once(' ').ok_or(Wrong::Form)?;
        let call = number_of(call)?;
        let item = Item::of(self.alloc, words)?;
        match self.coming.push(Coming { call, item }) {
            Ok(()) => Ok(()),
            Err(_) => Err(Wrong::NoMemory),
        }
    }

    /// Whether something is to come of a call.
    pub fn comes(&self, call: u32) -> bool {
        self.coming.iter().any(|it| it.call == call)
    }

    /// Whether a look shows room for a message.
    pub fn shows_room(&self) -> bool {
        self.lies || self.room > 0
    }

    /// Whether this post fails.
    pub fn fails_now(&mut self) -> bool {
        self.posts = self.posts.saturating_add(1);
        self.posts == self.fails
    }

    /// What comes next of a call.
    fn next_of(&mut self, call: u32) -> Reply
        ensures { MayReply (event.Take call) result }
    {
        match self.coming.iter().position(|it| it.call == call) {
            Some(place) => self.coming.remove(place).item.reply(self.alloc),
            None => Reply::NotYet,
        }
    }

    /// The reply to a message.
    fn hold(&mut self) -> Reply
        ensures { (result ≡ reply.Done) ⊎ (result ≡ reply.Full 0) }
    {
        if self.room == 0 {
            return Reply::Full { held: 0 };
        }
        self.room -= 1;
        Reply::Done
    }

    /// The reply to one more call.
    fn begin(&mut self) -> Reply
        ensures { (result ≡ reply.Refused refusal.Shut) ⊎ ((call : ℕ) × (result ≡ reply.Call call)) }
    {
        if self.shut {
            return Reply::Refused {
                refusal: Refusal::Shut,
            };
        }
        self.begun = self.begun.saturating_add(1);
        Reply::Call { call: self.begun }
    }

    /// The reply to an event of an application; None to any other.
    pub fn reply_to(&mut self, event: &Event) -> Option<Reply>
        ensures { IfSome result (λ r. MayReply event.now r) }
    {
        if self.refuses && is_of_call(event) {
            return Some(Reply::Refused {
                refusal: Refusal::NoSuchCall,
            });
        }
        match event {
            Event::Begin { .. } => Some(self.begin()),
            Event::Send { .. } => Some(self.hold()),
            Event::Finish { .. } | Event::Cancel { .. } => Some(Reply::Done),
            Event::Take { call } => Some(self.next_of(*call)),
            _ => None,
        }
    }
}

/// A number of 32 bits.
pub fn number_of(text: &str) -> Result<u32, Wrong> {
    match u32::try_from(number(text)?) {
        Ok(number) => Ok(number),
        Err(_) => Err(Wrong::Form),
    }
}
