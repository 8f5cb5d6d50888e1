// A channel in memory for a relay: it makes an entry of each event, and replies by its plan.
ghost use Rattle.std.specs.Prelude.{◌≡◌, [], IfOk, OnErr, Some, true};
ghost use Rattle.grpc_base.specs.Counts.{one_more};
ghost use Rattle.grpc_base.specs.Posts.{AddsEntry, MayReply};
ghost use Rattle.grpc_base.specs.declared.post.PostError.TheVariants as failed;

use crate::plan::Plan;
use grpc_base::{
    Conn, Entry, Event, Glance, Items, Look, Moment, NoMemory, Post, PostError, Reply, View,
};
use std::alloc::Global;
use table_rows::Wrong;

/// A channel in memory.
#[derive(Debug, Drop)]
pub struct Channel {
    pub plan: Plan,
    entries: Items<Entry>,
    errors: u64,
    last_error: Option<PostError>,
    looks: u64,
    last_look: Option<Look>,
    zero: Moment,
}

impl Channel {
    /// A channel with no entry.
    pub fn new(alloc: Global) -> Result<Channel, Wrong> {
        Ok(Channel {
            plan: Plan::new(alloc),
            entries: Items::new(alloc),
            errors: 0,
            last_error: None,
            looks: 0,
            last_look: None,
            zero: Moment::new(0).ok_or(Wrong::Form)?,
        })
    }

    /// The entries that were made.
    pub fn entries(&self) -> &[Entry] {
        self.entries.as_slice()
    }

    /// One post that makes no entry.
    fn fail(&mut self) -> PostError
        ensures counts { (self.new.errors ≡ one_more self.old.errors) × (self.new.last_error ≡ Some result) }
        ensures error { result ≡ failed.NoMemory true }
        ensures same { (self.new.entries ≡ self.old.entries) × (self.new.looks ≡ self.old.looks) × (self.new.last_look ≡ self.old.last_look) }
    {
        let error = PostError::NoMemory { spent: true };
        self.errors = self.errors.saturating_add(1);
        self.last_error = Some(error);
        error
    }

    /// One entry more.
    fn enter(&mut self, event: Event, reply: Reply) -> Result<Reply, NoMemory>
        requires { MayReply event reply }
        ensures entry { IfOk result (λ r. AddsEntry self.old.entries self.new.entries event r × MayReply event r) }
        ensures none { OnErr result (self.new.entries ≡ self.old.entries) }
        ensures errors { (self.new.errors ≡ self.old.errors) × (self.new.last_error ≡ self.old.last_error) }
        ensures looks { (self.new.looks ≡ self.old.looks) × (self.new.last_look ≡ self.old.last_look) }
    {
        let given = reply.copy()?;
        let entry = Entry {
            moment: self.zero,
            word: 0,
            event,
            reply,
            state: Conn::Ready,
        };
        self.entries.push(entry)?;
        Ok(given)
    }

    /// Counts a look.
    fn look(&mut self, look: Look)
        ensures looks { (self.new.looks ≡ one_more self.old.looks) × (self.new.last_look ≡ Some look) }
        ensures same { (self.new.entries ≡ self.old.entries) × (self.new.errors ≡ self.old.errors) × (self.new.last_error ≡ self.old.last_error) }
    {
        self.looks = self.looks.saturating_add(1);
        self.last_look = Some(look);
    }
}

impl Post for Channel {
    ghost made = { λ c. c.entries };

    ghost errors = { λ c. c.errors };

    ghost last_error = { λ c. c.last_error };

    ghost looks = { λ c. c.looks };

    ghost last_look = { λ c. c.last_look };

    ghost share = { λ c. [] };

    fn post(&mut self, event: Event) -> Result<Reply, PostError> {
        if self.plan.fails_now() {
            return Err(self.fail());
        }
        let Some(reply) = self.plan.reply_to(&event) else {
            return Err(self.fail());
        };
        match self.enter(event, reply) {
            Ok(reply) => Ok(reply),
            Err(NoMemory) => Err(self.fail()),
        }
    }
}

impl Glance for Channel {
    fn glance(&mut self) -> View {
        let view = View {
            state: Conn::Ready,
            wants_resolution: false,
            next: None,
            dialable: false,
            spent: false,
        };
        self.look(Look::Glance { view });
        view
    }

    fn can_drain(&mut self, link: u32) -> bool {
        self.look(Look::CanDrain {
            link,
            answer: false,
        });
        false
    }

    fn can_take(&mut self, call: u32) -> bool {
        let answer = self.plan.comes(call);
        self.look(Look::CanTake { call, answer });
        answer
    }

    fn can_send(&mut self, call: u32, len: u32) -> bool {
        let answer = self.plan.shows_room();
        self.look(Look::CanSend { call, len, answer });
        answer
    }
}
