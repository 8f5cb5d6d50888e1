// With what a channel was new, by numbers that only clauses read.
ghost use Rattle.std.specs.Prelude.{◌≡◌, map};
ghost use Rattle.shared_channel.specs.Running.{origin_of};

use boxcar::tag::{Names, Tag};
use grpc_base::Text;
use lb_policy::Balancer;
use std::marker::Model;

/// With what a channel was new: its authority, and of each policy the kind and the width. It has no bytes: it is for clauses.
#[derive(Drop)]
pub struct Origin {
    tag: Tag,
}

impl Model for Origin {
    ghost use Rattle.std.specs.Prelude.{ℕ, List};

    ghost Value = { List ℕ };

    ghost view = { λ o. o.tag.numbers };
}

/// What a channel is new with.
#[derive(Drop)]
struct Start<'a, P> {
    authority: &'a Text,
    policies: &'a Vec<P>,
}

/// Reads a start as the numbers of its origin.
struct Report;

impl<P: Balancer> Names<Start<'_, P>> for Report {
    ghost numbers = { λ start. origin_of start.authority.now (map P.seen start.policies.now.items) };
}

impl Origin {
    /// That of a channel which is new with this authority and these policies.
    pub fn of<P: Balancer>(authority: &Text, policies: &Vec<P>) -> Origin
        ensures { result ≡ origin_of authority.now (map P.seen policies.now.items) }
    {
        let start = Start {
            authority,
            policies,
        };
        Origin {
            tag: Tag::of::<Start<P>, Report>(&start),
        }
    }
}
