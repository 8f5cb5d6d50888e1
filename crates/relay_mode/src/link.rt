// One link of a client, whose calls go through the channel.
ghost use Rattle.std.specs.Prelude.{◌≡◌};
ghost use Rattle.live_run.specs.Sides.{seen_by};
ghost use Rattle.relay_mode.specs.Links.{LinkRelayed, outcome_of_turn};

use crate::prompt::PromptIn;
use gate_io::{Clock, LinkIn, LinkOut};
use grpc_base::{Glance, Post};
use live_run::Outcome;
use relay_front::{RelayCore, RelayTurn, relay_link};
use std::alloc::Global;
use std::sync::Wait;

/// The work of one that relays a link.
#[derive(Drop)]
pub struct RelayJob<H> {
    pub alloc: Global,
    pub post: H,
    pub outcome: Outcome,
}

impl<H: Post + Glance> RelayJob<H> {
    /// Relays a link to its end.
    pub(crate) fn serve<W: Wait, C: Clock, I: LinkIn, O: LinkOut>(
        &mut self,
        rt: &W,
        clock: &C,
        input: &mut I,
        output: &mut O,
    )
        ensures { LinkRelayed (seen_by H.made H.errors H.last_error) H.share self.old self.new }
    {
        match RelayCore::new(self.alloc) {
            Ok(mut core) => {
                let mut prompt = PromptIn::new(input, clock);
                let turn = relay_link(rt, &mut self.post, &mut core, &mut prompt, output);
                self.outcome = outcome_of(&turn);
            }
            Err(_) => {
                output.close();
                self.outcome = Outcome::NoMemory;
            }
        }
    }
}

/// How a link ended with this turn. That its client broke a rule, and that the channel was shut down, are ends as any other.
fn outcome_of(turn: &RelayTurn) -> Outcome
    ensures { result ≡ outcome_of_turn turn.now }
{
    match turn {
        RelayTurn::Going | RelayTurn::Broken { code: _ } | RelayTurn::Gone { refusal: _ } => {
            Outcome::Whole
        }
        RelayTurn::Failed(error) => Outcome::of_error(*error),
        RelayTurn::NoMemory => Outcome::NoMemory,
    }
}
