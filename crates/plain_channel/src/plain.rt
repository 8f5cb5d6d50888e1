// Policies that are in no box.
use arrayvec::ArrayVec;
use grpc_base::{Conn, Kind, Pick};
use lb_kinds::{PickFirst, RoundRobin};
use lb_policy::{Balancer, Policy, SubSeen};

/// A policy that is in no box.
#[derive(Drop)]
pub enum Plain {
    First(PickFirst),
    Round(RoundRobin),
}

impl Balancer for Plain {
    ghost use Rattle.grpc_base.specs.declared.kind.Kind.TheVariants as kind;
    ghost use Rattle.lb_kinds.specs.Seen.{of_kind};
    ghost use Rattle.plain_channel.specs.declared.plain.Plain.TheVariants as plain;

    ghost seen = { λ p. elim p [ plain.First policy ↦ of_kind kind.PickFirst policy | plain.Round policy ↦ of_kind kind.RoundRobin policy ] };

    fn kind(&self) -> Kind {
        match self {
            Plain::First(policy) => policy.kind(),
            Plain::Round(policy) => policy.kind(),
        }
    }

    fn reset(&mut self) {
        match self {
            Plain::First(policy) => policy.reset(),
            Plain::Round(policy) => policy.reset(),
        }
    }

    fn accept(&mut self, subs: &[SubSeen]) {
        match self {
            Plain::First(policy) => policy.accept(subs),
            Plain::Round(policy) => policy.accept(subs),
        }
    }

    fn note(&mut self, sub: u32, state: Conn) {
        match self {
            Plain::First(policy) => policy.note(sub, state),
            Plain::Round(policy) => policy.note(sub, state),
        }
    }

    fn wish(&self) -> ArrayVec<u32, 64> {
        match self {
            Plain::First(policy) => policy.wish(),
            Plain::Round(policy) => policy.wish(),
        }
    }

    fn state(&self) -> Conn {
        match self {
            Plain::First(policy) => policy.state(),
            Plain::Round(policy) => policy.state(),
        }
    }

    fn pick(&mut self) -> Pick {
        match self {
            Plain::First(policy) => policy.pick(),
            Plain::Round(policy) => policy.pick(),
        }
    }
}
