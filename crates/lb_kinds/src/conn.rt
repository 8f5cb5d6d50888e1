// The tests of a connectivity state, and what a pick answers without a READY subchannel.
ghost use Rattle.std.specs.Prelude.{◌≡◌};
ghost use Rattle.lb_policy.specs.Table as table;

use grpc_base::{Conn, Pick};

pub fn is_ready(state: Conn) -> bool
    ensures { result ≡ table.is_ready state }
{
    matches!(state, Conn::Ready)
}

/// Whether it is any state but TRANSIENT_FAILURE.
pub fn is_open(state: Conn) -> bool
    ensures { result ≡ table.is_open state }
{
    !matches!(state, Conn::Failure)
}

pub fn is_starting(state: Conn) -> bool
    ensures { result ≡ table.is_starting state }
{
    matches!(state, Conn::Idle | Conn::Connecting)
}

/// The answer to a pick request of a policy in this state that has no READY subchannel.
pub fn pick_without(state: Conn) -> Pick
    ensures { result ≡ table.pick_without state }
{
    match state {
        Conn::Failure => Pick::Fail,
        _ => Pick::Wait,
    }
}
