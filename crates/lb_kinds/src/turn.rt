// Turns among READY subchannels.
ghost use Rattle.std.specs.Prelude.{◌≡◌, ◌%◌, length};
ghost use Rattle.lb_policy.specs.Table.{pick_at};

use crate::conn::pick_without;
use grpc_base::{Conn, Pick};

/// The answer to a pick request after so many turns: the next one of these READY subchannels, or what the state of the
/// policy says where there is none.
pub fn pick_in_turn(ready: &[u32], turns: u64, state: Conn) -> Pick
    ensures { result ≡ pick_at ready.now (turns % length ready.now) state }
{
    if ready.is_empty() {
        return pick_without(state);
    }
    let place = turns % ready.len() as u64;
    Pick::Place(ready[place as usize])
}
