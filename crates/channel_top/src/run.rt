// A session: a channel is given the events of a script, one after another.
ghost use Rattle.std.specs.Prelude.{◌≡◌, ℕ, Err, IfOk};
ghost use Rattle.channel_top.specs.Runs.{RunsTo, StepsTo};

use channel_core::{ChannelCore, CoreError};
use grpc_base::{NoMemory, Stamped};
use journal_room::keeps_its_types;
use lb_policy::Balancer;
use session_text::Ran;

/// Gives a channel these events in order, up to the first for which its journal has no room.
pub fn run_events<P: Balancer>(
    core: &mut ChannelCore<P>,
    events: Vec<Stamped>,
) -> Result<Ran, NoMemory>
    ensures { IfOk result (λ ran. RunsTo ran core.old events.items core.new) }
{
    let mut rest = events.into_iter();
    while let Some(stamped) = rest.next() {
        match step_once(core, stamped) {
            Ok(Ran::Whole) => {}
            Ok(Ran::Full) => return Ok(Ran::Full),
            Err(fault) => return Err(fault),
        }
    }
    Ok(Ran::Whole)
}

/// One step, whose reply the journal keeps; Full where the journal has no room for the event.
fn step_once<P: Balancer>(core: &mut ChannelCore<P>, stamped: Stamped) -> Result<Ran, NoMemory>
    ensures { IfOk result (λ ran. StepsTo ran core.old stamped core.new) }
{
    keeps_its_types(&stamped.event);
    match core.step(stamped) {
        Ok(_reply) => Ok(Ran::Whole),
        Err(error) => match error {
            CoreError::SessionFull {
                entries: _,
                octets: _,
            } => Ok(Ran::Full),
            CoreError::NoMemory { spent: _ } => Err(NoMemory),
        },
    }
}
