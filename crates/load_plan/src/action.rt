// What is done in a load, and when.
ghost use Rattle.std.specs.Prelude.{◌≡◌, ◌≤◌, ◌++◌, ◌∷◌, [], OnOk};
ghost use Rattle.grpc_base.specs.Limits.{moment_limit};
ghost use Rattle.load_plan.specs.Plan.{at};

use grpc_base::{Event, Items, Moment, NoMemory};

/// What is done at a moment.
#[derive(Debug, Drop)]
pub enum LoadStep {
    /// An event is posted to the channel.
    Post(Event),
    /// What the links hold is carried between the channel and the server: for link 1 and then link 2, what the channel
    /// drains goes to the server, and then what the server drains arrives at the channel.
    Exchange,
    /// Takes of this call are posted until one is answered with its end or that nothing has come.
    Takes { call: u32 },
}

/// One action of a load.
#[derive(Debug, Drop)]
pub struct LoadAction {
    pub moment: Moment,
    pub step: LoadStep,
}

/// Appends what is done at a moment, in nanoseconds. On out of memory nothing is claimed of the actions.
pub fn append_step(
    actions: &mut Items<LoadAction>,
    nanos: u64,
    step: LoadStep,
) -> Result<(), NoMemory>
    requires { nanos ≤ moment_limit }
    ensures { OnOk result (actions.new ≡ actions.old ++ at nanos step ∷ []) }
{
    let moment = moment_at(nanos);
    actions.push(LoadAction { moment, step })
}

/// The moment of so many nanoseconds.
fn moment_at(nanos: u64) -> Moment
    requires { nanos ≤ moment_limit }
    ensures { result ≡ nanos }
{
    match Moment::new(nanos) {
        Some(moment) => moment,
        None => unreachable!(),
    }
}
