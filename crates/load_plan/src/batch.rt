// A batch of a load: up to sixteen calls, sixteen rounds of passing time, and the takes of these calls.
ghost use Rattle.std.specs.Prelude.{◌≡◌, ◌≤◌, ◌<◌, ◌+◌, ◌*◌, ◌++◌, ◌∷◌, [], IfOk, OnOk, flat_map, map, replicate};
ghost use Rattle.std.specs.List.{range_with_len};
ghost use Rattle.grpc_base.specs.Limits.{moment_limit};
ghost use Rattle.grpc_base.specs.declared.event.Event.TheVariants as event;
ghost use Rattle.load_plan.specs.Answers.{request};
ghost use Rattle.load_plan.specs.Batches.{batch_moment, batches_of, calls_in};
ghost use Rattle.load_plan.specs.Plan.{batch_actions, call_actions, message, round_actions, takes_at};

use crate::action::{LoadAction, LoadStep, append_step};
use crate::answers::load_path;
use crate::load::{BATCH, Load};
use crate::words::drawn;
use grpc_base::{Event, Items, Metadata, NoMemory, Octets, Request, RequestFault};
use std::alloc::Global;

/// The rounds after the calls of a batch.
const ROUNDS: u32 = 16;

/// How many nanoseconds pass in a round.
const ROUND: u64 = 10_000_000;

/// The most bytes of a message.
const MESSAGE: u64 = 1_000;

/// What each byte of a message is.
const BYTE: u8 = 0x61;

impl Load {
    /// What is done in a batch, whose number counts from 0: its calls, its rounds, and takes of each of its calls.
    pub fn batch(self, alloc: Global, number: u32) -> Result<Items<LoadAction>, NoMemory>
        requires { number < batches_of self.calls }
        ensures { IfOk result (λ actions. actions ≡ batch_actions self.seed self.calls number) }
    {
        let mut actions = Items::new(alloc);
        let before = number * BATCH;
        let count = BATCH.min(self.calls - before);
        let begun = number as u64 * ROUNDS as u64 * ROUND;
        append_calls(alloc, &mut actions, self.seed, begun, before, count)?;
        append_rounds(&mut actions, begun)?;
        append_takes(&mut actions, begun + ROUNDS as u64 * ROUND, before, count)?;
        Ok(actions)
    }
}

/// Appends what `count` calls do after the first `before` calls, all at one moment.
fn append_calls(
    alloc: Global,
    actions: &mut Items<LoadAction>,
    seed: u64,
    nanos: u64,
    before: u32,
    count: u32,
) -> Result<(), NoMemory>
    requires moment { nanos ≤ moment_limit }
    requires calls { before + count ≤ 10000 }
    ensures { OnOk result (actions.new ≡ actions.old ++ flat_map (call_actions seed nanos) (range_with_len (before + 1) count)) }
{
    for place in 0..count {
        append_call(alloc, actions, seed, nanos, before + 1 + place)?;
    }
    Ok(())
}

/// Appends what one call does: it begins, sends its message and finishes, and the links exchange what they hold.
fn append_call(
    alloc: Global,
    actions: &mut Items<LoadAction>,
    seed: u64,
    nanos: u64,
    call: u32,
) -> Result<(), NoMemory>
    requires { nanos ≤ moment_limit }
    ensures { OnOk result (actions.new ≡ actions.old ++ call_actions seed nanos call) }
{
    let request = request(alloc)?;
    append_step(actions, nanos, LoadStep::Post(Event::Begin { request }))?;
    let message = message(alloc, seed, call)?;
    append_step(
        actions,
        nanos,
        LoadStep::Post(Event::Send { call, message }),
    )?;
    append_step(actions, nanos, LoadStep::Post(Event::Finish { call }))?;
    append_step(actions, nanos, LoadStep::Exchange)
}

/// The request of each call: no metadata, and nothing said of waiting or of a timeout.
fn request(alloc: Global) -> Result<Request, NoMemory>
    ensures { IfOk result (λ r. r ≡ request) }
{
    match Request::new(load_path(alloc)?, Metadata::new(alloc), None, None) {
        Ok(request) => Ok(request),
        Err(RequestFault::BadPath) => unreachable!(),
        Err(RequestFault::BadTimeout) => unreachable!(),
    }
}

/// The message of a call: up to 1,000 bytes, as the word of the call says.
fn message(alloc: Global, seed: u64, call: u32) -> Result<Octets, NoMemory>
    ensures { IfOk result (λ m. m ≡ message seed call) }
{
    let len = drawn(seed, call, MESSAGE);
    let bytes = vec![in alloc; BYTE; len as usize]?;
    Octets::of_vec(bytes)
}

/// Appends sixteen rounds, of which each posts a Tick after some time and exchanges what the links hold.
fn append_rounds(actions: &mut Items<LoadAction>, nanos: u64) -> Result<(), NoMemory>
    requires { nanos + 160000000 ≤ moment_limit }
    ensures { OnOk result (actions.new ≡ actions.old ++ flat_map (round_actions nanos) (range_with_len 1 16)) }
{
    for before in 0..ROUNDS {
        append_round(actions, nanos, before as u64 + 1)?;
    }
    Ok(())
}

/// Appends a round, from 1.
fn append_round(actions: &mut Items<LoadAction>, nanos: u64, round: u64) -> Result<(), NoMemory>
    requires { nanos + round * 10000000 ≤ moment_limit }
    ensures { OnOk result (actions.new ≡ actions.old ++ round_actions nanos round) }
{
    let moment = nanos + round * ROUND;
    append_step(actions, moment, LoadStep::Post(Event::Tick))?;
    append_step(actions, moment, LoadStep::Exchange)
}

/// Appends takes of `count` calls after the first `before` calls, all at one moment.
fn append_takes(
    actions: &mut Items<LoadAction>,
    nanos: u64,
    before: u32,
    count: u32,
) -> Result<(), NoMemory>
    requires moment { nanos ≤ moment_limit }
    requires calls { before + count ≤ 10000 }
    ensures { OnOk result (actions.new ≡ actions.old ++ map (takes_at nanos) (range_with_len (before + 1) count)) }
{
    for place in 0..count {
        let call = before + 1 + place;
        append_step(actions, nanos, LoadStep::Takes { call })?;
    }
    Ok(())
}
