// What a result of the resolver says of the service config.
ghost use Rattle.std.specs.Prelude.{◌++◌, ◌≡◌, ◌∷◌, [], IfOk, OnOk};
ghost use Rattle.std.specs.Option.{option_copied};
ghost use Rattle.session_actions.specs.Configs.{config_read, is_same_throttle, resolution_failed, resolver_answered, run_to_join, with_config, with_held, with_run, with_throttled};
ghost use Rattle.session_actions.specs.Words.{holds};

use crate::entries::replied;
use grpc_base::{ConfigFault, Items, NoMemory, Reply, Throttle};
use service_config::Config;
use session_actions::{HeldConfig, Seen, ThrottleRun};
use slow_attempts::{held_config, sum};
use std::alloc::Global;

fn resolver_answered(seen: &mut Seen)
    ensures { seen.new ≡ resolver_answered seen.old }
{
    seen.answered = true;
    seen.wants = false;
}

/// The resolver answers without a result.
pub fn resolution_failed(seen: &mut Seen)
    ensures { seen.new ≡ resolution_failed seen.old }
{
    resolver_answered(seen);
    replied(seen, Reply::Done);
}

fn is_same_throttle(throttle: Throttle, other: Throttle) -> bool
    ensures { result ≡ is_same_throttle throttle other }
{
    throttle.start == other.start && throttle.ratio == other.ratio
}

fn joins(throttle: Throttle, other: Option<Throttle>) -> bool
    ensures { result ≡ holds (is_same_throttle throttle) other }
{
    match other {
        Some(other) => is_same_throttle(throttle, other),
        None => false,
    }
}

/// The run of the config before, where its settings are the same.
fn run_to_join(throttle: Throttle, seen: &Seen) -> Option<u64>
    ensures { result ≡ run_to_join throttle seen.now }
{
    let held = held_config(seen)?;
    if joins(throttle, held.config.throttle) {
        held.run
    } else {
        None
    }
}

fn with_config(seen: &mut Seen, config: Config, run: Option<u64>) -> Result<(), NoMemory>
    ensures { OnOk result (seen.new ≡ with_config config run seen.old) }
{
    seen.configs.push(HeldConfig { config, run })
}

fn with_run(alloc: Global, seen: &mut Seen, throttle: Throttle) -> Result<(), NoMemory>
    ensures { OnOk result (seen.new ≡ with_run throttle seen.old) }
{
    seen.runs.push(ThrottleRun {
        throttle,
        ends: Items::new(alloc),
    })
}

fn with_throttled(
    alloc: Global,
    seen: &mut Seen,
    config: Config,
    throttle: Throttle,
    run: Option<u64>,
) -> Result<(), NoMemory>
    ensures { OnOk result (seen.new ≡ with_throttled config throttle run seen.old) }
{
    match run {
        Some(run) => with_config(seen, config, Some(run)),
        None => {
            let run = sum(seen.runs.len() as u64, 1)?;
            with_run(alloc, seen, throttle)?;
            with_config(seen, config, Some(run))
        }
    }
}

/// A valid config is held from now on.
fn with_held(
    alloc: Global,
    seen: &mut Seen,
    config: Config,
    throttle: Option<Throttle>,
) -> Result<(), NoMemory>
    ensures { OnOk result (seen.new ≡ with_held config throttle seen.old) }
{
    match throttle {
        Some(throttle) => {
            let run = run_to_join(throttle, seen);
            with_throttled(alloc, seen, config, throttle, run)
        }
        None => with_config(seen, config, None),
    }
}

/// The resolver's result is read: its service config, or the fault of that.
pub fn config_read(
    alloc: Global,
    seen: &mut Seen,
    config: Result<Config, ConfigFault>,
) -> Result<(), NoMemory>
    ensures { OnOk result (seen.new ≡ config_read config seen.old) }
{
    resolver_answered(seen);
    match config {
        Ok(config) => {
            let throttle = config.throttle;
            replied(seen, Reply::Done);
            with_held(alloc, seen, config, throttle)
        }
        Err(fault) => {
            replied(seen, Reply::BadConfig { fault });
            Ok(())
        }
    }
}
