// What a call gets of the service configs.
ghost use Rattle.std.specs.Option.{option_copied};
ghost use Rattle.std.specs.Prelude.{◌≡◌};
ghost use Rattle.session_actions.specs.Configs.{chosen_of, config_of_call, deadline, held_config, is_to_configure, is_too_long, is_unconfigured, no_choice, plan_of, waits_for_ready};

use crate::words::{last_of, numbered};
use grpc_base::{CallPlan, Chosen, MessageLimit};
use session_actions::{Call, HeldConfig, Seen};

/// The config that is held: the last valid one.
pub fn held_config(seen: &Seen) -> Option<&HeldConfig>
    ensures { option_copied result ≡ held_config seen.now }
{
    last_of(&seen.configs)
}

/// Whether the resolver has answered, and no valid config came yet.
pub fn is_unconfigured(seen: &Seen) -> bool
    ensures { result ≡ is_unconfigured seen.now }
{
    seen.answered && held_config(seen).is_none()
}

/// The config that a call got.
pub fn config_of_call<'a>(call: &Call, seen: &'a Seen) -> Option<&'a HeldConfig>
    ensures { option_copied result ≡ config_of_call call.now seen.now }
{
    numbered(&seen.configs, call.config?)
}

/// What is chosen where a call has no config.
fn no_choice() -> Chosen
    ensures { result ≡ no_choice }
{
    let largest = MessageLimit::new(MessageLimit::LARGEST).unwrap();
    Chosen {
        wait: None,
        timeout: None,
        request: largest,
        response: largest,
        plan: CallPlan::None,
        throttle: None,
    }
}

/// What a call's config chooses for its path.
pub fn chosen_of(call: &Call, seen: &Seen) -> Chosen
    ensures { result ≡ chosen_of call.now seen.now }
{
    match config_of_call(call, seen) {
        Some(held) => held.config.chosen(call.request.path()),
        None => no_choice(),
    }
}

/// The plan of a call for further attempts.
pub fn plan_of(call: &Call, seen: &Seen) -> CallPlan
    ensures { result ≡ plan_of call.now seen.now }
{
    chosen_of(call, seen).plan
}

/// Whether a call waits for ready: what the application says decides before the config.
pub fn waits_for_ready(call: &Call, seen: &Seen) -> bool
    ensures { result ≡ waits_for_ready call.now seen.now }
{
    match call.request.wait() {
        Some(waits) => waits,
        None => chosen_of(call, seen).wait.unwrap_or(false),
    }
}

/// The deadline of a call in nanoseconds: the lesser of both timeouts, from its begin on.
pub fn deadline(call: &Call, seen: &Seen) -> Option<u64>
    ensures { result ≡ deadline call.now seen.now }
{
    let begun = call.begun_at.nanos();
    let chosen = chosen_of(call, seen).timeout;
    match (call.request.timeout(), chosen) {
        (Some(own), Some(chosen)) => Some(begun + own.min(chosen.nanos())),
        (Some(own), None) => Some(begun + own),
        (None, Some(chosen)) => Some(begun + chosen.nanos()),
        (None, None) => None,
    }
}

/// Whether a message of a request is longer than the call's config allows.
pub fn is_too_long(message: &[u8], call: &Call, seen: &Seen) -> bool
    ensures { result ≡ is_too_long message.now call.now seen.now }
{
    call.config.is_some() && (chosen_of(call, seen).request.bytes() as usize) < message.len()
}

/// Whether an open call has no config, though one is held.
pub fn is_to_configure(seen: &Seen, call: &Call) -> bool
    ensures { result ≡ is_to_configure seen.now call.now }
{
    call.end.is_none() && call.config.is_none() && held_config(seen).is_some()
}
