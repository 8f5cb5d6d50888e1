// What a call's configuration says.
ghost use Rattle.std.specs.Prelude.{◌≡◌, ◌≤◌, IfSome};
ghost use Rattle.grpc_base.specs.Limits.{duration_limit};
ghost use Rattle.call_core.specs.Parts.{config_timeout, deadline_of, is_in_set, is_too_long, sooner, waits_for};

use grpc_base::{CallPlan, Chosen, Code, Moment, Request};

/// Whether a code is in the call's set.
pub fn is_in_set(plan: &CallPlan, code: Code) -> bool
    ensures { result ≡ is_in_set plan.now code }
{
    match plan {
        CallPlan::None => false,
        CallPlan::Retry(policy) => policy.codes.has(code),
        CallPlan::Hedge(policy) => policy.codes.has(code),
    }
}

/// Whether a message of so many bytes is above the limit of the call's requests.
pub fn is_too_long(chosen: &Option<Chosen>, len: usize) -> bool
    ensures { result ≡ is_too_long chosen.now len }
{
    let limit = chosen.as_ref().map(|chosen| chosen.request.bytes());
    limit.is_some_and(|limit| (limit as usize) < len)
}

/// Whether the call waits for ready: as the application says, or else the config.
pub fn waits(request: &Request, chosen: &Option<Chosen>) -> bool
    ensures { result ≡ waits_for request.now chosen.now }
{
    match request.wait() {
        Some(wait) => wait,
        None => chosen
            .as_ref()
            .is_some_and(|chosen| chosen.wait.unwrap_or(false)),
    }
}

fn config_timeout(chosen: &Option<Chosen>) -> Option<u64>
    ensures value { result ≡ config_timeout chosen.now }
    ensures within { IfSome result (λ t. t ≤ duration_limit) }
{
    match chosen {
        Some(chosen) => chosen.timeout.map(|timeout| timeout.nanos()),
        None => None,
    }
}

fn sooner(one: Option<u64>, other: Option<u64>) -> Option<u64>
    requires one { IfSome one (λ t. t ≤ duration_limit) }
    requires other { IfSome other (λ t. t ≤ duration_limit) }
    ensures value { result ≡ sooner one other }
    ensures within { IfSome result (λ t. t ≤ duration_limit) }
{
    match one {
        Some(one) => match other {
            Some(other) => Some(one.min(other)),
            None => Some(one),
        },
        None => other,
    }
}

/// The moment from which on the call's deadline has passed, in nanoseconds.
pub fn deadline_at(begun: Moment, request: &Request, chosen: &Option<Chosen>) -> Option<u64>
    ensures { result ≡ deadline_of begun request.now chosen.now }
{
    match sooner(request.timeout(), config_timeout(chosen)) {
        Some(timeout) => Some(begun.nanos() + timeout),
        None => None,
    }
}
