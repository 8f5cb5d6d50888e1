// The action of an event itself, and the frames that it brings.
ghost use Rattle.std.specs.Prelude.{◌≡◌, IfOk, Some};
ghost use Rattle.session_actions.specs.Configs.{kinds_in, read_config};
ghost use Rattle.session_actions.specs.Events.{event_action, event_applied, frame_action, frame_of_event, is_loss};

use grpc_base::{ConfigFault, Event, KindSet, NoMemory, Octets, Refusal, Reply};
use service_config::Config;
use session_actions::{Action, OpenEntry, PolicyKind, Seen};
use slow_attempts::numbered;
use slow_calls::{
    is_after_event, next_frame_read, next_item, next_written, send_action, take_action,
};
use slow_net::{refusal_of, take_dial};
use std::alloc::Global;

/// The kinds of these policies.
fn kinds_in(policies: &[PolicyKind]) -> KindSet
    ensures { result ≡ kinds_in policies.now }
{
    let Some((first, rest)) = policies.split_first() else {
        return KindSet::new();
    };
    let mut kinds = kinds_in(rest);
    kinds.add(first.kind);
    kinds
}

/// What a config text is read as.
fn config_of(
    alloc: Global,
    text: &[u8],
    seen: &Seen,
) -> Result<Result<Config, ConfigFault>, NoMemory>
    ensures { IfOk result (λ c. c ≡ read_config (Some text.now) seen.now) }
{
    match service_config::read_config(alloc, text, kinds_in(seen.setup.policies.as_slice())) {
        Ok(config) => Ok(Ok(config)),
        Err(ConfigFault::NoMemory) => Err(NoMemory),
        Err(fault) => Ok(Err(fault)),
    }
}

/// What a result's config is read as.
fn read_config(
    alloc: Global,
    text: &Option<Octets>,
    seen: &Seen,
) -> Result<Result<Config, ConfigFault>, NoMemory>
    ensures { IfOk result (λ c. c ≡ read_config text.now seen.now) }
{
    match text {
        Some(text) => config_of(alloc, text.as_slice(), seen),
        None => Ok(Ok(Config::empty(alloc))),
    }
}

fn send(call: u32, message: &Octets, seen: &Seen) -> Result<Option<Action>, NoMemory>
    ensures { IfOk result (λ a. a ≡ event_applied (Event.Send call message.now) seen.now) }
{
    match numbered(&seen.calls, u64::from(call)) {
        Some(found) => Ok(Some(send_action(call, message.as_slice(), seen, found)?)),
        None => Ok(None),
    }
}

fn take(alloc: Global, call: u32, seen: &Seen) -> Result<Option<Action>, NoMemory>
    ensures { IfOk result (λ a. a ≡ event_applied (Event.Take call) seen.now) }
{
    match numbered(&seen.calls, u64::from(call)) {
        Some(found) => Ok(Some(take_action(call, next_item(alloc, found, seen)?))),
        None => Ok(None),
    }
}

/// What an event does that is not refused.
fn event_applied(alloc: Global, event: &Event, seen: &Seen) -> Result<Option<Action>, NoMemory>
    ensures { IfOk result (λ a. a ≡ event_applied event.now seen.now) }
{
    let action = match event {
        Event::Begin { request: _ } => Action::CallBegins,
        Event::Send { call, message } => return send(*call, message, seen),
        Event::Finish { call } => Action::RequestFinished { call: *call },
        Event::Take { call } => return take(alloc, *call, seen),
        Event::Cancel { call: _ } | Event::Tick => Action::EventAnswered { reply: Reply::Done },
        Event::Resolved {
            addresses: _,
            config,
        } => Action::ConfigRead {
            config: read_config(alloc, config, seen)?,
        },
        Event::ResolveFailed => Action::ResolutionFailed,
        Event::TakeDial => take_dial(seen)?,
        Event::LinkUp { sub } => Action::LinkUp { sub: *sub },
        Event::DialFailed { sub } => Action::DialFails { sub: *sub },
        Event::Arrived { link, piece: _ } => Action::BytesArrive { link: *link },
        Event::LinkLost { link } => Action::LinkLost { link: *link },
        Event::Drain { link: _, room: _ } => Action::EventAnswered {
            reply: Reply::Octets {
                octets: Octets::new(),
            },
        },
        Event::Ping { link, word: _ } => Action::PingQueued { link: *link },
        Event::Shutdown => Action::ChannelShuts,
    };
    Ok(Some(action))
}

/// The action of an event: its refusal, or what it does.
pub fn event_action(alloc: Global, event: &Event, seen: &Seen) -> Result<Option<Action>, NoMemory>
    ensures { IfOk result (λ a. a ≡ event_action event.now seen.now) }
{
    match refusal_of(event, seen) {
        Some(refusal) => Ok(Some(Action::EventRefused { refusal })),
        None => event_applied(alloc, event, seen),
    }
}

fn frame_of_event(
    alloc: Global,
    current: &OpenEntry,
    seen: &Seen,
) -> Result<Option<Action>, NoMemory>
    ensures { IfOk result (λ a. a ≡ frame_of_event current.now.event current.now seen.now) }
{
    match &current.event {
        Event::Arrived { link, piece: _ } => next_frame_read(alloc, *link, seen),
        Event::Drain { link, room } => next_written(alloc, *link, *room, current, seen),
        _ => Ok(None),
    }
}

/// The next frame of a piece that is read, or of a Drain that is written.
pub fn frame_action(
    alloc: Global,
    current: &OpenEntry,
    seen: &Seen,
) -> Result<Option<Action>, NoMemory>
    ensures { IfOk result (λ a. a ≡ frame_action current.now seen.now) }
{
    if is_after_event(current) {
        frame_of_event(alloc, current, seen)
    } else {
        Ok(None)
    }
}

/// Whether an event is the loss of a link.
pub fn is_loss(event: &Event) -> bool
    ensures { result ≡ is_loss event.now }
{
    matches!(event, Event::LinkLost { .. })
}
