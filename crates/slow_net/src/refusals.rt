// What an event is refused for.
ghost use Rattle.std.specs.Prelude.{◌≡◌};
ghost use Rattle.std.specs.List.{list_any};
ghost use Rattle.std.specs.Option.{option_copied};
ghost use Rattle.session_actions.specs.Reading.{is_outstanding_on};
ghost use Rattle.session_actions.specs.Refusals.{cancel_refusal, dial_refusal, is_gone, is_shutdown_sub, link_refusal, refusal_of, refusal_when_open, refused_if, send_refusal, take_refusal};

use crate::subchannels::is_dialling;
use crate::views::is_shutdown;
use grpc_base::{Event, Refusal};
use session_actions::{Call, Link, Seen, Subchannel};
use slow_attempts::numbered;
use slow_link::{is_outstanding_on, is_retiring};

fn is_shutdown_sub(seen: &Seen, sub: u32) -> bool
    ensures { result ≡ is_shutdown_sub seen.now sub }
{
    match numbered(&seen.subs, u64::from(sub)) {
        Some(sub) => is_shutdown(sub.state),
        None => false,
    }
}

fn is_used(link: &Link, seen: &Seen) -> bool
    ensures { result ≡ list_any (is_outstanding_on link.now) seen.now.attempts }
{
    seen.attempts
        .as_slice()
        .iter()
        .any(|attempt| is_outstanding_on(link, attempt))
}

/// Whether a link is gone.
pub fn is_gone(link: &Link, seen: &Seen) -> bool
    ensures { result ≡ is_gone link.now seen.now }
{
    link.over.is_some()
        || ((is_retiring(link) || is_shutdown_sub(seen, link.sub)) && !is_used(link, seen))
}

fn refused_if(stands: bool, refusal: Refusal, others: Option<Refusal>) -> Option<Refusal>
    ensures { result ≡ refused_if stands refusal others }
{
    if stands { Some(refusal) } else { others }
}

fn send_refusal(call: Option<&Call>) -> Option<Refusal>
    ensures { result ≡ send_refusal (option_copied call.entry) }
{
    match call {
        Some(call) => refused_if(
            call.end.is_some(),
            Refusal::CallEnded,
            refused_if(call.finished, Refusal::AfterFinish, None),
        ),
        None => Some(Refusal::NoSuchCall),
    }
}

fn cancel_refusal(call: Option<&Call>) -> Option<Refusal>
    ensures { result ≡ cancel_refusal (option_copied call.entry) }
{
    match call {
        Some(call) => refused_if(call.end.is_some(), Refusal::CallEnded, None),
        None => Some(Refusal::NoSuchCall),
    }
}

fn take_refusal(call: Option<&Call>) -> Option<Refusal>
    ensures { result ≡ take_refusal (option_copied call.entry) }
{
    match call {
        Some(call) => refused_if(call.end_taken, Refusal::CallEnded, None),
        None => Some(Refusal::NoSuchCall),
    }
}

fn dial_refusal(sub: Option<&Subchannel>) -> Option<Refusal>
    ensures { result ≡ dial_refusal (option_copied sub.entry) }
{
    match sub {
        Some(sub) => refused_if(!is_dialling(*sub), Refusal::NotDialing, None),
        None => Some(Refusal::NoSuchSub),
    }
}

fn link_refusal(seen: &Seen, link: Option<&Link>, others: Option<Refusal>) -> Option<Refusal>
    ensures { result ≡ link_refusal seen.now (option_copied link.entry) others }
{
    match link {
        Some(link) => refused_if(is_gone(link, seen), Refusal::LinkGone, others),
        None => Some(Refusal::NoSuchLink),
    }
}

/// What an event is refused for while the channel is open.
fn refusal_when_open(event: &Event, seen: &Seen) -> Option<Refusal>
    ensures { result ≡ refusal_when_open event.now seen.now }
{
    match event {
        Event::Send { call, .. } | Event::Finish { call } => send_refusal(numbered(
            &seen.calls,
            u64::from(*call),
        )),
        Event::Cancel { call } => cancel_refusal(numbered(&seen.calls, u64::from(*call))),
        Event::LinkUp { sub } | Event::DialFailed { sub } => dial_refusal(numbered(
            &seen.subs,
            u64::from(*sub),
        )),
        Event::Arrived { link, .. } | Event::LinkLost { link } | Event::Ping { link, .. } => {
            link_refusal(seen, numbered(&seen.links, u64::from(*link)), None)
        }
        Event::Drain { link, room } => {
            let small = refused_if(*room < 16_393, Refusal::RoomTooSmall, None);
            link_refusal(seen, numbered(&seen.links, u64::from(*link)), small)
        }
        _ => None,
    }
}

/// What an event is refused for.
pub fn refusal_of(event: &Event, seen: &Seen) -> Option<Refusal>
    ensures { result ≡ refusal_of event.now seen.now }
{
    match event {
        Event::Take { call } => take_refusal(numbered(&seen.calls, u64::from(*call))),
        Event::Tick | Event::Shutdown => None,
        _ => refused_if(seen.shut, Refusal::Shut, refusal_when_open(event, seen)),
    }
}
