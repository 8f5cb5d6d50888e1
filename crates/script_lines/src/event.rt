// The event of a line, from its name on.
ghost use Rattle.std.specs.Prelude.{◌≡◌, ℕ, List, [], ◌∷◌, IfOk, IfErr, IfSome, codes, length};
ghost use Rattle.std.specs.Option.{option_copied};
ghost use Rattle.script_fields.specs.Spelling.{fields};
ghost use Rattle.script_lines.specs.declared.name.EventName.TheVariants as name;
ghost use Rattle.script_lines.specs.Events.{IsEventFault, IsEventText, event_fields, name_text};
ghost use Rattle.script_lines.specs.Fields.{AreArgumentsFault, IsNumber, number_field, number_limit};
ghost use Rattle.script_lines.specs.Lines.{IsReportedBy, fields_after};

use crate::cause::{BAD_COUNT, LineFault, UNKNOWN_KIND, bad};
use crate::field::{
    addresses_field_of, config_field_of, message_field_of, number_of, piece_field_of, ping_field_of,
};
use crate::name::{EventName, name_of};
use crate::request::request_of;
use crate::split::{first_field, four_fields, one_field, two_fields};
use grpc_base::{BoxedAddresses, Event};
use std::alloc::Global;

/// The event that these fields give, of which the first is its name.
pub fn event_of(alloc: Global, text: &[u8]) -> Result<Event, LineFault>
    ensures ok { IfOk result (IsEventText (fields text.now)) }
    ensures bad { IfErr result (IsReportedBy (IsEventFault (fields text.now))) }
{
    let (first, rest) = first_field(text);
    let Some(name) = name_of(first) else {
        return Err(bad(UNKNOWN_KIND));
    };
    event_named(alloc, name, rest)
}

/// The event of this name that these fields give.
fn event_named(alloc: Global, name: EventName, rest: Option<&[u8]>) -> Result<Event, LineFault>
    ensures ok { IfOk result (IsEventText (name_text name ∷ fields_after (option_copied rest.entry))) }
    ensures bad { IfErr result (IsReportedBy (AreArgumentsFault (event_fields name) (fields_after (option_copied rest.entry)))) }
{
    match name {
        EventName::Begin => begin(alloc, rest),
        EventName::Send => send(alloc, rest),
        EventName::Finish => Ok(Event::Finish {
            call: number(rest)?,
        }),
        EventName::Take => Ok(Event::Take {
            call: number(rest)?,
        }),
        EventName::Cancel => Ok(Event::Cancel {
            call: number(rest)?,
        }),
        EventName::Resolved => resolved(alloc, rest),
        EventName::Unresolved => without_fields(rest, Event::ResolveFailed),
        EventName::Dial => without_fields(rest, Event::TakeDial),
        EventName::Up => Ok(Event::LinkUp { sub: number(rest)? }),
        EventName::NoDial => Ok(Event::DialFailed { sub: number(rest)? }),
        EventName::Arrived => arrived(alloc, rest),
        EventName::Lost => Ok(Event::LinkLost {
            link: number(rest)?,
        }),
        EventName::Drain => drain(rest),
        EventName::Ping => ping(rest),
        EventName::Tick => without_fields(rest, Event::Tick),
        EventName::Shutdown => without_fields(rest, Event::Shutdown),
    }
}

/// An event without fields.
fn without_fields(rest: Option<&[u8]>, event: Event) -> Result<Event, LineFault>
    ensures ok { IfOk result (λ e. (e ≡ event) × (fields_after (option_copied rest.entry) ≡ [])) }
    ensures bad { IfErr result (IsReportedBy (AreArgumentsFault [] (fields_after (option_copied rest.entry)))) }
{
    match rest {
        None => Ok(event),
        Some(_) => Err(bad(BAD_COUNT)),
    }
}

/// The one number of an event.
fn number(rest: Option<&[u8]>) -> Result<u32, LineFault>
    ensures ok { IfOk result (λ n. (text : List ℕ) × (fields_after (option_copied rest.entry) ≡ text ∷ []) × IsNumber number_limit n text) }
    ensures bad { IfErr result (IsReportedBy (AreArgumentsFault (number_field ∷ []) (fields_after (option_copied rest.entry)))) }
{
    let Some(text) = one_field(rest) else {
        return Err(bad(BAD_COUNT));
    };
    Ok(number_of(text)?)
}

/// A request that the application begins.
fn begin(alloc: Global, rest: Option<&[u8]>) -> Result<Event, LineFault>
    ensures ok { IfOk result (IsEventText (codes "begin" ∷ fields_after (option_copied rest.entry))) }
    ensures bad { IfErr result (IsReportedBy (AreArgumentsFault (event_fields name.Begin) (fields_after (option_copied rest.entry)))) }
{
    let Some((path, wait, timeout, meta)) = four_fields(rest) else {
        return Err(bad(BAD_COUNT));
    };
    let request = request_of(alloc, path, wait, timeout, meta)?;
    Ok(Event::Begin { request })
}

/// A message of a call.
fn send(alloc: Global, rest: Option<&[u8]>) -> Result<Event, LineFault>
    ensures ok { IfOk result (IsEventText (codes "send" ∷ fields_after (option_copied rest.entry))) }
    ensures bad { IfErr result (IsReportedBy (AreArgumentsFault (event_fields name.Send) (fields_after (option_copied rest.entry)))) }
{
    let Some((call, message)) = two_fields(rest) else {
        return Err(bad(BAD_COUNT));
    };
    let call = number_of(call)?;
    let message = message_field_of(alloc, message)?;
    Ok(Event::Send { call, message })
}

/// What the resolver found.
fn resolved(alloc: Global, rest: Option<&[u8]>) -> Result<Event, LineFault>
    ensures ok { IfOk result (IsEventText (codes "resolved" ∷ fields_after (option_copied rest.entry))) }
    ensures bad { IfErr result (IsReportedBy (AreArgumentsFault (event_fields name.Resolved) (fields_after (option_copied rest.entry)))) }
{
    let Some((addresses, config)) = two_fields(rest) else {
        return Err(bad(BAD_COUNT));
    };
    let addresses = addresses_field_of(addresses)?;
    let config = config_field_of(alloc, config)?;
    let addresses = BoxedAddresses::new(alloc, addresses)?;
    Ok(Event::Resolved { addresses, config })
}

/// Bytes that came on a link.
fn arrived(alloc: Global, rest: Option<&[u8]>) -> Result<Event, LineFault>
    ensures ok { IfOk result (IsEventText (codes "arrived" ∷ fields_after (option_copied rest.entry))) }
    ensures bad { IfErr result (IsReportedBy (AreArgumentsFault (event_fields name.Arrived) (fields_after (option_copied rest.entry)))) }
{
    let Some((link, piece)) = two_fields(rest) else {
        return Err(bad(BAD_COUNT));
    };
    let link = number_of(link)?;
    let piece = piece_field_of(alloc, piece)?;
    Ok(Event::Arrived { link, piece })
}

/// A link takes bytes, up to a room.
fn drain(rest: Option<&[u8]>) -> Result<Event, LineFault>
    ensures ok { IfOk result (IsEventText (codes "drain" ∷ fields_after (option_copied rest.entry))) }
    ensures bad { IfErr result (IsReportedBy (AreArgumentsFault (event_fields name.Drain) (fields_after (option_copied rest.entry)))) }
{
    let Some((link, room)) = two_fields(rest) else {
        return Err(bad(BAD_COUNT));
    };
    let link = number_of(link)?;
    let room = number_of(room)?;
    Ok(Event::Drain { link, room })
}

/// A link is asked whether it lives.
fn ping(rest: Option<&[u8]>) -> Result<Event, LineFault>
    ensures ok { IfOk result (IsEventText (codes "ping" ∷ fields_after (option_copied rest.entry))) }
    ensures bad { IfErr result (IsReportedBy (AreArgumentsFault (event_fields name.Ping) (fields_after (option_copied rest.entry)))) }
{
    let Some((link, word)) = two_fields(rest) else {
        return Err(bad(BAD_COUNT));
    };
    let link = number_of(link)?;
    let word = ping_field_of(word)?;
    Ok(Event::Ping { link, word })
}
