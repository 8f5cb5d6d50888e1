// Whether a session has room for an event.
ghost use Rattle.std.specs.Prelude.{◌+◌, ◌≡◌, IfOk, length};
ghost use Rattle.std.specs.List.{sum_by};
ghost use Rattle.std.specs.Option.{option_map_or};
ghost use Rattle.grpc_base.specs.Posts.{event_bytes, fields_bytes};
ghost use Rattle.session_actions.specs.Entries.{entry_bytes, given_bytes, has_room, journal_bytes, may_open};

use grpc_base::{Entry, Event, Field, NoMemory, Octets, Reply, Request};
use session_actions::Seen;

fn fields_bytes(fields: &[Field]) -> Result<u64, NoMemory>
    ensures { IfOk result (λ n. n ≡ fields_bytes fields.now) }
{
    let mut bytes = 0u64;
    for field in fields {
        let more = field
            .name
            .len()
            .checked_add(field.value.len())
            .ok_or(NoMemory)?;
        bytes = bytes.checked_add(more as u64).ok_or(NoMemory)?;
    }
    Ok(bytes)
}

fn request_bytes(request: &Request) -> Result<u64, NoMemory>
    ensures { IfOk result (λ n. n ≡ 64 + length request.now.path + fields_bytes request.now.meta) }
{
    let path = with_entry(request.path().len())?;
    path.checked_add(fields_bytes(request.meta().as_slice())?)
        .ok_or(NoMemory)
}

/// The bytes of an entry, with these of its event.
fn with_entry(bytes: usize) -> Result<u64, NoMemory>
    ensures { IfOk result (λ n. n ≡ 64 + bytes) }
{
    64u64.checked_add(bytes as u64).ok_or(NoMemory)
}

fn text_bytes(text: &Option<Octets>) -> usize
    ensures { result ≡ option_map_or (λ t. length t) text.now 0 }
{
    match text {
        Some(text) => text.len(),
        None => 0,
    }
}

/// The bytes that an event adds.
fn event_bytes(event: &Event) -> Result<u64, NoMemory>
    ensures { IfOk result (λ n. n ≡ event_bytes event.now) }
{
    match event {
        Event::Begin { request } => request_bytes(request),
        Event::Send { call: _, message } => with_entry(message.len()),
        Event::Resolved { addresses, config } => {
            let list = with_entry(6 * addresses.as_list().as_slice().len())?;
            list.checked_add(text_bytes(config) as u64).ok_or(NoMemory)
        }
        Event::Arrived { link: _, piece } => with_entry(piece.len()),
        Event::Drain { link: _, room } => with_entry((*room).min(1_048_576) as usize),
        _ => Ok(64),
    }
}

fn given_bytes(reply: &Reply) -> usize
    ensures { result ≡ given_bytes reply.now }
{
    match reply {
        Reply::Octets { octets } => octets.len(),
        _ => 0,
    }
}

fn entry_bytes(event: &Event, reply: &Reply) -> Result<u64, NoMemory>
    ensures { IfOk result (λ n. n ≡ entry_bytes event.now reply.now) }
{
    match event {
        Event::Drain { .. } => with_entry(given_bytes(reply)),
        _ => event_bytes(event),
    }
}

fn journal_bytes(entries: &[Entry]) -> Result<u64, NoMemory>
    ensures { IfOk result (λ n. n ≡ journal_bytes entries.now) }
{
    let mut bytes = 0u64;
    for entry in entries {
        let more = entry_bytes(&entry.event, &entry.reply)?;
        bytes = bytes.checked_add(more).ok_or(NoMemory)?;
    }
    Ok(bytes)
}

fn has_room(event: &Event, seen: &Seen) -> Result<bool, NoMemory>
    ensures { IfOk result (λ b. b ≡ has_room event.now seen.now) }
{
    let journal = journal_bytes(seen.entries.as_slice())?;
    let bytes = journal.checked_add(event_bytes(event)?).ok_or(NoMemory)?;
    Ok(seen.entries.len() < 1_048_576 && bytes <= 268_435_456)
}

/// Whether an event may open an entry.
pub fn may_open(event: &Event, seen: &Seen) -> Result<bool, NoMemory>
    ensures { IfOk result (λ b. b ≡ may_open event.now seen.now) }
{
    let room = has_room(event, seen)?;
    Ok(seen.current.is_none() && room)
}
