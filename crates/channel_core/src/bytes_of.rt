// How many bytes an event adds to a session. Counts stand still at their type's end.
ghost use Rattle.std.specs.Prelude.{◌≡◌, ◌+◌, length};
ghost use Rattle.std.specs.List.{sum_by};
ghost use Rattle.std.specs.Option.{option_map_or};
ghost use Rattle.grpc_base.specs.Posts.{event_bytes, fields_bytes};
ghost use Rattle.channel_core.specs.Sizes.{counted, given, kept_bytes};

use grpc_base::{Event, Field, Octets, Reply, Request};

/// What each entry adds, beside the bytes of its event.
const ENTRY: u64 = 64;

/// What an address adds.
const ADDRESS: u64 = 6;

/// A drain gives at most so many bytes, whatever its room.
pub(crate) const DRAINED: u32 = 1_048_576;

/// The most bytes that an event adds.
pub fn event_bytes(event: &Event) -> u64
    ensures { result ≡ counted (event_bytes event.now) }
{
    match event {
        Event::Begin { request } => request_bytes(request),
        Event::Send { call: _, message } => counted_with(message.len() as u64),
        Event::Resolved { addresses, config } => {
            let addresses = ADDRESS.saturating_mul(addresses.as_list().len() as u64);
            let config = config.as_ref().map_or(0, |text| text.len() as u64);
            counted_with(addresses.saturating_add(config))
        }
        Event::Arrived { link: _, piece } => counted_with(piece.len() as u64),
        Event::Drain { link: _, room } => counted_with(u64::from((*room).min(DRAINED))),
        _ => ENTRY,
    }
}

/// The bytes of an entry of an event with this reply.
pub fn entry_bytes(event: &Event, reply: &Reply) -> u64
    ensures { result ≡ counted (kept_bytes event.now reply.now) }
{
    match event {
        Event::Drain { link: _, room: _ } => counted_with(given_bytes(reply)),
        _ => event_bytes(event),
    }
}

/// An entry's own bytes and these.
fn counted_with(bytes: u64) -> u64
    ensures { result ≡ counted (64 + bytes) }
{
    ENTRY.saturating_add(bytes)
}

/// The bytes of a request's entry.
fn request_bytes(request: &Request) -> u64
    ensures { result ≡ counted (64 + length request.now.path + fields_bytes request.now.meta) }
{
    let path = request.path().len() as u64;
    counted_with(path).saturating_add(fields_bytes(request.meta().as_slice()))
}

/// The names and values of some fields.
fn fields_bytes(fields: &[Field]) -> u64
    ensures { result ≡ counted (fields_bytes fields.now) }
{
    let mut bytes = 0u64;
    for field in fields {
        bytes = bytes
            .saturating_add(field.name.len() as u64)
            .saturating_add(field.value.len() as u64);
    }
    bytes
}

/// The bytes that a reply gives to be written.
fn given_bytes(reply: &Reply) -> u64
    ensures { result ≡ length (given reply.now) }
{
    match reply {
        Reply::Octets { octets } => octets.len() as u64,
        _ => 0,
    }
}
