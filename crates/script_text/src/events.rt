// Events: their name and their fields, each word after a space.
ghost use Rattle.std.specs.Prelude.{◌≡◌, ◌++◌, ◌∷◌, [], codes, decimal, List, ℕ, OnOk};
ghost use Rattle.grpc_base.specs.declared.event.Event.TheVariants as event;
ghost use Rattle.script_text.specs.Output.{spaced};
ghost use Rattle.script_text.specs.Spelling.{event_words, hex_or_dash, hex_digits, word_bytes, addresses_text, config_hex};

use grpc_base::{AddressList, Event, Moment, NoMemory, Octets, Request, append_decimal};
use script_fields::{
    append_addresses, append_config, append_hex_of_word, append_hex_word, append_meta,
    append_number, append_number_or_dash, append_wait, append_word,
};
use std::alloc::Global;

/// Appends the words of a line of a script: the moment, the random word and the event.
pub fn append_stamp(
    alloc: Global,
    out: &mut Vec<u8>,
    moment: Moment,
    word: u64,
    event: &Event,
) -> Result<(), NoMemory>
    ensures { OnOk result (out.new.items ≡ out.old.items ++ decimal moment ++ spaced (decimal word ∷ event_words event.now)) }
{
    append_decimal(out, moment.nanos())?;
    append_number(out, word)?;
    append_event(alloc, out, event)
}

/// Appends an event's words.
pub fn append_event(alloc: Global, out: &mut Vec<u8>, event: &Event) -> Result<(), NoMemory>
    ensures { OnOk result (out.new.items ≡ out.old.items ++ spaced (event_words event.now)) }
{
    match event {
        Event::Begin { request } => append_begin(alloc, out, request),
        Event::Send { call, message } => append_bytes(alloc, out, b"send", *call, message),
        Event::Finish { call } => append_numbered(out, b"finish", *call as u64),
        Event::Take { call } => append_numbered(out, b"take", *call as u64),
        Event::Cancel { call } => append_numbered(out, b"cancel", *call as u64),
        Event::Resolved { addresses, config } => append_resolved(
            alloc,
            out,
            addresses.as_list(),
            config,
        ),
        Event::ResolveFailed => append_word(out, b"unresolved"),
        Event::TakeDial => append_word(out, b"dial"),
        Event::LinkUp { sub } => append_numbered(out, b"up", *sub as u64),
        Event::DialFailed { sub } => append_numbered(out, b"nodial", *sub as u64),
        Event::Arrived { link, piece } => append_bytes(alloc, out, b"arrived", *link, piece),
        Event::LinkLost { link } => append_numbered(out, b"lost", *link as u64),
        Event::Drain { link, room } => append_drain(out, *link, *room),
        Event::Ping { link, word } => append_ping(alloc, out, *link, *word),
        Event::Tick => append_word(out, b"tick"),
        Event::Shutdown => append_word(out, b"shutdown"),
    }
}

/// Appends a name and a number.
pub fn append_numbered(out: &mut Vec<u8>, name: &[u8], number: u64) -> Result<(), NoMemory>
    ensures { OnOk result (out.new.items ≡ out.old.items ++ spaced (name.now ∷ decimal number ∷ [])) }
{
    append_word(out, name)?;
    append_number(out, number)
}

/// Appends a name, a number and bytes.
fn append_bytes(
    alloc: Global,
    out: &mut Vec<u8>,
    name: &[u8],
    number: u32,
    bytes: &Octets,
) -> Result<(), NoMemory>
    ensures { OnOk result (out.new.items ≡ out.old.items ++ spaced (name.now ∷ decimal number ∷ hex_or_dash bytes.now ∷ [])) }
{
    append_numbered(out, name, number as u64)?;
    append_hex_word(alloc, out, bytes.as_slice())
}

/// Appends the words of the event that begins this call.
fn append_begin(alloc: Global, out: &mut Vec<u8>, request: &Request) -> Result<(), NoMemory>
    ensures { OnOk result (out.new.items ≡ out.old.items ++ spaced (event_words (event.Begin request.now))) }
{
    append_word(out, b"begin")?;
    append_word(out, request.path().as_slice())?;
    append_wait(out, request.wait())?;
    append_number_or_dash(out, request.timeout())?;
    append_meta(alloc, out, request.meta().as_slice())
}

/// Appends the words of this answer of the resolver.
fn append_resolved(
    alloc: Global,
    out: &mut Vec<u8>,
    addresses: &AddressList,
    config: &Option<Octets>,
) -> Result<(), NoMemory>
    ensures { OnOk result (out.new.items ≡ out.old.items ++ spaced (codes "resolved" ∷ addresses_text addresses.now ∷ config_hex config.now ∷ [])) }
{
    append_word(out, b"resolved")?;
    append_addresses(out, addresses.as_slice())?;
    append_config(alloc, out, config)
}

/// Appends the words of a request for bytes to write.
fn append_drain(out: &mut Vec<u8>, link: u32, room: u32) -> Result<(), NoMemory>
    ensures { OnOk result (out.new.items ≡ out.old.items ++ spaced (codes "drain" ∷ decimal link ∷ decimal room ∷ [])) }
{
    append_numbered(out, b"drain", link as u64)?;
    append_number(out, room as u64)
}

/// Appends the words of a request for a PING.
fn append_ping(alloc: Global, out: &mut Vec<u8>, link: u32, word: u64) -> Result<(), NoMemory>
    ensures { OnOk result (out.new.items ≡ out.old.items ++ spaced (codes "ping" ∷ decimal link ∷ hex_digits (word_bytes word) ∷ [])) }
{
    append_numbered(out, b"ping", link as u64)?;
    out.push(b' ')?;
    append_hex_of_word(alloc, out, word)
}
