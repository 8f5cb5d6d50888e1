// Replies: their name and their fields, each word after a space.
ghost use Rattle.std.specs.Prelude.{◌≡◌, ◌++◌, ◌∷◌, [], codes, decimal, List, ℕ, OnOk};
ghost use Rattle.grpc_base.specs.Codes.{code_number};
ghost use Rattle.script_text.specs.Output.{spaced};
ghost use Rattle.script_text.specs.Spelling.{reply_words, cause_text, config_fault_words, hex_or_dash, meta_text, percent_text, address_text};

use crate::events::append_numbered;
use grpc_base::{Address, Code, ConfigFault, EndCause, Metadata, NoMemory, Octets, Reply, Text};
use script_fields::{append_hex_word, append_meta, append_number, append_text, append_word};
use service_config::append_fault;
use std::alloc::Global;

/// Appends a reply's words.
pub fn append_reply(alloc: Global, out: &mut Vec<u8>, reply: &Reply) -> Result<(), NoMemory>
    ensures { OnOk result (out.new.items ≡ out.old.items ++ spaced (reply_words reply.now)) }
{
    match reply {
        Reply::Call { call } => append_numbered(out, b"call", *call as u64),
        Reply::Done => append_word(out, b"done"),
        Reply::Full { held } => append_numbered(out, b"full", *held as u64),
        Reply::Head { meta } => append_head(alloc, out, meta),
        Reply::Message { octets } => append_octets(alloc, out, b"message", octets),
        Reply::End {
            code,
            text,
            meta,
            cause,
        } => append_end(alloc, out, *code, text, meta, *cause),
        Reply::NotYet => append_word(out, b"notyet"),
        Reply::BadConfig { fault } => append_bad_config(out, fault),
        Reply::Dial {
            sub,
            address,
            until,
        } => append_dial(out, *sub, address, *until),
        Reply::Link { link } => append_numbered(out, b"link", *link as u64),
        Reply::Octets { octets } => append_octets(alloc, out, b"octets", octets),
        Reply::Refused { refusal } => append_numbered(out, b"refused", refusal.number() as u64),
    }
}

/// Appends a name and bytes.
fn append_octets(
    alloc: Global,
    out: &mut Vec<u8>,
    name: &[u8],
    octets: &Octets,
) -> Result<(), NoMemory>
    ensures { OnOk result (out.new.items ≡ out.old.items ++ spaced (name.now ∷ hex_or_dash octets.now ∷ [])) }
{
    append_word(out, name)?;
    append_hex_word(alloc, out, octets.as_slice())
}

/// Appends the words of the head of a response.
fn append_head(alloc: Global, out: &mut Vec<u8>, meta: &Metadata) -> Result<(), NoMemory>
    ensures { OnOk result (out.new.items ≡ out.old.items ++ spaced (codes "head" ∷ meta_text meta.now ∷ [])) }
{
    append_word(out, b"head")?;
    append_meta(alloc, out, meta.as_slice())
}

/// Appends the words of the end of a call.
fn append_end(
    alloc: Global,
    out: &mut Vec<u8>,
    code: Code,
    text: &Text,
    meta: &Metadata,
    cause: EndCause,
) -> Result<(), NoMemory>
    ensures { OnOk result (out.new.items ≡ out.old.items ++ spaced (codes "end" ∷ decimal (code_number code) ∷ percent_text text.now ∷ meta_text meta.now ∷ cause_text cause ∷ [])) }
{
    append_numbered(out, b"end", code.number() as u64)?;
    append_text(alloc, out, text.as_slice())?;
    append_meta(alloc, out, meta.as_slice())?;
    append_word(out, cause_bytes(cause))
}

/// Appends the words of a request to dial.
fn append_dial(out: &mut Vec<u8>, sub: u32, address: &Address, until: u64) -> Result<(), NoMemory>
    ensures { OnOk result (out.new.items ≡ out.old.items ++ spaced (codes "dial" ∷ decimal sub ∷ address_text address.now ∷ decimal until ∷ [])) }
{
    append_numbered(out, b"dial", sub as u64)?;
    out.push(b' ')?;
    address.append_to(out)?;
    append_number(out, until)
}

/// Why a call ended, as a word.
fn cause_bytes(cause: EndCause) -> &'static [u8]
    ensures { result.now ≡ cause_text cause }
{
    match cause {
        EndCause::Row => b"row",
        EndCause::Deadline => b"deadline",
        EndCause::Cancelled => b"cancelled",
        EndCause::Request => b"request",
        EndCause::Response => b"response",
        EndCause::NoConfig => b"noconfig",
        EndCause::Shut => b"shut",
    }
}

/// Appends the words of a reply that a service config is bad.
#[tactic(auto, using(crate::proofs::Words::bad_config_words))]
fn append_bad_config(out: &mut Vec<u8>, fault: &ConfigFault) -> Result<(), NoMemory>
    ensures { OnOk result (out.new.items ≡ out.old.items ++ spaced (codes "badconfig" ∷ config_fault_words fault.now)) }
{
    append_word(out, b"badconfig")?;
    append_fault(out, fault)?;
    Ok(())
}
