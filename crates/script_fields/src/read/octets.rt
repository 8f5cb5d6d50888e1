// Messages, pieces of a link and service configs, all in hex.
ghost use Rattle.std.specs.Prelude.{◌≡◌, ◌≤◌, ◌<◌, ℕ, List, length, IfSome, IfNone, IfOk, IfErr, IsSomeAnd};
ghost use Rattle.grpc_base.specs.Limits.{config_limit};
ghost use Rattle.script_fields.specs.Reading.{IsFieldFault, SpellsConfig, SpellsMessage, SpellsPiece};

use crate::FieldFault;
use crate::read::hex_bytes::{bytes_of, bytes_or_dash};
use grpc_base::limits::CONFIG_BYTES;
use grpc_base::{NoMemory, Octets};
use std::alloc::Global;

/// The bytes of a message of at most so many; a dash is the empty one.
pub fn message_of(alloc: Global, text: &[u8], most: usize) -> Result<Octets, FieldFault>
    ensures ok { IfOk result (λ m. SpellsMessage text.now m × (length m ≤ most)) }
    ensures bad { IfErr result (IsFieldFault (SpellsMessage text.now) (λ m. most < length m)) }
{
    let Some(bytes) = bytes_or_dash(alloc, text)? else {
        return Err(FieldFault::Form);
    };
    if bytes.len() > most {
        return Err(FieldFault::Limit);
    }
    let message = Octets::of_vec(bytes)?;
    Ok(message)
}

/// The bytes of a piece: one or more.
pub fn piece_of(alloc: Global, text: &[u8]) -> Result<Option<Octets>, NoMemory>
    ensures some { IfOk result (λ o. IfSome o (SpellsPiece text.now)) }
    ensures none { IfOk result (λ o. IfNone o ((v : List ℕ) → SpellsPiece text.now v → ⊥)) }
{
    if text.is_empty() {
        return Ok(None);
    }
    let Some(bytes) = bytes_of(alloc, text)? else {
        return Ok(None);
    };
    let piece = Octets::of_vec(bytes)?;
    Ok(Some(piece))
}

/// The bytes of a service config, where there is one: 1 to 65,536.
pub fn config_of(alloc: Global, text: &[u8]) -> Result<Option<Octets>, FieldFault>
    ensures ok { IfOk result (λ c. SpellsConfig text.now c × IfSome c (λ v. length v ≤ config_limit)) }
    ensures bad { IfErr result (IsFieldFault (SpellsConfig text.now) (λ c. IsSomeAnd c (λ v. config_limit < length v))) }
{
    if text == b"-".as_slice() {
        return Ok(None);
    }
    let Some(config) = piece_of(alloc, text)? else {
        return Err(FieldFault::Form);
    };
    if config.len() > CONFIG_BYTES {
        return Err(FieldFault::Limit);
    }
    Ok(Some(config))
}
