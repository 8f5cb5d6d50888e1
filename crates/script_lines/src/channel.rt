// The first line of a replay or live script.
ghost use Rattle.std.specs.Prelude.{◌≡◌, ◌≢◌, ◌↔◌, ◌⊎◌, ℕ, List, Ok, IfOk, IfErr, IfSome, IfNone, IsTrue};
ghost use Rattle.resolver_core.specs.AnyTargets.{any_target_of};
ghost use Rattle.resolver_core.specs.declared.any_target.Target as target;
ghost use Rattle.script_fields.specs.Spelling.{fields};
ghost use Rattle.script_lines.specs.Causes.{bad_address};
ghost use Rattle.script_lines.specs.Lines.{IsChannelFault, IsChannelText, IsReportedBy, IsVersion, channel_words};

use crate::cause::{BAD_ADDRESS, LineFault, NO_CHANNEL, bad};
use crate::split::{first_field, two_fields};
use grpc_base::Text;
use resolver_core::{Target, TargetFault, read_any_target};
use std::alloc::Global;

/// The target of a channel line as it is written, and what it says.
pub fn channel_of(alloc: Global, text: &[u8]) -> Result<(Text, Target), LineFault>
    ensures ok { IfOk result (λ p. IsChannelText (fields text.now) p.0 p.1) }
    ensures bad { IfErr result (IsReportedBy (IsChannelFault (fields text.now))) }
{
    let Some(target) = target_of(text) else {
        return Err(bad(NO_CHANNEL));
    };
    let value = value_of(alloc, target)?;
    let target = Text::of_slice(alloc, target)?;
    Ok((target, value))
}

/// What a target says.
fn value_of(alloc: Global, text: &[u8]) -> Result<Target, LineFault>
    ensures ok { IfOk result (λ value. any_target_of text.now ≡ Ok value) }
    ensures bad { IfErr result (IsReportedBy (λ c. ((value : target.Target) → any_target_of text.now ≢ Ok value) × (c ≡ bad_address))) }
{
    match read_any_target(alloc, text) {
        Ok(value) => Ok(value),
        Err(fault) => match fault {
            TargetFault::NoMemory => Err(LineFault::NoMemory),
            _ => Err(bad(BAD_ADDRESS)),
        },
    }
}

/// The third field of a line that has the shape of a channel line, of either version.
fn target_of(text: &[u8]) -> Option<&[u8]>
    ensures some { IfSome result (λ target. (version : List ℕ) × IsVersion version × (fields text.now ≡ channel_words version target.now)) }
    ensures none { IfNone result ((version target : List ℕ) → IsVersion version → fields text.now ≢ channel_words version target) }
{
    let (word, rest) = first_field(text);
    if word != b"channel".as_slice() {
        return None;
    }
    let (version, target) = two_fields(rest)?;
    if !is_version(version) {
        return None;
    }
    Some(target)
}

/// Whether this is a version of the format.
fn is_version(text: &[u8]) -> bool
    ensures { IsTrue result ↔ IsVersion text.now }
{
    text == b"1".as_slice() || text == b"2".as_slice()
}
