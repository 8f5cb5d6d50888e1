// The lines of live scripts.
ghost use Rattle.std.specs.Prelude.{◌≡◌, [], ◌∷◌, ℕ, List, IfOk, IfErr};
ghost use Rattle.std.specs.Option.{option_copied};
ghost use Rattle.script_fields.specs.Spelling.{fields};
ghost use Rattle.script_lines.specs.Fields.{AreArgumentsFault, IsConfig, config_field};
ghost use Rattle.script_lines.specs.Lines.{IsLiveFault, IsLiveLine, IsReportedBy, fields_after};

use crate::call::call_of;
use crate::cause::{BAD_COUNT, LineFault, UNKNOWN_KIND, bad};
use crate::channel::channel_of;
use crate::field::script_config_of;
use crate::line::ScriptLine;
use crate::split::{first_field, one_field};
use grpc_base::Octets;
use std::alloc::Global;

/// The line of this number, from 1.
pub fn live_line(alloc: Global, number: u64, text: &[u8]) -> Result<ScriptLine, LineFault>
    ensures ok { IfOk result (IsLiveLine number (fields text.now)) }
    ensures bad { IfErr result (IsReportedBy (IsLiveFault number (fields text.now))) }
{
    if number == 1 {
        let (target, value) = channel_of(alloc, text)?;
        return Ok(ScriptLine::Channel { target, value });
    }
    let (name, rest) = first_field(text);
    if name == b"call".as_slice() {
        let (worker, line) = call_of(alloc, rest)?;
        return Ok(ScriptLine::Call { worker, line });
    }
    if number == 2 && name == b"config".as_slice() {
        let config = config_of(alloc, rest)?;
        return Ok(ScriptLine::Config { config });
    }
    Err(bad(UNKNOWN_KIND))
}

/// The service config that these fields give.
fn config_of(alloc: Global, rest: Option<&[u8]>) -> Result<Octets, LineFault>
    ensures ok { IfOk result (λ config. (text : List ℕ) × (fields_after (option_copied rest.entry) ≡ text ∷ []) × IsConfig config text) }
    ensures bad { IfErr result (IsReportedBy (AreArgumentsFault (config_field ∷ []) (fields_after (option_copied rest.entry)))) }
{
    let Some(text) = one_field(rest) else {
        return Err(bad(BAD_COUNT));
    };
    Ok(script_config_of(alloc, text)?)
}
