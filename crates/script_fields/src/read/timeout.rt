// A timeout in nanoseconds.
ghost use Rattle.std.specs.Prelude.{◌≡◌, ◌≤◌, ◌<◌, IfOk, IfErr, IfSome, IsSomeAnd};
ghost use Rattle.grpc_base.specs.Limits.{duration_limit};
ghost use Rattle.script_fields.specs.Reading.{IsFieldFault, SpellsNumberOrDash};
ghost use Rattle.script_fields.specs.Spelling.{number_or_dash};

use crate::FieldFault;
use crate::read::number::{is_canonical, number_within};
use grpc_base::Duration;

/// The timeout, in nanoseconds, where there is one. A number of any length has the form.
pub fn timeout_of(text: &[u8]) -> Result<Option<u64>, FieldFault>
    ensures ok { IfOk result (λ t. IfSome t (λ n. n ≤ duration_limit) × (text.now ≡ number_or_dash t)) }
    ensures spelled { IfOk result (SpellsNumberOrDash text.now) }
    ensures bad { IfErr result (IsFieldFault (SpellsNumberOrDash text.now) (λ t. IsSomeAnd t (λ n. duration_limit < n))) }
    ensures no_memory { IfErr result (λ e. e ≡ FieldFault.NoMemory → ⊥) }
{
    if text == b"-".as_slice() {
        return Ok(None);
    }
    if !is_canonical(text) {
        return Err(FieldFault::Form);
    }
    match number_within(text, Duration::LIMIT) {
        Some(number) => Ok(Some(number)),
        None => Err(FieldFault::Limit),
    }
}
