// The script that is read.
ghost use Rattle.std.specs.Prelude.{◌≤◌, IfErr, IfOk};
ghost use Rattle.resolver_core.specs.AnyTargets.{IsTarget};
ghost use Rattle.script_input.specs.Reading.{GivesNone, ReadsScript};

use gate_io::Source;
use script_input::{Form, InputFault, Script, read_replay, read_report};
use std::alloc::Global;

/// Reads an input of this form.
fn read_form<S: Source>(alloc: Global, form: Form, source: &mut S) -> Result<Script, InputFault>
    ensures ok { IfOk result (λ s. ReadsScript form (S.left source.old) (S.left source.new) s.target s.value s.events.items) }
    ensures bad { IfErr result (GivesNone form (S.left source.old) (S.left source.new) (S.faults source.old) (S.faults source.new)) }
    ensures count { S.faults source.old ≤ S.faults source.new }
{
    match form {
        Form::Script => read_replay(alloc, source),
        Form::Report => read_report(alloc, source),
    }
}

/// Reads a script, or a report that holds one, to the input's end.
#[tactic(auto, using(crate::proofs::ScriptLaws::target_read))]
pub fn read_script<S: Source>(
    alloc: Global,
    form: Form,
    source: &mut S,
) -> Result<Script, InputFault>
    ensures ok { IfOk result (λ s. ReadsScript form (S.left source.old) (S.left source.new) s.target s.value s.events.items) }
    ensures target { IfOk result (λ s. IsTarget s.value) }
    ensures bad { IfErr result (GivesNone form (S.left source.old) (S.left source.new) (S.faults source.old) (S.faults source.new)) }
    ensures count { S.faults source.old ≤ S.faults source.new }
{
    match read_form(alloc, form, source) {
        Ok(script) => Ok(script),
        Err(fault) => Err(fault),
    }
}
