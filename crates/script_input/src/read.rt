// A script, read from a source.
ghost use Rattle.std.specs.Prelude.{◌≤◌, IfOk, IfErr};
ghost use Rattle.script_input.specs.Reading.{GivesNone, ReadsScript};

use crate::collected::Collected;
use crate::fault::InputFault;
use crate::form::Form;
use crate::script::Script;
use gate_io::{ReadAnswer, Source};
use std::alloc::Global;

/// Reads a replay script to the input's end. It stops before it where a line is bad or a read fails, whichever comes
/// first; more than the bytes of one read may then have been taken after that line.
pub fn read_replay<S: Source>(alloc: Global, source: &mut S) -> Result<Script, InputFault>
    ensures ok { IfOk result (λ s. ReadsScript Form.Script (S.left source.old) (S.left source.new) s.target s.value s.events.items) }
    ensures bad { IfErr result (GivesNone Form.Script (S.left source.old) (S.left source.new) (S.faults source.old) (S.faults source.new)) }
    ensures count { S.faults source.old ≤ S.faults source.new }
{
    read_form(alloc, Form::Script, source)
}

/// Reads the script of a report, or a script, as `read_replay` does: of each line after the first what stands before the
/// first ` = `, up to the lines of rows.
pub fn read_report<S: Source>(alloc: Global, source: &mut S) -> Result<Script, InputFault>
    ensures ok { IfOk result (λ s. ReadsScript Form.Report (S.left source.old) (S.left source.new) s.target s.value s.events.items) }
    ensures bad { IfErr result (GivesNone Form.Report (S.left source.old) (S.left source.new) (S.faults source.old) (S.faults source.new)) }
    ensures count { S.faults source.old ≤ S.faults source.new }
{
    read_form(alloc, Form::Report, source)
}

/// Reads an input of this form.
fn read_form<S: Source>(alloc: Global, form: Form, source: &mut S) -> Result<Script, InputFault>
    ensures ok { IfOk result (λ s. ReadsScript form (S.left source.old) (S.left source.new) s.target s.value s.events.items) }
    ensures bad { IfErr result (GivesNone form (S.left source.old) (S.left source.new) (S.faults source.old) (S.faults source.new)) }
    ensures count { S.faults source.old ≤ S.faults source.new }
{
    let mut collected = Collected::new(alloc, form);
    let mut buf = [0u8; 16_384];
    loop {
        match source.read(&mut buf) {
            ReadAnswer::Got(count) => collected.take_piece(&buf[..count])?,
            ReadAnswer::End => return collected.finish(),
            ReadAnswer::Failed => return Err(InputFault::ReadFailed),
        }
    }
}
