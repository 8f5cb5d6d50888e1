// What has been read of a script: its whole lines, and the bytes of the line that is not whole yet.
ghost use Rattle.std.specs.Prelude.{◌≡◌, ◌≢◌, ◌≤◌, ◌++◌, ◌∷◌, [], true, false, None, List, ℕ, IfOk, IfErr, IfSome, OnOk, All};
ghost use Rattle.script_input.specs.Collecting.{HasRead, IsDecided, IsFinished, IsKept, IsKeptLine, IsRead, IsReady, IsReplayRead, IsReported, IsReportedOpen, IsUnfinished, Leads};
ghost use Rattle.script_lines.specs.Lines.{script_limit};

use crate::fault::{InputFault, fault_at, fault_of};
use crate::form::Form;
use crate::record::{is_record_at, part_of};
use crate::script::Script;
use grpc_base::limits::LINE_BYTES;
use grpc_base::{Stamped, Text, split_at_byte};
use resolver_core::Target;
use script_lines::{ScriptKind, ScriptLine, ScriptReader, UNKNOWN_KIND, test_line};
use std::alloc::Global;

/// What the channel line says.
#[derive(Debug, Drop)]
pub struct Channel {
    target: Text,
    value: Target,
}

/// The whole lines, and the prefix of the next one.
#[derive(Drop)]
pub struct Collected {
    form: Form,
    reader: ScriptReader,
    channel: Option<Channel>,
    events: Vec<Stamped>,
    /// How many lines stood after the entries of a report.
    records: u64,
    line: Vec<u8>,
}

impl Collected {
    /// Nothing was read.
    pub fn new(alloc: Global, form: Form) -> Collected
        ensures read { HasRead [] result }
        ensures form { result.form ≡ form }
        ensures ready { IsReady result }
    {
        Collected {
            form,
            reader: ScriptReader::new(alloc, ScriptKind::Replay),
            channel: None,
            events: Vec::new(alloc),
            records: 0,
            line: Vec::new(alloc),
        }
    }

    /// Takes the next bytes of the input.
    pub fn take_piece(&mut self, piece: &[u8]) -> Result<(), InputFault>
        requires { IsReady self.old }
        ensures ok { OnOk result (Leads self.old self.new piece.now) }
        ensures ready { OnOk result (IsReady self.new) }
        ensures bad { IfErr result (IsDecided self.old piece.now) }
    {
        let mut rest = piece;
        while let Some((text, afterwards)) = split_at_byte(rest, b'\n') {
            self.take_line(text)?;
            rest = afterwards;
        }
        self.take_prefix(rest)?;
        Ok(())
    }

    /// Takes the last bytes of a line, which a line feed ended.
    fn take_line(&mut self, text: &[u8]) -> Result<(), InputFault>
        requires free { All (λ b. b ≢ 10) text.now }
        requires ready { IsReady self.old }
        ensures ok { OnOk result (Leads self.old self.new (text.now ++ 10 ∷ [])) }
        ensures ready { OnOk result (IsReady self.new) }
        ensures bad { IfErr result (IsDecided self.old (text.now ++ 10 ∷ [])) }
    {
        self.line.extend_from_slice(text)?;
        let read = match read_line(
            self.form,
            &mut self.reader,
            self.records,
            self.line.as_slice(),
        ) {
            Ok(read) => read,
            Err(fault) => return Err(fault),
        };
        keep(&mut self.channel, &mut self.events, &mut self.records, read)?;
        self.line.clear();
        Ok(())
    }

    /// Takes bytes of a line that goes on after them.
    fn take_prefix(&mut self, text: &[u8]) -> Result<(), InputFault>
        requires free { All (λ b. b ≢ 10) text.now }
        requires ready { IsReady self.old }
        ensures ok { OnOk result (Leads self.old self.new text.now) }
        ensures ready { OnOk result (IsReady self.new) }
        ensures bad { IfErr result (IsDecided self.old text.now) }
    {
        self.line.extend_from_slice(text)?;
        if self.line.len() > LINE_BYTES {
            return Err(open_fault(&self.reader, self.records, self.line.as_slice()));
        }
        Ok(())
    }

    /// The script, where the input is at its end.
    pub fn finish(self) -> Result<Script, InputFault>
        requires { IsReady self }
        ensures ok { IfOk result (IsFinished self) }
        ensures bad { IfErr result (IsUnfinished self) }
    {
        let Collected {
            form: _,
            reader,
            channel,
            events,
            records,
            line,
        } = self;
        if !line.is_empty() {
            return Err(open_fault(&reader, records, line.as_slice()));
        }
        match channel {
            Some(Channel { target, value }) => Ok(Script {
                target,
                value,
                events,
            }),
            None => Err(InputFault::Empty),
        }
    }
}

/// What the next line says of the script, or nothing where it stands after the entries of a report.
fn read_line(
    form: Form,
    reader: &mut ScriptReader,
    records: u64,
    text: &[u8],
) -> Result<Option<ScriptLine>, InputFault>
    requires kind { reader.old.kind ≡ ScriptKind.Replay }
    requires few { records ≤ script_limit }
    ensures ok { IfOk result (λ read. IsRead form reader.old records text.now read reader.new) }
    ensures bad { IfErr result (IsReported form reader.old records text.now true) }
{
    let number = reader.lines() + records + 1;
    if let Err(fault) = test_line(number, text, true) {
        return Err(fault_at(number, fault));
    }
    if is_record_at(form, number, text) {
        return Ok(None);
    }
    if records > 0 {
        return Err(InputFault::BadLine {
            line: number,
            cause: UNKNOWN_KIND,
        });
    }
    match reader.line(part_of(form, number, text), true) {
        Ok(read) => Ok(Some(read)),
        Err(bad) => Err(fault_of(bad)),
    }
}

/// Keeps what a line said, or counts it.
fn keep(
    channel: &mut Option<Channel>,
    events: &mut Vec<Stamped>,
    records: &mut u64,
    read: Option<ScriptLine>,
) -> Result<(), InputFault>
    requires line { IfSome read IsReplayRead }
    requires few { records.old ≤ script_limit }
    ensures kept { OnOk result (IsKept channel.old events.old.items records.old read channel.new events.new.items records.new) }
    ensures no_memory { IfErr result (λ e. e ≡ InputFault.NoMemory) }
{
    match read {
        Some(read) => keep_line(channel, events, read),
        None => {
            *records += 1;
            Ok(())
        }
    }
}

/// Keeps what a line of the script said.
fn keep_line(
    channel: &mut Option<Channel>,
    events: &mut Vec<Stamped>,
    read: ScriptLine,
) -> Result<(), InputFault>
    requires { IsReplayRead read }
    ensures kept { OnOk result (IsKeptLine channel.old events.old.items read channel.new events.new.items) }
    ensures no_memory { IfErr result (λ e. e ≡ InputFault.NoMemory) }
{
    match read {
        ScriptLine::Channel { target, value } => {
            *channel = Some(Channel { target, value });
        }
        ScriptLine::Event { stamped } => events.push(stamped)?,
        _ => unreachable!(),
    }
    Ok(())
}

/// Why a line is bad that no line feed ended.
fn open_fault(reader: &ScriptReader, records: u64, text: &[u8]) -> InputFault
    requires { records ≤ script_limit }
    ensures { IsReportedOpen reader.now records text.now result }
{
    let number = reader.lines() + records + 1;
    match test_line(number, text, false) {
        Ok(()) => unreachable!(),
        Err(fault) => fault_at(number, fault),
    }
}
