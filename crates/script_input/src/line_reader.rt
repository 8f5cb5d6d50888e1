// The lines of an input, read from a source one after another.
ghost use Rattle.std.specs.Prelude.{◌≡◌, ◌≢◌, ◌≤◌, ◌++◌, ◌∷◌, [], List, ℕ, IfErr, OnOk, All, false, length};
ghost use Rattle.grpc_base.specs.Limits.{line_limit};
ghost use Rattle.script_lines.specs.declared.reader.BadLine.{BadLine};
ghost use Rattle.script_input.specs.Feeding.{IsDecidedBy, IsReportedFor, IsTooLong, LeadsBy, ReadsLines, StopsBy};

use crate::fault::{InputFault, fault_at, fault_of};
use crate::feed::Feed;
use gate_io::{ReadAnswer, Source};
use grpc_base::limits::LINE_BYTES;
use grpc_base::split_at_byte;
use script_lines::{BadLine, test_line};
use std::alloc::Global;

/// What the lines of an input are given to.
pub trait Lines {
    /// These lines were taken, in order.
    ghost has_taken: { Self → List (List ℕ) → Type 0 };

    /// A line is refused for this fault.
    ghost refuses: { Self → List ℕ → BadLine → Type 0 };

    /// Takes the next line, without its line feed. It has passed the tests that each line of each script passes first.
    fn take(&mut self, text: &[u8]) -> Result<(), BadLine>
        ensures taken { OnOk result ((texts : List (List ℕ)) → has_taken self.old texts → has_taken self.new (texts ++ text.now ∷ [])) }
        ensures refused { IfErr result (refuses self.old text.now) };
}

impl Feed {
    /// Takes the next bytes of the input.
    fn take_piece<T: Lines>(&mut self, lines: &mut T, piece: &[u8]) -> Result<(), InputFault>
        ensures ok { OnOk result (LeadsBy T.has_taken self.old lines.old self.new lines.new piece.now) }
        ensures bad { IfErr result (IsDecidedBy T.has_taken T.refuses self.old lines.old piece.now) }
    {
        let mut rest = piece;
        while let Some((text, afterwards)) = split_at_byte(rest, b'\n') {
            self.take_line(lines, text)?;
            rest = afterwards;
        }
        self.take_prefix(rest)?;
        Ok(())
    }

    /// Takes the last bytes of a line, which a line feed ended.
    fn take_line<T: Lines>(&mut self, lines: &mut T, text: &[u8]) -> Result<(), InputFault>
        requires { All (λ b. b ≢ 10) text.now }
        ensures ok { OnOk result (LeadsBy T.has_taken self.old lines.old self.new lines.new (text.now ++ 10 ∷ [])) }
        ensures bad { IfErr result (IsDecidedBy T.has_taken T.refuses self.old lines.old (text.now ++ 10 ∷ [])) }
    {
        self.line.extend_from_slice(text)?;
        let number = self.count + 1;
        if let Err(fault) = test_line(number, self.line.as_slice(), true) {
            return Err(fault_at(number, fault));
        }
        if let Err(bad) = lines.take(self.line.as_slice()) {
            return Err(fault_of(bad));
        }
        self.count = number;
        self.line.clear();
        Ok(())
    }

    /// Takes bytes of a line that goes on after them.
    fn take_prefix(&mut self, text: &[u8]) -> Result<(), InputFault>
        ensures line { OnOk result (self.new.line.items ≡ self.old.line.items ++ text.now) }
        ensures count { OnOk result (self.new.count ≡ self.old.count) }
        ensures short { OnOk result (length self.new.line.items ≤ line_limit) }
        ensures bad { IfErr result (IsTooLong self.old.count (self.old.line.items ++ text.now)) }
    {
        self.line.extend_from_slice(text)?;
        if self.line.len() > LINE_BYTES {
            return Err(self.open_fault());
        }
        Ok(())
    }

    /// Why the line is bad that no line feed ended.
    fn open_fault(&self) -> InputFault
        ensures { IsReportedFor self.now.count self.now.line.items false result }
    {
        let number = self.count + 1;
        match test_line(number, self.line.as_slice(), false) {
            Ok(()) => unreachable!(),
            Err(fault) => fault_at(number, fault),
        }
    }

    /// The end of the input.
    fn finish(&self) -> Result<(), InputFault>
        ensures ok { OnOk result (self.now.line.items ≡ []) }
        ensures bad { IfErr result (λ e. IsReportedFor self.now.count self.now.line.items false e × (self.now.line.items ≢ [])) }
    {
        if self.line.is_empty() {
            return Ok(());
        }
        Err(self.open_fault())
    }
}

/// Reads lines to the input's end, and gives each to `lines`. It stops before the end where a line is bad or a read fails,
/// whichever comes first; more than the bytes of one read may then have been taken after that line.
pub fn read_lines<S: Source, T: Lines>(
    alloc: Global,
    source: &mut S,
    lines: &mut T,
) -> Result<(), InputFault>
    requires { T.has_taken lines.old [] }
    ensures ok { OnOk result (ReadsLines T.has_taken (S.left source.old) (S.left source.new) lines.new) }
    ensures bad { IfErr result (StopsBy T.has_taken T.refuses (S.left source.old) (S.left source.new) (S.faults source.old) (S.faults source.new)) }
    ensures count { S.faults source.old ≤ S.faults source.new }
{
    let mut feed = Feed {
        count: 0,
        line: Vec::new(alloc),
    };
    let mut buf = [0u8; 16_384];
    loop {
        match source.read(&mut buf) {
            ReadAnswer::Got(count) => feed.take_piece(lines, &buf[..count])?,
            ReadAnswer::End => return feed.finish(),
            ReadAnswer::Failed => return Err(InputFault::ReadFailed),
        }
    }
}
