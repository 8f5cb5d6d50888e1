// The line that sums a load up.
ghost use Rattle.std.specs.Prelude.{◌≡◌, ◌++◌, IfOk, OnOk};
ghost use Rattle.load_plan.specs.Lines.{counted, summary_line};

use grpc_base::{NoMemory, Octets, append_decimal};
use std::alloc::Global;

/// What came of a load.
#[derive(Clone, Copy, Debug, PartialEq, Eq)]
pub struct LoadSummary {
    pub seed: u64,
    pub calls: u32,
    /// The entries of the journal.
    pub entries: u64,
    /// The attempts of the ledger.
    pub rows: u64,
    /// The calls whose end was taken and is OK.
    pub ok: u32,
    /// The calls whose end was taken and is another code.
    pub failed: u32,
    /// The calls whose end was not taken.
    pub open: u32,
    /// The attempts that the retry policy made.
    pub retries: u64,
    /// The attempts that were made again since the server never saw the one before.
    pub transparent: u64,
}

impl LoadSummary {
    /// Its line, with no line feed after it.
    pub fn line(&self, alloc: Global) -> Result<Octets, NoMemory>
        ensures { IfOk result (λ line. line ≡ summary_line self.now) }
    {
        let mut out = Vec::new(alloc);
        append_counted(&mut out, b"load ", self.seed)?;
        append_counted(&mut out, b" calls ", u64::from(self.calls))?;
        append_counted(&mut out, b" entries ", self.entries)?;
        append_counted(&mut out, b" rows ", self.rows)?;
        append_counted(&mut out, b" ok ", u64::from(self.ok))?;
        append_counted(&mut out, b" failed ", u64::from(self.failed))?;
        append_counted(&mut out, b" open ", u64::from(self.open))?;
        append_counted(&mut out, b" retries ", self.retries)?;
        append_counted(&mut out, b" transparent ", self.transparent)?;
        Octets::of_vec(out)
    }
}

/// Appends a word and a number.
#[tactic(auto, unfolding(crate::specs::Lines::counted))]
fn append_counted(out: &mut Vec<u8>, word: &[u8], number: u64) -> Result<(), NoMemory>
    ensures { OnOk result (out.new.items ≡ out.old.items ++ counted word.now number) }
{
    out.extend_from_slice(word)?;
    append_decimal(out, number)
}
