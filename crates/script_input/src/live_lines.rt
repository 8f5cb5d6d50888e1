// The lines of a live script, as far as they were read.
ghost use Rattle.std.specs.Prelude.{◌≡◌};
ghost use Rattle.script_lines.specs.declared.reader.ScriptKind.TheVariants as script;

use crate::line_reader::Lines;
use crate::live::keep_live;
use crate::live_script::{Named, WorkerLine};
use grpc_base::Octets;
use script_lines::{BadLine, ScriptReader};

/// What the lines so far say.
#[derive(Drop)]
pub struct LiveLines {
    pub reader: ScriptReader,
    pub named: Option<Named>,
    pub config: Option<Octets>,
    pub calls: Vec<WorkerLine>,
    ghost is_live: { reader.kind ≡ script.Live },
}

impl Lines for LiveLines {
    ghost use Rattle.script_input.specs.LivesTaken.{HasTakenLive, RefusesLive};

    ghost has_taken = { λ s texts. HasTakenLive s texts };

    ghost refuses = { λ s text e. RefusesLive s text e };

    fn take(&mut self, text: &[u8]) -> Result<(), BadLine> {
        match self.reader.line(text, true) {
            Ok(read) => keep_live(&mut self.named, &mut self.config, &mut self.calls, read),
            Err(bad) => Err(bad),
        }
    }
}
