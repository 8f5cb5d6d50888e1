// What is kept of an input while its lines are read.
ghost use Rattle.std.specs.Prelude.{◌≤◌};
ghost use Rattle.script_lines.specs.Lines.{script_limit};

/// The bytes of the line that is not whole yet, and how many lines stood before it.
#[derive(Drop)]
pub struct Feed {
    pub count: u64,
    pub line: Vec<u8>,
    ghost few: { count ≤ script_limit },
}
