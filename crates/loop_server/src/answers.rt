// Which answer of the script a request gets.
ghost use Rattle.std.specs.Prelude.{◌≡◌, ◌<◌, ◌+◌, [], IfOk, IfSome, drop, length};
ghost use Rattle.loop_server.specs.Script.{all_lines, unanswered};
ghost use Rattle.loop_server.specs.Steps.{chosen, chosen_first, chosen_next, cursor_from, next_from};

use grpc_base::{AnswerLine, AnswerPart, Items, NoMemory, ServerScript, Text};
use std::alloc::Global;
use std::marker::Model;

/// The code of a method that the server does not have (gRPC, "Status codes": UNIMPLEMENTED).
const UNIMPLEMENTED: u32 = 12;

/// The answer that the latest request of a path got.
#[derive(Debug, Drop)]
pub struct Cursor {
    pub path: Text,
    /// The place of the answer among the lines.
    pub place: usize,
}

/// The answers of a script, and after them the one that a path without an answer gets; and how far the requests of each
/// path have come.
#[derive(Debug, Drop)]
pub(crate) struct Answers {
    lines: Items<AnswerLine>,
    cursors: Vec<Cursor>,
}

impl Model for Answers {
    ghost use Rattle.std.specs.Prelude.{◌<◌, length};
    ghost use Rattle.loop_server.specs.Server.{Book};

    ghost Value = { Book };

    ghost view = { λ a. record { lines = a.lines; cursors = a.cursors.items } };

    ghost invariant = { λ a. 0 < length a.lines };
}

/// The answer to a path that has none.
fn unanswered(alloc: Global) -> Result<AnswerLine, NoMemory>
    ensures { IfOk result (λ line. line ≡ unanswered) }
{
    let mut parts = Items::new(alloc);
    parts.push(AnswerPart::Status(UNIMPLEMENTED))?;
    Ok(AnswerLine {
        path: Text::new(alloc),
        n: 1,
        parts,
    })
}

impl Answers {
    /// No request has come.
    pub(crate) fn new(alloc: Global, script: ServerScript) -> Result<Answers, NoMemory>
        ensures { IfOk result (λ a. a ≡ record { lines = all_lines script; cursors = [] }) }
    {
        let ServerScript { answers: mut lines } = script;
        lines.push(unanswered(alloc)?)?;
        Ok(Answers {
            lines,
            cursors: Vec::new(alloc),
        })
    }

    /// The answers.
    pub(crate) fn lines(&self) -> &[AnswerLine]
        ensures { result.now ≡ self.now.lines }
    {
        self.lines.as_slice()
    }

    /// The place of the answer to the next request of a path: the first one of the path, then each next one, and the
    /// last one again and again.
    pub(crate) fn choose(&mut self, alloc: Global, path: &[u8]) -> Result<usize, NoMemory>
        ensures { IfOk result (λ place. record { place = place; book = self.new } ≡ chosen self.old path.now) }
    {
        match cursor_of(&self.cursors, path) {
            Some((at, old)) => self.choose_next(alloc, at, old, path),
            None => self.choose_first(alloc, path),
        }
    }

    fn choose_next(
        &mut self,
        alloc: Global,
        at: usize,
        old: usize,
        path: &[u8],
    ) -> Result<usize, NoMemory>
        requires { at < length self.old.cursors }
        ensures { IfOk result (λ place. record { place = place; book = self.new } ≡ chosen_next self.old path.now at old (next_from path.now (old + 1) (drop (old + 1) self.old.lines))) }
    {
        let Some(place) = next_from(self.lines.as_slice(), path, old.saturating_add(1)) else {
            return Ok(old);
        };
        let path = Text::of_slice(alloc, path)?;
        self.cursors[at] = Cursor { path, place };
        Ok(place)
    }

    fn choose_first(&mut self, alloc: Global, path: &[u8]) -> Result<usize, NoMemory>
        ensures { IfOk result (λ place. record { place = place; book = self.new } ≡ chosen_first self.old path.now (next_from path.now 0 self.old.lines)) }
    {
        let Some(place) = next_from(self.lines.as_slice(), path, 0) else {
            return Ok(self.lines.len() - 1);
        };
        let path = Text::of_slice(alloc, path)?;
        self.cursors.push(Cursor { path, place })?;
        Ok(place)
    }
}

/// The cursor of a path: its place, and where it stands.
fn cursor_of(cursors: &[Cursor], path: &[u8]) -> Option<(usize, usize)>
    ensures cursor { result ≡ cursor_from path.now 0 cursors.now }
    ensures within { IfSome result (λ x. x.0 < length cursors.now) }
{
    for (at, cursor) in cursors.iter().enumerate() {
        if cursor.path.as_slice() == path {
            return Some((at, cursor.place));
        }
    }
    None
}

/// The place of the first answer of a path from a place on.
fn next_from(lines: &[AnswerLine], path: &[u8], start: usize) -> Option<usize>
    ensures { result ≡ next_from path.now start (drop start lines.now) }
{
    for place in start..lines.len() {
        if lines[place].path.as_slice() == path {
            return Some(place);
        }
    }
    None
}
