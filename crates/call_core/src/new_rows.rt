// Where rows are made, placed and given their ends: nothing else makes one.
ghost use Rattle.std.specs.Prelude.{◌≡◌, None, [], IfOk, OnOk};
ghost use Rattle.call_core.specs.Parts.{count_of, row_end};
ghost use Rattle.call_core.specs.Steps.{lent, new_row, next_place, placed_at, row_added};
ghost use Rattle.call_core.specs.Turns.{goes, left, lent_at, own_end};

use crate::act::CallAct;
use crate::attempts::names;
use crate::judge::is_unsent;
use crate::live::{LiveRow, find_live, set_link};
use crate::outbox::open_row;
use crate::state::CallState;
use crate::tokens::count_of;
use crate::turn::Turn;
use a6_numbers::Tokens;
use attempt_ledger::{EndNews, Ledger, Placed, Row, RowCause, RowEnd, RowKind};
use grpc_base::{Code, Metadata, NoMemory, Pushback, Text};
use ledger_stamps::{add_row, note_made, place_row};
use std::alloc::Global;

/// A row that is neither placed nor ended.
fn new_row(call: u32, number: u32, kind: RowKind, due: u64, committed: Option<u64>) -> Row
    ensures { result ≡ new_row call number kind due committed }
{
    Row {
        call,
        number,
        kind,
        due,
        placed: None,
        stream: None,
        ended: None,
        committed,
    }
}

/// The end of a row in the ledger, of which no random word was drawn yet.
pub fn row_end(news: EndNews, entry: u64, turn: &Turn, tokens: &Option<Tokens>) -> RowEnd
    ensures { result ≡ row_end news entry turn.now.moment (count_of tokens.now) }
{
    RowEnd {
        entry,
        moment: turn.moment,
        code: news.code,
        text: news.text,
        meta: news.meta,
        pushback: news.pushback,
        unseen: news.unseen,
        seen: news.seen,
        cause: news.cause,
        tokens: count_of(tokens),
        word: None,
    }
}

/// An end that the client makes itself: it has no text and no metadata.
pub fn own_end(alloc: Global, code: Code, cause: RowCause, seen: u64) -> EndNews
    ensures { result ≡ own_end code cause seen }
{
    EndNews {
        code,
        text: Text::new(alloc),
        meta: Metadata::new(alloc),
        pushback: Pushback::None,
        unseen: is_unsent(cause),
        seen,
        cause,
    }
}

impl CallState {
    /// Makes a row, which joins the queue, and reports its place.
    pub fn add(
        &mut self,
        turn: &mut Turn,
        ledger: &mut Ledger,
        number: u32,
        kind: RowKind,
        due: u64,
        committed: Option<u64>,
    ) -> Result<u64, NoMemory>
        ensures place { IfOk result (λ place. place ≡ next_place ledger.old) }
        ensures after { OnOk result (left self.new ledger.new turn.new ≡ goes (row_added number kind due committed (lent_at self.old ledger.old None turn.old)) turn.old) }
    {
        let row = new_row(self.number, number, kind, due, committed);
        let place = add_row(&mut ledger.rows, row)?;
        note_made(turn.alloc, &mut ledger.calls, self.number, ledger.entry)?;
        self.live.push(LiveRow {
            place,
            number,
            link: None,
        })?;
        turn.acts.push(CallAct::Queue(place))?;
        Ok(place)
    }

    /// A queued row got its link; nothing where it is none of the live ones, or has one.
    pub fn place(
        &mut self,
        alloc: Global,
        ledger: &mut Ledger,
        row: u64,
        at: Placed,
    ) -> Result<(), NoMemory>
        ensures call { OnOk result (self.new ≡ (placed_at row at (lent self.old ledger.old None [])).call) }
        ensures ledger { OnOk result (ledger.new ≡ (placed_at row at (lent self.old ledger.old None [])).ledger) }
    {
        let Some(row) = find_live(self.live.as_slice(), row) else {
            return Ok(());
        };
        if row.link.is_some() {
            return Ok(());
        }
        let is_committed = names(row.place, self.attempts.committed);
        open_row(&mut self.buffer, row.place, is_committed)?;
        set_link(alloc, &mut self.live, row.place, at.link);
        if names(row.place, self.attempts.newest) {
            self.attempts.placed = Some(at.moment);
        }
        place_row(alloc, &mut ledger.rows, row.place, at);
        Ok(())
    }
}
