// Commitment and the end of a call, and the rows that these give up.
ghost use Rattle.std.specs.Prelude.{◌≡◌, OnOk};
ghost use Rattle.call_core.specs.Parts.{count_of, read_of};
ghost use Rattle.call_core.specs.Steps.{committed, cut_all, cut_unless, ended_as, ended_by_row, reported_all, reported_unless};
ghost use Rattle.call_core.specs.Turns.{goes, left, lent_at, reported};

use crate::act::CallAct;
use crate::attempts::names;
use crate::live::{LiveRow, keep_alone};
use crate::new_rows::{own_end, row_end};
use crate::state::CallState;
use crate::turn::Turn;
use a6_numbers::Tokens;
use attempt_buffer::Buffer;
use attempt_ledger::{CallEnd, Ledger, LinkSeen, RowCause};
use grpc_base::{Code, EndCause, Items, NoMemory};
use ledger_stamps::{commit_row, end_call, end_row, index_of};

/// The bytes of a link up to the last frame that was applied; 0 where no link has that number.
fn read_of(links: &[LinkSeen], link: u32) -> u64
    ensures { result ≡ read_of links.now link }
{
    match index_of(u64::from(link), links.len()) {
        Some(index) => links[index].read,
        None => 0,
    }
}

/// Gives a row up unless it is the one that is kept: an outstanding one is cut, a queued one is dropped.
fn cut_unless(
    turn: &mut Turn,
    ledger: &mut Ledger,
    tokens: &Option<Tokens>,
    row: LiveRow,
    kept: Option<u64>,
) -> Result<(), NoMemory>
    ensures ledger { OnOk result (ledger.new ≡ cut_unless kept turn.old.moment (count_of tokens.now) row ledger.old) }
    ensures turn { OnOk result (turn.new ≡ reported (reported_unless kept row turn.old.acts) turn.old) }
{
    if names(row.place, kept) {
        return Ok(());
    }
    let Some(link) = row.link else {
        return turn.acts.push(CallAct::Drop(row.place));
    };
    let seen = read_of(ledger.links.as_slice(), link);
    let end = own_end(turn.alloc, Code::Cancelled, RowCause::Cut, seen);
    let end = row_end(end, ledger.entry, turn, tokens);
    end_row(turn.alloc, &mut ledger.rows, row.place, end);
    turn.acts.push(CallAct::Cut(row.place))
}

/// Gives up every row but one.
fn cut_others(
    turn: &mut Turn,
    ledger: &mut Ledger,
    tokens: &Option<Tokens>,
    live: &[LiveRow],
    kept: Option<u64>,
) -> Result<(), NoMemory>
    ensures ledger { OnOk result (ledger.new ≡ cut_all kept turn.old.moment (count_of tokens.now) live.now ledger.old) }
    ensures turn { OnOk result (turn.new ≡ reported (reported_all kept live.now turn.old.acts) turn.old) }
{
    for row in live {
        cut_unless(turn, ledger, tokens, *row, kept)?;
    }
    Ok(())
}

impl CallState {
    /// The call is committed to a row: every other row is given up.
    pub fn commit(
        &mut self,
        turn: &mut Turn,
        ledger: &mut Ledger,
        tokens: &Option<Tokens>,
        place: u64,
    ) -> Result<(), NoMemory>
        ensures { OnOk result (left self.new ledger.new turn.new ≡ goes (committed place turn.old.moment (lent_at self.old ledger.old tokens.now turn.old)) turn.old) }
    {
        commit_row(turn.alloc, &mut ledger.rows, place, ledger.entry);
        cut_others(turn, ledger, tokens, self.live.as_slice(), Some(place))?;
        keep_alone(turn.alloc, &mut self.live, place);
        self.attempts.stopped = true;
        self.attempts.committed = Some(place);
        Ok(())
    }

    /// The call ends: every row is given up, and the messages that it sends are let go.
    pub fn close(
        &mut self,
        turn: &mut Turn,
        ledger: &mut Ledger,
        tokens: &Option<Tokens>,
        cause: EndCause,
    ) -> Result<(), NoMemory>
        ensures { OnOk result (left self.new ledger.new turn.new ≡ goes (ended_as cause turn.old.moment (lent_at self.old ledger.old tokens.now turn.old)) turn.old) }
    {
        cut_others(turn, ledger, tokens, self.live.as_slice(), None)?;
        let end = CallEnd {
            entry: ledger.entry,
            moment: turn.moment.nanos(),
            cause,
        };
        end_call(turn.alloc, &mut ledger.calls, self.number, end);
        self.live = Items::new(turn.alloc);
        self.buffer = Buffer::new(turn.alloc);
        self.attempts.stopped = true;
        self.ended = Some(cause);
        turn.acts.push(CallAct::End(cause))
    }

    /// The call is committed to a row whose end is its own.
    pub fn close_by_row(
        &mut self,
        turn: &mut Turn,
        ledger: &mut Ledger,
        tokens: &Option<Tokens>,
        place: u64,
    ) -> Result<(), NoMemory>
        ensures { OnOk result (left self.new ledger.new turn.new ≡ goes (ended_by_row place turn.old.moment (lent_at self.old ledger.old tokens.now turn.old)) turn.old) }
    {
        self.commit(turn, ledger, tokens, place)?;
        self.close(turn, ledger, tokens, EndCause::Row)
    }
}
