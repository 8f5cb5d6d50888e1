// What the end of an attempt means to its call (gRFC A6, "Retry Policy", "Hedging Policy", "Pushback", "Transparent Retries").
//
//   attempt ends --+-- the server cannot have seen it ----> a transparent retry takes its place
//                  |
//                  +-- it counts: the tokens are settled
//                        +-- committed call ---------------> the call ends by this attempt
//                        +-- else the plan decides --------> a further attempt is due, or the call ends by this one
ghost use Rattle.std.specs.Prelude.{◌≡◌, OnOk};
ghost use Rattle.call_core.specs.Steps.{counted, ended_at, followed};
ghost use Rattle.call_core.specs.Turns.{goes, left, lent_at};

use crate::attempts::{Attempts, names};
use crate::chosen::is_in_set;
use crate::judge::{is_followed, is_refusal};
use crate::live::{LiveRow, find_live, leave};
use crate::new_rows::row_end;
use crate::state::CallState;
use crate::tokens::{is_above, settle};
use crate::turn::Turn;
use a6_numbers::Tokens;
use attempt_ledger::{EndNews, Ledger, RowEnd, RowKind};
use grpc_base::{EndCause, NoMemory};
use ledger_stamps::end_row;

impl CallState {
    /// A row ended. Nothing where it is none of the live ones, as one that was cut in the meantime.
    pub fn end_at(
        &mut self,
        turn: &mut Turn,
        ledger: &mut Ledger,
        tokens: &mut Option<Tokens>,
        row: u64,
        end: EndNews,
    ) -> Result<(), NoMemory>
        ensures after { OnOk result (left self.new ledger.new turn.new ≡ goes (ended_at row end turn.old.moment turn.old.word (lent_at self.old ledger.old tokens.old turn.old)) turn.old) }
        ensures tokens { OnOk result (tokens.new ≡ (ended_at row end turn.old.moment turn.old.word (lent_at self.old ledger.old tokens.old turn.old)).tokens) }
    {
        let Some(row) = find_live(self.live.as_slice(), row) else {
            return Ok(());
        };
        leave(turn.alloc, &mut self.live, row.place);
        self.buffer.close(row.place);
        if is_followed(&self.attempts, end.cause, end.unseen) {
            return self.follow(turn, ledger, tokens, row, end);
        }
        let in_set = is_in_set(&self.plan(), end.code);
        settle(tokens, end.code, end.pushback, in_set);
        self.count_end(turn, ledger, tokens, row, end)
    }

    /// A transparent retry takes the place of a row that ended: it has the row's number, is due at once and takes over its commitment.
    fn follow(
        &mut self,
        turn: &mut Turn,
        ledger: &mut Ledger,
        tokens: &Option<Tokens>,
        row: LiveRow,
        end: EndNews,
    ) -> Result<(), NoMemory>
        ensures { OnOk result (left self.new ledger.new turn.new ≡ goes (followed row end turn.old.moment (lent_at self.old ledger.old tokens.now turn.old)) turn.old) }
    {
        let by_refusal = is_refusal(end.cause);
        let end = row_end(end, ledger.entry, turn, tokens);
        end_row(turn.alloc, &mut ledger.rows, row.place, end);
        let is_committed = names(row.place, self.attempts.committed);
        let stamp = is_committed.then_some(ledger.entry);
        let due = turn.moment.nanos();
        let place = self.add(turn, ledger, row.number, RowKind::Transparent, due, stamp)?;
        self.attempts = Attempts {
            committed: if is_committed {
                Some(place)
            } else {
                self.attempts.committed
            },
            is_refusal_followed: self.attempts.is_refusal_followed || by_refusal,
            ..self.attempts
        };
        Ok(())
    }

    /// An end that counts, after the tokens took it: the end of a committed call. Of one that isn't the plan decides: a further attempt is
    /// due, or the call is committed to this row and ends.
    fn count_end(
        &mut self,
        turn: &mut Turn,
        ledger: &mut Ledger,
        tokens: &Option<Tokens>,
        row: LiveRow,
        end: EndNews,
    ) -> Result<(), NoMemory>
        ensures { OnOk result (left self.new ledger.new turn.new ≡ goes (counted row end turn.old.moment turn.old.word (lent_at self.old ledger.old tokens.now turn.old)) turn.old) }
    {
        let end = row_end(end, ledger.entry, turn, tokens);
        if self.attempts.committed.is_some() {
            end_row(turn.alloc, &mut ledger.rows, row.place, end);
            return self.close(turn, ledger, tokens, EndCause::Row);
        }
        let next = self.judge(row.number, &end, is_above(tokens), turn.word);
        let end = RowEnd {
            word: next.word,
            ..end
        };
        end_row(turn.alloc, &mut ledger.rows, row.place, end);
        self.attempts = next.attempts;
        self.attempts.last = Some(row.place);
        if next.closes {
            self.close_by_row(turn, ledger, tokens, row.place)?;
        }
        Ok(())
    }
}
