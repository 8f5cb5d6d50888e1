// What a link reports to a call of one of its rows.
ghost use Rattle.std.specs.Prelude.{◌≡◌, OnOk};
ghost use Rattle.call_core.specs.Steps.{received_head, received_news, is_committed_live};
ghost use Rattle.call_core.specs.Turns.{goes, left, lent_at};

use crate::attempts::names;
use crate::live::find_live;
use crate::outbox::commit_buffer;
use crate::state::CallState;
use crate::turn::Turn;
use a6_numbers::Tokens;
use attempt_ledger::{Ledger, News};
use grpc_base::{EndCause, Metadata, NoMemory};

impl CallState {
    /// News of a row. What names none of the live ones changes nothing, and neither does what reports a link alone.
    pub fn receive(
        &mut self,
        turn: &mut Turn,
        ledger: &mut Ledger,
        tokens: &mut Option<Tokens>,
        row: u64,
        news: News,
    ) -> Result<(), NoMemory>
        ensures after { OnOk result (left self.new ledger.new turn.new ≡ goes (received_news row news turn.old.moment turn.old.word (lent_at self.old ledger.old tokens.old turn.old)) turn.old) }
        ensures tokens { OnOk result (tokens.new ≡ (received_news row news turn.old.moment turn.old.word (lent_at self.old ledger.old tokens.old turn.old)).tokens) }
    {
        match news {
            News::Head { meta, .. } => self.head(turn, ledger, tokens, row, meta),
            News::Message { octets, .. } if self.is_committed_live(row) => {
                self.inbox.messages.push(octets)
            }
            News::TooLarge { .. } if self.is_committed_live(row) => {
                self.close(turn, ledger, tokens, EndCause::Response)
            }
            News::Ended { end, .. } => self.end_at(turn, ledger, tokens, row, end),
            _ => Ok(()),
        }
    }

    /// The head of a live row commits the call to it, unless it is committed.
    fn head(
        &mut self,
        turn: &mut Turn,
        ledger: &mut Ledger,
        tokens: &Option<Tokens>,
        row: u64,
        meta: Metadata,
    ) -> Result<(), NoMemory>
        ensures { OnOk result (left self.new ledger.new turn.new ≡ goes (received_head row meta turn.old.moment (lent_at self.old ledger.old tokens.now turn.old)) turn.old) }
    {
        if find_live(self.live.as_slice(), row).is_none() {
            return Ok(());
        }
        if self.attempts.committed.is_none() {
            commit_buffer(&mut self.buffer, row);
            self.commit(turn, ledger, tokens, row)?;
        }
        self.inbox.head = Some(meta);
        Ok(())
    }

    /// Whether a live row is the one to which the call is committed.
    fn is_committed_live(&self, row: u64) -> bool
        ensures { result ≡ is_committed_live row self.now }
    {
        names(row, self.attempts.committed) && find_live(self.live.as_slice(), row).is_some()
    }
}
