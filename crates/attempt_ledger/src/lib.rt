// What the channel was given and did, as data: the journal of its steps, and the ledger of attempts, calls,
// pick requests, generations of policies and links.
#![tactic(auto)]

mod check;
mod ends;
mod hedging;
mod journal;
mod ledger;
mod news;
mod next;
mod numbering;
mod retries;
mod row;
mod throttling;
mod transparent;
mod waits;

pub use check::{RowFault, check_rows};
pub use journal::Journal;
pub use ledger::{Ask, CallEnd, CallSeen, Generation, Ledger, LinkSeen};
pub use news::{EndNews, News};
pub use next::Next;
pub use row::{Placed, Row, RowCause, RowEnd, RowKind};
