// One call: its attempts, the messages that it sends, and what came for its application.
#![tactic(auto)]

mod act;
mod attempts;
mod call;
mod chosen;
mod commit;
mod due;
mod ended;
mod inbox;
mod judge;
mod laws;
mod live;
mod new_rows;
mod outbox;
mod outcomes;
mod receive;
mod row_laws;
mod state;
mod take;
mod tokens;
mod turn;

pub use act::CallAct;
pub use attempts::Attempts;
pub use call::Call;
pub use inbox::{Inbox, Messages};
pub use laws::{
    attempts_are_made_when_due, attempts_are_numbered, calls_are_kept, calls_write_their_entry,
    committed_calls_make_no_attempt, ended_calls_stay, ended_rows_are_reported,
    full_reports_what_is_held, hedges_follow_their_policy, items_are_taken_in_order,
    live_rows_stand, messages_come_in_order, other_rows_are_cut, refusals_are_followed_once,
    retries_follow_their_license, tokens_count_ends,
};
pub use live::LiveRow;
pub use new_rows::own_end;
pub use outcomes::{
    calls_are_committed_once, calls_go_on, committed_calls_follow_one_row,
    due_moments_follow_each_step, ended_rows_hold_tokens, limits_end_calls, other_rows_are_over,
    outstanding_rows_are_live, rows_are_in_order, rows_have_reasons, stopped_calls_make_no_attempt,
    takes_leave_rows, unseen_attempts_are_retried, waiting_items_stay,
};
pub use row_laws::{
    rows_are_chained, rows_keep_hedging, rows_keep_numbering, rows_keep_retries,
    rows_keep_throttling, rows_keep_transparent_retries,
};
pub use state::CallState;
