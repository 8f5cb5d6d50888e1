// Plain slow programs of what the history says of calls and their attempts, each of which computes one definition of
// `session_actions`. They are the entry and the clock, what a call gets of the configs, attempts, tokens, and when the next attempt
// is due.
#![tactic(auto)]

mod attempts;
mod clock;
mod configs;
mod due;
mod final_ends;
mod ledger_words;
mod tokens;
mod words;

pub use attempts::{
    call_of, commitment, counts_by, is_counted, is_followed, is_of, is_outstanding, is_over,
    is_queued, is_to_follow, is_to_follow_in_call, wants_follower,
};
pub use clock::{entry, last_moment, next_word, now, nth_word};
pub use configs::{
    chosen_of, config_of_call, deadline, held_config, is_to_configure, is_too_long,
    is_unconfigured, plan_of, waits_for_ready,
};
pub use due::{attempts_made, is_licensed, is_number, kind_of_next, next_due};
pub use final_ends::is_final;
pub use ledger_words::{delay_of, is_cut, is_hedge, is_success, is_transparent};
pub use tokens::{allows_attempt, has_tokens, run_of, tokens_after, tokens_in, tokens_of};
pub use words::{fits_in_32_bits, last_of, numbered, sum};
