// What applications post, how calls get their configs, commit and end, is the actions of a session, in their order; nothing runs.
#![tactic(auto)]

pub mod begin_actions;
pub mod call_ends;
pub mod call_posts;
pub mod call_sends;
pub mod commits_follow;
pub mod config_actions;
pub mod configured_calls;
pub mod ended_calls;
pub mod ends_follow;
pub mod ends_without_attempts;
pub mod full_sends;
pub mod link_ends;
pub mod long_sends;
pub mod one_call_ends;
pub mod other_calls;
pub mod sends_end;
pub mod settling_actions;
