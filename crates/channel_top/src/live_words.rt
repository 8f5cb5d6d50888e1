// The options of the mode `live`.
ghost use Rattle.std.specs.Prelude.{◌≡◌, ◌≤◌, ℕ, Option, IfNone, IfSome};
ghost use Rattle.clap.specs.Words.{found_of, rows_of};
ghost use Rattle.keepalive_core.specs.declared.rule.KeepRule.{KeepRule};
ghost use Rattle.channel_top.specs.declared.words.Mode.{Mode};
ghost use Rattle.channel_top.specs.Words.{IsChoice, IsGiven, IsKeepBy, IsLiveBy};

use crate::words::{Mode, within};
use clap::ArgMatches;
use keepalive_core::KeepRule;
use live_mode::{LiveSettings, NETS};

/// The most milliseconds of an option: one day.
const LONGEST: u64 = 86_400_000;

/// How many nanoseconds a millisecond has.
const MILLI: u64 = 1_000_000;

/// How many milliseconds a ping may stay unanswered where no option says it.
const TIMEOUT: u64 = 20_000;

/// What an option was given.
#[derive(Clone, Copy, Debug, PartialEq, Eq)]
enum Given {
    /// The option is not there.
    Nothing,
    /// A number within its bounds.
    Number(u64),
    /// What is no such number.
    Wrong,
}

/// What an option was given that takes a number within these bounds.
fn given_at(matches: &ArgMatches<'_>, id: &str, low: u64, high: u64) -> Given
    ensures given { IsGiven id.now low high (rows_of (found_of matches.now)) result }
    ensures most { (n : ℕ) → result ≡ Given.Number n → n ≤ high }
{
    match matches.try_get_one::<u64>(id) {
        Ok(None) => Given::Nothing,
        Ok(Some(number)) => match within(number, low, high) {
            Some(number) => Given::Number(number),
            None => Given::Wrong,
        },
        Err(_) => Given::Wrong,
    }
}

/// The number within these bounds that an option was given, or the default where it was not given.
fn choice_at(matches: &ArgMatches<'_>, id: &str, low: u64, high: u64, default: u64) -> Option<u64>
    requires { default ≤ high }
    ensures some { IfSome result (IsChoice id.now low high default (rows_of (found_of matches.now))) }
    ensures none { IfNone result ((n : ℕ) → IsChoice id.now low high default (rows_of (found_of matches.now)) n → ⊥) }
    ensures most { IfSome result (λ n. n ≤ high) }
{
    match given_at(matches, id, low, high) {
        Given::Nothing => Some(default),
        Given::Number(number) => Some(number),
        Given::Wrong => None,
    }
}

/// The rule of the keepalives, or none, where the options are within their bounds. The timeout stands beside the time alone.
#[tactic(auto, using(crate::proofs::ChoiceLaws::keep_wrong, crate::proofs::ChoiceLaws::keep_alone, crate::proofs::ChoiceLaws::timeout_given, crate::proofs::ChoiceLaws::keep_no_timeout))]
fn keep_of(matches: &ArgMatches<'_>) -> Option<Option<KeepRule>>
    ensures some { IfSome result (IsKeepBy (rows_of (found_of matches.now))) }
    ensures none { IfNone result ((keep : Option KeepRule) → IsKeepBy (rows_of (found_of matches.now)) keep → ⊥) }
{
    match given_at(matches, "keepalive", 1, LONGEST) {
        Given::Nothing => match given_at(matches, "keepalive-timeout", 1, LONGEST) {
            Given::Nothing => Some(None),
            _ => None,
        },
        Given::Number(time) => match choice_at(matches, "keepalive-timeout", 1, LONGEST, TIMEOUT) {
            Some(timeout) => Some(Some(KeepRule {
                time: time * MILLI,
                timeout: timeout * MILLI,
            })),
            None => None,
        },
        Given::Wrong => None,
    }
}

/// The mode `live` with its options.
#[tactic(auto, using(crate::proofs::ChoiceLaws::no_seed, crate::proofs::ChoiceLaws::no_nets, crate::proofs::ChoiceLaws::no_keep))]
pub fn live_of(matches: &ArgMatches<'_>) -> Option<Mode>
    ensures some { IfSome result (IsLiveBy (rows_of (found_of matches.now))) }
    ensures none { IfNone result ((m : Mode) → IsLiveBy (rows_of (found_of matches.now)) m → ⊥) }
{
    match choice_at(matches, "seed", 0, u64::MAX, 1) {
        Some(seed) => match choice_at(matches, "nets", 1, NETS as u64, 2) {
            Some(nets) => match keep_of(matches) {
                Some(keep) => Some(Mode::Live {
                    settings: LiveSettings {
                        seed,
                        nets: nets as u32,
                        keep,
                    },
                }),
                None => None,
            },
            None => None,
        },
        None => None,
    }
}
