// The words of the command line, read by `clap` from the mode on.
ghost use Rattle.std.specs.Prelude.{◌≡◌, ◌≤◌, ◌↔◌, ℕ, List, [], Some, map, string_bytes, IsTrue, IfOk, IfSome, IfNone, IsSomeAnd, codes};
ghost use Rattle.clap.specs.Words.{FailsBy, found_of, matches_of, rows_of};
ghost use Rattle.channel_top.specs.declared.words.Mode.{Mode};
ghost use Rattle.channel_top.specs.Words.{AskForText, IsAlone, IsAskedBy, IsLoadBy, IsLoadOf, IsOption, IsRelayBy, IsServeBy, Runs, app_for, dashes, kinds_at, mode_named, mode_of};

use crate::command::command;
use crate::live_words::live_of;
use clap::error::ErrorKind;
use clap::{ArgMatches, Error};
use live_mode::{LiveSettings, NETS};
use load_plan::Load;
use relay_mode::RelaySettings;
use std::alloc::Global;

/// The modes of the program, as its first word names them.
#[derive(Clone, Copy, Debug, PartialEq, Eq)]
pub enum ModeName {
    Replay,
    Config,
    Migrate,
    Serve,
    Load,
    Live,
    Relay,
}

/// What the program does.
#[derive(Clone, Copy, Debug, PartialEq, Eq)]
pub enum Mode {
    /// Reads a script, runs it and writes the report.
    Replay,
    /// Reads a service config and writes its reading.
    Config,
    /// Reads a script or a report and writes the script of version 2.
    Migrate,
    /// Reads a server script and serves so many links at a port by it.
    Serve { port: u16, links: u32 },
    /// Plays the session of a load in memory and writes the line that sums it up.
    Load(Load),
    /// Reads a live script, makes its calls and writes the report.
    Live { settings: LiveSettings },
    /// Reads a live script without calls, relays so many links at a port and writes the report.
    Relay { settings: RelaySettings },
}

/// What the words ask for.
#[derive(Debug, Drop)]
pub enum Asked {
    Run(Mode),
    /// The text of help or of the version is to be printed.
    Print(String),
}

/// Why the words ask for nothing.
#[derive(Clone, Copy, Debug, PartialEq, Eq)]
pub enum WordsFault {
    /// The first word is no mode, or `clap` refuses the others.
    Wrong,
    NoMemory,
}

/// The mode of this name.
fn mode_named(word: &[u8]) -> Option<ModeName>
    ensures { result ≡ mode_named word.now }
{
    if word == b"replay".as_slice() {
        return Some(ModeName::Replay);
    }
    if word == b"config".as_slice() {
        return Some(ModeName::Config);
    }
    if word == b"migrate".as_slice() {
        return Some(ModeName::Migrate);
    }
    if word == b"serve".as_slice() {
        return Some(ModeName::Serve);
    }
    if word == b"load".as_slice() {
        return Some(ModeName::Load);
    }
    if word == b"live".as_slice() {
        return Some(ModeName::Live);
    }
    if word == b"relay".as_slice() {
        return Some(ModeName::Relay);
    }
    None
}

/// The mode of the first word.
fn mode_of(words: &[String]) -> Option<ModeName>
    ensures { result ≡ mode_of (map string_bytes words.now) }
{
    let [first, ..] = words else {
        return None;
    };
    mode_named(first.as_bytes())
}

/// Whether a word is the one that ends the options.
fn is_dashes(word: &[u8]) -> bool
    ensures { IsTrue result ↔ (word.now ≡ dashes) }
{
    word == b"--".as_slice()
}

/// Whether nothing stands after the first word but the end of the options.
fn is_alone(words: &[String]) -> bool
    ensures { IsTrue result ↔ IsAlone (map string_bytes words.now) }
{
    let [_first, rest @ ..] = words else {
        return false;
    };
    let [last, more @ ..] = rest else {
        return true;
    };
    if !more.is_empty() {
        return false;
    }
    is_dashes(last.as_bytes())
}

/// What `clap` makes of the words at the command of a mode.
fn parse<'a>(
    alloc: Global,
    name: Option<ModeName>,
    words: &'a [String],
) -> Result<ArgMatches<'a>, Error>
    ensures kinds { FailsBy (kinds_at name (map string_bytes words.entry.now)) result }
    ensures matches { IfOk result (λ m. rows_of (found_of m) ≡ matches_of (app_for name) (map string_bytes words.entry.now)) }
{
    command(alloc, name)?.try_get_matches_from(words)
}

/// A number, where it is within these bounds.
pub fn within(number: u64, low: u64, high: u64) -> Option<u64>
    ensures some { IfSome result (λ n. (n ≡ number) × (low ≤ n) × (n ≤ high)) }
    ensures none { IfNone result (low ≤ number → number ≤ high → ⊥) }
{
    if number < low || number > high {
        return None;
    }
    Some(number)
}

/// The number within these bounds that an option was given.
fn number_at(matches: &ArgMatches<'_>, id: &str, low: u64, high: u64) -> Option<u64>
    ensures some { IfSome result (IsOption id.now low high (rows_of (found_of matches.now))) }
    ensures none { IfNone result ((n : ℕ) → IsOption id.now low high (rows_of (found_of matches.now)) n → ⊥) }
{
    match matches.get_one::<u64>(id) {
        Some(number) => within(number, low, high),
        None => None,
    }
}

/// The mode `serve` with its options.
fn serve_of(matches: &ArgMatches<'_>) -> Option<Mode>
    ensures some { IfSome result (IsServeBy (rows_of (found_of matches.now))) }
    ensures none { IfNone result ((m : Mode) → IsServeBy (rows_of (found_of matches.now)) m → ⊥) }
{
    match number_at(matches, "port", 0, 65_535) {
        Some(port) => match number_at(matches, "links", 1, 1_024) {
            Some(links) => Some(Mode::Serve {
                port: port as u16,
                links: links as u32,
            }),
            None => None,
        },
        None => None,
    }
}

/// The mode `load` with its options.
fn load_of(matches: &ArgMatches<'_>) -> Option<Mode>
    ensures some { IfSome result (IsLoadBy (rows_of (found_of matches.now))) }
    ensures none { IfNone result ((m : Mode) → IsLoadBy (rows_of (found_of matches.now)) m → ⊥) }
{
    match number_at(matches, "seed", 0, u64::MAX) {
        Some(seed) => match number_at(matches, "calls", 1, Load::LIMIT as u64) {
            Some(calls) => load_with(seed, calls),
            None => None,
        },
        None => None,
    }
}

/// The mode `load` of a seed with so many calls.
fn load_with(seed: u64, calls: u64) -> Option<Mode>
    requires some { 1 ≤ calls }
    requires within { calls ≤ 10000 }
    ensures { IsSomeAnd result (IsLoadOf seed calls) }
{
    match Load::new(seed, calls as u32) {
        Some(load) => Some(Mode::Load(load)),
        None => unreachable!(),
    }
}

/// Where the mode `relay` listens, and how many links it takes, by its options.
fn place_of(matches: &ArgMatches<'_>) -> Option<(u64, u64)>
    ensures some { IfSome result (λ p. IsOption (codes "port") 0 65535 (rows_of (found_of matches.now)) p.0 × IsOption (codes "links") 1 1024 (rows_of (found_of matches.now)) p.1 × (p.0 ≤ 65535) × (p.1 ≤ 1024)) }
    ensures none { IfNone result ((m : Mode) → IsRelayBy (rows_of (found_of matches.now)) m → ⊥) }
{
    match number_at(matches, "port", 0, 65_535) {
        Some(port) => match number_at(matches, "links", 1, 1_024) {
            Some(links) => Some((port, links)),
            None => None,
        },
        None => None,
    }
}

/// The mode `relay` with its options.
fn relay_of(matches: &ArgMatches<'_>) -> Option<Mode>
    ensures some { IfSome result (IsRelayBy (rows_of (found_of matches.now))) }
    ensures none { IfNone result ((m : Mode) → IsRelayBy (rows_of (found_of matches.now)) m → ⊥) }
{
    match place_of(matches) {
        Some((port, links)) => match number_at(matches, "seed", 0, u64::MAX) {
            Some(seed) => match number_at(matches, "nets", 1, NETS as u64) {
                Some(nets) => Some(Mode::Relay {
                    settings: RelaySettings {
                        port: port as u16,
                        links: links as u32,
                        seed,
                        nets: nets as u32,
                    },
                }),
                None => None,
            },
            None => None,
        },
        None => None,
    }
}

/// A mode without options, where it runs.
fn plain_of(words: &[String], mode: Mode) -> Option<Mode>
    ensures some { IfSome result (λ m. (m ≡ mode) × IsAlone (map string_bytes words.now)) }
    ensures none { IfNone result (IsAlone (map string_bytes words.now) → ⊥) }
{
    if is_alone(words) {
        return Some(mode);
    }
    None
}

/// The mode that words run which `clap` takes, from the mode's name on.
fn taken_mode(name: ModeName, words: &[String], matches: &ArgMatches<'_>) -> Option<Mode>
    requires name { mode_of (map string_bytes words.now) ≡ Some name }
    requires taken { kinds_at (Some name) (map string_bytes words.now) ≡ [] }
    requires matches { rows_of (found_of matches.now) ≡ matches_of (app_for (Some name)) (map string_bytes words.now) }
    ensures some { IfSome result (λ m. Runs m (map string_bytes words.now)) }
    ensures none { IfNone result ((m : Mode) → Runs m (map string_bytes words.now) → ⊥) }
{
    match name {
        ModeName::Replay => plain_of(words, Mode::Replay),
        ModeName::Config => plain_of(words, Mode::Config),
        ModeName::Migrate => plain_of(words, Mode::Migrate),
        ModeName::Serve => serve_of(matches),
        ModeName::Load => load_of(matches),
        ModeName::Live => live_of(matches),
        ModeName::Relay => relay_of(matches),
    }
}

/// The text for the user that an answer of `clap` has, as what is known of any words that ask for a text.
fn printed(alloc: Global, answer: &Error) -> Result<Asked, WordsFault>
    ensures { (words : List (List ℕ)) → AskForText words → IsAskedBy words result }
{
    match format!(in alloc; "{answer}") {
        Ok(text) => Ok(Asked::Print(text)),
        Err(_) => Err(WordsFault::NoMemory),
    }
}

/// Reads the words after the program's name. What they ask for is exact; only which further words ask for a text is left to
/// the definitions of `clap`.
pub fn read_words(alloc: Global, words: &[String]) -> Result<Asked, WordsFault>
    ensures { IsAskedBy (map string_bytes words.now) result }
{
    let name = mode_of(words);
    match parse(alloc, name, words) {
        Ok(matches) => match name {
            Some(name) => match taken_mode(name, words, &matches) {
                Some(mode) => Ok(Asked::Run(mode)),
                None => Err(WordsFault::Wrong),
            },
            None => Err(WordsFault::Wrong),
        },
        Err(answer) => match answer.kind() {
            ErrorKind::OutOfMemory => Err(WordsFault::NoMemory),
            ErrorKind::DisplayHelp => printed(alloc, &answer),
            ErrorKind::DisplayVersion => printed(alloc, &answer),
            _ => Err(WordsFault::Wrong),
        },
    }
}
