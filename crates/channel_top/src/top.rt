// The top call of the program.
ghost use Rattle.std.specs.Prelude.{◌≡◌, ◌≢◌, ◌⊎◌, Some, None, map, string_bytes, true};
ghost use Rattle.gate_io.specs.Outside.{Rises, one_more};
ghost use Rattle.channel_top.specs.Complete.{IsRunnable, IsShortScript};
ghost use Rattle.channel_top.specs.Inputs.{HasSession, IsGivenItsInput, IsGivenOther};
ghost use Rattle.channel_top.specs.Words.{AskForText, AskPlainly, Runs, RunsPlain, name_of};
ghost use Rattle.channel_top.specs.declared.words.Mode.{Mode};
ghost use Rattle.channel_top.specs.declared.words.ModeName.TheVariants as name;
ghost use Rattle.channel_top.specs.Modes.{EndsSession, FillsIn, Finishes, IsDoneIn, IsOutput, IsOutputIn, RefusesIn, RefusesWords, StopsIn, StopsReading, ReportsFault, ReportsFaultIn, NotListening, NotListeningIn};
ghost use Rattle.session_text.specs.Writing.{WritesAll, WritesPrefix, WritesSome};
ghost use Rattle.policy_rack.specs.Kinds.{are_ready};

use crate::config_mode::run_config;
use crate::links::Place;
use crate::live::run_as_promised;
use crate::load::run_load;
use crate::migrate::run_migrate;
use crate::promise::sessions_keep_the_promise;
use crate::relay::relay_as_promised;
use crate::replay::run_replay;
use crate::reporting::WORDS_FAULT;
use crate::serve::run_serve;
use crate::words::{Asked, Mode, WordsFault, read_words};
use dns_watch::NamedWorld;
use gate_io::{Listener, Sink, Source, SteadySink, SteadySource, write_whole};
use lb_policy::{Balancer, Policy};
use policy_rack::set_of;
use std::alloc::Global;
use std::sync::Wait;
use std::thread::Threads;

/// Runs the program on the words after its name, with these policies, of which no two are of one kind and one is `pick_first`.
///
/// | Words | What it does |
/// |---|---|
/// | `replay` | reads a script, runs it with these policies and writes the report |
/// | `config` | reads a service config and writes its reading; the kinds of the policies count as supported |
/// | `migrate` | reads a script or a report of either version and writes the script of version 2 |
/// | `serve --port <n> --links <1..1024>` | reads a server script, serves so many links of the listener by it until each has ended, and writes `served <links>`; it may never return |
/// | `load --seed <n> --calls <1..10000>` | reads nothing, plays the session that is made from the seed in memory, on both links of a scripted server, and writes the line that sums it up |
/// | `live [--seed <n>] [--nets <1..4>] [--keepalive <ms>] [--keepalive-timeout <ms>]` | reads a live script, makes its calls over the world's links, and writes the report of the session; it may never return |
/// | `relay --port <n> --links <1..1024> --seed <n> --nets <1..4>` | reads a live script without calls, makes each call that comes over so many links of the listener over the world's links, and writes the report of the session; it may never return |
/// | `--help`, `--version`, alone or after a mode | writes that text, and reads nothing |
///
/// | Status | When | Written |
/// |---|---|---|
/// | 0 | done | the whole output of the mode; nothing for a script or a report of no bytes |
/// | 2 | there is no first word, it is no mode, `clap` refuses the words after it, or `load` finds no `round_robin` among the policies | `fault words` |
/// | 3 | a line of the script or report is bad, or the config has a fault | `fault line <n> cause <c>`, or `fault config <n> <detail>` |
/// | 4 | a read failed before the input's end and its first fault | nothing |
/// | 5 | a write failed | a prefix of the output of status 0, 2, 3 or 7 |
/// | 6 | out of memory | nothing, or such a prefix |
/// | 7 | the journal of the session has no room for an event | the report of the events before it, but for `load`, and `fault session full` |
/// | 8 | the listener's `open` or `accept` failed; no call of it was made after that one | nothing |
pub fn run_channel<R: Threads + Wait + Sync, S: Source, K: Sink, W: NamedWorld, L: Listener>(
    rt: &R,
    alloc: Global,
    words: &[String],
    script: &mut S,
    report: &mut K,
    world: W,
    listener: &mut L,
    boxes: Vec<Box<dyn Policy>>,
) -> u8
    requires { are_ready (map (λ b. seen b) boxes.items) ≡ true }
    ensures done { result ≡ 0 → WritesAll (Finishes (map (λ b. seen b) boxes.items) (W.held world) (map string_bytes words.now) (S.left script.old) (S.left script.new)) (K.taken report.old) (K.taken report.new) }
    ensures words { result ≡ 2 → WritesAll (RefusesWords (map (λ b. seen b) boxes.items) (map string_bytes words.now) (S.left script.old) (S.left script.new)) (K.taken report.old) (K.taken report.new) }
    ensures fault { result ≡ 3 → WritesAll (ReportsFault (map (λ b. seen b) boxes.items) (map string_bytes words.now) (S.left script.old) (S.left script.new)) (K.taken report.old) (K.taken report.new) }
    ensures reading { result ≡ 4 → StopsReading (map string_bytes words.now) (S.left script.old) (S.left script.new) (K.taken report.old) (K.taken report.new) (S.faults script.old) (S.faults script.new) }
    ensures writing { result ≡ 5 → Rises (K.faults report.old) (K.faults report.new) × WritesPrefix (IsOutput (map (λ b. seen b) boxes.items) (W.held world) (map string_bytes words.now) (S.left script.old) (S.left script.new)) (K.taken report.old) (K.taken report.new) }
    ensures memory { result ≡ 6 → WritesSome (IsOutput (map (λ b. seen b) boxes.items) (W.held world) (map string_bytes words.now) (S.left script.old) (S.left script.new)) (K.taken report.old) (K.taken report.new) }
    ensures full { result ≡ 7 → WritesAll (EndsSession (map (λ b. seen b) boxes.items) (W.held world) (map string_bytes words.now) (S.left script.old) (S.left script.new)) (K.taken report.old) (K.taken report.new) }
    ensures not_listening { result ≡ 8 → NotListening (map string_bytes words.now) (S.left script.old) (S.left script.new) (K.taken report.old) (K.taken report.new) (L.faults listener.old) (L.faults listener.new) }
    ensures listened { result ≢ 6 → result ≢ 8 → L.faults listener.new ≡ L.faults listener.old }
    ensures known { (result ≡ 0) ⊎ (result ≡ 2) ⊎ (result ≡ 3) ⊎ (result ≡ 4) ⊎ (result ≡ 5) ⊎ (result ≡ 6) ⊎ (result ≡ 7) ⊎ (result ≡ 8) }
    // A script whose session is within the limits is run to its end, if no read or write fails and memory does not end.
    ensures complete { RunsPlain name.Replay (map string_bytes words.now) → IsRunnable (map (λ b. seen b) boxes.items) (S.left script.old) → (Rises (S.faults script.old) (S.faults script.new) → ⊥) → (Rises (K.faults report.old) (K.faults report.new) → ⊥) → (result ≡ 0) ⊎ (result ≡ 6) }
    // So is each script of few events.
    ensures short { RunsPlain name.Replay (map string_bytes words.now) → IsShortScript (S.left script.old) → (Rises (S.faults script.old) (S.faults script.new) → ⊥) → (Rises (K.faults report.old) (K.faults report.new) → ⊥) → (result ≡ 0) ⊎ (result ≡ 6) }
    // A mode that is given what it reads is done, if no device fails and memory does not end; the journal of its session may get full.
    ensures good { (given : IsGivenItsInput (map (λ b. seen b) boxes.items) (map string_bytes words.now) (S.left script.old)) → (Rises (S.faults script.old) (S.faults script.new) → ⊥) → (Rises (K.faults report.old) (K.faults report.new) → ⊥) → (L.faults listener.new ≡ one_more (L.faults listener.old) → ⊥) → (result ≡ 0) ⊎ (result ≡ 6) ⊎ ((result ≡ 7) × HasSession (name_of given.mode)) }
    // One that is given anything else reports its fault.
    ensures bad { IsGivenOther (map (λ b. seen b) boxes.items) (map string_bytes words.now) (S.left script.old) → (Rises (S.faults script.old) (S.faults script.new) → ⊥) → (Rises (K.faults report.old) (K.faults report.new) → ⊥) → (result ≡ 3) ⊎ (result ≡ 6) }
    // Words that ask for help or the version in the plain way get that text.
    ensures asked { AskPlainly (map string_bytes words.now) → (Rises (K.faults report.old) (K.faults report.new) → ⊥) → (result ≡ 0) ⊎ (result ≡ 6) }
    // Words that run no mode and ask for no text are refused.
    ensures wrong { ((m : Mode) → Runs m (map string_bytes words.now) → ⊥) → (AskForText (map string_bytes words.now) → ⊥) → (Rises (K.faults report.old) (K.faults report.new) → ⊥) → (result ≡ 2) ⊎ (result ≡ 6) }
{
    sessions_keep_the_promise();
    run_words(rt, alloc, words, boxes, script, report, world, listener)
}

/// Runs the program with these policies.
fn run_words<
    R: Threads + Wait + Sync,
    P: Balancer + Send,
    S: Source,
    K: Sink,
    W: NamedWorld,
    L: Listener,
>(
    rt: &R,
    alloc: Global,
    words: &[String],
    policies: Vec<P>,
    script: &mut S,
    report: &mut K,
    world: W,
    listener: &mut L,
) -> u8
    requires { are_ready (map P.seen policies.items) ≡ true }
    ensures done { result ≡ 0 → WritesAll (Finishes (map P.seen policies.items) (W.held world) (map string_bytes words.now) (S.left script.old) (S.left script.new)) (K.taken report.old) (K.taken report.new) }
    ensures words { result ≡ 2 → WritesAll (RefusesWords (map P.seen policies.items) (map string_bytes words.now) (S.left script.old) (S.left script.new)) (K.taken report.old) (K.taken report.new) }
    ensures fault { result ≡ 3 → WritesAll (ReportsFault (map P.seen policies.items) (map string_bytes words.now) (S.left script.old) (S.left script.new)) (K.taken report.old) (K.taken report.new) }
    ensures reading { result ≡ 4 → StopsReading (map string_bytes words.now) (S.left script.old) (S.left script.new) (K.taken report.old) (K.taken report.new) (S.faults script.old) (S.faults script.new) }
    ensures writing { result ≡ 5 → Rises (K.faults report.old) (K.faults report.new) × WritesPrefix (IsOutput (map P.seen policies.items) (W.held world) (map string_bytes words.now) (S.left script.old) (S.left script.new)) (K.taken report.old) (K.taken report.new) }
    ensures memory { result ≡ 6 → WritesSome (IsOutput (map P.seen policies.items) (W.held world) (map string_bytes words.now) (S.left script.old) (S.left script.new)) (K.taken report.old) (K.taken report.new) }
    ensures full { result ≡ 7 → WritesAll (EndsSession (map P.seen policies.items) (W.held world) (map string_bytes words.now) (S.left script.old) (S.left script.new)) (K.taken report.old) (K.taken report.new) }
    ensures not_listening { result ≡ 8 → NotListening (map string_bytes words.now) (S.left script.old) (S.left script.new) (K.taken report.old) (K.taken report.new) (L.faults listener.old) (L.faults listener.new) }
    ensures listened { result ≢ 6 → result ≢ 8 → L.faults listener.new ≡ L.faults listener.old }
    ensures known { (result ≡ 0) ⊎ (result ≡ 2) ⊎ (result ≡ 3) ⊎ (result ≡ 4) ⊎ (result ≡ 5) ⊎ (result ≡ 6) ⊎ (result ≡ 7) ⊎ (result ≡ 8) }
{
    match read_words(alloc, words) {
        Ok(asked) => match asked {
            Asked::Run(mode) => run_mode(
                rt, alloc, mode, policies, script, report, world, listener,
            ),
            Asked::Print(text) => {
                if write_whole(report, text.as_bytes()) {
                    return 0;
                }
                5
            }
        },
        Err(fault) => match fault {
            WordsFault::Wrong => {
                if write_whole(report, WORDS_FAULT) {
                    return 2;
                }
                5
            }
            WordsFault::NoMemory => 6,
        },
    }
}

/// Runs a mode.
fn run_mode<
    R: Threads + Wait + Sync,
    P: Balancer + Send,
    S: Source,
    K: Sink,
    W: NamedWorld,
    L: Listener,
>(
    rt: &R,
    alloc: Global,
    mode: Mode,
    policies: Vec<P>,
    script: &mut S,
    report: &mut K,
    world: W,
    listener: &mut L,
) -> u8
    requires { are_ready (map P.seen policies.items) ≡ true }
    ensures done { result ≡ 0 → WritesAll (IsDoneIn (map P.seen policies.items) (W.held world) mode (S.left script.old) (S.left script.new)) (K.taken report.old) (K.taken report.new) }
    ensures words { result ≡ 2 → WritesAll (RefusesIn (map P.seen policies.items) mode (S.left script.old) (S.left script.new)) (K.taken report.old) (K.taken report.new) }
    ensures fault { result ≡ 3 → WritesAll (ReportsFaultIn (map P.seen policies.items) mode (S.left script.old) (S.left script.new)) (K.taken report.old) (K.taken report.new) }
    ensures reading { result ≡ 4 → StopsIn mode (S.left script.old) (S.left script.new) (K.taken report.old) (K.taken report.new) (S.faults script.old) (S.faults script.new) }
    ensures writing { result ≡ 5 → Rises (K.faults report.old) (K.faults report.new) × WritesPrefix (IsOutputIn (map P.seen policies.items) (W.held world) mode (S.left script.old) (S.left script.new)) (K.taken report.old) (K.taken report.new) }
    ensures memory { result ≡ 6 → WritesSome (IsOutputIn (map P.seen policies.items) (W.held world) mode (S.left script.old) (S.left script.new)) (K.taken report.old) (K.taken report.new) }
    ensures full { result ≡ 7 → WritesAll (FillsIn (map P.seen policies.items) (W.held world) mode (S.left script.old) (S.left script.new)) (K.taken report.old) (K.taken report.new) }
    ensures not_listening { result ≡ 8 → NotListeningIn mode (S.left script.old) (S.left script.new) (K.taken report.old) (K.taken report.new) (L.faults listener.old) (L.faults listener.new) }
    ensures listened { result ≢ 6 → result ≢ 8 → L.faults listener.new ≡ L.faults listener.old }
    ensures known { (result ≡ 0) ⊎ (result ≡ 2) ⊎ (result ≡ 3) ⊎ (result ≡ 4) ⊎ (result ≡ 5) ⊎ (result ≡ 6) ⊎ (result ≡ 7) ⊎ (result ≡ 8) }
{
    match mode {
        Mode::Replay => run_replay(alloc, policies, script, report),
        Mode::Config => run_config(alloc, set_of(policies.as_slice()), script, report),
        Mode::Migrate => run_migrate(alloc, script, report),
        Mode::Serve { port, links } => {
            run_serve(rt, alloc, Place { port, links }, script, report, listener)
        }
        Mode::Load(load) => run_load(alloc, load, policies, report),
        Mode::Live { settings } => {
            run_as_promised(rt, alloc, settings, policies, world, script, report)
        }
        Mode::Relay { settings } => relay_as_promised(
            rt, alloc, settings, policies, world, script, report, listener,
        ),
    }
}

/// Runs the program over ends that never fail: statuses 4 and 5 do not occur, and the others are those of `run_channel`.
pub fn run_steady<R: Threads + Wait + Sync, W: NamedWorld, L: Listener>(
    rt: &R,
    alloc: Global,
    words: &[String],
    script: &mut SteadySource,
    report: &mut SteadySink,
    world: W,
    listener: &mut L,
    boxes: Vec<Box<dyn Policy>>,
) -> u8
    requires { are_ready (map (λ b. seen b) boxes.items) ≡ true }
    ensures done { result ≡ 0 → WritesAll (Finishes (map (λ b. seen b) boxes.items) (W.held world) (map string_bytes words.now) (Some script.old) (Some script.new)) None None }
    ensures words { result ≡ 2 → WritesAll (RefusesWords (map (λ b. seen b) boxes.items) (map string_bytes words.now) (Some script.old) (Some script.new)) None None }
    ensures fault { result ≡ 3 → WritesAll (ReportsFault (map (λ b. seen b) boxes.items) (map string_bytes words.now) (Some script.old) (Some script.new)) None None }
    ensures full { result ≡ 7 → WritesAll (EndsSession (map (λ b. seen b) boxes.items) (W.held world) (map string_bytes words.now) (Some script.old) (Some script.new)) None None }
    ensures not_listening { result ≡ 8 → NotListening (map string_bytes words.now) (Some script.old) (Some script.new) None None (L.faults listener.old) (L.faults listener.new) }
    ensures known { (result ≡ 0) ⊎ (result ≡ 2) ⊎ (result ≡ 3) ⊎ (result ≡ 6) ⊎ (result ≡ 7) ⊎ (result ≡ 8) }
    ensures complete { RunsPlain name.Replay (map string_bytes words.now) → IsRunnable (map (λ b. seen b) boxes.items) (Some script.old) → (result ≡ 0) ⊎ (result ≡ 6) }
    ensures short { RunsPlain name.Replay (map string_bytes words.now) → IsShortScript (Some script.old) → (result ≡ 0) ⊎ (result ≡ 6) }
    ensures good { (given : IsGivenItsInput (map (λ b. seen b) boxes.items) (map string_bytes words.now) (Some script.old)) → (L.faults listener.new ≡ one_more (L.faults listener.old) → ⊥) → (result ≡ 0) ⊎ (result ≡ 6) ⊎ ((result ≡ 7) × HasSession (name_of given.mode)) }
    ensures bad { IsGivenOther (map (λ b. seen b) boxes.items) (map string_bytes words.now) (Some script.old) → (result ≡ 3) ⊎ (result ≡ 6) }
    ensures asked { AskPlainly (map string_bytes words.now) → (result ≡ 0) ⊎ (result ≡ 6) }
    ensures wrong { ((m : Mode) → Runs m (map string_bytes words.now) → ⊥) → (AskForText (map string_bytes words.now) → ⊥) → (result ≡ 2) ⊎ (result ≡ 6) }
{
    run_channel(rt, alloc, words, script, report, world, listener, boxes)
}
