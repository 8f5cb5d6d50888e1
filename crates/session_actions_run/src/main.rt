// Reads a script, computes its session by the definition of a session as a list of actions, and writes the report of it; with the word
// `--print` it prints the actions of each entry instead. With the word `--report` it reads a report, and takes the script that it holds.
#![tactic(auto)]

mod asked;
mod input;
mod lines;
mod print;
mod run;
mod session;
mod setup;
mod words;

use crate::asked::{Asked, read_words};
use crate::print::print_actions;
use crate::run::run_script;
use gate_io::{Sink, StdSink, StdSource};
use session_text::{unwritten, write_text};
use std::alloc::Global;
use std::io;
use std::process::ExitCode;

/// What is said of words that are not known.
const WORDS_FAULT: &[u8] = b"fault words\n";

/// Says that a word is not known, and gives the status of the program.
fn report_words<K: Sink>(sink: &mut K) -> u8 {
    match write_text(sink, WORDS_FAULT) {
        Ok(()) => 2,
        Err(fault) => unwritten(fault),
    }
}

fn main(rt: HostRuntime) -> ExitCode {
    let alloc: Global = rt.alloc();
    let mut source = StdSource::new(rt.reader());
    let mut sink = StdSink::new(io::writer(&rt));
    let status = match read_words(&rt) {
        Some(Asked::Report(form)) => run_script(alloc, form, &mut source, &mut sink),
        Some(Asked::Actions(form)) => print_actions(&rt, alloc, form, &mut source, &mut sink),
        None => report_words(&mut sink),
    };
    ExitCode::from(status)
}
