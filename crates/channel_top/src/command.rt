// The commands of `clap`, one for each mode.
ghost use Rattle.std.specs.Prelude.{◌≡◌, IfOk};
ghost use Rattle.clap.specs.Words.{app_of, with_rule};
ghost use Rattle.channel_top.specs.Words.{app_for, mode_command, choice_rule, option_rule, with_keepalives, with_live, with_relay, with_workers};

use crate::help;
use crate::words::ModeName;
use clap::{Arg, Command};
use std::alloc::{AllocError, Global};

const VERSION: &str = "0.1.0";

/// The command of a mode, or of the program where the first word is no mode.
#[tactic(auto, unfolding(crate::specs::Words::app_for))]
pub fn command<'a>(alloc: Global, name: Option<ModeName>) -> Result<Command<'a>, AllocError>
    ensures { IfOk result (λ c. app_of c ≡ app_for name) }
{
    let command = command_of_mode(alloc, name);
    match name {
        Some(ModeName::Serve) => {
            let command = with_number(alloc, command, "port", "The port, from 0 to 65535")?;
            with_number(alloc, command, "links", "How many links, from 1 to 1024")
        }
        Some(ModeName::Load) => {
            let command = with_number(alloc, command, "seed", "The seed, below 2^64")?;
            with_number(alloc, command, "calls", "How many calls, from 1 to 10000")
        }
        Some(ModeName::Live) => with_live_options(alloc, command),
        Some(ModeName::Relay) => with_relay_options(alloc, command),
        _ => Ok(command),
    }
}

/// The command of a mode without its options.
#[tactic(auto, unfolding(crate::specs::Words::mode_command))]
fn command_of_mode<'a>(alloc: Global, name: Option<ModeName>) -> Command<'a>
    ensures { app_of result ≡ mode_command name }
{
    match name {
        Some(ModeName::Replay) => Command::new(alloc, "grpcc replay")
            .version(VERSION)
            .about(help::of_replay())
            .override_usage("grpcc replay < SCRIPT"),
        Some(ModeName::Config) => Command::new(alloc, "grpcc config")
            .version(VERSION)
            .about(help::of_config())
            .override_usage("grpcc config < CONFIG"),
        Some(ModeName::Migrate) => Command::new(alloc, "grpcc migrate")
            .version(VERSION)
            .about(help::of_migrate())
            .override_usage("grpcc migrate < REPORT"),
        Some(ModeName::Serve) => Command::new(alloc, "grpcc serve")
            .version(VERSION)
            .about(help::of_serve())
            .override_usage("grpcc serve --port N --links N < SCRIPT"),
        Some(ModeName::Load) => Command::new(alloc, "grpcc load")
            .version(VERSION)
            .about(help::of_load())
            .override_usage("grpcc load --seed N --calls N"),
        Some(ModeName::Live) => Command::new(alloc, "grpcc live")
            .version(VERSION)
            .about(help::of_live())
            .override_usage(
                "grpcc live [--seed N] [--nets N] [--keepalive MS] [--keepalive-timeout MS] < SCRIPT",
            ),
        Some(ModeName::Relay) => Command::new(alloc, "grpcc relay")
            .version(VERSION)
            .about(help::of_relay())
            .override_usage("grpcc relay --port N --links N --seed N --nets N < SCRIPT"),
        None => Command::new(alloc, "grpcc")
            .version(VERSION)
            .about(help::of_program())
            .override_usage("grpcc MODE < INPUT")
            .no_binary_name(true),
    }
}

/// A command with one more option, which has to be there and takes a number.
fn with_number<'a>(
    alloc: Global,
    command: Command<'a>,
    id: &'a str,
    text: &'a str,
) -> Result<Command<'a>, AllocError>
    ensures { IfOk result (λ c. app_of c ≡ with_rule (app_of command.entry) (option_rule id.entry.now)) }
{
    let option = Arg::new(alloc, id)
        .long(id)
        .value_name("N")
        .help(text)
        .required(true);
    command.arg(option)
}

/// A command with one more option, which takes a number and may be left out.
fn with_choice<'a>(
    alloc: Global,
    command: Command<'a>,
    id: &'a str,
    text: &'a str,
) -> Result<Command<'a>, AllocError>
    ensures { IfOk result (λ c. app_of c ≡ with_rule (app_of command.entry) (choice_rule id.entry.now)) }
{
    let option = Arg::new(alloc, id).long(id).value_name("N").help(text);
    command.arg(option)
}

/// A command with the options of `relay`.
fn with_relay_options<'a>(alloc: Global, command: Command<'a>) -> Result<Command<'a>, AllocError>
    ensures { IfOk result (λ c. app_of c ≡ with_relay (app_of command.entry)) }
{
    let command = with_number(alloc, command, "port", "The port, from 0 to 65535")?;
    let command = with_number(alloc, command, "links", "How many links, from 1 to 1024")?;
    let command = with_number(alloc, command, "seed", "The seed of the random choices")?;
    with_number(
        alloc,
        command,
        "nets",
        "How many threads keep links to the servers open, from 1 to 4",
    )
}

/// A command with the options of `live`.
fn with_live_options<'a>(alloc: Global, command: Command<'a>) -> Result<Command<'a>, AllocError>
    ensures { IfOk result (λ c. app_of c ≡ with_live (app_of command.entry)) }
{
    let command = with_workers(alloc, command)?;
    with_keepalives(alloc, command)
}

/// A command with the seed and the number of net workers.
fn with_workers<'a>(alloc: Global, command: Command<'a>) -> Result<Command<'a>, AllocError>
    ensures { IfOk result (λ c. app_of c ≡ with_workers (app_of command.entry)) }
{
    let command = with_choice(
        alloc,
        command,
        "seed",
        "The seed of the random choices (default 1)",
    )?;
    with_choice(
        alloc,
        command,
        "nets",
        "How many threads keep links open, from 1 to 4 (default 2)",
    )
}

/// A command with the options of keepalives.
fn with_keepalives<'a>(alloc: Global, command: Command<'a>) -> Result<Command<'a>, AllocError>
    ensures { IfOk result (λ c. app_of c ≡ with_keepalives (app_of command.entry)) }
{
    let command = with_choice(
        alloc,
        command,
        "keepalive",
        "After how many ms without bytes a link is pinged, from 1 to 86400000",
    )?;
    with_choice(
        alloc,
        command,
        "keepalive-timeout",
        "How many ms a ping may stay unanswered, from 1 to 86400000 (default 20000)",
    )
}
