//! The subcommands and their options.

use crate::command_list::COMMANDS;
use clap::{Arg, ArgAction, Command, value_parser};
use smx_run::MAX_WORKERS;
use std::alloc::{AllocError, Global};

/// The last lines of each page of help.
pub const SEE: &str =
    "Exit status: 0 done or legal, 1 refused, 2 wrong words, 3 wrong text, 4 illegal or differing,
5 input or output failed.
More is in muxsim(1), and beside the sources in docs/: the texts in FORMATS.md, commands and replies in
COMMANDS.md. 'muxsim commands' shows how the texts are written, and the commands of a program.";

// The help of each option without a value.
const FRONTS: &str = "Write the fronts text in place of the transcript";

const WAITS: &str = "Also write, below each entry, what waits then";

const DOT: &str = "Write the language of Graphviz in place of SVG";

const STEPS: &str = "Replay the transcript and write an HTML page with a picture after each entry";

const EXPLAIN: &str = "Show what is wrong with a text that is refused";

const EXPLAIN_TRANSCRIPT: &str =
    "Show what is wrong with a transcript, or with a text that is refused";

const EXPLAIN_LINES: &str =
    "Show what is wrong with a line that is not a command, or with a table that is refused";

/// Returns the subcommand that runs programs.
pub fn run<'a>(alloc: Global) -> Result<Command<'a>, AllocError> {
    subcommand(
        alloc,
        "run",
        "Run the programs on standard input and write the transcript to standard output",
    )
    .override_usage("muxsim run [--workers N] [--fronts] [--explain] < PROGRAMS")
    .arg(workers(alloc))?
    .arg(flag(alloc, "fronts", FRONTS))?
    .arg(flag(alloc, "explain", EXPLAIN))
}

/// Returns the subcommand that judges a transcript.
pub fn check<'a>(alloc: Global) -> Result<Command<'a>, AllocError> {
    subcommand(
        alloc,
        "check",
        "Judge the transcript on standard input and write the verdict to standard output",
    )
    .override_usage("muxsim check [--explain] < TRANSCRIPT")
    .arg(flag(alloc, "explain", EXPLAIN_TRANSCRIPT))
}

/// Returns the subcommand that replays a transcript.
pub fn replay<'a>(alloc: Global) -> Result<Command<'a>, AllocError> {
    subcommand(
        alloc,
        "replay",
        "Replay the transcript on standard input and write the transcript that its commands give",
    )
    .override_usage("muxsim replay [--at K] [--explain] < TRANSCRIPT")
    .arg(at(alloc))?
    .arg(flag(alloc, "explain", EXPLAIN))
}

/// Returns the subcommand that traces a transcript.
pub fn trace<'a>(alloc: Global) -> Result<Command<'a>, AllocError> {
    subcommand(
        alloc,
        "trace",
        "Replay the transcript on standard input and write what each entry changes, and what waits",
    )
    .override_usage("muxsim trace [--waits] [--explain] < TRANSCRIPT")
    .arg(flag(alloc, "waits", WAITS))?
    .arg(flag(alloc, "explain", EXPLAIN))
}

/// Returns the subcommand that draws a picture.
pub fn draw<'a>(alloc: Global) -> Result<Command<'a>, AllocError> {
    subcommand(
        alloc,
        "draw",
        "Draw the configuration that the transcript on standard input shows",
    )
    .override_usage("muxsim draw [--dot | --steps] [--explain] < TRANSCRIPT")
    .arg(flag(alloc, "dot", DOT))?
    .arg(flag(alloc, "steps", STEPS).conflicts_with("dot")?)?
    .arg(flag(alloc, "explain", EXPLAIN))
}

/// Returns the subcommand that answers line by line.
pub fn live<'a>(alloc: Global) -> Result<Command<'a>, AllocError> {
    subcommand(
        alloc,
        "live",
        "Answer each line of standard input at once: a driver table, then commands of processes",
    )
    .override_usage("muxsim live [--explain] < LINES")
    .arg(flag(alloc, "explain", EXPLAIN_LINES))
}

/// Returns the subcommand that shows the page of help on the texts and the commands of a program.
pub fn commands<'a>(alloc: Global) -> Command<'a> {
    Command::new(alloc, "commands")
        .about("Show how the texts are written, and the commands of a program")
        .override_help(COMMANDS)
}

// Returns a subcommand without options.
fn subcommand<'a>(alloc: Global, name: &'a str, about: &'a str) -> Command<'a> {
    Command::new(alloc, name).about(about).after_help(SEE)
}

// Returns the option for the number of workers.
fn workers<'a>(alloc: Global) -> Arg<'a> {
    Arg::new(alloc, "workers")
        .long("workers")
        .value_name("N")
        .help("How many threads run the programs, 1 to 64")
        .value_parser(value_parser!(usize).range(1..=MAX_WORKERS as i64))
        .default_value("1")
}

// Returns an option without a value.
fn flag<'a>(alloc: Global, name: &'a str, help: &'a str) -> Arg<'a> {
    Arg::new(alloc, name)
        .long(name)
        .help(help)
        .action(ArgAction::SetTrue)
}

// Returns the option for the number of entries to replay.
fn at<'a>(alloc: Global) -> Arg<'a> {
    Arg::new(alloc, "at")
        .long("at")
        .value_name("K")
        .help("Replay the first K entries alone, 0 or more")
        .value_parser(value_parser!(usize))
}
