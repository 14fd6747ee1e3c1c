//! The job that the command line asks for.

ghost use Rattle.std.specs.Prelude.{◌≤◌, IfOk};
ghost use Rattle.smx_run.specs.declared.run.TheConstants.{MAX_WORKERS};
ghost use Rattle.smx_command_line.specs.Jobs.{CanRun};

use crate::jobs::Job;
use crate::subcommands::{self, SEE};
use clap::error::ErrorKind;
use clap::{ArgMatches, Command, Error};
use smx_run::{MAX_WORKERS, Product};
use std::alloc::{AllocError, Global};
use std::convert::AsStr;
use std::mem::forget;

// What `--version` prints after the program's name.
const VERSION: &str = "0.1.0";

/// Parses the words of the command line. The first word is the program's name, and the second names the job. The others
/// are options of this job:
///
/// - `run`: `--workers` and `--fronts`
/// - `check`
/// - `replay`: `--at`
/// - `trace`: `--waits`
/// - `draw`: `--dot` or `--steps`
/// - `live`
///
/// Each job also has the option `--explain`. For any other words, and for a request for help or the version, such as
/// `commands`, fails with clap's error. If it is out of memory, the kind of the error is `OutOfMemory`.
pub fn job<'a, S: AsStr>(alloc: Global, words: &'a [S]) -> Result<Job, Error>
    ensures { IfOk result CanRun }
{
    let matches = program(alloc)?.try_get_matches_from(words)?;
    let job = job_of(alloc, &matches);
    // clap's matches are small. They stay allocated until the program ends.
    forget(matches);
    job
}

// Returns the job that clap's matches of the words ask for.
fn job_of(alloc: Global, matches: &ArgMatches) -> Result<Job, Error>
    ensures { IfOk result CanRun }
{
    match matches.subcommand() {
        Some(("run", run)) => Ok(Job::Run {
            workers: workers_of(run),
            fronts: run.get_flag("fronts"),
            explain: run.get_flag("explain"),
        }),
        Some(("check", check)) => Ok(Job::Check {
            explain: check.get_flag("explain"),
        }),
        Some(("replay", replay)) => Ok(Job::Make {
            product: Product::Replay {
                at: replay.get_one::<usize>("at"),
            },
            explain: replay.get_flag("explain"),
        }),
        Some(("trace", trace)) => Ok(Job::Make {
            product: Product::Trace {
                waits: trace.get_flag("waits"),
            },
            explain: trace.get_flag("explain"),
        }),
        Some(("draw", draw)) => Ok(Job::Make {
            product: drawing_of(draw),
            explain: draw.get_flag("explain"),
        }),
        Some(("live", live)) => Ok(Job::Live {
            explain: live.get_flag("explain"),
        }),
        // Only `commands` is left: clap has rejected all others, and words without a subcommand.
        Some(_) | None => Err(help_of_commands(alloc)?),
    }
}

// Returns the number of workers that the words ask for. clap gives 1 if the option is left out, and has already
// rejected any number outside 1 to `MAX_WORKERS`, so the last arm is never reached.
fn workers_of(run: &ArgMatches) -> usize
    ensures { (1 ≤ result) × (result ≤ MAX_WORKERS) }
{
    match run.get_one::<usize>("workers") {
        Some(workers) if 1 <= workers && workers <= MAX_WORKERS => workers,
        Some(_) | None => 1,
    }
}

// Returns what is to be drawn: a page, or a picture in the requested language. clap has already rejected `--dot` with
// `--steps`.
fn drawing_of(draw: &ArgMatches) -> Product {
    if draw.get_flag("steps") {
        return Product::Page;
    }
    if draw.get_flag("dot") {
        return Product::Dot;
    }
    Product::Svg
}

// Returns clap's answer to `help commands`. The word `commands` alone asks for the same page of help.
fn help_of_commands(alloc: Global) -> Result<Error, AllocError> {
    let mut program = program(alloc)?;
    match program.try_get_matches_from_mut(&["muxsim", "help", "commands"]) {
        Err(help) => Ok(help),
        // A request for help has no matches.
        Ok(matches) => {
            forget(matches);
            program.error(
                ErrorKind::InvalidSubcommand,
                "'commands' is a page of the help",
            )
        }
    }
}

// Returns the program with its subcommands. Its usage always names it `muxsim`, whatever the file is called.
fn program<'a>(alloc: Global) -> Result<Command<'a>, AllocError> {
    Command::new(alloc, "muxsim")
        .bin_name("muxsim")?
        .version(VERSION)
        .about("Simulate a STREAMS multiplexer configuration with persistent links")
        .after_help(SEE)
        .subcommand_required(true)
        .subcommand(subcommands::run(alloc)?)?
        .subcommand(subcommands::check(alloc)?)?
        .subcommand(subcommands::replay(alloc)?)?
        .subcommand(subcommands::trace(alloc)?)?
        .subcommand(subcommands::draw(alloc)?)?
        .subcommand(subcommands::live(alloc)?)?
        .subcommand(subcommands::commands(alloc))
}
