//! The program `muxsim`. It runs programs against a STREAMS multiplexer and writes the transcript. It also judges,
//! replays, traces or draws a transcript, or answers commands line by line.
#![tactic(auto)]

mod doing;
mod laws_of_ends;

ghost use Rattle.std.specs.Prelude.{◌≡◌, ◌≢◌, ◌⊎◌};
ghost use Rattle.std.specs.IoError.{error_kind};
ghost use Rattle.std.specs.Process.{exit_status};
ghost use Rattle.clap.specs.Values.{kind_of};

use clap::error::ErrorKind;
use doing::{do_job, ended};
use smx_command_line::job;
use smx_filters::{Done, MainFault, Source, Target};
use smx_run::RunFault;
use std::io::ErrorKind as IoKind;
use std::process::ExitCode;
use std::{env, io};

/// Does what the command line asks for. The exit status is one of these:
///
/// - 0: the job was done, or help or the version was printed.
/// - 1: the job is refused, or memory ran out.
/// - 2: the command line is invalid.
/// - 3: the text is malformed.
/// - 4: a transcript is illegal, or its configuration differs.
/// - 5: input or output failed.
fn main(rt: HostRuntime) -> ExitCode {
    let words = match words(&rt) {
        Ok(words) => words,
        Err(error) => return no_words(&rt, &error),
    };
    let alloc = rt.alloc();
    match job(alloc, words.as_slice()) {
        Ok(job) => {
            let mut feed = Source::new(rt.stdin());
            let mut sink = Target::new(rt.stdout());
            do_job(&rt, alloc, job, &mut feed, &mut sink)
        }
        Err(error) => no_job(&rt, &error),
    }
}

// Returns the words of the command line, starting with the program's name.
fn words(rt: &HostRuntime) -> io::Result<Vec<String>> {
    Ok(env::args(rt)?.collect(rt.alloc())?)
}

// Prints the text that clap returned instead of a job: an error on standard error, help or the version on standard
// output. The status is 1 for out-of-memory, 2 for any other error, 0 for help and the version, and 5 if these could
// not be printed.
fn no_job<R: Print + Eprint>(rt: &R, error: &clap::Error) -> ExitCode
    ensures no_memory { kind_of error.now ≡ ErrorKind.OutOfMemory → exit_status result ≡ 1 }
    ensures mistake { kind_of error.now ≢ ErrorKind.OutOfMemory
        → kind_of error.now ≢ ErrorKind.DisplayHelp → kind_of error.now ≢ ErrorKind.DisplayVersion
        → exit_status result ≡ 2 }
    ensures shown { (kind_of error.now ≡ ErrorKind.DisplayHelp)
        ⊎ (kind_of error.now ≡ ErrorKind.DisplayVersion)
        → (exit_status result ≡ 0) ⊎ (exit_status result ≡ 5) }
{
    if error.kind() == ErrorKind::OutOfMemory {
        return ended(rt, Err(MainFault::Refused(RunFault::NoMemory)));
    }
    if error.use_stderr() {
        let _ = eprint!(rt; "muxsim: {error}");
        return ExitCode::from(2);
    }
    match error.print(rt) {
        Ok(()) => ended(rt, Ok(Done::Finished)),
        Err(_) => ended(rt, Err(MainFault::WriteFailed)),
    }
}

// Reports that the words of the command line are not available: they are not valid text, or memory ran out.
fn no_words<R: Eprint>(rt: &R, error: &io::Error) -> ExitCode
    ensures no_memory { error_kind error.now ≡ IoKind.OutOfMemory → exit_status result ≡ 1 }
    ensures mistake { error_kind error.now ≢ IoKind.OutOfMemory → exit_status result ≡ 2 }
{
    if error.kind() == IoKind::OutOfMemory {
        return ended(rt, Err(MainFault::Refused(RunFault::NoMemory)));
    }
    let _ = eprintln!(rt; "muxsim: error: the command line is not UTF-8");
    ExitCode::from(2)
}
