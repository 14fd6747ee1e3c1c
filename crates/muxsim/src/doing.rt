//! Does a job from a reader to a writer, and gives the exit status for the result.

ghost use Rattle.std.specs.Prelude.{◌≡◌};
ghost use Rattle.std.specs.Process.{exit_status};
ghost use Rattle.muxsim.specs.Ends.{EndsJob, devices, finished, outcome_of};
ghost use Rattle.smx_command_line.specs.Jobs.{CanRun};
ghost use Rattle.smx_run.specs.Devices.{AreReady};
ghost use Rattle.smx_run.specs.Refusals.{answer_of};
ghost use Rattle.smx_run.specs.Statuses.{status_of, status_of_outcome};

use smx_command_line::Job;
use smx_explain::{DriverExplanation, FaultExplanation, TextKind};
use smx_filters::{
    Done, Feed, MainFault, Refusal, Sink, check_explained, check_text, make_text, run_explained,
    run_text,
};
use smx_live::live_text;
use smx_run::{NoGate, RunFault};
use smx_text::Cause;
use std::alloc::Global;
use std::process::ExitCode;
use std::sync::Wait;
use std::thread::Threads;

/// Does the job, reading from `feed` and writing to `sink`. Prints a fault on standard error. Requires that neither
/// `feed` nor `sink` has failed before and that the feed has not ended.
pub fn do_job<R: Threads + Wait + Sync + Eprint, F: Feed, S: Sink>(
    rt: &R,
    alloc: Global,
    job: Job,
    feed: &mut F,
    sink: &mut S,
) -> ExitCode
    requires job { CanRun job }
    requires ready { AreReady (F.ended feed.old) (F.failures feed.old) (S.failures sink.old) }
    ensures { EndsJob job (devices F.remaining F.ended F.failures S.contents S.flushed S.failures
        feed.old feed.new sink.old sink.new) result }
{
    match job {
        Job::Run {
            workers,
            fronts,
            explain: false,
        } => match run_text(rt, alloc, feed, sink, workers, fronts, &NoGate) {
            Ok(()) => ended(rt, Ok(Done::Finished)),
            Err(fault) => ended(rt, Err(fault)),
        },
        Job::Run {
            workers,
            fronts,
            explain: true,
        } => {
            let outcome = run_explained(rt, alloc, feed, sink, workers, fronts, &NoGate);
            written(rt, TextKind::Programs, outcome, true)
        }
        Job::Check { explain: false } => match check_text(alloc, feed, sink) {
            Ok(verdict) => ended(rt, Ok(Done::Judged(verdict))),
            Err(fault) => ended(rt, Err(fault)),
        },
        Job::Check { explain: true } => match check_explained(alloc, feed, sink) {
            Ok(verdict) => ended(rt, Ok(Done::Judged(verdict))),
            Err(refusal) => refused(rt, TextKind::Transcript, refusal),
        },
        Job::Make { product, explain } => {
            let outcome = make_text(alloc, feed, sink, product);
            written(rt, TextKind::Transcript, outcome, explain)
        }
        Job::Live { explain } => {
            let outcome = live_text(alloc, feed, sink, explain);
            written(rt, TextKind::Programs, outcome, explain)
        }
    }
}

// Returns the status for the outcome of a job whose input is a text of this kind. If the job failed, prints the reason
// on standard error, and if `explain`, also what is wrong with a text that is refused.
fn written<R: Eprint>(
    rt: &R,
    kind: TextKind,
    outcome: Result<(), Refusal>,
    explain: bool,
) -> ExitCode
    ensures { exit_status result ≡ status_of_outcome (outcome_of finished (answer_of outcome)) }
{
    match outcome {
        Ok(()) => ended(rt, Ok(Done::Finished)),
        Err(refusal) if explain => refused(rt, kind, refusal),
        Err(refusal) => ended(rt, Err(refusal.fault)),
    }
}

// Returns the status of a fault. Prints the fault's line on standard error. Below this line it prints what is wrong
// with a refused text, or that a thread could not be started.
fn refused<R: Eprint>(rt: &R, kind: TextKind, refusal: Refusal) -> ExitCode
    ensures { exit_status result ≡ status_of refusal.fault }
{
    let Refusal { fault, text } = refusal;
    let code = failed(rt, &fault);
    if matches!(fault, MainFault::Refused(RunFault::NoThread)) {
        let _ = eprintln!(rt; "a thread for a worker could not be started, see --workers");
    }
    if let Some(text) = text {
        show(rt, kind, text.as_slice(), &fault);
    }
    code
}

// Prints what is wrong with a text or with its drivers, if the fault is one of them.
fn show<R: Eprint>(rt: &R, kind: TextKind, text: &[u8], fault: &MainFault) {
    match fault {
        MainFault::Text(fault) if fault.cause != Cause::NoMemory => {
            let explanation = FaultExplanation {
                kind,
                text,
                fault: *fault,
            };
            let _ = eprint!(rt; "{explanation}");
        }
        MainFault::Refused(RunFault::ConfigFault(fault)) => {
            let explanation = DriverExplanation {
                text,
                fault: *fault,
            };
            let _ = eprint!(rt; "{explanation}");
        }
        MainFault::Text(_)
        | MainFault::Refused(_)
        | MainFault::TooLong
        | MainFault::ReadFailed
        | MainFault::WriteFailed => {}
    }
}

/// Returns the status of the result. If the job failed, prints the reason on standard error.
pub fn ended<R: Eprint>(rt: &R, outcome: Result<Done, MainFault>) -> ExitCode
    ensures { exit_status result ≡ status_of_outcome outcome }
{
    match outcome {
        Ok(done) => ExitCode::from(done.status()),
        Err(fault) => failed(rt, &fault),
    }
}

// Returns the status of a fault. Prints the fault's line on standard error.
fn failed<R: Eprint>(rt: &R, fault: &MainFault) -> ExitCode
    ensures { exit_status result ≡ status_of fault.now }
{
    let status = fault.status();
    let _ = eprintln!(rt; "muxsim: {fault}");
    ExitCode::from(status)
}
