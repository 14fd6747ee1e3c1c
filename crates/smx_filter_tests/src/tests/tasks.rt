//! Tasks: each is a filter or a live session, from a reader to a writer.

ghost use Rattle.std.specs.Prelude.{◌≡◌, false};

use super::devices::{Stop, one_byte_feed, one_byte_sink};
use smx_config::Verdict;
use smx_filters::{
    Done, Feed, MainFault, Product, Refusal, Sink, Source, Target, check_explained, check_text,
    make_text, run_explained, run_text,
};
use smx_live::live_text;
use smx_run::NoGate;
use smx_samples::{Part, text_of};
use std::fmt::InlineText;
use std::io::ErrorKind;
use std::process::Abort;
use std::sync::Wait;
use std::thread::Threads;

/// A task is one of these: a filter; a run or a check with `--explain`; a live session, with `--explain` or without. A
/// run uses one worker.
#[derive(Clone, Copy)]
pub enum Task {
    Run,
    Check,
    Make(Product),
    ExplainedRun,
    ExplainedCheck,
    Live,
    ExplainedLive,
}

// Returns the outcome without the text that was kept.
fn without_text<T: Drop>(outcome: Result<T, Refusal>) -> Result<T, MainFault> {
    match outcome {
        Ok(done) => Ok(done),
        Err(refusal) => Err(refusal.fault),
    }
}

fn finished(outcome: Result<(), MainFault>) -> Result<Done, MainFault> {
    match outcome {
        Ok(()) => Ok(Done::Finished),
        Err(fault) => Err(fault),
    }
}

fn judged(outcome: Result<Verdict, MainFault>) -> Result<Done, MainFault> {
    match outcome {
        Ok(verdict) => Ok(Done::Judged(verdict)),
        Err(fault) => Err(fault),
    }
}

// Returns the line on standard error, without the program's name, and the status.
fn ending(outcome: Result<Done, MainFault>) -> (InlineText<64>, u8) {
    match outcome {
        Ok(done) => (InlineText::of(""), done.status()),
        Err(fault) => {
            let status = fault.status();
            (InlineText::of(fault), status)
        }
    }
}

// Does this task from a feed to a sink. Returns the line on standard error, without the program's name, and the
// status.
fn perform<R: AllocGlobal + Threads + Wait + Sync, F: Feed, S: Sink>(
    rt: &R,
    task: Task,
    feed: &mut F,
    sink: &mut S,
) -> (InlineText<64>, u8)
    requires before_the_end { F.ended feed.old ≡ false }
    requires fed { F.failures feed.old ≡ 0 }
    requires sunk { S.failures sink.old ≡ 0 }
{
    let alloc = rt.alloc();
    ending(match task {
        Task::Run => finished(run_text(rt, alloc, feed, sink, 1, false, &NoGate)),
        Task::Check => judged(check_text(alloc, feed, sink)),
        Task::Make(product) => finished(without_text(make_text(alloc, feed, sink, product))),
        Task::ExplainedRun => {
            finished(without_text(run_explained(rt, alloc, feed, sink, 1, false, &NoGate)))
        }
        Task::ExplainedCheck => judged(without_text(check_explained(alloc, feed, sink))),
        Task::Live => finished(without_text(live_text(alloc, feed, sink, false))),
        Task::ExplainedLive => finished(without_text(live_text(alloc, feed, sink, true))),
    })
}

/// The result of a task whose reader and writer move one byte in each call.
#[derive(Drop)]
pub struct Tried {
    line: InlineText<64>,
    status: u8,
    /// The number of reads.
    pub reads: usize,
    /// The number of bytes that the reader still has.
    pub left: usize,
    /// The number of writes and flushes.
    pub calls: usize,
    /// The bytes that were written.
    pub taken: Vec<u8>,
    pub flushed: bool,
}

/// Does a task. The first `reads` reads succeed, and the next one fails with this kind of error. The writer stops after
/// `calls` calls.
pub fn outcome<R: AllocGlobal + Threads + Wait + Sync>(
    rt: &R,
    task: Task,
    input: &[u8],
    reads: usize,
    kind: ErrorKind,
    calls: usize,
    stop: Stop,
) -> Tried {
    let mut feed = one_byte_feed(input, reads, kind);
    let mut sink = one_byte_sink(rt.alloc(), calls, stop);
    let (line, status) = perform(rt, task, &mut feed, &mut sink);
    Tried {
        line,
        status,
        reads: feed.reader.asked,
        left: feed.reader.bytes.len(),
        calls: sink.writer.asked,
        flushed: sink.flushed,
        taken: sink.writer.taken,
    }
}

/// Checks the line and the status of a task, and the bytes that it wrote.
pub fn ends_so(rt: &impl Abort, tried: &Tried, line: &str, status: u8, taken: &[u8]) {
    let (reads, calls) = (tried.reads, tried.calls);
    assert!(rt;
        tried.line.as_str() == line,
        "behind {reads} reads and {calls} calls"
    );
    assert!(rt;
        tried.status == status,
        "behind {reads} reads and {calls} calls"
    );
    assert!(rt;
        tried.taken.as_slice() == taken,
        "behind {reads} reads and {calls} calls"
    );
}

/// Checks that the verdict on this transcript is this line.
pub fn is_judged(rt: &(impl AllocGlobal + Abort), transcript: &[u8], line: &[u8]) {
    let mut sink = Target::new(Vec::new(rt.alloc()));
    let judged = check_text(rt.alloc(), &mut Source::new(transcript), &mut sink);
    assert!(rt; judged.is_ok());
    assert!(rt; sink.writer.as_slice() == line);
}

/// Returns the text of these parts.
pub fn whole(rt: &(impl AllocGlobal + Abort), parts: &[Part]) -> String {
    text_of(rt.alloc(), parts).expect(rt, "there is memory")
}
