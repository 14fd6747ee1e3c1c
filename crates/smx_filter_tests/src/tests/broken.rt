//! Runs, checks, replays, traces and pages with a reader or a writer that stops in one call. Each read has its turn,
//! and so has each write, but only a few writes of a page. In later calls the reader or writer works again.

use super::devices::{ERRORS, Stop, TWO_ERRORS};
use super::tasks::{Task, ends_so, outcome};
use super::texts::{
    IN_TURN, IN_TURN_REPLAYED, IN_TURN_TRACED, OPENED_AND_CLOSED, OPENS_AND_CLOSES,
    OTHER_CONFIGURATION, TWO_PROCESSES, WRONG_REPLY,
};
use smx_filters::Product;
use std::io::ErrorKind;
use std::mem::forget;
use std::process::Abort;
use std::sync::Wait;
use std::thread::Threads;

const REPLAY: Task = Task::Make(Product::Replay { at: None });

const TRACE: Task = Task::Make(Product::Trace { waits: true });

const STEPS: Task = Task::Make(Product::Page);

// Tasks, each with its input, its expected output and its expected status.
const DONE: [(Task, &[u8], &[u8], u8); 6] = [
    (Task::Run, OPENS_AND_CLOSES, OPENED_AND_CLOSED, 0),
    (Task::Check, TWO_PROCESSES, b"legal 2\n", 0),
    (Task::Check, WRONG_REPLY, b"illegal 2\n", 4),
    (Task::Check, OTHER_CONFIGURATION, b"config differs\n", 4),
    (REPLAY, IN_TURN, IN_TURN_REPLAYED, 0),
    (TRACE, IN_TURN, IN_TURN_TRACED, 0),
];

// A run and checks that explain faults, each with its input, its expected output and its expected status.
const EXPLAINED: [(Task, &[u8], &[u8], u8); 3] = [
    (Task::ExplainedRun, OPENS_AND_CLOSES, OPENED_AND_CLOSED, 0),
    (Task::ExplainedCheck, TWO_PROCESSES, b"legal 2\n", 0),
    (
        Task::ExplainedCheck,
        WRONG_REPLY,
        b"illegal 2\nline 4: 1 clone ip = fd 0 2\nreplay: 1 clone ip = fd 0 1\n",
        4,
    ),
];

// Lets `reads` reads succeed, and makes the next one fail. Checks that nothing is written, and that nothing more is
// read.
fn writes_nothing<R: AllocGlobal + Abort + Threads + Wait + Sync>(
    rt: &R,
    task: Task,
    input: &[u8],
    reads: usize,
    kind: ErrorKind,
) {
    let ran = outcome(rt, task, input, reads, kind, usize::MAX, Stop::TakesNone);
    ends_so(rt, &ran, "read failed", 5, b"");
    assert!(rt; ran.reads == reads.saturating_add(1));
    assert!(rt; ran.calls == 0);
    forget(ran);
}

// Makes each read in turn fail, including the read that shows the end. Checks what `writes_nothing` checks.
fn reads_no_more<R: AllocGlobal + Abort + Threads + Wait + Sync>(rt: &R, task: Task, input: &[u8]) {
    for kind in &TWO_ERRORS {
        for reads in 0..input.len().saturating_add(1) {
            writes_nothing(rt, task, input, reads, *kind);
        }
    }
    for kind in &ERRORS {
        writes_nothing(rt, task, input, 0, *kind);
        writes_nothing(rt, task, input, input.len(), *kind);
    }
}

// Checks that the task succeeds if each call moves one byte, with no more calls than needed.
fn ends<R: AllocGlobal + Abort + Threads + Wait + Sync>(
    rt: &R,
    task: Task,
    input: &[u8],
    output: &[u8],
    wanted: u8,
) {
    let reads = input.len().saturating_add(1);
    let calls = output.len().saturating_add(1);
    let stop = Stop::Fails(ErrorKind::Other);
    let ran = outcome(rt, task, input, reads, ErrorKind::Other, calls, stop);
    ends_so(rt, &ran, "", wanted, output);
    assert!(rt; ran.flushed);
    assert!(rt; ran.reads == reads);
    assert!(rt; ran.calls == calls);
    forget(ran);
}

#[test]
fn ends_byte_by_byte(rt: HostRuntime) {
    assert!(rt; OPENS_AND_CLOSES.len() == 83);
    assert!(rt; OPENED_AND_CLOSED.len() == 157);
    for (task, input, output, status) in &DONE {
        ends(&rt, *task, *input, *output, *status);
    }
    for (task, input, output, status) in &EXPLAINED {
        ends(&rt, *task, *input, *output, *status);
    }
}

// Makes the writer stop after this beginning of the output. Checks that exactly this beginning was written.
fn leaves<R: AllocGlobal + Abort + Threads + Wait + Sync>(
    rt: &R,
    task: Task,
    input: &[u8],
    beginning: &[u8],
    stop: Stop,
) {
    let writes = beginning.len();
    let ran = outcome(rt, task, input, usize::MAX, ErrorKind::Other, writes, stop);
    ends_so(rt, &ran, "write failed", 5, beginning);
    assert!(rt; ran.calls == writes.saturating_add(1));
    forget(ran);
}

// Makes each write in turn stop, and also the flush. Checks that exactly the earlier bytes of the output were written.
fn writes_no_more<R: AllocGlobal + Abort + Threads + Wait + Sync>(
    rt: &R,
    task: Task,
    input: &[u8],
    output: &[u8],
) {
    for writes in 0..output.len() {
        for kind in &TWO_ERRORS {
            leaves(rt, task, input, &output[..writes], Stop::Fails(*kind));
        }
        leaves(rt, task, input, &output[..writes], Stop::TakesNone);
    }
    for kind in &ERRORS {
        leaves(rt, task, input, b"", Stop::Fails(*kind));
        leaves(rt, task, input, output, Stop::Fails(*kind));
    }
}

#[test]
fn a_job_reads_no_more(rt: HostRuntime) {
    reads_no_more(&rt, Task::Run, OPENS_AND_CLOSES);
    reads_no_more(&rt, Task::Check, TWO_PROCESSES);
    reads_no_more(&rt, REPLAY, IN_TURN);
    reads_no_more(&rt, STEPS, IN_TURN);
    reads_no_more(&rt, TRACE, IN_TURN);
}

#[test]
fn a_job_writes_no_more(rt: HostRuntime) {
    for (task, input, output, _status) in &DONE {
        writes_no_more(&rt, *task, *input, *output);
    }
    for kind in &ERRORS {
        let stop = Stop::Fails(*kind);
        leaves(&rt, Task::Run, OPENS_AND_CLOSES, b"transcript 1\n", stop);
    }
}

// A page is long, so the writer stops in few places.
#[test]
fn a_page_writes_no_more(rt: HostRuntime) {
    let other = ErrorKind::Other;
    let stop = Stop::Fails(other);
    let page = outcome(&rt, STEPS, IN_TURN, usize::MAX, other, usize::MAX, stop);
    let whole = page.taken.as_slice();
    ends(&rt, STEPS, IN_TURN, whole, 0);
    leaves(&rt, STEPS, IN_TURN, whole, stop);
    for writes in [0usize, 1, 1_000, 20_000] {
        if writes < whole.len() {
            leaves(&rt, STEPS, IN_TURN, &whole[..writes], stop);
            leaves(&rt, STEPS, IN_TURN, &whole[..writes], Stop::TakesNone);
        }
    }
    forget(page);
}

#[test]
fn a_job_that_explains_writes_no_more(rt: HostRuntime) {
    for (task, input, output, _status) in &EXPLAINED {
        writes_no_more(&rt, *task, *input, *output);
    }
}
