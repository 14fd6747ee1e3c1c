//! Tests of writing a whole output.

ghost use Rattle.std.specs.Prelude.{◌≤◌};

use super::devices::{ERRORS, Stop, WholeWriter, one_byte_sink};
use super::tasks::whole;
use super::texts::TWO_LONG_PROGRAMS;
use smx_filters::{MainFault, Source, Target, run_text, write_all};
use smx_run::NoGate;
use std::io::ErrorKind;
use std::process::Abort;
use std::sync::Wait;
use std::thread::Threads;

#[test]
fn writes_all(rt: HostRuntime) {
    let mut sink = one_byte_sink(rt.alloc(), 4, Stop::Fails(ErrorKind::Other));
    assert!(rt; write_all(&mut sink, b"abc").is_ok());
    assert!(rt; sink.writer.taken.as_slice() == b"abc".as_slice());
    assert!(rt; sink.flushed);
    assert!(rt; sink.failures == 0);
    assert!(rt; sink.writer.asked == 4);
    let mut sink = Target::new(WholeWriter {
        taken: Vec::new(rt.alloc()),
        asked: 0,
    });
    assert!(rt; write_all(&mut sink, b"abc").is_ok());
    assert!(rt; sink.writer.taken.as_slice() == b"abc".as_slice());
    assert!(rt; sink.writer.asked == 2);
}

const ABC: &[u8] = b"abc";

// Checks that a write that stops after this beginning fails and is not retried.
fn stops_behind(rt: &(impl AllocGlobal + Abort), beginning: &[u8], stop: Stop) {
    let calls = beginning.len();
    let mut sink = one_byte_sink(rt.alloc(), calls, stop);
    let answer = write_all(&mut sink, ABC);
    assert!(rt;
        matches!(answer, Err(MainFault::WriteFailed)),
        "after {calls} calls"
    );
    assert!(rt; sink.failures == 1);
    assert!(rt; sink.writer.taken.as_slice() == beginning);
    assert!(rt; sink.writer.asked == calls.saturating_add(1));
}

// Makes the write stop after each beginning that is not the whole text. Checks what `stops_behind` checks.
fn stops_behind_each(rt: &(impl AllocGlobal + Abort), stop: Stop) {
    for calls in 0..3 {
        stops_behind(rt, &ABC[..calls], stop);
    }
}

#[test]
fn tries_no_write_and_no_flush_again(rt: HostRuntime) {
    for kind in &ERRORS {
        stops_behind_each(&rt, Stop::Fails(*kind));
    }
    stops_behind_each(&rt, Stop::TakesNone);
    // A flush that fails is not retried either.
    for kind in &ERRORS {
        stops_behind(&rt, ABC, Stop::Fails(*kind));
    }
}

// Checks that a run by this number of workers writes once, with this beginning, and flushes once.
fn writes_once<R: AllocGlobal + Abort + Threads + Wait + Sync>(
    rt: &R,
    input: &[u8],
    workers: usize,
    fronts: bool,
    beginning: &[u8],
)
    requires { (1 ≤ workers) × (workers ≤ 64) }
{
    let mut feed = Source::new(input);
    let mut sink = Target::new(WholeWriter {
        taken: Vec::new(rt.alloc()),
        asked: 0,
    });
    let ran = run_text(
        rt,
        rt.alloc(),
        &mut feed,
        &mut sink,
        workers,
        fronts,
        &NoGate,
    );
    assert!(rt; ran.is_ok());
    assert!(rt; sink.writer.taken.starts_with(beginning));
    assert!(rt; sink.writer.asked == 2);
}

const RUNS: [(usize, bool, &[u8]); 4] = [
    (1, false, b"transcript 1\n0 close 0 = EBADF fd\n"),
    (2, false, b"transcript 1\n"),
    (1, true, b"fronts 1\nfront 0 5000 0\nfront 1 10000 0\nend\n"),
    (2, true, b"fronts 1\nfront 0 "),
];

#[test]
fn runs_write_a_large_output_at_once(rt: HostRuntime) {
    let input = whole(&rt, &TWO_LONG_PROGRAMS);
    for (workers, fronts, beginning) in RUNS {
        writes_once(&rt, input.as_bytes(), workers, fronts, beginning);
    }
}
