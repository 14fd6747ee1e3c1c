//! Checks, a replay, a trace, a page, and runs with fronts. These tests also pass if any one allocation fails;
//! tests/refused_growths runs them with each allocation failing in turn. The output is written to the stack, so the
//! writer allocates nothing.

ghost use Rattle.std.specs.Prelude.{◌≤◌};

use super::texts::{
    HANGUP_END_OF_FILE, IN_TURN, IN_TURN_REPLAYED, IN_TURN_TRACED, MARKS_ACROSS_THE_JOIN,
    TWO_PROCESSES,
};
use smx_config::Verdict;
use smx_filters::{MainFault, Product, Refusal, Source, Target, check_text, make_text, run_text};
use smx_run::{NoGate, RunFault};
use smx_text::{Cause, TextFault};
use std::process::Abort;
use std::sync::Wait;
use std::thread::Threads;

// Returns whether the fault is that memory ran out, or that a thread could not be started.
fn is_want_of_memory(fault: &MainFault) -> bool {
    matches!(
        fault,
        MainFault::Refused(RunFault::NoMemory | RunFault::NoThread)
            | MainFault::Text(TextFault {
                cause: Cause::NoMemory,
                ..
            })
    )
}

// Makes a check, and returns whether it succeeds. If it does, it must write this line. Otherwise it must run out of
// memory and write nothing.
fn is_answered(rt: &(impl AllocGlobal + Abort), input: &[u8], wanted: &[u8]) -> bool {
    let mut buffer = [0u8; 16];
    let mut sink = Target::new(buffer.as_mut_slice());
    match check_text(rt.alloc(), &mut Source::new(input), &mut sink) {
        Ok(verdict) => {
            assert!(rt; verdict == Verdict::Legal);
            assert!(rt; buffer.starts_with(wanted));
            true
        }
        Err(fault) => {
            assert!(rt; is_want_of_memory(&fault));
            assert_eq!(rt; buffer, [0u8; 16]);
            false
        }
    }
}

// Makes a check. If it runs out of memory, tries it again, and it must then succeed.
fn judges(rt: &(impl AllocGlobal + Abort + Print), input: &[u8], wanted: &[u8]) {
    if !is_answered(rt, input, wanted) {
        let _ = println!(rt; "a check wanted memory");
        assert!(rt; is_answered(rt, input, wanted));
    }
}

const LEGAL: [(&[u8], &[u8]); 3] = [
    (TWO_PROCESSES, b"legal 2\n"),
    (MARKS_ACROSS_THE_JOIN, b"legal 13\n"),
    (HANGUP_END_OF_FILE, b"legal 9\n"),
];

#[test]
fn checks(rt: HostRuntime) {
    for (input, wanted) in &LEGAL {
        judges(&rt, *input, *wanted);
    }
}

// Makes a replay, and returns whether it succeeds. If it does, it must write the whole transcript. Otherwise it must
// run out of memory and write nothing.
fn is_replay_answered(rt: &(impl AllocGlobal + Abort)) -> bool {
    let mut buffer = [0u8; 512];
    let mut sink = Target::new(buffer.as_mut_slice());
    let product = Product::Replay { at: None };
    match make_text(rt.alloc(), &mut Source::new(IN_TURN), &mut sink, product) {
        Ok(()) => {
            assert!(rt; buffer.starts_with(IN_TURN_REPLAYED));
            true
        }
        Err(Refusal { fault, .. }) => {
            assert!(rt; is_want_of_memory(&fault));
            assert_eq!(rt; buffer, [0u8; 512]);
            false
        }
    }
}

// A replay that ran out of memory succeeds when it is tried again.
#[test]
fn a_replay(rt: HostRuntime) {
    if !is_replay_answered(&rt) {
        let _ = println!(rt; "a replay wanted memory");
        assert!(rt; is_replay_answered(&rt));
    }
}

// Makes a trace, and returns whether this succeeds. If it does, the whole text must be written. Otherwise memory must
// run out, and nothing be written.
fn is_trace_answered(rt: &(impl AllocGlobal + Abort)) -> bool {
    let mut buffer = [0u8; 1024];
    let mut sink = Target::new(buffer.as_mut_slice());
    let product = Product::Trace { waits: true };
    match make_text(rt.alloc(), &mut Source::new(IN_TURN), &mut sink, product) {
        Ok(()) => {
            assert!(rt; buffer.starts_with(IN_TURN_TRACED));
            true
        }
        Err(Refusal { fault, .. }) => {
            assert!(rt; is_want_of_memory(&fault));
            assert_eq!(rt; buffer, [0u8; 1024]);
            false
        }
    }
}

// A trace that ran out of memory succeeds when it is tried again.
#[test]
fn a_trace(rt: HostRuntime) {
    if !is_trace_answered(&rt) {
        let _ = println!(rt; "a trace wanted memory");
        assert!(rt; is_trace_answered(&rt));
    }
}

// Two commands, of which the second is refused.
const TWO_CLONES: &[u8] =
    b"transcript 1\ndriver ip mux 1 8 3 16\n0 clone ip = done\n0 clone ip = done\nconfig\nnext 1 1\nend\n";

// The steps of the page of `TWO_CLONES`, each up to its picture.
const TWO_CLONES_STEPPED: [&[u8]; 3] = [
    b"<section id='beginning'>\n<h2>beginning</h2>\n<pre>transcript 1\ndriver ip mux 1 8 3 16\n</pre>\n<svg ",
    b"<section id='1'>\n<h2>1</h2>\n<pre>0 clone ip = fd 0 0\n  + fd 0 0 ip 0\n</pre>\n<svg ",
    b"<section id='2'>\n<h2>2</h2>\n<pre>0 clone ip = ENXIO minor\n</pre>\n<svg ",
];

// Returns whether the text has this part.
fn has(text: &[u8], part: &[u8]) -> bool {
    for at in 0..text.len() {
        if text[at..].starts_with(part) {
            return true;
        }
    }
    false
}

// Makes a page, and returns whether this succeeds. If it does, the page must have its steps. Otherwise memory must run
// out, and nothing be written.
fn is_page_answered(rt: &(impl AllocGlobal + Abort)) -> bool {
    let mut buffer = [0u8; 32_768];
    let mut sink = Target::new(buffer.as_mut_slice());
    match make_text(
        rt.alloc(),
        &mut Source::new(TWO_CLONES),
        &mut sink,
        Product::Page,
    ) {
        Ok(()) => {
            assert!(rt; buffer.starts_with(b"<!DOCTYPE html>\n"));
            for step in &TWO_CLONES_STEPPED {
                assert!(rt; has(&buffer, *step));
            }
            true
        }
        Err(Refusal { fault, .. }) => {
            assert!(rt; is_want_of_memory(&fault));
            assert_eq!(rt; buffer, [0u8; 32_768]);
            false
        }
    }
}

// A page that ran out of memory is made when it is tried again.
#[test]
fn a_page(rt: HostRuntime) {
    if !is_page_answered(&rt) {
        let _ = println!(rt; "a page wanted memory");
        assert!(rt; is_page_answered(&rt));
    }
}

// The first of two processes has three commands, and the second has none.
const ONE_OF_TWO: &[u8] =
    b"programs 1\ndriver ip mux 4 8 3 16\nprocess 0\nclone ip\nclone ip\nexit\nprocess 1\nend\n";

// Runs `ONE_OF_TWO`, and returns whether this succeeds. If it does, fronts with the right beginning must be written.
// Otherwise memory must run out, and nothing be written.
fn are_fronts_answered<R: AllocGlobal + Abort + Threads + Wait + Sync>(
    rt: &R,
    workers: usize,
) -> bool
    requires { (1 ≤ workers) × (workers ≤ 64) }
{
    let mut buffer = [0u8; 64];
    let mut feed = Source::new(ONE_OF_TWO);
    let mut sink = Target::new(buffer.as_mut_slice());
    match run_text(rt, rt.alloc(), &mut feed, &mut sink, workers, true, &NoGate) {
        Ok(()) => {
            assert!(rt; buffer.starts_with(b"fronts 1\nfront 0 3 0\nfront 1 "));
            true
        }
        Err(fault) => {
            assert!(rt; is_want_of_memory(&fault));
            assert_eq!(rt; buffer, [0u8; 64]);
            false
        }
    }
}

// Makes a run. If it runs out of memory, tries it again, and it must then succeed.
fn writes_fronts<R: AllocGlobal + Abort + Print + Threads + Wait + Sync>(rt: &R, workers: usize)
    requires { (1 ≤ workers) × (workers ≤ 64) }
{
    if !are_fronts_answered(rt, workers) {
        let _ = println!(rt; "a run wanted memory");
        assert!(rt; are_fronts_answered(rt, workers));
    }
}

#[test]
fn fronts(rt: HostRuntime) {
    writes_fronts(&rt, 1);
    writes_fronts(&rt, 2);
}
