//! Live sessions byte by byte, and with a reader or a writer that stops. The expected answers were typed in from the
//! rules.

use super::devices::{ERRORS, Stop, TWO_ERRORS};
use super::tasks::{Task, ends_so, outcome};
use std::io::ErrorKind;
use std::mem::forget;
use std::process::Abort;
use std::sync::Wait;
use std::thread::Threads;

// A session with each kind of line.
const LINES: &[u8] =
    b"programs 1\ndriver ip mux 4 8 3 16\ndriver eth leaf 2 8 3 16\nshow\n0 clone ip\n64 exit\n0 clone eth\n\n0 close 7\ndriver tty leaf 1 8 3 16\n0 hangup eth 0\n0 link 0 1\nSHOW\nend\nrest";

// The answers to these lines.
const ANSWERS: &[u8] =
    b"transcript 1\ndriver ip mux 4 8 3 16\ndriver eth leaf 2 8 3 16\nconfig\nnext 1 1\nshown\n0 clone ip = fd 0 0\n? no command\n0 clone eth = fd 1 0\nconfig\nnext 1 1\nfd 0 0 ip 0\nfd 0 1 eth 0\nshown\n0 close 7 = EBADF fd\n? no command\n? no command\n0 link 0 1 = id 1\n? no command\nconfig\nnext 2 1\nfd 0 0 ip 0\nfd 0 1 eth 0\nlink 1 ip 0 eth 0 link\nend\n";

#[test]
fn answers_byte_by_byte(rt: HostRuntime) {
    let reads = LINES.len().saturating_add(1);
    let (kind, stop) = (ErrorKind::Other, Stop::TakesNone);
    let ran = outcome(&rt, Task::Live, LINES, reads, kind, usize::MAX, stop);
    ends_so(&rt, &ran, "", 0, ANSWERS);
    assert!(rt; ran.flushed);
    // The session reads nothing after the line `end`.
    assert!(rt; ran.left == 4);
    forget(ran);
}

// A session with lines that are not commands, for different reasons.
const WRONG_LINES: &[u8] =
    b"programs 1\ndriver ip mux 4 8 3 16\n0 wirte 0 5 aa\n1 clone ip = fd 0 0\n0 hangup ip 0\n0 write 0 5 AA\ntrace\ntrace of\nshwo\n64 exit\n0 clone ip\n0 exit \nend\n";

// The answers to these lines, with their explanations.
const EXPLAINED: &[u8] =
    b"transcript 1\ndriver ip mux 4 8 3 16\n? no command\n  column 3: a command, or in version 2 'hangup' is wanted\n  did you mean 'write'?\n? no command\n  column 12: the end of the line is wanted\n? no command\n  column 3: a command, or in version 2 'hangup' is wanted\n  version 2 has this word, and version 1 has not\n? no command\n  column 13: hex digits in pairs, or '-', is wanted\n  the letters of hex digits are small, 'a' to 'f'\n? no command\n  column 7: 'on' or 'off' is wanted\n? no command\n  column 7: 'on' or 'off' is wanted\n  did you mean 'on'?\n? no command\n  column 1: 'show', 'trace', 'end', or a process from 0 to 63 is wanted\n  did you mean 'show'?\n? no command\n  column 1: 'show', 'trace', 'end', or a process from 0 to 63 is wanted\n0 clone ip = fd 0 0\n? no command\n  column 8: the end of the line is wanted, with no space before it\nconfig\nnext 1 1\nfd 0 0 ip 0\nend\n";

#[test]
fn explains_lines_that_are_not_commands(rt: HostRuntime) {
    let reads = WRONG_LINES.len().saturating_add(1);
    let (kind, stop) = (ErrorKind::Other, Stop::TakesNone);
    let ran = outcome(
        &rt,
        Task::ExplainedLive,
        WRONG_LINES,
        reads,
        kind,
        usize::MAX,
        stop,
    );
    ends_so(&rt, &ran, "", 0, EXPLAINED);
    assert!(rt; ran.flushed);
    forget(ran);
}

// Lets `reads` reads succeed, and makes the next one fail. Checks that the output is a beginning of `ANSWERS`, and is
// flushed; and that it is `answers`, if these are given.
fn is_left<R: AllocGlobal + Abort + Threads + Wait + Sync>(
    rt: &R,
    reads: usize,
    kind: ErrorKind,
    answers: Option<&[u8]>,
) {
    let ran = outcome(
        rt,
        Task::Live,
        LINES,
        reads,
        kind,
        usize::MAX,
        Stop::TakesNone,
    );
    let taken = ran.taken.as_slice();
    assert!(rt; ANSWERS.starts_with(taken), "after {reads} reads");
    let answers = answers.unwrap_or(taken);
    ends_so(rt, &ran, "read failed", 5, answers);
    assert!(rt; ran.reads == reads.saturating_add(1));
    assert!(rt; ran.flushed != answers.is_empty());
    forget(ran);
}

// Numbers of reads, and the answers after them. The reads end after the last line of the table, within and after the
// line `show`, within and after the line `0 clone ip`, and after the line `SHOW`.
const BEFORE: [(usize, &[u8]); 6] = [
    (59, b""),
    (63, b""),
    (
        64,
        b"transcript 1\ndriver ip mux 4 8 3 16\ndriver eth leaf 2 8 3 16\nconfig\nnext 1 1\nshown\n",
    ),
    (
        74,
        b"transcript 1\ndriver ip mux 4 8 3 16\ndriver eth leaf 2 8 3 16\nconfig\nnext 1 1\nshown\n",
    ),
    (
        75,
        b"transcript 1\ndriver ip mux 4 8 3 16\ndriver eth leaf 2 8 3 16\nconfig\nnext 1 1\nshown\n0 clone ip = fd 0 0\n",
    ),
    (
        162,
        b"transcript 1\ndriver ip mux 4 8 3 16\ndriver eth leaf 2 8 3 16\nconfig\nnext 1 1\nshown\n0 clone ip = fd 0 0\n? no command\n0 clone eth = fd 1 0\nconfig\nnext 1 1\nfd 0 0 ip 0\nfd 0 1 eth 0\nshown\n0 close 7 = EBADF fd\n? no command\n? no command\n0 link 0 1 = id 1\n? no command\n",
    ),
];

#[test]
fn leaves_what_was_answered_before_a_failed_read(rt: HostRuntime) {
    for kind in &TWO_ERRORS {
        for reads in 0..LINES.len() - 4 {
            is_left(&rt, reads, *kind, None);
        }
    }
    for kind in &ERRORS {
        is_left(&rt, 100, *kind, None);
    }
    for (reads, answers) in &BEFORE {
        is_left(&rt, *reads, ErrorKind::Other, Some(*answers));
    }
}

// Makes the writer stop after the bytes of `beginning`. Checks that exactly these bytes were written.
fn leaves<R: AllocGlobal + Abort + Threads + Wait + Sync>(rt: &R, beginning: &[u8], stop: Stop) {
    let (reads, kind) = (usize::MAX, ErrorKind::Other);
    let ran = outcome(rt, Task::Live, LINES, reads, kind, beginning.len(), stop);
    ends_so(rt, &ran, "write failed", 5, beginning);
    forget(ran);
}

#[test]
fn leaves_the_beginning_of_the_answers(rt: HostRuntime) {
    for writes in &[0, 1, 20, 100] {
        leaves(&rt, &ANSWERS[..*writes], Stop::TakesNone);
    }
    for writes in 0..ANSWERS.len() {
        for kind in &TWO_ERRORS {
            leaves(&rt, &ANSWERS[..writes], Stop::Fails(*kind));
        }
    }
}
