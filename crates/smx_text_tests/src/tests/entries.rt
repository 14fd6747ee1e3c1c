//! A line that is read separately, as a command, a call or an entry; and the first line of a text.

use smx_text::next_line;
use smx_types::{Command, Entry, Fault, Process, Reply, Sides, Version};
use smx_words::{call_of_line, command_of, entry_of};
use std::alloc::Global;
use std::mem::forget;
use std::process::Abort;

#[test]
fn a_line_is_a_command(rt: HostRuntime) {
    let flush = command_of(rt.alloc(), Version::V1, b"flush 3 rw").expect(&rt, "memory");
    assert!(rt;
        flush
            == Some(Command::Flush {
                fd: 3,
                sides: Sides::RW
            })
    );
    forget(flush);
    let hangup = command_of(rt.alloc(), Version::V1, b"hangup ip 0").expect(&rt, "memory");
    assert!(rt; hangup.is_none());
    forget(hangup);
}

// Checks that in the entry, process 2 closes descriptor 3 and is refused, since it has no such descriptor.
fn is_refused_close(rt: &impl Abort, entry: &Entry) {
    assert!(rt; entry.process == Process::new(2).expect(rt, "a process"));
    assert!(rt; entry.command == Command::Close { fd: 3 });
    assert!(rt; entry.reply == Reply::Fault(Fault::BadDescriptor));
}

#[test]
fn a_line_is_an_entry(rt: HostRuntime) {
    let read = entry_of(rt.alloc(), Version::V1, b"2 close 3 = EBADF fd").expect(&rt, "memory");
    let entry = read.expect(&rt, "an entry");
    is_refused_close(&rt, &entry);
    forget(entry);
}

// Checks that the line is not an entry of version 1, and that memory does not run out.
fn is_no_entry(rt: &impl Abort, alloc: Global, line: &[u8]) {
    let read = entry_of(alloc, Version::V1, line).expect(rt, "memory");
    assert!(rt; read.is_none());
    forget(read);
}

#[test]
fn other_lines_are_no_entries(rt: HostRuntime) {
    is_no_entry(&rt, rt.alloc(), b"2 close 3");
    is_no_entry(&rt, rt.alloc(), b"close 3 = done");
    is_no_entry(&rt, rt.alloc(), b"64 close 3 = done");
    is_no_entry(&rt, rt.alloc(), b"2 close = done");
    is_no_entry(&rt, rt.alloc(), b"2 close 3 =done");
    is_no_entry(&rt, rt.alloc(), b"2 close 3 = done = done");
    is_no_entry(&rt, rt.alloc(), b"2 hangup ip 0 = done");
}

// Checks that the line is not a call of version 1, and that memory does not run out.
fn is_no_call(rt: &impl Abort, alloc: Global, line: &[u8]) {
    let read = call_of_line(alloc, Version::V1, line).expect(rt, "memory");
    assert!(rt; read.is_none());
    forget(read);
}

#[test]
fn a_line_is_a_call(rt: HostRuntime) {
    let read = call_of_line(rt.alloc(), Version::V1, b"2 close 3").expect(&rt, "memory");
    let (process, command) = read.expect(&rt, "a call");
    assert!(rt; process == Process::new(2).expect(&rt, "a process"));
    assert!(rt; command == Command::Close { fd: 3 });
    forget(command);
}

#[test]
fn other_lines_are_none(rt: HostRuntime) {
    is_no_call(&rt, rt.alloc(), b"close 3");
    is_no_call(&rt, rt.alloc(), b"64 close 3");
    is_no_call(&rt, rt.alloc(), b"2  close 3");
    is_no_call(&rt, rt.alloc(), b"2 close 3 = done");
    is_no_call(&rt, rt.alloc(), b"2 hangup ip 0");
}

#[test]
fn a_text_has_a_first_line(rt: HostRuntime) {
    let (line, rest) = next_line(b"end\n\nmore").expect(&rt, "a line");
    assert!(rt; line == b"end".as_slice());
    assert!(rt; rest == b"\nmore".as_slice());
    assert!(rt; next_line(b"end").is_none());
}
