//! Tables of streams: calls in a row, each with its answer, and a copy; two streams, looked up, held, hung up and
//! released; tables at their limits, with 16 descriptors for each of 64 processes, also in a copy, and with 128
//! drivers.

ghost use Rattle.std.specs.Prelude.{◌<◌};

use smx_streams::{Closed, StreamFault, Streams};
use smx_types::{Descriptor, Process, StreamId};
use std::mem::forget;
use std::process::Abort;

type Given = Result<(u32, StreamId), StreamFault>;

fn stream(driver: u8, minor: u8) -> StreamId {
    StreamId { driver, minor }
}

fn process(rt: &impl Abort, number: u32) -> Process {
    Process::new(number).expect(rt, "a process")
}

fn clones(rt: &impl Abort, table: &mut Streams, p: u32, driver: u8, wanted: Given) {
    let given = table.open_clone(process(rt, p), driver);
    assert!(rt; given == wanted, "of process {p}");
}

fn opens(rt: &impl Abort, table: &mut Streams, p: u32, at: (u8, u32), wanted: Given) {
    let given = table.open_minor(process(rt, p), at.0, at.1);
    assert!(rt; given == wanted, "of process {p}");
}

// Opens 16 descriptors of one stream of driver 0 for the process. Checks that it gets no more.
fn fill(rt: &impl Abort, table: &mut Streams, p: u32)
    requires { p < 64 }
{
    let own = stream(0, p as u8);
    clones(rt, table, p, 0, Ok((0, own)));
    for fd in 1..16u32 {
        opens(rt, table, p, (0, p), Ok((fd, own)));
    }
    clones(rt, table, p, 1, Err(StreamFault::TooManyDescriptors));
}

// Checks that driver 0 has no free minor, and that a process which closes one descriptor has room for another one.
fn is_full(rt: &impl Abort, table: &mut Streams) {
    clones(rt, table, 0, 0, Err(StreamFault::NoMinor));
    assert!(rt; table.close_fd(process(rt, 63), 15).is_some());
    clones(rt, table, 63, 1, Ok((15, stream(1, 0))));
}

fn fill_all(rt: &impl Abort, table: &mut Streams) {
    for p in 0..64u32 {
        fill(rt, table, p);
    }
}

fn copy_is_full(rt: &(impl AllocGlobal + Abort), table: &Streams) {
    let mut again = table.copy(rt.alloc()).expect(rt, "memory");
    is_full(rt, &mut again);
    forget(again);
}

#[test]
fn the_most_descriptors(rt: HostRuntime) {
    let mut table = Streams::new(rt.alloc(), &[64, 1]).expect(&rt, "memory");
    fill_all(&rt, &mut table);
    copy_is_full(&rt, &table);
    is_full(&rt, &mut table);
    forget(table);
}

#[test]
fn the_most_drivers(rt: HostRuntime) {
    let mut table = Streams::new(rt.alloc(), &[255; 128]).expect(&rt, "memory");
    opens(&rt, &mut table, 0, (127, 254), Ok((0, stream(127, 254))));
    clones(&rt, &mut table, 0, 127, Ok((1, stream(127, 0))));
    forget(table);
}

fn has_fds(rt: &(impl AllocGlobal + Abort), table: &Streams, wanted: &[Descriptor]) {
    let fds = table.fds(rt.alloc()).expect(rt, "memory");
    assert!(rt; fds.as_slice() == wanted);
    forget(fds);
}

// Gives process 5 two descriptors of one stream, and process 2 one descriptor of another stream.
fn open_two(rt: &(impl AllocGlobal + Abort), table: &mut Streams) {
    has_fds(rt, table, &[]);
    clones(rt, table, 5, 0, Ok((0, stream(0, 0))));
    clones(rt, table, 2, 0, Ok((0, stream(0, 1))));
    assert!(rt; table.dup(process(rt, 5), 0) == Ok((1, stream(0, 0))));
}

fn finds_two(rt: &impl Abort, table: &Streams) {
    assert!(rt; !table.in_range(0, 2));
    assert!(rt; table.exists(stream(0, 1)));
    assert!(rt; table.stream_of(process(rt, 5), 1) == Some(stream(0, 0)));
    assert!(rt; !table.is_last(process(rt, 5), 0));
}

fn come_in_order(rt: &(impl AllocGlobal + Abort), table: &Streams) {
    let first = Descriptor {
        process: process(rt, 2),
        fd: 0,
        stream: stream(0, 1),
    };
    let second = Descriptor {
        process: process(rt, 5),
        fd: 0,
        stream: stream(0, 0),
    };
    has_fds(rt, table, &[first, second, Descriptor { fd: 1, ..second }]);
}

// Hangs up the stream, holds it, and then closes its descriptors.
fn holds(rt: &impl Abort, table: &mut Streams, held: StreamId) {
    assert!(rt; table.exists(held));
    assert!(rt; table.holds_of(held) == 0);
    table.hang(held);
    table.hold(held);
    table.close_process(process(rt, 5));
    assert!(rt; table.is_hung(held));
}

// Checks that this is the only hung-up stream, and that it no longer exists when its hold is released.
fn releases(rt: &(impl AllocGlobal + Abort), table: &mut Streams, held: StreamId) {
    let hungs = table.hungs(rt.alloc()).expect(rt, "memory");
    assert!(rt; hungs.as_slice() == [held].as_slice());
    forget(hungs);
    assert!(rt; table.holds_of(held) == 1);
    assert!(rt; table.release(held));
    assert!(rt; !table.exists(held));
}

#[test]
fn two_streams(rt: HostRuntime) {
    let mut table = Streams::new(rt.alloc(), &[2, 1]).expect(&rt, "memory");
    open_two(&rt, &mut table);
    finds_two(&rt, &table);
    come_in_order(&rt, &table);
    holds(&rt, &mut table, stream(0, 0));
    releases(&rt, &mut table, stream(0, 0));
    forget(table);
}

// A call of a table, and its answer.
#[derive(Drop)]
enum Call {
    InRange(u8, u32, bool),
    Clone(u32, u8, Given),
    Open(u32, u8, u32, Given),
    Dup(u32, u32, Given),
    Hold(StreamId),
    Close(u32, u32, Option<Closed>),
    Release(StreamId, bool),
    Exists(StreamId, bool),
    StreamOf(u32, u32, Option<StreamId>),
}

fn is_held(rt: &impl Abort, table: &mut Streams, held: StreamId) -> bool {
    assert!(rt; table.exists(held) && table.holds_of(held) == 0);
    table.hold(held);
    table.holds_of(held) == 1
}

fn goes_with_its_hold(rt: &impl Abort, table: &mut Streams, held: StreamId) -> bool {
    assert!(rt; table.holds_of(held) > 0);
    table.release(held)
}

// Returns whether the call has this answer.
fn answers(rt: &impl Abort, table: &mut Streams, call: &Call) -> bool {
    match call {
        Call::InRange(driver, minor, there) => table.in_range(*driver, *minor) == *there,
        Call::Clone(p, driver, given) => table.open_clone(process(rt, *p), *driver) == *given,
        Call::Open(p, driver, minor, given) => {
            table.open_minor(process(rt, *p), *driver, *minor) == *given
        }
        Call::Dup(p, fd, given) => table.dup(process(rt, *p), *fd) == *given,
        Call::Hold(held) => is_held(rt, table, *held),
        Call::Close(p, fd, closed) => table.close_fd(process(rt, *p), *fd) == *closed,
        Call::Release(held, last) => goes_with_its_hold(rt, table, *held) == *last,
        Call::Exists(at, there) => table.exists(*at) == *there,
        Call::StreamOf(p, fd, found) => table.stream_of(process(rt, *p), *fd) == *found,
    }
}

fn answer_all(rt: &impl Abort, table: &mut Streams, calls: &[Call]) {
    for i in 0..calls.len() {
        assert!(rt; answers(rt, table, &calls[i]), "call {i}");
    }
}

// Asks the table and its copy the same questions, and checks the answers.
fn both_answer(rt: &(impl AllocGlobal + Abort), table: &mut Streams) {
    let calls = [
        Call::Exists(stream(0, 0), true),
        Call::Exists(stream(0, 1), true),
        Call::Exists(stream(1, 0), false),
        Call::StreamOf(0, 0, Some(stream(0, 0))),
        Call::StreamOf(0, 1, None),
        Call::StreamOf(1, 0, Some(stream(0, 1))),
        Call::StreamOf(1, 1, None),
        Call::Clone(1, 0, Err(StreamFault::NoMinor)),
        Call::Clone(1, 1, Ok((1, stream(1, 0)))),
    ];
    let mut again = table.copy(rt.alloc()).expect(rt, "memory");
    answer_all(rt, table, &calls);
    answer_all(rt, &mut again, &calls);
    forget(again);
}

#[test]
fn streams_of_two_drivers(rt: HostRuntime) {
    let own = stream(0, 0);
    let stays = Closed {
        stream: own,
        last: false,
    };
    let calls = [
        Call::InRange(1, 0, true),
        Call::InRange(1, 1, false),
        Call::InRange(2, 0, false),
        Call::Clone(0, 0, Ok((0, own))),
        Call::Clone(1, 0, Ok((0, stream(0, 1)))),
        Call::Clone(0, 0, Err(StreamFault::NoMinor)),
        Call::Clone(0, 2, Err(StreamFault::NoDriver)),
        Call::Open(1, 0, 0, Ok((1, own))),
        Call::Dup(0, 0, Ok((1, own))),
        Call::Hold(own),
        Call::Close(0, 0, Some(stays)),
        Call::Close(0, 1, Some(stays)),
        Call::Close(1, 1, Some(stays)),
        Call::Close(1, 1, None),
        Call::Release(own, true),
        Call::Exists(own, false),
        Call::Clone(0, 0, Ok((0, own))),
    ];
    let mut table = Streams::new(rt.alloc(), &[2, 1]).expect(&rt, "memory");
    answer_all(&rt, &mut table, &calls);
    both_answer(&rt, &mut table);
    forget(table);
}
