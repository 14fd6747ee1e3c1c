//! Tests the answers of the calls on queues: of `Queues`, where a call names a place by its number, and of `FlowTable`,
//! where it may also name a place by its `Place`.

use super::flow_tables::{DOWN, UP, fill, table};
use super::queues::{adds, put};
use smx_queues::{FlowTable, LeavingMessages, Queues};
use smx_types::{Place, Side, StreamId};
use std::mem::forget;
use std::process::Abort;

// Checks that messages 7 and 8 are at place 0.
fn has_two(rt: &impl Abort, queues: &Queues) {
    assert!(rt; queues.has_place(0));
    assert!(rt; queues.len() == 2);
    assert!(rt; queues.front(0).expect(rt, "a message").serial == 7);
    assert!(rt; queues.nth(0, 1).expect(rt, "a message").serial == 8);
}

// Checks that the serials of messages 7 and 8 are appended to a list with room for them.
fn adds_serials(rt: &(impl AllocGlobal + Abort), queues: &Queues) {
    let mut serials = Vec::with_capacity(rt.alloc(), 2).expect(rt, "memory");
    assert!(rt; queues.has_place(0));
    assert!(rt; queues.message_count(0) == 2);
    queues.add_serials(0, &mut serials);
    assert!(rt; serials.as_slice() == [7, 8].as_slice());
    forget(serials);
}

fn drops_the_place(rt: &impl Abort, queues: &mut Queues) {
    queues.drop_place(0);
    assert!(rt; queues.len() == 0);
}

#[test]
fn of_queues(rt: HostRuntime) {
    let mut queues = Queues::new(rt.alloc());
    adds(&rt, &mut queues, 8, 3, 0);
    put(&rt, &mut queues, 0, 7, 1);
    put(&rt, &mut queues, 0, 8, 3);
    has_two(&rt, &queues);
    adds_serials(&rt, &queues);
    drops_the_place(&rt, &mut queues);
    forget(queues);
}

// A place between `DOWN` and `UP`.
const ACROSS: Place = Place {
    stream: StreamId {
        driver: 0,
        minor: 1,
    },
    side: Side::Write,
};

// Checks the number of each place.
fn are_numbered(rt: &impl Abort, table: &FlowTable) {
    assert!(rt; table.place_count() == 4);
    assert!(rt; table.number(DOWN) == Some(0));
    assert!(rt; table.number(ACROSS) == Some(2));
    assert!(rt; table.number(UP) == Some(3));
    assert!(rt; table.place_at(2) == ACROSS);
}

// Moves the first message of `DOWN` on to `ACROSS`, which has no messages.
fn moves(rt: &impl Abort, table: &mut FlowTable) {
    assert!(rt; table.place_count() == 4);
    assert!(rt; table.has_messages_at(0));
    assert!(rt; table.front_at(0).expect(rt, "a message").serial == 2);
    assert!(rt; !table.is_full_at(2));
    table.move_front_at(0, 2);
    assert!(rt; table.front(ACROSS).expect(rt, "a message").serial == 2);
    assert!(rt; table.len() == 3);
}

// Checks which messages are now the first at `UP` and at `DOWN`, and that only `UP` is full.
fn stand_in_front(rt: &(impl AllocGlobal + Abort), table: &FlowTable) {
    assert!(rt; table.front(UP).expect(rt, "a message").serial == 1);
    assert!(rt; table.front(DOWN).expect(rt, "a message").serial == 3);
    let mut full = table.fulls(rt.alloc()).expect(rt, "memory");
    assert!(rt; full.pop() == Some(UP));
    assert!(rt; full.pop().is_none());
    forget(full);
}

// Drops the message at `DOWN`.
fn drops_one(rt: &(impl AllocGlobal + Abort), table: &mut FlowTable) {
    let mut dropped = Vec::with_capacity(rt.alloc(), table.len()).expect(rt, "memory");
    table.drop_at(DOWN, &mut dropped);
    assert!(rt; dropped.as_slice() == [3].as_slice());
    assert!(rt; table.front(DOWN).is_none());
    forget(dropped);
}

// Takes the message at `UP`, so that only the message at `ACROSS` is left.
fn takes_one(rt: &impl Abort, table: &mut FlowTable) {
    assert!(rt; table.take(UP).expect(rt, "a message").serial == 1);
    assert!(rt; table.front(ACROSS).expect(rt, "a message").serial == 2);
    assert!(rt; table.len() == 1);
}

#[test]
fn of_queues_by_place(rt: HostRuntime) {
    let mut made = table(&rt);
    fill(&rt, &mut made);
    are_numbered(&rt, &made);
    moves(&rt, &mut made);
    stand_in_front(&rt, &made);
    drops_one(&rt, &mut made);
    takes_one(&rt, &mut made);
    forget(made);
}

// Checks that the next message that leaves has this serial, and comes from this place.
fn leaves(rt: &impl Abort, rest: &mut LeavingMessages, place: Place, serial: u32) {
    let (from, message) = rest.next().expect(rt, "a message");
    assert!(rt; from == place);
    assert!(rt; message.serial == serial);
    forget(message);
}

#[test]
fn of_queues_that_are_given_away(rt: HostRuntime) {
    let mut made = table(&rt);
    fill(&rt, &mut made);
    let mut rest = made.into_messages();
    leaves(&rt, &mut rest, DOWN, 2);
    leaves(&rt, &mut rest, DOWN, 3);
    leaves(&rt, &mut rest, UP, 1);
    assert!(&rt; rest.next().is_none());
    forget(rest);
}
