//! Queues of places: messages that arrive, leave and move, the marks of full places, and a queue of 4,096 messages.
//! Each call that runs out of memory is repeated once.

use smx_queues::Queues;
use smx_types::{Bytes, Message};
use std::mem::forget;
use std::process::Abort;

/// A call with its expected answer. Places are numbers.
#[derive(Clone, Copy)]
enum Act {
    /// A place with these water marks, high and low, is added and gets this number.
    Add(usize, usize, usize),
    /// A message with this serial and this many bytes arrives.
    Put(usize, u32, usize),
    /// The message with this serial leaves; `None` if there is no message.
    Take(usize, Option<u32>),
    /// The first message of one place moves on to another place.
    Move(usize, usize),
    /// All messages of the place are dropped.
    Clear(usize),
    /// The place has this many bytes, is full or not, and has messages with these serials, in this order. In a copy,
    /// the place has the same.
    Has(usize, usize, bool, &'static [u32]),
}

fn is_out_of_memory(rt: &(impl Abort + Print)) {
    assert!(rt; println!(rt; "a call wanted memory").is_ok());
}

/// Adds a place with these water marks, and checks its number.
pub fn adds(
    rt: &(impl Abort + Print),
    queues: &mut Queues,
    high: usize,
    low: usize,
    number: usize,
) {
    assert!(rt; low < high && high <= 4096);
    let mut added = queues.add_place(high, low).ok();
    if added.is_none() {
        is_out_of_memory(rt);
        added = queues.add_place(high, low).ok();
    }
    assert!(rt; added == Some(number));
}

fn reserves(rt: &(impl Abort + Print), queues: &mut Queues) {
    if queues.reserve_one().is_ok() {
        return;
    }
    is_out_of_memory(rt);
    assert!(rt; queues.reserve_one().is_ok());
}

fn bytes(rt: &(impl AllocGlobal + Abort), size: usize) -> Bytes {
    let alloc = rt.alloc();
    if let Ok(made) = vec![in alloc; 0xaa; size] {
        return Bytes::from_vec(made);
    }
    Bytes::from_vec(vec![in alloc; 0xaa; size].expect(rt, "memory"))
}

// Puts a message with this serial and this many bytes. Room for it is already reserved.
fn put_in_room(
    rt: &(impl AllocGlobal + Abort),
    queues: &mut Queues,
    p: usize,
    serial: u32,
    size: usize,
) {
    let message = Message {
        serial,
        addr: 5,
        bytes: bytes(rt, size),
    };
    assert!(rt; queues.has_place(p) && queues.has_spare() && !queues.is_full(p));
    assert!(rt; !message.bytes.as_slice().is_empty());
    queues.put(p, message);
}

/// Puts a message with this serial and this many bytes.
pub fn put(
    rt: &(impl AllocGlobal + Abort + Print),
    queues: &mut Queues,
    p: usize,
    serial: u32,
    size: usize,
) {
    reserves(rt, queues);
    put_in_room(rt, queues, p, serial, size);
}

fn takes(rt: &impl Abort, queues: &mut Queues, p: usize, wanted: Option<u32>) {
    assert!(rt; queues.has_place(p));
    let serial = match queues.take(p) {
        Some(message) => Some(message.serial),
        None => None,
    };
    assert!(rt; serial == wanted, "from place {p}");
}

fn move_front(rt: &impl Abort, queues: &mut Queues, from: usize, to: usize) {
    assert!(rt; from != to && queues.has_place(from) && queues.has_place(to));
    assert!(rt; !queues.is_full(to) && queues.message_count(from) > 0);
    queues.move_front(from, to);
}

fn clear(rt: &impl Abort, queues: &mut Queues, p: usize) {
    assert!(rt; queues.has_place(p));
    queues.clear(p);
}

// Returns the serials at the place.
fn listed(rt: &(impl Abort + Print), queues: &Queues, p: usize) -> Vec<u32> {
    assert!(rt; queues.has_place(p));
    if let Ok(made) = queues.serials(p) {
        return made;
    }
    is_out_of_memory(rt);
    queues.serials(p).expect(rt, "memory")
}

fn has(
    rt: &(impl Abort + Print),
    queues: &Queues,
    p: usize,
    bytes: usize,
    full: bool,
    serials: &[u32],
) {
    assert!(rt; queues.has_place(p));
    assert!(rt; queues.bytes(p) == bytes, "at place {p}");
    assert!(rt; queues.is_full(p) == full, "at place {p}");
    let listed = listed(rt, queues, p);
    assert!(rt; listed.as_slice() == serials, "at place {p}");
    forget(listed);
    match queues.front(p) {
        Some(message) => assert!(rt; serials.first() == Some(&message.serial), "at place {p}"),
        None => assert!(rt; serials.is_empty(), "at place {p}"),
    }
}

// Returns a copy of the queues.
fn copied(rt: &(impl AllocGlobal + Abort + Print), queues: &Queues) -> Queues {
    if let Ok(made) = queues.copy(rt.alloc()) {
        return made;
    }
    is_out_of_memory(rt);
    queues.copy(rt.alloc()).expect(rt, "memory")
}

fn both_have(
    rt: &(impl AllocGlobal + Abort + Print),
    queues: &Queues,
    p: usize,
    bytes: usize,
    full: bool,
    serials: &[u32],
) {
    has(rt, queues, p, bytes, full, serials);
    let again = copied(rt, queues);
    has(rt, &again, p, bytes, full, serials);
    forget(again);
}

fn do_act(rt: &(impl AllocGlobal + Abort + Print), queues: &mut Queues, act: Act) {
    match act {
        Act::Add(high, low, number) => adds(rt, queues, high, low, number),
        Act::Put(p, serial, size) => put(rt, queues, p, serial, size),
        Act::Take(p, wanted) => takes(rt, queues, p, wanted),
        Act::Move(from, to) => move_front(rt, queues, from, to),
        Act::Clear(p) => clear(rt, queues, p),
        Act::Has(p, bytes, full, serials) => both_have(rt, queues, p, bytes, full, serials),
    }
}

// A message moves between two places. After each step, `Has` says which places are full.
const ACROSS_A_MOVE: [Act; 16] = [
    Act::Add(8, 3, 0),
    Act::Add(1, 0, 1),
    Act::Put(0, 1, 4),
    Act::Has(0, 4, false, &[1]),
    Act::Put(0, 2, 4),
    Act::Has(0, 8, true, &[1, 2]),
    Act::Take(0, Some(1)),
    Act::Has(0, 4, true, &[2]),
    Act::Has(1, 0, false, &[]),
    Act::Move(0, 1),
    Act::Has(0, 0, false, &[]),
    Act::Has(1, 4, true, &[2]),
    Act::Clear(1),
    Act::Has(0, 0, false, &[]),
    Act::Has(1, 0, false, &[]),
    Act::Take(1, None),
];

fn do_acts(rt: &(impl AllocGlobal + Abort + Print), queues: &mut Queues) {
    for act in &ACROSS_A_MOVE {
        do_act(rt, queues, *act);
    }
}

/// Moves a message between two places. Checks after each step which places are full, also in a copy.
pub fn marks_across_a_move(rt: &(impl AllocGlobal + Abort + Print)) {
    let mut queues = Queues::new(rt.alloc());
    do_acts(rt, &mut queues);
    forget(queues);
}

// Checks that 4,096 messages of one byte are at place 2.
fn is_full(rt: &(impl Abort + Print), queues: &Queues) {
    let listed = listed(rt, queues, 2);
    assert!(rt; listed.len() == 4096);
    assert!(rt; listed.first() == Some(&1));
    assert!(rt; listed.last() == Some(&4096));
    forget(listed);
}

fn copy_is_full(rt: &(impl AllocGlobal + Abort + Print), queues: &Queues) {
    let again = copied(rt, queues);
    is_full(rt, &again);
    forget(again);
}

// Puts 4,096 messages of one byte at place 2.
fn fill(rt: &(impl AllocGlobal + Abort + Print), queues: &mut Queues) {
    for number in 0..3usize {
        adds(rt, queues, 4096, 4095, number);
    }
    for before in 0..4096u32 {
        put(rt, queues, 2, before + 1, 1);
    }
}

// Puts messages until the room that is reserved is used up.
fn fill_the_room(rt: &(impl AllocGlobal + Abort), queues: &mut Queues) {
    for serial in 2..4096u32 {
        if !queues.has_spare() {
            return;
        }
        put_in_room(rt, queues, 0, serial, 1);
    }
    panic!(rt; "room for more than can be");
}

// The first message moves on and leaves, and another message takes its room.
fn goes_round(rt: &(impl AllocGlobal + Abort), queues: &mut Queues, serial: u32) {
    move_front(rt, queues, 0, 1);
    assert!(rt; queues.has_place(1) && queues.take(1).is_some());
    put_in_room(rt, queues, 0, serial, 1);
    assert!(rt; !queues.has_spare());
}

#[test]
fn ten_thousand_rounds_take_no_room(rt: HostRuntime) {
    let mut queues = Queues::new(rt.alloc());
    adds(&rt, &mut queues, 4096, 3, 0);
    adds(&rt, &mut queues, 4096, 3, 1);
    put(&rt, &mut queues, 0, 1, 1);
    fill_the_room(&rt, &mut queues);
    for round in 0..10_000u32 {
        goes_round(&rt, &mut queues, round + 1);
    }
    forget(queues);
}

#[test]
fn a_queue_of_4096_messages(rt: HostRuntime) {
    let mut queues = Queues::new(rt.alloc());
    fill(&rt, &mut queues);
    is_full(&rt, &queues);
    copy_is_full(&rt, &queues);
    forget(queues);
}
