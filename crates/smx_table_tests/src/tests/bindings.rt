//! Tables of bindings. Bindings are made, listed in order, copied, looked up and removed.

use smx_addresses::Bindings;
use smx_types::{Binding, StreamId};
use std::mem::forget;
use std::process::Abort;

// Binds a stream to an address. Checks that neither was bound before.
fn binds(rt: &impl Abort, table: &mut Bindings, at: (u8, u8), addr: u32) {
    let stream = StreamId {
        driver: at.0,
        minor: at.1,
    };
    assert!(rt; !table.is_taken(stream, addr), "at {addr}");
    assert!(rt; table.bind(stream, addr).is_ok(), "at {addr}");
}

fn is_listed(rt: &(impl AllocGlobal + Abort), table: &Bindings, wanted: &[Binding]) {
    let list = table.list(rt.alloc()).expect(rt, "memory");
    assert!(rt; list.as_slice() == wanted);
}

// Streams of two drivers, each with the address to which it is bound. They are not in order.
const BOUND: [((u8, u8), u32); 4] = [
    ((1, 63), 9),
    ((0, 3), 9),
    ((1, 0), 4_294_967_295),
    ((1, 3), 0),
];

const LISTED: [Binding; 4] = [
    Binding {
        driver: 0,
        addr: 9,
        minor: 3,
    },
    Binding {
        driver: 1,
        addr: 0,
        minor: 3,
    },
    Binding {
        driver: 1,
        addr: 9,
        minor: 63,
    },
    Binding {
        driver: 1,
        addr: 4_294_967_295,
        minor: 0,
    },
];

fn has_bindings(rt: &(impl AllocGlobal + Abort), table: &mut Bindings) {
    is_listed(rt, table, &[]);
    for (at, addr) in &BOUND {
        binds(rt, table, *at, *addr);
    }
    is_listed(rt, table, &LISTED);
}

fn copy_has_bindings(rt: &(impl AllocGlobal + Abort), table: &Bindings) {
    let again = table.copy(rt.alloc()).expect(rt, "memory");
    is_listed(rt, &again, &LISTED);
    forget(again);
}

// Removes the third binding. Checks that three are left.
fn unbinds(rt: &impl Abort, table: &mut Bindings) {
    let stream = StreamId {
        driver: 1,
        minor: 63,
    };
    let third = Some(Binding {
        driver: 1,
        addr: 9,
        minor: 63,
    });
    assert!(rt; table.at(1, 9) == third);
    assert!(rt; table.of(stream) == third);
    assert!(rt; table.unbind(stream) == third);
    assert!(rt; table.len() == 3);
    assert!(rt; !table.is_empty());
}

#[test]
fn bindings_of_four_streams(rt: HostRuntime) {
    let mut table = Bindings::new(rt.alloc());
    has_bindings(&rt, &mut table);
    copy_has_bindings(&rt, &table);
    unbinds(&rt, &mut table);
    forget(table);
}
