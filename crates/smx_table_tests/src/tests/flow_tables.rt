//! Queues that are found by place: messages that arrive at two places, and which place is full. A copy is tested too.

ghost use Rattle.std.specs.Prelude.{◌≡◌, Ok};
ghost use Rattle.smx_types.specs.Drivers.{spec_check};
ghost use Rattle.smx_model.specs.KnownStreams.{IsKnown};

use smx_queues::FlowTable;
use smx_types::{Bytes, DriverKind, DriverSpec, Message, Name, Place, Side, StreamId};
use std::mem::forget;
use std::process::Abort;

// Returns a driver with two minors, whose queues are full from 8 bytes on.
fn driver(rt: &impl Abort, name: &str) -> DriverSpec
    ensures minors { result.minors ≡ 2 }
    ensures good { spec_check result ≡ Ok tt }
{
    let driver = DriverSpec {
        name: Name::new(name).expect(rt, "a name"),
        kind: DriverKind::Leaf,
        minors: 2,
        high: 8,
        low: 3,
        max: 16,
    };
    assert!(rt; driver.check() == Ok(()));
    driver
}

/// Returns such a driver, with the name `eth`.
pub fn ethernet(rt: &impl Abort) -> DriverSpec
    ensures minors { result.minors ≡ 2 }
    ensures good { spec_check result ≡ Ok tt }
{
    driver(rt, "eth")
}

/// Returns the table of the queues of `eth`, without messages.
pub fn table(rt: &(impl AllocGlobal + Abort)) -> FlowTable
    ensures first { IsKnown result.drivers (record { driver = 0; minor = 0 }) }
    ensures second { IsKnown result.drivers (record { driver = 0; minor = 1 }) }
{
    FlowTable::new(rt.alloc(), &[ethernet(rt)]).expect(rt, "memory")
}

fn bytes(rt: &(impl AllocGlobal + Abort), text: &[u8]) -> Bytes {
    Bytes::from_vec(Vec::from_slice(rt.alloc(), text).expect(rt, "memory"))
}

// Puts a message with this serial and address into the table.
fn put(
    rt: &(impl AllocGlobal + Abort),
    table: &mut FlowTable,
    place: Place,
    serial: u32,
    addr: u32,
    text: &[u8],
)
    requires { IsKnown table.old.drivers place.stream }
    ensures { table.new.drivers ≡ table.old.drivers }
{
    assert!(rt; table.reserve_one().is_ok());
    let message = Message {
        serial,
        addr,
        bytes: bytes(rt, text),
    };
    assert!(rt; !table.is_full(place) && !message.bytes.as_slice().is_empty());
    table.put(place, message);
}

/// A write side.
pub const DOWN: Place = Place {
    stream: StreamId {
        driver: 0,
        minor: 0,
    },
    side: Side::Write,
};

/// A read side, which comes after `DOWN`.
pub const UP: Place = Place {
    stream: StreamId {
        driver: 0,
        minor: 1,
    },
    side: Side::Read,
};

/// Puts two messages with different addresses at `DOWN`, and one message that fills `UP`.
pub fn fill(rt: &(impl AllocGlobal + Abort), table: &mut FlowTable)
    requires first { IsKnown table.old.drivers (record { driver = 0; minor = 0 }) }
    requires second { IsKnown table.old.drivers (record { driver = 0; minor = 1 }) }
    ensures { table.new.drivers ≡ table.old.drivers }
{
    put(rt, table, UP, 1, 5, b"eight by");
    put(rt, table, DOWN, 2, 5, b"two");
    put(rt, table, DOWN, 3, 6, b"by");
}

// Checks that the three messages are there, and that one place is full.
fn is_filled(rt: &impl Abort, table: &FlowTable) {
    assert!(rt; table.len() == 3);
    assert!(rt; table.is_full(UP));
    assert!(rt; !table.is_full(DOWN));
}

fn copy_is_filled(rt: &(impl AllocGlobal + Abort), table: &FlowTable) {
    let again = table.copy(rt.alloc()).expect(rt, "memory");
    is_filled(rt, &again);
    forget(again);
}

#[test]
fn queues_by_place(rt: HostRuntime) {
    let mut made = table(&rt);
    fill(&rt, &mut made);
    is_filled(&rt, &made);
    copy_is_filled(&rt, &made);
    forget(made);
}
