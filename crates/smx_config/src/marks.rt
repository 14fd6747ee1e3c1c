//! Marks of places, and the places that wait for other places. All are found by the numbers of the places.

ghost use Rattle.std.specs.Prelude.{◌≡◌, ℕ, ◌<◌, ◌^◌, false, length, IfOk};
ghost use Rattle.smx_types.specs.declared.stream.Place.{Place as PlaceValue};
ghost use Rattle.smx_model.specs.Queues.{first_message};
ghost use Rattle.smx_model.specs.RunMarks.{asks_down, asks_up, has_addr};
ghost use Rattle.smx_queues.specs.Bits.{has_bit};
ghost use Rattle.smx_queues.specs.PlaceLists.{places_of};
ghost use Rattle.smx_queues.specs.Rings.{at};
ghost use Rattle.smx_config.specs.Marking.{AreFor, IsAt, IsMarkedIf, IsMarkedWhere, IsNumber, asks_at, asks_between};

use smx_queues::{Bits, Rings};
use smx_tables::Tables;
use smx_types::{NoMemory, Place, Side, StreamId};
use std::alloc::Global;

/// Two marks for each place, by its number, and the places that wait. A run mark means that the first message of the
/// place may be able to move on. A wanted mark means that the place is full, and that the first message of another
/// place waits for it. The ring of a place contains the places that wait for it.
#[derive(Debug, Drop)]
pub struct Marks {
    pub run: Bits,
    pub wanted: Bits,
    pub waits: Rings,
}

pub fn no_marks(alloc: Global, count: usize) -> Result<Marks, NoMemory>
    requires { count < 2 ^ 63 }
    ensures many { IfOk result (AreFor count) }
    ensures run { IfOk result (λ m. (n : ℕ) → has_bit m.run n ≡ false) }
    ensures waits { IfOk result (λ m. (n : ℕ) → n < count → at m.waits.owners n ≡ 0) }
{
    Ok(Marks {
        run: Bits::new(alloc, count)?,
        wanted: Bits::new(alloc, count)?,
        waits: Rings::new(alloc, count)?,
    })
}

pub fn copy_marks(alloc: Global, marks: &Marks) -> Result<Marks, NoMemory>
    ensures { IfOk result (λ m. m ≡ marks.now) }
{
    Ok(Marks {
        run: marks.run.copy(alloc)?,
        wanted: marks.wanted.copy(alloc)?,
        waits: marks.waits.copy(alloc)?,
    })
}

// Sets the run mark of the place, if its first message has this address.
fn mark_if_asked(tables: &Tables, run: &mut Bits, place: Place, addr: u32)
    requires { run.old.count ≡ length (places_of tables.now.drivers) }
    ensures { IsMarkedIf tables.now.drivers tables.now.configuration addr place run.old run.new }
{
    if let Some(n) = tables.queues().number(place) {
        let first = tables.queues().front_at(n);
        if first.is_some_and(|message| message.addr == addr) {
            run.set(n);
        }
    }
}

// Looks at this side of each of the driver's streams. Sets the run marks of those sides whose first message has this
// address.
fn mark_side(tables: &Tables, run: &mut Bits, driver: u8, side: Side, addr: u32)
    requires { run.old.count ≡ length (places_of tables.now.drivers) }
    ensures { IsMarkedWhere tables.now.drivers tables.now.configuration.flow
        (asks_at tables.now.configuration driver side addr) run.old run.new }
{
    for minor in 0..tables.minors_of(driver) {
        let stream = StreamId { driver, minor };
        mark_if_asked(tables, run, Place { stream, side }, addr);
    }
}

// Looks at the write sides of the driver's streams. Sets the run marks of those write sides whose first message has
// this address.
pub fn mark_writes(tables: &Tables, run: &mut Bits, driver: u8, addr: u32)
    requires { run.old.count ≡ length (places_of tables.now.drivers) }
    ensures { IsMarkedWhere tables.now.drivers tables.now.configuration.flow
        (asks_down tables.now.configuration driver addr) run.old run.new }
{
    if tables.queues().len() > 0 {
        mark_side(tables, run, driver, Side::Write, addr);
    }
}

// Looks at the read sides of the streams of each driver to which a path of links leads from this driver. (No stream of
// another driver is below this driver.) Sets the run marks of those read sides whose first message has this address.
// Does nothing if no message is queued.
pub fn mark_reads(tables: &Tables, run: &mut Bits, driver: u8, addr: u32)
    requires { run.old.count ≡ length (places_of tables.now.drivers) }
    ensures { IsMarkedWhere tables.now.drivers tables.now.configuration.flow
        (asks_up tables.now.configuration driver addr) run.old run.new }
{
    if tables.queues().len() == 0 {
        return;
    }
    for lower in 0..tables.links().driver_count() {
        if tables.links().reaches(driver, lower) {
            mark_side(tables, run, lower, Side::Read, addr);
        }
    }
}
