//! Sets run marks and clears wanted marks when a change wakes places. A place has a run mark if its first message may
//! be able to move, and a wanted mark if it is full and other places wait for it. To release a place is to clear its
//! wanted mark, and to give a run mark to each place that waits for it.

ghost use Rattle.std.specs.Prelude.{◌≡◌, ℕ, ◌<◌, false, true, length, IfSome, IfNone, List};
ghost use Rattle.smx_types.specs.declared.driver.DriverSpec.{DriverSpec};
ghost use Rattle.smx_types.specs.declared.stream.Place.{Place as PlaceValue};
ghost use Rattle.smx_model.specs.Configuration.{Configuration, same_place};
ghost use Rattle.smx_model.specs.Queues.{is_full};
ghost use Rattle.smx_queues.specs.Bits.{bit_count, has_bit};
ghost use Rattle.smx_queues.specs.PlaceLists.{places_of};
ghost use Rattle.smx_config.specs.Marking.{AreFor, AreOver, AreWaitersMarked, IsAt, IsListed, IsMarkedWhere, IsNumber};
ghost use Rattle.smx_config.specs.Marking.{IsReleased, IsWoken};
ghost use Rattle.smx_config.specs.Moves.{IsFullAt, IsOpenAt};
ghost use Rattle.smx_config.specs.Wakes.{drops_none, everywhere, freed_under, is_either_side, turned_under};
ghost use Rattle.smx_config.specs.declared.wakes.Wakes.TheVariants as wakes;

use crate::marks::{Marks, mark_reads, mark_writes};
use crate::wakes::Wakes;
use smx_queues::Bits;
use smx_tables::Tables;
use smx_types::{Place, Reply, Side, StreamId};

// Gives a run mark to each place that waits for the place with this number. Afterwards no place is noted as waiting for
// it.
fn mark_waiters(marks: &mut Marks, n: usize)
    requires over { AreFor marks.old.run.count marks.old }
    requires number { n < marks.old.run.count }
    requires listed { IsListed marks.old }
    ensures waiters { AreWaitersMarked n marks.old marks.new }
    ensures wanted { marks.new.wanted ≡ marks.old.wanted }
{
    while let Some(waiter) = marks.waits.take_one(n) {
        marks.run.set(waiter);
    }
}

// Clears the wanted mark of a place that is not full, and gives a run mark to each place that waits for it.
fn release(marks: &mut Marks, n: usize)
    requires over { AreFor marks.old.run.count marks.old }
    requires number { n < marks.old.run.count }
    requires listed { IsListed marks.old }
    ensures released { (drivers : List DriverSpec) (c : Configuration) (p : PlaceValue) → IsAt drivers n p
        → is_full c p ≡ false → IsReleased drivers c (same_place p) marks.old marks.new }
    ensures fewer { has_bit marks.old.wanted n ≡ true → bit_count marks.new.wanted < bit_count marks.old.wanted }
{
    mark_waiters(marks, n);
    marks.wanted.clear(n);
}

// Calls `release`, but only if the place with this number has a wanted mark and is not full.
pub fn release_if_open(tables: &Tables, marks: &mut Marks, n: usize)
    requires over { AreOver tables.now.drivers marks.old }
    requires number { IsNumber tables.now.drivers n }
    requires listed { IsListed marks.old }
    ensures { (p : PlaceValue) → IsAt tables.now.drivers n p
        → IsReleased tables.now.drivers tables.now.configuration (same_place p) marks.old marks.new }
{
    if !tables.queues().is_full_at(n) && marks.wanted.is_set(n) {
        release(marks, n);
    }
}

// Calls `release_if_open` for the number of this place.
fn release_place(tables: &Tables, marks: &mut Marks, place: Place)
    requires over { AreOver tables.now.drivers marks.old }
    requires listed { IsListed marks.old }
    ensures { IsReleased tables.now.drivers tables.now.configuration (same_place place) marks.old marks.new }
{
    if let Some(n) = tables.queues().number(place) {
        release_if_open(tables, marks, n);
    }
}

// Calls `release_place` for both sides of the stream.
fn release_sides(tables: &Tables, marks: &mut Marks, stream: StreamId)
    requires over { AreOver tables.now.drivers marks.old }
    requires listed { IsListed marks.old }
    ensures { IsReleased tables.now.drivers tables.now.configuration (is_either_side stream) marks.old marks.new }
{
    let side = Side::Write;
    release_place(tables, marks, Place { stream, side });
    let side = Side::Read;
    release_place(tables, marks, Place { stream, side });
}

// Returns the number of a wanted place that is not full, if there is one.
fn first_open(tables: &Tables, wanted: &Bits) -> Option<usize>
    requires { wanted.now.count ≡ length (places_of tables.now.drivers) }
    ensures number { IfSome result (IsNumber tables.now.drivers) }
    ensures wanted { IfSome result (λ n. has_bit wanted.now n ≡ true) }
    ensures open { IfSome result (IsOpenAt tables.now.drivers tables.now.configuration) }
    ensures none { IfNone result ((n : ℕ) → has_bit wanted.now n ≡ true
        → IsFullAt tables.now.drivers tables.now.configuration n) }
{
    let end = tables.queues().place_count();
    let mut start = 0;
    while start < end {
        let n = wanted.first_from(start)?;
        if !tables.queues().is_full_at(n) {
            return Some(n);
        }
        start = n + 1;
    }
    None
}

// Releases each wanted place that is not full.
fn release_all(tables: &Tables, marks: &mut Marks)
    requires over { AreOver tables.now.drivers marks.old }
    requires listed { IsListed marks.old }
    ensures { IsReleased tables.now.drivers tables.now.configuration everywhere marks.old marks.new }
{
    while let Some(n) = first_open(tables, &marks.wanted) {
        release(marks, n);
    }
}

// Returns whether the reply is `Done` with no serials.
fn drops_none(reply: &Reply) -> bool
    ensures { result ≡ drops_none reply.now }
{
    match reply {
        Reply::Done { dropped } => dropped.as_slice().is_empty(),
        _ => false,
    }
}

// Sets the run mark of the place, if the drivers have the place.
fn mark_place(tables: &Tables, run: &mut Bits, place: Place)
    requires { run.old.count ≡ length (places_of tables.now.drivers) }
    ensures { IsMarkedWhere tables.now.drivers tables.now.configuration.flow (same_place place) run.old run.new }
{
    if let Some(n) = tables.queues().number(place) {
        run.set(n);
    }
}

// Sets the run marks of the places that a command with this reply woke. Clears the wanted marks of the places that the
// command freed. If the reply names no dropped message, a place that was full has lost no message to a flush or a sweep,
// so it is still full.
#[tactic(auto, using(crate::proofs::WakeLemmas::cases_of_waking))]
pub fn wake(tables: &Tables, marks: &mut Marks, wakes: Wakes, reply: &Reply)
    requires over { AreOver tables.now.drivers marks.old }
    requires listed { IsListed marks.old }
    ensures { IsWoken tables.now.drivers tables.now.configuration (turned_under tables.now.configuration wakes)
        (freed_under reply.now wakes) marks.old marks.new }
{
    match wakes {
        Wakes::Nothing => {}
        Wakes::Turns(place) => mark_place(tables, &mut marks.run, place),
        Wakes::TurnsWrites { driver, addr } => mark_writes(tables, &mut marks.run, driver, addr),
        Wakes::TurnsReads { driver, addr } => mark_reads(tables, &mut marks.run, driver, addr),
        Wakes::Leaves(place) => release_place(tables, marks, place),
        Wakes::Empties(stream) => {
            if !drops_none(reply) {
                release_sides(tables, marks, stream);
            }
        }
        Wakes::Frees => {
            if !drops_none(reply) {
                release_all(tables, marks);
            }
        }
    }
}
