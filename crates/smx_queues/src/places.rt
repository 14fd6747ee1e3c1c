//! The places of some drivers, that is, both sides of each of their streams, and the numbers of these places.

ghost use Rattle.std.specs.Prelude.{◌≡◌, ◌≤◌, ◌++◌, ◌<◌, ◌+◌, ◌^◌, false, Some, IfOk, OnOk, IfSome, IsSome, IfNone};
ghost use Rattle.std.specs.Prelude.{List, length, slice_get};
ghost use Rattle.std.specs.List.{list_any};
ghost use Rattle.smx_types.specs.declared.driver.DriverSpec.{DriverSpec as DriverValue};
ghost use Rattle.smx_model.specs.Configuration.{same_place, side_number};
ghost use Rattle.smx_model.specs.DriverList.{high_of, low_of, minors_of, IsDriverList};
ghost use Rattle.smx_model.specs.KnownStreams.{IsKnown};
ghost use Rattle.smx_queues.specs.PlaceLists.{ArePlaces, new_queues, places_of, sides_of};

use crate::queues::Queues;
use smx_types::{DriverSpec, NoMemory, Place, Side, StreamId};
use std::alloc::Global;
use std::marker::Model;

/// The number of a driver's first place, and how many minors (streams) the driver has. These two determine the numbers
/// of all places of the driver.
#[derive(Clone, Copy, Debug)]
pub struct DriverRow {
    pub first: usize,
    pub minors: usize,
}

/// A list of drivers, and the list of their places: both sides of each stream. The number of a place is its index in
/// that list. Contracts see the drivers.
#[derive(Debug, Drop)]
pub struct Places {
    drivers: Vec<DriverSpec>,
    rows: Vec<DriverRow>,
    places: Vec<Place>,
}

impl Model for Places {
    ghost Value = { List DriverValue };

    ghost view = { λ p. p.drivers.items };

    ghost invariant = { λ p. ArePlaces p.drivers.items p.rows.items p.places.items };
}

fn side_number(side: Side) -> usize
    ensures { result ≡ side_number side }
{
    side as usize
}

// Returns the row of a driver, if there is such a driver.
fn row_at(rows: &[DriverRow], driver: u8) -> Option<DriverRow>
    ensures { result ≡ slice_get rows.now driver }
{
    rows.get(driver as usize).copied()
}

// Returns the high and the low water mark of a driver that exists.
fn marks_of(drivers: &[DriverSpec], driver: u8) -> (usize, usize)
    requires list { IsDriverList drivers.now }
    requires there { driver < length drivers.now }
    ensures high { result.0 ≡ high_of drivers.now driver }
    ensures low { result.1 ≡ low_of drivers.now driver }
    ensures bounded { result.0 ≤ 4096 }
    ensures apart { result.1 < result.0 }
{
    let d = &drivers[driver as usize];
    (d.high as usize, d.low as usize)
}

// Appends both sides of each stream of a driver, for the minors below `minors`.
fn push_sides(places: &mut Vec<Place>, driver: u8, minors: u8) -> Result<(), NoMemory>
    ensures { OnOk result (places.new.items ≡ places.old.items ++ sides_of driver minors) }
{
    for minor in 0..minors {
        let stream = StreamId { driver, minor };
        places.push(Place {
            stream,
            side: Side::Write,
        })?;
        places.push(Place {
            stream,
            side: Side::Read,
        })?;
    }
    Ok(())
}

impl Places {
    /// Makes the places of these drivers. Fails only if out of memory.
    pub fn new(alloc: Global, drivers: &[DriverSpec]) -> Result<Places, NoMemory>
        requires { IsDriverList drivers.now }
        ensures { IfOk result (λ p. p ≡ drivers.now) }
    {
        let mut rows = Vec::with_capacity(alloc, drivers.len())?;
        let mut places = Vec::new(alloc);
        for i in 0..drivers.len() {
            let minors = drivers[i].minors as u8;
            rows.push(DriverRow {
                first: places.len(),
                minors: minors as usize,
            })?;
            push_sides(&mut places, i as u8, minors)?;
        }
        let drivers = Vec::from_slice(alloc, drivers)?;
        Ok(Places {
            drivers,
            rows,
            places,
        })
    }

    /// Returns the number of places.
    pub fn len(&self) -> usize
        ensures many { result ≡ length (places_of self.now) }
        ensures few { result < 2 ^ 63 }
    {
        self.places.len()
    }

    /// Returns the number of the place, if the drivers have the place.
    pub fn number(&self, place: Place) -> Option<usize>
        ensures found { IfSome result (λ i. slice_get (places_of self.now) i ≡ Some place) }
        ensures none { IfNone result (list_any (same_place place) (places_of self.now) ≡ false) }
        ensures known { IsKnown self.now place.stream → IsSome result }
    {
        let StreamId { driver, minor } = place.stream;
        let row = row_at(&self.rows, driver)?;
        let minor = minor as usize;
        if minor >= row.minors {
            return None;
        }
        Some(row.first + 2 * minor + side_number(place.side))
    }

    /// Returns the place with this number. `number + 1` is below 2^64, so a caller can compute it.
    pub fn at(&self, number: usize) -> Place
        requires { number < length (places_of self.now) }
        ensures place { slice_get (places_of self.now) number ≡ Some result }
        ensures few { number + 1 < 2 ^ 64 }
    {
        self.places[number]
    }

    /// Makes a queue without messages for each place, with the water marks of the place's driver. Fails only if out of
    /// memory.
    pub fn new_queues(&self, alloc: Global) -> Result<Queues, NoMemory>
        requires { IsDriverList self.now }
        ensures { IfOk result (λ q. q.queues ≡ new_queues self.now (places_of self.now)) }
    {
        let mut made = Queues::new(alloc);
        for place in &self.places {
            let (high, low) = marks_of(&self.drivers, place.stream.driver);
            made.push_place(high, low)?;
        }
        Ok(made)
    }

    /// Copies the places. Fails only if out of memory.
    pub fn copy(&self, alloc: Global) -> Result<Places, NoMemory>
        ensures { IfOk result (λ p. p ≡ self.now) }
    {
        let drivers = Vec::from_slice(alloc, &self.drivers)?;
        let rows = Vec::from_slice(alloc, &self.rows)?;
        let places = Vec::from_slice(alloc, &self.places)?;
        Ok(Places {
            drivers,
            rows,
            places,
        })
    }
}
