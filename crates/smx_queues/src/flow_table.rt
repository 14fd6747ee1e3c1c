//! The queued messages and full marks of all places, by place.

ghost use Rattle.std.specs.Prelude.{◌≡◌, ◌≢◌, ◌+◌, ◌<◌, ◌≤◌, ◌^◌, ◌++◌, List, [], false, drop, length, map, slice_get};
ghost use Rattle.std.specs.Prelude.{vec_capacity, Some, option_copied, IfOk, IfNone, IfSome, IsSome, OnOk, OnSome};
ghost use Rattle.std.specs.Iterator.{YieldsFirstBy};
ghost use Rattle.std.specs.List.{list_any};
ghost use Rattle.std.specs.Option.{is_some};
ghost use Rattle.smx_types.specs.declared.message.Message.{Message};
ghost use Rattle.smx_types.specs.declared.stream.Place.{Place as PlaceValue};
ghost use Rattle.smx_model.specs.Configuration.{QueuedMessage, same_place};
ghost use Rattle.smx_model.specs.DriverList.{IsDriverList};
ghost use Rattle.smx_model.specs.KnownStreams.{IsKnown};
ghost use Rattle.smx_model.specs.Queues.{first_message, queue};
ghost use Rattle.smx_queues.specs.FlowTables.{FlowLists, after_arrival, after_leaving, without_place, IsFlow, flow_of};
ghost use Rattle.smx_queues.specs.FlowTables.{fulls_of, leaving_message};
ghost use Rattle.smx_queues.specs.PlaceLists.{places_of};

use crate::places::Places;
use crate::queues::Queues;
use smx_types::{DriverSpec, Message, NoMemory, Place};
use std::alloc::Global;
use std::marker::Model;

/// The queues of all places of some drivers, found by place or by number. Contracts see the drivers, the flow (the list
/// of all queued messages), the list of full places, and the number of messages for which a node is reserved.
#[derive(Debug)]
pub struct FlowTable {
    places: Places,
    queues: Queues,
}

impl Drop for FlowTable {
    // Written by hand, so that functions drop a table with one call, not part by part.
    fn drop(self) {
        let FlowTable {
            places: _places,
            queues: _queues,
        } = self;
    }
}

impl Model for FlowTable {
    ghost Value = { FlowLists };

    ghost view = { λ t. record {
      drivers = t.places;
      flow = flow_of (places_of t.places) t.queues.queues;
      fulls = fulls_of (places_of t.places) t.queues.queues;
      spare = t.queues.spare;
    } };

    ghost invariant = { λ t. IsFlow t.places t.queues.queues };
}

impl FlowTable {
    /// Makes a table over these drivers, without messages. Fails only if out of memory.
    pub fn new(alloc: Global, drivers: &[DriverSpec]) -> Result<FlowTable, NoMemory>
        requires { IsDriverList drivers.now }
        ensures drivers { IfOk result (λ t. t.drivers ≡ drivers.now) }
        ensures none { IfOk result (λ t. t.flow ≡ []) }
        ensures open { IfOk result (λ t. t.fulls ≡ []) }
    {
        let places = Places::new(alloc, drivers)?;
        let queues = places.new_queues(alloc)?;
        Ok(FlowTable { places, queues })
    }

    /// Returns the number of queued messages. Takes no memory.
    pub fn len(&self) -> usize
        ensures { result ≡ length self.now.flow }
    {
        self.queues.len()
    }

    /// Returns the number of places. Takes no memory.
    pub fn place_count(&self) -> usize
        ensures count { result ≡ length (places_of self.now.drivers) }
        ensures few { result < 2 ^ 63 }
    {
        self.places.len()
    }

    /// Returns the number of the place, if the drivers have the place. Takes no memory.
    pub fn number(&self, place: Place) -> Option<usize>
        ensures found { IfSome result (λ n. slice_get (places_of self.now.drivers) n ≡ Some place) }
        ensures known { IsKnown self.now.drivers place.stream → IsSome result }
    {
        self.places.number(place)
    }

    /// Returns the place with this number. Takes no memory.
    pub fn place_at(&self, n: usize) -> Place
        requires { n < length (places_of self.now.drivers) }
        ensures { slice_get (places_of self.now.drivers) n ≡ Some result }
    {
        self.places.at(n)
    }

    /// Returns whether the place with this number is marked as full. Takes no memory.
    pub fn is_full_at(&self, n: usize) -> bool
        requires { n < length (places_of self.now.drivers) }
        ensures { (p : PlaceValue) → slice_get (places_of self.now.drivers) n ≡ Some p
            → result ≡ list_any (same_place p) self.now.fulls }
    {
        self.queues.is_full(n)
    }

    /// Returns whether there is a message at the place with this number. Takes no memory.
    pub fn has_messages_at(&self, n: usize) -> bool
        requires { n < length (places_of self.now.drivers) }
        ensures { (p : PlaceValue) → slice_get (places_of self.now.drivers) n ≡ Some p
            → result ≡ is_some (first_message self.now.flow p) }
    {
        self.queues.message_count(n) > 0
    }

    /// Returns the first message at the place with this number, if there is one. Takes no memory.
    pub fn front_at(&self, n: usize) -> Option<&Message>
        requires { n < length (places_of self.now.drivers) }
        ensures { (p : PlaceValue) → slice_get (places_of self.now.drivers) n ≡ Some p
            → option_copied result ≡ first_message self.now.flow p }
    {
        self.queues.front(n)
    }

    /// Returns whether the place is marked as full. Takes no memory.
    pub fn is_full(&self, place: Place) -> bool
        ensures { result ≡ list_any (same_place place) self.now.fulls }
    {
        match self.places.number(place) {
            Some(p) => self.queues.is_full(p),
            None => false,
        }
    }

    /// Returns the first message at the place, if there is one. Takes no memory.
    pub fn front(&self, place: Place) -> Option<&Message>
        ensures { option_copied result ≡ first_message self.now.flow place }
    {
        let p = self.places.number(place)?;
        self.queues.front(p)
    }

    /// Makes sure that there is room for one message. Fails only if out of memory.
    pub fn reserve_one(&mut self) -> Result<(), NoMemory>
        ensures room { OnOk result (0 < self.new.spare) }
        ensures unchanged { self.new ≡ record self.old { spare = self.new.spare } }
    {
        self.queues.reserve_one()
    }

    /// Adds a message at the end of the queue of a place that is not full. Then marks the place as full if the bytes of
    /// its messages reach the high water mark. Takes no memory.
    pub fn put(&mut self, place: Place, message: Message)
        requires known { IsKnown self.old.drivers place.stream }
        requires open { list_any (same_place place) self.old.fulls ≡ false }
        requires some { 0 < length message.bytes }
        requires spare { 0 < self.old.spare }
        ensures { self.new ≡ record (after_arrival self.old place message) { spare = self.new.spare } }
    {
        let p = self.places.number(place).unwrap();
        self.queues.put(p, message);
    }

    /// Removes the first message of the place and returns it, if there is one. Takes no memory.
    pub fn take(&mut self, place: Place) -> Option<Message>
        ensures taken { result ≡ first_message self.old.flow place }
        ensures left { OnSome result (self.new ≡ record (after_leaving self.old place) { spare = self.new.spare }) }
        ensures none { IfNone result (self.new ≡ self.old) }
    {
        let p = self.places.number(place)?;
        self.queues.take(p)
    }

    /// Moves the first message of place number `from` to the end of the queue of place number `to`, which is not full.
    /// Takes no memory.
    #[inline(always)]
    pub fn move_front_at(&mut self, from: usize, to: usize)
        requires from { from < length (places_of self.old.drivers) }
        requires to { to < length (places_of self.old.drivers) }
        requires differ { from ≢ to }
        requires some { (p : PlaceValue) → slice_get (places_of self.old.drivers) from ≡ Some p
            → IsSome (first_message self.old.flow p) }
        requires open { (q : PlaceValue) → slice_get (places_of self.old.drivers) to ≡ Some q
            → list_any (same_place q) self.old.fulls ≡ false }
        ensures { (p q : PlaceValue) (m : Message) → slice_get (places_of self.old.drivers) from ≡ Some p
            → slice_get (places_of self.old.drivers) to ≡ Some q → first_message self.old.flow p ≡ Some m
            → self.new ≡ after_arrival (after_leaving self.old p) q m }
    {
        self.queues.move_front(from, to);
    }

    /// Drops the messages at the place, and clears its full mark. Appends the serials of these messages to `dropped`,
    /// which has room for them. Takes no memory.
    pub fn drop_at(&mut self, place: Place, dropped: &mut Vec<u32>)
        requires { length dropped.old.items + length (queue self.old.flow place) ≤ vec_capacity dropped.old }
        ensures gone { self.new ≡ record (without_place self.old place) { spare = self.new.spare } }
        ensures serials { dropped.new.items ≡ dropped.old.items ++ map (λ m. m.serial) (queue self.old.flow place) }
        ensures capacity { vec_capacity dropped.new ≡ vec_capacity dropped.old }
    {
        if let Some(p) = self.places.number(place) {
            self.queues.add_serials(p, dropped);
            self.queues.clear(p);
        }
    }

    /// Turns the table into an iterator that moves all messages out, in order of place. Takes no memory.
    pub fn into_messages(self) -> LeavingMessages
        ensures { result ≡ self.flow }
    {
        let FlowTable { places, queues } = self;
        LeavingMessages {
            places,
            queues,
            next: 0,
        }
    }

    /// Returns the full places, in order. Fails only if out of memory.
    pub fn fulls(&self, alloc: Global) -> Result<Vec<Place>, NoMemory>
        ensures { IfOk result (λ v. v.items ≡ self.now.fulls) }
    {
        let mut fulls = Vec::new(alloc);
        for p in 0..self.places.len() {
            if self.queues.is_full(p) {
                fulls.push(self.places.at(p))?;
            }
        }
        Ok(fulls)
    }

    /// Copies the messages and the marks. Fails only if out of memory.
    pub fn copy(&self, alloc: Global) -> Result<FlowTable, NoMemory>
        ensures { IfOk result (λ t. t ≡ record self.now { spare = t.spare }) }
    {
        Ok(FlowTable {
            places: self.places.copy(alloc)?,
            queues: self.queues.copy(alloc)?,
        })
    }
}

/// An iterator over the messages of a table that `into_messages` has consumed. It moves the messages out, in order of
/// place. Contracts see the list of the messages that are left. Takes no memory.
#[derive(Drop)]
pub struct LeavingMessages {
    places: Places,
    queues: Queues,
    // The number of a place. No place with a lower number has messages left.
    next: usize,
}

impl Model for LeavingMessages {
    ghost Value = { List QueuedMessage };

    ghost view = { λ it. flow_of (drop it.next (places_of it.places)) (drop it.next it.queues.queues) };

    ghost invariant = { λ it. IsFlow it.places it.queues.queues };
}

impl LeavingMessages {
    /// Returns the next message and its place, if one is left. Takes no memory.
    pub fn next(&mut self) -> Option<(Place, Message)>
        ensures { YieldsFirstBy leaving_message (λ rest. rest) self.old result self.new }
    {
        while self.next < self.places.len() {
            if let Some(message) = self.queues.take(self.next) {
                return Some((self.places.at(self.next), message));
            }
            self.next += 1;
        }
        None
    }
}
