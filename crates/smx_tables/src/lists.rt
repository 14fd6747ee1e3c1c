//! The parts of a configuration.

ghost use Rattle.std.specs.Prelude.{◌≡◌, length, map, IfOk};
ghost use Rattle.smx_model.specs.Configuration.{empty};
ghost use Rattle.smx_model.specs.DriverList.{IsDriverList};
ghost use Rattle.smx_tables.specs.KeptHolds.{KeepsHolds};
ghost use Rattle.smx_tables.specs.ModelOfLists.{configuration_of};

use smx_addresses::{Bindings, Routes};
use smx_links::LinkTable;
use smx_queues::FlowTable;
use smx_streams::Streams;
use smx_types::{DriverSpec, NoMemory};
use std::alloc::Global;

/// A whole configuration: the tables of streams with their descriptors, of links, of bindings, of routes and of queues.
/// Contracts see each table as a list of the model, in the order in which the table is shown.
#[derive(Debug)]
pub struct Lists {
    pub streams: Streams,
    pub links: LinkTable,
    pub binds: Bindings,
    pub routes: Routes,
    pub queues: FlowTable,
    pub next_serial: u32,
}

impl Drop for Lists {
    // Written by hand, so that a function that owns the tables drops them with one call at each of its returns, instead
    // of one call for each field of each table.
    fn drop(self) {
        let Lists {
            streams: _streams,
            links: _links,
            binds: _binds,
            routes: _routes,
            queues: _queues,
            next_serial: _next_serial,
        } = self;
    }
}

impl Lists {
    /// Returns the table of queues, and drops the other tables.
    pub fn into_queues(self) -> FlowTable
        ensures { result ≡ self.queues }
    {
        let Lists {
            streams: _streams,
            links: _links,
            binds: _binds,
            routes: _routes,
            queues,
            next_serial: _next_serial,
        } = self;
        queues
    }
}

// Returns the number of minors of each driver.
#[tactic(auto, using(crate::proofs::DriverListLemmas::minors_within))]
fn minors_of_each(alloc: Global, drivers: &[DriverSpec]) -> Result<Vec<u8>, NoMemory>
    requires { IsDriverList drivers.now }
    ensures { IfOk result (λ v. v.items ≡ map (λ d. d.minors) drivers.now) }
{
    Ok(drivers.iter().map(|d| d.minors as u8).collect(alloc)?)
}

impl Lists {
    /// Makes empty tables for these drivers. Fails only if out of memory.
    #[tactic(auto, using(crate::proofs::KeptLemmas::held_at_first))]
    pub fn new(alloc: Global, drivers: &[DriverSpec]) -> Result<Lists, NoMemory>
        requires { IsDriverList drivers.now }
        ensures value { IfOk result (λ l. configuration_of l ≡ empty) }
        ensures drivers { IfOk result (λ l. l.links.drivers ≡ length drivers.now) }
        ensures queues { IfOk result (λ l. l.queues.drivers ≡ drivers.now) }
        ensures minors { IfOk result (λ l. l.streams.minors ≡ map (λ d. d.minors) drivers.now) }
        ensures room { IfOk result KeepsHolds }
    {
        let minors = minors_of_each(alloc, drivers)?;
        Ok(Lists {
            streams: Streams::new(alloc, &minors)?,
            links: LinkTable::new(alloc, drivers.len())?,
            queues: FlowTable::new(alloc, drivers)?,
            binds: Bindings::new(alloc),
            routes: Routes::new(alloc),
            next_serial: 1,
        })
    }

    /// Copies the tables. The copy takes its memory from this allocator. Fails only if out of memory.
    #[tactic(auto, using(crate::proofs::KeptLemmas::held_again))]
    pub fn copy(&self, alloc: Global) -> Result<Lists, NoMemory>
        requires { KeepsHolds self.now }
        ensures value { IfOk result (λ l. configuration_of l ≡ configuration_of self.now) }
        ensures links { IfOk result (λ l. l.links ≡ self.now.links) }
        ensures streams { IfOk result (λ l. l.streams ≡ self.now.streams) }
        ensures queues { IfOk result (λ l. l.queues.drivers ≡ self.now.queues.drivers) }
        ensures room { IfOk result KeepsHolds }
    {
        Ok(Lists {
            streams: self.streams.copy(alloc)?,
            links: self.links.copy(alloc)?,
            queues: self.queues.copy(alloc)?,
            binds: self.binds.copy(alloc)?,
            routes: self.routes.copy(alloc)?,
            next_serial: self.next_serial,
        })
    }
}
