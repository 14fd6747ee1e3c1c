//! The tables of a configuration over its drivers.

ghost use Rattle.std.specs.Prelude.{◌≡◌, IfOk};
ghost use Rattle.smx_model.specs.Configuration.{empty};
ghost use Rattle.smx_model.specs.DriverList.{IsDriverList};

use crate::lists::Lists;
use crate::sweep::SweepReserve;
use smx_links::LinkTable;
use smx_queues::FlowTable;
use smx_types::{DriverSpec, NoMemory};
use std::alloc::Global;
use std::marker::Model;

/// Drivers, and the tables of a configuration over them. Contracts see both as one value. The invariant of this type
/// relates the tables to each other and to the drivers; each table has an invariant of its own.
#[derive(Debug, Drop)]
pub struct Tables {
    pub(crate) alloc: Global,
    pub(crate) drivers: Vec<DriverSpec>,
    pub(crate) lists: Lists,
    // Kept from one sweep to the next for its memory. No clause speaks of it.
    pub(crate) room: SweepReserve,
}

impl Model for Tables {
    ghost use Rattle.smx_tables.specs.Machine.{Machine};

    ghost Value = { Machine };

    ghost use Rattle.smx_tables.specs.ModelOfTables.{machine_of, TablesInvariant};

    ghost view = { machine_of };

    ghost invariant = { TablesInvariant };
}

impl Tables {
    /// Makes empty tables over these drivers. Fails only if out of memory.
    pub fn new(alloc: Global, drivers: &[DriverSpec]) -> Result<Tables, NoMemory>
        requires { IsDriverList drivers.now }
        ensures { IfOk result (λ t. t ≡ record { drivers = drivers.now; configuration = empty }) }
    {
        let lists = Lists::new(alloc, drivers)?;
        let drivers = Vec::from_slice(alloc, drivers)?;
        Ok(Tables {
            alloc,
            drivers,
            lists,
            room: SweepReserve::new(alloc),
        })
    }

    /// Returns the drivers that the tables were made with. No command changes them. Does not allocate.
    pub fn drivers(&self) -> &[DriverSpec]
        ensures value { result.now ≡ self.now.drivers }
        ensures list { IsDriverList self.now.drivers }
    {
        self.drivers.as_slice()
    }

    /// Returns the table of links. Does not allocate.
    pub fn links(&self) -> &LinkTable
        ensures { result.now.links ≡ self.now.configuration.links }
    {
        &self.lists.links
    }

    /// Returns the table of queues. Does not allocate.
    pub fn queues(&self) -> &FlowTable
        ensures drivers { result.now.drivers ≡ self.now.drivers }
        ensures flow { result.now.flow ≡ self.now.configuration.flow }
        ensures fulls { result.now.fulls ≡ self.now.configuration.fulls }
    {
        &self.lists.queues
    }

    /// Copies the tables into memory from this allocator, which the copy keeps. Fails only if out of memory.
    pub fn copy(&self, alloc: Global) -> Result<Tables, NoMemory>
        ensures { IfOk result (λ t. t ≡ self.now) }
    {
        let drivers = Vec::from_slice(alloc, &self.drivers)?;
        let lists = self.lists.copy(alloc)?;
        Ok(Tables {
            alloc,
            drivers,
            lists,
            room: SweepReserve::new(alloc),
        })
    }
}
