//! The records of streams, found by driver and minor.

ghost use Rattle.std.specs.Prelude.{◌≡◌, ◌≢◌, ◌+◌, ◌-◌, ◌<◌, ◌≤◌, ◌==◌, ◌++◌, nat_lt, ◌&&◌, true, false, [], None, Some, map};
ghost use Rattle.std.specs.Prelude.{length, replicate, slice_get, slice_index_or, IfOk, IsOk, OnOk, OnErr};
ghost use Rattle.std.specs.List.{list_all};
ghost use Rattle.slab.specs.Slab.{get, Updates};
ghost use Rattle.smx_types.specs.declared.limits.TheConstants.{MAX_DRIVERS};
ghost use Rattle.smx_types.specs.declared.stream.StreamId.{StreamId};
ghost use Rattle.smx_streams.specs.RecordGrids.{key_at, with_key, is_used_and_hung, AreRecords, AreSet, AreSound, Uses};
ghost use Rattle.smx_streams.specs.RecordGrids.{uses_of, IsRecordOf, IsSet};
ghost use Rattle.smx_streams.specs.HungRows.{flag_at, hung_from, hungs_from};
ghost use Rattle.smx_streams.specs.StreamTables.{is_in_range, number_at};

use crate::rows::{Row, cell_at, set_cell};
use slab::Slab;
use smx_types::{Copied, NoMemory, StreamId};
use std::alloc::Global;
use std::marker::Model;

/// A stream, the number of its descriptors, the number of its holds, and whether it is hung up. There is at least one
/// descriptor or hold.
#[derive(Clone, Copy, Debug)]
pub struct Record {
    pub stream: StreamId,
    pub opens: u32,
    pub holds: u32,
    pub hung: bool,
}

/// The records in one slab, and for each driver the keys of the records of its streams. Contracts see the number of
/// minors of each driver. For each minor they see the number of descriptors, the number of holds, and whether the
/// stream is hung up.
#[derive(Debug, Drop)]
pub struct Records {
    drivers: Vec<Row<usize>>,
    records: Slab<Record>,
}

impl Model for Records {
    ghost Value = { Uses };

    ghost view = { λ r. uses_of r.drivers.items r.records };

    ghost invariant = { λ r. AreRecords r.drivers.items r.records };
}

fn record_at(records: &Slab<Record>, key: usize) -> Option<Record>
    ensures { result ≡ get records.now key }
{
    records.get(key).copied()
}

fn set_record(records: &mut Slab<Record>, key: usize, changed: Record)
    requires { get records.old key ≢ None }
    ensures { Updates records.old records.new key (Some changed) }
{
    records[key] = changed;
}

// Makes rows without keys, for drivers with these numbers of minors.
fn new_keys(alloc: Global, minors: &[u8]) -> Result<Vec<Row<usize>>, NoMemory>
    ensures { IfOk result (λ v. v.items ≡ map (λ n. replicate n None) minors.now) }
{
    let mut drivers = Vec::with_capacity(alloc, minors.len())?;
    for count in minors {
        drivers.push(Row::new(alloc, *count)?)?;
    }
    Ok(drivers)
}

// Returns whether the record has at least one descriptor or hold.
fn is_used(counted: Record) -> bool
    ensures { result ≡ nat_lt 0 (counted.opens + counted.holds) }
{
    counted.opens > 0 || counted.holds > 0
}

// Replaces the record at `key` by `changed`. If `changed` has no descriptor and no hold, removes the record and the key
// instead.
fn put_back(drivers: &mut Vec<Row<usize>>, records: &mut Slab<Record>, key: usize, changed: Record)
    requires whole { AreRecords drivers.old.items records.old }
    requires there { key_at drivers.old.items changed.stream ≡ Some key }
    ensures { IsSet drivers.old.items records.old changed drivers.new.items records.new }
{
    if is_used(changed) {
        set_record(records, key, changed);
    } else {
        let _gone = records.try_remove(key);
        let StreamId { driver, minor } = changed.stream;
        set_cell(drivers, driver as usize, minor as usize, None);
    }
}

// Adds a new record and its key.
fn put(
    drivers: &mut Vec<Row<usize>>,
    records: &mut Slab<Record>,
    added: Record,
) -> Result<(), NoMemory>
    requires whole { AreRecords drivers.old.items records.old }
    requires none { key_at drivers.old.items added.stream ≡ None }
    requires driver { added.stream.driver < length drivers.old.items }
    requires minor { added.stream.minor < length (slice_index_or drivers.old.items added.stream.driver []) }
    requires used { 0 < added.opens + added.holds }
    ensures ok { OnOk result (IsSet drivers.old.items records.old added drivers.new.items records.new) }
    ensures drivers { OnErr result (drivers.new.items ≡ drivers.old.items) }
    ensures records { OnErr result (records.new.slots ≡ records.old.slots) }
{
    let stream = added.stream;
    let key = records.insert(added)?;
    set_cell(
        drivers,
        stream.driver as usize,
        stream.minor as usize,
        Some(key),
    );
    Ok(())
}

impl Records {
    /// Makes an empty set of records, for drivers with these numbers of minors.
    pub fn new(alloc: Global, minors: &[u8]) -> Result<Records, NoMemory>
        requires { length minors.now ≤ MAX_DRIVERS }
        ensures minors { IfOk result (λ r. r.minors ≡ minors.now) }
        ensures none { IfOk result (λ r. (s : StreamId) → (number_at r.opens s ≡ 0) × (number_at r.holds s ≡ 0)) }
        ensures hungs { IfOk result (λ r. (s : StreamId) → flag_at r.hungs s ≡ false) }
        ensures sound { IfOk result AreSound }
    {
        Ok(Records {
            drivers: new_keys(alloc, minors)?,
            records: Slab::new(alloc),
        })
    }

    /// Returns the number of minors of the driver. Returns `None` if there is no such driver.
    pub fn minors_of(&self, driver: u8) -> Option<u8>
        ensures { result ≡ slice_get self.now.minors driver }
    {
        Some(self.drivers.get(driver as usize)?.len())
    }

    // Returns the record of the stream, if it has one.
    fn record_of(&self, stream: StreamId) -> Option<Record>
        ensures { IsRecordOf self.now stream result }
    {
        let key = cell_at(&self.drivers, stream.driver as usize, stream.minor as usize)?;
        record_at(&self.records, key)
    }

    /// Returns the number of holds of the stream.
    pub fn holds_of(&self, stream: StreamId) -> u32
        ensures { result ≡ number_at self.now.holds stream }
    {
        match self.record_of(stream) {
            Some(record) => record.holds,
            None => 0,
        }
    }

    /// Returns whether the stream has exactly one descriptor and no hold.
    pub fn is_opened_once(&self, stream: StreamId) -> bool
        ensures { result ≡ ((number_at self.now.opens stream == 1) && (number_at self.now.holds stream == 0)) }
    {
        match self.record_of(stream) {
            Some(record) => record.opens == 1 && record.holds == 0,
            None => false,
        }
    }

    /// Returns whether the stream is hung up.
    pub fn is_hung(&self, stream: StreamId) -> bool
        ensures { result ≡ flag_at self.now.hungs stream }
    {
        match self.record_of(stream) {
            Some(record) => record.hung,
            None => false,
        }
    }

    // Appends the hung-up streams of a driver, by rising minor.
    fn add_hungs(&self, driver: u8, hungs: &mut Vec<StreamId>) -> Result<(), NoMemory>
        requires { driver < length self.now.minors }
        ensures { OnOk result (hungs.new.items
            ≡ hungs.old.items ++ hung_from driver 0 (slice_index_or self.now.hungs driver [])) }
    {
        for minor in 0..self.drivers[driver as usize].len() {
            let stream = StreamId { driver, minor };
            if self.is_hung(stream) {
                hungs.push(stream)?;
            }
        }
        Ok(())
    }

    /// Returns the hung-up streams, sorted by driver and minor.
    pub fn hungs(&self, alloc: Global) -> Result<Vec<StreamId>, NoMemory>
        ensures { IfOk result (λ v. v.items ≡ hungs_from 0 self.now.hungs) }
    {
        let mut hungs = Vec::new(alloc);
        for driver in 0..self.drivers.len() as u8 {
            self.add_hungs(driver, &mut hungs)?;
        }
        Ok(hungs)
    }

    /// Returns whether the stream has a record.
    pub fn has(&self, stream: StreamId) -> bool
        ensures { result ≡ nat_lt 0 (number_at self.now.opens stream + number_at self.now.holds stream) }
    {
        cell_at(&self.drivers, stream.driver as usize, stream.minor as usize).is_some()
    }

    /// Returns whether each of these streams has a record.
    pub fn has_each(&self, streams: &[StreamId]) -> bool
        ensures { result
            ≡ list_all (λ s. nat_lt 0 (number_at self.now.opens s + number_at self.now.holds s)) streams.now }
    {
        streams.iter().all(|s| self.has(*s))
    }

    /// Counts one more descriptor of a stream. Makes a record of the stream if there is none yet.
    #[inline(always)]
    pub fn open(&mut self, stream: StreamId) -> Result<(), NoMemory>
        requires range { is_in_range self.old.minors stream.driver stream.minor ≡ true }
        requires few { number_at self.old.opens stream ≤ 1024 }
        ensures ok { OnOk result (AreSet self.old stream (number_at self.old.opens stream + 1)
            (number_at self.old.holds stream) (flag_at self.old.hungs stream) self.new) }
        ensures err { OnErr result (self.new ≡ self.old) }
        ensures in_place { 0 < number_at self.old.opens stream → IsOk result }
        ensures sound { OnOk result (AreSound self.new) }
    {
        if let Some(record) = self.record_of(stream) {
            self.change(Record {
                stream,
                opens: record.opens + 1,
                ..record
            });
            return Ok(());
        }
        self.add(Record {
            stream,
            opens: 1,
            holds: 0,
            hung: false,
        })
    }

    // Adds the record of a stream that has none.
    fn add(&mut self, record: Record) -> Result<(), NoMemory>
        requires range { is_in_range self.old.minors record.stream.driver record.stream.minor ≡ true }
        requires none { number_at self.old.opens record.stream + number_at self.old.holds record.stream ≡ 0 }
        requires used { 0 < record.opens + record.holds }
        ensures ok { OnOk result (AreSet self.old record.stream record.opens record.holds record.hung self.new) }
        ensures err { OnErr result (self.new ≡ self.old) }
        ensures sound { OnOk result (AreSound self.new) }
    {
        put(&mut self.drivers, &mut self.records, record)?;
        Ok(())
    }

    /// Counts one descriptor less of a stream that has a descriptor. Removes the record of the stream if no descriptor
    /// and no hold is left.
    pub fn close(&mut self, stream: StreamId)
        requires { 0 < number_at self.old.opens stream }
        ensures set { AreSet self.old stream (number_at self.old.opens stream - 1) (number_at self.old.holds stream)
            (nat_lt 0 ((number_at self.old.opens stream - 1) + number_at self.old.holds stream)
            && flag_at self.old.hungs stream) self.new }
        ensures sound { AreSound self.new }
    {
        if let Some(record) = self.record_of(stream) {
            self.change(Record {
                stream,
                opens: record.opens - 1,
                ..record
            });
        }
    }

    /// Counts one more hold of a stream that has a record.
    pub fn hold(&mut self, stream: StreamId)
        requires there { 0 < number_at self.old.opens stream + number_at self.old.holds stream }
        requires few { number_at self.old.holds stream < 1024 }
        ensures set { AreSet self.old stream (number_at self.old.opens stream) (number_at self.old.holds stream + 1)
            (nat_lt 0 (number_at self.old.opens stream + (number_at self.old.holds stream + 1))
            && flag_at self.old.hungs stream) self.new }
        ensures sound { AreSound self.new }
    {
        if let Some(record) = self.record_of(stream) {
            self.change(Record {
                stream,
                holds: record.holds + 1,
                ..record
            });
        }
    }

    /// Counts one hold less of a stream that has a hold. Removes the record of the stream if no descriptor and no hold
    /// is left.
    pub fn release(&mut self, stream: StreamId)
        requires { 0 < number_at self.old.holds stream }
        ensures set { AreSet self.old stream (number_at self.old.opens stream) (number_at self.old.holds stream - 1)
            (nat_lt 0 (number_at self.old.opens stream + (number_at self.old.holds stream - 1))
            && flag_at self.old.hungs stream) self.new }
        ensures sound { AreSound self.new }
    {
        if let Some(record) = self.record_of(stream) {
            self.change(Record {
                stream,
                holds: record.holds - 1,
                ..record
            });
        }
    }

    /// Sets the hung-up flag of a stream that has a record.
    pub fn hang(&mut self, stream: StreamId)
        requires { 0 < number_at self.old.opens stream + number_at self.old.holds stream }
        ensures set { AreSet self.old stream (number_at self.old.opens stream) (number_at self.old.holds stream) true
            self.new }
        ensures sound { AreSound self.new }
    {
        if let Some(record) = self.record_of(stream) {
            self.change(Record {
                stream,
                hung: true,
                ..record
            });
        }
    }

    // Replaces the record of a stream. If the new record has no descriptor and no hold, removes the record instead.
    fn change(&mut self, changed: Record)
        requires { 0 < number_at self.old.opens changed.stream + number_at self.old.holds changed.stream }
        ensures set { AreSet self.old changed.stream changed.opens changed.holds (is_used_and_hung changed) self.new }
        ensures sound { AreSound self.new }
    {
        let StreamId { driver, minor } = changed.stream;
        if let Some(key) = cell_at(&self.drivers, driver as usize, minor as usize) {
            put_back(&mut self.drivers, &mut self.records, key, changed);
        }
    }

    /// Copies the records. The copy gets its memory from this allocator.
    pub fn copy(&self, alloc: Global) -> Result<Records, NoMemory>
        ensures { IfOk result (λ r. r ≡ self.now) }
    {
        Ok(Records {
            drivers: Row::copies(alloc, &self.drivers)?,
            records: self.records.clone()?,
        })
    }
}
