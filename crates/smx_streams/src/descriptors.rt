//! The descriptors of all processes.

ghost use Rattle.std.specs.Prelude.{◌≡◌, ◌<◌, ◌≤◌, ◌++◌, ℕ, false, true, not, List, [], length, filter, replicate, Option, None};
ghost use Rattle.std.specs.Prelude.{slice_index, slice_index_or, slice_set, IfNone, IfOk, IsOk, OnOk, OnErr};
ghost use Rattle.std.specs.List.{list_any};
ghost use Rattle.smx_types.specs.declared.limits.TheConstants.{MAX_DESCRIPTORS, MAX_PROCESSES};
ghost use Rattle.smx_model.specs.Configuration.{is_fd, fd_before};
ghost use Rattle.smx_model.specs.Ordered.{with_inserted};
ghost use Rattle.smx_streams.specs.DescriptorRows.{AreRows, IsListed, Listed, listed_of};
ghost use Rattle.smx_streams.specs.DescriptorRows.{row_from, rows_from, with_room_at};
ghost use Rattle.smx_streams.specs.StreamTables.{stream_at, least_fd};

use crate::rows::{Row, cell_at, set_cell};
use smx_types::{Copied, Descriptor, MAX_DESCRIPTORS, MAX_PROCESSES, NoMemory, Process, StreamId};
use std::alloc::Global;
use std::marker::Model;

/// Descriptors by process and number. A process has either no cells at all, or a cell for each descriptor number.
/// Contracts see the list, and how many cells each process has.
#[derive(Debug, Drop)]
pub struct Descriptors {
    // For each process a row with a cell for each descriptor number, or with no cells before the first open.
    processes: Vec<Row<StreamId>>,
}

impl Model for Descriptors {
    ghost Value = { Listed };

    ghost view = { λ d. listed_of d.processes.items };

    ghost invariant = { λ d. AreRows d.processes.items };
}

// Appends the descriptors of a process, by rising number.
fn add_fds(
    processes: &[Row<StreamId>],
    number: u32,
    fds: &mut Vec<Descriptor>,
) -> Result<(), NoMemory>
    requires process { number < MAX_PROCESSES }
    requires room { length (slice_index_or processes.now number []) ≤ MAX_DESCRIPTORS }
    ensures { OnOk result (fds.new.items
        ≡ fds.old.items ++ row_from number 0 (slice_index_or processes.now number [])) }
{
    let process = Process::new(number).unwrap();
    for fd in 0..MAX_DESCRIPTORS {
        if let Some(stream) = cell_at(processes, number as usize, fd as usize) {
            fds.push(Descriptor {
                process,
                fd,
                stream,
            })?;
        }
    }
    Ok(())
}

// Returns the descriptors of all processes, in order.
fn fds_of(alloc: Global, processes: &[Row<StreamId>]) -> Result<Vec<Descriptor>, NoMemory>
    requires { AreRows processes.now }
    ensures { IfOk result (λ v. v.items ≡ rows_from 0 processes.now) }
{
    let mut fds = Vec::new(alloc);
    for number in 0..MAX_PROCESSES {
        add_fds(processes, number, &mut fds)?;
    }
    Ok(fds)
}

// Makes cells of a process for all descriptor numbers, if it has none.
fn make_room(
    processes: &mut Vec<Row<StreamId>>,
    alloc: Global,
    process: u32,
) -> Result<(), NoMemory>
    requires { process < length processes.old.items }
    ensures ok { OnOk result (processes.new.items ≡ with_room_at processes.old.items process) }
    ensures err { OnErr result (processes.new.items ≡ processes.old.items) }
    ensures in_place { 0 < length (slice_index_or processes.old.items process []) → IsOk result }
{
    let row = &mut processes[process as usize];
    if row.len() == 0 {
        *row = Row::new(alloc, MAX_DESCRIPTORS as u8)?;
    }
    Ok(())
}

// Makes an empty row for each process.
fn new_rows(alloc: Global) -> Result<Vec<Row<StreamId>>, NoMemory>
    ensures { IfOk result (λ v. v.items ≡ replicate MAX_PROCESSES []) }
{
    let mut processes = Vec::with_capacity(alloc, MAX_PROCESSES as usize)?;
    for process in 0..MAX_PROCESSES {
        processes.push(Row::new(alloc, 0)?)?;
    }
    Ok(processes)
}

impl Descriptors {
    /// Makes an empty list of descriptors. No process has cells yet.
    pub fn new(alloc: Global) -> Result<Descriptors, NoMemory>
        ensures { IfOk result (λ d. d.fds ≡ []) }
    {
        Ok(Descriptors {
            processes: new_rows(alloc)?,
        })
    }

    pub fn stream_of(&self, process: Process, fd: u32) -> Option<StreamId>
        ensures { result ≡ stream_at self.now.fds process fd }
    {
        cell_at(&self.processes, process.get() as usize, fd as usize)
    }

    // Returns whether the process has no descriptor with this number.
    fn is_free(&self, process: Process, fd: u32) -> bool
        ensures { result ≡ not (list_any (is_fd process fd) self.now.fds) }
    {
        !cell_at(&self.processes, process.get() as usize, fd as usize).is_some()
    }

    /// Returns the lowest number from 0 to 15 that is not a descriptor of the process, if there is one.
    #[inline(always)]
    pub fn least_free(&self, process: Process) -> Option<u32>
        ensures { result ≡ least_fd self.now.fds process }
    {
        (0..MAX_DESCRIPTORS).find(|fd| self.is_free(process, *fd))
    }

    /// Makes cells for all numbers of the process, if it has none.
    pub fn make_room(&mut self, alloc: Global, process: Process) -> Result<(), NoMemory>
        ensures fds { self.new.fds ≡ self.old.fds }
        ensures room { OnOk result (slice_index self.new.rooms process ≡ MAX_DESCRIPTORS) }
        ensures in_place { (fd : ℕ) → list_any (is_fd process fd) self.old.fds ≡ true → IsOk result }
    {
        make_room(&mut self.processes, alloc, process.get())?;
        Ok(())
    }

    /// Adds a descriptor. Its number is free, and the process has a cell for this number.
    pub fn put(&mut self, process: Process, fd: u32, stream: StreamId)
        requires room { fd < slice_index self.old.rooms process }
        requires free { list_any (is_fd process fd) self.old.fds ≡ false }
        ensures fds { self.new.fds
            ≡ with_inserted fd_before self.old.fds (record { process = process; fd = fd; stream = stream }) }
        ensures listed { IsListed self.new.fds }
    {
        set_cell(
            &mut self.processes,
            process.get() as usize,
            fd as usize,
            Some(stream),
        );
    }

    /// Removes the descriptor with this number, and returns its stream. Returns `None` if there is no such descriptor.
    pub fn take(&mut self, process: Process, fd: u32) -> Option<StreamId>
        ensures stream { result ≡ stream_at self.old.fds process fd }
        ensures rest { self.new.fds ≡ filter (λ d. not (is_fd process fd d)) self.old.fds }
        ensures listed { IsListed self.new.fds }
        ensures unchanged { IfNone result (self.new ≡ self.old) }
    {
        let stream = cell_at(&self.processes, process.get() as usize, fd as usize)?;
        set_cell(
            &mut self.processes,
            process.get() as usize,
            fd as usize,
            None,
        );
        Some(stream)
    }

    /// Returns all descriptors, in the order of processes and numbers.
    pub fn list(&self, alloc: Global) -> Result<Vec<Descriptor>, NoMemory>
        ensures { IfOk result (λ v. v.items ≡ self.now.fds) }
    {
        fds_of(alloc, &self.processes)
    }

    pub fn copy(&self, alloc: Global) -> Result<Descriptors, NoMemory>
        ensures { IfOk result (λ d. d ≡ self.now) }
    {
        Ok(Descriptors {
            processes: Row::copies(alloc, &self.processes)?,
        })
    }
}
