//! The table of streams.

ghost use Rattle.std.specs.Prelude.{◌≡◌, ℕ, ◌+◌, ◌-◌, ◌<◌, ◌≤◌, not, false, true, [], length, slice_index, Some, Ok};
ghost use Rattle.std.specs.Prelude.{Err, IfOk, IfErr, IfSome, IfNone, IsOk, OnOk, OnErr};
ghost use Rattle.smx_types.specs.declared.limits.TheConstants.{MAX_DESCRIPTORS, MAX_DRIVERS};
ghost use Rattle.smx_types.specs.declared.stream.StreamId.{StreamId};
ghost use Rattle.std.specs.Option.{option_map};
ghost use Rattle.std.specs.List.{All, list_all};
ghost use Rattle.smx_streams.specs.StreamTables.{number_at, is_in_range, exists, stream_at, is_last, least_fd};
ghost use Rattle.smx_streams.specs.StreamTables.{least_minor, numbered, clone_answer, minor_answer, dup_answer};
ghost use Rattle.smx_streams.specs.StreamTables.{IsRefused, HasOneMore, HasOneLess, HasNoneOf, HasHolds, HasHungUp};
ghost use Rattle.smx_streams.specs.StreamTables.{AreHungsSound};
ghost use Rattle.smx_model.specs.Hangups.{is_hung};

use crate::descriptors::Descriptors;
use crate::records::Records;
use crate::stream_fault::StreamFault;
use smx_types::{Descriptor, MAX_DESCRIPTORS, NoMemory, Process, StreamId};
use std::alloc::Global;
use std::marker::Model;

/// The result of closing a descriptor.
#[derive(Clone, Copy, Debug, PartialEq, Eq)]
pub struct Closed {
    /// The stream that the descriptor named.
    pub stream: StreamId,
    /// Whether the stream has no descriptor and no hold left.
    pub last: bool,
}

/// The descriptors of all processes, the number of holds of each stream, and the hung-up streams. A hold keeps a stream
/// in the table even if no descriptor names it. Contracts see the number of minors of each driver, the list of
/// descriptors, the holds, and the list of hung-up streams.
#[derive(Debug)]
pub struct Streams {
    alloc: Global,
    descriptors: Descriptors,
    records: Records,
}

impl Drop for Streams {
    // Written by hand, so that functions drop a table with one call, not part by part.
    fn drop(self) {
        let Streams {
            alloc: _alloc,
            descriptors: _descriptors,
            records: _records,
        } = self;
    }
}

impl Model for Streams {
    ghost use Rattle.smx_streams.specs.StreamTables.{StreamTable};

    ghost Value = { StreamTable };

    ghost use Rattle.smx_streams.specs.TableFields.{table_of, IsWhole};

    ghost view = { table_of };

    ghost invariant = { IsWhole };
}

impl Streams {
    /// Makes a table without streams. `minors` has the number of minors of each driver, from driver 0 on. The table
    /// keeps the allocator. Fails only if out of memory.
    pub fn new(alloc: Global, minors: &[u8]) -> Result<Streams, NoMemory>
        requires { length minors.now ≤ MAX_DRIVERS }
        ensures minors { IfOk result (λ t. t.minors ≡ minors.now) }
        ensures fds { IfOk result (λ t. t.fds ≡ []) }
        ensures holds { IfOk result (λ t. (s : StreamId) → number_at t.holds s ≡ 0) }
        ensures hungs { IfOk result (λ t. t.hungs ≡ []) }
    {
        Ok(Streams {
            alloc,
            descriptors: Descriptors::new(alloc)?,
            records: Records::new(alloc, minors)?,
        })
    }

    /// Returns whether the driver exists, and the minor is below the driver's number of minors.
    pub fn in_range(&self, driver: u8, minor: u32) -> bool
        ensures { result ≡ is_in_range self.now.minors driver minor }
    {
        match self.records.minors_of(driver) {
            Some(minors) => minor < u32::from(minors),
            None => false,
        }
    }

    /// Returns whether a descriptor names the stream, or the stream is held.
    pub fn exists(&self, stream: StreamId) -> bool
        ensures answer { result ≡ exists self.now stream }
        ensures sound { AreHungsSound self.now }
    {
        self.records.has(stream)
    }

    /// Returns whether each of these streams exists.
    pub fn has_each(&self, streams: &[StreamId]) -> bool
        ensures answer { result ≡ list_all (exists self.now) streams.now }
        ensures sound { AreHungsSound self.now }
    {
        self.records.has_each(streams)
    }

    /// Returns whether the stream is hung up.
    pub fn is_hung(&self, stream: StreamId) -> bool
        ensures { result ≡ is_hung self.now.hungs stream }
    {
        self.records.is_hung(stream)
    }

    /// Returns the hung-up streams, sorted by driver and minor. Fails only if out of memory.
    pub fn hungs(&self, alloc: Global) -> Result<Vec<StreamId>, NoMemory>
        ensures { IfOk result (λ v. v.items ≡ self.now.hungs) }
    {
        self.records.hungs(alloc)
    }

    /// Returns the number of holds of the stream.
    pub fn holds_of(&self, stream: StreamId) -> u32
        ensures number { result ≡ number_at self.now.holds stream }
        ensures sound { AreHungsSound self.now }
    {
        self.records.holds_of(stream)
    }

    /// Returns the stream of a descriptor of the process, if there is such a descriptor.
    pub fn stream_of(&self, process: Process, fd: u32) -> Option<StreamId>
        ensures { result ≡ stream_at self.now.fds process fd }
    {
        self.descriptors.stream_of(process, fd)
    }

    // Returns the lowest minor below `minors` whose stream doesn't exist.
    fn least_minor(&self, driver: u8, minors: u8) -> Option<u8>
        requires { minors ≡ slice_index self.now.minors driver }
        ensures { result ≡ least_minor self.now driver }
    {
        (0..minors).find(|minor| {
            let stream = StreamId {
                driver,
                minor: *minor,
            };
            !self.exists(stream)
        })
    }

    // Adds a descriptor of a stream. `fd` is the lowest free descriptor number of the process.
    #[inline(always)]
    fn open(&mut self, process: Process, fd: u32, stream: StreamId) -> Result<(), NoMemory>
        requires range { is_in_range self.old.minors stream.driver stream.minor ≡ true }
        requires free { least_fd self.old.fds process ≡ Some fd }
        ensures ok { OnOk result (HasOneMore self.old process fd stream self.new) }
        ensures err { OnErr result (self.new ≡ self.old) }
        ensures in_place { (n : ℕ) → stream_at self.old.fds process n ≡ Some stream → IsOk result }
    {
        self.descriptors.make_room(self.alloc, process)?;
        self.records.open(stream)?;
        self.descriptors.put(process, fd, stream);
        Ok(())
    }

    // Opens a stream as the lowest free descriptor of the process.
    #[inline(always)]
    fn give(&mut self, process: Process, stream: StreamId) -> Result<(u32, StreamId), StreamFault>
        requires range { is_in_range self.old.minors stream.driver stream.minor ≡ true }
        ensures ok { IfOk result (λ x.
            (numbered self.old process stream ≡ Ok x) × HasOneMore self.old process x.0 x.1 self.new) }
        ensures err { IfErr result (IsRefused (numbered self.old process stream)) }
        ensures unchanged { OnErr result (self.new ≡ self.old) }
        ensures in_place { (n : ℕ) → stream_at self.old.fds process n ≡ Some stream
            → IfErr result (λ f. numbered self.old process stream ≡ Err f) }
    {
        let Some(fd) = self.descriptors.least_free(process) else {
            return Err(StreamFault::TooManyDescriptors);
        };
        self.open(process, fd, stream)?;
        Ok((fd, stream))
    }

    /// Opens a new stream of the driver, as the lowest free descriptor of the process. The minor of the stream is the
    /// lowest one that has no stream yet. Fails with the first of these: there is no such driver; each minor of the
    /// driver has a stream; the process has 16 descriptors; an allocation fails. A failure changes nothing.
    pub fn open_clone(
        &mut self,
        process: Process,
        driver: u8,
    ) -> Result<(u32, StreamId), StreamFault>
        ensures ok { IfOk result (λ x.
            (clone_answer self.old process driver ≡ Ok x) × HasOneMore self.old process x.0 x.1 self.new) }
        ensures err { IfErr result (IsRefused (clone_answer self.old process driver)) }
        ensures unchanged { OnErr result (self.new ≡ self.old) }
    {
        let Some(minors) = self.records.minors_of(driver) else {
            return Err(StreamFault::NoDriver);
        };
        let Some(minor) = self.least_minor(driver, minors) else {
            return Err(StreamFault::NoMinor);
        };
        self.give(process, StreamId { driver, minor })
    }

    /// Opens the stream of a minor as the lowest free descriptor of the process, whether or not the stream exists
    /// already. Fails with the first of these: there is no such driver; the driver has no such minor; the process has
    /// 16 descriptors; an allocation fails. A failure changes nothing.
    pub fn open_minor(
        &mut self,
        process: Process,
        driver: u8,
        minor: u32,
    ) -> Result<(u32, StreamId), StreamFault>
        ensures ok { IfOk result (λ x.
            (minor_answer self.old process driver minor ≡ Ok x) × HasOneMore self.old process x.0 x.1 self.new) }
        ensures err { IfErr result (IsRefused (minor_answer self.old process driver minor)) }
        ensures unchanged { OnErr result (self.new ≡ self.old) }
    {
        let Some(minors) = self.records.minors_of(driver) else {
            return Err(StreamFault::NoDriver);
        };
        if minor >= u32::from(minors) {
            return Err(StreamFault::NoMinor);
        }
        let minor = minor as u8;
        self.give(process, StreamId { driver, minor })
    }

    /// Opens the stream of the descriptor `fd` once more, as the lowest free descriptor of the process. Fails with the
    /// first of these: the process has no descriptor `fd`; the process has 16 descriptors. Does not allocate.
    pub fn dup(&mut self, process: Process, fd: u32) -> Result<(u32, StreamId), StreamFault>
        ensures answer { result ≡ dup_answer self.old process fd }
        ensures ok { IfOk result (λ x. HasOneMore self.old process x.0 x.1 self.new) }
        ensures unchanged { OnErr result (self.new ≡ self.old) }
    {
        let Some(stream) = self.descriptors.stream_of(process, fd) else {
            return Err(StreamFault::BadDescriptor);
        };
        self.give(process, stream)
    }

    /// Returns whether the stream of the descriptor has no other descriptor and no hold. If so, the stream ceases to
    /// exist when the descriptor is closed.
    pub fn is_last(&self, process: Process, fd: u32) -> bool
        ensures { result ≡ is_last self.now process fd }
    {
        match self.descriptors.stream_of(process, fd) {
            Some(stream) => self.records.is_opened_once(stream),
            None => false,
        }
    }

    /// Closes this descriptor of the process and no other. Returns `None` if there is no such descriptor. Only the
    /// stream of the descriptor can cease to exist. Does not allocate.
    #[inline(always)]
    pub fn close_fd(&mut self, process: Process, fd: u32) -> Option<Closed>
        // The descriptor and the stream.
        ensures stream { option_map (λ c. c.stream) result ≡ stream_at self.old.fds process fd }
        ensures rest { HasOneLess self.old process fd self.new }
        ensures last { IfSome result (λ c. c.last ≡ not (exists self.new c.stream)) }
        ensures went { (s : StreamId) → exists self.old s ≡ true → exists self.new s ≡ false
            → stream_at self.old.fds process fd ≡ Some s }
        // The table: without the descriptor nothing changes, and two facts hold before each call.
        ensures unchanged { IfNone result (self.new ≡ self.old) }
        ensures sound { AreHungsSound self.old }
        ensures numbered { All (λ d. d.fd < MAX_DESCRIPTORS) self.old.fds }
    {
        let stream = self.descriptors.take(process, fd)?;
        self.records.close(stream);
        Some(Closed {
            stream,
            last: !self.exists(stream),
        })
    }

    /// Closes all descriptors of a process, and no others. Only streams that these descriptors name can cease to exist.
    /// Does not allocate.
    pub fn close_process(&mut self, process: Process)
        ensures rest { HasNoneOf self.old process self.new }
        ensures went { (s : StreamId) → exists self.old s ≡ true → exists self.new s ≡ false
            → (n : ℕ) × (n < MAX_DESCRIPTORS) × (stream_at self.old.fds process n ≡ Some s) }
    {
        for fd in 0..MAX_DESCRIPTORS {
            let _closed = self.close_fd(process, fd);
        }
    }

    /// Returns all descriptors, in the order of processes and numbers. Fails only if out of memory.
    pub fn fds(&self, alloc: Global) -> Result<Vec<Descriptor>, NoMemory>
        ensures { IfOk result (λ v. v.items ≡ self.now.fds) }
    {
        self.descriptors.list(alloc)
    }

    /// Counts one more hold of a stream that exists. Does not allocate.
    pub fn hold(&mut self, stream: StreamId)
        requires there { exists self.old stream ≡ true }
        requires few { number_at self.old.holds stream < 1024 }
        ensures rest { HasHolds self.old stream (number_at self.old.holds stream + 1) self.new }
        ensures hungs { self.new.hungs ≡ self.old.hungs }
    {
        self.records.hold(stream);
    }

    /// Counts one hold less of a stream that has a hold. Returns whether the stream then has no descriptor and no hold.
    /// Does not allocate.
    #[inline(always)]
    pub fn release(&mut self, stream: StreamId) -> bool
        requires { 0 < number_at self.old.holds stream }
        ensures answer { result ≡ not (exists self.new stream) }
        ensures rest { HasHolds self.old stream (number_at self.old.holds stream - 1) self.new }
        ensures sound { AreHungsSound self.old }
    {
        self.records.release(stream);
        !self.exists(stream)
    }

    /// Marks an existing stream as hung up. The mark stays as long as the stream exists. Does not allocate.
    pub fn hang(&mut self, stream: StreamId)
        requires { exists self.old stream ≡ true }
        ensures { HasHungUp self.old stream self.new }
    {
        self.records.hang(stream);
    }

    /// For proofs: gives the caller the properties of the hung-up streams. They are in order, and each exists. Does
    /// nothing when the program runs.
    pub fn is_sound(&self)
        ensures { AreHungsSound self.now }
    {
        let _records = &self.records;
    }

    /// Copies the table. The copy gets its memory from this allocator, and keeps the allocator.
    pub fn copy(&self, alloc: Global) -> Result<Streams, NoMemory>
        ensures { IfOk result (λ t. t ≡ self.now) }
    {
        Ok(Streams {
            alloc,
            descriptors: self.descriptors.copy(alloc)?,
            records: self.records.copy(alloc)?,
        })
    }
}
