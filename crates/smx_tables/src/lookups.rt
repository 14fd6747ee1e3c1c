//! Look-ups of the drivers and streams that a command names, and the refusals for those that don't exist or can't be
//! used.

ghost use Rattle.std.specs.Prelude.{◌≡◌, ◌<◌, length, IfOk};
ghost use Rattle.smx_model.specs.KeptConfigurations.{IsSound};
ghost use Rattle.smx_model.specs.DriverList.{minors_of};
ghost use Rattle.smx_model.specs.Lookups.{driver_of, leaf_stream, live_leaf, free_stream, live_stream, mux_stream};
ghost use Rattle.smx_model.specs.Lookups.{stream_of};
ghost use Rattle.smx_model.specs.KnownStreams.{IsKnown};
ghost use Rattle.smx_model.specs.Standing.{exists};
ghost use Rattle.smx_tables.specs.MessageStreams.{message_stream};

use crate::properties::{driver_of, is_mux};
use crate::step_error::refuse;
use crate::tables::Tables;
use smx_types::{Command, Fault, Name, Process, StreamId};

impl Tables {
    // Returns the number of the driver with this name.
    pub(crate) fn driver_of(&self, name: &Name) -> Result<u8, Fault>
        ensures found { result ≡ driver_of self.now.drivers name.now }
        ensures in_range { IfOk result (λ n. n < length self.now.drivers) }
    {
        Ok(driver_of(&self.drivers, name)? as u8)
    }

    /// Returns the number of minors of the driver, or 0 if there is no such driver. Does not allocate.
    pub fn minors_of(&self, driver: u8) -> u8
        ensures { result ≡ minors_of self.now.drivers driver }
    {
        match self.drivers.get(driver as usize) {
            Some(d) => d.minors as u8,
            None => 0,
        }
    }

    /// Returns the stream of a descriptor of the process. Fails if there is no such descriptor. Does not allocate.
    pub fn stream_of(&self, process: Process, fd: u32) -> Result<StreamId, Fault>
        ensures { result ≡ stream_of self.now.configuration process fd }
    {
        match self.lists.streams.stream_of(process, fd) {
            Some(stream) => Ok(stream),
            None => Err(Fault::BadDescriptor),
        }
    }

    pub(crate) fn free_stream(&self, process: Process, fd: u32) -> Result<StreamId, Fault>
        ensures { result ≡ free_stream self.now.configuration process fd }
    {
        let stream = self.stream_of(process, fd)?;
        refuse(Fault::Below, self.lists.links.is_below(stream))?;
        Ok(stream)
    }

    /// Returns the stream of a descriptor. Fails with the first refusal that applies: there is no such descriptor; the
    /// stream is below a link; the stream's device has hung up. Does not allocate.
    pub fn live_stream(&self, process: Process, fd: u32) -> Result<StreamId, Fault>
        ensures { result ≡ live_stream self.now.configuration process fd }
    {
        let free = self.free_stream(process, fd)?;
        refuse(Fault::HungUp, self.lists.streams.is_hung(free))?;
        Ok(free)
    }

    /// Returns the stream of a descriptor. Fails with the first refusal that applies: there is no such descriptor; the
    /// stream is below a link; the stream's driver is not a multiplexer. Does not allocate.
    pub fn mux_stream(&self, process: Process, fd: u32) -> Result<StreamId, Fault>
        ensures { result ≡ mux_stream self.now.drivers self.now.configuration process fd }
    {
        let stream = self.free_stream(process, fd)?;
        refuse(
            Fault::NotMux,
            !is_mux(&self.drivers, stream.driver as usize),
        )?;
        Ok(stream)
    }

    // Returns whether the stream exists. Looks only at the table of streams.
    fn exists(&self, stream: StreamId) -> bool
        requires { IsSound self.now.drivers self.now.configuration }
        ensures { result ≡ exists self.now.drivers self.now.configuration stream }
    {
        self.lists.streams.exists(stream)
    }

    pub(crate) fn leaf_stream(&self, name: &Name, minor: u32) -> Result<StreamId, Fault>
        requires { IsSound self.now.drivers self.now.configuration }
        ensures { result ≡ leaf_stream self.now.drivers self.now.configuration name.now minor }
    {
        let driver = self.driver_of(name)?;
        refuse(Fault::NoDriver, is_mux(&self.drivers, driver as usize))?;
        if minor >= u32::from(self.minors_of(driver)) {
            return Err(Fault::NoMinor);
        }
        let stream = StreamId {
            driver,
            minor: minor as u8,
        };
        refuse(Fault::NoMinor, !self.exists(stream))?;
        Ok(stream)
    }

    // Returns the stream that `leaf_stream` returns. Also fails if the device of this stream has hung up.
    pub(crate) fn live_leaf(&self, name: &Name, minor: u32) -> Result<StreamId, Fault>
        requires { IsSound self.now.drivers self.now.configuration }
        ensures { result ≡ live_leaf self.now.drivers self.now.configuration name.now minor }
    {
        let leaf = self.leaf_stream(name, minor)?;
        refuse(Fault::HungUp, self.lists.streams.is_hung(leaf))?;
        Ok(leaf)
    }

    /// Returns the stream at which a `write`, `read`, `inject` or `transmit` sends or takes a message. Fails with the
    /// refusal if there is no such stream. For all other commands, fails with `BadDescriptor`. Does not allocate.
    pub fn message_stream(&self, process: Process, command: &Command) -> Result<StreamId, Fault>
        requires { IsSound self.now.drivers self.now.configuration }
        ensures value { result ≡ message_stream self.now.drivers self.now.configuration process command.now }
        ensures known { IfOk result (IsKnown self.now.drivers) }
    {
        match command {
            Command::Write { fd, .. } => self.live_stream(process, *fd),
            Command::Read { fd } => self.free_stream(process, *fd),
            Command::Inject { driver, minor, .. } | Command::Transmit { driver, minor } => {
                self.live_leaf(driver, *minor)
            }
            Command::OpenClone { .. }
            | Command::OpenMinor { .. }
            | Command::Dup { .. }
            | Command::Close { .. }
            | Command::CloseAll
            | Command::Link { .. }
            | Command::Plink { .. }
            | Command::Unlink { .. }
            | Command::Punlink { .. }
            | Command::Bind { .. }
            | Command::Unbind { .. }
            | Command::Route { .. }
            | Command::Unroute { .. }
            | Command::Flush { .. }
            | Command::Hangup { .. } => Err(Fault::BadDescriptor),
        }
    }
}
