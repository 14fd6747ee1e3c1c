//! Processes, streams with their sides, and the descriptors by which processes name streams.

ghost use Rattle.std.specs.Prelude.{◌≡◌, ◌<◌, ◌↔◌, ℕ, IsSome, IfSome};
ghost use Rattle.smx_types.specs.declared.limits.TheConstants.{MAX_PROCESSES};

use crate::limits::MAX_PROCESSES;
use std::marker::Model;

/// A process, identified by its number from 0 to 63. Contracts see the number.
#[derive(Clone, Copy, Debug, PartialEq, Eq, PartialOrd, Ord)]
pub struct Process {
    number: u32,
}

impl Model for Process {
    ghost Value = { ℕ };

    ghost view = { λ p. p.number };

    ghost invariant = { λ p. p.number < MAX_PROCESSES };

    ghost inverse = { λ n. record { number = n } };
}

impl Process {
    /// Returns the process with this number. Returns `None` exactly if the number is 64 or more. Does not allocate.
    pub fn new(number: u32) -> Option<Process>
        ensures valid { IsSome result ↔ (number < MAX_PROCESSES) }
        ensures value { IfSome result (λ p. p ≡ number) }
    {
        if number < MAX_PROCESSES {
            Some(Process { number })
        } else {
            None
        }
    }

    /// Returns the number of the process. Does not allocate.
    pub fn get(&self) -> u32
        ensures value { result ≡ self.now }
        ensures range { self.now < MAX_PROCESSES }
    {
        self.number
    }
}

/// A stream, identified by its driver's number and its minor. In every configuration the number of the driver is 0 to
/// 127, and the minor is 0 to 63.
#[derive(Clone, Copy, Debug, PartialEq, Eq)]
pub struct StreamId {
    pub driver: u8,
    pub minor: u8,
}

/// One of the two sides that each stream has.
#[derive(Clone, Copy, Debug, PartialEq, Eq)]
pub enum Side {
    /// The side on which messages go down: processes write them, and they leave towards the device.
    Write,
    /// The side on which messages come up: they arrive from the device, and processes read them.
    Read,
}

/// A place: a stream, and one of its two sides. Each place has one queue of messages.
#[derive(Clone, Copy, Debug, PartialEq, Eq)]
pub struct Place {
    pub stream: StreamId,
    pub side: Side,
}

/// An open descriptor of a process, numbered from 0 to 15, and the stream that it names.
#[derive(Clone, Copy, Debug, PartialEq, Eq)]
pub struct Descriptor {
    pub process: Process,
    pub fd: u32,
    pub stream: StreamId,
}
