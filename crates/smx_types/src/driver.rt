//! Driver specifications.

ghost use Rattle.std.specs.Prelude.{◌≡◌, Some};
ghost use Rattle.smx_types.specs.Drivers.{spec_check};
ghost use Rattle.smx_types.specs.FaultWords.{spec_fault_words};

use crate::items::Items;
use crate::limits::{MAX_HIGH, MAX_MESSAGE, MAX_MINORS};
use crate::name::Name;
use std::fmt;

/// Whether streams can be linked below a driver.
#[derive(Clone, Copy, Debug, PartialEq, Eq)]
pub enum DriverKind {
    /// A device driver: no stream can be linked below it.
    Leaf,
    /// A multiplexing driver.
    Mux,
}

/// A driver as a programs text (the input of a run) specifies it. `check` tests whether the specification is valid.
#[derive(Clone, Copy, Debug, PartialEq, Eq)]
pub struct DriverSpec {
    pub name: Name,
    pub kind: DriverKind,
    /// The number of its minors, 1 to 64. Minors are numbered from 0.
    pub minors: u32,
    /// The high water mark of each of its queues, in bytes: above `low`, at most 4,096. A queue becomes full when a
    /// message arrives and the bytes of the queue then reach this mark (Programmer's Guide: STREAMS, flow control).
    pub high: u32,
    /// The low water mark of each of its queues, in bytes: below `high`. A full queue stops being full when a message
    /// leaves and the bytes that are left in the queue are no more than this mark.
    pub low: u32,
    /// The maximum number of bytes of a message that is written or injected to a stream of the driver, 1 to 1,024 (the
    /// driver's maximum packet size).
    pub max: u32,
}

/// The fault of an invalid driver specification.
#[derive(Clone, Copy, Debug, PartialEq, Eq)]
pub enum SpecFault {
    /// The minors are not 1 to 64.
    BadMinors,
    /// The high water mark is above 4,096, or the low one is not below the high one.
    BadMarks,
    /// The longest message is not 1 to 1,024 bytes.
    BadMax,
}

/// Drivers in order. The drivers of a list are numbered from 0.
pub type Drivers = Items<DriverSpec>;

impl DriverSpec {
    /// Fails with the first fault in the order of `SpecFault`, if there is one. Does not allocate.
    pub fn check(&self) -> Result<(), SpecFault>
        ensures { result ≡ spec_check self.now }
    {
        if self.minors < 1 || self.minors > MAX_MINORS {
            return Err(SpecFault::BadMinors);
        }
        if self.high > MAX_HIGH || self.low >= self.high {
            return Err(SpecFault::BadMarks);
        }
        if self.max < 1 || self.max > MAX_MESSAGE {
            return Err(SpecFault::BadMax);
        }
        Ok(())
    }
}

impl fmt::Display for SpecFault {
    ghost output = { λ fault. Some (spec_fault_words fault) };

    fn fmt<W: fmt::Write>(&self, f: &mut fmt::Formatter<W>) -> fmt::Result {
        match self {
            SpecFault::BadMinors => f.write_str("minors"),
            SpecFault::BadMarks => f.write_str("marks"),
            SpecFault::BadMax => f.write_str("max"),
        }
    }
}

impl std::error::Error for SpecFault {}
