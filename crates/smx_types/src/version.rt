//! The versions of the two texts (programs and transcripts), and the values that each version can express.

ghost use Rattle.std.specs.Prelude.{◌≡◌, ◌||◌};
ghost use Rattle.smx_types.specs.Versions.{are_more_drivers, most_drivers, version_2_where};

use crate::driver::DriverSpec;
use crate::limits::{MAX_DRIVERS, MAX_DRIVERS_OF_VERSION_1};

/// A version of the programs text and the transcript text. Version 2 adds hangups of devices, and allows more drivers.
#[derive(Clone, Copy, Debug, PartialEq, Eq)]
pub enum Version {
    /// Version 1, with at most 64 drivers.
    V1,
    /// Version 2, with at most 128 drivers.
    V2,
}

impl Version {
    /// Returns the maximum number of drivers in a text of this version. Does not allocate.
    pub fn max_drivers(&self) -> usize
        ensures { result ≡ most_drivers self.now }
    {
        match self {
            Version::V1 => MAX_DRIVERS_OF_VERSION_1,
            Version::V2 => MAX_DRIVERS,
        }
    }

    // Returns the earliest version that can express these drivers and, if `hangs` is true, a hangup.
    pub(crate) fn least(drivers: &[DriverSpec], hangs: bool) -> Version
        ensures { result ≡ version_2_where (are_more_drivers drivers.now || hangs) }
    {
        if drivers.len() > MAX_DRIVERS_OF_VERSION_1 || hangs {
            Version::V2
        } else {
            Version::V1
        }
    }
}
