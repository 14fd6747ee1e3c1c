//! The reasons for not opening a descriptor.

ghost use Rattle.std.specs.Prelude.{◌≡◌};
ghost use Rattle.smx_streams.specs.declared.stream_fault.StreamFault.TheVariants as fault;

use smx_types::NoMemory;

/// The reason why no descriptor was opened.
#[derive(Clone, Copy, Debug, PartialEq, Eq)]
pub enum StreamFault {
    /// The process does not have this descriptor.
    BadDescriptor,
    /// There is no such driver.
    NoDriver,
    /// The driver has no such minor, or all of its minors are in use.
    NoMinor,
    /// The process has 16 descriptors.
    TooManyDescriptors,
    /// An allocation failed.
    NoMemory,
}

impl From<NoMemory> for StreamFault {
    ghost from_gives = { λ _ e. e ≡ fault.NoMemory };

    fn from(_e: NoMemory) -> StreamFault {
        StreamFault::NoMemory
    }
}
