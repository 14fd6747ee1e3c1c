//! The limits of a configuration, all specific to this project.

ghost use Rattle.std.specs.Prelude.{◌≡◌};
ghost use Rattle.smx_types.specs.declared.limits.TheConstants.{MAX_DRIVERS, MAX_DRIVERS_OF_VERSION_1, MAX_MINORS};
ghost use Rattle.smx_types.specs.declared.limits.TheConstants.{MAX_HIGH, MAX_MESSAGE, MAX_PROCESSES, MAX_DESCRIPTORS};
ghost use Rattle.smx_types.specs.declared.limits.TheConstants.{MAX_LINKS, NUMBER_END, MAX_COMMANDS};

/// The maximum number of drivers of a configuration.
pub const MAX_DRIVERS: usize = 128;

/// The maximum number of drivers in a text of version 1.
pub const MAX_DRIVERS_OF_VERSION_1: usize = 64;

/// The maximum number of minors of a driver. A driver has at most one stream for each minor.
pub const MAX_MINORS: u32 = 64;

/// The maximum value of a queue's high water mark, in bytes.
pub const MAX_HIGH: u32 = 4096;

/// The maximum value of `DriverSpec::max` (the length of the longest message that a driver allows), in bytes.
pub const MAX_MESSAGE: u32 = 1024;

/// The maximum number of processes. Processes are numbered from 0.
pub const MAX_PROCESSES: u32 = 64;

/// The maximum number of open descriptors of a process. The descriptors of a process are numbered from 0.
pub const MAX_DESCRIPTORS: u32 = 16;

/// The maximum number of links at one time.
pub const MAX_LINKS: usize = 1024;

/// The end of ids and serials: every link's id and every message's serial is below it.
pub const NUMBER_END: u32 = 4_294_967_295;

/// The maximum number of commands in the programs of all processes together.
pub const MAX_COMMANDS: usize = 100_000;

/// A law: the limits are these numbers. Contracts and code use the names above. So without this law, a wrong number
/// would be wrong in both.
pub fn the_limits_are_these()
    ensures drivers { (MAX_DRIVERS ≡ 128) × (MAX_DRIVERS_OF_VERSION_1 ≡ 64) × (MAX_MINORS ≡ 64) }
    ensures queues { (MAX_HIGH ≡ 4096) × (MAX_MESSAGE ≡ 1024) }
    ensures processes { (MAX_PROCESSES ≡ 64) × (MAX_DESCRIPTORS ≡ 16) × (MAX_COMMANDS ≡ 100000) }
    ensures links { (MAX_LINKS ≡ 1024) × (NUMBER_END ≡ 4294967295) }
{}
