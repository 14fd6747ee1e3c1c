//! The reasons why no configuration is made for a list of drivers, and the check of such a list.

ghost use Rattle.std.specs.Prelude.{◌≡◌, ◌≢◌, ◌↔◌, Any, IfErr, IsOk, IsTrue, Err, Some};
ghost use Rattle.smx_model.specs.DriverList.{IsDriverList};
ghost use Rattle.smx_config.specs.DriverFaults.{RefusesDrivers};
ghost use Rattle.smx_config.specs.FaultWords.{config_fault_words};
ghost use Rattle.smx_config.specs.declared.config_fault.ConfigFault.TheVariants as faults;

use smx_types::{DriverSpec, MAX_DRIVERS, Name, NoMemory, SpecFault};
use std::fmt;

/// The reason why no configuration was made for a list of drivers. Drivers are numbered from 0. The fault prints as
/// `driver 3 marks`, `driver 3 same name`, `too many drivers` or `no memory`.
#[derive(Clone, Copy, Debug, PartialEq, Eq)]
pub enum ConfigFault {
    /// The driver with this number is invalid.
    BadSpec(usize, SpecFault),
    /// The driver with this number has the name of an earlier one.
    SameName(usize),
    /// There are more than 128 drivers.
    TooMany,
    /// An allocation failed.
    NoMemory,
}

impl From<NoMemory> for ConfigFault {
    ghost from_gives = { λ _ e. e ≡ faults.NoMemory };

    fn from(_error: NoMemory) -> ConfigFault {
        ConfigFault::NoMemory
    }
}

impl fmt::Display for ConfigFault {
    ghost output = { λ fault. Some (config_fault_words fault) };

    fn fmt<W: fmt::Write>(&self, f: &mut fmt::Formatter<W>) -> fmt::Result {
        match self {
            ConfigFault::BadSpec(i, fault) => write!(f, "driver {i} {fault}"),
            ConfigFault::SameName(i) => write!(f, "driver {i} same name"),
            ConfigFault::TooMany => f.write_str("too many drivers"),
            ConfigFault::NoMemory => f.write_str("no memory"),
        }
    }
}

impl std::error::Error for ConfigFault {}

fn has_name(drivers: &[DriverSpec], name: &Name) -> bool
    ensures { IsTrue result ↔ Any (λ d. d.name ≡ name.now) drivers.now }
{
    drivers.iter().any(|d| d.name == *name)
}

// Checks whether a configuration can have these drivers. Fails with the reason if it can't. Takes no memory.
pub fn check_drivers(drivers: &[DriverSpec]) -> Result<(), ConfigFault>
    ensures accepted { IsOk result ↔ IsDriverList drivers.now }
    ensures refused { IfErr result (RefusesDrivers drivers.now) }
    ensures no_memory { result ≢ Err faults.NoMemory }
{
    if drivers.len() > MAX_DRIVERS {
        return Err(ConfigFault::TooMany);
    }
    for (i, driver) in drivers.iter().enumerate() {
        if let Err(fault) = driver.check() {
            return Err(ConfigFault::BadSpec(i, fault));
        }
        if has_name(&drivers[..i], &driver.name) {
            return Err(ConfigFault::SameName(i));
        }
    }
    Ok(())
}
