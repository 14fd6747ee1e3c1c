//! Judges whether a history is legal, and whether a view shows the configuration at its end.

ghost use Rattle.std.specs.Prelude.{◌≡◌, IfOk, IfErr, IfNone, IfSome};
ghost use Rattle.smx_model.specs.Configuration.{empty};
ghost use Rattle.smx_model.specs.DriverList.{IsDriverList};
ghost use Rattle.smx_model.specs.Histories.{IsLegal, after};
ghost use Rattle.smx_model.specs.IllegalEntries.{IsFirstIllegal};
ghost use Rattle.smx_config.specs.DriverFaults.{RefusesDrivers};
ghost use Rattle.smx_config.specs.Verdicts.{IsVerdict};

use crate::config::Config;
use crate::config_fault::ConfigFault;
use smx_types::{ConfigView, DriverSpec, Entry, NoMemory, Same};
use std::alloc::Global;

/// The verdict on a history, and on a view that is said to show the configuration at its end.
#[derive(Clone, Copy, Debug, PartialEq, Eq)]
pub enum Verdict {
    /// Each reply is the one that the model gives its command, and the view shows the configuration after the last
    /// entry.
    Legal,
    /// The entry with this number, counted from 1, is the first whose reply is not the one that the model gives its
    /// command.
    Illegal { entry: usize },
    /// Each reply is the one that the model gives its command, but the view doesn't show the configuration after the
    /// last entry.
    ConfigDiffers,
}

// Performs the commands of the entries again, from the empty configuration on. Returns the number of the first entry
// whose reply differs from the new reply, if there is one. Numbers count from 1.
fn first_illegal(config: &mut Config, entries: &[Entry]) -> Result<Option<usize>, NoMemory>
    requires { config.old.configuration ≡ empty }
    ensures drivers { config.new.drivers ≡ config.old.drivers }
    ensures illegal { IfOk result (λ o. IfSome o (IsFirstIllegal config.old.drivers entries.now)) }
    ensures legal { IfOk result (λ o. IfNone o (IsLegal config.old.drivers entries.now)) }
    ensures after { IfOk result (λ o. IfNone o (config.new.configuration ≡ after config.old.drivers entries.now)) }
{
    for (i, entry) in entries.iter().enumerate() {
        let reply = config.step(entry.process, &entry.command)?;
        if !reply.is_same(&entry.reply) {
            return Ok(Some(i + 1));
        }
    }
    Ok(None)
}

/// Judges a history of any origin, and a view that is said to show the configuration at its end. Performs each command
/// again, from the empty configuration on, up to the first entry whose reply differs from the new reply. Fails if the
/// drivers are invalid, whatever the entries are, or if an allocation fails.
pub fn check_history(
    alloc: Global,
    drivers: &[DriverSpec],
    entries: &[Entry],
    shown: &ConfigView,
) -> Result<Verdict, ConfigFault>
    ensures drivers { IfOk result (λ _. IsDriverList drivers.now) }
    ensures verdict { IfOk result (IsVerdict drivers.now entries.now shown.now) }
    ensures refused { IfErr result (RefusesDrivers drivers.now) }
{
    let mut config = Config::new(alloc, drivers)?;
    if let Some(entry) = first_illegal(&mut config, entries)? {
        return Ok(Verdict::Illegal { entry });
    }
    if config.into_view()?.is_same(shown) {
        Ok(Verdict::Legal)
    } else {
        Ok(Verdict::ConfigDiffers)
    }
}
