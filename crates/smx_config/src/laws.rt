//! Laws of refused drivers, of commands that take no memory, and of verdicts. A law is a theorem: the contract of a
//! function that does nothing.

ghost use Rattle.std.specs.Prelude.{◌≡◌, ℕ, true, List, [], ◌∷◌, replicate};
ghost use Rattle.smx_types.specs.ProgramLists.{ProgramLists};
ghost use Rattle.smx_types.specs.declared.command.Command.TheVariants as command;
ghost use Rattle.smx_types.specs.declared.command.Entry.{Entry};
ghost use Rattle.smx_types.specs.declared.driver.DriverSpec.{DriverSpec};
ghost use Rattle.smx_types.specs.declared.driver.SpecFault.TheVariants.{BadMinors, BadMarks, BadMax};
ghost use Rattle.smx_types.specs.declared.transcript.Transcript.{Transcript};
ghost use Rattle.smx_types.specs.declared.view.ConfigView.{ConfigView};
ghost use Rattle.smx_model.specs.Headline.{IsReportOf};
ghost use Rattle.smx_model.specs.Worked.SecondIsIllegal.{drivers, history};
ghost use Rattle.smx_model.specs.Worked.Common.{ip, mux};
ghost use Rattle.smx_tables.specs.Machine.{takes_no_memory};
ghost use Rattle.smx_config.specs.DriverFaults.{RefusesDrivers};
ghost use Rattle.smx_config.specs.Verdicts.{IsVerdict};
ghost use Rattle.smx_config.specs.WorkedDrivers.{with_numbers};
ghost use Rattle.smx_config.specs.declared.config_fault.ConfigFault.{ConfigFault};
ghost use Rattle.smx_config.specs.declared.config_fault.ConfigFault.TheVariants.{BadSpec, SameName, TooMany};
ghost use Rattle.smx_config.specs.declared.verdict.Verdict.TheVariants.{Legal, Illegal, ConfigDiffers};
ghost use Rattle.smx_config.specs.declared.verdict.Verdict.{Verdict};

use smx_model::laws::{legal_or_first_illegal, the_second_is_the_first_illegal};

/// A list of drivers has at most one fault. If a configuration can have the list, its only possible fault is that an
/// allocation failed.
pub fn drivers_have_one_fault()
    ensures { (drivers : List DriverSpec) (f g : ConfigFault)
        → RefusesDrivers drivers f → RefusesDrivers drivers g → f ≡ g }
{}

/// Examples of lists with several faults. Too many drivers are reported first. Otherwise the first wrong driver counts.
/// Its numbers come before its name: its minors, then its water marks, then its longest message.
pub fn the_first_fault_counts()
    ensures number { RefusesDrivers (replicate 129 (with_numbers 0 8 8 0)) TooMany }
    ensures minors { RefusesDrivers (with_numbers 0 8 8 0 ∷ []) (BadSpec 0 BadMinors) }
    ensures marks { RefusesDrivers (with_numbers 2 8 8 0 ∷ []) (BadSpec 0 BadMarks) }
    ensures longest { RefusesDrivers (mux ip 4 ∷ with_numbers 2 8 3 0 ∷ []) (BadSpec 1 BadMax) }
    ensures name { RefusesDrivers (mux ip 4 ∷ with_numbers 2 8 3 16 ∷ with_numbers 0 8 8 0 ∷ []) (SameName 1) }
{}

/// The commands `dup`, `unbind`, `unroute`, `read`, `transmit` and `hangup` take no memory.
pub fn six_commands_take_no_memory()
    ensures dup { (fd : ℕ) → takes_no_memory (command.Dup fd) ≡ true }
    ensures unbind { (fd : ℕ) → takes_no_memory (command.Unbind fd) ≡ true }
    ensures unroute { (fd addr : ℕ) → takes_no_memory (command.Unroute fd addr) ≡ true }
    ensures read { (fd : ℕ) → takes_no_memory (command.Read fd) ≡ true }
    ensures transmit { (name : List ℕ) (minor : ℕ) → takes_no_memory (command.Transmit name minor) ≡ true }
    ensures hangup { (name : List ℕ) (minor : ℕ) → takes_no_memory (command.Hangup name minor) ≡ true }
{}

/// For each history and view there is exactly one verdict.
pub fn there_is_one_verdict()
    ensures always { (drivers : List DriverSpec) (entries : List Entry) (shown : ConfigView)
        → (v : Verdict) × IsVerdict drivers entries shown v }
    ensures one { (drivers : List DriverSpec) (entries : List Entry) (shown : ConfigView) (v w : Verdict)
        → IsVerdict drivers entries shown v → IsVerdict drivers entries shown w → v ≡ w }
{
    legal_or_first_illegal();
}

/// Each report of a run of programs has the verdict `Legal`.
pub fn reports_are_judged_legal()
    ensures { (programs : ProgramLists) (report : Transcript) → IsReportOf programs report
        → IsVerdict report.drivers report.entries report.view Legal }
{}

/// In the worked history (an example), the second entry is the first illegal one. With any view, its verdict is
/// `Illegal 2`, and neither `Legal` nor `ConfigDiffers`.
pub fn the_second_is_judged_illegal()
    ensures second { (shown : ConfigView) → IsVerdict drivers history shown (Illegal 2) }
    ensures not_legal { (shown : ConfigView) → IsVerdict drivers history shown Legal → ⊥ }
    ensures not_differing { (shown : ConfigView) → IsVerdict drivers history shown ConfigDiffers → ⊥ }
{
    legal_or_first_illegal();
    the_second_is_the_first_illegal();
}
