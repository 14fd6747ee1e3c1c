//! A run: some workers perform the programs of all processes.

ghost use Rattle.std.specs.Prelude.{◌≡◌, ◌≤◌, ◌<◌, ◌⊎◌, [], length, map, IfOk, IfErr, OnOk, OnErr, IsErrOf};
ghost use Rattle.std.specs.List.{sum_by};
ghost use Rattle.smx_model.specs.Headline.{IsReportOf};
ghost use Rattle.smx_model.specs.Histories.{call_of};
ghost use Rattle.smx_types.specs.declared.limits.TheConstants.{MAX_COMMANDS, MAX_PROCESSES};
ghost use Rattle.smx_shared.specs.Recorded.{IsSoundSystem};
ghost use Rattle.smx_shared.specs.declared.shared_fault.ApplyFault.TheVariants as apply;
ghost use Rattle.smx_run.specs.Alone.{PerformedAlone, StopsAmong};
ghost use Rattle.smx_run.specs.Fronts.{AreFrontsFrom};
ghost use Rattle.smx_run.specs.ProgramOrder.{calls_from, BeginsCalls};
ghost use Rattle.smx_run.specs.Reports.{transcript_in, transcript_of};
ghost use Rattle.smx_run.specs.RunFaults.{RefusesAlone, RefusesRun};
ghost use Rattle.smx_run.specs.declared.run.TheConstants.{MAX_WORKERS};

use crate::gathering::{Report, report_of};
use crate::run_fault::RunFault;
use crate::threads::run_together;
use crate::worker::Gate;
use smx_config::Config;
use smx_shared::{ApplyFault, EntrySink, Front, Fronts, System};
use smx_types::{Commands, MAX_COMMANDS, Process, ProgramList, Programs};
use std::alloc::Global;
use std::sync::Wait;
use std::thread::Threads;

/// The largest number of workers of a run.
pub const MAX_WORKERS: usize = 64;

/// Runs the programs on `workers` workers, 1 to 64, and reports the one history that they make. Worker `p` modulo
/// `workers` runs process `p`. A worker runs its processes by rising number, each to its end, and calls the gate for
/// each command. A run on one worker, or of one process, starts no thread. The report has the front that was seen after
/// each program had ended.
///
/// If the drivers are invalid, fails before any command is performed. If an allocation fails, fails with `NoMemory`. On
/// several workers it may also fail because a worker's thread can't be started, or because the history is full. If
/// several workers fail, the run reports the fault that comes first in this list: out of memory, a thread that can't be
/// started, a full history.
pub fn run_programs<R: Threads + Wait + Sync, G: Gate + Sync>(
    rt: &R,
    alloc: Global,
    programs: Programs,
    workers: usize,
    gate: &G,
) -> Result<Report, RunFault>
    requires { (1 ≤ workers) × (workers ≤ MAX_WORKERS) }
    ensures report { IfOk result (λ r. IsReportOf programs (transcript_of programs.version r)) }
    ensures few { IfOk result (λ r. length r.entries ≤ MAX_COMMANDS) }
    ensures fronts { IfOk result (λ r. AreFrontsFrom r.drivers r.entries 0 programs.programs r.fronts) }
    ensures refused { IfErr result (RefusesRun programs.drivers) }
    ensures alone { (workers ≤ 1) ⊎ (length programs.programs ≤ 1) → IfErr result (RefusesAlone programs.drivers) }
    ensures in_turn { (workers ≤ 1) ⊎ (length programs.programs ≤ 1)
        → IfOk result (λ r. map call_of r.entries ≡ calls_from 0 programs.programs) }
{
    let (system, fronts) = run_system(rt, alloc, programs, Vec::new(alloc), workers, gate)?;
    Ok(report_of(alloc, system, fronts)?)
}

/// Runs the programs as `run_programs` does, on a new system whose entries go to `sink`. Returns the system after all
/// commands, and for each program the front that was seen after the program had ended. A run on one worker, or of one
/// process, is a loop on this thread.
pub fn run_system<R: Threads + Wait + Sync, K: EntrySink + Send, G: Gate + Sync>(
    rt: &R,
    alloc: Global,
    programs: Programs,
    sink: K,
    workers: usize,
    gate: &G,
) -> Result<(System<K>, Fronts), RunFault>
    requires sink { K.entries sink ≡ [] }
    requires workers { (1 ≤ workers) × (workers ≤ MAX_WORKERS) }
    ensures report { IfOk result (λ r. IsReportOf programs (transcript_in programs.version r.0)) }
    ensures few { IfOk result (λ r. length r.0.history ≤ MAX_COMMANDS) }
    ensures fronts { IfOk result (λ r. AreFrontsFrom r.0.drivers r.0.history 0 programs.programs r.1) }
    ensures refused { IfErr result (RefusesRun programs.drivers) }
    ensures alone { (workers ≤ 1) ⊎ (length programs.programs ≤ 1) → IfErr result (RefusesAlone programs.drivers) }
    ensures in_turn { (workers ≤ 1) ⊎ (length programs.programs ≤ 1)
        → IfOk result (λ r. map call_of r.0.history ≡ calls_from 0 programs.programs) }
{
    let (drivers, programs) = programs.into_parts();
    let config = Config::new(alloc, drivers.as_slice())?;
    let mut system = System::begin(alloc, config, MAX_COMMANDS, sink);
    let workers = workers.min(programs.as_slice().len());
    if workers < 2 {
        let fronts = run_alone(alloc, &mut system, programs, gate)?;
        return Ok((system, fronts));
    }
    Ok(run_together(rt, alloc, system, programs, workers, gate)?)
}

// Runs one program after the other on this thread, and takes the front after each program. The limit allows all
// commands, so the only fault is out of memory. After a fault, performs no more commands.
fn run_alone<K: EntrySink, G: Gate>(
    alloc: Global,
    system: &mut System<K>,
    programs: ProgramList,
    gate: &G,
) -> Result<Fronts, ApplyFault>
    requires empty { system.old.history ≡ [] }
    requires sound { IsSoundSystem system.old }
    requires processes { length programs ≤ MAX_PROCESSES }
    requires room { sum_by length programs ≤ system.old.limit }
    ensures drivers { OnOk result (system.new.drivers ≡ system.old.drivers) }
    ensures calls { OnOk result (map call_of system.new.history ≡ calls_from 0 programs) }
    ensures fronts { IfOk result (AreFrontsFrom system.new.drivers system.new.history 0 programs) }
    ensures sound { OnOk result (IsSoundSystem system.new) }
    ensures stops { OnErr result (BeginsCalls (map call_of system.new.history) 0 programs) }
    ensures refused { IfErr result (λ f. f ≡ apply.NoMemory) }
{
    let mut fronts = Vec::with_capacity(alloc, programs.as_slice().len())?;
    let mut number = 0;
    for commands in programs.into_vec() {
        perform_all(system, Process::new(number).unwrap(), commands, gate)?;
        fronts.push_reserved(Front {
            entries: system.count() as u32,
            links: system.config().link_count(),
            held: false,
        });
        number += 1;
    }
    Ok(Fronts::from_vec(fronts))
}

// Performs the commands of this process, in order, up to the first fault. Calls the gate before and after each command.
fn perform_all<K: EntrySink, G: Gate>(
    system: &mut System<K>,
    process: Process,
    commands: Commands,
    gate: &G,
) -> Result<(), ApplyFault>
    ensures performed { OnOk result (PerformedAlone process system.old commands system.new) }
    ensures stops { OnErr result (StopsAmong (PerformedAlone process) system.old commands system.new) }
    ensures full { IsErrOf result apply.HistoryFull → length system.new.history ≡ system.new.limit }
    ensures sound { IsSoundSystem system.old → IsSoundSystem system.new }
{
    let mut number = 0;
    for command in commands.into_vec() {
        let mut command = command;
        gate.before(process, number);
        let outcome = system.perform(process, &mut command);
        gate.after(process, number);
        outcome?;
        number += 1;
    }
    Ok(())
}
