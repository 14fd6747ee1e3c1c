//! The report of a system, and how it is made if the history of the system agrees with the transcripts of its callers.
//! Here the transcript of a process is not a text: it is the list of entries that the caller of this process has kept.

ghost use Rattle.std.specs.Prelude.{◌≡◌, ◌≤◌, ◌<◌, ◌↔◌, ℕ, List, [], ◌∷◌, ◌++◌, All, length, slice_index_or};
ghost use Rattle.std.specs.Prelude.{IsTrue, IfOk, IfSome, IfNone, Err};
ghost use Rattle.smx_types.specs.declared.limits.TheConstants.{MAX_PROCESSES};
ghost use Rattle.smx_types.specs.declared.command.Entry.{Entry as Made};
ghost use Rattle.smx_shared.specs.Seats.{entries_of};
ghost use Rattle.smx_run.specs.Gathering.{IsBorneOut, IsLeastStrange, IsMet};
ghost use Rattle.smx_run.specs.declared.run_fault.GatherFault.TheVariants as gathered;
ghost use Rattle.smx_run.specs.Reports.{Reports, transcript_of};

use crate::run_fault::GatherFault;
use smx_shared::{Fronts, System};
use smx_types::{
    ConfigView, Copied, DriverSpec, Drivers, Entries, Entry, MAX_PROCESSES, NoMemory, Process,
    Same, Transcript, Version,
};
use std::alloc::Global;

/// The drivers of a run, its history, and the configuration at its end.
#[derive(Debug, Drop, PartialEq)]
pub struct Report {
    pub drivers: Drivers,
    pub entries: Entries,
    pub view: ConfigView,
    /// For each process, the front (the numbers of entries and links) that was seen after its program had ended. A run
    /// fills this list; `gather` leaves it empty.
    pub fronts: Fronts,
}

impl Report {
    /// Returns a copy of the report. Fails only if it is out of memory.
    pub fn copy(&self, alloc: Global) -> Result<Report, NoMemory>
        ensures { IfOk result (λ c. c ≡ self.now) }
    {
        Ok(Report {
            drivers: self.drivers.copy(alloc)?,
            entries: self.entries.copy(alloc)?,
            view: self.view.copy(alloc)?,
            fronts: self.fronts.copy(alloc)?,
        })
    }

    /// Returns the transcript of the report, for a text of this version: everything except the fronts. Takes no memory.
    pub fn into_transcript(self, version: Version) -> Transcript
        ensures { result ≡ transcript_of version self }
    {
        Transcript {
            version,
            drivers: self.drivers,
            entries: self.entries,
            view: self.view,
        }
    }
}

/// Makes a report of a system, if the transcript of each process (the list of entries that its caller has kept) equals
/// the entries of that process in the history. If the number of a process is not below `transcripts.len()`, its
/// transcript is empty. Fails with `Strange` for the lowest process whose transcript differs. If no transcript differs,
/// fails only if out of memory.
pub fn gather(alloc: Global, system: System, transcripts: &[Entries]) -> Result<Report, GatherFault>
    requires { length transcripts.now ≤ MAX_PROCESSES }
    ensures report { IfOk result (Reports system) }
    ensures fronts { IfOk result (λ r. r.fronts ≡ []) }
    ensures borne_out { IfOk result (λ _. (p : ℕ) → IsBorneOut system.history transcripts.now p) }
    ensures strange { (p : ℕ) → (result ≡ Err (gathered.Strange p)) ↔ IsLeastStrange system.history transcripts.now p }
{
    if let Some(process) = find_strange(system.entries(), transcripts) {
        return Err(GatherFault::Strange(process));
    }
    report_of(alloc, system, Fronts::new(alloc)).or(Err(GatherFault::NoMemory))
}

/// Makes a report of a system, with these fronts. Fails only if it is out of memory.
pub fn report_of(alloc: Global, system: System, fronts: Fronts) -> Result<Report, NoMemory>
    ensures report { IfOk result (Reports system) }
    ensures fronts { IfOk result (λ r. r.fronts ≡ fronts) }
{
    let (entries, config) = system.into_parts();
    let drivers = DriverSpec::copies(alloc, config.drivers())?;
    let view = config.into_view()?;
    Ok(Report {
        drivers: Drivers::from_vec(drivers),
        entries: Entries::from_vec(entries),
        view,
        fronts,
    })
}

// Returns the lowest process whose entries in the history are not its transcript, if there is one.
fn find_strange(history: &[Entry], transcripts: &[Entries]) -> Option<Process>
    requires { length transcripts.now ≤ MAX_PROCESSES }
    ensures strange { IfSome result (IsLeastStrange history.now transcripts.now) }
    ensures none { IfNone result ((p : ℕ) → IsBorneOut history.now transcripts.now p) }
{
    for number in 0..MAX_PROCESSES {
        if !is_borne_out(history, number, transcript_at(transcripts, number as usize)) {
            return Process::new(number);
        }
    }
    None
}

// Returns whether the entries of process `number` in the history are this transcript.
fn is_borne_out(history: &[Entry], number: u32, transcript: &[Entry]) -> bool
    ensures whole { IsTrue result ↔ (entries_of number history.now ≡ transcript.now) }
    ensures processes { All (λ e. e.process < MAX_PROCESSES) history.now }
{
    let mut met = Some(0);
    for entry in history {
        if entry.process.get() == number {
            met = meet(met, transcript, entry);
        }
    }
    met == Some(transcript.len())
}

// Returns the number of entries of a process after its next entry, `entry`; or `None`, if these entries are not a
// beginning of its transcript.
fn meet(met: Option<usize>, transcript: &[Entry], entry: &Entry) -> Option<usize>
    ensures { (own : List Made) → IsMet transcript.now own met → IsMet transcript.now (own ++ entry.now ∷ []) result }
{
    let count = met?;
    let next = transcript.get(count)?;
    if next.is_same(entry) {
        Some(count + 1)
    } else {
        None
    }
}

// Returns the transcript of a process; it is empty if `number` is not below `transcripts.len()`.
fn transcript_at(transcripts: &[Entries], number: usize) -> &[Entry]
    ensures { result.now ≡ slice_index_or transcripts.now number [] }
{
    match transcripts.get(number) {
        Some(entries) => entries.as_slice(),
        None => &[],
    }
}
