//! A run of programs, from bytes to bytes. The lines of its entries are written while it makes them.

ghost use Rattle.std.specs.Prelude.{◌≡◌, ◌≤◌, ◌++◌, false, List, [], IfOk, IfErr, IfSome, OnOk};
ghost use Rattle.smx_types.specs.declared.command.Entry.{Entry as Made};
ghost use Rattle.smx_text.specs.GrowingTranscripts.{AreEntryLines};
ghost use Rattle.smx_run.specs.Devices.{AreReady};
ghost use Rattle.smx_run.specs.declared.run.TheConstants.{MAX_WORKERS};
ghost use Rattle.smx_filters.specs.ExplainText.{KeepsText};
ghost use Rattle.smx_filters.specs.Filters.{Answers};
ghost use Rattle.smx_filters.specs.FrontsText.{fronts_text, front_line};
ghost use Rattle.smx_filters.specs.RunText.{IsFrontsTextFor, IsRefusedFor, IsWrittenFor, RunsText, items_of, running};

use smx_run::{Feed, Gate, MainFault, Refusal, RunFault, Sink, read_all, run_system, write_all};
use smx_shared::{EntryCount, EntrySink, Front};
use smx_text::{add_entry_line, finish_transcript, read_programs};
use smx_types::{Command, Copied, DriverSpec, NoMemory, Process, Programs, Reply};
use std::alloc::Global;
use std::marker::Model;
use std::sync::Wait;
use std::thread::Threads;

// An entry sink, which receives the entries of a run: writes the line of each entry, and then drops the entry.
// Contracts see the list of the entries. After an allocation has failed, no line is written any more, and no lines can
// be returned.
#[derive(Drop)]
struct EntryLines {
    // `None` after an allocation has failed.
    lines: Option<Vec<u8>>,
    entries: EntryCount,
}

impl Model for EntryLines {
    ghost Value = { List Made };

    ghost view = { λ e. e.entries };

    ghost invariant = { λ e. IfSome e.lines (λ v. AreEntryLines e.entries v.items) };
}

impl EntryLines {
    // Begins with no entry. Takes no memory.
    fn new(alloc: Global) -> EntryLines
        ensures { result ≡ [] }
    {
        EntryLines {
            lines: Some(Vec::new(alloc)),
            entries: EntryCount::new(),
        }
    }

    // Returns the lines. Fails if an allocation failed.
    fn into_lines(self) -> Result<Vec<u8>, NoMemory>
        ensures { IfOk result (λ lines. AreEntryLines self lines.items) }
    {
        self.lines.ok_or(NoMemory)
    }
}

impl EntrySink for EntryLines {
    ghost entries = { λ e. e };

    ghost has_room = { λ _. Unit {0} };

    fn count(&self) -> usize {
        self.entries.count()
    }

    fn make_room(&mut self) -> Result<(), NoMemory> {
        match self.lines {
            Some(_) => Ok(()),
            None => Err(NoMemory),
        }
    }

    fn add(&mut self, process: Process, command: &mut Command, reply: &mut Reply) {
        if let Some(lines) = &mut self.lines {
            if add_entry_line(lines, process, command, reply).is_err() {
                self.lines = None;
            }
        }
        self.entries.add(process, command, reply);
    }
}

/// Reads programs from `feed`, and runs them on `workers` workers, 1 to 64. Writes the transcript of the run to `sink`,
/// in the version of the programs. With `fronts` it writes, in place of the transcript, a front for each program: the
/// number of entries and the number of links at one moment after this program had ended. One worker runs one program
/// after the other, by rising number. So a run on one worker has only one possible transcript. With several workers,
/// worker `p` modulo `workers` runs process `p`. `gate` is called before and after each command. No command is
/// performed before the whole text was read and found valid. Requires that neither `feed` nor `sink` has failed before
/// and that the feed has not ended. Checks for faults in this order: reading, text, drivers, run, writing.
pub fn run_text<R: Threads + Wait + Sync, F: Feed, S: Sink, G: Gate + Sync>(
    rt: &R,
    alloc: Global,
    feed: &mut F,
    sink: &mut S,
    workers: usize,
    fronts: bool,
    gate: &G,
) -> Result<(), MainFault>
    requires ready { AreReady (F.ended feed.old) (F.failures feed.old) (S.failures sink.old) }
    requires workers { (1 ≤ workers) × (workers ≤ MAX_WORKERS) }
    ensures { RunsText fronts workers (F.remaining feed.old) (F.remaining feed.new) (F.ended feed.new)
        (F.failures feed.new) (S.contents sink.old) (S.contents sink.new) (S.flushed sink.new)
        (S.failures sink.new) result }
{
    let input = read_all(alloc, feed)?;
    let output = text_of_run(rt, alloc, input.as_slice(), workers, fronts, gate)?;
    write_all(sink, output.as_slice())
}

/// Runs the programs in `feed` as `run_text` does, and writes to `sink` what `run_text` writes. Keeps the text if the
/// text or its drivers have a fault.
pub fn run_explained<R: Threads + Wait + Sync, F: Feed, S: Sink, G: Gate + Sync>(
    rt: &R,
    alloc: Global,
    feed: &mut F,
    sink: &mut S,
    workers: usize,
    fronts: bool,
    gate: &G,
) -> Result<(), Refusal>
    requires ready { AreReady (F.ended feed.old) (F.failures feed.old) (S.failures sink.old) }
    requires workers { (1 ≤ workers) × (workers ≤ MAX_WORKERS) }
    ensures { KeepsText (running fronts workers) (F.remaining feed.old) (F.remaining feed.new) (F.ended feed.new)
        (F.failures feed.new) (S.contents sink.old) (S.contents sink.new) (S.flushed sink.new)
        (S.failures sink.new) result }
{
    let input = read_all(alloc, feed)?;
    match text_of_run(rt, alloc, input.as_slice(), workers, fronts, gate) {
        Ok(output) => Ok(write_all(sink, output.as_slice())?),
        Err(fault) => Err(Refusal::kept_for(fault, input)),
    }
}

// Runs the programs that the input spells. Returns the transcript, or the text of the fronts if `fronts` is set.
fn text_of_run<R: Threads + Wait + Sync, G: Gate + Sync>(
    rt: &R,
    alloc: Global,
    input: &[u8],
    workers: usize,
    fronts: bool,
    gate: &G,
) -> Result<Vec<u8>, MainFault>
    requires { (1 ≤ workers) × (workers ≤ MAX_WORKERS) }
    ensures { Answers (running fronts workers) input.now (items_of result) }
{
    let programs = read_programs(alloc, input)?;
    if fronts {
        return Ok(fronts_of_run(rt, alloc, programs, workers, gate)?);
    }
    Ok(transcript_of_run(rt, alloc, programs, workers, gate)?)
}

// Runs the programs. Returns the transcript in their version. The line of each entry is written when the entry is made,
// and no entry is kept.
fn transcript_of_run<R: Threads + Wait + Sync, G: Gate + Sync>(
    rt: &R,
    alloc: Global,
    programs: Programs,
    workers: usize,
    gate: &G,
) -> Result<Vec<u8>, RunFault>
    requires { (1 ≤ workers) × (workers ≤ MAX_WORKERS) }
    ensures written { IfOk result (λ text. IsWrittenFor false workers programs text.items) }
    ensures refused { IfErr result (IsRefusedFor workers programs) }
{
    let version = programs.version();
    let (system, _fronts) = run_system(rt, alloc, programs, EntryLines::new(alloc), workers, gate)?;
    let (lines, config) = system.into_parts();
    let drivers = DriverSpec::copies(alloc, config.drivers())?;
    let view = config.into_view()?;
    Ok(finish_transcript(lines.into_lines()?, version, &drivers, &view)?)
}

// Runs the programs. Returns the text of the fronts. No entry is kept.
fn fronts_of_run<R: Threads + Wait + Sync, G: Gate + Sync>(
    rt: &R,
    alloc: Global,
    programs: Programs,
    workers: usize,
    gate: &G,
) -> Result<Vec<u8>, RunFault>
    requires { (1 ≤ workers) × (workers ≤ MAX_WORKERS) }
    ensures written { IfOk result (λ text. IsFrontsTextFor workers programs text.items) }
    ensures refused { IfErr result (IsRefusedFor workers programs) }
{
    let (_system, fronts) = run_system(rt, alloc, programs, EntryCount::new(), workers, gate)?;
    Ok(fronts_text(alloc, fronts.as_slice())?)
}

// Returns the text of fronts. It has a line for each front, with the index of the front as the number of the process.
// Fails only if it is out of memory.
fn fronts_text(alloc: Global, fronts: &[Front]) -> Result<Vec<u8>, NoMemory>
    ensures { IfOk result (λ text. text.items ≡ fronts_text fronts.now) }
{
    let mut text = Vec::new(alloc);
    text.extend_from_slice(b"fronts 1\n")?;
    let mut process = 0usize;
    for front in fronts {
        add_front(alloc, &mut text, process, *front)?;
        process += 1;
    }
    text.extend_from_slice(b"end\n")?;
    Ok(text)
}

// Appends the line of a front.
fn add_front(
    alloc: Global,
    text: &mut Vec<u8>,
    process: usize,
    front: Front,
) -> Result<(), NoMemory>
    ensures { OnOk result (text.new.items ≡ text.old.items ++ front_line process front) }
{
    let line = format!(in alloc; "front {process} {} {}\n", front.entries, front.links)?;
    text.extend_from_slice(line.as_bytes())?;
    Ok(())
}
