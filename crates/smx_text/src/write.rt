//! Writes programs and transcripts as texts; transcripts also piece by piece: their opening (header and drivers), the
//! lines of their entries, and their view (the configuration at the end).

ghost use Rattle.std.specs.Prelude.{◌≡◌, ◌<◌, ◌^◌, ◌∷◌, ◌++◌, [], List, length, map, IfOk, OnOk};
ghost use Rattle.std.specs.List.{AllByRecursion};
ghost use Rattle.smx_types.specs.Versions.{least_of_transcript};
ghost use Rattle.smx_types.specs.declared.command.Entry.{Entry as AnyEntry};
ghost use Rattle.smx_types.specs.declared.version.Version.TheVariants.{V1, V2};
ghost use Rattle.smx_text.specs.GrowingTranscripts.{opening_text, transcript_with, AreEntryLines, BeginsTranscript};
ghost use Rattle.smx_text.specs.ProgramsText.{line_words, program_lines, programs_text, FitsLine, IsAllowed};
ghost use Rattle.smx_text.specs.TranscriptText.{transcript_text, view_lines, IsSpellable, IsSpellableView};
ghost use Rattle.smx_words.specs.Spellable.{FitsDriver};
ghost use Rattle.smx_words.specs.Words.{text_of};

use crate::programs::ProgramsDraft;
use crate::reading::Draft;
use crate::transcript::TranscriptDraft;
use smx_types::{
    Command, Commands, ConfigView, DriverSpec, NoMemory, Process, Programs, Reply, Transcript,
    Version,
};
use smx_words::{write_entry, write_lines, write_next, write_process};
use std::alloc::Global;

/// Writes the text of these programs. (Each value has exactly one text.) Fails only if out of memory.
pub fn write_programs(alloc: Global, programs: &Programs) -> Result<Vec<u8>, NoMemory>
    ensures written { IfOk result (λ v. v.items ≡ programs_text programs.now) }
    // The programs are allowed in their version, so their text can be read back.
    ensures allowed { OnOk result (IsAllowed programs.now.version programs.now) }
{
    let mut out = Vec::from_slice(alloc, ProgramsDraft::header(programs.version()))?;
    out.push(b'\n')?;
    write_lines(&mut out, programs.drivers())?;
    write_each(&mut out, programs.programs())?;
    out.extend_from_slice(b"end\n")?;
    Ok(out)
}

// For each program, appends the line of its process and then the lines of its commands.
fn write_each(out: &mut Vec<u8>, programs: &[Commands]) -> Result<(), NoMemory>
    requires { length programs.now < 2 ^ 32 }
    ensures written { OnOk result (out.new.items
        ≡ out.old.items ++ text_of (map line_words (program_lines 0 programs.now))) }
    ensures fits { OnOk result (AllByRecursion (FitsLine V2) (program_lines 0 programs.now)) }
{
    for (i, commands) in programs.iter().enumerate() {
        write_process(out, i as u32)?;
        write_lines(out, commands.as_slice())?;
    }
    Ok(())
}

/// Writes the text of this transcript. (Each value has exactly one text.) The version of the transcript must be able to
/// express the transcript. Fails only if out of memory.
pub fn write_transcript(alloc: Global, transcript: &Transcript) -> Result<Vec<u8>, NoMemory>
    requires { transcript.now.version ≡ V1 → least_of_transcript transcript.now ≡ V1 }
    ensures written { IfOk result (λ v. v.items ≡ transcript_text transcript.now) }
    // All parts of the transcript can be spelled, so the text can be read back if the transcript is within the limits.
    ensures spellable { OnOk result (IsSpellable transcript.now) }
{
    let mut lines = Vec::new(alloc);
    write_lines(&mut lines, transcript.entries.as_slice())?;
    let drivers = transcript.drivers.as_slice();
    let text = finish_transcript(lines, transcript.version, drivers, &transcript.view)?;
    Ok(text)
}

/// Appends the line of one more entry to the lines of the earlier entries. Fails only if out of memory. `lines` may
/// then contain a part of the new line.
pub fn add_entry_line(
    lines: &mut Vec<u8>,
    process: Process,
    command: &Command,
    reply: &Reply,
) -> Result<(), NoMemory>
    ensures { OnOk result ((entries : List AnyEntry) → AreEntryLines entries lines.old.items → AreEntryLines
        (entries ++ record { process = process; command = command.now; reply = reply.now } ∷ []) lines.new.items) }
{
    write_entry(lines, process, command, reply)?;
    Ok(())
}

/// Completes a transcript, given the lines of its entries. Puts the header and the driver lines before them, and the
/// view and the end line after them. Fails only if out of memory.
pub fn finish_transcript(
    lines: Vec<u8>,
    version: Version,
    drivers: &[DriverSpec],
    view: &ConfigView,
) -> Result<Vec<u8>, NoMemory>
    ensures written { IfOk result (λ v. (entries : List AnyEntry) → AreEntryLines entries lines.items
        → v.items ≡ transcript_text (transcript_with version drivers.now entries view.now)) }
    // All parts of the transcript can be spelled. So the text can be read back if the transcript is within the limits
    // and its version can express it.
    ensures spellable { OnOk result ((entries : List AnyEntry) → AreEntryLines entries lines.items
        → IsSpellable (transcript_with version drivers.now entries view.now)) }
{
    let mut text = lines;
    let length = text.len();
    write_opening(&mut text, version, drivers)?;
    text.rotate_left(length);
    write_view(&mut text, view)?;
    text.extend_from_slice(b"end\n")?;
    Ok(text)
}

/// Writes the opening of a transcript: its header and a line for each driver. Fails only if out of memory.
pub fn transcript_opening(
    alloc: Global,
    version: Version,
    drivers: &[DriverSpec],
) -> Result<Vec<u8>, NoMemory>
    ensures { IfOk result (λ v. BeginsTranscript version drivers.now [] v.items) }
{
    let mut text = Vec::new(alloc);
    write_opening(&mut text, version, drivers)?;
    Ok(text)
}

// Appends the header and a line for each driver to `out`.
fn write_opening(
    out: &mut Vec<u8>,
    version: Version,
    drivers: &[DriverSpec],
) -> Result<(), NoMemory>
    ensures written { OnOk result (out.new.items ≡ out.old.items ++ opening_text version drivers.now) }
    ensures fits { OnOk result (AllByRecursion FitsDriver drivers.now) }
{
    out.extend_from_slice(TranscriptDraft::header(version))?;
    out.push(b'\n')?;
    write_lines(out, drivers)?;
    Ok(())
}

/// Appends the lines of a view to `out`: first `config` and `next`, then the groups of lines (descriptors, links and so
/// on) in their order. Fails only if out of memory. `out` may then contain some of the lines.
pub fn write_view(out: &mut Vec<u8>, view: &ConfigView) -> Result<(), NoMemory>
    ensures written { OnOk result (out.new.items ≡ out.old.items ++ view_lines view.now) }
    ensures spellable { OnOk result (IsSpellableView view.now) }
{
    out.extend_from_slice(b"config\n")?;
    write_next(out, view.next_id, view.next_serial)?;
    write_lines(out, view.fds.as_slice())?;
    write_lines(out, view.links.as_slice())?;
    write_lines(out, view.binds.as_slice())?;
    write_lines(out, view.routes.as_slice())?;
    write_lines(out, view.msgs.as_slice())?;
    write_lines(out, view.fulls.as_slice())?;
    write_lines(out, view.hungs.as_slice())?;
    Ok(())
}
