//! Makes the text of a replay or of a trace from a transcript, or from its first entries.

ghost use Rattle.std.specs.Prelude.{◌≡◌, ℕ, ◌++◌, [], List, IfOk, IfErr, OnOk};
ghost use Rattle.smx_types.specs.declared.driver.DriverSpec.{DriverSpec as AnyDriver};
ghost use Rattle.smx_config.specs.DriverFaults.{RefusesDrivers};
ghost use Rattle.smx_trace.specs.Answers.{HasCome};
ghost use Rattle.smx_trace.specs.Prefixes.{first_entries};
ghost use Rattle.smx_trace.specs.Replays.{IsReplayText};
ghost use Rattle.smx_trace.specs.Traces.{IsTraceText, config_lines, trace_lines_text};
ghost use Rattle.smx_trace.specs.Tracing.{HasTraced, IsNow, TracesEntry};

use crate::changes::write_changes;
use crate::pieces::put;
use crate::queues::write_queues;
use smx_config::{Config, ConfigFault};
use smx_text::{add_entry_line, finish_transcript, transcript_opening};
use smx_types::{ConfigView, Entries, Entry, NoMemory, Transcript};
use smx_words::{write_entry, write_lines, write_next};
use std::alloc::Global;

/// Returns the transcript with only its first `count` entries, or with all of them if it has fewer. The view is
/// unchanged; a replay ignores it. Does not allocate.
pub fn first_entries(transcript: Transcript, count: usize) -> Transcript
    ensures { result ≡ first_entries count transcript }
{
    let mut entries = transcript.entries.into_vec();
    entries.truncate(count);
    Transcript {
        entries: Entries::from_vec(entries),
        ..transcript
    }
}

/// Performs the commands of a transcript, each for its process, in order, starting with the empty configuration.
/// Ignores the replies and the configuration that the transcript has. Returns the text of the transcript that results,
/// in the same version. Fails if the drivers are not valid, or if it is out of memory.
pub fn replay(alloc: Global, transcript: Transcript) -> Result<Vec<u8>, ConfigFault>
    ensures written { IfOk result (λ text. IsReplayText transcript text.items) }
    ensures refused { IfErr result (RefusesDrivers transcript.drivers) }
{
    let Transcript {
        version,
        drivers,
        entries,
        ..
    } = transcript;
    let drivers = drivers.as_slice();
    let mut config = Config::new(alloc, drivers)?;
    let lines = perform_all(alloc, &mut config, entries)?;
    let view = config.into_view()?;
    Ok(finish_transcript(lines, version, drivers, &view)?)
}

// Performs the commands of all entries. Returns the lines of the entries, each with its new reply.
fn perform_all(alloc: Global, config: &mut Config, entries: Entries) -> Result<Vec<u8>, NoMemory>
    ensures { IfOk result (λ lines. (drivers : List AnyDriver) → HasCome drivers [] config.old []
        → HasCome drivers entries config.new lines.items) }
{
    let mut lines = Vec::new(alloc);
    for entry in entries.as_slice() {
        let reply = config.step(entry.process, &entry.command)?;
        add_entry_line(&mut lines, entry.process, &entry.command, &reply)?;
    }
    Ok(lines)
}

/// Performs the commands of a transcript as `replay` does. Returns the text of the transcript that results, with more
/// lines, which are indented by two spaces. Below each entry are the lines of what it changed. If `each` is set, the
/// `waits` lines of all queues come after these lines. In the configuration, the `waits` line of a queue comes after
/// the lines of its messages. Keeps two views at a time. The time for an entry grows with the size of the views before
/// and after it. Fails if the drivers are not valid, or if it is out of memory.
pub fn trace(alloc: Global, transcript: Transcript, each: bool) -> Result<Vec<u8>, ConfigFault>
    ensures written { IfOk result (λ text. IsTraceText each transcript text.items) }
    ensures refused { IfErr result (RefusesDrivers transcript.drivers) }
{
    let Transcript {
        version,
        drivers,
        entries,
        ..
    } = transcript;
    let drivers = drivers.as_slice();
    let mut config = Config::new(alloc, drivers)?;
    let mut text = transcript_opening(alloc, version, drivers)?;
    let view = trace_all(alloc, &mut config, entries, each, &mut text)?;
    write_configuration(&mut text, &config, &view)?;
    put(&mut text, b"end\n")?;
    Ok(text)
}

// Performs the commands of all entries. Appends the line of each entry, with its new reply, and below it the lines that
// a trace has for this entry. Returns the view after all commands. Fails only if out of memory.
fn trace_all(
    alloc: Global,
    config: &mut Config,
    entries: Entries,
    each: bool,
    text: &mut Vec<u8>,
) -> Result<ConfigView, NoMemory>
    ensures now { IfOk result (IsNow config.new) }
    ensures traced { OnOk result ((drivers : List AnyDriver) (opening : List ℕ)
        → HasTraced each drivers opening [] config.old text.old.items
        → HasTraced each drivers opening entries config.new text.new.items) }
{
    let mut view = config.show()?;
    for entry in entries.as_slice() {
        view = trace_entry(alloc, config, entry, &view, each, text)?;
    }
    Ok(view)
}

/// Performs the command of an entry. Appends the line of the entry, with its new reply, and below it what the command
/// changed. If `each` is set, appends the `waits` lines of all queues below that. `before` must be the view of the
/// configuration before the command. Returns the view after the command. Fails only if out of memory; the command may
/// then have been performed, and `text` may contain some of the lines.
pub fn trace_entry(
    alloc: Global,
    config: &mut Config,
    entry: &Entry,
    before: &ConfigView,
    each: bool,
    text: &mut Vec<u8>,
) -> Result<ConfigView, NoMemory>
    requires { IsNow config.old before.now }
    ensures now { IfOk result (IsNow config.new) }
    ensures traced { OnOk result
        (TracesEntry each entry.now config.old config.new text.old.items text.new.items) }
{
    let reply = config.step(entry.process, &entry.command)?;
    write_entry(text, entry.process, &entry.command, &reply)?;
    let after = config.show()?;
    write_changes(alloc, text, config.drivers(), before, &after)?;
    if each {
        write_queues(text, config, after.msgs.as_slice(), false)?;
    }
    Ok(after)
}

// Appends the lines of the configuration, beginning with the line `config`. After the lines of each queue comes its
// `waits` line, indented by two spaces. `view` must be the view of the configuration. Fails only if out of memory;
// `out` may then contain some of the lines.
fn write_configuration(
    out: &mut Vec<u8>,
    config: &Config,
    view: &ConfigView,
) -> Result<(), NoMemory>
    requires { IsNow config.now view.now }
    ensures { OnOk result (out.new.items ≡ out.old.items
        ++ trace_lines_text config.now.drivers (config_lines config.now.drivers config.now.configuration)) }
{
    put(out, b"config\n")?;
    write_next(out, view.next_id, view.next_serial)?;
    write_lines(out, view.fds.as_slice())?;
    write_lines(out, view.links.as_slice())?;
    write_lines(out, view.binds.as_slice())?;
    write_lines(out, view.routes.as_slice())?;
    write_queues(out, config, view.msgs.as_slice(), true)?;
    write_lines(out, view.fulls.as_slice())?;
    write_lines(out, view.hungs.as_slice())?;
    Ok(())
}
