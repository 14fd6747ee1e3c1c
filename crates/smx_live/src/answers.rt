//! The answers of a live session.

ghost use Rattle.std.specs.Prelude.{◌≡◌, ◌++◌, ℕ, Bool, List, IfOk, codes};
ghost use Rattle.smx_explain.specs.ColumnWords.{IsExplanationOf};
ghost use Rattle.smx_live.specs.LiveTurns.{TakesTurn, Writes};
ghost use Rattle.smx_live.specs.Turns.{AsksForNeither, AsksToShow, IsRefusedFor, fault_line};
ghost use Rattle.smx_live.specs.declared.talk.TurnFault.TheVariants.{NoCommand};

use crate::talk::{Talk, TurnFault, asks_to_show, shown_with, switched};
use smx_explain::explain_line;
use smx_run::{MainFault, Sink, write_all};
use smx_types::{NoMemory, Version};
use std::alloc::Global;

/// Writes the answer to a line, with the lines below the answer, and flushes them. Returns `true` if the session has
/// ended, because the line was `end`.
pub fn answer<S: Sink>(
    alloc: Global,
    sink: &mut S,
    talk: &mut Talk,
    line: &[u8],
    explain: bool,
) -> Result<bool, MainFault>
    requires { S.failures sink.old ≡ 0 }
    ensures { TakesTurn explain talk.old.session talk.old.progress line.now talk.new.session talk.new.progress
        (S.contents sink.old) (S.contents sink.new) (S.flushed sink.new) (S.failures sink.new) result }
{
    if asks_to_show(line) {
        return show(alloc, sink, talk, line);
    }
    if line == "end".as_bytes() {
        return end(alloc, sink, talk, line);
    }
    call(alloc, sink, talk, line, explain)
}

/// Writes a text and flushes it. If this succeeds, returns `value`.
pub fn say<S: Sink, T: Copy>(sink: &mut S, text: &[u8], value: T) -> Result<T, MainFault>
    requires { S.failures sink.old ≡ 0 }
    ensures { Writes text.now value (S.contents sink.old) (S.contents sink.new) (S.flushed sink.new)
        (S.failures sink.new) result }
{
    match write_all(sink, text) {
        Ok(()) => Ok(value),
        Err(_) => Err(MainFault::WriteFailed),
    }
}

// Writes the configuration, the answer to this line. If the line is `trace on` or `trace off`, switches tracing.
fn show<S: Sink>(
    alloc: Global,
    sink: &mut S,
    talk: &mut Talk,
    line: &[u8],
) -> Result<bool, MainFault>
    requires asked { AsksToShow line.now }
    requires sunk { S.failures sink.old ≡ 0 }
    ensures { (explain : Bool) → TakesTurn explain talk.old.session talk.old.progress line.now talk.new.session
        talk.new.progress (S.contents sink.old) (S.contents sink.new) (S.flushed sink.new) (S.failures sink.new)
        result }
{
    match shown_with(alloc, &talk.session, b"shown\n") {
        Ok(text) => {
            talk.progress.tracing = switched(talk.progress.tracing, line);
            say(sink, text.as_slice(), false)
        }
        Err(_) => say(sink, line_of_fault(TurnFault::NoMemory), false),
    }
}

// Writes the rest of the transcript, and ends the session.
fn end<S: Sink>(alloc: Global, sink: &mut S, talk: &Talk, line: &[u8]) -> Result<bool, MainFault>
    requires asked { line.now ≡ codes "end" }
    requires sunk { S.failures sink.old ≡ 0 }
    ensures { (explain : Bool) → TakesTurn explain talk.now.session talk.now.progress line.now talk.now.session
        talk.now.progress (S.contents sink.old) (S.contents sink.new) (S.flushed sink.new) (S.failures sink.new)
        result }
{
    match shown_with(alloc, &talk.session, b"end\n") {
        Ok(text) => say(sink, text.as_slice(), true),
        Err(_) => say(sink, line_of_fault(TurnFault::NoMemory), false),
    }
}

// Performs the command of a line and writes its answer.
fn call<S: Sink>(
    alloc: Global,
    sink: &mut S,
    talk: &mut Talk,
    line: &[u8],
    explain: bool,
) -> Result<bool, MainFault>
    requires asked { AsksForNeither line.now }
    requires sunk { S.failures sink.old ≡ 0 }
    ensures { TakesTurn explain talk.old.session talk.old.progress line.now talk.new.session talk.new.progress
        (S.contents sink.old) (S.contents sink.new) (S.flushed sink.new) (S.failures sink.new) result }
{
    match talk.perform(alloc, line)? {
        None => say(sink, talk.text.as_slice(), false),
        Some(fault) => refuse(alloc, sink, talk, line, fault, explain),
    }
}

// Writes why a line is refused. If `explain`, and the line is not a command, writes its explanation below.
fn refuse<S: Sink>(
    alloc: Global,
    sink: &mut S,
    talk: &Talk,
    line: &[u8],
    fault: TurnFault,
    explain: bool,
) -> Result<bool, MainFault>
    requires refused { IsRefusedFor talk.now.session.version talk.now.progress.entries line.now fault }
    requires sunk { S.failures sink.old ≡ 0 }
    ensures { TakesTurn explain talk.now.session talk.now.progress line.now talk.now.session talk.now.progress
        (S.contents sink.old) (S.contents sink.new) (S.flushed sink.new) (S.failures sink.new) result }
{
    if explain && fault == TurnFault::NoCommand {
        let text = explained(alloc, talk.session.version(), line)?;
        return say(sink, text.as_slice(), false);
    }
    say(sink, line_of_fault(fault), false)
}

// Returns the answer to a line that is not a command, with its explanation. Fails only if it is out of memory.
fn explained(alloc: Global, version: Version, line: &[u8]) -> Result<Vec<u8>, NoMemory>
    ensures { IfOk result (λ text. (below : List ℕ) × IsExplanationOf version line.now below
        × (text.items ≡ fault_line NoCommand ++ below)) }
{
    let below = explain_line(alloc, version, line)?;
    let mut text = Vec::from_slice(alloc, line_of_fault(TurnFault::NoCommand))?;
    text.extend_from_slice(below.as_slice())?;
    Ok(text)
}

// Returns the line that reports the fault, with its line feed.
fn line_of_fault(fault: TurnFault) -> &'static [u8]
    ensures { result.now ≡ fault_line fault }
{
    match fault {
        TurnFault::NoCommand => b"? no command\n",
        TurnFault::NoMemory => b"? no memory\n",
        TurnFault::Full => b"? history full\n",
    }
}
