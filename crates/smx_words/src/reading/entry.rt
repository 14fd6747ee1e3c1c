//! Reads the words of a call (a process and its command) and of an entry.

ghost use Rattle.std.specs.Prelude.{◌≡◌, ◌≢◌, ◌++◌, List, ℕ, codes, MatchOption, IfOk, IfErr};
ghost use Rattle.smx_words.specs.LineReading.{IsCallLine, IsEntryLine, IsReadAs};
ghost use Rattle.smx_words.specs.Spellable.{FitsCallIn, FitsEntryIn};
ghost use Rattle.smx_words.specs.Spelling.{call_words, entry_words};
ghost use Rattle.smx_words.specs.Words.{EQUALS, IsFree};

use crate::reading::command::command_of;
use crate::reading::number::first_process;
use crate::reading::reply::reply_of;
use crate::reading::word::{after, before, cut};
use smx_types::{Command, Entry, NoMemory, Process, Version};
use std::alloc::Global;

/// Parses a line `PROCESS COMMAND`. Returns `None` if `version` has no call with this line. Fails only if `version` has
/// a call with this line, and an allocation fails.
pub fn call_of_line(
    alloc: Global,
    version: Version,
    line: &[u8],
) -> Result<Option<(Process, Command)>, NoMemory>
    ensures reading { IfOk result (IsReadAs (FitsCallIn version) call_words line.now) }
    ensures wanted { IfErr result (λ _. IsCallLine version line.now) }
{
    let Some(found) = first_process(line) else {
        return Ok(None);
    };
    let Some(command) = command_of(alloc, version, found.1)? else {
        return Ok(None);
    };
    Ok(Some((found.0, command)))
}

/// Parses the line of an entry. Returns `None` if `version` has no entry with this line. Fails only if `version` has an
/// entry with this line, and an allocation fails.
pub fn entry_of(alloc: Global, version: Version, line: &[u8]) -> Result<Option<Entry>, NoMemory>
    ensures reading { IfOk result (IsReadAs (FitsEntryIn version) entry_words line.now) }
    ensures wanted { IfErr result (λ _. IsEntryLine version line.now) }
{
    let Some((call, reply)) = sides(line) else {
        return Ok(None);
    };
    match call_of_line(alloc, version, call) {
        Ok(None) => Ok(None),
        Ok(Some((process, command))) => match reply_of(alloc, version, reply)? {
            None => Ok(None),
            Some(reply) => Ok(Some(Entry {
                process,
                command,
                reply,
            })),
        },
        Err(error) => match reply_of(alloc, version, reply)? {
            None => Ok(None),
            Some(_) => Err(error),
        },
    }
}

// Splits a line at its first equals sign and the spaces around it.
fn sides(line: &[u8]) -> Option<(&[u8], &[u8])>
    ensures { MatchOption result
        ((call reply : List ℕ) → IsFree EQUALS call → line.now ≢ call ++ codes " = " ++ reply)
        (λ p. IsFree EQUALS p.0.now × (line.now ≡ p.0.now ++ codes " = " ++ p.1.now)) }
{
    let (front, back) = cut(line, b'=')?;
    let call = before(front, b" ")?;
    let reply = after(back, b" ")?;
    Some((call, reply))
}
