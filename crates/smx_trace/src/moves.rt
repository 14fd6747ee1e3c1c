//! The changes of queued messages. A message is found in a view by its serial.

ghost use Rattle.std.specs.Prelude.{◌≡◌, ◌++◌, ◌==◌, codes, find, map, nat_eq, option_copied, IfOk, OnOk};
ghost use Rattle.indexmap.specs.IndexMap.{get};
ghost use Rattle.smx_model.specs.Changes.{arrival_change, message_changes, missing_from, same_serial};
ghost use Rattle.smx_model.specs.Changes as change;
ghost use Rattle.smx_trace.specs.Serials.{AreSerialsApart, FindsBySerial, same_line};
ghost use Rattle.smx_trace.specs.TraceWords.{changes_text, marked, moved_words};

use crate::pieces::{put, put_number, put_place_words, write_marked};
use indexmap::IndexMap;
use smx_text::Same;
use smx_types::{MessageLine, NoMemory};
use std::alloc::Global;

// Returns a map from each serial to the position of its line in `lines`. If several lines have the same serial, the map
// has the position of the first of them: the lines are inserted from the last to the first, and a later insertion
// replaces an earlier one.
fn index_of(alloc: Global, lines: &[MessageLine]) -> Result<IndexMap<u32, usize>, NoMemory>
    ensures { IfOk result (λ index. FindsBySerial (get nat_eq index) lines.now lines.now) }
{
    let mut index = IndexMap::new(alloc);
    let mut left = lines.len();
    'lines: while left > 0 {
        left -= 1;
        index.insert(lines[left].message.serial, left)?;
    }
    Ok(index)
}

fn with_serial<'a>(
    index: &IndexMap<u32, usize>,
    lines: &'a [MessageLine],
    serial: u32,
) -> Option<&'a MessageLine>
    requires { FindsBySerial (get nat_eq index.now) lines.now lines.now }
    ensures { option_copied result ≡ find (λ n. serial == n.message.serial) lines.now }
{
    let i = *index.get(&serial)?;
    lines.get(i)
}

// Appends the lines of the messages that are gone. Fails only if out of memory.
fn write_gone(
    alloc: Global,
    out: &mut Vec<u8>,
    before: &[MessageLine],
    after: &[MessageLine],
) -> Result<(), NoMemory>
    ensures { OnOk result (out.new.items ≡ out.old.items
        ++ changes_text (map (λ m. change.Gone (change.Msg m)) (missing_from same_serial before.now after.now))) }
{
    let index = index_of(alloc, after)?;
    for line in before {
        match with_serial(&index, after, line.message.serial) {
            Some(_) => {}
            None => write_marked(out, b"  - ", line)?,
        }
    }
    Ok(())
}

// Appends the line of a message that moved. Fails only if out of memory.
fn write_moved(out: &mut Vec<u8>, was: &MessageLine, now: &MessageLine) -> Result<(), NoMemory>
    ensures { OnOk result (out.new.items ≡ out.old.items ++ marked (codes "  ~ ") (moved_words was.now now.now)) }
{
    put(out, b"  ~ msg ")?;
    put_number(out, now.message.serial)?;
    put(out, b" ")?;
    put_place_words(out, was.driver.as_bytes(), was.minor, was.side)?;
    put(out, b" -> ")?;
    put_place_words(out, now.driver.as_bytes(), now.minor, now.side)?;
    put(out, b"\n")
}

// Appends the lines of the messages that moved or are new. Fails only if out of memory.
fn write_arrivals(
    alloc: Global,
    out: &mut Vec<u8>,
    before: &[MessageLine],
    after: &[MessageLine],
) -> Result<(), NoMemory>
    requires { AreSerialsApart before.now }
    ensures { OnOk result (out.new.items ≡ out.old.items ++ changes_text
        (map (arrival_change before.now) (missing_from same_line after.now before.now))) }
{
    let index = index_of(alloc, before)?;
    for line in after {
        match with_serial(&index, before, line.message.serial) {
            None => write_marked(out, b"  + ", line)?,
            Some(was) if was.is_same(line) => {}
            Some(was) => write_moved(out, was, line)?,
        }
    }
    Ok(())
}

/// Appends the lines of the messages that are gone, and then of those that moved or are new. Fails only if out of
/// memory.
pub fn write_moves(
    alloc: Global,
    out: &mut Vec<u8>,
    before: &[MessageLine],
    after: &[MessageLine],
) -> Result<(), NoMemory>
    requires { AreSerialsApart before.now }
    ensures { OnOk result (out.new.items ≡ out.old.items ++ changes_text (message_changes before.now after.now)) }
{
    write_gone(alloc, out, before, after)?;
    write_arrivals(alloc, out, before, after)
}
