//! A live session from bytes to bytes: each line is answered at once.

ghost use Rattle.std.specs.List.{ends_with};
ghost use Rattle.std.specs.Prelude.{◌≡◌, ◌≢◌, ◌⊎◌, List, ℕ, Bool, true, false, IfErr, IfOk, MatchBool, codes, nat_eq};
ghost use Rattle.smx_run.specs.Devices.{AreReady};
ghost use Rattle.smx_run.specs.Refusals.{answer_of};
ghost use Rattle.smx_run.specs.declared.main_fault.MainFault.TheVariants.{Refused};
ghost use Rattle.smx_run.specs.declared.run_fault.RunFault.TheVariants.{NoMemory};
ghost use Rattle.smx_live.specs.Inboxes.{IsShort};
ghost use Rattle.smx_live.specs.LiveStages.{Begins, Converses, Finishes, HasTable, Opens, TakesCutLine};
ghost use Rattle.smx_live.specs.LiveText.{IsLive, LivesText, cut_words};
ghost use Rattle.smx_live.specs.Tables.{begins_driver, table_text};

use crate::answers::{answer, say};
use crate::inbox::Inbox;
use crate::talk::{Progress, Talk, shown_with};
use smx_run::{Feed, MAX_INPUT, MainFault, Refusal, RunFault, Sink};
use smx_session::{Session, StartFault};
use std::alloc::Global;

/// Reads a driver table and then lines, and answers each line at once:
///
/// - A process with a command: the answer is the entry of the command. Between `trace on` and `trace off` each entry is
///   followed by the lines of what it changed.
/// - `show`, an empty line, `trace on` or `trace off`: the answer is the configuration.
/// - `end`: the transcript ends, as at the end of the input.
/// - Any other line: the answer is `? no command` and, if `explain`, what is wrong with the line.
///
/// After 100,000 entries, the answer `? history full` takes the place of an entry and of `? no command`. If memory runs
/// out for a line, its answer is `? no memory`. A line that is answered by `? no command`, `? history full` or
/// `? no memory` changes nothing. So the output is the transcript of the commands that were performed, with other
/// answers in between. If the table or its drivers have a fault, the returned `Refusal` has the table as a programs
/// text; only tests show this.
///
/// Requires that neither the feed nor the sink has failed before, and that the feed has not ended. Fails with the first
/// fault that it meets: a failed read; a table or a line that is too long; a fault of the table as a programs text, and
/// then of its drivers; a failed write; or out-of-memory, unless `? no memory` is the answer. If it fails, all earlier
/// answers were written.
pub fn live_text<F: Feed, S: Sink>(
    alloc: Global,
    feed: &mut F,
    sink: &mut S,
    explain: bool,
) -> Result<(), Refusal>
    requires { AreReady (F.ended feed.old) (F.failures feed.old) (S.failures sink.old) }
    ensures { LivesText explain (F.remaining feed.old) (F.remaining feed.new) (F.ended feed.new)
        (F.failures feed.new) (S.contents sink.old) (S.contents sink.new) (S.flushed sink.new)
        (S.failures sink.new) (answer_of result) }
{
    let mut inbox = Inbox::new(alloc);
    let table = read_table(alloc, feed, &mut inbox)?;
    let mut talk = begin(alloc, table)?;
    open(alloc, sink, &talk.session)?;
    converse(alloc, feed, sink, &mut inbox, &mut talk, explain)?;
    Ok(())
}

// Reads the driver table: the first line, and the lines after it that begin with `driver`. The last line of the table
// may lack its line feed, if the input ends there.
fn read_table<F: Feed>(alloc: Global, feed: &mut F, inbox: &mut Inbox) -> Result<Vec<u8>, MainFault>
    requires end { F.ended feed.old ≡ inbox.old.ended }
    requires fine_so_far { F.failures feed.old ≡ 0 }
    ensures { (read : List ℕ) × HasTable (F.remaining feed.old) (F.remaining feed.new) (F.ended feed.new)
        (F.failures feed.new) inbox.old inbox.new read result }
{
    let mut table = Vec::new(alloc);
    'lines: while table.len() <= MAX_INPUT {
        let Some(n) = inbox.next_line(feed)? else {
            return with_cut_line(table, &mut inbox.held);
        };
        if !is_of_table(table.len(), &inbox.held[..n]) {
            return Ok(table);
        }
        table.extend_from_slice(&inbox.held[..n + 1])?;
        inbox.drop_line(n);
    }
    Err(MainFault::TooLong)
}

// Returns the table when the input has ended. If the table has a first line, and `held`, the rest of the input, begins
// with `driver`, appends `held` to the table. The reader of the table then reports this driver line as cut.
fn with_cut_line(table: Vec<u8>, held: &mut Vec<u8>) -> Result<Vec<u8>, MainFault>
    ensures { TakesCutLine table.items held.old.items held.new.items result }
{
    let mut whole = table;
    if whole.is_empty() || !held.starts_with(b"driver") {
        return Ok(whole);
    }
    whole.extend_from_slice(held)?;
    if whole.len() > MAX_INPUT {
        return Err(MainFault::TooLong);
    }
    held.clear();
    Ok(whole)
}

// Returns whether a line belongs to the table. `before` is the number of bytes of the table before this line.
fn is_of_table(before: usize, line: &[u8]) -> bool
    ensures { MatchBool result ((before ≡ 0) ⊎ (begins_driver line.now ≡ true))
        ((before ≢ 0) × (begins_driver line.now ≡ false)) }
{
    before == 0 || line.starts_with(b"driver")
}

// Returns the table as a programs text: adds the line `end`, if the table has a line and its last line is whole.
fn text_of_table(table: Vec<u8>) -> Result<Vec<u8>, MainFault>
    ensures text { IfOk result (λ v. v.items ≡ table_text table.items) }
    ensures memory { IfErr result (λ fault. (fault ≡ Refused NoMemory)
        × (ends_with nat_eq table.items (codes "\n") ≡ true)) }
{
    let mut text = table;
    if text.ends_with(b"\n") {
        text.extend_from_slice(b"end\n")?;
    }
    Ok(text)
}

// Starts a session with the drivers of a table. If the table or its drivers have a fault, the `Refusal` has the table
// as a programs text.
fn begin(alloc: Global, table: Vec<u8>) -> Result<Talk, Refusal>
    ensures { Begins table.items (answer_of result) }
{
    let text = text_of_table(table)?;
    match Session::new(alloc, text.as_slice()) {
        Ok(session) => Ok(Talk {
            session,
            progress: Progress {
                entries: 0,
                tracing: false,
            },
            text: Vec::new(alloc),
        }),
        Err(StartFault::Text(fault)) => Err(Refusal {
            fault: MainFault::Text(fault),
            text: Some(text),
        }),
        Err(StartFault::Drivers(fault)) => Err(Refusal {
            fault: MainFault::Refused(RunFault::from(fault)),
            text: Some(text),
        }),
        Err(StartFault::NoMemory) => Err(Refusal::from(MainFault::Refused(RunFault::NoMemory))),
    }
}

// Writes the beginning of the transcript.
fn open<S: Sink>(alloc: Global, sink: &mut S, session: &Session) -> Result<(), MainFault>
    requires { S.failures sink.old ≡ 0 }
    ensures { Opens session.now (S.contents sink.old) (S.contents sink.new) (S.flushed sink.new)
        (S.failures sink.new) result }
{
    let text = session.opening(alloc)?;
    say(sink, text.as_slice(), ())
}

// Answers line after line, up to `end` or the end of the input.
fn converse<F: Feed, S: Sink>(
    alloc: Global,
    feed: &mut F,
    sink: &mut S,
    inbox: &mut Inbox,
    talk: &mut Talk,
    explain: bool,
) -> Result<(), MainFault>
    requires end { F.ended feed.old ≡ inbox.old.ended }
    requires fed { F.failures feed.old ≡ 0 }
    requires sunk { S.failures sink.old ≡ 0 }
    requires flushed { S.flushed sink.old ≡ true }
    ensures { (read output : List ℕ)
        → IsLive explain read inbox.old.ended output talk.old.session talk.old.progress inbox.old.held.items
        → Converses explain read output (F.remaining feed.old) (F.remaining feed.new) (F.ended feed.new)
        (F.failures feed.new) (S.contents sink.old) (S.contents sink.new) (S.flushed sink.new)
        (S.failures sink.new) result }
{
    for _turn in 0..u64::MAX {
        let Some(n) = inbox.next_line(feed)? else {
            return finish(alloc, sink, talk, inbox.held.as_slice());
        };
        if answer(alloc, sink, talk, &inbox.held[..n], explain)? {
            return Ok(());
        }
        inbox.drop_line(n);
    }
    Err(MainFault::TooLong)
}

// Returns the answer to `held`, the rest of the input: `? cut` and a line feed, or nothing if `held` is empty.
fn cut_words(held: &[u8]) -> &'static [u8]
    ensures { result.now ≡ cut_words held.now }
{
    if held.is_empty() { b"" } else { b"? cut\n" }
}

// Ends the session when the input has ended. `held` is the rest of the input.
fn finish<S: Sink>(alloc: Global, sink: &mut S, talk: &Talk, held: &[u8]) -> Result<(), MainFault>
    requires { S.failures sink.old ≡ 0 }
    ensures { (explain : Bool) (read output : List ℕ) (ended : Bool)
        → IsLive explain read ended output talk.now.session talk.now.progress held.now → ended ≡ true
        → IsShort held.now → Finishes explain read output ended (S.contents sink.old) (S.contents sink.new)
        (S.flushed sink.new) (S.failures sink.new) result }
{
    let shown = shown_with(alloc, &talk.session, b"end\n")?;
    let mut text = Vec::from_slice(alloc, cut_words(held))?;
    text.extend_from_slice(shown.as_slice())?;
    say(sink, text.as_slice(), ())
}
