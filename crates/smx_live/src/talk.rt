//! A live session: its configuration, its progress, and the texts of its answers.

ghost use Rattle.std.specs.Prelude.{◌≡◌, ◌+◌, ◌++◌, ◌<◌, ◌⊎◌, [], Some, None, IfOk, IfSome, MatchBool, OnErr, OnOk};
ghost use Rattle.smx_live.specs.Turns.{AsksForNeither, AsksToShow, IsPerformed, IsTracedView, IsViewOfKept};
ghost use Rattle.smx_live.specs.Turns.{changes_since, switched};
ghost use Rattle.smx_live.specs.declared.talk.TurnFault.TheVariants as fault;
ghost use Rattle.smx_model.specs.Views.{view};
ghost use Rattle.smx_session.specs.Sessions.{Performs};
ghost use Rattle.smx_text.specs.TranscriptText.{IsSpellableView, view_lines};
ghost use Rattle.smx_types.specs.declared.limits.TheConstants.{MAX_COMMANDS};
ghost use Rattle.smx_words.specs.LineReading.{IsCallLine, IsNoCallLine};
ghost use Rattle.smx_words.specs.Spellable.{FitsEntry};
ghost use Rattle.smx_words.specs.Spelling.{entry_line};

use smx_session::{LineFault, Session};
use smx_trace::write_changes;
use smx_types::{ConfigView, MAX_COMMANDS, MAX_MESSAGE, NoMemory, Version};
use smx_words::call_of_line;
use std::alloc::Global;

/// How far a session is.
#[derive(Clone, Copy, Debug, PartialEq, Eq)]
pub struct Progress {
    /// The number of entries of the session.
    pub entries: usize,
    /// Whether the changes of each entry are written below it.
    pub tracing: bool,
}

/// Why a line is refused. A refused line changes nothing.
#[derive(Clone, Copy, Debug, PartialEq, Eq)]
pub enum TurnFault {
    /// The line is not a process with a command of the session's version. It is also not `show`, `trace on`, `trace
    /// off`, `end` or empty.
    NoCommand,
    /// An allocation failed.
    NoMemory,
    /// The history has 100,000 entries.
    Full,
}

// Room for a reply without a list of dropped messages, for ` = ` before it and for the line feed after it.
const REPLY: usize = 2 * MAX_MESSAGE as usize + 64;

// Room for one dropped message in a reply: the digits of its serial, and the space before them.
const SERIAL: usize = 11;

/// A session, how far it is, and a buffer for the text of an answer.
#[derive(Drop)]
pub struct Talk {
    pub session: Session,
    pub progress: Progress,
    pub text: Vec<u8>,
}

/// Returns whether a line asks for the configuration. The line may also switch tracing on or off.
pub fn asks_to_show(line: &[u8]) -> bool
    ensures { MatchBool result (AsksToShow line.now) (AsksToShow line.now → ⊥) }
{
    match line {
        b"" | b"show" => true,
        _ => line == "trace on".as_bytes() || line == "trace off".as_bytes(),
    }
}

/// Returns whether entries are traced after a line that is answered by the configuration. `tracing` says whether they
/// are traced before it.
pub fn switched(tracing: bool, line: &[u8]) -> bool
    ensures { result ≡ switched tracing line.now }
{
    line == "trace on".as_bytes() || (tracing && line != "trace off".as_bytes())
}

// Returns why a line is refused if memory ran out before its command was performed. Only a command
// has an entry that needs memory, so any other line is refused as `NoCommand`.
fn fault_without_room(alloc: Global, version: Version, line: &[u8]) -> TurnFault
    ensures { ((result ≡ fault.NoMemory) × IsCallLine version line.now)
        ⊎ ((result ≡ fault.NoCommand) × IsNoCallLine version line.now) }
{
    match call_of_line(alloc, version, line) {
        Ok(None) => TurnFault::NoCommand,
        Ok(Some(_)) | Err(_) => TurnFault::NoMemory,
    }
}

impl Talk {
    /// Performs the command in `line`. Puts into `text` the line of the new entry and, if entries are traced, the
    /// entry's changes below it. If `line` is refused, returns the reason, and the session and the progress have not
    /// changed.
    ///
    /// Room for the entry's line is reserved before the command is performed. The call fails if this room was too small
    /// and memory ran out, or if there was no memory for the changes. The command has then already been performed.
    pub fn perform(&mut self, alloc: Global, line: &[u8]) -> Result<Option<TurnFault>, NoMemory>
        requires { AsksForNeither line.now }
        ensures answered { IfOk result (λ o. IsPerformed self.old.session self.old.progress line.now o
            self.new.session self.new.progress self.new.text.items) }
        ensures performed { OnErr result (Performs self.old.session line.now self.new.session) }
    {
        if self.progress.entries >= MAX_COMMANDS {
            return Ok(Some(TurnFault::Full));
        }
        let version = self.session.version();
        let Ok(before) = self.make_room(line.len()) else {
            return Ok(Some(fault_without_room(alloc, version, line)));
        };
        match self.session.perform(alloc, line) {
            Ok(()) => {
                self.tell(alloc, before)?;
                Ok(None)
            }
            Err(LineFault::NoCommand) => Ok(Some(TurnFault::NoCommand)),
            Err(LineFault::NoMemory) => Ok(Some(TurnFault::NoMemory)),
        }
    }

    // Empties the text, and reserves room for the line of the next entry. The line with the command has `len` bytes. If
    // entries are traced, returns the configuration as it is shown.
    fn make_room(&mut self, len: usize) -> Result<Option<ConfigView>, NoMemory>
        requires { self.old.progress.entries < MAX_COMMANDS }
        ensures session { self.new.session ≡ self.old.session }
        ensures progress { self.new.progress ≡ self.old.progress }
        ensures empty { self.new.text.items ≡ [] }
        ensures view { IfOk result (IsTracedView self.old.progress.tracing self.old.session) }
    {
        self.text.clear();
        self.text
            .reserve(len.saturating_add(REPLY + SERIAL * self.progress.entries))?;
        if self.progress.tracing {
            return Ok(Some(self.session.show()?));
        }
        Ok(None)
    }

    // Puts the line of the last entry into the text and counts the entry. If entries are traced, appends the changes
    // since `before`, the configuration before the entry.
    fn tell(&mut self, alloc: Global, before: Option<ConfigView>) -> Result<(), NoMemory>
        requires empty { self.old.text.items ≡ [] }
        requires room { self.old.progress.entries < MAX_COMMANDS }
        requires before { IfSome before (IsViewOfKept self.old.session.drivers) }
        ensures session { self.new.session ≡ self.old.session }
        ensures tracing { self.new.progress.tracing ≡ self.old.progress.tracing }
        ensures count { OnOk result (self.new.progress.entries ≡ self.old.progress.entries + 1) }
        ensures text { OnOk result (IfSome self.old.session.last (λ e. self.new.text.items
            ≡ entry_line e ++ changes_since before self.old.session)) }
        ensures fits { OnOk result (IfSome self.old.session.last FitsEntry) }
    {
        if self.session.write_entry(&mut self.text).is_err() {
            return Err(NoMemory);
        }
        self.progress.entries += 1;
        let Some(before) = before else {
            return Ok(());
        };
        let after = self.session.show()?;
        let drivers = self.session.drivers();
        write_changes(alloc, &mut self.text, drivers, &before, &after)
    }
}

/// Returns the lines of the configuration, followed by `last`. Fails only if it is out of memory.
pub fn shown_with(alloc: Global, session: &Session, last: &[u8]) -> Result<Vec<u8>, NoMemory>
    ensures written { IfOk result (λ v. v.items
        ≡ view_lines (view session.now.drivers session.now.configuration) ++ last.now) }
    ensures spellable { OnOk result (IsSpellableView (view session.now.drivers session.now.configuration)) }
{
    let mut text = session.shown(alloc)?;
    text.extend_from_slice(last)?;
    Ok(text)
}
