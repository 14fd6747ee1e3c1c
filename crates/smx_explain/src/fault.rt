//! Explains why a text is malformed, and why a session can't read a line.

ghost use Rattle.std.specs.Prelude.{◌≡◌, IfOk, MatchBool, string_bytes};
ghost use Rattle.smx_explain.specs.ColumnWords.{IsExplanationOf, explanation_text};
ghost use Rattle.smx_explain.specs.Hints.{IsHeader};

use crate::columns::{ColumnWords, LineColumn, column_of, word_at};
use crate::hints::{Hint, hint_of};
use crate::kinds::{LineKind, TextKind};
use crate::lines::{line_at, write_line};
use smx_text::{Cause, TextFault};
use smx_types::{NoMemory, Version};
use std::alloc::{AllocError, Global};
use std::fmt;

/// A text and its fault. Prints two lines: at most 80 columns of the malformed line, with its number, and what is wrong
/// with it. If no text of this kind and version can have the line after its header, the second line says in which
/// column the line becomes invalid, and what was expected there. The first line then shows this column, and a third
/// line follows if there is a hint. The hint says that version 2 has the word, or that hex digits have small letters,
/// or names a similar word. Or it says that the line is one of a session's output or of a trace.
#[derive(Clone, Copy)]
pub struct FaultExplanation<'a> {
    /// The kind of text that was expected.
    pub kind: TextKind,
    /// All that was read.
    pub text: &'a [u8],
    /// The fault that a reader of such texts returned. If the text has no line with the number that the fault names,
    /// the bytes after the last line feed of the text are shown.
    pub fault: TextFault,
}

impl FaultExplanation<'_> {
    // Returns what is wrong with a line for which no column is reported.
    fn reason(&self, line: &[u8]) -> &'static str {
        match self.fault.cause {
            Cause::Header => header_reason(self.kind, line),
            Cause::Form => order_reason(self.kind, version_of(self.text), line),
            Cause::Many => limit_reason(self.kind, version_of(self.text), line),
            Cause::Cut => "the text ends before a line 'end' that is whole",
            Cause::Trailing => "nothing may follow the line 'end'",
            Cause::NoMemory => "out of memory",
        }
    }
}

impl fmt::Display for FaultExplanation<'_> {
    fn fmt<W: fmt::Write>(&self, f: &mut fmt::Formatter<W>) -> fmt::Result {
        let number = self.fault.line;
        let line = line_at(self.text, number);
        write!(f, "line {number}: ")?;
        let column = match self.fault.cause {
            Cause::Form => column_of(self.kind.lines(), version_of(self.text), line),
            _ => None,
        };
        match column {
            Some(at) => {
                write_line(f, line, at.column)?;
                writeln!(f, "\n{}", ColumnWords(at, line.len()))?;
                write_hint(f, version_of(self.text), line, at)
            }
            None => {
                write_line(f, line, 1)?;
                writeln!(f, "\n{}", self.reason(line))
            }
        }
    }
}

// Returns the version that the header of a text names, or 1 if there is no such header.
fn version_of(text: &[u8]) -> Version {
    match line_at(text, 1) {
        b"programs 2" | b"transcript 2" => Version::V2,
        _ => Version::V1,
    }
}

// If there is a hint on a malformed line, writes the line of the hint.
fn write_hint<W: fmt::Write>(
    f: &mut fmt::Formatter<W>,
    version: Version,
    line: &[u8],
    at: LineColumn,
) -> fmt::Result {
    if let Some(reason) = output_reason(line) {
        return writeln!(f, "{reason}");
    }
    let word = word_at(line, at.column);
    match hint_of(version, at.wanted, word) {
        Some(hint) => writeln!(f, "{hint}"),
        None => Ok(()),
    }
}

// Returns what is wrong with a first line that is the header of the other kind of text, or no header.
fn header_reason(kind: TextKind, line: &[u8]) -> &'static str {
    match kind {
        TextKind::Programs if is_header(TextKind::Transcript, line) => {
            "this is a transcript, for 'muxsim check', 'muxsim replay' or 'muxsim draw'"
        }
        TextKind::Transcript if is_header(TextKind::Programs, line) => {
            "these are programs, for 'muxsim run'"
        }
        TextKind::Programs => "the first line has to be 'programs 1' or 'programs 2'",
        TextKind::Transcript => "the first line has to be 'transcript 1' or 'transcript 2'",
    }
}

// Returns whether this line is the header of a text of this kind.
fn is_header(kind: TextKind, line: &[u8]) -> bool
    ensures { MatchBool result (IsHeader kind line.now) (IsHeader kind line.now → ⊥) }
{
    match kind {
        TextKind::Programs => line == "programs 1".as_bytes() || line == "programs 2".as_bytes(),
        TextKind::Transcript => {
            line == "transcript 1".as_bytes() || line == "transcript 2".as_bytes()
        }
    }
}

// If a malformed line looks like one of a session's output or of a trace, returns what to leave out of this output.
fn output_reason(line: &[u8]) -> Option<&'static str> {
    match line {
        b"shown" | [b'?', ..] => Some(
            "this is the output of a session: leave out the lines with '?', and from 'config' to 'shown'",
        ),
        [b' ', b' ', ..] => {
            Some("this is a trace: leave out the lines that begin with two spaces")
        }
        _ => None,
    }
}

// Returns what is wrong with a well-formed line that is not allowed after the earlier lines. In a transcript, only an
// entry begins with a digit.
fn order_reason(kind: TextKind, version: Version, line: &[u8]) -> &'static str {
    match (kind, line) {
        (TextKind::Programs, _) if line.starts_with(b"driver ") =>
            "the drivers come before the first process",
        (TextKind::Programs, _) if line.starts_with(b"process ") =>
            "the processes are numbered 0, 1, 2 and so on",
        (TextKind::Programs, _) => "a command follows the line of its process",
        (TextKind::Transcript, [b'0'..=b'9', ..]) => "the entries come before 'config'",
        (TextKind::Transcript, b"config") => "'config' comes once, after the entries",
        (TextKind::Transcript, b"end") => "'config' and 'next' come before 'end'",
        _ if line.starts_with(b"driver ") =>
            "the drivers come before the entries and before 'config'",
        _ if line.starts_with(b"next ") => "'next' comes once, right after 'config'",
        _ => match version {
            Version::V1 => {
                "after 'next' come 'fd', 'link', 'bind', 'route', 'msg' and 'full' lines, in this order"
            }
            Version::V2 => {
                "after 'next' come 'fd', 'link', 'bind', 'route', 'msg', 'full' and 'hung' lines, in this order"
            }
        },
    }
}

// Returns the limit that a text exceeds if it has too many lines of the kind of this line.
fn limit_reason(kind: TextKind, version: Version, line: &[u8]) -> &'static str {
    match (kind, version) {
        (_, Version::V1) if line.starts_with(b"driver ") =>
            "at most 64 drivers are allowed in version 1",
        (_, Version::V2) if line.starts_with(b"driver ") =>
            "at most 128 drivers are allowed in version 2",
        (TextKind::Programs, _) if line.starts_with(b"process ") =>
            "at most 64 processes are allowed",
        (TextKind::Programs, _) => "at most 100,000 commands are allowed",
        (TextKind::Transcript, _) => "at most 100,000 entries are allowed",
    }
}

/// Returns the explanation of a line of a session. It names the column in which the line becomes invalid, and what was
/// expected there; below that is a hint, if there is one. Each line of the explanation begins with two spaces. The
/// explanation is empty if the given line is `show`, `trace on`, `trace off`, `end`, or a process with a command of
/// this version. Fails only if it is out of memory.
pub fn explain_line(alloc: Global, version: Version, line: &[u8]) -> Result<Vec<u8>, NoMemory>
    ensures { IfOk result (λ text. IsExplanationOf version line.now text.items) }
{
    let Some(at) = column_of(LineKind::Session, version, line) else {
        return Ok(Vec::new(alloc));
    };
    let hint = hint_of(version, at.wanted, word_at(line, at.column));
    let text = explanation(alloc, ColumnWords(at, line.len()), hint)?;
    Ok(text.into_bytes())
}

// Returns the line that names the column, and the line of the hint, if there is one.
fn explanation(alloc: Global, words: ColumnWords, hint: Option<Hint>) -> Result<String, AllocError>
    ensures { IfOk result (λ text. string_bytes text ≡ explanation_text words.0 words.1 hint) }
{
    match hint {
        Some(hint) => format!(in alloc; "  {words}\n  {hint}\n"),
        None => format!(in alloc; "  {words}\n"),
    }
}
