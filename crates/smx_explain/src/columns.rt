//! The column at which a line becomes invalid, and the words for it.

ghost use Rattle.std.specs.Prelude.{◌≡◌, ℕ, List, ◌∷◌, ◌++◌, [], MatchOption, Some};
ghost use Rattle.smx_words.specs.Words.{IsFree, SPACE};
ghost use Rattle.smx_explain.specs.ColumnWords.{column_words, space_words};
ghost use Rattle.smx_explain.specs.Columns.{IsColumn, IsPartAt, IsWhole, first_choice, left_of};

use crate::kinds::{Choice, LineKind, Wanted};
use crate::rows::{FoundRow, go_on};
use memchr::memchr;
use smx_types::Version;
use std::fmt;

/// The column at which a line becomes invalid, and what was expected there.
#[derive(Clone, Copy, Debug, PartialEq, Eq)]
pub struct LineColumn {
    /// The column of the unexpected or missing word, counted in bytes from 1.
    pub column: usize,
    pub wanted: Wanted,
}

/// A column of a line, and the number of bytes of the line. It prints the column and what was expected there.
#[derive(Clone, Copy)]
pub struct ColumnWords(pub LineColumn, pub usize);

impl fmt::Display for ColumnWords {
    ghost output = { λ words. Some (column_words words.0 words.1) };

    fn fmt<W: fmt::Write>(&self, f: &mut fmt::Formatter<W>) -> fmt::Result {
        let LineColumn { column, wanted } = self.0;
        let space = space_words(wanted, column, self.1);
        write!(f, "column {column}: {wanted} is wanted{space}")
    }
}

// If only a space at the end of the line is wrong, returns words that say this. Otherwise returns no words.
fn space_words(wanted: Wanted, column: usize, len: usize) -> &'static str
    ensures { result.now ≡ space_words wanted column len }
{
    if wanted == Wanted::Choice(Choice::End) && len < column {
        return ", with no space before it";
    }
    ""
}

/// Returns the column of the first wrong word, or of a missing word. A word is wrong if no valid line of this kind and
/// version begins with the words before it and then this word. Returns `None` if the line is valid. Takes no memory.
pub fn column_of(kind: LineKind, version: Version, line: &[u8]) -> Option<LineColumn>
    ensures { MatchOption result (IsWhole kind version line.now) (λ at. IsColumn kind version line.now at) }
{
    let mut row = FoundRow {
        values: &[],
        next: first_choice(kind),
    };
    let mut rest = Some(line);
    let mut column = 1usize;
    'words: while let Some(text) = rest {
        let (word, behind) = first_word(text);
        let Some(next) = go_on(version, row, word) else {
            let wanted = row.wanted();
            return Some(LineColumn { column, wanted });
        };
        row = next;
        rest = behind;
        column += word.len() + 1;
    }
    let wanted = row.wanted();
    if wanted.may_end() {
        return None;
    }
    Some(LineColumn { column, wanted })
}

/// Returns the word that begins at this column of a line. Columns are counted from 1. The word is empty if the line
/// ends before the column.
pub fn word_at(line: &[u8], column: usize) -> &[u8]
    ensures { (word : List ℕ) → IsPartAt line.now column word → result.now ≡ word }
{
    match line.get(column.saturating_sub(1)..) {
        Some(rest) => first_word(rest).0,
        None => b"",
    }
}

// Returns the `Choice` for the first word of a line of this kind: which words it may be, and how the line goes on after
// each.
fn first_choice(kind: LineKind) -> Choice
    ensures { result ≡ first_choice kind }
{
    match kind {
        LineKind::Programs => Choice::ProgramsLine,
        LineKind::Transcript => Choice::TranscriptLine,
        LineKind::Session => Choice::SessionLine,
    }
}

// Splits a text at its first space, if it has one. Returns the word before the space, and what comes after the space.
fn first_word(text: &[u8]) -> (&[u8], Option<&[u8]>)
    ensures free { IsFree SPACE result.0.now }
    ensures cut { text.now ++ SPACE ∷ [] ≡ result.0.now ++ SPACE ∷ left_of result.1 }
{
    match memchr(b' ', text) {
        Some(at) => (&text[..at], Some(&text[at + 1..])),
        None => (text, None),
    }
}
