//! The lines of a text, and how a line is shown, whatever its bytes.

ghost use Rattle.std.specs.Prelude.{◌≡◌, ◌≤◌, ◌<◌, ◌+◌, ◌++◌, ℕ, List, length};
ghost use Rattle.std.specs.List.{AllByRecursion};
ghost use Rattle.smx_explain.specs.Differences.{IsFirstLine};
ghost use Rattle.smx_words.specs.Words.{lines_text};
ghost use Rattle.smx_text.specs.Grammar.{IsOneLine};

use smx_text::next_line;
use std::fmt;

// How many columns of a line are shown.
const COLUMNS: usize = 80;

// How many bytes are shown before the reported byte, if the first `COLUMNS` columns don't include it.
const BEFORE: usize = 60;

/// Returns line `number` of a text, counted from 1, without its line feed. The last line may lack its line feed. Takes
/// no memory.
pub fn line_at(text: &[u8], number: usize) -> &[u8]
    ensures { (before : List (List ℕ)) (rest : List ℕ) → AllByRecursion IsOneLine before
        → number ≡ length before + 1 → text.now ≡ lines_text before ++ rest → IsFirstLine result.now rest }
{
    let mut rest = text;
    let mut at = 1usize;
    'lines: while at < number {
        let Some((_, after)) = next_line(rest) else {
            return rest;
        };
        rest = after;
        at += 1;
    }
    match next_line(rest) {
        Some((line, _)) => line,
        None => rest,
    }
}

/// Writes at most 80 columns of a line. `told` is the number of a byte, counted from 1. Writes the first 80 columns if
/// they include this byte, and else those that start 60 bytes before this byte. Writes two dots at each end at which a
/// part of the line is left out.
pub fn write_line<W: fmt::Write>(
    f: &mut fmt::Formatter<W>,
    line: &[u8],
    told: usize,
) -> fmt::Result {
    let from = begin(line, told);
    let to = end(line, from);
    if from > 0 {
        f.write_str("..")?;
    }
    for at in from..to {
        write_byte(f, line, at)?;
    }
    if to < line.len() {
        f.write_str("..")?;
    }
    Ok(())
}

// Returns the index from which a line is shown, so that byte `told` is shown.
fn begin(line: &[u8], told: usize) -> usize
    ensures { result ≤ length line.now }
{
    let to = end(line, 0);
    if to == line.len() || told <= to {
        return 0;
    }
    told.saturating_sub(BEFORE + 1).min(line.len())
}

// The line is shown from index `from`. Returns the index at which it is cut.
fn end(line: &[u8], from: usize) -> usize
    requires { from ≤ length line.now }
    ensures { result ≤ length line.now }
{
    let mut left = COLUMNS;
    for at in from..line.len() {
        let width = if is_seen(line, at) { 1 } else { 4 };
        if left < width {
            return at;
        }
        left -= width;
    }
    line.len()
}

// Returns whether a byte is shown as it is: it is printable, not a space at the end of the line, and not a backslash.
fn is_seen(line: &[u8], at: usize) -> bool
    requires { at < length line.now }
{
    match line[at] {
        b'\\' => false,
        b' ' => at + 1 < line.len(),
        byte => b' ' < byte && byte <= b'~',
    }
}

// Writes a byte as it is, or by its hex digits.
fn write_byte<W: fmt::Write>(f: &mut fmt::Formatter<W>, line: &[u8], at: usize) -> fmt::Result
    requires { at < length line.now }
{
    let byte = line[at];
    if is_seen(line, at) {
        f.write_char(byte as char)
    } else {
        write!(f, "\\x{byte:02x}")
    }
}
