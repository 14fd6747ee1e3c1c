//! Reads a text line by line.

ghost use Rattle.std.specs.Prelude.{◌≡◌, ◌≢◌, ◌<◌, ◌-◌, ◌^◌, ◌∷◌, ◌++◌, [], List, codes};
ghost use Rattle.std.specs.Prelude.{IfOk, IfErr, MatchOption, OnOk};
ghost use Rattle.smx_types.specs.declared.version.Version.{Version as AnyVersion};
ghost use Rattle.smx_text.specs.Grammar.{Grammar, IsBegun, IsOneLine, IsFault, ReadsAny, header, line_text};
ghost use Rattle.smx_words.specs.Words.{LINE_FEED};
ghost use Rattle.smx_text.specs.Reading.{AnswersText, EndsAs, EndsText};

use crate::text_fault::{Cause, TextFault};
use memchr::memchr;
use smx_types::Version;
use std::alloc::Global;

// The value of the lines of a text that were read so far. It grows line by line.
pub trait Draft: Drop {
    // The type of the value of a whole text.
    type Whole: Drop;

    ghost Line: { Type 0 };

    // The grammar of each version.
    ghost grammar: { AnyVersion → Grammar Self.Whole Line };

    // The version of the text.
    ghost version_of: { Self → AnyVersion };

    // The lines added so far.
    ghost lines: { Self → List Line };

    // The header of a text of this version.
    fn header(version: Version) -> &'static [u8]
        ensures { result.now ≡ header (grammar version) };

    // Makes a draft without lines, for a text of this version.
    fn begin(alloc: Global, version: Version) -> Self
        ensures none { lines result ≡ [] }
        ensures version { version_of result ≡ version };

    // Adds a line, or returns why it is refused. After a refusal the draft can't be used any more.
    fn add(&mut self, alloc: Global, text: &[u8]) -> Result<(), Cause>
        requires begun { IsBegun (grammar (version_of self.old)) (lines self.old) }
        requires other { text.now ≢ codes "end" }
        ensures answers { AnswersText (grammar (version_of self.old)) (lines self.old) text.now
            (lines self.new) result }
        ensures version { OnOk result (version_of self.new ≡ version_of self.old) };

    // Returns the value of the lines, if the line `end` is allowed after them.
    fn finish(self) -> Option<Self::Whole>
        requires begun { IsBegun (grammar (version_of self)) (lines self) }
        ensures { EndsAs (grammar (version_of self)) (lines self) result };

    ghost end_is: { (v : AnyVersion) → line_text (grammar v) (grammar v).end ≡ codes "end" };
}

/// Splits off the first line. Returns it without its line feed, and the bytes after the line feed. Returns `None` if
/// there is no line feed.
pub fn next_line(bytes: &[u8]) -> Option<(&[u8], &[u8])>
    ensures next { MatchOption result (IsOneLine bytes.now)
        (λ x. IsOneLine x.0.now × (bytes.now ≡ x.0.now ++ LINE_FEED ∷ x.1.now)) }
{
    let at = memchr(b'\n', bytes)?;
    Some((&bytes[..at], &bytes[at + 1..]))
}

// Parses a text in the version that its header names.
pub fn read<D: Draft>(alloc: Global, bytes: &[u8]) -> Result<D::Whole, TextFault>
    requires { (v : AnyVersion) → IsBegun (D.grammar v) [] }
    ensures { ReadsAny D.grammar bytes.now result }
{
    let (version, behind) = after_header::<D>(bytes)?;
    let mut draft = D::begin(alloc, version);
    let mut rest = behind;
    let mut number = 2usize;
    'lines: loop {
        let Some((text, after)) = next_line(rest) else {
            return Err(Cause::Cut.at(number));
        };
        if text == b"end".as_slice() {
            return ended(draft, after, number);
        }
        if let Err(cause) = draft.add(alloc, text) {
            return Err(cause.at(number));
        }
        rest = after;
        number += 1;
    }
}

// Parses the header. Returns the version that it names, and the bytes after the line of the header.
fn after_header<D: Draft>(bytes: &[u8]) -> Result<(Version, &[u8]), TextFault>
    ensures ok { IfOk result (λ x. bytes.now ≡ header (D.grammar x.0) ++ LINE_FEED ∷ x.1.now) }
    ensures err { IfErr result (λ f. (v : AnyVersion) → IsFault (D.grammar v) bytes.now f.line f.cause) }
{
    let Some((first, rest)) = next_line(bytes) else {
        return Err(Cause::Cut.at(1));
    };
    if first == D::header(Version::V1) {
        return Ok((Version::V1, rest));
    }
    if first == D::header(Version::V2) {
        return Ok((Version::V2, rest));
    }
    Err(Cause::Header.at(1))
}

// Ends a text at line `number`, which is `end`. Returns the value of the text. Fails if the line `end` is not allowed
// there yet, or if a byte follows it.
fn ended<D: Draft>(draft: D, after: &[u8], number: usize) -> Result<D::Whole, TextFault>
    requires begun { IsBegun (D.grammar (D.version_of draft)) (D.lines draft) }
    requires room { number < 2 ^ 64 - 1 }
    ensures { EndsText (D.grammar (D.version_of draft)) (D.lines draft) after.now number result }
{
    let Some(whole) = draft.finish() else {
        return Err(Cause::Form.at(number));
    };
    if !after.is_empty() {
        return Err(Cause::Trailing.at(number + 1));
    }
    Ok(whole)
}
