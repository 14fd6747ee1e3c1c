//! A hint on a word that is not valid in its column.

ghost use Rattle.std.specs.List.{list_all, list_any};
ghost use Rattle.std.specs.Prelude.{◌≡◌, MatchBool, MatchOption, None, Some};
ghost use Rattle.smx_explain.specs.Hints.{IsHintOn, IsLater, are_exchanged, first_near, hint_words, is_any_digit};
ghost use Rattle.smx_explain.specs.Hints.{is_capital_digit, is_capital_hex, is_near, meant};
ghost use Rattle.smx_explain.specs.Rows.{rows_of};

use crate::kinds::{Choice, Value, Wanted};
use crate::rows::chosen;
use crate::tables::{Row, rows_in};
use smx_types::Version;
use std::fmt;

/// A hint on a word that is not valid in its column.
#[derive(Clone, Copy, Debug, PartialEq, Eq)]
pub enum Hint {
    /// The version is 1, and version 2 has this word in this column.
    LaterVersion,
    /// Bytes are expected, and the word consists of hex digits, some of them capital letters.
    SmallLetters,
    /// The fixed word into which one edit turns the wrong word.
    Meant(&'static str),
}

impl fmt::Display for Hint {
    ghost output = { λ hint. Some (hint_words hint) };

    fn fmt<W: fmt::Write>(&self, f: &mut fmt::Formatter<W>) -> fmt::Result {
        match self {
            Hint::LaterVersion => f.write_str("version 2 has this word, and version 1 has not"),
            Hint::SmallLetters => f.write_str("the letters of hex digits are small, 'a' to 'f'"),
            Hint::Meant(verb) => write!(f, "did you mean '{verb}'?"),
        }
    }
}

/// Returns the hint on a word, if there is a hint. `wanted` says what is expected in the column of the word. Takes no
/// memory.
pub fn hint_of(version: Version, wanted: Wanted, word: &[u8]) -> Option<Hint>
    ensures { IsHintOn version wanted word.now result }
{
    if is_of_later_version(version, wanted, word) {
        return Some(Hint::LaterVersion);
    }
    match wanted {
        Wanted::Value(Value::Bytes) if is_capital_hex(word) => Some(Hint::SmallLetters),
        Wanted::Value(_) => None,
        Wanted::Choice(choice) => Some(Hint::Meant(near_word(version, choice, word)?)),
    }
}

// Returns whether the version is 1, and version 2 has this word in this column.
fn is_of_later_version(version: Version, wanted: Wanted, word: &[u8]) -> bool
    ensures { MatchBool result (IsLater version wanted word.now) (IsLater version wanted word.now → ⊥) }
{
    match (version, wanted) {
        (Version::V1, Wanted::Choice(choice)) => chosen(Version::V2, choice, word).is_some(),
        (Version::V1, Wanted::Value(_)) | (Version::V2, _) => false,
    }
}

// Returns whether a word consists of hex digits, some of them capital letters.
fn is_capital_hex(word: &[u8]) -> bool
    ensures { result ≡ is_capital_hex word.now }
{
    has_capital_digit(word) && are_any_digits(word)
}

fn has_capital_digit(word: &[u8]) -> bool
    ensures { result ≡ list_any is_capital_digit word.now }
{
    word.iter().any(|byte| is_capital_digit(*byte))
}

fn are_any_digits(word: &[u8]) -> bool
    ensures { result ≡ list_all is_any_digit word.now }
{
    word.iter().all(|byte| is_any_digit(*byte))
}

fn is_capital_digit(byte: u8) -> bool
    ensures { result ≡ is_capital_digit byte }
{
    b'A' <= byte && byte <= b'F'
}

fn is_any_digit(byte: u8) -> bool
    ensures { result ≡ is_any_digit byte }
{
    (b'0' <= byte && byte <= b'9') || (b'a' <= byte && byte <= b'f') || is_capital_digit(byte)
}

// Returns the first fixed word of a choice that can be made from `word` by at most one edit. A choice is a kind of word
// that decides how a line goes on, such as the first word of a reply. Its fixed words are those of its rows; some
// choices also allow other words, such as numbers. An edit replaces, adds or leaves out a byte, or exchanges two
// neighbouring bytes. (If `word` is itself a fixed word of the choice, it needs no edit.) At the beginning of a line of
// programs, and after a process in a session, the words of the commands are tried too. Returns `None` for an empty word.
#[tactic(auto, using(crate::proofs::NearLemmas::first_found, crate::proofs::NearLemmas::first_missed))]
fn near_word(version: Version, choice: Choice, word: &[u8]) -> Option<&'static str>
    ensures { MatchOption result (meant version choice word.now ≡ None)
        (λ verb. meant version choice word.now ≡ Some verb.now) }
{
    if word.is_empty() {
        return None;
    }
    if let Some(verb) = near_row(rows_in(version, choice), word) {
        return Some(verb);
    }
    match choice {
        Choice::ProgramsLine | Choice::SessionCommand => {
            near_row(rows_in(version, Choice::Command), word)
        }
        _ => None,
    }
}

// Returns the first word of some rows that can be made from `word` by at most one edit.
fn near_row(rows: &'static [Row], word: &[u8]) -> Option<&'static str>
    ensures { MatchOption result (first_near (rows_of rows.now) word.now ≡ None)
        (λ verb. first_near (rows_of rows.now) word.now ≡ Some verb.now) }
{
    if let [(first, _, _), more @ ..] = rows {
        if is_near(word, first.as_bytes()) {
            return Some(*first);
        }
        return near_row(more, word);
    }
    None
}

// Returns whether at most one edit turns `word` into `verb`, a fixed word.
fn is_near(word: &[u8], verb: &[u8]) -> bool
    ensures { result ≡ is_near word.now verb.now }
{
    let Some((first, rest)) = word.split_first() else {
        return verb.len() <= 1;
    };
    let Some((letter, more)) = verb.split_first() else {
        return rest.is_empty();
    };
    (*first == *letter && is_near(rest, more))
        || rest == more
        || rest == verb
        || word == more
        || are_exchanged(word, verb)
}

// Returns whether the first two bytes of one word are those of the other in exchanged order, and the rest of both words
// is equal.
fn are_exchanged(word: &[u8], verb: &[u8]) -> bool
    ensures { result ≡ are_exchanged word.now verb.now }
{
    if word.len() < 2 || verb.len() < 2 {
        return false;
    }
    word[0] == verb[1] && word[1] == verb[0] && word[2..] == verb[2..]
}
