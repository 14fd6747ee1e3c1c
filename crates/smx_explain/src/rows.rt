//! How a line goes on after each word.

ghost use Rattle.std.specs.Prelude.{◌≡◌, MatchBool, MatchOption, List};
ghost use Rattle.smx_explain.specs.Columns.{wanted_of};
ghost use Rattle.smx_explain.specs.Rows.{GoesOn, IsChosen, IsFixed, IsNoRow, IsOther, IsRow, IsValue, rows_of};
ghost use Rattle.smx_explain.specs.declared.kinds.Choice.{Choice as AnyChoice};
ghost use Rattle.smx_explain.specs.declared.kinds.Value.{Value as AnyValue};

use crate::kinds::{Choice, Value, Wanted};
use crate::tables::{Row, rows_in};
use smx_types::{MAX_PROCESSES, Version};
use smx_words::{driver_kind, link_kind, name, number, side, sides, spells_bytes, which};

/// How a line goes on: with words for these values, and then with a word of a choice.
#[derive(Clone, Copy)]
pub struct FoundRow {
    pub values: &'static [Value],
    pub next: Choice,
}

impl FoundRow {
    /// Returns what the next word has to be.
    pub fn wanted(self) -> Wanted
        ensures { result ≡ wanted_of self.values.now self.next }
    {
        match self.values {
            [] => Wanted::Choice(self.next),
            [value, ..] => Wanted::Value(*value),
        }
    }
}

// Returns how a line goes on after a fixed word.
fn find(rows: &'static [Row], word: &[u8]) -> Option<FoundRow>
    ensures { MatchOption result (IsNoRow (rows_of rows.now) word.now)
        (λ row. IsRow (rows_of rows.now) word.now row.values.now row.next) }
{
    if let [(first, values, next), more @ ..] = rows {
        if first.as_bytes() == word {
            return Some(FoundRow {
                values: *values,
                next: *next,
            });
        }
        return find(more, word);
    }
    None
}

fn is_value(value: Value, word: &[u8]) -> bool
    ensures { MatchBool result (IsValue value word.now) (IsValue value word.now → ⊥) }
{
    match value {
        Value::Name => name(word).is_some(),
        Value::DriverKind => driver_kind(word).is_some(),
        Value::Number => number(word).is_some(),
        Value::Process => is_process(word),
        Value::Which => which(word).is_some(),
        Value::Sides => sides(word).is_some(),
        Value::Side => side(word).is_some(),
        Value::LinkKind => link_kind(word).is_some(),
        Value::Bytes => spells_bytes(word),
    }
}

fn is_process(word: &[u8]) -> bool
    ensures { MatchBool result (IsValue AnyValue.Process word.now) (IsValue AnyValue.Process word.now → ⊥) }
{
    match number(word) {
        Some(number) if number < MAX_PROCESSES => true,
        Some(_) | None => false,
    }
}

// If the word gives a value of this kind, returns that the line goes on with `values` and then with the choice `next`.
fn then(value: Value, word: &[u8], values: &'static [Value], next: Choice) -> Option<FoundRow>
    ensures { MatchOption result (IsValue value word.now → ⊥)
        (λ row. IsValue value word.now × (row.values.now ≡ values.now) × (row.next ≡ next)) }
{
    if is_value(value, word) {
        return Some(FoundRow { values, next });
    }
    None
}

// Returns how a line goes on after a word that is not a fixed word.
fn other(version: Version, choice: Choice, word: &[u8]) -> Option<FoundRow>
    ensures { MatchOption result
        ((values : List AnyValue) (next : AnyChoice) → IsOther version choice word.now values next → ⊥)
        (λ row. IsOther version choice word.now row.values.now row.next) }
{
    match choice {
        Choice::ProgramsLine | Choice::SessionCommand => command(version, word),
        Choice::TranscriptLine => then(Value::Process, word, &[], Choice::Command),
        Choice::SessionLine => then(Value::Process, word, &[], Choice::SessionCommand),
        Choice::Serials => then(Value::Number, word, &[], Choice::Serials),
        _ => None,
    }
}

// Returns how a line goes on after the first word of a command, where commands have no replies (in programs and in
// sessions).
fn command(version: Version, word: &[u8]) -> Option<FoundRow>
    ensures { MatchOption result
        ((values : List AnyValue) → IsFixed version AnyChoice.Command word.now values AnyChoice.Equals → ⊥)
        (λ row. IsFixed version AnyChoice.Command word.now row.values.now AnyChoice.Equals
        × (row.next ≡ AnyChoice.End)) }
{
    let row = find(rows_in(version, Choice::Command), word)?;
    Some(FoundRow {
        values: row.values,
        next: Choice::End,
    })
}

/// Returns how a line goes on after a word of this choice, or `None` if the word is not one of this choice.
pub fn chosen(version: Version, choice: Choice, word: &[u8]) -> Option<FoundRow>
    ensures { MatchOption result
        ((values : List AnyValue) (next : AnyChoice) → IsChosen version choice word.now values next → ⊥)
        (λ row. IsChosen version choice word.now row.values.now row.next) }
{
    match find(rows_in(version, choice), word) {
        Some(row) => Some(row),
        None => other(version, choice, word),
    }
}

/// Returns how a line goes on after a word, or `None` if the word was not expected. `row` says what was expected.
pub fn go_on(version: Version, row: FoundRow, word: &[u8]) -> Option<FoundRow>
    ensures { MatchOption result
        ((more : List AnyValue) (then : AnyChoice) → GoesOn version row.values.now row.next word.now more then → ⊥)
        (λ found. GoesOn version row.values.now row.next word.now found.values.now found.next) }
{
    match row.values {
        [] => chosen(version, row.next, word),
        [value, more @ ..] => then(*value, word, more, row.next),
    }
}
