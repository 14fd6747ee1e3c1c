//! Writes values as the words of a line.

ghost use Rattle.std.specs.Prelude.{◌≡◌, ℕ, ◌++◌, ◌∷◌, [], List, map, OnOk};
ghost use Rattle.std.specs.List.{AllByRecursion};
ghost use Rattle.smx_words.specs.Words.{LINE_FEED, line_of, text_of};

mod command;
pub mod entry;
pub mod line;
mod word;

use smx_types::NoMemory;

/// A type of values, each of which is spelled as one line of a text.
pub trait Spell {
    // The words of the value's line.
    ghost words: { Self → List (List ℕ) };

    // The value can be spelled.
    ghost Fits: { Self → Type 0 };

    /// Appends the line of this value and a line feed. If an allocation fails, `out` may contain a part of the line.
    fn write_line(&self, out: &mut Vec<u8>) -> Result<(), NoMemory>
        ensures written { OnOk result (out.new.items
            ≡ out.old.items ++ line_of (words self.now) ++ LINE_FEED ∷ []) }
        // The value can be spelled, so the line can be read back. No body tests this: each type that implements `Spell`
        // can hold only values that fit.
        ensures fits { OnOk result (Fits self.now) };
}

/// Appends one line for each value. If an allocation fails, `out` may contain some of the lines.
pub fn write_lines<T: Spell>(out: &mut Vec<u8>, items: &[T]) -> Result<(), NoMemory>
    ensures written { OnOk result (out.new.items ≡ out.old.items ++ text_of (map T.words items.now)) }
    ensures fits { OnOk result (AllByRecursion T.Fits items.now) }
{
    for item in items {
        item.write_line(out)?;
    }
    Ok(())
}
