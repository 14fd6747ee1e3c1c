//! One word of bits (a mask) for each driver. Bit b of the word of driver a is set if a path of links leads from a to
//! b.

ghost use Rattle.std.specs.Prelude.{◌≡◌, ◌<◌, ◌≤◌, ◌^◌, List, [], ◌∷◌, ◌++◌, bit_or, length};
ghost use Rattle.std.specs.List.{All};
ghost use Rattle.smx_types.specs.declared.link.Link.{Link as LinkValue};
ghost use Rattle.smx_links.specs.declared.masks.TheConstants.{WORD_BITS};
ghost use Rattle.smx_links.specs.Masks.{is_set, has_bit, AreJoined, AreMasks, HasAnyBit, IsWithin};

use smx_types::Link;

/// A bit for each driver.
pub type Word = u128;

/// The number of bits of a word, and so the maximum number of drivers of a table.
pub const WORD_BITS: u8 = 128;

fn is_set(word: Word, b: u8) -> bool
    requires { b < WORD_BITS }
    ensures { result ≡ is_set word b }
{
    word >> b & 1 == 1
}

/// Returns whether bit b of word a is set. Returns false if there is no word a, or if words have no bit b.
pub fn has_bit(words: &[Word], a: u8, b: u8) -> bool
    ensures { result ≡ has_bit words.now a b }
{
    if b >= WORD_BITS {
        return false;
    }
    match words.get(a as usize) {
        Some(word) => is_set(*word, b),
        None => false,
    }
}

/// Returns whether some bit of word a is set. Returns false if there is no word a.
pub fn has_any_bit(words: &[Word], a: u8) -> bool
    ensures { HasAnyBit words.now a result }
{
    match words.get(a as usize) {
        Some(word) => *word != 0,
        None => false,
    }
}

fn with_bit(word: Word, b: u8) -> Word
    requires { b < WORD_BITS }
    ensures { result ≡ bit_or word (2 ^ b) }
{
    word | 1 << b
}

// Sets the bits for a new link. Afterwards the upper driver, and each driver that reaches the upper driver, reach the
// lower driver and all drivers that the lower driver reaches.
fn join(words: &mut [Word], upper: u8, lower: u8)
    requires upper { upper < length words.old }
    requires lower { lower < length words.old }
    requires few { length words.old ≤ WORD_BITS }
    ensures length { length words.new ≡ length words.old }
    ensures joined { AreJoined words.old upper lower words.new }
{
    let reached = with_bit(words[lower as usize], lower);
    for a in 0..words.len() {
        if a == upper as usize || is_set(words[a], upper) {
            words[a] |= reached;
        }
    }
}

/// `words` are the masks of a list of links, one word for each driver. Changes them to the masks of this list with
/// `link` added. If the upper driver already reaches the lower one, no mask changes.
pub fn join_link(words: &mut [Word], link: Link)
    requires within { IsWithin (length words.old) link }
    requires few { length words.old ≤ WORD_BITS }
    ensures length { length words.new ≡ length words.old }
    ensures masks { (links : List LinkValue) → AreMasks links words.old → AreMasks (links ++ link ∷ []) words.new }
{
    if !has_bit(words, link.ctl.driver, link.lower.driver) {
        join(words, link.ctl.driver, link.lower.driver);
    }
}

/// Sets the words to the masks of these links.
pub fn recompute(words: &mut [Word], links: &[Link])
    requires within { All (IsWithin (length words.old)) links.now }
    requires few { length words.old ≤ WORD_BITS }
    ensures length { length words.new ≡ length words.old }
    ensures masks { AreMasks links.now words.new }
{
    words.fill(0);
    for link in links {
        join_link(words, *link);
    }
}
