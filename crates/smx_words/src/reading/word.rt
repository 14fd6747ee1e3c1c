//! Splits bytes at a separator, and reads single words: names, and the words of enums such as kinds and sides.

ghost use Rattle.std.specs.Prelude.{◌≡◌, ◌≢◌, ◌∷◌, ◌++◌, ℕ, List, IsTrue, ◌↔◌, MatchOption};
ghost use Rattle.std.specs.Fmt.{decimal};
ghost use Rattle.smx_words.specs.LineReading.{IsFoundIn, BeginsWith};
ghost use Rattle.smx_words.specs.Spellable.{FitsName, FitsNumber, FitsWhich, FitsAlways};
ghost use Rattle.smx_words.specs.Spelling.{kind_word, which_word, sides_word, side_word, link_kind_word};
ghost use Rattle.smx_words.specs.Words.{IsFree, SPACE};

use crate::reading::number::number;
use memchr::memchr;
use smx_types::{DriverKind, LinkKind, Name, Side, Sides, Which};

// Returns the bytes before the first separator, and the bytes after this separator.
pub fn cut(bytes: &[u8], separator: u8) -> Option<(&[u8], &[u8])>
    ensures { MatchOption result ((before after : List ℕ) → bytes.now ≢ before ++ separator ∷ after)
        (λ p. IsFree separator p.0.now × (bytes.now ≡ p.0.now ++ separator ∷ p.1.now)) }
{
    match memchr(separator, bytes) {
        None => None,
        Some(i) => Some((&bytes[..i], &bytes[i + 1..])),
    }
}

// Returns the bytes after `front`, if `bytes` start with it.
pub fn after<'a>(bytes: &'a [u8], front: &[u8]) -> Option<&'a [u8]>
    ensures { MatchOption result ((rest : List ℕ) → bytes.now ≢ front.now ++ rest)
        (λ rest. bytes.now ≡ front.now ++ rest.now) }
{
    bytes.strip_prefix(front)
}

// Returns the bytes before `back`, if `bytes` end with it.
pub fn before<'a>(bytes: &'a [u8], back: &[u8]) -> Option<&'a [u8]>
    ensures { MatchOption result ((rest : List ℕ) → bytes.now ≢ rest ++ back.now)
        (λ rest. bytes.now ≡ rest.now ++ back.now) }
{
    bytes.strip_suffix(back)
}

// Returns whether `bytes` equal `text`. For the proof: this is a function, so that each comparison is a single fact in
// the proof of the caller.
pub fn is(bytes: &[u8], text: &[u8]) -> bool
    ensures { IsTrue result ↔ (bytes.now ≡ text.now) }
{
    bytes == text
}

/// Parses a driver's name.
pub fn name(word: &[u8]) -> Option<Name>
    ensures { IsFoundIn FitsName (λ n. n) word.now result }
{
    Name::from_bytes(word)
}

// Parses the name before the first space. Returns the name and the bytes after the space.
pub fn first_name(text: &[u8]) -> Option<(Name, &[u8])>
    ensures { BeginsWith FitsName (λ n. n) text.now result }
{
    let (word, rest) = cut(text, b' ')?;
    let name = name(word)?;
    Some((name, rest))
}

// Parses a name and a number with a space between them.
pub fn name_and_number(text: &[u8]) -> Option<(Name, u32)>
    ensures { MatchOption result
        ((name : List ℕ) (n : ℕ) → FitsName name → FitsNumber n → text.now ≢ name ++ SPACE ∷ decimal n)
        (λ p. FitsName p.0 × FitsNumber p.1 × (text.now ≡ p.0 ++ SPACE ∷ decimal p.1)) }
{
    let Some((name, rest)) = first_name(text) else {
        return None;
    };
    let number = number(rest)?;
    Some((name, number))
}

/// Parses a kind of driver.
pub fn driver_kind(word: &[u8]) -> Option<DriverKind>
    ensures { IsFoundIn FitsAlways kind_word word.now result }
{
    match word {
        b"leaf" => Some(DriverKind::Leaf),
        b"mux" => Some(DriverKind::Mux),
        _ => None,
    }
}

// Parses the kind of driver before the first space. Returns the kind and the bytes after the space.
pub fn first_kind(text: &[u8]) -> Option<(DriverKind, &[u8])>
    ensures { BeginsWith FitsAlways kind_word text.now result }
{
    let (word, rest) = cut(text, b' ')?;
    let kind = driver_kind(word)?;
    Some((kind, rest))
}

/// Parses the word that says which links a command removes: the id of one link, or `all`.
pub fn which(word: &[u8]) -> Option<Which>
    ensures { IsFoundIn FitsWhich which_word word.now result }
{
    if is(word, b"all") {
        return Some(Which::All);
    }
    let id = number(word)?;
    Some(Which::Id(id))
}

/// Parses the word that says which sides of a stream a flush empties.
pub fn sides(word: &[u8]) -> Option<Sides>
    ensures { IsFoundIn FitsAlways sides_word word.now result }
{
    match word {
        b"r" => Some(Sides::R),
        b"w" => Some(Sides::W),
        b"rw" => Some(Sides::RW),
        _ => None,
    }
}

/// Parses the side of a place.
pub fn side(word: &[u8]) -> Option<Side>
    ensures { IsFoundIn FitsAlways side_word word.now result }
{
    match word {
        b"w" => Some(Side::Write),
        b"r" => Some(Side::Read),
        _ => None,
    }
}

// Parses the side of a place before the first space. Returns the side and the bytes after the space.
pub fn first_side(text: &[u8]) -> Option<(Side, &[u8])>
    ensures { BeginsWith FitsAlways side_word text.now result }
{
    let (word, rest) = cut(text, b' ')?;
    let side = side(word)?;
    Some((side, rest))
}

/// Parses the kind of a link.
pub fn link_kind(word: &[u8]) -> Option<LinkKind>
    ensures { IsFoundIn FitsAlways link_kind_word word.now result }
{
    match word {
        b"link" => Some(LinkKind::Ordinary),
        b"plink" => Some(LinkKind::Persistent),
        _ => None,
    }
}
