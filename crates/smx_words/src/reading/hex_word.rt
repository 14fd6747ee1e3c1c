//! Reads words that spell the bytes of a message.

ghost use Rattle.std.specs.Prelude.{◌≡◌, ◌≢◌, ◌<◌, ◌*◌, ◌%◌, ◌∷◌, ◌++◌, true, List, ℕ, length};
ghost use Rattle.std.specs.Prelude.{IfOk, IfErr, MatchBool, MatchOption};
ghost use Rattle.hex.specs.Hex.{encode_lower};
ghost use Rattle.std.specs.Fmt.{decimal};
ghost use Rattle.std.specs.List.{list_all};
ghost use Rattle.smx_words.specs.HexWords.{digit_value, hex_word, is_digit};
ghost use Rattle.smx_words.specs.LineReading.{IsFoundIn, IsSpelled};
ghost use Rattle.smx_words.specs.Spellable.{FitsBytes, FitsNumber};
ghost use Rattle.smx_words.specs.Words.{SPACE};

use crate::reading::number::first_number;
use crate::reading::word::is;
use smx_types::{Bytes, NoMemory};
use std::alloc::Global;

// Parses a number, a space and a word that spells bytes. Fails only if the text has this form and an allocation fails.
pub fn number_and_bytes(alloc: Global, text: &[u8]) -> Result<Option<(u32, Bytes)>, NoMemory>
    ensures reading { IfOk result (λ o. MatchOption o
        ((n : ℕ) (bytes : List ℕ) → FitsNumber n → FitsBytes bytes
        → text.now ≢ decimal n ++ SPACE ∷ hex_word bytes)
        (λ m. FitsNumber m.0 × FitsBytes m.1 × (text.now ≡ decimal m.0 ++ SPACE ∷ hex_word m.1))) }
    ensures wanted { IfErr result (λ _. (n : ℕ) × (bytes : List ℕ) × FitsNumber n × FitsBytes bytes
        × (text.now ≡ decimal n ++ SPACE ∷ hex_word bytes)) }
{
    let Some((number, rest)) = first_number(text) else {
        return Ok(None);
    };
    let Some(bytes) = bytes_of(alloc, rest)? else {
        return Ok(None);
    };
    Ok(Some((number, bytes)))
}

// Parses a word that spells bytes. Fails only if the word spells bytes and an allocation fails.
fn bytes_of(alloc: Global, word: &[u8]) -> Result<Option<Bytes>, NoMemory>
    ensures reading { IfOk result (IsFoundIn FitsBytes hex_word word.now) }
    ensures wanted { IfErr result (λ _. IsSpelled FitsBytes hex_word word.now) }
{
    if is(word, b"-") {
        return Ok(Some(Bytes::new(alloc)));
    }
    if !spells_bytes(word) {
        return Ok(None);
    }
    let bytes = decode(alloc, word)?;
    Ok(Some(Bytes::from_vec(bytes)))
}

// Returns the bytes that the digits spell. `hex::decode` would test each digit again, and a run with 16 MB of messages
// would then take longer than bench/plain (the same program in plain Rust). The loop of `set_bytes` has no test, so the
// compiler decodes many digits at a time.
fn decode(alloc: Global, digits: &[u8]) -> Result<Vec<u8>, NoMemory>
    requires even { length digits.now % 2 ≡ 0 }
    requires digits { list_all is_digit digits.now ≡ true }
    ensures { IfOk result (λ v. FitsBytes v.items × (digits.now ≡ encode_lower v.items)) }
{
    let mut bytes = Vec::new(alloc);
    bytes.resize(digits.len() / 2, 0)?;
    set_bytes(bytes.as_mut_slice(), digits);
    Ok(bytes)
}

fn set_bytes(bytes: &mut [u8], digits: &[u8])
    requires long { length digits.now ≡ 2 * length bytes.old }
    requires digits { list_all is_digit digits.now ≡ true }
    ensures { FitsBytes bytes.new × (digits.now ≡ encode_lower bytes.new) }
{
    for i in 0..bytes.len() {
        let high = value_of(digits[2 * i]);
        let low = value_of(digits[2 * i + 1]);
        bytes[i] = high * 16 + low;
    }
}

// Returns the value of a digit.
fn value_of(digit: u8) -> u8
    requires { is_digit digit ≡ true }
    ensures value { result ≡ digit_value digit }
    ensures range { result < 16 }
{
    if digit < b'a' {
        digit - b'0'
    } else {
        digit - b'a' + 10
    }
}

/// Returns whether a word spells bytes: it is two lower-case hex digits for each byte, or a dash for no byte.
pub fn spells_bytes(word: &[u8]) -> bool
    ensures { MatchBool result (IsSpelled FitsBytes hex_word word.now)
        ((bytes : List ℕ) → FitsBytes bytes → word.now ≢ hex_word bytes) }
{
    if is(word, b"-") {
        return true;
    }
    if word.is_empty() || word.len() % 2 == 1 {
        return false;
    }
    if are_digits(word) {
        return true;
    }
    false
}

// Returns whether all bytes are hex digits. Doesn't stop at the first byte that is not a hex digit, so that the
// compiler can test many bytes at a time.
fn are_digits(word: &[u8]) -> bool
    ensures { result ≡ list_all is_digit word.now }
{
    let mut all = true;
    for byte in word {
        all = all & is_digit(*byte);
    }
    all
}

fn is_digit(byte: u8) -> bool
    ensures { result ≡ is_digit byte }
{
    (b'0' <= byte && byte <= b'9') || (b'a' <= byte && byte <= b'f')
}
