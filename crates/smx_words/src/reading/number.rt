//! Reads numbers: decimal, below 2^32, without a sign or a leading zero.

ghost use Rattle.std.specs.Prelude.{◌≡◌, ◌≢◌, ◌∷◌, ◌++◌, ℕ, take, ◌≤◌, ◌==◌, ◌&&◌, ◌||◌, nat_lt};
ghost use Rattle.std.specs.Prelude.{length, slice_index, MatchOption};
ghost use Rattle.std.specs.Char.{is_ascii_digit};
ghost use Rattle.std.specs.Fmt.{decimal};
ghost use Rattle.std.specs.List.{prefix_len, take_while};
ghost use Rattle.smx_words.specs.LineReading.{IsFoundIn, BeginsWith};
ghost use Rattle.smx_words.specs.Spellable.{FitsNumber, FitsProcess};
ghost use Rattle.smx_words.specs.Words.{SPACE};

use smx_types::Process;

/// Parses a word that is a number.
pub fn number(word: &[u8]) -> Option<u32>
    ensures { IsFoundIn FitsNumber decimal word.now result }
{
    let (number, end) = leading_number(word)?;
    if end == word.len() {
        return Some(number);
    }
    None
}

// Parses the number before the first space. Returns the number and the bytes after the space.
pub fn first_number(text: &[u8]) -> Option<(u32, &[u8])>
    ensures { BeginsWith FitsNumber decimal text.now result }
{
    let (number, end) = leading_number(text)?;
    if end < text.len() && text[end] == b' ' {
        Some((number, &text[end + 1..]))
    } else {
        None
    }
}

// Parses two numbers with a space between them.
pub fn pair(text: &[u8]) -> Option<(u32, u32)>
    ensures { MatchOption result
        ((a b : ℕ) → FitsNumber a → FitsNumber b → text.now ≢ decimal a ++ SPACE ∷ decimal b)
        (λ p. FitsNumber p.0 × FitsNumber p.1 × (text.now ≡ decimal p.0 ++ SPACE ∷ decimal p.1)) }
{
    let (first, rest) = first_number(text)?;
    let second = number(rest)?;
    Some((first, second))
}

// Parses the process before the first space. Returns the process and the bytes after the space.
pub fn first_process(text: &[u8]) -> Option<(Process, &[u8])>
    ensures { BeginsWith FitsProcess decimal text.now result }
{
    let (number, rest) = first_number(text)?;
    let process = Process::new(number)?;
    Some((process, rest))
}

// Parses the leading digits as a number. Returns the number, and how many digits there are.
fn leading_number(text: &[u8]) -> Option<(u32, usize)>
    ensures { MatchOption result ((n : ℕ) → FitsNumber n → take_while is_ascii_digit text.now ≢ decimal n)
        (λ p. FitsNumber p.0 × (prefix_len is_ascii_digit text.now ≡ p.1) × (take p.1 text.now ≡ decimal p.0)) }
{
    let mut value = 0u64;
    let mut end = 0;
    'digits: while end < text.len() && text[end].is_ascii_digit() {
        value = value * 10 + (text[end] - b'0') as u64;
        if value > u32::MAX as u64 {
            return None;
        }
        end += 1;
    }
    if starts_wrong(text, end) {
        return None;
    }
    Some((value as u32, end))
}

// Returns whether the first `end` bytes, which are digits, don't spell a number: there is no digit, or a zero comes
// before other digits.
fn starts_wrong(text: &[u8], end: usize) -> bool
    requires { end ≤ length text.now }
    ensures { result ≡ ((end == 0) || ((slice_index text.now 0 == 48) && nat_lt 1 end)) }
{
    end == 0 || (text[0] == b'0' && end > 1)
}
