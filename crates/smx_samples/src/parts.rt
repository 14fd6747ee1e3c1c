//! Texts with lines that are repeated with different numbers.

use std::alloc::{AllocError, Global};

/// A part of a text. In a line with a number, `{n}` is this number. Formulas such as `{n + 1}`, `{66 - n}`, `{n / 64}`
/// and `{n % 64}` are computed from this number. If a formula ends with ` hex`, as in `{n hex}`, its value is written
/// as a byte in hex.
#[derive(Clone, Copy)]
pub enum Part<'a> {
    /// This text, once.
    Once(&'a str),
    /// This line, once for each number. The numbers start at the first of these two, and stop before the second.
    Each(u32, u32, &'a str),
    /// The line with this number, once.
    At(u32, &'a str),
}

/// Returns the text of these parts.
pub fn text_of(alloc: Global, parts: &[Part]) -> Result<String, AllocError> {
    let mut text = String::new(alloc);
    for part in parts {
        match part {
            Part::Once(lines) => text.push_str(lines)?,
            Part::Each(first, end, line) => add_lines(&mut text, *first, *end, line)?,
            Part::At(n, line) => add_line(&mut text, line, *n)?,
        }
    }
    Ok(text)
}

fn add_lines(text: &mut String, first: u32, end: u32, line: &str) -> Result<(), AllocError> {
    for n in first..end {
        add_line(text, line, n)?;
    }
    Ok(())
}

// Appends the line with this number.
fn add_line(text: &mut String, line: &str, n: u32) -> Result<(), AllocError> {
    for piece in line.split('{') {
        match piece.split_once('}') {
            Some((formula, rest)) => {
                add_number(text, formula, n)?;
                text.push_str(rest)?;
            }
            None => text.push_str(piece)?,
        }
    }
    Ok(())
}

// Appends the value of a formula for this number.
fn add_number(text: &mut String, formula: &str, n: u32) -> Result<(), AllocError> {
    match formula.strip_suffix(" hex") {
        Some(formula) => write!(text, "{:02x}", value_of(formula, n)),
        None => write!(text, "{}", value_of(formula, n)),
    }
}

// Returns the value of a formula, which is a word, or two words with an operator between them.
fn value_of(formula: &str, n: u32) -> u32 {
    match formula.split_once(' ') {
        Some((left, rest)) => computed(number_of(left, n), rest, n),
        None => number_of(formula, n),
    }
}

fn computed(left: u32, rest: &str, n: u32) -> u32 {
    let Some((sign, right)) = rest.split_once(' ') else {
        return left;
    };
    let right = number_of(right, n);
    match sign {
        "+" => left.wrapping_add(right),
        "-" => left.wrapping_sub(right),
        "/" => left.checked_div(right).unwrap_or(0),
        _ => left.checked_rem(right).unwrap_or(0),
    }
}

// Returns the value of a word, which is `n` or digits.
fn number_of(word: &str, n: u32) -> u32 {
    if word == "n" {
        n
    } else {
        word.parse().unwrap_or(0)
    }
}
