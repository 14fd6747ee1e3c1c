//! Why a text is refused.

ghost use Rattle.std.specs.Prelude.{◌≡◌, Some};
ghost use Rattle.smx_text.specs.FaultWords.{cause_words, text_fault_words};
ghost use Rattle.smx_text.specs.declared.text_fault.Cause.TheVariants.{NoMemory as memory};

use smx_types::NoMemory;
use std::alloc::AllocFailed;
use std::fmt;

/// The cause of a fault at a line of a text.
#[derive(Clone, Copy, Debug, PartialEq, Eq)]
pub enum Cause {
    /// The first line ends with a line feed, and is not the header.
    Header,
    /// The line ends with a line feed, but is not one of the lines that are allowed there.
    Form,
    /// The line is well-formed, but the limit for lines of its kind is reached.
    Many,
    /// The line has no line feed: the input ends within the line, or at its start. No earlier line is `end`.
    Cut,
    /// A byte follows the line `end`.
    Trailing,
    /// An allocation failed while the line was read. The line is well-formed, allowed there and within the limit. So
    /// this line has no other fault.
    NoMemory,
}

/// The first fault of a text: its line, numbered from 1, and its cause.
#[derive(Clone, Copy, Debug, PartialEq, Eq)]
pub struct TextFault {
    pub line: usize,
    pub cause: Cause,
}

impl Cause {
    // Returns this cause as a fault at `line`.
    pub(crate) fn at(self, line: usize) -> TextFault
        ensures { result ≡ record { line = line; cause = self } }
    {
        TextFault { line, cause: self }
    }
}

impl<T: Drop> From<AllocFailed<T>> for Cause {
    ghost from_gives = { λ _ e. e ≡ memory };

    fn from(_e: AllocFailed<T>) -> Cause {
        Cause::NoMemory
    }
}

impl From<NoMemory> for Cause {
    ghost from_gives = { λ _ e. e ≡ memory };

    fn from(_e: NoMemory) -> Cause {
        Cause::NoMemory
    }
}

impl fmt::Display for Cause {
    ghost output = { λ cause. Some (cause_words cause) };

    fn fmt<W: fmt::Write>(&self, f: &mut fmt::Formatter<W>) -> fmt::Result {
        match self {
            Cause::Header => f.write_str("header"),
            Cause::Form => f.write_str("form"),
            Cause::Many => f.write_str("many"),
            Cause::Cut => f.write_str("cut"),
            Cause::Trailing => f.write_str("trailing"),
            Cause::NoMemory => f.write_str("no memory"),
        }
    }
}

impl fmt::Display for TextFault {
    ghost output = { λ fault. Some (text_fault_words fault) };

    fn fmt<W: fmt::Write>(&self, f: &mut fmt::Formatter<W>) -> fmt::Result {
        let line = self.line;
        let cause = self.cause;
        write!(f, "line {line}: {cause}")
    }
}
