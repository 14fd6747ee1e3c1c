//! Explains why the drivers of a text are refused.

use crate::columns::word_at;
use crate::lines::{line_at, write_line};
use smx_config::ConfigFault;
use smx_types::SpecFault;
use std::fmt;

/// A text and the fault of its drivers. Prints two lines: the line of the driver that is refused, with the number of
/// this line, and what is wrong with the driver. If an earlier driver has the same name, the second line has this name
/// and the number of the earlier driver's line.
#[derive(Clone, Copy)]
pub struct DriverExplanation<'a> {
    /// The text that has the drivers.
    pub text: &'a [u8],
    /// Why the drivers are refused.
    pub fault: ConfigFault,
}

impl fmt::Display for DriverExplanation<'_> {
    fn fmt<W: fmt::Write>(&self, f: &mut fmt::Formatter<W>) -> fmt::Result {
        let driver = match self.fault {
            ConfigFault::BadSpec(driver, _) | ConfigFault::SameName(driver) => driver,
            ConfigFault::TooMany | ConfigFault::NoMemory => return Ok(()),
        };
        // The first line is the header, so driver 0 is in line 2.
        let number = driver.saturating_add(2);
        write!(f, "line {number}: ")?;
        write_line(f, line_at(self.text, number), 1)?;
        f.write_str("\n")?;
        match self.fault {
            ConfigFault::BadSpec(_, fault) => writeln!(f, "{}", spec_reason(fault)),
            _ => write_namesake(f, self.text, number),
        }
    }
}

fn spec_reason(fault: SpecFault) -> &'static str {
    match fault {
        SpecFault::BadMinors => "a driver has 1 to 64 minors",
        SpecFault::BadMarks => "the high water mark is at most 4096, and the low one is below it",
        SpecFault::BadMax => "the longest message of a driver has 1 to 1024 bytes",
    }
}

// Finds the first line of a driver that has the same name as line `number` and comes before it. Writes the number of
// the found line, and the name.
fn write_namesake<W: fmt::Write>(
    f: &mut fmt::Formatter<W>,
    text: &[u8],
    number: usize,
) -> fmt::Result {
    let name = name_in(line_at(text, number));
    for earlier in 2..number {
        if name_in(line_at(text, earlier)) == name {
            write!(f, "line {earlier} has the name '")?;
            write_line(f, name, 1)?;
            return f.write_str("' too\n");
        }
    }
    Ok(())
}

fn name_in(line: &[u8]) -> &[u8] {
    word_at(line, b"driver ".len() + 1)
}
