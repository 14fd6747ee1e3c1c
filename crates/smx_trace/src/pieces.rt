//! The pieces of a line of a trace.

ghost use Rattle.std.specs.Prelude.{◌≡◌, ◌++◌, OnOk};
ghost use Rattle.std.specs.Fmt.{decimal};
ghost use Rattle.smx_model.specs.DriverList.{name_of};
ghost use Rattle.smx_words.specs.Words.{line_of};
ghost use Rattle.smx_trace.specs.TraceWords.{marked, place_words};

use itoa::Buffer;
use smx_types::{DriverSpec, NoMemory, Place, Side, StreamId};
use smx_words::Spell;

/// Appends these bytes.
pub fn put(out: &mut Vec<u8>, text: &[u8]) -> Result<(), NoMemory>
    ensures { OnOk result (out.new.items ≡ out.old.items ++ text.now) }
{
    out.extend_from_slice(text)?;
    Ok(())
}

/// Appends a number, in decimal.
pub fn put_number(out: &mut Vec<u8>, number: u32) -> Result<(), NoMemory>
    ensures { OnOk result (out.new.items ≡ out.old.items ++ decimal number) }
{
    put(out, Buffer::new().format(number).as_bytes())
}

/// Appends a driver's name, a minor and a side: the words of a place.
pub fn put_place_words(
    out: &mut Vec<u8>,
    name: &[u8],
    minor: u32,
    side: Side,
) -> Result<(), NoMemory>
    ensures { OnOk result (out.new.items ≡ out.old.items ++ line_of (place_words name.now minor side)) }
{
    put(out, name)?;
    put(out, b" ")?;
    put_number(out, minor)?;
    match side {
        Side::Write => put(out, b" w"),
        Side::Read => put(out, b" r"),
    }
}

/// Returns the name of the driver with this number, or no bytes if no driver has it.
pub fn name_of(drivers: &[DriverSpec], driver: u8) -> &[u8]
    ensures { result.now ≡ name_of drivers.now driver }
{
    match drivers.get(driver as usize) {
        Some(d) => d.name.as_bytes(),
        None => b"",
    }
}

/// Appends the words of a place: those of its stream, and its side.
pub fn put_place(out: &mut Vec<u8>, drivers: &[DriverSpec], place: Place) -> Result<(), NoMemory>
    ensures { OnOk result (out.new.items ≡ out.old.items ++ line_of (
        place_words (name_of drivers.now place.stream.driver) place.stream.minor place.side)) }
{
    let StreamId { driver, minor } = place.stream;
    put_place_words(out, name_of(drivers, driver), u32::from(minor), place.side)
}

/// Appends a mark, and then the line. Fails only if out of memory.
pub fn write_marked<T: Spell>(out: &mut Vec<u8>, mark: &[u8], line: &T) -> Result<(), NoMemory>
    ensures { OnOk result (out.new.items ≡ out.old.items ++ marked mark.now (T.words line.now)) }
{
    put(out, mark)?;
    line.write_line(out)?;
    Ok(())
}
