//! Reads the lines of drivers and processes, and those of a view (a configuration, as a transcript shows it).

ghost use Rattle.std.specs.Prelude.{IfOk, IfErr};
ghost use Rattle.smx_words.specs.LineReading.{IsReadAs, IsLineOf};
ghost use Rattle.smx_words.specs.Spellable.{FitsDriver, FitsNumber, FitsNext, FitsDescriptor, FitsLink, FitsBinding};
ghost use Rattle.smx_words.specs.Spellable.{FitsRoute, FitsMessage, FitsFull, FitsHung};
ghost use Rattle.smx_words.specs.Spelling.{driver_words, process_words, next_words, descriptor_words, link_words};
ghost use Rattle.smx_words.specs.Spelling.{bind_words, route_words, message_words, full_words, hung_words};

use crate::reading::hex_word::number_and_bytes;
use crate::reading::number::{first_number, first_process, number, pair};
use crate::reading::word::{
    after, first_kind, first_name, first_side, link_kind, name_and_number, side,
};
use smx_types::{
    BindingLine, DescriptorLine, DriverSpec, FullLine, HungLine, LinkLine, Message, MessageLine,
    NoMemory, RouteLine,
};
use std::alloc::Global;

/// Parses the line of a driver.
pub fn driver_of(line: &[u8]) -> Option<DriverSpec>
    ensures { IsReadAs FitsDriver driver_words line.now result }
{
    let rest = after(line, b"driver ")?;
    let Some((name, rest)) = first_name(rest) else {
        return None;
    };
    let (kind, rest) = first_kind(rest)?;
    let (minors, rest) = first_number(rest)?;
    let (high, rest) = first_number(rest)?;
    let (low, max) = pair(rest)?;
    Some(DriverSpec {
        name,
        kind,
        minors,
        high,
        low,
        max,
    })
}

/// Parses a line `process NUMBER`, at which the program of a process begins. Returns the number of the process.
pub fn process_of(line: &[u8]) -> Option<u32>
    ensures { IsReadAs FitsNumber process_words line.now result }
{
    let rest = after(line, b"process ")?;
    number(rest)
}

/// Parses a line `next ID SERIAL`.
pub fn next_of(line: &[u8]) -> Option<(u32, u32)>
    ensures { IsReadAs FitsNext next_words line.now result }
{
    let rest = after(line, b"next ")?;
    pair(rest)
}

/// Parses the line of an open descriptor.
pub fn descriptor_of(line: &[u8]) -> Option<DescriptorLine>
    ensures { IsReadAs FitsDescriptor descriptor_words line.now result }
{
    let rest = after(line, b"fd ")?;
    let Some((process, rest)) = first_process(rest) else {
        return None;
    };
    let (fd, rest) = first_number(rest)?;
    let (driver, minor) = name_and_number(rest)?;
    Some(DescriptorLine {
        process,
        fd,
        driver,
        minor,
    })
}

/// Parses the line of a link.
pub fn link_of(line: &[u8]) -> Option<LinkLine>
    ensures { IsReadAs FitsLink link_words line.now result }
{
    let rest = after(line, b"link ")?;
    let (id, rest) = first_number(rest)?;
    let Some((ctl_driver, rest)) = first_name(rest) else {
        return None;
    };
    let (ctl_minor, rest) = first_number(rest)?;
    let Some((lower_driver, rest)) = first_name(rest) else {
        return None;
    };
    let (lower_minor, rest) = first_number(rest)?;
    let kind = link_kind(rest)?;
    Some(LinkLine {
        id,
        ctl_driver,
        ctl_minor,
        lower_driver,
        lower_minor,
        kind,
    })
}

/// Parses the line of a binding.
pub fn bind_of(line: &[u8]) -> Option<BindingLine>
    ensures { IsReadAs FitsBinding bind_words line.now result }
{
    let rest = after(line, b"bind ")?;
    let Some((driver, rest)) = first_name(rest) else {
        return None;
    };
    let (addr, minor) = pair(rest)?;
    Some(BindingLine {
        driver,
        addr,
        minor,
    })
}

/// Parses the line of a route.
pub fn route_of(line: &[u8]) -> Option<RouteLine>
    ensures { IsReadAs FitsRoute route_words line.now result }
{
    let rest = after(line, b"route ")?;
    let Some((driver, rest)) = first_name(rest) else {
        return None;
    };
    let (addr, id) = pair(rest)?;
    Some(RouteLine { driver, addr, id })
}

/// Parses the line of a full place.
pub fn full_of(line: &[u8]) -> Option<FullLine>
    ensures { IsReadAs FitsFull full_words line.now result }
{
    let rest = after(line, b"full ")?;
    let Some((driver, rest)) = first_name(rest) else {
        return None;
    };
    let (minor, rest) = first_number(rest)?;
    let side = side(rest)?;
    Some(FullLine {
        driver,
        minor,
        side,
    })
}

/// Parses the line of a hung-up stream.
pub fn hung_of(line: &[u8]) -> Option<HungLine>
    ensures { IsReadAs FitsHung hung_words line.now result }
{
    let rest = after(line, b"hung ")?;
    let (driver, minor) = name_and_number(rest)?;
    Some(HungLine { driver, minor })
}

/// Parses the line of a queued message. Fails only if the line is the line of a message, and an allocation fails.
pub fn message_of(alloc: Global, line: &[u8]) -> Result<Option<MessageLine>, NoMemory>
    ensures reading { IfOk result (IsReadAs FitsMessage message_words line.now) }
    ensures wanted { IfErr result (λ _. IsLineOf FitsMessage message_words line.now) }
{
    let Some(rest) = after(line, b"msg ") else {
        return Ok(None);
    };
    let Some((driver, rest)) = first_name(rest) else {
        return Ok(None);
    };
    let Some((minor, rest)) = first_number(rest) else {
        return Ok(None);
    };
    let Some((side, rest)) = first_side(rest) else {
        return Ok(None);
    };
    let Some((serial, rest)) = first_number(rest) else {
        return Ok(None);
    };
    let Some((addr, bytes)) = number_and_bytes(alloc, rest)? else {
        return Ok(None);
    };
    let message = Message {
        serial,
        addr,
        bytes,
    };
    Ok(Some(MessageLine {
        driver,
        minor,
        side,
        message,
    }))
}
