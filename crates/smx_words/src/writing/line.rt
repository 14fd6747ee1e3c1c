//! Writes the lines of drivers and processes, and those of a view (a configuration, as a transcript shows it).

ghost use Rattle.std.specs.Prelude.{◌≡◌, ◌∷◌, ◌++◌, [], OnOk};
ghost use Rattle.std.specs.Fmt.{decimal};
ghost use Rattle.smx_words.specs.Spellable.{FitsBinding, FitsDescriptor, FitsDriver, FitsFull, FitsHung, FitsLink};
ghost use Rattle.smx_words.specs.Spellable.{FitsMessage, FitsName, FitsNumber, FitsRoute};
ghost use Rattle.smx_words.specs.Spelling.{bind_words, descriptor_words, driver_words, message_words, process_words};
ghost use Rattle.smx_words.specs.Spelling.{full_words, hung_words, link_words, next_words, route_words, side_word};
ghost use Rattle.smx_words.specs.Words.{LINE_FEED, SPACE, line_of};

use super::Spell;
use super::word::{put_byte, put_last, put_message, put_name, put_spaced, put_text};
use smx_types::{
    BindingLine, DescriptorLine, DriverKind, DriverSpec, FullLine, HungLine, LinkKind, LinkLine,
    MessageLine, Name, NoMemory, RouteLine, Side,
};

impl Spell for DriverSpec {
    ghost words = { driver_words };

    ghost Fits = { FitsDriver };

    fn write_line(&self, out: &mut Vec<u8>) -> Result<(), NoMemory> {
        put_text(out, b"driver")?;
        put_name(out, &self.name)?;
        put_text(
            out,
            match self.kind {
                DriverKind::Leaf => b" leaf",
                DriverKind::Mux => b" mux",
            },
        )?;
        put_spaced(out, self.minors)?;
        put_spaced(out, self.high)?;
        put_spaced(out, self.low)?;
        put_last(out, self.max)
    }
}

/// Appends the line `process NUMBER`. If an allocation fails, `out` may contain a part of the line.
pub fn write_process(out: &mut Vec<u8>, number: u32) -> Result<(), NoMemory>
    ensures written { OnOk result (out.new.items
        ≡ out.old.items ++ line_of (process_words number) ++ LINE_FEED ∷ []) }
    ensures fits { FitsNumber number }
{
    put_text(out, b"process")?;
    put_last(out, number)
}

/// Appends the line `next ID SERIAL`. If an allocation fails, `out` may contain a part of the line.
pub fn write_next(out: &mut Vec<u8>, id: u32, serial: u32) -> Result<(), NoMemory>
    ensures written { OnOk result (out.new.items
        ≡ out.old.items ++ line_of (next_words (id, serial)) ++ LINE_FEED ∷ []) }
    ensures fits { FitsNumber id × FitsNumber serial }
{
    put_text(out, b"next")?;
    put_spaced(out, id)?;
    put_last(out, serial)
}

impl Spell for DescriptorLine {
    ghost words = { descriptor_words };

    ghost Fits = { FitsDescriptor };

    fn write_line(&self, out: &mut Vec<u8>) -> Result<(), NoMemory> {
        put_text(out, b"fd")?;
        put_spaced(out, self.process.get())?;
        put_spaced(out, self.fd)?;
        put_name(out, &self.driver)?;
        put_last(out, self.minor)
    }
}

impl Spell for LinkLine {
    ghost words = { link_words };

    ghost Fits = { FitsLink };

    fn write_line(&self, out: &mut Vec<u8>) -> Result<(), NoMemory> {
        put_text(out, b"link")?;
        put_spaced(out, self.id)?;
        put_name(out, &self.ctl_driver)?;
        put_spaced(out, self.ctl_minor)?;
        put_name(out, &self.lower_driver)?;
        put_spaced(out, self.lower_minor)?;
        put_text(
            out,
            match self.kind {
                LinkKind::Ordinary => b" link\n",
                LinkKind::Persistent => b" plink\n",
            },
        )
    }
}

impl Spell for BindingLine {
    ghost words = { bind_words };

    ghost Fits = { FitsBinding };

    fn write_line(&self, out: &mut Vec<u8>) -> Result<(), NoMemory> {
        put_text(out, b"bind")?;
        put_name(out, &self.driver)?;
        put_spaced(out, self.addr)?;
        put_last(out, self.minor)
    }
}

impl Spell for RouteLine {
    ghost words = { route_words };

    ghost Fits = { FitsRoute };

    fn write_line(&self, out: &mut Vec<u8>) -> Result<(), NoMemory> {
        put_text(out, b"route")?;
        put_name(out, &self.driver)?;
        put_spaced(out, self.addr)?;
        put_last(out, self.id)
    }
}

impl Spell for MessageLine {
    ghost words = { message_words };

    ghost Fits = { FitsMessage };

    fn write_line(&self, out: &mut Vec<u8>) -> Result<(), NoMemory> {
        put_text(out, b"msg")?;
        put_place(out, &self.driver, self.minor, self.side)?;
        let message = &self.message;
        put_message(out, message.serial, message.addr, message.bytes.as_slice())
    }
}

impl Spell for FullLine {
    ghost words = { full_words };

    ghost Fits = { FitsFull };

    fn write_line(&self, out: &mut Vec<u8>) -> Result<(), NoMemory> {
        put_text(out, b"full")?;
        put_place(out, &self.driver, self.minor, self.side)?;
        put_byte(out, b'\n')
    }
}

impl Spell for HungLine {
    ghost words = { hung_words };

    ghost Fits = { FitsHung };

    fn write_line(&self, out: &mut Vec<u8>) -> Result<(), NoMemory> {
        put_text(out, b"hung")?;
        put_name(out, &self.driver)?;
        put_last(out, self.minor)
    }
}

// Appends a space and the words of a place.
fn put_place(out: &mut Vec<u8>, driver: &Name, minor: u32, side: Side) -> Result<(), NoMemory>
    ensures written { OnOk result (out.new.items
        ≡ out.old.items ++ SPACE ∷ driver.now ++ SPACE ∷ decimal minor ++ SPACE ∷ side_word side) }
    ensures fits { OnOk result (FitsName driver.now × FitsNumber minor) }
{
    put_name(out, driver)?;
    put_spaced(out, minor)?;
    put_text(
        out,
        match side {
            Side::Write => b" w",
            Side::Read => b" r",
        },
    )
}
