//! The line of a command.

ghost use Rattle.std.specs.Prelude.{◌≡◌, ◌∷◌, ◌++◌, [], codes, OnOk};
ghost use Rattle.std.specs.Fmt.{decimal};
ghost use Rattle.smx_words.specs.Spellable.{FitsCommand, FitsName, FitsNumber, FitsWhich};
ghost use Rattle.smx_words.specs.Spelling.{command_words, sides_word, which_word};
ghost use Rattle.smx_words.specs.Words.{line_of};

use super::Spell;
use super::word::{put_byte, put_bytes, put_name, put_spaced, put_text};
use smx_types::{Command, Name, NoMemory, Sides, Which};

impl Spell for Command {
    ghost words = { command_words };

    ghost Fits = { FitsCommand };

    fn write_line(&self, out: &mut Vec<u8>) -> Result<(), NoMemory> {
        put_command(out, self)?;
        put_byte(out, b'\n')
    }
}

/// Appends the words of a command, with a space between two words.
pub(super) fn put_command(out: &mut Vec<u8>, command: &Command) -> Result<(), NoMemory>
    ensures written { OnOk result (out.new.items ≡ out.old.items ++ line_of (command_words command.now)) }
    ensures fits { OnOk result (FitsCommand command.now) }
{
    match command {
        Command::OpenClone { driver } => {
            put_text(out, b"clone")?;
            put_name(out, driver)
        }
        Command::OpenMinor { driver, minor } => put_stream(out, b"open", driver, *minor),
        Command::Dup { fd } => put_one(out, b"dup", *fd),
        Command::Close { fd } => put_one(out, b"close", *fd),
        Command::CloseAll => put_text(out, b"exit"),
        Command::Link { fd, arg } => put_two(out, b"link", *fd, *arg),
        Command::Plink { fd, arg } => put_two(out, b"plink", *fd, *arg),
        Command::Unlink { fd, which } => put_which(out, b"unlink", *fd, *which),
        Command::Punlink { fd, which } => put_which(out, b"punlink", *fd, *which),
        Command::Bind { fd, addr } => put_two(out, b"bind", *fd, *addr),
        Command::Unbind { fd } => put_one(out, b"unbind", *fd),
        Command::Route { fd, addr, id } => {
            put_two(out, b"route", *fd, *addr)?;
            put_spaced(out, *id)
        }
        Command::Unroute { fd, addr } => put_two(out, b"unroute", *fd, *addr),
        Command::Write { fd, addr, bytes } => {
            put_two(out, b"write", *fd, *addr)?;
            put_bytes(out, bytes.as_slice())
        }
        Command::Read { fd } => put_one(out, b"read", *fd),
        Command::Flush { fd, sides } => put_flush(out, *fd, *sides),
        Command::Inject {
            driver,
            minor,
            addr,
            bytes,
        } => {
            put_stream(out, b"inject", driver, *minor)?;
            put_spaced(out, *addr)?;
            put_bytes(out, bytes.as_slice())
        }
        Command::Transmit { driver, minor } => put_stream(out, b"transmit", driver, *minor),
        Command::Hangup { driver, minor } => put_stream(out, b"hangup", driver, *minor),
    }
}

fn put_stream(out: &mut Vec<u8>, word: &[u8], driver: &Name, minor: u32) -> Result<(), NoMemory>
    ensures written { OnOk result (out.new.items
        ≡ out.old.items ++ line_of (word.now ∷ driver.now ∷ decimal minor ∷ [])) }
    ensures fits { OnOk result (FitsName driver.now × FitsNumber minor) }
{
    put_text(out, word)?;
    put_name(out, driver)?;
    put_spaced(out, minor)
}

// Appends a word and a number. Inlined: each caller's word is a constant, so its bytes are stored without a call.
#[inline(always)]
fn put_one(out: &mut Vec<u8>, word: &[u8], a: u32) -> Result<(), NoMemory>
    ensures written { OnOk result (out.new.items ≡ out.old.items ++ line_of (word.now ∷ decimal a ∷ [])) }
    ensures fits { FitsNumber a }
{
    put_text(out, word)?;
    put_spaced(out, a)
}

// Appends a word and two numbers.
fn put_two(out: &mut Vec<u8>, word: &[u8], a: u32, b: u32) -> Result<(), NoMemory>
    ensures written { OnOk result (out.new.items
        ≡ out.old.items ++ line_of (word.now ∷ decimal a ∷ decimal b ∷ [])) }
    ensures fits { FitsNumber a × FitsNumber b }
{
    put_text(out, word)?;
    put_spaced(out, a)?;
    put_spaced(out, b)
}

fn put_which(out: &mut Vec<u8>, word: &[u8], fd: u32, which: Which) -> Result<(), NoMemory>
    ensures written { OnOk result (out.new.items
        ≡ out.old.items ++ line_of (word.now ∷ decimal fd ∷ which_word which ∷ [])) }
    ensures fits { FitsNumber fd × FitsWhich which }
{
    put_one(out, word, fd)?;
    match which {
        Which::Id(id) => put_spaced(out, id),
        Which::All => put_text(out, b" all"),
    }
}

fn put_flush(out: &mut Vec<u8>, fd: u32, sides: Sides) -> Result<(), NoMemory>
    ensures written { OnOk result (out.new.items
        ≡ out.old.items ++ line_of (codes "flush" ∷ decimal fd ∷ sides_word sides ∷ [])) }
    ensures fits { FitsNumber fd }
{
    put_one(out, b"flush", fd)?;
    put_text(
        out,
        match sides {
            Sides::R => b" r",
            Sides::W => b" w",
            Sides::RW => b" rw",
        },
    )
}
