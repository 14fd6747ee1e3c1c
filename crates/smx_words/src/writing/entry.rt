//! Writes the line of an entry, and the reply in it.

ghost use Rattle.std.specs.Prelude.{◌≡◌, ◌∷◌, ◌++◌, [], codes, map, OnOk};
ghost use Rattle.std.specs.Fmt.{decimal};
ghost use Rattle.std.specs.List.{flat_map, AllByRecursion};
ghost use Rattle.smx_words.specs.Spellable.{FitsEntry, FitsNumber, FitsReply};
ghost use Rattle.smx_words.specs.Spelling.{entry_words, fault_words, reply_words};
ghost use Rattle.smx_words.specs.Words.{LINE_FEED, SPACE, line_of};

use super::Spell;
use super::command::put_command;
use super::word::{put_byte, put_digits, put_last, put_message, put_spaced, put_text};
use smx_types::{Command, Entry, Fault, NoMemory, Process, Reply};

impl Spell for Entry {
    ghost words = { entry_words };

    ghost Fits = { FitsEntry };

    fn write_line(&self, out: &mut Vec<u8>) -> Result<(), NoMemory> {
        write_entry(out, self.process, &self.command, &self.reply)
    }
}

/// Appends the line of this entry and a line feed. If an allocation fails, `out` may contain a part of the line.
pub fn write_entry(
    out: &mut Vec<u8>,
    process: Process,
    command: &Command,
    reply: &Reply,
) -> Result<(), NoMemory>
    ensures written { OnOk result (out.new.items ≡ out.old.items
        ++ line_of (entry_words (record { process = process; command = command.now; reply = reply.now }))
        ++ LINE_FEED ∷ []) }
    ensures fits { OnOk result
        (FitsEntry (record { process = process; command = command.now; reply = reply.now })) }
{
    put_digits(out, process.get())?;
    put_byte(out, b' ')?;
    put_command(out, command)?;
    write_reply(out, reply)?;
    Ok(())
}

/// Appends the end of an entry's line: an equals sign between spaces, the words of a reply, and a line feed. If an
/// allocation fails, `out` may contain a part of this.
pub fn write_reply(out: &mut Vec<u8>, reply: &Reply) -> Result<(), NoMemory>
    ensures written { OnOk result (out.new.items
        ≡ out.old.items ++ codes " = " ++ line_of (reply_words reply.now) ++ LINE_FEED ∷ []) }
    ensures fits { OnOk result (FitsReply reply.now) }
{
    match reply {
        Reply::Fd { fd, minor } => {
            put_text(out, b" = fd")?;
            put_spaced(out, *fd)?;
            put_last(out, *minor)
        }
        Reply::Id(id) => put_number(out, b" = id", *id),
        Reply::Took { serial } => put_number(out, b" = took", *serial),
        Reply::Got {
            serial,
            addr,
            bytes,
        } => {
            put_text(out, b" = got")?;
            put_message(out, *serial, *addr, bytes.as_slice())
        }
        Reply::Done { dropped } => put_done(out, dropped.as_slice()),
        Reply::Eof => put_text(out, b" = eof\n"),
        Reply::Fault(fault) => put_fault(out, *fault),
    }
}

fn put_number(out: &mut Vec<u8>, before: &[u8], n: u32) -> Result<(), NoMemory>
    ensures written { OnOk result (out.new.items
        ≡ out.old.items ++ before.now ++ SPACE ∷ decimal n ++ LINE_FEED ∷ []) }
    ensures fits { FitsNumber n }
{
    put_text(out, before)?;
    put_last(out, n)
}

fn put_done(out: &mut Vec<u8>, dropped: &[u32]) -> Result<(), NoMemory>
    ensures written { OnOk result (out.new.items
        ≡ out.old.items ++ codes " = " ++ line_of (codes "done" ∷ map decimal dropped.now)
        ++ LINE_FEED ∷ []) }
    ensures fits { OnOk result (AllByRecursion FitsNumber dropped.now) }
{
    if dropped.is_empty() {
        put_text(out, b" = done\n")?;
        return Ok(());
    }
    put_text(out, b" = done")?;
    put_serials(out, dropped)?;
    put_byte(out, b'\n')
}

// For each serial, appends a space and the digits of the serial.
fn put_serials(out: &mut Vec<u8>, serials: &[u32]) -> Result<(), NoMemory>
    ensures written { OnOk result (out.new.items
        ≡ out.old.items ++ flat_map (λ n. SPACE ∷ decimal n) serials.now) }
    ensures fits { OnOk result (AllByRecursion FitsNumber serials.now) }
{
    for serial in serials {
        put_spaced(out, *serial)?;
    }
    Ok(())
}

// Appends an equals sign between spaces, the words of a fault, and a line feed.
fn put_fault(out: &mut Vec<u8>, fault: Fault) -> Result<(), NoMemory>
    ensures { OnOk result (out.new.items
        ≡ out.old.items ++ codes " = " ++ line_of (fault_words fault) ++ LINE_FEED ∷ []) }
{
    match fault {
        Fault::BadDescriptor => put_text(out, b" = EBADF fd\n"),
        Fault::Below => put_text(out, b" = EINVAL below\n"),
        Fault::NotMux => put_text(out, b" = EINVAL notmux\n"),
        Fault::AlreadyBelow => put_text(out, b" = EINVAL already\n"),
        Fault::Cycle => put_text(out, b" = EINVAL cycle\n"),
        Fault::TooManyLinks => put_text(out, b" = EAGAIN links\n"),
        Fault::NoLink => put_text(out, b" = EINVAL id\n"),
        Fault::NoDriver => put_text(out, b" = ENXIO driver\n"),
        Fault::NoMinor => put_text(out, b" = ENXIO minor\n"),
        Fault::TooManyDescriptors => put_text(out, b" = EMFILE\n"),
        Fault::AddressInUse => put_text(out, b" = EADDRINUSE\n"),
        Fault::Unbound => put_text(out, b" = EINVAL unbound\n"),
        Fault::Unrouted => put_text(out, b" = EINVAL unrouted\n"),
        Fault::Full => put_text(out, b" = EAGAIN full\n"),
        Fault::Empty => put_text(out, b" = EAGAIN empty\n"),
        Fault::BadSize => put_text(out, b" = ERANGE\n"),
        Fault::HungUp => put_text(out, b" = ENXIO hangup\n"),
    }
}
