//! Appends words: numbers, names, and bytes as hex digits or as they are.

ghost use Rattle.std.specs.Prelude.{◌≡◌, ◌∷◌, ◌++◌, [], OnOk};
ghost use Rattle.std.specs.Fmt.{decimal};
ghost use Rattle.hex.specs.Hex.{encode_lower};
ghost use Rattle.smx_words.specs.HexWords.{hex_word};
ghost use Rattle.smx_words.specs.Spellable.{FitsBytes, FitsName, FitsNumber};
ghost use Rattle.smx_words.specs.Words.{LINE_FEED, SPACE, line_of};

use hex::encode_to_slice;
use itoa::Buffer;
use smx_types::{Name, NoMemory};

/// Appends a space and a name.
pub(super) fn put_name(out: &mut Vec<u8>, name: &Name) -> Result<(), NoMemory>
    ensures written { OnOk result (out.new.items ≡ out.old.items ++ SPACE ∷ name.now) }
    ensures fits { OnOk result (FitsName name.now) }
{
    put_byte(out, b' ')?;
    put_text(out, name.as_bytes())
}

/// Appends these bytes.
pub(super) fn put_text(out: &mut Vec<u8>, text: &[u8]) -> Result<(), NoMemory>
    ensures { OnOk result (out.new.items ≡ out.old.items ++ text.now) }
{
    out.extend_from_slice(text)?;
    Ok(())
}

/// Appends this byte.
pub(super) fn put_byte(out: &mut Vec<u8>, byte: u8) -> Result<(), NoMemory>
    ensures { OnOk result (out.new.items ≡ out.old.items ++ byte ∷ []) }
{
    out.push(byte)?;
    Ok(())
}

/// Appends a space and the digits of a number. Inlined: otherwise short commands take longer than in bench/plain (the
/// same program in plain Rust).
#[inline(always)]
pub(super) fn put_spaced(out: &mut Vec<u8>, n: u32) -> Result<(), NoMemory>
    ensures written { OnOk result (out.new.items ≡ out.old.items ++ SPACE ∷ decimal n) }
    ensures fits { FitsNumber n }
{
    put_byte(out, b' ')?;
    put_digits(out, n)
}

/// Appends a space, the digits of a number, and a line feed.
pub(super) fn put_last(out: &mut Vec<u8>, n: u32) -> Result<(), NoMemory>
    ensures written { OnOk result (out.new.items ≡ out.old.items ++ SPACE ∷ decimal n ++ LINE_FEED ∷ []) }
    ensures fits { FitsNumber n }
{
    put_spaced(out, n)?;
    put_byte(out, b'\n')
}

/// Appends the digits of a number. A single digit is appended without a buffer: the buffer alone would take a tenth of
/// the time of a run of short commands.
pub(super) fn put_digits(out: &mut Vec<u8>, n: u32) -> Result<(), NoMemory>
    ensures written { OnOk result (out.new.items ≡ out.old.items ++ decimal n) }
    ensures fits { FitsNumber n }
{
    if n < 10 {
        put_byte(out, b'0' + n as u8)
    } else {
        put_long(out, n)
    }
}

// Appends the digits of a number by way of a buffer. Not inlined, so that `put_digits` needn't store registers on the
// stack for a single digit, which is the usual case.
#[inline(never)]
fn put_long(out: &mut Vec<u8>, n: u32) -> Result<(), NoMemory>
    ensures { OnOk result (out.new.items ≡ out.old.items ++ decimal n) }
{
    put_text(out, Buffer::new().format(n).as_bytes())
}

/// Appends the serial, the address and the bytes of a message, with a space before each of the three. Then appends a
/// line feed.
pub(super) fn put_message(
    out: &mut Vec<u8>,
    serial: u32,
    addr: u32,
    bytes: &[u8],
) -> Result<(), NoMemory>
    ensures written { OnOk result (out.new.items
        ≡ out.old.items ++ SPACE ∷ line_of (decimal serial ∷ decimal addr ∷ hex_word bytes.now ∷ [])
        ++ LINE_FEED ∷ []) }
    ensures fits { FitsNumber serial × FitsNumber addr × FitsBytes bytes.now }
{
    put_spaced(out, serial)?;
    put_spaced(out, addr)?;
    put_bytes(out, bytes)?;
    put_byte(out, b'\n')
}

/// Appends a space and the word that spells these bytes.
pub(super) fn put_bytes(out: &mut Vec<u8>, bytes: &[u8]) -> Result<(), NoMemory>
    ensures written { OnOk result (out.new.items ≡ out.old.items ++ SPACE ∷ hex_word bytes.now) }
    ensures fits { FitsBytes bytes.now }
{
    if bytes.is_empty() {
        return put_text(out, b" -");
    }
    put_byte(out, b' ')?;
    put_pairs(out, bytes)
}

// Appends two digits for each byte.
fn put_pairs(out: &mut Vec<u8>, bytes: &[u8]) -> Result<(), NoMemory>
    ensures { OnOk result (out.new.items ≡ out.old.items ++ encode_lower bytes.now) }
{
    let start = out.len();
    if bytes.len() > (usize::MAX - start) / 2 {
        return Err(NoMemory);
    }
    out.resize(start + 2 * bytes.len(), 0)?;
    match encode_to_slice(bytes, out.slice_mut(start..)) {
        Ok(()) => Ok(()),
        Err(_) => unreachable!(),
    }
}
