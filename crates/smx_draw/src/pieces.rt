//! The texts of a picture, each made from a template.

ghost use Rattle.std.specs.Prelude.{◌≡◌, ◌++◌, [], OnOk, get_or, map};
ghost use Rattle.smx_draw.specs.Pieces.{filled, piece_text, shown_length};

use itoa::Buffer;
use smx_types::{DriverKind, LinkKind, Name, NoMemory, Process, Side};

/// A value for a hole of a template (see `put`). Names consist of lower-case letters and digits, so nothing that is
/// written needs escaping.
#[derive(Clone, Copy)]
pub enum Piece {
    /// A number, in decimal.
    Number(u32),
    /// The number of a process.
    Process(Process),
    /// The name of a driver.
    Name(Name),
    /// Whether a driver is a leaf or a multiplexer.
    Driver(DriverKind),
    /// Whether a link is ordinary or persistent.
    Link(LinkKind),
    /// How Graphviz draws a link of this kind.
    Stroke(LinkKind),
    /// The side of a queue, as `write` or `read`.
    Side(Side),
    /// The side of a queue, as `w` or `r`, as in a transcript.
    Letter(Side),
}

/// Appends a template to `out`, with a piece in place of each hole. A hole is `@` and a digit, the index of the piece
/// in `pieces`. If memory runs out, `out` may end with only the beginning of this text.
pub fn put(out: &mut Vec<u8>, template: &[u8], pieces: &[Piece]) -> Result<(), NoMemory>
    ensures { OnOk result (out.new.items ≡ out.old.items ++ filled template.now (map piece_text pieces.now)) }
{
    let mut is_hole = false;
    for byte in template {
        if is_hole {
            put_numbered(out, pieces, byte.saturating_sub(b'0'))?;
            is_hole = false;
        } else if *byte == b'@' {
            is_hole = true;
        } else {
            out.push(*byte)?;
        }
    }
    Ok(())
}

// Appends the piece of this number, if there is one.
fn put_numbered(out: &mut Vec<u8>, pieces: &[Piece], number: u8) -> Result<(), NoMemory>
    ensures { OnOk result (out.new.items ≡ out.old.items ++ get_or (map piece_text pieces.now) number []) }
{
    match pieces.get(number as usize) {
        Some(piece) => put_piece(out, piece),
        None => Ok(()),
    }
}

fn put_piece(out: &mut Vec<u8>, piece: &Piece) -> Result<(), NoMemory>
    ensures { OnOk result (out.new.items ≡ out.old.items ++ piece_text piece.now) }
{
    match piece {
        Piece::Number(number) => put_text(out, Buffer::new().format(*number).as_bytes()),
        Piece::Process(process) => put_text(out, Buffer::new().format(process.get()).as_bytes()),
        Piece::Name(name) => put_text(out, name.as_bytes()),
        Piece::Driver(DriverKind::Leaf) => put_text(out, b"leaf"),
        Piece::Driver(DriverKind::Mux) => put_text(out, b"mux"),
        Piece::Link(LinkKind::Ordinary) => put_text(out, b"ordinary"),
        Piece::Link(LinkKind::Persistent) => put_text(out, b"persistent"),
        Piece::Stroke(LinkKind::Ordinary) => put_text(out, b"color=steelblue"),
        Piece::Stroke(LinkKind::Persistent) => put_text(out, b"color=darkorange penwidth=3"),
        Piece::Side(Side::Write) => put_text(out, b"write"),
        Piece::Side(Side::Read) => put_text(out, b"read"),
        Piece::Letter(Side::Write) => put_text(out, b"w"),
        Piece::Letter(Side::Read) => put_text(out, b"r"),
    }
}

fn put_text(out: &mut Vec<u8>, text: &[u8]) -> Result<(), NoMemory>
    ensures { OnOk result (out.new.items ≡ out.old.items ++ text.now) }
{
    out.extend_from_slice(text)?;
    Ok(())
}

/// Returns the number of bytes, or `u32::MAX` if there are more.
pub fn shown_length(bytes: &[u8]) -> u32
    ensures { result ≡ shown_length bytes.now }
{
    bytes.len().min(u32::MAX as usize) as u32
}
