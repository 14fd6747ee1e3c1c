//! Draws a picture in one of two forms: SVG, or a text for Graphviz.

ghost use Rattle.std.specs.Prelude.{◌≡◌, ◌++◌, IfOk, OnOk};
ghost use Rattle.std.specs.List.{flat_map};
ghost use Rattle.smx_draw.specs.DotText.{dot_text};
ghost use Rattle.smx_draw.specs.Parts.{part_text};
ghost use Rattle.smx_draw.specs.Pictures.{IsPictureOf};
ghost use Rattle.smx_draw.specs.declared.parts.Look.TheVariants.{Line};

use crate::parts::{Look, Part, parts_of};
use crate::pieces::put;
use crate::queues::queue_rows;
use crate::svg::write_svg;
use smx_types::{ConfigView, DriverSpec, NoMemory, Transcript};
use std::alloc::Global;

/// The language of a picture.
#[derive(Clone, Copy, Debug, PartialEq, Eq)]
pub enum Form {
    /// SVG 1.1, for browsers and viewers.
    Svg,
    /// The language of Graphviz, for `dot`.
    Dot,
}

/// Draws the configuration that a transcript shows. Draws any transcript, even if its history is not legal. For
/// Graphviz, the same transcript always gives the same text. Fails only if it is out of memory.
pub fn draw(alloc: Global, transcript: &Transcript, form: Form) -> Result<Vec<u8>, NoMemory>
    ensures { IfOk result (λ v. IsPictureOf form transcript.now v.items) }
{
    match form {
        Form::Svg => write_svg(alloc, transcript.drivers.as_slice(), &transcript.view),
        Form::Dot => write_dot(alloc, transcript.drivers.as_slice(), &transcript.view),
    }
}

// The start of the text. The graph is `strict`, so Graphviz merges edges that are drawn twice. The default label of a
// node is that of a stream; all other nodes have labels of their own.
const HEAD: &[u8] = b"strict digraph muxsim {
  graph [rankdir=TB nodesep=0.2 fontname=\"sans-serif\"];
  node [shape=record fontname=\"sans-serif\" fontsize=10 label=\"{\\N|{<write>write|<read>read}}\"];
  edge [dir=none color=gray fontname=\"sans-serif\" fontsize=10];
";

// Returns the text of a configuration, given its drivers and its view. Fails only if it is out of memory.
fn write_dot(alloc: Global, drivers: &[DriverSpec], view: &ConfigView) -> Result<Vec<u8>, NoMemory>
    ensures { IfOk result (λ v. v.items ≡ dot_text drivers.now view.now) }
{
    let queues = queue_rows(alloc, drivers, view.msgs.as_slice())?;
    let parts = parts_of(alloc, drivers, view, queues.as_slice())?;
    let mut out = Vec::new(alloc);
    put(&mut out, HEAD, &[])?;
    put_lines(&mut out, parts.as_slice())?;
    put(&mut out, b"}\n", &[])?;
    Ok(out)
}

fn put_lines(out: &mut Vec<u8>, parts: &[Part]) -> Result<(), NoMemory>
    ensures { OnOk result (out.new.items ≡ out.old.items ++ flat_map (part_text Line) parts.now) }
{
    for part in parts {
        part.put(Look::Line, out)?;
    }
    Ok(())
}
