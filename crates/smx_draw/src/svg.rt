//! Draws a configuration as SVG: makes a plan of the picture, and then writes the element of each part.

ghost use Rattle.std.specs.Prelude.{◌≡◌, ℕ, ◌++◌, List, IfOk, OnOk};
ghost use Rattle.smx_draw.specs.Drawing.{Draws};
ghost use Rattle.smx_draw.specs.SvgElements.{row};
ghost use Rattle.smx_draw.specs.SvgText.{IsSvgOf};

pub mod block;
mod places;
mod plan;
mod under;
mod ways;

use crate::parts::{Look, Part, parts_of};
use crate::pieces::Piece::Number;
use crate::pieces::put;
use crate::queues::queue_rows;
use crate::svg::block::Area;
use crate::svg::plan::Plan;
use crate::svg::under::streams_of;
use smx_types::{ConfigView, DriverSpec, NoMemory};
use std::alloc::Global;

// The start of the picture, the styles of its parts, and the legend.
const HEAD: &[u8] =
    b"<svg xmlns=\"http://www.w3.org/2000/svg\" class=\"muxsim\" width=\"@0\" height=\"@1\" viewBox=\"0 0 @0 @1\">
<style>
.muxsim text { font: 10px monospace; fill: #1f2328 }
.muxsim path { fill: none }
.muxsim .page { fill: #ffffff }
.muxsim .frame { stroke: #57606a }
.muxsim .frame.mux, .muxsim .route path { fill: #eef4fb }
.muxsim .route path { stroke: #57606a }
.muxsim .frame.leaf { fill: #eef7ee }
.muxsim .mux path { fill: #35638a }
.muxsim .leaf path { fill: #3c6e47 }
.muxsim .stream path, .muxsim .closed path { fill: #ffffff; stroke: #57606a }
.muxsim .closed path { stroke-dasharray: 3 3 }
.muxsim .stream text { font-weight: bold }
.muxsim .ordinary text { fill: #35638a }
.muxsim .persistent text { fill: #a04f00 }
.muxsim .way path { stroke: #4682b4; stroke-width: 1.5 }
.muxsim .way.persistent path { stroke: #d96b00; stroke-width: 3 }
.muxsim .way path.halo { stroke: #ffffff; stroke-width: 5 }
.muxsim .bytes { fill: #ffdf8a }
.muxsim .low { fill: #bf8700 }
.muxsim .queue path { stroke: #8c959f }
.muxsim .message path { fill: #fff8e1; stroke: #d9c27a }
.muxsim .full path { fill: #cf222e }
.muxsim .hung path { fill: #57606a }
.muxsim .mux text, .muxsim .leaf text, .muxsim .full text, .muxsim .hung text { fill: #ffffff; font-weight: bold }
</style>
<path class=\"page\" d=\"M0 0H@0V@1H0Z\"/>
<g class=\"way ordinary\"><path d=\"M24 20H64\"/><text x=\"70\" y=\"24\">ordinary link</text></g>
<g class=\"way persistent\"><path d=\"M164 20H204\"/><text x=\"210\" y=\"24\">persistent link</text></g>
<path class=\"bytes\" d=\"M320 13H371V27H320Z\"/><path class=\"low\" d=\"M320 25H345V27H320Z\"/>
<g class=\"queue\"><path d=\"M320 13H422V27H320Z\"/><text x=\"326\" y=\"24\">bytes, low mark</text></g>
<g class=\"full\"><path d=\"M442 13H514V27H442Z\"/><text x=\"448\" y=\"24\">full queue</text></g>
<g class=\"hung\"><path d=\"M534 13H630V27H534Z\"/><text x=\"540\" y=\"24\">stream hung up</text></g>
";

// The end of the picture, with the id of the next link and the serial of the next message.
const FOOT: &[u8] = b"<text x=\"24\" y=\"44\">next link @0, next message @1</text>\n</svg>\n";

/// One element of a picture: the frame of a driver, a link, the column of a stream, the gauge of a queue (a bar for its
/// bytes), or the row of a part.
pub trait Drawn {
    ghost use Rattle.smx_draw.specs.declared.svg.block.Area.{Area};

    // The text of the element, given its place.
    ghost element: { Self → Area → List ℕ };

    /// Returns the place of the element.
    fn place(&self, plan: &mut Plan) -> Option<Area>;

    /// Appends to `out` the text that draws the element at this place. If memory runs out, `out` may end with only the
    /// beginning of this text.
    fn put_at(&self, at: Area, out: &mut Vec<u8>) -> Result<(), NoMemory>
        ensures { OnOk result (out.new.items ≡ out.old.items ++ element self.now at) };
}

impl Drawn for Part {
    ghost element = { row };

    fn place(&self, plan: &mut Plan) -> Option<Area> {
        plan.take_row(&self.seat())
    }

    fn put_at(&self, at: Area, out: &mut Vec<u8>) -> Result<(), NoMemory> {
        put(out, b"<g class=\"", &[])?;
        self.put(Look::Class, out)?;
        let corners = [
            Number(at.left),
            Number(at.top),
            Number(at.right),
            Number(at.bottom),
        ];
        let template =
            b"\"><path d=\"M@0 @1H@2V@3H@0Z\"/><text x=\"@0\" y=\"@1\" dx=\"6\" dy=\"11\">";
        put(out, template, &corners)?;
        self.put(Look::Label, out)?;
        put(out, b"</text></g>\n", &[])?;
        Ok(())
    }
}

/// Returns the picture of a configuration, given its drivers and its view. Fails only if it is out of memory.
pub fn write_svg(
    alloc: Global,
    drivers: &[DriverSpec],
    view: &ConfigView,
) -> Result<Vec<u8>, NoMemory>
    ensures { IfOk result (λ v. IsSvgOf drivers.now view.now v.items) }
{
    let queues = queue_rows(alloc, drivers, view.msgs.as_slice())?;
    let parts = parts_of(alloc, drivers, view, queues.as_slice())?;
    let mut plan = Plan::new(alloc, parts.as_slice(), view.links.as_slice())?;
    let streams = streams_of(alloc, &plan)?;
    let size = [Number(plan.width.0), Number(plan.height.0)];
    let mut out = Vec::new(alloc);
    put(&mut out, HEAD, &size)?;
    draw_all(&mut plan, &mut out, drivers)?;
    draw_all(&mut plan, &mut out, view.links.as_slice())?;
    draw_all(&mut plan, &mut out, streams.as_slice())?;
    draw_all(&mut plan, &mut out, queues.as_slice())?;
    draw_all(&mut plan, &mut out, parts.as_slice())?;
    let next = [Number(view.next_id), Number(view.next_serial)];
    put(&mut out, FOOT, &next)?;
    Ok(out)
}

fn draw_all<T: Drawn>(plan: &mut Plan, out: &mut Vec<u8>, items: &[T]) -> Result<(), NoMemory>
    ensures { OnOk result (Draws T.element items.now out.old.items out.new.items) }
{
    for item in items {
        let at = item.place(plan).unwrap_or_default();
        item.put_at(at, out)?;
    }
    Ok(())
}
