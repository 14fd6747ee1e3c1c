//! Frames, links, columns and gauges. They are drawn first, so that the rows are on top of them.

ghost use Rattle.smx_draw.specs.SvgElements.{frame_element, gauge_element, stream_element, way_element};

use crate::pieces::Piece::{self, Driver, Link, Number};
use crate::pieces::put;
use crate::queues::{QueueItem, QueueRow};
use crate::svg::Drawn;
use crate::svg::block::{Area, Row, Seat};
use crate::svg::plan::Plan;
use smx_types::{DriverSpec, LinkLine, Name, NoMemory};
use std::alloc::Global;

/// A stream in the picture.
#[derive(Clone, Copy, Debug)]
pub struct Stream {
    pub driver: Name,
    pub minor: u32,
    /// Whether the stream no longer exists: it is in the picture only because a link still names it as its controlling
    /// stream.
    pub is_closed: bool,
}

impl Drawn for DriverSpec {
    ghost element = { frame_element };

    fn place(&self, plan: &mut Plan) -> Option<Area> {
        Some(plan.block(&Seat::of_driver(&self.name, Row::Name))?.area())
    }

    fn put_at(&self, at: Area, out: &mut Vec<u8>) -> Result<(), NoMemory> {
        let values = [
            Driver(self.kind),
            Number(at.left),
            Number(at.top),
            Number(at.right),
            Number(at.bottom),
        ];
        let template = b"<path class=\"frame @0\" d=\"M@1 @2H@3V@4H@1Z\"/>\n";
        put(out, template, &values)
    }
}

impl Drawn for LinkLine {
    ghost element = { way_element };

    fn place(&self, plan: &mut Plan) -> Option<Area> {
        Some(plan.ways.pop()?.area)
    }

    fn put_at(&self, at: Area, out: &mut Vec<u8>) -> Result<(), NoMemory> {
        let values = [
            Number(self.id),
            Link(self.kind),
            Piece::Name(self.ctl_driver),
            Number(self.ctl_minor),
            Number(at.left),
            Number(at.top),
            Number(at.bend),
            Number(at.lane),
            Number(at.bottom),
            Number(at.right),
        ];
        let template = b"<g class=\"way @1 link-@0\"><title>link @0 @1 by @2 @3</title>\
            <path class=\"halo\" d=\"M@4 @5V@6H@7V@8H@9\"/>\
            <path d=\"M@4 @5V@6H@7V@8H@9\"/></g>\n";
        put(out, template, &values)
    }
}

impl Drawn for Stream {
    ghost element = { stream_element };

    fn place(&self, plan: &mut Plan) -> Option<Area> {
        let seat = Seat::of_stream(&self.driver, self.minor, Row::Name);
        Some(plan.block(&seat)?.area())
    }

    fn put_at(&self, at: Area, out: &mut Vec<u8>) -> Result<(), NoMemory> {
        let values = [
            Number(at.left),
            Number(at.top),
            Number(at.right),
            Number(at.bottom),
            Piece::Name(self.driver),
            Number(self.minor),
        ];
        let template: &[u8] = if self.is_closed {
            b"<g class=\"closed\"><path d=\"M@0 @1H@2V@3H@0Z\"/><text x=\"@0\" y=\"@1\" dx=\"6\" dy=\"11\">\
                @4 @5 closed</text></g>\n"
        } else {
            b"<g class=\"stream stream-@4-@5\"><path d=\"M@0 @1H@2V@3H@0Z\"/><text x=\"@0\" y=\"@1\" dx=\"6\" dy=\"11\">\
                @4 @5</text></g>\n"
        };
        put(out, template, &values)
    }
}

impl Drawn for QueueRow {
    ghost element = { gauge_element };

    fn place(&self, plan: &mut Plan) -> Option<Area> {
        let seat = self.seat();
        plan.block(&seat)?.row(seat.row)
    }

    fn put_at(&self, at: Area, out: &mut Vec<u8>) -> Result<(), NoMemory> {
        match self.item {
            // The whole width of the gauge shows the high water mark.
            QueueItem::Bytes(bytes, high, low) => {
                let values = [
                    Number(at.left),
                    Number(at.top),
                    Number(at.right.saturating_sub(at.left)),
                    Number(bytes),
                    Number(high),
                    Number(low),
                ];
                let template = b"<svg class=\"gauge\" x=\"@0\" y=\"@1\" width=\"@2\" height=\"14\" \
                    viewBox=\"0 0 @4 14\" preserveAspectRatio=\"none\">\
                    <path class=\"bytes\" d=\"M0 0H@3V14H0Z\"/><path class=\"low\" d=\"M0 12H@5V14H0Z\"/></svg>\n";
                put(out, template, &values)
            }
            QueueItem::Message(..) | QueueItem::More(_) => Ok(()),
        }
    }
}

/// Returns the streams of the picture. Fails only if it is out of memory.
pub fn streams_of(alloc: Global, plan: &Plan) -> Result<Vec<Stream>, NoMemory> {
    let mut streams = Vec::new(alloc);
    for block in plan.blocks.as_slice() {
        if let Some(minor) = block.seat.minor {
            streams.push(Stream {
                driver: block.seat.driver,
                minor,
                is_closed: block.is_closed,
            })?;
        }
    }
    Ok(streams)
}
