//! The parts of a configuration: each has a row in an SVG, and a line in a text for Graphviz.

ghost use Rattle.std.specs.Prelude.{◌≡◌, ◌++◌, IfOk, OnOk};
ghost use Rattle.smx_draw.specs.Parts.{binding_text, descriptor_text, driver_text, full_text, hung_text, link_text};
ghost use Rattle.smx_draw.specs.Parts.{driver_template, item_template, part_text, parts, queue_row_text, route_text};

use crate::pieces::Piece::{Driver, Letter, Link, Name, Number, Process, Side, Stroke};
use crate::pieces::put;
use crate::queues::{QueueItem, QueueRow};
use crate::svg::block::{Row, Seat};
use smx_types::{
    BindingLine, ConfigView, DescriptorLine, DriverSpec, FullLine, HungLine, LinkLine, NoMemory,
    RouteLine,
};
use std::alloc::Global;

/// Names one of the texts of a part.
#[derive(Clone, Copy, Debug)]
pub enum Look {
    /// The class words (attribute `class`) of the part's row in an SVG.
    Class,
    /// The text that this row shows.
    Label,
    /// The line of the part for Graphviz.
    Line,
}

/// A part of a configuration.
#[derive(Clone, Copy, Debug)]
pub enum Part {
    Driver(DriverSpec),
    Link(LinkLine),
    Hung(HungLine),
    Route(RouteLine),
    Descriptor(DescriptorLine),
    Binding(BindingLine),
    Queue(QueueRow),
    Full(FullLine),
}

/// Returns the parts of a configuration, given its drivers, its view, and the rows of its queues. Fails only if it is
/// out of memory.
pub fn parts_of(
    alloc: Global,
    drivers: &[DriverSpec],
    view: &ConfigView,
    queues: &[QueueRow],
) -> Result<Vec<Part>, NoMemory>
    ensures { IfOk result (λ v. v.items ≡ parts drivers.now view.now queues.now) }
{
    let parts = drivers
        .iter()
        .map(|driver| Part::Driver(*driver))
        .chain(view.links.as_slice().iter().map(|link| Part::Link(*link)))
        .chain(view.hungs.as_slice().iter().map(|hung| Part::Hung(*hung)))
        .chain(
            view.routes
                .as_slice()
                .iter()
                .map(|route| Part::Route(*route)),
        )
        .chain(view.fds.as_slice().iter().map(|fd| Part::Descriptor(*fd)))
        .chain(
            view.binds
                .as_slice()
                .iter()
                .map(|bind| Part::Binding(*bind)),
        )
        .chain(queues.iter().map(|queue| Part::Queue(*queue)))
        .chain(view.fulls.as_slice().iter().map(|full| Part::Full(*full)));
    Ok(parts.collect(alloc)?)
}

impl Part {
    /// Returns where the row of the part belongs.
    pub fn seat(&self) -> Seat {
        match self {
            Part::Driver(driver) => Seat::of_driver(&driver.name, Row::Name),
            Part::Link(link) => Seat::of_stream(&link.lower_driver, link.lower_minor, Row::Link),
            Part::Hung(hung) => Seat::of_stream(&hung.driver, hung.minor, Row::Hung),
            Part::Route(route) => Seat::of_driver(&route.driver, Row::Route),
            Part::Descriptor(fd) => Seat::of_stream(&fd.driver, fd.minor, Row::Descriptor),
            Part::Binding(bind) => Seat::of_stream(&bind.driver, bind.minor, Row::Binding),
            Part::Queue(queue) => queue.seat(),
            Part::Full(full) => Seat::of_queue(&full.driver, full.minor, full.side, Row::Full),
        }
    }

    /// Appends one of the texts of the part to `out`. If memory runs out, `out` may end with only the beginning of this
    /// text.
    pub fn put(&self, look: Look, out: &mut Vec<u8>) -> Result<(), NoMemory>
        ensures { OnOk result (out.new.items ≡ out.old.items ++ part_text look self.now) }
    {
        match self {
            Part::Driver(driver) => put_driver(out, look, driver),
            Part::Link(link) => put_link(out, look, link),
            Part::Hung(hung) => put_hung(out, look, hung),
            Part::Route(route) => put_route(out, look, route),
            Part::Descriptor(fd) => put_descriptor(out, look, fd),
            Part::Binding(bind) => put_binding(out, look, bind),
            Part::Queue(queue) => put_queue(out, look, queue),
            Part::Full(full) => put_full(out, look, full),
        }
    }
}

fn put_driver(out: &mut Vec<u8>, look: Look, driver: &DriverSpec) -> Result<(), NoMemory>
    ensures { OnOk result (out.new.items ≡ out.old.items ++ driver_text look driver.now) }
{
    let values = [
        Name(driver.name),
        Driver(driver.kind),
        Number(driver.minors),
        Number(driver.max),
        Number(driver.high),
        Number(driver.low),
    ];
    put(out, driver_template(look), &values)
}

fn driver_template(look: Look) -> &'static [u8]
    ensures { result.now ≡ driver_template look }
{
    match look {
        Look::Class => b"@1 driver-@0",
        Look::Label => b"@0 @1, minors @2, longest @3, high @4, low @5",
        Look::Line => {
            b"  subgraph \"cluster @0\" { \"@0\" [shape=box label=\"@0 @1\\nminors \
                @2, longest @3\\nhigh @4, low @5\"] }\n"
        }
    }
}

fn put_route(out: &mut Vec<u8>, look: Look, route: &RouteLine) -> Result<(), NoMemory>
    ensures { OnOk result (out.new.items ≡ out.old.items ++ route_text look route.now) }
{
    let values = [Name(route.driver), Number(route.addr), Number(route.id)];
    match look {
        Look::Class => put(out, b"route route-@0-@1", &values),
        Look::Label => put(out, b"route @1 by link @2", &values),
        Look::Line => put(
            out,
            b"  subgraph \"cluster @0\" { \"@0\" -> \"route:@0:@1\" [style=dotted]; \
                \"route:@0:@1\" [shape=plain label=\"route @1 by link @2\"] }\n",
            &values,
        ),
    }
}

fn put_link(out: &mut Vec<u8>, look: Look, link: &LinkLine) -> Result<(), NoMemory>
    ensures { OnOk result (out.new.items ≡ out.old.items ++ link_text look link.now) }
{
    let values = [
        Number(link.id),
        Link(link.kind),
        Name(link.ctl_driver),
        Number(link.ctl_minor),
        Name(link.lower_driver),
        Number(link.lower_minor),
        Stroke(link.kind),
    ];
    match look {
        Look::Class => put(out, b"@1 link-@0", &values),
        Look::Label => put(out, b"link @0 @1 by @2 @3", &values),
        Look::Line => put(
            out,
            b"  subgraph \"cluster @4\" { \"@4 @5\" -> \"@4\" } \"@2\" -> \"@4 @5\" \
                [@6 label=\"link @0 @1\\nby @2 @3\"]\n",
            &values,
        ),
    }
}

fn put_hung(out: &mut Vec<u8>, look: Look, hung: &HungLine) -> Result<(), NoMemory>
    ensures { OnOk result (out.new.items ≡ out.old.items ++ hung_text look hung.now) }
{
    let values = [Name(hung.driver), Number(hung.minor)];
    match look {
        Look::Class => put(out, b"hung stream-@0-@1", &values),
        Look::Label => put(out, b"hung up", &values),
        Look::Line => put(
            out,
            b"  subgraph \"cluster @0\" { \"@0 @1\" -> \"@0\"; \"@0 @1\" [style=filled xlabel=\"hung up\"] }\n",
            &values,
        ),
    }
}

fn put_descriptor(out: &mut Vec<u8>, look: Look, fd: &DescriptorLine) -> Result<(), NoMemory>
    ensures { OnOk result (out.new.items ≡ out.old.items ++ descriptor_text look fd.now) }
{
    let values = [
        Name(fd.driver),
        Number(fd.minor),
        Process(fd.process),
        Number(fd.fd),
    ];
    match look {
        Look::Class => put(out, b"descriptor fd-@2-@3", &values),
        Look::Label => put(out, b"process @2 fd @3", &values),
        Look::Line => put(
            out,
            b"  subgraph \"cluster @0\" { \"@0 @1\" -> \"@0\" } \"fd:@2:@3\" -> \"@0 \
                @1\"; \"fd:@2:@3\" [shape=plain label=\"process @2 fd @3\"]\n",
            &values,
        ),
    }
}

fn put_binding(out: &mut Vec<u8>, look: Look, bind: &BindingLine) -> Result<(), NoMemory>
    ensures { OnOk result (out.new.items ≡ out.old.items ++ binding_text look bind.now) }
{
    let values = [Name(bind.driver), Number(bind.minor), Number(bind.addr)];
    match look {
        Look::Class => put(out, b"bind bind-@0-@2", &values),
        Look::Label => put(out, b"bound to @2", &values),
        Look::Line => put(
            out,
            b"  subgraph \"cluster @0\" { \"@0 @1\" -> \"@0\" } \"bind:@0:@2\" -> \
                \"@0 @1\"; \"bind:@0:@2\" [shape=plain label=\"bound to @2\"]\n",
            &values,
        ),
    }
}

fn put_full(out: &mut Vec<u8>, look: Look, full: &FullLine) -> Result<(), NoMemory>
    ensures { OnOk result (out.new.items ≡ out.old.items ++ full_text look full.now) }
{
    let values = [
        Name(full.driver),
        Number(full.minor),
        Letter(full.side),
        Side(full.side),
    ];
    match look {
        Look::Class => put(out, b"full queue-@0-@1-@2", &values),
        Look::Label => put(out, b"@3 queue full", &values),
        Look::Line => put(
            out,
            b"  subgraph \"cluster @0\" { \"@0 @1\" -> \"@0\" } \"full:@0:@1:@2\" \
                -> \"@0 @1\":@3; \"full:@0:@1:@2\" [shape=plain fontcolor=red label=\"@3 \
                queue full\"]\n",
            &values,
        ),
    }
}

fn put_queue(out: &mut Vec<u8>, look: Look, queue: &QueueRow) -> Result<(), NoMemory>
    ensures { OnOk result (out.new.items ≡ out.old.items ++ queue_row_text look queue.now) }
{
    let (first, second, third) = match queue.item {
        QueueItem::Message(serial, addr, length) => (serial, addr, length),
        QueueItem::More(count) => (count, 0, 0),
        QueueItem::Bytes(bytes, high, low) => (bytes, high, low),
    };
    let values = [
        Name(queue.driver),
        Number(queue.minor),
        Letter(queue.side),
        Side(queue.side),
        Number(first),
        Number(second),
        Number(third),
    ];
    put(out, item_template(look, queue.item), &values)
}

fn item_template(look: Look, item: QueueItem) -> &'static [u8]
    ensures { result.now ≡ item_template look item }
{
    match (item, look) {
        (QueueItem::Message(..), Look::Class) => b"message msg-@4",
        (QueueItem::Message(..), Look::Label) => b"message @4 to @5, @6 B",
        (QueueItem::Message(..), Look::Line) => {
            b"  subgraph \"cluster @0\" { \"@0 @1\" -> \"@0\" } \"msg:@4\" -> \"@0 \
                @1\":@3; \"msg:@4\" [shape=note label=\"message @4 to @5, @6 B\"]\n"
        }
        (QueueItem::More(_), Look::Class) => b"more queue-@0-@1-@2",
        (QueueItem::More(_), Look::Label) => b".. @4 more",
        (QueueItem::More(_), Look::Line) => {
            b"  subgraph \"cluster @0\" { \"@0 @1\" -> \"@0\" } \"more:@0:@1:@2\" \
                -> \"@0 @1\":@3; \"more:@0:@1:@2\" [shape=plain label=\".. @4 more\"]\n"
        }
        (QueueItem::Bytes(..), Look::Class) => b"queue queue-@0-@1-@2",
        (QueueItem::Bytes(..), Look::Label) => b"@3 @4 of @5, low @6",
        (QueueItem::Bytes(..), Look::Line) => {
            b"  subgraph \"cluster @0\" { \"@0 @1\" -> \"@0\" } \"queue:@0:@1:@2\" \
                -> \"@0 @1\":@3; \"queue:@0:@1:@2\" [shape=plain label=\"@3 @4 of \
                @5, low @6\"]\n"
        }
    }
}
