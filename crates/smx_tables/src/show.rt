//! The lines that show a configuration.

ghost use Rattle.std.specs.Prelude.{◌≡◌, ◌<◌, length, map, IfOk};
ghost use Rattle.std.specs.List.{All};
ghost use Rattle.smx_model.specs.DriverList.{name_of};
ghost use Rattle.smx_model.specs.KeptConfigurations.{IsSound};
ghost use Rattle.smx_model.specs.Views.{view, view_of_fd, view_of_link, view_of_bind, view_of_route, view_of_message};
ghost use Rattle.smx_model.specs.Views.{view_of_full, view_of_hung};

use crate::tables::Tables;
use smx_addresses::{Bindings, Routes};
use smx_links::LinkTable;
use smx_queues::FlowTable;
use smx_streams::Streams;
use smx_types::{
    BindingLine, BindingLines, ConfigView, DescriptorLine, DescriptorLines, DriverSpec, FullLine,
    FullLines, HungLine, HungLines, LinkLine, LinkLines, MessageLine, MessageLines, Name, NoMemory,
    RouteLine, RouteLines,
};
use std::alloc::Global;

fn name_of(drivers: &[DriverSpec], driver: u8) -> Name
    requires { driver < length drivers.now }
    ensures { result ≡ name_of drivers.now driver }
{
    drivers[driver as usize].name
}

// Returns the lines of all descriptors, by rising process, and by rising number within a process.
fn descriptor_lines(
    alloc: Global,
    drivers: &[DriverSpec],
    streams: &Streams,
) -> Result<Vec<DescriptorLine>, NoMemory>
    requires { All (λ d. d.stream.driver < length drivers.now) streams.now.fds }
    ensures { IfOk result (λ v. v.items ≡ map (view_of_fd drivers.now) streams.now.fds) }
{
    let list = streams.fds(alloc)?;
    let lines = list.iter().map(|d| DescriptorLine {
        process: d.process,
        fd: d.fd,
        driver: name_of(drivers, d.stream.driver),
        minor: u32::from(d.stream.minor),
    });
    Ok(lines.collect(alloc)?)
}

// Returns the lines of all links, by rising id.
fn link_lines(
    alloc: Global,
    drivers: &[DriverSpec],
    links: &LinkTable,
) -> Result<Vec<LinkLine>, NoMemory>
    requires ctl { All (λ l. l.ctl.driver < length drivers.now) links.now.links }
    requires lower { All (λ l. l.lower.driver < length drivers.now) links.now.links }
    ensures { IfOk result (λ v. v.items ≡ map (view_of_link drivers.now) links.now.links) }
{
    let list = links.links();
    let lines = list.iter().map(|l| LinkLine {
        id: l.id,
        ctl_driver: name_of(drivers, l.ctl.driver),
        ctl_minor: u32::from(l.ctl.minor),
        lower_driver: name_of(drivers, l.lower.driver),
        lower_minor: u32::from(l.lower.minor),
        kind: l.kind,
    });
    Ok(lines.collect(alloc)?)
}

// Returns the lines of all bindings, by rising driver, and by rising address within a driver.
fn binding_lines(
    alloc: Global,
    drivers: &[DriverSpec],
    binds: &Bindings,
) -> Result<Vec<BindingLine>, NoMemory>
    requires { All (λ b. b.driver < length drivers.now) binds.now }
    ensures { IfOk result (λ v. v.items ≡ map (view_of_bind drivers.now) binds.now) }
{
    let list = binds.list(alloc)?;
    let lines = list.iter().map(|b| BindingLine {
        driver: name_of(drivers, b.driver),
        addr: b.addr,
        minor: u32::from(b.minor),
    });
    Ok(lines.collect(alloc)?)
}

// Returns the lines of all routes, by rising driver, and by rising address within a driver.
fn route_lines(
    alloc: Global,
    drivers: &[DriverSpec],
    routes: &Routes,
) -> Result<Vec<RouteLine>, NoMemory>
    requires { All (λ r. r.driver < length drivers.now) routes.now }
    ensures { IfOk result (λ v. v.items ≡ map (view_of_route drivers.now) routes.now) }
{
    let list = routes.list(alloc)?;
    let lines = list.iter().map(|r| RouteLine {
        driver: name_of(drivers, r.driver),
        addr: r.addr,
        id: r.id,
    });
    Ok(lines.collect(alloc)?)
}

// Returns the lines of all queued messages, by rising place, and in order of arrival within a place. Moves the messages
// out of the table of queues.
fn message_lines(
    alloc: Global,
    drivers: &[DriverSpec],
    queues: FlowTable,
) -> Result<Vec<MessageLine>, NoMemory>
    requires { All (λ h. h.place.stream.driver < length drivers.now) queues.flow }
    ensures { IfOk result (λ v. v.items ≡ map (view_of_message drivers.now) queues.flow) }
{
    let mut lines = Vec::with_capacity(alloc, queues.len())?;
    let mut rest = queues.into_messages();
    while let Some((place, message)) = rest.next() {
        lines.push(MessageLine {
            driver: name_of(drivers, place.stream.driver),
            minor: u32::from(place.stream.minor),
            side: place.side,
            message,
        })?;
    }
    Ok(lines)
}

// Returns the lines of all full places, by rising place.
fn full_lines(
    alloc: Global,
    drivers: &[DriverSpec],
    queues: &FlowTable,
) -> Result<Vec<FullLine>, NoMemory>
    requires { All (λ p. p.stream.driver < length drivers.now) queues.now.fulls }
    ensures { IfOk result (λ v. v.items ≡ map (view_of_full drivers.now) queues.now.fulls) }
{
    let list = queues.fulls(alloc)?;
    let lines = list.iter().map(|p| FullLine {
        driver: name_of(drivers, p.stream.driver),
        minor: u32::from(p.stream.minor),
        side: p.side,
    });
    Ok(lines.collect(alloc)?)
}

// Returns the lines of all hung-up streams, by rising stream.
fn hung_lines(
    alloc: Global,
    drivers: &[DriverSpec],
    streams: &Streams,
) -> Result<Vec<HungLine>, NoMemory>
    requires { All (λ s. s.driver < length drivers.now) streams.now.hungs }
    ensures { IfOk result (λ v. v.items ≡ map (view_of_hung drivers.now) streams.now.hungs) }
{
    let list = streams.hungs(alloc)?;
    let lines = list.iter().map(|s| HungLine {
        driver: name_of(drivers, s.driver),
        minor: u32::from(s.minor),
    });
    Ok(lines.collect(alloc)?)
}

impl Tables {
    /// Returns the view of the configuration: the lines that show it. Fails only if out of memory.
    pub fn show(&self) -> Result<ConfigView, NoMemory>
        requires { IsSound self.now.drivers self.now.configuration }
        ensures { IfOk result (λ v. v ≡ view self.now.drivers self.now.configuration) }
    {
        self.copy(self.alloc)?.into_view()
    }

    /// Returns the same view as `show`, and consumes the tables: it moves the messages instead of copying them. Fails
    /// only if out of memory.
    pub fn into_view(self) -> Result<ConfigView, NoMemory>
        requires { IsSound self.drivers self.configuration }
        ensures { IfOk result (λ v. v ≡ view self.drivers self.configuration) }
    {
        let Tables {
            alloc,
            drivers,
            lists,
            ..
        } = self;
        Ok(ConfigView {
            next_id: lists.links.next_id(),
            next_serial: lists.next_serial,
            fds: DescriptorLines::from_vec(descriptor_lines(alloc, &drivers, &lists.streams)?),
            links: LinkLines::from_vec(link_lines(alloc, &drivers, &lists.links)?),
            binds: BindingLines::from_vec(binding_lines(alloc, &drivers, &lists.binds)?),
            routes: RouteLines::from_vec(route_lines(alloc, &drivers, &lists.routes)?),
            fulls: FullLines::from_vec(full_lines(alloc, &drivers, &lists.queues)?),
            hungs: HungLines::from_vec(hung_lines(alloc, &drivers, &lists.streams)?),
            msgs: MessageLines::from_vec(message_lines(alloc, &drivers, lists.into_queues())?),
        })
    }
}
