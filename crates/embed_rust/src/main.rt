//! Three threads share one configuration, each with its own process: muxsim as a library.
#![tactic(auto)]

ghost use Rattle.std.specs.Prelude.{◌≡◌, ◌≤◌, All, IfOk};
ghost use Rattle.smx_types.specs.declared.limits.TheConstants.{MAX_PROCESSES};

use anyhow::{Context, Result};
use smx_config::{Verdict, check_history};
use smx_shared::{Door, Seat, Shared, System};
use smx_types::{Command, DriverKind, DriverSpec, Name, NoMemory, Reply};
use std::alloc::Global;
use std::sync::Wait;
use std::thread::{Threads, map_vec};

// Returns a driver with three minors and queues of 8 bytes.
fn driver(name: Name, kind: DriverKind) -> DriverSpec {
    DriverSpec {
        name,
        kind,
        minors: 3,
        high: 8,
        low: 3,
        max: 16,
    }
}

// Performs a command for the process of a seat. Returns the reply, which may refuse the command. Returns `None` if the
// call fails.
fn answer<R: Wait>(
    rt: &R,
    shared: &Shared,
    seat: &mut Seat,
    alloc: Global,
    command: &Command,
) -> Option<Reply>
    requires { seat.old.shared ≡ shared.now.name }
    ensures { seat.new.shared ≡ shared.now.name }
{
    let entry = shared.call(rt, alloc, seat, command).ok()?;
    Some(entry.reply)
}

// Opens a stream of ip and one of eth, links the second below the first by a persistent link, and exits. Returns
// whether all four commands succeeded.
fn links_for_good<R: Wait>(
    rt: &R,
    shared: &Shared,
    mut seat: Seat,
    alloc: Global,
    ip: Name,
    eth: Name,
) -> bool
    requires { seat.shared ≡ shared.now.name }
{
    let open_ip = Command::OpenClone { driver: ip };
    let open_eth = Command::OpenClone { driver: eth };
    let link = Command::Plink { fd: 0, arg: 1 };
    let upper = answer(rt, shared, &mut seat, alloc, &open_ip);
    let lower = answer(rt, shared, &mut seat, alloc, &open_eth);
    let id = answer(rt, shared, &mut seat, alloc, &link);
    let end = answer(rt, shared, &mut seat, alloc, &Command::CloseAll);
    matches!(upper, Some(Reply::Fd { .. }))
        && matches!(lower, Some(Reply::Fd { .. }))
        && matches!(id, Some(Reply::Id(_)))
        && matches!(end, Some(Reply::Done { .. }))
}

// Runs `links_for_good` for each seat, on a thread of its own. The threads take their turns in any order. Returns
// whether all commands of all threads succeeded.
fn all_link<R: Threads + Wait + Sync>(
    rt: &R,
    shared: &Shared,
    seats: Vec<Seat>,
    alloc: Global,
    ip: Name,
    eth: Name,
) -> bool
    requires { All (λ s. s.shared ≡ shared.now.name) seats.items }
{
    let done = map_vec(
        rt,
        seats,
        &|seat: Seat| -> bool
            requires { seat.shared ≡ shared.now.name }
        { links_for_good(rt, shared, seat, alloc, ip, eth) },
    );
    match done {
        Ok(done) => done.iter().all(|done| *done),
        Err(_) => false,
    }
}

// Shares the system among this many processes and returns a seat for each.
#[tactic(auto, using(crate::proofs::SeatLemmas::are_of))]
fn start(alloc: Global, system: System, processes: usize) -> Result<(Shared, Vec<Seat>), NoMemory>
    requires { (1 ≤ processes) × (processes ≤ MAX_PROCESSES) }
    ensures { IfOk result (λ r. All (λ s. s.shared ≡ r.0.name) r.1.items) }
{
    Shared::start(alloc, system, processes)
}

// Shares the system among three processes on three threads. Returns whether all their commands succeeded, and the
// system, which a fourth seat gets back.
fn shared_by_three<R: Threads + Wait + Sync>(
    rt: &R,
    alloc: Global,
    system: System,
    ip: Name,
    eth: Name,
) -> Result<(bool, System)> {
    let (shared, mut seats) = start(alloc, system, 4)?;
    let last = seats.pop().context("there is no seat")?;
    let all = all_link(rt, &shared, seats, alloc, ip, eth);
    Ok((all, shared.close(last)?))
}

// Returns the verdict on the history of the system and the configuration that it shows.
fn verdict_of(alloc: Global, drivers: &[DriverSpec], system: &System) -> Result<Verdict> {
    let view = system.config().show()?;
    Ok(check_history(alloc, drivers, system.entries(), &view)?)
}

// Lets three processes share a system, and prints one line with the result.
fn tell_of_three<R: Threads + Wait + Sync + Print>(rt: &R, alloc: Global) -> Result<()> {
    let (ip, eth) = (Name::new("ip").unwrap(), Name::new("eth").unwrap());
    let drivers = [driver(ip, DriverKind::Mux), driver(eth, DriverKind::Leaf)];
    let system = System::new(alloc, &drivers, 100)?;
    let (all, system) = shared_by_three(rt, alloc, system, ip, eth)?;
    let verdict = verdict_of(alloc, &drivers, &system)?;
    let (entries, links) = (system.entries().len(), system.config().link_count());
    println!(rt; "{all}: {entries} entries, {links} links, {verdict:?}")?;
    Ok(())
}

fn main(rt: HostRuntime) -> Result<()> {
    tell_of_three(&rt, rt.alloc())
}
