//! The places to which messages go next, and a cache of them. For each place the cache has one hop: an address, and the
//! place to which messages with this address go next, as the last look-up found it.

ghost use Rattle.std.specs.Prelude.{◌≡◌, ℕ, ◌<◌, length, IfOk, IfSome, List, Ok};
ghost use Rattle.smx_types.specs.declared.driver.DriverSpec.{DriverSpec};
ghost use Rattle.smx_types.specs.declared.reply.Reply.{Reply};
ghost use Rattle.smx_types.specs.declared.stream.Place.{Place as PlaceValue};
ghost use Rattle.smx_model.specs.Commands.{outcome};
ghost use Rattle.smx_model.specs.Configuration.{Configuration};
ghost use Rattle.smx_model.specs.KeptConfigurations.{IsSound};
ghost use Rattle.smx_model.specs.Swept.{IsSwept};
ghost use Rattle.smx_queues.specs.PlaceLists.{places_of};
ghost use Rattle.smx_config.specs.Marking.{IsAt, IsNumber};
ghost use Rattle.smx_config.specs.Moves.{IsNextOf};
ghost use Rattle.smx_config.specs.Ways.{AreHops, IsWay, LeadsTo, keeps_ways};

use smx_tables::Tables;
use smx_types::{Command, NoMemory};
use std::alloc::Global;

/// The number of the place to which messages with the address `addr` go next. The age tells when this was found: it is
/// the value that the `age` of `Hops` had then.
#[derive(Clone, Copy, Debug)]
pub struct Hop {
    pub addr: u32,
    pub to: usize,
    pub age: u64,
}

/// The hop that was found last for each place, by the number of the place. `age` rises when next places may change, and
/// a hop of an earlier age is out of date. `age` can't rise above its largest value, and at that value no hop is used.
#[derive(Clone, Debug, Drop)]
pub struct Hops {
    pub hops: Vec<Hop>,
    pub age: u64,
}

pub fn no_hops(alloc: Global, count: usize) -> Result<Hops, NoMemory>
    ensures { IfOk result (λ h. (drivers : List DriverSpec) (c : Configuration) → count ≡ length (places_of drivers)
        → AreHops drivers c h) }
{
    let none = Hop {
        addr: 0,
        to: 0,
        age: 0,
    };
    Ok(Hops {
        hops: vec![in alloc; none; count]?,
        age: 1,
    })
}

// Returns the number of the place to which messages with this address go next from place number `n`. Returns `None` if
// the hop of place `n` has another address or is out of date, or if `age` has its largest value.
#[inline(always)]
fn known_hop(hops: &Hops, n: usize, addr: u32) -> Option<usize>
    requires { n < length hops.now.hops.items }
    ensures { (drivers : List DriverSpec) (c : Configuration) (p : PlaceValue) → AreHops drivers c hops.now
        → IsAt drivers n p → IfSome result (LeadsTo drivers c p addr) }
{
    let hop = hops.hops[n];
    if hop.addr == addr && hop.age == hops.age && hops.age < u64::MAX {
        Some(hop.to)
    } else {
        None
    }
}

fn note_hop(hops: &mut Hops, n: usize, addr: u32, to: usize)
    requires { n < length hops.old.hops.items }
    ensures { (drivers : List DriverSpec) (c : Configuration) (p : PlaceValue) → AreHops drivers c hops.old
        → IsAt drivers n p → LeadsTo drivers c p addr to → AreHops drivers c hops.new }
{
    let age = hops.age;
    hops.hops[n] = Hop { addr, to, age };
}

// Makes all hops out of date.
fn forget_all(hops: &mut Hops)
    ensures { (drivers : List DriverSpec) (c d : Configuration) → AreHops drivers c hops.old
        → AreHops drivers d hops.new }
{
    if hops.age < u64::MAX {
        hops.age += 1;
    }
}

// Returns whether the command, if it is accepted, only adds or removes messages.
fn keeps_ways(command: &Command) -> bool
    ensures { result ≡ keeps_ways command.now }
{
    matches!(
        command,
        Command::Write { .. }
            | Command::Read { .. }
            | Command::Flush { .. }
            | Command::Inject { .. }
            | Command::Transmit { .. }
    )
}

// Makes all hops out of date after a command was accepted, unless the command only adds or removes messages.
pub fn forget_changed(hops: &mut Hops, command: &Command)
    ensures { (drivers : List DriverSpec) (c d : Configuration) (process : ℕ) (r : Reply) → IsSwept drivers c
        → AreHops drivers c hops.old → outcome drivers c process command.now ≡ Ok (d, r) → AreHops drivers d hops.new }
{
    if !keeps_ways(command) {
        forget_all(hops);
    }
}

// Returns the number of the place to which messages with this address go next from place number `n`. Looks it up in the
// tables.
#[inline(never)]
fn look_up(tables: &Tables, n: usize, addr: u32) -> Option<usize>
    requires sound { IsSound tables.now.drivers tables.now.configuration }
    requires number { IsNumber tables.now.drivers n }
    ensures { (p : PlaceValue) → IsAt tables.now.drivers n p
        → IsWay tables.now.drivers tables.now.configuration p addr result }
{
    let next = tables.next_place(tables.queues().place_at(n), addr)?;
    tables.queues().number(next)
}

// Returns the number that `look_up` returns. Takes this number from the hops, if they have it.
#[inline(always)]
fn way_from(tables: &Tables, hops: &mut Hops, n: usize, addr: u32) -> Option<usize>
    requires sound { IsSound tables.now.drivers tables.now.configuration }
    requires number { IsNumber tables.now.drivers n }
    requires hops { AreHops tables.now.drivers tables.now.configuration hops.old }
    ensures value { (p : PlaceValue) → IsAt tables.now.drivers n p
        → IsWay tables.now.drivers tables.now.configuration p addr result }
    ensures hops { AreHops tables.now.drivers tables.now.configuration hops.new }
{
    if let Some(to) = known_hop(hops, n, addr) {
        return Some(to);
    }
    let to = look_up(tables, n, addr)?;
    note_hop(hops, n, addr, to);
    Some(to)
}

// Returns the number of the place to which the first message at place number `n` goes next, if there is such a place.
// The returned place may be full.
#[inline(always)]
pub fn next_of_first(tables: &Tables, hops: &mut Hops, n: usize) -> Option<usize>
    requires sound { IsSound tables.now.drivers tables.now.configuration }
    requires number { IsNumber tables.now.drivers n }
    requires hops { AreHops tables.now.drivers tables.now.configuration hops.old }
    ensures value { (p : PlaceValue) → IsAt tables.now.drivers n p
        → IsNextOf tables.now.drivers tables.now.configuration p result }
    ensures number { IfSome result (IsNumber tables.now.drivers) }
    ensures hops { AreHops tables.now.drivers tables.now.configuration hops.new }
{
    let message = tables.queues().front_at(n)?;
    way_from(tables, hops, n, message.addr)
}
