//! Names, processes, and lists of drivers and programs, at their limits.

use smx_types::{
    Command, Commands, DriverKind, DriverSpec, Drivers, Many, Name, Process, ProgramList, Programs,
    Same,
};
use std::mem::forget;
use std::process::Abort;

const NO_NAMES: [&str; 3] = ["", "9a", "abcdefghi"];

#[test]
fn names_and_processes(rt: HostRuntime) {
    let name = Name::new("ip").expect(&rt, "a name");
    assert!(rt; name.as_bytes() == b"ip".as_slice());
    for text in &NO_NAMES {
        assert!(rt; Name::new(*text).is_none(), "{text}");
    }
    let last = Process::new(63).expect(&rt, "a process");
    assert!(rt; last.get() == 63);
    assert!(rt; Process::new(64).is_none());
}

fn ip(rt: &impl Abort) -> DriverSpec {
    DriverSpec {
        name: Name::new("ip").expect(rt, "a name"),
        kind: DriverKind::Mux,
        minors: 4,
        high: 8,
        low: 3,
        max: 16,
    }
}

fn drivers_of(rt: &(impl AllocGlobal + Abort), count: usize) -> Drivers {
    let mut drivers = Drivers::new(rt.alloc());
    for _ in 0..count {
        assert!(rt; drivers.push(ip(rt)).is_ok());
    }
    drivers
}

// Returns a program with this number of commands.
fn commands_of(rt: &(impl AllocGlobal + Abort), count: usize) -> Commands {
    let mut commands = Commands::new(rt.alloc());
    for _ in 0..count {
        assert!(rt; commands.push(Command::CloseAll).is_ok());
    }
    commands
}

fn programs_of(rt: &(impl AllocGlobal + Abort), counts: &[usize]) -> ProgramList {
    let mut programs = ProgramList::new(rt.alloc());
    for count in counts {
        assert!(rt; programs.push(commands_of(rt, *count)).is_ok());
    }
    programs
}

// The number of drivers, the number of commands of each process, and whether `Programs::new` accepts both lists.
const LISTS: [(usize, &[usize], bool); 6] = [
    (128, &[1], true),
    (129, &[1], false),
    (1, &[1; 64], true),
    (1, &[1; 65], false),
    (1, &[50_000, 50_000], true),
    (1, &[50_000, 50_001], false),
];

// Checks that `Programs::new` accepts a list of drivers and a list of programs, or hands both back.
fn are_programs(rt: &(impl AllocGlobal + Abort), drivers: usize, counts: &[usize], wanted: bool) {
    let given = Many {
        drivers: drivers_of(rt, drivers),
        programs: programs_of(rt, counts),
    };
    let again = given.copy(rt.alloc()).expect(rt, "memory");
    match Programs::new(given.drivers, given.programs) {
        Ok(programs) => {
            assert!(rt; wanted, "{drivers} drivers");
            assert!(rt; programs.drivers() == again.drivers.as_slice());
            assert!(rt; programs.programs() == again.programs.as_slice());
            forget(programs);
        }
        Err(many) => {
            assert!(rt; !wanted, "{drivers} drivers");
            assert!(rt; many.is_same(&again));
            forget(many);
        }
    }
    forget(again);
}

#[test]
fn programs_at_their_limits(rt: HostRuntime) {
    for (drivers, counts, wanted) in &LISTS {
        are_programs(&rt, *drivers, *counts, *wanted);
    }
}
