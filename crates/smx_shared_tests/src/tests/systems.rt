//! Systems: how they perform the commands of a worked history, commands that are moved into a system, copies of
//! systems, and a system that only counts its entries.

use super::made::{clone_of, numbered, read, system_over, tells_of_want};
use super::worked::shown;
use smx_config::Config;
use smx_shared::{ApplyFault, EntryCount, EntrySink, System};
use smx_types::{DriverSpec, Entry, Transcript};
use std::mem::forget;
use std::process::Abort;

/// Returns a copy of the system.
pub fn copied(rt: &(impl AllocGlobal + Abort), system: &System) -> System {
    match system.copy(rt.alloc()) {
        Ok(again) => again,
        Err(_) => system.copy(rt.alloc()).expect(rt, "a copy"),
    }
}

// Performs the command of `want` and returns its entry. Tries again if memory ran out.
fn applied(rt: &(impl Abort + Print), system: &mut System, want: &Entry) -> Entry {
    match system.apply(want.process, &want.command) {
        Ok(entry) => entry,
        Err(_) => {
            tells_of_want(rt, "a step");
            let again = system.apply(want.process, &want.command);
            again.expect(rt, "an answer")
        }
    }
}

/// Checks that the commands of these entries get these replies.
pub fn plays(rt: &(impl Abort + Print), system: &mut System, entries: &[Entry]) {
    for number in 0..entries.len() {
        let want = &entries[number];
        let entry = applied(rt, system, want);
        assert!(rt; entry == *want, "behind {number} entries");
        forget(entry);
    }
}

const THREE: &[u8] = b"transcript 1
driver ip mux 4 8 3 16
0 clone ip = fd 0 0
0 clone ip = fd 1 1
0 clone ip = fd 2 2
config
next 1 1
fd 0 0 ip 0
fd 0 1 ip 1
fd 0 2 ip 2
end
";

// Performs the commands of these entries, which are moved into the system.
fn performs<K: EntrySink>(
    rt: &(impl Abort + AllocGlobal),
    system: &mut System<K>,
    entries: &[Entry],
) {
    for entry in entries {
        let mut command = entry.command.copy(rt.alloc()).expect(rt, "a copy");
        assert!(rt; system.perform(entry.process, &mut command).is_ok());
    }
}

fn has(rt: &impl Abort, system: &System, want: &Transcript) {
    assert!(rt; system.entries() == want.entries.as_slice());
    let view = shown(rt, system.config());
    assert!(rt; view == want.view);
    forget(view);
}

fn copy_has(rt: &(impl AllocGlobal + Abort), system: &System, want: &Transcript) {
    let again = copied(rt, system);
    has(rt, &again, want);
    forget(again);
}

#[test]
fn commands_that_are_given_up(rt: HostRuntime) {
    let want = read(&rt, THREE);
    let mut system = system_over(&rt, want.drivers.as_slice(), 3);
    performs(&rt, &mut system, want.entries.as_slice());
    has(&rt, &system, &want);
    copy_has(&rt, &system, &want);
    let mut command = clone_of(&rt, "ip");
    let refused = system.perform(numbered(&rt, 0), &mut command).err();
    assert!(rt; refused == Some(ApplyFault::HistoryFull));
    assert!(rt; command == clone_of(&rt, "ip"));
    has(&rt, &system, &want);
    forget(want);
    forget(system);
}

// Returns a system that takes three entries and only counts them.
fn counting_over(rt: &(impl AllocGlobal + Abort), drivers: &[DriverSpec]) -> System<EntryCount> {
    let config = Config::new(rt.alloc(), drivers).expect(rt, "a configuration");
    System::begin(rt.alloc(), config, 3, EntryCount::new())
}

#[test]
fn entries_that_are_only_counted(rt: HostRuntime) {
    let want = read(&rt, THREE);
    let mut system = counting_over(&rt, want.drivers.as_slice());
    assert!(rt; system.count() == 0);
    performs(&rt, &mut system, want.entries.as_slice());
    assert!(rt; system.count() == 3);
    let answer = system.apply(numbered(&rt, 0), &clone_of(&rt, "ip"));
    assert!(rt; answer.err() == Some(ApplyFault::HistoryFull));
    let (count, config) = system.into_parts();
    assert!(rt; count.count() == 3);
    let view = shown(&rt, &config);
    assert!(rt; view == want.view);
    forget(view);
    forget(config);
    forget(want);
}

// Three commands get entries, and then the history is full.
#[test]
fn three_entries_are_the_most(rt: HostRuntime) {
    let want = read(&rt, THREE);
    let mut system = system_over(&rt, want.drivers.as_slice(), 3);
    plays(&rt, &mut system, want.entries.as_slice());
    let answer = system.apply(numbered(&rt, 0), &clone_of(&rt, "ip"));
    assert!(rt; answer.err() == Some(ApplyFault::HistoryFull));
    has(&rt, &system, &want);
    copy_has(&rt, &system, &want);
    forget(want);
    forget(system);
}
