//! The values of the tests. If an allocation fails, the value is made once more. So a test still passes if only one
//! allocation fails.

ghost use Rattle.std.specs.Prelude.{◌≤◌};
ghost use Rattle.smx_types.specs.declared.limits.TheConstants.{MAX_COMMANDS};

use smx_shared::{Front, System};
use smx_text::read_transcript;
use smx_types::{Command, DriverKind, DriverSpec, Name, Process, Transcript};
use std::process::Abort;

/// Returns the name with this spelling.
pub fn named(rt: &impl Abort, text: &str) -> Name {
    Name::new(text).expect(rt, "a name")
}

/// Returns the process with this number.
pub fn numbered(rt: &impl Abort, number: u32) -> Process {
    Process::new(number).expect(rt, "a process")
}

/// Returns `driver ip mux M 8 3 16` with this number of minors.
pub fn ip(rt: &impl Abort, minors: u32) -> DriverSpec {
    DriverSpec {
        name: named(rt, "ip"),
        kind: DriverKind::Mux,
        minors,
        high: 8,
        low: 3,
        max: 16,
    }
}

/// Returns `clone NAME`.
pub fn clone_of(rt: &impl Abort, driver: &str) -> Command {
    Command::OpenClone {
        driver: named(rt, driver),
    }
}

/// Returns the transcript that this text spells.
pub fn read(rt: &(impl AllocGlobal + Abort), text: &[u8]) -> Transcript {
    match read_transcript(rt.alloc(), text) {
        Ok(transcript) => transcript,
        Err(_) => read_transcript(rt.alloc(), text).expect(rt, "a transcript"),
    }
}

/// Returns a system over these drivers, with this limit of entries.
pub fn system_over(rt: &(impl AllocGlobal + Abort), drivers: &[DriverSpec], limit: usize) -> System
    requires { limit ≤ MAX_COMMANDS }
{
    match System::new(rt.alloc(), drivers, limit) {
        Ok(system) => system,
        Err(_) => System::new(rt.alloc(), drivers, limit).expect(rt, "a system"),
    }
}

/// Returns the front with these numbers of entries and links, and the turn held or free.
pub fn front(entries: u32, links: u32, held: bool) -> Front {
    Front {
        entries,
        links,
        held,
    }
}

/// Prints that an allocation for `what` failed.
pub fn tells_of_want(rt: &impl Print, what: &str) {
    let _ = println!(rt; "{what} wanted memory");
}
