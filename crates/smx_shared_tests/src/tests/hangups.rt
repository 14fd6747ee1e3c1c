//! Two worked histories of a device that hangs up. A run of their commands on one worker reports exactly these
//! histories.

use super::made::{front, read};
use super::worked::is_judged;
use smx_config::Verdict;
use smx_run::{NoGate, Report, run_programs};
use smx_types::{Commands, ProgramList, Programs, Transcript, Version};
use std::mem::forget;
use std::process::Abort;
use std::sync::Wait;
use std::thread::Threads;

// The commands that a hung-up stream refuses, while it is below a link and after the link is removed.
const REFUSALS: &[u8] = b"transcript 2
driver ip mux 4 8 3 16
driver eth leaf 2 8 3 16
0 clone ip = fd 0 0
0 clone eth = fd 1 0
0 link 0 1 = id 1
0 route 0 5 1 = done
0 write 0 5 aa = took 1
0 hangup eth 0 = done
0 write 0 5 bb = took 2
0 inject eth 0 9 cc = ENXIO hangup
0 transmit eth 0 = ENXIO hangup
0 unlink 0 1 = done
0 write 1 5 dd = ENXIO hangup
0 write 1 5 - = ENXIO hangup
0 read 1 = eof
0 link 1 0 = ENXIO hangup
0 link 1 9 = EBADF fd
0 flush 1 w = ENXIO hangup
0 hangup ip 0 = ENXIO driver
0 hangup eth 1 = ENXIO minor
0 close 1 = done 1
0 clone eth = fd 1 0
0 read 1 = EAGAIN empty
config
next 2 3
fd 0 0 ip 0
fd 0 1 eth 0
msg ip 0 w 2 5 bb
end
";

/// A message is read before the end of file, and then the stream goes below a link.
pub const END_OF_FILE: &[u8] = b"transcript 2
driver ip mux 4 8 3 16
driver eth leaf 2 8 3 16
0 clone eth = fd 0 0
0 inject eth 0 9 aa = took 1
0 hangup eth 0 = done
0 hangup eth 0 = done
0 read 0 = got 1 9 aa
0 read 0 = eof
0 clone ip = fd 1 0
0 plink 1 0 = id 1
0 read 0 = EINVAL below
config
next 2 2
fd 0 0 eth 0
fd 0 1 ip 0
link 1 ip 0 eth 0 plink
hung eth 0
end
";

// Returns the program of process 0 with the commands of this transcript.
fn program_of(rt: &(impl AllocGlobal + Abort), want: &Transcript) -> Programs {
    let mut commands = Commands::new(rt.alloc());
    for entry in want.entries.as_slice() {
        let command = entry.command.copy(rt.alloc()).expect(rt, "memory");
        assert!(rt; commands.push(command).is_ok());
    }
    let mut programs = ProgramList::new(rt.alloc());
    assert!(rt; programs.push(commands).is_ok());
    let drivers = want.drivers.copy(rt.alloc()).expect(rt, "memory");
    Programs::new(drivers, programs).ok().expect(rt, "programs")
}

// Returns the report of a run of that program, on one worker.
fn report_of<R: AllocGlobal + Abort + Threads + Wait + Sync>(rt: &R, want: &Transcript) -> Report {
    let programs = program_of(rt, want);
    assert!(rt; programs.version() == Version::V2);
    run_programs(rt, rt.alloc(), programs, 1, &NoGate).expect(rt, "a report")
}

// Checks the report of a run. At its end, the process sees this front: this number of entries and of links.
fn is_reported<R: AllocGlobal + Abort + Threads + Wait + Sync>(
    rt: &R,
    text: &[u8],
    entries: u32,
    links: u32,
) {
    let want = read(rt, text);
    let report = report_of(rt, &want);
    let end = [front(entries, links, false)];
    assert!(rt; report.fronts.as_slice() == end.as_slice());
    let made = report.into_transcript(Version::V2);
    assert!(rt; made == want);
    forget((made, want));
}

#[test]
fn worked_and_run_alone(rt: HostRuntime) {
    is_judged(&rt, REFUSALS, Verdict::Legal);
    is_judged(&rt, END_OF_FILE, Verdict::Legal);
    is_reported(&rt, REFUSALS, 21, 0);
    is_reported(&rt, END_OF_FILE, 9, 1);
}
