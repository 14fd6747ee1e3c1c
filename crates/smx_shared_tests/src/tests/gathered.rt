//! A report that is gathered from a system with three entries and from the entries that its callers kept; its copy; and
//! kept entries with which the system doesn't agree. `three_seats` also gathers a report, from a system that three
//! seats shared. The first test also passes if any single allocation fails. tests/refused_growths runs it many times,
//! and each time another allocation fails.

use super::made::{numbered, read, system_over, tells_of_want};
use super::systems::{copied, plays};
use smx_run::{GatherFault, Report, gather};
use smx_shared::System;
use smx_types::{Entries, Transcript};
use std::mem::forget;
use std::process::Abort;

/// The entries of three processes, in this order.
pub const OPENED: &[u8] = b"transcript 1
driver ip mux 4 8 3 16
0 clone ip = fd 0 0
2 clone ip = fd 0 1
1 clone ip = fd 0 2
config
next 1 1
fd 0 0 ip 0
fd 1 0 ip 2
fd 2 0 ip 1
end
";

// The entries of no process, and of each of the three.
const BY_NONE: &[u8] = b"transcript 1\nconfig\nnext 1 1\nend\n";

const BY_ZERO: &[u8] = b"transcript 1\n0 clone ip = fd 0 0\nconfig\nnext 1 1\nend\n";

const BY_ONE: &[u8] = b"transcript 1\n1 clone ip = fd 0 2\nconfig\nnext 1 1\nend\n";

const BY_TWO: &[u8] = b"transcript 1\n2 clone ip = fd 0 1\nconfig\nnext 1 1\nend\n";

// Returns a system that has performed the commands of this transcript.
fn three_opened(rt: &(impl AllocGlobal + Abort + Print), want: &Transcript) -> System {
    let mut system = system_over(rt, want.drivers.as_slice(), 10);
    plays(rt, &mut system, want.entries.as_slice());
    system
}

fn room_for_three(rt: &(impl AllocGlobal + Abort)) -> Vec<Entries> {
    match Vec::with_capacity(rt.alloc(), 3) {
        Ok(room) => room,
        Err(_) => Vec::with_capacity(rt.alloc(), 3).expect(rt, "room"),
    }
}

// Returns the entries that processes 0, 1 and so on kept.
fn transcripts_of(rt: &(impl AllocGlobal + Abort), texts: &[&[u8]]) -> Vec<Entries> {
    let mut transcripts = room_for_three(rt);
    for text in texts {
        assert!(rt; transcripts.push(read(rt, *text).entries).is_ok());
    }
    transcripts
}

// Gathers a report of a copy of the system.
fn gathered_of(
    rt: &(impl AllocGlobal + Abort),
    system: &System,
    transcripts: &[Entries],
) -> Result<Report, GatherFault> {
    assert!(rt; transcripts.len() <= 3);
    gather(rt.alloc(), copied(rt, system), transcripts)
}

// Gathers a report of the system from these kept entries; tries again if memory ran out.
fn gathered(
    rt: &(impl AllocGlobal + Abort + Print),
    system: &System,
    transcripts: &[Entries],
) -> Report {
    match gathered_of(rt, system, transcripts) {
        Ok(report) => report,
        Err(_) => {
            tells_of_want(rt, "a report");
            gathered_of(rt, system, transcripts).expect(rt, "a report")
        }
    }
}

// Returns a copy of the report; tries again if memory ran out.
fn copy_of(rt: &(impl AllocGlobal + Abort + Print), report: &Report) -> Report {
    match report.copy(rt.alloc()) {
        Ok(again) => again,
        Err(_) => {
            tells_of_want(rt, "a report");
            report.copy(rt.alloc()).expect(rt, "a copy")
        }
    }
}

fn is_copied(rt: &(impl AllocGlobal + Abort + Print), report: &Report) {
    let again = copy_of(rt, report);
    assert!(rt; again == *report);
    forget(again);
}

/// Checks that the report of the system, with the entries that the three processes kept, is `want`.
pub fn are_reported(rt: &(impl AllocGlobal + Abort + Print), system: &System, want: &Transcript) {
    let transcripts = transcripts_of(rt, &[BY_ZERO, BY_ONE, BY_TWO]);
    let report = gathered(rt, system, transcripts.as_slice());
    is_copied(rt, &report);
    assert!(rt; report.fronts.as_slice().is_empty());
    let made = report.into_transcript(want.version);
    assert!(rt; made == *want);
    forget(made);
}

#[test]
fn three_entries_are_reported(rt: HostRuntime) {
    let want = read(&rt, OPENED);
    let system = three_opened(&rt, &want);
    are_reported(&rt, &system, &want);
    forget(system);
    forget(want);
}

// Lists of kept entries, and the lowest process whose entries in the history differ from its list. In the first row a
// list is empty, in the second row a list is missing, and in the third row two lists are exchanged.
const STRANGE: [(&[&[u8]], u32); 3] = [
    (&[BY_ZERO, BY_NONE, BY_TWO], 1),
    (&[BY_ZERO, BY_ONE], 2),
    (&[BY_ZERO, BY_TWO, BY_ONE], 1),
];

fn is_strange(rt: &(impl AllocGlobal + Abort), system: &System, texts: &[&[u8]], process: u32) {
    let transcripts = transcripts_of(rt, texts);
    let fault = gathered_of(rt, system, transcripts.as_slice()).err();
    assert!(rt; fault == Some(GatherFault::Strange(numbered(rt, process))));
    forget(transcripts);
}

/// Checks that the system doesn't agree with wrong kept entries.
pub fn are_strange(rt: &(impl AllocGlobal + Abort), system: &System) {
    for (texts, process) in STRANGE {
        is_strange(rt, system, texts, process);
    }
}

#[test]
fn strange_transcripts(rt: HostRuntime) {
    let want = read(&rt, OPENED);
    let system = three_opened(&rt, &want);
    are_strange(&rt, &system);
    forget(system);
    forget(want);
}
