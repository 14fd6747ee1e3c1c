//! Runs whose gate makes each process wait until all requested workers run, and runs whose gate counts its calls.

ghost use Rattle.std.specs.Prelude.{◌≤◌};

use super::tasks::{is_judged, whole};
use super::texts::TWO_LONG_PROGRAMS;
use smx_config::ConfigFault;
use smx_filters::{MainFault, Source, Target, run_text};
use smx_run::{Gate, RunFault};
use smx_samples::Part::{Each, Once};
use smx_text::{Cause, TextFault};
use smx_types::Process;
use std::process::Abort;
use std::sync::Wait;
use std::sync::atomic::{AtomicU64, Ordering};
use std::thread;
use std::thread::Threads;

// How often a waiting worker looks at the count before it gives up.
const TURNS: u32 = 100_000_000;

// A gate at which processes wait for each other. Each process waits before its first command until the wanted number of
// processes have begun. After its last command it waits until the wanted number of processes have performed their last
// command.
#[derive(Drop)]
struct Meet {
    wanted: u64,
    // The number of each program's last command.
    last: usize,
    inside: AtomicU64,
    // How many processes have seen that all have begun.
    met: AtomicU64,
    ended: AtomicU64,
}

impl Meet {
    fn of(wanted: u64, last: usize) -> Meet {
        Meet {
            wanted,
            last,
            inside: AtomicU64::new(0),
            met: AtomicU64::new(0),
            ended: AtomicU64::new(0),
        }
    }

    // Waits until the count is complete. Returns `false` if it is not complete after `TURNS` looks.
    fn are_all(&self, count: &AtomicU64) -> bool {
        for _ in 0..TURNS {
            if count.load(Ordering::SeqCst) == self.wanted {
                return true;
            }
            thread::yield_now();
        }
        false
    }
}

impl Gate for Meet {
    fn before(&self, _process: Process, number: usize) {
        if number == 0 {
            self.inside.fetch_add(1, Ordering::SeqCst);
            if self.are_all(&self.inside) {
                self.met.fetch_add(1, Ordering::SeqCst);
            }
        }
    }

    // If no process has seen that all have begun, none waits here.
    fn after(&self, _process: Process, number: usize) {
        if number == self.last {
            self.ended.fetch_add(1, Ordering::SeqCst);
            let _all = self.met.load(Ordering::SeqCst) > 0 && self.are_all(&self.ended);
        }
    }
}

// Returns programs for this number of processes. Each opens two streams and links one below the other.
fn linking(rt: &(impl AllocGlobal + Abort), count: u32) -> String {
    let begin = Once("programs 1\ndriver ip mux 64 8 3 16\ndriver eth leaf 64 8 3 16\n");
    let processes = Each(0, count, "process {n}\nclone ip\nclone eth\nlink 0 1\n");
    whole(rt, &[begin, processes, Once("end\n")])
}

// Returns the output of a run. Checks that all its workers ran at once.
fn met_and_wrote<R: AllocGlobal + Abort + Threads + Wait + Sync>(
    rt: &R,
    input: &[u8],
    workers: usize,
    fronts: bool,
    last: usize,
) -> Vec<u8>
    requires { (1 ≤ workers) × (workers ≤ 64) }
{
    let gate = Meet::of(workers as u64, last);
    let mut written = Target::new(Vec::new(rt.alloc()));
    let mut feed = Source::new(input);
    let ran = run_text(
        rt,
        rt.alloc(),
        &mut feed,
        &mut written,
        workers,
        fronts,
        &gate,
    );
    assert!(rt; ran.is_ok());
    assert!(rt; gate.met.load(Ordering::SeqCst) == workers as u64);
    written.writer
}

// For runs with as many workers as processes: this number, the verdict on the transcript, and the front (the numbers of
// entries and links) that each process sees at its end.
const MEETINGS: [(u32, &[u8], &str); 5] = [
    (2, b"legal 6\n", "front {n} 6 2\n"),
    (3, b"legal 9\n", "front {n} 9 3\n"),
    (4, b"legal 12\n", "front {n} 12 4\n"),
    (16, b"legal 48\n", "front {n} 48 16\n"),
    (64, b"legal 192\n", "front {n} 192 64\n"),
];

#[test]
fn as_many_workers_as_asked_for_are_inside_at_once(rt: HostRuntime) {
    for (workers, verdict, front) in MEETINGS {
        let input = linking(&rt, workers);
        let written = met_and_wrote(&rt, input.as_bytes(), workers as usize, false, 2);
        is_judged(&rt, written.as_slice(), verdict);
        let written = met_and_wrote(&rt, input.as_bytes(), workers as usize, true, 2);
        let fronts = [Once("fronts 1\n"), Each(0, workers, front), Once("end\n")];
        assert!(rt; written.as_slice() == whole(&rt, &fronts).as_bytes());
    }
}

#[test]
fn two_workers_are_inside_at_once_on_a_long_input(rt: HostRuntime) {
    let input = whole(&rt, &TWO_LONG_PROGRAMS);
    let written = met_and_wrote(&rt, input.as_bytes(), 2, false, 4_999);
    is_judged(&rt, written.as_slice(), b"legal 10000\n");
}

// Counts the calls before a command, and the calls after a command.
#[derive(Drop)]
struct Counts {
    before: AtomicU64,
    after: AtomicU64,
}

impl Gate for Counts {
    fn before(&self, _process: Process, _number: usize) {
        self.before.fetch_add(1, Ordering::SeqCst);
    }

    fn after(&self, _process: Process, _number: usize) {
        self.after.fetch_add(1, Ordering::SeqCst);
    }
}

// Four processes have two commands each.
const FOUR: &[u8] =
    b"programs 1\ndriver ip mux 4 8 3 16\ndriver eth leaf 2 8 3 16\nprocess 0\nclone ip\nexit\nprocess 1\nclone ip\nexit\nprocess 2\nclone ip\nexit\nprocess 3\nclone ip\nexit\nend\n";

// Checks that a run of `FOUR` by this number of workers calls its gate for eight commands, and writes a legal
// transcript.
fn reports_all_eight<R: AllocGlobal + Abort + Threads + Wait + Sync>(
    rt: &R,
    workers: usize,
    fronts: bool,
)
    requires { (1 ≤ workers) × (workers ≤ 64) }
{
    let gate = Counts {
        before: AtomicU64::new(0),
        after: AtomicU64::new(0),
    };
    let mut written = Target::new(Vec::new(rt.alloc()));
    let mut feed = Source::new(FOUR);
    let ran = run_text(
        rt,
        rt.alloc(),
        &mut feed,
        &mut written,
        workers,
        fronts,
        &gate,
    );
    assert!(rt; ran.is_ok());
    assert!(rt; gate.before.load(Ordering::SeqCst) == 8);
    assert!(rt; gate.after.load(Ordering::SeqCst) == 8);
    if !fronts {
        is_judged(rt, written.writer.as_slice(), b"legal 8\n");
    }
}

#[test]
fn four_short_programs_are_inside_at_once(rt: HostRuntime) {
    let written = met_and_wrote(&rt, FOUR, 4, false, 1);
    is_judged(&rt, written.as_slice(), b"legal 8\n");
}

#[test]
fn workers_tell_the_gate_of_each_command(rt: HostRuntime) {
    for workers in [1, 2, 3, 64] {
        for fronts in [false, true] {
            reports_all_eight(&rt, workers, fronts);
        }
    }
}

// The last line of the second of two programs is not a command.
const MALFORMED: &[u8] =
    b"programs 1\ndriver ip mux 4 8 3 16\nprocess 0\nclone ip\nexit\nprocess 1\nexit\nexit 0\nend\n";

// The second driver has the name of the first.
const SAME_NAME: &[u8] =
    b"programs 1\ndriver ip mux 4 8 3 16\ndriver ip mux 4 8 3 16\nprocess 0\nexit\nprocess 1\nexit\nend\n";

// Runs an input that is refused. Checks that the gate is not called.
fn refused_unheard<R: AllocGlobal + Abort + Threads + Wait + Sync>(
    rt: &R,
    input: &[u8],
    workers: usize,
    fronts: bool,
) -> MainFault
    requires { (1 ≤ workers) × (workers ≤ 64) }
{
    let gate = Counts {
        before: AtomicU64::new(0),
        after: AtomicU64::new(0),
    };
    let mut written = Target::new(Vec::new(rt.alloc()));
    let mut feed = Source::new(input);
    let ran = run_text(
        rt,
        rt.alloc(),
        &mut feed,
        &mut written,
        workers,
        fronts,
        &gate,
    );
    assert!(rt; gate.before.load(Ordering::SeqCst) == 0);
    assert!(rt; gate.after.load(Ordering::SeqCst) == 0);
    assert!(rt; written.writer.is_empty());
    match ran {
        Err(fault) => fault,
        Ok(()) => panic!(rt; "the input is refused"),
    }
}

#[test]
fn no_command_is_performed_of_an_invalid_text(rt: HostRuntime) {
    for workers in 1..4 {
        for fronts in [false, true] {
            let fault = refused_unheard(&rt, MALFORMED, workers, fronts);
            let MainFault::Text(TextFault { line, cause }) = fault else {
                panic!(rt; "no fault of the text")
            };
            assert!(rt; (line, cause) == (8, Cause::Form));
        }
    }
}

#[test]
fn no_command_is_performed_over_refused_drivers(rt: HostRuntime) {
    for workers in 1..4 {
        for fronts in [false, true] {
            let fault = refused_unheard(&rt, SAME_NAME, workers, fronts);
            let MainFault::Refused(RunFault::ConfigFault(ConfigFault::SameName(driver))) = fault
            else {
                panic!(rt; "no fault of the drivers")
            };
            assert!(rt; driver == 1);
        }
    }
}
