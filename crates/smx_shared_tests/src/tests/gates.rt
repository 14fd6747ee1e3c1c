//! Gates of tests: one at which processes go on one by one, one at which four processes meet, and one that logs its
//! calls.

ghost use Rattle.std.specs.Prelude.{◌≤◌};

use smx_run::Gate;
use smx_types::Process;
use std::process::Abort;
use std::sync::atomic::{AtomicBool, AtomicU32, AtomicU64, AtomicUsize, Ordering};
use std::thread;

/// A thread that waits for a count looks at it at most this many times.
pub const TURNS: u32 = 100_000_000;

/// Waits until the count is at least `wanted`, and gives up after `TURNS` looks at the count. Returns whether the count
/// has reached `wanted`.
pub fn is_reached(count: &AtomicU64, wanted: u64) -> bool {
    for _ in 0..TURNS {
        if count.load(Ordering::SeqCst) >= wanted {
            return true;
        }
        thread::yield_now();
    }
    false
}

/// A call of a gate, with a process and the number of the command.
#[derive(Clone, Copy, PartialEq, Eq)]
pub enum Reported {
    /// The command is performed next.
    Before(u32, usize),
    /// The command was performed, or refused.
    After(u32, usize),
}

impl Reported {
    /// Returns the process.
    pub fn process(&self) -> u32 {
        match self {
            Reported::Before(process, _) | Reported::After(process, _) => *process,
        }
    }
}

// A line of a log. Its fields are atomic, so that several threads can write to the log.
#[derive(Drop)]
struct Line {
    process: AtomicU32,
    number: AtomicUsize,
    performed: AtomicBool,
}

impl Line {
    fn empty() -> Line {
        Line {
            process: AtomicU32::new(0),
            number: AtomicUsize::new(0),
            performed: AtomicBool::new(false),
        }
    }

    fn reported(&self) -> Reported {
        let process = self.process.load(Ordering::SeqCst);
        let number = self.number.load(Ordering::SeqCst);
        if self.performed.load(Ordering::SeqCst) {
            Reported::After(process, number)
        } else {
            Reported::Before(process, number)
        }
    }
}

/// Lets processes 0 to 4, on two workers, go on one by one. A process comes when it is about to perform its first
/// command. It then waits until the process with the next number has come; the last process doesn't wait. Processes 0
/// and 1 come at the beginning. Each other process comes when the process before it on the same worker has ended. So
/// process 1 goes on only after process 0 has ended, and so on.
#[derive(Drop)]
pub struct OneByOne {
    come: AtomicU64,
}

impl OneByOne {
    /// Creates a gate to which no process has come yet.
    pub fn new() -> OneByOne {
        OneByOne {
            come: AtomicU64::new(0),
        }
    }
}

impl Gate for OneByOne {
    fn before(&self, process: Process, number: usize) {
        if number == 0 {
            self.come.fetch_add(1, Ordering::SeqCst);
            is_reached(&self.come, (process.get() as u64 + 2).min(5));
        }
    }

    fn after(&self, _process: Process, _number: usize) {}
}

/// Makes each process wait before its first command until four processes are there, and counts those that saw all four.
#[derive(Drop)]
pub struct FourInside {
    inside: AtomicU64,
    met: AtomicU64,
}

impl FourInside {
    /// Creates a gate to which no process has come yet.
    pub fn new() -> FourInside {
        FourInside {
            inside: AtomicU64::new(0),
            met: AtomicU64::new(0),
        }
    }

    /// Returns how many processes saw all four.
    pub fn met(&self) -> u64 {
        self.met.load(Ordering::SeqCst)
    }
}

impl Gate for FourInside {
    fn before(&self, _process: Process, number: usize) {
        if number == 0 {
            self.inside.fetch_add(1, Ordering::SeqCst);
            if is_reached(&self.inside, 4) {
                self.met.fetch_add(1, Ordering::SeqCst);
            }
        }
    }

    fn after(&self, _process: Process, _number: usize) {}
}

/// Logs its calls in order, while it has lines left.
#[derive(Drop)]
pub struct Log {
    lines: Vec<Line>,
    count: AtomicUsize,
}

impl Log {
    /// Creates an empty log with this number of lines.
    pub fn of(rt: &(impl AllocGlobal + Abort), lines: usize) -> Log {
        let mut empty = Vec::new(rt.alloc());
        for _ in 0..lines {
            assert!(rt; empty.push(Line::empty()).is_ok());
        }
        Log {
            lines: empty,
            count: AtomicUsize::new(0),
        }
    }

    /// Returns whether worker `worker` of `workers` workers made exactly the calls `wanted`, in this order.
    pub fn has_reports(&self, worker: u32, workers: u32, wanted: &[Reported]) -> bool
        requires { 1 ≤ workers }
    {
        let mut wanted = wanted.iter();
        for line in self.lines.iter().take(self.count.load(Ordering::SeqCst)) {
            let reported = line.reported();
            if reported.process() % workers == worker && wanted.next() != Some(&reported) {
                return false;
            }
        }
        wanted.next().is_none()
    }

    /// Returns whether exactly the calls `wanted` were made, in this order.
    pub fn has(&self, wanted: &[Reported]) -> bool {
        self.has_reports(0, 1, wanted)
    }

    // Writes the next line.
    fn write(&self, process: Process, number: usize, performed: bool) {
        let place = self.count.fetch_add(1, Ordering::SeqCst);
        if let Some(line) = self.lines.get(place) {
            line.process.store(process.get(), Ordering::SeqCst);
            line.number.store(number, Ordering::SeqCst);
            line.performed.store(performed, Ordering::SeqCst);
        }
    }
}

impl Gate for Log {
    fn before(&self, process: Process, number: usize) {
        self.write(process, number, false);
    }

    fn after(&self, process: Process, number: usize) {
        self.write(process, number, true);
    }
}
