//! Drivers that are refused: no configuration, no system, no verdict and no run over these drivers is possible. A run
//! that is refused never calls its gate.

ghost use Rattle.std.specs.Prelude.{◌≤◌};
ghost use Rattle.smx_run.specs.declared.run.TheConstants.{MAX_WORKERS};

use super::gates::Log;
use super::made::{ip, read};
use smx_config::{Config, ConfigFault, check_history};
use smx_run::{NoGate, RunFault, run_programs};
use smx_samples::Part::{Each, Once};
use smx_samples::{Part, text_of};
use smx_shared::System;
use smx_text::read_programs;
use smx_types::{DriverSpec, Programs, SpecFault};
use std::mem::forget;
use std::process::Abort;
use std::sync::Wait;
use std::thread::Threads;

// Returns the programs of two processes over the drivers of these lines.
fn programs_over(rt: &(impl AllocGlobal + Abort), drivers: &str) -> Programs {
    let processes = Once("process 0\nclone ip\nprocess 1\nclone ip\nend\n");
    let text = text_of(
        rt.alloc(),
        &[Once("programs 1\n"), Once(drivers), processes],
    );
    let text = text.expect(rt, "memory");
    read_programs(rt.alloc(), text.as_bytes()).expect(rt, "programs")
}

// Checks that a run over these drivers by this number of workers is refused, and that its gate is not called.
fn are_not_run<R: AllocGlobal + Abort + Threads + Wait + Sync>(
    rt: &R,
    drivers: &str,
    workers: usize,
    want: ConfigFault,
)
    requires { (1 ≤ workers) × (workers ≤ MAX_WORKERS) }
{
    let log = Log::of(rt, 1);
    let refused = run_programs(rt, rt.alloc(), programs_over(rt, drivers), workers, &log).err();
    assert!(rt; refused == Some(RunFault::ConfigFault(want)), "{drivers}");
    assert!(rt; log.has(&[]), "{drivers}");
    forget(log);
}

// One entry, which is illegal over any drivers.
const ILLEGAL: &[u8] = b"transcript 1\n0 close 0 = id 7\nconfig\nnext 1 1\nend\n";

// Checks that no configuration and no system is made over these drivers, and that no history is judged.
fn are_refused(rt: &(impl AllocGlobal + Abort), drivers: &[DriverSpec], want: ConfigFault) {
    let count = drivers.len();
    assert!(rt;
        Config::new(rt.alloc(), drivers).err() == Some(want),
        "{count}"
    );
    assert!(rt;
        System::new(rt.alloc(), drivers, 3).err() == Some(want),
        "{count}"
    );
    let text = read(rt, ILLEGAL);
    let judged = check_history(rt.alloc(), drivers, text.entries.as_slice(), &text.view).err();
    assert!(rt; judged == Some(want), "{count}");
    forget(text);
}

// Driver lines, and why these drivers are refused.
const REFUSED: [(&str, ConfigFault); 7] = [
    (
        "driver ip mux 0 8 3 16\n",
        ConfigFault::BadSpec(0, SpecFault::BadMinors),
    ),
    (
        "driver ip mux 65 8 8 0\n",
        ConfigFault::BadSpec(0, SpecFault::BadMinors),
    ),
    (
        "driver ip mux 4 8 8 16\n",
        ConfigFault::BadSpec(0, SpecFault::BadMarks),
    ),
    (
        "driver ip mux 4 4097 3 16\n",
        ConfigFault::BadSpec(0, SpecFault::BadMarks),
    ),
    (
        "driver ip mux 4 8 3 0\n",
        ConfigFault::BadSpec(0, SpecFault::BadMax),
    ),
    (
        "driver ip mux 4 8 3 1025\n",
        ConfigFault::BadSpec(0, SpecFault::BadMax),
    ),
    (
        "driver ip mux 4 8 3 16\ndriver ip leaf 1 1 0 1\n",
        ConfigFault::SameName(1),
    ),
];

#[test]
fn by_each_call(rt: HostRuntime) {
    for (drivers, want) in &REFUSED {
        let programs = programs_over(&rt, *drivers);
        are_refused(&rt, programs.drivers(), *want);
        forget(programs);
        are_not_run(&rt, *drivers, 1, *want);
        are_not_run(&rt, *drivers, 2, *want);
    }
    // A driver at every limit is accepted.
    let programs = programs_over(&rt, "driver ip mux 64 4096 4095 1024\n");
    assert!(rt; Config::new(rt.alloc(), programs.drivers()).is_ok());
    assert!(rt; run_programs(&rt, rt.alloc(), programs, 2, &NoGate).is_ok());
}

// 128 drivers with different names.
const MOST: [Part; 3] = [
    Once("programs 2\n"),
    Each(0, 128, "driver a{n} leaf 1 1 0 1\n"),
    Once("end\n"),
];

#[test]
fn one_driver_too_many(rt: HostRuntime) {
    let text = text_of(rt.alloc(), &MOST).expect(&rt, "memory");
    let programs = read_programs(rt.alloc(), text.as_bytes()).expect(&rt, "programs");
    assert!(rt; Config::new(rt.alloc(), programs.drivers()).is_ok());
    let (mut drivers, lists) = programs.into_parts();
    assert!(rt; drivers.push(ip(&rt, 4)).is_ok());
    are_refused(&rt, drivers.as_slice(), ConfigFault::TooMany);
    forget((drivers, lists));
    // The count is tested before the names.
    are_refused(&rt, &[ip(&rt, 4); 129], ConfigFault::TooMany);
}
