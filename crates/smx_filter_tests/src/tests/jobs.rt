//! The job that the words of a command line ask for.

use smx_command_line::{Job, job};
use smx_filters::Product;
use std::mem::forget;
use std::process::Abort;

// Words that ask for a run, with the number of workers, whether it writes fronts, and whether it explains a fault.
const RUNS: [(&[&str], usize, bool, bool); 5] = [
    (&["muxsim", "run"], 1, false, false),
    (&["muxsim", "run", "--workers", "1"], 1, false, false),
    (&["muxsim", "run", "--workers", "64"], 64, false, false),
    (&["muxsim", "run", "--fronts"], 1, true, false),
    (
        &["muxsim", "run", "--explain", "--workers=3", "--fronts"],
        3,
        true,
        true,
    ),
];

// Words that ask for another job.
const OTHERS: [(&[&str], Job); 16] = [
    (&["muxsim", "check"], Job::Check { explain: false }),
    (
        &["muxsim", "check", "--explain"],
        Job::Check { explain: true },
    ),
    (
        &["muxsim", "replay"],
        Job::Make {
            product: Product::Replay { at: None },
            explain: false,
        },
    ),
    (
        &["muxsim", "replay", "--at", "0"],
        Job::Make {
            product: Product::Replay { at: Some(0) },
            explain: false,
        },
    ),
    (
        &["muxsim", "replay", "--explain", "--at=100000"],
        Job::Make {
            product: Product::Replay { at: Some(100_000) },
            explain: true,
        },
    ),
    (
        &["muxsim", "trace"],
        Job::Make {
            product: Product::Trace { waits: false },
            explain: false,
        },
    ),
    (
        &["muxsim", "trace", "--waits"],
        Job::Make {
            product: Product::Trace { waits: true },
            explain: false,
        },
    ),
    (
        &["muxsim", "trace", "--explain"],
        Job::Make {
            product: Product::Trace { waits: false },
            explain: true,
        },
    ),
    (
        &["muxsim", "draw"],
        Job::Make {
            product: Product::Svg,
            explain: false,
        },
    ),
    (
        &["muxsim", "draw", "--dot"],
        Job::Make {
            product: Product::Dot,
            explain: false,
        },
    ),
    (
        &["muxsim", "draw", "--explain"],
        Job::Make {
            product: Product::Svg,
            explain: true,
        },
    ),
    (
        &["muxsim", "draw", "--explain", "--dot"],
        Job::Make {
            product: Product::Dot,
            explain: true,
        },
    ),
    (
        &["muxsim", "draw", "--steps"],
        Job::Make {
            product: Product::Page,
            explain: false,
        },
    ),
    (
        &["muxsim", "draw", "--explain", "--steps"],
        Job::Make {
            product: Product::Page,
            explain: true,
        },
    ),
    (&["muxsim", "live"], Job::Live { explain: false }),
    (
        &["muxsim", "live", "--explain"],
        Job::Live { explain: true },
    ),
];

// Words that ask for no job.
const WRONG: [&[&str]; 11] = [
    &["muxsim"],
    &["muxsim", "run", "--workers", "0"],
    &["muxsim", "run", "--workers", "65"],
    &["muxsim", "run", "--workers"],
    &["muxsim", "run", "--workers", "-1"],
    &["muxsim", "check", "--fronts"],
    &["muxsim", "replay", "--at"],
    &["muxsim", "replay", "--at", "-1"],
    &["muxsim", "trace", "--at", "1"],
    &["muxsim", "draw", "--steps", "--dot"],
    &["muxsim", "walk"],
];

// Checks that the words ask for this job.
fn asks_for(rt: &(impl AllocGlobal + Abort), words: &[&str], wanted: Job) {
    match job(rt.alloc(), words) {
        Ok(asked) => assert!(rt; asked == wanted),
        Err(_) => panic!(rt; "the words ask for a job"),
    }
}

#[test]
fn words_ask_for_a_job(rt: HostRuntime) {
    for (words, workers, fronts, explain) in RUNS {
        let wanted = Job::Run {
            workers,
            fronts,
            explain,
        };
        asks_for(&rt, words, wanted);
    }
    for (words, wanted) in OTHERS {
        asks_for(&rt, words, wanted);
    }
}

#[test]
fn wrong_words_ask_for_none(rt: HostRuntime) {
    for words in WRONG {
        let asked = job(rt.alloc(), words);
        assert!(rt; asked.is_err());
        forget(asked);
    }
}
