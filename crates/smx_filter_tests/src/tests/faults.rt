//! The words that a fault prints and its status; and the explanation of a line for which memory ran out.

use smx_config::ConfigFault;
use smx_explain::{DriverExplanation, FaultExplanation, TextKind};
use smx_filters::MainFault;
use smx_run::RunFault;
use smx_text::{Cause, TextFault};
use smx_types::SpecFault;
use std::fmt::InlineText;
use std::process::Abort;

fn says(rt: &impl Abort, fault: MainFault, words: &str, wanted: u8) {
    let status = fault.status();
    assert!(rt; InlineText::<128>::of(fault).as_str() == words, "{words}");
    assert!(rt; status == wanted, "for {words}");
}

fn is_refused(rt: &impl Abort, fault: ConfigFault, words: &str) {
    says(
        rt,
        MainFault::Refused(RunFault::ConfigFault(fault)),
        words,
        1,
    );
}

const REFUSED: [(ConfigFault, &str); 6] = [
    (
        ConfigFault::BadSpec(0, SpecFault::BadMinors),
        "refused: driver 0 minors",
    ),
    (
        ConfigFault::BadSpec(0, SpecFault::BadMarks),
        "refused: driver 0 marks",
    ),
    (
        ConfigFault::BadSpec(63, SpecFault::BadMax),
        "refused: driver 63 max",
    ),
    (ConfigFault::SameName(1), "refused: driver 1 same name"),
    (ConfigFault::TooMany, "refused: too many drivers"),
    (ConfigFault::NoMemory, "refused: no memory"),
];

const CAUSES: [(Cause, &str, u8); 6] = [
    (Cause::Header, "line 7: header", 3),
    (Cause::Form, "line 7: form", 3),
    (Cause::Many, "line 7: many", 3),
    (Cause::Cut, "line 7: cut", 3),
    (Cause::Trailing, "line 7: trailing", 3),
    (Cause::NoMemory, "refused: no memory", 1),
];

#[test]
fn each_fault_has_its_words_and_its_status(rt: HostRuntime) {
    says(
        &rt,
        MainFault::Refused(RunFault::LongPage(1_001)),
        "refused: a page has room for fewer than 1001 entries, see replay --at",
        1,
    );
    for (fault, words) in &REFUSED {
        is_refused(&rt, *fault, *words);
    }
    for (cause, words, status) in &CAUSES {
        let fault = TextFault {
            line: 7,
            cause: *cause,
        };
        says(&rt, MainFault::Text(fault), *words, *status);
    }
    for fault in [RunFault::NoMemory, RunFault::NoThread] {
        says(&rt, MainFault::Refused(fault), "refused: no memory", 1);
    }
    says(&rt, MainFault::TooLong, "input too long", 3);
    says(&rt, MainFault::ReadFailed, "read failed", 5);
    says(&rt, MainFault::WriteFailed, "write failed", 5);
}

#[test]
fn memory_ran_out_at_a_line(rt: HostRuntime) {
    let explanation = FaultExplanation {
        kind: TextKind::Programs,
        text: b"programs 1\nprocess 0\nclone ip\nend\n",
        fault: TextFault {
            line: 3,
            cause: Cause::NoMemory,
        },
    };
    let printed = format!(in rt.alloc(); "{explanation}").expect(&rt, "there is memory");
    assert!(rt; printed.as_str() == "line 3: clone ip\nout of memory\n");
}

// Checks what is printed about the drivers of a text.
fn explains_drivers(rt: &(impl AllocGlobal + Abort), fault: ConfigFault, words: &str) {
    let explanation = DriverExplanation {
        text: b"programs 1\ndriver ip mux 4 8 3 16\ndriver eth leaf 1 8 3 16\ndriver ip leaf 1 8 9 16\nend\n",
        fault,
    };
    let printed = format!(in rt.alloc(); "{explanation}").expect(rt, "there is memory");
    assert!(rt; printed.as_str() == words, "{words}");
}

#[test]
fn refused_drivers_are_shown(rt: HostRuntime) {
    explains_drivers(
        &rt,
        ConfigFault::SameName(2),
        "line 4: driver ip leaf 1 8 9 16\nline 2 has the name 'ip' too\n",
    );
    explains_drivers(
        &rt,
        ConfigFault::BadSpec(2, SpecFault::BadMarks),
        "line 4: driver ip leaf 1 8 9 16\nthe high water mark is at most 4096, and the low one is below it\n",
    );
    explains_drivers(&rt, ConfigFault::TooMany, "");
    explains_drivers(&rt, ConfigFault::NoMemory, "");
}
