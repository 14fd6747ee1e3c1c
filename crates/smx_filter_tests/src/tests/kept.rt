//! The text that a filter keeps if the text or its drivers have a fault.

use smx_filters::{Product, Refusal, Source, Target, check_explained, make_text, run_explained};
use smx_run::NoGate;
use std::fmt::InlineText;
use std::process::Abort;

const PROGRAMS: &[u8] = b"programs 1\ndriver ip mux 4 8 3 16\nend\n";

const TRANSCRIPT: &[u8] = b"transcript 1\nconfig\nnext 1 1\nend\n";

// Programs and a transcript whose second driver has the name of the first.
const NAMESAKES: &[u8] =
    b"programs 1\ndriver ip mux 4 8 3 16\ndriver ip mux 4 8 3 16\nprocess 0\nend\n";

const OTHER_NAMESAKES: &[u8] =
    b"transcript 2\ndriver ip mux 4 8 3 16\ndriver ip mux 4 8 3 16\nconfig\nnext 1 1\nend\n";

// Checks the fault of an outcome, and that this input was kept.
fn keeps<T: Drop>(rt: &impl Abort, outcome: Result<T, Refusal>, words: &str, input: &[u8]) {
    match outcome {
        Ok(_) => panic!(rt; "{words}"),
        Err(Refusal { fault, text }) => {
            assert!(rt; InlineText::<64>::of(fault).as_str() == words, "{words}");
            match text {
                Some(text) => assert!(rt; text.as_slice() == input, "{words}"),
                None => panic!(rt; "no text for {words}"),
            }
        }
    }
}

// Checks that a check, a replay, a trace and a page of steps refuse this input, give `words` as the reason, write
// nothing, and keep the input.
fn each_keeps(rt: &(impl AllocGlobal + Abort), input: &[u8], words: &str) {
    let alloc = rt.alloc();
    let mut buffer = [0u8; 64];
    let mut sink = Target::new(buffer.as_mut_slice());
    let checked = check_explained(alloc, &mut Source::new(input), &mut sink);
    keeps(rt, checked, words, input);
    let products = [
        Product::Replay { at: Some(0) },
        Product::Trace { waits: false },
        Product::Page,
    ];
    for product in products {
        let mut sink = Target::new(buffer.as_mut_slice());
        let made = make_text(alloc, &mut Source::new(input), &mut sink, product);
        keeps(rt, made, words, input);
    }
    assert_eq!(rt; buffer, [0u8; 64]);
}

#[test]
fn a_refused_text_is_kept(rt: HostRuntime) {
    let alloc = rt.alloc();
    each_keeps(&rt, PROGRAMS, "line 1: header");
    each_keeps(&rt, OTHER_NAMESAKES, "refused: driver 1 same name");
    let mut buffer = [0u8; 64];
    let mut sink = Target::new(buffer.as_mut_slice());
    let drawn = make_text(alloc, &mut Source::new(PROGRAMS), &mut sink, Product::Svg);
    keeps(&rt, drawn, "line 1: header", PROGRAMS);
    let mut feed = Source::new(TRANSCRIPT);
    let mut sink = Target::new(buffer.as_mut_slice());
    let ran = run_explained(&rt, alloc, &mut feed, &mut sink, 1, false, &NoGate);
    keeps(&rt, ran, "line 1: header", TRANSCRIPT);
    let mut feed = Source::new(NAMESAKES);
    let mut sink = Target::new(buffer.as_mut_slice());
    let ran = run_explained(&rt, alloc, &mut feed, &mut sink, 1, true, &NoGate);
    keeps(&rt, ran, "refused: driver 1 same name", NAMESAKES);
    assert_eq!(rt; buffer, [0u8; 64]);
}
