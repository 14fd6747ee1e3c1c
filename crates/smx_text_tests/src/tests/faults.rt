//! Texts that are not programs, and texts that are not a transcript.

use super::program_texts::ALMOST_A_RING_OF_VERSION_1;
use super::spelling::{are_none, is_none};
use super::transcript_texts::HUNGS;
use smx_samples::Part;
use smx_samples::Part::{Each, Once};
use smx_text::Cause;

// Lines that are not commands.
const NO_COMMANDS: [&str; 20] = [
    "dup 00",
    "write 0 5 AA",
    "write 0 5 aab",
    "write 0 5 ag",
    "write 0 5 -aa",
    "write 0 5",
    "write 0 5 ",
    "inject ip 0 9 aA",
    "unlink 0 ALL",
    "punlink 0 01",
    "flush 0 wr",
    "link 0 all",
    "transmit 0 0",
    "exit 0",
    "end 0",
    "close  0",
    "close +0",
    "open ip 4294967296",
    "process 2",
    "driver b leaf 1 1 0 1",
];

// Lines that are not entries.
const NO_ENTRIES: [&str; 22] = [
    "64 exit = done",
    "0 exit",
    "0 exit = ",
    "0 exit =",
    "0 exit= done",
    "0 exit =done",
    "0 exit  = done",
    "0 exit = done ",
    "0 exit = done 01",
    "0 exit = done = done",
    "0 = done",
    "0 inject eth 0 0 AA = done",
    "0 inject eth 0 0 aab = done",
    "0 read 0 = got 1 2 A0",
    "0 read 0 = got 1 2",
    "0 read 0 = EINVAL",
    "0 read 0 = EMFILE fd",
    "next 1 1",
    "fd 0 0 ip 0",
    "end",
    "process 0",
    "clone ip",
];

// Texts that are not programs, with the number of the malformed line and the cause.
const NO_PROGRAMS: [(&[Part], usize, Cause); 8] = [
    (&[Once("")], 1, Cause::Cut),
    (&[Once("programs 3\n")], 1, Cause::Header),
    (&[Once("programs 2\n")], 2, Cause::Cut),
    (
        &[Once("programs 1\ndriver ip mux 4 8 3 16\nprocess 0\nclone ip\n")],
        5,
        Cause::Cut,
    ),
    (
        &[Once("programs 1\ndriver ip mux 4 8 3 16\nprocess 0\nclone ip\nend\n ")],
        6,
        Cause::Trailing,
    ),
    (
        &[
            Once("programs 1\ndriver ip mux 4 8 3 16\n"),
            Each(0, 65, "process {n}\n"),
            Once("end\n"),
        ],
        67,
        Cause::Many,
    ),
    (
        &[Once("programs 1\nprocess 0\nhangup eth 31\nend\n")],
        3,
        Cause::Form,
    ),
    (ALMOST_A_RING_OF_VERSION_1, 66, Cause::Many),
];

// Texts that are not transcripts, with the number of the malformed line and the cause.
const NO_TRANSCRIPTS: [(&[Part], usize, Cause); 20] = [
    (&[Once("")], 1, Cause::Cut),
    (&[Once("programs 1\n")], 1, Cause::Header),
    (&[Once("transcript 3\n")], 1, Cause::Header),
    (&[Once("transcript 2\n")], 2, Cause::Cut),
    (
        &[Once("transcript 1\ndriver ip mux 4 8 3 16\n0 clone ip = fd 0 0\n1 clone")],
        4,
        Cause::Cut,
    ),
    (&[Once("transcript 1\nconfig\nnext 1 1\n")], 4, Cause::Cut),
    (&[Once("transcript 1\nconfig\nend\n")], 3, Cause::Form),
    (
        &[Once("transcript 1\nconfig\nnext 1 1\nnext 1 1\nend\n")],
        4,
        Cause::Form,
    ),
    (
        &[Once("transcript 1\nconfig\nnext 1 1\nroute ip 5 1\nbind ip 9 0\nend\n")],
        5,
        Cause::Form,
    ),
    (
        &[Once("transcript 1\nconfig\nnext 1 1\nend\n ")],
        5,
        Cause::Trailing,
    ),
    (
        &[Once("transcript 1\n0 hangup eth 0 = done\nconfig\nnext 1 1\nend\n")],
        2,
        Cause::Form,
    ),
    (
        &[Once("transcript 1\n0 read 0 = eof\nconfig\nnext 1 1\nend\n")],
        2,
        Cause::Form,
    ),
    (
        &[Once("transcript 1\n0 transmit eth 0 = ENXIO hangup\nconfig\nnext 1 1\nend\n")],
        2,
        Cause::Form,
    ),
    (&[Once("transcript 1\n"), Once(HUNGS)], 4, Cause::Form),
    (
        &[Once("transcript 2\nconfig\nnext 1 1\nhung eth\nend\n")],
        4,
        Cause::Form,
    ),
    (
        &[Once("transcript 2\nconfig\nnext 1 1\nhung eth 00\nend\n")],
        4,
        Cause::Form,
    ),
    (
        &[Once("transcript 2\nconfig\nnext 1 1\nhung eth 0 r\nend\n")],
        4,
        Cause::Form,
    ),
    (
        &[Once("transcript 2\nconfig\nnext 1 1\nhung 0 eth\nend\n")],
        4,
        Cause::Form,
    ),
    (
        &[Once("transcript 2\ndriver eth leaf 2 8 3 16\nconfig\nhung eth 0\nend\n")],
        4,
        Cause::Form,
    ),
    // Hung-up streams come last.
    (
        &[Once("transcript 2\nconfig\nnext 1 1\nhung eth 0\nfull eth 0 r\nend\n")],
        5,
        Cause::Form,
    ),
];

#[test]
fn of_programs(rt: HostRuntime) {
    for line in &NO_COMMANDS {
        let begin = Once("programs 1\ndriver ip mux 4 8 3 16\nprocess 0\n");
        let text = [begin, Once(*line), Once("\nend\n")];
        are_none(&rt, &text, 4, Cause::Form);
    }
    for (text, line, cause) in &NO_PROGRAMS {
        are_none(&rt, *text, *line, *cause);
    }
}

#[test]
fn of_transcripts(rt: HostRuntime) {
    for line in &NO_ENTRIES {
        let end = Once("\nconfig\nnext 1 1\nend\n");
        is_none(
            &rt,
            &[Once("transcript 1\n"), Once(*line), end],
            2,
            Cause::Form,
        );
    }
    for (text, line, cause) in &NO_TRANSCRIPTS {
        is_none(&rt, *text, *line, *cause);
    }
}
