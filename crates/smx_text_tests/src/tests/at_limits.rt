//! Each reader, each writer and each copy at its real limit.

use super::spelling::{spells_programs, spells_transcript};
use smx_samples::Part;
use smx_samples::Part::{Each, Once};
use smx_types::Version;

const DRIVERS: Part = Each(0, 128, "driver a{n} leaf 1 1 0 1\n");

// The first text has 128 drivers, 64 programs, and 100,000 commands in all programs together. The second has the
// longest message.
const PROGRAMS: [(&[Part], Version); 2] = [
    (
        &[
            Once("programs 2\n"),
            DRIVERS,
            Once("process 0\n"),
            Each(0, 99_937, "close 0\n"),
            Each(1, 64, "process {n}\nclose 0\n"),
            Once("end\n"),
        ],
        Version::V2,
    ),
    (
        &[
            Once("programs 1\ndriver a0 leaf 1 1 0 1\nprocess 0\ninject a0 0 5 "),
            Each(0, 1_024, "af"),
            Once("\nend\n"),
        ],
        Version::V1,
    ),
];

// The first text has 128 drivers, 100,000 entries, 1,024 links and 4,096 messages. The second has the maximum number of
// dropped serials, and the third has the longest messages.
const TRANSCRIPTS: [(&[Part], Version); 3] = [
    (
        &[
            Once("transcript 2\n"),
            DRIVERS,
            Each(0, 100_000, "0 close 0 = id 7\n"),
            Once("config\nnext 1025 4097\n"),
            Each(1, 1_025, "link {n} m 0 l {n} plink\n"),
            Each(1, 4_097, "msg eth 0 w {n} 5 aa\n"),
            Once("end\n"),
        ],
        Version::V2,
    ),
    (
        &[
            Once("transcript 1\n0 close 0 = done"),
            Each(1, 100_001, " {n}"),
            Once("\nconfig\nnext 1 1\nend\n"),
        ],
        Version::V1,
    ),
    (
        &[
            Once("transcript 1\n0 inject eth 0 5 "),
            Each(0, 1_024, "ff"),
            Once(" = took 1\n0 read 0 = got 1 5 "),
            Each(0, 1_024, "01"),
            Once("\nconfig\nnext 1 2\nmsg eth 0 w 1 5 "),
            Each(0, 1_024, "00"),
            Once("\nend\n"),
        ],
        Version::V1,
    ),
];

#[test]
fn the_longest_texts(rt: HostRuntime) {
    for (text, least) in &PROGRAMS {
        spells_programs(&rt, *text, *least);
    }
    for (text, least) in &TRANSCRIPTS {
        spells_transcript(&rt, *text, *least);
    }
}
