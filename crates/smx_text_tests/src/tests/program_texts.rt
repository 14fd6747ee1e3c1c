//! Programs that are read, written again and copied.

use super::spelling::{are_spelled, programs, spells_programs};
use smx_samples::Part;
use smx_samples::Part::{Each, Once};
use smx_types::Version;
use std::mem::forget;

/// Streams that are opened and closed.
pub const OPENS_AND_CLOSES: &str =
    "programs 1\ndriver ip mux 4 8 3 16\nprocess 0\nclone ip\nclone ip\nclose 0\nclone ip\nend\n";

// Each command of version 1.
const COMMANDS: &str = "programs 1
process 0
clone eth
open eth 1
dup 2
close 3
exit
link 4 5
plink 6 7
unlink 8 9
unlink 10 all
punlink 11 4294967295
punlink 12 all
bind 13 14
unbind 15
route 16 17 18
unroute 19 20
write 21 22 000a9fff
write 23 24 -
read 25
flush 26 r
flush 27 w
flush 28 rw
inject eth 29 30 ab
transmit eth 31
end
";

// Links 128 multiplexers in a chain, each above the next. Then tries to link the last one above the first, removes a
// link in the middle, and tries again.
const ALMOST_A_RING: &[Part] = &[
    Once("programs 2\n"),
    Each(0, 128, "driver d{n} mux 2 8 3 16\n"),
    Once("process 0\n"),
    Each(0, 127, "clone d{n}\nclone d{n + 1}\nplink 0 1\nexit\n"),
    Once("clone d127\nclone d0\nplink 0 1\nopen d1 0\nclone d63\npunlink 2 all\nplink 0 1\nend\n"),
];

/// The same text with the header of version 1, which allows only 64 drivers.
pub const ALMOST_A_RING_OF_VERSION_1: &[Part] = &[
    Once("programs 1\n"),
    Each(0, 128, "driver d{n} mux 2 8 3 16\n"),
    Once("process 0\n"),
    Each(0, 127, "clone d{n}\nclone d{n + 1}\nplink 0 1\nexit\n"),
    Once("clone d127\nclone d0\nplink 0 1\nopen d1 0\nclone d63\npunlink 2 all\nplink 0 1\nend\n"),
];

// Texts of both versions, each with the earliest version that can express its programs.
const ROWS: [(&[Part], Version); 7] = [
    (ALMOST_A_RING, Version::V2),
    (&[Once(OPENS_AND_CLOSES)], Version::V1),
    (&[Once(COMMANDS)], Version::V1),
    (
        &[Once("programs 2\nprocess 0\nhangup eth 31\nend\n")],
        Version::V2,
    ),
    (
        &[Once("programs 2\nprocess 0\nclone abcdefg8\nend\n")],
        Version::V1,
    ),
    (
        &[
            Once("programs 2\n"),
            Each(0, 64, "driver a{n} leaf 1 1 0 1\n"),
            Once("end\n"),
        ],
        Version::V1,
    ),
    (
        &[
            Once("programs 2\n"),
            Each(0, 65, "driver a{n} leaf 1 1 0 1\n"),
            Once("end\n"),
        ],
        Version::V2,
    ),
];

#[test]
fn programs_are_read_written_and_copied(rt: HostRuntime) {
    for (text, least) in &ROWS {
        spells_programs(&rt, *text, *least);
    }
}

#[test]
fn raised_programs_have_another_header(rt: HostRuntime) {
    let value = programs(&rt, &[Once(OPENS_AND_CLOSES)]);
    assert!(rt; value.version() == Version::V1);
    let raised = value.raised();
    assert!(rt; raised.version() == Version::V2);
    let text = [Once("programs 2\n"), Once(&OPENS_AND_CLOSES[11..])];
    are_spelled(&rt, &raised, &text, Version::V1);
    forget(raised);
}
