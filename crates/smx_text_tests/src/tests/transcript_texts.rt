//! Transcripts that are read, written again and copied.

use super::spelling::spells_transcript;
use smx_samples::Part;
use smx_samples::Part::{Each, Once};
use smx_types::Version;

// Each reply and each fault of version 1.
const REPLIES: &str = "transcript 1
63 open a 10 = fd 15 10
0 plink 0 1 = id 12
1 write 0 5 01 = took 11
0 read 0 = got 9 0 00af
0 read 0 = got 10 4294967295 -
0 close 0 = done
2 close 0 = done 7
10 exit = done 7 100
0 exit = EBADF fd
0 exit = EINVAL below
0 exit = EINVAL notmux
0 exit = EINVAL already
0 exit = EINVAL cycle
0 exit = EAGAIN links
0 exit = EINVAL id
0 exit = ENXIO driver
0 exit = ENXIO minor
0 exit = EMFILE
0 exit = EADDRINUSE
0 exit = EINVAL unbound
0 exit = EINVAL unrouted
0 exit = EAGAIN full
0 exit = EAGAIN empty
0 exit = ERANGE
0 exit = done
0 exit = done 1 2 3
63 exit = fd 1 2
0 clone a = took 4294967295
0 read 0 = got 1 2 -
0 dup 0 = id 0
0 dup 0 = EMFILE
0 dup 0 = EINVAL unrouted
config
next 1 1
end
";

// Each group of a view that version 1 has.
const GROUPS: &str = "transcript 1
config
next 3 6
fd 0 0 ip 0
link 0 ip 0 eth 0 link
link 1 ip 0 eth 1 plink
bind eth 9 1
route eth 5 2
msg eth 0 w 3 5 00000003
msg eth 0 r 4 5 bc
full eth 0 w
end
";

/// A view with hung-up streams only.
pub const HUNGS: &str = "config\nnext 1 1\nhung eth 0\nhung eth 4294967295\nend\n";

// A view with each group: a link with its route, queues with messages, a full queue, a bound address, and a hung-up
// stream.
const EACH_GROUP: &str = "transcript 2
0 transmit eth 0 = got 1 5 00000001
0 write 0 5 00000001 = took 2
0 read 0 = eof
config
next 2 6
fd 0 0 ip 0
fd 0 1 eth 0
link 1 ip 0 eth 0 link
bind ip 9 0
route ip 5 1
msg ip 0 w 5 5 00000005
msg eth 0 w 3 5 00000003
msg eth 0 w 4 5 00000004
full eth 0 w
hung eth 0
end
";

// Texts of both versions, each with the earliest version that can express its transcript.
const ROWS: [(&[Part], Version); 12] = [
    (&[Once(REPLIES)], Version::V1),
    (&[Once(GROUPS)], Version::V1),
    (&[Once(EACH_GROUP)], Version::V2),
    (
        &[Once("transcript 2\n0 exit = done\nconfig\nnext 1 1\nend\n")],
        Version::V1,
    ),
    (
        &[Once("transcript 2\n0 read 0 = EAGAIN empty\nconfig\nnext 1 1\nend\n")],
        Version::V1,
    ),
    (
        &[Once("transcript 2\n0 hangup eth 0 = done\nconfig\nnext 1 1\nend\n")],
        Version::V2,
    ),
    (
        &[Once("transcript 2\n0 hangup ip 0 = ENXIO driver\nconfig\nnext 1 1\nend\n")],
        Version::V2,
    ),
    (
        &[Once("transcript 2\n0 read 0 = eof\nconfig\nnext 1 1\nend\n")],
        Version::V2,
    ),
    (
        &[Once("transcript 2\n0 read 0 = ENXIO hangup\nconfig\nnext 1 1\nend\n")],
        Version::V2,
    ),
    (
        &[Once("transcript 2\n0 transmit eth 0 = ENXIO hangup\nconfig\nnext 1 1\nend\n")],
        Version::V2,
    ),
    (&[Once("transcript 2\n"), Once(HUNGS)], Version::V2),
    (
        &[
            Once("transcript 2\n"),
            Each(0, 65, "driver a{n} leaf 1 1 0 1\n"),
            Once("config\nnext 1 1\nend\n"),
        ],
        Version::V2,
    ),
];

#[test]
fn transcripts_are_read_written_and_copied(rt: HostRuntime) {
    for (text, least) in &ROWS {
        spells_transcript(&rt, *text, *least);
    }
}
