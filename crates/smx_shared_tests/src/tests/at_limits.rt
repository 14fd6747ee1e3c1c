//! Configurations at their real limits: a chain of links over the largest number of drivers, and the link that would
//! make the chain a cycle; the largest numbers of links, descriptors and messages in a queue; and the longest message.

use super::worked::is_worked;
use smx_samples::Part;
use smx_samples::Part::{Each, Once};

// Links each driver above the next one by a persistent link. Each driver's first stream is below the driver before, so
// its second stream is above the next driver. The first driver has no driver before it, so its first stream is above
// the second driver. After the link in the middle, with id 64, is removed, the last driver may be linked above the
// first.
const CHAIN: &[Part] = &[
    Once("transcript 2\n"),
    Each(0, 128, "driver d{n} mux 2 8 3 16\n"),
    Once("0 clone d0 = fd 0 0\n0 clone d1 = fd 1 0\n0 plink 0 1 = id 1\n0 exit = done\n"),
    Each(
        2,
        128,
        "0 clone d{n - 1} = fd 0 1\n0 clone d{n} = fd 1 0\n0 plink 0 1 = id {n}\n0 exit = done\n",
    ),
    Once(
        "0 clone d127 = fd 0 1
0 clone d0 = fd 1 0
0 plink 0 1 = EINVAL cycle
0 open d1 0 = EINVAL below
0 clone d63 = fd 2 1
0 punlink 2 all = done
0 plink 0 1 = id 128
config
next 129 1
fd 0 0 d127 1
fd 0 1 d0 0
fd 0 2 d63 1
link 1 d0 0 d1 0 plink
",
    ),
    Each(2, 64, "link {n} d{n - 1} 1 d{n} 0 plink\n"),
    Each(65, 128, "link {n} d{n - 1} 1 d{n} 0 plink\n"),
    Once("link 128 d127 1 d0 0 plink\nend\n"),
];

// A multiplexer with one stream gets a persistent link to each stream of 16 leaves. Then it gets no further link.
const MOST_LINKS: &[Part] = &[
    Once("transcript 1\ndriver m mux 1 8 3 16\n"),
    Each(0, 17, "driver l{n} leaf 64 8 3 16\n"),
    Once("0 clone m = fd 0 0\n"),
    Each(
        0,
        1_024,
        "0 clone l{n / 64} = fd 1 {n % 64}\n0 plink 0 1 = id {n + 1}\n0 close 1 = done\n",
    ),
    Once("0 clone l16 = fd 1 0\n0 plink 0 1 = EAGAIN links\n0 link 0 0 = EINVAL cycle\n"),
    Once("config\nnext 1025 1\nfd 0 0 m 0\nfd 0 1 l16 0\n"),
    Each(0, 1_024, "link {n + 1} m 0 l{n / 64} {n % 64} plink\n"),
    Once("end\n"),
];

// Each process opens minor 0 until it has all of its 16 descriptors.
const MOST_DESCRIPTORS: &[Part] = &[
    Once("transcript 1\ndriver ip mux 64 8 3 16\n"),
    Each(0, 1_024, "{n / 16} open ip 0 = fd {n % 16} 0\n"),
    Each(0, 64, "{n} clone ip = EMFILE\n"),
    Once("config\nnext 1 1\n"),
    Each(0, 1_024, "fd {n / 16} {n % 16} ip 0\n"),
    Once("end\n"),
];

// A queue that takes 4,096 bytes gets 4,096 messages of one byte.
const MOST_MESSAGES: &[Part] = &[
    Once("transcript 1\ndriver eth leaf 1 4096 0 16\n0 clone eth = fd 0 0\n"),
    Each(1, 4_097, "0 write 0 5 bb = took {n}\n"),
    Once("config\nnext 1 4097\nfd 0 0 eth 0\n"),
    Each(1, 4_097, "msg eth 0 w {n} 5 bb\n"),
    Once("full eth 0 w\nend\n"),
];

// A queue with 4,096 messages refuses one more, and a flush drops them all.
const MOST_DROPPED: &[Part] = &[
    Once("transcript 1\ndriver eth leaf 1 4096 0 16\n0 clone eth = fd 0 0\n"),
    Each(1, 4_097, "0 write 0 5 bb = took {n}\n"),
    Once("0 write 0 5 bb = EAGAIN full\n0 flush 0 w = done"),
    Each(1, 4_097, " {n}"),
    Once("\nconfig\nnext 1 4097\nfd 0 0 eth 0\nend\n"),
];

// A message of 1,024 bytes goes down, and one comes up.
const LONGEST_MESSAGE: &[Part] = &[
    Once("transcript 1\ndriver eth0 leaf 64 4096 0 1024\n0 clone eth0 = fd 0 0\n0 write 0 5 "),
    Each(0, 1_024, "fe"),
    Once(" = took 1\n0 inject eth0 0 9 "),
    Each(0, 1_024, "fe"),
    Once(" = took 2\n0 read 0 = got 2 9 "),
    Each(0, 1_024, "fe"),
    Once("\n0 transmit eth0 0 = got 1 5 "),
    Each(0, 1_024, "fe"),
    Once("\nconfig\nnext 1 3\nfd 0 0 eth0 0\nend\n"),
];

// Ten thousand times, a message goes down through a link, and the device takes it.
const ROUNDS: &[Part] = &[
    Once("transcript 1\n"),
    Once("driver ip mux 4 8 3 16\ndriver eth leaf 2 8 3 16\n"),
    Once("0 clone ip = fd 0 0\n0 clone eth = fd 1 0\n0 link 0 1 = id 1\n0 route 0 5 1 = done\n"),
    Each(
        1,
        10_001,
        "0 write 0 5 aa = took {n}\n0 transmit eth 0 = got {n} 5 aa\n",
    ),
    Once("config\nnext 2 10001\nfd 0 0 ip 0\nfd 0 1 eth 0\n"),
    Once("link 1 ip 0 eth 0 link\nroute ip 5 1\nend\n"),
];

#[test]
fn of_drivers_links_and_descriptors(rt: HostRuntime) {
    is_worked(&rt, CHAIN);
    is_worked(&rt, MOST_LINKS);
    is_worked(&rt, MOST_DESCRIPTORS);
}

#[test]
fn of_messages(rt: HostRuntime) {
    is_worked(&rt, MOST_MESSAGES);
    is_worked(&rt, MOST_DROPPED);
    is_worked(&rt, LONGEST_MESSAGE);
    is_worked(&rt, ROUNDS);
}
