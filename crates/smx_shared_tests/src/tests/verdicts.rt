//! Verdicts on short transcripts, and on the largest number of entries.

use super::worked::is_judged;
use smx_config::Verdict;
use smx_samples::Part::{Each, Once};
use smx_samples::{Part, text_of};

const DRIVER: Part = Once("transcript 1\ndriver ip mux 4 8 3 16\n");

const FIRST_TWO: Part = Once("0 clone ip = fd 0 0\n1 clone ip = fd 0 1\n");

const LAST_TWO: Part = Once("0 close 1 = EBADF fd\n1 read 0 = EAGAIN empty\n");

const END: Part = Once("config\nnext 1 1\nfd 0 0 ip 0\nfd 1 0 ip 1\nend\n");

// Six transcripts of four entries each. The first is legal. In the second only the view is wrong. In the others, the
// first wrong entry is number 1, 2, 3 and 4, in this order.
const FOUR: [(&[Part], Verdict); 6] = [
    (&[DRIVER, FIRST_TWO, LAST_TWO, END], Verdict::Legal),
    (
        &[
            DRIVER,
            FIRST_TWO,
            LAST_TWO,
            Once("config\nnext 1 1\nfd 0 0 ip 0\nfd 1 0 ip 2\nend\n"),
        ],
        Verdict::ConfigDiffers,
    ),
    (
        &[
            DRIVER,
            Once("1 clone ip = fd 0 1\n0 clone ip = fd 0 0\n"),
            LAST_TWO,
            END,
        ],
        Verdict::Illegal { entry: 1 },
    ),
    (
        &[
            DRIVER,
            Once("0 clone ip = fd 0 0\n1 clone ip = fd 0 2\n"),
            LAST_TWO,
            END,
        ],
        Verdict::Illegal { entry: 2 },
    ),
    (
        &[
            DRIVER,
            FIRST_TWO,
            Once("0 close 1 = done\n1 read 0 = EBADF fd\n"),
            END,
        ],
        Verdict::Illegal { entry: 3 },
    ),
    (
        &[
            DRIVER,
            FIRST_TWO,
            Once("0 close 1 = EBADF fd\n1 read 0 = got 1 5 aa\n"),
            END,
        ],
        Verdict::Illegal { entry: 4 },
    ),
];

// Other transcripts. The last two have 100,000 entries. In the first of these two all entries are right, and in the
// second only the last entry is wrong.
const JUDGED: [(&[Part], Verdict); 5] = [
    (
        &[Once("transcript 1\nconfig\nnext 1 1\nend\n")],
        Verdict::Legal,
    ),
    (
        &[Once("transcript 1\n0 close 0 = id 5\n0 exit = done\nconfig\nnext 7 7\nend\n")],
        Verdict::Illegal { entry: 1 },
    ),
    (
        &[Once("transcript 2\n0 exit = done\nconfig\nnext 1 1\nhung eth 0\nend\n")],
        Verdict::ConfigDiffers,
    ),
    (
        &[
            Once("transcript 1\ndriver ip mux 4 8 3 16\n"),
            Each(0, 100_000, "0 close 0 = EBADF fd\n"),
            Once("config\nnext 1 1\nend\n"),
        ],
        Verdict::Legal,
    ),
    (
        &[
            Once("transcript 1\ndriver ip mux 4 8 3 16\n"),
            Each(0, 99_999, "0 close 0 = EBADF fd\n"),
            Once("0 clone ip = fd 1 0\nconfig\nnext 1 1\nend\n"),
        ],
        Verdict::Illegal { entry: 100_000 },
    ),
];

#[test]
fn on_short_transcripts_and_on_the_most_entries(rt: HostRuntime) {
    for (text, want) in FOUR.iter().chain(&JUDGED) {
        let text = text_of(rt.alloc(), *text).expect(&rt, "there is memory");
        is_judged(&rt, text.as_bytes(), *want);
    }
}
