//! Texts of tests, typed in from the rules.

use smx_samples::Part;
use smx_samples::Part::{Each, Once};

/// Two processes, each with its own stream.
pub const TWO_PROCESSES: &[u8] =
    b"transcript 1\ndriver ip mux 4 8 3 16\n0 clone ip = fd 0 0\n1 clone ip = fd 0 1\nconfig\nnext 1 1\nfd 0 0 ip 0\nfd 1 0 ip 1\nend\n";

/// `TWO_PROCESSES` with another reply to the second command.
pub const WRONG_REPLY: &[u8] =
    b"transcript 1\ndriver ip mux 4 8 3 16\n0 clone ip = fd 0 0\n1 clone ip = fd 0 2\nconfig\nnext 1 1\nfd 0 0 ip 0\nfd 1 0 ip 1\nend\n";

/// `TWO_PROCESSES` with another minor in the configuration.
pub const OTHER_CONFIGURATION: &[u8] =
    b"transcript 1\ndriver ip mux 4 8 3 16\n0 clone ip = fd 0 0\n1 clone ip = fd 0 1\nconfig\nnext 1 1\nfd 0 0 ip 0\nfd 1 0 ip 2\nend\n";

/// Messages go down a link until the queues above and below it are full. The device then takes messages from the lower
/// queue.
pub const MARKS_ACROSS_THE_JOIN: &[u8] =
    b"transcript 1\ndriver ip mux 4 8 3 16\ndriver eth leaf 2 8 3 16\n0 clone ip = fd 0 0\n0 clone eth = fd 1 0\n0 link 0 1 = id 1\n0 route 0 5 1 = done\n0 write 0 5 00000001 = took 1\n0 write 0 5 00000002 = took 2\n0 write 0 5 00000003 = took 3\n0 write 0 5 00000004 = took 4\n0 write 0 5 00000005 = EAGAIN full\n0 transmit eth 0 = got 1 5 00000001\n0 write 0 5 00000005 = EAGAIN full\n0 transmit eth 0 = got 2 5 00000002\n0 write 0 5 00000005 = took 5\nconfig\nnext 2 6\nfd 0 0 ip 0\nfd 0 1 eth 0\nlink 1 ip 0 eth 0 link\nroute ip 5 1\nmsg ip 0 w 5 5 00000005\nmsg eth 0 w 3 5 00000003\nmsg eth 0 w 4 5 00000004\nfull eth 0 w\nend\n";

/// A device that hangs up, and a stream that stays hung up below a link.
pub const HANGUP_END_OF_FILE: &[u8] =
    b"transcript 2\ndriver ip mux 4 8 3 16\ndriver eth leaf 2 8 3 16\n0 clone eth = fd 0 0\n0 inject eth 0 9 aa = took 1\n0 hangup eth 0 = done\n0 hangup eth 0 = done\n0 read 0 = got 1 9 aa\n0 read 0 = eof\n0 clone ip = fd 1 0\n0 plink 1 0 = id 1\n0 read 0 = EINVAL below\nconfig\nnext 2 2\nfd 0 0 eth 0\nfd 0 1 ip 0\nlink 1 ip 0 eth 0 plink\nhung eth 0\nend\n";

/// Two opens, a close, and an open that gets the descriptor and the stream that were closed.
pub const OPENS_AND_CLOSES: &[u8] =
    b"programs 1\ndriver ip mux 4 8 3 16\nprocess 0\nclone ip\nclone ip\nclose 0\nclone ip\nend\n";

/// The transcript of a run of `OPENS_AND_CLOSES`.
pub const OPENED_AND_CLOSED: &[u8] =
    b"transcript 1\ndriver ip mux 4 8 3 16\n0 clone ip = fd 0 0\n0 clone ip = fd 1 1\n0 close 0 = done\n0 clone ip = fd 0 0\nconfig\nnext 1 1\nfd 0 0 ip 0\nfd 0 1 ip 1\nend\n";

/// Commands of two processes in turn, with wrong replies and a wrong configuration.
pub const IN_TURN: &[u8] =
    b"transcript 1\ndriver ip mux 2 8 3 16\ndriver eth leaf 1 8 3 16\n1 clone ip = fd 0 7\n0 clone ip = EMFILE\n0 clone eth = done 1 2\n1 clone ip = EBADF fd\n0 link 0 1 = id 9\n1 exit = got 1 2 ff\n0 route 0 5 1 = EINVAL id\n1 clone ip = took 4294967295\n1 write 0 5 a1 = EAGAIN full\nconfig\nnext 9 9\nfd 63 4294967295 tr 7\nend\n";

/// The replay of `IN_TURN`: the same commands with the right replies, and the configuration after them.
pub const IN_TURN_REPLAYED: &[u8] =
    b"transcript 1\ndriver ip mux 2 8 3 16\ndriver eth leaf 1 8 3 16\n1 clone ip = fd 0 0\n0 clone ip = fd 0 1\n0 clone eth = fd 1 0\n1 clone ip = ENXIO minor\n0 link 0 1 = id 1\n1 exit = done\n0 route 0 5 1 = done\n1 clone ip = fd 0 0\n1 write 0 5 a1 = took 1\nconfig\nnext 2 2\nfd 0 0 ip 1\nfd 0 1 eth 0\nfd 1 0 ip 0\nlink 1 ip 1 eth 0 link\nroute ip 5 1\nmsg eth 0 w 1 5 a1\nend\n";

/// The trace of `IN_TURN`, with the waits (which messages can't move, and why) below each entry.
pub const IN_TURN_TRACED: &[u8] =
    b"transcript 1\ndriver ip mux 2 8 3 16\ndriver eth leaf 1 8 3 16\n1 clone ip = fd 0 0\n  + fd 1 0 ip 0\n0 clone ip = fd 0 1\n  + fd 0 0 ip 1\n0 clone eth = fd 1 0\n  + fd 0 1 eth 0\n1 clone ip = ENXIO minor\n0 link 0 1 = id 1\n  + link 1 ip 1 eth 0 link\n1 exit = done\n  - fd 1 0 ip 0\n0 route 0 5 1 = done\n  + route ip 5 1\n1 clone ip = fd 0 0\n  + fd 1 0 ip 0\n1 write 0 5 a1 = took 1\n  + msg eth 0 w 1 5 a1\n  waits eth 0 w 1: for the device\nconfig\nnext 2 2\nfd 0 0 ip 1\nfd 0 1 eth 0\nfd 1 0 ip 0\nlink 1 ip 1 eth 0 link\nroute ip 5 1\nmsg eth 0 w 1 5 a1\n  waits eth 0 w 1: for the device\nend\n";

/// Two processes with five thousand commands each, in more than 64 KiB.
pub const TWO_LONG_PROGRAMS: [Part; 5] = [
    Once("programs 1\nprocess 0\n"),
    Each(0, 5_000, "close 0\n"),
    Once("process 1\n"),
    Each(0, 5_000, "close 0\n"),
    Once("end\n"),
];
