//! A worked history, its view and some of its values, and the copy of each.

use super::spelling::spells_transcript;
use smx_samples::Part::Once;
use smx_types::{Bytes, Command, Copied, Entry, Message, Name, Process, Reply, Same, Version};
use std::mem::forget;
use std::process::Abort;

// Messages fill the queue below a link, and the device takes two of them.
const MARKS_ACROSS_THE_JOIN: &str = "transcript 1
driver ip mux 4 8 3 16
driver eth leaf 2 8 3 16
0 clone ip = fd 0 0
0 clone eth = fd 1 0
0 link 0 1 = id 1
0 route 0 5 1 = done
0 write 0 5 00000001 = took 1
0 write 0 5 00000002 = took 2
0 write 0 5 00000003 = took 3
0 write 0 5 00000004 = took 4
0 write 0 5 00000005 = EAGAIN full
0 transmit eth 0 = got 1 5 00000001
0 write 0 5 00000005 = EAGAIN full
0 transmit eth 0 = got 2 5 00000002
0 write 0 5 00000005 = took 5
config
next 2 6
fd 0 0 ip 0
fd 0 1 eth 0
link 1 ip 0 eth 0 link
route ip 5 1
msg ip 0 w 5 5 00000005
msg eth 0 w 3 5 00000003
msg eth 0 w 4 5 00000004
full eth 0 w
end
";

// `00000001`
fn bytes(rt: &(impl AllocGlobal + Abort)) -> Bytes {
    Bytes::from_vec(vec![in rt.alloc(); 0, 0, 0, 1].expect(rt, "memory"))
}

// `write 0 5 00000001`
fn write(rt: &(impl AllocGlobal + Abort)) -> Command {
    Command::Write {
        fd: 0,
        addr: 5,
        bytes: bytes(rt),
    }
}

// `got 1 5 00000001`
fn got(rt: &(impl AllocGlobal + Abort)) -> Reply {
    Reply::Got {
        serial: 1,
        addr: 5,
        bytes: bytes(rt),
    }
}

// `0 transmit eth 0 = got 1 5 00000001`
fn transmit(rt: &(impl AllocGlobal + Abort)) -> Entry {
    Entry {
        process: Process::new(0).expect(rt, "a process"),
        command: Command::Transmit {
            driver: Name::new("eth").expect(rt, "a name"),
            minor: 0,
        },
        reply: got(rt),
    }
}

// The message of `write` and `transmit`.
fn message(rt: &(impl AllocGlobal + Abort)) -> Message {
    Message {
        serial: 1,
        addr: 5,
        bytes: bytes(rt),
    }
}

// Checks that the copy of a value equals it.
fn is_copied<T: Copied + Same>(rt: &(impl AllocGlobal + Abort), value: T) {
    let again = value.copied(rt.alloc()).expect(rt, "memory");
    assert!(rt; again.is_same(&value));
    forget((value, again));
}

#[test]
fn copies_of_a_history_and_of_values_in_it(rt: HostRuntime) {
    spells_transcript(&rt, &[Once(MARKS_ACROSS_THE_JOIN)], Version::V1);
    is_copied(&rt, write(&rt));
    is_copied(&rt, got(&rt));
    is_copied(&rt, transmit(&rt));
    is_copied(&rt, message(&rt));
}
