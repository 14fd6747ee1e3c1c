//! Every number of drivers, and every size of a message. No call of a configuration runs out of memory.

use super::worked::is_worked;
use smx_samples::Part::{Each, Once};
use smx_samples::{Part, text_of};
use std::process::Abort;

#[test]
fn every_number_of_drivers(rt: HostRuntime) {
    for count in 0..129u32 {
        let drivers = Each(0, count, "driver a{n} leaf 1 1 0 1\n");
        let end = Once("config\nnext 1 1\nend\n");
        is_worked(&rt, &[Once("transcript 2\n"), drivers, end]);
    }
}

// Sends messages of these bytes down and up; one of them stays.
fn are_sent(rt: &(impl AllocGlobal + Abort + Print), bytes: Part) {
    let text = [
        Once("transcript 1\ndriver eth0 leaf 64 4096 0 1024\n0 clone eth0 = fd 0 0\n"),
        Once("0 write 0 5 "),
        bytes,
        Once(" = took 1\n0 inject eth0 0 9 "),
        bytes,
        Once(" = took 2\n0 transmit eth0 0 = got 1 5 "),
        bytes,
        Once("\n0 read 0 = got 2 9 "),
        bytes,
        Once("\n0 write 0 5 "),
        bytes,
        Once(" = took 3\nconfig\nnext 1 4\nfd 0 0 eth0 0\nmsg eth0 0 w 3 5 "),
        bytes,
        Once("\nend\n"),
    ];
    is_worked(rt, &text);
}

#[test]
fn every_size_of_a_message(rt: HostRuntime) {
    for size in 1..1_025u32 {
        // The bytes differ, also from size to size.
        let bytes = [Each(size, size.wrapping_mul(2), "{n % 251 hex}")];
        let hex = text_of(rt.alloc(), &bytes).expect(&rt, "there is memory");
        let bytes = Once(hex.as_str());
        are_sent(&rt, bytes);
    }
}
