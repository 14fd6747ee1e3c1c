//! Replies that are read separately, texts that are not replies, and what a reply adds to an entry's line.

use smx_types::{Fault, Reply, Serials, Version};
use smx_words::{reply_of, write_reply};
use std::alloc::{AllocGlobal, Global};
use std::mem::forget;
use std::process::Abort;

// Returns whether the text is a reply of this version.
fn is_reply(rt: &(impl AllocGlobal + Abort), version: Version, text: &[u8]) -> bool {
    let read = reply_of(rt.alloc(), version, text).expect(rt, "memory");
    let some = read.is_some();
    forget(read);
    some
}

fn is_reply_of_both(rt: &(impl AllocGlobal + Abort), text: &[u8]) {
    assert!(rt; is_reply(rt, Version::V1, text));
    assert!(rt; is_reply(rt, Version::V2, text));
}

fn is_reply_of_version_2(rt: &(impl AllocGlobal + Abort), text: &[u8]) {
    assert!(rt; !is_reply(rt, Version::V1, text));
    assert!(rt; is_reply(rt, Version::V2, text));
}

#[test]
fn replies_are_read(rt: HostRuntime) {
    let took = reply_of(rt.alloc(), Version::V1, b"took 7").expect(&rt, "memory");
    assert!(rt; took == Some(Reply::Took { serial: 7 }));
    let id = reply_of(rt.alloc(), Version::V1, b"id 4294967295").expect(&rt, "memory");
    assert!(rt; id == Some(Reply::Id(4_294_967_295)));
    let fault = reply_of(rt.alloc(), Version::V1, b"EINVAL unrouted").expect(&rt, "memory");
    assert!(rt; fault == Some(Reply::Fault(Fault::Unrouted)));
}

#[test]
fn texts_are_replies(rt: HostRuntime) {
    is_reply_of_both(&rt, b"fd 0 4294967295");
    is_reply_of_both(&rt, b"took 65536");
    is_reply_of_both(&rt, b"got 1 2 -");
    is_reply_of_both(&rt, b"got 10 20 00ff");
    is_reply_of_both(&rt, b"done");
    is_reply_of_both(&rt, b"done 1 22 333");
    is_reply_of_version_2(&rt, b"eof");
    is_reply_of_version_2(&rt, b"ENXIO hangup");
}

#[test]
fn other_texts_are_none(rt: HostRuntime) {
    assert!(rt; !is_reply(&rt, Version::V2, b""));
    assert!(rt; !is_reply(&rt, Version::V2, b"fd 0"));
    assert!(rt; !is_reply(&rt, Version::V2, b"id 07"));
    assert!(rt; !is_reply(&rt, Version::V2, b"took "));
    assert!(rt; !is_reply(&rt, Version::V2, b"got 1 2 0"));
    assert!(rt; !is_reply(&rt, Version::V2, b"got 1 2 FF"));
    assert!(rt; !is_reply(&rt, Version::V2, b"done 1  2"));
    assert!(rt; !is_reply(&rt, Version::V2, b"done 4294967296"));
    assert!(rt; !is_reply(&rt, Version::V2, b"eof "));
    assert!(rt; !is_reply(&rt, Version::V2, b"EINVAL hangup"));
}

// Checks that the reply adds this text to the line of an entry.
fn is_written(rt: &impl Abort, alloc: Global, reply: &Reply, text: &[u8]) {
    let mut out = Vec::new(alloc);
    write_reply(&mut out, reply).expect(rt, "memory");
    assert!(rt; out.as_slice() == text);
}

#[test]
fn replies_are_written(rt: HostRuntime) {
    let alloc = rt.alloc();
    is_written(&rt, alloc, &Reply::Fd { fd: 0, minor: 9 }, b" = fd 0 9\n");
    is_written(
        &rt,
        alloc,
        &Reply::Took { serial: 10_203 },
        b" = took 10203\n",
    );
    is_written(&rt, alloc, &Reply::Eof, b" = eof\n");
    is_written(
        &rt,
        alloc,
        &Reply::Fault(Fault::HungUp),
        b" = ENXIO hangup\n",
    );
    let done = Reply::Done {
        dropped: Serials::new(alloc),
    };
    is_written(&rt, alloc, &done, b" = done\n");
    forget(done);
}
