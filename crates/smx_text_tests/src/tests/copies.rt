//! Each copy, with enough memory, equals its original, and has exactly the room that it needs.

use smx_types::{Copied, Items, Programs, Reply, Same, Transcript};
use std::mem::forget;
use std::process::Abort;

// Checks the copy of a list, which has room for exactly its items, and the copy of each item.
fn list_is_copied<T: Copied + Same>(rt: &(impl AllocGlobal + Abort), list: &Items<T>) {
    let again = list.copy(rt.alloc()).expect(rt, "memory");
    assert!(rt; again.is_same(list));
    assert!(rt; again.into_vec().capacity() == list.as_slice().len());
    for item in list.as_slice() {
        let again = item.copied(rt.alloc()).expect(rt, "memory");
        assert!(rt; again.is_same(item));
        forget(again);
    }
}

// Checks the copies of the lists in a reply.
fn lists_are_copied(rt: &(impl AllocGlobal + Abort), reply: &Reply) {
    match reply {
        Reply::Done { dropped } => list_is_copied(rt, dropped),
        Reply::Got { bytes, .. } => list_is_copied(rt, bytes),
        _ => {}
    }
}

/// Checks the copies of a transcript and of its parts.
pub fn is_copied(rt: &(impl AllocGlobal + Abort), value: &Transcript) {
    let again = value.copy(rt.alloc()).expect(rt, "memory");
    assert!(rt; again.is_same(value));
    forget(again);
    let again = value.view.copy(rt.alloc()).expect(rt, "memory");
    assert!(rt; again.is_same(&value.view));
    forget(again);
    list_is_copied(rt, &value.drivers);
    list_is_copied(rt, &value.view.fds);
    list_is_copied(rt, &value.view.links);
    list_is_copied(rt, &value.view.binds);
    list_is_copied(rt, &value.view.routes);
    list_is_copied(rt, &value.view.msgs);
    list_is_copied(rt, &value.view.fulls);
    list_is_copied(rt, &value.view.hungs);
    list_is_copied(rt, &value.entries);
    for entry in value.entries.as_slice() {
        lists_are_copied(rt, &entry.reply);
    }
}

/// Checks the copies of programs.
pub fn are_copied(rt: &(impl AllocGlobal + Abort), value: &Programs) {
    let again = value.copy(rt.alloc()).expect(rt, "memory");
    assert!(rt; again.is_same(value));
    forget(again);
}
