//! A session as C sees it: a pointer. And a box as a raw pointer and an allocator.

ghost use Rattle.std.specs.Box.Ownership.{box_owns};
ghost use Rattle.std.specs.Prelude.{◌≡◌, None, Some, MatchOption, Option};
ghost use Rattle.smx_session.specs.Sessions.{State};

use smx_session::Session;
use std::alloc::{Allocator, Global};
use std::marker::{Model, Send};
use std::ptr::null_mut;

/// A pointer to a session on the heap, or null. Contracts see the session, or no session.
#[repr(C)]
pub struct Handle {
    at: *mut u8,
    alloc: Global,
    pub ghost value: { Option State },
}

impl Model for Handle {
    ghost use Rattle.muxsim_c.specs.Owned.{held};

    ghost also_owns = { λ h. held h.alloc h.at h.value };
}

unsafe impl Send for Handle {}

impl Drop for Handle {
    fn drop(self) {
        if let Some(loose) = self.into_loose() {
            drop(loose.into_box());
        }
    }
}

impl Handle {
    /// Returns a handle without a session.
    pub fn closed(alloc: Global) -> Handle
        ensures { result.value ≡ None }
    {
        Handle {
            at: null_mut(),
            alloc,
        }
    }

    /// Returns a handle with the session of `loose`, a box that was taken apart.
    pub fn of(loose: Loose<Session, Global>) -> Handle
        ensures { result.value ≡ Some loose.value }
    {
        let Loose { at, alloc } = loose;
        Handle {
            at: at as *mut u8,
            alloc,
        }
    }

    /// Returns the box of the session, taken apart, or `None` if the handle has no session.
    pub fn into_loose(self) -> Option<Loose<Session, Global>>
        ensures { MatchOption result (self.value ≡ None) (λ l. self.value ≡ Some l.value) }
    {
        let Handle { at, alloc } = self;
        if at.is_null() {
            None
        } else {
            Some(Loose {
                at: at as *mut Session,
                alloc,
            })
        }
    }
}

/// A box, taken apart into its raw pointer and its allocator.
pub struct Loose<T, A: Allocator> {
    at: *mut T,
    alloc: A,
    ghost value: { T },
}

impl<T, A: Allocator> Model for Loose<T, A> {
    ghost also_owns = { λ l. box_owns (A.dealloc_token l.alloc) T.row l.at l.value };
}

impl<T: Drop, A: Allocator> Loose<T, A> {
    /// Takes the box apart.
    pub fn of(value: Box<T, A>) -> Loose<T, A>
        ensures { result.value ≡ value.value }
    {
        let (at, alloc) = Box::into_raw_with_allocator(value);
        Loose { at, alloc }
    }

    /// Puts the box together again.
    pub fn into_box(self) -> Box<T, A>
        ensures { result.value ≡ self.value }
    {
        let Loose { at, alloc } = self;
        unsafe { Box::from_raw(alloc, at) }
    }
}
