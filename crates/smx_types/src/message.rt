//! Messages and their bytes.

ghost use Rattle.std.specs.Prelude.{◌≡◌, IfOk};

use crate::items::{Copied, Items, NoMemory};
use std::alloc::{AllocError, Global};

/// The bytes of a message, in order.
pub type Bytes = Items<u8>;

/// Serials of messages, which are numbered from 1.
pub type Serials = Items<u32>;

/// A message that was accepted.
#[derive(Debug, Drop, PartialEq)]
pub struct Message {
    /// Its serial: from 1 to 4,294,967,294, and never reused.
    pub serial: u32,
    /// Its address.
    pub addr: u32,
    pub bytes: Bytes,
}

/// Messages in order. If they are the messages of a queue, the first one is the next to leave it.
pub type Messages = Items<Message>;

impl Message {
    /// Copies the message. Fails only if out of memory.
    pub fn copy(&self, alloc: Global) -> Result<Message, NoMemory>
        ensures { IfOk result (λ c. c ≡ self.now) }
    {
        Ok(Message {
            bytes: self.bytes.copy(alloc)?,
            ..*self
        })
    }
}

impl Clone for Message {
    ghost is_clone = { λ message copy. copy ≡ message };

    fn clone(&self) -> Result<Message, AllocError> {
        Ok(Message {
            bytes: self.bytes.clone()?,
            ..*self
        })
    }
}

impl Copied for Message {
    fn copied(&self, alloc: Global) -> Result<Message, NoMemory> {
        self.copy(alloc)
    }
}
