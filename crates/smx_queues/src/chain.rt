//! The nodes of the store that has all queued messages, and the chain of a place: the nodes of its queue, in order.

ghost use Rattle.std.specs.Prelude.{◌≡◌, ◌+◌, ◌<◌, ◌≤◌, ◌^◌, not, position};
ghost use Rattle.smx_queues.specs.Chains.{chain_with_last, chain_without_first, new_chain};

use smx_types::Message;
use std::alloc::AllocError;

/// A queued message, and the key of the next node in its queue. In the last node of a queue, this key has no meaning.
#[derive(Debug, Drop)]
pub struct Node {
    pub message: Message,
    pub next: usize,
}

impl Clone for Node {
    ghost is_clone = { λ node copy. copy ≡ node };

    fn clone(&self) -> Result<Node, AllocError> {
        Ok(Node {
            message: self.message.clone()?,
            next: self.next,
        })
    }
}

/// The keys of the first and the last node of a place's queue, the number of its messages, the sum of their bytes, its
/// full mark and its water marks.
#[derive(Clone, Copy, Debug, Drop)]
pub struct Chain {
    /// Whether the place exists.
    pub there: bool,
    pub full: bool,
    pub first: usize,
    pub last: usize,
    pub count: usize,
    pub bytes: usize,
    pub high: usize,
    pub low: usize,
}

impl Chain {
    // Makes the chain of a new place without messages.
    pub fn new(high: usize, low: usize) -> Chain
        ensures { result ≡ new_chain high low }
    {
        Chain {
            there: true,
            full: false,
            first: 0,
            last: 0,
            count: 0,
            bytes: 0,
            high,
            low,
        }
    }

    // Adds the node `key` at the end. The message of this node has `size` bytes.
    pub fn add_last(&mut self, key: usize, size: usize)
        requires count { self.old.count + 1 < 2 ^ 64 }
        requires bytes { self.old.bytes + size < 2 ^ 64 }
        ensures { self.new ≡ chain_with_last self.old key size }
    {
        if self.count == 0 {
            self.first = key;
        }
        self.last = key;
        self.count += 1;
        self.bytes += size;
        self.full = self.full || self.high <= self.bytes;
    }

    // Removes the first node, whose message has `size` bytes. Afterwards the node `next` is the first one.
    pub fn drop_first(&mut self, next: usize, size: usize)
        requires count { 0 < self.old.count }
        requires bytes { size ≤ self.old.bytes }
        ensures { self.new ≡ chain_without_first self.old next size }
    {
        self.first = next;
        self.count -= 1;
        self.bytes -= size;
        self.full = self.full && self.low < self.bytes;
    }
}

// Returns the number of the first chain whose place doesn't exist, if there is one.
pub fn first_gone(chains: &[Chain]) -> Option<usize>
    ensures { result ≡ position (λ c. not c.there) chains.now }
{
    chains.iter().position(|c| !c.there)
}
