//! Reading the queues: the messages, marks and bytes of a place, and the number of all messages.

ghost use Rattle.std.specs.Prelude.{◌≡◌, ◌+◌, ◌≤◌, ◌++◌, length, map, IfOk, option_copied, slice_get, vec_capacity};
ghost use Rattle.smx_model.specs.Queues.{bytes_of};
ghost use Rattle.smx_queues.specs.QueueTable.{queue_at, IsPlace};
ghost use Rattle.smx_queues.specs.Slots.{message_total};

use crate::queues::{PlaceId, Queues};
use smx_types::{Message, NoMemory};

impl Queues {
    /// Returns the number of messages of all places in total. Takes no memory.
    pub fn len(&self) -> usize
        ensures { result ≡ message_total self.now.queues }
    {
        self.nodes.len()
    }

    /// Returns the message at the front, if there is one. Takes no memory.
    pub fn front(&self, p: PlaceId) -> Option<&Message>
        requires { IsPlace self.now.queues p }
        ensures { option_copied result ≡ slice_get (queue_at self.now.queues p).messages 0 }
    {
        let chain = &self.chains[p];
        if chain.count == 0 {
            return None;
        }
        Some(&self.nodes[chain.first].message)
    }

    /// Returns the message at index `i` of the queue, if there is one. Takes no memory.
    pub fn nth(&self, p: PlaceId, i: usize) -> Option<&Message>
        requires { IsPlace self.now.queues p }
        ensures { option_copied result ≡ slice_get (queue_at self.now.queues p).messages i }
    {
        let chain = &self.chains[p];
        if chain.count <= i {
            return None;
        }
        let mut key = chain.first;
        for _k in 0..i {
            key = self.nodes[key].next;
        }
        Some(&self.nodes[key].message)
    }

    /// Returns whether the place is marked as full. Takes no memory.
    pub fn is_full(&self, p: PlaceId) -> bool
        requires { IsPlace self.now.queues p }
        ensures { result ≡ (queue_at self.now.queues p).full }
    {
        self.chains[p].full
    }

    /// Returns the total number of bytes of the messages at the place. Takes no memory.
    pub fn bytes(&self, p: PlaceId) -> usize
        requires { IsPlace self.now.queues p }
        ensures { result ≡ bytes_of (queue_at self.now.queues p).messages }
    {
        self.chains[p].bytes
    }

    /// Returns the number of messages at the place. Takes no memory.
    pub fn message_count(&self, p: PlaceId) -> usize
        requires { IsPlace self.now.queues p }
        ensures { result ≡ length (queue_at self.now.queues p).messages }
    {
        self.chains[p].count
    }

    /// Returns the serials of the messages at the place, from the front on. Fails only if out of memory.
    pub fn serials(&self, p: PlaceId) -> Result<Vec<u32>, NoMemory>
        requires { IsPlace self.now.queues p }
        ensures { IfOk result (λ v. v.items ≡ map (λ m. m.serial) (queue_at self.now.queues p).messages) }
    {
        let mut serials = Vec::with_capacity(self.alloc, self.message_count(p))?;
        self.add_serials(p, &mut serials);
        Ok(serials)
    }

    /// Appends the serials of the messages at the place, from the front on, to a list that has room for them. Takes no
    /// memory.
    pub fn add_serials(&self, p: PlaceId, serials: &mut Vec<u32>)
        requires place { IsPlace self.now.queues p }
        requires room { length serials.old.items + length (queue_at self.now.queues p).messages
            ≤ vec_capacity serials.old }
        ensures added { serials.new.items
            ≡ serials.old.items ++ map (λ m. m.serial) (queue_at self.now.queues p).messages }
        ensures capacity { vec_capacity serials.new ≡ vec_capacity serials.old }
    {
        let chain = &self.chains[p];
        let mut key = chain.first;
        for _k in 0..chain.count {
            let node = &self.nodes[key];
            serials.push_reserved(node.message.serial);
            key = node.next;
        }
    }
}
