//! The queues of all places.

mod reading;

ghost use Rattle.std.specs.Prelude.{◌≡◌, ◌≢◌, ◌↔◌, ◌+◌, ◌-◌, ◌<◌, ◌≤◌, ◌^◌, [], ◌∷◌, ◌++◌, length, map, Some, None};
ghost use Rattle.std.specs.Prelude.{false, OnOk, OnErr, OnSome, IfOk, IfNone, IsTrue, slice_get, slice_set};
ghost use Rattle.slab.specs.Slab.{ContainsKey, slab_len};
ghost use Rattle.smx_types.specs.declared.message.Message.{Message};
ghost use Rattle.smx_queues.specs.Chains.{IsSound, slot_of, with_follower};
ghost use Rattle.smx_queues.specs.QueueTable.{QueueTable, queue_at, IsPlace, empty_queue, least_vacant, with_place};
ghost use Rattle.smx_queues.specs.QueueTable.{with_queue, with_arrival, without_front, without_messages};

use crate::chain::{Chain, Node, first_gone};
use slab::Slab;
use smx_types::{Message, NoMemory};
use std::alloc::Global;
use std::marker::Model;

// Makes `key` the successor of the last node of a chain, if the chain has a node.
fn follow(nodes: &mut Slab<Node>, chain: Chain, key: usize)
    requires { 0 < chain.count → ContainsKey nodes.old chain.last }
    ensures { nodes.new ≡ with_follower nodes.old chain key }
{
    if chain.count > 0 {
        nodes[chain.last].next = key;
    }
}

/// The number of a place, from 0 on.
pub type PlaceId = usize;

/// Places with one queue each: the messages in order of arrival, the full mark and the water marks. Contracts see the
/// queue of each place. One store has the messages of all places, so a message that moves to another place stays where
/// it is in memory.
#[derive(Debug, Drop)]
pub struct Queues {
    alloc: Global,
    nodes: Slab<Node>,
    chains: Vec<Chain>,
}

impl Model for Queues {
    ghost Value = { QueueTable };

    ghost view = { λ q. record {
      queues = map (slot_of q.nodes) q.chains.items;
      spare = q.nodes.capacity - slab_len q.nodes;
    } };

    ghost invariant = { λ q. IsSound q.nodes q.chains.items };
}

impl Queues {
    /// Makes a table without places. The table keeps the allocator for later allocations. This call does not allocate.
    pub fn new(alloc: Global) -> Queues
        ensures { result.queues ≡ [] }
    {
        Queues {
            alloc,
            nodes: Slab::new(alloc),
            chains: Vec::new(alloc),
        }
    }

    /// Adds a place without messages and without a full mark. Its number is the lowest that no place has. If an
    /// allocation fails, nothing has changed.
    pub fn add_place(&mut self, high: usize, low: usize) -> Result<PlaceId, NoMemory>
        requires low { low < high }
        requires high { high ≤ 4096 }
        ensures number { IfOk result (λ p. p ≡ least_vacant self.old.queues) }
        ensures added { OnOk result (self.new.queues ≡ with_place self.old.queues (empty_queue high low)) }
        ensures err { OnErr result (self.new.queues ≡ self.old.queues) }
        ensures spare { self.new.spare ≡ self.old.spare }
    {
        let chain = Chain::new(high, low);
        if let Some(p) = first_gone(&self.chains) {
            self.chains[p] = chain;
            return Ok(p);
        }
        let p = self.chains.len();
        self.chains.push(chain)?;
        Ok(p)
    }

    // Appends a place without messages and without a full mark.
    pub(crate) fn push_place(&mut self, high: usize, low: usize) -> Result<(), NoMemory>
        requires low { low < high }
        requires high { high ≤ 4096 }
        ensures { OnOk result (self.new.queues ≡ self.old.queues ++ Some (empty_queue high low) ∷ []) }
    {
        self.chains.push(Chain::new(high, low))?;
        Ok(())
    }

    /// Returns whether there is a place with this number. Does not allocate.
    pub fn has_place(&self, p: PlaceId) -> bool
        ensures { IsTrue result ↔ IsPlace self.now.queues p }
    {
        p < self.chains.len() && self.chains[p].there
    }

    /// Removes the place with its messages. Does nothing if there is no place with this number. Does not allocate.
    pub fn drop_place(&mut self, p: PlaceId)
        ensures gone { self.new.queues ≡ slice_set self.old.queues p None }
        ensures spare { self.new.spare ≡ self.old.spare + length (queue_at self.old.queues p).messages }
    {
        if self.has_place(p) {
            self.clear(p);
            self.chains[p].there = false;
        }
    }

    /// Makes sure that a node is reserved for one message. Fails only if out of memory.
    pub fn reserve_one(&mut self) -> Result<(), NoMemory>
        ensures room { OnOk result (0 < self.new.spare) }
        ensures kept { self.old.spare ≤ self.new.spare }
        ensures unchanged { self.new.queues ≡ self.old.queues }
    {
        self.nodes.reserve(1)?;
        Ok(())
    }

    /// Returns whether a message can arrive without an allocation. Does not allocate.
    pub fn has_spare(&self) -> bool
        ensures { IsTrue result ↔ (0 < self.now.spare) }
    {
        self.nodes.len() < self.nodes.capacity()
    }

    /// Adds a message at the end of the queue of a place that is not full. Uses a reserved node. Does not allocate.
    pub fn put(&mut self, p: PlaceId, message: Message)
        requires place { IsPlace self.old.queues p }
        requires open { (queue_at self.old.queues p).full ≡ false }
        requires some { 0 < length message.bytes }
        requires spare { 0 < self.old.spare }
        ensures put { self.new.queues
            ≡ with_queue self.old.queues p (with_arrival (queue_at self.old.queues p) message) }
        ensures spare { self.old.spare ≡ self.new.spare + 1 }
    {
        let size = message.bytes.as_slice().len();
        let chain = self.chains[p];
        let key = self.nodes.insert_reserved(Node { message, next: 0 });
        follow(&mut self.nodes, chain, key);
        self.chains[p].add_last(key, size);
    }

    /// Removes the message at the front and returns it. Returns `None` if there is no message. Does not allocate.
    pub fn take(&mut self, p: PlaceId) -> Option<Message>
        requires { IsPlace self.old.queues p }
        ensures taken { result ≡ slice_get (queue_at self.old.queues p).messages 0 }
        ensures left { OnSome result (self.new.queues
            ≡ with_queue self.old.queues p (without_front (queue_at self.old.queues p))) }
        ensures spare { OnSome result (self.new.spare ≡ self.old.spare + 1) }
        ensures none { IfNone result (self.new ≡ self.old) }
    {
        let chain = self.chains[p];
        if chain.count == 0 {
            return None;
        }
        let node = self.nodes.remove(chain.first);
        let size = node.message.bytes.as_slice().len();
        self.chains[p].drop_first(node.next, size);
        Some(node.message)
    }

    /// Moves the message at the front of one place to the end of another place, which is not full. The node of the
    /// message stays where it is. Does not allocate.
    pub fn move_front(&mut self, from: PlaceId, to: PlaceId)
        requires from { IsPlace self.old.queues from }
        requires to { IsPlace self.old.queues to }
        requires differ { from ≢ to }
        requires some { 0 < length (queue_at self.old.queues from).messages }
        requires open { (queue_at self.old.queues to).full ≡ false }
        ensures moved { (m : Message) → slice_get (queue_at self.old.queues from).messages 0 ≡ Some m
            → self.new.queues ≡ with_queue
            (with_queue self.old.queues from (without_front (queue_at self.old.queues from)))
            to (with_arrival (queue_at self.old.queues to) m) }
        ensures spare { self.new.spare ≡ self.old.spare }
    {
        let source = self.chains[from];
        let node = &self.nodes[source.first];
        let size = node.message.bytes.as_slice().len();
        let next = node.next;
        self.chains[from].drop_first(next, size);
        let target = self.chains[to];
        follow(&mut self.nodes, target, source.first);
        self.chains[to].add_last(source.first, size);
    }

    /// Drops all messages of the place, and its full mark. Does not allocate.
    pub fn clear(&mut self, p: PlaceId)
        requires { IsPlace self.old.queues p }
        ensures cleared { self.new.queues
            ≡ with_queue self.old.queues p (without_messages (queue_at self.old.queues p)) }
        ensures spare { self.new.spare ≡ self.old.spare + length (queue_at self.old.queues p).messages }
    {
        while let Some(_message) = self.take(p) {}
        self.chains[p].full = false;
    }

    /// Copies the places and their queues. The copy keeps this allocator. Fails only if out of memory.
    pub fn copy(&self, alloc: Global) -> Result<Queues, NoMemory>
        ensures { IfOk result (λ c. c.queues ≡ self.now.queues) }
    {
        Ok(Queues {
            alloc,
            nodes: self.nodes.clone()?,
            chains: Vec::from_slice(alloc, &self.chains)?,
        })
    }
}
