//! Rings of numbers, as linked lists.

ghost use Rattle.std.specs.Prelude.{◌≡◌, ◌≢◌, ℕ, suc, ◌<◌, ◌≤◌, ◌^◌, length, slice_set, IfNone, IfOk, IfSome};
ghost use Rattle.std.specs.List.{range_with_len};
ghost use Rattle.smx_queues.specs.Rings.{AreRings, RingTable, at, ring_count};

use smx_types::NoMemory;
use std::alloc::Global;
use std::marker::Model;

/// One ring for each number below `count`. A ring contains some of these numbers, and each number is in at most one
/// ring. Contracts see the ring that each number is in.
#[derive(Debug, Drop)]
pub struct Rings {
    count: usize,
    // 0 for a number that is in no ring, and q + 1 for a number in the ring of q.
    owners: Vec<usize>,
    // The node after each node, and the one before it. For i below `count`, node i is number i. The ring of number q
    // begins at node `count` + q.
    next: Vec<usize>,
    previous: Vec<usize>,
}

impl Model for Rings {
    ghost Value = { RingTable };

    ghost view = { λ r. record { count = r.count; owners = r.owners.items } };

    ghost invariant = { λ r. AreRings r.count r.owners.items r.next.items r.previous.items };
}

// Returns the numbers below `count`, in order.
fn numbers(alloc: Global, count: usize) -> Result<Vec<usize>, NoMemory>
    ensures { IfOk result (λ v. v.items ≡ range_with_len 0 count) }
{
    let mut numbers = Vec::with_capacity(alloc, count)?;
    for i in 0..count {
        numbers.push(i)?;
    }
    Ok(numbers)
}

impl Rings {
    /// Makes rings for the numbers below `count`, with no number in a ring. Fails only if out of memory.
    pub fn new(alloc: Global, count: usize) -> Result<Rings, NoMemory>
        requires { count < 2 ^ 63 }
        ensures count { IfOk result (λ r. r.count ≡ count) }
        ensures many { IfOk result (λ r. count ≤ length r.owners) }
        ensures none { IfOk result (λ r. (i : ℕ) → i < count → at r.owners i ≡ 0) }
    {
        let owners = vec![in alloc; 0; count]?;
        let next = numbers(alloc, 2 * count)?;
        let previous = Vec::from_slice(alloc, &next)?;
        Ok(Rings {
            count,
            owners,
            next,
            previous,
        })
    }

    // Puts number p, which is in no ring, into the ring of q. To do so, p and the beginning of the ring swap the nodes
    // that come after them.
    fn insert(&mut self, p: usize, q: usize)
        requires p { p < self.old.count }
        requires q { q < self.old.count }
        requires none { at self.old.owners p ≡ 0 }
        ensures { self.new ≡ record self.old { owners = slice_set self.old.owners p (suc q) } }
    {
        let head = self.count + q;
        let first = self.next[head];
        self.next.swap(p, head);
        self.previous.swap(p, first);
        self.owners[p] = q + 1;
    }

    // Takes a number out of its ring. To do so, the number and the node before it swap the nodes that come after them.
    fn remove(&mut self, p: usize)
        requires p { p < self.old.count }
        requires some { at self.old.owners p ≢ 0 }
        ensures { self.new ≡ record self.old { owners = slice_set self.old.owners p 0 } }
    {
        let before = self.previous[p];
        let behind = self.next[p];
        self.next.swap(p, before);
        self.previous.swap(behind, p);
        self.owners[p] = 0;
    }

    /// Puts number p into the ring of q, and takes it out of any other ring. Takes no memory.
    pub fn enter(&mut self, p: usize, q: usize)
        requires p { p < self.old.count }
        requires q { q < self.old.count }
        ensures { self.new ≡ record self.old { owners = slice_set self.old.owners p (suc q) } }
    {
        if self.owners[p] != q + 1 {
            if self.owners[p] != 0 {
                self.remove(p);
            }
            self.insert(p, q);
        }
    }

    /// Takes a number out of the ring of q and returns it, if the ring has one. Takes no memory.
    pub fn take_one(&mut self, q: usize) -> Option<usize>
        requires { q < self.old.count }
        ensures below { IfSome result (λ p. p < self.old.count) }
        ensures its { IfSome result (λ p. at self.old.owners p ≡ suc q) }
        ensures taken { IfSome result (λ p. self.new ≡ record self.old { owners = slice_set self.old.owners p 0 }) }
        ensures same { IfNone result (self.new ≡ self.old) }
        ensures fewer { IfSome result (λ _. ring_count self.new < ring_count self.old) }
        ensures none { IfNone result ((p : ℕ) → p < self.old.count → at self.old.owners p ≡ suc q → ⊥) }
    {
        let head = self.count + q;
        let p = self.next[head];
        if p == head {
            return None;
        }
        self.remove(p);
        Some(p)
    }

    /// Copies the rings. Fails only if out of memory.
    pub fn copy(&self, alloc: Global) -> Result<Rings, NoMemory>
        ensures { IfOk result (λ r. r ≡ self.now) }
    {
        Ok(Rings {
            count: self.count,
            owners: Vec::from_slice(alloc, &self.owners)?,
            next: Vec::from_slice(alloc, &self.next)?,
            previous: Vec::from_slice(alloc, &self.previous)?,
        })
    }
}
