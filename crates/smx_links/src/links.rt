//! Links in the order in which they were made, found by id and by lower stream.

ghost use Rattle.std.specs.Prelude.{◌≡◌, ◌<◌, ◌==◌, ◌++◌, List, [], ◌∷◌, false, find, filter, not, nat_lt, IfNone};
ghost use Rattle.std.specs.Prelude.{IfOk, OnOk, OnErr, option_copied};
ghost use Rattle.std.specs.List.{All};
ghost use Rattle.std.specs.Map.{values_of};
ghost use Rattle.smx_types.specs.declared.link.Link.{Link as LinkValue};
ghost use Rattle.smx_model.specs.Configuration.{same_stream};
ghost use Rattle.smx_model.specs.Ordered.{IsRising};
ghost use Rattle.smx_model.specs.Paths.{AreLowersApart};
ghost use Rattle.smx_model.specs.Standing.{is_below};
ghost use Rattle.smx_links.specs.Keys.{AreFound, key_of};
ghost use Rattle.smx_links.specs.LinkLists.{others_of};

use indexmap::IndexMap;
use smx_types::{Link, NoMemory, StreamId};
use std::alloc::Global;
use std::marker::Model;

// The number of a driver, and a minor.
type Key = (u8, u8);

// Returns the stream as a key of a map.
fn key_of(stream: StreamId) -> Key
    ensures { result ≡ key_of stream }
{
    (stream.driver, stream.minor)
}

/// Links by id, in the order in which they were made. Contracts see the list.
#[derive(Debug, Drop)]
pub struct Links {
    by_id: IndexMap<u32, Link>,
    // For each stream below a link, the id of this link.
    ids: IndexMap<Key, u32>,
}

impl Model for Links {
    ghost Value = { List LinkValue };

    ghost view = { λ t. values_of t.by_id.entries };

    ghost invariant = { λ t. AreFound t.by_id.entries t.ids.entries };
}

impl Links {
    /// Makes an empty list of links, which keeps the allocator.
    pub fn new(alloc: Global) -> Links
        ensures { result ≡ [] }
    {
        Links {
            by_id: IndexMap::new(alloc),
            ids: IndexMap::new(alloc),
        }
    }

    /// Returns all links, in order.
    pub fn as_slice(&self) -> &[Link]
        ensures { result.now ≡ self.now }
    {
        self.by_id.values().as_slice()
    }

    /// Returns the link with this id, if there is one. Does one look-up.
    pub fn get(&self, id: u32) -> Option<&Link>
        ensures { option_copied result ≡ find (λ l. l.id == id) self.now }
    {
        self.by_id.get(&id)
    }

    /// Returns the link that the stream is below, if there is one. Does two look-ups.
    pub fn above(&self, lower: StreamId) -> Option<&Link>
        requires { IsRising (λ l k. nat_lt l.id k.id) self.now }
        ensures { option_copied result ≡ find (λ l. same_stream l.lower lower) self.now }
    {
        let id = *self.ids.get(&key_of(lower))?;
        self.by_id.get(&id)
    }

    /// Returns whether the stream is below a link. Does one look-up.
    pub fn is_below(&self, lower: StreamId) -> bool
        ensures { result ≡ is_below self.now lower }
    {
        self.ids.contains_key(&key_of(lower))
    }

    /// Adds a link. Its id must be greater than all ids of the list, and its lower stream must not be below a link yet.
    /// Allocates before the first change.
    pub fn push(&mut self, link: Link) -> Result<(), NoMemory>
        requires new { All (λ l. l.id < link.id) self.old }
        requires free { is_below self.old link.lower ≡ false }
        ensures ok { OnOk result (self.new ≡ self.old ++ link ∷ []) }
        ensures err { OnErr result (self.new ≡ self.old) }
    {
        self.by_id.reserve(1)?;
        self.ids.reserve(1)?;
        self.by_id.insert(link.id, link).unwrap();
        self.ids.insert(key_of(link.lower), link.id).unwrap();
        Ok(())
    }

    /// Removes the link with this id and no other, and returns it. Returns `None` if there is no such link. Does not
    /// allocate.
    pub fn remove(&mut self, id: u32) -> Option<Link>
        requires lowers { AreLowersApart self.old }
        requires rise { IsRising (λ l k. nat_lt l.id k.id) self.old }
        ensures link { result ≡ find (λ l. l.id == id) self.old }
        ensures rest { self.new ≡ filter (λ l. not (l.id == id)) self.old }
        ensures none { IfNone result (self.new ≡ self.old) }
    {
        let link = self.by_id.shift_remove(&id)?;
        let _id = self.ids.swap_remove(&key_of(link.lower));
        Some(link)
    }

    /// Removes the links with these ids and no others. Does not allocate.
    pub fn remove_each(&mut self, ids: &[u32])
        requires lowers { AreLowersApart self.old }
        requires rise { IsRising (λ l k. nat_lt l.id k.id) self.old }
        ensures { self.new ≡ others_of ids.now self.old }
    {
        for id in ids {
            let _link = self.remove(*id);
        }
    }

    /// Copies the links. The copy gets its memory from this allocator.
    pub fn copy(&self, alloc: Global) -> Result<Links, NoMemory>
        requires lowers { AreLowersApart self.now }
        requires rise { IsRising (λ l k. nat_lt l.id k.id) self.now }
        ensures { IfOk result (λ t. t ≡ self.now) }
    {
        let mut copy = Links::new(alloc);
        for link in self.as_slice() {
            copy.push(*link)?;
        }
        Ok(copy)
    }
}
