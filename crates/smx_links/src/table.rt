//! The table of links.

ghost use Rattle.std.specs.Prelude.{◌≡◌, ◌<◌, ◌≤◌, ◌==◌, ◌||◌, true, false, [], ◌∷◌, length, find, nat_le, slice_get};
ghost use Rattle.std.specs.Prelude.{IfOk, OnOk, OnErr, option_copied};
ghost use Rattle.std.specs.List.{All};
ghost use Rattle.smx_types.specs.declared.limits.TheConstants.{MAX_DRIVERS, MAX_LINKS, NUMBER_END};
ghost use Rattle.smx_types.specs.declared.link.Link.{Link as LinkValue};
ghost use Rattle.smx_model.specs.Configuration.{same_stream};
ghost use Rattle.smx_model.specs.Paths.{reaches};
ghost use Rattle.smx_model.specs.Standing.{is_below};
ghost use Rattle.smx_links.specs.LinkLists.{IsLinkList, IsLinked, is_upper, refusal, with_link, without_id};
ghost use Rattle.smx_links.specs.LinkLists.{without_ids};
ghost use Rattle.smx_links.specs.Masks.{IsWithin};
ghost use Rattle.smx_links.specs.declared.table.LinkFault.TheVariants as fault;

use crate::links::Links;
use crate::masks::{Word, has_any_bit, has_bit, join_link, recompute};
use smx_types::{Link, LinkKind, MAX_LINKS, NUMBER_END, NoMemory, StreamId};
use std::alloc::Global;
use std::marker::Model;

/// The reason why a stream was not linked below a driver.
#[derive(Clone, Copy, Debug, PartialEq, Eq)]
pub enum LinkFault {
    /// The stream is already below a link.
    Already,
    /// The link would close a cycle of drivers.
    Cycle,
    /// There are 1,024 links, or no id is left.
    Full,
    /// An allocation failed.
    NoMemory,
}

impl From<NoMemory> for LinkFault {
    ghost from_gives = { λ _ e. e ≡ fault.NoMemory };

    fn from(_e: NoMemory) -> LinkFault {
        LinkFault::NoMemory
    }
}

/// Links by rising id, without a cycle, and with no stream below two of them. Contracts see the list, the next id and
/// the number of drivers.
#[derive(Debug)]
pub struct LinkTable {
    masks: Vec<Word>,
    links: Links,
    next_id: u32,
}

impl Drop for LinkTable {
    // Written by hand, so that functions drop a table with one call, not part by part.
    fn drop(self) {
        let LinkTable {
            masks: _masks,
            links: _links,
            next_id: _next_id,
        } = self;
    }
}

impl Model for LinkTable {
    ghost use Rattle.smx_links.specs.LinkLists.{LinkList};

    ghost Value = { LinkList };

    ghost use Rattle.smx_links.specs.TableFields.{list_of, IsWhole};

    ghost view = { list_of };

    ghost invariant = { IsWhole };
}

impl LinkTable {
    /// Makes a table without links, over drivers that are numbered from 0. The table keeps the allocator.
    #[tactic(auto, using(crate::proofs::LinkTableLemmas::parts_empty))]
    pub fn new(alloc: Global, drivers: usize) -> Result<LinkTable, NoMemory>
        requires { drivers ≤ MAX_DRIVERS }
        ensures { IfOk result (λ t. t ≡ record { links = []; next_id = 1; drivers = drivers }) }
    {
        Ok(LinkTable {
            masks: vec![in alloc; 0; drivers]?,
            links: Links::new(alloc),
            next_id: 1,
        })
    }

    /// Links the stream `lower` below the driver of the controlling stream `ctl`, and returns the id of the link. Fails
    /// with the first of these: `lower` is already below a link; both streams are of one driver, or a path leads from
    /// the driver of `lower` to the driver of `ctl`; there are 1,024 links or no id is left; an allocation fails. A
    /// failure changes nothing.
    pub fn try_link(
        &mut self,
        ctl: StreamId,
        lower: StreamId,
        kind: LinkKind,
    ) -> Result<u32, LinkFault>
        requires ctl { ctl.driver < self.old.drivers }
        requires lower { lower.driver < self.old.drivers }
        ensures answer { IsLinked (refusal self.old ctl lower) self.old result }
        ensures ok { OnOk result (self.new ≡ with_link self.old ctl lower kind) }
        ensures err { OnErr result (self.new ≡ self.old) }
        ensures drivers { self.new.drivers ≡ self.old.drivers }
    {
        if let Some(fault) = self.refusal(ctl, lower) {
            return Err(fault);
        }
        let id = self.next_id;
        let link = Link {
            id,
            ctl,
            lower,
            kind,
        };
        self.links.push(link)?;
        join_link(&mut self.masks, link);
        self.next_id = id + 1;
        Ok(id)
    }

    // Returns the first refusal that applies to a link of `lower` below the driver of `ctl`.
    fn refusal(&self, ctl: StreamId, lower: StreamId) -> Option<LinkFault>
        ensures { result ≡ refusal self.now ctl lower }
    {
        if self.is_below(lower) {
            Some(LinkFault::Already)
        } else if self.leads_back(ctl, lower) {
            Some(LinkFault::Cycle)
        } else if self.is_full() {
            Some(LinkFault::Full)
        } else {
            None
        }
    }

    // Returns whether a link from the driver of `ctl` down to the driver of `lower` would close a cycle.
    fn leads_back(&self, ctl: StreamId, lower: StreamId) -> bool
        ensures { result ≡ ((lower.driver == ctl.driver) || reaches self.now.links lower.driver ctl.driver) }
    {
        lower.driver == ctl.driver || self.reaches(lower.driver, ctl.driver)
    }

    // Returns whether the limit of links is reached, or no id is left.
    fn is_full(&self) -> bool
        ensures { result ≡ (nat_le MAX_LINKS (length self.now.links) || nat_le NUMBER_END self.now.next_id) }
    {
        self.len() >= MAX_LINKS || self.next_id >= NUMBER_END
    }

    /// Removes the link with this id and no other, and returns it. Returns `None` if there is no such link. The next id
    /// doesn't change. Does not allocate.
    pub fn remove(&mut self, id: u32) -> Option<Link>
        ensures link { result ≡ find (λ l. l.id == id) self.old.links }
        ensures rest { self.new ≡ without_id self.old id }
        ensures drivers { self.new.drivers ≡ self.old.drivers }
    {
        let link = self.links.remove(id)?;
        recompute(&mut self.masks, self.links.as_slice());
        Some(link)
    }

    /// Removes the links with these ids and no others. Then recomputes, only once, which drivers each driver reaches.
    /// The next id doesn't change. Does not allocate.
    pub fn remove_each(&mut self, ids: &[u32])
        ensures rest { self.new ≡ without_ids self.old ids.now }
        ensures drivers { self.new.drivers ≡ self.old.drivers }
        ensures sound { IsLinkList self.old }
    {
        self.links.remove_each(ids);
        recompute(&mut self.masks, self.links.as_slice());
    }

    /// Returns the link with this id, if there is one. Does one look-up.
    pub fn get(&self, id: u32) -> Option<&Link>
        ensures value { option_copied result ≡ find (λ l. l.id == id) self.now.links }
        ensures sound { IsLinkList self.now }
    {
        self.links.get(id)
    }

    /// Returns the link that the stream is below, if there is one. Does two look-ups.
    pub fn above(&self, lower: StreamId) -> Option<&Link>
        ensures { option_copied result ≡ find (λ l. same_stream l.lower lower) self.now.links }
    {
        self.links.above(lower)
    }

    /// Returns whether the stream is the lower one of a link. Does one look-up.
    pub fn is_below(&self, lower: StreamId) -> bool
        ensures { result ≡ is_below self.now.links lower }
    {
        self.links.is_below(lower)
    }

    /// Returns all links, by rising id. Does not allocate.
    pub fn links(&self) -> &[Link]
        ensures value { result.now ≡ self.now.links }
        ensures sound { IsLinkList self.now }
    {
        self.links.as_slice()
    }

    /// Returns the link at index `i` of the list of all links, which is sorted by id.
    pub fn at(&self, i: usize) -> Option<&Link>
        ensures { option_copied result ≡ slice_get self.now.links i }
    {
        self.links().get(i)
    }

    /// Returns the number of drivers. The drivers of all links have smaller numbers. Does not allocate.
    pub fn driver_count(&self) -> u8
        ensures count { result ≡ self.now.drivers }
        ensures within { All (IsWithin result) self.now.links }
    {
        self.masks.len() as u8
    }

    /// Returns the number of links.
    pub fn len(&self) -> usize
        ensures count { result ≡ length self.now.links }
        ensures few { result ≤ MAX_LINKS }
    {
        self.links().len()
    }

    /// Returns the id that the next link gets. It is 1 in a new table, and each new link raises it by 1.
    pub fn next_id(&self) -> u32
        ensures { result ≡ self.now.next_id }
    {
        self.next_id
    }

    /// Returns whether a path of at least one link leads from driver a to driver b. Reads one bit.
    pub fn reaches(&self, a: u8, b: u8) -> bool
        ensures { result ≡ reaches self.now.links a b }
    {
        has_bit(&self.masks, a, b)
    }

    /// Returns whether the driver is the upper driver of some link. Reads one word.
    pub fn is_upper(&self, driver: u8) -> bool
        ensures value { result ≡ is_upper self.now.links driver }
        ensures sound { IsLinkList self.now }
    {
        has_any_bit(&self.masks, driver)
    }

    /// Copies the table. The copy gets its memory from this allocator, and keeps the allocator.
    pub fn copy(&self, alloc: Global) -> Result<LinkTable, NoMemory>
        ensures { IfOk result (λ t. t ≡ self.now) }
    {
        Ok(LinkTable {
            masks: Vec::from_slice(alloc, &self.masks)?,
            links: self.links.copy(alloc)?,
            next_id: self.next_id,
        })
    }
}

/// A law, that is, the contract of a function that does nothing: if the only link leads from driver 0 down to driver 2,
/// driver 0 is an upper driver, and driver 2 is not. Without links, driver 0 is not an upper driver.
pub fn a_link_has_one_upper_driver()
    ensures upper { (l : LinkValue) → l.ctl.driver ≡ 0 → is_upper (l ∷ []) 0 ≡ true }
    ensures lower { (l : LinkValue) → l.ctl.driver ≡ 0 → l.lower.driver ≡ 2 → is_upper (l ∷ []) 2 ≡ false }
    ensures none { is_upper [] 0 ≡ false }
{}
