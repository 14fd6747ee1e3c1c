//! The routes of all drivers.

ghost use Rattle.std.specs.Prelude.{◌≡◌, ◌==◌, ℕ, true, false, not, List, [], filter, find, length, IfOk, OnOk, OnErr};
ghost use Rattle.std.specs.List.{list_any, IsDistinct};
ghost use Rattle.std.specs.Map.{keys_of, lookup};
ghost use Rattle.smx_types.specs.declared.link.Route.{Route as RouteValue};
ghost use Rattle.smx_model.specs.Configuration.{route_before};
ghost use Rattle.smx_model.specs.Ordered.{with_inserted};
ghost use Rattle.smx_addresses.specs.Keys.{Key as AnyKey, is_key, left_of};
ghost use Rattle.smx_addresses.specs.RouteLists.{is_route, IsRouteList};
ghost use Rattle.smx_addresses.specs.TableFields.{routes_of, AreRoutes};
ghost use Rattle.smx_addresses.specs.Targets.{is_target, IsTargetSet};

use crate::bindings::Key;
use indexmap::{IndexMap, IndexSet};
use smx_types::{NoMemory, Route};
use std::alloc::Global;
use std::marker::Model;

// A map from the id of a link to the set of the keys (driver and address) that are routed to this link now. If a link
// loses its last route by `drop_target`, its set stays, and is empty.
type Targets = IndexMap<u32, IndexSet<Key>>;

// Adds a key to the set of a link, if the set doesn't have it. If the link has no set, makes one.
fn put_target(targets: &mut Targets, id: u32, key: Key) -> Result<(), NoMemory>
    ensures ok { OnOk result (IsTargetSet targets.old.entries targets.new.entries id key true) }
    ensures err { OnErr result ((i : ℕ) (k : AnyKey) →
        is_target targets.new.entries i k ≡ is_target targets.old.entries i k) }
{
    if let Some(keys) = targets.get_mut(&id) {
        let _new = keys.insert(key)?;
        return Ok(());
    }
    let mut keys = IndexSet::new(*targets.allocator());
    let _new = keys.insert(key)?;
    targets.insert(id, keys)?;
    Ok(())
}

// Removes a key from the set of a link.
fn drop_target(targets: &mut Targets, id: u32, key: Key)
    ensures { IsTargetSet targets.old.entries targets.new.entries id key false }
{
    if let Some(keys) = targets.get_mut(&id) {
        let _was = keys.swap_remove(&key);
    }
}

/// For each driver and address, the link to which the address is routed. Contracts see the list of routes, sorted by
/// driver and address.
#[derive(Debug)]
pub struct Routes {
    // The link id for each driver and address.
    ids: IndexMap<Key, u32>,
    // The keys of the routes to each link.
    targets: Targets,
}

impl Drop for Routes {
    // Written by hand, so that functions drop routes with one call, not part by part.
    fn drop(self) {
        let Routes {
            ids: _ids,
            targets: _targets,
        } = self;
    }
}

impl Model for Routes {
    ghost Value = { List RouteValue };

    ghost view = { λ t. routes_of t.ids.entries };

    ghost invariant = { λ t. AreRoutes t.ids.entries t.targets.entries };
}

// Removes the entries at these keys.
fn take_each(ids: &mut IndexMap<Key, u32>, keys: &[Key])
    requires { IsDistinct is_key (keys_of ids.old.entries) }
    ensures rest { (q : AnyKey) → lookup (is_key q) ids.new.entries
        ≡ left_of keys.now q (lookup (is_key q) ids.old.entries) }
    ensures unique { IsDistinct is_key (keys_of ids.new.entries) }
{
    for key in keys {
        let _id = ids.swap_remove(key);
    }
}

impl Routes {
    /// Makes an empty table, which keeps the allocator.
    pub fn new(alloc: Global) -> Routes
        ensures { result ≡ [] }
    {
        Routes {
            ids: IndexMap::new(alloc),
            targets: IndexMap::new(alloc),
        }
    }

    /// Returns the route of a driver's address, if there is one. Does one look-up.
    pub fn at(&self, driver: u8, addr: u32) -> Option<Route>
        ensures { result ≡ find (is_route driver addr) self.now }
    {
        let id = *self.ids.get(&(driver, addr))?;
        Some(Route { driver, addr, id })
    }

    /// Routes a driver's address to a link. This replaces any earlier route of the address. Fails only if out of
    /// memory, and then changes nothing.
    pub fn route(&mut self, driver: u8, addr: u32, id: u32) -> Result<(), NoMemory>
        ensures ok { OnOk result (self.new ≡ with_inserted route_before
            (filter (λ r. not (is_route driver addr r)) self.old)
            (record { driver = driver; addr = addr; id = id })) }
        ensures err { OnErr result (self.new ≡ self.old) }
    {
        let key = (driver, addr);
        self.ids.reserve(1)?;
        put_target(&mut self.targets, id, key)?;
        if let Some(before) = self.ids.insert(key, id).unwrap() {
            if before != id {
                drop_target(&mut self.targets, before, key);
            }
        }
        Ok(())
    }

    /// Removes the route of the address and no other, and returns it. Returns `None` if the address has no route. Does
    /// not allocate.
    pub fn unroute(&mut self, driver: u8, addr: u32) -> Option<Route>
        ensures route { result ≡ find (is_route driver addr) self.old }
        ensures rest { self.new ≡ filter (λ r. not (is_route driver addr r)) self.old }
    {
        let key = (driver, addr);
        let id = self.ids.swap_remove(&key)?;
        drop_target(&mut self.targets, id, key);
        Some(Route { driver, addr, id })
    }

    /// Removes all routes to a link, and no others. Takes time proportional to the number of these routes. Does not
    /// allocate.
    pub fn unroute_link(&mut self, id: u32)
        ensures { self.new ≡ filter (λ r. not (r.id == id)) self.old }
    {
        if let Some(keys) = self.targets.swap_remove(&id) {
            take_each(&mut self.ids, keys.as_slice());
        }
    }

    /// Removes all routes to each of these links, and no others.
    pub fn unroute_links(&mut self, ids: &[u32])
        ensures { self.new ≡ filter (λ r. not (list_any (λ id. r.id == id) ids.now)) self.old }
    {
        for id in ids {
            self.unroute_link(*id);
        }
    }

    /// Returns the number of routes.
    pub fn len(&self) -> usize
        ensures { result ≡ length self.now }
    {
        self.ids.len()
    }

    /// Returns whether there are no routes.
    pub fn is_empty(&self) -> bool
        ensures { result ≡ (length self.now == 0) }
    {
        self.len() == 0
    }

    /// Returns the routes, sorted by driver and address.
    pub fn list(&self, alloc: Global) -> Result<Vec<Route>, NoMemory>
        ensures value { IfOk result (λ v. v.items ≡ self.now) }
        ensures order { IfOk result (λ v. IsRouteList v.items) }
    {
        let mut list = Vec::with_capacity(alloc, self.ids.len())?;
        for (key, id) in self.ids.iter() {
            list.push(Route {
                driver: key.0,
                addr: key.1,
                id: *id,
            })?;
        }
        list.sort_unstable_by_key(|r| (r.driver, r.addr));
        Ok(list)
    }

    /// Copies the table. The copy gets its memory from this allocator, and keeps the allocator.
    pub fn copy(&self, alloc: Global) -> Result<Routes, NoMemory>
        ensures { IfOk result (λ t. t ≡ self.now) }
    {
        let list = self.list(alloc)?;
        let mut copy = Routes::new(alloc);
        for route in &list {
            copy.route(route.driver, route.addr, route.id)?;
        }
        Ok(copy)
    }
}
