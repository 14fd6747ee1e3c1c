//! The bindings of all drivers.

ghost use Rattle.std.specs.Prelude.{◌≡◌, ◌==◌, ◌&&◌, false, not, List, [], filter, find, length, IfOk, OnOk, OnErr};
ghost use Rattle.smx_types.specs.declared.link.Binding.{Binding as BindingValue};
ghost use Rattle.smx_model.specs.Configuration.{bind_before};
ghost use Rattle.smx_model.specs.Ordered.{with_inserted};
ghost use Rattle.smx_addresses.specs.BindingLists.{is_binding_of, is_taken, IsBindingList};
ghost use Rattle.smx_addresses.specs.TableFields.{bindings_of, AreBindings};

use indexmap::IndexMap;
use smx_types::{Binding, NoMemory, StreamId};
use std::alloc::Global;
use std::marker::Model;

/// The number of a driver, and an address or a minor.
pub type Key = (u8, u32);

// Returns the stream as a key.
fn key_of(stream: StreamId) -> Key
    ensures { result ≡ (stream.driver, stream.minor) }
{
    (stream.driver, u32::from(stream.minor))
}

/// For each driver and address, the stream that is bound to the address. Contracts see the list of bindings, sorted by
/// driver and address.
#[derive(Debug)]
pub struct Bindings {
    // The minor for each driver and address.
    minors: IndexMap<Key, u8>,
    // The address for each driver and minor.
    addrs: IndexMap<Key, u32>,
}

impl Drop for Bindings {
    // Written by hand, so that functions drop bindings with one call, not part by part.
    fn drop(self) {
        let Bindings {
            minors: _minors,
            addrs: _addrs,
        } = self;
    }
}

impl Model for Bindings {
    ghost Value = { List BindingValue };

    ghost view = { λ t. bindings_of t.minors.entries };

    ghost invariant = { λ t. AreBindings t.minors.entries t.addrs.entries };
}

impl Bindings {
    /// Makes an empty table, which keeps the allocator.
    pub fn new(alloc: Global) -> Bindings
        ensures { result ≡ [] }
    {
        Bindings {
            minors: IndexMap::new(alloc),
            addrs: IndexMap::new(alloc),
        }
    }

    /// Returns the binding of a driver's address, if there is one. Does one look-up.
    pub fn at(&self, driver: u8, addr: u32) -> Option<Binding>
        ensures { result ≡ find (λ b. (b.driver == driver) && (b.addr == addr)) self.now }
    {
        let minor = *self.minors.get(&(driver, addr))?;
        Some(Binding {
            driver,
            addr,
            minor,
        })
    }

    /// Returns the binding of a stream, if there is one. Does one look-up.
    pub fn of(&self, stream: StreamId) -> Option<Binding>
        ensures { result ≡ find (is_binding_of stream) self.now }
    {
        let addr = *self.addrs.get(&key_of(stream))?;
        Some(Binding {
            driver: stream.driver,
            addr,
            minor: stream.minor,
        })
    }

    /// Returns whether this stream can't be bound to the address: some stream of its driver is bound to the address, or
    /// this stream is bound already. Does at most two look-ups.
    pub fn is_taken(&self, stream: StreamId, addr: u32) -> bool
        ensures { result ≡ is_taken self.now stream addr }
    {
        self.minors.contains_key(&(stream.driver, addr)) || self.addrs.contains_key(&key_of(stream))
    }

    /// Binds a stream to an address. The stream must not be bound, and no stream of its driver may be bound to the
    /// address. Fails only if out of memory, and then changes nothing.
    pub fn bind(&mut self, stream: StreamId, addr: u32) -> Result<(), NoMemory>
        requires { is_taken self.old stream addr ≡ false }
        ensures ok { OnOk result (self.new ≡ with_inserted bind_before self.old
            (record { driver = stream.driver; addr = addr; minor = stream.minor })) }
        ensures err { OnErr result (self.new ≡ self.old) }
    {
        self.minors.reserve(1)?;
        self.addrs.reserve(1)?;
        self.minors
            .insert((stream.driver, addr), stream.minor)
            .unwrap();
        self.addrs.insert(key_of(stream), addr).unwrap();
        Ok(())
    }

    /// Removes the binding of the stream and no other, and returns it. Returns `None` if the stream has no binding.
    /// Does not allocate.
    pub fn unbind(&mut self, stream: StreamId) -> Option<Binding>
        ensures binding { result ≡ find (is_binding_of stream) self.old }
        ensures rest { self.new ≡ filter (λ b. not (is_binding_of stream b)) self.old }
    {
        let addr = self.addrs.swap_remove(&key_of(stream))?;
        let _minor = self.minors.swap_remove(&(stream.driver, addr));
        Some(Binding {
            driver: stream.driver,
            addr,
            minor: stream.minor,
        })
    }

    /// Returns the number of bindings.
    pub fn len(&self) -> usize
        ensures { result ≡ length self.now }
    {
        self.minors.len()
    }

    /// Returns whether there are no bindings.
    pub fn is_empty(&self) -> bool
        ensures { result ≡ (length self.now == 0) }
    {
        self.len() == 0
    }

    /// Returns the bindings, sorted by driver and address. No stream has two bindings.
    pub fn list(&self, alloc: Global) -> Result<Vec<Binding>, NoMemory>
        ensures value { IfOk result (λ v. v.items ≡ self.now) }
        ensures order { IfOk result (λ v. IsBindingList v.items) }
    {
        let mut list = Vec::with_capacity(alloc, self.minors.len())?;
        for (key, minor) in self.minors.iter() {
            list.push(Binding {
                driver: key.0,
                addr: key.1,
                minor: *minor,
            })?;
        }
        list.sort_unstable_by_key(|b| (b.driver, b.addr));
        Ok(list)
    }

    /// Copies the table. The copy gets its memory from this allocator, and keeps the allocator.
    pub fn copy(&self, alloc: Global) -> Result<Bindings, NoMemory>
        ensures { IfOk result (λ t. t ≡ self.now) }
    {
        let list = self.list(alloc)?;
        let mut copy = Bindings::new(alloc);
        for binding in &list {
            let stream = StreamId {
                driver: binding.driver,
                minor: binding.minor,
            };
            copy.bind(stream, binding.addr)?;
        }
        Ok(copy)
    }
}
