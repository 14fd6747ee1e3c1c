//! Receivers of the entries of a history: a vector keeps them all, and `EntryCount` only counts them.

ghost use Rattle.std.specs.Borrow.{ftrue};
ghost use Rattle.std.specs.Prelude.{◌≡◌, ◌<◌, ◌++◌, ◌∷◌, [], List, length, vec_capacity, OnOk};
ghost use Rattle.smx_types.specs.declared.command.Entry.{Entry as Made};
ghost use Rattle.smx_types.specs.declared.limits.TheConstants.{MAX_COMMANDS};

use smx_types::{Command, Entries, Entry, NoMemory, Process, Reply};
use std::marker::{Model, PhantomData};
use std::mem::replace;

/// Receives the entries of a history, in order, and keeps only what it needs of them.
pub trait EntrySink: Drop {
    // All entries that the sink was given.
    ghost entries: { Self → List Made };

    // Whether the sink has room for another entry.
    ghost has_room: { Self → Type 0 };

    /// Returns how many entries the sink was given. Takes no memory.
    fn count(&self) -> usize
        ensures { result ≡ length (entries self.now) };

    /// Makes room for another entry, but adds no entry. Fails if an allocation fails.
    fn make_room(&mut self) -> Result<(), NoMemory>
        ensures same { entries self.new ≡ entries self.old }
        ensures room { OnOk result (has_room self.new) };

    /// Adds the next entry. Requires that there is room for it, so this call can't fail. A sink that keeps the command
    /// or the reply moves it out, and leaves any other value in its place.
    fn add(&mut self, process: Process, command: &mut Command, reply: &mut Reply)
        requires room { has_room self.old }
        requires few { length (entries self.old) < MAX_COMMANDS }
        ensures { entries self.new ≡ entries self.old
            ++ record { process = process; command = command.old; reply = reply.old } ∷ [] };
}

/// Keeps all entries.
impl EntrySink for Vec<Entry> {
    ghost entries = { λ v. v.items };

    ghost has_room = { λ v. length v.items < vec_capacity v };

    fn count(&self) -> usize {
        self.len()
    }

    fn make_room(&mut self) -> Result<(), NoMemory> {
        self.reserve(1)?;
        Ok(())
    }

    fn add(&mut self, process: Process, command: &mut Command, reply: &mut Reply) {
        self.push_reserved(Entry {
            process,
            command: replace(command, Command::CloseAll),
            reply: replace(reply, Reply::Eof),
        });
    }
}

/// Counts the entries that it is given, and keeps none of them. But contracts see the list of these entries.
#[derive(Drop)]
pub struct EntryCount {
    count: usize,
    entries: GhostValue<Entries>,
}

impl Model for EntryCount {
    ghost Value = { List Made };

    ghost view = { λ c. c.entries.value };

    ghost invariant = { λ c. c.count ≡ length c.entries.value };
}

impl EntryCount {
    /// Makes a count of no entries. Takes no memory.
    pub fn new() -> EntryCount
        ensures { result ≡ [] }
    {
        EntryCount {
            count: 0,
            entries: GhostValue::new(&()),
        }
    }
}

impl EntrySink for EntryCount {
    ghost entries = { λ c. c };

    ghost has_room = { λ _. Unit {0} };

    fn count(&self) -> usize {
        self.count
    }

    fn make_room(&mut self) -> Result<(), NoMemory> {
        Ok(())
    }

    fn add(&mut self, process: Process, command: &mut Command, reply: &mut Reply) {
        let entry = GhostValue::<Entry>::new(&(process, &*command, &*reply));
        self.entries = GhostValue::new(&(&self.entries, &entry));
        self.count += 1;
    }
}

/// A value of type `T` that exists only in proofs: contracts read it as `value`. It takes no memory, and does nothing
/// at run time.
pub struct GhostValue<T> {
    of: PhantomData<T>,
    pub ghost value: { T },
}

impl<T> Model for GhostValue<T> {
    ghost also_owns = { λ _. ftrue };
}

// A `GhostValue` owns nothing.
unsafe impl<T> Send for GhostValue<T> {}

impl<T> Drop for GhostValue<T> {
    fn drop(self) {
        let Self { of: _ } = self;
    }
}

impl<T> GhostValue<T> {
    /// Makes a value that the caller's proof chooses. The proof may build it from the argument.
    pub fn new<A>(_from: &A) -> GhostValue<T>
        ghost value: { T }
        ensures { result.value ≡ value }
    {
        GhostValue { of: PhantomData }
    }
}
