//! The two words and the slot of a shared system, and the steps that seats make on them.

ghost use Rattle.std.specs.Prelude.{◌≡◌, ◌<◌, ◌≤◌, ◌+◌, ◌*◌, ◌%◌, [], true, false, Some, None, IfOk, IfErr, IsOk};
ghost use Rattle.std.specs.Prelude.{OnErr, OnOk};
ghost use Rattle.smx_shared.specs.Calls.{AddsEntry, AnswersEntry, Refuses, EndsAs, GoesOnFrom};
ghost use Rattle.smx_shared.specs.Fronts.{front_of};
ghost use Rattle.smx_shared.specs.Recorded.{IsSoundSystem};
ghost use Rattle.smx_shared.specs.declared.turn_table.TheConstants.{MOST_TRIES};
ghost use Rattle.smx_shared.specs.Seats.{shared_as, HasMetAll};
ghost use Rattle.smx_shared.specs.SeatViews.{first_view, view_beside, without_right, with_next_name, known_of, AddsFor};
ghost use Rattle.smx_shared.specs.SeatViews.{system_of, FoundWord, HasGrown, HasMet, HasTurn, IsAtRest, IsInformed};
ghost use Rattle.smx_shared.specs.SeatViews.{IsWordFrom, RestsAfter};

use crate::entry_sink::EntrySink;
use crate::seat_view::{
    BoxedSystem, Deal, Look, Meet, OneTurn, Publish, SeatView, Start, Take, TakeName,
};
use crate::shared_fault::ApplyFault;
use crate::system::System;
use atomic_table::Table;
use smx_types::{Command, Entry, NoMemory, Process};
use std::alloc::Global;
use std::snapshot::Snapshot;
use std::sync::Wait;
use std::thread::{self, Parker};
use std::time::Duration;

/// A seat, as the table knows it.
pub type Token<K> = atomic_table::Seat<Option<BoxedSystem<K>>, SeatView>;

/// Two words and a slot. The first word has the front and the turn bit, which is set while a seat has the turn. The
/// second word has the number of names that seats have taken; a name is the number of a process. The slot has the
/// system.
#[derive(Drop)]
pub struct TurnTable<K: EntrySink> {
    pub table: Table<Option<BoxedSystem<K>>, SeatView, Start<K>, OneTurn, Global>,
    pub ghost sized: { (table.shared.table_id.words ≡ 2) × (table.shared.table_id.slots ≡ 1) },
}

// The positions of the words and of the slot.
pub const FRONT: usize = 0;

pub const NAMES: usize = 1;

pub const SYSTEM: usize = 0;

// A waiting caller yields `YIELDS` times before it sleeps. From `MOST_TRIES` tries on, its sleeps have the same length.
const YIELDS: u32 = 1;

const MOST_TRIES: u32 = 4;

// The first sleep of a waiting caller, in microseconds.
const SHORTEST_SLEEP: u64 = 200;

// Returns the first word for this system, with the turn bit not set.
fn front_word<K: EntrySink>(system: &System<K>) -> u64
    ensures word { result ≡ front_of system.now.drivers system.now.history }
    ensures sound { IsSoundSystem system.now }
{
    let entries = system.count() as u64;
    let links = u64::from(system.config().link_count());
    4096 * entries + 2 * links
}

// Lets other threads go on, after `tries` failed tries: at first it yields, and later it sleeps, longer each time. It
// always sleeps for the whole time. If it waited for a change of the first word instead, each call of another caller
// would wake it, and many callers would hardly sleep. Returns `tries` + 1, at most `MOST_TRIES`.
fn let_others_go_on<R: Wait>(rt: &R, tries: u32) -> u32
    requires { tries ≤ MOST_TRIES }
    ensures { result ≤ MOST_TRIES }
{
    if tries < YIELDS {
        thread::yield_now();
    } else {
        let dur = Duration::from_micros(SHORTEST_SLEEP << (tries - YIELDS));
        Parker::new().park_timeout(rt, dur);
    }
    (tries + 1).min(MOST_TRIES)
}

impl<K: EntrySink> TurnTable<K> {
    /// Makes a table with the system in its slot, and with the turn free. Also returns the first seat, which may take
    /// the first name.
    pub fn open(
        alloc: Global,
        system: System<K>,
        processes: usize,
    ) -> Result<(TurnTable<K>, Token<K>), NoMemory>
        ensures table { IfOk result (λ r. r.1.table_id ≡ r.0.table.shared.table_id) }
        ensures first { IfOk result (λ r. r.1.me ≡ (first_view system, [])) }
        ensures start { IfOk result (λ r. (r.0.table.shared.key.system.value ≡ system)
            × (r.0.table.shared.key.processes ≡ processes)) }
        ensures sound { IsSoundSystem system }
    {
        let about = Start {
            system: Snapshot::of(&system),
            processes,
        };
        let front = front_word(&system);
        let system = Box::new(alloc, system)?;
        let mut slots = Vec::with_capacity(alloc, 1)?;
        slots.push_reserved(Some(BoxedSystem { system }));
        match Table::new(alloc, &[front, 0], slots, &about) {
            Ok((table, token)) => Ok((TurnTable { table }, token)),
            Err(_) => Err(NoMemory),
        }
    }

    /// Takes the turn if it is free. Otherwise fails with the first word, which shows that the turn is held. Makes one
    /// step on the first word in either case.
    pub fn try_take(&self, token: &mut Token<K>) -> Result<(), u64>
        requires table { token.old.table_id ≡ self.now.table.shared.table_id }
        requires rest { IsAtRest token.old.me }
        requires named { token.old.me.0.named ≡ true }
        ensures table { token.new.table_id ≡ token.old.table_id }
        ensures grown { HasGrown token.old.me.0 token.new.me.0 × (token.new.me.0.own ≡ token.old.me.0.own) }
        ensures taken { OnOk result (HasTurn token.new.me (Some (system_of token.new.me.0))) }
        ensures counted { token.new.me.0.looks ≡ token.old.me.0.looks + 1 }
        ensures held { IfErr result (λ word. RestsAfter token.old.me.0 token.new.me
            × FoundWord token.old.me.0 token.new.me.0 word × (word % 2 ≡ 1)) }
    {
        let word = self.table.shared.fetch_or::<Take>(token, FRONT, 1);
        if word % 2 == 0 { Ok(()) } else { Err(word) }
    }

    /// Waits until the turn is free, and takes it.
    pub fn take<R: Wait>(&self, rt: &R, token: &mut Token<K>)
        requires table { token.old.table_id ≡ self.now.table.shared.table_id }
        requires rest { IsAtRest token.old.me }
        requires named { token.old.me.0.named ≡ true }
        ensures table { token.new.table_id ≡ token.old.table_id }
        ensures grown { HasGrown token.old.me.0 token.new.me.0 × (token.new.me.0.own ≡ token.old.me.0.own) }
        ensures taken { HasTurn token.new.me (Some (system_of token.new.me.0)) }
    {
        let mut tries = 0;
        for _ in rt.forever() {
            match self.try_take(token) {
                Ok(()) => return,
                Err(_) => tries = let_others_go_on(rt, tries),
            }
        }
        unreachable!()
    }

    // Moves the system out of its slot, for the seat that has the turn.
    fn take_out(&self, token: &mut Token<K>) -> BoxedSystem<K>
        requires table { token.old.table_id ≡ self.now.table.shared.table_id }
        requires turn { HasTurn token.old.me (Some (system_of token.old.me.0)) }
        ensures table { token.new.table_id ≡ token.old.table_id }
        ensures turn { (token.new.me.0 ≡ token.old.me.0) × HasTurn token.new.me None }
        ensures system { result ≡ system_of token.old.me.0 }
    {
        match self.table.shared.exchange(token, SYSTEM, None) {
            Some(system) => system,
            None => unreachable!(),
        }
    }

    // Moves the system back into its slot, and then gives the turn back: stores the front of this system as the first
    // word.
    fn give_back(&self, token: &mut Token<K>, system: BoxedSystem<K>)
        requires table { token.old.table_id ≡ self.now.table.shared.table_id }
        requires turn { HasTurn token.old.me None × (token.old.me.0.named ≡ true) }
        requires same { (system.drivers ≡ token.old.me.0.drivers) × (system.limit ≡ token.old.me.0.limit) }
        requires more { AddsFor token.old.me.0.process token.old.me.0.seen system.history }
        ensures table { token.new.table_id ≡ token.old.table_id }
        ensures rest { RestsAfter token.old.me.0 token.new.me }
        ensures seen { token.new.me.0.seen ≡ system.history }
        ensures counted { token.new.me.0.looks ≡ token.old.me.0.looks + 1 }
    {
        let front = front_word(&system.system);
        self.table.shared.exchange(token, SYSTEM, Some(system));
        self.table.shared.store::<Publish>(token, FRONT, front);
    }

    /// Performs a command for the seat that has the turn, and gives the turn back.
    pub fn apply(
        &self,
        token: &mut Token<K>,
        process: Process,
        command: &Command,
    ) -> Result<Entry, ApplyFault>
        requires table { token.old.table_id ≡ self.now.table.shared.table_id }
        requires turn { HasTurn token.old.me (Some (system_of token.old.me.0)) }
        requires named { (token.old.me.0.named ≡ true) × (token.old.me.0.process ≡ process) }
        ensures table { token.new.table_id ≡ token.old.table_id }
        ensures rest { RestsAfter token.old.me.0 token.new.me }
        ensures answer { IfOk result (AnswersEntry (known_of token.old.me.0) (known_of token.new.me.0) command.now) }
        ensures counted { token.new.me.0.looks ≡ token.old.me.0.looks + 1 }
        ensures refused { IfErr result (Refuses (known_of token.old.me.0) (known_of token.new.me.0)) }
    {
        let mut boxed = self.take_out(token);
        let outcome = boxed.system.apply(process, command);
        self.give_back(token, boxed);
        outcome
    }

    /// Performs a command as `apply` does, but doesn't return the entry.
    pub fn perform(
        &self,
        token: &mut Token<K>,
        process: Process,
        command: &mut Command,
    ) -> Result<(), ApplyFault>
        requires table { token.old.table_id ≡ self.now.table.shared.table_id }
        requires turn { HasTurn token.old.me (Some (system_of token.old.me.0)) }
        requires named { (token.old.me.0.named ≡ true) × (token.old.me.0.process ≡ process) }
        ensures table { token.new.table_id ≡ token.old.table_id }
        ensures rest { RestsAfter token.old.me.0 token.new.me }
        ensures added { OnOk result (AddsEntry (known_of token.old.me.0) command.old (known_of token.new.me.0)) }
        ensures counted { token.new.me.0.looks ≡ token.old.me.0.looks + 1 }
        ensures refused { IfErr result (Refuses (known_of token.old.me.0) (known_of token.new.me.0)) }
        ensures kept { OnErr result (command.new ≡ command.old) }
    {
        let mut boxed = self.take_out(token);
        let outcome = boxed.system.perform(process, command);
        self.give_back(token, boxed);
        outcome
    }
}
