//! A system that many threads share: they take turns, and look without waiting.

ghost use Rattle.std.specs.Prelude.{◌≡◌, ◌≤◌, ◌+◌, [], map, vec_capacity, IfOk, IfErr, IsOk, OnErr, OnOk};
ghost use Rattle.std.specs.List.{range_with_len};
ghost use Rattle.smx_types.specs.declared.limits.TheConstants.{MAX_PROCESSES};
ghost use Rattle.smx_shared.specs.Calls.{AddsEntry, AnswersEntry, EndsAs, GoesOnFrom, HasSeenMore, LooksOnce, Meets};
ghost use Rattle.smx_shared.specs.Calls.{Refuses, RefusesTry, Rests};
ghost use Rattle.smx_shared.specs.CloseFaults.{IsHeld};
ghost use Rattle.smx_shared.specs.Recorded.{IsSoundSystem};
ghost use Rattle.smx_shared.specs.SeatViews.{first_view, seated_of, IsSeatOf};
ghost use Rattle.smx_shared.specs.Seats.{first_seat, shared_as, HasMetAll, Seated, SharedAs};

use crate::door::Door;
use crate::entry_sink::EntrySink;
use crate::front::Front;
use crate::seat_view::{Deal, Look, Meet, TakeName};
use crate::shared_fault::{ApplyFault, CloseFault, TryFault};
use crate::system::System;
use crate::turn_table::{FRONT, NAMES, SYSTEM, Token, TurnTable};
use smx_types::{Command, Entry, NoMemory, Process};
use std::alloc::Global;
use std::marker::Model;
use std::sync::Wait;

/// Code that runs while the seat of a call has the turn. The call runs this code once, right before it performs its
/// command. No other seat can have the turn before this code returns.
pub trait Hold {
    /// Runs while the turn is held.
    fn inside(&self);
}

/// The right to perform the commands of one process on a shared system. Contracts also see the part of the history that
/// the seat has seen. A seat takes a few bytes. It may be sent to another thread, or dropped.
#[derive(Drop)]
pub struct Seat<K: EntrySink = Vec<Entry>> {
    process: Process,
    token: Token<K>,
}

impl<K: EntrySink> Model for Seat<K> {
    ghost Value = { Seated };

    ghost view = { λ s. seated_of s.token.table_id s.token.me.0 };

    ghost invariant = { λ s. IsSeatOf s.process s.token.me };
}

/// A system that many threads share: they take turns, and each call adds one entry. Contracts see a name that no other
/// shared system has, the system as it was when it was shared, and the number of processes. They see later entries only
/// through seats: a seat knows the history that it has seen.
pub struct Shared<K: EntrySink = Vec<Entry>> {
    turns: TurnTable<K>,
}

impl<K: EntrySink> Drop for Shared<K> {
    // Written by hand, so that functions drop a shared system with one call, not part by part.
    fn drop(self) {
        let Shared { turns: _turns } = self;
    }
}

impl<K: EntrySink> Model for Shared<K> {
    ghost Value = { SharedAs };

    ghost view = { λ s. shared_as s.turns.table.shared.table_id s.turns.table.shared.key.system.value
        s.turns.table.shared.key.processes };
}

impl<K: EntrySink> Shared<K> {
    /// Shares a system among `processes` processes, 1 to 64, and returns a seat for each, from process 0 on. Fails if
    /// an allocation fails. Each seat takes the next name, which is the number of its process. It then splits off the
    /// next seat, which may take the name after that one.
    pub fn start(
        alloc: Global,
        system: System<K>,
        processes: usize,
    ) -> Result<(Shared<K>, Vec<Seat<K>>), NoMemory>
        requires { (1 ≤ processes) × (processes ≤ MAX_PROCESSES) }
        ensures shared { IfOk result (λ r. (r.0.start ≡ system) × (r.0.processes ≡ processes)) }
        ensures seats { IfOk result (λ r. r.1.items ≡ map (first_seat r.0.name system) (range_with_len 0 processes)) }
        ensures sound { IfOk result (λ _. IsSoundSystem system) }
    {
        let mut seats = Vec::with_capacity(alloc, processes)?;
        let (turns, mut token) = TurnTable::open(alloc, system, processes)?;
        for number in 0..processes {
            let process = Process::new(number as u32).unwrap();
            turns
                .table
                .shared
                .fetch_add::<TakeName>(&mut token, NAMES, 1);
            let next = turns.table.shared.split_seat::<Deal>(&mut token);
            seats.push_reserved(Seat { process, token });
            token = next;
        }
        Ok((Shared { turns }, seats))
    }

    /// Performs a command as `call` does, without waiting. Fails with `Busy` if another seat has the turn, and
    /// otherwise as `call` does. A failure adds no entry. The allocator isn't used: the system has one already.
    pub fn try_call(
        &self,
        _alloc: Global,
        seat: &mut Seat<K>,
        command: &Command,
    ) -> Result<Entry, TryFault>
        requires { seat.old.shared ≡ self.now.name }
        ensures rests { Rests seat.old seat.new }
        ensures met { seat.new.met ≡ seat.old.met }
        ensures seen { HasSeenMore seat.old.known seat.new.known }
        ensures answer { IfOk result (AnswersEntry seat.old.known seat.new.known command.now) }
        ensures steps { OnOk result (seat.new.looks ≡ seat.old.looks + 2) }
        ensures refused { IfErr result (RefusesTry seat.old seat.new) }
    {
        if let Err(word) = self.turns.try_take(&mut seat.token) {
            return Err(TryFault::Busy(Front::read(word)));
        }
        Ok(self.turns.apply(&mut seat.token, seat.process, command)?)
    }

    /// Performs a command as `call` does, and calls `hold` once while it has the turn. The allocator isn't used, as in
    /// `try_call`.
    pub fn call_holding<R: Wait, H: Hold>(
        &self,
        rt: &R,
        _alloc: Global,
        seat: &mut Seat<K>,
        command: &Command,
        hold: &H,
    ) -> Result<Entry, ApplyFault>
        requires { seat.old.shared ≡ self.now.name }
        ensures rests { Rests seat.old seat.new }
        ensures met { seat.new.met ≡ seat.old.met }
        ensures seen { HasSeenMore seat.old.known seat.new.known }
        ensures answer { IfOk result (AnswersEntry seat.old.known seat.new.known command.now) }
        ensures refused { IfErr result (Refuses seat.old.known seat.new.known) }
    {
        self.turns.take(rt, &mut seat.token);
        hold.inside();
        self.turns.apply(&mut seat.token, seat.process, command)
    }

    /// Lets `seat` take over everything that `other` has seen. `other` is given up. Doesn't wait, and takes no memory.
    pub fn meet(&self, seat: &mut Seat<K>, other: Seat<K>)
        requires { (seat.old.shared ≡ self.now.name) × (other.shared ≡ self.now.name) }
        ensures rests { Rests seat.old seat.new }
        ensures seen { HasSeenMore seat.old.known seat.new.known }
        ensures meets { Meets seat.old other seat.new }
    {
        let shared = &self.turns.table.shared;
        shared.join_seat::<Meet>(&mut seat.token, other.token);
        shared.load::<Look>(&mut seat.token, FRONT);
    }

    /// Returns the system with its whole history, after all its callers have ended. Fails only if a turn was never
    /// given back. The system is then dropped, and the fault has the front, with its mark that a seat has the turn.
    /// Never fails for a seat that has met the seats of all other processes. Takes no memory.
    pub fn close(self, seat: Seat<K>) -> Result<System<K>, CloseFault>
        requires { seat.shared ≡ self.name }
        ensures ends { IfOk result (EndsAs seat.known seat.met) }
        ensures begun { IfOk result (GoesOnFrom self) }
        ensures held { IfErr result (IsHeld seat.known) }
        ensures alone { HasMetAll self.processes seat.known seat.met → IsOk result }
    {
        let Shared {
            turns: TurnTable { table },
        } = self;
        let mut closed = table.close_with(seat.token);
        let word = closed.word(FRONT);
        let slot = closed.take(SYSTEM);
        closed.free();
        if word % 2 != 0 {
            return Err(CloseFault::Held(Front::read(word)));
        }
        match slot {
            Some(boxed) => Ok(Box::into_inner(boxed.system)),
            None => unreachable!(),
        }
    }
}

impl<K: EntrySink> Door for Shared<K> {
    type Seat = Seat<K>;

    ghost is_seat = { λ d s. s.shared ≡ d.name };

    ghost known = { λ s. s.known };

    fn process(seat: &Seat<K>) -> Process {
        seat.process
    }

    fn call<R: Wait>(
        &self,
        rt: &R,
        _alloc: Global,
        seat: &mut Seat<K>,
        command: &Command,
    ) -> Result<Entry, ApplyFault>
        requires { seat.old.shared ≡ self.now.name }
        ensures rests { Rests seat.old seat.new }
        ensures met { seat.new.met ≡ seat.old.met }
        ensures seen { HasSeenMore seat.old.known seat.new.known }
        ensures answer { IfOk result (AnswersEntry seat.old.known seat.new.known command.now) }
        ensures refused { IfErr result (Refuses seat.old.known seat.new.known) }
    {
        self.turns.take(rt, &mut seat.token);
        self.turns.apply(&mut seat.token, seat.process, command)
    }

    fn perform<R: Wait>(
        &self,
        rt: &R,
        _alloc: Global,
        seat: &mut Seat<K>,
        command: &mut Command,
    ) -> Result<(), ApplyFault>
        requires { seat.old.shared ≡ self.now.name }
        ensures rests { Rests seat.old seat.new }
        ensures met { seat.new.met ≡ seat.old.met }
        ensures seen { HasSeenMore seat.old.known seat.new.known }
        ensures added { OnOk result (AddsEntry seat.old.known command.old seat.new.known) }
        ensures refused { IfErr result (Refuses seat.old.known seat.new.known) }
        ensures kept { OnErr result (command.new ≡ command.old) }
    {
        self.turns.take(rt, &mut seat.token);
        self.turns.perform(&mut seat.token, seat.process, command)
    }

    fn glance(&self, seat: &mut Seat<K>) -> Front
        requires { seat.old.shared ≡ self.now.name }
        ensures rests { Rests seat.old seat.new }
        ensures met { seat.new.met ≡ seat.old.met }
        ensures seen { HasSeenMore seat.old.known seat.new.known }
        ensures front { LooksOnce seat.old seat.new result }
    {
        Front::read(self.turns.table.shared.load::<Look>(&mut seat.token, FRONT))
    }
}
