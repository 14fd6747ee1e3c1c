//! The state that the proofs keep of each seat, the rule of the turn, and the kinds of step that keep this rule.

ghost use Rattle.smx_shared.specs.Recorded.{Recorded};
ghost use Rattle.smx_shared.specs.SeatViews.{after_meeting, first_view, spent_view, view_beside, without_right};
ghost use Rattle.smx_shared.specs.SeatViews.{Looked, Published, Taken, TookName};
ghost use Rattle.smx_shared.specs.TurnRule.{TurnRule};

use crate::entry_sink::EntrySink;
use crate::system::System;
use atomic_table::{Join, Play, Split, TableRule};
use smx_types::{DriverSpec, Entry};
use std::collections::LinkedList;
use std::marker::Model;
use std::snapshot::Snapshot;

/// The knowledge, rights and steps of a seat. It exists only in proofs: no value of it is made.
pub struct SeatView {
    /// The drivers and the limit that the system was shared with.
    pub drivers: LinkedList<DriverSpec>,
    pub limit: usize,
    /// The process whose commands the seat performs, once the seat has a name.
    pub process: u64,
    /// The history that the seat has seen.
    pub seen: LinkedList<Entry>,
    /// The entries of its process that were made with the seat, or before the seat was made.
    pub own: LinkedList<Entry>,
    /// The value that the seat's last step on the first word found there (or stored there, if the step was a store),
    /// and the number of its steps on that word.
    pub last: u64,
    pub looks: u64,
    /// Whether the seat has the turn.
    pub turn: bool,
    /// The seats that this seat met, and those that they had met.
    pub met: LinkedList<MetSeat>,
    /// Whether the seat was given up in a meeting.
    pub spent: bool,
    /// Whether the seat has a name.
    pub named: bool,
    /// Whether the seat may take the next name; and the next name itself.
    pub may_name: bool,
    pub next: u64,
}

/// A seat that was given up in a meeting. No value of it is made.
pub struct MetSeat {
    /// The drivers and the limit that the seat knew.
    pub drivers: LinkedList<DriverSpec>,
    pub limit: usize,
    /// Its process.
    pub process: u64,
    /// The history that the seat had seen.
    pub seen: LinkedList<Entry>,
    /// The entries of its process that were made with the seat, or before the seat was made.
    pub own: LinkedList<Entry>,
}

/// A system in a box, so that a turn moves a pointer and not the system. Contracts see the system itself.
#[derive(Drop)]
pub struct BoxedSystem<K: EntrySink> {
    pub system: Box<System<K>>,
}

impl<K: EntrySink> Model for BoxedSystem<K> {
    ghost Value = { Recorded };

    ghost view = { λ b. b.system.value };
}

/// The rule of the turn.
pub struct OneTurn;

/// The system as it was when it was shared, and the number of processes.
#[derive(Drop)]
pub struct Start<K: EntrySink> {
    pub system: Snapshot<System<K>>,
    pub processes: usize,
}

impl<K: EntrySink> TableRule<Option<BoxedSystem<K>>, SeatView, Start<K>> for OneTurn {
    ghost holds = { λ start. TurnRule start.system.value.drivers start.system.value.limit start.system.value.history
        start.processes };

    ghost first = { λ start. first_view start.system.value };
}

/// Loads the first word.
pub struct Look;

impl<K: EntrySink> Play<Option<BoxedSystem<K>>, SeatView> for Look {
    ghost then = { Looked };
}

/// Sets the turn bit of the first word, and returns the value that the word had before.
pub struct Take;

impl<K: EntrySink> Play<Option<BoxedSystem<K>>, SeatView> for Take {
    ghost then = { Taken };
}

/// Stores the first word. This gives the turn back, and publishes the new entry, if there is one.
pub struct Publish;

impl<K: EntrySink> Play<Option<BoxedSystem<K>>, SeatView> for Publish {
    ghost then = { Published };
}

/// Adds 1 to the second word. The number that the word had before is the name that the seat takes.
pub struct TakeName;

impl<K: EntrySink> Play<Option<BoxedSystem<K>>, SeatView> for TakeName {
    ghost then = { TookName };
}

/// Splits a new seat off another one.
pub struct Deal;

impl Split<SeatView> for Deal {
    ghost left = { without_right };

    ghost right = { view_beside };
}

/// Joins two seats: the first takes over what the other has seen, and the other is spent.
pub struct Meet;

impl Join<SeatView> for Meet {
    ghost both = { after_meeting };

    ghost spent = { spent_view };
}
