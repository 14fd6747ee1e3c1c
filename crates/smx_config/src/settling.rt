//! Settling: moves messages on to other places until no message can move.

ghost use Rattle.std.specs.Prelude.{◌≡◌, ◌<◌, true, IfNone, IfSome, Some};
ghost use Rattle.smx_types.specs.declared.stream.Place.{Place as PlaceValue};
ghost use Rattle.smx_model.specs.KeptConfigurations.{IsSound};
ghost use Rattle.smx_model.specs.Settling.{after_move, after_settling};
ghost use Rattle.smx_queues.specs.Bits.{bit_count, has_bit};
ghost use Rattle.smx_config.specs.Marking.{AreMarks, HasNoBit, IsAt, IsMarkedUnless, IsNumber};
ghost use Rattle.smx_config.specs.Moves.{IsFullAt, IsLeastMove, IsNextOf, IsOpenAt, IsOpenMove};
ghost use Rattle.smx_config.specs.Ways.{AreHops};

use crate::hops::{Hops, next_of_first};
use crate::marks::Marks;
use crate::waking::release_if_open;
use smx_queues::Bits;
use smx_tables::Tables;

// A move of a message from one place to another. Both places are given by their numbers.
#[derive(Clone, Copy)]
pub struct Move {
    pub from: usize,
    pub to: usize,
}

// Returns the number `next`, if there is one and its place is not full.
fn if_open(tables: &Tables, next: Option<usize>) -> Option<usize>
    requires { IfSome next (IsNumber tables.now.drivers) }
    ensures same { IfSome result (λ n. next ≡ Some n) }
    ensures open { IfSome result (IsOpenAt tables.now.drivers tables.now.configuration) }
    ensures full { IfNone result (IfSome next (IsFullAt tables.now.drivers tables.now.configuration)) }
{
    let n = next?;
    if tables.queues().is_full_at(n) {
        None
    } else {
        Some(n)
    }
}

// Clears the run mark of the place `from`, whose first message can't move on. (A run mark says that the first message
// of a place may be able to move.) Requires that the next place of this message, if there is one, is full. `from` is
// then noted as waiting for that next place.
fn clear_mark(tables: &Tables, marks: &mut Marks, from: usize, next: Option<usize>)
    requires marks { AreMarks tables.now.drivers tables.now.configuration marks.old }
    requires number { IsNumber tables.now.drivers from }
    requires marked { has_bit marks.old.run from ≡ true }
    requires next_number { IfSome next (IsNumber tables.now.drivers) }
    requires next { (p : PlaceValue) → IsAt tables.now.drivers from p
        → IsNextOf tables.now.drivers tables.now.configuration p next }
    requires stays { IfSome next (IsFullAt tables.now.drivers tables.now.configuration) }
    ensures marks { AreMarks tables.now.drivers tables.now.configuration marks.new }
    ensures fewer { bit_count marks.new.run < bit_count marks.old.run }
{
    marks.run.clear(from);
    if let Some(to) = next {
        marks.wanted.set(to);
        marks.waits.enter(from, to);
    }
}

// Finds the place with the lowest number whose first message can move, and returns this move. Looks only at places with
// a run mark. Clears the run marks of the places before the found place. If no message can move, returns `None` and
// clears all run marks.
#[inline(always)]
fn next_move(tables: &Tables, marks: &mut Marks, hops: &mut Hops) -> Option<Move>
    requires sound { IsSound tables.now.drivers tables.now.configuration }
    requires marks { AreMarks tables.now.drivers tables.now.configuration marks.old }
    requires hops { AreHops tables.now.drivers tables.now.configuration hops.old }
    ensures least { IsLeastMove tables.now.drivers tables.now.configuration result }
    ensures marks { AreMarks tables.now.drivers tables.now.configuration marks.new }
    ensures hops { AreHops tables.now.drivers tables.now.configuration hops.new }
    ensures none { IfNone result (HasNoBit marks.new.run) }
{
    while let Some(from) = marks.run.first() {
        let next = next_of_first(tables, hops, from);
        if let Some(to) = if_open(tables, next) {
            return Some(Move { from, to });
        }
        clear_mark(tables, marks, from, next);
    }
    None
}

// Gives a run mark to a place where a message arrived, unless the place had messages before.
fn mark_unless(filled: bool, run: &mut Bits, n: usize)
    requires { n < run.old.count }
    ensures { IsMarkedUnless filled n run.old run.new }
{
    if !filled {
        run.set(n);
    }
}

// Clears the run mark of a place that has no message left.
fn clear_if_empty(tables: &Tables, marks: &mut Marks, n: usize)
    requires number { IsNumber tables.now.drivers n }
    requires marks { AreMarks tables.now.drivers tables.now.configuration marks.old }
    ensures { AreMarks tables.now.drivers tables.now.configuration marks.new }
{
    if !tables.queues().has_messages_at(n) {
        marks.run.clear(n);
    }
}

// Makes a move. Gives a run mark to each place whose first message may become able to move because of this move.
fn move_on(tables: &mut Tables, marks: &mut Marks, next: Move)
    requires sound { IsSound tables.old.drivers tables.old.configuration }
    requires marks { AreMarks tables.old.drivers tables.old.configuration marks.old }
    requires open { IsOpenMove tables.old.drivers tables.old.configuration next }
    ensures value { (p : PlaceValue) → IsAt tables.old.drivers next.from p → tables.new
        ≡ record tables.old { configuration = after_move tables.old.drivers tables.old.configuration p } }
    ensures marks { AreMarks tables.new.drivers tables.new.configuration marks.new }
{
    let filled = tables.queues().has_messages_at(next.to);
    tables.carry(next.from, next.to);
    release_if_open(tables, marks, next.from);
    mark_unless(filled, &mut marks.run, next.to);
    clear_if_empty(tables, marks, next.from);
}

// Moves messages on until none can move. Called only if a place has a run mark.
#[inline(never)]
fn settle_marked(tables: &mut Tables, marks: &mut Marks, hops: &mut Hops)
    requires sound { IsSound tables.old.drivers tables.old.configuration }
    requires marks { AreMarks tables.old.drivers tables.old.configuration marks.old }
    requires hops { AreHops tables.old.drivers tables.old.configuration hops.old }
    ensures value { tables.new
        ≡ record tables.old { configuration = after_settling tables.old.drivers tables.old.configuration } }
    ensures marks { AreMarks tables.new.drivers tables.new.configuration marks.new }
    ensures hops { AreHops tables.new.drivers tables.new.configuration hops.new }
    ensures none { HasNoBit marks.new.run }
{
    let mut left = tables.queues().len() as u128 * tables.drivers().len() as u128;
    while left > 0 {
        let Some(next) = next_move(tables, marks, hops) else {
            return;
        };
        move_on(tables, marks, next);
        left -= 1;
    }
    let _none = next_move(tables, marks, hops);
}

// Moves messages on until none can move and no run mark is left. If there is no run mark, nothing moves.
pub fn settle(tables: &mut Tables, marks: &mut Marks, hops: &mut Hops)
    requires sound { IsSound tables.old.drivers tables.old.configuration }
    requires marks { AreMarks tables.old.drivers tables.old.configuration marks.old }
    requires hops { AreHops tables.old.drivers tables.old.configuration hops.old }
    ensures value { tables.new
        ≡ record tables.old { configuration = after_settling tables.old.drivers tables.old.configuration } }
    ensures marks { AreMarks tables.new.drivers tables.new.configuration marks.new }
    ensures hops { AreHops tables.new.drivers tables.new.configuration hops.new }
    ensures none { HasNoBit marks.new.run }
{
    if marks.run.first().is_some() {
        settle_marked(tables, marks, hops);
    }
}
