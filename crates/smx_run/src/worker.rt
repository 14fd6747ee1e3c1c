//! A worker: the processes that one thread runs, and a hook for the commands that it performs.

ghost use Rattle.std.specs.Prelude.{◌≡◌, All, map, IfOk, OnOk, OnErr, IsErrOf};
ghost use Rattle.smx_shared.specs.declared.shared_fault.ApplyFault.TheVariants as apply;
ghost use Rattle.smx_run.specs.Alone.{StopsAmong};
ghost use Rattle.smx_run.specs.Assignments.{called, given, HasCalled, HasEndedWith, IsToRunWith, KnowsItFull};
ghost use Rattle.smx_run.specs.Assignments.{SomeKnowsItFull};

use smx_shared::{ApplyFault, Door, Front};
use smx_types::{Commands, Process};
use std::alloc::Global;
use std::sync::Wait;

/// A hook that a worker calls for each command, once before and once after. During these calls the worker doesn't have
/// the turn (the right to change the shared system), so a gate may wait for other workers.
pub trait Gate {
    /// Called right before the worker performs command `number` of `process`; commands count from 0.
    fn before(&self, process: Process, number: usize);

    /// Called right after command `number` of `process` was performed or refused.
    fn after(&self, process: Process, number: usize);
}

/// A gate that does nothing.
#[derive(Clone, Copy, Debug)]
pub struct NoGate;

impl Gate for NoGate {
    fn before(&self, _process: Process, _number: usize) {}

    fn after(&self, _process: Process, _number: usize) {}
}

/// A process to run: its seat and its program.
#[derive(Drop)]
pub struct SeatedProgram<S: Drop> {
    pub seat: S,
    pub program: Commands,
}

/// A process whose program has ended: its seat, and the front that was seen with this seat afterwards.
#[derive(Drop)]
pub struct EndedProgram<S: Drop> {
    pub seat: S,
    pub front: Front,
}

/// Runs the assigned processes one after the other, each to its end, up to the first fault. Fails if it is out of
/// memory. Fails with `HistoryFull` only if some seat of the door has seen the history full. Works with any
/// implementation of a shared system (`Door`).
pub fn run_assigned<D: Door, G: Gate, R: Wait>(
    rt: &R,
    alloc: Global,
    door: &D,
    assignment: Vec<SeatedProgram<D::Seat>>,
    gate: &G,
) -> Result<Vec<EndedProgram<D::Seat>>, ApplyFault>
where
    D::Seat: Drop,
    requires { All (IsToRunWith (D.is_seat door.now) D.known) assignment.items }
    ensures called { IfOk result (λ v. map (called D.known) v.items ≡ map (given D.known) assignment.items) }
    ensures ended { IfOk result (λ v. All (HasEndedWith (D.is_seat door.now) D.known) v.items) }
    ensures full { IsErrOf result apply.HistoryFull → SomeKnowsItFull (D.is_seat door.now) D.known }
{
    let mut done = Vec::with_capacity(alloc, assignment.len())?;
    for job in assignment {
        let SeatedProgram { mut seat, program } = job;
        run_program(rt, alloc, door, &mut seat, program, gate)?;
        let front = door.glance(&mut seat);
        done.push_reserved(EndedProgram { seat, front });
    }
    Ok(done)
}

// Performs the commands of a program with its seat, in order, up to the first fault. Calls the gate before and after
// each command, with the process of the seat.
fn run_program<D: Door, G: Gate, R: Wait>(
    rt: &R,
    alloc: Global,
    door: &D,
    seat: &mut D::Seat,
    program: Commands,
    gate: &G,
) -> Result<(), ApplyFault>
where
    D::Seat: Drop,
    requires { D.is_seat door.now seat.old }
    ensures seat { D.is_seat door.now seat.new }
    ensures called { OnOk result (HasCalled (D.known seat.old) program (D.known seat.new)) }
    ensures stops { OnErr result (StopsAmong HasCalled (D.known seat.old) program (D.known seat.new)) }
    ensures full { IsErrOf result apply.HistoryFull → KnowsItFull (D.known seat.new) }
{
    let process = D::process(seat);
    let mut number = 0;
    for command in program.into_vec() {
        let mut command = command;
        gate.before(process, number);
        let outcome = door.perform(rt, alloc, seat, &mut command);
        gate.after(process, number);
        outcome?;
        number += 1;
    }
    Ok(())
}
