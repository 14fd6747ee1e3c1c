//! Assigns processes to workers: process `p` to worker `p` modulo the number of workers. An assignment is the list of
//! the processes of one worker.

ghost use Rattle.std.specs.Prelude.{◌≡◌, ◌≢◌, ◌≤◌, ◌<◌, ℕ, [], ◌∷◌, ◌++◌, All, length, map, slice_index_or};
ghost use Rattle.std.specs.Prelude.{vec_len, IfOk, OnOk};
ghost use Rattle.std.specs.List.{range_with_len};
ghost use Rattle.smx_shared.specs.Seats.{SharedId};
ghost use Rattle.smx_run.specs.Assignments.{assigned_calls, assignment_of, assignments_of, called, known_at};
ghost use Rattle.smx_run.specs.Assignments.{made_calls, AreFresh, EndsAt, HaveEnded, IsFresh};
ghost use Rattle.smx_run.specs.ProgramOrder.{calls_of, numbered};

use crate::worker::{EndedProgram, SeatedProgram};
use smx_shared::{Door, EntrySink, Seat, Shared};
use smx_types::ProgramList;
use std::alloc::{AllocError, Global};
use std::snapshot::Snapshot;

/// Assigns each process, with its seat and its program, to its worker. Returns the assignment of each worker.
pub fn assign<K: EntrySink>(
    alloc: Global,
    seats: Vec<Seat<K>>,
    programs: ProgramList,
    workers: usize,
) -> Result<Vec<Vec<SeatedProgram<Seat<K>>>>, AllocError>
    requires workers { 1 ≤ workers }
    requires seats { map (λ s. s.known.process) seats.items ≡ range_with_len 0 (length programs) }
    ensures fresh { IfOk result (λ v. (name : SharedId)
        → All (IsFresh name) seats.items → All (AreFresh name) v.items) }
    ensures assigned { IfOk result (λ v. map assigned_calls v.items ≡ assignments_of workers (numbered 0 programs)) }
{
    let mut assignments = empty_assignments(alloc, workers)?;
    let mut programs = programs.into_vec().into_iter();
    for seat in seats {
        let Some(program) = programs.next() else {
            unreachable!()
        };
        let worker = Shared::<K>::process(&seat).get() as usize % assignments.len();
        assignments[worker].push(SeatedProgram { seat, program })?;
    }
    Ok(assignments)
}

// Returns an empty assignment for each worker.
fn empty_assignments<K: EntrySink>(
    alloc: Global,
    workers: usize,
) -> Result<Vec<Vec<SeatedProgram<Seat<K>>>>, AllocError>
    ensures workers { IfOk result (λ v. vec_len v ≡ workers) }
    ensures none { IfOk result (λ v. map assigned_calls v.items ≡ assignments_of workers []) }
    ensures fresh { IfOk result (λ v. (name : SharedId) → All (AreFresh name) v.items) }
{
    let mut assignments = Vec::with_capacity(alloc, workers)?;
    for _ in 0..workers {
        assignments.push_reserved(Vec::new(alloc));
    }
    Ok(assignments)
}

/// Puts the ended processes of all workers back into the order of their programs.
pub fn collect<K: EntrySink>(
    alloc: Global,
    mut assignments: Vec<Vec<EndedProgram<Seat<K>>>>,
    processes: usize,
    programs: Snapshot<ProgramList>,
) -> Result<Vec<EndedProgram<Seat<K>>>, AllocError>
    requires workers { 1 ≤ vec_len assignments }
    requires assigned { map made_calls assignments.items
        ≡ assignments_of (vec_len assignments) (numbered 0 programs.value) }
    requires processes { length programs.value ≡ processes }
    ensures ended { IfOk result (λ v. (name : SharedId)
        → All (HaveEnded name) assignments.items → HaveEnded name v) }
    ensures called { IfOk result (λ v. made_calls v ≡ numbered 0 programs.value) }
{
    let mut ended = Vec::with_capacity(alloc, processes)?;
    for process in 0..processes {
        let worker = process % assignments.len();
        ended.push_reserved(assignments[worker].remove(0));
    }
    Ok(ended)
}
