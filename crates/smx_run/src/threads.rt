//! Runs several workers on threads. The first worker runs on the calling thread.

ghost use Rattle.std.specs.Prelude.{◌≡◌, ◌≢◌, ◌≤◌, List, [], ◌∷◌, ◌++◌, All, length, map, Err, IfOk, IfErr, IsErrOf};
ghost use Rattle.std.specs.List.{range_with_len};
ghost use Rattle.smx_types.specs.declared.limits.TheConstants.{MAX_PROCESSES};
ghost use Rattle.smx_model.specs.DriverList.{IsDriverList};
ghost use Rattle.smx_model.specs.Histories.{HoldsPrograms};
ghost use Rattle.smx_shared.specs.Calls.{EndsAs};
ghost use Rattle.smx_shared.specs.Recorded.{IsSoundSystem, Recorded};
ghost use Rattle.smx_shared.specs.Seats.{SharedId};
ghost use Rattle.smx_run.specs.Assignments.{assigned_calls, made_calls, AllHaveEnded, AreFresh, HaveCalled, HaveEnded};
ghost use Rattle.smx_run.specs.Assignments.{IsFresh, IsSeenFull};
ghost use Rattle.smx_run.specs.Fronts.{AreFrontsFrom};
ghost use Rattle.smx_run.specs.Meeting.{IsBorneOutBy, IsKnownTo};
ghost use Rattle.smx_run.specs.ProgramOrder.{Calls, numbered};
ghost use Rattle.smx_run.specs.RunFaults.{EitherFails, RefusesRun};
ghost use Rattle.smx_run.specs.declared.run_fault.WorkerFault.TheVariants as worker;

use crate::assignments::{assign, collect};
use crate::run_fault::{RunFault, WorkerFault};
use crate::worker::{EndedProgram, Gate, SeatedProgram, run_assigned};
use smx_shared::{CloseFault, EntrySink, Fronts, Seat, Shared, System};
use smx_types::{NoMemory, ProgramList};
use std::alloc::Global;
use std::snapshot::Snapshot;
use std::sync::Wait;
use std::thread;
use std::thread::{Promise, Scope, Threads};

/// Runs the programs on `workers` workers: the first on this thread, and each of the others on a thread of its own.
/// Returns the system that they shared and, for each program, the front that was seen after this program had ended.
pub fn run_together<R: Threads + Wait + Sync, K: EntrySink + Send, G: Gate + Sync>(
    rt: &R,
    alloc: Global,
    system: System<K>,
    programs: ProgramList,
    workers: usize,
    gate: &G,
) -> Result<(System<K>, Fronts), RunFault>
    requires system { (system.history ≡ []) × IsDriverList system.drivers }
    requires processes { (1 ≤ length programs) × (length programs ≤ MAX_PROCESSES) }
    requires workers { 1 ≤ workers }
    ensures drivers { IfOk result (λ r. r.0.drivers ≡ system.drivers) }
    ensures holds { IfOk result (λ r. HoldsPrograms r.0.history programs) }
    ensures fronts { IfOk result (λ r. AreFrontsFrom r.0.drivers r.0.history 0 programs r.1) }
    ensures sound { IfOk result (λ r. IsSoundSystem r.0) }
    ensures refused { IfErr result (RefusesRun system.drivers) }
{
    let (shared, seats) = Shared::start(alloc, system, programs.as_slice().len())?;
    let ended = run_seats(rt, alloc, &shared, seats, programs, workers, gate)?;
    let (seat, fronts) = meet_all(alloc, &shared, ended)?;
    match shared.close(seat) {
        Ok(system) => Ok((system, fronts)),
        Err(CloseFault::Held(_)) => Err(RunFault::Held),
    }
}

// Runs the program of each seat, on `workers` workers.
fn run_seats<R: Threads + Wait + Sync, K: EntrySink + Send, G: Gate + Sync>(
    rt: &R,
    alloc: Global,
    shared: &Shared<K>,
    seats: Vec<Seat<K>>,
    programs: ProgramList,
    workers: usize,
    gate: &G,
) -> Result<Vec<EndedProgram<Seat<K>>>, WorkerFault>
    requires seats { map (λ s. s.known.process) seats.items ≡ range_with_len 0 (length programs) }
    requires fresh { All (IsFresh shared.now.name) seats.items }
    requires workers { 1 ≤ workers }
    ensures ended { IfOk result (HaveEnded shared.now.name) }
    ensures called { IfOk result (λ v. made_calls v ≡ numbered 0 programs) }
    ensures full { IsErrOf result worker.HistoryFull → IsSeenFull shared.now.name }
{
    let processes = programs.as_slice().len();
    let asked = Snapshot::of(&programs);
    let assignments = assign(alloc, seats, programs, workers)?;
    let assignments = thread::scope(
        thread::scope_env(),
        rt,
        |scope| -> Result<Vec<Vec<EndedProgram<Seat<K>>>>, WorkerFault>
            requires { All (AreFresh shared.now.name) assignments.items }
            ensures called { IfOk result (HaveCalled assignments) }
            ensures ended { IfOk result (AllHaveEnded shared.entry.now.name) }
            ensures full { IsErrOf result worker.HistoryFull → IsSeenFull shared.entry.now.name }
        { run_from(scope, rt, alloc, shared, assignments, gate) },
    )?;
    Ok(collect(alloc, assignments, processes, asked)?)
}

// Runs an assignment, that is, the programs of one worker with their seats, on this thread.
fn run_worker<R: Wait, K: EntrySink, G: Gate>(
    rt: &R,
    alloc: Global,
    shared: &Shared<K>,
    assignment: Vec<SeatedProgram<Seat<K>>>,
    gate: &G,
) -> Result<Vec<EndedProgram<Seat<K>>>, WorkerFault>
    requires { AreFresh shared.now.name assignment }
    ensures called { IfOk result (λ v. made_calls v ≡ assigned_calls assignment) }
    ensures ended { IfOk result (HaveEnded shared.now.name) }
    ensures full { IsErrOf result worker.HistoryFull → IsSeenFull shared.now.name }
{
    Ok(run_assigned(rt, alloc, shared, assignment, gate)?)
}

// The result of a worker's thread keeps a promise (`kept_by` below) about two values: the assignment that the thread
// was given, and the shared system on which the thread ran this assignment. `Runs` has these two.
#[derive(Drop)]
struct Runs<K: EntrySink>(Snapshot<Vec<SeatedProgram<Seat<K>>>>, Snapshot<Shared<K>>);

impl<K: EntrySink> Promise<Result<Vec<EndedProgram<Seat<K>>>, WorkerFault>> for Runs<K> {
    ghost kept_by = { λ runs result.
        IfOk result (λ v. (made_calls v ≡ assigned_calls runs.0.value) × HaveEnded runs.1.value.name v)
        × (IsErrOf result worker.HistoryFull → IsSeenFull runs.1.value.name) };
}

// If there is only one assignment, runs it on this thread. Otherwise starts a thread for the last assignment, calls
// itself for the assignments before the last, and then waits for the thread. If the thread can't be started, the
// assignments before the last are still run.
fn run_from<'s, E, R: Threads + Wait + Sync, K: EntrySink + Send, G: Gate + Sync>(
    scope: &'s Scope<'s, E>,
    rt: &'s R,
    alloc: Global,
    shared: &'s Shared<K>,
    mut assignments: Vec<Vec<SeatedProgram<Seat<K>>>>,
    gate: &'s G,
) -> Result<Vec<Vec<EndedProgram<Seat<K>>>>, WorkerFault>
    requires { All (AreFresh shared.now.name) assignments.items }
    ensures called { IfOk result (HaveCalled assignments) }
    ensures ended { IfOk result (AllHaveEnded shared.now.name) }
    ensures full { IsErrOf result worker.HistoryFull → IsSeenFull shared.now.name }
{
    let Some(assignment) = assignments.pop() else {
        return Ok(Vec::new(alloc));
    };
    if assignments.is_empty() {
        let first = run_worker(rt, alloc, shared, assignment, gate);
        return and_then(Ok(Vec::new(alloc)), first);
    }
    let runs = Runs(Snapshot::of(&assignment), Snapshot::of(shared));
    let worker = scope.spawn_with(
        runs,
        move || -> Result<Vec<EndedProgram<Seat<K>>>, WorkerFault>
            requires { AreFresh shared.now.name assignment }
            ensures called { IfOk result (λ v. made_calls v ≡ assigned_calls assignment) }
            ensures ended { IfOk result (HaveEnded shared.entry.now.name) }
            ensures full { IsErrOf result worker.HistoryFull → IsSeenFull shared.entry.now.name }
        { run_worker(rt, alloc, shared, assignment, gate) },
    );
    let before = run_from(scope, rt, alloc, shared, assignments, gate);
    match worker {
        Ok(worker) => and_then(before, worker.join(rt)),
        Err(_) => and_then(before, Err(WorkerFault::NoThread)),
    }
}

// Joins the results of some assignments with the result of the next assignment. If both results are faults, returns the
// fault that comes first in this order: out of memory, no thread, a full history.
fn and_then<K: EntrySink>(
    before: Result<Vec<Vec<EndedProgram<Seat<K>>>>, WorkerFault>,
    last: Result<Vec<EndedProgram<Seat<K>>>, WorkerFault>,
) -> Result<Vec<Vec<EndedProgram<Seat<K>>>>, WorkerFault>
    // on success
    ensures called { IfOk result (λ v. (all : List (List Calls)) (one : List Calls)
        → IfOk before (λ b. map made_calls b.items ≡ all) → IfOk last (λ d. made_calls d ≡ one)
        → map made_calls v.items ≡ all ++ one ∷ []) }
    ensures ended { IfOk result (λ v. (name : SharedId)
        → IfOk before (AllHaveEnded name) → IfOk last (HaveEnded name) → AllHaveEnded name v) }
    // on failure
    ensures memory_first { EitherFails worker.NoMemory before last → result ≡ Err worker.NoMemory }
    ensures thread { result ≡ Err worker.NoThread → EitherFails worker.NoThread before last }
    ensures thread_next { EitherFails worker.NoThread before last → (EitherFails worker.NoMemory before last → ⊥)
        → result ≡ Err worker.NoThread }
    ensures full { result ≡ Err worker.HistoryFull → EitherFails worker.HistoryFull before last }
    ensures full_last { EitherFails worker.HistoryFull before last → (EitherFails worker.NoMemory before last → ⊥)
        → (EitherFails worker.NoThread before last → ⊥) → result ≡ Err worker.HistoryFull }
{
    match (before, last) {
        (Ok(mut all), Ok(done)) => {
            all.reserve(1)?;
            all.push_reserved(done);
            Ok(all)
        }
        (Err(WorkerFault::NoMemory), _) | (_, Err(WorkerFault::NoMemory)) => Err(
            WorkerFault::NoMemory,
        ),
        (Err(WorkerFault::NoThread), _) | (_, Err(WorkerFault::NoThread)) => Err(
            WorkerFault::NoThread,
        ),
        (Err(WorkerFault::HistoryFull), _) | (_, Err(WorkerFault::HistoryFull)) => Err(
            WorkerFault::HistoryFull,
        ),
    }
}

// Lets the first seat meet all the others. Returns this seat, and the front that each seat saw when its program had
// ended. If the returned seat closes the shared system, then for each process the system has exactly the entries that
// were made with the seat of this process.
fn meet_all<K: EntrySink>(
    alloc: Global,
    shared: &Shared<K>,
    mut ended: Vec<EndedProgram<Seat<K>>>,
) -> Result<(Seat<K>, Fronts), NoMemory>
    requires some { ended.items ≢ [] }
    requires ended { HaveEnded shared.now.name ended }
    ensures seat { IfOk result (λ r. r.0.shared ≡ shared.now.name) }
    ensures met { IfOk result (λ r. (s : Recorded) → EndsAs r.0.known r.0.met s → All (IsBorneOutBy s) ended.items) }
    ensures known { IfOk result (λ r. All (IsKnownTo r.0) ended.items) }
    ensures fronts { IfOk result (λ r. r.1 ≡ map (λ d. d.front) ended.items) }
{
    let mut fronts = Vec::with_capacity(alloc, ended.len())?;
    let EndedProgram {
        seat: mut first,
        front,
    } = ended.remove(0);
    fronts.push_reserved(front);
    for done in ended {
        shared.meet(&mut first, done.seat);
        fronts.push_reserved(done.front);
    }
    Ok((first, Fronts::from_vec(fronts)))
}
