//! Laws of runs. A law is a theorem: the contract of a function that does nothing. These laws are examples and
//! counterexamples of each definition.

ghost use Rattle.std.specs.Prelude.{◌≡◌, ℕ, List, [], ◌∷◌, true, false, Result, Err};
ghost use Rattle.smx_run.specs.declared.run_fault.WorkerFault.{WorkerFault};
ghost use Rattle.smx_run.specs.declared.run_fault.WorkerFault.TheVariants as worker;
ghost use Rattle.smx_types.specs.declared.driver.DriverSpec.{DriverSpec};
ghost use Rattle.smx_model.specs.Worked.Common.{mux, ip, OpenClone, Dup, CloseAll};
ghost use Rattle.smx_model.specs.Worked.Reports.{copied, drivers, exited, opened, programs};
ghost use Rattle.smx_config.specs.declared.config_fault.ConfigFault.TheVariants as config;
ghost use Rattle.smx_shared.specs.WorkedCalls.{front, idle, knows, passed};
ghost use Rattle.smx_run.specs.Alone.{StopsAmong};
ghost use Rattle.smx_run.specs.Assignments.{called, given, HasCalled, KnowsItFull};
ghost use Rattle.smx_run.specs.Fronts.{AreFrontsFrom};
ghost use Rattle.smx_run.specs.Gathering.{IsLeastStrange};
ghost use Rattle.smx_run.specs.ProgramOrder.{calls_from, numbered, BeginsCalls};
ghost use Rattle.smx_run.specs.RunFaults.{EitherFails, RefusesAlone, RefusesRun};
ghost use Rattle.smx_run.specs.WorkedRuns.{ended_at, second, to_run, HasEndedOf, IsFirstToRun, KeepsBehind};
ghost use Rattle.smx_run.specs.declared.run_fault.RunFault.{RunFault};
ghost use Rattle.smx_run.specs.declared.run_fault.RunFault.TheVariants as run;

/// Two programs have two fronts. Each is the front of a beginning of the history that has all commands of the program.
/// Counterexamples: a front that is left out or added, that is too early or past the end, or that has another number of
/// links.
pub fn fronts_of_an_example()
    ensures fronts { AreFrontsFrom drivers (opened ∷ exited ∷ copied ∷ []) 0 programs.programs
        (front 3 0 false ∷ front 2 0 true ∷ []) }
    ensures not_one_less { AreFrontsFrom drivers (opened ∷ exited ∷ copied ∷ []) 0 programs.programs
        (front 3 0 false ∷ []) → ⊥ }
    ensures not_one_more { AreFrontsFrom drivers (opened ∷ exited ∷ copied ∷ []) 0 programs.programs
        (front 3 0 false ∷ front 2 0 true ∷ front 3 0 false ∷ []) → ⊥ }
    ensures not_earlier { AreFrontsFrom drivers (opened ∷ exited ∷ copied ∷ []) 0 programs.programs
        (front 2 0 false ∷ front 2 0 true ∷ []) → ⊥ }
    ensures not_past_the_end { AreFrontsFrom drivers (opened ∷ exited ∷ copied ∷ []) 0 programs.programs
        (front 3 0 false ∷ front 4 0 true ∷ []) → ⊥ }
    ensures not_with_a_link { AreFrontsFrom drivers (opened ∷ exited ∷ copied ∷ []) 0 programs.programs
        (front 3 1 false ∷ front 2 0 true ∷ []) → ⊥ }
{}

/// Two drivers with the same name are not refused for any of these faults: the name of the first driver, out of memory,
/// a thread that can't be started, a full history. For one valid driver, out of memory is not reported as a
/// `ConfigFault`.
pub fn refusals_of_an_example()
    ensures not_first { RefusesRun (mux ip 4 ∷ mux ip 4 ∷ []) (run.ConfigFault (config.SameName 0)) → ⊥ }
    ensures not_no_memory { RefusesRun (mux ip 4 ∷ mux ip 4 ∷ []) run.NoMemory → ⊥ }
    ensures not_by_config { RefusesRun (mux ip 4 ∷ []) (run.ConfigFault config.NoMemory) → ⊥ }
    ensures not_thread { RefusesRun (mux ip 4 ∷ mux ip 4 ∷ []) run.NoThread → ⊥ }
    ensures not_full { RefusesRun (mux ip 4 ∷ mux ip 4 ∷ []) run.HistoryFull → ⊥ }
{}

/// No run is refused for a strange process, or for a turn that was never given back. A run on one thread is refused
/// only for its drivers, or because memory ran out. For these two reasons, any run may be refused.
pub fn refusals_have_few_causes()
    ensures not_strange { (drivers : List DriverSpec) (p : ℕ) → RefusesRun drivers (run.Strange p) → ⊥ }
    ensures not_thread { (drivers : List DriverSpec) → RefusesAlone drivers run.NoThread → ⊥ }
    ensures not_full { (drivers : List DriverSpec) → RefusesAlone drivers run.HistoryFull → ⊥ }
    ensures not_held { (drivers : List DriverSpec) → RefusesRun drivers run.Held → ⊥ }
    ensures no_more { (drivers : List DriverSpec) (fault : RunFault)
        → RefusesAlone drivers fault → RefusesRun drivers fault }
{}

/// `calls_from` lists the calls of one program after the other, by rising number of the process, each in the order of
/// its program. A nonempty beginning of this list starts with its first call.
pub fn calls_of_an_example()
    ensures in_turn { calls_from 0 programs.programs ≡ (0, OpenClone ip) ∷ (0, Dup 0) ∷ (1, CloseAll) ∷ [] }
    ensures the_first { BeginsCalls ((0, OpenClone ip) ∷ []) 0 programs.programs }
    ensures not_the_last { BeginsCalls ((1, CloseAll) ∷ []) 0 programs.programs → ⊥ }
    ensures no_more { BeginsCalls ((0, OpenClone ip) ∷ (0, Dup 0) ∷ (1, CloseAll) ∷ (1, CloseAll) ∷ [])
        0 programs.programs → ⊥ }
{}

/// A worker that performs commands in order may stop before the last command. `StopsAmong` excludes a stop after the
/// last command, and a stop after commands that don't begin the list.
pub fn stops_of_an_example()
    ensures before_the_last { StopsAmong KeepsBehind (Dup 1 ∷ []) (OpenClone ip ∷ Dup 0 ∷ [])
        (Dup 1 ∷ OpenClone ip ∷ []) }
    ensures not_at_the_end { StopsAmong KeepsBehind [] (Dup 0 ∷ []) (Dup 0 ∷ []) → ⊥ }
    ensures not_behind_another { StopsAmong KeepsBehind [] (OpenClone ip ∷ Dup 0 ∷ []) (Dup 0 ∷ []) → ⊥ }
{}

/// Between two moments, a process has called exactly the commands of those entries that were made with its seat between
/// these moments, in order. The process has called no command for an entry that its seat has only seen. Both moments
/// are of the same process.
pub fn what_a_process_has_called()
    ensures behind { HasCalled (knows 0 1 9) (Dup 0 ∷ []) (knows 0 3 9) }
    ensures in_order { HasCalled (knows 0 0 9) (OpenClone ip ∷ Dup 0 ∷ []) (knows 0 3 9) }
    ensures not_in_another_order { HasCalled (knows 0 0 9) (Dup 0 ∷ OpenClone ip ∷ []) (knows 0 3 9) → ⊥ }
    ensures not_none { HasCalled (knows 0 0 9) [] (knows 0 1 9) → ⊥ }
    ensures not_unmade { HasCalled (knows 0 0 9) (OpenClone ip ∷ []) idle → ⊥ }
    ensures not_elsewhere { HasCalled (knows 0 0 9) [] (knows 1 0 9) → ⊥ }
{}

/// A process is to be run if its seat belongs to the door (the shared system), and no call was made with the seat yet.
/// It doesn't matter which entries the seat has seen. In these examples, the door has the seats of one process.
pub fn what_is_to_be_run()
    ensures to_run { IsFirstToRun idle }
    ensures not_again { IsFirstToRun (knows 0 1 9) → ⊥ }
    ensures not_elsewhere { IsFirstToRun (knows 1 0 9) → ⊥ }
{}

/// A process has ended if three conditions hold. First, its seat belongs to the door. Second, the entries that were
/// made with the seat are exactly those of the process in the history that the seat has seen. Third, the front is that
/// of this history.
pub fn what_has_ended()
    ensures ended_before_others { HasEndedOf 0 passed (front 2 0 false) }
    ensures ended_behind_others { HasEndedOf 1 second (front 2 0 false) }
    ensures not_idle { HasEndedOf 0 idle (front 1 0 false) → ⊥ }
    ensures not_elsewhere { HasEndedOf 0 (knows 1 1 9) (front 1 0 false) → ⊥ }
    ensures not_at_another_front { HasEndedOf 0 (knows 0 1 9) (front 0 0 false) → ⊥ }
{}

/// The calls that a process is to make, and the calls that it has made afterwards, have the same form: its number, and
/// then its commands, each with this number. Programs are numbered in their order.
pub fn whose_calls_they_are()
    ensures to_call { given (λ k. k) (to_run (knows 1 0 9) (Dup 0 ∷ [])) ≡ (1, (1, Dup 0) ∷ []) }
    ensures has_called { called (λ k. k) (ended_at second (front 2 0 false)) ≡ (1, (1, CloseAll) ∷ []) }
    ensures in_order { numbered 3 ((Dup 0 ∷ []) ∷ [] ∷ []) ≡ (3, (3, Dup 0) ∷ []) ∷ (4, []) ∷ [] }
{}

/// If the limit is one, a seat that has seen one entry knows that the history is full. If the limit is two, such a seat
/// doesn't know this.
pub fn a_full_history_of_an_example()
    ensures full { KnowsItFull (knows 1 1 1) }
    ensures not_full { KnowsItFull (knows 0 1 2) → ⊥ }
{}

/// A process is strange if its entries in the history are not its transcript. If the list has no transcript for the
/// process, its transcript is empty. Only the lowest strange process is reported.
pub fn strange_processes_of_an_example()
    ensures strange { IsLeastStrange (opened ∷ exited ∷ copied ∷ []) ((opened ∷ copied ∷ []) ∷ []) 1 }
    ensures not_borne_out { IsLeastStrange (opened ∷ exited ∷ copied ∷ [])
        ((opened ∷ copied ∷ []) ∷ (exited ∷ []) ∷ []) 1 → ⊥ }
    ensures not_later { IsLeastStrange (opened ∷ exited ∷ copied ∷ []) ((opened ∷ []) ∷ []) 1 → ⊥ }
{}

/// `EitherFails` holds if at least one of the two results is the given fault.
pub fn either_of_two_fails()
    ensures first { (before last : Result ℕ WorkerFault) → before ≡ Err worker.HistoryFull
        → EitherFails worker.HistoryFull before last }
    ensures last { (before last : Result ℕ WorkerFault) → last ≡ Err worker.HistoryFull
        → EitherFails worker.HistoryFull before last }
{}
