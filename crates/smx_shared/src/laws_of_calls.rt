//! Laws of what a caller knows after a call. A law is a theorem: the contract of a function that does nothing. These
//! laws are examples and counterexamples.

ghost use Rattle.std.specs.Prelude.{◌≡◌, ℕ, [], ◌∷◌, true, false, take};
ghost use Rattle.atomic_table.specs.Table.{Step};
ghost use Rattle.smx_model.specs.Worked.Common.{OpenClone, CloseAll, Dup, ip, a_b_and_eth};
ghost use Rattle.smx_model.specs.Worked.CycleOfTwoDrivers.{history as linked};
ghost use Rattle.smx_shared.specs.Calls.{AddsEntry, AnswersEntry, EndsAs, GoesOnFrom, HasSeenMore, LooksOnce};
ghost use Rattle.smx_shared.specs.Calls.{Meets, Refuses, RefusesTry, Rests};
ghost use Rattle.smx_shared.specs.CloseFaults.{IsHeld};
ghost use Rattle.smx_shared.specs.Fronts.{front_of, word_of, IsFrontOf};
ghost use Rattle.smx_shared.specs.Seats.{HasMetAll, Seated, SharedId, met_seat, shared_as};
ghost use Rattle.smx_shared.specs.SeatViews.{AddsFor, Mine, Published};
ghost use Rattle.smx_shared.specs.TurnRule.{Slot};
ghost use Rattle.smx_shared.specs.WorkedCalls.{after, astray, blind, exited, first, front, idle, keeps, knows, meets};
ghost use Rattle.smx_shared.specs.WorkedCalls.{opened, other, passed, sits, strayed, twice};
ghost use Rattle.smx_shared.specs.WorkedSystems.{with_first};
ghost use Rattle.smx_shared.specs.declared.shared_fault.CloseFault.TheVariants.{Held};
ghost use Rattle.smx_shared.specs.declared.shared_fault.ApplyFault.TheVariants as apply;
ghost use Rattle.smx_shared.specs.declared.shared_fault.TryFault.TheVariants as try;

use crate::laws_of_systems::an_example_is_sound;

/// The returned entry has the process and the command. It is the last entry that the seat has seen, and it was made
/// with the seat. A call of `perform` adds exactly one such entry, but doesn't return it.
pub fn answer_examples()
    ensures answers { AnswersEntry (knows 0 0 9) (knows 0 1 9) (OpenClone ip) opened }
    ensures not_none { AddsEntry (knows 0 0 9) (OpenClone ip) (knows 0 0 9) → ⊥ }
    ensures not_two { AddsEntry (knows 0 0 9) (Dup 0) twice → ⊥ }
    ensures not_of_another_command { AddsEntry (knows 0 0 9) CloseAll (knows 0 1 9) → ⊥ }
    ensures not_of_another_process { AddsEntry (knows 1 0 9) (OpenClone ip) (knows 0 1 9) → ⊥ }
    ensures not_before_another { AddsEntry (knows 0 0 9) (OpenClone ip) passed → ⊥ }
    ensures not_unseen { AddsEntry (knows 0 0 9) (OpenClone ip) blind → ⊥ }
    ensures not_unmade { AddsEntry (knows 0 0 9) (OpenClone ip) idle → ⊥ }
{}

/// The store with which a seat gives the turn back publishes one entry of the seat's process, or none.
pub fn store_examples()
    ensures published { (st : Step Slot) (m : Mine) (n : ℕ) (new : Mine)
        → Published st m n new → AddsFor m.0.process m.0.seen new.0.seen }
    ensures one { AddsFor 0 [] (opened ∷ []) }
    ensures none { AddsFor 1 (opened ∷ []) (opened ∷ []) }
    ensures not_two { AddsFor 0 [] twice.seen → ⊥ }
    ensures not_of_another_process { AddsFor 1 [] (opened ∷ []) → ⊥ }
    ensures not_one_less { AddsFor 0 (opened ∷ []) [] → ⊥ }
    ensures not_another_history { AddsFor 0 (exited ∷ []) (opened ∷ []) → ⊥ }
    ensures not_before_another { AddsFor 0 (exited ∷ []) (opened ∷ exited ∷ []) → ⊥ }
{}

/// After a call the seat has seen no less than before, and its limit and process are the same. The history that it has
/// seen is legal and within the limit. All entries of its process there were made with the seat.
pub fn knowledge_examples()
    ensures more { HasSeenMore (knows 0 0 9) (knows 0 1 9) }
    ensures not_less { HasSeenMore (knows 0 1 9) (knows 0 0 9) → ⊥ }
    ensures not_of_another_history { HasSeenMore astray (knows 0 1 9) → ⊥ }
    ensures not_of_another_limit { HasSeenMore (knows 0 0 9) (knows 0 1 8) → ⊥ }
    ensures not_of_another_process { HasSeenMore (knows 0 0 9) (knows 1 1 9) → ⊥ }
    ensures not_past_the_limit { HasSeenMore (knows 0 0 0) (knows 0 1 0) → ⊥ }
    ensures not_illegal { HasSeenMore (knows 0 0 9) (knows 0 2 9) → ⊥ }
    ensures not_unmade { HasSeenMore (knows 0 0 9) idle → ⊥ }
{
    an_example_is_sound();
}

/// A refused call added no entry. It reports a full history exactly if the history is full.
pub fn refusal_examples()
    ensures full { Refuses (knows 1 0 1) (knows 1 1 1) apply.HistoryFull }
    ensures not_full { Refuses (knows 1 0 9) (knows 1 1 9) apply.HistoryFull → ⊥ }
    ensures not_added_and_full { Refuses (knows 0 0 1) (knows 0 1 1) apply.HistoryFull → ⊥ }
    ensures no_memory { Refuses (knows 1 0 9) (knows 1 1 9) apply.NoMemory }
    ensures not_for_a_full_history { Refuses (knows 1 0 1) (knows 1 1 1) apply.NoMemory → ⊥ }
    ensures not_added { Refuses (knows 0 0 9) (knows 0 1 9) apply.NoMemory → ⊥ }
{}

/// For three entries and one link, the first word is 12290, and 12291 while a seat has the turn. A front with other
/// numbers is not the front of this history.
pub fn front_examples()
    ensures word { front_of a_b_and_eth (take 3 linked) ≡ 12290 }
    ensures free { word_of (front 3 1 false) ≡ 12290 }
    ensures held { word_of (front 3 1 true) ≡ 12291 }
    ensures is { IsFrontOf (front 3 1 true) a_b_and_eth (take 3 linked) }
    ensures not_earlier { IsFrontOf (front 2 1 true) a_b_and_eth (take 3 linked) → ⊥ }
    ensures not_without_the_link { IsFrontOf (front 3 0 true) a_b_and_eth (take 3 linked) → ⊥ }
{}

/// After each call a seat is at rest: it belongs to the same shared system as before, and doesn't have the turn.
pub fn rest_examples()
    ghost id: { SharedId }
    ensures rests { Rests (first id) (after id 4096 1) }
    ensures not_with_the_turn { Rests (first id) (keeps (after id 4096 1)) → ⊥ }
    ensures not_at_another { (there : SharedId) → (id ≡ there → ⊥) → Rests (first id) (after there 4096 1) → ⊥ }
{}

/// A look (`glance`) is one step, which reads the first word. This word is the returned front, and also the front of
/// the history that the seat has seen afterwards. `try_call` fails with `Busy` only after such a look, and only if the
/// returned front shows that the turn is held. If it fails with another fault, it is refused as `call` is.
pub fn look_examples()
    ghost id: { SharedId }
    ensures looks { LooksOnce (first id) (after id 4096 1) (front 1 0 false) }
    ensures not_without_a_step { LooksOnce (first id) (after id 4096 0) (front 1 0 false) → ⊥ }
    ensures not_by_two { LooksOnce (first id) (after id 4096 2) (front 1 0 false) → ⊥ }
    ensures not_another_word { LooksOnce (first id) (after id 4097 1) (front 1 0 false) → ⊥ }
    ensures not_of_the_past { LooksOnce (first id) (after id 0 1) (front 0 0 false) → ⊥ }
    ensures not_added { LooksOnce (sits id (knows 0 0 9) 0 0) (sits id (knows 0 1 9) 4096 1) (front 1 0 false) → ⊥ }
    ensures busy { RefusesTry (first id) (after id 4097 1) (try.Busy (front 1 0 true)) }
    ensures not_busy { RefusesTry (first id) (after id 4096 1) (try.Busy (front 1 0 false)) → ⊥ }
    ensures not_busy_by_two { RefusesTry (first id) (after id 4097 2) (try.Busy (front 1 0 true)) → ⊥ }
    ensures full { (old new : Seated) → RefusesTry old new try.HistoryFull
        → Refuses old.known new.known apply.HistoryFull }
    ensures no_memory { (old new : Seated) → RefusesTry old new try.NoMemory
        → Refuses old.known new.known apply.NoMemory }
{}

/// In a meeting, the first seat records the other seat, which has the same limit, and the seats that either of them had
/// met. A meeting adds no entry. The first seat has then seen everything that the recorded seats had seen. In the
/// history that it has then seen, the entries of the process of each recorded seat are exactly those made with that
/// seat.
pub fn meeting_examples()
    ghost id: { SharedId }
    ensures meets { Meets (first id) (other id (knows 0 1 9)) (meets (after id 4096 1) (knows 0 1 9)) }
    ensures not_unnoted { Meets (first id) (other id (knows 0 1 9)) (after id 4096 1) → ⊥ }
    ensures not_without_theirs { Meets (first id) (meets (other id (knows 0 1 9)) (knows 2 0 9))
        (meets (after id 4096 1) (knows 0 1 9)) → ⊥ }
    ensures not_without_those_before { Meets (meets (first id) (knows 2 0 9)) (other id (knows 0 1 9))
        (meets (after id 4096 1) (knows 0 1 9)) → ⊥ }
    ensures notes_all { Meets (meets (first id) (knows 3 0 9)) (meets (other id (knows 0 1 9)) (knows 2 0 9))
        (record (after id 4096 1)
        { met = met_seat (knows 0 1 9) ∷ met_seat (knows 2 0 9) ∷ met_seat (knows 3 0 9) ∷ [] }) }
    ensures not_where_those_before_are_wrong { Meets (meets (first id) (knows 2 0 8)) (other id (knows 0 1 9))
        (record (after id 4096 1) { met = met_seat (knows 0 1 9) ∷ met_seat (knows 2 0 8) ∷ [] }) → ⊥ }
    ensures not_unseen { Meets (first id) (other id (knows 2 1 9)) (meets (first id) (knows 2 1 9)) → ⊥ }
    ensures not_of_another_limit { Meets (first id) (other id (knows 0 1 8))
        (meets (after id 4096 1) (knows 0 1 8)) → ⊥ }
    ensures not_unmade { Meets (first id) (other id idle) (meets (after id 4096 1) idle) → ⊥ }
    ensures not_added { Meets (other id (knows 0 0 9)) (other id (knows 1 1 9))
        (meets (other id (knows 0 1 9)) (knows 1 1 9)) → ⊥ }
{}

/// A seat has met all others if it met a seat of every process except its own.
pub fn met_all_examples()
    ensures all { HasMetAll 2 (knows 1 0 9) (met_seat (knows 0 1 9) ∷ []) }
    ensures alone { HasMetAll 1 (knows 0 0 9) [] }
    ensures not_all { HasMetAll 3 (knows 1 0 9) (met_seat (knows 0 1 9) ∷ []) → ⊥ }
    ensures not_by_its_own { HasMetAll 2 (knows 0 0 9) (met_seat (knows 0 1 9) ∷ []) → ⊥ }
{}

/// The history of the returned system begins with the history that was shared. Each further entry is of one of the
/// processes among which the system was shared. The returned system agrees with the knowledge of the seat that closed
/// it.
pub fn close_examples()
    ghost id: { SharedId }
    ensures goes_on { GoesOnFrom (shared_as id (with_first 0 9) 1) (with_first 1 9) }
    ensures not_to_another_limit { GoesOnFrom (shared_as id (with_first 0 9) 1) (with_first 1 8) → ⊥ }
    ensures not_by_another_process { GoesOnFrom (shared_as id (with_first 0 9) 0) (with_first 1 9) → ⊥ }
    ensures not_from_another_history { GoesOnFrom (shared_as id strayed 1) (with_first 1 9) → ⊥ }
    ensures ends { EndsAs (knows 1 0 9) [] (with_first 1 9) }
    ensures not_with_another_limit { EndsAs (knows 1 0 9) [] (with_first 1 8) → ⊥ }
    ensures not_illegal { EndsAs (knows 0 1 9) [] (with_first 2 9) → ⊥ }
    ensures not_before_what_was_seen { EndsAs (knows 1 1 9) [] (with_first 0 9) → ⊥ }
    ensures not_with_others_of_the_process { EndsAs (knows 0 0 9) [] (with_first 1 9) → ⊥ }
    ensures held { IsHeld (knows 1 0 9) (Held (front 0 0 true)) }
    ensures not_held { IsHeld (knows 1 0 9) (Held (front 1 0 false)) → ⊥ }
    ensures not_held_with_a_link { IsHeld (knows 1 0 9) (Held (front 0 1 true)) → ⊥ }
    ensures not_held_before_what_was_seen { IsHeld (knows 1 1 9) (Held (front 0 0 true)) → ⊥ }
{
    an_example_is_sound();
}
