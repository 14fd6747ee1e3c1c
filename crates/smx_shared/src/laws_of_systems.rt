//! Laws of systems, and of the rule of the turn. A law is a theorem: the contract of a function that does nothing.

ghost use Rattle.std.specs.Prelude.{◌≡◌, ◌≤◌, ◌%◌, ℕ, List, [], ◌∷◌, length, true, Some};
ghost use mathlib.Core.Option.{none, some};
ghost use lib.ListN.{get_elem?};
ghost use Rattle.atomic_table.specs.Table.{State};
ghost use Rattle.smx_types.specs.declared.command.Entry.{Entry as Made};
ghost use Rattle.smx_types.specs.declared.driver.DriverSpec.{DriverSpec as Driver};
ghost use Rattle.smx_types.specs.declared.limits.TheConstants.{MAX_COMMANDS};
ghost use Rattle.smx_model.specs.DriverList.{IsDriverList};
ghost use Rattle.smx_model.specs.Histories.{IsLegal};
ghost use Rattle.smx_shared.specs.Fronts.{front_of};
ghost use Rattle.smx_shared.specs.Recorded.{Recorded, IsSoundSystem};
ghost use Rattle.smx_shared.specs.TurnRule.{Slot, TurnRule};
ghost use Rattle.smx_shared.specs.WorkedSystems.{with_first, of_one_name};
ghost use Rattle.smx_shared.specs.declared.seat_view.SeatView.{SeatView as View};

use smx_model::laws::{
    lawful_after_each_entry, legal_or_first_illegal, the_second_is_the_first_illegal,
};

/// A system is sound if its drivers are valid, its limit is at most 100,000, it has no more entries than its limit, and
/// its history is legal. Its history is then also lawful after each entry.
pub fn legal_systems_are_sound()
    ensures { (s : Recorded) → IsDriverList s.drivers → s.limit ≤ MAX_COMMANDS → length s.history ≤ s.limit
        → IsLegal s.drivers s.history → IsSoundSystem s }
{
    lawful_after_each_entry();
}

/// An example is sound, even if its history is full. It is not sound if the limit is too low or too high, if an entry
/// is illegal, or if two drivers have the same name.
pub fn an_example_is_sound()
    ensures sound { IsSoundSystem (with_first 1 10) }
    ensures full { IsSoundSystem (with_first 1 1) }
    ensures not_past_its_limit { IsSoundSystem (with_first 1 0) → ⊥ }
    ensures not_past_all_limits { IsSoundSystem (with_first 1 100001) → ⊥ }
    ensures not_illegal { IsSoundSystem (with_first 2 10) → ⊥ }
    ensures not_of_one_name { IsSoundSystem of_one_name → ⊥ }
{
    legal_systems_are_sound();
    legal_or_first_illegal();
    the_second_is_the_first_illegal();
}

/// The turn bit of the first word is set exactly if a seat has the turn, and no two seats have the turn.
pub fn the_turn_is_one_seats()
    ensures held { (drivers : List Driver) (limit : ℕ) (start : List Made) (processes word : ℕ) (s : State Slot View)
        → TurnRule drivers limit start processes s → get_elem? s.words 0 ≡ some word → word % 2 ≡ 1
        → (j : ℕ) × (v : View) × (get_elem? s.views j ≡ some v) × (v.turn ≡ true) }
    ensures only_then { (drivers : List Driver) (limit : ℕ) (start : List Made) (processes word j : ℕ)
        (v : View) (s : State Slot View)
        → TurnRule drivers limit start processes s → get_elem? s.words 0 ≡ some word → get_elem? s.views j ≡ some v
        → v.turn ≡ true
        → word % 2 ≡ 1 }
    ensures one { (drivers : List Driver) (limit : ℕ) (start : List Made) (processes i j : ℕ) (v w : View)
        (s : State Slot View)
        → TurnRule drivers limit start processes s → get_elem? s.views i ≡ some v → get_elem? s.views j ≡ some w
        → v.turn ≡ true → w.turn ≡ true → i ≡ j }
{}

/// While the turn bit is not set, the slot belongs to the table and contains a sound system, and the first word is the
/// front of this system's history. While the bit is set, the slot belongs to a seat.
pub fn the_slot_is_home_or_out()
    ensures home { (drivers : List Driver) (limit : ℕ) (start : List Made) (processes word : ℕ) (s : State Slot View)
        → TurnRule drivers limit start processes s → get_elem? s.words 0 ≡ some word → word % 2 ≡ 0
        → (x : Recorded) × (s.homes ≡ some (Some x) ∷ []) × (word ≡ front_of x.drivers x.history) × IsSoundSystem x }
    ensures out { (drivers : List Driver) (limit : ℕ) (start : List Made) (processes word : ℕ) (s : State Slot View)
        → TurnRule drivers limit start processes s → get_elem? s.words 0 ≡ some word → word % 2 ≡ 1
        → s.homes ≡ none ∷ [] }
{}
