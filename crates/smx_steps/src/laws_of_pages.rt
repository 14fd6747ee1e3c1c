//! Laws of pages. Each law is the contract of a function that does nothing.

ghost use Rattle.std.specs.Prelude.{◌≡◌, ◌≢◌, ◌<◌, ℕ, ◌∷◌, ◌++◌, List, length};
ghost use Rattle.std.specs.List.{AllByRecursion};
ghost use Rattle.smx_types.specs.declared.command.Entry.{Entry};
ghost use Rattle.smx_types.specs.declared.transcript.Transcript.{Transcript};
ghost use Rattle.smx_steps.specs.Escapes.{escaped};
ghost use Rattle.smx_steps.specs.Pages.{HasStepOf, IsOver, IsPageOf};

/// A page has a step for each entry of the replay. The name of the step is the number of the entry, counted from 1.
pub fn each_entry_has_its_step()
    ensures { (t : Transcript) (output : List ℕ) (page : IsPageOf t output) (before : List Entry) (e : Entry)
        (more : List Entry) → page.replay.entries ≡ before ++ e ∷ more
        → HasStepOf t.drivers before e output }
{}

/// An escaped text has neither `<` nor `>`. So no line of a trace can begin or end a tag in the page.
pub fn escaped_texts_have_no_tags()
    ensures { (text : List ℕ) → AllByRecursion (λ b. (b ≢ 60) × (b ≢ 62)) (escaped text) }
{}

/// If a transcript has more than 1,000 entries, a page of 1,001 entries is over a limit.
pub fn too_many_entries_are_over()
    ensures { (t : Transcript) → 1000 < length t.entries → IsOver t 1001 }
{}
