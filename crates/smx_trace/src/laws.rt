//! Laws of replays, of traces and of waits. Each law is the contract of a function that does nothing.

ghost use Rattle.std.specs.Prelude.{◌≡◌, ℕ, ◌∷◌, ◌++◌, [], Bool, List, Some, false, map, not, take};
ghost use Rattle.std.specs.List.{list_any};
ghost use Rattle.std.specs.Option.{is_some};
ghost use Rattle.smx_types.specs.declared.command.Entry.{Entry};
ghost use Rattle.smx_types.specs.declared.driver.DriverSpec.{DriverSpec};
ghost use Rattle.smx_types.specs.declared.message.Message.{Message};
ghost use Rattle.smx_types.specs.declared.stream.Place.{Place};
ghost use Rattle.smx_types.specs.declared.transcript.Transcript.{Transcript};
ghost use Rattle.smx_types.specs.declared.view.ConfigView.{ConfigView};
ghost use Rattle.smx_model.specs.Changes.{changes};
ghost use Rattle.smx_model.specs.Configuration.{Configuration, QueuedMessage, empty, same_place};
ghost use Rattle.smx_model.specs.DriverList.{IsDriverList};
ghost use Rattle.smx_model.specs.Histories.{after, call_of};
ghost use Rattle.smx_model.specs.LawfulHistories.{AreDropsAllowed, IsLawfulThroughout};
ghost use Rattle.smx_model.specs.Ordered.{AllLater};
ghost use Rattle.smx_model.specs.Queues.{first_message};
ghost use Rattle.smx_model.specs.Settling.{is_movable};
ghost use Rattle.smx_model.specs.Views.{view};
ghost use Rattle.smx_model.specs.Waits.{places_in, reason_at, waits};
ghost use Rattle.smx_config.specs.Verdicts.{IsVerdict};
ghost use Rattle.smx_config.specs.declared.verdict.Verdict.TheVariants.{Legal};
ghost use Rattle.smx_text.specs.TranscriptLines as line;
ghost use Rattle.smx_text.specs.TranscriptText.{IsAllowed, IsSpellable, body};
ghost use Rattle.smx_trace.specs.Prefixes.{first_entries};
ghost use Rattle.smx_trace.specs.Replays.{IsReplayOf};
ghost use Rattle.smx_trace.specs.Traces.{IsTraceText, entry_lines_from, lines_below, plain_lines, trace_lines};
ghost use Rattle.smx_trace.specs.Traces as trace;
ghost use Rattle.smx_trace.specs.WorkedReplays.{claimed, exchanged, left_out, put_right};

use smx_model::laws::{
    few_commands_drop, histories_are_determined, lawful_after_each_entry, prefixes_are_legal,
    without_a_hangup_none_is_reported,
};
use smx_model::laws_of_configurations::settling_ends;

/// A transcript with valid drivers has exactly one replay. Transcripts with the same version, drivers and calls have
/// the same replay, whatever replies and views they have. A call is a process and its command.
pub fn a_transcript_has_one_replay()
    ensures always { (t : Transcript) → IsDriverList t.drivers → (r : Transcript) × IsReplayOf t r }
    ensures one { (t r s : Transcript) → IsReplayOf t r → IsReplayOf t s → r ≡ s }
    ensures calls_alone { (t u r : Transcript) → u.version ≡ t.version → u.drivers ≡ t.drivers
        → map call_of u.entries ≡ map call_of t.entries → IsReplayOf t r → IsReplayOf u r }
{
    histories_are_determined();
}

/// If a transcript has valid drivers and its verdict is legal, the transcript is its own replay. The verdict on every
/// replay is legal.
pub fn replays_are_the_legal_transcripts()
    ensures own { (t : Transcript) → IsDriverList t.drivers → IsVerdict t.drivers t.entries t.view Legal
        → IsReplayOf t t }
    ensures legal { (t r : Transcript) → IsReplayOf t r → IsVerdict r.drivers r.entries r.view Legal }
{}

/// After each entry of a replay there is no cycle of links, no stream is below two links, and no message is lost or
/// duplicated. Only the replies to `close`, `exit`, `unlink`, `punlink` and `flush` name dropped messages.
pub fn replays_are_lawful()
    ensures lawful { (t r : Transcript) → IsReplayOf t r → IsLawfulThroughout r.drivers r.entries }
    ensures drops { (t r : Transcript) → IsReplayOf t r → AreDropsAllowed r.entries }
{
    lawful_after_each_entry();
    few_commands_drop();
}

/// If a transcript is within the limits of its version, and each line of its replay can be spelled, the replay is
/// within the limits of this version too. So no replay in version 1 reports a hangup, which version 1 can't express.
pub fn replays_can_be_expressed()
    ensures { (t r : Transcript) → IsAllowed t.version t → IsReplayOf t r → IsSpellable r → IsAllowed r.version r }
{
    without_a_hangup_none_is_reported();
}

/// If a transcript is within the limits of its version, the transcript with only its first entries is within them too.
pub fn first_entries_are_allowed()
    ensures { (count : ℕ) (t : Transcript) → IsAllowed t.version t → IsAllowed t.version (first_entries count t) }
{}

/// If only the first `count` entries of a transcript are replayed, the result has the first `count` entries of the
/// whole replay, and the view after these entries.
pub fn the_first_entries_are_those_of_the_replay()
    ensures entries { (count : ℕ) (t r s : Transcript) → IsReplayOf t r → IsReplayOf (first_entries count t) s
        → s.entries ≡ take count r.entries }
    ensures shown { (count : ℕ) (t r s : Transcript) → IsReplayOf t r → IsReplayOf (first_entries count t) s
        → s.view ≡ view t.drivers (after t.drivers (take count r.entries)) }
{
    histories_are_determined();
    prefixes_are_legal();
}

/// An example. The second and the third reply of the transcript `claimed` are wrong, and so is its view. Its replay,
/// `put_right`, has the right ones. Three transcripts are not the replay of `claimed`: `claimed` itself, `put_right`
/// without its last entry, and `put_right` with two entries exchanged.
pub fn the_second_is_put_right()
    ensures right { IsReplayOf claimed put_right }
    ensures not_itself { IsReplayOf claimed claimed → ⊥ }
    ensures not_left_out { IsReplayOf claimed left_out → ⊥ }
    ensures not_exchanged { IsReplayOf claimed exchanged → ⊥ }
{}

/// A transcript has at most one trace with the `waits` lines below each entry, and at most one without them.
pub fn a_transcript_has_one_trace()
    ensures { (each : Bool) (t : Transcript) (one other : List ℕ) → IsTraceText each t one → IsTraceText each t other
        → one ≡ other }
{
    a_transcript_has_one_replay();
}

/// For each entry: a trace has first the lines of the earlier entries, then the line of this entry and the lines below
/// it, then the lines of the later entries. Below each entry are the changes from the view before it to the view after
/// it, and then the `waits` lines of all queues, if `each` is set.
pub fn changes_are_below_each_entry()
    ensures { (each : Bool) (drivers : List DriverSpec) (before : List Entry) (e : Entry) (more : List Entry)
        → entry_lines_from each drivers empty (before ++ e ∷ more)
        ≡ entry_lines_from each drivers empty before ++ (trace.Plain (line.Entry e)
        ∷ lines_below each drivers (after drivers before) (after drivers (before ++ e ∷ []))
        ++ entry_lines_from each drivers (after drivers (before ++ e ∷ [])) more) }
{}

/// There are no changes from a view to itself.
pub fn equal_views_have_no_changes()
    ensures { (v : ConfigView) → changes v v ≡ [] }
{}

/// Without its lines that begin with two spaces, a trace has the lines of the replay.
pub fn a_trace_has_the_lines_of_the_transcript()
    ensures { (each : Bool) (t r : Transcript) → IsReplayOf t r
        → plain_lines (trace_lines each r.drivers r.entries) ≡ body r ++ line.End ∷ [] }
{}

/// The function `places_in` makes a list of places from the queued messages (the flow). The list has each place only
/// once, and exactly the places that have a first message.
pub fn each_queue_has_one_first_message()
    ensures once { (flow : List QueuedMessage) → AllLater (λ p q. same_place p q ≡ false) (places_in flow) }
    ensures listed { (flow : List QueuedMessage) (p : Place)
        → list_any (same_place p) (places_in flow) ≡ is_some (first_message flow p) }
{}

/// The first message of a queue has a reason to stay exactly if it can't move.
pub fn what_stays_has_a_reason()
    ensures { (drivers : List DriverSpec) (c : Configuration) (p : Place) (m : Message)
        → first_message c.flow p ≡ Some m → is_some (reason_at drivers c p m.addr) ≡ not (is_movable drivers c p) }
{}

/// After any commands, each queue with messages has one wait, which says why its first message can't move.
pub fn each_queue_waits()
    ensures { (drivers : List DriverSpec) (history : List Entry)
        → map (λ w. w.place) (waits drivers (after drivers history)) ≡ places_in (after drivers history).flow }
{
    settling_ends();
}
