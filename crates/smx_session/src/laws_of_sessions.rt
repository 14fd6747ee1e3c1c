//! Laws of sessions. Each law is the contract of a function that does nothing.

ghost use Rattle.std.specs.Prelude.{◌≡◌, ◌≢◌, ◌<◌, ◌⊎◌, ℕ, List, [], ◌∷◌, ◌++◌, Result, Ok, Err, Some, IfErr, codes};
ghost use Rattle.smx_types.specs.declared.command.Entry.{Entry};
ghost use Rattle.smx_types.specs.declared.version.Version.TheVariants.{V2};
ghost use Rattle.smx_model.specs.Views.{view};
ghost use Rattle.smx_text.specs.GrowingTranscripts.{BeginsTranscript, transcript_with};
ghost use Rattle.smx_text.specs.TranscriptText.{transcript_text};
ghost use Rattle.smx_text.specs.declared.text_fault.TextFault.{TextFault};
ghost use Rattle.smx_words.specs.LineReading.{IsNoCallLine};
ghost use Rattle.smx_words.specs.Spellable.{FitsEntry};
ghost use Rattle.smx_session.specs.Sessions.{HasNoLine, IsAfter, IsLastLine, IsNotPerformed, IsStartOf, Performs};
ghost use Rattle.smx_session.specs.Sessions.{StartsAs, State, shown_lines};
ghost use Rattle.smx_session.specs.WorkedSessions.{begun, hung, opened, table};
ghost use Rattle.smx_session.specs.declared.faults.EntryFault.TheVariants as entry_fault;
ghost use Rattle.smx_session.specs.declared.faults.EntryFault.TheVariants.{NoEntry};
ghost use Rattle.smx_session.specs.declared.faults.LineFault.TheVariants as line_fault;
ghost use Rattle.smx_session.specs.declared.faults.LineFault.TheVariants.{NoCommand};
ghost use Rattle.smx_session.specs.declared.faults.StartFault.{StartFault};
ghost use Rattle.smx_session.specs.declared.faults.StartFault.TheVariants.{NoMemory, Text};

use smx_config::laws::drivers_have_one_fault;
use smx_model::laws::one_entry_more;
use smx_text::laws::{one_text_has_one_reading, want_of_memory_comes_before};
use smx_text::worked_texts::wrong_programs;
use smx_words::laws::{each_line_has_a_reading, one_value_each, which_lines_are_calls};

/// Apart from out-of-memory, a text has only one result: a session with the drivers of the text, or a fault. If a text
/// has a fault at line 1 or 2, out-of-memory is never reported for this text.
pub fn a_text_has_one_start()
    ensures one { (text : List ℕ) (one other : Result State StartFault) → StartsAs text one → StartsAs text other
        → IfErr one (λ t. t ≢ NoMemory) → IfErr other (λ t. t ≢ NoMemory) → one ≡ other }
    ensures before { (text : List ℕ) (fault : TextFault) → StartsAs text (Err (Text fault))
        → StartsAs text (Err NoMemory) → 2 < fault.line }
{
    one_text_has_one_reading();
    want_of_memory_comes_before();
    drivers_have_one_fault();
}

/// A call is a process and a command that the version allows. In each state of a session, a line that is a call leads
/// to exactly one next state. Any other line leads to none.
pub fn a_line_is_performed_in_one_way()
    ensures one { (old new other : State) (line : List ℕ) → Performs old line new → Performs old line other
        → new ≡ other }
    ensures not_both { (old new : State) (line : List ℕ) → Performs old line new → IsNoCallLine old.version line → ⊥ }
    ensures always { (old : State) (line : List ℕ)
        → ((new : State) × Performs old line new) ⊎ IsNoCallLine old.version line }
{
    one_value_each();
    each_line_has_a_reading();
}

/// The entries that the lines give, in order, are a legal history. The session has the configuration after this
/// history.
pub fn lines_make_a_legal_history()
    ensures begins { (text : List ℕ) (s : State) → IsStartOf text s → IsAfter [] s }
    ensures goes_on { (history : List Entry) (old new : State) (line : List ℕ) → IsAfter history old
        → Performs old line new → (e : Entry) × (new.last ≡ Some e) × IsAfter (history ++ e ∷ []) new }
{
    one_entry_more();
}

/// One after the other, these texts of a session form a transcript: the opening, the line of each entry, the lines of
/// the configuration, and `end`.
pub fn what_is_written_is_a_transcript()
    ensures grows { (s : State) (before : List Entry) (e : Entry) (text line : List ℕ)
        → BeginsTranscript s.version s.drivers before text → s.last ≡ Some e → FitsEntry e → IsLastLine s line
        → BeginsTranscript s.version s.drivers (before ++ e ∷ []) (text ++ line) }
    ensures ends { (s : State) (entries : List Entry) (text : List ℕ)
        → BeginsTranscript s.version s.drivers entries text → text ++ (shown_lines s ++ codes "end\n")
        ≡ transcript_text (transcript_with s.version s.drivers entries (view s.drivers s.configuration)) }
{}

/// Examples and counterexamples. A text starts a session (`starts`). A first line opens a stream (`opens`), and a
/// second line hangs it up (`hangs_up`). A line for another process doesn't lead to the state after the first line
/// (`no_other_process`). A line that opens a stream doesn't leave the state as it was (`not_undone`). `tells` has the
/// line of an entry, and in `tells_none` a session without an entry has no such line. The other clauses say for which
/// inputs the faults `NoMemory`, `NoCommand` and `NoEntry` are possible, and for which they are not.
pub fn a_worked_session()
    ensures starts { StartsAs table (Ok begun) }
    ensures no_memory { StartsAs table (Err NoMemory) }
    ensures no_memory_for_a_wrong_header { StartsAs (codes "programs 3\n") (Err NoMemory) → ⊥ }
    ensures opens { Performs begun (codes "3 clone eth") opened }
    ensures hangs_up { Performs opened (codes "5 hangup eth 0") hung }
    ensures tells { IsLastLine opened (codes "3 clone eth = fd 0 0\n") }
    ensures tells_none { IsLastLine begun (codes "3 clone eth = fd 0 0\n") → ⊥ }
    ensures no_other_process { Performs begun (codes "2 clone eth") opened → ⊥ }
    ensures not_undone { Performs begun (codes "3 clone eth") begun → ⊥ }
    ensures no_command { IsNotPerformed V2 (codes "dup 0") NoCommand }
    ensures not_for_want_of_memory { IsNotPerformed V2 (codes "dup 0") line_fault.NoMemory → ⊥ }
    ensures not_as_no_command { IsNotPerformed V2 (codes "0 hangup ip 0") NoCommand → ⊥ }
    ensures no_entry { HasNoLine begun NoEntry }
    ensures no_memory_for_none { HasNoLine begun entry_fault.NoMemory → ⊥ }
    ensures not_as_no_entry { HasNoLine opened NoEntry → ⊥ }
{
    one_value_each();
    which_lines_are_calls();
    one_text_has_one_reading();
    want_of_memory_comes_before();
    wrong_programs();
}
