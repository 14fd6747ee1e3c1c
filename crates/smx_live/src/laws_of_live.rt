//! Laws of live sessions. Each law is the contract of a function that does nothing.

ghost use Rattle.std.specs.List.{AllByRecursion};
ghost use Rattle.std.specs.Prelude.{◌≡◌, ◌≢◌, ℕ, ◌<◌, ◌≤◌, ◌^◌, Bool, true, false, List, [], ◌++◌, length, Ok, Err};
ghost use Rattle.std.specs.Prelude.{codes};
ghost use Rattle.smx_types.specs.declared.command.Entry.{Entry};
ghost use Rattle.smx_types.specs.declared.driver.SpecFault.TheVariants.{BadMinors};
ghost use Rattle.smx_types.specs.declared.version.Version.{Version as AnyVersion};
ghost use Rattle.smx_types.specs.declared.version.Version.TheVariants.{V1, V2};
ghost use Rattle.smx_types.specs.declared.view.ConfigView.{ConfigView};
ghost use Rattle.smx_model.specs.Worked.Common.{Fd, OpenClone, ◌does◌gets◌, eth};
ghost use Rattle.smx_config.specs.declared.config_fault.ConfigFault.TheVariants as config;
ghost use Rattle.smx_run.specs.declared.run_fault.RunFault.{RunFault as AnyFault};
ghost use Rattle.smx_run.specs.declared.run_fault.RunFault.TheVariants as run;
ghost use Rattle.smx_text.specs.Grammar.{IsOneLine, ReadsAny};
ghost use Rattle.smx_text.specs.ProgramsText.{programs_grammar};
ghost use Rattle.smx_text.specs.declared.text_fault.Cause.TheVariants as cause;
ghost use Rattle.smx_text.specs.declared.text_fault.TextFault.{TextFault};
ghost use Rattle.smx_session.specs.Sessions.{State};
ghost use Rattle.smx_session.specs.WorkedSessions.{begun, drivers, one_open};
ghost use Rattle.smx_run.specs.declared.input.TheConstants.{MAX_INPUT};
ghost use Rattle.smx_run.specs.declared.main_fault.MainFault.TheVariants.{ReadFailed, Refused, Text, TooLong};
ghost use Rattle.smx_run.specs.declared.main_fault.MainFault.TheVariants.{WriteFailed};
ghost use Rattle.smx_explain.specs.ColumnWords.{IsExplanationOf};
ghost use Rattle.smx_live.specs.Inboxes.{HasLine, IsTooLong};
ghost use Rattle.smx_live.specs.LiveText.{HasComeSoFar, IsBroken, IsLegalTranscript, IsLive, IsOver, RefusesDriversOf};
ghost use Rattle.smx_live.specs.LiveText.{Returned};
ghost use Rattle.smx_live.specs.Tables.{HasTableOf, IsEndlessTable, IsTable, IsUnfinished, table_text};
ghost use Rattle.smx_live.specs.Turns.{Entered, HasEnoughMemory, IsAnswer, IsBelow, IsExplained, IsRefusedFor};
ghost use Rattle.smx_live.specs.Turns.{NotDone, Shown, traces_after};
ghost use Rattle.smx_live.specs.WorkedLives.{minorless_text, worked_answers, worked_input, worked_output};
ghost use Rattle.smx_live.specs.WorkedLives.{worked_line, worked_opening, worked_table};
ghost use Rattle.smx_live.specs.declared.talk.Progress.{Progress};
ghost use Rattle.smx_live.specs.declared.talk.TurnFault.{TurnFault};
ghost use Rattle.smx_live.specs.declared.talk.TurnFault.TheVariants.{NoCommand, NoMemory, Full};

use smx_config::laws::drivers_have_one_fault;
use smx_explain::laws::{a_line_has_one_explanation, worked_explanations};
use smx_model::laws::{one_entry_more, without_a_hangup_none_is_reported};
use smx_session::laws_of_sessions::a_worked_session;
use smx_text::laws::one_text_has_one_reading;
use smx_text::worked_texts::wrong_programs;
use smx_words::laws::{one_value_each, which_lines_are_calls};

/// Take the output of a session that has ended, and remove the answers that are not entries, and the lines below
/// answers. The rest is the transcript of a legal history, and a check finds it legal.
pub fn live_sessions_are_legal_transcripts()
    ensures { (explain : Bool) (read : List ℕ) (ended : Bool) (output : List ℕ)
        (o : IsOver explain read ended output) → IsLegalTranscript o }
{
    one_entry_more();
    without_a_hangup_none_is_reported();
}

/// Two sessions that have ended wrote the same output if three things are the same: the bytes that they read, whether
/// the input has ended, and whether lines are explained. The law requires that neither session has refused a line for
/// lack of memory.
pub fn a_session_has_one_output()
    ensures { (explain : Bool) (read : List ℕ) (ended : Bool) (one other : List ℕ) (o : IsOver explain read ended one)
        (p : IsOver explain read ended other) → HasEnoughMemory o.live.turns → HasEnoughMemory p.live.turns
        → one ≡ other }
{
    one_text_has_one_reading();
    one_value_each();
    a_line_has_one_explanation();
}

/// The table of a session, read as a programs text, has no fault except out-of-memory. Out-of-memory is also the only
/// reason for which its drivers can be refused. The table and each line that was answered have at most 16,777,216
/// bytes.
pub fn a_session_has_its_drivers()
    ensures text { (explain : Bool) (read output : List ℕ) (ended : Bool) (fault : TextFault)
        → HasComeSoFar explain read ended output
        → HasTableOf read ended (λ text. ReadsAny programs_grammar text (Err fault))
        → fault.cause ≢ cause.NoMemory → ⊥ }
    ensures drivers { (explain : Bool) (read output : List ℕ) (ended : Bool) (fault : AnyFault)
        → HasComeSoFar explain read ended output
        → HasTableOf read ended (RefusesDriversOf fault) → fault ≡ run.NoMemory }
    ensures short { (explain : Bool) (read output held : List ℕ) (ended : Bool) (s : State) (far : Progress)
        (l : IsLive explain read ended output s far held)
        → (length l.table ≤ MAX_INPUT) × AllByRecursion (λ t. length t.line ≤ MAX_INPUT) l.turns }
{
    one_text_has_one_reading();
    drivers_have_one_fault();
}

/// A table is read as a programs text. If a fault of this text or of its drivers is reported, the table is not too
/// long, and nothing was written. For the same bytes only one fault can be reported: one of the text, or one of the
/// drivers. Memory can also run out instead; this is never reported as a fault of the text.
pub fn a_table_has_one_fault()
    ensures text { (read : List ℕ) (ended : Bool) (fault : TextFault) (o : Returned read ended (Err (Text fault)))
        → (fault.cause ≢ cause.NoMemory) × (o.output ≡ []) × (IsEndlessTable read → ⊥) }
    ensures drivers { (read : List ℕ) (ended : Bool) (fault : AnyFault) (o : Returned read ended (Err (Refused fault)))
        → fault ≢ run.NoMemory → (o.output ≡ []) × (IsEndlessTable read → ⊥) }
    ensures one { (read : List ℕ) (ended : Bool) (one other : TextFault) → Returned read ended (Err (Text one))
        → Returned read ended (Err (Text other)) → one ≡ other }
    ensures one_refusal { (read : List ℕ) (ended : Bool) (one other : AnyFault) → Returned read ended (Err (Refused one))
        → Returned read ended (Err (Refused other)) → one ≢ run.NoMemory → other ≢ run.NoMemory → one ≡ other }
    ensures text_first { (read : List ℕ) (ended : Bool) (fault : TextFault) (other : AnyFault)
        → Returned read ended (Err (Text fault)) → Returned read ended (Err (Refused other)) → other ≡ run.NoMemory }
{
    one_text_has_one_reading();
    drivers_have_one_fault();
}

/// A table is too long only if more than 16,777,216 bytes were read. A line is too long only if it has more than
/// 16,777,216 bytes. These are not too long:
///
/// - a table that has ended and has at most 16,777,216 bytes, whatever follows it;
/// - a whole line of at most 16,777,216 bytes;
/// - the table of a session;
/// - the bytes that were read but not yet taken as a line, when a session has ended.
pub fn what_is_too_long()
    ensures table { (read : List ℕ) → IsEndlessTable read → MAX_INPUT < length read }
    ensures line { (held : List ℕ) → IsTooLong held → MAX_INPUT < length held }
    ensures no_table { (ended : Bool) (table rest : List ℕ) → IsTable ended table rest → length table ≤ MAX_INPUT
        → IsEndlessTable (table ++ rest) → ⊥ }
    ensures no_line { (n : ℕ) (held : List ℕ) → HasLine n held → n ≤ MAX_INPUT → IsTooLong held → ⊥ }
    ensures no_session { (explain : Bool) (read output : List ℕ) (ended : Bool) → HasComeSoFar explain read ended output
        → IsEndlessTable read → ⊥ }
    ensures no_end { (explain : Bool) (read output : List ℕ) (ended : Bool) (o : IsOver explain read ended output)
        → IsTooLong o.held → ⊥ }
{}

/// A table ends before a line that doesn't belong to it, or at the end of the input. So if a table has ended, and each
/// whole line that was read belongs to it (`IsUnfinished`), the input has ended. After the first line, a line `drivers`
/// belongs to the table, and a line `drive` does not.
pub fn where_a_table_is_over()
    ensures finished { (ended : Bool) (table rest : List ℕ) → IsTable ended table rest
        → IsUnfinished (table ++ rest) → (ended ≡ true) × IsOneLine rest }
    ensures behind_drivers { IsTable false (codes "programs 2\ndrivers\n") (codes "drive\n") }
    ensures not_before_drivers { IsTable false (codes "programs 2\n") (codes "drivers\ndrive\n") → ⊥ }
    ensures unfinished { IsUnfinished (codes "programs 2\ndrivers\ndrive") }
    ensures not_unfinished { IsUnfinished (codes "programs 2\ndrivers\ndrive\n") → ⊥ }
{}

/// A worked session: its input and its output. Examples of tables show that a table ends after its last driver line,
/// even if that line is cut, and nowhere else. Examples of answers show that the lines which ask for the configuration
/// or for the end are not refused as `NoCommand`, and that a line which is not a command is not performed.
pub fn a_worked_live_session()
    ensures over { (explain : Bool) → IsOver explain worked_input false (worked_output explain) }
    ensures table { IsTable false worked_table (codes "3 clone eth\n") }
    ensures not_too_early { IsTable false (codes "programs 2\n") (codes "driver eth leaf 2 8 3 16\n3 clone eth\n") → ⊥ }
    ensures not_too_late { IsTable false (codes "programs 2\nshow\n") (codes "end\n") → ⊥ }
    ensures not_before_its_header { IsTable false [] (codes "programs 2\nshow\nend\n") → ⊥ }
    ensures not_within_a_line { IsTable false worked_table (codes "3 clone eth") → ⊥ }
    ensures over_within_a_driver { IsTable true (codes "programs 2\ndriver eth") [] }
    ensures not_before_a_cut_driver { IsTable true (codes "programs 2\n") (codes "driver eth") → ⊥ }
    ensures over_within_another { IsTable true (codes "programs 2\n") (codes "3 clone") }
    ensures show_is_asked { IsAnswer V2 drivers [] (codes "show") (NotDone NoCommand) → ⊥ }
    ensures end_is_asked { IsAnswer V2 drivers [] (codes "end") (NotDone NoCommand) → ⊥ }
    ensures trace_on_is_asked { IsAnswer V2 drivers [] (codes "trace on") (NotDone NoCommand) → ⊥ }
    ensures trace_off_is_asked { IsAnswer V2 drivers [] (codes "trace off") (NotDone NoCommand) → ⊥ }
    ensures in_its_version { (line below : List ℕ) → IsExplained true V1 line below → IsExplanationOf V1 line below }
    ensures not_performed { (e : Entry) → IsAnswer V2 drivers [] (codes "x") (Entered e) → ⊥ }
{
    a_worked_session();
    worked_explanations();
}

/// After a `trace on` that is answered by the configuration, entries are traced; after such a `trace off`, they are
/// not. No other line changes this. There is also an example of an entry: if entries are traced, its changes are below
/// it; else nothing is.
pub fn when_entries_are_traced()
    ensures on { (tracing : Bool) (v : ConfigView) → traces_after tracing (codes "trace on") (Shown v) ≡ true }
    ensures off { (tracing : Bool) (v : ConfigView) → traces_after tracing (codes "trace off") (Shown v) ≡ false }
    ensures shown { (tracing : Bool) (v : ConfigView) → traces_after tracing (codes "show") (Shown v) ≡ tracing }
    ensures empty { (tracing : Bool) (v : ConfigView) → traces_after tracing [] (Shown v) ≡ tracing }
    ensures entered { (tracing : Bool) (line : List ℕ) (e : Entry) → traces_after tracing line (Entered e) ≡ tracing }
    ensures refused { (tracing : Bool) (line : List ℕ) (w : TurnFault)
        → traces_after tracing line (NotDone w) ≡ tracing }
    ensures changes { IsBelow true V2 drivers true begun.configuration one_open (codes "3 clone eth")
        (Entered (3 does OpenClone eth gets Fd 0 0)) (codes "  + fd 3 0 eth 0\n") }
    ensures untraced { IsBelow true V2 drivers false begun.configuration one_open (codes "3 clone eth")
        (Entered (3 does OpenClone eth gets Fd 0 0)) [] }
{}

/// Examples of the output when memory runs out. The output can be empty, or the beginning of the transcript, or this
/// beginning with the answers to the lines that were read. It can't have an answer to a line that was not read, and it
/// can't be only a part of the beginning.
pub fn what_is_out_when_memory_runs_out()
    ensures nothing { (explain : Bool) → IsBroken explain worked_input false [] }
    ensures opening { (explain : Bool)
        → IsBroken explain worked_input false (codes "transcript 2\ndriver eth leaf 2 8 3 16\n") }
    ensures answers { (explain : Bool) → IsBroken explain worked_input false (worked_answers explain) }
    ensures not_an_answer { (explain : Bool) → IsBroken explain worked_table true
        (codes "transcript 2\ndriver eth leaf 2 8 3 16\n3 clone eth = fd 0 0\n") → ⊥ }
    ensures not_a_refusal { (explain : Bool) → IsBroken explain worked_table true
        (codes "transcript 2\ndriver eth leaf 2 8 3 16\n? no memory\n") → ⊥ }
    ensures not_a_part { (explain : Bool) → IsBroken explain worked_table true (codes "transcript 2\n") → ⊥ }
{
    a_worked_session();
    worked_explanations();
    one_text_has_one_reading();
}

/// Worked examples of why lines are refused. A history of 100,000 entries is full. A line that asks for the
/// configuration or for the end is then not refused as `Full`. Every other line is, even if it is not a command.
/// Out-of-memory can be reported for a line that asks for the configuration or for the end. It can also be reported for
/// a command of this version, if the history is not full.
pub fn why_lines_are_refused()
    ensures full { IsRefusedFor V2 100000 (codes "x") Full }
    ensures not_yet_full { IsRefusedFor V2 99999 (codes "x") Full → ⊥ }
    ensures full_is_reported { IsRefusedFor V2 100000 (codes "x") NoCommand → ⊥ }
    ensures shown_when_full { IsRefusedFor V2 100000 (codes "show") Full → ⊥ }
    ensures ended_when_full { IsRefusedFor V2 100000 (codes "end") Full → ⊥ }
    ensures no_command { IsRefusedFor V2 99999 (codes "x") NoCommand }
    ensures no_memory { IsAnswer V2 drivers [] (codes "3 clone eth") (NotDone NoMemory) }
    ensures no_memory_up_to_the_last { IsRefusedFor V1 99999 (codes "63 dup 0") NoMemory }
    ensures no_memory_when_full { IsRefusedFor V1 100000 (codes "63 dup 0") NoMemory → ⊥ }
    ensures no_memory_to_show { IsRefusedFor V1 100000 (codes "show") NoMemory }
    ensures no_memory_for_no_command { IsRefusedFor V1 0 (codes "x") NoMemory → ⊥ }
    ensures no_command_of_version_1 { IsRefusedFor V1 0 (codes "0 hangup ip 0") NoCommand }
    ensures none_of_version_1 { IsRefusedFor V1 0 (codes "0 hangup ip 0") NoMemory → ⊥ }
    ensures a_command_of_version_2 { IsRefusedFor V2 0 (codes "0 hangup ip 0") NoCommand → ⊥ }
{
    which_lines_are_calls();
}

/// The explanation of a line that is refused because it is not a command is never empty.
pub fn an_unknown_line_is_explained()
    ensures { (version : AnyVersion) (count : ℕ) (line : List ℕ) → IsRefusedFor version count line NoCommand
        → IsExplanationOf version line [] → ⊥ }
{
    a_line_has_one_explanation();
}

/// Examples of texts whose drivers are refused. Invalid drivers are refused for their fault. Valid drivers are refused
/// only because memory has run out. Drivers are never refused because a history is full. A text that is not a programs
/// text has no drivers that could be refused.
pub fn whose_drivers_are_refused()
    ensures refused { RefusesDriversOf (run.ConfigFault (config.BadSpec 0 BadMinors)) minorless_text }
    ensures not_for_want_of_memory { RefusesDriversOf run.NoMemory minorless_text → ⊥ }
    ensures no_memory { RefusesDriversOf run.NoMemory (table_text worked_table) }
    ensures not_refused { RefusesDriversOf (run.ConfigFault (config.BadSpec 0 BadMinors)) (table_text worked_table)
        → ⊥ }
    ensures not_for_a_full_history { (text : List ℕ) → RefusesDriversOf run.HistoryFull text → ⊥ }
    ensures not_of_what_is_cut { (fault : AnyFault) → RefusesDriversOf fault (codes "programs 2\n") → ⊥ }
{
    one_text_has_one_reading();
    wrong_programs();
}

/// A session succeeds only if neither its reader nor its writer has failed. It fails for its reader or for its writer
/// only if that one has failed. If it fails for its reader, what it wrote before is flushed. It fails as too long only
/// if more than 16,777,216 bytes were read. In the examples, a session has read the line `3 clone eth` and has not
/// answered it. It then fails neither for its reader, nor because a later line is too long.
pub fn no_line_waits_when_a_session_fails()
    ensures done { (read : List ℕ) (ended : Bool) (o : Returned read ended (Ok tt))
        → (o.reads ≡ 0) × (o.writes ≡ 0) × (o.flushed ≡ true) × IsOver o.explain read ended o.output }
    ensures unread { (read : List ℕ) (ended : Bool) (o : Returned read ended (Err ReadFailed))
        → (o.reads ≡ 1) × (o.writes ≡ 0) × (o.output ≢ [] → o.flushed ≡ true) }
    ensures unwritten { (read : List ℕ) (ended : Bool) (o : Returned read ended (Err WriteFailed))
        → (o.reads ≡ 0) × (o.writes ≡ 1) }
    ensures long { (read : List ℕ) (ended : Bool) (o : Returned read ended (Err TooLong))
        → (o.reads ≡ 0) × (o.writes ≡ 0) × (MAX_INPUT < length read) }
    ensures none_unread { (more : List ℕ) (o : Returned (worked_table ++ (worked_line ++ more)) false (Err ReadFailed))
        → o.output ≡ worked_opening → ⊥ }
    ensures none_too_long { (more : List ℕ) (o : Returned (worked_table ++ (worked_line ++ more)) false (Err TooLong))
        → o.output ≡ worked_opening → length more < 2 ^ 63 → ⊥ }
{
    a_worked_session();
    one_text_has_one_reading();
}
