//! Laws of columns and of explanations. Each law is the contract of a function that does nothing.

ghost use Rattle.std.specs.Prelude.{◌≡◌, ◌+◌, ◌<◌, ℕ, List, [], Some, length, take, codes};
ghost use Rattle.smx_types.specs.declared.transcript.Transcript.{Transcript as AnyTranscript};
ghost use Rattle.smx_types.specs.declared.version.Version.{Version as AnyVersion};
ghost use Rattle.smx_types.specs.declared.version.Version.TheVariants.{V1, V2};
ghost use Rattle.smx_config.specs.Verdicts.{IsVerdict};
ghost use Rattle.smx_config.specs.declared.verdict.Verdict.TheVariants.{ConfigDiffers, Legal};
ghost use Rattle.smx_explain.specs.ColumnWords.{IsExplanationOf};
ghost use Rattle.smx_explain.specs.Columns.{IsColumn, IsWhole};
ghost use Rattle.smx_explain.specs.Differences.{AreAlike, IsFirstDifference, IsFirstLine};
ghost use Rattle.smx_explain.specs.Explanations.{IsExplanation, difference_text};
ghost use Rattle.smx_explain.specs.Hints.{IsHeader, IsHintOn};
ghost use Rattle.smx_explain.specs.WorkedColumns.{choice_at, value_at};
ghost use Rattle.smx_explain.specs.declared.columns.LineColumn.{LineColumn as AnyColumn};
ghost use Rattle.smx_explain.specs.declared.hints.Hint.TheVariants.{LaterVersion, SmallLetters};
ghost use Rattle.smx_explain.specs.declared.kinds.Choice.TheVariants as choice;
ghost use Rattle.smx_explain.specs.declared.kinds.LineKind.{LineKind as AnyKind};
ghost use Rattle.smx_explain.specs.declared.kinds.LineKind.TheVariants.{Programs, Transcript, Session};
ghost use Rattle.smx_explain.specs.declared.kinds.TextKind.TheVariants as text;
ghost use Rattle.smx_explain.specs.declared.kinds.Value.TheVariants as value;
ghost use Rattle.smx_explain.specs.declared.kinds.Wanted.TheVariants as wanted;
ghost use Rattle.smx_model.specs.DriverList.{IsDriverList};
ghost use Rattle.smx_model.specs.Histories.{after};
ghost use Rattle.smx_model.specs.IllegalEntries.{IsFirstIllegal};
ghost use Rattle.smx_trace.specs.Answers.{answered};
ghost use Rattle.smx_text.specs.TranscriptText.{IsAllowed};
ghost use Rattle.smx_words.specs.Spelling.{entry_words};
ghost use Rattle.smx_words.specs.Words.{line_of};

use smx_model::laws::histories_are_determined;
use smx_trace::laws::{a_transcript_has_one_replay, replays_are_the_legal_transcripts};
use smx_words::laws::{one_value_each, spellings_are_words};

/// A line becomes invalid in at most one column, and only one kind of word is expected there. A valid line has no such
/// column. (`column_of` returns a column for every line that is not valid.)
pub fn a_line_has_one_column()
    ensures column { (kind : AnyKind) (version : AnyVersion) (line : List ℕ) (one other : AnyColumn)
        → IsColumn kind version line one → IsColumn kind version line other → one ≡ other }
    ensures not_both { (kind : AnyKind) (version : AnyVersion) (line : List ℕ) (at : AnyColumn)
        → IsColumn kind version line at → IsWhole kind version line → ⊥ }
{}

/// Examples, typed in by hand: lines with the column in which they become invalid, and lines that are valid.
#[tactic(auto, using(crate::proofs::WorkedColumnLemmas::worked_columns))]
pub fn worked_columns()
    ensures empty { IsColumn Programs V1 (codes "") (choice_at 1 choice.ProgramsLine) }
    ensures missing_word { IsColumn Programs V1 (codes "dup") (value_at 5 value.Number) }
    ensures word_too_many { IsColumn Programs V1 (codes "exit 0") (choice_at 6 choice.End) }
    ensures two_spaces { IsColumn Programs V1 (codes "clone  ip") (value_at 7 value.Name) }
    ensures of_version_2 { IsColumn Programs V1 (codes "hangup eth 0") (choice_at 1 choice.ProgramsLine) }
    ensures in_version_2 { IsColumn Programs V2 (codes "hangup eth") (value_at 12 value.Number) }
    ensures no_equals { IsColumn Transcript V2 (codes "0 exit done") (choice_at 8 choice.Equals) }
    ensures other_cause { IsColumn Transcript V1 (codes "0 exit = EBADF full") (choice_at 16 choice.BadDescriptor) }
    ensures serials { IsWhole Transcript V1 (codes "0 exit = done 7 5") }
    ensures misspelt { IsColumn Session V2 (codes "0 wirte 0 5 aa") (choice_at 3 choice.SessionCommand) }
    ensures reply_too_many { IsColumn Session V1 (codes "1 clone ip = fd 0 0") (choice_at 12 choice.End) }
    ensures show { IsWhole Session V1 (codes "show") }
    ensures trace_on { IsWhole Session V1 (codes "trace on") }
    ensures trace_off { IsWhole Session V1 (codes "trace off") }
    ensures end { IsWhole Session V1 (codes "end") }
    ensures no_switch { IsColumn Session V1 (codes "trace") (choice_at 7 choice.Switch) }
{}

/// A line of a session has only one explanation. The explanation is empty exactly if the line is valid.
pub fn a_line_has_one_explanation()
    ensures one { (version : AnyVersion) (line one other : List ℕ) → IsExplanationOf version line one
        → IsExplanationOf version line other → one ≡ other }
    ensures request { (version : AnyVersion) (line : List ℕ) → IsWhole Session version line
        → IsExplanationOf version line [] }
    ensures other { (version : AnyVersion) (line : List ℕ) → IsExplanationOf version line []
        → IsWhole Session version line }
{}

/// Examples, typed in by hand: explanations of lines of a session, hints on words, and headers of texts.
pub fn worked_explanations()
    ensures no_request { IsExplanationOf V2 (codes "x")
        (codes "  column 1: 'show', 'trace', 'end', or a process from 0 to 63 is wanted\n") }
    ensures misspelt { IsExplanationOf V2 (codes "0 wirte 0 5 aa")
        (codes "  column 3: a command, or in version 2 'hangup' is wanted\n  did you mean 'write'?\n") }
    ensures later { IsHintOn V1 (wanted.Choice choice.Command) (codes "hangup") (Some LaterVersion) }
    ensures capitals { IsHintOn V2 (wanted.Value value.Bytes) (codes "AA") (Some SmallLetters) }
    ensures programs { IsHeader text.Programs (codes "programs 2") }
    ensures transcript { IsHeader text.Transcript (codes "transcript 2") }
{}

/// Two texts have at most one first difference. They have none if they are alike: their whole lines (those with a line
/// feed) are equal, up to the point where one text has no more. Bytes have only one first line.
pub fn texts_have_one_first_difference()
    ensures one { (one other : List ℕ) (number count : ℕ) (told has said had : List ℕ)
        → IsFirstDifference one other number told has → IsFirstDifference one other count said had
        → (number ≡ count) × (told ≡ said) × (has ≡ had) }
    ensures not_both { (one other : List ℕ) (number : ℕ) (told has : List ℕ)
        → IsFirstDifference one other number told has → AreAlike one other → ⊥ }
    ensures line { (bytes one other : List ℕ) → IsFirstLine one bytes → IsFirstLine other bytes → one ≡ other }
{}

/// Examples, typed in by hand: two pairs of texts with the first line in which they differ; a pair that is alike, since
/// only their last lines differ, and these lack a line feed; and two texts with their first line.
#[tactic(auto, using(crate::proofs::WorkedDifferenceLemmas::worked_differences))]
pub fn worked_differences()
    ensures second { IsFirstDifference (codes "a\nb\nc\n") (codes "a\nx\nd\n") 2 (codes "b") (codes "x") }
    ensures ends_early { IsFirstDifference (codes "a\nend\n") (codes "a\n\nend\n") 2 (codes "end") [] }
    ensures not_whole { AreAlike (codes "a\nb") (codes "a\nc") }
    ensures whole_line { IsFirstLine (codes "b") (codes "b\nc\n") }
    ensures last_line { IsFirstLine (codes "b c") (codes "b c") }
{}

/// A transcript has only one explanation.
pub fn a_transcript_has_one_explanation()
    ensures { (t : AnyTranscript) (one other : List ℕ) → IsExplanation t one → IsExplanation t other → one ≡ other }
{
    a_transcript_has_one_replay();
}

/// The explanation is empty exactly if the verdict is `legal`. So no replay is needed to explain a legal transcript.
pub fn a_legal_transcript_needs_none()
    ensures legal { (t : AnyTranscript) (output : List ℕ) → IsExplanation t output
        → IsVerdict t.drivers t.entries t.view Legal → output ≡ [] }
    ensures other { (t : AnyTranscript) (output : List ℕ) → IsExplanation t output → output ≡ []
        → IsVerdict t.drivers t.entries t.view Legal }
    ensures none { (t : AnyTranscript) → IsAllowed t.version t → IsDriverList t.drivers
        → IsVerdict t.drivers t.entries t.view Legal → IsExplanation t [] }
{
    a_transcript_has_one_replay();
    replays_are_the_legal_transcripts();
}

/// This law is about a transcript within the limits of its version. If an entry is the first illegal one, the
/// explanation shows the line of this entry, with the number of this line in the text. It also shows the same entry
/// with the reply that the model gives to its command after the earlier entries.
pub fn an_illegal_entry_is_reported()
    ensures { (t : AnyTranscript) (output : List ℕ) → IsAllowed t.version t → IsExplanation t output
        → (number : ℕ) (first : IsFirstIllegal t.drivers t.entries number)
        → output ≡ difference_text (length t.drivers + number + 1) (line_of (entry_words first.entry))
        (line_of (entry_words (answered t.drivers (after t.drivers (take first.before t.entries)) first.entry))) }
{
    one_value_each();
    spellings_are_words();
}

/// This law is about a transcript within the limits of its version. If the verdict is that only the configuration
/// differs, the explanation shows a line after the line `config`.
pub fn a_differing_line_is_reported()
    ensures { (t : AnyTranscript) (output : List ℕ) → IsAllowed t.version t → IsExplanation t output
        → IsVerdict t.drivers t.entries t.view ConfigDiffers
        → (number : ℕ) × (told has : List ℕ) × (output ≡ difference_text number told has)
        × (length t.drivers + length t.entries + 2 < number) }
{
    histories_are_determined();
    spellings_are_words();
}
