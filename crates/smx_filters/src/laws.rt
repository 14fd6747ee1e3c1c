//! Laws of filters: their results in memory, the one answer to an input, and what runs, replays and explained checks
//! write. Each law is the contract of a function that does nothing.

ghost use Rattle.std.specs.Global.{Global};
ghost use Rattle.std.specs.Prelude.{◌≡◌, ◌≤◌, ◌++◌, ℕ, Bool, true, false, List, [], All, length, map, Option};
ghost use Rattle.std.specs.Prelude.{Some, None, Result, Err, Vec};
ghost use Rattle.smx_types.specs.ProgramLists.{ProgramLists};
ghost use Rattle.smx_types.specs.declared.transcript.Transcript.{Transcript};
ghost use Rattle.smx_types.specs.declared.version.Version.{Version};
ghost use Rattle.smx_model.specs.Headline.{IsReportOf};
ghost use Rattle.smx_model.specs.Histories.{call_of};
ghost use Rattle.smx_text.specs.Grammar.{Spells};
ghost use Rattle.smx_text.specs.ProgramsText.{programs_grammar};
ghost use Rattle.smx_text.specs.TranscriptText.{transcript_grammar};
ghost use Rattle.smx_text.specs.declared.text_fault.TextFault.{TextFault};
ghost use Rattle.smx_config.specs.declared.config_fault.ConfigFault.{ConfigFault};
ghost use Rattle.smx_config.specs.declared.verdict.Verdict.{Verdict};
ghost use Rattle.smx_config.specs.declared.verdict.Verdict.TheVariants.{Legal};
ghost use Rattle.smx_steps.specs.Pages.{IsOver};
ghost use Rattle.smx_steps.specs.declared.pages.TheConstants.{MAX_PAGE, MAX_STEPS};
ghost use Rattle.smx_shared.specs.declared.front.Front.{Front};
ghost use Rattle.smx_run.specs.Fronts.{AreFrontsFrom};
ghost use Rattle.smx_run.specs.ProgramOrder.{calls_from};
ghost use Rattle.smx_run.specs.Refusals.{answer_of, is_in_text};
ghost use Rattle.smx_run.specs.declared.main_fault.MainFault.{MainFault};
ghost use Rattle.smx_run.specs.declared.main_fault.MainFault.TheVariants.{Refused, Text};
ghost use Rattle.smx_run.specs.declared.main_fault.Refusal.{Refusal as AnyRefusal};
ghost use Rattle.smx_run.specs.declared.product.Product.{Product};
ghost use Rattle.smx_run.specs.declared.product.Product.TheVariants.{Page, Replay, Trace};
ghost use Rattle.smx_run.specs.declared.run_fault.RunFault.TheVariants as run;
ghost use Rattle.smx_filters.specs.CheckText.{checking};
ghost use Rattle.smx_filters.specs.ExplainText.{KeepsText, explaining, judging};
ghost use Rattle.smx_filters.specs.Filters.{Answers, GivesFor, HasEnoughMemory, RefusesFor};
ghost use Rattle.smx_filters.specs.FrontsText.{fronts_text};
ghost use Rattle.smx_filters.specs.InMemory.{EndsInMemory, FiltersInMemory};
ghost use Rattle.smx_filters.specs.Products.{IsProductOf, RefusesProduct, making};
ghost use Rattle.smx_filters.specs.RunText.{IsWrittenFor, running};

use smx_config::laws::{reports_are_judged_legal, there_is_one_verdict};
use smx_explain::laws::{a_legal_transcript_needs_none, a_transcript_has_one_explanation};
use smx_text::laws::{one_text_has_one_reading, one_transcript_has_one_reading};
use smx_trace::laws::{
    a_transcript_has_one_replay, a_transcript_has_one_trace, replays_are_the_legal_transcripts,
};

/// The results of each filter for an input in memory: if nothing fails (`ends`), if the reader fails (`unread`), and if
/// the writer fails (`cut_short`). A filter whose reader fails returns `ReadFailed`, and writes nothing. A filter whose
/// writer fails has seen the end of the input, and has written a beginning of an output that is allowed. On success,
/// the result of a check is the verdict. The result of every other filter only says that it is done.
pub fn filters_end_in_memory()
    ensures runs { (fronts : Bool) (workers : ℕ) → FiltersInMemory (running fronts workers) }
    ensures checks { FiltersInMemory checking }
    ensures products { (product : Product) → FiltersInMemory (making product) }
{}

/// One worker writes only one transcript for given programs.
pub fn one_worker_writes_one_transcript()
    ensures { (programs : ProgramLists) (one other : List ℕ) → IsWrittenFor false 1 programs one
        → IsWrittenFor false 1 programs other → one ≡ other }
{}

/// If a page is refused as too long, the refusal names a number of entries. A page of this number of entries is over a
/// limit.
pub fn a_page_refused_as_long_is_over_a_limit()
    ensures { (t : Transcript) (count : ℕ) → RefusesProduct Page t (run.LongPage count) → IsOver t count }
{}

/// A page that is given has at most 1,000 entries and 32 MiB.
pub fn a_page_is_within_its_limits()
    ensures { (t : Transcript) (output : List ℕ) → IsProductOf Page t output
        → (length t.entries ≤ MAX_STEPS) × (length output ≤ MAX_PAGE) }
{}

/// This law is about a check (with or without an explanation), a replay, a trace, and a run on one worker whose output
/// is a transcript. Unless memory runs out, each of these has only one result and one output for an input. So an input
/// can't both succeed and be refused, and a refused input has only one fault.
pub fn an_input_has_one_answer()
    ensures checked { (input : List ℕ) (one other : Result (Verdict × List ℕ) MainFault)
        → Answers checking input one → Answers checking input other
        → HasEnoughMemory one → HasEnoughMemory other → one ≡ other }
    ensures replayed { (at : Option ℕ) (input : List ℕ) (one other : Result (Unit {0} × List ℕ) MainFault)
        → Answers (making (Replay at)) input one → Answers (making (Replay at)) input other
        → HasEnoughMemory one → HasEnoughMemory other → one ≡ other }
    ensures traced { (waits : Bool) (input : List ℕ) (one other : Result (Unit {0} × List ℕ) MainFault)
        → Answers (making (Trace waits)) input one → Answers (making (Trace waits)) input other
        → HasEnoughMemory one → HasEnoughMemory other → one ≡ other }
    ensures explained { (input : List ℕ) (one other : Result (Verdict × List ℕ) MainFault)
        → Answers explaining input one → Answers explaining input other
        → HasEnoughMemory one → HasEnoughMemory other → one ≡ other }
    ensures run { (input : List ℕ) (one other : Result (Unit {0} × List ℕ) MainFault)
        → Answers (running false 1) input one → Answers (running false 1) input other
        → HasEnoughMemory one → HasEnoughMemory other → one ≡ other }
{
    there_is_one_verdict();
    a_transcript_has_one_replay();
    a_transcript_has_one_explanation();
    a_transcript_has_one_trace();
    one_text_has_one_reading();
    one_transcript_has_one_reading();
}

/// Unless memory runs out, a run of at most one process whose output is a transcript has only one result and one output
/// for an input, on any number of workers.
pub fn a_run_of_one_process_has_one_answer()
    ensures { (workers : ℕ) (input : List ℕ) (one other : Result (Unit {0} × List ℕ) MainFault)
        → ((version : Version) (p : ProgramLists) → Spells (programs_grammar version) input p → length p.programs ≤ 1)
        → Answers (running false workers) input one → Answers (running false workers) input other
        → HasEnoughMemory one → HasEnoughMemory other → one ≡ other }
{
    one_text_has_one_reading();
}

/// If a run of an input can succeed, the input can't be refused for its drivers. This holds for any number of workers,
/// whether the run writes a transcript or fronts.
pub fn what_is_run_has_drivers()
    ensures { (fronts : Bool) (workers : ℕ) (input output : List ℕ) (done : Unit {0}) (fault : ConfigFault)
        → GivesFor (running fronts workers) input done output
        → RefusesFor (running fronts workers) input (run.ConfigFault fault) → ⊥ }
{
    one_text_has_one_reading();
}

/// If a run writes a transcript, on any number of workers, a check finds this transcript legal. If the bytes that the
/// run wrote spell a transcript, this transcript is in the version of the programs, and is a report that is promised
/// for the programs. (A report is drivers, a history and the view after it. It is promised for programs if it has their
/// drivers, which are valid, and a legal history with the commands of each program, each once, in order, and no
/// others.)
pub fn a_run_writes_one_legal_transcript()
    ensures legal { (workers : ℕ) (programs : ProgramLists) (output : List ℕ)
        → IsWrittenFor false workers programs output → (line : List ℕ) × GivesFor checking output Legal line }
    ensures no_other { (workers : ℕ) (programs : ProgramLists) (output : List ℕ) (version : Version) (t : Transcript)
        → IsWrittenFor false workers programs output → Spells (transcript_grammar version) output t
        → (t.version ≡ programs.version) × IsReportOf programs t }
{
    reports_are_judged_legal();
    one_transcript_has_one_reading();
}

/// All fronts that a run writes are those of one report that is promised for the programs, and each process has one
/// front. The front of a process counts the entries and the links at some point of the report. All commands of the
/// process come before this point. No front counts more entries than the report has. On one worker the report has the
/// programs one after the other.
pub fn a_run_writes_the_fronts_of_one_report()
    ensures { (workers : ℕ) (programs : ProgramLists) (output : List ℕ) → IsWrittenFor true workers programs output
        → (report : Transcript) × (fronts : List Front) × IsReportOf programs report × (output ≡ fronts_text fronts)
        × (length fronts ≡ length programs.programs) × All (λ f. f.entries ≤ length report.entries) fronts
        × AreFrontsFrom report.drivers report.entries 0 programs.programs fronts
        × (workers ≤ 1 → map call_of report.entries ≡ calls_from 0 programs.programs) }
{}

/// If a check judges an input legal, the replay of all its entries gives this input back, byte by byte.
pub fn a_legal_transcript_is_given_back()
    ensures { (input line output : List ℕ) (done : Unit {0}) → GivesFor checking input Legal line
        → GivesFor (making (Replay None)) input done output → output ≡ input }
{
    one_transcript_has_one_reading();
    a_transcript_has_one_replay();
    replays_are_the_legal_transcripts();
}

/// A check judges the output of a replay legal, whether it is a replay of all entries or of the first ones. For an
/// input and a value of `at`, a replay has only one possible output.
pub fn a_replay_is_one_legal_transcript()
    ensures legal { (at : Option ℕ) (input output : List ℕ) (done : Unit {0})
        → GivesFor (making (Replay at)) input done output
        → (line : List ℕ) × GivesFor checking output Legal line }
    ensures one { (at : Option ℕ) (input one other : List ℕ) (done : Unit {0})
        → GivesFor (making (Replay at)) input done one → GivesFor (making (Replay at)) input done other
        → one ≡ other }
{
    one_transcript_has_one_reading();
    a_transcript_has_one_replay();
    replays_are_the_legal_transcripts();
}

/// A check with an explanation has the verdict of a check without one, and first writes what that check writes. If the
/// verdict is `legal`, the explanation is empty.
pub fn an_explained_check_is_a_check()
    ensures { (explain : Bool) (input output : List ℕ) (verdict : Verdict)
        → GivesFor (judging explain) input verdict output
        → (line told : List ℕ) × GivesFor checking input verdict line × (output ≡ line ++ told)
        × (verdict ≡ Legal → told ≡ []) }
{
    a_legal_transcript_needs_none();
}

/// This law is about an explained check or run whose input is in memory, and whose reader and writer don't fail. The
/// result is one that the filter allows. If the text is malformed or its drivers are refused, the whole input is kept.
/// If a check has any other fault, such as out-of-memory, nothing is kept.
pub fn faults_are_explained_in_memory()
    ensures check { (input left output : List ℕ) (ended flushed : Bool) (answer : Result Verdict AnyRefusal)
        → KeepsText explaining (Some input) (Some left) ended 0 (Some []) (Some output) flushed 0 answer
        → EndsInMemory explaining input left ended output flushed (answer_of answer) }
    ensures run { (workers : ℕ) (fronts : Bool) (input left output : List ℕ) (ended flushed : Bool)
        (answer : Result (Unit {0}) AnyRefusal)
        → KeepsText (running fronts workers) (Some input) (Some left) ended 0 (Some []) (Some output) flushed 0 answer
        → EndsInMemory (running fronts workers) input left ended output flushed (answer_of answer) }
    ensures check_keeps { (input left output : List ℕ) (ended flushed : Bool) (refusal : AnyRefusal)
        → KeepsText explaining (Some input) (Some left) ended 0 (Some []) (Some output) flushed 0 (Err refusal)
        → is_in_text refusal.fault ≡ true
        → (text : Vec ℕ Global) × (refusal.text ≡ Some text) × (text.items ≡ input) }
    ensures run_keeps { (workers : ℕ) (fronts : Bool) (input left output : List ℕ) (ended flushed : Bool)
        (refusal : AnyRefusal)
        → KeepsText (running fronts workers) (Some input) (Some left) ended 0 (Some []) (Some output) flushed 0
        (Err refusal) → is_in_text refusal.fault ≡ true
        → (text : Vec ℕ Global) × (refusal.text ≡ Some text) × (text.items ≡ input) }
    ensures none_kept { (input left output : List ℕ) (ended flushed : Bool) (refusal : AnyRefusal)
        → KeepsText explaining (Some input) (Some left) ended 0 (Some []) (Some output) flushed 0 (Err refusal)
        → is_in_text refusal.fault ≡ false → refusal.text ≡ None }
    ensures text { (fault : TextFault) → is_in_text (Text fault) ≡ true }
    ensures drivers { (fault : ConfigFault) → is_in_text (Refused (run.ConfigFault fault)) ≡ true }
    ensures no_memory { is_in_text (Refused run.NoMemory) ≡ false }
    ensures no_thread { is_in_text (Refused run.NoThread) ≡ false }
    ensures few_entries { (count : ℕ) → is_in_text (Refused (run.FewEntries count)) ≡ false }
    ensures long_page { (count : ℕ) → is_in_text (Refused (run.LongPage count)) ≡ false }
{}
