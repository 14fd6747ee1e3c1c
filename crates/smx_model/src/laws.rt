//! Laws of histories and reports, and examples that are wrong in one thing. Each law is the contract of a function that
//! does nothing.

ghost use Rattle.std.specs.Prelude.{◌≡◌, ◌⊎◌, ◌++◌, ◌∷◌, [], ℕ, false, List, map};
ghost use Rattle.std.specs.List.{All, list_any};
ghost use Rattle.smx_types.specs.ProgramLists.{ProgramLists};
ghost use Rattle.smx_types.specs.Versions.{is_hangup, is_of_hangup, least_of_programs, least_of_transcript};
ghost use Rattle.smx_types.specs.declared.command.Entry.{Entry};
ghost use Rattle.smx_types.specs.declared.driver.DriverSpec.{DriverSpec};
ghost use Rattle.smx_types.specs.declared.reply.Reply.TheVariants as reply;
ghost use Rattle.smx_types.specs.declared.transcript.Transcript.{Transcript};
ghost use Rattle.smx_types.specs.declared.version.Version.TheVariants.{V1};
ghost use Rattle.smx_model.specs.Commands.{step};
ghost use Rattle.smx_model.specs.DriverList.{IsDriverList};
ghost use Rattle.smx_model.specs.Headline.{IsReportOf};
ghost use Rattle.smx_model.specs.Histories.{after, call_of, HoldsPrograms, IsLegal};
ghost use Rattle.smx_model.specs.IllegalEntries.{IsFirstIllegal};
ghost use Rattle.smx_model.specs.LawfulHistories.{AreDropsAllowed, IsLawful, IsLawfulEnd, IsLawfulThroughout};
ghost use Rattle.smx_model.specs.LawfulHistories.{IsTakenIn};
ghost use Rattle.smx_model.specs.Views.{view};
ghost use Rattle.smx_model.specs.Worked.Reports.{another_exited, copied, exited, once_more, one, opened};
ghost use Rattle.smx_model.specs.Worked.Reports.{programs, report_with, three, too_early, two};
ghost use Rattle.smx_model.specs.Worked.SecondIsIllegal as illegal;
ghost use Rattle.smx_model.specs.Worked.Unlawful as unlawful;
ghost use Rattle.smx_model.specs.Worked.Unlawful.{opened as began, wrote};

/// A prefix of a legal history is legal.
#[tactic(auto, using(crate::proofs::HistoryLemmas::prefix_legal))]
pub fn prefixes_are_legal()
    ensures { (drivers : List DriverSpec) (early late : List Entry) → IsLegal drivers (early ++ late)
        → IsLegal drivers early }
{}

/// If an entry is appended to a history, the configuration is one step further. A legal history stays legal if the
/// reply of the entry is the one that this step gives.
#[tactic(auto, using(crate::proofs::HistoryLemmas::after_push, crate::proofs::HistoryLemmas::legal_push))]
pub fn one_entry_more()
    ensures after { (drivers : List DriverSpec) (history : List Entry) (e : Entry)
        → after drivers (history ++ e ∷ []) ≡ (step drivers (after drivers history) e.process e.command).0 }
    ensures legal { (drivers : List DriverSpec) (history : List Entry) (e : Entry) → IsLegal drivers history
        → (step drivers (after drivers history) e.process e.command).1 ≡ e.reply → IsLegal drivers (history ++ e ∷ []) }
{}

/// Commands in a given order have at most one legal history: the commands determine the replies.
#[tactic(auto, using(crate::proofs::HistoryLemmas::determined))]
pub fn histories_are_determined()
    ensures { (drivers : List DriverSpec) (one other : List Entry) → IsLegal drivers one → IsLegal drivers other
        → map call_of one ≡ map call_of other → one ≡ other }
{}

/// A legal history is lawful after each entry: there is no cycle, and no stream is below two links. Each message that
/// was accepted was delivered, was dropped or is queued: exactly one of the three, and once.
pub fn lawful_after_each_entry()
    ensures { (drivers : List DriverSpec) (history : List Entry) → IsLegal drivers history
        → IsLawfulThroughout drivers history }
{}

/// In a legal history, only the replies to `unlink`, `punlink`, `close`, `exit` and `flush` name dropped messages.
#[tactic(auto, using(crate::proofs::DropLemmas::few_drop))]
pub fn few_commands_drop()
    ensures { (drivers : List DriverSpec) (history : List Entry) → IsLegal drivers history → AreDropsAllowed history }
{}

/// In a legal history, messages arrive whole. For each delivered message, an earlier entry accepted it: the command of
/// that entry wrote or injected the bytes of the message to its address, and the reply has its serial. Each message
/// that is queued at the end was accepted in the same way by some entry of the history.
pub fn messages_arrive_whole()
    ensures delivered { (drivers : List DriverSpec) (early late : List Entry) (e : Entry) (serial addr : ℕ)
        (bytes : List ℕ)
        → IsLegal drivers (early ++ e ∷ late) → e.reply ≡ reply.Got serial addr bytes
        → IsTakenIn early (record { serial = serial; addr = addr; bytes = bytes }) }
    ensures queued { (drivers : List DriverSpec) (history : List Entry) → IsLegal drivers history
        → All (λ h. IsTakenIn history h.message) (after drivers history).flow }
{}

/// In the example, one message is written. No entry accepted a message with another serial, another address or other
/// bytes. Nor did an entry accept the message before it was written.
pub fn others_were_not_taken_in()
    ensures other_serial { IsTakenIn (began ∷ wrote ∷ []) (record { serial = 2; addr = 5; bytes = 170 ∷ [] }) → ⊥ }
    ensures other_address { IsTakenIn (began ∷ wrote ∷ []) (record { serial = 1; addr = 6; bytes = 170 ∷ [] }) → ⊥ }
    ensures other_bytes { IsTakenIn (began ∷ wrote ∷ []) (record { serial = 1; addr = 5; bytes = 187 ∷ [] }) → ⊥ }
    ensures no_entry { IsTakenIn (began ∷ []) (record { serial = 1; addr = 5; bytes = 170 ∷ [] }) → ⊥ }
{}

/// A history is legal, or it has a first illegal entry, and never both. It has at most one first illegal entry.
pub fn legal_or_first_illegal()
    ensures either { (drivers : List DriverSpec) (entries : List Entry)
        → IsLegal drivers entries ⊎ ((number : ℕ) × IsFirstIllegal drivers entries number) }
    ensures not_both { (drivers : List DriverSpec) (entries : List Entry) (number : ℕ) → IsLegal drivers entries
        → IsFirstIllegal drivers entries number → ⊥ }
    ensures one { (drivers : List DriverSpec) (entries : List Entry) (m n : ℕ) → IsFirstIllegal drivers entries m
        → IsFirstIllegal drivers entries n → m ≡ n }
{}

/// In the example, the second entry is the first illegal one. The first and the fourth entry have the correct replies.
/// The third entry is wrong too, but it is not the first wrong one.
#[tactic(auto, using(crate::proofs::IllegalEntryLemmas::second_is))]
pub fn the_second_is_the_first_illegal()
    ensures second { IsFirstIllegal illegal.drivers illegal.history 2 }
    ensures not_from_0 { IsFirstIllegal illegal.drivers illegal.history 0 → ⊥ }
    ensures not_right { IsFirstIllegal illegal.drivers illegal.history 1 → ⊥ }
    ensures not_last { IsFirstIllegal illegal.drivers illegal.history 3 → ⊥ }
    ensures not_behind { IsFirstIllegal illegal.drivers illegal.history 4 → ⊥ }
{}

/// A report has the drivers of the programs, which are valid. Its history is legal and holds the programs: it has the
/// commands of each program, each once, in order, and no others. Its view is that of the final configuration. These
/// properties are enough for a report (`enough`). It follows that the history is lawful after each entry. It also
/// follows that only the replies to `unlink`, `punlink`, `close`, `exit` and `flush` name dropped messages.
pub fn reports_are_legal()
    ensures drivers { (programs : ProgramLists) (report : Transcript) → IsReportOf programs report
        → (report.drivers ≡ programs.drivers) × IsDriverList programs.drivers }
    ensures legal { (programs : ProgramLists) (report : Transcript) → IsReportOf programs report
        → IsLegal programs.drivers report.entries }
    ensures holds { (programs : ProgramLists) (report : Transcript) → IsReportOf programs report
        → HoldsPrograms report.entries programs.programs }
    ensures shown { (programs : ProgramLists) (report : Transcript) → IsReportOf programs report
        → report.view ≡ view programs.drivers (after programs.drivers report.entries) }
    ensures lawful { (programs : ProgramLists) (report : Transcript) → IsReportOf programs report
        → IsLawfulThroughout programs.drivers report.entries }
    ensures drops { (programs : ProgramLists) (report : Transcript) → IsReportOf programs report
        → AreDropsAllowed report.entries }
    ensures enough { (programs : ProgramLists) (report : Transcript) → report.drivers ≡ programs.drivers
        → IsDriverList programs.drivers → IsLegal programs.drivers report.entries
        → HoldsPrograms report.entries programs.programs
        → report.view ≡ view programs.drivers (after programs.drivers report.entries)
        → IsReportOf programs report }
{}

/// The example is a report of its programs.
#[tactic(auto, using(crate::proofs::ReportLemmas::is_report))]
pub fn the_example_is_a_report()
    ensures { IsReportOf programs (report_with (opened ∷ exited ∷ copied ∷ []) two) }
{}

/// None of these transcripts is a report of the programs. Each is wrong in one thing. Either a command is missing, is
/// done twice, has changed places with another command, or is of another process. Or a reply is wrong, or the view is.
pub fn others_are_none()
    ensures left_out { IsReportOf programs (report_with (opened ∷ exited ∷ []) one) → ⊥ }
    ensures done_twice { IsReportOf programs (report_with (opened ∷ copied ∷ once_more ∷ exited ∷ []) three) → ⊥ }
    ensures exchanged { IsReportOf programs (report_with (too_early ∷ opened ∷ exited ∷ []) one) → ⊥ }
    ensures of_another { IsReportOf programs (report_with (opened ∷ copied ∷ another_exited ∷ []) two) → ⊥ }
    ensures another_reply { IsReportOf programs (report_with (opened ∷ too_early ∷ exited ∷ []) two) → ⊥ }
    ensures another_view { IsReportOf programs (report_with (opened ∷ copied ∷ exited ∷ []) one) → ⊥ }
{}

/// A legal history without a command `hangup` has no reply `Eof` and no refusal `HungUp`. At the end of any history
/// without a command `hangup`, no stream is hung up.
pub fn without_a_hangup_none_is_reported()
    ensures replies { (drivers : List DriverSpec) (history : List Entry) → IsLegal drivers history
        → list_any (λ e. is_hangup e.command) history ≡ false → list_any is_of_hangup history ≡ false }
    ensures streams { (drivers : List DriverSpec) (history : List Entry)
        → list_any (λ e. is_hangup e.command) history ≡ false → (after drivers history).hungs ≡ [] }
{}

/// If version 1 of the texts can express some programs, it can also express each report of these programs.
#[tactic(auto, using(crate::proofs::QuietHistoryLemmas::report_is_quiet))]
pub fn reports_need_no_later_version()
    ensures { (programs : ProgramLists) (report : Transcript) → IsReportOf programs report
        → least_of_programs programs.drivers programs.programs ≡ V1 → least_of_transcript report ≡ V1 }
{}

/// A final configuration with a cycle is unlawful. The examples are a driver below itself, and a cycle of three
/// drivers.
#[tactic(auto, using(crate::proofs::UnlawfulLemmas::alone, crate::proofs::UnlawfulLemmas::round))]
pub fn cycles_are_unlawful()
    ensures alone { IsLawfulEnd [] (unlawful.end_with unlawful.below_itself) → ⊥ }
    ensures round { IsLawfulEnd [] (unlawful.end_with unlawful.in_a_round) → ⊥ }
{}

/// A final configuration in which a stream is below two links is unlawful.
#[tactic(auto, using(crate::proofs::UnlawfulLemmas::below_two))]
pub fn a_stream_below_two_links_is_unlawful()
    ensures { IsLawfulEnd [] (unlawful.end_with unlawful.below_two) → ⊥ }
{}

/// A history is unlawful if it loses or duplicates a message. It is unlawful if a message that was delivered or dropped
/// is delivered or dropped once more. It is also unlawful if it delivers a message under another serial, or a message
/// that was never accepted.
pub fn messages_lost_or_doubled_are_unlawful()
    ensures lost { IsLawful unlawful.drivers unlawful.lost → ⊥ }
    ensures doubled { IsLawful unlawful.drivers unlawful.doubled → ⊥ }
    ensures delivered_twice { IsLawful unlawful.drivers unlawful.delivered_twice → ⊥ }
    ensures delivered_and_dropped { IsLawful unlawful.drivers unlawful.delivered_and_dropped → ⊥ }
    ensures dropped_twice { IsLawful unlawful.drivers unlawful.dropped_twice → ⊥ }
    ensures renumbered { IsLawful unlawful.drivers unlawful.renumbered → ⊥ }
    ensures never_taken { IsLawful unlawful.drivers unlawful.never_taken → ⊥ }
{}

/// A history is unlawful if it accepts two messages with the same serial.
#[tactic(auto, using(crate::proofs::UnlawfulLemmas::one_serial))]
pub fn one_serial_for_two_is_unlawful()
    ensures { IsLawful unlawful.drivers unlawful.one_serial → ⊥ }
{}

/// A history with an unlawful prefix is not lawful after each entry, even if its final configuration is lawful.
#[tactic(auto, using(crate::proofs::UnlawfulLemmas::lawful_end, crate::proofs::UnlawfulLemmas::too_early))]
pub fn prefixes_count()
    ensures end { IsLawful unlawful.drivers unlawful.too_early }
    ensures throughout { IsLawfulThroughout unlawful.drivers unlawful.too_early → ⊥ }
{}

/// In the example, the reply to a `dup` names a dropped message. This is not allowed.
#[tactic(auto, using(crate::proofs::UnlawfulLemmas::dropped_by_dup))]
pub fn a_dup_drops_nothing()
    ensures { AreDropsAllowed unlawful.dropped_by_dup → ⊥ }
{}
