//! The laws of both texts (programs and transcripts), in each version.

ghost use Rattle.std.specs.Prelude.{◌≡◌, ◌≢◌, ◌<◌, ◌≤◌, List, ℕ, Result, Ok, MatchResult, IfErr, length};
ghost use Rattle.smx_types.specs.ProgramLists.{AreWithinLimits, ProgramLists};
ghost use Rattle.smx_text.specs.declared.text_fault.TextFault.{TextFault};
ghost use Rattle.smx_text.specs.declared.text_fault.Cause.TheVariants.{NoMemory};
ghost use Rattle.smx_types.specs.declared.transcript.Transcript.{Transcript};
ghost use Rattle.smx_types.specs.Versions.{least_of_transcript, most_drivers};
ghost use Rattle.smx_types.specs.declared.limits.TheConstants.{MAX_COMMANDS};
ghost use Rattle.smx_types.specs.declared.version.Version.{Version};
ghost use Rattle.smx_types.specs.declared.version.Version.TheVariants.{V1};
ghost use Rattle.smx_text.specs.TranscriptText.{transcript_grammar, transcript_text, SpellsTranscript};
ghost use Rattle.smx_text.specs.TranscriptText.{IsAllowed as TranscriptIsAllowed, IsSpellable};
ghost use Rattle.smx_text.specs.Grammar.{IsFault, ReadsAny, last_line};
ghost use Rattle.smx_text.specs.ProgramsText.{IsAllowed, SpellsPrograms, programs_grammar, programs_text};

/// A text that was written is read as the same value, unless memory runs out. `write_programs` writes the text of any
/// programs, `write_transcript` that of a transcript within the limits.
pub fn written_is_read()
    ensures programs { (v : ProgramLists) (r : Result ProgramLists TextFault)
        → IsAllowed v.version v → ReadsAny programs_grammar (programs_text v) r
        → MatchResult r (λ w. w ≡ v) (λ f. f.cause ≡ NoMemory) }
    ensures transcripts { (t : Transcript) (r : Result Transcript TextFault)
        → TranscriptIsAllowed t.version t → ReadsAny transcript_grammar (transcript_text t) r
        → MatchResult r (λ u. u ≡ t) (λ f. f.cause ≡ NoMemory) }
{}

/// If a text is read as some value, then it is the text that is written for this value.
pub fn read_is_written()
    ensures programs { (bytes : List ℕ) (v : ProgramLists)
        → ReadsAny programs_grammar bytes (Ok v) → bytes ≡ programs_text v }
    ensures transcripts { (bytes : List ℕ) (t : Transcript)
        → ReadsAny transcript_grammar bytes (Ok t) → bytes ≡ transcript_text t }
{}

/// Two readings of one text have the same result, including the fault and its line, unless memory runs out.
pub fn one_text_has_one_reading()
    ensures { (bytes : List ℕ) (r s : Result ProgramLists TextFault)
        → ReadsAny programs_grammar bytes r → ReadsAny programs_grammar bytes s
        → IfErr r (λ f. f.cause ≢ NoMemory) → IfErr s (λ f. f.cause ≢ NoMemory) → r ≡ s }
{}

/// Two readings of one text have the same result, including the fault and its line, unless memory runs out.
pub fn one_transcript_has_one_reading()
    ensures { (bytes : List ℕ) (r s : Result Transcript TextFault)
        → ReadsAny transcript_grammar bytes r → ReadsAny transcript_grammar bytes s
        → IfErr r (λ f. f.cause ≢ NoMemory) → IfErr s (λ f. f.cause ≢ NoMemory) → r ≡ s }
{}

/// For any bytes, there is a result other than out of memory that a reader may return.
pub fn each_text_has_a_reading()
    ensures programs { (bytes : List ℕ) → (r : Result ProgramLists TextFault)
        × ReadsAny programs_grammar bytes r × IfErr r (λ f. f.cause ≢ NoMemory) }
    ensures transcripts { (bytes : List ℕ) → (r : Result Transcript TextFault)
        × ReadsAny transcript_grammar bytes r × IfErr r (λ f. f.cause ≢ NoMemory) }
{}

/// If a text has a fault, a reader may report out of memory only at an earlier line. So a reader that gets as far as
/// the line of the fault reports the fault, and not out of memory. If a text spells a value, a reader may report out of
/// memory only at a line before `end`.
pub fn want_of_memory_comes_before()
    ensures programs { (version : Version) (bytes : List ℕ) (line : ℕ) (r : Result ProgramLists TextFault)
        → IsFault (programs_grammar version) bytes line NoMemory → ReadsAny programs_grammar bytes r
        → IfErr r (λ f. f.cause ≢ NoMemory) → line < last_line (programs_grammar version) r }
    ensures transcripts { (version : Version) (bytes : List ℕ) (line : ℕ) (r : Result Transcript TextFault)
        → IsFault (transcript_grammar version) bytes line NoMemory → ReadsAny transcript_grammar bytes r
        → IfErr r (λ f. f.cause ≢ NoMemory) → line < last_line (transcript_grammar version) r }
{}

/// A transcript is allowed in its version exactly if it is within the limits of the version, all of it can be spelled,
/// and it needs no later version.
pub fn allowed_transcripts_can_be_spelled()
    ensures spelled { (version : Version) (t : Transcript) → TranscriptIsAllowed version t → IsSpellable t }
    ensures told { (version : Version) (t : Transcript)
        → TranscriptIsAllowed version t → version ≡ V1 → least_of_transcript t ≡ V1 }
    ensures allowed { (version : Version) (t : Transcript)
        → t.version ≡ version → length t.drivers ≤ most_drivers version → length t.entries ≤ MAX_COMMANDS
        → IsSpellable t → (version ≡ V1 → least_of_transcript t ≡ V1) → TranscriptIsAllowed version t }
{}

/// If bytes spell programs, these are within the limits. If bytes spell a transcript, it has at most 100,000 entries.
pub fn what_is_spelled_is_within_the_limits()
    ensures programs { (bytes : List ℕ) (v : ProgramLists) → SpellsPrograms bytes v → AreWithinLimits v }
    ensures entries { (bytes : List ℕ) (t : Transcript) → SpellsTranscript bytes t
        → length t.entries ≤ MAX_COMMANDS }
{}
