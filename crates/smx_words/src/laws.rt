//! Laws of spellings: a spelling consists of words, a line determines its words and its value, and any line has a
//! reading (a result that a reader of the line may return). Examples show right readings and wrong readings.

ghost use Rattle.std.specs.Fmt.{decimal};
ghost use Rattle.std.specs.List.{AllByRecursion};
ghost use Rattle.std.specs.Prelude.{◌≡◌, ◌∷◌, [], ℕ, List, Some, None, codes};
ghost use Rattle.smx_types.specs.declared.version.Version.{Version};
ghost use Rattle.smx_types.specs.declared.version.Version.TheVariants.{V1, V2};
ghost use Rattle.smx_words.specs.LineReading.{AreSpelledByWords, HaveOwnLines, HaveReadings, IsCallLine, IsCommandLine};
ghost use Rattle.smx_words.specs.LineReading.{IsFoundIn, IsReadAs, IsSpelled};
ghost use Rattle.smx_words.specs.Spellable.{FitsDriver, FitsNumber, FitsCommand, FitsCall, FitsEntry, FitsNext};
ghost use Rattle.smx_words.specs.Spellable.{FitsDescriptor, FitsLink, FitsBinding, FitsRoute, FitsMessage, FitsFull};
ghost use Rattle.smx_words.specs.Spellable.{FitsHung, FitsCommandIn, FitsEntryIn, FitsCallIn};
ghost use Rattle.smx_words.specs.Spelling.{driver_words, process_words, command_words, call_words, entry_words};
ghost use Rattle.smx_words.specs.Spelling.{next_words, descriptor_words, link_words, bind_words, route_words};
ghost use Rattle.smx_words.specs.Spelling.{message_words, full_words, hung_words};
ghost use Rattle.smx_words.specs.Words.{AreWords, IsWord, line_of};

/// A value that can be spelled is spelled by one or more words.
pub fn spellings_are_words()
    ensures driver { AreSpelledByWords FitsDriver driver_words }
    ensures process { AreSpelledByWords FitsNumber process_words }
    ensures command { AreSpelledByWords FitsCommand command_words }
    ensures call { AreSpelledByWords FitsCall call_words }
    ensures entry { AreSpelledByWords FitsEntry entry_words }
    ensures next { AreSpelledByWords FitsNext next_words }
    ensures descriptor { AreSpelledByWords FitsDescriptor descriptor_words }
    ensures link { AreSpelledByWords FitsLink link_words }
    ensures bind { AreSpelledByWords FitsBinding bind_words }
    ensures route { AreSpelledByWords FitsRoute route_words }
    ensures message { AreSpelledByWords FitsMessage message_words }
    ensures full { AreSpelledByWords FitsFull full_words }
    ensures hung { AreSpelledByWords FitsHung hung_words }
{}

/// Two lists of words that make the same line are equal.
pub fn lines_tell_words_apart()
    ensures { (words others : List (List ℕ)) → AllByRecursion IsWord words → AllByRecursion IsWord others
        → line_of words ≡ line_of others → words ≡ others }
{}

/// Two values of one kind that can be spelled are equal if their words make the same line.
pub fn one_value_each()
    ensures driver { HaveOwnLines FitsDriver driver_words }
    ensures process { HaveOwnLines FitsNumber process_words }
    ensures command { HaveOwnLines FitsCommand command_words }
    ensures call { HaveOwnLines FitsCall call_words }
    ensures entry { HaveOwnLines FitsEntry entry_words }
    ensures next { HaveOwnLines FitsNext next_words }
    ensures descriptor { HaveOwnLines FitsDescriptor descriptor_words }
    ensures link { HaveOwnLines FitsLink link_words }
    ensures bind { HaveOwnLines FitsBinding bind_words }
    ensures route { HaveOwnLines FitsRoute route_words }
    ensures message { HaveOwnLines FitsMessage message_words }
    ensures full { HaveOwnLines FitsFull full_words }
    ensures hung { HaveOwnLines FitsHung hung_words }
{}

/// A word is one or more bytes, each from `!` to `~`. A line is one or more words.
pub fn words_are_seen()
    ensures seen { AreWords (codes "!~" ∷ []) }
    ensures no_space { IsWord (codes " ") → ⊥ }
    ensures no_delete { IsWord (127 ∷ []) → ⊥ }
    ensures some { IsWord [] → ⊥ }
    ensures one { AreWords [] → ⊥ }
{}

/// Any line has a correct reading: a value that can be spelled and whose words are this line, or `None` if there is no
/// such value. `driver_of` and the other readers return such a reading.
pub fn each_line_has_a_reading()
    ensures driver { HaveReadings FitsDriver driver_words }
    ensures process { HaveReadings FitsNumber process_words }
    ensures command { HaveReadings FitsCommand command_words }
    ensures entry { HaveReadings FitsEntry entry_words }
    ensures next { HaveReadings FitsNext next_words }
    ensures descriptor { HaveReadings FitsDescriptor descriptor_words }
    ensures link { HaveReadings FitsLink link_words }
    ensures bind { HaveReadings FitsBinding bind_words }
    ensures route { HaveReadings FitsRoute route_words }
    ensures message { HaveReadings FitsMessage message_words }
    ensures full { HaveReadings FitsFull full_words }
    ensures hung { HaveReadings FitsHung hung_words }
    ensures command_in { (v : Version) → HaveReadings (FitsCommandIn v) command_words }
    ensures entry_in { (v : Version) → HaveReadings (FitsEntryIn v) entry_words }
    ensures call_in { (v : Version) → HaveReadings (FitsCallIn v) call_words }
{}

/// A reader of a word may return a value only if the value fits (it can be spelled) and the bytes spell it. It may
/// return `None` only if the bytes spell no value that fits.
pub fn what_is_found_in_bytes()
    ensures found { IsFoundIn FitsNumber decimal (codes "7") (Some 7) }
    ensures not_another { IsFoundIn FitsNumber decimal (codes "7") (Some 8) → ⊥ }
    ensures not_too_large { IsFoundIn FitsNumber decimal (codes "4294967296") (Some 4294967296) → ⊥ }
    ensures none { IsFoundIn FitsNumber decimal (codes "07") None }
    ensures none_too_large { IsFoundIn FitsNumber decimal (codes "4294967296") None }
    ensures not_none { IsFoundIn FitsNumber decimal (codes "7") None → ⊥ }
    ensures spelled { IsSpelled FitsNumber decimal (codes "7") }
    ensures not_spelled { IsSpelled FitsNumber decimal (codes "07") → ⊥ }
    ensures too_large_to_be_spelled { IsSpelled FitsNumber decimal (codes "4294967296") → ⊥ }
{}

/// A line is read as the value whose words it is, with one space between each word and the next. It is read as `None`
/// only if it is not the words of any value.
pub fn what_a_line_is_read_as()
    ensures read { IsReadAs FitsNumber process_words (codes "process 7") (Some 7) }
    ensures not_without_its_first_word { IsReadAs FitsNumber process_words (codes "7") (Some 7) → ⊥ }
    ensures not_with_two_spaces { IsReadAs FitsNumber process_words (codes "process  7") (Some 7) → ⊥ }
    ensures not_none { IsReadAs FitsNumber process_words (codes "process 7") None → ⊥ }
    ensures none { IsReadAs FitsNumber process_words (codes "process 07") None }
{}

/// In a version of the texts, a line is the line of a command if two things hold: it is the words of a command that can
/// be spelled, and the version can express this command.
pub fn which_lines_are_commands()
    ensures dup { IsCommandLine V1 (codes "dup 0") }
    ensures hangup { IsCommandLine V2 (codes "hangup ip 0") }
    ensures not_of_a_hangup { IsCommandLine V1 (codes "hangup ip 0") → ⊥ }
    ensures not_of_a_large_number { IsCommandLine V2 (codes "dup 4294967296") → ⊥ }
    ensures not_of_a_process { IsCommandLine V2 (codes "process 0") → ⊥ }
{}

/// In a version of the texts, a line is the line of a call if it is the words of a process and of a command that the
/// version can express.
pub fn which_lines_are_calls()
    ensures dup { IsCallLine V1 (codes "63 dup 0") }
    ensures hangup { IsCallLine V2 (codes "0 hangup ip 0") }
    ensures not_of_a_hangup { IsCallLine V1 (codes "0 hangup ip 0") → ⊥ }
    ensures not_of_a_large_process { IsCallLine V2 (codes "64 dup 0") → ⊥ }
    ensures not_without_its_process { IsCallLine V2 (codes "dup 0") → ⊥ }
    ensures not_of_an_entry { IsCallLine V2 (codes "0 dup 0 = done") → ⊥ }
{}
