//! Example texts, which are proved by computation: valid texts with the values that they spell, and invalid texts with
//! their faults, as in the examples of `docs/FORMATS.md`.

ghost use Rattle.std.specs.Prelude.{[], codes};
ghost use Rattle.smx_text.specs.declared.text_fault.Cause.TheVariants.{Header, Form, Many, Cut, Trailing};
ghost use Rattle.smx_text.specs.ProgramsText.{SpellsPrograms};
ghost use Rattle.smx_text.specs.TranscriptText.{SpellsTranscript};
ghost use Rattle.smx_types.specs.ProgramLists.{program_lists, raised};
ghost use Rattle.smx_text.specs.WorkedTexts.{programs, programs_bytes, transcript, transcript_bytes};
ghost use Rattle.smx_text.specs.WorkedTexts.{hangups, hangups_bytes, transcript_of_hangups};
ghost use Rattle.smx_text.specs.WorkedTexts.{transcript_of_hangups_bytes, shortest_transcript};
ghost use Rattle.smx_text.specs.WorkedFaults.{AreWrongPrograms, IsWrongTranscript, with_line_3, with_line_4};
ghost use Rattle.smx_text.specs.WorkedFaults.{with_line_5, with_processes, with_drivers};

/// Valid texts that have each kind of line, command and reply of version 1, and the shortest programs text.
pub fn right_texts()
    ensures each_command { SpellsPrograms programs_bytes programs }
    ensures shortest { SpellsPrograms (codes "programs 1\nend\n") (program_lists [] []) }
    ensures each_reply { SpellsTranscript transcript_bytes transcript }
{}

/// Valid texts of version 2. Two of them have each kind of line, command and reply that only version 2 has. The
/// shortest texts have none of these.
pub fn right_texts_of_version_2()
    ensures hangups { SpellsPrograms hangups_bytes hangups }
    ensures shortest { SpellsPrograms (codes "programs 2\nend\n") (raised (program_lists [] [])) }
    ensures hangups_spelled { SpellsTranscript transcript_of_hangups_bytes transcript_of_hangups }
    ensures shortest_transcript { SpellsTranscript
        (codes "transcript 2\nconfig\nnext 1 1\nend\n") shortest_transcript }
{}

/// Programs texts with a malformed command line. They break rules such as these. A number has no leading zero, no sign
/// and at most 32 bits. A name begins with a letter, and nine letters are too many. Bytes are pairs of lower-case hex
/// digits. No word is missing, and there is exactly one space between two words.
pub fn wrong_commands()
    ensures two_zeros { AreWrongPrograms (with_line_4 (codes "dup 00")) 4 Form }
    ensures a_sign { AreWrongPrograms (with_line_4 (codes "dup +1")) 4 Form }
    ensures two_spaces { AreWrongPrograms (with_line_4 (codes "close  0")) 4 Form }
    ensures a_last_space { AreWrongPrograms (with_line_4 (codes "close 0 ")) 4 Form }
    ensures large_number { AreWrongPrograms (with_line_4 (codes "open ip 4294967296")) 4 Form }
    ensures digit_first { AreWrongPrograms (with_line_4 (codes "open 9a 0")) 4 Form }
    ensures nine_letters { AreWrongPrograms (with_line_4 (codes "clone ninelette")) 4 Form }
    ensures missing_word { AreWrongPrograms (with_line_4 (codes "link 0")) 4 Form }
    ensures capitals { AreWrongPrograms (with_line_4 (codes "unlink 0 ALL")) 4 Form }
    ensures sides_turned { AreWrongPrograms (with_line_4 (codes "flush 0 wr")) 4 Form }
    ensures capital_digits { AreWrongPrograms (with_line_4 (codes "write 0 5 AA")) 4 Form }
    ensures odd_digits { AreWrongPrograms (with_line_4 (codes "write 0 5 aab")) 4 Form }
    ensures missing_bytes { AreWrongPrograms (with_line_4 (codes "write 0 5")) 4 Form }
    ensures no_word { AreWrongPrograms (with_line_4 []) 4 Form }
{}

/// Invalid programs texts. They break rules such as these. Each line must be allowed where it is. A text needs its
/// header and the line `end`, and nothing may follow `end`. There are at most 64 programs.
pub fn wrong_programs()
    ensures nothing { AreWrongPrograms [] 1 Cut }
    ensures cut_header { AreWrongPrograms (codes "programs 1") 1 Cut }
    ensures version_3 { AreWrongPrograms (codes "programs 3\n") 1 Header }
    ensures header_alone { AreWrongPrograms (codes "programs 1\n") 2 Cut }
    ensures version_2_alone { AreWrongPrograms (codes "programs 2\n") 2 Cut }
    ensures out_of_turn { AreWrongPrograms (with_line_4 (codes "process 2")) 4 Form }
    ensures late_driver { AreWrongPrograms (with_line_4 (codes "driver eth leaf 2 8 3 16")) 4 Form }
    ensures no_process { AreWrongPrograms (codes "programs 1\nclone ip\nend\n") 2 Form }
    ensures no_end { AreWrongPrograms (codes "programs 1\ndriver ip mux 4 8 3 16\nprocess 0\nclone ip\n") 5 Cut }
    ensures cut_line { AreWrongPrograms (codes "programs 1\ndriver ip mux 4 8 3 16\nprocess 0\nclone ip") 4 Cut }
    ensures process_65 { AreWrongPrograms (with_processes 65) 67 Many }
    ensures a_space_behind { AreWrongPrograms (codes "programs 1\nprocess 0\nend\n ") 4 Trailing }
{}

/// Invalid transcripts. They break rules such as these. The number of a process is below 64. A reply is one of the
/// replies that exist. Entries come before the configuration, and the groups of the configuration come in their order.
pub fn wrong_transcripts()
    ensures other_header { IsWrongTranscript (codes "programs 1\nend\n") 1 Header }
    ensures version_3 { IsWrongTranscript (codes "transcript 3\n") 1 Header }
    ensures version_2_alone { IsWrongTranscript (codes "transcript 2\n") 2 Cut }
    ensures process_64 { IsWrongTranscript (with_line_3 (codes "64 clone ip = fd 0 0")) 3 Form }
    ensures half_a_fault { IsWrongTranscript (with_line_3 (codes "0 clone ip = EINVAL")) 3 Form }
    ensures missing_next { IsWrongTranscript (codes "transcript 1\nconfig\nfd 0 0 ip 0\nend\n") 3 Form }
    ensures end_too_early { IsWrongTranscript (codes "transcript 1\nconfig\nend\n") 3 Form }
    ensures two_nexts { IsWrongTranscript (with_line_5 (codes "next 2 1")) 5 Form }
    ensures late_entry { IsWrongTranscript (with_line_5 (codes "0 exit = done")) 5 Form }
    ensures late_descriptor { IsWrongTranscript (with_line_5 (codes "fd 0 0 ip 0")) 5 Form }
    ensures late_full_place { IsWrongTranscript
        (codes "transcript 2\nconfig\nnext 1 1\nhung eth 0\nfull eth 0 r\nend\n") 5 Form }
    ensures no_end { IsWrongTranscript (codes "transcript 1\nconfig\nnext 1 1\n") 4 Cut }
{}

/// Texts that are invalid in their version. No text of version 1 has a hangup, a reply that reports one, or a hung-up
/// stream. In version 1 the 65th driver is over the limit, and in version 2 the 129th.
pub fn wrong_for_their_version()
    ensures hangup { AreWrongPrograms (with_line_4 (codes "hangup ip 0")) 4 Form }
    ensures hangup_in_version_1 { IsWrongTranscript (with_line_3 (codes "0 hangup ip 0 = done")) 3 Form }
    ensures end_of_file { IsWrongTranscript (with_line_3 (codes "0 read 0 = eof")) 3 Form }
    ensures refusal { IsWrongTranscript (with_line_3 (codes "0 read 0 = ENXIO hangup")) 3 Form }
    ensures hung_up_stream { IsWrongTranscript (with_line_5 (codes "hung eth 0")) 5 Form }
    ensures driver_65 { AreWrongPrograms (with_drivers (codes "programs 1\n") 65) 66 Many }
    ensures driver_65_of_a_transcript { IsWrongTranscript (with_drivers (codes "transcript 1\n") 65) 66 Many }
    ensures driver_129 { AreWrongPrograms (with_drivers (codes "programs 2\n") 129) 130 Many }
    ensures driver_129_of_a_transcript { IsWrongTranscript (with_drivers (codes "transcript 2\n") 129) 130 Many }
{}
