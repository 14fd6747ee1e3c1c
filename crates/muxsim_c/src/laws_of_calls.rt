//! Laws of calls. Each law is the contract of a function that does nothing.

ghost use Rattle.std.specs.Prelude.{◌≡◌, ℕ, List, Some, None, Ok, Err, codes, pos};
ghost use Rattle.smx_session.specs.WorkedSessions.{begun, hung, opened, table};
ghost use Rattle.muxsim_c.specs.Calls.{Answers, Closes, Copies, IsWhy, Opens, Performs, Shows, Tells, TellsWhy};
ghost use Rattle.muxsim_c.specs.Codes.{Outcome, code};
ghost use Rattle.muxsim_c.specs.declared.call_fault.CallFault.TheVariants.{NoRoom};
ghost use Rattle.muxsim_c.specs.WorkedCalls.{without_a_process, without_marks};

use smx_session::laws_of_sessions::{a_text_has_one_start, a_worked_session};
use smx_text::worked_texts::wrong_programs;

/// Different outcomes have different codes.
pub fn codes_tell_outcomes_apart()
    ensures { (one other : Outcome) → code one ≡ code other → one ≡ other }
{}

/// Examples of copies. A text that fits is copied to the start of a buffer, and the rest of the buffer is unchanged. A
/// text that doesn't fit leaves the whole buffer unchanged. The text's length is written in both cases.
pub fn copies_keep_the_rest()
    ensures at_the_head { Copies (codes "ab") (codes "wxyz") (codes "abyz") 2 (Ok tt) }
    ensures just_fits { Copies (codes "ab") (codes "wx") (codes "ab") 2 (Ok tt) }
    ensures no_room { Copies (codes "ab") (codes "w") (codes "w") 2 (Err NoRoom) }
    ensures rest_stays { Copies (codes "ab") (codes "wxyz") (codes "ab") 2 (Ok tt) → ⊥ }
    ensures not_in_part { Copies (codes "ab") (codes "w") (codes "a") 2 (Err NoRoom) → ⊥ }
    ensures not_refused { Copies (codes "ab") (codes "wx") (codes "wx") 2 (Err NoRoom) → ⊥ }
    ensures length_told { Copies (codes "ab") (codes "w") (codes "w") 1 (Err NoRoom) → ⊥ }
{}

/// Why does a text open no session? Apart from out-of-memory, each text has only one answer: the words of its first
/// fault or of its drivers' fault, or no words if it does open a session.
pub fn words_are_those_of_the_text()
    ensures { (text one other : List ℕ) → IsWhy text one → IsWhy text other → one ≡ other }
{
    a_text_has_one_start();
}

/// Calls of a worked session in C, and calls with texts that are rejected: the code of each call, and counterexamples.
pub fn a_worked_session_in_c()
    ensures open { Answers (pos 0) (Opens None table (Some begun)) }
    ensures open_again { Answers (pos 8) (Opens (Some begun) table (Some begun)) }
    ensures tell_text { Answers (pos 0)
        (TellsWhy without_a_process (codes "..............") (codes "line 2: form..") 7 12) }
    ensures tell_drivers { Answers (pos 0)
        (TellsWhy without_marks (codes "..............") (codes "driver 0 marks") 7 14) }
    ensures tell_no_room { Answers (pos 6) (TellsWhy without_marks (codes "...") (codes "...") 7 14) }
    ensures tell_no_fault { Answers (pos 0) (TellsWhy table (codes "...") (codes "...") 7 0) }
    ensures perform { Answers (pos 0) (Performs (Some begun) (codes "3 clone eth") (Some opened)) }
    ensures tell { Answers (pos 0)
        (Tells (Some opened) (codes "123456789012345678901") (codes "3 clone eth = fd 0 0\n") 0 21) }
    ensures tell_none { Answers (pos 5) (Tells (Some begun) (codes "1") (codes "1") 7 7) }
    ensures close { Answers (pos 0) (Closes (Some hung) None) }
    ensures close_none { Answers (pos 7) (Closes None None) }
    ensures not_performed { Answers (pos 4) (Performs (Some begun) (codes "dup 0") (Some begun)) }
    ensures not_opened { Answers (pos 0) (Opens None table None) → ⊥ }
    ensures not_replaced { Answers (pos 0) (Opens (Some opened) table (Some begun)) → ⊥ }
    ensures not_line_3 { Answers (pos 0)
        (TellsWhy without_a_process (codes "............") (codes "line 3: form") 7 12) → ⊥ }
    ensures not_silent { Answers (pos 0) (TellsWhy without_marks (codes "...") (codes "...") 7 0) → ⊥ }
    ensures not_undone { Answers (pos 0) (Performs (Some begun) (codes "3 clone eth") (Some begun)) → ⊥ }
    ensures not_without { Answers (pos 0) (Performs None (codes "3 clone eth") None) → ⊥ }
    ensures not_for_want_of_memory { Answers (pos 1) (Performs (Some begun) (codes "dup 0") (Some begun)) → ⊥ }
    ensures no_memory_for_none { Answers (pos 1) (Tells (Some begun) (codes "1") (codes "1") 7 7) → ⊥ }
    ensures not_told { Answers (pos 0) (Tells (Some begun) (codes "1") (codes "1") 0 0) → ⊥ }
    ensures no_length { Answers (pos 7) (Shows None (codes "1") (codes "1") 0 1) → ⊥ }
    ensures not_kept { Answers (pos 0) (Closes (Some hung) (Some hung)) → ⊥ }
{
    a_worked_session();
    wrong_programs();
    codes_tell_outcomes_apart();
    words_are_those_of_the_text();
}
