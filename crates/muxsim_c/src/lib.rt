//! The configuration for programs in C. Each export makes one call of a handle, or says why a text is rejected, and
//! returns the code of the outcome.
#![tactic(auto)]

mod call_fault;
mod calls;
mod handle;
pub mod laws_of_calls;

ghost use Rattle.std.specs.Prelude.{◌≡◌};
ghost use Rattle.muxsim_c.specs.Calls.{Answers, Closes, Opens, Performs, Shows, Tells, TellsWhy};

use call_fault::code_of;
use calls::{close, entry, open, perform, show, why};
use handle::Handle;
use std::alloc::Global;

/// Creates a session with the drivers of a programs text. The programs are not run. Returns 0 on success, or one of
/// these codes:
///
/// - 1: out of memory, 2: the bytes are not a programs text, or 3: its drivers are not valid. There is no session then.
/// - 8: there is a session already. It is unchanged.
#[unsafe(no_mangle)]
pub extern "C" fn muxsim_session_open(alloc: Global, handle: &mut Handle, programs: &[u8]) -> i32
    ensures { Answers result (Opens handle.old.value programs.now handle.new.value) }
{
    code_of(&open(alloc, handle, programs))
}

/// Writes why [`muxsim_session_open`] rejects a text, such as `line 2: form` or `driver 0 marks`, without a line feed.
/// Writes no byte if that call accepts the text. Returns one of these codes:
///
/// - 0: the words are at the start of the buffer, and their number of bytes is written to `len`. The rest of the buffer
///   is unchanged.
/// - 6: the words are longer than the buffer, which is unchanged. Their number of bytes is written to `len`.
/// - 1: out of memory. Buffer and `len` are unchanged.
#[unsafe(no_mangle)]
pub extern "C" fn muxsim_session_why(
    alloc: Global,
    programs: &[u8],
    text: &mut [u8],
    len: &mut usize,
) -> i32
    ensures { Answers result (TellsWhy programs.now text.old text.new len.old len.new) }
{
    code_of(&why(alloc, programs, text, len))
}

/// Performs the command of a line, such as `0 clone ip`. Returns 0 on success, or one of these codes:
///
/// - 1: out of memory, or 4: the line is not a process with a command. The session is then unchanged.
/// - 7: there is no session.
#[unsafe(no_mangle)]
pub extern "C" fn muxsim_session_perform(alloc: Global, handle: &mut Handle, line: &[u8]) -> i32
    ensures { Answers result (Performs handle.old.value line.now handle.new.value) }
{
    code_of(&perform(alloc, handle, line))
}

/// Writes the line of the last entry, with its line feed. The session is unchanged in every case. Returns one of these
/// codes:
///
/// - 0: the line is at the start of the buffer, and its number of bytes is written to `len`. The rest of the buffer is
///   unchanged.
/// - 6: the line is longer than the buffer, which is unchanged. Its number of bytes is written to `len`.
/// - 1: out of memory, 5: no command was performed yet, or 7: there is no session. Buffer and `len` are then unchanged.
#[unsafe(no_mangle)]
pub extern "C" fn muxsim_session_entry(
    alloc: Global,
    handle: &mut Handle,
    text: &mut [u8],
    len: &mut usize,
) -> i32
    ensures same { handle.new.value ≡ handle.old.value }
    ensures told { Answers result (Tells handle.old.value text.old text.new len.old len.new) }
{
    code_of(&entry(alloc, handle, text, len))
}

/// Writes the lines of the configuration, from `config` on, without `end`. The session is unchanged in every case.
/// Returns one of these codes:
///
/// - 0: the lines are at the start of the buffer, and their number of bytes is written to `len`. The rest of the buffer
///   is unchanged.
/// - 6: the lines are longer than the buffer, which is unchanged. Their number of bytes is written to `len`.
/// - 1: out of memory, or 7: there is no session. Buffer and `len` are then unchanged.
#[unsafe(no_mangle)]
pub extern "C" fn muxsim_session_show(
    alloc: Global,
    handle: &mut Handle,
    text: &mut [u8],
    len: &mut usize,
) -> i32
    ensures same { handle.new.value ≡ handle.old.value }
    ensures shown { Answers result (Shows handle.old.value text.old text.new len.old len.new) }
{
    code_of(&show(alloc, handle, text, len))
}

/// Ends a session and frees its memory. Returns 0, or 7 if the handle holds no session.
#[unsafe(no_mangle)]
pub extern "C" fn muxsim_session_close(alloc: Global, handle: &mut Handle) -> i32
    ensures { Answers result (Closes handle.old.value handle.new.value) }
{
    code_of(&close(alloc, handle))
}
