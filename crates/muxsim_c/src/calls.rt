//! The calls of a handle, and the words that say why no session can be opened with a text.

ghost use Rattle.std.specs.Prelude.{◌≡◌, None, Some, MatchOption, IfErr, IfOk, string_bytes};
ghost use Rattle.muxsim_c.specs.Calls.{Closes, Copies, IsWhy, Opens, Performs, Shows, Tells, TellsWhy};
ghost use Rattle.muxsim_c.specs.declared.call_fault.CallFault.TheVariants.{NoMemory};
ghost use Rattle.smx_session.specs.FaultWords.{start_fault_words};

use crate::call_fault::CallFault;
use crate::handle::{Handle, Loose};
use smx_session::{Session, StartFault};
use std::alloc::{AllocError, Global};
use std::mem::replace;

/// Puts a new session, with the drivers of a programs text, into a handle without a session.
pub fn open(alloc: Global, handle: &mut Handle, programs: &[u8]) -> Result<(), CallFault>
    ensures { Opens handle.old.value programs.now handle.new.value result }
{
    if let Some(session) = take(alloc, handle) {
        put(handle, session);
        return Err(CallFault::IsOpen);
    }
    let session = Session::new(alloc, programs)?;
    let Ok(session) = Box::new(alloc, session) else {
        return Err(CallFault::NoMemory);
    };
    put(handle, session);
    Ok(())
}

/// Performs the command of a line.
pub fn perform(alloc: Global, handle: &mut Handle, line: &[u8]) -> Result<(), CallFault>
    ensures { Performs handle.old.value line.now handle.new.value result }
{
    let Some(mut session) = take(alloc, handle) else {
        return Err(CallFault::Closed);
    };
    let outcome = session.perform(alloc, line);
    put(handle, session);
    outcome?;
    Ok(())
}

/// Writes the line of the last entry to `text`, and its length to `len`.
pub fn entry(
    alloc: Global,
    handle: &mut Handle,
    text: &mut [u8],
    len: &mut usize,
) -> Result<(), CallFault>
    ensures same { handle.new.value ≡ handle.old.value }
    ensures told { Tells handle.old.value text.old text.new len.old len.new result }
{
    let Some(session) = take(alloc, handle) else {
        return Err(CallFault::Closed);
    };
    let line = session.entry(alloc);
    put(handle, session);
    copy_out(line?.as_slice(), text, len)
}

/// Writes the lines of the configuration to `text`, and their length to `len`.
pub fn show(
    alloc: Global,
    handle: &mut Handle,
    text: &mut [u8],
    len: &mut usize,
) -> Result<(), CallFault>
    ensures same { handle.new.value ≡ handle.old.value }
    ensures shown { Shows handle.old.value text.old text.new len.old len.new result }
{
    let Some(session) = take(alloc, handle) else {
        return Err(CallFault::Closed);
    };
    let lines = session.shown(alloc);
    put(handle, session);
    copy_out(lines?.as_slice(), text, len)
}

/// Ends the session.
pub fn close(alloc: Global, handle: &mut Handle) -> Result<(), CallFault>
    ensures { Closes handle.old.value handle.new.value result }
{
    let Some(session) = take(alloc, handle) else {
        return Err(CallFault::Closed);
    };
    drop(session);
    Ok(())
}

/// Writes the words that say why no session can be opened with the text `programs`. Writes no byte if one can be
/// opened.
pub fn why(
    alloc: Global,
    programs: &[u8],
    text: &mut [u8],
    len: &mut usize,
) -> Result<(), CallFault>
    ensures { TellsWhy programs.now text.old text.new len.old len.new result }
{
    let words = reason(alloc, programs)?;
    copy_out(words.as_bytes(), text, len)
}

// Returns the words that say why no session can be opened with a text. The words are empty if one can be opened.
fn reason(alloc: Global, programs: &[u8]) -> Result<String, CallFault>
    ensures words { IfOk result (λ words. IsWhy programs.now (string_bytes words)) }
    ensures none { IfErr result (λ t. t ≡ NoMemory) }
{
    let fault = match Session::new(alloc, programs) {
        Ok(_) => return Ok(String::new(alloc)),
        Err(StartFault::NoMemory) => return Err(CallFault::NoMemory),
        Err(fault) => fault,
    };
    let Ok(words) = printed(alloc, fault) else {
        return Err(CallFault::NoMemory);
    };
    Ok(words)
}

// Returns the words that a fault prints.
fn printed(alloc: Global, fault: StartFault) -> Result<String, AllocError>
    ensures { IfOk result (λ words. string_bytes words ≡ start_fault_words fault) }
{
    format!(in alloc; "{fault}")
}

// Takes the session out of the handle, which has none afterwards.
fn take(alloc: Global, handle: &mut Handle) -> Option<Box<Session>>
    ensures out { handle.new.value ≡ None }
    ensures session { MatchOption result (handle.old.value ≡ None) (λ b. handle.old.value ≡ Some b.value) }
{
    match replace(handle, Handle::closed(alloc)).into_loose() {
        Some(loose) => Some(loose.into_box()),
        None => None,
    }
}

// Puts a session into the handle.
fn put(handle: &mut Handle, session: Box<Session>)
    ensures { handle.new.value ≡ Some session.value }
{
    *handle = Handle::of(Loose::of(session));
}

// Writes a text to the start of a buffer, if it fits. Sets `len` to the text's length in both cases.
fn copy_out(text: &[u8], buffer: &mut [u8], len: &mut usize) -> Result<(), CallFault>
    ensures { Copies text.now buffer.old buffer.new len.new result }
{
    *len = text.len();
    if text.len() > buffer.len() {
        return Err(CallFault::NoRoom);
    }
    buffer[..text.len()].copy_from_slice(text);
    Ok(())
}
