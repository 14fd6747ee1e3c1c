//! The words of a command.

ghost use Rattle.std.specs.Prelude.{◌≡◌, ◌≢◌, ◌∷◌, ◌++◌, [], ℕ, List, codes, IsTrue, ◌↔◌, IfOk, IfErr};
ghost use Rattle.smx_types.specs.declared.version.Version.{Version as AnyVersion};
ghost use Rattle.smx_types.specs.declared.version.Version.TheVariants.{V1};
ghost use Rattle.smx_words.specs.LineReading.{IsReadAs, IsCommandLine};
ghost use Rattle.smx_words.specs.Spellable.{FitsAlways, FitsCommand, FitsCommandIn};
ghost use Rattle.smx_words.specs.Spelling.{command_words};
ghost use Rattle.smx_words.specs.Verbs.{verb_word};
ghost use Rattle.smx_words.specs.Words.{SPACE, line_of};
ghost use Rattle.smx_words.specs.declared.reading.verb.Verb.{Verb as AnyVerb};
ghost use Rattle.smx_words.specs.declared.reading.verb.Verb.TheVariants.{Hangup as HangupVerb};

use crate::reading::hex_word::number_and_bytes;
use crate::reading::number::{first_number, number, pair};
use crate::reading::verb::{Verb, first_verb};
use crate::reading::word::{first_name, is, name, name_and_number, sides, which};
use smx_types::{Command, NoMemory, Version};
use std::alloc::Global;

/// Parses the line of a command. Returns `None` if `version` has no command with this line. Fails only if `version` has
/// a command with this line, and an allocation fails.
pub fn command_of(alloc: Global, version: Version, line: &[u8]) -> Result<Option<Command>, NoMemory>
    ensures reading { IfOk result (IsReadAs (FitsCommandIn version) command_words line.now) }
    ensures wanted { IfErr result (λ _. IsCommandLine version line.now) }
{
    let Some((verb, rest)) = first_verb(line) else {
        return Ok(lone_command(line));
    };
    if lacks(version, verb) {
        return Ok(None);
    }
    command_after(alloc, verb, rest)
}

// Returns whether `version` has no command with this verb.
fn lacks(version: Version, verb: Verb) -> bool
    ensures { IsTrue result ↔ ((version ≡ V1) × (verb ≡ HangupVerb)) }
{
    match (version, verb) {
        (Version::V1, Verb::Hangup) => true,
        (Version::V1 | Version::V2, _) => false,
    }
}

// Parses a line that does not start with a verb and a space. The only command with such a line is `exit`.
fn lone_command(line: &[u8]) -> Option<Command>
    requires { (v : AnyVerb) (after : List ℕ) → FitsAlways v → line.now ≢ verb_word v ++ SPACE ∷ after }
    ensures { (v : AnyVersion) → IsReadAs (FitsCommandIn v) command_words line.now result }
{
    if is(line, b"exit") {
        return Some(Command::CloseAll);
    }
    None
}

// Parses the words of a command after its verb (its first word).
fn command_after(alloc: Global, verb: Verb, rest: &[u8]) -> Result<Option<Command>, NoMemory>
    ensures reading { IfOk result
        (IsReadAs FitsCommand command_words (line_of (verb_word verb ∷ rest.now ∷ []))) }
    ensures wanted { IfErr result (λ _. IsCommandLine V1 (line_of (verb_word verb ∷ rest.now ∷ []))) }
{
    match verb {
        Verb::Clone => Ok(name(rest).map(|driver| Command::OpenClone { driver })),
        Verb::Open => Ok(name_and_number(rest).map(|(driver, minor)| Command::OpenMinor {
            driver,
            minor,
        })),
        Verb::Dup => Ok(number(rest).map(|fd| Command::Dup { fd })),
        Verb::Close => Ok(number(rest).map(|fd| Command::Close { fd })),
        Verb::Exit => Ok(None),
        Verb::Link => Ok(pair(rest).map(|(fd, arg)| Command::Link { fd, arg })),
        Verb::Plink => Ok(pair(rest).map(|(fd, arg)| Command::Plink { fd, arg })),
        Verb::Unlink => Ok(unlink(rest)),
        Verb::Punlink => Ok(punlink(rest)),
        Verb::Bind => Ok(pair(rest).map(|(fd, addr)| Command::Bind { fd, addr })),
        Verb::Unbind => Ok(number(rest).map(|fd| Command::Unbind { fd })),
        Verb::Route => Ok(route(rest)),
        Verb::Unroute => Ok(pair(rest).map(|(fd, addr)| Command::Unroute { fd, addr })),
        Verb::Write => write(alloc, rest),
        Verb::Read => Ok(number(rest).map(|fd| Command::Read { fd })),
        Verb::Flush => Ok(flush(rest)),
        Verb::Inject => inject(alloc, rest),
        Verb::Transmit => Ok(name_and_number(rest).map(|(driver, minor)| Command::Transmit {
            driver,
            minor,
        })),
        Verb::Hangup => Ok(name_and_number(rest).map(|(driver, minor)| Command::Hangup {
            driver,
            minor,
        })),
    }
}

fn unlink(rest: &[u8]) -> Option<Command>
    ensures { IsReadAs FitsCommand command_words (line_of (codes "unlink" ∷ rest.now ∷ [])) result }
{
    let (fd, rest) = first_number(rest)?;
    let which = which(rest)?;
    Some(Command::Unlink { fd, which })
}

fn punlink(rest: &[u8]) -> Option<Command>
    ensures { IsReadAs FitsCommand command_words (line_of (codes "punlink" ∷ rest.now ∷ [])) result }
{
    let (fd, rest) = first_number(rest)?;
    let which = which(rest)?;
    Some(Command::Punlink { fd, which })
}

fn route(rest: &[u8]) -> Option<Command>
    ensures { IsReadAs FitsCommand command_words (line_of (codes "route" ∷ rest.now ∷ [])) result }
{
    let (fd, rest) = first_number(rest)?;
    let (addr, id) = pair(rest)?;
    Some(Command::Route { fd, addr, id })
}

fn flush(rest: &[u8]) -> Option<Command>
    ensures { IsReadAs FitsCommand command_words (line_of (codes "flush" ∷ rest.now ∷ [])) result }
{
    let (fd, rest) = first_number(rest)?;
    let sides = sides(rest)?;
    Some(Command::Flush { fd, sides })
}

fn write(alloc: Global, rest: &[u8]) -> Result<Option<Command>, NoMemory>
    ensures reading { IfOk result
        (IsReadAs FitsCommand command_words (line_of (codes "write" ∷ rest.now ∷ []))) }
    ensures wanted { IfErr result (λ _. IsCommandLine V1 (line_of (codes "write" ∷ rest.now ∷ []))) }
{
    let Some((fd, rest)) = first_number(rest) else {
        return Ok(None);
    };
    let Some((addr, bytes)) = number_and_bytes(alloc, rest)? else {
        return Ok(None);
    };
    Ok(Some(Command::Write { fd, addr, bytes }))
}

fn inject(alloc: Global, rest: &[u8]) -> Result<Option<Command>, NoMemory>
    ensures reading { IfOk result
        (IsReadAs FitsCommand command_words (line_of (codes "inject" ∷ rest.now ∷ []))) }
    ensures wanted { IfErr result (λ _. IsCommandLine V1 (line_of (codes "inject" ∷ rest.now ∷ []))) }
{
    let Some((driver, rest)) = first_name(rest) else {
        return Ok(None);
    };
    let Some((minor, rest)) = first_number(rest) else {
        return Ok(None);
    };
    let Some((addr, bytes)) = number_and_bytes(alloc, rest)? else {
        return Ok(None);
    };
    Ok(Some(Command::Inject {
        driver,
        minor,
        addr,
        bytes,
    }))
}
