//! The words of a reply.

ghost use Rattle.std.specs.Prelude.{◌≡◌, ◌≢◌, ◌∷◌, [], codes, map, MatchBool, MatchOption, IfOk, IfErr};
ghost use Rattle.std.specs.Fmt.{decimal};
ghost use Rattle.smx_types.specs.Versions.{tells_of_hangup};
ghost use Rattle.smx_types.specs.declared.version.Version.TheVariants.{V1};
ghost use Rattle.smx_words.specs.LineReading.{IsReadAs, IsLineOf};
ghost use Rattle.smx_words.specs.Spellable.{CanTell, FitsAlways, FitsReply, FitsReplyIn, FitsSerials};
ghost use Rattle.smx_words.specs.Spelling.{fault_words, reply_words};
ghost use Rattle.smx_words.specs.Verbs.{reply_verb_word};
ghost use Rattle.smx_words.specs.Words.{line_of};

use crate::reading::hex_word::number_and_bytes;
use crate::reading::number::{first_number, number, pair};
use crate::reading::verb::{ReplyVerb, first_reply_verb};
use crate::reading::word::is;
use smx_types::{Fault, NoMemory, Reply, Serials, Version};
use std::alloc::Global;

/// Parses the words of a reply. Returns `None` if `version` has no reply with these words. Fails only if `version` has
/// a reply with these words, and an allocation fails.
pub fn reply_of(alloc: Global, version: Version, line: &[u8]) -> Result<Option<Reply>, NoMemory>
    ensures reading { IfOk result (IsReadAs (FitsReplyIn version) reply_words line.now) }
    ensures wanted { IfErr result (λ _. IsLineOf (FitsReplyIn version) reply_words line.now) }
{
    match first_reply_verb(line) {
        Some((verb, rest)) => reply_after(alloc, verb, rest),
        None => match lone_reply(alloc, line) {
            Some(reply) => Ok(reply_in(version, reply)),
            None => Ok(None),
        },
    }
}

// Returns the reply, if this version can express it.
fn reply_in(version: Version, reply: Reply) -> Option<Reply>
    ensures { MatchOption result (CanTell version (tells_of_hangup reply) → ⊥)
        (λ r. (r ≡ reply) × CanTell version (tells_of_hangup reply)) }
{
    match version {
        Version::V1 if reply.tells_of_hangup() => None,
        Version::V1 | Version::V2 => Some(reply),
    }
}

// Parses the words of a reply after its verb (its first word).
fn reply_after(alloc: Global, verb: ReplyVerb, rest: &[u8]) -> Result<Option<Reply>, NoMemory>
    ensures reading { IfOk result (IsReadAs FitsReply reply_words (line_of (reply_verb_word verb ∷ rest.now ∷ []))) }
    ensures wanted { IfErr result (λ _.
        IsLineOf (FitsReplyIn V1) reply_words (line_of (reply_verb_word verb ∷ rest.now ∷ []))) }
{
    match verb {
        ReplyVerb::Fd => Ok(pair(rest).map(|(fd, minor)| Reply::Fd { fd, minor })),
        ReplyVerb::Id => Ok(number(rest).map(|id| Reply::Id(id))),
        ReplyVerb::Took => Ok(number(rest).map(|serial| Reply::Took { serial })),
        ReplyVerb::Got => got(alloc, rest),
        ReplyVerb::Done => Ok(serials(alloc, rest)?.map(|dropped| Reply::Done { dropped })),
    }
}

fn got(alloc: Global, rest: &[u8]) -> Result<Option<Reply>, NoMemory>
    ensures reading { IfOk result (IsReadAs FitsReply reply_words (line_of (codes "got" ∷ rest.now ∷ []))) }
    ensures wanted { IfErr result (λ _. IsLineOf (FitsReplyIn V1) reply_words (line_of (codes "got" ∷ rest.now ∷ []))) }
{
    let Some((serial, rest)) = first_number(rest) else {
        return Ok(None);
    };
    let Some((addr, bytes)) = number_and_bytes(alloc, rest)? else {
        return Ok(None);
    };
    Ok(Some(Reply::Got {
        serial,
        addr,
        bytes,
    }))
}

// Parses one or more serials. Tests all of them before the first allocation. So out of memory is never reported for a
// line that has a malformed serial.
fn serials(alloc: Global, line: &[u8]) -> Result<Option<Serials>, NoMemory>
    ensures reading { IfOk result (IsReadAs FitsSerials (map decimal) line.now) }
    ensures wanted { IfErr result (λ _. IsLineOf FitsSerials (map decimal) line.now) }
{
    if !are_serials(line) {
        return Ok(None);
    }
    let mut serials = Serials::new(alloc);
    let mut rest = line;
    'words: loop {
        let Some((serial, after)) = first_number(rest) else {
            let Some(serial) = number(rest) else {
                return Ok(None);
            };
            serials.push(serial)?;
            return Ok(Some(serials));
        };
        serials.push(serial)?;
        rest = after;
    }
}

// Returns whether a line is one or more serials.
fn are_serials(line: &[u8]) -> bool
    ensures { MatchBool result (IsLineOf FitsSerials (map decimal) line.now)
        ((all : _) → FitsSerials all → line.now ≢ line_of (map decimal all)) }
{
    let mut rest = line;
    'words: loop {
        let Some((_, after)) = first_number(rest) else {
            return number(rest).is_some();
        };
        rest = after;
    }
}

// Parses a reply without a verb: `done` alone, `eof`, or a fault.
fn lone_reply(alloc: Global, line: &[u8]) -> Option<Reply>
    ensures { MatchOption result ((line.now ≢ codes "done") × (line.now ≢ codes "eof")
        × ((f : _) → line.now ≢ line_of (fault_words f)))
        (λ r. FitsReply r × (line.now ≡ line_of (reply_words r))) }
{
    match line {
        b"done" => Some(Reply::Done {
            dropped: Serials::new(alloc),
        }),
        b"eof" => Some(Reply::Eof),
        _ => fault_of(line).map(|fault| Reply::Fault(fault)),
    }
}

// Parses the words of a fault.
fn fault_of(line: &[u8]) -> Option<Fault>
    ensures { IsReadAs FitsAlways fault_words line.now result }
{
    for fault in FAULTS {
        if is(line, fault_text(fault)) {
            return Some(fault);
        }
    }
    None
}

// All faults.
const FAULTS: [Fault; 17] = [
    Fault::BadDescriptor,
    Fault::Below,
    Fault::NotMux,
    Fault::AlreadyBelow,
    Fault::Cycle,
    Fault::TooManyLinks,
    Fault::NoLink,
    Fault::NoDriver,
    Fault::NoMinor,
    Fault::TooManyDescriptors,
    Fault::AddressInUse,
    Fault::Unbound,
    Fault::Unrouted,
    Fault::Full,
    Fault::Empty,
    Fault::BadSize,
    Fault::HungUp,
];

// Returns the words of a fault.
fn fault_text(fault: Fault) -> &'static [u8]
    ensures { result.now ≡ line_of (fault_words fault) }
{
    match fault {
        Fault::BadDescriptor => b"EBADF fd",
        Fault::Below => b"EINVAL below",
        Fault::NotMux => b"EINVAL notmux",
        Fault::AlreadyBelow => b"EINVAL already",
        Fault::Cycle => b"EINVAL cycle",
        Fault::TooManyLinks => b"EAGAIN links",
        Fault::NoLink => b"EINVAL id",
        Fault::NoDriver => b"ENXIO driver",
        Fault::NoMinor => b"ENXIO minor",
        Fault::TooManyDescriptors => b"EMFILE",
        Fault::AddressInUse => b"EADDRINUSE",
        Fault::Unbound => b"EINVAL unbound",
        Fault::Unrouted => b"EINVAL unrouted",
        Fault::Full => b"EAGAIN full",
        Fault::Empty => b"EAGAIN empty",
        Fault::BadSize => b"ERANGE",
        Fault::HungUp => b"ENXIO hangup",
    }
}
