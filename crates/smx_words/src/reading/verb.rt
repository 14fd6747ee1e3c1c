//! The first words of commands and of replies.

ghost use Rattle.std.specs.Prelude.{◌≡◌, ◌≢◌, ◌∷◌, ◌++◌, ℕ, List, MatchOption, Some};
ghost use Rattle.smx_words.specs.LineReading.{IsFoundIn, BeginsWith};
ghost use Rattle.smx_words.specs.Spellable.{FitsAlways};
ghost use Rattle.smx_words.specs.Verbs.{verb_word, reply_verb_word};
ghost use Rattle.smx_words.specs.Words.{SPACE};
ghost use Rattle.smx_words.specs.declared.reading.verb.Verb.{Verb as AnyVerb};

use crate::reading::word::{after, cut};

/// The verb of a command: its first word.
#[derive(Clone, Copy)]
pub enum Verb {
    Clone,
    Open,
    Dup,
    Close,
    Exit,
    Link,
    Plink,
    Unlink,
    Punlink,
    Bind,
    Unbind,
    Route,
    Unroute,
    Write,
    Read,
    Flush,
    Inject,
    Transmit,
    Hangup,
}

/// The verb of a reply: its first word, if it is one of these and other words follow. The reply `done` without other
/// words, the reply `eof` and faults have no verb.
#[derive(Clone, Copy)]
pub enum ReplyVerb {
    Fd,
    Id,
    Took,
    Got,
    Done,
}

// Guesses the verb from the first letters. If the bytes start with a verb and a space, the guess is this verb.
fn candidate(text: &[u8]) -> Option<Verb>
    ensures { (verb : AnyVerb) (after : List ℕ) → text.now ≡ verb_word verb ++ SPACE ∷ after → result ≡ Some verb }
{
    match text {
        [b'b', ..] => Some(Verb::Bind),
        [b'c', b'l', b'o', b's', ..] => Some(Verb::Close),
        [b'c', ..] => Some(Verb::Clone),
        [b'd', ..] => Some(Verb::Dup),
        [b'e', ..] => Some(Verb::Exit),
        [b'f', ..] => Some(Verb::Flush),
        [b'h', ..] => Some(Verb::Hangup),
        [b'i', ..] => Some(Verb::Inject),
        [b'l', ..] => Some(Verb::Link),
        [b'o', ..] => Some(Verb::Open),
        [b'p', b'l', ..] => Some(Verb::Plink),
        [b'p', ..] => Some(Verb::Punlink),
        [b'r', b'e', ..] => Some(Verb::Read),
        [b'r', ..] => Some(Verb::Route),
        [b't', ..] => Some(Verb::Transmit),
        [b'u', b'n', b'b', ..] => Some(Verb::Unbind),
        [b'u', b'n', b'l', ..] => Some(Verb::Unlink),
        [b'u', ..] => Some(Verb::Unroute),
        [b'w', ..] => Some(Verb::Write),
        _ => None,
    }
}

// Returns the bytes after the verb and a space. Returns `None` if the text doesn't start with the verb and a space.
fn behind(text: &[u8], verb: Verb) -> Option<&[u8]>
    ensures { MatchOption result ((rest : List ℕ) → text.now ≢ verb_word verb ++ SPACE ∷ rest)
        (λ rest. text.now ≡ verb_word verb ++ SPACE ∷ rest.now) }
{
    match verb {
        Verb::Clone => after(text, b"clone "),
        Verb::Open => after(text, b"open "),
        Verb::Dup => after(text, b"dup "),
        Verb::Close => after(text, b"close "),
        Verb::Exit => after(text, b"exit "),
        Verb::Link => after(text, b"link "),
        Verb::Plink => after(text, b"plink "),
        Verb::Unlink => after(text, b"unlink "),
        Verb::Punlink => after(text, b"punlink "),
        Verb::Bind => after(text, b"bind "),
        Verb::Unbind => after(text, b"unbind "),
        Verb::Route => after(text, b"route "),
        Verb::Unroute => after(text, b"unroute "),
        Verb::Write => after(text, b"write "),
        Verb::Read => after(text, b"read "),
        Verb::Flush => after(text, b"flush "),
        Verb::Inject => after(text, b"inject "),
        Verb::Transmit => after(text, b"transmit "),
        Verb::Hangup => after(text, b"hangup "),
    }
}

// Parses the bytes before the first space as the verb of a command. Returns the verb and the bytes after the space.
pub fn first_verb(text: &[u8]) -> Option<(Verb, &[u8])>
    ensures { BeginsWith FitsAlways verb_word text.now result }
{
    let verb = candidate(text)?;
    let rest = behind(text, verb)?;
    Some((verb, rest))
}

// Parses the verb of a reply.
fn reply_verb_of(word: &[u8]) -> Option<ReplyVerb>
    ensures { IsFoundIn FitsAlways reply_verb_word word.now result }
{
    match word {
        b"fd" => Some(ReplyVerb::Fd),
        b"id" => Some(ReplyVerb::Id),
        b"took" => Some(ReplyVerb::Took),
        b"got" => Some(ReplyVerb::Got),
        b"done" => Some(ReplyVerb::Done),
        _ => None,
    }
}

// Parses the bytes before the first space as the verb of a reply. Returns the verb and the bytes after the space.
pub fn first_reply_verb(text: &[u8]) -> Option<(ReplyVerb, &[u8])>
    ensures { BeginsWith FitsAlways reply_verb_word text.now result }
{
    let (word, rest) = cut(text, b' ')?;
    let verb = reply_verb_of(word)?;
    Some((verb, rest))
}
