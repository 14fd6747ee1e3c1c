//! The kinds of words that a line can have, and how each is described.

ghost use Rattle.std.specs.Prelude.{◌≡◌, MatchBool, Some};
ghost use Rattle.smx_explain.specs.Columns.{EndsThere};
ghost use Rattle.smx_explain.specs.WantedWords.{choice_words, value_words, wanted_words};

use std::fmt;

/// The kinds of texts.
#[derive(Clone, Copy, Debug, PartialEq, Eq)]
pub enum TextKind {
    Programs,
    Transcript,
}

/// The kinds of lines: those of programs, of a transcript, and of a session.
#[derive(Clone, Copy, Debug, PartialEq, Eq)]
pub enum LineKind {
    Programs,
    Transcript,
    Session,
}

/// The kinds of words that give a value.
#[derive(Clone, Copy, Debug, PartialEq, Eq)]
pub enum Value {
    Name,
    DriverKind,
    Number,
    Process,
    /// An id, or `all`.
    Which,
    Sides,
    Side,
    LinkKind,
    Bytes,
}

/// The kinds of words that decide how the line goes on.
#[derive(Clone, Copy, Debug, PartialEq, Eq)]
pub enum Choice {
    /// The first word of a line of programs.
    ProgramsLine,
    /// The first word of a line of a transcript.
    TranscriptLine,
    /// The first word of a line of a session.
    SessionLine,
    /// The first word of an entry's command.
    Command,
    /// The first word of a session's command.
    SessionCommand,
    /// Whether a session switches tracing on or off.
    Switch,
    /// The sign between a command and its reply.
    Equals,
    /// The first word of a reply.
    Reply,
    /// The reason after `EBADF`.
    BadDescriptor,
    /// The reason after `EINVAL`.
    Invalid,
    /// The reason after `EAGAIN`.
    Again,
    /// The reason after `ENXIO`.
    NoDevice,
    /// One more serial, or the end of the line.
    Serials,
    /// The end of the line.
    End,
}

/// The kind of word that is expected in some column of a line.
#[derive(Clone, Copy, Debug, PartialEq, Eq)]
pub enum Wanted {
    Value(Value),
    Choice(Choice),
}

impl TextKind {
    /// Returns the kind of the lines of this text.
    pub fn lines(self) -> LineKind {
        match self {
            TextKind::Programs => LineKind::Programs,
            TextKind::Transcript => LineKind::Transcript,
        }
    }
}

impl Value {
    fn words(self) -> &'static str
        ensures { result.now ≡ value_words self }
    {
        match self {
            Value::Name => "a name of 1 to 8 small letters and digits, a letter first,",
            Value::DriverKind => "'leaf' or 'mux'",
            Value::Number => "a number from 0 to 4294967295",
            Value::Process => "a process from 0 to 63",
            Value::Which => "an id or 'all'",
            Value::Sides => "'r', 'w' or 'rw'",
            Value::Side => "'w' or 'r'",
            Value::LinkKind => "'link' or 'plink'",
            Value::Bytes => "hex digits in pairs, or '-',",
        }
    }
}

impl Choice {
    fn words(self) -> &'static str
        ensures { result.now ≡ choice_words self }
    {
        match self {
            Choice::ProgramsLine =>
                "'driver', 'process', 'end', a command, or in version 2 'hangup'",
            Choice::TranscriptLine => {
                "'driver', a process from 0 to 63, 'config', 'next', 'fd', 'link', 'bind', 'route', 'msg', \
                    'full', 'end', or in version 2 'hung'"
            }
            Choice::SessionLine => "'show', 'trace', 'end', or a process from 0 to 63",
            Choice::Command | Choice::SessionCommand => "a command, or in version 2 'hangup'",
            Choice::Switch => "'on' or 'off'",
            Choice::Equals => "'='",
            Choice::Reply => "'fd', 'id', 'took', 'got', 'done', an error, or in version 2 'eof'",
            Choice::BadDescriptor => "'fd'",
            Choice::Invalid => {
                "'below', 'notmux', 'already', 'cycle', 'id', 'unbound' or 'unrouted'"
            }
            Choice::Again => "'links', 'full' or 'empty'",
            Choice::NoDevice => "'driver', 'minor', or in version 2 'hangup'",
            Choice::Serials => "a number from 0 to 4294967295, or the end of the line",
            Choice::End => "the end of the line",
        }
    }
}

impl Wanted {
    /// Returns whether a line may end where this kind of word is expected.
    pub fn may_end(self) -> bool
        ensures { MatchBool result (EndsThere self) (EndsThere self → ⊥) }
    {
        matches!(self, Wanted::Choice(Choice::Serials | Choice::End))
    }
}

impl fmt::Display for Wanted {
    ghost output = { λ wanted. Some (wanted_words wanted) };

    fn fmt<W: fmt::Write>(&self, f: &mut fmt::Formatter<W>) -> fmt::Result {
        match self {
            Wanted::Value(value) => f.write_str(value.words()),
            Wanted::Choice(choice) => f.write_str(choice.words()),
        }
    }
}
