//! The fixed words that a line may have in each column, and what follows each of them.

ghost use Rattle.std.specs.Prelude.{◌≡◌};
ghost use Rattle.smx_explain.specs.Rows.{rows_in, rows_of};

use crate::kinds::Choice::{
    self, Again, BadDescriptor, Command, End, Equals, Invalid, NoDevice, ProgramsLine, Reply,
    Serials, SessionCommand, SessionLine, Switch, TranscriptLine,
};
use crate::kinds::Value::{
    self, Bytes, DriverKind, LinkKind, Name, Number, Process, Side, Sides, Which,
};
use smx_types::Version;

/// A fixed word, the values expected after it, and the choice after these.
pub type Row = (&'static str, &'static [Value], Choice);

// The row of a driver, in programs and in transcripts.
const DRIVER: Row = (
    "driver",
    &[Name, DriverKind, Number, Number, Number, Number],
    End,
);

// The first words of the lines of a transcript, except entries. In this table and in the next ones, only version 2 has
// the first row.
const TRANSCRIPT_LINES: &[Row] = &[
    ("hung", &[Name, Number], End),
    DRIVER,
    ("config", &[], End),
    ("next", &[Number, Number], End),
    ("fd", &[Process, Number, Name, Number], End),
    ("link", &[Number, Name, Number, Name, Number, LinkKind], End),
    ("bind", &[Name, Number, Number], End),
    ("route", &[Name, Number, Number], End),
    ("msg", &[Name, Number, Side, Number, Number, Bytes], End),
    ("full", &[Name, Number, Side], End),
    ("end", &[], End),
];

const COMMANDS: &[Row] = &[
    ("hangup", &[Name, Number], Equals),
    ("clone", &[Name], Equals),
    ("open", &[Name, Number], Equals),
    ("dup", &[Number], Equals),
    ("close", &[Number], Equals),
    ("exit", &[], Equals),
    ("link", &[Number, Number], Equals),
    ("plink", &[Number, Number], Equals),
    ("unlink", &[Number, Which], Equals),
    ("punlink", &[Number, Which], Equals),
    ("bind", &[Number, Number], Equals),
    ("unbind", &[Number], Equals),
    ("route", &[Number, Number, Number], Equals),
    ("unroute", &[Number, Number], Equals),
    ("write", &[Number, Number, Bytes], Equals),
    ("read", &[Number], Equals),
    ("flush", &[Number, Sides], Equals),
    ("inject", &[Name, Number, Number, Bytes], Equals),
    ("transmit", &[Name, Number], Equals),
];

const REPLIES: &[Row] = &[
    ("eof", &[], End),
    ("fd", &[Number, Number], End),
    ("id", &[Number], End),
    ("took", &[Number], End),
    ("got", &[Number, Number, Bytes], End),
    ("done", &[], Serials),
    ("EBADF", &[], BadDescriptor),
    ("EINVAL", &[], Invalid),
    ("EAGAIN", &[], Again),
    ("ENXIO", &[], NoDevice),
    ("EMFILE", &[], End),
    ("EADDRINUSE", &[], End),
    ("ERANGE", &[], End),
];

const NO_DEVICE: &[Row] = &[
    ("hangup", &[], End),
    ("driver", &[], End),
    ("minor", &[], End),
];

// The reasons after `EINVAL`.
const INVALID: [Row; 7] = [
    ("below", &[], End),
    ("notmux", &[], End),
    ("already", &[], End),
    ("cycle", &[], End),
    ("id", &[], End),
    ("unbound", &[], End),
    ("unrouted", &[], End),
];

/// Returns the rows of a choice in a version.
pub fn rows_in(version: Version, choice: Choice) -> &'static [Row]
    ensures { rows_of result.now ≡ rows_in version choice }
{
    match (choice, version) {
        (ProgramsLine, _) => &[DRIVER, ("process", &[Number], End), ("end", &[], End)],
        (TranscriptLine, Version::V1) => &TRANSCRIPT_LINES[1..],
        (TranscriptLine, Version::V2) => TRANSCRIPT_LINES,
        (SessionLine, _) => &[
            ("show", &[], End),
            ("trace", &[], Switch),
            ("end", &[], End),
        ],
        (Command, Version::V1) => &COMMANDS[1..],
        (Command, Version::V2) => COMMANDS,
        (Switch, _) => &[("on", &[], End), ("off", &[], End)],
        (Equals, _) => &[("=", &[], Reply)],
        (Reply, Version::V1) => &REPLIES[1..],
        (Reply, Version::V2) => REPLIES,
        (BadDescriptor, _) => &[("fd", &[], End)],
        (Invalid, _) => &INVALID,
        (Again, _) => &[("links", &[], End), ("full", &[], End), ("empty", &[], End)],
        (NoDevice, Version::V1) => &NO_DEVICE[1..],
        (NoDevice, Version::V2) => NO_DEVICE,
        (SessionCommand | Serials | End, _) => &[],
    }
}
