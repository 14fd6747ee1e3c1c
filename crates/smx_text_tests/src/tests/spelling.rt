//! How a text is read, written again and copied. Large values are given to `forget`, because a proof grows where such
//! a value is dropped.

use super::copies::{are_copied, is_copied};
use smx_samples::{Part, text_of};
use smx_text::{
    Cause, TextFault, add_entry_line, finish_transcript, read_programs, read_transcript,
    write_programs, write_transcript,
};
use smx_types::{Entry, Programs, Transcript, Version};
use std::mem::forget;
use std::process::Abort;

/// Returns the text of these parts.
pub fn whole(rt: &(impl AllocGlobal + Abort), parts: &[Part]) -> String {
    text_of(rt.alloc(), parts).expect(rt, "memory")
}

/// Returns the programs that the text spells.
pub fn programs(rt: &(impl AllocGlobal + Abort), text: &[Part]) -> Programs {
    let text = whole(rt, text);
    match read_programs(rt.alloc(), text.as_bytes()) {
        Ok(value) => value,
        Err(fault) => panic!(rt; "{fault}, of {} bytes", text.len()),
    }
}

/// Returns the transcript that the text spells.
pub fn transcript(rt: &(impl AllocGlobal + Abort), text: &[Part]) -> Transcript {
    let text = whole(rt, text);
    match read_transcript(rt.alloc(), text.as_bytes()) {
        Ok(value) => value,
        Err(fault) => panic!(rt; "{fault}, of {} bytes", text.len()),
    }
}

/// Checks that the text of the programs is this text, and that a copy equals them. Checks that `least` is the earliest
/// version that can express the programs.
pub fn are_spelled(
    rt: &(impl AllocGlobal + Abort),
    value: &Programs,
    text: &[Part],
    least: Version,
) {
    let text = whole(rt, text);
    assert!(rt; value.least() == least, "{text}");
    let written = write_programs(rt.alloc(), value).expect(rt, "memory");
    assert!(rt; written.as_slice() == text.as_bytes(), "{text}");
    are_copied(rt, value);
}

/// Checks that the text spells programs. Then checks these programs as [`are_spelled`] does.
pub fn spells_programs(rt: &(impl AllocGlobal + Abort), text: &[Part], least: Version) {
    let value = programs(rt, text);
    are_spelled(rt, &value, text, least);
    forget(value);
}

// Returns the text of a transcript that is written entry by entry.
fn written_as_it_grows(rt: &(impl AllocGlobal + Abort), value: &Transcript) -> Vec<u8> {
    let mut lines = Vec::new(rt.alloc());
    for entry in value.entries.as_slice() {
        let Entry {
            process,
            command,
            reply,
        } = entry;
        assert!(rt; add_entry_line(&mut lines, *process, command, reply).is_ok());
    }
    let drivers = value.drivers.as_slice();
    finish_transcript(lines, value.version, drivers, &value.view).expect(rt, "memory")
}

// Checks that the transcript is written as this text, whole and entry by entry.
fn is_written(rt: &(impl AllocGlobal + Abort), value: &Transcript, text: &str) {
    assert!(rt; value.version == Version::V2 || value.least() == Version::V1);
    let written = write_transcript(rt.alloc(), value).expect(rt, "memory");
    assert!(rt; written.as_slice() == text.as_bytes(), "{text}");
    assert!(rt;
        written_as_it_grows(rt, value).as_slice() == text.as_bytes(),
        "{text}"
    );
}

/// Checks that the text spells a transcript. Then checks that the text of the transcript is this text, and that copies
/// equal their originals. Checks that `least` is the earliest version that can express the transcript.
pub fn spells_transcript(rt: &(impl AllocGlobal + Abort), text: &[Part], least: Version) {
    let value = transcript(rt, text);
    let text = whole(rt, text);
    assert!(rt; value.least() == least, "{text}");
    is_written(rt, &value, text.as_str());
    is_copied(rt, &value);
    forget(value);
}

/// Checks that `read_programs` refuses the text, with this cause at this line.
pub fn are_none(rt: &(impl AllocGlobal + Abort), text: &[Part], line: usize, cause: Cause) {
    let text = whole(rt, text);
    let fault = read_programs(rt.alloc(), text.as_bytes()).err();
    assert!(rt; fault == Some(TextFault { line, cause }), "{text}");
}

/// Checks that `read_transcript` refuses the text, with this cause at this line.
pub fn is_none(rt: &(impl AllocGlobal + Abort), text: &[Part], line: usize, cause: Cause) {
    let text = whole(rt, text);
    let fault = read_transcript(rt.alloc(), text.as_bytes()).err();
    assert!(rt; fault == Some(TextFault { line, cause }), "{text}");
}
