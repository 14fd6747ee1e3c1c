//! One example: its programs text of 83 bytes and its transcript are read and written again. The reader refuses each
//! beginning of the programs text. It also refuses the programs text if any one byte is replaced by `ff`.

use super::program_texts::OPENS_AND_CLOSES;
use super::spelling::{spells_programs, spells_transcript};
use smx_samples::Part::Once;
use smx_text::{Cause, TextFault, read_programs};
use smx_types::Version;
use std::process::Abort;

const OPENED_AND_CLOSED: &str = "transcript 1
driver ip mux 4 8 3 16
0 clone ip = fd 0 0
0 clone ip = fd 1 1
0 close 0 = done
0 clone ip = fd 0 0
config
next 1 1
fd 0 0 ip 0
fd 0 1 ip 1
end
";

#[test]
fn both_texts_are_written_as_they_were_read(rt: HostRuntime) {
    spells_programs(&rt, &[Once(OPENS_AND_CLOSES)], Version::V1);
    spells_transcript(&rt, &[Once(OPENED_AND_CLOSED)], Version::V1);
}

// Checks that the reader reports this cause at this line.
fn is_refused(rt: &(impl AllocGlobal + Abort), text: &[u8], line: usize, cause: Cause) {
    let fault = read_programs(rt.alloc(), text).err();
    assert!(rt; fault == Some(TextFault { line, cause }), "at line {line}");
}

// Returns the text with 0xFF in place of the byte at this index.
fn damaged(rt: &(impl AllocGlobal + Abort), place: usize) -> Vec<u8> {
    let mut text = Vec::from_slice(rt.alloc(), OPENS_AND_CLOSES.as_bytes()).expect(rt, "memory");
    assert!(rt; place < text.len());
    text[place] = 0xff;
    text
}

// Returns the cause of the fault if the byte at `place` is replaced. In the first line, the header is then wrong. If
// the last byte is replaced, the last line has no line feed.
fn cause_at(place: usize) -> Cause {
    match place {
        0..11 => Cause::Header,
        82 => Cause::Cut,
        _ => Cause::Form,
    }
}

#[test]
fn each_beginning_is_cut_and_each_damaged_byte_is_found_at_its_line(rt: HostRuntime) {
    let text = OPENS_AND_CLOSES.as_bytes();
    assert!(rt; text.len() == 83);
    let mut line = 1usize;
    for place in 0..text.len() {
        is_refused(&rt, &text[..place], line, Cause::Cut);
        is_refused(&rt, damaged(&rt, place).as_slice(), line, cause_at(place));
        if text[place] == b'\n' {
            line = line.saturating_add(1);
        }
    }
    assert!(rt; line == 9);
}
