//! Tests of reading a whole input.

use super::devices::{ERRORS, one_byte_feed};
use smx_filters::{MAX_INPUT, MainFault, Source, read_all};
use std::io;
use std::io::{ErrorKind, Read};
use std::mem::forget;
use std::process::Abort;

const INPUTS: [&[u8]; 3] = [b"", b"a", b"abc"];

// Checks that these bytes are read in one read for each byte, and one that shows the end.
fn is_read(rt: &(impl AllocGlobal + Abort), bytes: &[u8]) {
    let mut feed = one_byte_feed(bytes, usize::MAX, ErrorKind::Other);
    let read = read_all(rt.alloc(), &mut feed).ok();
    let read = read.expect(rt, "it can be read");
    assert!(rt; read.as_slice() == bytes);
    assert!(rt; feed.ended && feed.failures == 0);
    assert!(rt; feed.reader.asked == bytes.len().saturating_add(1));
    forget(read);
}

#[test]
fn reads_to_the_end(rt: HostRuntime) {
    for bytes in &INPUTS {
        is_read(&rt, *bytes);
    }
}

const ABC: &[u8] = b"abc";

// Checks that the reading fails if one read fails, that this read is not retried, and that the bytes of `left` are not
// read.
fn stops_before(rt: &(impl AllocGlobal + Abort), reads: usize, left: &[u8], kind: ErrorKind) {
    let mut feed = one_byte_feed(ABC, reads, kind);
    let fault = read_all(rt.alloc(), &mut feed).err();
    assert!(rt;
        matches!(fault, Some(MainFault::ReadFailed)),
        "after {reads} reads"
    );
    assert!(rt; feed.failures == 1);
    assert!(rt; feed.reader.bytes == left);
    assert!(rt; feed.reader.asked == reads.saturating_add(1));
}

#[test]
fn tries_no_read_again(rt: HostRuntime) {
    for kind in &ERRORS {
        for reads in 0..4 {
            stops_before(&rt, reads, &ABC[reads..], *kind);
        }
    }
}

// A reader that counts its reads.
#[derive(Drop)]
struct Counted<R> {
    reader: R,
    asked: usize,
}

impl<R: Read> Read for Counted<R> {
    ghost remaining = { λ counted. R.remaining counted.reader };

    fn read(&mut self, buffer: &mut [u8]) -> io::Result<usize> {
        self.asked = self.asked.saturating_add(1);
        self.reader.read(buffer)
    }
}

#[test]
fn takes_the_longest_input_in_few_reads_and_none_longer(rt: HostRuntime) {
    let reader = io::repeat(b'a').take(MAX_INPUT as u64);
    let mut feed = Source::new(Counted { reader, asked: 0 });
    let read = read_all(rt.alloc(), &mut feed)
        .ok()
        .expect(&rt, "it can be read");
    assert!(rt; read.len() == MAX_INPUT);
    assert!(rt; feed.reader.asked < 100);
    forget(read);
    let mut feed = Source::new(io::repeat(b'a').take(MAX_INPUT as u64 + 1));
    let answer = read_all(rt.alloc(), &mut feed);
    assert!(rt; matches!(answer, Err(MainFault::TooLong)));
}

// Read byte by byte, the longest input takes 16,777,217 reads. An input with one more byte is too long; this too takes
// 16,777,217 reads.
#[test]
fn takes_the_longest_input_byte_by_byte_and_none_longer(rt: HostRuntime) {
    let mut input = Vec::new(rt.alloc());
    assert!(rt; input.resize(16_777_216, b'a').is_ok());
    is_read(&rt, input.as_slice());
    assert!(rt; input.push(b'a').is_ok());
    let mut feed = one_byte_feed(input.as_slice(), usize::MAX, ErrorKind::Other);
    let answer = read_all(rt.alloc(), &mut feed);
    assert!(rt; matches!(answer, Err(MainFault::TooLong)));
    assert!(rt; feed.reader.asked == 16_777_217);
}
