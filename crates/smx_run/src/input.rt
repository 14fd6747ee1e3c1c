//! The reader of an input, with a count of its failures, and reading to the end.

ghost use Rattle.std.specs.Prelude.{◌≡◌, ℕ, ◌+◌, ◌<◌, ◌≤◌, Bool, true, false, List, Option, length, take, vec_len};
ghost use Rattle.std.specs.Prelude.{IfOk, OnOk, OnErr};
ghost use Rattle.std.specs.Io.KnownBytes.{ReadConsumes};
ghost use Rattle.smx_run.specs.Input.{IsInput};

use crate::main_fault::MainFault;
use std::alloc::{AllocError, Global};
use std::io::Read;

/// The reader or the writer failed.
#[derive(Clone, Copy, Debug, PartialEq, Eq)]
pub struct Failed;

/// A reader. After a read has failed or has shown the end, no read is allowed.
pub trait Feed {
    /// The bytes that further reads will give, if they are known.
    ghost remaining: { Self → Option (List ℕ) };

    /// Whether the end was reached: a read succeeded and gave no bytes.
    ghost ended: { Self → Bool };

    /// How many reads have failed.
    ghost failures: { Self → ℕ };

    /// Reads into the beginning of the buffer, which must not be empty. Returns the number of bytes: 0 only at the end.
    /// Fails only if the reader failed; the reader then gave no bytes.
    fn read(&mut self, buffer: &mut [u8]) -> Result<usize, Failed>
        requires room { 0 < length buffer.old }
        requires before_the_end { ended self.old ≡ false }
        requires fine_so_far { failures self.old ≡ 0 }
        ensures bound { IfOk result (λ n. n ≤ length buffer.new) }
        ensures end { IfOk result (λ n. n ≡ 0 → ended self.new ≡ true) }
        ensures more { IfOk result (λ n. 0 < n → ended self.new ≡ false) }
        ensures bytes { ReadConsumes (remaining self.old) (remaining self.new) result buffer.new }
        ensures fine { OnOk result (failures self.new ≡ 0) }
        ensures failed { OnErr result (failures self.new ≡ 1) };
}

/// Makes a feed of a reader of std. Each error of the reader is a failure, even an interrupted call.
#[derive(Drop)]
pub struct Source<R> {
    pub reader: R,
    /// Whether a read has given no bytes.
    pub ended: bool,
    /// How many reads have failed.
    pub failures: u64,
}

impl<R> Source<R> {
    /// Wraps a reader, before any read.
    pub fn new(reader: R) -> Source<R>
        ensures reader { result.reader ≡ reader }
        ensures before_the_end { result.ended ≡ false }
        ensures fine { result.failures ≡ 0 }
    {
        Source {
            reader,
            ended: false,
            failures: 0,
        }
    }
}

impl<R: Read> Feed for Source<R> {
    ghost remaining = { λ source. R.remaining source.reader };

    ghost ended = { λ source. source.ended };

    ghost failures = { λ source. source.failures };

    fn read(&mut self, buffer: &mut [u8]) -> Result<usize, Failed> {
        match self.reader.read(buffer) {
            Ok(n) => {
                self.ended = n == 0;
                Ok(n)
            }
            Err(_) => {
                self.failures += 1;
                Err(Failed)
            }
        }
    }
}

/// The largest number of bytes of an input.
pub const MAX_INPUT: usize = 16_777_216;

// When the buffer needs more memory, it grows by the number of bytes read so far, but by at least `LEAST_PIECE` and at
// most `MOST_PIECE`. The new memory is zeroed piece by piece, each piece only when the next read needs it. The size of
// a piece is a sixteenth (`SHARE`) of the number of bytes read so far, within the same two bounds. So memory that no
// read needs is never written, and costs nothing.
const LEAST_PIECE: usize = 65_536;

const MOST_PIECE: usize = 1_048_576;

const SHARE: usize = 16;

/// Reads all bytes up to the end of the feed. (A read of 0 bytes shows the end.) Fails with `TooLong` exactly if more
/// than `MAX_INPUT` bytes were read, and with `ReadFailed` exactly if a read failed. Otherwise fails only if memory
/// runs out before the end was seen. Requests memory for at most `MAX_INPUT + 1` bytes. Each read except the last adds
/// at least one byte, so there are at most `MAX_INPUT + 1` reads.
pub fn read_all<F: Feed>(alloc: Global, feed: &mut F) -> Result<Vec<u8>, MainFault>
    requires before_the_end { F.ended feed.old ≡ false }
    requires fine_so_far { F.failures feed.old ≡ 0 }
    ensures { (read : List ℕ) × IsInput (F.remaining feed.old) (F.remaining feed.new)
        (F.ended feed.new) (F.failures feed.new) result read }
{
    let mut all = Vec::new(alloc);
    let mut count = 0usize;
    'reads: loop {
        make_room(&mut all, count)?;
        let Ok(n) = feed.read(&mut all[count..]) else {
            return Err(MainFault::ReadFailed);
        };
        if n == 0 {
            all.truncate(count);
            return Ok(all);
        }
        count += n;
        if count > MAX_INPUT {
            return Err(MainFault::TooLong);
        }
    }
}

// Makes room after the first `count` bytes. Leaves these unchanged.
fn make_room(all: &mut Vec<u8>, count: usize) -> Result<(), AllocError>
    requires within { count ≤ vec_len all.old }
    requires few { count ≤ MAX_INPUT }
    requires most { vec_len all.old ≤ MAX_INPUT + 1 }
    ensures room { OnOk result (count < vec_len all.new) }
    ensures most { vec_len all.new ≤ MAX_INPUT + 1 }
    ensures kept { OnOk result (take count all.new.items ≡ take count all.old.items) }
{
    let len = all.len();
    if count < len {
        return Ok(());
    }
    let left = MAX_INPUT + 1 - len;
    let piece = (len / SHARE).clamp(LEAST_PIECE, MOST_PIECE).min(left);
    if all.capacity() - len < piece {
        all.reserve_exact(len.clamp(LEAST_PIECE, MOST_PIECE).min(left))?;
    }
    all.resize(len + piece, 0)
}
