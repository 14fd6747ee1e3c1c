//! The writer of an output, with a count of its failures, and writing all of an output.

ghost use Rattle.std.specs.Prelude.{◌≡◌, ℕ, ◌<◌, ◌≤◌, Bool, true, false, List, Option, length, IfOk, IfErr, OnOk, OnErr};
ghost use Rattle.std.specs.Io.KnownBytes.{Appends, Keeps, WriteAppends};
ghost use Rattle.smx_run.specs.Devices.{AppendsBeginning};
ghost use Rattle.smx_run.specs.declared.main_fault.MainFault.TheVariants.{WriteFailed};

use crate::input::Failed;
use crate::main_fault::MainFault;
use std::io::Write;

/// A writer. After a write or a flush has failed, no write and no flush is allowed.
pub trait Sink {
    /// The bytes that the writer holds, if they are known.
    ghost contents: { Self → Option (List ℕ) };

    /// Whether the writer was flushed after the last write.
    ghost flushed: { Self → Bool };

    /// How many writes and flushes have failed. A write that takes none of its bytes has failed.
    ghost failures: { Self → ℕ };

    /// Writes the beginning of `bytes`, and returns the number of bytes that it wrote, at least one. Fails only if the
    /// writer failed or took no byte; then nothing was written.
    fn write(&mut self, bytes: &[u8]) -> Result<usize, Failed>
        requires some { 0 < length bytes.now }
        requires fine_so_far { failures self.old ≡ 0 }
        ensures bound { IfOk result (λ n. (0 < n) × (n ≤ length bytes.now)) }
        ensures bytes { WriteAppends (contents self.old) (contents self.new) result bytes.now }
        ensures unflushed { OnOk result (flushed self.new ≡ false) }
        ensures fine { OnOk result (failures self.new ≡ 0) }
        ensures failed { OnErr result (failures self.new ≡ 1) };

    /// Sends out the bytes that were written. Fails only if the writer failed.
    fn flush(&mut self) -> Result<(), Failed>
        requires { failures self.old ≡ 0 }
        ensures bytes { Keeps (contents self.old) (contents self.new) }
        ensures flushed { OnOk result (flushed self.new ≡ true) }
        ensures fine { OnOk result (failures self.new ≡ 0) }
        ensures failed { OnErr result (failures self.new ≡ 1) };
}

/// Makes a sink of a writer of std. Each error of the writer is a failure, even an interrupted call. A write that takes
/// no byte is a failure too.
#[derive(Drop)]
pub struct Target<W> {
    pub writer: W,
    /// Whether the writer was flushed after the last write.
    pub flushed: bool,
    /// How many writes and flushes have failed.
    pub failures: u64,
}

impl<W> Target<W> {
    /// Wraps a writer, before any write or flush.
    pub fn new(writer: W) -> Target<W>
        ensures writer { result.writer ≡ writer }
        ensures unflushed { result.flushed ≡ false }
        ensures fine { result.failures ≡ 0 }
    {
        Target {
            writer,
            flushed: false,
            failures: 0,
        }
    }
}

impl<W: Write> Sink for Target<W> {
    ghost contents = { λ target. W.contents target.writer };

    ghost flushed = { λ target. target.flushed };

    ghost failures = { λ target. target.failures };

    fn write(&mut self, bytes: &[u8]) -> Result<usize, Failed> {
        match self.writer.write(bytes) {
            Ok(0) | Err(_) => {
                self.failures += 1;
                Err(Failed)
            }
            Ok(n) => {
                self.flushed = false;
                Ok(n)
            }
        }
    }

    fn flush(&mut self) -> Result<(), Failed> {
        match self.writer.flush() {
            Ok(()) => {
                self.flushed = true;
                Ok(())
            }
            Err(_) => {
                self.failures += 1;
                Err(Failed)
            }
        }
    }
}

/// Writes all of the bytes, then flushes. Fails only with `WriteFailed`, and only if the sink failed; then a beginning
/// of the bytes was written.
pub fn write_all<S: Sink>(sink: &mut S, bytes: &[u8]) -> Result<(), MainFault>
    requires { S.failures sink.old ≡ 0 }
    ensures written { OnOk result (Appends (S.contents sink.old) (S.contents sink.new) bytes.now) }
    ensures flushed { OnOk result (S.flushed sink.new ≡ true) }
    ensures fine { OnOk result (S.failures sink.new ≡ 0) }
    ensures beginning { OnErr result
        (AppendsBeginning (S.contents sink.old) (S.contents sink.new) bytes.now) }
    ensures fault { IfErr result (λ fault. fault ≡ WriteFailed) }
    ensures failed { OnErr result (S.failures sink.new ≡ 1) }
{
    let mut at = 0usize;
    while at < bytes.len() {
        match sink.write(&bytes[at..]) {
            Ok(n) => at += n,
            Err(_) => return Err(MainFault::WriteFailed),
        }
    }
    match sink.flush() {
        Ok(()) => Ok(()),
        Err(_) => Err(MainFault::WriteFailed),
    }
}
