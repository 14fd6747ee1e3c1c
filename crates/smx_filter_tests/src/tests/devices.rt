//! A reader and a writer that move one byte in each call. They stop in one given call, and work again in later calls.
//! Another writer takes everything at once. All three count their calls. `Source` makes a feed of a reader, and
//! `Target` a sink of a writer.

ghost use Rattle.std.specs.Prelude.{◌≡◌, Some, false};

use smx_filters::{Source, Target};
use std::alloc::Global;
use std::io;
use std::io::{ErrorKind, Read, Write};

/// The behaviour of a reader or a writer at the call at which it stops.
#[derive(Clone, Copy)]
pub enum Stop {
    /// The call returns an error of this kind.
    Fails(ErrorKind),
    /// A write takes no byte; a flush still succeeds.
    TakesNone,
}

/// Two kinds of error with which a call stops: a final one, and one after which a caller could retry.
pub const TWO_ERRORS: [ErrorKind; 2] = [ErrorKind::Other, ErrorKind::Interrupted];

/// All kinds of error.
pub const ERRORS: [ErrorKind; 42] = [
    ErrorKind::NotFound,
    ErrorKind::PermissionDenied,
    ErrorKind::ConnectionRefused,
    ErrorKind::ConnectionReset,
    ErrorKind::HostUnreachable,
    ErrorKind::NetworkUnreachable,
    ErrorKind::ConnectionAborted,
    ErrorKind::NotConnected,
    ErrorKind::AddrInUse,
    ErrorKind::AddrNotAvailable,
    ErrorKind::NetworkDown,
    ErrorKind::BrokenPipe,
    ErrorKind::AlreadyExists,
    ErrorKind::WouldBlock,
    ErrorKind::NotADirectory,
    ErrorKind::IsADirectory,
    ErrorKind::DirectoryNotEmpty,
    ErrorKind::ReadOnlyFilesystem,
    ErrorKind::FilesystemLoop,
    ErrorKind::StaleNetworkFileHandle,
    ErrorKind::InvalidInput,
    ErrorKind::InvalidData,
    ErrorKind::TimedOut,
    ErrorKind::WriteZero,
    ErrorKind::StorageFull,
    ErrorKind::NotSeekable,
    ErrorKind::QuotaExceeded,
    ErrorKind::FileTooLarge,
    ErrorKind::ResourceBusy,
    ErrorKind::ExecutableFileBusy,
    ErrorKind::Deadlock,
    ErrorKind::CrossesDevices,
    ErrorKind::TooManyLinks,
    ErrorKind::InvalidFilename,
    ErrorKind::ArgumentListTooLong,
    ErrorKind::Interrupted,
    ErrorKind::Unsupported,
    ErrorKind::UnexpectedEof,
    ErrorKind::OutOfMemory,
    ErrorKind::InProgress,
    ErrorKind::Other,
    ErrorKind::Uncategorized,
];

/// A reader of bytes in memory that gives one byte in each read, and then none.
#[derive(Drop)]
pub struct OneByteReader<'a> {
    /// The bytes that it still has.
    pub bytes: &'a [u8],
    /// The number of reads before the one that stops.
    pub reads: usize,
    /// The error of that read.
    pub kind: ErrorKind,
    /// The number of reads that were asked of it.
    pub asked: usize,
}

/// Returns a feed of these bytes, one byte in each read. The read after `reads` reads fails with this kind of error,
/// and later reads work again. The read that shows the end counts too, so reading all bytes takes `bytes.len() + 1`
/// reads.
pub fn one_byte_feed(bytes: &[u8], reads: usize, kind: ErrorKind) -> Source<OneByteReader<'_>>
    ensures before_the_end { result.ended ≡ false }
    ensures fine { result.failures ≡ 0 }
{
    Source::new(OneByteReader {
        bytes,
        reads,
        kind,
        asked: 0,
    })
}

impl Read for OneByteReader<'_> {
    ghost remaining = { λ reader. Some reader.bytes.now };

    fn read(&mut self, buffer: &mut [u8]) -> io::Result<usize> {
        self.asked = self.asked.saturating_add(1);
        if self.reads == 0 {
            self.reads = usize::MAX;
            return Err(io::Error::from(self.kind));
        }
        self.reads -= 1;
        let size = buffer.len().min(1);
        self.bytes.read(&mut buffer[..size])
    }
}

/// A writer into memory that takes one byte in each write.
#[derive(Drop)]
pub struct OneByteWriter {
    /// The bytes that it has taken.
    pub taken: Vec<u8>,
    /// The number of writes and flushes before the one that stops.
    pub calls: usize,
    pub stop: Stop,
    /// The number of writes and flushes that were asked of it.
    pub asked: usize,
}

/// Returns a sink that takes one byte in each write. The write or flush after `calls` writes stops, and later calls
/// work again. Writing and flushing `n` bytes takes `n + 1` calls.
pub fn one_byte_sink(alloc: Global, calls: usize, stop: Stop) -> Target<OneByteWriter>
    ensures fine { result.failures ≡ 0 }
{
    Target::new(OneByteWriter {
        taken: Vec::new(alloc),
        calls,
        stop,
        asked: 0,
    })
}

impl Write for OneByteWriter {
    ghost contents = { λ writer. Some writer.taken.items };

    fn write(&mut self, bytes: &[u8]) -> io::Result<usize> {
        self.asked = self.asked.saturating_add(1);
        if self.calls == 0 {
            self.calls = usize::MAX;
            return match self.stop {
                Stop::Fails(kind) => Err(io::Error::from(kind)),
                Stop::TakesNone => Ok(0),
            };
        }
        self.calls -= 1;
        let size = bytes.len().min(1);
        self.taken.write(&bytes[..size])
    }

    fn flush(&mut self) -> io::Result<()> {
        self.asked = self.asked.saturating_add(1);
        if self.calls > 0 {
            return Ok(());
        }
        self.calls = usize::MAX;
        match self.stop {
            Stop::Fails(kind) => Err(io::Error::from(kind)),
            Stop::TakesNone => Ok(()),
        }
    }
}

/// A writer into memory that takes all that it is given.
#[derive(Drop)]
pub struct WholeWriter {
    /// The bytes that it has taken.
    pub taken: Vec<u8>,
    /// The number of writes and flushes that were asked of it.
    pub asked: usize,
}

impl Write for WholeWriter {
    ghost contents = { λ writer. Some writer.taken.items };

    fn write(&mut self, bytes: &[u8]) -> io::Result<usize> {
        self.asked = self.asked.saturating_add(1);
        self.taken.write(bytes)
    }

    fn flush(&mut self) -> io::Result<()> {
        self.asked = self.asked.saturating_add(1);
        Ok(())
    }
}
