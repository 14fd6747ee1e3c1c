//! Splits a feed into lines.

ghost use Rattle.std.specs.Prelude.{◌≡◌, ℕ, ◌+◌, ◌<◌, ◌≤◌, [], List, MatchOption, false, length, take, drop};
ghost use Rattle.smx_live.specs.Inboxes.{HasLine, IsNextLine, IsPiece};
ghost use Rattle.smx_text.specs.Grammar.{IsOneLine};

use memchr::memchr;
use smx_run::{Feed, MAX_INPUT, MainFault};
use std::alloc::Global;

// The number of bytes for which one read asks.
const PIECE: usize = 4096;

/// The bytes that were read and not yet removed, and whether the feed has ended.
#[derive(Drop)]
pub struct Inbox {
    pub held: Vec<u8>,
    pub ended: bool,
}

impl Inbox {
    /// Creates an empty inbox. Does not allocate.
    pub fn new(alloc: Global) -> Inbox
        ensures held { result.held.items ≡ [] }
        ensures before_the_end { result.ended ≡ false }
    {
        Inbox {
            held: Vec::new(alloc),
            ended: false,
        }
    }

    /// Reads until the inbox starts with a whole line, and returns the length of the line without its line feed.
    /// Returns `None` if the feed ends before there is a whole line. Makes no read if the inbox already starts with a
    /// whole line.
    ///
    /// Fails with `TooLong` exactly if the line has more than `MAX_INPUT` bytes, even if its end was not read. Fails
    /// with `ReadFailed` exactly if a read failed. Otherwise fails only because it is out of memory.
    pub fn next_line<F: Feed>(&mut self, feed: &mut F) -> Result<Option<usize>, MainFault>
        requires end { F.ended feed.old ≡ self.old.ended }
        requires fine_so_far { F.failures feed.old ≡ 0 }
        ensures { (read : List ℕ) × IsNextLine (F.remaining feed.old) (F.remaining feed.new) (F.ended feed.new)
            (F.failures feed.new) self.old self.new read result }
    {
        let mut seen = 0usize;
        'reads: loop {
            let line = line_from(&self.held, seen);
            seen = self.held.len();
            if line.unwrap_or(seen) > MAX_INPUT {
                return Err(MainFault::TooLong);
            }
            if line.is_some() || self.ended {
                return Ok(line);
            }
            if !read_piece(feed, &mut self.held)? {
                self.ended = true;
                return Ok(None);
            }
        }
    }

    /// Removes the first line, which has `n` bytes, and its line feed. Does not allocate.
    pub fn drop_line(&mut self, n: usize)
        requires { n < length self.old.held.items }
        ensures held { self.new.held.items ≡ drop (n + 1) self.old.held.items }
        ensures end { self.new.ended ≡ self.old.ended }
    {
        drop(self.held.drain(..n + 1));
    }
}

// Returns the number of bytes before the first line feed, if there is one.
fn line_in(bytes: &[u8]) -> Option<usize>
    ensures { MatchOption result (IsOneLine bytes.now) (λ n. HasLine n bytes.now) }
{
    memchr(b'\n', bytes)
}

// Returns the number of bytes before the first line feed of `held`, if there is one. The first `seen` bytes have no
// line feed.
fn line_from(held: &[u8], seen: usize) -> Option<usize>
    requires within { seen ≤ length held.now }
    requires none { IsOneLine (take seen held.now) }
    ensures { MatchOption result (IsOneLine held.now) (λ n. HasLine n held.now) }
{
    let n = line_in(&held[seen..])?;
    Some(seen + n)
}

// Reads once and appends the bytes to `held`. Returns `false` if there were none, because the feed has ended.
fn read_piece<F: Feed>(feed: &mut F, held: &mut Vec<u8>) -> Result<bool, MainFault>
    requires before_the_end { F.ended feed.old ≡ false }
    requires fine_so_far { F.failures feed.old ≡ 0 }
    ensures { (read : List ℕ) × IsPiece (F.remaining feed.old) (F.remaining feed.new) (F.ended feed.new)
        (F.failures feed.new) held.old.items held.new.items read result }
{
    let mut piece = [0u8; PIECE];
    match feed.read(&mut piece) {
        Ok(0) => Ok(false),
        Ok(n) => {
            held.extend_from_slice(&piece[..n])?;
            Ok(true)
        }
        Err(_) => Err(MainFault::ReadFailed),
    }
}
