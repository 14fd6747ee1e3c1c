//! A mark for each number below a count.

ghost use Rattle.std.specs.Prelude.{◌≡◌, ◌≢◌, ℕ, ◌<◌, ◌≤◌, ◌^◌, false, true, length, slice_index, IfNone, IfOk, IfSome};
ghost use Rattle.smx_queues.specs.Bits.{AreBits, BitTable, bit_count, has_bit, has_bit_but};

use smx_types::NoMemory;
use std::alloc::Global;
use std::marker::Model;

/// A mark for each number below `count`. The lowest marked number is found fast. Contracts see which numbers are
/// marked.
#[derive(Debug, Drop)]
pub struct Bits {
    count: usize,
    // A bit for each number, 64 in a word.
    words: Vec<u64>,
    // The index of a word. No word before it has a mark.
    first: usize,
}

impl Model for Bits {
    ghost Value = { BitTable };

    ghost view = { λ b. record { count = b.count; words = b.words.items } };

    ghost invariant = { λ b. AreBits b.first b.count b.words.items };
}

// Returns the index of the first word, from index `start` on, that has a mark. If no such word exists, returns `start`
// or the number of words, whichever is larger.
fn first_word(words: &[u64], start: usize) -> usize
    ensures zero { (w : ℕ) → start ≤ w → w < result → slice_index words.now w ≡ 0 }
    ensures some { result < length words.now → slice_index words.now result ≢ 0 }
    ensures low { start ≤ result }
{
    for w in start..words.len() {
        if words[w] != 0 {
            return w;
        }
    }
    words.len().max(start)
}

impl Bits {
    /// Makes a table for the numbers below `count`, without marks. Fails only if out of memory.
    pub fn new(alloc: Global, count: usize) -> Result<Bits, NoMemory>
        requires { count < 2 ^ 63 }
        ensures count { IfOk result (λ b. b.count ≡ count) }
        ensures none { IfOk result (λ b. (n : ℕ) → has_bit b n ≡ false) }
    {
        let words = vec![in alloc; 0; count.div_ceil(64)]?;
        let first = words.len();
        Ok(Bits {
            count,
            words,
            first,
        })
    }

    /// Marks the number. Takes no memory.
    pub fn set(&mut self, n: usize)
        requires { n < self.old.count }
        ensures here { has_bit self.new n ≡ true }
        ensures others { (m : ℕ) → m ≢ n → has_bit self.new m ≡ has_bit self.old m }
        ensures kept { (m : ℕ) → has_bit self.old m ≡ true → has_bit self.new m ≡ true }
        ensures count { self.new.count ≡ self.old.count }
    {
        self.words[n / 64] |= 1u64 << (n % 64);
        self.first = self.first.min(n / 64);
    }

    /// Clears the mark of the number, if it has one. Takes no memory.
    pub fn clear(&mut self, n: usize)
        requires { n < self.old.count }
        ensures gone { (m : ℕ) → has_bit self.new m ≡ has_bit_but self.old n m }
        ensures fewer { has_bit self.old n ≡ true → bit_count self.new < bit_count self.old }
        ensures count { self.new.count ≡ self.old.count }
    {
        self.words[n / 64] &= !(1u64 << (n % 64));
    }

    /// Returns whether the number is marked. Takes no memory.
    pub fn is_set(&self, n: usize) -> bool
        requires { n < self.now.count }
        ensures { result ≡ has_bit self.now n }
    {
        (self.words[n / 64] >> (n % 64)) & 1 == 1
    }

    /// Returns the lowest marked number that is at least `n`, if there is one. Takes no memory.
    pub fn first_from(&self, n: usize) -> Option<usize>
        ensures below { IfSome result (λ m. m < self.now.count) }
        ensures from { IfSome result (λ m. n ≤ m) }
        ensures marked { IfSome result (λ m. has_bit self.now m ≡ true) }
        ensures least { IfSome result (λ m. (k : ℕ) → n ≤ k → k < m → has_bit self.now k ≡ false) }
        ensures none { IfNone result ((k : ℕ) → n ≤ k → has_bit self.now k ≡ false) }
    {
        let word = n / 64;
        if word >= self.words.len() {
            return None;
        }
        let rest = self.words[word] >> (n % 64);
        if rest != 0 {
            return Some(n + rest.trailing_zeros() as usize);
        }
        let next = first_word(&self.words, word + 1);
        if next >= self.words.len() {
            return None;
        }
        Some(64 * next + self.words[next].trailing_zeros() as usize)
    }

    /// Returns the lowest marked number, if there is one. Takes no memory.
    pub fn first(&mut self) -> Option<usize>
        ensures same { self.new ≡ self.old }
        ensures below { IfSome result (λ n. n < self.old.count) }
        ensures marked { IfSome result (λ n. has_bit self.old n ≡ true) }
        ensures least { IfSome result (λ n. (m : ℕ) → m < n → has_bit self.old m ≡ false) }
        ensures none { IfNone result ((m : ℕ) → has_bit self.old m ≡ false) }
    {
        let least = self.first_from(64 * self.first);
        self.first = match least {
            Some(n) => n / 64,
            None => self.words.len(),
        };
        least
    }

    /// Copies the marks. Fails only if out of memory.
    pub fn copy(&self, alloc: Global) -> Result<Bits, NoMemory>
        ensures { IfOk result (λ b. b ≡ self.now) }
    {
        Ok(Bits {
            count: self.count,
            words: Vec::from_slice(alloc, &self.words)?,
            first: self.first,
        })
    }
}
