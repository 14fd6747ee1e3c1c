//! The name of a driver.

ghost use Rattle.std.specs.Prelude.{◌≡◌, ◌≤◌, ◌↔◌, length, nat_eq, IsSome, IfSome, IsTrue};
ghost use Rattle.std.specs.Cmp.Lexicographic.{pointwise};
ghost use Rattle.std.specs.Cmp.Rules.{comparing};
ghost use Rattle.std.specs.List.{list_all};
ghost use Rattle.std.proofs.Common.{rules};
ghost use Rattle.smx_types.specs.Names.{is_name_byte, is_name, padded};

use std::marker::Model;

/// A driver's name: 1 to 8 bytes from `a` to `z` and `0` to `9`, of which the first is a letter. Contracts see the
/// bytes.
#[derive(Clone, Copy, Debug)]
pub struct Name {
    len: u8,
    bytes: [u8; 8],
}

impl Model for Name {
    ghost use Rattle.std.specs.Prelude.{ℕ, List, take, length};
    ghost use Rattle.smx_types.specs.NameFields.{IsPadded, padded_view};
    ghost use Rattle.smx_types.specs.Names.{padded};

    ghost Value = { List ℕ };

    ghost view = { λ n. take n.len n.bytes };

    ghost invariant = { IsPadded };

    ghost inverse = { λ text. record { len = length text; bytes = padded text } };

    ghost inverse_ok = { padded_view };
}

// Returns whether both arrays are equal. Compares them as two numbers, in one step.
fn are_same(bytes: [u8; 8], others: [u8; 8]) -> bool
    ensures { result ≡ pointwise nat_eq bytes others }
{
    u64::from_le_bytes(bytes) == u64::from_le_bytes(others)
}

impl PartialEq for Name {
    ghost eq = { λ a b. pointwise nat_eq a b };

    ghost laws = { Prim.search (comparing, rules) };

    fn eq(&self, other: &Name) -> bool {
        are_same(self.bytes, other.bytes) && self.len == other.len
    }
}

impl Eq for Name {
    ghost laws = { Prim.search (comparing, rules) };
}

impl Name {
    /// Parses a name from a string. Returns `None` exactly if the string is not a name. Does not allocate.
    pub fn new(text: &str) -> Option<Name>
        ensures valid { IsSome result ↔ IsTrue (is_name text.now) }
        ensures value { IfSome result (λ n. n ≡ text.now) }
    {
        Name::from_bytes(text.as_bytes())
    }

    /// Parses a name from bytes. Returns `None` exactly if the bytes are not a name. Does not allocate.
    pub fn from_bytes(bytes: &[u8]) -> Option<Name>
        ensures valid { IsSome result ↔ IsTrue (is_name bytes.now) }
        ensures value { IfSome result (λ n. n ≡ bytes.now) }
    {
        if bytes.is_empty() || !bytes[0].is_ascii_lowercase() || bytes.len() > 8 {
            return None;
        }
        Some(Name {
            len: bytes.len() as u8,
            bytes: padded(bytes)?,
        })
    }

    /// Returns the bytes of the name, which are always a valid name. Does not allocate.
    pub fn as_bytes(&self) -> &[u8]
        ensures value { result.now ≡ self.now }
        ensures name { IsTrue (is_name self.now) }
    {
        &self.bytes[..self.len as usize]
    }
}

fn is_name_byte(byte: u8) -> bool
    ensures { result ≡ is_name_byte byte }
{
    byte.is_ascii_lowercase() || byte.is_ascii_digit()
}

// Returns the bytes, followed by zeros up to 8 bytes. Returns `None` if a byte is not allowed in a name.
fn padded(bytes: &[u8]) -> Option<[u8; 8]>
    requires { length bytes.now ≤ 8 }
    ensures valid { IsSome result ↔ IsTrue (list_all is_name_byte bytes.now) }
    ensures value { IfSome result (λ all. all ≡ padded bytes.now) }
{
    let mut all = [0; 8];
    'bytes: for i in 0..bytes.len() {
        let byte = bytes[i];
        if !is_name_byte(byte) {
            return None;
        }
        all[i] = byte;
    }
    Some(all)
}
