//! The law of `==`: it decides whether two values are equal.

ghost use Rattle.std.specs.Prelude.{◌≡◌, ◌↔◌, IsTrue};
ghost use Rattle.std.specs.Cmp.Lexicographic.{pointwise_decides};
ghost use Rattle.std.proofs.Common.{rules};
ghost use Rattle.smx_types.specs.SameLemmas.{command_tells, drivers_tell, entries_tell, entry_tells, many_tells};
ghost use Rattle.smx_types.specs.SameLemmas.{programs_tell, view_tells};

use crate::command::{Command, Entry};
use crate::driver::DriverSpec;
use crate::items::Items;
use crate::message::Message;
use crate::programs::{Many, Programs};
use crate::reply::Reply;
use crate::transcript::Transcript;
use crate::view::{
    BindingLine, ConfigView, DescriptorLine, FullLine, HungLine, LinkLine, MessageLine, RouteLine,
};

/// A type whose `==` compares everything: it is true exactly if both values are equal.
pub trait Same: PartialEq {
    ghost tells: { (a b : Self) → IsTrue (Self.eq a b) ↔ (a ≡ b) };

    /// Returns whether both values are equal, as `==` does. Does not allocate.
    final fn is_same(&self, other: &Self) -> bool
        ensures { IsTrue result ↔ (self.now ≡ other.now) }
    {
        self == other
    }
}

impl<T: Same> Same for Items<T> {
    ghost tells = { pointwise_decides T.tells };
}

impl Same for u8 {
    ghost tells = { Prim.search rules };
}

impl Same for u32 {
    ghost tells = { Prim.search rules };
}

impl Same for DriverSpec {
    ghost tells = { Prim.search rules };
}

impl Same for DescriptorLine {
    ghost tells = { Prim.search rules };
}

impl Same for LinkLine {
    ghost tells = { Prim.search rules };
}

impl Same for BindingLine {
    ghost tells = { Prim.search rules };
}

impl Same for RouteLine {
    ghost tells = { Prim.search rules };
}

impl Same for HungLine {
    ghost tells = { Prim.search rules };
}

impl Same for FullLine {
    ghost tells = { Prim.search rules };
}

impl Same for Message {
    ghost tells = { Prim.search rules };
}

impl Same for Reply {
    ghost tells = { Prim.search rules };
}

impl Same for MessageLine {
    ghost tells = { Prim.search rules };
}

impl Same for Command {
    ghost tells = { command_tells };
}

impl Same for Entry {
    ghost tells = { entry_tells };
}

impl Same for Many {
    ghost tells = { many_tells };
}

impl Same for ConfigView {
    ghost tells = { view_tells };
}

impl Same for Transcript {
    ghost tells = { Prim.search (rules, drivers_tell, entries_tell, view_tells) };
}

impl Same for Programs {
    ghost tells = { programs_tell };
}
