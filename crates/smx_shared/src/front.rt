//! The front of a shared system: how many entries and links it has, and whether a seat has the turn.

ghost use Rattle.std.specs.Prelude.{◌≡◌, ◌*◌, ◌<◌, ◌^◌};
ghost use Rattle.smx_shared.specs.Fronts.{word_of};

use smx_types::Items;

/// The number of entries of a shared system so far, the number of its links, and whether a seat has the turn. A caller
/// gets a front at once, without waiting.
#[derive(Clone, Copy, Debug, PartialEq, Eq)]
pub struct Front {
    /// The number of entries of the history.
    pub entries: u32,
    /// The number of links.
    pub links: u32,
    /// Whether a seat has the turn.
    pub held: bool,
}

/// A list of fronts, in the order of the processes that saw them.
pub type Fronts = Items<Front>;

impl Front {
    // Returns the front that the first word of a shared system has.
    pub(crate) fn read(word: u64) -> Front
        requires { word < 4096 * 2 ^ 32 }
        ensures word { word_of result ≡ word }
        ensures links { result.links < 2048 }
    {
        Front {
            entries: (word / 4096) as u32,
            links: (word % 4096 / 2) as u32,
            held: word % 2 == 1,
        }
    }
}
