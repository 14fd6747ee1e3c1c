//! Messages that a change drops, and their serials.

ghost use Rattle.std.specs.Prelude.{◌≡◌, ◌≢◌, ◌&&◌, List};
ghost use Rattle.std.specs.List.{AllPairs};
ghost use Rattle.smx_model.specs.Commands.{is_side};
ghost use Rattle.smx_model.specs.Configuration.{QueuedMessage, same_place, same_stream};
ghost use Rattle.smx_model.specs.Removal.{serials, serials_that_left};
ghost use Rattle.smx_tables.specs.DroppedMessages.{is_flushed_at, AreDropped, EmptiesPlaces, HasRoom, NamesDropped};

use crate::properties::same_side;
use smx_queues::FlowTable;
use smx_types::{Place, Reply, Serials, Side, Sides, StreamId};
use std::mem::replace;

/// Drops the messages at a place, and clears its full mark. Adds the serials of these messages to `dropped`, which has
/// room for the serials of all queued messages.
pub fn drop_at(queues: &mut FlowTable, place: Place, dropped: &mut Vec<u32>)
    requires { HasRoom dropped.old queues.old.flow }
    ensures { EmptiesPlaces (λ p. same_place p place) queues.old dropped.old queues.new dropped.new }
{
    queues.drop_at(place, dropped);
}

fn is_side(sides: Sides, side: Side) -> bool
    ensures { result ≡ is_side sides side }
{
    match sides {
        Sides::R => same_side(side, Side::Read),
        Sides::W => same_side(side, Side::Write),
        Sides::RW => true,
    }
}

// Drops the messages and the full mark on one side of a stream, if `sides` names this side.
fn drop_side(
    queues: &mut FlowTable,
    stream: StreamId,
    sides: Sides,
    side: Side,
    dropped: &mut Vec<u32>,
)
    requires { HasRoom dropped.old queues.old.flow }
    ensures { EmptiesPlaces (is_flushed_at stream sides side) queues.old dropped.old queues.new dropped.new }
{
    if is_side(sides, side) {
        drop_at(queues, Place { stream, side }, dropped);
    }
}

/// Drops the messages and the full marks on the sides of a stream that `sides` names.
pub fn drop_sides(queues: &mut FlowTable, stream: StreamId, sides: Sides, dropped: &mut Vec<u32>)
    requires { HasRoom dropped.old queues.old.flow }
    ensures { EmptiesPlaces (λ p. same_stream p.stream stream && is_side sides p.side)
        queues.old dropped.old queues.new dropped.new }
{
    drop_side(queues, stream, sides, Side::Write, dropped);
    drop_side(queues, stream, sides, Side::Read, dropped);
}

// Sorts the serials of dropped messages.
fn rising(dropped: Vec<u32>) -> Vec<u32>
    ensures { (old new : List QueuedMessage) → AllPairs (λ m n. m ≢ n) (serials old)
        → AreDropped old new dropped.items → result.items ≡ serials_that_left old new }
{
    let mut sorted = dropped;
    sorted.sort_unstable();
    sorted
}

/// Returns `Reply::Done` with the serials that `dropped` has, in rising order. The list moves from `dropped` into the
/// reply. If `dropped` is empty, it stays as it is, and the reply has a new empty list, which takes no memory.
pub fn name_dropped(dropped: &mut Vec<u32>) -> Reply
    ensures { (left : List QueuedMessage) → NamesDropped left dropped.old.items left result }
{
    let none = Vec::new(*dropped.allocator());
    let named = if dropped.is_empty() {
        none
    } else {
        rising(replace(dropped, none))
    };
    Reply::Done {
        dropped: Serials::from_vec(named),
    }
}
