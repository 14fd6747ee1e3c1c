//! The sweep: removes what belongs to streams that no longer exist, and replies with the dropped messages.

ghost use Rattle.std.specs.Prelude.{◌≡◌, ◌+◌, ◌≤◌, true, not, filter, length, OnOk, List, [], ◌∷◌};
ghost use Rattle.smx_types.specs.declared.driver.DriverSpec.{DriverSpec as DriverValue};
ghost use Rattle.smx_types.specs.declared.stream.StreamId.{StreamId};
ghost use Rattle.smx_model.specs.Hangups.{is_hung};
ghost use Rattle.smx_model.specs.KnownStreams.{AreControllingKnown};
ghost use Rattle.smx_model.specs.Removal.{without_dead_streams, without_links, after_sweep};
ghost use Rattle.smx_addresses.specs.BindingLists.{is_binding_of};
ghost use Rattle.smx_streams.specs.StreamTables.{LeavesHungs, exists as is_there};
ghost use Rattle.smx_tables.specs.DroppedMessages.{AreDropped, DropsMore, HasRoom, NamesDropped};
ghost use Rattle.smx_tables.specs.ExistingStreams.{TellsExisting};
ghost use Rattle.smx_tables.specs.ListedLinks.{is_orphaned};
ghost use Rattle.smx_tables.specs.ModelOfLists.{configuration_of, sizes_of};
ghost use Rattle.smx_tables.specs.KeptHolds.{KeepsHolds};
ghost use Rattle.smx_tables.specs.SweepReserves.{IsReserveFor};
ghost use Rattle.smx_tables.specs.TouchedStreams.{is_dead, is_there_or_touched, without_streams, IsTouched};

use crate::dropped_messages::{drop_sides, name_dropped};
use crate::lists::Lists;
use crate::removal::{drop_links, release_orphans};
use smx_addresses::Bindings;
use smx_types::{DriverSpec, NoMemory, Reply, Sides, StreamId};
use std::alloc::Global;

// Removes the binding of the stream, if it has one. Skips the look-up if there are no bindings.
fn unbind(binds: &mut Bindings, stream: StreamId)
    ensures { binds.new ≡ filter (λ b. not (is_binding_of stream b)) binds.old }
{
    if !binds.is_empty() {
        let _binding = binds.unbind(stream);
    }
}

// Removes the binding, the messages and the full marks of the stream, unless the table of streams has the stream.
fn drop_if_dead(lists: &mut Lists, stream: StreamId, dropped: &mut Vec<u32>)
    requires { HasRoom dropped.old lists.old.queues.flow }
    ensures value { configuration_of lists.new
        ≡ without_streams (configuration_of lists.old) (is_dead lists.old.streams (stream ∷ [])) }
    ensures streams { lists.new.streams ≡ lists.old.streams }
    ensures drivers { sizes_of lists.new ≡ sizes_of lists.old }
    ensures dropped { DropsMore lists.old.queues.flow dropped.old.items lists.new.queues.flow dropped.new.items }
    ensures room { HasRoom dropped.new lists.new.queues.flow }
{
    if !lists.streams.exists(stream) {
        unbind(&mut lists.binds, stream);
        drop_sides(&mut lists.queues, stream, Sides::RW, dropped);
    }
}

// Removes the bindings, messages and full marks of streams that don't exist. Requires that each hung-up stream exists,
// and that each stream that doesn't exist, but to which something still belongs, is in `seen`.
fn drop_dead(lists: &mut Lists, seen: &[StreamId], dropped: &mut Vec<u32>)
    requires kept { KeepsHolds lists.old }
    requires hungs { (s : StreamId) → is_hung lists.old.streams.hungs s ≡ true → is_there lists.old.streams s ≡ true }
    requires seen { IsTouched lists.old.streams seen.now (configuration_of lists.old) }
    requires room { HasRoom dropped.old lists.old.queues.flow }
    ensures value { (drivers : List DriverValue) → TellsExisting drivers (configuration_of lists.old) lists.old.streams
        → configuration_of lists.new ≡ without_dead_streams drivers (configuration_of lists.old) }
    ensures dropped { DropsMore lists.old.queues.flow dropped.old.items lists.new.queues.flow dropped.new.items }
    ensures kept { KeepsHolds lists.new }
    ensures drivers { sizes_of lists.new ≡ sizes_of lists.old }
{
    for stream in seen {
        drop_if_dead(lists, *stream, dropped);
    }
}

/// The lists that a sweep fills. `reserve_for_sweep` clears them before each sweep. They are kept between sweeps only
/// for their memory: to allocate them anew makes `opens` of bench/ take over 10 percent longer.
///
/// - `touched`: the streams that the change before the sweep closes or releases, and those that may cease to exist with
///   them;
/// - `seen`: the same streams, once they are examined;
/// - `orphaned`: the ids of the ordinary links that go;
/// - `dropped`: the serials of dropped messages.
#[derive(Debug, Drop)]
pub struct SweepReserve {
    pub touched: Vec<StreamId>,
    pub seen: Vec<StreamId>,
    pub orphaned: Vec<u32>,
    pub dropped: Vec<u32>,
}

impl SweepReserve {
    /// Makes empty lists. Does not allocate.
    pub fn new(alloc: Global) -> SweepReserve {
        SweepReserve {
            touched: Vec::new(alloc),
            seen: Vec::new(alloc),
            orphaned: Vec::new(alloc),
            dropped: Vec::new(alloc),
        }
    }
}

// Removes the ordinary links whose controlling stream doesn't exist. Such a controlling stream is either in `touched`,
// or ceases to exist because this function removes a link that held it. Afterwards each stream that may have ceased to
// exist is in `seen`.
fn drop_orphans(drivers: &[DriverSpec], lists: &mut Lists, room: &mut SweepReserve)
    requires kept { KeepsHolds lists.old }
    requires known { AreControllingKnown drivers.now lists.old.links.links }
    requires touched { IsTouched lists.old.streams room.old.touched.items (configuration_of lists.old) }
    requires room { IsReserveFor 0 lists.old.links.links lists.old.queues.flow room.old }
    ensures value { configuration_of lists.new ≡ record (without_links (configuration_of lists.old)
        (is_orphaned lists.old.streams.fds lists.old.links.links (length drivers.now)))
        { hungs = lists.new.streams.hungs } }
    ensures hungs { LeavesHungs lists.old.streams lists.new.streams }
    ensures seen { (s : StreamId) → is_there_or_touched lists.old.streams room.old.touched.items s ≡ true
        → is_there_or_touched lists.new.streams room.new.seen.items s ≡ true }
    ensures dropped { DropsMore lists.old.queues.flow room.old.dropped.items
        lists.new.queues.flow room.new.dropped.items }
    ensures room { HasRoom room.new.dropped lists.new.queues.flow }
    ensures kept { KeepsHolds lists.new }
    ensures existing { TellsExisting drivers.now (configuration_of lists.new) lists.new.streams }
    ensures drivers { sizes_of lists.new ≡ sizes_of lists.old }
{
    release_orphans(
        &mut lists.streams,
        &lists.links,
        &mut room.touched,
        &mut room.seen,
        &mut room.orphaned,
    );
    drop_links(lists, &room.orphaned, &mut room.dropped);
}

/// Clears the lists, and reserves room in them for the sweep after a change that touches at most `streams` streams.
/// Fails only if out of memory.
#[tactic(auto, using(crate::proofs::DropLemmas::none_dropped))]
pub fn reserve_for_sweep(
    room: &mut SweepReserve,
    lists: &Lists,
    streams: usize,
) -> Result<(), NoMemory>
    requires { streams ≤ length lists.now.links.links + 1024 }
    ensures room { OnOk result (IsReserveFor streams lists.now.links.links lists.now.queues.flow room.new) }
    ensures none { OnOk result (AreDropped lists.now.queues.flow lists.now.queues.flow room.new.dropped.items) }
{
    let links = lists.links.len();
    room.touched.clear();
    room.touched.reserve(streams + links)?;
    room.seen.clear();
    room.seen.reserve(streams + links)?;
    room.orphaned.clear();
    room.orphaned.reserve(links)?;
    room.dropped.clear();
    room.dropped.reserve(lists.queues.len())?;
    Ok(())
}

/// Sweeps after a change: removes the ordinary links whose controlling stream doesn't exist, and then everything that
/// belongs to streams that don't exist. Requires that each stream that doesn't exist, but to which something still
/// belongs, is in `touched`. Replies with the messages that were dropped since room was reserved.
pub fn sweep_and_reply(drivers: &[DriverSpec], lists: &mut Lists, room: &mut SweepReserve) -> Reply
    requires kept { KeepsHolds lists.old }
    requires known { AreControllingKnown drivers.now lists.old.links.links }
    requires touched { IsTouched lists.old.streams room.old.touched.items (configuration_of lists.old) }
    requires room { IsReserveFor 0 lists.old.links.links lists.old.queues.flow room.old }
    ensures value { configuration_of lists.new ≡ after_sweep drivers.now (configuration_of lists.old) }
    ensures reply { NamesDropped lists.old.queues.flow room.old.dropped.items lists.new.queues.flow result }
    ensures kept { KeepsHolds lists.new }
    ensures drivers { sizes_of lists.new ≡ sizes_of lists.old }
{
    drop_orphans(drivers, lists, room);
    drop_dead(lists, &room.seen, &mut room.dropped);
    name_dropped(&mut room.dropped)
}
