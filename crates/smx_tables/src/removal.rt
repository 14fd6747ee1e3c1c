//! The removal of links, with the routes to them and the messages below them. A stream below a link has a hold, which
//! keeps the stream in the table of streams. To release a stream is to remove its hold. A link is an orphan if its
//! controlling stream no longer exists.

ghost use Rattle.std.specs.Prelude.{◌≡◌, ℕ, ◌+◌, ◌≤◌, ◌++◌, ◌∷◌, [], ◌&&◌, not, false, true, length, vec_capacity};
ghost use Rattle.std.specs.Prelude.{Bool, map, filter};
ghost use Rattle.std.specs.List.{list_any};
ghost use Rattle.smx_types.specs.declared.stream.StreamId.{StreamId};
ghost use Rattle.smx_types.specs.declared.link.Link.{Link};
ghost use Rattle.smx_model.specs.Configuration.{same_stream};
ghost use Rattle.smx_model.specs.Removal.{without_links};
ghost use Rattle.smx_streams.specs.StreamTables.{AreHungsSound, LeavesHungs, exists as is_there, HasHolds, number_at};
ghost use Rattle.smx_links.specs.LinkLists.{is_upper, IsLinkList, others_of};
ghost use Rattle.smx_tables.specs.ExistingStreams.{is_loose, holds_below, IsReleasing, AreHeld};
ghost use Rattle.smx_tables.specs.TouchedStreams.{is_there_or_touched, AreReleased, IsCascade};
ghost use Rattle.smx_tables.specs.DroppedMessages.{DropsMore, EmptiesPlaces, HasRoom};
ghost use Rattle.smx_tables.specs.KeptHolds.{KeepsHolds};
ghost use Rattle.smx_tables.specs.ModelOfLists.{configuration_of, sizes_of};
ghost use Rattle.smx_tables.specs.ListedLinks.{is_read_below_listed, AreIdsOf};

use crate::dropped_messages::drop_at;
use crate::lists::Lists;
use crate::properties::{is_persistent, same_stream};
use smx_links::LinkTable;
use smx_queues::FlowTable;
use smx_streams::Streams;
use smx_types::{Link, Place, Side, StreamId};

// A link is loose if it is ordinary, its lower stream has a hold, and its controlling stream is not in the table of
// streams.
fn is_loose(streams: &Streams, link: &Link) -> bool
    ensures { result ≡ is_loose streams.now link.now }
{
    !is_persistent(link) && streams.holds_of(link.lower) > 0 && !streams.exists(link.ctl)
}

// Returns whether the link is loose and `ctl` is its controlling stream.
fn is_loose_by(streams: &Streams, ctl: StreamId, link: &Link) -> bool
    ensures { result ≡ (same_stream link.now.ctl ctl && is_loose streams.now link.now) }
{
    same_stream(link.ctl, ctl) && is_loose(streams, link)
}

// Returns whether this stream may be the controlling stream of a loose link. That is so if the stream is not in the
// table, and its driver is the upper driver of some link.
fn may_have_loose(streams: &Streams, links: &LinkTable, ctl: StreamId) -> bool
    ensures answer { result ≡ (not (is_there streams.now ctl) && is_upper links.now.links ctl.driver) }
    ensures sound { AreHungsSound streams.now }
{
    !streams.exists(ctl) && links.is_upper(ctl.driver)
}

// Releases the lower streams of the loose links whose controlling stream is `ctl`. Adds these lower streams to
// `touched`, and the ids of these links to `gone`. The caller also passes the list of all links.
#[tactic(auto, using(crate::proofs::HungLemmas::none_went))]
fn release_below(
    streams: &mut Streams,
    links: &LinkTable,
    listed: &[Link],
    ctl: StreamId,
    touched: &mut Vec<StreamId>,
    gone: &mut Vec<u32>,
)
    requires sound { IsLinkList links.now }
    requires listed { listed.now ≡ links.now.links }
    requires cascade { IsCascade links.now.links streams.old (touched.old.items ++ ctl ∷ [])
        (vec_capacity touched.old) }
    requires gone { AreReleased links.now.links streams.old gone.old.items (vec_capacity gone.old) }
    ensures fds { streams.new.fds ≡ streams.old.fds }
    ensures minors { streams.new.minors ≡ streams.old.minors }
    ensures hungs { LeavesHungs streams.old streams.new }
    ensures there { (s : StreamId) → is_there streams.new s ≡ true → is_there streams.old s ≡ true }
    ensures cascade { IsCascade links.now.links streams.new touched.new.items (vec_capacity touched.new) }
    ensures less { length touched.new.items + holds_below links.now.links streams.new
        ≤ length touched.old.items + holds_below links.now.links streams.old }
    ensures touched { (s : StreamId) → is_there_or_touched streams.old touched.old.items s ≡ true
        → is_there_or_touched streams.new touched.new.items s ≡ true }
    ensures gone { AreReleased links.now.links streams.new gone.new.items (vec_capacity gone.new) }
{
    if !may_have_loose(streams, links, ctl) {
        return;
    }
    for link in listed {
        if is_loose_by(streams, ctl, link) {
            let _gone = streams.release(link.lower);
            touched.push_reserved(link.lower);
            gone.push_reserved(link.id);
        }
    }
}

// Calls `release_below` for each stream in `touched`, and for each stream that these calls add to it. Afterwards no
// link is loose. Moves the examined streams from `touched` to `seen`, which has room for them. If every
// stream in `touched` is still in the table of streams, then no link is loose, and the function examines no stream.
#[tactic(auto, using(crate::proofs::HungLemmas::none_went))]
pub fn release_orphans(
    streams: &mut Streams,
    links: &LinkTable,
    touched: &mut Vec<StreamId>,
    seen: &mut Vec<StreamId>,
    gone: &mut Vec<u32>,
)
    requires cascade { IsCascade links.now.links streams.old touched.old.items (vec_capacity touched.old) }
    requires room { length seen.old.items
        + (length touched.old.items + holds_below links.now.links streams.old)
        ≤ vec_capacity seen.old }
    requires gone { AreReleased links.now.links streams.old gone.old.items (vec_capacity gone.old) }
    ensures fds { streams.new.fds ≡ streams.old.fds }
    ensures minors { streams.new.minors ≡ streams.old.minors }
    ensures hungs { LeavesHungs streams.old streams.new }
    ensures releasing { (climbs : ℕ) → IsReleasing links.now.links climbs streams.new }
    ensures none { list_any (is_loose streams.new) links.now.links ≡ false }
    ensures seen { (s : StreamId) → is_there_or_touched streams.old touched.old.items s ≡ true
        → is_there_or_touched streams.new seen.new.items s ≡ true }
    ensures gone { AreReleased links.now.links streams.new gone.new.items (vec_capacity gone.new) }
    ensures sound { IsLinkList links.now }
{
    let listed = links.links();
    if streams.has_each(touched.as_slice()) {
        return;
    }
    while let Some(stream) = touched.pop() {
        seen.push_reserved(stream);
        release_below(streams, links, listed, stream, touched, gone);
    }
}

// Drops the messages and full marks on the read sides of the lower streams of the links with these ids.
fn drop_below(queues: &mut FlowTable, links: &LinkTable, gone: &[u32], dropped: &mut Vec<u32>)
    requires { HasRoom dropped.old queues.old.flow }
    ensures { EmptiesPlaces (is_read_below_listed links.now.links gone.now)
        queues.old dropped.old queues.new dropped.new }
{
    for id in gone {
        if let Some(link) = links.get(*id) {
            let place = Place {
                stream: link.lower,
                side: Side::Read,
            };
            drop_at(queues, place, dropped);
        }
    }
}

// Releases the stream, if it has a hold.
fn release_held(streams: &mut Streams, stream: StreamId)
    requires { number_at streams.old.holds stream ≤ 1 }
    ensures { HasHolds streams.old stream 0 streams.new }
{
    if streams.holds_of(stream) > 0 {
        let _gone = streams.release(stream);
    }
}

// Releases the lower streams of the links with these ids, and adds these streams to `touched`.
fn release_each(streams: &mut Streams, links: &LinkTable, gone: &[u32], touched: &mut Vec<StreamId>)
    requires held { AreHeld links.now.links streams.old }
    requires room { length touched.old.items + length gone.now ≤ vec_capacity touched.old }
    ensures held { AreHeld (others_of gone.now links.now.links) streams.new }
    ensures fds { streams.new.fds ≡ streams.old.fds }
    ensures minors { streams.new.minors ≡ streams.old.minors }
    ensures hungs { LeavesHungs streams.old streams.new }
    ensures touched { (s : StreamId) → is_there streams.old s ≡ true
        → is_there_or_touched streams.new touched.new.items s ≡ true }
    ensures few { length touched.new.items ≤ length touched.old.items + length gone.now }
    ensures capacity { vec_capacity touched.new ≡ vec_capacity touched.old }
{
    streams.is_sound();
    for id in gone {
        if let Some(link) = links.get(*id) {
            release_held(streams, link.lower);
            touched.push_reserved(link.lower);
        }
    }
}

/// Removes the links with these ids, the routes to them, and the messages and full marks on the read sides of their
/// lower streams. Doesn't release the lower streams: the caller has released them before.
pub fn drop_links(lists: &mut Lists, gone: &[u32], dropped: &mut Vec<u32>)
    requires { HasRoom dropped.old lists.old.queues.flow }
    ensures value { (goes : Link → Bool) → AreIdsOf goes lists.old.links.links gone.now
        → configuration_of lists.new ≡ without_links (configuration_of lists.old) goes }
    ensures links { lists.new.links.links ≡ others_of gone.now lists.old.links.links }
    ensures streams { lists.new.streams ≡ lists.old.streams }
    ensures dropped { DropsMore lists.old.queues.flow dropped.old.items lists.new.queues.flow dropped.new.items }
    ensures room { HasRoom dropped.new lists.new.queues.flow }
    ensures drivers { sizes_of lists.new ≡ sizes_of lists.old }
{
    if gone.is_empty() {
        return;
    }
    lists.routes.unroute_links(gone);
    drop_below(&mut lists.queues, &lists.links, gone, dropped);
    lists.links.remove_each(gone);
}

/// Removes the links with these ids, as `drop_links` does. Also releases the lower streams of these links, and adds
/// these streams to `touched`.
pub fn remove_links(
    lists: &mut Lists,
    gone: &[u32],
    touched: &mut Vec<StreamId>,
    dropped: &mut Vec<u32>,
)
    requires kept { KeepsHolds lists.old }
    requires room { length touched.old.items + length gone.now ≤ vec_capacity touched.old }
    requires dropped { HasRoom dropped.old lists.old.queues.flow }
    ensures value { (goes : Link → Bool) → gone.now ≡ map (λ l. l.id) (filter goes lists.old.links.links)
        → configuration_of lists.new
        ≡ record (without_links (configuration_of lists.old) goes) { hungs = lists.new.streams.hungs } }
    ensures hungs { LeavesHungs lists.old.streams lists.new.streams }
    ensures dropped { DropsMore lists.old.queues.flow dropped.old.items lists.new.queues.flow dropped.new.items }
    ensures room { HasRoom dropped.new lists.new.queues.flow }
    ensures kept { KeepsHolds lists.new }
    ensures drivers { sizes_of lists.new ≡ sizes_of lists.old }
    ensures fewer { length lists.new.links.links ≤ length lists.old.links.links }
    ensures touched { (s : StreamId) → is_there lists.old.streams s ≡ true
        → is_there_or_touched lists.new.streams touched.new.items s ≡ true }
    ensures few { length touched.new.items ≤ length touched.old.items + length gone.now }
    ensures capacity { vec_capacity touched.new ≡ vec_capacity touched.old }
{
    release_each(&mut lists.streams, &lists.links, gone, touched);
    drop_links(lists, gone, dropped);
}
