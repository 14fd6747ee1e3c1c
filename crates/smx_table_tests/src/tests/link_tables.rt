//! Tables of links: calls in a row, each with its answer; 1,024 links over 128 drivers, which form a chain, a fan or a
//! ladder, and one more link, which is refused; and copies of these tables.

ghost use Rattle.std.specs.Prelude.{◌≡◌, ◌<◌};

use smx_links::{LinkFault, LinkTable};
use smx_types::{Link, LinkKind, StreamId};
use std::mem::forget;
use std::process::Abort;

/// The drivers that are linked.
#[derive(Clone, Copy)]
enum Shape {
    /// Each driver is above the next one, by several links.
    Chain,
    /// One driver is above all the others.
    Fan,
    /// Each driver is above the next two drivers.
    Ladder,
}

// Returns the upper driver and the lower stream of link `k`, from 0.
fn ends_of(shape: Shape, k: u32) -> (u8, (u8, u8))
    requires { k < 1024 }
    ensures { (result.0 < 128) × (result.1.0 < 128) }
{
    match shape {
        Shape::Chain => ((k % 127) as u8, ((k % 127) as u8 + 1, (k / 127) as u8)),
        Shape::Fan => (0, ((k % 127) as u8 + 1, (k / 127) as u8)),
        Shape::Ladder => {
            let upper = (k / 2 % 126) as u8;
            let step = (k % 2) as u8;
            (upper, (upper + 1 + step, (k / 252 * 2) as u8 + step))
        }
    }
}

// Links a stream of driver `upper` above the stream `lower`. Checks the answer.
fn links(
    rt: &impl Abort,
    table: &mut LinkTable,
    upper: u8,
    lower: (u8, u8),
    wanted: Result<u32, LinkFault>,
)
    requires of_128 { table.old.drivers ≡ 128 }
    requires two_of_them { (upper < 128) × (lower.0 < 128) }
    ensures { table.new.drivers ≡ 128 }
{
    let ctl = StreamId {
        driver: upper,
        minor: 255,
    };
    let lower = StreamId {
        driver: lower.0,
        minor: lower.1,
    };
    let made = table.try_link(ctl, lower, LinkKind::Persistent);
    assert!(rt; made == wanted, "for {wanted:?}");
}

fn fill(rt: &impl Abort, table: &mut LinkTable, shape: Shape)
    requires { table.old.drivers ≡ 128 }
    ensures { table.new.drivers ≡ 128 }
{
    for k in 0..1_024u32 {
        let (upper, lower) = ends_of(shape, k);
        links(rt, table, upper, lower, Ok(k + 1));
    }
}

// Checks that no further link is possible. Removes one link. Checks that a link can then be made, and gets the next id.
fn is_full(rt: &impl Abort, table: &mut LinkTable)
    requires { table.old.drivers ≡ 128 }
{
    assert!(rt; table.len() == 1_024);
    links(rt, table, 0, (127, 200), Err(LinkFault::Full));
    assert!(rt; table.remove(1).is_some());
    links(rt, table, 0, (127, 200), Ok(1_025));
}

fn copy_is_full(rt: &(impl AllocGlobal + Abort), table: &LinkTable)
    requires { table.now.drivers ≡ 128 }
{
    let mut again = table.copy(rt.alloc()).expect(rt, "memory");
    assert!(rt; again.links() == table.links());
    is_full(rt, &mut again);
    forget(again);
}

// Fills a table with links of this shape. Checks that the table and its copy are at the limit.
fn is_at_its_limit(rt: &(impl AllocGlobal + Abort), shape: Shape) {
    let mut table = LinkTable::new(rt.alloc(), 128).expect(rt, "memory");
    fill(rt, &mut table, shape);
    copy_is_full(rt, &table);
    is_full(rt, &mut table);
    forget(table);
}

#[test]
fn a_chain_a_fan_and_a_ladder(rt: HostRuntime) {
    is_at_its_limit(&rt, Shape::Chain);
    is_at_its_limit(&rt, Shape::Fan);
    is_at_its_limit(&rt, Shape::Ladder);
}

// A call of a table, and its answer. A link is reported by its id.
#[derive(Drop)]
enum Call {
    Link(StreamId, StreamId, LinkKind, Result<u32, LinkFault>),
    Remove(u32, Option<Link>),
    Reaches(u8, u8, bool),
    Above(StreamId, Option<u32>),
    At(usize, Option<u32>),
    Get(u32, Option<u32>),
    Len(usize),
    NextId(u32),
}

fn stream(driver: u8, minor: u8) -> StreamId {
    StreamId { driver, minor }
}

fn link(id: u32, ctl: StreamId, lower: StreamId, kind: LinkKind) -> Link {
    Link {
        id,
        ctl,
        lower,
        kind,
    }
}

fn id_of(link: Option<&Link>) -> Option<u32> {
    Some(link?.id)
}

fn is_linked(
    rt: &impl Abort,
    table: &mut LinkTable,
    ctl: StreamId,
    lower: StreamId,
    kind: LinkKind,
) -> Result<u32, LinkFault> {
    let drivers = table.driver_count();
    assert!(rt; ctl.driver < drivers && lower.driver < drivers);
    table.try_link(ctl, lower, kind)
}

// Returns whether the call has this answer.
fn answers(rt: &impl Abort, table: &mut LinkTable, call: &Call) -> bool {
    match call {
        Call::Link(ctl, lower, kind, id) => is_linked(rt, table, *ctl, *lower, *kind) == *id,
        Call::Remove(id, gone) => table.remove(*id) == *gone,
        Call::Reaches(from, to, path) => table.reaches(*from, *to) == *path,
        Call::Above(lower, id) => id_of(table.above(*lower)) == *id,
        Call::At(i, id) => id_of(table.at(*i)) == *id,
        Call::Get(id, found) => id_of(table.get(*id)) == *found,
        Call::Len(count) => table.len() == *count,
        Call::NextId(id) => table.next_id() == *id,
    }
}

fn answer_all(rt: &impl Abort, table: &mut LinkTable, calls: &[Call]) {
    for i in 0..calls.len() {
        assert!(rt; answers(rt, table, &calls[i]), "call {i}");
    }
}

// Checks that the copy has the same links, the same next id and the same paths.
fn copy_is_equal(rt: &(impl AllocGlobal + Abort), table: &LinkTable) {
    let copy = table.copy(rt.alloc()).expect(rt, "memory");
    assert!(rt; copy.links() == table.links());
    assert!(rt; copy.next_id() == table.next_id());
    assert!(rt; copy.driver_count() == table.driver_count());
    for a in 0..table.driver_count() {
        for b in 0..table.driver_count() {
            assert!(rt; copy.reaches(a, b) == table.reaches(a, b));
        }
    }
    forget(copy);
}

#[test]
fn links_of_three_drivers(rt: HostRuntime) {
    let persistent = LinkKind::Persistent;
    let ordinary = LinkKind::Ordinary;
    let first = link(1, stream(0, 0), stream(1, 0), persistent);
    let calls = [
        Call::Link(stream(0, 0), stream(1, 0), persistent, Ok(1)),
        Call::Link(stream(1, 1), stream(0, 0), ordinary, Err(LinkFault::Cycle)),
        Call::Link(stream(1, 1), stream(2, 0), ordinary, Ok(2)),
        Call::Reaches(0, 2, true),
        Call::Reaches(2, 0, false),
        Call::Reaches(0, 0, false),
        Call::Link(
            stream(0, 1),
            stream(2, 0),
            ordinary,
            Err(LinkFault::Already),
        ),
        Call::Remove(1, Some(first)),
        Call::Remove(1, None),
        Call::Reaches(0, 2, false),
        Call::Above(stream(2, 0), Some(2)),
        Call::Above(stream(1, 0), None),
        Call::At(0, Some(2)),
        Call::At(1, None),
        Call::Get(2, Some(2)),
        Call::Get(1, None),
        Call::Len(1),
        Call::Link(stream(1, 1), stream(0, 0), ordinary, Ok(3)),
        Call::NextId(4),
    ];
    let mut table = LinkTable::new(rt.alloc(), 3).expect(&rt, "memory");
    answer_all(&rt, &mut table, &calls);
    copy_is_equal(&rt, &table);
    forget(table);
}

#[test]
fn paths_after_removals(rt: HostRuntime) {
    let persistent = LinkKind::Persistent;
    let first = link(1, stream(0, 0), stream(1, 0), persistent);
    let second = link(2, stream(0, 0), stream(1, 1), persistent);
    let calls = [
        Call::Link(stream(0, 0), stream(1, 0), persistent, Ok(1)),
        Call::Link(stream(0, 0), stream(1, 1), persistent, Ok(2)),
        Call::Link(stream(1, 2), stream(2, 0), persistent, Ok(3)),
        Call::Reaches(0, 2, true),
        Call::Remove(1, Some(first)),
        Call::Reaches(0, 2, true),
        Call::Link(
            stream(2, 1),
            stream(0, 1),
            persistent,
            Err(LinkFault::Cycle),
        ),
        Call::Remove(2, Some(second)),
        Call::Reaches(0, 2, false),
        Call::Reaches(1, 2, true),
        Call::Link(stream(2, 1), stream(0, 1), persistent, Ok(4)),
        Call::Reaches(1, 0, true),
        Call::Reaches(2, 1, false),
    ];
    let mut table = LinkTable::new(rt.alloc(), 4).expect(&rt, "memory");
    answer_all(&rt, &mut table, &calls);
    copy_is_equal(&rt, &table);
    forget(table);
}

// Removes two of three links together. An id that no link has changes nothing.
#[test]
fn several_links_go(rt: HostRuntime) {
    let ordinary = LinkKind::Ordinary;
    let second = link(2, stream(1, 1), stream(2, 0), ordinary);
    let calls = [
        Call::Link(stream(0, 0), stream(1, 0), ordinary, Ok(1)),
        Call::Link(stream(1, 1), stream(2, 0), ordinary, Ok(2)),
        Call::Link(stream(2, 1), stream(3, 0), ordinary, Ok(3)),
    ];
    let mut table = LinkTable::new(rt.alloc(), 4).expect(&rt, "memory");
    answer_all(&rt, &mut table, &calls);
    table.remove_each(&[3, 9, 1]);
    assert!(&rt; table.links() == [second].as_slice());
    assert!(&rt; table.is_below(stream(2, 0)) && !table.is_below(stream(1, 0)));
    assert!(&rt; table.is_upper(1) && !table.is_upper(0));
    forget(table);
}
