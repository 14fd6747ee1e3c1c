//! The lines of the changes from one view to another. (A view is a configuration as lists of lines.)

ghost use Rattle.std.specs.Prelude.{◌≡◌, ℕ, List, ◌∷◌, ◌++◌, [], codes, OnOk};
ghost use Rattle.std.specs.List.{flat_map};
ghost use Rattle.smx_types.specs.declared.driver.DriverSpec.{DriverSpec as AnyDriver};
ghost use Rattle.smx_model.specs.Changes.{changes, missing_from};
ghost use Rattle.smx_model.specs.Configuration.{pair_before};
ghost use Rattle.smx_trace.specs.Missing.{ComesTo, StartsAt};
ghost use Rattle.smx_trace.specs.Ranks.{IsRanked, bind_rank, fd_rank, full_rank, hung_rank, link_rank, number_of};
ghost use Rattle.smx_trace.specs.Ranks.{route_rank};
ghost use Rattle.smx_trace.specs.ShownViews.{IsShown};
ghost use Rattle.smx_trace.specs.TraceWords.{changes_text, marked};

use crate::moves::write_moves;
use crate::pieces::write_marked;
use smx_tables::driver_of;
use smx_text::Same;
use smx_types::{
    BindingLine, ConfigView, DescriptorLine, DriverSpec, FullLine, HungLine, Items, LinkLine, Name,
    NoMemory, RouteLine, Side,
};
use smx_words::Spell;
use std::alloc::Global;

// A kind of line. Each line of this kind has two numbers. A view lists the lines in rising order of the first number.
// It lists lines with the same first number in rising order of the second.
trait Ranked: Same + Spell {
    ghost rank: { List AnyDriver → Self → ℕ × ℕ };

    // Returns the two numbers of the line. `drivers` are the drivers of the view.
    fn rank_of(&self, drivers: &[DriverSpec]) -> (u64, u64)
        ensures { result ≡ rank drivers.now self.now };
}

// Returns whether the pair `a` comes before the pair `b`.
fn pair_before(a: (u64, u64), b: (u64, u64)) -> bool
    ensures { result ≡ pair_before a.0 a.1 b.0 b.1 }
{
    a.0 < b.0 || (a.0 == b.0 && a.1 < b.1)
}

// Returns the number of the driver with this name, or 0 if there is none.
fn number_of(drivers: &[DriverSpec], name: &Name) -> u64
    ensures { result ≡ number_of drivers.now name.now }
{
    match driver_of(drivers, name) {
        Ok(number) => number as u64,
        Err(_) => 0,
    }
}

impl Ranked for DescriptorLine {
    ghost rank = { fd_rank };

    fn rank_of(&self, _drivers: &[DriverSpec]) -> (u64, u64) {
        (u64::from(self.process.get()), u64::from(self.fd))
    }
}

impl Ranked for LinkLine {
    ghost rank = { link_rank };

    fn rank_of(&self, _drivers: &[DriverSpec]) -> (u64, u64) {
        (u64::from(self.id), 0)
    }
}

impl Ranked for BindingLine {
    ghost rank = { bind_rank };

    fn rank_of(&self, drivers: &[DriverSpec]) -> (u64, u64) {
        (number_of(drivers, &self.driver), u64::from(self.addr))
    }
}

impl Ranked for RouteLine {
    ghost rank = { route_rank };

    fn rank_of(&self, drivers: &[DriverSpec]) -> (u64, u64) {
        (number_of(drivers, &self.driver), u64::from(self.addr))
    }
}

impl Ranked for FullLine {
    ghost rank = { full_rank };

    fn rank_of(&self, drivers: &[DriverSpec]) -> (u64, u64) {
        let side = match self.side {
            Side::Write => 0,
            Side::Read => 1,
        };
        (
            number_of(drivers, &self.driver),
            2 * u64::from(self.minor) + side,
        )
    }
}

impl Ranked for HungLine {
    ghost rank = { hung_rank };

    fn rank_of(&self, drivers: &[DriverSpec]) -> (u64, u64) {
        (number_of(drivers, &self.driver), u64::from(self.minor))
    }
}

// Skips the lines at the beginning that come before `line`, and returns the rest.
fn lines_from<'a, T: Ranked>(drivers: &[DriverSpec], lines: &'a [T], line: &T) -> &'a [T]
    ensures passed { ComesTo (T.rank drivers.now) lines.now (line.now ∷ []) result.now }
    ensures starts { StartsAt (T.rank drivers.now) line.now result.now }
{
    let mut rest = lines;
    'lines: while let Some((first, more)) = rest.split_first() {
        // Tests equality first, so a line that both views have needs no look-up of a driver's number.
        if first.is_same(line) || !pair_before(first.rank_of(drivers), line.rank_of(drivers)) {
            break 'lines;
        }
        rest = more;
    }
    rest
}

// For each of `lines` that is not in `others`, appends the mark and then the line. Both lists must be in rising order.
fn write_missing<T: Ranked>(
    out: &mut Vec<u8>,
    drivers: &[DriverSpec],
    mark: &[u8],
    lines: &[T],
    others: &[T],
) -> Result<(), NoMemory>
    requires lines { IsRanked (T.rank drivers.now) lines.now }
    requires others { IsRanked (T.rank drivers.now) others.now }
    ensures { OnOk result (out.new.items ≡ out.old.items
        ++ flat_map (λ line. marked mark.now (T.words line)) (missing_from T.eq lines.now others.now)) }
{
    let mut rest = others;
    for line in lines {
        rest = lines_from(drivers, rest, line);
        match rest.split_first() {
            Some((first, more)) if first.is_same(line) => rest = more,
            _ => write_marked(out, mark, line)?,
        }
    }
    Ok(())
}

// Appends the lines of one kind that are gone, and then the lines of this kind that are new.
fn write_group<T: Ranked>(
    out: &mut Vec<u8>,
    drivers: &[DriverSpec],
    before: &Items<T>,
    after: &Items<T>,
) -> Result<(), NoMemory>
    requires before { IsRanked (T.rank drivers.now) before.now }
    requires after { IsRanked (T.rank drivers.now) after.now }
    ensures { OnOk result (out.new.items ≡ out.old.items
        ++ (flat_map (λ x. marked (codes "  - ") (T.words x)) (missing_from T.eq before.now after.now)
        ++ flat_map (λ y. marked (codes "  + ") (T.words y)) (missing_from T.eq after.now before.now))) }
{
    let (before, after) = (before.as_slice(), after.as_slice());
    write_missing(out, drivers, b"  - ", before, after)?;
    write_missing(out, drivers, b"  + ", after, before)
}

/// Appends the lines of the changes from one view to another. The time grows with the size of the two views. Fails only
/// if out of memory; `out` may then contain some of the lines.
pub fn write_changes(
    alloc: Global,
    out: &mut Vec<u8>,
    drivers: &[DriverSpec],
    before: &ConfigView,
    after: &ConfigView,
) -> Result<(), NoMemory>
    requires before { IsShown drivers.now before.now }
    requires after { IsShown drivers.now after.now }
    ensures { OnOk result (out.new.items ≡ out.old.items ++ changes_text (changes before.now after.now)) }
{
    write_group(out, drivers, &before.fds, &after.fds)?;
    write_group(out, drivers, &before.links, &after.links)?;
    write_group(out, drivers, &before.binds, &after.binds)?;
    write_group(out, drivers, &before.routes, &after.routes)?;
    write_moves(alloc, out, before.msgs.as_slice(), after.msgs.as_slice())?;
    write_group(out, drivers, &before.fulls, &after.fulls)?;
    write_group(out, drivers, &before.hungs, &after.hungs)
}
