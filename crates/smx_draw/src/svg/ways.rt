//! The ways of the links, that is, the lines that are drawn for them. Each link has lanes of its own: links may cross,
//! but they share no stretch.

use crate::svg::block::{LANE, Row};
use crate::svg::places::{BESIDE, GAP};
use crate::svg::plan::Plan;
use std::num::Saturating;

impl Plan {
    /// Gives each link its way. All blocks must have their places. Three rules keep the number of crossings low. Links
    /// that begin below one column have the same order there, from left to right, as at their ends. If several links go
    /// to the right from a layer, the one that begins rightmost turns aside at the uppermost height. If several go to
    /// the left, the one that begins leftmost turns aside at the uppermost height.
    pub fn route(&mut self) {
        for at in 0..self.ways.len() {
            self.end_way(at);
        }
        self.ways
            .sort_unstable_by_key(|way| (u32::MAX - way.area.lane, way.number));
        self.part_lanes();
        for at in 0..self.ways.len() {
            self.begin_way(at);
        }
        self.ways
            .sort_unstable_by_key(|way| (way.upper, way.area.left, way.number));
        self.part_starts();
        self.ways
            .sort_unstable_by_key(|way| (way.area.turn_order(), way.number));
        for at in 0..self.ways.len() {
            self.bend_way(at);
        }
        self.ways
            .sort_unstable_by_key(|way| usize::MAX - way.number);
    }

    // Places the end of a link. The link comes down to the left of the column of its lower stream, and ends at the
    // link's row in this column.
    fn end_way(&mut self, at: usize) -> Option<()> {
        let way = self.ways.get_mut(at)?;
        let column = self.blocks.get(way.to)?;
        let row = column.row(Row::Link as usize)?;
        let above = way.to.saturating_sub(way.lower).saturating_sub(1) / BESIDE;
        let above = Saturating(above.min(u32::MAX as usize) as u32);
        way.area.right = row.left;
        way.area.bottom = (Saturating(row.top) + GAP / Saturating(2)).0;
        way.area.lane = (column.left - GAP + LANE / Saturating(2) - LANE * above).0;
        Some(())
    }

    // Moves lanes to the left, until no two links come down in the same lane. Without this, links that end in different
    // layers could.
    fn part_lanes(&mut self) {
        let mut free = u32::MAX;
        for way in self.ways.iter_mut() {
            way.area.lane = way.area.lane.min(free);
            free = way.area.lane.saturating_sub(LANE.0);
        }
    }

    // Moves the beginnings of links to the right, until no two links of one frame go down in the same line. Without
    // this, two links could overlap if they begin in columns that are one below the other.
    fn part_starts(&mut self) {
        let (mut frame, mut free) = (usize::MAX, 0);
        for way in self.ways.iter_mut() {
            if way.upper == frame {
                way.area.left = way.area.left.max(free);
            }
            frame = way.upper;
            free = way.area.left.saturating_add(LANE.0);
        }
    }

    // Places the beginning of a link, below the column of its controlling stream.
    fn begin_way(&mut self, at: usize) -> Option<()> {
        let way = self.ways.get_mut(at)?;
        let column = self.blocks.get_mut(way.from)?;
        way.area.left = (column.left + column.links * LANE).0;
        way.area.top = column.area().bottom;
        column.links -= 1;
        Some(())
    }

    // Gives a link the next lane below the layer of its upper driver.
    fn bend_way(&mut self, at: usize) -> Option<()> {
        let way = self.ways.get_mut(at)?;
        let upper = self.blocks.get(way.upper)?;
        let layer = self.layers.get_mut(upper.layer)?;
        way.area.bend = (layer.top + layer.height + GAP + layer.links * LANE).0;
        layer.links -= 1;
        Some(())
    }
}
