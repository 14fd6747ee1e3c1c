//! The places of the frames and the columns.

use crate::svg::block::{LANE, Px};
use crate::svg::plan::{Layer, Plan};
use smx_types::NoMemory;
use std::num::Saturating;

/// How many columns of a frame are side by side at most.
pub const BESIDE: usize = 4;

/// The room around a column.
pub const GAP: Px = Saturating(12);

// The room around a frame.
const MARGIN: Px = Saturating(24);

// The height of the room above the first layer.
const HEADER: Px = Saturating(60);

// The width of the legend.
const LEGEND: Px = Saturating(640);

// The number of the lowest layer. A text has at most 128 drivers. So the longest chain of drivers without a cycle ends
// in this layer, or above it.
const LOWEST: usize = 127;

// How often the frames of each layer are sorted by the places of the columns to which their links lead.
const SORTS: usize = 8;

impl Plan {
    /// Gives each frame and each column its place. All rows and links must have been added. Fails only if it is out of
    /// memory.
    pub fn place(&mut self) -> Result<(), NoMemory> {
        for at in 0..self.blocks.len() {
            self.match_width(at, at.saturating_sub(BESIDE));
        }
        for at in (0..self.blocks.len()).rev() {
            self.match_width(at, at.saturating_add(BESIDE));
        }
        for at in 0..self.blocks.len() {
            self.pack(at);
        }
        for _pass in 0..self.frames.len().min(LOWEST) {
            self.sink();
        }
        self.layers.resize(LOWEST + 1, Layer::default())?;
        self.measure();
        for _sort in 0..SORTS {
            self.spread();
            self.weigh();
            self.sort_frames();
        }
        self.spread();
        self.stack();
        Ok(())
    }

    // Makes a column at least as wide as `other`, if `other` is a column of the same frame.
    fn match_width(&mut self, column: usize, other: usize) -> Option<()> {
        let other = *self.blocks.get(other)?;
        let column = self.blocks.get_mut(column)?;
        if other.frame == column.frame && other.seat.minor.is_some() {
            column.widen(other.width);
        }
        Some(())
    }

    // Places a column in its frame, after the previous column: `BESIDE` columns are side by side, and the next ones are
    // below them. The gap to the left of the column has room for the links to this column and to the columns below it.
    fn pack(&mut self, at: usize) -> Option<()> {
        let block = *self.blocks.get(at)?;
        let number = at.checked_sub(block.frame.saturating_add(1))?;
        let last = *self.blocks.get(at.checked_sub(1)?)?;
        let frame = self.blocks.get_mut(block.frame)?;
        let gap = GAP + LANE * (frame.columns / Saturating(BESIDE as u32));
        let (left, top) = if number % BESIDE == 0 {
            (gap, frame.height + GAP)
        } else {
            (last.left + last.width + gap, last.top)
        };
        frame.widen(left + block.width + GAP);
        frame.height = frame.height.max(top + block.height);
        let block = self.blocks.get_mut(at)?;
        block.left = left;
        block.top = top;
        Some(())
    }

    // Moves the lower driver of each link to a layer below that of the upper driver. After each call, at least one more
    // link of the longest descending path leads downwards. So it is enough to call this once for each frame.
    fn sink(&mut self) {
        for way in self.ways.as_slice() {
            let above = self.blocks.get(way.upper).map_or(0, |upper| upper.layer);
            if let Some(lower) = self.blocks.get_mut(way.lower) {
                lower.layer = lower.layer.max(above.saturating_add(1).min(LOWEST));
            }
        }
    }

    // Adds up the widths of the frames of each layer, and the links that begin in it. Makes each layer as high as its
    // highest frame, and the picture as wide as the widest layer.
    fn measure(&mut self) {
        self.width = LEGEND;
        for frame in self.frames.as_slice() {
            if let Some(frame) = self.blocks.get_mut(*frame) {
                frame.height += GAP;
                if let Some(layer) = self.layers.get_mut(frame.layer) {
                    layer.width += frame.width + MARGIN;
                    layer.height = layer.height.max(frame.height);
                    layer.links += frame.links;
                    self.width = self.width.max(MARGIN + layer.width);
                }
            }
        }
    }

    // Puts the frames of each layer side by side, and each layer in the middle of the picture.
    fn spread(&mut self) {
        for layer in self.layers.iter_mut() {
            let beside = self.width - MARGIN - layer.width;
            layer.left = MARGIN + beside / Saturating(24) * Saturating(12);
        }
        for frame in self.frames.as_slice() {
            if let Some(frame) = self.blocks.get_mut(*frame) {
                if let Some(layer) = self.layers.get_mut(frame.layer) {
                    frame.left = layer.left;
                    layer.left += frame.width + MARGIN;
                }
            }
        }
    }

    // For each frame, adds up the positions of the columns at the other ends of its links.
    fn weigh(&mut self) {
        for block in self.blocks.iter_mut() {
            block.pulls = (0, 0);
        }
        for at in 0..self.ways.len() {
            self.weigh_way(at);
        }
    }

    fn weigh_way(&mut self, at: usize) -> Option<()> {
        let way = *self.ways.get(at)?;
        let from = self.middle_of(way.upper, way.from)?;
        let to = self.middle_of(way.lower, way.to)?;
        self.blocks.get_mut(way.upper)?.pull(to);
        self.blocks.get_mut(way.lower)?.pull(from);
        Some(())
    }

    // Returns the horizontal middle of a column.
    fn middle_of(&self, frame: usize, column: usize) -> Option<Px> {
        let column = self.blocks.get(column)?;
        Some(self.blocks.get(frame)?.left + column.left + column.width / Saturating(2))
    }

    // Sorts the frames by layer, and in a layer by the mean position of the columns to which their links lead.
    fn sort_frames(&mut self) {
        let blocks = self.blocks.as_slice();
        self.frames.sort_unstable_by_key(|at| match blocks.get(*at) {
            Some(frame) => (frame.layer, frame.mean(), *at),
            None => (0, 0, *at),
        });
    }

    // Puts the layers one below the other, with room below each for the links that begin in it. Then puts all blocks at
    // their places.
    fn stack(&mut self) {
        self.height = HEADER;
        for layer in self.layers.iter_mut() {
            if layer.height.0 > 0 {
                layer.top = self.height;
                self.height += layer.height + MARGIN + layer.links * LANE;
            }
        }
        for at in 0..self.blocks.len() {
            self.put(at);
        }
    }

    // Puts a block at its place in the picture. The `left` of its frame and the `top` of its layer are already known.
    fn put(&mut self, at: usize) -> Option<()> {
        let block = *self.blocks.get(at)?;
        let frame = *self.blocks.get(block.frame)?;
        let top = self.layers.get(frame.layer)?.top;
        let block = self.blocks.get_mut(at)?;
        if block.seat.minor.is_none() {
            block.put_at(frame.left, top);
        } else {
            block.put_at(frame.left + block.left, top + block.top);
        }
        Some(())
    }
}
