//! The plan of a picture: its blocks and its links.

use crate::parts::{Look, Part};
use crate::pieces::{Piece, put, shown_length};
use crate::svg::block::{Area, Block, Px, Row, Seat};
use smx_types::{LinkLine, NoMemory};
use std::alloc::Global;
use std::num::Saturating;

/// A link: its index in the list of links, and the indices of four blocks. `upper` and `lower` are the frames of its
/// drivers, `from` is the column of its controlling stream, and `to` that of its lower stream. `area` is its way, that
/// is, the line that is drawn for it.
#[derive(Clone, Copy, Debug)]
pub struct Way {
    pub number: usize,
    pub upper: usize,
    pub from: usize,
    pub lower: usize,
    pub to: usize,
    pub area: Area,
}

/// A layer of frames, and the number of links that begin in it. `left` is where its next frame is placed.
#[derive(Clone, Copy, Debug, Default)]
pub struct Layer {
    pub left: Px,
    pub top: Px,
    pub width: Px,
    pub height: Px,
    pub links: Px,
}

/// The plan of a picture.
#[derive(Debug, Drop)]
pub struct Plan {
    /// The frames of the drivers, sorted by name. After each frame come the columns of its streams.
    pub blocks: Vec<Block>,
    /// The indices of the frames in `blocks`, sorted by layer, and in a layer from left to right.
    pub frames: Vec<usize>,
    pub layers: Vec<Layer>,
    /// Once all have their places: from the last link to the first.
    pub ways: Vec<Way>,
    pub width: Px,
    pub height: Px,
}

impl Plan {
    /// Makes the plan of a picture of these parts and links. Fails only if it is out of memory.
    pub fn new(alloc: Global, parts: &[Part], links: &[LinkLine]) -> Result<Plan, NoMemory> {
        let mut plan = Plan {
            blocks: Vec::new(alloc),
            frames: Vec::new(alloc),
            layers: Vec::new(alloc),
            ways: Vec::new(alloc),
            width: Saturating(0),
            height: Saturating(0),
        };
        plan.add_blocks(alloc, parts, links)?;
        plan.add_rows(alloc, parts)?;
        plan.add_names(alloc)?;
        plan.add_ways(links)?;
        plan.place()?;
        plan.route();
        Ok(plan)
    }

    // Adds the blocks of the driver and the stream of each part, and of the controlling stream of each link and its
    // driver.
    fn add_blocks(
        &mut self,
        alloc: Global,
        parts: &[Part],
        links: &[LinkLine],
    ) -> Result<(), NoMemory> {
        let mut seats = Vec::new(alloc);
        for part in parts {
            let seat = part.seat();
            seats.push(Seat::of_driver(&seat.driver, Row::Name))?;
            seats.push(seat)?;
        }
        for link in links {
            seats.push(Seat::of_driver(&link.ctl_driver, Row::Name))?;
            seats.push(Seat::of_stream(&link.ctl_driver, link.ctl_minor, Row::Name))?;
        }
        seats.sort_unstable_by_key(|seat| seat.order());
        seats.dedup_by_key(|seat| seat.order());
        for seat in seats.as_slice() {
            let at = self.blocks.len();
            if seat.minor.is_none() {
                self.frames.push(at)?;
            }
            let frame = self.frames.last().copied().unwrap_or(at);
            if let Some(block) = self.blocks.get_mut(frame) {
                block.columns += 1;
            }
            self.blocks.push(Block::new(*seat, frame))?;
        }
        Ok(())
    }

    // Adds the row of each part to its block.
    fn add_rows(&mut self, alloc: Global, parts: &[Part]) -> Result<(), NoMemory> {
        let mut label = Vec::new(alloc);
        for part in parts {
            label.clear();
            part.put(Look::Label, &mut label)?;
            let seat = part.seat();
            if let Some(block) = self.block(&seat) {
                block.add_row(seat.row, shown_length(label.as_slice()));
            }
        }
        Ok(())
    }

    // Adds to each column a row with the name of the stream. A stream without other rows counts as closed.
    fn add_names(&mut self, alloc: Global) -> Result<(), NoMemory> {
        let mut name = Vec::new(alloc);
        for block in self.blocks.iter_mut() {
            if let Some(minor) = block.seat.minor {
                name.clear();
                let values = [Piece::Name(block.seat.driver), Piece::Number(minor)];
                put(&mut name, b"@0 @1 closed", &values)?;
                block.is_closed = block.height.0 == 0;
                block.add_row(Row::Name as usize, shown_length(name.as_slice()));
            }
        }
        Ok(())
    }

    fn add_ways(&mut self, links: &[LinkLine]) -> Result<(), NoMemory> {
        for (number, link) in links.iter().enumerate() {
            let from = Seat::of_stream(&link.ctl_driver, link.ctl_minor, Row::Name);
            let upper = Seat::of_driver(&link.ctl_driver, Row::Name);
            let lower = Seat::of_driver(&link.lower_driver, Row::Name);
            let to = Seat::of_stream(&link.lower_driver, link.lower_minor, Row::Link);
            let way = Way {
                number,
                upper: find(&self.blocks, &upper),
                from: find(&self.blocks, &from),
                lower: find(&self.blocks, &lower),
                to: find(&self.blocks, &to),
                area: Area::default(),
            };
            if let Some(frame) = self.blocks.get_mut(way.upper) {
                frame.links += 1;
            }
            if let Some(column) = self.blocks.get_mut(way.from) {
                column.add_link();
            }
            self.ways.push(way)?;
        }
        Ok(())
    }

    /// Returns the block of a driver or a stream.
    pub fn block(&mut self, seat: &Seat) -> Option<&mut Block> {
        let at = find(&self.blocks, seat);
        self.blocks.get_mut(at)
    }

    /// Returns where the next row of this kind is drawn, and moves on to the row after it.
    pub fn take_row(&mut self, seat: &Seat) -> Option<Area> {
        self.block(seat)?.take_row(seat.row)
    }
}

// Returns the index of the block to which a row belongs.
fn find(blocks: &[Block], seat: &Seat) -> usize {
    match blocks.binary_search_by_key(&seat.order(), |block| block.seat.order()) {
        Ok(at) | Err(at) => at,
    }
}
