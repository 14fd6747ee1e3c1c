//! The blocks of a picture: the frame of each driver, and the column of each stream. A seat is the position of a row of
//! text in a picture: in which block, and which kind of row.

use smx_types::{Name, Side};
use std::num::Saturating;

/// A rectangle in pixels. For a link, it is the way of the link: from the point (`left`, `top`) down to `bend`, across
/// to `lane`, down to `bottom`, and across to `right`.
#[derive(Clone, Copy, Debug, Default)]
pub struct Area {
    pub left: u32,
    pub top: u32,
    pub right: u32,
    pub bottom: u32,
    pub bend: u32,
    pub lane: u32,
}

impl Area {
    /// Returns the key by which the links that begin in one layer are sorted. The first of them turns aside at the
    /// lowest height, the last at the uppermost.
    pub fn turn_order(&self) -> u32 {
        if self.left < self.lane {
            self.left
        } else {
            u32::MAX - self.left
        }
    }
}

/// A number of pixels. A sum or product that is too large becomes the largest number.
pub type Px = Saturating<u32>;

/// The height of a row.
pub const ROW: Px = Saturating(14);

// The width of a character.
const CHARACTER: Px = Saturating(6);

// The room around a text.
const AROUND: Px = Saturating(12);

/// The distance between the lanes of two links.
pub const LANE: Px = Saturating(6);

/// The kinds of rows in the frame of a driver or the column of a stream, from top to bottom. The last four are for the
/// write queue. The read queue has the same four kinds, which have no variants here. Their numbers are those of the
/// write queue plus `READ`.
#[derive(Clone, Copy, Debug)]
pub enum Row {
    Name,
    Link,
    Hung,
    Route,
    Descriptor,
    Binding,
    Queue,
    Full,
    Message,
    More,
}

// The number of kinds of rows, with the four of the read queue.
const ROWS: usize = 14;

// The number of a row of the read queue is the number of the same row of the write queue, plus this.
const READ: usize = 4;

/// The driver to which a row belongs, the stream, if it belongs to one, and the kind of the row.
#[derive(Clone, Copy, Debug)]
pub struct Seat {
    pub driver: Name,
    /// The minor of the stream, or nothing if the row belongs to the driver itself.
    pub minor: Option<u32>,
    pub row: usize,
}

impl Seat {
    /// Returns the seat of a row of a driver.
    pub fn of_driver(driver: &Name, row: Row) -> Seat {
        Seat {
            driver: *driver,
            minor: None,
            row: row as usize,
        }
    }

    /// Returns the seat of a row of a stream.
    pub fn of_stream(driver: &Name, minor: u32, row: Row) -> Seat {
        Seat {
            driver: *driver,
            minor: Some(minor),
            row: row as usize,
        }
    }

    /// Returns the seat of a row of a queue.
    pub fn of_queue(driver: &Name, minor: u32, side: Side, row: Row) -> Seat {
        let seat = Seat::of_stream(driver, minor, row);
        match side {
            Side::Write => seat,
            Side::Read => Seat {
                row: row as usize + READ,
                ..seat
            },
        }
    }

    /// Returns the key by which drivers and streams are sorted: by name and minor, and a driver before its streams.
    pub fn order(&self) -> (u64, Option<u32>) {
        let text = self.driver.as_bytes();
        let mut padded = [0u8; 8];
        padded[..text.len()].copy_from_slice(text);
        (u64::from_be_bytes(padded), self.minor)
    }
}

/// The frame of a driver or the column of a stream: its rows and its place. Until `put_at` is called, the place of a
/// column is relative to its frame.
#[derive(Clone, Copy, Debug)]
pub struct Block {
    pub seat: Seat,
    /// For a column, the index of its frame in the list of blocks. For a frame, its own index.
    pub frame: usize,
    /// The layer of the block, if it is a frame.
    pub layer: usize,
    /// The number of columns, if the block is a frame.
    pub columns: Px,
    /// Whether the block is the column of a stream that no longer exists. Only links still name it, as their
    /// controlling stream.
    pub is_closed: bool,
    /// For a frame, two numbers: the sum of the horizontal middles of the columns at the other ends of its links, and
    /// how many middles were added up.
    pub pulls: (u64, u64),
    pub left: Px,
    pub top: Px,
    pub width: Px,
    pub height: Px,
    /// The number of links that begin below the block. For a column, it is counted down when these links are placed.
    pub links: Px,
    // Until `put_at` is called: for each kind of row, the number of such rows. After that: for each kind, the top of
    // the row of this kind that is drawn next.
    rows: [Px; ROWS],
}

impl Block {
    /// Returns a block without rows.
    pub fn new(seat: Seat, frame: usize) -> Block {
        Block {
            seat,
            frame,
            layer: 0,
            columns: Saturating(0),
            is_closed: false,
            pulls: (0, 0),
            left: Saturating(0),
            top: Saturating(0),
            width: Saturating(0),
            height: Saturating(0),
            links: Saturating(0),
            rows: [Saturating(0); ROWS],
        }
    }

    /// Adds a row of this kind, with a text of this length.
    pub fn add_row(&mut self, row: usize, length: u32) {
        if let Some(count) = self.rows.get_mut(row) {
            *count += 1;
        }
        self.height += ROW;
        self.widen(Saturating(length) * CHARACTER + AROUND);
    }

    /// Adds a link that begins below the column.
    pub fn add_link(&mut self) {
        self.links += 1;
        self.widen(self.links * LANE + AROUND);
    }

    /// Makes the block at least this wide.
    pub fn widen(&mut self, width: Px) {
        self.width = self.width.max(width);
    }

    /// Adds the horizontal middle of the column at the other end of a link of this frame.
    pub fn pull(&mut self, middle: Px) {
        self.pulls.0 = self.pulls.0.saturating_add(u64::from(middle.0));
        self.pulls.1 = self.pulls.1.saturating_add(1);
    }

    /// Returns the mean of the middles that `pull` added, or the left end of the block if there are none.
    pub fn mean(&self) -> u64 {
        match self.pulls {
            (_, 0) => u64::from(self.left.0),
            (sum, number) => sum / number,
        }
    }

    /// Puts the block at this place, and its rows inside it, one below the other.
    pub fn put_at(&mut self, left: Px, top: Px) {
        self.left = left;
        self.top = top;
        let mut next = top;
        for row in self.rows.iter_mut() {
            let end = next + *row * ROW;
            *row = next;
            next = end;
        }
    }

    /// Returns where the next row of a kind is drawn.
    pub fn row(&self, row: usize) -> Option<Area> {
        Some(self.part(*self.rows.get(row)?, ROW))
    }

    /// Returns where the next row of a kind is drawn, and moves on to the row after it.
    pub fn take_row(&mut self, row: usize) -> Option<Area> {
        let area = self.row(row)?;
        let top = self.rows.get_mut(row)?;
        *top += ROW;
        Some(area)
    }

    /// Returns the area of the block.
    pub fn area(&self) -> Area {
        self.part(self.top, self.height)
    }

    // Returns the area from `top` on that is as wide as the block and has this height.
    fn part(&self, top: Px, height: Px) -> Area {
        Area {
            left: self.left.0,
            top: top.0,
            right: (self.left + self.width).0,
            bottom: (top + height).0,
            ..Area::default()
        }
    }
}
