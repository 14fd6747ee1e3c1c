//! Rows of cells, in which a value is found by a row and the number of a cell.

ghost use Rattle.std.specs.Prelude.{◌≡◌, ◌<◌, List, Option, None, [], length, replicate, IfOk, slice_set, slice_index_or};

use smx_types::{Copied, NoMemory};
use std::alloc::Global;
use std::marker::Model;

/// A row of fewer than 256 cells, each with a value or `None`. Contracts see the list of the cells.
#[derive(Debug, Drop)]
pub struct Row<T> {
    cells: Vec<Option<T>>,
}

impl<T> Model for Row<T> {
    ghost Value = { List (Option T) };

    ghost view = { λ r. r.cells.items };

    ghost invariant = { λ r. length r.cells.items < 256 };
}

impl<T> Row<T> {
    pub fn len(&self) -> u8
        ensures { result ≡ length self.now }
    {
        self.cells.len() as u8
    }
}

impl<T: Copy> Row<T> {
    /// Makes a row of empty cells.
    pub fn new(alloc: Global, count: u8) -> Result<Row<T>, NoMemory>
        ensures { IfOk result (λ r. r ≡ replicate count None) }
    {
        Ok(Row {
            cells: vec![in alloc; None; count as usize]?,
        })
    }

    fn get(&self, cell: usize) -> Option<T>
        ensures { result ≡ slice_index_or self.now cell None }
    {
        match self.cells.get(cell) {
            Some(value) => *value,
            None => None,
        }
    }

    fn set(&mut self, cell: usize, value: Option<T>)
        requires { cell < length self.old }
        ensures { self.new ≡ slice_set self.old cell value }
    {
        self.cells[cell] = value;
    }
}

impl<T: Copy> Copied for Row<T> {
    fn copied(&self, alloc: Global) -> Result<Row<T>, NoMemory> {
        Ok(Row {
            cells: Vec::from_slice(alloc, &self.cells)?,
        })
    }
}

/// Returns the value of a cell. Returns `None` if the cell has no value, or if there is no such cell.
pub fn cell_at<T: Copy>(rows: &[Row<T>], row: usize, cell: usize) -> Option<T>
    ensures { result ≡ slice_index_or (slice_index_or rows.now row []) cell None }
{
    match rows.get(row) {
        Some(cells) => cells.get(cell),
        None => None,
    }
}

/// Sets the value of a cell that exists.
pub fn set_cell<T: Copy>(rows: &mut Vec<Row<T>>, row: usize, cell: usize, value: Option<T>)
    requires row { row < length rows.old.items }
    requires cell { cell < length (slice_index_or rows.old.items row []) }
    ensures { rows.new.items
        ≡ slice_set rows.old.items row (slice_set (slice_index_or rows.old.items row []) cell value) }
{
    rows[row].set(cell, value);
}
