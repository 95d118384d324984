//! Cells, and rows of them.

ghost use Rattle.nv_hl.specs.Cells.{cell_of, is_right_half, right_half, same_cell, space, with_cells};
ghost use Rattle.nv_hl.specs.Attributes.{empty_attr};
ghost use Rattle.std.specs.Prelude.{◌≡◌, ◌≤◌, ◌+◌, ◌∷◌, ◌++◌, [], IfOk, OnOk, OnErr, length, replicate};

use crate::attribute::{Attr, is_same_attr};
use crate::celltext::CellText;
use std::alloc::{AllocError, Global};
use std::marker::Model;

/// What one cell of a screen shows.
#[derive(Drop)]
pub struct Cell {
    /// The bytes of its cluster; none in the right half of a pair.
    pub text: CellText,
    pub attr: Attr,
}

impl Cell {
    /// A cell that shows one byte.
    pub fn from_byte(byte: u8, attr: Attr) -> Cell
        ensures { result ≡ cell_of (byte ∷ []) attr }
    {
        Cell {
            text: CellText::from_byte(byte),
            attr,
        }
    }

    /// A cell with a text.
    pub fn new(alloc: Global, text: &[u8], attr: Attr) -> Result<Cell, AllocError>
        ensures { IfOk result (λ c. c ≡ cell_of text.now attr) }
    {
        let text = CellText::new(alloc, text)?;
        Ok(Cell { text, attr })
    }

    /// A space.
    pub fn space(attr: Attr) -> Cell
        ensures { result ≡ space attr }
    {
        Cell::from_byte(b' ', attr)
    }

    /// The right half of a pair of cells.
    pub fn right_half(attr: Attr) -> Cell
        ensures { result ≡ right_half attr }
    {
        Cell {
            text: CellText::empty(),
            attr,
        }
    }

    /// Whether it is the right half of a pair.
    pub fn is_right_half(&self) -> bool
        ensures { result ≡ is_right_half self.now }
    {
        self.text.is_empty()
    }

    /// Whether both have the same text and attribute.
    pub fn is_same(&self, other: &Cell) -> bool
        ensures { result ≡ same_cell self.now other.now }
    {
        is_same_attr(&self.attr, &other.attr) && self.text.is_same(&other.text)
    }

    /// A copy.
    pub fn copy(&self, alloc: Global) -> Result<Cell, AllocError>
        ensures { IfOk result (λ c. c ≡ self.now) }
    {
        let text = self.text.copy(alloc)?;
        Ok(Cell {
            text,
            attr: self.attr,
        })
    }
}

/// A row of cells.
#[derive(Drop)]
pub struct Row {
    cells: Vec<Cell>,
}

impl Model for Row {
    ghost use Rattle.std.specs.Prelude.{List};
    ghost use Rattle.nv_hl.specs.declared.cell.Cell.{Cell};

    ghost Value = { List Cell };

    ghost view = { λ r. r.cells.items };
}

fn lay_cells(row: &mut Vec<Cell>, col: usize, cells: Vec<Cell>)
    ensures { row.new.items ≡ with_cells row.old.items col cells.items }
{
    let mut at = col;
    for cell in cells {
        if row.len() <= at {
            return;
        }
        row[at] = cell;
        at += 1;
    }
}

fn push_spaces(row: &mut Vec<Cell>, count: usize) -> Result<(), AllocError>
    ensures ok { OnOk result (row.new.items
        ≡ row.old.items ++ replicate count (space empty_attr)) }
    ensures most { length row.new.items ≤ length row.old.items + count }
{
    for _ in 0..count {
        row.push(Cell::space(Attr::EMPTY))?;
    }
    Ok(())
}

impl Row {
    /// A row of spaces with the empty attribute.
    pub fn blank(alloc: Global, width: u32) -> Result<Row, AllocError>
        ensures { IfOk result (λ r. r ≡ replicate width (space empty_attr)) }
    {
        let mut cells = Vec::with_capacity(alloc, width as usize)?;
        for _ in 0..width {
            cells.push(Cell::space(Attr::EMPTY))?;
        }
        Ok(Row { cells })
    }

    /// A row without cells, with room for so many.
    pub fn with_capacity(alloc: Global, count: usize) -> Result<Row, AllocError>
        ensures { IfOk result (λ r. r ≡ []) }
    {
        let cells = Vec::with_capacity(alloc, count)?;
        Ok(Row { cells })
    }

    /// A row of these cells.
    pub fn new(cells: Vec<Cell>) -> Row
        ensures { result ≡ cells.items }
    {
        Row { cells }
    }

    /// Its cells, from the left.
    pub fn cells(&self) -> &[Cell]
        ensures { result.now ≡ self.now }
    {
        self.cells.as_slice()
    }

    /// Puts cells behind its last one.
    pub fn append(&mut self, cells: Vec<Cell>) -> Result<(), AllocError>
        ensures ok { OnOk result (self.new ≡ self.old ++ cells.items) }
        ensures err { OnErr result (self.new ≡ self.old) }
    {
        let mut cells = cells;
        self.cells.append(&mut cells)
    }

    /// Puts so many spaces with the empty attribute behind its last cell.
    pub fn append_spaces(&mut self, count: usize) -> Result<(), AllocError>
        ensures ok { OnOk result (self.new ≡ self.old ++ replicate count (space empty_attr)) }
        ensures most { length self.new ≤ length self.old + count }
    {
        push_spaces(&mut self.cells, count)
    }

    /// Puts cells in place of those from a column on; what would pass the row's end is left out.
    pub fn lay(&mut self, col: u32, cells: Vec<Cell>)
        ensures { self.new ≡ with_cells self.old col cells.items }
    {
        lay_cells(&mut self.cells, col as usize, cells);
    }
}
