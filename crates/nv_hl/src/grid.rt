//! A screen of cells.

ghost use Rattle.nv_hl.specs.Cells.{IsSized, blank_rows, blank_screen, with_strip};
ghost use Rattle.std.specs.Prelude.{◌≡◌, ◌<◌, IfOk, length, slice_index_or};

use crate::cell::{Cell, Row};
use std::alloc::{AllocError, Global};
use std::marker::Model;

/// A screen: rows of cells, as many as it is high, each with as many cells as it is wide.
#[derive(Drop)]
pub struct Grid {
    width: u32,
    height: u32,
    rows: Vec<Row>,
}

impl Model for Grid {
    ghost use Rattle.nv_hl.specs.Cells.{IsSized, Screen};

    ghost Value = { Screen };

    ghost view = { λ g. record { width = g.width; height = g.height; rows = g.rows.items } };

    ghost invariant = { λ g.
        IsSized (record { width = g.width; height = g.height; rows = g.rows.items }) };
}

fn blank_rows(alloc: Global, width: u32, height: u32) -> Result<Vec<Row>, AllocError>
    ensures { IfOk result (λ rows. rows.items ≡ blank_rows width height) }
{
    let mut rows = Vec::with_capacity(alloc, height as usize)?;
    for _ in 0..height {
        rows.push(Row::blank(alloc, width)?)?;
    }
    Ok(rows)
}

fn lay_strip(rows: &mut Vec<Row>, row: u32, col: u32, cells: Vec<Cell>)
    ensures { rows.new.items ≡ with_strip rows.old.items row col cells.items }
{
    let at = row as usize;
    if at < rows.len() {
        rows[at].lay(col, cells);
    }
}

impl Grid {
    /// A screen of spaces with the empty attribute. Sizes are in cells.
    pub fn blank(alloc: Global, width: u32, height: u32) -> Result<Grid, AllocError>
        ensures { IfOk result (λ g. g ≡ blank_screen width height) }
    {
        let rows = blank_rows(alloc, width, height)?;
        Ok(Grid {
            width,
            height,
            rows,
        })
    }

    /// A screen of these rows, as many as it is high, each as wide as it is.
    pub fn from_rows(width: u32, height: u32, rows: Vec<Row>) -> Grid
        requires { IsSized (record { width = width; height = height; rows = rows.items }) }
        ensures { result ≡ record { width = width; height = height; rows = rows.items } }
    {
        Grid {
            width,
            height,
            rows,
        }
    }

    /// The number of columns.
    pub fn width(&self) -> u32
        ensures { result ≡ self.now.width }
    {
        self.width
    }

    /// The number of rows.
    pub fn height(&self) -> u32
        ensures { result ≡ self.now.height }
    {
        self.height
    }

    /// The rows from the top: as many as the screen is high, each as wide as it is.
    pub fn rows(&self) -> &[Row]
        ensures rows { result.now ≡ self.now.rows }
        ensures sized { IsSized self.now }
    {
        self.rows.as_slice()
    }

    /// Puts cells into a row from a column on, both counted from 0, in place of what was there.
    /// What would lie outside the screen is left out.
    pub fn lay(&mut self, row: u32, col: u32, cells: Vec<Cell>)
        ensures { self.new
            ≡ record self.old { rows = with_strip self.old.rows row col cells.items } }
    {
        lay_strip(&mut self.rows, row, col, cells);
    }
}
