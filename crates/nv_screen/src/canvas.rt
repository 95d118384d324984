//! A screen that is being laid.

ghost use Rattle.nv_hl.specs.Cells.{blank_screen, is_right_half, with_cells, with_strip};
ghost use Rattle.nv_screen.specs.Drawing.{cell_shown};
ghost use Rattle.nv_screen.specs.inside.Laid.{AreNarrow, AreStrips, screen_of_strips, whole_row};
ghost use Rattle.std.specs.Prelude.{◌≡◌, ◌≤◌, ◌<◌, ◌^◌, ◌++◌, [], IfOk, OnOk, OnErr, length, map, replicate};

use nv_hl::{Attr, Cell, Grid, Row};
use std::alloc::{AllocError, Global};
use std::marker::Model;

/// A screen that is being laid. Its rows are kept as far as cells were laid in them, so that no
/// space is written where a cell comes to stand; behind them are spaces with the empty attribute.
#[derive(Drop)]
pub struct Canvas {
    width: u32,
    height: u32,
    strips: Vec<Row>,
}

impl Model for Canvas {
    ghost use Rattle.nv_hl.specs.Cells.{Screen};
    ghost use Rattle.nv_screen.specs.inside.Laid.{AreStrips, screen_of_strips};

    ghost Value = { Screen };

    ghost view = { λ c. screen_of_strips c.width c.height c.strips.items };

    ghost invariant = { λ c. AreStrips c.width c.height c.strips.items };
}

fn empty_strips(alloc: Global, width: u32, height: u32) -> Result<Vec<Row>, AllocError>
    ensures { IfOk result (λ strips. strips.items ≡ replicate height []) }
{
    let mut strips = Vec::with_capacity(alloc, height as usize)?;
    for _ in 0..height {
        strips.push(Row::with_capacity(alloc, width as usize)?)?;
    }
    Ok(strips)
}

// Puts cells into a row from a column on. What would pass its end is left out. Cells that fill a
// row by themselves become the row.
fn lay_row(row: &mut Row, width: u32, col: u32, cells: Vec<Cell>) -> Result<(), AllocError>
    requires within { length row.old ≤ width }
    requires col { col ≤ width }
    ensures laid { OnOk result (whole_row width row.new
        ≡ with_cells (whole_row width row.old) col cells.items) }
    ensures within { length row.new ≤ width }
{
    let built = row.cells().len();
    if built == 0 && cells.len() == width as usize && col == 0 {
        *row = Row::new(cells);
        return Ok(());
    }
    if built <= col as usize && cells.len() <= (width - col) as usize {
        row.append_spaces(col as usize - built)?;
        row.append(cells)?;
        return Ok(());
    }
    row.append_spaces(width as usize - built)?;
    row.lay(col, cells);
    Ok(())
}

fn lay_in(
    strips: &mut Vec<Row>,
    width: u32,
    row: usize,
    col: usize,
    cells: Vec<Cell>,
) -> Result<(), AllocError>
    requires { AreNarrow width strips.old.items }
    ensures laid { OnOk result (map (whole_row width) strips.new.items
        ≡ with_strip (map (whole_row width) strips.old.items) row col cells.items) }
    ensures narrow { AreNarrow width strips.new.items }
    ensures high { length strips.new.items ≡ length strips.old.items }
{
    if row >= strips.len() {
        return Ok(());
    }
    if col >= width as usize {
        return Ok(());
    }
    lay_row(&mut strips[row], width, col as u32, cells)?;
    Ok(())
}

fn whole_rows(alloc: Global, strips: Vec<Row>, width: u32) -> Result<Vec<Row>, AllocError>
    ensures { IfOk result (λ rows. rows.items ≡ map (whole_row width) strips.items) }
{
    let mut rows = Vec::with_capacity(alloc, strips.len())?;
    for strip in strips {
        let mut row = strip;
        let built = row.cells().len();
        row.append_spaces((width as usize).saturating_sub(built))?;
        rows.push(row)?;
    }
    Ok(rows)
}

impl Canvas {
    /// A screen of spaces. Sizes are in cells.
    pub fn blank(alloc: Global, width: u32, height: u32) -> Result<Canvas, AllocError>
        ensures { IfOk result (λ c. c ≡ blank_screen width height) }
    {
        let strips = empty_strips(alloc, width, height)?;
        Ok(Canvas {
            width,
            height,
            strips,
        })
    }

    /// Puts cells into a row from a column on, in place of what was there. What would lie outside
    /// the screen is left out.
    pub fn lay(&mut self, row: usize, col: usize, cells: Vec<Cell>) -> Result<(), AllocError>
        ensures { OnOk result (self.new
            ≡ record self.old { rows = with_strip self.old.rows row col cells.items }) }
    {
        lay_in(&mut self.strips, self.width, row, col, cells)
    }

    /// The attribute of a cell, and whether it is the right half of a pair. Outside the screen
    /// there are spaces.
    pub fn shown_at(&self, row: usize, col: usize) -> (Attr, bool)
        ensures attr { result.0 ≡ (cell_shown self.now.rows row col).attr }
        ensures half { result.1 ≡ is_right_half (cell_shown self.now.rows row col) }
    {
        if row >= self.strips.len() {
            return (Attr::EMPTY, false);
        }
        let cells = self.strips[row].cells();
        if col >= cells.len() {
            return (Attr::EMPTY, false);
        }
        (cells[col].attr, cells[col].is_right_half())
    }

    /// The screen that was laid.
    pub fn finish(self, alloc: Global) -> Result<Grid, AllocError>
        ensures { IfOk result (λ grid. grid ≡ self) }
    {
        let rows = whole_rows(alloc, self.strips, self.width)?;
        Ok(Grid::from_rows(self.width, self.height, rows))
    }
}
