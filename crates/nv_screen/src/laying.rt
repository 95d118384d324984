//! Cells that are laid in a screen, row by row.

ghost use Rattle.nv_hl.specs.Cells.{cell_of};
ghost use Rattle.nv_screen.specs.Drawing.{begins_with_half, cells_up_to, last_as_space, rows_of_cells, with_rows};
ghost use Rattle.nv_screen.specs.inside.Laying.{cells_behind};
ghost use Rattle.std.specs.Vec.Iter.{into_iter_items};
ghost use Rattle.std.specs.Prelude.{◌≡◌, ◌<◌, ◌+◌, ◌^◌, ◌++◌, ◌∷◌, [], IfOk, OnOk, drop, replicate, take};

use crate::canvas::Canvas;
use nv_hl::{Attr, Cell};
use std::alloc::{AllocError, Global};
use std::vec::IntoIter;

/// The next cells, at most so many.
pub fn next_cells(
    alloc: Global,
    rest: &mut IntoIter<Cell>,
    count: u32,
) -> Result<Vec<Cell>, AllocError>
    ensures cells { IfOk result (λ cells. cells.items ≡ take count (into_iter_items rest.old)) }
    ensures rest { OnOk result (into_iter_items rest.new
        ≡ drop count (into_iter_items rest.old)) }
{
    let mut cells = Vec::with_capacity(alloc, count as usize)?;
    for _ in 0..count {
        let Some(cell) = rest.next() else {
            return Ok(cells);
        };
        cells.push(cell)?;
    }
    Ok(cells)
}

/// A copy of cells.
pub fn copy_cells(alloc: Global, cells: &[Cell]) -> Result<Vec<Cell>, AllocError>
    ensures { IfOk result (λ copy. copy.items ≡ cells.now) }
{
    let mut copy = Vec::with_capacity(alloc, cells.len())?;
    for cell in cells {
        copy.push(cell.copy(alloc)?)?;
    }
    Ok(copy)
}

/// A copy of the first cells, at most so many.
pub fn copy_front(alloc: Global, cells: &[Cell], most: usize) -> Result<Vec<Cell>, AllocError>
    ensures { IfOk result (λ copy. copy.items ≡ take most cells.now) }
{
    if cells.len() <= most {
        return copy_cells(alloc, cells);
    }
    copy_cells(alloc, &cells[..most])
}

/// Lays the next cells in so many rows of a width, one below another.
pub fn lay_rows(
    alloc: Global,
    canvas: &mut Canvas,
    row: usize,
    col: usize,
    width: u32,
    count: u32,
    rest: &mut IntoIter<Cell>,
) -> Result<(), AllocError>
    requires { row + count < 2 ^ 64 }
    ensures laid { OnOk result (canvas.new ≡ record canvas.old {
      rows = with_rows canvas.old.rows row col
          (rows_of_cells count width (into_iter_items rest.old));
    }) }
    ensures rest { OnOk result (into_iter_items rest.new
        ≡ cells_behind count width (into_iter_items rest.old)) }
{
    for k in 0..count {
        let cells = next_cells(alloc, rest, width)?;
        canvas.lay(row + k as usize, col, cells)?;
    }
    Ok(())
}

/// Puts so many cells with one byte behind others.
pub fn pad(cells: &mut Vec<Cell>, count: usize, byte: u8, attr: Attr) -> Result<(), AllocError>
    ensures { OnOk result (cells.new.items
        ≡ cells.old.items ++ replicate count (cell_of (byte ∷ []) attr)) }
{
    for _ in 0..count {
        cells.push(Cell::from_byte(byte, attr))?;
    }
    Ok(())
}

// Puts a space in place of the last cell, with its attribute.
fn end_with_space(cells: &mut Vec<Cell>)
    ensures { cells.new.items ≡ last_as_space cells.old.items }
{
    let count = cells.len();
    if count == 0 {
        return;
    }
    let attr = cells[count - 1].attr;
    cells[count - 1] = Cell::space(attr);
}

// Whether the cell at a place is the right half of a pair.
fn is_half_at(cells: &[Cell], at: usize) -> bool
    ensures { result ≡ begins_with_half (drop at cells.now) }
{
    at < cells.len() && cells[at].is_right_half()
}

/// Leaves the first cells; of a pair that is cut a space is left.
pub fn cut_cells(cells: &mut Vec<Cell>, count: usize)
    ensures { cells.new.items ≡ cells_up_to count cells.old.items }
{
    let parts = is_half_at(cells.as_slice(), count);
    cells.truncate(count);
    if parts {
        end_with_space(cells);
    }
}
