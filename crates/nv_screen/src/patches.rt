//! Patches.

ghost use Rattle.nv_hl.specs.Cells.{is_right_half, space};
ghost use Rattle.nv_screen.specs.Drawing.{with_left_half, with_patch_cells, with_patches, with_right_half, with_space};
ghost use Rattle.std.specs.Prelude.{◌≡◌, ◌-◌, OnOk};

use crate::canvas::Canvas;
use crate::laying::copy_cells;
use crate::scene::Patch;
use nv_hl::Cell;
use std::alloc::{AllocError, Global};

// Puts a space in place of a cell, with its attribute.
fn lay_space(alloc: Global, canvas: &mut Canvas, row: usize, col: usize) -> Result<(), AllocError>
    ensures { OnOk result (canvas.new
        ≡ record canvas.old { rows = with_space canvas.old.rows row col }) }
{
    let (attr, _) = canvas.shown_at(row, col);
    let mut cells = Vec::with_capacity(alloc, 1)?;
    cells.push(Cell::space(attr))?;
    canvas.lay(row, col, cells)?;
    Ok(())
}

// Leaves a space of the left half of a pair whose right half stands at a column.
fn lay_left_half(
    alloc: Global,
    canvas: &mut Canvas,
    row: usize,
    col: usize,
) -> Result<(), AllocError>
    ensures { OnOk result (canvas.new
        ≡ record canvas.old { rows = with_left_half canvas.old.rows row col }) }
{
    let (_, half) = canvas.shown_at(row, col);
    if half {
        lay_space(alloc, canvas, row, col.saturating_sub(1))?;
    }
    Ok(())
}

// Leaves a space of the right half of a pair that stands at a column.
fn lay_right_half(
    alloc: Global,
    canvas: &mut Canvas,
    row: usize,
    col: usize,
) -> Result<(), AllocError>
    ensures { OnOk result (canvas.new
        ≡ record canvas.old { rows = with_right_half canvas.old.rows row col }) }
{
    let (_, half) = canvas.shown_at(row, col);
    if half {
        lay_space(alloc, canvas, row, col)?;
    }
    Ok(())
}

fn lay_patch(alloc: Global, canvas: &mut Canvas, patch: &Patch) -> Result<(), AllocError>
    ensures { OnOk result (canvas.new ≡ record canvas.old {
      rows = with_patch_cells canvas.old.rows patch.now.row patch.now.col
          patch.now.cells.items;
    }) }
{
    if patch.cells.is_empty() {
        return Ok(());
    }
    let row = patch.row as usize;
    let col = patch.col as usize;
    let cells = copy_cells(alloc, patch.cells.as_slice())?;
    lay_left_half(alloc, canvas, row, col)?;
    lay_right_half(alloc, canvas, row, col + cells.len())?;
    canvas.lay(row, col, cells)?;
    Ok(())
}

/// Lays patches over a screen, one after another.
pub fn lay_patches(alloc: Global, canvas: &mut Canvas, patches: &[Patch]) -> Result<(), AllocError>
    ensures { OnOk result (canvas.new
        ≡ record canvas.old { rows = with_patches canvas.old.rows patches.now }) }
{
    for patch in patches {
        lay_patch(alloc, canvas, patch)?;
    }
    Ok(())
}
