//! The text of a window.

ghost use Rattle.nv_screen.specs.Drawing.{last_with_at, row_beyond, row_with_at, rows_of_cells, with_rows};
ghost use Rattle.nv_screen.specs.inside.Laying.{frame_cells, frame_line_rows, frame_rows, row_at};
ghost use Rattle.nv_hl.specs.declared.cell.Cell.{Cell};
ghost use Rattle.std.specs.Vec.Iter.{into_iter_items};
ghost use Rattle.std.specs.Prelude.{◌≡◌, ◌<◌, ◌≤◌, ◌+◌, ◌-◌, [], List, ℕ, IfOk, OnOk, replicate, take};

use crate::canvas::Canvas;
use crate::known::KnownLines;
use crate::laying::{copy_front, cut_cells, lay_rows, next_cells, pad};
use crate::scene::SceneLine;
use nv_hl::{Attr, Cell};
use nv_linedraw::{Looks, first_cells};
use std::alloc::{AllocError, Global};

/// Where a window's text is laid, and how.
#[derive(Clone, Copy)]
pub struct Frame<'a> {
    /// Its first row and column on the screen.
    pub row: u32,
    pub col: u32,
    /// Its size in cells.
    pub width: u32,
    pub height: u32,
    pub tabstop: u32,
    pub looks: &'a Looks,
}

// The next row, which ends in `@`.
fn end_with_at(cells: &mut Vec<Cell>, width: u32, looks: &Looks) -> Result<(), AllocError>
    ensures { OnOk result (cells.new.items ≡ row_with_at width looks.now cells.old.items) }
{
    let count = width.min(3) as usize;
    cut_cells(cells, width as usize - count);
    pad(cells, count, b'@', looks.nontext)
}

// The row past a text's last line.
fn row_beyond(alloc: Global, width: u32, looks: &Looks) -> Result<Vec<Cell>, AllocError>
    requires { 0 < width }
    ensures { IfOk result (λ cells. cells.items ≡ row_beyond width looks.now) }
{
    let mut cells = Vec::with_capacity(alloc, width as usize)?;
    cells.push(Cell::from_byte(b'~', looks.beyond))?;
    pad(&mut cells, width as usize - 1, b' ', Attr::EMPTY)?;
    Ok(cells)
}

// Lays the rows past a text's last line.
fn lay_beyond(
    alloc: Global,
    canvas: &mut Canvas,
    frame: &Frame,
    room: u32,
) -> Result<(), AllocError>
    requires wide { 0 < frame.now.width }
    requires room { room ≤ frame.now.height }
    ensures { OnOk result (canvas.new ≡ record canvas.old {
      rows = with_rows canvas.old.rows (row_at frame.now room) frame.now.col
          (replicate room (row_beyond frame.now.width frame.now.looks.now));
    }) }
{
    let row = frame.row as usize + (frame.height - room) as usize;
    for k in 0..room {
        let cells = row_beyond(alloc, frame.width, frame.looks)?;
        canvas.lay(row + k as usize, frame.col as usize, cells)?;
    }
    Ok(())
}

// Lays the first rows of a line that has more of them than there is room for.
fn lay_cut_line(
    alloc: Global,
    canvas: &mut Canvas,
    frame: &Frame,
    room: u32,
    cells: Vec<Cell>,
) -> Result<(), AllocError>
    requires some { 0 < room }
    requires room { room ≤ frame.now.height }
    ensures { OnOk result (canvas.new ≡ record canvas.old {
      rows = with_rows canvas.old.rows (row_at frame.now room) frame.now.col
          (last_with_at frame.now.width frame.now.looks.now
          (rows_of_cells room frame.now.width cells.items));
    }) }
{
    let row = frame.row as usize + (frame.height - room) as usize;
    let mut rest = cells.into_iter();
    lay_rows(
        alloc,
        canvas,
        row,
        frame.col as usize,
        frame.width,
        room - 1,
        &mut rest,
    )?;
    let mut last = next_cells(alloc, &mut rest, frame.width)?;
    end_with_at(&mut last, frame.width, frame.looks)?;
    canvas.lay(row + (room - 1) as usize, frame.col as usize, last)?;
    Ok(())
}

// Lays the rows of a line all of which fit.
fn lay_whole_line(
    alloc: Global,
    canvas: &mut Canvas,
    frame: &Frame,
    room: u32,
    count: u32,
    cells: Vec<Cell>,
) -> Result<(), AllocError>
    requires room { room ≤ frame.now.height }
    requires count { count ≤ room }
    ensures { OnOk result (canvas.new ≡ record canvas.old {
      rows = with_rows canvas.old.rows (row_at frame.now room) frame.now.col
          (rows_of_cells count frame.now.width cells.items);
    }) }
{
    let row = frame.row as usize + (frame.height - room) as usize;
    if count == 1 && cells.len() == frame.width as usize {
        canvas.lay(row, frame.col as usize, cells)?;
        return Ok(());
    }
    let mut rest = cells.into_iter();
    lay_rows(
        alloc,
        canvas,
        row,
        frame.col as usize,
        frame.width,
        count,
        &mut rest,
    )
}

// The first cells of a line in a window, at most so many.
fn front_cells<K: KnownLines>(
    alloc: Global,
    frame: &Frame,
    line: &SceneLine,
    known: &K,
    most: usize,
) -> Result<Vec<Cell>, AllocError>
    requires wide { 0 < frame.now.width }
    requires stop { 0 < frame.now.tabstop }
    ensures { IfOk result (λ cells. cells.items ≡ take most (frame_cells frame.now line.now)) }
{
    if let Some(cells) = known.cells_of(line, frame.width, frame.tabstop, frame.looks) {
        return copy_front(alloc, cells, most);
    }
    first_cells(
        alloc,
        line.bytes.as_slice(),
        line.spans.as_slice(),
        frame.width,
        frame.tabstop,
        frame.looks,
        most,
    )
}

// Lays the rows of a line where there is room for so many, and gives the room that is left.
fn lay_line<K: KnownLines>(
    alloc: Global,
    canvas: &mut Canvas,
    frame: &Frame,
    room: u32,
    line: &SceneLine,
    known: &K,
) -> Result<u32, AllocError>
    requires wide { 0 < frame.now.width }
    requires stop { 0 < frame.now.tabstop }
    requires some { 0 < room }
    requires room { room ≤ frame.now.height }
    ensures less { IfOk result (λ left. left ≤ room) }
    ensures laid { IfOk result (λ left. (more : ℕ → List (List Cell)) → more 0 ≡ []
        → record canvas.new {
          rows = with_rows canvas.new.rows (row_at frame.now left)
              frame.now.col (more left);
        }
        ≡ record canvas.old {
          rows = with_rows canvas.old.rows (row_at frame.now room) frame.now.col
              (frame_line_rows frame.now room line.now more);
        }) }
{
    let most = (room as usize + 1) * frame.width as usize;
    let cells = front_cells(alloc, frame, line, known, most)?;
    let count = cells.len() / frame.width as usize;
    if count > room as usize {
        lay_cut_line(alloc, canvas, frame, room, cells)?;
        return Ok(0);
    }
    lay_whole_line(alloc, canvas, frame, room, count as u32, cells)?;
    Ok(room - count as u32)
}

/// Lays the rows of a window's text: those of its lines from the first on, the last one ending in
/// `@` where the line has more, and then `~`.
pub fn lay_text<K: KnownLines>(
    alloc: Global,
    canvas: &mut Canvas,
    frame: &Frame,
    lines: &[SceneLine],
    known: &K,
) -> Result<(), AllocError>
    requires wide { 0 < frame.now.width }
    requires stop { 0 < frame.now.tabstop }
    ensures { OnOk result (canvas.new ≡ record canvas.old {
      rows = with_rows canvas.old.rows frame.now.row frame.now.col
          (frame_rows frame.now frame.now.height lines.now);
    }) }
{
    let mut room = frame.height;
    for line in lines {
        if room == 0 {
            return Ok(());
        }
        room = lay_line(alloc, canvas, frame, room, line, known)?;
    }
    lay_beyond(alloc, canvas, frame, room)
}
