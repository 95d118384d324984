//! The cell of the cursor.

ghost use Rattle.nv_screen.specs.Cursor.{bytes_at, cursor_in_pane, cursor_of_scene, rows_together};
ghost use Rattle.nv_screen.specs.Sound.{IsInReach};
ghost use Rattle.std.specs.Prelude.{◌≡◌, ◌<◌, ◌≤◌, All, IfOk, min};

use crate::scene::{Pane, Scene, SceneLine, Spot};
use nv_linedraw::{first_rows, place_of_byte};
use std::alloc::{AllocError, Global};

// The rows of lines, or `most` where there are more.
fn rows_together(
    alloc: Global,
    lines: &[SceneLine],
    width: u32,
    tabstop: u32,
    most: u32,
) -> Result<u32, AllocError>
    requires wide { 0 < width }
    requires stop { 0 < tabstop }
    ensures { IfOk result (λ n. n ≡ min most (rows_together width tabstop lines.now)) }
{
    let mut rows = 0;
    for line in lines {
        if rows >= most {
            return Ok(most);
        }
        rows += first_rows(alloc, line.bytes.as_slice(), width, tabstop, most - rows)?;
    }
    Ok(rows)
}

/// The bytes of a line by its place among lines; none past the last one.
pub fn bytes_at(lines: &[SceneLine], at: usize) -> &[u8]
    ensures { result.now ≡ bytes_at lines.now at }
{
    if at >= lines.len() {
        return &[];
    }
    lines[at].bytes.as_slice()
}

fn cursor_in_pane(alloc: Global, pane: &Pane, cursor: &Spot) -> Result<(u32, u32), AllocError>
    requires { IsInReach pane.now }
    ensures { IfOk result (λ cell. cell ≡ cursor_in_pane pane.now cursor.now) }
{
    let rect = pane.rect;
    let lines = pane.lines.as_slice();
    let at = cursor.row.saturating_sub(pane.top) as usize;
    let (front, _) = lines.split_at(at.min(lines.len()));
    let above = rows_together(alloc, front, rect.width, pane.tabstop, rect.height)?;
    let bytes = bytes_at(lines, at);
    let most = rect.height;
    let (row, col) = place_of_byte(alloc, bytes, cursor.byte, rect.width, pane.tabstop, most)?;
    let row = (above as u64 + row as u64).min(rect.height.saturating_sub(1) as u64);
    Ok((rect.row + row as u32, rect.col + col))
}

/// The row and column, both counted from 0, of the cell that has the cursor: the first cell of the
/// piece of its line that holds its byte, or the line's first cell; in a row past the window, the
/// window's last row.
pub fn cursor_cell(alloc: Global, scene: &Scene) -> Result<(u32, u32), AllocError>
    requires { All IsInReach scene.now.panes.items }
    ensures { IfOk result (λ cell. cell ≡ cursor_of_scene scene.now) }
{
    for pane in scene.panes.as_slice() {
        if pane.window == scene.cursor.window {
            return cursor_in_pane(alloc, pane, &scene.cursor);
        }
    }
    Ok((0, 0))
}
