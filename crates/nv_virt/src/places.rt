//! Where a virtual text begins: a row of its line, and a column.

ghost use Rattle.nv_virt.specs.Texts.{eol_place, overlay_place, place_by, tail_of_line};
ghost use Rattle.nv_virt.specs.inside.Capped.{IsPlaceNear, capped_by};
ghost use Rattle.std.specs.Prelude.{◌≡◌, ◌<◌, ◌+◌, ◌-◌, ◌==◌, ◌&&◌, ℕ, IfOk, Option, length, min, nat_lt, not};

use nv_hl::Cell;
use nv_linedraw::{line_end, place_of_byte};
use nv_notes::At;
use std::alloc::{AllocError, Global};

/// A line of a window: its bytes, the columns of a row, the columns of a Tab, and how many rows of
/// it count.
#[derive(Clone, Copy)]
pub struct Line<'a> {
    pub bytes: &'a [u8],
    pub width: u32,
    pub tabstop: u32,
    pub most: u32,
}

// Whether a cell begins a row behind the first.
fn begins_row(row: u32, col: u32) -> bool
    ensures { result ≡ ((col == 0) && nat_lt 0 row) }
{
    col == 0 && row > 0
}

// The row of a line's last cell, and the column behind that: in a row that is full its width.
fn tail_of(alloc: Global, line: &Line) -> Result<(u32, u32), AllocError>
    requires wide { 0 < line.now.width }
    requires stop { 0 < line.now.tabstop }
    ensures { IfOk result (λ place. IsPlaceNear line.now.most line.now.width place
        (tail_of_line line.now.width line.now.tabstop line.now.bytes.now)) }
{
    let Some(most) = line.most.checked_add(1) else {
        return Err(AllocError);
    };
    let (row, col) = line_end(alloc, line.bytes, line.width, line.tabstop, most)?;
    if begins_row(row, col) {
        return Ok((row - 1, line.width));
    }
    Ok((row.min(line.most), col))
}

// Whether a byte is behind the line's last.
fn is_behind(line: &Line, byte: u32) -> bool
    ensures { result ≡ not (nat_lt byte (length line.now.bytes.now)) }
{
    byte as usize >= line.bytes.len()
}

// The first cell of the piece that holds a byte, or the place behind the line's last cell.
fn overlay_place(alloc: Global, line: &Line, byte: u32) -> Result<(u32, u32), AllocError>
    requires wide { 0 < line.now.width }
    requires stop { 0 < line.now.tabstop }
    ensures { IfOk result (λ place. IsPlaceNear line.now.most line.now.width place
        (overlay_place line.now.width line.now.tabstop line.now.bytes.now byte)) }
{
    if is_behind(line, byte) {
        return tail_of(alloc, line);
    }
    let (row, col) = place_of_byte(alloc, line.bytes, byte, line.width, line.tabstop, line.most)?;
    Ok((row, col))
}

// Behind the text before, if there is one, or else the line, after a free column.
fn eol_place(alloc: Global, line: &Line, before: Option<u32>) -> Result<(u32, u32), AllocError>
    requires wide { 0 < line.now.width }
    requires stop { 0 < line.now.tabstop }
    ensures { IfOk result (λ place. (ends : Option ℕ)
        → ((tail_of_line line.now.width line.now.tabstop line.now.bytes.now).0 < line.now.most
        → before ≡ capped_by line.now.width ends)
        → IsPlaceNear line.now.most line.now.width place
        (eol_place (tail_of_line line.now.width line.now.tabstop line.now.bytes.now) ends)) }
{
    let (row, col) = tail_of(alloc, line)?;
    let col = before.unwrap_or(col).saturating_add(1);
    Ok((row, col.min(line.width)))
}

// The column at which cells begin that end at the width, or the first one.
fn right_col(width: u32, cells: &[Cell]) -> u32
    ensures { result ≡ width - length cells.now }
{
    (width as usize).saturating_sub(cells.len()) as u32
}

/// Where a virtual text of these cells begins, of which one more than the width are enough, if the
/// text before it at the line's end ends at this column. Rows from `most` on count as `most`, and
/// columns from the width on as any of these.
pub fn place_of(
    alloc: Global,
    line: &Line,
    at: At,
    byte: u32,
    before: Option<u32>,
    shown: &[Cell],
) -> Result<(u32, u32), AllocError>
    requires wide { 0 < line.now.width }
    requires stop { 0 < line.now.tabstop }
    ensures { IfOk result (λ place. (ends : Option ℕ) (cells : ℕ)
        → ((tail_of_line line.now.width line.now.tabstop line.now.bytes.now).0 < line.now.most
        → before ≡ capped_by line.now.width ends)
        → length shown.now ≡ min (line.now.width + 1) cells
        → IsPlaceNear line.now.most line.now.width place
        (place_by line.now.width line.now.tabstop line.now.bytes.now at byte ends cells)) }
{
    match at {
        At::Eol => eol_place(alloc, line, before),
        At::Overlay => overlay_place(alloc, line, byte),
        At::RightAlign => Ok((0, right_col(line.width, shown))),
    }
}
