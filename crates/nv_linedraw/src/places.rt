//! Where a byte of a line stands.

ghost use Rattle.nv_linedraw.specs.LineCells.{cell_of_byte, cells_ahead, line_length};
ghost use Rattle.nv_linedraw.specs.inside.Placing.{StandsAt, cells_taken};
ghost use Rattle.std.specs.Prelude.{◌≡◌, ◌<◌, ◌≤◌, ◌+◌, ◌/◌, ◌%◌, ℕ, IfOk, min};

use crate::flow::stop_after;
use nv_text::{Kind, first_pieces};
use std::alloc::{AllocError, Global};

/// A cell of a line by its row and column. Rows are counted up to a greatest number.
#[derive(Clone, Copy)]
struct Place {
    row: u32,
    col: u32,
}

fn cells_ahead(width: u32, col: u32, kind: Kind) -> u32
    requires { col < width }
    ensures { result ≡ cells_ahead width col kind }
{
    match kind {
        Kind::Cluster(n) => {
            if n == 2 && width != 1 && col + 1 == width {
                1
            } else {
                0
            }
        }
        _ => 0,
    }
}

/// How many cells a piece takes from a column on, fillers counted, where a Tab takes so many.
fn cells_taken(width: u32, tab: u32, col: u32, kind: Kind) -> u32
    requires { col < width }
    ensures { result ≡ cells_taken width tab col kind }
{
    match kind {
        Kind::Tab => tab,
        Kind::Control(_) => 2,
        Kind::Escape(_) => 4,
        Kind::Cluster(2) => {
            if width == 1 {
                1
            } else if col + 1 == width {
                3
            } else {
                2
            }
        }
        Kind::Cluster(_) => 1,
    }
}

/// The place so many cells further on.
fn moved(place: Place, count: u32, width: u32, most: u32) -> Place
    requires { 0 < width }
    ensures { (cell : ℕ) → StandsAt width most place.row place.col cell
        → StandsAt width most result.row result.col (cell + count) }
{
    let cells = place.col as u64 + count as u64;
    let row = (place.row as u64 + cells / width as u64).min(most as u64);
    Place {
        row: row as u32,
        col: (cells % width as u64) as u32,
    }
}

/// The row and column of the first cell of the piece that holds a byte of a line, both counted from
/// 0, in rows of a width; the line's first cell where the byte lies behind its end. Rows from
/// `most` on count as `most`.
pub fn place_of_byte(
    alloc: Global,
    line: &[u8],
    byte: u32,
    width: u32,
    tabstop: u32,
    most: u32,
) -> Result<(u32, u32), AllocError>
    requires wide { 0 < width }
    requires stop { 0 < tabstop }
    ensures row { IfOk result (λ place. place.0
        ≡ min most (cell_of_byte width tabstop line.now byte / width)) }
    ensures col { IfOk result (λ place. place.1
        ≡ cell_of_byte width tabstop line.now byte % width) }
{
    let mut place = Place { row: 0, col: 0 };
    let mut stop = 0;
    let pieces = first_pieces(alloc, line, byte as usize + 1)?;
    for piece in pieces.as_slice() {
        if (byte as usize) < piece.to {
            let count = cells_ahead(width, place.col, piece.kind);
            let place = moved(place, count, width, most);
            return Ok((place.row, place.col));
        }
        let count = cells_taken(width, tabstop - stop, place.col, piece.kind);
        place = moved(place, count, width, most);
        stop = stop_after(tabstop, stop, piece.kind);
    }
    Ok((0, 0))
}

/// Where the next cell would stand behind the last one of a line, as a row and a column, both
/// counted from 0, in rows of a width: the number of its cells, fillers counted, by the width. Rows
/// from `most` on count as `most`, and then the column may be any.
pub fn line_end(
    alloc: Global,
    line: &[u8],
    width: u32,
    tabstop: u32,
    most: u32,
) -> Result<(u32, u32), AllocError>
    requires wide { 0 < width }
    requires stop { 0 < tabstop }
    ensures row { IfOk result (λ place. place.0
        ≡ min most (line_length width tabstop line.now / width)) }
    ensures col { IfOk result (λ place. place.0 < most → place.1
        ≡ line_length width tabstop line.now % width) }
{
    let mut place = Place { row: 0, col: 0 };
    let mut stop = 0;
    let pieces = first_pieces(alloc, line, most as usize * width as usize)?;
    for piece in pieces.as_slice() {
        let count = cells_taken(width, tabstop - stop, place.col, piece.kind);
        place = moved(place, count, width, most);
        stop = stop_after(tabstop, stop, piece.kind);
    }
    Ok((place.row, place.col))
}
