//! Whole lines as cells.

ghost use Rattle.nv_hl.specs.Attributes.{empty_attr};
ghost use Rattle.nv_hl.specs.Cells.{space};
ghost use Rattle.nv_linedraw.specs.LineCells.{cells_of_line, filling, rest_attr, rows_of_line};
ghost use Rattle.nv_linedraw.specs.inside.DrawnCells.{PiecesAreLaid, line_flow};
ghost use Rattle.nv_linedraw.specs.inside.Plain.{byte_cell, plain_filling, plain_line};
ghost use Rattle.std.specs.Int.{is_in_range};
ghost use Rattle.std.specs.List.{list_all};
ghost use Rattle.std.specs.Prelude.{◌≡◌, ◌<◌, ◌≤◌, ◌+◌, ◌/◌, ◌++◌, ◌==◌, true, All, IfOk, IsTrue, OnOk, length, map, min, replicate, take};

use crate::flow::{Drawn, Flow, rest_attr};
use crate::looks::{Looks, Span};
use crate::spans::spans_among;
use nv_hl::{Attr, Cell};
use nv_text::{Piece, first_pieces};
use std::alloc::{AllocError, Global};

// How many spaces fill the last row, where its cells end before this column.
fn filling(width: u32, none: bool, col: u32) -> u32
    requires { col < width }
    ensures { result ≡ filling width none col }
{
    if none {
        width
    } else if col == 0 {
        0
    } else {
        width - col
    }
}

fn put_blanks(cells: &mut Vec<Cell>, n: u32, d: &Drawn) -> Result<(), AllocError>
    ensures { OnOk result (cells.new.items ≡ cells.old.items
        ++ replicate n (space (rest_attr d.now.spans.now (length d.now.line.now)))) }
{
    let attr = rest_attr(d.spans, d.line.len());
    for _ in 0..n {
        cells.push(Cell::space(attr))?;
    }
    Ok(())
}

// Of at most so many spans each piece looks at all.
const FEW_SPANS: usize = 16;

// At most so many pieces look at all spans each.
const FEW_PIECES: usize = 8;

/// Lays pieces until there are so many cells. `stop` cells of the line stand behind the last tab
/// stop; gives how many do then.
fn lay_each(
    flow: &mut Flow,
    alloc: Global,
    d: &Drawn,
    pieces: &[Piece],
    mut stop: u32,
    most: usize,
) -> Result<u32, AllocError>
    requires within { flow.old.col < d.now.width }
    requires stop { stop < d.now.tabstop }
    requires pieces { All (λ p. (p.from < p.to) × (p.to ≤ length d.now.line.now)) pieces.now }
    ensures laid { IfOk result (λ after. PiecesAreLaid d.now most pieces.now
        (line_flow flow.old stop) (line_flow flow.new after)) }
    ensures within { flow.new.col < d.now.width }
    ensures stop_within { IfOk result (λ after. after < d.now.tabstop) }
{
    for piece in pieces {
        stop = flow.put_piece(alloc, d, *piece, stop)?;
        if most <= flow.cells.len() {
            return Ok(stop);
        }
    }
    Ok(stop)
}

/// Lays pieces until there are so many cells. `stop` cells of the line stand behind the last tab
/// stop; gives how many do then. Of many spans each half of the pieces looks only at those that
/// reach into it, so none is looked at more often than the logarithm of the number of pieces says.
pub fn lay_pieces(
    flow: &mut Flow,
    alloc: Global,
    d: &Drawn,
    pieces: &[Piece],
    stop: u32,
    most: usize,
) -> Result<u32, AllocError>
    requires within { flow.old.col < d.now.width }
    requires stop { stop < d.now.tabstop }
    requires pieces { All (λ p. (p.from < p.to) × (p.to ≤ length d.now.line.now)) pieces.now }
    ensures laid { IfOk result (λ after. PiecesAreLaid d.now most pieces.now
        (line_flow flow.old stop) (line_flow flow.new after)) }
    ensures within { flow.new.col < d.now.width }
    ensures stop_within { IfOk result (λ after. after < d.now.tabstop) }
{
    if d.spans.len() <= FEW_SPANS || pieces.len() <= FEW_PIECES {
        return lay_each(flow, alloc, d, pieces, stop, most);
    }
    let spans = spans_among(alloc, d.spans, pieces)?;
    let among = Drawn {
        spans: spans.as_slice(),
        ..*d
    };
    let (front, back) = pieces.split_at(pieces.len() / 2);
    let middle = lay_pieces(flow, alloc, &among, front, stop, most)?;
    if most <= flow.cells.len() {
        return Ok(middle);
    }
    let end = lay_pieces(flow, alloc, &among, back, middle, most)?;
    Ok(end)
}

/// Fills the last row, unless there are so many cells already.
fn fill(flow: &mut Flow, d: &Drawn, most: usize) -> Result<(), AllocError>
    requires within { flow.old.col < d.now.width }
    ensures kept { most ≤ length flow.old.cells.items
        → flow.new.cells.items ≡ flow.old.cells.items }
    ensures filled { length flow.old.cells.items < most
        → OnOk result (flow.new.cells.items ≡ flow.old.cells.items
        ++ replicate (filling d.now.width (length d.now.line.now == 0) flow.old.col)
        (space (rest_attr d.now.spans.now (length d.now.line.now)))) }
{
    if most <= flow.cells.len() {
        return Ok(());
    }
    let n = filling(d.width, d.line.is_empty(), flow.col);
    put_blanks(&mut flow.cells, n, d)
}

// Whether all bytes are printable characters of ASCII.
fn are_printable(bytes: &[u8]) -> bool
    ensures { IsTrue result → list_all (is_in_range 0x20 0x7E) bytes.now ≡ true }
{
    let mut plain = true;
    for byte in bytes {
        plain &= (0x20..=0x7E).contains(byte);
    }
    plain
}

// How many bytes are looked at at once.
const BLOCK: usize = 16;

// The same of a block's bytes or more: block by block, the last of which may share bytes with the
// one before.
fn are_printable_blocks(bytes: &[u8]) -> bool
    requires { 16 ≤ length bytes.now }
    ensures { IsTrue result → list_all (is_in_range 0x20 0x7E) bytes.now ≡ true }
{
    let end = bytes.len() - BLOCK;
    let mut at = 0;
    'looking: while at < end {
        if !are_printable(&bytes[at..at + BLOCK]) {
            return false;
        }
        at += BLOCK;
    }
    are_printable(&bytes[end..end + BLOCK])
}

/// Whether a line has at most so many bytes, all of them printable characters of ASCII, each of
/// which is a cell by itself. Of a longer line no byte is looked at.
pub fn is_plain(line: &[u8], most: usize) -> bool
    ensures { IsTrue result → list_all (is_in_range 0x20 0x7E) line.now ≡ true }
{
    if most < line.len() {
        return false;
    }
    if line.len() < BLOCK {
        return are_printable(line);
    }
    are_printable_blocks(line)
}

// How many spaces fill the last row of so many cells, each by itself.
fn plain_filling(count: usize, width: u32) -> u32
    requires { 0 < width }
    ensures { result ≡ plain_filling width count }
{
    filling(width, count == 0, (count % width as usize) as u32)
}

// Puts each byte as a cell without an attribute.
fn put_plain(cells: &mut Vec<Cell>, bytes: &[u8]) -> Result<(), AllocError>
    ensures { OnOk result (cells.new.items ≡ cells.old.items ++ map byte_cell bytes.now) }
{
    for byte in bytes {
        cells.push(Cell::from_byte(*byte, Attr::EMPTY))?;
    }
    Ok(())
}

// Puts so many spaces without an attribute.
fn put_spaces(cells: &mut Vec<Cell>, count: usize) -> Result<(), AllocError>
    ensures { OnOk result (cells.new.items
        ≡ cells.old.items ++ replicate count (space empty_attr)) }
{
    for _ in 0..count {
        cells.push(Cell::space(Attr::EMPTY))?;
    }
    Ok(())
}

// The first cells of a plain line without spans, at most so many.
fn plain_cells(alloc: Global, line: &[u8], width: u32, most: usize) -> Result<Vec<Cell>, AllocError>
    requires { 0 < width }
    ensures { IfOk result (λ c. c.items ≡ take most (plain_line width line.now)) }
{
    let count = line.len();
    if most <= count {
        let mut cells = Vec::with_capacity(alloc, most)?;
        put_plain(&mut cells, &line[..most])?;
        return Ok(cells);
    }
    let blanks = (plain_filling(count, width) as usize).min(most - count);
    let mut cells = Vec::with_capacity(alloc, count.saturating_add(blanks))?;
    put_plain(&mut cells, line)?;
    put_spaces(&mut cells, blanks)?;
    Ok(cells)
}

// The number of rows of a width that so many cells take, each by itself, or `most` where they take
// more.
fn plain_rows(count: usize, width: u32, most: u32) -> u32
    requires { 0 < width }
    ensures { result ≡ min most ((count + plain_filling width count) / width) }
{
    if count == 0 {
        return most.min(1);
    }
    let full = count / width as usize;
    if count % width as usize == 0 {
        return full.min(most as usize) as u32;
    }
    full.saturating_add(1).min(most as usize) as u32
}

/// The first cells of a line in rows of a width, at most so many, one row behind another. What lies
/// behind them isn't looked at.
pub fn first_cells(
    alloc: Global,
    line: &[u8],
    spans: &[Span],
    width: u32,
    tabstop: u32,
    looks: &Looks,
    most: usize,
) -> Result<Vec<Cell>, AllocError>
    requires wide { 0 < width }
    requires stop { 0 < tabstop }
    ensures { IfOk result (λ c. c.items ≡ take most
        (cells_of_line width tabstop line.now spans.now looks.now)) }
{
    if spans.is_empty() && is_plain(line, most) {
        let cells = plain_cells(alloc, line, width, most)?;
        return Ok(cells);
    }
    let d = Drawn {
        line,
        spans,
        looks,
        width,
        tabstop,
    };
    let room = line.len().saturating_add(width as usize).min(most);
    let mut flow = Flow {
        cells: Vec::with_capacity(alloc, room)?,
        col: 0,
    };
    let pieces = first_pieces(alloc, line, most)?;
    lay_pieces(&mut flow, alloc, &d, pieces.as_slice(), 0, most)?;
    fill(&mut flow, &d, most)?;
    let mut cells = flow.cells;
    cells.truncate(most);
    Ok(cells)
}

/// The cells of a line in rows of a width, one row behind another: a multiple of the width, and at
/// least one row.
pub fn cells(
    alloc: Global,
    line: &[u8],
    spans: &[Span],
    width: u32,
    tabstop: u32,
    looks: &Looks,
) -> Result<Vec<Cell>, AllocError>
    requires wide { 0 < width }
    requires stop { 0 < tabstop }
    ensures { IfOk result
        (λ c. c.items ≡ cells_of_line width tabstop line.now spans.now looks.now) }
{
    let cells = first_cells(alloc, line, spans, width, tabstop, looks, usize::MAX)?;
    Ok(cells)
}

/// The number of rows of a width that a line has, or `most` where it has more. What lies behind so
/// many rows isn't looked at.
pub fn first_rows(
    alloc: Global,
    line: &[u8],
    width: u32,
    tabstop: u32,
    most: u32,
) -> Result<u32, AllocError>
    requires wide { 0 < width }
    requires stop { 0 < tabstop }
    ensures { IfOk result (λ n. n ≡ min most (rows_of_line width tabstop line.now)) }
{
    let count = most as usize * width as usize;
    if is_plain(line, count) {
        return Ok(plain_rows(line.len(), width, most));
    }
    let looks = Looks {
        nontext: Attr::EMPTY,
        special: Attr::EMPTY,
        beyond: Attr::EMPTY,
    };
    let cells = first_cells(alloc, line, &[], width, tabstop, &looks, count)?;
    Ok((cells.len() / width as usize) as u32)
}

/// The number of rows of a width that a line has, at least 1; 4,294,967,295 where it has more.
pub fn rows(alloc: Global, line: &[u8], width: u32, tabstop: u32) -> Result<u32, AllocError>
    requires wide { 0 < width }
    requires stop { 0 < tabstop }
    ensures { IfOk result (λ n. n ≡ min 4_294_967_295 (rows_of_line width tabstop line.now)) }
{
    first_rows(alloc, line, width, tabstop, u32::MAX)
}
