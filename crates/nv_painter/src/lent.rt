//! Rows of cells that are lent.

ghost use Rattle.nv_painter.specs.inside.Lent.{AreLent, DifferBetween, IsFound, IsLikeBut, IsLone, IsOfLine, cells_lent, lent_cells, lent_content, lent_rows, placed_cells, placed_rows, plain_cells, row_of_key};
ghost use Rattle.nv_hl.specs.declared.cell.Cell.{Cell as SpecCell};
ghost use Rattle.nv_screen.specs.Drawing.{drawn_rows, pane_rows};
ghost use Rattle.nv_screen.specs.Sound.{IsDrawable, IsSoundScene};
ghost use Rattle.std.specs.Prelude.{◌≡◌, ◌<◌, ◌≤◌, ◌+◌, ◌-◌, ◌*◌, ◌^◌, [], All, List, ℕ, IfOk, IfSome, IsTrue, drop, get_or, length, take};

use crate::kept::{KeptLines, lent_key};
use crate::key::LentKey;
use nv_hl::{Cell, Row};
use nv_linedraw::{Looks, is_plain};
use nv_screen::{Pane, Scene};
use std::alloc::{AllocError, Global};

/// Cells, lent.
#[derive(Clone, Copy)]
pub enum LentCells<'a> {
    /// As they were drawn.
    Drawn(&'a [Cell]),
    /// So many, each of a byte, and of a space behind the last byte, without an attribute.
    Plain(&'a [u8], u32),
}

impl<'a> LentCells<'a> {
    /// How many there are.
    pub fn len(&self) -> usize
        ensures { result ≡ length (cells_lent self.now) }
    {
        match self {
            LentCells::Drawn(cells) => cells.len(),
            LentCells::Plain(bytes, width) => plain_count(bytes, *width),
        }
    }
}

/// How many cells bytes are, with spaces behind them where they are fewer than `width`.
pub fn plain_count(bytes: &[u8], width: u32) -> usize
    ensures { result ≡ length (plain_cells width bytes.now) }
{
    bytes.len() + (width as usize).saturating_sub(bytes.len())
}

/// A row of cells, lent.
#[derive(Clone, Copy)]
pub struct LentRow<'a> {
    /// None where they aren't known.
    pub cells: LentCells<'a>,
    /// The line that it is of, where that is known.
    pub line: Option<LentKey<'a>>,
    /// Its number among the rows of the line.
    pub number: usize,
}

// Whether a row is so many cells of these bytes.
fn is_plain_row(row: &LentRow, bytes: &[u8], width: u32) -> bool
    requires { IsOfLine row.now }
    ensures same { IsTrue result → plain_cells width bytes.now ≡ placed_cells row.now }
    ensures some { IsTrue result → 0 < length (placed_cells row.now) }
{
    let LentCells::Plain(other, all) = row.cells else {
        return false;
    };
    if all != width {
        return false;
    }
    if bytes.is_empty() {
        return false;
    }
    other == bytes
}

// Whether both are the same row of the same line.
fn is_same_of_line(a: &LentRow, b: &LentRow) -> bool
    requires { IsOfLine b.now }
    ensures same { IsTrue result → placed_cells a.now ≡ placed_cells b.now }
    ensures some { IsTrue result → 0 < length (placed_cells b.now) }
{
    if a.number != b.number {
        return false;
    }
    let Some(old) = a.line else {
        return false;
    };
    let Some(new) = b.line else {
        return false;
    };
    old == new
}

/// Whether both surely have the same cells: the same bytes, or the same row of the same line.
pub fn is_same_row(a: &LentRow, b: &LentRow) -> bool
    requires old { IsOfLine a.now }
    requires new { IsOfLine b.now }
    ensures same { IsTrue result → placed_cells a.now ≡ placed_cells b.now }
    ensures some { IsTrue result → 0 < length (placed_cells b.now) }
{
    match a.cells {
        LentCells::Plain(bytes, width) => is_plain_row(b, bytes, width),
        LentCells::Drawn(_) => is_same_of_line(a, b),
    }
}

// Whether a line without spans is one row of printable characters of ASCII, with spaces behind.
fn is_lone(key: &LentKey) -> bool
    ensures { IsTrue result → IsLone (lent_content key.now) }
{
    let count = key.bytes.len();
    0 < count && count < key.width as usize && key.spans.is_empty() && is_plain(key.bytes, count)
}

// How many bytes from the first on are the same.
fn same_front(a: &[u8], b: &[u8]) -> usize
    ensures a { result ≤ length a.now }
    ensures b { result ≤ length b.now }
    ensures same { take result a.now ≡ take result b.now }
{
    let end = a.len().min(b.len());
    for k in 0..end {
        if a[k] != b[k] {
            return k;
        }
    }
    end
}

// How many bytes are compared at once.
const BLOCK: usize = 16;

// Whether the blocks are the same that end before a byte.
fn are_same_blocks(a: &[u8], b: &[u8], end: usize) -> bool
    requires end { end ≤ length a.now }
    requires count { length a.now ≡ length b.now }
    requires some { 16 ≤ end }
    ensures { IsTrue result → drop end a.now ≡ drop end b.now
        → drop (end - 16) a.now ≡ drop (end - 16) b.now }
{
    let start = end - BLOCK;
    a[start..end] == b[start..end]
}

// From which byte on texts of one length are the same, block by block; none in front of `from` is
// looked at.
fn same_blocks(a: &[u8], b: &[u8], from: usize) -> usize
    requires from { from ≤ length a.now }
    requires count { length a.now ≡ length b.now }
    ensures order { from ≤ result }
    ensures within { result ≤ length a.now }
    ensures same { drop result a.now ≡ drop result b.now }
{
    let mut end = a.len();
    'comparing: while end - from >= BLOCK {
        if !are_same_blocks(a, b, end) {
            return end;
        }
        end -= BLOCK;
    }
    end
}

// From which byte on texts of one length are the same; none in front of `from` is looked at.
fn same_back(a: &[u8], b: &[u8], from: usize) -> usize
    requires from { from ≤ length a.now }
    requires count { length a.now ≡ length b.now }
    ensures order { from ≤ result }
    ensures within { result ≤ length a.now }
    ensures same { drop result a.now ≡ drop result b.now }
{
    for k in (from..same_blocks(a, b, from)).rev() {
        if a[k] != b[k] {
            return k + 1;
        }
    }
    from
}

// The places between which texts differ, where spaces stand behind them.
fn places_between(a: &[u8], b: &[u8]) -> (usize, usize)
    ensures { DifferBetween a.now b.now result.0 result.1 }
{
    let from = same_front(a, b);
    if a.len() == b.len() {
        return (from, same_back(a, b, from));
    }
    (from, a.len().max(b.len()))
}

/// The places between which two rows may differ, where that can be told by their bytes.
pub fn places_of(a: &LentRow, b: &LentRow) -> Option<(usize, usize)>
    requires { IsOfLine a.now }
    ensures { IfSome result (λ d. IsLikeBut (placed_cells a.now) (lent_cells b.now) d.0 d.1) }
{
    let LentCells::Plain(old, before) = a.cells else {
        return None;
    };
    let LentCells::Plain(new, width) = b.cells else {
        return None;
    };
    if before != width || old.len() >= width as usize || new.len() >= width as usize {
        return None;
    }
    Some(places_between(old, new))
}

/// Rows, lent.
pub fn lend(alloc: Global, rows: &[Row]) -> Result<Vec<LentRow<'_>>, AllocError>
    ensures { IfOk result (λ lent. lent_rows lent.items ≡ rows.now) }
{
    let mut lent = Vec::with_capacity(alloc, rows.len())?;
    for row in rows {
        lent.push(LentRow {
            cells: LentCells::Drawn(row.cells()),
            line: None,
            number: 0,
        })?;
    }
    Ok(lent)
}

// So many rows of no line.
fn no_rows<'a>(alloc: Global, count: u32) -> Result<Vec<LentRow<'a>>, AllocError>
    ensures count { IfOk result (λ rows. length rows.items ≡ count) }
    ensures none { IfOk result (λ rows. (screen : List (List SpecCell))
        → AreLent (placed_rows rows.items) screen) }
    ensures lines { IfOk result (λ rows. All IsOfLine rows.items) }
{
    let mut rows = Vec::with_capacity(alloc, count as usize)?;
    for _ in 0..count {
        rows.push(LentRow {
            cells: LentCells::Drawn(&[]),
            line: None,
            number: 0,
        })?;
    }
    Ok(rows)
}

// The row of a line that has this number; none where there are no cells.
fn row_in(cells: &[Cell], number: usize, width: usize) -> &[Cell]
    requires { number * width < 2 ^ 64 }
    ensures { result.now ≡ take width (drop (number * width) cells.now) }
{
    let from = (number * width).min(cells.len());
    let rest = &cells[from..];
    &rest[..width.min(rest.len())]
}

// The same where cells may be bytes, which are one row.
fn lent_row_in(cells: LentCells<'_>, number: usize, width: u32) -> LentCells<'_>
    requires { number * width < 2 ^ 64 }
    ensures { 0 < length (cells_lent result)
        → cells_lent result ≡ take width (drop (number * width) (cells_lent cells.entry)) }
{
    match cells {
        LentCells::Drawn(cells) => LentCells::Drawn(row_in(cells, number, width as usize)),
        LentCells::Plain(bytes, all) => plain_row_in(bytes, all, number, width),
    }
}

// The same of bytes.
fn plain_row_in(bytes: &[u8], all: u32, number: usize, width: u32) -> LentCells<'_>
    ensures { 0 < length (cells_lent result)
        → cells_lent result ≡ take width (drop (number * width) (plain_cells all bytes.now)) }
{
    if number != 0 || all != width || bytes.len() > width as usize {
        return LentCells::Drawn(&[]);
    }
    LentCells::Plain(bytes, all)
}

// Lends the rows of a line from a row of the screen on.
fn lend_line<'a>(
    rows: &mut Vec<LentRow<'a>>,
    key: LentKey<'a>,
    cells: LentCells<'a>,
    at: usize,
    count: usize,
)
    requires wide { 0 < key.width }
    requires few { count < 2 ^ 32 }
    ensures count { length rows.new.items ≡ length rows.old.items }
    ensures lent { (screen : List (List SpecCell))
        → ((k : ℕ) → k < count
        → row_of_key (lent_content key.entry) k ≡ get_or screen (at + k) [])
        → AreLent (placed_rows rows.old.items) screen
        → AreLent (placed_rows rows.new.items) screen }
    ensures lines { IsFound (lent_content key.entry) (cells_lent cells.entry) count
        → All IsOfLine rows.old.items → All IsOfLine rows.new.items }
{
    let end = count.min(rows.len().saturating_sub(at));
    for k in 0..end {
        rows[at + k] = LentRow {
            cells: lent_row_in(cells, k, key.width),
            line: Some(key),
            number: k,
        };
    }
}

// The cells of a line, where they are kept, and how many rows it has. Those of a line that is
// surely one row are its bytes.
fn find_rows<'a>(kept: &'a KeptLines, key: LentKey<'a>) -> Option<(LentCells<'a>, usize)>
    requires { 0 < key.width }
    ensures { IfSome result (λ rows. IsFound (lent_content key.entry) (cells_lent rows.0) rows.1) }
{
    if is_lone(&key) {
        return Some((LentCells::Plain(key.bytes, key.width), 1));
    }
    match kept.find(key) {
        Some(cells) => Some((LentCells::Drawn(cells), cells.len() / key.width as usize)),
        None => None,
    }
}

// Lends the rows of a window's text as far as the rows of its lines are known and all of them fit;
// of none that is `end` or stands below it.
fn lend_pane<'a>(
    rows: &mut Vec<LentRow<'a>>,
    kept: &'a KeptLines,
    pane: &'a Pane,
    looks: &'a Looks,
    end: usize,
)
    requires { IsDrawable pane.now }
    ensures count { length rows.new.items ≡ length rows.old.items }
    ensures lent { (screen : List (List SpecCell))
        → ((k : ℕ) → k < pane.now.rect.height
        → get_or (pane_rows looks.now pane.now) k [] ≡ get_or screen (pane.now.rect.row + k) [])
        → AreLent (placed_rows rows.old.items) screen
        → AreLent (placed_rows rows.new.items) screen }
    ensures lines { All IsOfLine rows.old.items → All IsOfLine rows.new.items }
{
    let mut room = pane.rect.height;
    for line in pane.lines.as_slice() {
        let at = pane.rect.row as usize + (pane.rect.height - room) as usize;
        if at >= end {
            return;
        }
        let key = lent_key(line, pane.rect.width, pane.tabstop, looks);
        let Some((cells, count)) = find_rows(kept, key) else {
            return;
        };
        if count > room as usize {
            return;
        }
        lend_line(rows, key, cells, at, count);
        room -= count as u32;
    }
}

// The same where the window is as wide as the screen.
fn lend_wide<'a>(
    rows: &mut Vec<LentRow<'a>>,
    kept: &'a KeptLines,
    width: u32,
    pane: &'a Pane,
    looks: &'a Looks,
    end: usize,
)
    requires { IsDrawable pane.now }
    ensures count { length rows.new.items ≡ length rows.old.items }
    ensures lent { (screen : List (List SpecCell))
        → (pane.now.rect.col ≡ 0 → pane.now.rect.width ≡ width
        → (k : ℕ) → k < pane.now.rect.height
        → get_or (pane_rows looks.now pane.now) k [] ≡ get_or screen (pane.now.rect.row + k) [])
        → AreLent (placed_rows rows.old.items) screen
        → AreLent (placed_rows rows.new.items) screen }
    ensures lines { All IsOfLine rows.old.items → All IsOfLine rows.new.items }
{
    if pane.rect.col != 0 {
        return;
    }
    if pane.rect.width != width {
        return;
    }
    lend_pane(rows, kept, pane, looks, end);
}

/// As many rows as a scene has. Of windows as wide as the screen it is told which row of which line
/// each is, where the lines above are kept or one row each; of no line that begins in row `end` or
/// below it.
pub fn lent_rows<'a>(
    alloc: Global,
    kept: &'a KeptLines,
    scene: &'a Scene,
    end: usize,
) -> Result<Vec<LentRow<'a>>, AllocError>
    requires { IsSoundScene scene.now }
    ensures count { IfOk result (λ rows. length rows.items ≡ scene.now.height) }
    ensures lent { IfOk result (λ rows. AreLent (placed_rows rows.items) (drawn_rows scene.now)) }
    ensures lines { IfOk result (λ rows. All IsOfLine rows.items) }
{
    let mut rows = no_rows(alloc, scene.height)?;
    if !scene.patches.is_empty() {
        return Ok(rows);
    }
    for pane in scene.panes.as_slice() {
        lend_wide(&mut rows, kept, scene.width, pane, &scene.looks, end);
    }
    Ok(rows)
}
