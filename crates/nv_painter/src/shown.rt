//! What a client shows: rows of cells with the ids of their attributes.

ghost use Rattle.nv_linegrid.specs.Client.{row_with};
ghost use Rattle.nv_linegrid.specs.Rows.{same_shown};
ghost use Rattle.nv_linegrid.specs.Told.{blank_shown_rows};
ghost use Rattle.nv_painter.specs.inside.Plain.{plain_shown};
ghost use Rattle.std.specs.Prelude.{◌≡◌, ◌≤◌, ◌+◌, ◌-◌, ◌∷◌, ℕ, [], IfOk, None, Some, drop, get_or, length, replicate, take};

use nv_hl::CellText;
use std::alloc::{AllocError, Global};
use std::marker::Model;

/// A cell that is shown: its text, and the id of its attribute.
#[derive(Drop)]
pub struct ShownCell {
    pub text: CellText,
    pub id: u64,
}

impl Model for ShownCell {
    ghost use Rattle.nv_linegrid.specs.Client.{Shown};

    ghost Value = { Shown };

    ghost view = { λ c. record { text = c.text; id = c.id } };
}

impl ShownCell {
    /// A cell with a text and an id.
    pub fn new(text: CellText, id: u64) -> ShownCell
        ensures { result ≡ record { text = text; id = id } }
    {
        ShownCell { text, id }
    }

    /// Whether both have the same text and the same id.
    pub fn is_same(&self, other: &ShownCell) -> bool
        ensures { result ≡ same_shown self.now other.now }
    {
        self.id == other.id && self.text.is_same(&other.text)
    }

    /// A copy.
    pub fn copy(&self, alloc: Global) -> Result<ShownCell, AllocError>
        ensures { IfOk result (λ c. c ≡ self.now) }
    {
        let text = self.text.copy(alloc)?;
        Ok(ShownCell { text, id: self.id })
    }
}

/// A row of cells, some of which may be unknown.
#[derive(Drop)]
pub struct ShownRow {
    cells: Vec<Option<ShownCell>>,
}

impl Model for ShownRow {
    ghost use Rattle.std.specs.Prelude.{List, Option};
    ghost use Rattle.nv_linegrid.specs.Client.{Shown};

    ghost Value = { List (Option Shown) };

    ghost view = { λ r. r.cells.items };
}

fn unknown_cells(alloc: Global, width: u32) -> Result<Vec<Option<ShownCell>>, AllocError>
    ensures { IfOk result (λ cells. cells.items ≡ replicate width None) }
{
    let mut cells = Vec::with_capacity(alloc, width as usize)?;
    for _ in 0..width {
        cells.push(None)?;
    }
    Ok(cells)
}

// Puts cells in place of those from a place on, as far as there are some.
fn put_cells(row: &mut Vec<Option<ShownCell>>, at: usize, cells: Vec<ShownCell>)
    ensures { at + length cells.items ≤ length row.old.items
        → row.new.items ≡ row_with row.old.items at cells.items }
{
    let mut place = at;
    for cell in cells {
        if place >= row.len() {
            return;
        }
        row[place] = Some(cell);
        place += 1;
    }
}

/// The byte that the cell at a place shows, of bytes with spaces behind them.
pub fn byte_at(bytes: &[u8], at: usize) -> u8
    ensures { result ≡ get_or bytes.now at 32 }
{
    if at < bytes.len() { bytes[at] } else { b' ' }
}

// Puts bytes from one place to before another, each in a cell without an attribute.
fn put_bytes(row: &mut Vec<Option<ShownCell>>, bytes: &[u8], first: usize, end: usize)
    requires { first ≤ end }
    ensures { (width : ℕ) → end ≤ length (plain_shown width bytes.now)
        → end ≤ length row.old.items → row.new.items ≡ row_with row.old.items first
        (take (end - first) (drop first (plain_shown width bytes.now))) }
{
    for k in first..end {
        if k >= row.len() {
            return;
        }
        row[k] = Some(ShownCell::new(CellText::from_byte(byte_at(bytes, k)), 0));
    }
}

fn blank_cells(alloc: Global, width: u32) -> Result<Vec<Option<ShownCell>>, AllocError>
    ensures { IfOk result
        (λ cells. cells.items ≡ replicate width (Some (record { text = 32 ∷ []; id = 0 }))) }
{
    let mut cells = Vec::with_capacity(alloc, width as usize)?;
    for _ in 0..width {
        cells.push(Some(ShownCell::new(CellText::from_byte(b' '), 0)))?;
    }
    Ok(cells)
}

impl ShownRow {
    /// A row of these cells.
    pub fn new(cells: Vec<Option<ShownCell>>) -> ShownRow
        ensures { result ≡ cells.items }
    {
        ShownRow { cells }
    }

    /// Puts cells in place of its own from a column on.
    pub fn put(&mut self, col: usize, cells: Vec<ShownCell>)
        ensures { col + length cells.items ≤ length self.old
            → self.new ≡ row_with self.old col cells.items }
    {
        put_cells(&mut self.cells, col, cells);
    }

    /// Puts bytes from one column to before another, each in a cell without an attribute.
    pub fn put_bytes(&mut self, bytes: &[u8], first: usize, end: usize)
        requires { first ≤ end }
        ensures { (width : ℕ) → end ≤ length (plain_shown width bytes.now)
            → end ≤ length self.old → self.new ≡ row_with self.old first
            (take (end - first) (drop first (plain_shown width bytes.now))) }
    {
        put_bytes(&mut self.cells, bytes, first, end);
    }

    /// A row of so many unknown cells.
    pub fn unknown(alloc: Global, width: u32) -> Result<ShownRow, AllocError>
        ensures { IfOk result (λ row. row ≡ replicate width None) }
    {
        let cells = unknown_cells(alloc, width)?;
        Ok(ShownRow { cells })
    }

    /// A row of spaces without an attribute.
    pub fn blank(alloc: Global, width: u32) -> Result<ShownRow, AllocError>
        ensures { IfOk result
            (λ row. row ≡ replicate width (Some (record { text = 32 ∷ []; id = 0 }))) }
    {
        let cells = blank_cells(alloc, width)?;
        Ok(ShownRow { cells })
    }

    /// Its cells from the left.
    pub fn cells(&self) -> &[Option<ShownCell>]
        ensures { result.now ≡ self.now }
    {
        self.cells.as_slice()
    }
}

/// Rows of spaces without an attribute.
pub fn blank_rows(alloc: Global, width: u32, height: u32) -> Result<Vec<ShownRow>, AllocError>
    ensures { IfOk result (λ rows. rows.items ≡ blank_shown_rows width height) }
{
    let mut rows = Vec::with_capacity(alloc, height as usize)?;
    for _ in 0..height {
        rows.push(ShownRow::blank(alloc, width)?)?;
    }
    Ok(rows)
}
