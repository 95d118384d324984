//! Cells and rows as a client shows them.
ghost use Rattle.std.specs.Prelude.{◌≡◌, ◌≤◌, ◌+◌, [], ◌∷◌, length, replicate, get_or, if◌then◌else◌, IfOk, None};
ghost use Rattle.nv_linegrid.specs.Client.{shown_of, row_with, row_of_spaces, row_between};

use nv_hl::CellText;
use std::alloc::{AllocError, Global};
use std::marker::Model;

/// A cell as it is shown: its text, and the id of its attribute.
#[derive(Drop)]
pub struct ShownCell {
    text: CellText,
    id: u64,
}

impl Model for ShownCell {
    ghost use Rattle.nv_linegrid.specs.Client.{Shown};

    ghost Value = { Shown };

    ghost view = { λ c. record { text = c.text; id = c.id } };
}

impl ShownCell {
    /// A copy of a text with an id.
    pub fn new(alloc: Global, text: &CellText, id: u64) -> Result<ShownCell, AllocError>
        ensures { IfOk result (λ c. c ≡ shown_of text.now id) }
    {
        let text = text.copy(alloc)?;
        Ok(ShownCell { text, id })
    }

    /// A space without an attribute.
    pub fn space() -> ShownCell
        ensures { result ≡ shown_of (32 ∷ []) 0 }
    {
        ShownCell {
            text: CellText::from_byte(b' '),
            id: 0,
        }
    }

    /// A copy.
    pub fn copy(&self, alloc: Global) -> Result<ShownCell, AllocError>
        ensures { IfOk result (λ c. c ≡ self.now) }
    {
        let text = self.text.copy(alloc)?;
        Ok(ShownCell { text, id: self.id })
    }

    /// The bytes of the text.
    pub fn text(&self) -> &[u8]
        ensures { result.now ≡ self.now.text }
    {
        self.text.as_slice()
    }

    /// The id of the attribute.
    pub fn id(&self) -> u64
        ensures { result ≡ self.now.id }
    {
        self.id
    }
}

fn copy_of(alloc: Global, cell: &Option<ShownCell>) -> Result<Option<ShownCell>, AllocError>
    ensures { IfOk result (λ c. c ≡ cell.now) }
{
    match cell {
        None => Ok(None),
        Some(cell) => Ok(Some(cell.copy(alloc)?)),
    }
}

/// A row of cells, of which some may be unknown.
#[derive(Drop)]
pub struct ShownRow {
    cells: Vec<Option<ShownCell>>,
}

impl Model for ShownRow {
    ghost use Rattle.std.specs.Prelude.{List, Option};
    ghost use Rattle.nv_linegrid.specs.Client.{Shown};

    ghost Value = { List (Option Shown) };

    ghost view = { λ r. r.cells.items };
}

fn put_cells(row: &mut Vec<Option<ShownCell>>, col: usize, cells: Vec<ShownCell>)
    requires { col + length cells.items ≤ length row.old.items }
    ensures { row.new.items ≡ row_with row.old.items col cells.items }
{
    let mut at = col;
    for cell in cells {
        row[at] = Some(cell);
        at += 1;
    }
}

impl ShownRow {
    /// Unknown cells.
    pub fn unknown(alloc: Global, width: u32) -> Result<ShownRow, AllocError>
        ensures { IfOk result (λ r. r ≡ replicate width None) }
    {
        let mut cells = Vec::with_capacity(alloc, width as usize)?;
        for _ in 0..width {
            cells.push(None)?;
        }
        Ok(ShownRow { cells })
    }

    /// Spaces without an attribute, as many as there are cells.
    pub fn to_spaces(&self, alloc: Global) -> Result<ShownRow, AllocError>
        ensures { IfOk result (λ r. r ≡ row_of_spaces self.now) }
    {
        let mut cells = Vec::with_capacity(alloc, self.cells.len())?;
        for _cell in &self.cells {
            cells.push(Some(ShownCell::space()))?;
        }
        Ok(ShownRow { cells })
    }

    /// The same cells, but those of another row in the columns from `left` to before `right`.
    pub fn between(
        &self,
        alloc: Global,
        left: usize,
        right: usize,
        source: &[Option<ShownCell>],
    ) -> Result<ShownRow, AllocError>
        ensures { IfOk result (λ r. r ≡ row_between left right source.now 0 self.now) }
    {
        let mut cells = Vec::with_capacity(alloc, self.cells.len())?;
        let mut at = 0;
        for cell in &self.cells {
            let moves = left <= at && at < right;
            cells.push(moved(alloc, moves, source, at, cell)?)?;
            at += 1;
        }
        Ok(ShownRow { cells })
    }

    /// A copy.
    pub fn copy(&self, alloc: Global) -> Result<ShownRow, AllocError>
        ensures { IfOk result (λ r. r ≡ self.now) }
    {
        let mut cells = Vec::with_capacity(alloc, self.cells.len())?;
        for cell in &self.cells {
            cells.push(copy_of(alloc, cell)?)?;
        }
        Ok(ShownRow { cells })
    }

    /// The cells, from the left.
    pub fn cells(&self) -> &[Option<ShownCell>]
        ensures { result.now ≡ self.now }
    {
        self.cells.as_slice()
    }

    /// Puts cells in place of those from a column on.
    pub fn put(&mut self, col: usize, cells: Vec<ShownCell>)
        requires { col + length cells.items ≤ length self.old }
        ensures { self.new ≡ row_with self.old col cells.items }
    {
        put_cells(&mut self.cells, col, cells);
    }
}

// The cell that comes to a column: where it moves, that of another row, if there is one.
fn moved(
    alloc: Global,
    moves: bool,
    source: &[Option<ShownCell>],
    at: usize,
    cell: &Option<ShownCell>,
) -> Result<Option<ShownCell>, AllocError>
    ensures { IfOk result (λ c. c ≡ (if moves then get_or source.now at None else cell.now)) }
{
    if !moves {
        copy_of(alloc, cell)
    } else if at < source.len() {
        copy_of(alloc, &source[at])
    } else {
        Ok(None)
    }
}
