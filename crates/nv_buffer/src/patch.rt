// Bytes of a row that others take the place of.
ghost use Rattle.std.specs.Prelude.{◌≡◌, IfOk, IfSome, IsTrue};
ghost use Rattle.nv_places.specs.Flat.{IsLine};
ghost use Rattle.nv_buffer.specs.Changes.{Fits};
ghost use Rattle.nv_buffer.specs.Splices.{IsBufferText};
ghost use Rattle.nv_buffer.specs.Patches.{IsChanged, IsInRow, IsPatch, IsPatchOf, patch_back, patch_edit};

use crate::edit::{ChangePart, Edit};
use crate::joining::{line_between, line_of, row_of};
use nv_lines::{Line, LineList, Lines};
use nv_places::{Extent, Pos};
use std::alloc::{AllocError, Global};

/// How many bytes a row has at least of which an edit keeps those alone that it changes. A shorter
/// row is kept whole: it costs less to share it than to make it anew.
const LONG: usize = 1024;

/// Bytes of a row that others take the place of. Row and column count from 0.
#[derive(Drop)]
pub struct Patch {
    pub row: u32,
    pub col: u32,
    /// The offset of the place in the flat text.
    pub at: u64,
    /// The bytes that are removed there.
    pub taken: Line,
    /// The bytes that are put there.
    pub put: Line,
    pub part: ChangePart,
}

// Whether an edit puts bytes within a row in place of others there.
fn is_in_row(edit: &Edit) -> bool
    ensures { IsTrue result → IsInRow edit.now }
{
    !edit.rows
        && edit.start.row == edit.first
        && edit.first < edit.last
        && edit.last - edit.first == 1
        && edit.removed.rows == 0
        && edit.put.rows == 0
}

// The bytes that an edit within a row takes and puts, by the row before and after it. `None` where
// they are most of it.
fn changed(
    alloc: Global,
    edit: &Edit,
    before: &[u8],
    after: &[u8],
) -> Result<Option<Patch>, AllocError>
    requires before { IsLine before.now }
    requires after { IsLine after.now }
    ensures { IfOk result (λ found. IfSome found (IsChanged edit.now before.now after.now)) }
{
    let col = edit.start.col as usize;
    let taken = edit.removed.cols as usize;
    let put = edit.put.cols as usize;
    if col + taken > before.len() || col + put > after.len() || 2 * (taken + put) > after.len() {
        return Ok(None);
    }
    let taken = line_of(alloc, &before[col..col + taken])?;
    let put = line_of(alloc, &after[col..col + put])?;
    Ok(Some(Patch {
        row: edit.first,
        col: edit.start.col,
        at: edit.at,
        taken,
        put,
        part: edit.part,
    }))
}

impl Patch {
    /// The patch that an edit of a text is. `None` where a row that it puts is short, where it puts
    /// or removes a line end, and where it changes most of the row.
    pub fn of(alloc: Global, text: &Lines, edit: &Edit) -> Result<Option<Patch>, AllocError>
        requires text { IsBufferText text.now }
        requires fits { Fits text.now edit.now }
        ensures { IfOk result (λ found. IfSome found (IsPatchOf text.now edit.now)) }
    {
        let [line] = edit.lines.as_slice() else {
            return Ok(None);
        };
        if line.len() < LONG || !is_in_row(edit) {
            return Ok(None);
        }
        changed(alloc, edit, row_of(text, edit.first), line.as_slice())
    }

    /// The edit once more, of a text that has the bytes which it takes.
    pub fn edit(&self, alloc: Global, text: &Lines) -> Result<Edit, AllocError>
        requires text { IsBufferText text.now }
        requires patch { IsPatch text.now self.now }
        ensures { IfOk result (λ edit. edit ≡ patch_edit text.now self.now) }
    {
        let row = row_of(text, self.row);
        let start = self.col as usize;
        let stop = start + self.taken.len();
        let front = &row[..start];
        let back = &row[stop..];
        let line = line_between(alloc, front, self.put.as_slice(), back)?;
        let last = self.row + 1;
        let old = self.taken.len() as u32;
        let new = self.put.len() as u32;
        Ok(Edit {
            first: self.row,
            last,
            lines: LineList::one(alloc, line),
            at: self.at,
            old: old as u64,
            new: new as u64,
            start: Pos {
                row: self.row,
                col: self.col,
            },
            removed: Extent { rows: 0, cols: old },
            put: Extent { rows: 0, cols: new },
            rows: false,
            part: self.part,
        })
    }

    /// The patch that takes this one back.
    pub fn back(&self) -> Result<Patch, AllocError>
        ensures { IfOk result (λ patch. patch ≡ patch_back self.now) }
    {
        let taken = self.put.share()?;
        let put = self.taken.share()?;
        Ok(Patch {
            row: self.row,
            col: self.col,
            at: self.at,
            taken,
            put,
            part: self.part.turned(),
        })
    }
}
