// Edits of a text.
ghost use Rattle.std.specs.Prelude.{◌≡◌, IfOk};
ghost use Rattle.nv_buffer.specs.Changes.{turned_part};

use nv_lines::LineList;
use nv_places::{Extent, Pos};
use std::alloc::AllocError;

/// Which part of which change an edit is, and which way it goes. Changes are numbered from 1, the
/// parts of each from 0 in the order in which they were made (help: undo-tree).
#[derive(Clone, Copy, Debug, PartialEq, Eq)]
pub struct ChangePart {
    pub change: u64,
    pub part: u64,
    /// Whether the part is taken back, and not made.
    pub back: bool,
}

impl ChangePart {
    /// The same part, gone the other way.
    pub fn turned(self) -> ChangePart
        ensures { result ≡ turned_part self }
    {
        ChangePart {
            change: self.change,
            part: self.part,
            back: !self.back,
        }
    }
}

/// One edit of a text, in numbers of the text before it. Rows, columns and offsets count from 0.
/// Text, marks, what is told of an edit and undo have it as one value.
#[derive(Drop)]
pub struct Edit {
    /// The first row that is replaced.
    pub first: u32,
    /// The row after the last one that is replaced.
    pub last: u32,
    /// The lines that are put in place of these rows.
    pub lines: LineList,
    /// The offset in the flat text at which bytes are replaced.
    pub at: u64,
    /// How many bytes are removed there.
    pub old: u64,
    /// How many bytes are put there.
    pub new: u64,
    /// The place at which bytes are replaced.
    pub start: Pos,
    /// How far the bytes reach that are removed there.
    pub removed: Extent,
    /// How far the bytes reach that are put there.
    pub put: Extent,
    /// Whether whole rows are put (help: nvim_buf_set_lines()), and not text between two places
    /// (help: nvim_buf_set_text()).
    pub rows: bool,
    pub part: ChangePart,
}

impl Edit {
    /// The same edit, its lines shared.
    pub fn share(&self) -> Result<Edit, AllocError>
        ensures { IfOk result (λ edit. edit ≡ self.now) }
    {
        let lines = self.lines.share()?;
        Ok(Edit {
            first: self.first,
            last: self.last,
            lines,
            at: self.at,
            old: self.old,
            new: self.new,
            start: self.start,
            removed: self.removed,
            put: self.put,
            rows: self.rows,
            part: self.part,
        })
    }
}
