// The lines of a buffer.
ghost use Rattle.std.specs.Prelude.{◌≡◌, ◌+◌, ◌^◌, ◌<◌, ◌≤◌, ◌↔◌, [], ◌∷◌, ◌++◌, length, All, IsSome, IfSome, OnOk, OnErr, IfOk, option_map, option_copied, slice_get, slice_range};
ghost use Rattle.std.specs.List.{splice};
ghost use Rattle.nv_places.specs.Flat.{flat, IsLine, row_start};
ghost use Rattle.nv_lines.specs.Text.{IsText, IsRowAt};
ghost use Rattle.nv_lines.specs.Chunks.{chunk_lines, chunk_sizes, IsChunk, AreFull};

use crate::chunk::Chunk;
use crate::editing::put_rows;
use crate::excerpt::Excerpt;
use crate::finding::Start;
use crate::listing::LineList;
use crate::measuring::flat_len;
use crate::reading::{add_rows_in, line_in, offset_in, row_in, rows_in, span_in};
use crate::single::Line;
use std::alloc::{AllocError, Global};
use std::marker::Model;

/// The lines of a buffer: one line at least, and fewer than 2^64 bytes of flat text. Rows and
/// offsets count from 0. An offset is one of the flat text, so each line end counts one byte. The
/// lines stand in chunks, so that an edit moves few of them, and what it costs hardly grows with
/// the text.
#[derive(Drop)]
pub struct Lines {
    chunks: Vec<Chunk>,
    // The starts of some chunks.
    starts: Vec<Start>,
    rows: usize,
    bytes: u64,
}

impl Model for Lines {
    ghost use Rattle.std.specs.Prelude.{List, ℕ};
    ghost use Rattle.nv_lines.specs.Chunks.{chunk_lines};
    ghost use Rattle.nv_lines.specs.inside.Starts.{IsStoredText};

    ghost Value = { List (List ℕ) };

    ghost view = { λ text. chunk_lines text.chunks.items };

    ghost invariant = { λ t. IsStoredText t.chunks.items t.starts.items t.rows t.bytes };
}

impl Lines {
    /// One empty line.
    pub fn new(alloc: Global) -> Result<Lines, AllocError>
        ensures { IfOk result (λ text. text ≡ [] ∷ []) }
    {
        let lines = LineList::one(alloc, Line::new(alloc)?);
        let mut chunks = Vec::new(alloc);
        chunks.push(Chunk { lines, bytes: 1 })?;
        Ok(Lines {
            chunks,
            starts: Vec::new(alloc),
            rows: 1,
            bytes: 1,
        })
    }

    /// The chunks that the lines stand in, in order: 1 to 64 lines each, and more than 64 in any
    /// two neighbours.
    pub fn chunks(&self) -> &[Chunk]
        ensures lines { chunk_lines result.now ≡ self.now }
        ensures each { All IsChunk result.now }
        ensures full { AreFull (chunk_sizes result.now) }
    {
        self.chunks.as_slice()
    }

    /// The bytes of a row, without its line end. `None` exactly where the row is not below the
    /// count.
    pub fn get(&self, row: usize) -> Option<&[u8]>
        ensures row { IsSome result ↔ (row < length self.now) }
        ensures bytes { option_map (λ line. line.now) result ≡ slice_get self.now row }
        ensures line { IfSome result (λ line. IsLine line.now) }
    {
        self.line(row).map(|line| line.as_slice())
    }

    /// The line of a row. `None` exactly where the row is not below the count.
    pub fn line(&self, row: usize) -> Option<&Line>
        ensures row { IsSome result ↔ (row < length self.now) }
        ensures line { option_copied result ≡ slice_get self.now row }
    {
        if row >= self.rows {
            return None;
        }
        line_in(&self.chunks, &self.starts, row)
    }

    /// The lines of the rows from `from` up to before `to`, shared: no bytes are copied.
    pub fn share_rows(&self, from: usize, to: usize) -> Result<LineList, AllocError>
        requires order { from ≤ to }
        requires within { to ≤ length self.now }
        ensures { IfOk result (λ rows. rows ≡ slice_range self.now from to) }
    {
        rows_in(
            *self.chunks.allocator(),
            &self.chunks,
            &self.starts,
            from,
            to,
        )
    }

    /// Adds the lines of the rows from `from` up to before `to` at the end of an excerpt, in lists
    /// that share the tables of the text: no bytes are copied, and lines are gone over at the two
    /// ends alone.
    pub fn add_rows(&self, excerpt: &mut Excerpt, from: usize, to: usize) -> Result<(), AllocError>
        requires order { from ≤ to }
        requires within { to ≤ length self.now }
        ensures { OnOk result (excerpt.new ≡ excerpt.old ++ slice_range self.now from to) }
    {
        add_rows_in(excerpt, &self.chunks, &self.starts, from, to)
    }

    /// The lines of the rows from `from` up to before `to`, in such lists.
    pub fn excerpt(&self, from: usize, to: usize) -> Result<Excerpt, AllocError>
        requires order { from ≤ to }
        requires within { to ≤ length self.now }
        ensures { IfOk result (λ rows. rows ≡ slice_range self.now from to) }
    {
        let mut rows = Excerpt::with_room(*self.chunks.allocator(), (to - from) / 48 + 1)?;
        self.add_rows(&mut rows, from, to)?;
        Ok(rows)
    }

    /// The number of lines.
    pub fn count(&self) -> usize
        ensures value { result ≡ length self.now }
        ensures text { IsText self.now }
    {
        self.rows
    }

    /// The number of bytes of the flat text.
    pub fn flat_len(&self) -> u64
        ensures value { result ≡ length (flat self.now) }
        ensures text { IsText self.now }
    {
        self.bytes
    }

    /// The offset at which a row begins. That of the count is the end of the flat text.
    pub fn offset(&self, row: usize) -> u64
        requires { row ≤ length self.now }
        ensures { result ≡ row_start self.now row }
    {
        if row >= self.rows {
            return self.bytes;
        }
        offset_in(&self.chunks, &self.starts, row)
    }

    /// The number of bytes of the flat text of the rows from `from` up to before `to`.
    pub fn flat_len_between(&self, from: usize, to: usize) -> u64
        requires order { from ≤ to }
        requires within { to ≤ length self.now }
        ensures { row_start self.now from + result ≡ row_start self.now to }
    {
        if from == to {
            return 0;
        }
        self.flat_span(from, to).1
    }

    /// The offset at which the row `from` begins, and the number of bytes of the flat text of the
    /// rows from it up to before `to`.
    pub fn flat_span(&self, from: usize, to: usize) -> (u64, u64)
        requires order { from ≤ to }
        requires within { to ≤ length self.now }
        ensures start { result.0 ≡ row_start self.now from }
        ensures len { row_start self.now from + result.1 ≡ row_start self.now to }
    {
        if from >= self.rows {
            return (self.bytes, 0);
        }
        let (start, len) = span_in(&self.chunks, &self.starts, from, to);
        match len {
            Some(len) => (start, len),
            None => (start, self.offset(to) - start),
        }
    }

    /// The row in which an offset lies. The end of the flat text gives the count.
    pub fn row_at(&self, offset: u64) -> usize
        requires { offset ≤ length (flat self.now) }
        ensures { IsRowAt self.now offset result }
    {
        if offset >= self.bytes {
            return self.rows;
        }
        row_in(&self.chunks, &self.starts, offset)
    }

    /// Puts `new` in place of the rows from `from` up to before `to`, and gives back the lines that
    /// stood there. Where memory is wanting nothing changes.
    pub fn replace(&mut self, from: usize, to: usize, new: LineList) -> Result<LineList, AllocError>
        requires order { from ≤ to }
        requires within { to ≤ length self.old }
        requires left { to < from + length new + length self.old }
        requires small { length (flat (splice self.old from to new)) < 2 ^ 64 }
        ensures ok { OnOk result (self.new ≡ splice self.old from to new) }
        ensures taken { IfOk result (λ taken. taken ≡ slice_range self.old from to) }
        ensures err { OnErr result (self.new ≡ self.old) }
    {
        let rows = self.rows - (to - from) + new.len();
        let added = flat_len(new.as_slice());
        let taken = put_rows(&mut self.chunks, &mut self.starts, from, to, new)?;
        self.rows = rows;
        self.bytes = self.bytes - flat_len(taken.as_slice()) + added;
        Ok(taken)
    }
}
