// Rows and offsets of chunks.
ghost use Rattle.std.specs.Prelude.{◌≡◌, ◌+◌, ◌^◌, ◌<◌, ◌≤◌, ◌++◌, ◌↔◌, length, All, IfOk, OnOk, IsSome, IfSome, option_copied, slice_get, slice_range};
ghost use Rattle.nv_places.specs.Flat.{flat, row_start};
ghost use Rattle.nv_lines.specs.Text.{IsRowAt};
ghost use Rattle.nv_lines.specs.Chunks.{chunk_lines, IsChunk};
ghost use Rattle.nv_lines.specs.inside.Starts.{IsStart};

use crate::chunk::Chunk;
use crate::excerpt::Excerpt;
use crate::finding::{Start, start_of_offset, start_of_row};
use crate::gathering::{add_lists, add_rows};
use crate::listing::LineList;
use crate::measuring::{flat_len, flat_len_within, row_at};
use crate::single::Line;
use std::alloc::{AllocError, Global};

/// The line of a row.
pub fn line_in<'a>(chunks: &'a [Chunk], starts: &[Start], row: usize) -> Option<&'a Line>
    requires starts { All (IsStart chunks.now) starts.now }
    requires each { All IsChunk chunks.now }
    requires small { length (flat (chunk_lines chunks.now)) < 2 ^ 64 }
    requires within { row < length (chunk_lines chunks.now) }
    ensures some { IsSome result }
    ensures line { option_copied result ≡ slice_get (chunk_lines chunks.now) row }
{
    let at = start_of_row(chunks, starts, row);
    chunks[at.chunk].lines.get(row - at.row)
}

/// The rows from `from` up to before `to`, shared.
pub fn rows_in(
    alloc: Global,
    chunks: &[Chunk],
    starts: &[Start],
    from: usize,
    to: usize,
) -> Result<LineList, AllocError>
    requires starts { All (IsStart chunks.now) starts.now }
    requires each { All IsChunk chunks.now }
    requires small { length (flat (chunk_lines chunks.now)) < 2 ^ 64 }
    requires order { from ≤ to }
    requires within { to ≤ length (chunk_lines chunks.now) }
    ensures { IfOk result (λ rows. rows ≡ slice_range (chunk_lines chunks.now) from to) }
{
    if from >= to {
        return Ok(LineList::new(alloc));
    }
    let at = start_of_row(chunks, starts, from);
    let mut rows = Vec::with_capacity(alloc, to - from)?;
    add_rows(&mut rows, &chunks[at.chunk..], from - at.row, to - at.row)?;
    Ok(LineList::from_vec(rows))
}

/// Adds the rows from `from` up to before `to` at the end of an excerpt, in lists that share the
/// tables of the chunks.
pub fn add_rows_in(
    excerpt: &mut Excerpt,
    chunks: &[Chunk],
    starts: &[Start],
    from: usize,
    to: usize,
) -> Result<(), AllocError>
    requires starts { All (IsStart chunks.now) starts.now }
    requires each { All IsChunk chunks.now }
    requires small { length (flat (chunk_lines chunks.now)) < 2 ^ 64 }
    requires order { from ≤ to }
    requires within { to ≤ length (chunk_lines chunks.now) }
    ensures { OnOk result (excerpt.new ≡ excerpt.old
        ++ slice_range (chunk_lines chunks.now) from to) }
{
    if from >= to {
        return Ok(());
    }
    let at = start_of_row(chunks, starts, from);
    add_lists(excerpt, &chunks[at.chunk..], from - at.row, to - at.row)
}

/// The offset at which a row begins.
pub fn offset_in(chunks: &[Chunk], starts: &[Start], row: usize) -> u64
    requires starts { All (IsStart chunks.now) starts.now }
    requires each { All IsChunk chunks.now }
    requires small { length (flat (chunk_lines chunks.now)) < 2 ^ 64 }
    requires within { row < length (chunk_lines chunks.now) }
    ensures { result ≡ row_start (chunk_lines chunks.now) row }
{
    let at = start_of_row(chunks, starts, row);
    let lines = chunks[at.chunk].lines.as_slice();
    at.offset + flat_len(&lines[..row - at.row])
}

/// The offset at which the row `from` begins, and the number of bytes of the flat text of the rows
/// from it up to before `to`: `None` where those stand in more than one chunk.
pub fn span_in(chunks: &[Chunk], starts: &[Start], from: usize, to: usize) -> (u64, Option<u64>)
    requires starts { All (IsStart chunks.now) starts.now }
    requires each { All IsChunk chunks.now }
    requires small { length (flat (chunk_lines chunks.now)) < 2 ^ 64 }
    requires order { from ≤ to }
    requires within { from < length (chunk_lines chunks.now) }
    ensures start { result.0 ≡ row_start (chunk_lines chunks.now) from }
    ensures len { IfSome result.1 (λ n. row_start (chunk_lines chunks.now) from + n
        ≡ row_start (chunk_lines chunks.now) to) }
{
    let at = start_of_row(chunks, starts, from);
    let lines = chunks[at.chunk].lines.as_slice();
    let front = from - at.row;
    let start = at.offset + flat_len(&lines[..front]);
    let len = flat_len_within(lines, front, to - at.row);
    (start, len)
}

/// The row in which an offset lies.
pub fn row_in(chunks: &[Chunk], starts: &[Start], offset: u64) -> usize
    requires starts { All (IsStart chunks.now) starts.now }
    requires each { All IsChunk chunks.now }
    requires small { length (flat (chunk_lines chunks.now)) < 2 ^ 64 }
    requires within { offset < length (flat (chunk_lines chunks.now)) }
    ensures { IsRowAt (chunk_lines chunks.now) offset result }
{
    let at = start_of_offset(chunks, starts, offset);
    at.row + row_at(chunks[at.chunk].lines.as_slice(), offset - at.offset)
}
