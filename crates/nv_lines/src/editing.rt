// Rows of chunks that others take the place of.
ghost use Rattle.std.specs.Prelude.{◌≡◌, ◌+◌, ◌-◌, ◌^◌, ◌<◌, ◌≤◌, length, IfOk, OnOk, OnErr, All, slice_range};
ghost use Rattle.std.specs.List.{splice};
ghost use Rattle.nv_places.specs.Flat.{flat};
ghost use Rattle.nv_lines.specs.Chunks.{chunk_lines, IsChunk};
ghost use Rattle.nv_lines.specs.inside.Starts.{IsTable, IsStart};
ghost use Rattle.nv_lines.specs.inside.Edits.{IsRegion, IsCutIntoChunks, rows_after, IsCutAnew};

use crate::chunk::Chunk;
use crate::cutting::cut;
use crate::finding::Start;
use crate::gathering::{add_rows, rows_taken};
use crate::listing::LineList;
use crate::measuring::flat_len;
use crate::region::{Region, region_of};
use crate::single::Line;
use crate::starting::{Shift, make_starts, shift_starts};
use crate::taking::exchange_chunks;
use std::alloc::{AllocError, Global};

// The rows of chunks with `new` in place of those from `from` up to before `to`.
fn lines_after(
    alloc: Global,
    chunks: &[Chunk],
    from: usize,
    to: usize,
    rows: usize,
    new: LineList,
) -> Result<Vec<Line>, AllocError>
    requires order { from ≤ to }
    requires within { to ≤ rows }
    requires rows { rows ≡ length (chunk_lines chunks.now) }
    ensures { IfOk result (λ lines. lines.items ≡ splice (chunk_lines chunks.now) from to new) }
{
    let mut added = new.into_vec()?;
    if from == 0 && to == rows {
        return Ok(added);
    }
    let mut lines = Vec::with_capacity(alloc, 128)?;
    add_rows(&mut lines, chunks, 0, from)?;
    lines.append(&mut added)?;
    add_rows(&mut lines, chunks, to, rows)?;
    Ok(lines)
}

// Makes the chunks of a region anew, which has `rows` rows. The rows count from its first one.
fn put_across(
    chunks: &mut Vec<Chunk>,
    region: Region,
    from: usize,
    to: usize,
    new: LineList,
) -> Result<LineList, AllocError>
    requires begin { IsStart chunks.old.items region.first }
    requires stop { IsStart chunks.old.items region.end }
    requires some { region.first.chunk < region.end.chunk }
    requires before { region.first.row ≤ from }
    requires order { from ≤ to }
    requires behind { to ≤ region.end.row }
    requires kept { 0 < rows_after region.first region.end from to (length new) }
    requires small { length (flat (splice (chunk_lines chunks.old.items) from to new)) < 2 ^ 64 }
    ensures ok { OnOk result
        (IsCutAnew chunks.old.items chunks.new.items region.first region.end from to new) }
    ensures taken { IfOk result (λ taken. taken ≡ slice_range
        (chunk_lines chunks.old.items) from to) }
    ensures err { OnErr result (chunks.new.items ≡ chunks.old.items) }
{
    let Region { first, end } = region;
    let alloc = *chunks.allocator();
    let rows = end.row - first.row;
    let from = from - first.row;
    let to = to - first.row;
    let lines = lines_after(alloc, &chunks[first.chunk..end.chunk], from, to, rows, new)?;
    let made = cut(alloc, lines)?;
    let taken = Vec::with_capacity(alloc, to - from)?;
    let gone = exchange_chunks(chunks, first.chunk, end.chunk, made)?;
    Ok(LineList::from_vec(rows_taken(taken, gone, from, to)))
}

// The same in one chunk, whose lines stay 1 to 64.
fn put_in_chunk(
    chunks: &mut Vec<Chunk>,
    region: Region,
    from: usize,
    to: usize,
    new: LineList,
) -> Result<LineList, AllocError>
    requires begin { IsStart chunks.old.items region.first }
    requires stop { IsStart chunks.old.items region.end }
    requires one { region.first.chunk + 1 ≡ region.end.chunk }
    requires each { All IsChunk chunks.old.items }
    requires before { region.first.row ≤ from }
    requires order { from ≤ to }
    requires behind { to ≤ region.end.row }
    requires kept { 0 < rows_after region.first region.end from to (length new) }
    requires most { rows_after region.first region.end from to (length new) ≤ 64 }
    requires small { length (flat (splice (chunk_lines chunks.old.items) from to new)) < 2 ^ 64 }
    ensures ok { OnOk result
        (IsCutAnew chunks.old.items chunks.new.items region.first region.end from to new) }
    ensures taken { IfOk result (λ taken. taken ≡ slice_range
        (chunk_lines chunks.old.items) from to) }
    ensures err { OnErr result (chunks.new.items ≡ chunks.old.items) }
{
    let first = region.first;
    let taken = chunks[first.chunk].replace(from - first.row, to - first.row, new)?;
    Ok(taken)
}

// Makes the chunks of a region anew, or changes the one that it is where its lines stay at most 64.
fn put(
    chunks: &mut Vec<Chunk>,
    region: Region,
    from: usize,
    to: usize,
    new: LineList,
) -> Result<LineList, AllocError>
    requires region { IsRegion chunks.old.items region.first region.end from to (length new) }
    requires order { from ≤ to }
    requires each { All IsChunk chunks.old.items }
    requires kept { 0 < rows_after region.first region.end from to (length new) }
    requires small { length (flat (splice (chunk_lines chunks.old.items) from to new)) < 2 ^ 64 }
    ensures ok { OnOk result
        (IsCutAnew chunks.old.items chunks.new.items region.first region.end from to new) }
    ensures taken { IfOk result (λ taken. taken ≡ slice_range
        (chunk_lines chunks.old.items) from to) }
    ensures err { OnErr result (chunks.new.items ≡ chunks.old.items) }
{
    let rows = region.end.row - region.first.row - (to - from) + new.len();
    if region.end.chunk - region.first.chunk == 1 && rows <= 64 {
        return put_in_chunk(chunks, region, from, to, new);
    }
    put_across(chunks, region, from, to, new)
}

/// Puts `new` in place of the rows from `from` up to before `to`, and gives back the lines that
/// stood there. Where memory is wanting nothing changes.
pub fn put_rows(
    chunks: &mut Vec<Chunk>,
    starts: &mut Vec<Start>,
    from: usize,
    to: usize,
    new: LineList,
) -> Result<LineList, AllocError>
    requires table { IsTable chunks.old.items starts.old.items }
    requires some { 0 < length (chunk_lines chunks.old.items) }
    requires text { length (flat (chunk_lines chunks.old.items)) < 2 ^ 64 }
    requires order { from ≤ to }
    requires within { to ≤ length (chunk_lines chunks.old.items) }
    requires left { to < from + length new + length (chunk_lines chunks.old.items) }
    requires small { length (flat (splice (chunk_lines chunks.old.items) from to new)) < 2 ^ 64 }
    ensures ok { OnOk result (chunk_lines chunks.new.items
        ≡ splice (chunk_lines chunks.old.items) from to new) }
    ensures table { OnOk result (IsTable chunks.new.items starts.new.items) }
    ensures taken { IfOk result (λ taken. taken ≡ slice_range
        (chunk_lines chunks.old.items) from to) }
    ensures chunks { OnErr result (chunks.new.items ≡ chunks.old.items) }
    ensures starts { OnErr result (starts.new.items ≡ starts.old.items) }
{
    let region = region_of(chunks, starts, from, to, new.len());
    let Region { first, end } = region;
    let count = chunks.len();
    let taken = put(chunks, region, from, to, new)?;
    if chunks.len() != count || end.chunk - first.chunk != 1 {
        make_starts(starts, chunks);
        return Ok(taken);
    }
    let chunk = &chunks[first.chunk];
    let by = Shift {
        chunk: first.chunk,
        rows_lost: end.row - first.row,
        rows_gained: chunk.lines.len(),
        bytes_lost: end.offset - first.offset,
        bytes_gained: chunk.bytes,
    };
    shift_starts(starts, by);
    Ok(taken)
}
