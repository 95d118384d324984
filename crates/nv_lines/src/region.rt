// Which chunks an edit makes anew.
ghost use Rattle.std.specs.Prelude.{◌≡◌, ◌+◌, ◌-◌, ◌^◌, ◌<◌, ◌≤◌, length, All, MatchOption};
ghost use Rattle.nv_places.specs.Flat.{flat};
ghost use Rattle.nv_lines.specs.Chunks.{chunk_lines, IsChunk};
ghost use Rattle.nv_lines.specs.inside.Starts.{IsStart, rows_before};
ghost use Rattle.nv_lines.specs.inside.Edits.{edge, rows_after, IsRegion};

use crate::chunk::Chunk;
use crate::finding::{Start, start_after, start_before, start_of_row};

/// The chunks from one start up to before another.
#[derive(Clone, Copy)]
pub struct Region {
    pub first: Start,
    pub end: Start,
}

// How many lines the first and the last chunk have at least where so many lines are cut into
// chunks.
fn least_edge(count: usize) -> usize
    ensures { result ≡ edge count }
{
    if count <= 64 { count } else { 32 }
}

// The start of the chunk that the rows begin in, or that an insertion goes to the end of.
fn region_start(chunks: &[Chunk], starts: &[Start], from: usize, to: usize) -> Start
    requires starts { All (IsStart chunks.now) starts.now }
    requires each { All IsChunk chunks.now }
    requires small { length (flat (chunk_lines chunks.now)) < 2 ^ 64 }
    requires some { 0 < length (chunk_lines chunks.now) }
    requires order { from ≤ to }
    requires within { to ≤ length (chunk_lines chunks.now) }
    ensures start { IsStart chunks.now result }
    ensures chunk { result.chunk < length chunks.now }
    ensures before { result.row ≤ from }
{
    if from < to {
        return start_of_row(chunks, starts, from);
    }
    start_of_row(chunks, starts, from.saturating_sub(1))
}

// The end of the chunks from `first` on that hold the rows up to before `to`.
fn region_end(chunks: &[Chunk], first: Start, to: usize) -> Start
    requires start { IsStart chunks.now first }
    requires chunk { first.chunk < length chunks.now }
    requires each { All IsChunk chunks.now }
    requires small { length (flat (chunk_lines chunks.now)) < 2 ^ 64 }
    requires within { to ≤ length (chunk_lines chunks.now) }
    ensures start { IsStart chunks.now result }
    ensures some { first.chunk < result.chunk }
    ensures behind { to ≤ result.row }
    ensures row { first.row ≤ result.row }
{
    let mut end = start_after(chunks, first);
    while end.row < to {
        end = start_after(chunks, end);
    }
    end
}

// The start of the chunk in front, where that chunk and `least` lines aren't more than 64.
fn wider_left(chunks: &[Chunk], first: Start, least: usize) -> Option<Start>
    requires start { IsStart chunks.now first }
    requires each { All IsChunk chunks.now }
    requires least { least ≤ 64 }
    ensures { MatchOption result (0 < first.chunk → 64 + rows_before chunks.now (first.chunk - 1)
        < first.row + least) (λ wider. IsStart chunks.now wider × (wider.chunk + 1 ≡ first.chunk)
        × (wider.row ≤ first.row)) }
{
    if first.chunk == 0 {
        return None;
    }
    let wider = start_before(chunks, first);
    if first.row - wider.row + least > 64 {
        return None;
    }
    Some(wider)
}

// The end of the chunk behind, where that chunk and `least` lines aren't more than 64.
fn wider_right(chunks: &[Chunk], end: Start, least: usize) -> Option<Start>
    requires start { IsStart chunks.now end }
    requires each { All IsChunk chunks.now }
    requires small { length (flat (chunk_lines chunks.now)) < 2 ^ 64 }
    requires least { least ≤ 64 }
    ensures { MatchOption result (end.chunk < length chunks.now
        → 64 + end.row < rows_before chunks.now (end.chunk + 1) + least)
        (λ wider. IsStart chunks.now wider × (wider.chunk ≡ end.chunk + 1)
        × (end.row ≤ wider.row)) }
{
    if end.chunk >= chunks.len() {
        return None;
    }
    let wider = start_after(chunks, end);
    if wider.row - end.row + least > 64 {
        return None;
    }
    Some(wider)
}

// A region with its neighbours, as long as it isn't full with them.
fn widened_region(
    chunks: &[Chunk],
    first: Start,
    end: Start,
    from: usize,
    to: usize,
    new: usize,
) -> Region
    requires begin { IsStart chunks.now first }
    requires stop { IsStart chunks.now end }
    requires some { first.chunk < end.chunk }
    requires before { first.row ≤ from }
    requires order { from ≤ to }
    requires behind { to ≤ end.row }
    requires each { All IsChunk chunks.now }
    requires small { length (flat (chunk_lines chunks.now)) < 2 ^ 64 }
    requires room { length (chunk_lines chunks.now) - (to - from) + new < 2 ^ 64 }
    ensures { IsRegion chunks.now result.first result.end from to new }
{
    let least = least_edge(end.row - first.row - (to - from) + new);
    if let Some(wider) = wider_left(chunks, first, least) {
        return widened_region(chunks, wider, end, from, to, new);
    }
    if let Some(wider) = wider_right(chunks, end, least) {
        return widened_region(chunks, first, wider, from, to, new);
    }
    Region { first, end }
}

/// The chunks that are made anew where `new` lines come in place of the rows from `from` up to
/// before `to`.
pub fn region_of(chunks: &[Chunk], starts: &[Start], from: usize, to: usize, new: usize) -> Region
    requires starts { All (IsStart chunks.now) starts.now }
    requires each { All IsChunk chunks.now }
    requires small { length (flat (chunk_lines chunks.now)) < 2 ^ 64 }
    requires some { 0 < length (chunk_lines chunks.now) }
    requires order { from ≤ to }
    requires within { to ≤ length (chunk_lines chunks.now) }
    requires room { length (chunk_lines chunks.now) - (to - from) + new < 2 ^ 64 }
    ensures { IsRegion chunks.now result.first result.end from to new }
{
    let first = region_start(chunks, starts, from, to);
    let end = region_end(chunks, first, to);
    widened_region(chunks, first, end, from, to, new)
}
