// Rows and offsets, and the chunks that they lie in.
ghost use Rattle.std.specs.Prelude.{◌≡◌, ◌+◌, ◌^◌, ◌<◌, ◌≤◌, length, All};
ghost use Rattle.nv_places.specs.Flat.{flat};
ghost use Rattle.nv_lines.specs.Chunks.{chunk_lines, IsChunk};
ghost use Rattle.nv_lines.specs.inside.Starts.{IsStart, rows_before, bytes_before};

use crate::chunk::Chunk;

/// A chunk by its number, and how many rows and bytes of flat text stand before it. The number of
/// chunks stands for the end of the text.
#[derive(Clone, Copy)]
pub struct Start {
    pub chunk: usize,
    pub row: usize,
    pub offset: u64,
}

/// The start of the first chunk.
pub fn first_start(chunks: &[Chunk]) -> Start
    ensures start { IsStart chunks.now result }
    ensures chunk { result.chunk ≡ 0 }
    ensures row { result.row ≡ 0 }
    ensures offset { result.offset ≡ 0 }
{
    let _ = chunks;
    Start {
        chunk: 0,
        row: 0,
        offset: 0,
    }
}

/// The start of the chunk behind a chunk.
pub fn start_after(chunks: &[Chunk], at: Start) -> Start
    requires start { IsStart chunks.now at }
    requires chunk { at.chunk < length chunks.now }
    requires each { All IsChunk chunks.now }
    requires small { length (flat (chunk_lines chunks.now)) < 2 ^ 64 }
    ensures start { IsStart chunks.now result }
    ensures chunk { result.chunk ≡ at.chunk + 1 }
    ensures row { at.row ≤ result.row }
    ensures near { result.row ≤ at.row + 64 }
{
    let chunk = &chunks[at.chunk];
    Start {
        chunk: at.chunk + 1,
        row: at.row + chunk.lines.len(),
        offset: at.offset + chunk.bytes,
    }
}

/// The start of the chunk in front of a chunk.
pub fn start_before(chunks: &[Chunk], at: Start) -> Start
    requires start { IsStart chunks.now at }
    requires chunk { 0 < at.chunk }
    requires each { All IsChunk chunks.now }
    ensures start { IsStart chunks.now result }
    ensures chunk { result.chunk + 1 ≡ at.chunk }
    ensures row { result.row ≤ at.row }
    ensures near { at.row ≤ result.row + 64 }
{
    let chunk = &chunks[at.chunk - 1];
    Start {
        chunk: at.chunk - 1,
        row: at.row - chunk.lines.len(),
        offset: at.offset - chunk.bytes,
    }
}

// A start that is not past a row, by halves.
fn start_near_row(chunks: &[Chunk], starts: &[Start], row: usize) -> Start
    requires { All (IsStart chunks.now) starts.now }
    ensures start { IsStart chunks.now result }
    ensures before { result.row ≤ row }
{
    let mut found = first_start(chunks);
    let mut low = 0;
    let mut high = starts.len();
    while low < high {
        let middle = low + (high - low) / 2;
        let start = starts[middle];
        if start.row <= row {
            found = start;
            low = middle + 1;
        } else {
            high = middle;
        }
    }
    found
}

// A start that is not past an offset, by halves.
fn start_near_offset(chunks: &[Chunk], starts: &[Start], offset: u64) -> Start
    requires { All (IsStart chunks.now) starts.now }
    ensures start { IsStart chunks.now result }
    ensures before { result.offset ≤ offset }
{
    let mut found = first_start(chunks);
    let mut low = 0;
    let mut high = starts.len();
    while low < high {
        let middle = low + (high - low) / 2;
        let start = starts[middle];
        if start.offset <= offset {
            found = start;
            low = middle + 1;
        } else {
            high = middle;
        }
    }
    found
}

/// The start of the chunk that a row lies in.
pub fn start_of_row(chunks: &[Chunk], starts: &[Start], row: usize) -> Start
    requires starts { All (IsStart chunks.now) starts.now }
    requires each { All IsChunk chunks.now }
    requires small { length (flat (chunk_lines chunks.now)) < 2 ^ 64 }
    requires within { row < length (chunk_lines chunks.now) }
    ensures start { IsStart chunks.now result }
    ensures chunk { result.chunk < length chunks.now }
    ensures begins { result.row ≤ row }
    ensures ends { row < rows_before chunks.now (result.chunk + 1) }
{
    let mut at = start_near_row(chunks, starts, row);
    while at.chunk < chunks.len() {
        let next = start_after(chunks, at);
        if row < next.row {
            return at;
        }
        at = next;
    }
    at
}

/// The start of the chunk that an offset lies in.
pub fn start_of_offset(chunks: &[Chunk], starts: &[Start], offset: u64) -> Start
    requires starts { All (IsStart chunks.now) starts.now }
    requires each { All IsChunk chunks.now }
    requires small { length (flat (chunk_lines chunks.now)) < 2 ^ 64 }
    requires within { offset < length (flat (chunk_lines chunks.now)) }
    ensures start { IsStart chunks.now result }
    ensures chunk { result.chunk < length chunks.now }
    ensures begins { result.offset ≤ offset }
    ensures ends { offset < bytes_before chunks.now (result.chunk + 1) }
{
    let mut at = start_near_offset(chunks, starts, offset);
    while at.chunk < chunks.len() {
        let next = start_after(chunks, at);
        if offset < next.offset {
            return at;
        }
        at = next;
    }
    at
}
