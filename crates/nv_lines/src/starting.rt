// The table of starts, kept in step with the chunks.
ghost use Rattle.std.specs.Prelude.{◌≡◌, ◌+◌, ◌^◌, ◌<◌, ◌≤◌, ◌⊎◌, length, map, All};
ghost use Rattle.nv_places.specs.Flat.{flat};
ghost use Rattle.nv_lines.specs.Chunks.{chunk_lines, IsChunk};
ghost use Rattle.nv_lines.specs.inside.Starts.{IsStart};
ghost use Rattle.nv_lines.specs.inside.Edits.{CanShift, shifted_start};

use crate::chunk::Chunk;
use crate::finding::{Start, first_start, start_after};

/// What a chunk lost and gained in an edit: rows, and bytes of flat text.
#[derive(Clone, Copy)]
pub struct Shift {
    pub chunk: usize,
    pub rows_lost: usize,
    pub rows_gained: usize,
    pub bytes_lost: u64,
    pub bytes_gained: u64,
}

impl Start {
    // The start after an edit in one chunk.
    fn shifted(self, by: Shift) -> Start
        requires { CanShift by self }
        ensures { result ≡ shifted_start by self }
    {
        if self.chunk <= by.chunk {
            return self;
        }
        Start {
            chunk: self.chunk,
            row: self.row - by.rows_lost + by.rows_gained,
            offset: self.offset - by.bytes_lost + by.bytes_gained,
        }
    }
}

// The starts after an edit in one chunk.
fn shift_each(starts: &mut [Start], by: Shift)
    requires { All (CanShift by) starts.old }
    ensures { starts.new ≡ map (shifted_start by) starts.old }
{
    for start in starts.iter_mut() {
        *start = start.shifted(by);
    }
}

/// The starts after an edit in one chunk.
pub fn shift_starts(starts: &mut Vec<Start>, by: Shift)
    requires { All (CanShift by) starts.old.items }
    ensures { starts.new.items ≡ map (shifted_start by) starts.old.items }
{
    shift_each(starts.as_mut_slice(), by);
}

// Keeps the start of each 32nd chunk, where there is memory for it.
fn keep_start(starts: &mut Vec<Start>, chunks: &[Chunk], at: Start)
    requires starts { All (IsStart chunks.now) starts.old.items }
    requires start { IsStart chunks.now at }
    ensures { All (IsStart chunks.now) starts.new.items }
{
    let _ = chunks;
    if at.chunk % 32 == 0 {
        let _ = starts.push(at);
    }
}

/// Makes the starts anew: one of each 32nd chunk, or fewer where memory is wanting.
pub fn make_starts(starts: &mut Vec<Start>, chunks: &[Chunk])
    requires each { All IsChunk chunks.now }
    requires small { length (flat (chunk_lines chunks.now)) < 2 ^ 64 }
    ensures { All (IsStart chunks.now) starts.new.items }
{
    starts.clear();
    let mut at = first_start(chunks);
    for place in 0..chunks.len() {
        let _ = place;
        keep_start(starts, chunks, at);
        at = start_after(chunks, at);
    }
}
