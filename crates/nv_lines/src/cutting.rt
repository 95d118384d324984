// Lines that are cut into chunks.
ghost use Rattle.std.specs.Prelude.{◌≡◌, ◌+◌, ◌^◌, ◌<◌, ◌≤◌, ◌++◌, length, IfOk, OnOk, vec_len, vec_capacity};
ghost use Rattle.std.specs.Vec.Iter.{into_iter_items, into_iter_len};
ghost use Rattle.nv_places.specs.Flat.{flat};
ghost use Rattle.nv_lines.specs.Chunks.{IsChunk};
ghost use Rattle.nv_lines.specs.inside.Edits.{IsCutIntoChunks};

use crate::chunk::Chunk;
use crate::listing::LineList;
use crate::measuring::flat_len;
use crate::single::Line;
use std::alloc::{AllocError, Global};
use std::vec::IntoIter;

// Moves the next items to the end of a vector with room for them.
fn move_next<T: Drop>(into: &mut Vec<T>, from: &mut IntoIter<T>, count: usize)
    requires room { vec_len into.old + count ≤ vec_capacity into.old }
    requires there { count ≤ into_iter_len from.old }
    ensures items { into.new.items ++ into_iter_items from.new
        ≡ into.old.items ++ into_iter_items from.old }
    ensures len { vec_len into.new ≡ vec_len into.old + count }
    ensures left { into_iter_len from.new + count ≡ into_iter_len from.old }
{
    'moving: for _ in 0..count {
        if let Some(item) = from.next() {
            into.push_reserved(item);
        }
    }
}

// A chunk of the next lines.
fn next_chunk(alloc: Global, rest: &mut IntoIter<Line>, count: usize) -> Result<Chunk, AllocError>
    requires some { 0 < count }
    requires most { count ≤ 64 }
    requires there { count ≤ into_iter_len rest.old }
    requires small { length (flat (into_iter_items rest.old)) < 2 ^ 64 }
    ensures chunk { IfOk result IsChunk }
    ensures size { IfOk result (λ c. length c.lines ≡ count) }
    ensures lines { IfOk result (λ c. c.lines ++ into_iter_items rest.new
        ≡ into_iter_items rest.old) }
    ensures left { OnOk result (into_iter_len rest.new + count ≡ into_iter_len rest.old) }
{
    let mut lines = Vec::with_capacity(alloc, 64)?;
    move_next(&mut lines, rest, count);
    let bytes = flat_len(&lines);
    let lines = LineList::from_vec(lines).in_common()?;
    Ok(Chunk { lines, bytes })
}

/// The chunks that lines are cut into: 48 lines a chunk while more than 112 are left, and then two
/// halves, or one chunk where at most 64 are left.
pub fn cut(alloc: Global, lines: Vec<Line>) -> Result<Vec<Chunk>, AllocError>
    requires some { 0 < length lines.items }
    requires small { length (flat lines.items) < 2 ^ 64 }
    ensures { IfOk result (λ made. IsCutIntoChunks lines.items made.items) }
{
    let mut left = lines.len();
    let mut made = Vec::with_capacity(alloc, left / 48 + 1)?;
    let mut rest = lines.into_iter();
    'cutting: while left > 112 {
        let chunk = next_chunk(alloc, &mut rest, 48)?;
        made.push(chunk)?;
        left -= 48;
    }
    if left <= 64 {
        let chunk = next_chunk(alloc, &mut rest, left)?;
        made.push(chunk)?;
        return Ok(made);
    }
    let front = next_chunk(alloc, &mut rest, left / 2)?;
    made.push(front)?;
    let back = next_chunk(alloc, &mut rest, left - left / 2)?;
    made.push(back)?;
    Ok(made)
}
