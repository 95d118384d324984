// The lines of chunks, taken out into tables of their own.
ghost use Rattle.std.specs.Prelude.{◌≡◌, ◌+◌, ◌-◌, ◌≤◌, List, [], length, vec_len, vec_capacity, IfOk, OnOk, OnErr, slice_range};
ghost use Rattle.std.specs.List.{splice};
ghost use Rattle.nv_lines.specs.Chunks.{chunk_lines};
ghost use Rattle.nv_lines.specs.inside.Tables.{emptied, refilled, table_lines, AreTakenOut};
ghost use Rattle.nv_lines.specs.declared.chunk.Chunk.{Chunk};

use crate::chunk::Chunk;
use crate::exchange::exchange;
use crate::listing::LineList;
use crate::single::Line;
use std::alloc::{AllocError, Global};
use std::mem;

// Takes the lines of a chunk out. Where memory is wanting they stay.
fn take_table(alloc: Global, chunk: &mut Chunk) -> Result<Vec<Line>, AllocError>
    ensures ok { OnOk result (chunk.new ≡ emptied chunk.old) }
    ensures taken { IfOk result (λ table. table.items ≡ chunk.old.lines) }
    ensures err { OnErr result (chunk.new ≡ chunk.old) }
{
    let list = mem::replace(&mut chunk.lines, LineList::new(alloc));
    match list.into_table() {
        Ok(table) => Ok(table),
        Err(list) => {
            chunk.lines = list;
            Err(AllocError)
        }
    }
}

// Puts lines into a chunk.
fn refill(chunk: &mut Chunk, table: Vec<Line>)
    ensures { chunk.new ≡ refilled table chunk.old }
{
    chunk.lines = LineList::from_vec(table);
}

// Puts the lines that were taken out of chunks back, the last ones first.
fn put_back(chunks: &mut [Chunk], mut tables: Vec<Vec<Line>>)
    requires { length tables.items ≤ length chunks.old }
    ensures { (all : List Chunk) → AreTakenOut tables.items all chunks.old → chunks.new ≡ all }
{
    'putting: while let Some(table) = tables.pop() {
        let place = tables.len();
        refill(&mut chunks[place], table);
    }
}

// Takes the lines of chunks out into tables, for which there is room. Where memory is wanting they
// stay.
fn take_tables(
    chunks: &mut [Chunk],
    mut tables: Vec<Vec<Line>>,
) -> Result<Vec<Vec<Line>>, AllocError>
    requires none { tables.items ≡ [] }
    requires room { vec_len tables + length chunks.old ≤ vec_capacity tables }
    ensures taken { IfOk result (λ taken. AreTakenOut taken.items chunks.old chunks.new) }
    ensures all { IfOk result (λ taken. length taken.items ≡ length chunks.old) }
    ensures err { OnErr result (chunks.new ≡ chunks.old) }
{
    let alloc = *tables.allocator();
    for place in 0..chunks.len() {
        let Ok(table) = take_table(alloc, &mut chunks[place]) else {
            put_back(chunks, tables);
            return Err(AllocError);
        };
        tables.push_reserved(table);
    }
    Ok(tables)
}

/// Puts `new` in place of the chunks from `from` up to before `to`, and gives the lines of each of
/// those in a table. Where memory is wanting nothing changes.
pub fn exchange_chunks(
    chunks: &mut Vec<Chunk>,
    from: usize,
    to: usize,
    new: Vec<Chunk>,
) -> Result<Vec<Vec<Line>>, AllocError>
    requires order { from ≤ to }
    requires within { to ≤ length chunks.old.items }
    ensures ok { OnOk result (chunks.new.items ≡ splice chunks.old.items from to new.items) }
    ensures taken { IfOk result (λ tables. table_lines tables.items
        ≡ chunk_lines (slice_range chunks.old.items from to)) }
    ensures err { OnErr result (chunks.new.items ≡ chunks.old.items) }
{
    let room = Vec::with_capacity(*chunks.allocator(), to - from)?;
    let tables = take_tables(&mut chunks[from..to], room)?;
    let Ok(_) = exchange(chunks, from, to, new) else {
        put_back(&mut chunks[from..to], tables);
        return Err(AllocError);
    };
    Ok(tables)
}
