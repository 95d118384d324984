//! The cells of a virtual text.

ghost use Rattle.nv_hl.specs.Groups.{HasGroup};
ghost use Rattle.nv_notes.specs.Notes.{IsChunkOf};
ghost use Rattle.nv_virt.specs.Texts.{chunk_attr, chunk_cells, chunks_cells};
ghost use Rattle.std.specs.Prelude.{◌≡◌, ◌≤◌, ◌-◌, ◌++◌, All, IfOk, IfSome, OnOk, length, take};

use nv_hl::{Attr, Cell, Groups};
use nv_linedraw::cells_in_one_row;
use nv_notes::Chunk;
use std::alloc::{AllocError, Global};

/// How many cells a Tab of a virtual text takes at most.
pub const TABSTOP: u32 = 8;

// The attribute of a highlight group, if there is one.
fn attr_of(groups: &Groups, group: Option<u32>) -> Attr
    requires { IfSome group (HasGroup groups.now) }
    ensures { result ≡ chunk_attr groups.now group }
{
    match group {
        Some(id) => groups.attr(id),
        None => Attr::EMPTY,
    }
}

// How many cells may come behind others, of at most so many.
fn room_in(cells: &Vec<Cell>, most: u32) -> u32
    requires { length cells.now.items ≤ most }
    ensures { result ≡ most - length cells.now.items }
{
    most - cells.len() as u32
}

// Puts the first cells of a part behind others, so that there are at most so many.
fn push_chunk(
    alloc: Global,
    cells: &mut Vec<Cell>,
    groups: &Groups,
    chunk: &Chunk,
    most: u32,
) -> Result<(), AllocError>
    requires few { length cells.old.items ≤ most }
    requires group { IsChunkOf groups.now chunk.now }
    ensures { OnOk result (cells.new.items ≡ cells.old.items
        ++ take (most - length cells.old.items) (chunk_cells groups.now chunk.now)) }
{
    let left = room_in(cells, most);
    let attr = attr_of(groups, chunk.group);
    let text = chunk.text.as_slice();
    let mut more = cells_in_one_row(alloc, text, attr, TABSTOP, left)?;
    cells.append(&mut more)?;
    Ok(())
}

/// The first cells of the parts of a virtual text, at most so many.
pub fn chunks_cells(
    alloc: Global,
    groups: &Groups,
    chunks: &[Chunk],
    most: u32,
) -> Result<Vec<Cell>, AllocError>
    requires { All (IsChunkOf groups.now) chunks.now }
    ensures { IfOk result
        (λ cells. cells.items ≡ take most (chunks_cells groups.now chunks.now)) }
{
    let mut cells = Vec::new(alloc);
    for chunk in chunks {
        push_chunk(alloc, &mut cells, groups, chunk, most)?;
    }
    Ok(cells)
}
