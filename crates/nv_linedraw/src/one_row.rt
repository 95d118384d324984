//! A text in one row.

ghost use Rattle.nv_linedraw.specs.LineCells.{cells_in_one_row};
ghost use Rattle.nv_linedraw.specs.inside.OneRow.{recoloured};
ghost use Rattle.std.specs.Prelude.{◌≡◌, ◌<◌, IfOk, map, take};

use crate::flow::{Drawn, Flow};
use crate::lines::lay_pieces;
use crate::looks::Looks;
use nv_hl::{Attr, Cell};
use nv_text::first_pieces;
use std::alloc::{AllocError, Global};

const PLAIN: Looks = Looks {
    nontext: Attr::EMPTY,
    special: Attr::EMPTY,
    beyond: Attr::EMPTY,
};

// Gives all cells one attribute.
fn recolour(cells: &mut Vec<Cell>, attr: Attr)
    ensures { cells.new.items ≡ map (recoloured attr) cells.old.items }
{
    for cell in cells.iter_mut() {
        cell.attr = attr;
    }
}

/// The first cells of a text in one row without end, at most so many, all with one attribute; there
/// are none behind its last piece's. Laid in rows that are two columns longer, no pair of them
/// stands at a row's end.
pub fn cells_in_one_row(
    alloc: Global,
    text: &[u8],
    attr: Attr,
    tabstop: u32,
    most: u32,
) -> Result<Vec<Cell>, AllocError>
    requires { 0 < tabstop }
    ensures { IfOk result
        (λ cells. cells.items ≡ take most (cells_in_one_row tabstop attr text.now)) }
{
    let Some(width) = most.checked_add(2) else {
        return Err(AllocError);
    };
    let d = Drawn {
        line: text,
        spans: &[],
        looks: &PLAIN,
        width,
        tabstop,
    };
    let mut flow = Flow {
        cells: Vec::with_capacity(alloc, text.len().min(most as usize))?,
        col: 0,
    };
    let pieces = first_pieces(alloc, text, most as usize)?;
    lay_pieces(&mut flow, alloc, &d, pieces.as_slice(), 0, most as usize)?;
    let mut cells = flow.cells;
    cells.truncate(most as usize);
    recolour(&mut cells, attr);
    Ok(cells)
}
