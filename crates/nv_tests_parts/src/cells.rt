//! Cells laid in rows, each call once that no session reaches.

use nv_hl::{Attr, Cell, Grid};
use nv_linedraw::{Looks, cells, rows};
use std::alloc::{AllocError, Global};
use std::test::Fail;

const LOOKS: Looks = Looks {
    nontext: Attr::EMPTY,
    special: Attr::EMPTY,
    beyond: Attr::EMPTY,
};

// The texts of cells one behind another, with a dot for each right half of a pair.
fn put_texts(texts: &mut Vec<u8>, cells: &[Cell]) -> Result<(), AllocError> {
    for cell in cells {
        if cell.is_right_half() {
            texts.push(b'.')?;
        }
        texts.extend_from_slice(cell.text.as_slice())?;
    }
    texts.push(b'\n')?;
    Ok(())
}

// A letter and a wide character.
fn pair(alloc: Global) -> Result<Vec<Cell>, AllocError> {
    let mut cells = Vec::with_capacity(alloc, 3)?;
    cells.push(Cell::from_byte(b'a', Attr::EMPTY))?;
    cells.push(Cell::new(alloc, b"\xE4\xB8\x96", Attr::EMPTY)?)?;
    cells.push(Cell::right_half(Attr::EMPTY))?;
    Ok(cells)
}

// A screen of 3 by 2 cells in whose lower row they are laid from the second column on, and below
// which nothing is laid.
fn laid(alloc: Global) -> Result<Grid, AllocError> {
    let mut grid = Grid::blank(alloc, 3, 2)?;
    grid.lay(1, 1, pair(alloc)?);
    grid.lay(2, 0, Vec::new(alloc));
    Ok(grid)
}

fn texts_of_grid(alloc: Global) -> Result<Vec<u8>, AllocError> {
    let grid = laid(alloc)?;
    let mut texts = Vec::new(alloc);
    for row in grid.rows() {
        put_texts(&mut texts, row.cells())?;
    }
    Ok(texts)
}

// What passes the end of the row is left out.
#[test]
fn cells_are_laid_in_a_grid(rt: HostRuntime) -> Result<(), Fail> {
    assert!(rt; texts_of_grid(rt.alloc())?.as_slice() == "   \n a世\n".as_bytes());
    Ok(())
}

// A Tab, a wide character at the edge, a letter with an accent and a byte that is no character.
const ODD: &[u8] = b"a\tx\xE4\xB8\x96e\xCC\x81\xFF";

// The texts of its cells in rows of 10, and how many rows there are.
fn texts_of_line(alloc: Global) -> Result<(Vec<u8>, u32), AllocError> {
    let mut texts = Vec::new(alloc);
    put_texts(
        &mut texts,
        cells(alloc, ODD, &[], 10, 8, &LOOKS)?.as_slice(),
    )?;
    let count = rows(alloc, ODD, 10, 8)?;
    Ok((texts, count))
}

#[test]
fn an_odd_line_is_laid(rt: HostRuntime) -> Result<(), Fail> {
    let (texts, count) = texts_of_line(rt.alloc())?;
    let wanted = b"a       x>\xE4\xB8\x96.e\xCC\x81<ff>   \n";
    assert!(rt; count == 2 && texts.as_slice() == wanted.as_slice());
    Ok(())
}
