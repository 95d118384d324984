//! A small screen with a patch over it, drawn whole, by a window and by a line.

ghost use Rattle.nv_screen.specs.Sound.{IsDrawable, IsInReach};
ghost use Rattle.std.specs.Prelude.{All, IfOk};

use crate::text_lines::line_of;
use nv_hl::{Attr, Cell, Colours, Grid};
use nv_layout::Rect;
use nv_linedraw::Looks;
use nv_screen::{
    Bars, Pane, Patch, Scene, SceneLine, Spot, cursor_cell, draw, line_cells, pane_grid,
};
use std::alloc::{AllocError, Global};
use std::test::Fail;

// A window of 5 columns and 3 rows with two lines, the second of which has two rows.
fn pane(alloc: Global) -> Result<Pane, AllocError>
    ensures drawable { IfOk result IsDrawable }
    ensures reach { IfOk result IsInReach }
{
    let mut lines = Vec::new(alloc);
    for (row, bytes) in [(0, b"a\tb\x01"), (1, b"cd\xE4\xB8")] {
        lines.push(SceneLine {
            row,
            bytes: line_of(alloc, bytes)?,
            spans: Vec::new(alloc),
        })?;
    }
    Ok(Pane {
        window: 1000,
        buffer: 1,
        tick: 2,
        tabstop: 3,
        rect: Rect {
            row: 0,
            col: 1,
            width: 5,
            height: 3,
        },
        top: 0,
        current: true,
        count: 2,
        lines,
        status: line_of(alloc, b"name")?,
    })
}

// Beside it a separator, and a patch over it.
fn scene(alloc: Global) -> Result<Scene, AllocError>
    ensures drawable { IfOk result (λ s. All IsDrawable s.panes.items) }
    ensures reach { IfOk result (λ s. All IsInReach s.panes.items) }
{
    let mut panes = Vec::new(alloc);
    panes.push(pane(alloc)?)?;
    let mut separators = Vec::new(alloc);
    separators.push(Rect {
        row: 0,
        col: 0,
        width: 1,
        height: 4,
    })?;
    let mut cells = Vec::new(alloc);
    cells.push(Cell::from_byte(b'Z', Attr::EMPTY))?;
    let mut patches = Vec::new(alloc);
    patches.push(Patch {
        row: 2,
        col: 2,
        cells,
    })?;
    Ok(Scene {
        width: 7,
        height: 5,
        panes,
        separators,
        cursor: Spot {
            window: 1000,
            row: 0,
            byte: 3,
        },
        looks: Looks {
            nontext: Attr::EMPTY,
            special: Attr::EMPTY,
            beyond: Attr::EMPTY,
        },
        bars: Bars {
            current: Attr::EMPTY,
            other: Attr::EMPTY,
            separator: Attr::EMPTY,
        },
        colours: Colours {
            fg: 0,
            bg: 0,
            sp: 0,
            cterm_fg: 0,
            cterm_bg: 0,
        },
        patches,
    })
}

// The texts of the cells one behind another.
fn texts(alloc: Global, grid: &Grid) -> Result<Vec<u8>, AllocError> {
    let mut texts = Vec::new(alloc);
    for row in grid.rows() {
        for cell in row.cells() {
            texts.extend_from_slice(cell.text.as_slice())?;
        }
        texts.push(b'\n')?;
    }
    Ok(texts)
}

fn drawn(alloc: Global) -> Result<bool, AllocError> {
    let scene = scene(alloc)?;
    let grid = draw(alloc, &scene)?;
    let texts = texts(alloc, &grid)?;
    let wanted = "│a  b^ \n│A     \n│cZ@@@ \n│name  \n       \n";
    Ok(texts.as_slice() == wanted.as_bytes() && cursor_cell(alloc, &scene)? == (0, 5))
}

fn line_text(alloc: Global) -> Result<Vec<u8>, AllocError> {
    let pane = pane(alloc)?;
    let looks = scene(alloc)?.looks;
    let mut text = Vec::new(alloc);
    for line in pane.lines.as_slice() {
        for cell in line_cells(alloc, line, &pane, &looks)?.as_slice() {
            text.extend_from_slice(cell.text.as_slice())?;
        }
        text.push(b'\n')?;
    }
    Ok(text)
}

#[test]
fn a_scene_is_drawn(rt: HostRuntime) -> Result<(), Fail> {
    assert!(rt; drawn(rt.alloc())?);
    Ok(())
}

#[test]
fn a_line_is_laid_by_itself(rt: HostRuntime) -> Result<(), Fail> {
    assert!(rt; line_text(rt.alloc())?.as_slice() == b"a  b^A    \ncd<e4><b8>\n".as_slice());
    Ok(())
}

fn window_text(alloc: Global) -> Result<Vec<u8>, AllocError> {
    let pane = pane(alloc)?;
    let looks = scene(alloc)?.looks;
    let grid = pane_grid(alloc, &pane, pane.rect.height, &looks)?;
    texts(alloc, &grid)
}

#[test]
fn a_window_is_drawn_by_itself(rt: HostRuntime) -> Result<(), Fail> {
    assert!(rt; window_text(rt.alloc())?.as_slice() == b"a  b^\nA    \ncd@@@\n".as_slice());
    Ok(())
}
