// Draws a scene again and again: what bench/draw.py measures.
ghost use Rattle.nv_screen.specs.Sound.{IsDrawable};
ghost use Rattle.std.specs.Prelude.{All, IsTrue};

use nv_hl::{Attr, Cell, Colours, Grid};
use nv_layout::Rect;
use nv_linedraw::{Looks, Span};
use nv_lines::{Line, is_line};
use nv_screen::{Bars, Pane, Scene, SceneLine, Spot, draw};
use std::alloc::{AllocError, Global};
use std::io;

const RED: Attr = Attr {
    fg: Some(0xFF0000),
    ..Attr::EMPTY
};

const BOLD: Attr = Attr {
    bold: true,
    ..Attr::EMPTY
};

const LOOKS: Looks = Looks {
    nontext: BOLD,
    special: BOLD,
    beyond: BOLD,
};

const BARS: Bars = Bars {
    current: Attr {
        reverse: true,
        ..BOLD
    },
    other: Attr {
        reverse: true,
        ..Attr::EMPTY
    },
    separator: Attr::EMPTY,
};

const COLOURS: Colours = Colours {
    fg: 16777215,
    bg: 0,
    sp: 16711680,
    cterm_fg: 0,
    cterm_bg: 0,
};

/// A line of so many letters, the same words again and again.
fn line_of(alloc: Global, count: usize) -> Result<Line, AllocError> {
    let words = b"let word = first(line, col + 1)?;   ";
    let mut bytes = Vec::with_capacity(alloc, count)?;
    let mut at = 0;
    for _ in 0..count {
        if at >= words.len() {
            at = 0;
        }
        bytes.push(words[at])?;
        at += 1;
    }
    if !is_line(bytes.as_slice()) {
        return Line::new(alloc);
    }
    Line::from_vec(bytes)
}

/// A line of a scene with three coloured words.
fn scene_line(alloc: Global, row: u32, count: usize) -> Result<SceneLine, AllocError> {
    let mut spans = Vec::with_capacity(alloc, 3)?;
    for from in [0, 11, 23] {
        spans.push(Span {
            from,
            to: from + 5,
            attr: if from == 11 { BOLD } else { RED },
            eol: false,
        })?;
    }
    Ok(SceneLine {
        row,
        bytes: line_of(alloc, count)?,
        spans,
    })
}

/// A window of 40 rows with its status line, in which each of so many lines has so many bytes.
fn pane(
    alloc: Global,
    col: u32,
    width: u32,
    rows: u32,
    count: usize,
    current: bool,
) -> Result<Pane, AllocError> {
    let mut lines = Vec::new(alloc);
    for row in 0..rows {
        lines.push(scene_line(alloc, row, count)?)?;
    }
    Ok(Pane {
        window: 1000,
        buffer: 1,
        tick: 2,
        tabstop: 8,
        rect: Rect {
            row: 0,
            col,
            width,
            height: 38,
        },
        top: 0,
        current,
        count: rows,
        lines,
        status: line_of(alloc, 20)?,
    })
}

fn scene(alloc: Global, panes: Vec<Pane>, separators: Vec<Rect>) -> Scene {
    Scene {
        width: 120,
        height: 40,
        panes,
        separators,
        cursor: Spot {
            window: 1000,
            row: 0,
            byte: 0,
        },
        looks: LOOKS,
        bars: BARS,
        colours: COLOURS,
        patches: Vec::new(alloc),
    }
}

/// Two windows side by side, most of whose lines are shorter than the window is wide.
fn screen(alloc: Global) -> Result<Scene, AllocError> {
    let mut panes = Vec::new(alloc);
    panes.push(pane(alloc, 0, 60, 38, 55, true)?)?;
    panes.push(pane(alloc, 61, 59, 38, 50, false)?)?;
    let mut separators = Vec::new(alloc);
    separators.push(Rect {
        row: 0,
        col: 60,
        width: 1,
        height: 39,
    })?;
    Ok(scene(alloc, panes, separators))
}

/// One window with one line that is far longer than the window.
fn long(alloc: Global) -> Result<Scene, AllocError> {
    let mut panes = Vec::new(alloc);
    panes.push(pane(alloc, 0, 120, 1, 1_000_000, true)?)?;
    Ok(scene(alloc, panes, Vec::new(alloc)))
}

/// The cells that aren't plain spaces.
fn shown(grid: &Grid) -> usize {
    let space = Cell::space(Attr::EMPTY);
    let mut count = 0usize;
    for row in grid.rows() {
        for cell in row.cells() {
            if !cell.is_same(&space) {
                count = count.saturating_add(1);
            }
        }
    }
    count
}

fn is_drawable(scene: &Scene) -> bool
    ensures { IsTrue result → All IsDrawable scene.now.panes.items }
{
    for pane in scene.panes.as_slice() {
        if pane.rect.width == 0 || pane.tabstop == 0 {
            return false;
        }
    }
    true
}

/// Draws so often a screen of 120 by 40 cells (two windows with coloured text, their status lines
/// and a separator), or a window of 40 rows with one line of 1,000,000 bytes, and prints the number
/// of cells of the last screen that aren't plain spaces.
pub(crate) fn run(rt: &HostRuntime, is_long: bool, times: u32) -> io::Result<()> {
    let alloc = rt.alloc();
    let scene = if is_long {
        long(alloc)?
    } else {
        screen(alloc)?
    };
    let mut count = 0;
    for _ in 0..times {
        if is_drawable(&scene) {
            let grid = draw(alloc, &scene)?;
            count = grid.height() as usize;
        }
    }
    if is_drawable(&scene) {
        count = shown(&draw(alloc, &scene)?);
    }
    println!(rt; "{count} cells")
}
