//! Whole screens.

ghost use Rattle.nv_screen.specs.Drawing.{pane_screen, screen_of_scene, with_pane, with_panes, with_separator, with_separators};
ghost use Rattle.nv_screen.specs.Sound.{IsDrawable};
ghost use Rattle.std.specs.Prelude.{◌≡◌, ◌≤◌, All, IfOk, OnOk};

use crate::canvas::Canvas;
use crate::known::{KnownLines, NoLines};
use crate::patches::lay_patches;
use crate::scene::{Bars, Pane, Scene};
use crate::status::status_row;
use crate::text::{Frame, lay_text};
use nv_hl::{Attr, Cell, Grid};
use nv_layout::Rect;
use nv_linedraw::Looks;
use std::alloc::{AllocError, Global};

// Lays a window: its text, and its status line below.
fn lay_pane<K: KnownLines>(
    alloc: Global,
    canvas: &mut Canvas,
    pane: &Pane,
    looks: &Looks,
    bars: &Bars,
    known: &K,
) -> Result<(), AllocError>
    requires { IsDrawable pane.now }
    ensures { OnOk result (canvas.new
        ≡ record canvas.old { rows = with_pane looks.now bars.now canvas.old.rows pane.now }) }
{
    let rect = pane.rect;
    let frame = Frame {
        row: rect.row,
        col: rect.col,
        width: rect.width,
        height: rect.height,
        tabstop: pane.tabstop,
        looks,
    };
    lay_text(alloc, canvas, &frame, pane.lines.as_slice(), known)?;
    let cells = status_row(alloc, pane, bars)?;
    let row = rect.row as usize + rect.height as usize;
    canvas.lay(row, rect.col as usize, cells)?;
    Ok(())
}

fn lay_panes<K: KnownLines>(
    alloc: Global,
    canvas: &mut Canvas,
    panes: &[Pane],
    looks: &Looks,
    bars: &Bars,
    known: &K,
) -> Result<(), AllocError>
    requires { All IsDrawable panes.now }
    ensures { OnOk result (canvas.new
        ≡ record canvas.old { rows = with_panes looks.now bars.now canvas.old.rows panes.now }) }
{
    for pane in panes {
        lay_pane(alloc, canvas, pane, looks, bars, known)?;
    }
    Ok(())
}

fn lay_separator(
    alloc: Global,
    canvas: &mut Canvas,
    rect: &Rect,
    bars: &Bars,
) -> Result<(), AllocError>
    ensures { OnOk result (canvas.new
        ≡ record canvas.old { rows = with_separator bars.now canvas.old.rows rect.now }) }
{
    for k in 0..rect.height {
        let mut cells = Vec::with_capacity(alloc, 1)?;
        cells.push(Cell::new(alloc, &[0xE2, 0x94, 0x82], bars.separator)?)?;
        canvas.lay(rect.row as usize + k as usize, rect.col as usize, cells)?;
    }
    Ok(())
}

fn lay_separators(
    alloc: Global,
    canvas: &mut Canvas,
    rects: &[Rect],
    bars: &Bars,
) -> Result<(), AllocError>
    ensures { OnOk result (canvas.new
        ≡ record canvas.old { rows = with_separators bars.now canvas.old.rows rects.now }) }
{
    for rect in rects {
        lay_separator(alloc, canvas, rect, bars)?;
    }
    Ok(())
}

/// The screen of a scene, as `draw` gives it, where the cells of known lines aren't laid anew.
#[tactic(auto, unfolding(crate::specs::Drawing::drawn_rows))]
pub fn draw_from<K: KnownLines>(alloc: Global, scene: &Scene, known: &K) -> Result<Grid, AllocError>
    requires { All IsDrawable scene.now.panes.items }
    ensures { IfOk result (λ grid. grid ≡ screen_of_scene scene.now) }
{
    let mut canvas = Canvas::blank(alloc, scene.width, scene.height)?;
    let panes = scene.panes.as_slice();
    lay_panes(alloc, &mut canvas, panes, &scene.looks, &scene.bars, known)?;
    lay_separators(alloc, &mut canvas, scene.separators.as_slice(), &scene.bars)?;
    lay_patches(alloc, &mut canvas, scene.patches.as_slice())?;
    let grid = canvas.finish(alloc)?;
    Ok(grid)
}

/// The screen of a scene: its windows and separators on spaces, and its patches over them. What
/// would lie outside the screen is left out.
pub fn draw(alloc: Global, scene: &Scene) -> Result<Grid, AllocError>
    requires { All IsDrawable scene.now.panes.items }
    ensures { IfOk result (λ grid. grid ≡ screen_of_scene scene.now) }
{
    draw_from(alloc, scene, &NoLines)
}

/// The first text rows of a window by themselves, `rows` of them.
pub fn pane_grid(alloc: Global, pane: &Pane, rows: u32, looks: &Looks) -> Result<Grid, AllocError>
    requires drawable { IsDrawable pane.now }
    requires rows { rows ≤ pane.now.rect.height }
    ensures { IfOk result (λ grid. grid ≡ pane_screen looks.now pane.now rows) }
{
    let mut canvas = Canvas::blank(alloc, pane.rect.width, rows)?;
    let frame = Frame {
        row: 0,
        col: 0,
        width: pane.rect.width,
        height: pane.rect.height,
        tabstop: pane.tabstop,
        looks,
    };
    lay_text(alloc, &mut canvas, &frame, pane.lines.as_slice(), &NoLines)?;
    let grid = canvas.finish(alloc)?;
    Ok(grid)
}
