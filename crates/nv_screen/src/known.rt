//! Lines whose cells are known already.

ghost use Rattle.nv_screen.specs.Drawing.{pane_cells, scene_cells};
ghost use Rattle.nv_screen.specs.Sound.{IsDrawable};
ghost use Rattle.std.specs.Prelude.{◌≡◌, IfOk, IfSome};

use crate::scene::{Pane, SceneLine};
use nv_hl::Cell;
use nv_linedraw::{Looks, cells};
use std::alloc::{AllocError, Global};

/// Lines whose cells are known, so that they needn't be laid anew.
pub trait KnownLines {
    /// The cells of a line in rows of so many cells, with this width of Tabs, lent where they are
    /// known.
    fn cells_of(&self, line: &SceneLine, width: u32, tabstop: u32, looks: &Looks) -> Option<&[Cell]>
        ensures { IfSome result
            (λ cells. cells.now ≡ scene_cells width tabstop looks.now line.now) };
}

/// No line's cells are known.
#[derive(Clone, Copy)]
pub struct NoLines;

impl KnownLines for NoLines {
    fn cells_of(
        &self,
        _line: &SceneLine,
        _width: u32,
        _tabstop: u32,
        _looks: &Looks,
    ) -> Option<&[Cell]> {
        None
    }
}

/// The cells of a line in a window, one row behind another.
pub fn line_cells(
    alloc: Global,
    line: &SceneLine,
    pane: &Pane,
    looks: &Looks,
) -> Result<Vec<Cell>, AllocError>
    requires { IsDrawable pane.now }
    ensures { IfOk result (λ cells. cells.items ≡ pane_cells pane.now looks.now line.now) }
{
    let width = pane.rect.width;
    let bytes = line.bytes.as_slice();
    cells(
        alloc,
        bytes,
        line.spans.as_slice(),
        width,
        pane.tabstop,
        looks,
    )
}
