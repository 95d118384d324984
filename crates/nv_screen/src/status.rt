//! Status lines.

ghost use Rattle.nv_screen.specs.Drawing.{bar_attr, status_row};
ghost use Rattle.nv_screen.specs.Sound.{IsDrawable};
ghost use Rattle.std.specs.Prelude.{◌≡◌, IfOk};

use crate::laying::{cut_cells, pad};
use crate::scene::{Bars, Pane};
use nv_hl::{Attr, Cell};
use nv_linedraw::cells_in_one_row;
use std::alloc::{AllocError, Global};

fn bar_attr(bars: &Bars, current: bool) -> Attr
    ensures { result ≡ bar_attr bars.now current }
{
    if current { bars.current } else { bars.other }
}

/// The cells of a window's status line.
pub fn status_row(alloc: Global, pane: &Pane, bars: &Bars) -> Result<Vec<Cell>, AllocError>
    requires { IsDrawable pane.now }
    ensures { IfOk result (λ cells. cells.items ≡ status_row bars.now pane.now) }
{
    let width = pane.rect.width;
    let Some(most) = width.checked_add(1) else {
        return Err(AllocError);
    };
    let attr = bar_attr(bars, pane.current);
    let text = pane.status.as_slice();
    let mut cells = cells_in_one_row(alloc, text, attr, pane.tabstop, most)?;
    cut_cells(&mut cells, width as usize);
    let left = (width as usize).saturating_sub(cells.len());
    pad(&mut cells, left, b' ', attr)?;
    Ok(cells)
}
