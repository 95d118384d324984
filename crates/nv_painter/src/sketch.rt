//! Sketches: of a scene only those rows that may differ from the one that was painted last.

ghost use Rattle.nv_painter.specs.Pictures.{views_of};
ghost use Rattle.nv_painter.specs.inside.Last.{IsSketchOf, IsToldOf, IsToldOfLast};
ghost use Rattle.nv_painter.specs.inside.Lent.{AreLike, IsLikeBut, IsOfLine, lent_rows, placed_rows};
ghost use Rattle.nv_painter.specs.inside.Moving.{ComesAsIs, ComesWhole, StayBut};
ghost use Rattle.nv_screen.specs.Drawing.{drawn_rows};
ghost use Rattle.nv_screen.specs.Sound.{IsSoundScene};
ghost use Rattle.std.specs.Prelude.{◌≡◌, ◌<◌, ◌⊎◌, [], ℕ, All, false, true, get_or, IfOk, IfSome, IsTrue, OnOk, length};

use crate::ids::has_flag;
use crate::kept::KeptLines;
use crate::lent::{LentRow, is_same_row, lent_rows, places_of};
use crate::scrolling::{Shift, clear_moved, is_whole, origin_of};
use crate::told::{Sketch, ToldScreen};
use crate::view::PaneView;
use nv_screen::{Scene, steady_rows};
use std::alloc::{AllocError, Global};

// Whether each row without a flag has cells.
fn are_drawn(flags: &[bool], drawn: &[LentRow]) -> bool
    ensures { IsTrue result → (k : ℕ) → k < length drawn.now → get_or flags.now k false ≡ false
        → 0 < length (get_or (lent_rows drawn.now) k []) }
{
    for k in 0..drawn.len() {
        if !has_flag(flags, k) && drawn[k].cells.len() == 0 {
            return false;
        }
    }
    true
}

// Whether a shift brings the row at a place as it is.
fn is_brought(shift: &Shift, before: &[LentRow], drawn: &[LentRow], row: usize) -> bool
    requires before { All IsOfLine before.now }
    requires drawn { All IsOfLine drawn.now }
    requires row { row < length drawn.now }
    ensures { IsTrue result
        → ComesAsIs shift.now (placed_rows before.now) (placed_rows drawn.now) row }
{
    let Some(from) = origin_of(shift, row) else {
        return false;
    };
    from < before.len() && is_same_row(&before[from], &drawn[row])
}

// The places between which a row may differ from the one before, where they are looked for and can
// be told.
fn places_at(
    flags: &[bool],
    before: &[LentRow],
    drawn: &[LentRow],
    row: usize,
) -> Option<(usize, usize)>
    requires before { All IsOfLine before.now }
    requires row { row < length drawn.now }
    ensures { IfSome result (λ d. IsLikeBut (get_or (placed_rows before.now) row [])
        (get_or (lent_rows drawn.now) row []) d.0 d.1) }
{
    if row >= before.len() || has_flag(flags, row) {
        return None;
    }
    places_of(&before[row], &drawn[row])
}

// The same of all rows; those with a flag aren't looked at.
fn places_of_rows(
    alloc: Global,
    flags: &[bool],
    before: &[LentRow],
    drawn: &[LentRow],
) -> Result<Vec<Option<(usize, usize)>>, AllocError>
    requires { All IsOfLine before.now }
    ensures { IfOk result (λ known. AreLike known.items (placed_rows before.now)
        (lent_rows drawn.now)) }
{
    let mut known = Vec::with_capacity(alloc, drawn.len())?;
    for k in 0..drawn.len() {
        let places = places_at(flags, before, drawn, k);
        known.push(places)?;
    }
    Ok(known)
}

// Sets the flags of the rows that a shift brings as they are: of the same line before it and after.
fn flag_brought(flags: &mut Vec<bool>, shift: &Shift, before: &[LentRow], drawn: &[LentRow])
    requires before { All IsOfLine before.now }
    requires drawn { All IsOfLine drawn.now }
    ensures { (k : ℕ) → get_or flags.new.items k false ≡ true
        → (get_or flags.old.items k false ≡ true)
        ⊎ ComesAsIs shift.now (placed_rows before.now) (placed_rows drawn.now) k }
{
    let end = flags.len().min(drawn.len());
    for k in 0..end {
        if is_brought(shift, before, drawn, k) {
            flags[k] = true;
        }
    }
}

// The same where only one window's text moved, and that is as wide as the screen.
fn flag_moved(
    alloc: Global,
    kept: &KeptLines,
    flags: &mut Vec<bool>,
    shifts: &[Shift],
    last: &Scene,
    width: u32,
    drawn: &[LentRow],
) -> Result<(), AllocError>
    requires sound { IsSoundScene last.now }
    requires drawn { All IsOfLine drawn.now }
    ensures { OnOk result ((k : ℕ) → get_or flags.new.items k false ≡ true
        → (get_or flags.old.items k false ≡ true)
        ⊎ ComesWhole shifts.now width (drawn_rows last.now) (placed_rows drawn.now) k) }
{
    if shifts.len() != 1 || !is_whole(&shifts[0], width) {
        return Ok(());
    }
    let before = lent_rows(alloc, kept, last, drawn.len())?;
    flag_brought(flags, &shifts[0], before.as_slice(), drawn);
    Ok(())
}

// Behind the last row without a flag.
fn end_of_open(flags: &[bool]) -> usize {
    for k in (0..flags.len()).rev() {
        if !flags[k] {
            return k + 1;
        }
    }
    0
}

// How many rows without a flag are few: what is known of the scene before isn't worth the look at
// it.
const FEW_ROWS: usize = 2;

fn are_few_open(flags: &[bool]) -> bool {
    let mut open = 0;
    for flag in flags {
        if !*flag {
            if open >= FEW_ROWS {
                return false;
            }
            open += 1;
        }
    }
    true
}

// The same after the scene that was painted last; of no row where windows' texts moved, or where
// few rows have no flag.
fn known_places(
    alloc: Global,
    kept: &KeptLines,
    flags: &[bool],
    shifts: &[Shift],
    last: &Scene,
    drawn: &[LentRow],
) -> Result<Vec<Option<(usize, usize)>>, AllocError>
    requires { IsSoundScene last.now }
    ensures { IfOk result (λ known. StayBut shifts.now known.items (drawn_rows last.now)
        (lent_rows drawn.now)) }
{
    if !shifts.is_empty() || are_few_open(flags) {
        return Ok(Vec::new(alloc));
    }
    let before = lent_rows(alloc, kept, last, end_of_open(flags))?;
    let known = places_of_rows(alloc, flags, before.as_slice(), drawn)?;
    Ok(known)
}

// What differs from the scene that was painted last.
fn sketch_after<'a>(
    alloc: Global,
    told: &ToldScreen,
    kept: &'a KeptLines,
    last: &Scene,
    scene: &'a Scene,
    views: &[PaneView],
) -> Result<Option<Sketch<'a>>, AllocError>
    requires sound { IsSoundScene scene.now }
    requires last { IsToldOf told.now last.now }
    requires views { views.now ≡ views_of scene.now.panes.items }
    ensures { IfOk result (λ sketch. IfSome sketch
        (λ s. IsSketchOf told.now s.shifts.items s.flags.items s.known.items
        (lent_rows s.drawn.items) scene.now)) }
{
    if !told.has_size(scene.width, scene.height) {
        return Ok(None);
    }
    let shifts = told.shifts_to(alloc, views)?;
    let mut flags = steady_rows(alloc, last, scene)?;
    clear_moved(&mut flags, shifts.as_slice());
    let drawn = lent_rows(alloc, kept, scene, end_of_open(flags.as_slice()))?;
    flag_moved(
        alloc,
        kept,
        &mut flags,
        shifts.as_slice(),
        last,
        scene.width,
        drawn.as_slice(),
    )?;
    if !are_drawn(flags.as_slice(), drawn.as_slice()) {
        return Ok(None);
    }
    let known = known_places(
        alloc,
        kept,
        flags.as_slice(),
        shifts.as_slice(),
        last,
        drawn.as_slice(),
    )?;
    Ok(Some(Sketch {
        shifts,
        flags,
        drawn,
        known,
    }))
}

/// What differs from the scene that was painted last, where that was one of the same size, and the
/// rows that may differ are kept. `None` may stand for any scene.
pub fn sketch_of<'a>(
    alloc: Global,
    told: &ToldScreen,
    kept: &'a KeptLines,
    last: Option<Scene>,
    scene: &'a Scene,
    views: &[PaneView],
) -> Result<Option<Sketch<'a>>, AllocError>
    requires sound { IsSoundScene scene.now }
    requires last { IsToldOfLast told.now last }
    requires views { views.now ≡ views_of scene.now.panes.items }
    ensures { IfOk result (λ sketch. IfSome sketch
        (λ s. IsSketchOf told.now s.shifts.items s.flags.items s.known.items
        (lent_rows s.drawn.items) scene.now)) }
{
    match last {
        Some(last) => sketch_after(alloc, told, kept, &last, scene, views),
        None => Ok(None),
    }
}
