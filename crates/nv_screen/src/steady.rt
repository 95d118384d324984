//! Which rows of the screen stay the same from one scene to the next.

ghost use Rattle.nv_linedraw.specs.declared.looks.Looks.{Looks};
ghost use Rattle.nv_screen.specs.declared.scene.Bars.{Bars as SpecBars};
ghost use Rattle.nv_screen.specs.declared.scene.SceneLine.{SceneLine as SpecLine};
ghost use Rattle.nv_screen.specs.Drawing.{status_row};
ghost use Rattle.nv_screen.specs.Sound.{IsDrawable, IsSoundScene};
ghost use Rattle.nv_screen.specs.Steady.{AreSteady};
ghost use Rattle.nv_screen.specs.inside.Steadiness.{AgreeAt, AllAgreeAt, AreLowered, HaveSameShape, ShowsSame};
ghost use Rattle.std.specs.Prelude.{◌≡◌, ◌<◌, ◌≤◌, ◌+◌, ◌-◌, ◌∷◌, List, ℕ, All, IfOk, OnOk, false, length, slice_index_or, true};

use crate::same::{are_same_lines, have_same_frame, have_same_shape};
use crate::scene::{Pane, Scene, SceneLine};
use nv_linedraw::first_rows;
use std::alloc::{AllocError, Global};

// Clears the flags of rows, from one to before another.
fn clear_rows(flags: &mut Vec<bool>, from: usize, to: usize)
    ensures lowered { AreLowered flags.old.items flags.new.items }
    ensures cleared { (r : ℕ) → from ≤ r → r < to
        → slice_index_or flags.new.items r false ≡ false }
{
    let end = to.min(flags.len());
    for row in from..end {
        flags[row] = false;
    }
}

// Clears the flags of the rows in which a line differs, of so many from a row on; all of them where
// lines below it move. Gives how many rows are left below it.
fn clear_line(
    alloc: Global,
    flags: &mut Vec<bool>,
    pane: &Pane,
    room: u32,
    old: &SceneLine,
    new: &SceneLine,
) -> Result<u32, AllocError>
    requires drawable { IsDrawable pane.now }
    requires room { room ≤ pane.now.rect.height }
    ensures less { IfOk result (λ left. left ≤ room) }
    ensures lowered { OnOk result (AreLowered flags.old.items flags.new.items) }
    ensures same { IfOk result (λ left. (r : ℕ) → slice_index_or flags.new.items r false ≡ true
        → (ls ms : List SpecLine)
        → ShowsSame pane.now.rect.width pane.now.tabstop
        (pane.now.rect.row + (pane.now.rect.height - left)) left ls ms r
        → ShowsSame pane.now.rect.width pane.now.tabstop
        (pane.now.rect.row + (pane.now.rect.height - room)) room
        (old.now ∷ ls) (new.now ∷ ms) r) }
{
    let width = pane.rect.width;
    let rows = first_rows(alloc, new.bytes.as_slice(), width, pane.tabstop, room)?;
    if are_same_lines(old, new) {
        return Ok(room - rows);
    }
    let at = pane.rect.row as usize + (pane.rect.height - room) as usize;
    let before = first_rows(alloc, old.bytes.as_slice(), width, pane.tabstop, room)?;
    if before != rows {
        clear_rows(flags, at, at + room as usize);
        return Ok(0);
    }
    clear_rows(flags, at, at + rows as usize);
    Ok(room - rows)
}

// Clears the flags of the rows in which the text of a window differs; of all its rows where it
// begins with another line of the buffer, since texts that move are seldom the same row by row.
fn clear_text(
    alloc: Global,
    flags: &mut Vec<bool>,
    old: &Pane,
    new: &Pane,
) -> Result<(), AllocError>
    requires drawable { IsDrawable new.now }
    ensures lowered { OnOk result (AreLowered flags.old.items flags.new.items) }
    ensures same { OnOk result ((r : ℕ) → slice_index_or flags.new.items r false ≡ true
        → ShowsSame new.now.rect.width new.now.tabstop new.now.rect.row new.now.rect.height
        old.now.lines.items new.now.lines.items r) }
{
    if old.top != new.top {
        let row = new.rect.row as usize;
        clear_rows(flags, row, row + new.rect.height as usize);
        return Ok(());
    }
    let olds = old.lines.as_slice();
    let news = new.lines.as_slice();
    let count = olds.len().min(news.len());
    let mut room = new.rect.height;
    for k in 0..count {
        if room == 0 {
            return Ok(());
        }
        room = clear_line(alloc, flags, new, room, &olds[k], &news[k])?;
    }
    if olds.len() != news.len() {
        let end = new.rect.row as usize + new.rect.height as usize;
        clear_rows(flags, end - room as usize, end);
    }
    Ok(())
}

// Clears the flag of the row of a window's status line, where it differs.
fn clear_status(flags: &mut Vec<bool>, old: &Pane, new: &Pane)
    requires shape { HaveSameShape old.now new.now }
    ensures lowered { AreLowered flags.old.items flags.new.items }
    ensures same { (r : ℕ) → slice_index_or flags.new.items r false ≡ true
        → (bars : SpecBars) → r ≡ new.now.rect.row + new.now.rect.height
        → status_row bars old.now ≡ status_row bars new.now }
{
    if old.current == new.current && old.status.as_slice() == new.status.as_slice() {
        return;
    }
    let row = new.rect.row as usize + new.rect.height as usize;
    clear_rows(flags, row, row + 1);
}

// Clears the flags of the rows in which a window differs; all flags where its place does.
fn clear_pane(
    alloc: Global,
    flags: &mut Vec<bool>,
    old: &Pane,
    new: &Pane,
) -> Result<(), AllocError>
    requires drawable { IsDrawable new.now }
    ensures lowered { OnOk result (AreLowered flags.old.items flags.new.items) }
    ensures same { OnOk result ((r : ℕ) → slice_index_or flags.new.items r false ≡ true
        → AgreeAt old.now new.now r) }
{
    if !have_same_shape(old, new) {
        let count = flags.len();
        clear_rows(flags, 0, count);
        return Ok(());
    }
    clear_text(alloc, flags, old, new)?;
    clear_status(flags, old, new);
    Ok(())
}

// Clears the flags of the rows in which windows differ.
fn clear_panes(
    alloc: Global,
    flags: &mut Vec<bool>,
    olds: &[Pane],
    news: &[Pane],
) -> Result<(), AllocError>
    requires drawable { All IsDrawable news.now }
    requires count { length olds.now ≡ length news.now }
    ensures lowered { OnOk result (AreLowered flags.old.items flags.new.items) }
    ensures same { OnOk result ((r : ℕ) → slice_index_or flags.new.items r false ≡ true
        → AllAgreeAt olds.now news.now r) }
{
    for k in 0..news.len() {
        clear_pane(alloc, flags, &olds[k], &news[k])?;
    }
    Ok(())
}

/// Which rows of the screen surely show the same in both scenes, from the top: one flag a row. A
/// row whose flag isn't set may show the same too. Where anything but the texts and status lines of
/// windows differs, or a patch lies on either scene, no flag is set.
pub fn steady_rows(alloc: Global, before: &Scene, now: &Scene) -> Result<Vec<bool>, AllocError>
    requires before { IsSoundScene before.now }
    requires now { IsSoundScene now.now }
    ensures count { IfOk result (λ flags. length flags.items ≡ now.now.height) }
    ensures steady { IfOk result (λ flags. AreSteady flags.items before.now now.now) }
{
    let count = now.height as usize;
    if !have_same_frame(before, now) {
        let none = vec![in alloc; false; count]?;
        return Ok(none);
    }
    let mut flags = vec![in alloc; true; count]?;
    clear_panes(
        alloc,
        &mut flags,
        before.panes.as_slice(),
        now.panes.as_slice(),
    )?;
    Ok(flags)
}
