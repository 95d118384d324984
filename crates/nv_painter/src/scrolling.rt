//! Windows whose text moved.

ghost use Rattle.nv_linegrid.specs.Client.{cells_from, row_between, row_from};
ghost use Rattle.nv_linegrid.specs.Scrolls.{is_same_text, rows_after_shift, rows_after_shifts, scroll_of, shift_between, shift_by, shift_in, shifts_between};
ghost use Rattle.nv_painter.specs.inside.Moving.{AreForgotten, AreTurned, AreWide, ComesFrom, EndsInReach, StaysIn, row_after_shift, rows_up};
ghost use Rattle.std.specs.Ordering.{int_eq};
ghost use Rattle.std.specs.Prelude.{◌≡◌, ◌<◌, ◌≤◌, ◌-◌, ◌++◌, ◌∷◌, ◌&&◌, ◌==◌, ℕ, [], All, IfOk, IfSome, IsTrue, MatchOption, None, OnOk, false, get_or, if◌then◌else◌, length, map, min, nat_le, nat_lt, sum, take, true};

use crate::shown::{ShownCell, ShownRow};
use crate::view::PaneView;
use nv_linegrid::Redraw;
use std::alloc::{AllocError, Global};
use std::marker::Model;

/// A rectangle whose rows move.
#[derive(Drop)]
pub struct Shift {
    top: u32,
    bot: u32,
    left: u32,
    right: u32,
    /// By so many rows.
    rows: u32,
    /// Down, and else up.
    is_down: bool,
}

impl Model for Shift {
    ghost use Rattle.nv_linegrid.specs.Scrolls.{Shift as Moved};
    ghost use Rattle.nv_painter.specs.inside.Moving.{rows_up};

    ghost Value = { Moved };

    ghost view = { λ s. record {
      top = s.top;
      bot = s.bot;
      left = s.left;
      right = s.right;
      rows = rows_up s.rows s.is_down;
    } };
}

// Whether it is the same window at the same place.
fn is_same_rect(a: &PaneView, b: &PaneView) -> bool
    ensures { result ≡ (int_eq a.now.window b.now.window && (a.now.row == b.now.row)
        && (a.now.col == b.now.col) && (a.now.width == b.now.width)
        && (a.now.height == b.now.height)) }
{
    a.window == b.window
        && a.row == b.row
        && a.col == b.col
        && a.width == b.width
        && a.height == b.height
}

fn is_same_text(a: &PaneView, b: &PaneView) -> bool
    ensures { result ≡ is_same_text a.now b.now }
{
    is_same_rect(a, b) && a.buffer == b.buffer && a.tick == b.tick && a.tabstop == b.tabstop
}

// The rows of the first lines, or `most` where there are more.
fn rows_of_first(heights: &[u32], count: usize, most: u32) -> u32
    requires { count ≤ length heights.now }
    ensures { result ≡ min most (sum (take count heights.now)) }
{
    let mut rows = 0;
    for height in &heights[..count] {
        if *height >= most - rows {
            return most;
        }
        rows += *height;
    }
    rows
}

// The shift of a window's text by so many rows, at most as many as it has.
fn shift_by(view: &PaneView, rows: u32, is_down: bool) -> Option<Shift>
    requires { EndsInReach view.now }
    ensures { MatchOption result (shift_by view.now (rows_up rows is_down) rows ≡ [])
        (λ s. shift_by view.now (rows_up rows is_down) rows ≡ s ∷ []) }
{
    if rows == 0 || rows >= view.height {
        return None;
    }
    Some(Shift {
        top: view.row,
        bot: view.row + view.height,
        left: view.col,
        right: view.col + view.width,
        rows,
        is_down,
    })
}

// How the text of a window moved.
fn shift_between(old: &PaneView, new: &PaneView) -> Option<Shift>
    requires { EndsInReach new.now }
    ensures { MatchOption result (shift_between old.now new.now ≡ [])
        (λ s. shift_between old.now new.now ≡ s ∷ []) }
{
    let is_down = new.first < old.first;
    let (lines, upper) = if is_down {
        (old.first - new.first, new)
    } else {
        (new.first - old.first, old)
    };
    let count = lines as usize;
    if count > upper.heights.len() {
        return None;
    }
    let rows = rows_of_first(upper.heights.as_slice(), count, new.height);
    shift_by(new, rows, is_down)
}

// How the text of a window moved that was shown among others.
fn shift_in(olds: &[PaneView], new: &PaneView) -> Option<Shift>
    requires { EndsInReach new.now }
    ensures { MatchOption result (shift_in olds.now new.now ≡ [])
        (λ s. shift_in olds.now new.now ≡ s ∷ []) }
{
    for old in olds {
        if is_same_text(old, new) {
            return shift_between(old, new);
        }
    }
    None
}

// ---- rows

fn copy_at(
    alloc: Global,
    cells: &[Option<ShownCell>],
    at: usize,
) -> Result<Option<ShownCell>, AllocError>
    ensures { IfOk result (λ cell. cell ≡ get_or cells.now at None) }
{
    if at >= cells.len() {
        return Ok(None);
    }
    match &cells[at] {
        Some(cell) => Ok(Some(cell.copy(alloc)?)),
        None => Ok(None),
    }
}

// The cell of one row between two columns, and else of another.
fn cell_between(
    alloc: Global,
    row: &[Option<ShownCell>],
    source: &[Option<ShownCell>],
    left: usize,
    right: usize,
    at: usize,
) -> Result<Option<ShownCell>, AllocError>
    ensures { IfOk result (λ cell. cell ≡ (if nat_le left at && nat_lt at right
        then get_or source.now at None
        else get_or row.now at None)) }
{
    if left <= at && at < right {
        return copy_at(alloc, source, at);
    }
    copy_at(alloc, row, at)
}

// A row with the cells of another in the columns from `left` to before `right`.
fn row_between(
    alloc: Global,
    row: &[Option<ShownCell>],
    source: &[Option<ShownCell>],
    left: usize,
    right: usize,
) -> Result<ShownRow, AllocError>
    ensures { IfOk result (λ r. r ≡ row_between left right source.now 0 row.now) }
{
    let mut cells = Vec::with_capacity(alloc, row.len())?;
    for k in 0..row.len() {
        let cell = cell_between(alloc, row, source, left, right, k)?;
        cells.push(cell)?;
    }
    Ok(ShownRow::new(cells))
}

fn copy_row(alloc: Global, row: &ShownRow) -> Result<ShownRow, AllocError>
    ensures { IfOk result (λ r. r ≡ row.now) }
{
    let cells = row.cells();
    let same = row_between(alloc, cells, cells, 0, 0)?;
    Ok(same)
}

// The cells that come to a row, none where they come from outside.
fn source_of<'a>(rows: &'a [ShownRow], shift: &Shift, row: usize) -> &'a [Option<ShownCell>]
    requires { row < length rows.now }
    ensures { result.now ≡ cells_from rows.now
        (row_from shift.now.top shift.now.bot shift.now.rows row) }
{
    let count = shift.rows as usize;
    if shift.is_down && count > 0 {
        if shift.top as usize + count <= row {
            return rows[row - count].cells();
        }
        return &[];
    }
    if row + count < shift.bot as usize && row + count < rows.len() {
        return rows[row + count].cells();
    }
    &[]
}

// Whether a row is one of those that move.
fn has_row(shift: &Shift, row: usize) -> bool
    ensures { result ≡ (nat_le shift.now.top row && nat_lt row shift.now.bot) }
{
    shift.top as usize <= row && row < shift.bot as usize
}

fn row_after_shift(
    alloc: Global,
    rows: &[ShownRow],
    shift: &Shift,
    row: usize,
) -> Result<ShownRow, AllocError>
    requires { row < length rows.now }
    ensures { IfOk result (λ r. r ≡ row_after_shift shift.now rows.now row) }
{
    if has_row(shift, row) {
        let cells = rows[row].cells();
        let source = source_of(rows, shift, row);
        return row_between(
            alloc,
            cells,
            source,
            shift.left as usize,
            shift.right as usize,
        );
    }
    copy_row(alloc, &rows[row])
}

// The rows after a shift, each a copy.
fn copied_rows(alloc: Global, rows: &[ShownRow], shift: &Shift) -> Result<Vec<ShownRow>, AllocError>
    ensures { IfOk result (λ after. after.items ≡ rows_after_shift shift.now rows.now) }
{
    let mut after = Vec::with_capacity(alloc, rows.len())?;
    for k in 0..rows.len() {
        after.push(row_after_shift(alloc, rows, shift, k)?)?;
    }
    Ok(after)
}

// Whether all rows have so many cells.
fn are_wide(rows: &[ShownRow], width: u32) -> bool
    ensures { IsTrue result → AreWide rows.now width }
{
    for k in 0..rows.len() {
        if rows[k].cells().len() != width as usize {
            return false;
        }
    }
    true
}

// Moves the rows from `top` to before `end` up by so many; those that leave come in below.
fn turn_rows(rows: &mut [ShownRow], top: usize, end: usize, count: usize)
    requires top { top ≤ end }
    requires end { end ≤ length rows.old }
    requires count { count ≤ end - top }
    ensures { AreTurned rows.old rows.new top end count }
{
    rows[top..end].rotate_left(count);
}

// Makes the rows from one to before another unknown, of so many cells.
fn forget_rows(
    alloc: Global,
    rows: &mut [ShownRow],
    from: usize,
    to: usize,
    width: u32,
) -> Result<(), AllocError>
    requires from { from ≤ to }
    requires to { to ≤ length rows.old }
    ensures { OnOk result (AreForgotten rows.old rows.new from to width) }
{
    for k in from..to {
        rows[k] = ShownRow::unknown(alloc, width)?;
    }
    Ok(())
}

// Moves whole rows, by a shift that is as wide as they are.
fn move_rows(alloc: Global, rows: &mut [ShownRow], shift: &Shift) -> Result<(), AllocError>
    requires left { shift.now.left ≡ 0 }
    requires wide { AreWide rows.old shift.now.right }
    ensures { OnOk result (rows.new ≡ rows_after_shift shift.now rows.old) }
{
    let end = rows.len().min(shift.bot as usize);
    let top = end.min(shift.top as usize);
    let count = (end - top).min(shift.rows as usize);
    if shift.is_down {
        turn_rows(rows, top, end, end - top - count);
        forget_rows(alloc, rows, top, top + count, shift.right)
    } else {
        turn_rows(rows, top, end, count);
        forget_rows(alloc, rows, end - count, end, shift.right)
    }
}

// The rows after a shift.
fn rows_after_shift(
    alloc: Global,
    rows: Vec<ShownRow>,
    shift: &Shift,
) -> Result<Vec<ShownRow>, AllocError>
    ensures { IfOk result (λ after. after.items ≡ rows_after_shift shift.now rows.items) }
{
    let mut rows = rows;
    if shift.left == 0 && are_wide(rows.as_slice(), shift.right) {
        move_rows(alloc, rows.as_mut_slice(), shift)?;
        return Ok(rows);
    }
    copied_rows(alloc, rows.as_slice(), shift)
}

fn push_scroll(events: &mut Vec<Redraw>, shift: &Shift) -> Result<(), AllocError>
    ensures { OnOk result (events.new.items ≡ events.old.items ++ scroll_of shift.now ∷ []) }
{
    let rows = shift.rows as i64;
    events.push(Redraw::Scroll {
        grid: 1,
        top: shift.top,
        bot: shift.bot,
        left: shift.left,
        right: shift.right,
        rows: if shift.is_down { -rows } else { rows },
    })?;
    Ok(())
}

/// How the texts of windows moved that were shown before.
pub fn shifts_between(
    alloc: Global,
    olds: &[PaneView],
    news: &[PaneView],
) -> Result<Vec<Shift>, AllocError>
    requires { All EndsInReach news.now }
    ensures { IfOk result (λ shifts. shifts.items ≡ shifts_between olds.now news.now) }
{
    let mut shifts = Vec::new(alloc);
    for new in news {
        if let Some(shift) = shift_in(olds, new) {
            shifts.push(shift)?;
        }
    }
    Ok(shifts)
}

/// Whether a shift is as wide as a screen.
pub fn is_whole(shift: &Shift, width: u32) -> bool
    ensures left { IsTrue result → shift.now.left ≡ 0 }
    ensures right { IsTrue result → shift.now.right ≡ width }
{
    shift.left == 0 && shift.right == width
}

/// From which row the one at a place comes, where a shift moves both.
pub fn origin_of(shift: &Shift, row: usize) -> Option<usize>
    ensures { IfSome result (λ from. ComesFrom shift.now row from) }
{
    if !has_row(shift, row) {
        return None;
    }
    let count = shift.rows as usize;
    if shift.is_down && count > 0 {
        if shift.top as usize + count <= row {
            return Some(row - count);
        }
        return None;
    }
    if row + count < shift.bot as usize {
        return Some(row + count);
    }
    None
}

// Clears the flags of rows, from one to before another.
fn clear_rows(flags: &mut Vec<bool>, from: u32, to: u32)
    ensures { (k : ℕ) → get_or flags.new.items k false ≡ true
        → (get_or flags.old.items k false ≡ true) × ((nat_le from k && nat_lt k to) ≡ false) }
{
    let end = flags.len().min(to as usize);
    for k in from as usize..end {
        flags[k] = false;
    }
}

/// Clears the flags of rows that move.
pub fn clear_moved(flags: &mut Vec<bool>, shifts: &[Shift])
    ensures { (k : ℕ) → get_or flags.new.items k false ≡ true
        → (get_or flags.old.items k false ≡ true) × StaysIn shifts.now k }
{
    for shift in shifts {
        clear_rows(flags, shift.top, shift.bot);
    }
}

/// The rows after all shifts.
pub fn rows_after_shifts(
    alloc: Global,
    rows: Vec<ShownRow>,
    shifts: &[Shift],
) -> Result<Vec<ShownRow>, AllocError>
    ensures { IfOk result (λ after. after.items ≡ rows_after_shifts shifts.now rows.items) }
{
    let mut rows = rows;
    for shift in shifts {
        rows = rows_after_shift(alloc, rows, shift)?;
    }
    Ok(rows)
}

/// Tells the scrolls.
pub fn push_scrolls(events: &mut Vec<Redraw>, shifts: &[Shift]) -> Result<(), AllocError>
    ensures { OnOk result (events.new.items ≡ events.old.items ++ map scroll_of shifts.now) }
{
    for shift in shifts {
        push_scroll(events, shift)?;
    }
    Ok(())
}
