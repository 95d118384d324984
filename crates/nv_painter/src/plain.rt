//! Rows of printable ASCII without attributes, and the events that tell them: no cell is drawn.

ghost use Rattle.nv_hl.specs.declared.attribute.Attr.{Attr as SpecAttr};
ghost use Rattle.nv_linegrid.specs.Client.{shown_of};
ghost use Rattle.nv_linegrid.specs.declared.event.Redraw.TheVariants.{LineOf};
ghost use Rattle.nv_linegrid.specs.Rows.{end_due, first_due, is_due, line_of_row, run_of, runs_of, shows_cell};
ghost use Rattle.nv_linegrid.specs.Told.{shown_cell};
ghost use Rattle.nv_painter.specs.inside.Due.{ShowsBut};
ghost use Rattle.nv_painter.specs.inside.Lent.{plain_cells};
ghost use Rattle.nv_painter.specs.inside.Plain.{byte_shown, plain_shown};
ghost use Rattle.nv_painter.specs.inside.Telling.{runs_with};
ghost use Rattle.std.specs.Prelude.{◌≡◌, ◌<◌, ◌≤◌, ◌+◌, ◌-◌, ◌^◌, ◌++◌, ◌∷◌, ◌&&◌, ◌==◌, ℕ, List, [], None, Some, IfOk, OnOk, drop, get_or, length, map, nat_lt, pos, take};

use crate::lent::plain_count;
use crate::lines::{is_last, one_before, one_behind};
use crate::shown::{ShownCell, ShownRow, byte_at};
use nv_hl::CellText;
use nv_linegrid::{Redraw, Run, Runs};
use std::alloc::{AllocError, Global};

// Whether a row shows a byte without an attribute at a place.
fn shows_byte(row: &[Option<ShownCell>], at: usize, byte: u8) -> bool
    ensures { result ≡ shows_cell (get_or row.now at None) (shown_of (byte ∷ []) 0) }
{
    if at >= row.len() {
        return false;
    }
    match &row[at] {
        Some(shown) => shown.id == 0 && shown.text.as_slice() == [byte].as_slice(),
        None => false,
    }
}

// Whether the cell at a place is due.
fn is_due_byte(row: &[Option<ShownCell>], bytes: &[u8], at: usize) -> bool
    ensures { (width : ℕ) → at < length (plain_shown width bytes.now)
        → result ≡ is_due row.now (plain_shown width bytes.now) at }
{
    !shows_byte(row, at, byte_at(bytes, at))
}

// The first due cell of so many from one on, or the end.
fn first_due_byte(row: &[Option<ShownCell>], bytes: &[u8], from: usize, count: usize) -> usize
    requires { from ≤ count }
    ensures { (width : ℕ) → count ≡ length (plain_shown width bytes.now)
        → result ≡ first_due row.now (plain_shown width bytes.now) (count - from) from }
{
    for k in from..count {
        if is_due_byte(row, bytes, k) {
            return k;
        }
    }
    count
}

// The end of the last due cell before one.
fn end_due_byte(row: &[Option<ShownCell>], bytes: &[u8], to: usize) -> usize
    ensures end { (width : ℕ) → to ≤ length (plain_shown width bytes.now)
        → result ≡ end_due row.now (plain_shown width bytes.now) to }
    ensures within { result ≤ to }
{
    for k in (0..to).rev() {
        if is_due_byte(row, bytes, k) {
            return k + 1;
        }
    }
    0
}

// Whether the cell at a place and the next one show the same byte.
fn is_same_next(bytes: &[u8], at: usize, end: usize) -> bool
    requires { at < end }
    ensures { result ≡ (nat_lt (at + 1) end
        && (get_or bytes.now at 32 == get_or bytes.now (at + 1) 32)) }
{
    at + 1 < end && byte_at(bytes, at) == byte_at(bytes, at + 1)
}

// So many cells of a byte, where an id was told last.
fn run_of_byte(last: Option<u64>, byte: u8, count: u32) -> Run
    ensures { result ≡ run_of last (byte_shown byte) count }
{
    let text = CellText::from_byte(byte);
    if count > 1 {
        return Run::Times(text, 0, count);
    }
    if is_last(last, 0) {
        return Run::Same(text);
    }
    Run::One(text, 0)
}

// One cell more: it joins the next one, or its run ends. Gives the id that is told last then, and
// how many cells the next run has before it.
fn push_byte(
    runs: &mut Vec<Run>,
    bytes: &[u8],
    at: usize,
    end: usize,
    last: Option<u64>,
    count: u32,
) -> Result<(Option<u64>, u32), AllocError>
    requires within { at < end }
    requires long { end < 2 ^ 32 }
    requires count { count ≤ at + 1 }
    ensures runs { IfOk result (λ next. (width : ℕ) → end ≤ length (plain_shown width bytes.now)
        → runs.new.items
        ++ runs_with next.0 next.1 (drop (at + 1) (take end (plain_shown width bytes.now)))
        ≡ runs.old.items
        ++ runs_with last count (drop at (take end (plain_shown width bytes.now)))) }
    ensures count { IfOk result (λ next. next.1 ≤ at + 2) }
{
    if is_same_next(bytes, at, end) {
        return Ok((last, count + 1));
    }
    let run = run_of_byte(last, byte_at(bytes, at), count);
    runs.push(run)?;
    Ok((Some(0), 1))
}

// The fewest runs that tell the cells from one to before another.
fn runs_of_bytes(alloc: Global, bytes: &[u8], first: usize, end: usize) -> Result<Runs, AllocError>
    requires order { first ≤ end }
    requires long { end < 2 ^ 32 }
    ensures { IfOk result (λ runs. (width : ℕ) → end ≤ length (plain_shown width bytes.now)
        → runs ≡ runs_of (take (end - first) (drop first (plain_shown width bytes.now)))) }
{
    let mut runs = Vec::with_capacity(alloc, end - first)?;
    let mut last = None;
    let mut count = 1;
    for k in first..end {
        let next = push_byte(&mut runs, bytes, k, end, last, count)?;
        last = next.0;
        count = next.1;
    }
    Ok(Runs::from_vec(runs))
}

// Tells runs of a row from a column on.
fn push_runs(events: &mut Vec<Redraw>, row: u32, col: usize, cells: Runs) -> Result<(), AllocError>
    requires { col < 2 ^ 32 }
    ensures { OnOk result (events.new.items
        ≡ events.old.items ++ LineOf (pos 1) row col cells ∷ []) }
{
    events.push(Redraw::LineOf {
        grid: 1,
        row,
        col: col as u32,
        cells,
    })?;
    Ok(())
}

/// Tells a row from its first due cell to its last, of bytes with spaces behind them. It then shows
/// these.
pub fn push_plain(
    alloc: Global,
    events: &mut Vec<Redraw>,
    number: u32,
    row: &mut ShownRow,
    due: (usize, usize),
    bytes: &[u8],
    width: u32,
) -> Result<(), AllocError>
    requires { length (plain_cells width bytes.now) < 2 ^ 32 }
    ensures events { OnOk result ((attrs : List SpecAttr)
        → ShowsBut attrs (plain_cells width bytes.now) row.old due.0 due.1
        → events.new.items ≡ events.old.items
        ++ line_of_row number row.old (map (shown_cell attrs) (plain_cells width bytes.now))) }
    ensures row { OnOk result ((attrs : List SpecAttr)
        → ShowsBut attrs (plain_cells width bytes.now) row.old due.0 due.1
        → row.new ≡ map Some (map (shown_cell attrs) (plain_cells width bytes.now))) }
{
    let count = plain_count(bytes, width);
    let first = first_due_byte(row.cells(), bytes, one_before(due.0, count), count);
    let end = end_due_byte(row.cells(), bytes, one_behind(due.1, count));
    if first >= end {
        return Ok(());
    }
    let runs = runs_of_bytes(alloc, bytes, first, end)?;
    push_runs(events, number, first, runs)?;
    row.put_bytes(bytes, first, end);
    Ok(())
}
