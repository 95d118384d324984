//! The cells of a row that are due, and the events that tell them.

ghost use Rattle.nv_hl.specs.declared.attribute.Attr.{Attr as SpecAttr};
ghost use Rattle.nv_hl.specs.declared.cell.Cell.{Cell as SpecCell};
ghost use Rattle.nv_linegrid.specs.declared.event.Redraw.TheVariants.{LineOf};
ghost use Rattle.nv_linegrid.specs.Rows.{differs_at, end_due, first_due, is_due, is_last_id, is_right_at, line_of_row, lines_of_rows, run_of, runs_of, same_shown, starts_with_right};
ghost use Rattle.nv_linegrid.specs.Told.{known_rows, shown_cell, shown_rows};
ghost use Rattle.nv_painter.specs.inside.Due.{AreDue, IsDue, ShowsBut};
ghost use Rattle.nv_painter.specs.inside.Lent.{cells_lent, lent_rows};
ghost use Rattle.nv_painter.specs.inside.Telling.{half_at, joins_at, runs_with};
ghost use Rattle.std.specs.Prelude.{◌≡◌, ◌<◌, ◌≤◌, ◌+◌, ◌-◌, ◌^◌, ◌++◌, ◌∷◌, List, [], All, IfOk, OnOk, Some, drop, length, map, min, pos};

use crate::ids::{due_at, id_of, shown_cells};
use crate::lent::{LentCells, LentRow};
use crate::plain::push_plain;
use crate::shown::{ShownCell, ShownRow};
use nv_hl::{Attr, Cell};
use nv_linegrid::{Redraw, Run, Runs};
use std::alloc::{AllocError, Global};

// ---- runs

// Whether the cells from a place on begin with the right half of a pair.
fn is_right_behind(cells: &[ShownCell], at: usize) -> bool
    ensures { result ≡ starts_with_right (drop at cells.now) }
{
    if at >= cells.len() {
        return false;
    }
    let cell = &cells[at];
    cell.text.is_empty()
}

// Whether the cell at a place is half of a pair.
fn is_half_at(cells: &[ShownCell], at: usize) -> bool
    requires { at < length cells.now }
    ensures { result ≡ half_at cells.now at }
{
    let cell = &cells[at];
    cell.text.is_empty() || is_right_behind(cells, at + 1)
}

// Whether the cell at a place and the next one are told as one run.
fn joins_next(cells: &[ShownCell], at: usize) -> bool
    requires { at < length cells.now }
    ensures { result ≡ joins_at cells.now at }
{
    if at + 1 >= cells.len() {
        return false;
    }
    let cell = &cells[at];
    cell.is_same(&cells[at + 1]) && !is_half_at(cells, at) && !is_half_at(cells, at + 1)
}

// So many equal cells, where an id was told last.
fn run_of(alloc: Global, last: Option<u64>, cell: &ShownCell, count: u32) -> Result<Run, AllocError>
    ensures { IfOk result (λ run. run ≡ run_of last cell.now count) }
{
    let text = cell.text.copy(alloc)?;
    if count > 1 {
        return Ok(Run::Times(text, cell.id, count));
    }
    if is_last(last, cell.id) {
        return Ok(Run::Same(text));
    }
    Ok(Run::One(text, cell.id))
}

/// Whether this id was told last.
pub fn is_last(last: Option<u64>, id: u64) -> bool
    ensures { result ≡ is_last_id last id }
{
    match last {
        None => false,
        Some(last) => last == id,
    }
}

// One cell more: it joins the next one, or its run ends. Gives the id that is told last then, and
// how many cells the next run has before it.
fn push_cell(
    alloc: Global,
    runs: &mut Vec<Run>,
    cells: &[ShownCell],
    at: usize,
    last: Option<u64>,
    count: u32,
) -> Result<(Option<u64>, u32), AllocError>
    requires within { at < length cells.now }
    requires long { length cells.now < 2 ^ 32 }
    requires count { count ≤ at + 1 }
    ensures runs { IfOk result (λ next. runs.new.items
        ++ runs_with next.0 next.1 (drop (at + 1) cells.now)
        ≡ runs.old.items ++ runs_with last count (drop at cells.now)) }
    ensures count { IfOk result (λ next. next.1 ≤ at + 2) }
{
    if joins_next(cells, at) {
        return Ok((last, count + 1));
    }
    let cell = &cells[at];
    let run = run_of(alloc, last, cell, count)?;
    runs.push(run)?;
    Ok((Some(cell.id), 1))
}

// The fewest runs that tell these cells.
fn runs_of(alloc: Global, cells: &[ShownCell]) -> Result<Runs, AllocError>
    requires { length cells.now < 2 ^ 32 }
    ensures { IfOk result (λ runs. runs ≡ runs_of cells.now) }
{
    let mut runs = Vec::with_capacity(alloc, cells.len())?;
    let mut last = None;
    let mut count = 1;
    for k in 0..cells.len() {
        let next = push_cell(alloc, &mut runs, cells, k, last, count)?;
        last = next.0;
        count = next.1;
    }
    Ok(Runs::from_vec(runs))
}

// ---- due cells

// Whether a cell that is shown is this one.
fn is_cell(shown: &ShownCell, attrs: &[Attr], cell: &Cell) -> bool
    ensures { result ≡ same_shown shown.now (shown_cell attrs.now cell.now) }
{
    shown.id == id_of(attrs, &cell.attr) && shown.text.is_same(&cell.text)
}

// Whether a cell differs from what is shown at its place.
fn differs_at(old: &[Option<ShownCell>], attrs: &[Attr], cells: &[Cell], at: usize) -> bool
    ensures { result ≡ differs_at old.now (map (shown_cell attrs.now) cells.now) at }
{
    if at >= cells.len() {
        return false;
    }
    if at >= old.len() {
        return true;
    }
    match &old[at] {
        Some(shown) => !is_cell(shown, attrs, &cells[at]),
        None => true,
    }
}

fn is_right_at(cells: &[Cell], at: usize) -> bool
    ensures { (attrs : List SpecAttr)
        → result ≡ is_right_at (map (shown_cell attrs) cells.now) at }
{
    if at >= cells.len() {
        return false;
    }
    let cell = &cells[at];
    cell.text.is_empty()
}

// Whether a cell is due.
#[tactic(auto, unfolding(nv_linegrid::specs::Rows::is_due))]
fn is_due(old: &[Option<ShownCell>], attrs: &[Attr], cells: &[Cell], at: usize) -> bool
    requires { at < length cells.now }
    ensures { result ≡ is_due old.now (map (shown_cell attrs.now) cells.now) at }
{
    differs_at(old, attrs, cells, at)
        || (is_right_at(cells, at) && 0 < at && differs_at(old, attrs, cells, at - 1))
        || (is_right_at(cells, at + 1) && differs_at(old, attrs, cells, at + 1))
}

// The first due cell from one on, or the end.
fn first_due(old: &[Option<ShownCell>], attrs: &[Attr], cells: &[Cell], from: usize) -> usize
    requires { from ≤ length cells.now }
    ensures { result
        ≡ first_due old.now (map (shown_cell attrs.now) cells.now) (length cells.now - from) from }
{
    for k in from..cells.len() {
        if is_due(old, attrs, cells, k) {
            return k;
        }
    }
    cells.len()
}

// The end of the last due cell before one.
fn end_due(old: &[Option<ShownCell>], attrs: &[Attr], cells: &[Cell], to: usize) -> usize
    requires { to ≤ length cells.now }
    ensures end { result ≡ end_due old.now (map (shown_cell attrs.now) cells.now) to }
    ensures within { result ≤ to }
{
    for k in (0..to).rev() {
        if is_due(old, attrs, cells, k) {
            return k + 1;
        }
    }
    0
}

// ---- lines

// Tells the cells of a row from a column on.
fn push_line(
    alloc: Global,
    events: &mut Vec<Redraw>,
    row: u32,
    col: usize,
    cells: &[ShownCell],
) -> Result<(), AllocError>
    requires col { col < 2 ^ 32 }
    requires cells { length cells.now < 2 ^ 32 }
    ensures { OnOk result (events.new.items
        ≡ events.old.items ++ LineOf (pos 1) row col (runs_of cells.now) ∷ []) }
{
    let cells = runs_of(alloc, cells)?;
    events.push(Redraw::LineOf {
        grid: 1,
        row,
        col: col as u32,
        cells,
    })?;
    Ok(())
}

/// The place before one, within so many.
pub fn one_before(at: usize, count: usize) -> usize
    ensures { result ≡ min at count - 1 }
{
    at.min(count).saturating_sub(1)
}

/// The place behind one, within so many.
pub fn one_behind(at: usize, count: usize) -> usize
    ensures { result ≡ min (at + 1) count }
{
    if at < count { at + 1 } else { count }
}

// Tells a row from its first due cell to its last, of cells that were drawn. It then shows these
// cells. Half of a pair is due where the other is, so cells next to those that may differ are
// looked at too.
fn push_drawn(
    alloc: Global,
    events: &mut Vec<Redraw>,
    number: u32,
    row: &mut ShownRow,
    due: (usize, usize),
    attrs: &[Attr],
    cells: &[Cell],
) -> Result<(), AllocError>
    requires { length cells.now < 2 ^ 32 }
    ensures events { OnOk result (ShowsBut attrs.now cells.now row.old due.0 due.1
        → events.new.items ≡ events.old.items
        ++ line_of_row number row.old (map (shown_cell attrs.now) cells.now)) }
    ensures row { OnOk result (ShowsBut attrs.now cells.now row.old due.0 due.1
        → row.new ≡ map Some (map (shown_cell attrs.now) cells.now)) }
{
    let count = cells.len();
    let first = first_due(row.cells(), attrs, cells, one_before(due.0, count));
    let end = end_due(row.cells(), attrs, cells, one_behind(due.1, count));
    if first >= end {
        return Ok(());
    }
    let shown = shown_cells(alloc, &cells[first..end], attrs)?;
    push_line(alloc, events, number, first, shown.as_slice())?;
    row.put(first, shown);
    Ok(())
}

// The same of any cells that are lent.
fn push_due(
    alloc: Global,
    events: &mut Vec<Redraw>,
    number: u32,
    row: &mut ShownRow,
    due: (usize, usize),
    attrs: &[Attr],
    cells: LentCells,
) -> Result<(), AllocError>
    requires { length (cells_lent cells) < 2 ^ 32 }
    ensures events { OnOk result (ShowsBut attrs.now (cells_lent cells.entry) row.old due.0 due.1
        → events.new.items ≡ events.old.items
        ++ line_of_row number row.old (map (shown_cell attrs.now) (cells_lent cells.entry))) }
    ensures row { OnOk result (ShowsBut attrs.now (cells_lent cells.entry) row.old due.0 due.1
        → row.new ≡ map Some (map (shown_cell attrs.now) (cells_lent cells.entry))) }
{
    match cells {
        LentCells::Drawn(cells) => push_drawn(alloc, events, number, row, due, attrs, cells),
        LentCells::Plain(bytes, width) => {
            push_plain(alloc, events, number, row, due, bytes, width)
        }
    }
}

// Tells the due cells of a row, which then shows its cells.
fn push_row(
    alloc: Global,
    events: &mut Vec<Redraw>,
    number: u32,
    row: &mut ShownRow,
    due: Option<(usize, usize)>,
    attrs: &[Attr],
    cells: LentCells,
) -> Result<(), AllocError>
    requires { length (cells_lent cells) < 2 ^ 32 }
    ensures events { OnOk result ((screen : List SpecCell)
        → IsDue due attrs.now (cells_lent cells.entry) screen row.old
        → events.new.items ≡ events.old.items
        ++ line_of_row number row.old (map (shown_cell attrs.now) screen)) }
    ensures row { OnOk result ((screen : List SpecCell)
        → IsDue due attrs.now (cells_lent cells.entry) screen row.old
        → row.new ≡ map Some (map (shown_cell attrs.now) screen)) }
{
    let Some(due) = due else {
        return Ok(());
    };
    push_due(alloc, events, number, row, due, attrs, cells)?;
    Ok(())
}

/// Tells the due cells of all rows, which then show this screen.
pub fn push_rows(
    alloc: Global,
    events: &mut Vec<Redraw>,
    rows: &mut Vec<ShownRow>,
    attrs: &[Attr],
    dues: &[Option<(usize, usize)>],
    drawn: &[LentRow],
) -> Result<(), AllocError>
    requires high { length rows.old.items ≡ length drawn.now }
    requires rows { length drawn.now < 2 ^ 32 }
    requires cells { All (λ row. length row < 2 ^ 32) (lent_rows drawn.now) }
    ensures events { OnOk result ((screen : List (List SpecCell))
        → AreDue dues.now (lent_rows drawn.now) attrs.now rows.old.items screen
        → events.new.items ≡ events.old.items
        ++ lines_of_rows 0 rows.old.items (shown_rows attrs.now screen)) }
    ensures rows { OnOk result ((screen : List (List SpecCell))
        → AreDue dues.now (lent_rows drawn.now) attrs.now rows.old.items screen
        → rows.new.items ≡ known_rows (shown_rows attrs.now screen)) }
{
    for k in 0..drawn.len() {
        push_row(
            alloc,
            events,
            k as u32,
            &mut rows[k],
            due_at(dues, k),
            attrs,
            drawn[k].cells,
        )?;
    }
    Ok(())
}
