//! What events make of the rows of a client's screen.
ghost use Rattle.std.specs.Prelude.{◌≡◌, ◌≤◌, [], ◌∷◌, ◌++◌, length, map, option_map, is_some, replicate, nat_le, nat_lt, ◌&&◌, if◌then◌else◌, None, IfOk, OnOk, OnErr};
ghost use Rattle.nv_linegrid.specs.Client.{attr_of_id, shown_of, row_between, first_table, names_known_ids, cells_told, row_of_spaces, rows_unknown, row_from, cells_from, rows_scrolled};
ghost use Rattle.nv_redraw.specs.inside.Taking.{within_room, CellsPut, RunPut, rows_with_line, rows_left, cell_shows, row_shows, rows_show};

use crate::shown::{ShownCell, ShownRow};
use nv_hl::{Attr, Cell, CellText, Row, is_same_attr};
use nv_linegrid::Run;
use std::alloc::{AllocError, Global};

/// The attribute that an id stands for: the newest in the table, and the empty one for id 0.
pub fn attr_of(table: &[(u64, Attr)], id: u64) -> Option<Attr>
    ensures { result ≡ attr_of_id (table.now ++ first_table) id }
{
    for entry in table {
        if entry.0 == id {
            return Some(entry.1);
        }
    }
    if id == 0 { Some(Attr::EMPTY) } else { None }
}

fn is_known(table: &[(u64, Attr)], id: u64) -> bool
    ensures { result ≡ is_some (attr_of_id (table.now ++ first_table) id) }
{
    attr_of(table, id).is_some()
}

// Whether the id that a run names, if it does, stands for an attribute.
fn names_known_id(table: &[(u64, Attr)], run: &Run) -> bool
    ensures { result ≡ names_known_ids (table.now ++ first_table) (run.now ∷ []) }
{
    match run {
        Run::Same(_) => true,
        Run::One(_, id) => is_known(table, *id),
        Run::Times(_, id, _) => is_known(table, *id),
    }
}

fn names_known_ids(table: &[(u64, Attr)], runs: &[Run]) -> bool
    ensures { result ≡ names_known_ids (table.now ++ first_table) runs.now }
{
    for run in runs {
        if !names_known_id(table, run) {
            return false;
        }
    }
    true
}

// Puts so many equal cells behind others.
fn push_times(
    cells: &mut Vec<ShownCell>,
    alloc: Global,
    text: &CellText,
    id: u64,
    count: u32,
) -> Result<(), AllocError>
    ensures { OnOk result (cells.new.items
        ≡ cells.old.items ++ replicate count (shown_of text.now id)) }
{
    for _ in 0..count {
        cells.push(ShownCell::new(alloc, text, id)?)?;
    }
    Ok(())
}

// Puts so many equal cells behind others, and tells whether they are no more than `room` then.
fn push_fitting(
    cells: &mut Vec<ShownCell>,
    alloc: Global,
    text: &CellText,
    id: u64,
    count: u32,
    room: usize,
) -> Result<bool, AllocError>
    requires { length cells.old.items ≤ room }
    ensures { IfOk result (CellsPut room cells.old.items cells.new.items (shown_of text.now id)
        count) }
{
    if room - cells.len() < count as usize {
        return Ok(false);
    }
    push_times(cells, alloc, text, id, count)?;
    Ok(true)
}

// Puts the cells of a run behind others, and gives the id told last; none where an id is missing,
// or where they are more than `room` then.
fn push_run(
    cells: &mut Vec<ShownCell>,
    alloc: Global,
    last: Option<u64>,
    run: &Run,
    room: usize,
) -> Result<Option<u64>, AllocError>
    requires { length cells.old.items ≤ room }
    ensures { IfOk result (RunPut room last cells.old.items cells.new.items run.now) }
{
    match run {
        Run::Same(text) => match last {
            None => Ok(None),
            Some(id) => {
                let fits = push_fitting(cells, alloc, text, id, 1, room)?;
                if fits { Ok(Some(id)) } else { Ok(None) }
            }
        },
        Run::One(text, id) => {
            let fits = push_fitting(cells, alloc, text, *id, 1, room)?;
            if fits { Ok(Some(*id)) } else { Ok(None) }
        }
        Run::Times(text, id, count) => {
            let fits = push_fitting(cells, alloc, text, *id, *count, room)?;
            if fits { Ok(Some(*id)) } else { Ok(None) }
        }
    }
}

// The cells that runs tell; none where an id is missing, or where they are more than `room`.
fn cells_within(
    alloc: Global,
    runs: &[Run],
    room: usize,
) -> Result<Option<Vec<ShownCell>>, AllocError>
    ensures { IfOk result (λ told. option_map (λ cells. cells.items) told
        ≡ within_room room (cells_told None runs.now)) }
{
    let mut cells = Vec::new(alloc);
    let mut last = None;
    for run in runs {
        let Some(id) = push_run(&mut cells, alloc, last, run, room)? else {
            return Ok(None);
        };
        last = Some(id);
    }
    Ok(Some(cells))
}

/// Puts the cells that runs tell into a row from a column on, both counted from 0, and tells
/// whether they lie in the row and each id stands for an attribute. Where not, and after an error,
/// the rows are as they were.
pub fn put_line(
    rows: &mut Vec<ShownRow>,
    alloc: Global,
    table: &[(u64, Attr)],
    row: u32,
    col: u32,
    runs: &[Run],
) -> Result<bool, AllocError>
    ensures fits { IfOk result (λ fits. fits
        ≡ is_some (rows_with_line (table.now ++ first_table) rows.old.items row col runs.now)) }
    ensures rows { OnOk result (rows.new.items ≡ rows_left rows.old.items
        (rows_with_line (table.now ++ first_table) rows.old.items row col runs.now)) }
    ensures err { OnErr result (rows.new.items ≡ rows.old.items) }
{
    let at = row as usize;
    let col = col as usize;
    if rows.len() <= at || rows[at].cells().len() < col || !names_known_ids(table, runs) {
        return Ok(false);
    }
    let room = rows[at].cells().len() - col;
    let Some(cells) = cells_within(alloc, runs, room)? else {
        return Ok(false);
    };
    rows[at].put(col, cells);
    Ok(true)
}

/// Unknown cells in rows of a width.
pub fn unknown_rows(alloc: Global, width: u32, height: u32) -> Result<Vec<ShownRow>, AllocError>
    ensures { IfOk result (λ rows. rows.items ≡ rows_unknown width height) }
{
    let mut rows = Vec::with_capacity(alloc, height as usize)?;
    for _ in 0..height {
        rows.push(ShownRow::unknown(alloc, width)?)?;
    }
    Ok(rows)
}

/// Rows of spaces, as many and as wide.
pub fn blank_rows(alloc: Global, rows: &[ShownRow]) -> Result<Vec<ShownRow>, AllocError>
    ensures { IfOk result (λ blank. blank.items ≡ map row_of_spaces rows.now) }
{
    let mut blank = Vec::with_capacity(alloc, rows.len())?;
    for row in rows {
        blank.push(row.to_spaces(alloc)?)?;
    }
    Ok(blank)
}

/// The rows and columns of a scroll, counted from 0, `bot` and `right` exclusive, and the number of
/// rows by which it moves up.
#[derive(Clone, Copy)]
pub struct Rectangle {
    pub top: u32,
    pub bot: u32,
    pub left: u32,
    pub right: u32,
    pub rows: i64,
}

// The row that comes to row `at`, where it comes from inside.
fn row_from(rectangle: Rectangle, at: usize) -> Option<usize>
    ensures { result ≡ row_from rectangle.top rectangle.bot rectangle.rows at }
{
    let count = rectangle.rows.unsigned_abs() as usize;
    if rectangle.rows < 0 {
        if rectangle.top as usize + count <= at {
            Some(at - count)
        } else {
            None
        }
    } else {
        let from = at.checked_add(count)?;
        if from < rectangle.bot as usize {
            Some(from)
        } else {
            None
        }
    }
}

// The cells of that row.
fn source_of(rows: &[ShownRow], from: Option<usize>) -> &[Option<ShownCell>]
    ensures { result.now ≡ cells_from rows.now from }
{
    match from {
        None => &[],
        Some(from) => {
            if from < rows.len() {
                rows[from].cells()
            } else {
                &[]
            }
        }
    }
}

/// The rows after a scroll: what comes from outside the rectangle is unknown.
pub fn scrolled_rows(
    alloc: Global,
    rows: &[ShownRow],
    rectangle: Rectangle,
) -> Result<Vec<ShownRow>, AllocError>
    ensures { IfOk result (λ scrolled. scrolled.items ≡ rows_scrolled rectangle.top rectangle.bot
        rectangle.left rectangle.right rectangle.rows rows.now) }
{
    let mut scrolled = Vec::with_capacity(alloc, rows.len())?;
    let mut at = 0;
    for row in rows {
        let source = source_of(rows, row_from(rectangle, at));
        scrolled.push(scrolled_row(alloc, rectangle, at, row, source)?)?;
        at += 1;
    }
    Ok(scrolled)
}

// A row after a scroll, where `source` comes to it.
fn scrolled_row(
    alloc: Global,
    rectangle: Rectangle,
    at: usize,
    row: &ShownRow,
    source: &[Option<ShownCell>],
) -> Result<ShownRow, AllocError>
    ensures { IfOk result (λ r. r ≡ (if nat_le rectangle.top at && nat_lt at rectangle.bot
        then row_between rectangle.left rectangle.right source.now 0 row.now else row.now)) }
{
    if rectangle.top as usize <= at && at < rectangle.bot as usize {
        row.between(
            alloc,
            rectangle.left as usize,
            rectangle.right as usize,
            source,
        )
    } else {
        row.copy(alloc)
    }
}

fn cell_shows(table: &[(u64, Attr)], shown: &Option<ShownCell>, cell: &Cell) -> bool
    ensures { result ≡ cell_shows (table.now ++ first_table) shown.now cell.now }
{
    match shown {
        None => false,
        Some(shown) => match attr_of(table, shown.id()) {
            None => false,
            Some(attr) => {
                is_same_attr(&attr, &cell.attr) && shown.text() == cell.text.as_slice()
            }
        },
    }
}

fn row_shows(table: &[(u64, Attr)], shown: &[Option<ShownCell>], cells: &[Cell]) -> bool
    ensures { result ≡ row_shows (table.now ++ first_table) shown.now cells.now }
{
    if shown.len() != cells.len() {
        return false;
    }
    let mut at = 0;
    for cell in shown {
        if !cell_shows(table, cell, &cells[at]) {
            return false;
        }
        at += 1;
    }
    true
}

/// Whether no cell is unknown, and each is seen as in these rows.
pub fn rows_show(table: &[(u64, Attr)], shown: &[ShownRow], rows: &[Row]) -> bool
    ensures { result ≡ rows_show (table.now ++ first_table) shown.now rows.now }
{
    if shown.len() != rows.len() {
        return false;
    }
    let mut at = 0;
    for row in shown {
        if !row_shows(table, row.cells(), rows[at].cells()) {
            return false;
        }
        at += 1;
    }
    true
}
