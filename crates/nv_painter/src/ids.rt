//! The ids of attributes: 0 is the empty one, and the others count from 1 as they were told.

ghost use Rattle.nv_hl.specs.Attributes.{empty_attr, same_attr, same_colour, same_flag};
ghost use Rattle.nv_linegrid.specs.Batch.{attrs_defined};
ghost use Rattle.nv_hl.specs.declared.attribute.Attr.{Attr as SpecAttr};
ghost use Rattle.nv_hl.specs.declared.cell.Cell.{Cell as SpecCell};
ghost use Rattle.nv_linegrid.specs.Client.{Shown, ShownRows};
ghost use Rattle.nv_linegrid.specs.Told.{has_id, id_from, id_of, shown_cell, with_attr, with_attrs_of, with_attrs_of_rows};
ghost use Rattle.nv_painter.specs.inside.Due.{AreDue, AreKnown, IsDue, ShowsBut};
ghost use Rattle.nv_painter.specs.inside.Lent.{cells_lent, lent_rows};
ghost use Rattle.nv_painter.specs.inside.Sketch.{IsIdOf, IsSketch, ShowsCells};
ghost use Rattle.std.specs.List.{list_any};
ghost use Rattle.std.specs.Prelude.{◌≡◌, ◌<◌, ◌≤◌, ◌++◌, List, Option, false, suc, true, IfOk, IfSome, IsTrue, None, OnOk, Some, drop, get_or, length, map, take};

use crate::lent::{LentCells, LentRow, plain_count};
use crate::shown::{ShownCell, ShownRow};
use nv_hl::{Attr, Cell, is_same_attr};
use nv_linegrid::Redraw;
use std::alloc::{AllocError, Global};

fn has_no_colour(colour: Option<u32>) -> bool
    ensures { result ≡ same_colour colour None }
{
    colour.is_none()
}

fn has_no_cterm(colour: Option<u8>) -> bool
    ensures { result ≡ same_colour colour None }
{
    colour.is_none()
}

fn is_off(flag: bool) -> bool
    ensures { result ≡ same_flag flag false }
{
    !flag
}

// Whether an attribute has no colour and no flag.
#[tactic(auto, unfolding(nv_hl::specs::Attributes::same_attr))]
fn is_plain(attr: &Attr) -> bool
    ensures { result ≡ same_attr attr.now empty_attr }
{
    has_no_colour(attr.fg)
        && has_no_colour(attr.bg)
        && has_no_colour(attr.sp)
        && has_no_cterm(attr.ctermfg)
        && has_no_cterm(attr.ctermbg)
        && is_off(attr.reverse)
        && is_off(attr.italic)
        && is_off(attr.bold)
        && is_off(attr.underline)
        && is_off(attr.undercurl)
        && is_off(attr.strikethrough)
}

// The place of an attribute among those that have ids, counted from 1, or 0.
fn id_among(attrs: &[Attr], attr: &Attr) -> u64
    ensures { result ≡ id_from 1 attrs.now attr.now }
{
    let mut id = 1;
    for other in attrs {
        if is_same_attr(attr, other) {
            return id;
        }
        id += 1;
    }
    0
}

/// The id of an attribute.
pub fn id_of(attrs: &[Attr], attr: &Attr) -> u64
    ensures { result ≡ id_of attrs.now attr.now }
{
    if is_plain(attr) {
        return 0;
    }
    id_among(attrs, attr)
}

// The id of an attribute, where the one before it has this id.
fn next_id(attrs: &[Attr], attr: &Attr, last: &Attr, id: u64) -> u64
    requires { id ≡ id_of attrs.now last.now }
    ensures { result ≡ id_of attrs.now attr.now }
{
    if is_plain(attr) {
        return 0;
    }
    if is_same_attr(attr, last) {
        return id;
    }
    id_among(attrs, attr)
}

// The id of an attribute that isn't empty, where it has one.
fn known_id(attrs: &[Attr], attr: &Attr) -> Option<u64>
    requires { same_attr attr.now empty_attr ≡ false }
    ensures { IfSome result (λ id. IsIdOf attrs.now attr.now id) }
{
    let id = id_among(attrs, attr);
    if id == 0 {
        return None;
    }
    Some(id)
}

// The id of an attribute, where it has one; the one before it has this id.
fn next_known_id(attrs: &[Attr], attr: &Attr, last: &Attr, id: u64) -> Option<u64>
    requires { IsIdOf attrs.now last.now id }
    ensures { IfSome result (λ next. IsIdOf attrs.now attr.now next) }
{
    if is_plain(attr) {
        return Some(0);
    }
    if is_same_attr(attr, last) {
        return Some(id);
    }
    known_id(attrs, attr)
}

// Whether an attribute is among those that have ids.
fn is_among(attrs: &[Attr], attr: &Attr) -> bool
    ensures { result ≡ list_any (same_attr attr.now) attrs.now }
{
    for other in attrs {
        if is_same_attr(attr, other) {
            return true;
        }
    }
    false
}

// Gives an attribute an id, where it has none.
fn add_attr(attrs: &mut Vec<Attr>, attr: &Attr) -> Result<(), AllocError>
    ensures { OnOk result (attrs.new.items ≡ with_attr attrs.old.items attr.now) }
{
    if is_plain(attr) {
        return Ok(());
    }
    if is_among(attrs.as_slice(), attr) {
        return Ok(());
    }
    attrs.push(*attr)?;
    Ok(())
}

// Gives an attribute an id, where it has none; the one before it has one.
fn add_next(attrs: &mut Vec<Attr>, attr: &Attr, last: &Attr) -> Result<(), AllocError>
    requires { has_id attrs.old.items last.now ≡ true }
    ensures { OnOk result (attrs.new.items ≡ with_attr attrs.old.items attr.now) }
{
    if is_plain(attr) {
        return Ok(());
    }
    if is_same_attr(attr, last) {
        return Ok(());
    }
    add_attr(attrs, attr)
}

// Gives the attributes of cells ids, where they have none.
fn add_attrs_of(attrs: &mut Vec<Attr>, cells: &[Cell]) -> Result<(), AllocError>
    ensures { OnOk result (attrs.new.items ≡ with_attrs_of attrs.old.items cells.now) }
{
    let mut last = &Attr::EMPTY;
    for cell in cells {
        add_next(attrs, &cell.attr, last)?;
        last = &cell.attr;
    }
    Ok(())
}

// Gives the attributes of those cells of a row ids that may differ from what it shows, of cells
// that were drawn.
fn add_attrs_of_drawn(
    attrs: &mut Vec<Attr>,
    due: Option<(usize, usize)>,
    cells: &[Cell],
) -> Result<(), AllocError>
    ensures { OnOk result ((row : List (Option Shown)) (screen : List SpecCell)
        → IsDue due attrs.old.items cells.now screen row
        → attrs.new.items ≡ with_attrs_of attrs.old.items screen) }
{
    let Some(due) = due else {
        return Ok(());
    };
    let to = due.1.min(cells.len());
    let from = due.0.min(to);
    add_attrs_of(attrs, &cells[from..to])?;
    Ok(())
}

// The same of any cells that are lent.
fn add_attrs_of_row(
    attrs: &mut Vec<Attr>,
    due: Option<(usize, usize)>,
    cells: LentCells,
) -> Result<(), AllocError>
    ensures { OnOk result ((row : List (Option Shown)) (screen : List SpecCell)
        → IsDue due attrs.old.items (cells_lent cells.entry) screen row
        → attrs.new.items ≡ with_attrs_of attrs.old.items screen) }
{
    match cells {
        LentCells::Drawn(cells) => add_attrs_of_drawn(attrs, due, cells),
        LentCells::Plain(..) => Ok(()),
    }
}

/// Whether the row with this number has a flag.
pub fn has_flag(flags: &[bool], row: usize) -> bool
    ensures { result ≡ get_or flags.now row false }
{
    if row >= flags.len() {
        return false;
    }
    flags[row]
}

/// What is due of the row with this number.
pub fn due_at(dues: &[Option<(usize, usize)>], row: usize) -> Option<(usize, usize)>
    ensures { result ≡ get_or dues.now row None }
{
    if row >= dues.len() {
        return None;
    }
    dues[row]
}

/// Gives the attributes of all cells ids, where they have none, in order of their first cell. Cells
/// that are shown already aren't looked at.
pub fn add_attrs_of_rows(
    attrs: &mut Vec<Attr>,
    dues: &[Option<(usize, usize)>],
    drawn: &[LentRow],
) -> Result<(), AllocError>
    ensures { OnOk result ((rows : ShownRows) (screen : List (List SpecCell))
        → AreDue dues.now (lent_rows drawn.now) attrs.old.items rows screen
        → attrs.new.items ≡ with_attrs_of_rows attrs.old.items screen) }
{
    for k in 0..drawn.len() {
        add_attrs_of_row(attrs, due_at(dues, k), drawn[k].cells)?;
    }
    Ok(())
}

/// Tells the ids of attributes, from the one at a place on.
pub fn push_attrs(events: &mut Vec<Redraw>, attrs: &[Attr], count: usize) -> Result<(), AllocError>
    ensures { OnOk result (events.new.items
        ≡ events.old.items ++ attrs_defined (suc count) (drop count attrs.now)) }
{
    for k in count..attrs.len() {
        events.push(Redraw::HlAttr {
            id: k as u64 + 1,
            attr: attrs[k],
        })?;
    }
    Ok(())
}

// Whether a row shows a cell with an id at a place.
fn is_shown_at(row: &[Option<ShownCell>], at: usize, cell: &Cell, id: u64) -> bool
    ensures within { IsTrue result → at < length row.now }
    ensures shown { IsTrue result
        → get_or row.now at None ≡ Some (record { text = cell.now.text; id = id }) }
{
    if at >= row.len() {
        return false;
    }
    match &row[at] {
        Some(shown) => shown.id == id && shown.text.is_same(&cell.text),
        None => false,
    }
}

// How many cells from the first on a row surely shows, all of whose attributes have ids, where it
// shows those in front of `from`; at most `to`.
fn front_shown(
    cells: &[Cell],
    attrs: &[Attr],
    row: &[Option<ShownCell>],
    from: usize,
    to: usize,
) -> usize
    requires order { from ≤ to }
    requires within { to ≤ length cells.now }
    requires shown { ShowsCells attrs.now (take from cells.now) (take from row.now) }
    ensures within { result ≤ to }
    ensures shown { ShowsCells attrs.now (take result cells.now) (take result row.now) }
{
    let mut last = &Attr::EMPTY;
    let mut id = 0;
    for k in from..to {
        let cell = &cells[k];
        let Some(next) = next_known_id(attrs, &cell.attr, last, id) else {
            return k;
        };
        if !is_shown_at(row, k, cell, next) {
            return k;
        }
        last = &cell.attr;
        id = next;
    }
    to
}

// From which cell on a row surely shows its last cells, all of whose attributes have ids, where it
// shows those from `to` on; none in front of `from` is looked at.
fn back_shown(
    cells: &[Cell],
    attrs: &[Attr],
    row: &[Option<ShownCell>],
    from: usize,
    to: usize,
) -> usize
    requires order { from ≤ to }
    requires within { to ≤ length cells.now }
    requires count { length row.now ≡ length cells.now }
    requires shown { ShowsCells attrs.now (drop to cells.now) (drop to row.now) }
    ensures order { from ≤ result }
    ensures within { result ≤ length cells.now }
    ensures shown { ShowsCells attrs.now (drop result cells.now) (drop result row.now) }
{
    let mut last = &Attr::EMPTY;
    let mut id = 0;
    for k in (from..to).rev() {
        let cell = &cells[k];
        let Some(next) = next_known_id(attrs, &cell.attr, last, id) else {
            return k + 1;
        };
        if !is_shown_at(row, k, cell, next) {
            return k + 1;
        }
        last = &cell.attr;
        id = next;
    }
    from
}

// The cells of a row that may differ from what it shows, from one to before another, where those
// that do lie between two places; `None` where it shows all of them.
fn due_between(
    cells: &[Cell],
    attrs: &[Attr],
    row: &[Option<ShownCell>],
    first: usize,
    end: usize,
) -> Option<(usize, usize)>
    requires { ShowsBut attrs.now cells.now row.now first end }
    ensures { IsDue result attrs.now cells.now cells.now row.now }
{
    let from = front_shown(cells, attrs, row, first, end);
    if from == cells.len() {
        return None;
    }
    Some((from, back_shown(cells, attrs, row, from, end)))
}

// The same, where such places may be known.
fn due_in(
    cells: &[Cell],
    attrs: &[Attr],
    row: &[Option<ShownCell>],
    known: Option<(usize, usize)>,
) -> Option<(usize, usize)>
    requires { IfSome known (λ d. ShowsBut attrs.now cells.now row.now d.0 d.1) }
    ensures { length row.now ≡ length cells.now
        → IsDue result attrs.now cells.now cells.now row.now }
{
    if row.len() != cells.len() {
        return None;
    }
    match known {
        Some(places) => due_between(cells, attrs, row, places.0, places.1),
        None => due_between(cells, attrs, row, 0, cells.len()),
    }
}

// The places between which cells that aren't looked at may differ, of so many: those that are
// known, or all.
fn due_within(count: usize, known: Option<(usize, usize)>) -> Option<(usize, usize)>
    ensures { (attrs : List SpecAttr) (cells : List SpecCell) (row : List (Option Shown))
        → count ≡ length cells → length row ≡ length cells
        → IfSome known (λ d. ShowsBut attrs cells row d.0 d.1)
        → IsDue result attrs cells cells row }
{
    match known {
        Some(places) => Some(places),
        None => Some((0, count)),
    }
}

// The cells of a row of a sketch that may differ from what it shows, from one to before another.
// One with a flag shows its cells. Bytes are looked at only where they are told.
fn due_of(
    is_shown: bool,
    cells: LentCells,
    attrs: &[Attr],
    row: &[Option<ShownCell>],
    known: Option<(usize, usize)>,
) -> Option<(usize, usize)>
    requires { IfSome known (λ d. ShowsBut attrs.now (cells_lent cells) row.now d.0 d.1) }
    ensures { (screen : List SpecCell) → (is_shown ≡ false → cells_lent cells.entry ≡ screen)
        → (is_shown ≡ true → ShowsCells attrs.now screen row.now)
        → length row.now ≡ length screen
        → IsDue result attrs.now (cells_lent cells.entry) screen row.now }
{
    if is_shown {
        return None;
    }
    match cells {
        LentCells::Drawn(cells) => due_in(cells, attrs, row, known),
        LentCells::Plain(bytes, width) => due_within(plain_count(bytes, width), known),
    }
}

/// For each row of a sketch the cells that may differ from what is shown, from one to before
/// another; `None` where none does. Where it is known that some don't, they aren't looked at.
pub fn dues_of(
    alloc: Global,
    attrs: &[Attr],
    flags: &[bool],
    known: &[Option<(usize, usize)>],
    drawn: &[LentRow],
    rows: &[ShownRow],
) -> Result<Vec<Option<(usize, usize)>>, AllocError>
    requires count { length rows.now ≡ length drawn.now }
    requires known { AreKnown known.now attrs.now (lent_rows drawn.now) rows.now }
    ensures { IfOk result (λ dues. (screen : List (List SpecCell))
        → IsSketch flags.now (lent_rows drawn.now) attrs.now rows.now screen
        → AreDue dues.items (lent_rows drawn.now) attrs.now rows.now screen) }
{
    let mut dues = Vec::with_capacity(alloc, drawn.len())?;
    for k in 0..drawn.len() {
        let cells = drawn[k].cells;
        let row = rows[k].cells();
        let due = due_of(has_flag(flags, k), cells, attrs, row, due_at(known, k));
        dues.push(due)?;
    }
    Ok(dues)
}

/// The cells with the ids of their attributes.
pub fn shown_cells(
    alloc: Global,
    cells: &[Cell],
    attrs: &[Attr],
) -> Result<Vec<ShownCell>, AllocError>
    ensures { IfOk result (λ shown. shown.items ≡ map (shown_cell attrs.now) cells.now) }
{
    let mut shown = Vec::with_capacity(alloc, cells.len())?;
    let mut last = &Attr::EMPTY;
    let mut id = 0;
    for cell in cells {
        id = next_id(attrs, &cell.attr, last, id);
        last = &cell.attr;
        let text = cell.text.copy(alloc)?;
        shown.push(ShownCell::new(text, id))?;
    }
    Ok(shown)
}
