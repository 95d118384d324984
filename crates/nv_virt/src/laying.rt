//! Virtual texts laid in a window.

ghost use Rattle.nv_screen.specs.Cursor.{bytes_at};
ghost use Rattle.nv_screen.specs.Sound.{IsInReach};
ghost use Rattle.nv_notes.specs.Notes.{IsNoteOf};
ghost use Rattle.nv_virt.specs.Texts.{AreOfGroups, Strip, end_by, ends_after, is_inside, is_shown, line_above, line_on, strip_of, strips_at, strips_on, laid_text, text_place, texts_strips};
ghost use Rattle.nv_virt.specs.inside.Capped.{AreCapped, AreTops};
ghost use Rattle.std.specs.Prelude.{◌≡◌, ◌<◌, ◌+◌, ◌++◌, ℕ, All, IfOk, IfSome, List, None, OnOk, Option, length, map, min, slice_index_or, slice_set};

use crate::cells::chunks_cells;
use crate::places::{Line, place_of};
use nv_hl::{Cell, Groups};
use nv_linedraw::first_rows;
use nv_notes::{At, Note};
use nv_screen::{Pane, Patch, bytes_at, cut_cells};
use std::alloc::{AllocError, Global};

/// A virtual text of a buffer: the place of its mark, and what it shows.
#[derive(Clone, Copy)]
pub struct VirtText<'a> {
    /// The row of the text, counted from 0.
    pub row: u32,
    pub byte: u32,
    pub note: &'a Note,
}

/// A line of a window, and the row of the window at which it begins.
#[derive(Clone, Copy)]
struct LineOn {
    n: usize,
    above: u32,
}

// The row of the window at which each of its lines begins; rows from its last one on count as one.
fn line_tops(alloc: Global, pane: &Pane) -> Result<Vec<u32>, AllocError>
    requires { IsInReach pane.now }
    ensures { IfOk result (λ tops. AreTops pane.now tops.items) }
{
    let lines = pane.lines.as_slice();
    let rect = pane.rect;
    let mut tops = Vec::with_capacity(alloc, lines.len())?;
    let mut row = 0;
    for line in lines {
        tops.push(row)?;
        let bytes = line.bytes.as_slice();
        row += first_rows(alloc, bytes, rect.width, pane.tabstop, rect.height - row)?;
    }
    Ok(tops)
}

// Whether a row of a text is one of the lines of a window.
fn is_shown(pane: &Pane, row: u32) -> bool
    ensures { result ≡ is_shown pane.now row }
{
    let n = row.saturating_sub(pane.top) as usize;
    pane.top <= row && n < pane.lines.len()
}

// Which of the lines of a window a row of its text is.
fn line_on(pane: &Pane, row: u32) -> Option<usize>
    ensures line { result ≡ line_on pane.now row }
    ensures within { IfSome result (λ n. n < length pane.now.lines.items) }
{
    if !is_shown(pane, row) {
        return None;
    }
    Some(row.saturating_sub(pane.top) as usize)
}

// Whether some cells are in a window, from a row and column of it on.
fn is_inside(pane: &Pane, above: u32, place: (u32, u32), cells: &Vec<Cell>) -> bool
    ensures { result ≡ is_inside pane.now above place (length cells.now.items) }
{
    (above as u64 + place.0 as u64) < pane.rect.height as u64
        && place.1 < pane.rect.width
        && 0 < cells.len()
}

// The cell of the screen at a row and column of a window.
fn on_screen(pane: &Pane, above: u32, place: (u32, u32)) -> (u32, u32)
    requires reach { IsInReach pane.now }
    requires row { above + place.0 < pane.now.rect.height }
    requires col { place.1 < pane.now.rect.width }
    ensures row { result.0 ≡ pane.now.rect.row + (above + place.0) }
    ensures col { result.1 ≡ pane.now.rect.col + place.1 }
{
    let rect = pane.rect;
    (rect.row + (above + place.0), rect.col + place.1)
}

// Puts cells behind other patches, from a row and column of a window on, as far as they are in it;
// a pair of which one half is not leaves a space.
fn push_strip(
    into: &mut Vec<Patch>,
    pane: &Pane,
    above: u32,
    place: (u32, u32),
    mut cells: Vec<Cell>,
) -> Result<(), AllocError>
    requires { IsInReach pane.now }
    ensures { OnOk result (map strip_of into.new.items ≡ map strip_of into.old.items
        ++ strips_at pane.now above place cells.items) }
{
    if !is_inside(pane, above, place, &cells) {
        return Ok(());
    }
    let (row, col) = on_screen(pane, above, place);
    let left = pane.rect.width.saturating_sub(place.1);
    cut_cells(&mut cells, left as usize);
    into.push(Patch { row, col, cells })?;
    Ok(())
}

// A line of a window.
fn line_at(pane: &Pane, n: usize) -> Line<'_>
    ensures bytes { result.bytes.now ≡ bytes_at pane.now.lines.items n }
    ensures width { result.width ≡ pane.now.rect.width }
    ensures stop { result.tabstop ≡ pane.now.tabstop }
    ensures most { result.most ≡ pane.now.rect.height }
{
    Line {
        bytes: bytes_at(pane.lines.as_slice(), n),
        width: pane.rect.width,
        tabstop: pane.tabstop,
        most: pane.rect.height,
    }
}

// The column behind the texts at the end of a line.
fn end_of(ends: &[Option<u32>], n: usize) -> Option<u32>
    ensures { result ≡ slice_index_or ends.now n None }
{
    if n >= ends.len() {
        return None;
    }
    ends[n]
}

// The column behind the texts at the end of a line, after one more.
fn end_by(at: At, before: Option<u32>, col: u32) -> Option<u32>
    ensures { result ≡ end_by at before col }
{
    match at {
        At::Eol => Some(col),
        At::Overlay => before,
        At::RightAlign => before,
    }
}

// Notes the column behind a text on a line, if it is at its end.
fn end_at(ends: &mut Vec<Option<u32>>, n: usize, at: At, col: u32)
    requires { n < length ends.old.items }
    ensures { ends.new.items ≡ slice_set ends.old.items n
        (end_by at (slice_index_or ends.old.items n None) col) }
{
    let held = ends.as_slice();
    let end = end_by(at, end_of(held, n), col);
    ends[n] = end;
}

// The column behind cells, up to the width, where they begin at one.
fn end_of_cells(col: u32, cells: &[Cell], width: u32) -> u32
    ensures { result ≡ min width (col + length cells.now) }
{
    let end = (col as usize).saturating_add(cells.len());
    end.min(width as usize) as u32
}

// Puts what a window shows of a text on one of its lines behind other patches.
fn push_on(
    alloc: Global,
    groups: &Groups,
    pane: &Pane,
    on: LineOn,
    ends: &mut Vec<Option<u32>>,
    text: &VirtText,
    into: &mut Vec<Patch>,
) -> Result<(), AllocError>
    requires reach { IsInReach pane.now }
    requires line { on.n < length pane.now.lines.items }
    requires ends { on.n < length ends.old.items }
    requires above { on.above ≡ min pane.now.rect.height (line_above pane.now on.n) }
    requires groups { IsNoteOf groups.now text.now.note.now }
    ensures count { OnOk result (length ends.new.items ≡ length ends.old.items) }
    ensures laid { OnOk result ((wanted : List (Option ℕ))
        → AreCapped pane.now ends.old.items wanted
        → AreCapped pane.now ends.new.items
        (ends_after pane.now wanted on.n (laid_text groups.now text.now))
        × (map strip_of into.new.items ≡ map strip_of into.old.items
        ++ strips_at pane.now (line_above pane.now on.n)
        (text_place pane.now wanted on.n (laid_text groups.now text.now))
        (laid_text groups.now text.now).cells)) }
{
    let width = pane.rect.width;
    let Some(most) = width.checked_add(1) else {
        return Err(AllocError);
    };
    let chunks = text.note.chunks();
    let cells = chunks_cells(alloc, groups, chunks, most)?;
    let shown = cells.as_slice();
    let line = line_at(pane, on.n);
    let held = ends.as_slice();
    let before = end_of(held, on.n);
    let at = text.note.at();
    let place = place_of(alloc, &line, at, text.byte, before, shown)?;
    let end = end_of_cells(place.1, shown, width);
    end_at(ends, on.n, at, end);
    push_strip(into, pane, on.above, place, cells)?;
    Ok(())
}

// Puts what a window shows of a text behind other patches, where its lines begin at these rows.
fn push_text(
    alloc: Global,
    groups: &Groups,
    pane: &Pane,
    tops: &[u32],
    ends: &mut Vec<Option<u32>>,
    text: &VirtText,
    into: &mut Vec<Patch>,
) -> Result<(), AllocError>
    requires reach { IsInReach pane.now }
    requires tops { AreTops pane.now tops.now }
    requires ends { length ends.old.items ≡ length pane.now.lines.items }
    requires groups { IsNoteOf groups.now text.now.note.now }
    ensures count { OnOk result (length ends.new.items ≡ length ends.old.items) }
    ensures laid { OnOk result ((wanted : List (Option ℕ)) (rest : List (Option ℕ) → List Strip)
        → AreCapped pane.now ends.old.items wanted
        → (later : List (Option ℕ)) × AreCapped pane.now ends.new.items later
        × (map strip_of into.new.items ++ rest later ≡ map strip_of into.old.items
        ++ strips_on pane.now wanted (line_on pane.now text.now.row)
        (laid_text groups.now text.now) rest)) }
{
    let Some(n) = line_on(pane, text.row) else {
        return Ok(());
    };
    let on = LineOn { n, above: tops[n] };
    push_on(alloc, groups, pane, on, ends, text, into)?;
    Ok(())
}

/// Puts what a window shows of virtual texts of its buffer behind other patches. The texts come in
/// their order: one at the end of a line is behind those before it there.
pub fn push_texts(
    alloc: Global,
    groups: &Groups,
    pane: &Pane,
    texts: &[VirtText],
    into: &mut Vec<Patch>,
) -> Result<(), AllocError>
    requires reach { IsInReach pane.now }
    requires groups { AreOfGroups groups.now texts.now }
    ensures { OnOk result (map strip_of into.new.items ≡ map strip_of into.old.items
        ++ texts_strips pane.now (map (laid_text groups.now) texts.now)) }
{
    let tops = line_tops(alloc, pane)?;
    let starts = tops.as_slice();
    let mut ends = vec![in alloc; None; pane.lines.len()]?;
    for text in texts {
        push_text(alloc, groups, pane, starts, &mut ends, text, into)?;
    }
    Ok(())
}
