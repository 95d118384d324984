//! What marks show on the rows of a text (help: nvim_buf_set_extmark()).
ghost use Rattle.std.specs.Prelude.{◌≡◌, All, Some, None, ◌++◌, IfOk, OnOk, filter, map, if◌then◌else◌};
ghost use Rattle.nv_editor.specs.Sound.{IsOfGroups};
ghost use Rattle.nv_scene.specs.Panes.{holds_of_row, range_from, range_to, shows_on, span_on};
ghost use Rattle.nv_scene.specs.inside.Painting.{AreLaid, may_show, may_show_on, mark_if_on, spans_of_mark};

use nv_buffer::Pos;
use nv_hl::Groups;
use nv_linedraw::Span;
use nv_marks::{Mark, MarkSet, Query};
use std::alloc::{AllocError, Global};

// Whether a mark that isn't hidden has a range with a group that ends in a row or behind it.
fn may_show(mark: &Mark, first: u32) -> bool
    ensures { result ≡ may_show first mark.now }
{
    if mark.hidden {
        return false;
    }
    match (mark.stop, mark.paint) {
        (Some(far), Some(_)) => first <= far.pos.row,
        _ => false,
    }
}

// The marks that may show on the rows from one up to before another, in the order in which they are
// laid over one another.
pub(crate) fn marks_for(
    alloc: Global,
    marks: &MarkSet,
    first: u32,
    behind: u32,
) -> Result<Vec<Mark>, AllocError>
    ensures { IfOk result (λ found. AreLaid first behind marks.now.marks found.items) }
{
    let mut found = Vec::new(alloc);
    let query = Query {
        ns: None,
        from: Pos { row: first, col: 0 },
        to: Pos {
            row: behind,
            col: 0,
        },
        reaching: true,
    };
    marks.select(&query, marks.len(), &mut found)?;
    found.retain(|mark| may_show(mark, first));
    found.sort_unstable_by_key(|mark| (mark.priority, mark.ns, mark.id));
    Ok(found)
}

// Whether a mark may show on the rows from one up to before another.
fn may_show_on(mark: &Mark, first: u32, behind: u32) -> bool
    ensures { result ≡ may_show_on first behind mark.now }
{
    mark.start.row < behind && may_show(mark, first)
}

// Puts a mark behind others, if it may show on the rows from one up to before another.
fn push_if_on(among: &mut Vec<Mark>, mark: &Mark, first: u32, behind: u32) -> Result<(), AllocError>
    ensures { OnOk result
        (among.new.items ≡ among.old.items ++ mark_if_on first behind mark.now) }
{
    if !may_show_on(mark, first, behind) {
        return Ok(());
    }
    among.push(*mark)?;
    Ok(())
}

// Those of marks that may show on the rows from one up to before another, in their order.
pub(crate) fn marks_among(
    alloc: Global,
    marks: &[Mark],
    first: u32,
    behind: u32,
) -> Result<Vec<Mark>, AllocError>
    ensures { IfOk result (λ among. among.items ≡ filter (may_show_on first behind) marks.now) }
{
    let mut among = Vec::new(alloc);
    for mark in marks {
        push_if_on(&mut among, mark, first, behind)?;
    }
    Ok(among)
}

// The first byte of a row from which a range is on that begins at a place.
fn range_from(start: Pos, row: u32) -> u32
    ensures { result ≡ range_from start row }
{
    if start.row < row { 0 } else { start.col }
}

// The byte of a row before which it ends; the end of a line counts as one byte.
fn range_to(stop: Pos, row: u32, len: u32) -> u32
    ensures { result ≡ range_to stop row len }
{
    if row < stop.row {
        len.saturating_add(1)
    } else {
        stop.col
    }
}

// Whether a range holds a byte of a row of so many bytes, or its end.
fn holds_of_row(start: Pos, stop: Pos, row: u32, len: u32) -> bool
    ensures { result ≡ holds_of_row start stop row len }
{
    start.row <= row && row <= stop.row && range_from(start, row) < range_to(stop, row, len)
}

// The bytes of a row that a mark shows, where it shows any.
fn span_on(groups: &Groups, mark: &Mark, row: u32, len: u32) -> Option<Span>
    requires { IsOfGroups groups.now mark.now }
    ensures { result ≡ (if shows_on row len mark.now
        then Some (span_on groups.now row len mark.now) else None) }
{
    if mark.hidden {
        return None;
    }
    let (Some(far), Some(paint)) = (mark.stop, mark.paint) else {
        return None;
    };
    if !holds_of_row(mark.start, far.pos, row, len) {
        return None;
    }
    Some(Span {
        from: range_from(mark.start, row),
        to: range_to(far.pos, row, len),
        attr: groups.attr(paint.group),
        eol: paint.eol,
    })
}

// Puts the bytes of a row that a mark shows behind others, where it shows any.
fn push_span(
    spans: &mut Vec<Span>,
    groups: &Groups,
    mark: &Mark,
    row: u32,
    len: u32,
) -> Result<(), AllocError>
    requires { IsOfGroups groups.now mark.now }
    ensures { OnOk result (spans.new.items
        ≡ spans.old.items ++ spans_of_mark groups.now row len mark.now) }
{
    let Some(span) = span_on(groups, mark, row, len) else {
        return Ok(());
    };
    spans.push(span)?;
    Ok(())
}

// What marks show on a row of so many bytes, in their order.
pub(crate) fn spans_on(
    alloc: Global,
    groups: &Groups,
    marks: &[Mark],
    row: u32,
    len: u32,
) -> Result<Vec<Span>, AllocError>
    requires { All (IsOfGroups groups.now) marks.now }
    ensures { IfOk result (λ spans. spans.items
        ≡ map (span_on groups.now row len) (filter (shows_on row len) marks.now)) }
{
    let mut spans = Vec::new(alloc);
    for mark in marks {
        push_span(&mut spans, groups, mark, row, len)?;
    }
    Ok(spans)
}
