//! Windows as panes: the lines that they show, with what marks show on them.
ghost use Rattle.std.specs.Prelude.{◌≡◌, ℕ, ◌+◌, ◌-◌, ◌<◌, ◌≤◌, All, length, true, IfOk, IsFalse, OnOk};
ghost use Rattle.nv_model.specs.Standing.{seen_now, seen_buffer_now};
ghost use Rattle.std.specs.Ordering.{int_eq};
ghost use Rattle.nv_windows.specs.Workspace.{current_window, is_live_window};
ghost use Rattle.nv_editor.specs.Sound.{IsOfGroups, ShowsText};
ghost use Rattle.nv_scene.specs.Panes.{AreLinesOf, IsLineOf, IsPaneIn, IsPaneOf, status_line_of};
ghost use Rattle.nv_scene.specs.inside.Painting.{AreLaid, ShowOnRows};

use crate::spans::{marks_among, marks_for, spans_on};
use nv_buffer::{Buffer, Line};
use nv_editor::Editor;
use nv_hl::Groups;
use nv_layout::Rect;
use nv_marks::Mark;
use nv_screen::{Pane, SceneLine};
use nv_windows::Window;
use std::alloc::{AllocError, Global};

// A row of a buffer, from `first` up to before `behind`, with its spans. Its bytes are shared.
fn scene_line(
    alloc: Global,
    groups: &Groups,
    buffer: &Buffer,
    marks: &[Mark],
    first: u32,
    behind: u32,
    row: u32,
) -> Result<SceneLine, AllocError>
    requires within { row < length buffer.now.text }
    requires first { first ≤ row }
    requires behind { row < behind }
    requires groups { All (IsOfGroups groups.now) marks.now }
    requires shown { ShowOnRows first behind buffer.now.marks.marks marks.now }
    ensures { IfOk result (λ line. IsLineOf groups.now (seen_buffer_now buffer.now) row line) }
{
    let Some(line) = buffer.text().line(row as usize) else {
        unreachable!()
    };
    let spans = spans_on(alloc, groups, marks, row, line.len() as u32)?;
    let bytes = line.share()?;
    Ok(SceneLine { row, bytes, spans })
}

// Of at most so many marks each row looks at all.
const FEW_MARKS: usize = 16;

// Whether each row looks at all of the marks, since these are few, or the rows are no two.
fn are_few(marks: &[Mark], first: u32, behind: u32) -> bool
    requires { first ≤ behind }
    ensures { IsFalse result → first + 1 < behind }
{
    marks.len() <= FEW_MARKS || behind - first <= 1
}

// A row between two others, about halfway.
fn row_between(first: u32, behind: u32) -> u32
    requires { first + 1 < behind }
    ensures after { first < result }
    ensures before { result < behind }
{
    first + (behind - first) / 2
}

// Puts the rows of a buffer from one up to before another behind other lines.
fn push_each(
    alloc: Global,
    groups: &Groups,
    buffer: &Buffer,
    marks: &[Mark],
    first: u32,
    behind: u32,
    lines: &mut Vec<SceneLine>,
) -> Result<(), AllocError>
    requires order { first ≤ behind }
    requires within { behind ≤ length buffer.now.text }
    requires groups { All (IsOfGroups groups.now) marks.now }
    requires shown { ShowOnRows first behind buffer.now.marks.marks marks.now }
    ensures count { OnOk result
        (length lines.new.items ≡ length lines.old.items + (behind - first)) }
    ensures lines { OnOk result ((start : ℕ) → start + length lines.old.items ≡ first
        → AreLinesOf groups.now (seen_buffer_now buffer.now) start lines.old.items
        → AreLinesOf groups.now (seen_buffer_now buffer.now) start lines.new.items) }
{
    for row in first..behind {
        let line = scene_line(alloc, groups, buffer, marks, first, behind, row)?;
        lines.push(line)?;
    }
    Ok(())
}

// The same. Of many marks each half of the rows looks only at those that may show on it, so a mark
// is looked at for each row on which it may show, and some times more.
fn push_lines(
    alloc: Global,
    groups: &Groups,
    buffer: &Buffer,
    marks: &[Mark],
    first: u32,
    behind: u32,
    lines: &mut Vec<SceneLine>,
) -> Result<(), AllocError>
    requires order { first ≤ behind }
    requires within { behind ≤ length buffer.now.text }
    requires groups { All (IsOfGroups groups.now) marks.now }
    requires shown { ShowOnRows first behind buffer.now.marks.marks marks.now }
    ensures count { OnOk result
        (length lines.new.items ≡ length lines.old.items + (behind - first)) }
    ensures lines { OnOk result ((start : ℕ) → start + length lines.old.items ≡ first
        → AreLinesOf groups.now (seen_buffer_now buffer.now) start lines.old.items
        → AreLinesOf groups.now (seen_buffer_now buffer.now) start lines.new.items) }
{
    if are_few(marks, first, behind) {
        return push_each(alloc, groups, buffer, marks, first, behind, lines);
    }
    let middle = row_between(first, behind);
    let front = marks_among(alloc, marks, first, middle)?;
    push_lines(
        alloc,
        groups,
        buffer,
        front.as_slice(),
        first,
        middle,
        lines,
    )?;
    let back = marks_among(alloc, marks, middle, behind)?;
    push_lines(
        alloc,
        groups,
        buffer,
        back.as_slice(),
        middle,
        behind,
        lines,
    )?;
    Ok(())
}

// The rows of a buffer from one up to before another.
fn scene_lines(
    alloc: Global,
    groups: &Groups,
    buffer: &Buffer,
    marks: &[Mark],
    first: u32,
    behind: u32,
) -> Result<Vec<SceneLine>, AllocError>
    requires order { first ≤ behind }
    requires within { behind ≤ length buffer.now.text }
    requires groups { All (IsOfGroups groups.now) marks.now }
    requires laid { AreLaid first behind buffer.now.marks.marks marks.now }
    ensures count { IfOk result (λ lines. length lines.items ≡ behind - first) }
    ensures lines { IfOk result
        (λ lines. AreLinesOf groups.now (seen_buffer_now buffer.now) first lines.items) }
{
    let mut lines = Vec::with_capacity(alloc, (behind - first) as usize)?;
    push_lines(alloc, groups, buffer, marks, first, behind, &mut lines)?;
    Ok(lines)
}

// The status line of a buffer.
fn status_line_of(alloc: Global, buffer: &Buffer) -> Result<Line, AllocError>
    ensures { IfOk result (λ line. line ≡ status_line_of (seen_buffer_now buffer.now)) }
{
    let name = buffer.name();
    let mut bytes = Vec::with_capacity(alloc, name.len().saturating_add(13))?;
    if name.is_empty() {
        bytes.extend_from_slice(b"[No Name]")?;
    } else {
        bytes.extend_from_slice(name.as_slice())?;
    }
    if buffer.modified() {
        bytes.extend_from_slice(b" [+]")?;
    }
    Line::from_vec(bytes)
}

fn is_current(editor: &Editor, window: i64) -> bool
    ensures { result ≡ int_eq (current_window editor.now.stage.workspace) window }
{
    editor.windows().current_window() == window
}

// A window over its buffer, as a pane with these text cells.
fn pane_on(editor: &Editor, buffer: &Buffer, window: Window, rect: Rect) -> Result<Pane, AllocError>
    requires shows { ShowsText buffer.now.text window }
    requires painted { All (IsOfGroups editor.now.stage.groups) buffer.now.marks.marks }
    ensures pane { IfOk result (λ pane.
        IsPaneOf (seen_now editor.now) window (seen_buffer_now buffer.now) rect pane) }
    ensures stop { IfOk result (λ pane. 0 < pane.tabstop) }
{
    buffer.known();
    let alloc = editor.alloc();
    let count = buffer.text().count() as u32;
    let behind = window.top.saturating_add(rect.height).min(count);
    let marks = marks_for(alloc, buffer.marks(), window.top, behind)?;
    let lines = scene_lines(
        alloc,
        editor.groups(),
        buffer,
        marks.as_slice(),
        window.top,
        behind,
    )?;
    let status = status_line_of(alloc, buffer)?;
    Ok(Pane {
        window: window.handle,
        buffer: window.buffer,
        tick: buffer.tick(),
        tabstop: buffer.tabstop(),
        rect,
        top: window.top,
        current: is_current(editor, window.handle),
        count,
        lines,
        status,
    })
}

/// A live window as a pane, with these cells as its text cells: the lines of its buffer from its
/// first row on, as many as fit if each has one row, with what marks show on them, and its status
/// line. The lines' bytes are shared. No marks are looked at that start behind these lines.
pub fn pane_of(editor: &Editor, window: i64, rect: Rect) -> Result<Pane, AllocError>
    requires live { is_live_window editor.now.stage.workspace window ≡ true }
    ensures pane { IfOk result (λ pane. IsPaneIn (seen_now editor.now) window rect pane) }
    ensures stop { IfOk result (λ pane. 0 < pane.tabstop) }
{
    editor.known();
    let Some(found) = editor.windows().find(window) else {
        unreachable!()
    };
    let Some(buffer) = editor.buffer(found.buffer) else {
        unreachable!()
    };
    pane_on(editor, buffer, *found, rect)
}
