//! Settling: the first row of each window follows its cursor (own rule).
ghost use Rattle.std.specs.Prelude.{◌≡◌, ◌^◌, ◌<◌, ◌↔◌, min, map, length, true, IfOk, IfSome, OnOk};
ghost use Rattle.nv_places.specs.Flat.{line_at};
ghost use Rattle.nv_windows.specs.Rooms.{text_area};
ghost use Rattle.nv_linedraw.specs.LineCells.{rows_of_line};
ghost use Rattle.nv_model.specs.Editors.{at_handle};
ghost use Rattle.nv_model.specs.Standing.{seen_now};
ghost use Rattle.nv_editor.specs.Doing.{Does};
ghost use Rattle.nv_editor.specs.Sound.{ShowsBuffer, content_at};
ghost use Rattle.nv_scene.specs.Settling.{IsSettled, settle_operations, settled_top, top_of};
ghost use Rattle.nv_scene.specs.inside.Settled.{IsTextArea, settling_at};

use nv_buffer::Lines;
use nv_editor::Editor;
use nv_layout::Rect;
use nv_linedraw::first_rows;
use nv_windows::Window;
use std::alloc::{AllocError, Global};

// How many rows of a width a row of a text has, or `most` where it has more.
fn rows_at(
    alloc: Global,
    text: &Lines,
    row: u32,
    width: u32,
    tabstop: u32,
    most: u32,
) -> Result<u32, AllocError>
    requires within { row < length text.now }
    requires wide { 0 < width }
    requires stop { 0 < tabstop }
    ensures { IfOk result
        (λ n. n ≡ min most (rows_of_line width tabstop (line_at text.now row))) }
{
    match text.get(row as usize) {
        Some(line) => first_rows(alloc, line, width, tabstop, most),
        None => unreachable!(),
    }
}

// The first row of a window over a text, once it is settled. No more lines are looked at than the
// window has rows, and of each no more than fits; none where the cursor is in the first row.
fn settled_top(
    alloc: Global,
    text: &Lines,
    tabstop: u32,
    area: Rect,
    cursor: u32,
    top: u32,
) -> Result<u32, AllocError>
    requires within { cursor < length text.now }
    requires narrow { length text.now < 2 ^ 32 }
    requires wide { 0 < area.width }
    requires low { area.height < 2 ^ 16 }
    requires stop { 0 < tabstop }
    ensures { IfOk result (λ row. row ≡ settled_top area.height
        (map (rows_of_line area.width tabstop) text.now) cursor top) }
{
    if cursor <= top {
        return Ok(cursor);
    }
    let mut left = area.height;
    for n in 0..cursor - top + 1 {
        let rows = rows_at(alloc, text, cursor - n, area.width, tabstop, left + 1)?;
        if left < rows {
            return Ok((cursor - n + 1).min(cursor));
        }
        left -= rows;
    }
    Ok(top)
}

// The text cells of a window, of a live one.
fn area_of(editor: &Editor, window: i64) -> Option<Rect>
    ensures area { result ≡ text_area editor.now.stage.workspace window }
    ensures size { IfSome result IsTextArea }
{
    let _windows = editor.windows().windows();
    editor.windows().area(window)
}

// The first row of a window, once it is settled.
fn top_of(editor: &Editor, window: Window) -> Result<u32, AllocError>
    requires { ShowsBuffer (at_handle editor.now.buffers window.buffer) window }
    ensures top { IfOk result (λ row. row ≡ top_of (seen_now editor.now) window) }
    ensures within { IfOk result
        (λ row. row < length (content_at editor.now window.buffer).text) }
{
    let alloc = editor.alloc();
    let Some(buffer) = editor.buffer(window.buffer) else {
        return Ok(window.top);
    };
    let Some(area) = area_of(editor, window.handle) else {
        return Ok(window.top);
    };
    settled_top(
        alloc,
        buffer.text(),
        buffer.tabstop(),
        area,
        window.cursor.row,
        window.top,
    )
}

// Settles the window at a place.
fn settle_at(editor: &mut Editor, place: usize) -> Result<(), AllocError>
    ensures { OnOk result (Does (settling_at (seen_now editor.old) place) editor.old editor.new) }
{
    editor.known();
    let Some(window) = editor.windows().windows().get(place) else {
        return Ok(());
    };
    let window = *window;
    let top = top_of(editor, window)?;
    if top != window.top {
        editor.put_top(window.handle, top);
    }
    Ok(())
}

/// Settles all windows: where a window's cursor is before its first row, that becomes the cursor's;
/// where the lines from it to the cursor's have more rows than the window, it becomes the least row
/// from which they fit, or the cursor's. Other windows stay (own rule). No more lines are looked at
/// than a window has rows.
pub fn settle(editor: &mut Editor) -> Result<(), AllocError>
    ensures { OnOk result
        (Does (settle_operations (seen_now editor.old)) editor.old editor.new) }
{
    editor.known();
    let count = editor.windows().windows().len();
    for place in 0..count {
        settle_at(editor, place)?;
    }
    Ok(())
}

/// Whether all windows are settled: `settle` would change nothing. No more lines are looked at than
/// a window has rows.
pub fn is_settled(editor: &Editor) -> Result<bool, AllocError>
    ensures { IfOk result (λ settled. (settled ≡ true) ↔ IsSettled (seen_now editor.now)) }
{
    editor.known();
    for window in editor.windows().windows() {
        if top_of(editor, *window)? != window.top {
            return Ok(false);
        }
    }
    Ok(true)
}
