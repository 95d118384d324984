//! What the windows of a buffer show when its text changes.
ghost use Rattle.std.specs.Prelude.{◌≡◌, ◌-◌, ◌<◌, All, length, map, true, is_some};
ghost use Rattle.nv_places.specs.Flat.{line_at};
ghost use Rattle.nv_places.specs.Places.{IsNarrow, further};
ghost use Rattle.nv_windows.specs.Views.{MovesNarrowlyIn};
ghost use Rattle.nv_model.specs.Editors.{at_handle};
ghost use Rattle.nv_model.specs.Stage.{cursor_in_line};
ghost use Rattle.nv_editor.specs.inside.Table.{content_in};
ghost use Rattle.nv_editor.specs.inside.Views.{changed_at, clamped, move_by, with_views};

use crate::buffers::Buffers;
use crate::stage::Stage;
use nv_buffer::{Edit, Lines, Pos};
use nv_windows::Windows;

// The place of the last byte of a line, and 0 where it has none.
fn last_byte(text: &Lines, row: usize) -> usize
    ensures { result ≡ length (line_at text.now row) - 1 }
{
    match text.get(row) {
        Some(line) => line.len().saturating_sub(1),
        None => 0,
    }
}

// A cursor kept in its line: at most at the last byte.
fn cursor_in_line(text: &Lines, cursor: Pos) -> Pos
    ensures { result ≡ cursor_in_line text.now cursor }
{
    let last = last_byte(text, cursor.row as usize);
    if cursor.col as usize <= last {
        return cursor;
    }
    Pos {
        row: cursor.row,
        col: last as u32,
    }
}

// Keeps the cursor of the window at a place in its line, where the window shows the buffer.
fn clamp_cursor(windows: &mut Windows, place: usize, buffer: i64, text: &Lines)
    requires { place < length windows.old.windows }
    ensures { windows.new ≡ record windows.old {
      windows = changed_at (clamped buffer text.now) place windows.old.windows;
    } }
{
    let window = windows.windows()[place];
    if window.buffer == buffer {
        let cursor = cursor_in_line(text, window.cursor);
        windows.put_cursor(window.handle, cursor);
    }
}

// Keeps the cursors of the windows of a buffer in their lines.
fn clamp_cursors(windows: &mut Windows, buffer: i64, text: &Lines)
    ensures { windows.new ≡ record windows.old {
      windows = map (clamped buffer text.now) windows.old.windows;
    } }
{
    let count = windows.windows().len();
    for place in 0..count {
        clamp_cursor(windows, place, buffer, text);
    }
}

/// Moves what the windows of a buffer show after an edit of its text, which is `text` afterwards.
/// Their cursors stay in their lines.
pub(crate) fn move_views(windows: &mut Windows, buffer: i64, edit: &Edit, text: &Lines)
    requires old_end { IsNarrow (further edit.now.start edit.now.removed) }
    requires new_end { IsNarrow (further edit.now.start edit.now.put) }
    requires moved { All (MovesNarrowlyIn buffer (move_by edit.now text.now)) windows.old.windows }
    ensures { windows.new ≡ with_views buffer edit.now text.now windows.old }
{
    windows.splice(buffer, edit.start, edit.removed, edit.put, text.count());
    clamp_cursors(windows, buffer, text);
}

/// Moves what the windows of a buffer show after an edit of its text, which was made.
pub(crate) fn carry_views(stage: &mut Stage, buffers: &Buffers, buffer: i64, edit: &Edit)
    requires there { is_some (at_handle buffers.now buffer) ≡ true }
    requires old_end { IsNarrow (further edit.now.start edit.now.removed) }
    requires new_end { IsNarrow (further edit.now.start edit.now.put) }
    requires moved { All (MovesNarrowlyIn buffer
        (move_by edit.now (content_in buffers.now buffer).text)) stage.old.workspace.windows }
    ensures { stage.new ≡ record stage.old {
      workspace = with_views buffer edit.now (content_in buffers.now buffer).text
          stage.old.workspace;
    } }
{
    match buffers.get(buffer) {
        Some(content) => move_views(&mut stage.windows, buffer, edit, content.text()),
        None => unreachable!(),
    }
}
