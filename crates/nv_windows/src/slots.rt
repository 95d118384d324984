//! Windows by rising handles.

ghost use Rattle.nv_places.specs.Places.{IsNarrow, further};
ghost use Rattle.nv_windows.specs.Operations.{other_windows, window_instead, windows_with};
ghost use Rattle.nv_windows.specs.Sound.{IsRisingFrom};
ghost use Rattle.nv_windows.specs.Views.{MovesNarrowlyIn, row_within, view_showing, views_after};
ghost use Rattle.nv_windows.specs.Workspace.{handles_of_windows, showing, window_on};
ghost use Rattle.std.specs.Ordering.{int_eq};
ghost use Rattle.std.specs.Prelude.{◌≡◌, ◌≢◌, ◌<◌, ◌^◌, ◌++◌, ◌∷◌, [], All, OnOk, IfOk, IfSome, find, if◌then◌else◌, length, map, option_copied, pos, position, true};

use crate::window::Window;
use nv_places::{Extent, Pos};
use std::alloc::{AllocError, Global};

/// A window that shows a buffer from row 0 on.
pub(crate) fn window_on(handle: i64, buffer: i64) -> Window
    ensures { result ≡ window_on handle buffer }
{
    Window {
        handle,
        buffer,
        cursor: Pos { row: 0, col: 0 },
        top: 0,
    }
}

/// Where the window of a handle stands.
pub(crate) fn place_of(windows: &[Window], handle: i64) -> Option<usize>
    requires { IsRisingFrom (pos 1000) (handles_of_windows windows.now) }
    ensures place { result ≡ position (λ w. int_eq w.handle handle) windows.now }
    ensures within { IfSome result (λ place. place < length windows.now) }
{
    let place = windows.partition_point(|window| window.handle < handle);
    match windows.get(place) {
        Some(window) if window.handle == handle => Some(place),
        _ => None,
    }
}

/// The window of a handle.
pub(crate) fn window_at(windows: &[Window], handle: i64) -> Option<&Window>
    requires { IsRisingFrom (pos 1000) (handles_of_windows windows.now) }
    ensures { option_copied result ≡ find (λ w. int_eq w.handle handle) windows.now }
{
    let place = place_of(windows, handle)?;
    Some(&windows[place])
}

/// The handles of the windows that show a buffer.
pub(crate) fn showing(
    alloc: Global,
    windows: &[Window],
    buffer: i64,
) -> Result<Vec<i64>, AllocError>
    ensures { IfOk result (λ handles. handles.items
        ≡ handles_of_windows (showing buffer windows.now)) }
{
    let mut handles = Vec::new(alloc);
    for window in windows {
        push_showing(&mut handles, *window, buffer)?;
    }
    Ok(handles)
}

fn push_showing(handles: &mut Vec<i64>, window: Window, buffer: i64) -> Result<(), AllocError>
    ensures { OnOk result (handles.new.items
        ≡ handles.old.items ++ handles_of_windows (showing buffer (window ∷ []))) }
{
    if window.buffer == buffer {
        handles.push(window.handle)?;
    }
    Ok(())
}

/// Puts a window's cursor.
pub(crate) fn put_cursor(windows: &mut [Window], handle: i64, cursor: Pos)
    requires { IsRisingFrom (pos 1000) (handles_of_windows windows.old) }
    ensures { windows.new ≡ windows_with handle (λ w. record w { cursor = cursor }) windows.old }
{
    if let Some(place) = place_of(windows, handle) {
        windows[place].cursor = cursor;
    }
}

/// Puts a window's first row.
pub(crate) fn put_top(windows: &mut [Window], handle: i64, top: u32)
    requires { IsRisingFrom (pos 1000) (handles_of_windows windows.old) }
    ensures { windows.new ≡ windows_with handle (λ w. record w { top = top }) windows.old }
{
    if let Some(place) = place_of(windows, handle) {
        windows[place].top = top;
    }
}

/// Lets a window show a buffer, from row 0 on.
pub(crate) fn show(windows: &mut [Window], handle: i64, buffer: i64)
    requires { IsRisingFrom (pos 1000) (handles_of_windows windows.old) }
    ensures { windows.new ≡ windows_with handle (λ w. window_on w.handle buffer) windows.old }
{
    if let Some(place) = place_of(windows, handle) {
        windows[place] = Window {
            buffer,
            cursor: Pos { row: 0, col: 0 },
            top: 0,
            ..windows[place]
        };
    }
}

/// Lets the windows that show a buffer show another one, from row 0 on.
pub(crate) fn show_instead(windows: &mut [Window], old: i64, new: i64)
    ensures { windows.new ≡ map (window_instead old new) windows.old }
{
    for window in windows.iter_mut() {
        *window = window_instead(*window, old, new);
    }
}

fn window_instead(window: Window, old: i64, new: i64) -> Window
    ensures { result ≡ window_instead old new window }
{
    if window.buffer == old {
        window_on(window.handle, new)
    } else {
        window
    }
}

/// Takes the window of a handle out.
pub(crate) fn drop_window(windows: &mut Vec<Window>, handle: i64)
    ensures { windows.new.items ≡ other_windows handle windows.old.items }
{
    windows.retain(|window| window.handle != handle);
}

/// Moves the windows that show a buffer after a splice of its text, and keeps them in its `count`
/// lines.
pub(crate) fn move_views(
    windows: &mut [Window],
    buffer: i64,
    start: Pos,
    old: Extent,
    new: Extent,
    count: usize,
)
    requires some { count ≢ 0 }
    requires old_end { IsNarrow (further start old) }
    requires new_end { IsNarrow (further start new) }
    requires moved { All (MovesNarrowlyIn buffer (record {
      start = start;
      old = old;
      new = new;
      count = count;
    })) windows.old }
    ensures { windows.new ≡ views_after buffer (record {
      start = start;
      old = old;
      new = new;
      count = count;
    }) windows.old }
{
    for window in windows.iter_mut() {
        *window = view_showing(*window, buffer, start, old, new, count);
    }
}

/// A window after a splice of the text of a buffer, which has `count` lines afterwards.
fn view_showing(
    window: Window,
    buffer: i64,
    start: Pos,
    old: Extent,
    new: Extent,
    count: usize,
) -> Window
    requires some { count ≢ 0 }
    requires old_end { IsNarrow (further start old) }
    requires new_end { IsNarrow (further start new) }
    requires moved { MovesNarrowlyIn buffer
        (record { start = start; old = old; new = new; count = count }) window }
    ensures { result ≡ view_showing buffer
        (record { start = start; old = old; new = new; count = count }) window }
{
    if window.buffer != buffer {
        return window;
    }
    let cursor = window.cursor.moved(false, start, old, new);
    let begin = Pos {
        row: window.top,
        col: 0,
    };
    let top = begin.moved(false, start, old, new);
    Window {
        cursor: Pos {
            row: row_within(cursor.row, count),
            ..cursor
        },
        top: row_within(top.row, count),
        ..window
    }
}

/// A row, at most the last one of `count`.
fn row_within(row: u32, count: usize) -> u32
    requires { count ≢ 0 }
    ensures { result ≡ row_within count row }
{
    (row as usize).min(count - 1) as u32
}
