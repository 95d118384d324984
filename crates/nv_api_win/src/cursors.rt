//! Where a cursor is put.
ghost use Rattle.std.specs.Prelude.{◌≡◌, ◌-◌, ◌<◌, ◌≤◌, Some, IfOk, IfSome, map, option_map, slice_get};
ghost use Rattle.nv_value.specs.View.{content};
ghost use Rattle.nv_args.specs.Args.{typed_arguments};
ghost use Rattle.nv_args.specs.Faults.{out_of_bounds};
ghost use Rattle.nv_buffer.specs.Splices.{IsNarrowText};
ghost use Rattle.nv_windows.specs.Workspace.{window_at};
ghost use Rattle.nv_editor.specs.Sound.{IsCursorIn, content_at};
ghost use Rattle.nv_api_win.specs.WindowRows.{column_in, coordinate, integer_or_zero, row_from_one};
ghost use Rattle.nv_api_win.specs.inside.Finding.{LooksUp, cursor_place};

use nv_args::{Args, Fail, integer_of, no_buffer, out_of_bounds};
use nv_buffer::Lines;
use nv_editor::Editor;
use nv_places::Pos;
use nv_value::Value;
use nv_windows::Window;

fn integer_or_zero(value: Option<&Value>) -> i64
    ensures { result ≡ integer_or_zero (option_map (λ v. content v.now) value.entry) }
{
    match value {
        Some(value) => integer_of(value).unwrap_or(0),
        None => 0,
    }
}

fn value_at(values: &[Value], place: usize) -> Option<&Value>
    ensures { option_map (λ v. content v.now) result ≡ slice_get (map content values.now) place }
{
    values.get(place)
}

// One of the two integers of a cursor's argument.
fn coordinate(args: &Args, place: usize) -> i64
    ensures { result ≡ coordinate (typed_arguments args.now) place }
{
    integer_or_zero(value_at(args.values(1), place))
}

// A row from 1 as one from 0.
fn row_from_one(row: i64, lines: usize) -> Option<usize>
    ensures row { result ≡ row_from_one row lines }
    ensures within { IfSome result (λ row. row < lines) }
{
    if row < 1 {
        return None;
    }
    let row = row as usize - 1;
    if row < lines { Some(row) } else { None }
}

// A column of a line of so many bytes: at most its last byte.
fn column_in(col: i64, bytes: usize) -> Option<usize>
    ensures col { result ≡ column_in col bytes }
    ensures within { IfSome result (λ col. col ≤ bytes - 1) }
{
    if col < 0 {
        return None;
    }
    let col = col as usize;
    if bytes == 0 {
        Some(0)
    } else if col < bytes {
        Some(col)
    } else {
        Some(bytes - 1)
    }
}

// The place that a row from 1 and a column from 0 name.
fn place_in(text: &Lines, row: i64, col: i64) -> Option<Pos>
    requires narrow { IsNarrowText text.now }
    ensures place { result ≡ cursor_place text.now row col }
    ensures within { IfSome result (IsCursorIn text.now) }
{
    let row = row_from_one(row, text.count())?;
    let line = text.get(row)?;
    let col = column_in(col, line.len())?;
    Some(Pos {
        row: row as u32,
        col: col as u32,
    })
}

/// The place in the text of a live window that a call names by a row from 1 and a column from 0.
pub fn asked_place(editor: &Editor, window: &Window, args: &Args) -> Result<Pos, Fail>
    requires live { window_at editor.now.stage.workspace window.now.handle ≡ Some window.now }
    ensures found { LooksUp (λ p. p)
        (cursor_place (content_at editor.now window.now.buffer).text
        (coordinate (typed_arguments args.now) 0) (coordinate (typed_arguments args.now) 1))
        out_of_bounds result }
    ensures within { IfOk result (IsCursorIn (content_at editor.now window.now.buffer).text) }
{
    editor.known();
    match editor.buffer(window.buffer) {
        Some(buffer) => {
            match place_in(buffer.text(), coordinate(args, 0), coordinate(args, 1)) {
                Some(place) => Ok(place),
                None => Err(out_of_bounds(editor.alloc())),
            }
        }
        None => Err(no_buffer(editor.alloc(), window.buffer)),
    }
}
