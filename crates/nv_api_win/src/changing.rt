//! The methods that change windows and tabpages.
ghost use Rattle.std.specs.Prelude.{◌≡◌, ◌≤◌, IfOk, IfSome};
ghost use Rattle.nv_value.specs.View.{content};
ghost use Rattle.nv_msgpack.specs.Shortest.{HasSpelling};
ghost use Rattle.nv_args.specs.Args.{typed_arguments};
ghost use Rattle.nv_args.specs.Reading.{number_at};
ghost use Rattle.nv_args.specs.KeyValues.{number_between};
ghost use Rattle.nv_editor.specs.Doing.{GivesAlone};
ghost use Rattle.nv_api_win.specs.TabpageRows.{nvim_set_current_tabpage};
ghost use Rattle.nv_api_win.specs.WindowRows.{nvim_set_current_win, nvim_win_close, nvim_win_set_buf, nvim_win_set_cursor, nvim_win_set_height, nvim_win_set_width};

use crate::cursors::asked_place;
use crate::finding::{the_buffer, the_tabpage, the_window};
use nv_args::{Args, Fail, last_one, out_of_bounds};
use nv_editor::Editor;
use nv_value::Value;

/// `nvim_set_current_win`: a window becomes current, and its tabpage too.
pub fn nvim_set_current_win(editor: &mut Editor, args: &Args) -> Result<Value, Fail>
    ensures row { GivesAlone nvim_set_current_win (typed_arguments args.now) result
        editor.old editor.new }
    ensures spelled { IfOk result (λ value. HasSpelling (content value)) }
{
    let window = the_window(editor, args)?;
    editor.go_to_window(window.handle);
    Ok(Value::Nil)
}

/// `nvim_set_current_tabpage`: a tabpage becomes current.
pub fn nvim_set_current_tabpage(editor: &mut Editor, args: &Args) -> Result<Value, Fail>
    ensures row { GivesAlone nvim_set_current_tabpage (typed_arguments args.now) result
        editor.old editor.new }
    ensures spelled { IfOk result (λ value. HasSpelling (content value)) }
{
    let tabpage = the_tabpage(editor, args)?.handle;
    editor.go_to_tab(tabpage);
    Ok(Value::Nil)
}

/// `nvim_win_set_buf`: a window shows a buffer, at row 0.
pub fn nvim_win_set_buf(editor: &mut Editor, args: &Args) -> Result<Value, Fail>
    ensures row { GivesAlone nvim_win_set_buf (typed_arguments args.now) result
        editor.old editor.new }
    ensures spelled { IfOk result (λ value. HasSpelling (content value)) }
{
    let buffer = the_buffer(editor, args, 1)?;
    let window = the_window(editor, args)?;
    editor.show(window.handle, buffer);
    Ok(Value::Nil)
}

/// `nvim_win_set_cursor`: puts a window's cursor, its row from 1 and its column from 0.
pub fn nvim_win_set_cursor(editor: &mut Editor, args: &Args) -> Result<Value, Fail>
    ensures row { GivesAlone nvim_win_set_cursor (typed_arguments args.now) result
        editor.old editor.new }
    ensures spelled { IfOk result (λ value. HasSpelling (content value)) }
{
    editor.known();
    let window = the_window(editor, args)?;
    let place = asked_place(editor, &window, args)?;
    editor.put_cursor(window.handle, place);
    Ok(Value::Nil)
}

// The size from 1 to a greatest one that a call asks for.
fn asked_size(args: &Args, most: u32) -> Option<u32>
    ensures size { result ≡ number_between 1 most (number_at (typed_arguments args.now) 1) }
    ensures within { IfSome result (λ size. size ≤ most) }
{
    let size = args.number(1);
    if 1 <= size && size <= i64::from(most) {
        Some(size as u32)
    } else {
        None
    }
}

/// `nvim_win_set_height`: a window wishes so many rows of text.
pub fn nvim_win_set_height(editor: &mut Editor, args: &Args) -> Result<Value, Fail>
    ensures row { GivesAlone nvim_win_set_height (typed_arguments args.now) result
        editor.old editor.new }
    ensures spelled { IfOk result (λ value. HasSpelling (content value)) }
{
    let window = the_window(editor, args)?;
    match asked_size(args, 1000) {
        Some(height) => {
            editor.put_height(window.handle, height + 1);
            Ok(Value::Nil)
        }
        None => Err(out_of_bounds(editor.alloc())),
    }
}

/// `nvim_win_set_width`: a window wishes so many columns.
pub fn nvim_win_set_width(editor: &mut Editor, args: &Args) -> Result<Value, Fail>
    ensures row { GivesAlone nvim_win_set_width (typed_arguments args.now) result
        editor.old editor.new }
    ensures spelled { IfOk result (λ value. HasSpelling (content value)) }
{
    let window = the_window(editor, args)?;
    match asked_size(args, 2000) {
        Some(width) => {
            editor.put_width(window.handle, width);
            Ok(Value::Nil)
        }
        None => Err(out_of_bounds(editor.alloc())),
    }
}

/// `nvim_win_close`: a window is closed, and its tabpage with its last one.
pub fn nvim_win_close(editor: &mut Editor, args: &Args) -> Result<Value, Fail>
    ensures row { GivesAlone nvim_win_close (typed_arguments args.now) result
        editor.old editor.new }
    ensures spelled { IfOk result (λ value. HasSpelling (content value)) }
{
    let window = the_window(editor, args)?;
    if editor.close_window(window.handle)? {
        Ok(Value::Nil)
    } else {
        Err(last_one(editor.alloc()))
    }
}
