//! The methods that tell of windows.
ghost use Rattle.std.specs.Prelude.{IfOk};
ghost use Rattle.nv_value.specs.View.{content};
ghost use Rattle.nv_msgpack.specs.Shortest.{HasSpelling};
ghost use Rattle.nv_args.specs.Args.{typed_arguments};
ghost use Rattle.nv_editor.specs.Doing.{GivesAlone};
ghost use Rattle.nv_api_win.specs.WindowRows.{nvim_list_wins, nvim_get_current_win, nvim_win_is_valid, nvim_win_get_buf, nvim_win_get_cursor, nvim_win_get_height, nvim_win_get_width, nvim_win_get_position, nvim_win_get_tabpage};

use crate::finding::{area_of, home_of, the_window, window_named};
use crate::values::{
    buffer_value, corner_value, cursor_value, natural_value, tabpage_value, window_list,
    window_value,
};
use nv_args::{Args, Fail};
use nv_editor::Editor;
use nv_value::Value;

/// `nvim_list_wins`: the windows of all tabpages, each tabpage's in tree order.
pub fn nvim_list_wins(editor: &Editor, args: &Args) -> Result<Value, Fail>
    ensures row { GivesAlone nvim_list_wins (typed_arguments args.now) result
        editor.now editor.now }
    ensures spelled { IfOk result (λ value. HasSpelling (content value)) }
{
    let _ = args;
    let all = editor.windows().all(editor.alloc())?;
    Ok(window_list(editor.alloc(), all.as_slice())?)
}

/// `nvim_get_current_win`: the current window.
pub fn nvim_get_current_win(editor: &Editor, args: &Args) -> Result<Value, Fail>
    ensures row { GivesAlone nvim_get_current_win (typed_arguments args.now) result
        editor.now editor.now }
    ensures spelled { IfOk result (λ value. HasSpelling (content value)) }
{
    let _ = args;
    Ok(window_value(editor.alloc(), editor.windows().current_window())?)
}

/// `nvim_win_get_buf`: the buffer that a window shows.
pub fn nvim_win_get_buf(editor: &Editor, args: &Args) -> Result<Value, Fail>
    ensures row { GivesAlone nvim_win_get_buf (typed_arguments args.now) result
        editor.now editor.now }
    ensures spelled { IfOk result (λ value. HasSpelling (content value)) }
{
    let window = the_window(editor, args)?;
    Ok(buffer_value(editor.alloc(), window.buffer)?)
}

/// `nvim_win_get_cursor`: a window's cursor, its row from 1 and its column from 0.
pub fn nvim_win_get_cursor(editor: &Editor, args: &Args) -> Result<Value, Fail>
    ensures row { GivesAlone nvim_win_get_cursor (typed_arguments args.now) result
        editor.now editor.now }
    ensures spelled { IfOk result (λ value. HasSpelling (content value)) }
{
    let window = the_window(editor, args)?;
    Ok(cursor_value(editor.alloc(), &window)?)
}

/// `nvim_win_is_valid`: whether a window of this handle is live.
pub fn nvim_win_is_valid(editor: &Editor, args: &Args) -> Result<Value, Fail>
    ensures row { GivesAlone nvim_win_is_valid (typed_arguments args.now) result
        editor.now editor.now }
    ensures spelled { IfOk result (λ value. HasSpelling (content value)) }
{
    let found = window_named(editor, args.number(0));
    Ok(Value::Truth(found.is_some()))
}

/// `nvim_win_get_height`: a window's rows of text, without its status line.
pub fn nvim_win_get_height(editor: &Editor, args: &Args) -> Result<Value, Fail>
    ensures row { GivesAlone nvim_win_get_height (typed_arguments args.now) result
        editor.now editor.now }
    ensures spelled { IfOk result (λ value. HasSpelling (content value)) }
{
    let window = the_window(editor, args)?;
    Ok(natural_value(area_of(editor.windows(), &window).height))
}

/// `nvim_win_get_width`: a window's columns of text.
pub fn nvim_win_get_width(editor: &Editor, args: &Args) -> Result<Value, Fail>
    ensures row { GivesAlone nvim_win_get_width (typed_arguments args.now) result
        editor.now editor.now }
    ensures spelled { IfOk result (λ value. HasSpelling (content value)) }
{
    let window = the_window(editor, args)?;
    Ok(natural_value(area_of(editor.windows(), &window).width))
}

/// `nvim_win_get_position`: row and column of a window's first cell on the screen.
pub fn nvim_win_get_position(editor: &Editor, args: &Args) -> Result<Value, Fail>
    ensures row { GivesAlone nvim_win_get_position (typed_arguments args.now) result
        editor.now editor.now }
    ensures spelled { IfOk result (λ value. HasSpelling (content value)) }
{
    let window = the_window(editor, args)?;
    let area = area_of(editor.windows(), &window);
    Ok(corner_value(editor.alloc(), area)?)
}

/// `nvim_win_get_tabpage`: the tabpage that a window is in.
pub fn nvim_win_get_tabpage(editor: &Editor, args: &Args) -> Result<Value, Fail>
    ensures row { GivesAlone nvim_win_get_tabpage (typed_arguments args.now) result
        editor.now editor.now }
    ensures spelled { IfOk result (λ value. HasSpelling (content value)) }
{
    let window = the_window(editor, args)?;
    let home = home_of(editor.windows(), &window);
    Ok(tabpage_value(editor.alloc(), home)?)
}
