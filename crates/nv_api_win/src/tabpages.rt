//! The methods that tell of tabpages.
ghost use Rattle.std.specs.Prelude.{IfOk};
ghost use Rattle.nv_value.specs.View.{content};
ghost use Rattle.nv_msgpack.specs.Shortest.{HasSpelling};
ghost use Rattle.nv_args.specs.Args.{typed_arguments};
ghost use Rattle.nv_editor.specs.Doing.{GivesAlone};
ghost use Rattle.nv_api_win.specs.TabpageRows.{nvim_list_tabpages, nvim_get_current_tabpage, nvim_tabpage_is_valid, nvim_tabpage_list_wins, nvim_tabpage_get_win, nvim_tabpage_get_number};

use crate::finding::{place_among, tabpage_named, the_tabpage};
use crate::values::{tabpage_list, tabpage_value, window_list, window_value};
use nv_args::{Args, Fail};
use nv_editor::Editor;
use nv_layout::push_windows;
use nv_value::Value;

/// `nvim_list_tabpages`: the tabpages in their order.
pub fn nvim_list_tabpages(editor: &Editor, args: &Args) -> Result<Value, Fail>
    ensures row { GivesAlone nvim_list_tabpages (typed_arguments args.now) result
        editor.now editor.now }
    ensures spelled { IfOk result (λ value. HasSpelling (content value)) }
{
    let _ = args;
    Ok(tabpage_list(editor.alloc(), editor.windows())?)
}

/// `nvim_get_current_tabpage`: the current tabpage.
pub fn nvim_get_current_tabpage(editor: &Editor, args: &Args) -> Result<Value, Fail>
    ensures row { GivesAlone nvim_get_current_tabpage (typed_arguments args.now) result
        editor.now editor.now }
    ensures spelled { IfOk result (λ value. HasSpelling (content value)) }
{
    let _ = args;
    Ok(tabpage_value(editor.alloc(), editor.windows().current())?)
}

/// `nvim_tabpage_is_valid`: whether a tabpage of this handle is live.
pub fn nvim_tabpage_is_valid(editor: &Editor, args: &Args) -> Result<Value, Fail>
    ensures row { GivesAlone nvim_tabpage_is_valid (typed_arguments args.now) result
        editor.now editor.now }
    ensures spelled { IfOk result (λ value. HasSpelling (content value)) }
{
    let found = tabpage_named(editor, args.number(0));
    Ok(Value::Truth(found.is_some()))
}

/// `nvim_tabpage_list_wins`: a tabpage's windows in tree order.
pub fn nvim_tabpage_list_wins(editor: &Editor, args: &Args) -> Result<Value, Fail>
    ensures row { GivesAlone nvim_tabpage_list_wins (typed_arguments args.now) result
        editor.now editor.now }
    ensures spelled { IfOk result (λ value. HasSpelling (content value)) }
{
    let tabpage = the_tabpage(editor, args)?;
    let mut windows = Vec::new(editor.alloc());
    push_windows(&tabpage.tree, &mut windows)?;
    Ok(window_list(editor.alloc(), windows.as_slice())?)
}

/// `nvim_tabpage_get_win`: a tabpage's current window.
pub fn nvim_tabpage_get_win(editor: &Editor, args: &Args) -> Result<Value, Fail>
    ensures row { GivesAlone nvim_tabpage_get_win (typed_arguments args.now) result
        editor.now editor.now }
    ensures spelled { IfOk result (λ value. HasSpelling (content value)) }
{
    let tabpage = the_tabpage(editor, args)?;
    Ok(window_value(editor.alloc(), tabpage.current)?)
}

/// `nvim_tabpage_get_number`: a tabpage's place in their order, from 1.
pub fn nvim_tabpage_get_number(editor: &Editor, args: &Args) -> Result<Value, Fail>
    ensures row { GivesAlone nvim_tabpage_get_number (typed_arguments args.now) result
        editor.now editor.now }
    ensures spelled { IfOk result (λ value. HasSpelling (content value)) }
{
    let tabpage = the_tabpage(editor, args)?;
    let place = place_among(editor.windows(), tabpage);
    Ok(Value::Int(place as i64 + 1))
}
