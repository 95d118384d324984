//! The methods of this crate by their names.
ghost use Rattle.std.specs.Prelude.{ℕ, List, IfOk};
ghost use Rattle.nv_value.specs.View.{content};
ghost use Rattle.nv_msgpack.specs.Shortest.{HasSpelling};
ghost use Rattle.nv_rpc.specs.Outcomes.{outcome_content};
ghost use Rattle.nv_args.specs.Args.{typed_arguments};
ghost use Rattle.nv_model.specs.Answers.{Fact};
ghost use Rattle.nv_model.specs.Standing.{seen_now};
ghost use Rattle.nv_editor.specs.Doing.{GivesAlone, GivesResult};
ghost use Rattle.nv_api_win.specs.WindowRows.{window_row};

use crate::changing::{
    nvim_set_current_tabpage, nvim_set_current_win, nvim_win_close, nvim_win_set_buf,
    nvim_win_set_cursor, nvim_win_set_height, nvim_win_set_width,
};
use crate::opening::nvim_open_win;
use crate::reading::{
    nvim_get_current_win, nvim_list_wins, nvim_win_get_buf, nvim_win_get_cursor,
    nvim_win_get_height, nvim_win_get_position, nvim_win_get_tabpage, nvim_win_get_width,
    nvim_win_is_valid,
};
use crate::tabpages::{
    nvim_get_current_tabpage, nvim_list_tabpages, nvim_tabpage_get_number, nvim_tabpage_get_win,
    nvim_tabpage_is_valid, nvim_tabpage_list_wins,
};
use nv_args::{Args, Fail, WindowMethod};
use nv_editor::{Editor, as_outcome};
use nv_rpc::Outcome;
use nv_value::Value;

// What a method on windows or tabpages gives, as a value.
fn value_given(method: WindowMethod, editor: &mut Editor, args: &Args) -> Result<Value, Fail>
    ensures row { GivesAlone (window_row method) (typed_arguments args.now) result
        editor.old editor.new }
    ensures spelled { IfOk result (λ value. HasSpelling (content value)) }
{
    match method {
        WindowMethod::ListWins => nvim_list_wins(editor, args),
        WindowMethod::GetCurrentWin => nvim_get_current_win(editor, args),
        WindowMethod::SetCurrentWin => nvim_set_current_win(editor, args),
        WindowMethod::OpenWin => nvim_open_win(editor, args),
        WindowMethod::WinClose => nvim_win_close(editor, args),
        WindowMethod::WinIsValid => nvim_win_is_valid(editor, args),
        WindowMethod::WinGetBuf => nvim_win_get_buf(editor, args),
        WindowMethod::WinSetBuf => nvim_win_set_buf(editor, args),
        WindowMethod::WinGetCursor => nvim_win_get_cursor(editor, args),
        WindowMethod::WinSetCursor => nvim_win_set_cursor(editor, args),
        WindowMethod::WinGetHeight => nvim_win_get_height(editor, args),
        WindowMethod::WinGetWidth => nvim_win_get_width(editor, args),
        WindowMethod::WinSetHeight => nvim_win_set_height(editor, args),
        WindowMethod::WinSetWidth => nvim_win_set_width(editor, args),
        WindowMethod::WinGetPosition => nvim_win_get_position(editor, args),
        WindowMethod::WinGetTabpage => nvim_win_get_tabpage(editor, args),
        WindowMethod::ListTabpages => nvim_list_tabpages(editor, args),
        WindowMethod::GetCurrentTabpage => nvim_get_current_tabpage(editor, args),
        WindowMethod::SetCurrentTabpage => nvim_set_current_tabpage(editor, args),
        WindowMethod::TabpageIsValid => nvim_tabpage_is_valid(editor, args),
        WindowMethod::TabpageListWins => nvim_tabpage_list_wins(editor, args),
        WindowMethod::TabpageGetWin => nvim_tabpage_get_win(editor, args),
        WindowMethod::TabpageGetNumber => nvim_tabpage_get_number(editor, args),
    }
}

/// Calls a method on windows or tabpages.
pub fn call(method: WindowMethod, editor: &mut Editor, args: &Args) -> Result<Outcome, Fail>
    ensures row { (session : ℕ) (told : List Fact) → GivesResult
        (window_row method (seen_now editor.old) session (typed_arguments args.now))
        result editor.old editor.new told told }
    ensures spelled { IfOk result (λ outcome. HasSpelling (outcome_content outcome)) }
{
    as_outcome(value_given(method, editor, args))
}
