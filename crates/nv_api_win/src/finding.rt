//! The windows and tabpages that calls name.
ghost use Rattle.std.specs.Prelude.{◌≡◌, ◌<◌, ◌^◌, pos, true, false, position, option_copied, IfOk, IfErr, MatchOption, None, Some};
ghost use Rattle.std.specs.Ordering.{int_eq};
ghost use Rattle.nv_windows.specs.Operations.{place_among};
ghost use Rattle.std.specs.Option.{option_map_or};
ghost use Rattle.nv_args.specs.Args.{typed_arguments};
ghost use Rattle.nv_args.specs.Faults.{no_buffer, no_tabpage, no_window};
ghost use Rattle.nv_args.specs.Reading.{number_at};
ghost use Rattle.nv_args.specs.Refusals.{Refuses};
ghost use Rattle.nv_editor.specs.Sound.{is_live_buffer};
ghost use Rattle.nv_windows.specs.Workspace.{current_window, is_live_tabpage, page_of, tabpage_at, tabpage_of, window_at};
ghost use Rattle.nv_model.specs.Stage.{or_current};
ghost use Rattle.nv_api_win.specs.inside.Finding.{LooksUp, buffer_of_call, window_of_call, tabpage_of_call};
ghost use Rattle.nv_api_win.specs.Windows.{area_of};

use nv_args::{Args, Fail, no_buffer, no_tabpage, no_window};
use nv_editor::Editor;
use nv_layout::Rect;
use nv_windows::{Tabpage, Window, Windows};

/// The window that a handle names; 0 is the current one.
pub fn window_named(editor: &Editor, handle: i64) -> Option<&Window>
    ensures { option_copied result ≡ window_at editor.now.stage.workspace
        (or_current (current_window editor.now.stage.workspace) handle) }
{
    editor.windows().find(editor.named_window(handle))
}

/// The tabpage that a handle names; 0 is the current one.
pub fn tabpage_named(editor: &Editor, handle: i64) -> Option<&Tabpage>
    ensures { MatchOption result
        (tabpage_at editor.now.stage.workspace
        (or_current editor.now.stage.workspace.tabpage handle) ≡ None)
        (λ t. tabpage_at editor.now.stage.workspace
        (or_current editor.now.stage.workspace.tabpage handle) ≡ Some (page_of t.now)) }
{
    editor.windows().tabpage(editor.named_tabpage(handle))
}

/// The window that the first argument of a call names.
pub fn the_window(editor: &Editor, args: &Args) -> Result<Window, Fail>
    ensures live { IfOk result (λ w. window_at editor.now.stage.workspace w.handle ≡ Some w) }
    ensures found { LooksUp (λ w. w)
        (window_of_call editor.now.stage.workspace (typed_arguments args.now))
        (no_window (number_at (typed_arguments args.now) 0)) result }
{
    let handle = args.number(0);
    match window_named(editor, handle) {
        Some(window) => Ok(*window),
        None => Err(no_window(editor.alloc(), handle)),
    }
}

/// The tabpage that the first argument of a call names.
pub fn the_tabpage<'a>(editor: &'a Editor, args: &Args) -> Result<&'a Tabpage, Fail>
    ensures live { IfOk result
        (λ t. is_live_tabpage editor.now.stage.workspace t.now.handle ≡ true) }
    ensures found { LooksUp (λ t. page_of t.now)
        (tabpage_of_call editor.now.stage.workspace (typed_arguments args.now))
        (no_tabpage (number_at (typed_arguments args.now) 0)) result }
{
    let handle = args.number(0);
    match tabpage_named(editor, handle) {
        Some(tabpage) => Ok(tabpage),
        None => Err(no_tabpage(editor.alloc(), handle)),
    }
}

/// The handle of the live buffer that an argument of a call names.
pub fn the_buffer(editor: &Editor, args: &Args, place: usize) -> Result<i64, Fail>
    ensures found { IfOk result (λ n. n
        ≡ buffer_of_call editor.now.stage.workspace (typed_arguments args.now) place) }
    ensures live { IfOk result (λ n. is_live_buffer editor.now n ≡ true) }
    ensures missing { IfErr result (λ fail.
        Refuses fail (no_buffer (number_at (typed_arguments args.now) place))
        × (is_live_buffer editor.now
        (buffer_of_call editor.now.stage.workspace (typed_arguments args.now) place) ≡ false)) }
{
    let handle = args.number(place);
    let named = editor.named_buffer(handle);
    match editor.buffer(named) {
        Some(_) => Ok(named),
        None => Err(no_buffer(editor.alloc(), handle)),
    }
}

/// The text cells of a window on the screen; none where it isn't live.
pub fn area_of(windows: &Windows, window: &Window) -> Rect
    ensures { result ≡ area_of windows.now window.now.handle }
{
    match windows.area(window.handle) {
        Some(area) => area,
        None => Rect {
            row: 0,
            col: 0,
            width: 0,
            height: 0,
        },
    }
}

/// The handle of the tabpage that a window is in; 0 where there is none.
pub fn home_of(windows: &Windows, window: &Window) -> i64
    ensures { result ≡ option_map_or (λ t. t.handle)
        (tabpage_of windows.now window.now.handle) (pos 0) }
{
    windows.home(window.handle).unwrap_or(0)
}

/// How many tabpages stand before one.
pub fn place_among(windows: &Windows, tabpage: &Tabpage) -> usize
    ensures place { result ≡ place_among tabpage.now.handle windows.now.tabpages }
    ensures few { result < 2 ^ 62 }
{
    let tabpages = windows.tabpages();
    match place_of(tabpages, tabpage) {
        Some(place) => place,
        None => tabpages.len(),
    }
}

// Where a tabpage stands, by its handle.
fn place_of(tabpages: &[Tabpage], tabpage: &Tabpage) -> Option<usize>
    ensures place { result ≡ position (λ t. int_eq t.handle tabpage.now.handle) tabpages.now }
{
    tabpages
        .iter()
        .position(|other| other.handle == tabpage.handle)
}
