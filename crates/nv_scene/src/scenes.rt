//! The scene of an editor: the windows of the current tabpage on the screen.
ghost use Rattle.std.specs.Prelude.{◌≡◌, ◌<◌, All, IfOk, Some, true};
ghost use Rattle.nv_model.specs.Standing.{seen_now};
ghost use Rattle.nv_windows.specs.Rooms.{windows_area, without_status};
ghost use Rattle.nv_windows.specs.Workspace.{current_window, is_live_window, page_of, tabpage_at, window_at};
ghost use Rattle.nv_screen.specs.Sound.{IsSoundScene};
ghost use Rattle.nv_scene.specs.Scenes.{ArePanesIn, IsSceneOf, attr_named, bars_of, looks_of, normal_colours, spot_of};
ghost use Rattle.nv_scene.specs.Settling.{IsSettled};

use crate::panes::pane_of;
use crate::parting::separators;
use nv_editor::Editor;
use nv_hl::{Attr, Colours, Groups};
use nv_layout::{Placed, Rect, placed};
use nv_linedraw::Looks;
use nv_screen::{Bars, Pane, Scene, Spot};
use nv_windows::{Tabpage, Window, Windows};
use std::alloc::AllocError;

// The attribute of the group of a name.
fn attr_named(groups: &Groups, name: &[u8]) -> Attr
    ensures { result ≡ attr_named groups.now name.now }
{
    match groups.known(name) {
        Some(id) => groups.attr(id),
        None => Attr::EMPTY,
    }
}

// The attributes of what isn't text.
fn looks_of(groups: &Groups) -> Looks
    ensures { result ≡ looks_of groups.now }
{
    Looks {
        nontext: attr_named(groups, b"NonText"),
        special: attr_named(groups, b"SpecialKey"),
        beyond: attr_named(groups, b"EndOfBuffer"),
    }
}

// The attributes of status lines and separators.
fn bars_of(groups: &Groups) -> Bars
    ensures { result ≡ bars_of groups.now }
{
    Bars {
        current: attr_named(groups, b"StatusLine"),
        other: attr_named(groups, b"StatusLineNC"),
        separator: attr_named(groups, b"WinSeparator"),
    }
}

// The colours of text that has none of its own.
fn normal_colours(groups: &Groups) -> Colours
    ensures { result ≡ normal_colours groups.now }
{
    let normal = attr_named(groups, b"Normal");
    Colours {
        fg: normal.fg.unwrap_or(0xFFFFFF),
        bg: normal.bg.unwrap_or(0),
        sp: normal.sp.unwrap_or(0xFF0000),
        cterm_fg: normal.ctermfg.unwrap_or(0) as u32,
        cterm_bg: normal.ctermbg.unwrap_or(0) as u32,
    }
}

// The current tabpage.
fn current_page(editor: &Editor) -> &Tabpage
    ensures { tabpage_at editor.now.stage.workspace editor.now.stage.workspace.tabpage
        ≡ Some (page_of result.now) }
{
    editor.known();
    let windows = editor.windows();
    match windows.tabpage(windows.current()) {
        Some(page) => page,
        None => unreachable!(),
    }
}

// The current window.
fn current_window(editor: &Editor) -> Window
    ensures { window_at editor.now.stage.workspace
        (current_window editor.now.stage.workspace) ≡ Some result }
{
    editor.known();
    let windows = editor.windows();
    match windows.find(windows.current_window()) {
        Some(window) => *window,
        None => unreachable!(),
    }
}

// The cursor of a window.
fn spot_of(window: Window) -> Spot
    ensures { result ≡ spot_of window }
{
    Spot {
        window: window.handle,
        row: window.cursor.row,
        byte: window.cursor.col,
    }
}

// The rows and columns that windows have: all of the screen but its last row.
fn windows_area(windows: &Windows) -> Rect
    ensures { result ≡ windows_area windows.now }
{
    let (width, height) = windows.size();
    Rect {
        row: 0,
        col: 0,
        width,
        height: height.saturating_sub(1),
    }
}

// The text cells of a window: its rectangle without the status line.
fn without_status(rect: Rect) -> Rect
    ensures { result ≡ without_status rect }
{
    Rect {
        height: rect.height.saturating_sub(1),
        ..rect
    }
}

// Windows as panes in their rectangles.
fn panes_in(editor: &Editor, placed: &[Placed]) -> Result<Vec<Pane>, AllocError>
    requires { All (λ at. is_live_window editor.now.stage.workspace at.window ≡ true) placed.now }
    ensures panes { IfOk result
        (λ panes. ArePanesIn (seen_now editor.now) placed.now panes.items) }
    ensures stops { IfOk result (λ panes. All (λ pane. 0 < pane.tabstop) panes.items) }
{
    let mut panes = Vec::with_capacity(editor.alloc(), placed.len())?;
    for at in placed {
        let pane = pane_of(editor, at.window, without_status(at.rect))?;
        panes.push(pane)?;
    }
    Ok(panes)
}

/// The scene of an editor whose windows are settled: the windows of the current tabpage, with the
/// lines that they show, their status lines and the separators between them; the cursor of the
/// current window; and the attributes that the highlight groups give to all of these. The lines'
/// bytes are shared. No other lines are looked at, and no marks that start behind them.
pub fn scene_of(editor: &Editor) -> Result<Scene, AllocError>
    requires settled { IsSettled (seen_now editor.now) }
    ensures scene { IfOk result (λ scene. IsSceneOf (seen_now editor.now) scene) }
    ensures sound { IfOk result (λ scene. IsSoundScene scene) }
{
    editor.known();
    let alloc = editor.alloc();
    let tree = &current_page(editor).tree;
    let placed = placed(alloc, tree, windows_area(editor.windows()))?;
    let panes = panes_in(editor, placed.as_slice())?;
    let separators = separators(alloc, tree, placed.as_slice())?;
    let (width, height) = editor.windows().size();
    let groups = editor.groups();
    Ok(Scene {
        width,
        height,
        panes,
        separators,
        cursor: spot_of(current_window(editor)),
        looks: looks_of(groups),
        bars: bars_of(groups),
        colours: normal_colours(groups),
        patches: Vec::new(alloc),
    })
}
