//! Tabpages in their order.

ghost use Rattle.nv_layout.specs.Content.{shape_of};
ghost use Rattle.nv_layout.specs.Changes.{close, holds, with_wish};
ghost use Rattle.nv_layout.specs.Least.{IsMeasurable, leaves_of};
ghost use Rattle.nv_layout.specs.Tiling.{windows};
ghost use Rattle.nv_windows.specs.Operations.{handle_at, is_in, neighbour, place_among, page_with, page_without, put_behind, tabpages_with};
ghost use Rattle.nv_windows.specs.Pages.{pages_of};
ghost use Rattle.nv_windows.specs.Rooms.{fits_screen};
ghost use Rattle.nv_windows.specs.Workspace.{Workspace, page_of};
ghost use Rattle.nv_windows.specs.inside.Seats.{IsSoundSeating};
ghost use Rattle.nv_windows.specs.declared.window.Tabpage.{Tabpage};
ghost use Rattle.std.specs.List.{list_all, list_any};
ghost use Rattle.std.specs.Option.{option_map_or};
ghost use Rattle.std.specs.Ordering.{int_eq};
ghost use Rattle.std.specs.Prelude.{◌≡◌, ◌&&◌, ◌<◌, ◌≤◌, All, IfOk, IfSome, MatchOption, None, OnErr, OnOk, Some, find, flat_map, if◌then◌else◌, insert, length, not, position, filter, true};

use crate::seats::Seats;
use crate::window::{Tabpage, Window};
use nv_layout::{Axis, Tree, least, push_windows};
use std::alloc::{AllocError, Global};

/// Where the tabpage of a handle stands.
pub(crate) fn place_of(tabpages: &[Tabpage], handle: i64) -> Option<usize>
    ensures place { result ≡ position (λ t. int_eq t.handle handle) tabpages.now }
    ensures within { IfSome result (λ place. place < length tabpages.now) }
{
    tabpages.iter().position(|tabpage| tabpage.handle == handle)
}

/// Where the tabpage stands that a window is in.
pub(crate) fn home_of(tabpages: &[Tabpage], window: i64) -> Option<usize>
    ensures place { result ≡ position (λ t. holds window (shape_of t.tree)) tabpages.now }
    ensures within { IfSome result (λ place. place < length tabpages.now) }
{
    tabpages
        .iter()
        .position(|tabpage| tabpage.tree.holds(window))
}

/// The tabpage of a handle.
pub(crate) fn tabpage_at(tabpages: &[Tabpage], handle: i64) -> Option<&Tabpage>
    ensures { MatchOption result
        (find (λ t. int_eq t.handle handle) (pages_of tabpages.now) ≡ None)
        (λ t. find (λ t. int_eq t.handle handle) (pages_of tabpages.now) ≡ Some (page_of t.now)) }
{
    let place = place_of(tabpages, handle)?;
    Some(&tabpages[place])
}

/// Whether a window is in the tabpage of a handle.
pub(crate) fn is_in(tabpages: &[Tabpage], handle: i64, window: i64) -> bool
    ensures { result
        ≡ list_any (λ t. int_eq t.handle handle && holds window (shape_of t.tree)) tabpages.now }
{
    tabpages.iter().any(|tabpage| tabpage.handle == handle && tabpage.tree.holds(window))
}

/// The windows of all tabpages, each tabpage's in tree order.
pub(crate) fn all_windows(alloc: Global, tabpages: &[Tabpage]) -> Result<Vec<i64>, AllocError>
    ensures { IfOk result (λ all. all.items
        ≡ flat_map (λ t. windows (leaves_of (shape_of t.tree))) tabpages.now) }
{
    let mut all = Vec::new(alloc);
    for tabpage in tabpages {
        push_windows(&tabpage.tree, &mut all)?;
    }
    Ok(all)
}

/// Makes a window the current one of its tabpage.
pub(crate) fn put_current(tabpages: &mut [Tabpage], window: i64)
    ensures { pages_of tabpages.new
        ≡ tabpages_with window (λ t. record t { current = window }) (pages_of tabpages.old) }
{
    for tabpage in tabpages.iter_mut() {
        put_current_of(tabpage, window);
    }
}

fn put_current_of(tabpage: &mut Tabpage, window: i64)
    ensures { page_of tabpage.new
        ≡ page_with window (λ t. record t { current = window }) (page_of tabpage.old) }
{
    if tabpage.tree.holds(window) {
        tabpage.current = window;
    }
}

/// The handle of the tabpage that a window is in, and another one where there is none.
pub(crate) fn home_handle(tabpages: &[Tabpage], window: i64, other: i64) -> i64
    ensures { result
        ≡ option_map_or (λ t. t.handle)
        (find (λ t. holds window t.tree) (pages_of tabpages.now)) other }
{
    match home_of(tabpages, window) {
        Some(home) => tabpages[home].handle,
        None => other,
    }
}

/// Puts the wish of a window along an axis.
pub(crate) fn put_wish(tabpages: &mut [Tabpage], window: i64, axis: Axis, wish: u32)
    ensures { pages_of tabpages.new
        ≡ tabpages_with window (λ t. record t { tree = with_wish axis wish window t.tree })
        (pages_of tabpages.old) }
{
    for tabpage in tabpages.iter_mut() {
        put_wish_of(tabpage, window, axis, wish);
    }
}

fn put_wish_of(tabpage: &mut Tabpage, window: i64, axis: Axis, wish: u32)
    ensures { page_of tabpage.new
        ≡ page_with window (λ t. record t { tree = with_wish axis wish window t.tree })
        (page_of tabpage.old) }
{
    if tabpage.tree.holds(window) {
        tabpage.tree.put_wish(window, axis, wish);
    }
}

/// Whether a tree has its least size on a screen.
pub(crate) fn fits(tree: &Tree, width: u32, height: u32) -> bool
    requires { IsMeasurable (shape_of tree.now) }
    ensures { result ≡ fits_screen width height (shape_of tree.now) }
{
    let (wide, high) = least(tree);
    wide <= width && high <= height.saturating_sub(1)
}

/// Whether each tabpage's tree has its least size on a screen.
pub(crate) fn all_fit(tabpages: &[Tabpage], width: u32, height: u32) -> bool
    requires { All (λ t. IsMeasurable (shape_of t.tree)) tabpages.now }
    ensures { result
        ≡ list_all (λ t. fits_screen width height (shape_of t.tree)) tabpages.now }
{
    for tabpage in tabpages {
        if !fits(&tabpage.tree, width, height) {
            return false;
        }
    }
    true
}

/// Puts a tabpage behind that of a handle, or behind all.
pub(crate) fn put_behind(
    tabpages: &mut Vec<Tabpage>,
    handle: i64,
    new: Tabpage,
) -> Result<(), AllocError>
    ensures ok { OnOk result (pages_of tabpages.new.items
        ≡ put_behind handle (page_of new) (pages_of tabpages.old.items)) }
    ensures err { OnErr result (tabpages.new.items ≡ tabpages.old.items) }
{
    let place = place_behind(tabpages, handle);
    tabpages.insert(place, new)?;
    Ok(())
}

fn place_behind(tabpages: &[Tabpage], handle: i64) -> usize
    ensures within { result ≤ length tabpages.now }
    ensures put { (new : Tabpage) → pages_of (insert tabpages.now result new)
        ≡ put_behind handle (page_of new) (pages_of tabpages.now) }
{
    match place_of(tabpages, handle) {
        Some(before) => before + 1,
        None => tabpages.len(),
    }
}

/// How many tabpages stand before that of a handle.
pub(crate) fn place_among(tabpages: &[Tabpage], handle: i64) -> usize
    ensures { result ≡ place_among handle (pages_of tabpages.now) }
{
    place_of(tabpages, handle).unwrap_or(tabpages.len())
}

/// The handle of the tabpage at a place, or of the last one; 0 where there is none.
fn handle_at(tabpages: &[Tabpage], place: usize) -> i64
    ensures { result ≡ handle_at place (pages_of tabpages.now) }
{
    let last = tabpages.len().saturating_sub(1);
    match tabpages.get(place.min(last)) {
        Some(tabpage) => tabpage.handle,
        None => 0,
    }
}

/// The handle of the current tabpage once one was closed that stood at a place before these: where
/// it was the current one, that of the tabpage at its place, or of the last one.
pub(crate) fn current_after(tabpages: &[Tabpage], place: usize, current: i64, closed: i64) -> i64
    ensures { result
        ≡ (if int_eq current closed then handle_at place (pages_of tabpages.now) else current) }
{
    if current == closed {
        handle_at(tabpages, place)
    } else {
        current
    }
}

/// Takes the tabpage of a handle out.
pub(crate) fn drop_tabpage(tabpages: &mut Vec<Tabpage>, handle: i64)
    ensures { tabpages.new.items ≡ filter (λ t. not (int_eq t.handle handle)) tabpages.old.items }
{
    tabpages.retain(|tabpage| tabpage.handle != handle);
}

/// Whether a window is in the tabpage of a handle, by its seat if that is known.
fn is_seated_in(seats: &Seats, tabpages: &[Tabpage], handle: i64, window: i64) -> bool
    ensures { (ws : Workspace) → IsSoundSeating ws seats.now.all.items
        → ws.tabpages ≡ pages_of tabpages.now → result ≡ is_in ws.tabpages handle window }
{
    match seats.spot(window) {
        Some(spot) => spot.tabpage == handle,
        None => is_in(tabpages, handle, window),
    }
}

/// Takes the windows of the tabpage of a handle out.
pub(crate) fn drop_windows_of(
    windows: &mut Vec<Window>,
    tabpages: &[Tabpage],
    handle: i64,
    seats: &Seats,
)
    ensures { (ws : Workspace) → IsSoundSeating ws seats.now.all.items
        → ws.tabpages ≡ pages_of tabpages.now
        → windows.new.items
        ≡ filter (λ w. not (is_in ws.tabpages handle w.handle)) windows.old.items }
{
    windows.retain(|window| !is_seated_in(seats, tabpages, handle, window.handle));
}

/// The window that is current once one of a tabpage is closed.
fn current_left(alloc: Global, tabpage: &Tabpage, window: i64) -> Result<i64, AllocError>
    ensures { IfOk result (λ current. current
        ≡ (if int_eq tabpage.now.current window
        then neighbour window (windows (leaves_of (shape_of tabpage.now.tree)))
        else tabpage.now.current)) }
{
    if tabpage.current != window {
        return Ok(tabpage.current);
    }
    let mut handles = Vec::new(alloc);
    push_windows(&tabpage.tree, &mut handles)?;
    Ok(neighbour(&handles, window))
}

/// Closes one of several windows of a tabpage.
pub(crate) fn close_in(alloc: Global, tabpage: &mut Tabpage, window: i64) -> Result<(), AllocError>
    requires held { holds window (shape_of tabpage.old.tree) ≡ true }
    requires more { 1 < length (leaves_of (shape_of tabpage.old.tree)) }
    ensures ok { OnOk result (page_of tabpage.new ≡ page_without window (page_of tabpage.old)) }
    ensures err { OnErr result (page_of tabpage.new ≡ page_of tabpage.old) }
{
    let current = current_left(alloc, tabpage, window)?;
    tabpage.tree.close(alloc, window)?;
    tabpage.current = current;
    Ok(())
}

/// The handle in front of one among others, or the first of the others.
fn neighbour(handles: &[i64], window: i64) -> i64
    ensures { result ≡ neighbour window handles.now }
{
    let place = place_among_handles(handles, window).unwrap_or(handles.len());
    if place > 0 {
        handles[place - 1]
    } else {
        handles.get(1).copied().unwrap_or(window)
    }
}

fn place_among_handles(handles: &[i64], window: i64) -> Option<usize>
    ensures { result ≡ position (λ k. int_eq k window) handles.now }
{
    handles.iter().position(|handle| *handle == window)
}
