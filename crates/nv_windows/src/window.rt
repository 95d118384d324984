//! A window, a tabpage, and what opening a window comes to.

use nv_layout::Tree;
use nv_places::Pos;

/// A window: a buffer, seen from a row on (help: windows).
#[derive(Clone, Copy, Debug, PartialEq, Eq)]
pub struct Window {
    pub handle: i64,
    /// The handle of the buffer that it shows.
    pub buffer: i64,
    /// Row and column in bytes, both from 0.
    pub cursor: Pos,
    /// The first row that it shows, from 0.
    pub top: u32,
}

/// A tabpage: its windows as a tree, and the handle of the current one of them (help: tabpage).
#[derive(Debug, PartialEq, Drop)]
pub struct Tabpage {
    pub handle: i64,
    pub tree: Tree,
    pub current: i64,
}

/// The width and the height in cells that a window wishes, its status line counted; 0 is no wish.
#[derive(Clone, Copy)]
pub struct Wishes {
    pub width: u32,
    pub height: u32,
}

/// What opening a window comes to.
#[derive(Clone, Copy, Debug, PartialEq, Eq)]
pub enum Opened {
    /// The handle of the new window.
    Window(i64),
    /// No handle is left.
    NoId,
    /// The tree would not fit the screen.
    NoRoom,
}
