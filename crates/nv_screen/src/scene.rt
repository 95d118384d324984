//! Scenes: what is seen, as plain data.

use nv_hl::{Attr, Cell, Colours};
use nv_layout::Rect;
use nv_linedraw::{Looks, Span};
use nv_lines::Line;

/// A line of a text, with the attributes of its bytes in rising priority.
#[derive(Drop)]
pub struct SceneLine {
    /// The row of the text, counted from 0.
    pub row: u32,
    pub bytes: Line,
    pub spans: Vec<Span>,
}

/// A window: the lines that it shows and its status line.
#[derive(Drop)]
pub struct Pane {
    /// The handle of the window.
    pub window: i64,
    /// The handle of its buffer.
    pub buffer: i64,
    /// The buffer's changedtick.
    pub tick: i64,
    pub tabstop: u32,
    /// The cells of its text; its status line is the row below them.
    pub rect: Rect,
    /// The first row of the text that it shows.
    pub top: u32,
    /// Whether it is the current window.
    pub current: bool,
    /// The number of the text's lines.
    pub count: u32,
    /// The lines from `top` on, as many as there are, but at most as many as `rect` has rows.
    pub lines: Vec<SceneLine>,
    pub status: Line,
}

/// The attributes of what stands beside windows.
#[derive(Clone, Copy, PartialEq, Eq, Debug)]
pub struct Bars {
    /// Of the current window's status line.
    pub current: Attr,
    /// Of the other status lines.
    pub other: Attr,
    pub separator: Attr,
}

/// Where the cursor is: a window, a row of its text, and a byte of that line.
#[derive(Clone, Copy, PartialEq, Eq, Debug)]
pub struct Spot {
    pub window: i64,
    pub row: u32,
    pub byte: u32,
}

/// Cells that are laid over a screen.
#[derive(Drop)]
pub struct Patch {
    pub row: u32,
    pub col: u32,
    pub cells: Vec<Cell>,
}

/// What is seen: windows, separators, cursor and attributes, on a screen of a size in cells.
#[derive(Drop)]
pub struct Scene {
    pub width: u32,
    pub height: u32,
    pub panes: Vec<Pane>,
    pub separators: Vec<Rect>,
    pub cursor: Spot,
    pub looks: Looks,
    pub bars: Bars,
    pub colours: Colours,
    pub patches: Vec<Patch>,
}
