// What a layout is made of.

/// A window of the layout, with the size that it wishes for, in cells.
///
/// A wish of 0 is none. The height counts the status line.
#[derive(Clone, Copy, Debug, PartialEq, Eq)]
pub struct Leaf {
    pub window: i64,
    pub width: u32,
    pub height: u32,
}

/// The direction in which the children of a group follow one another.
#[derive(Clone, Copy, Debug, PartialEq, Eq)]
pub enum Axis {
    /// From left to right, with a column between neighbours.
    Across,
    /// From top to bottom.
    Down,
}

/// The windows of a tabpage.
#[derive(Debug, PartialEq, Drop)]
pub enum Tree {
    /// One window.
    Leaf(Leaf),
    /// Trees side by side, from left to right.
    Row(Trees),
    /// Trees stacked, from top to bottom.
    Column(Trees),
}

/// The children of a row or a column.
pub type Trees = Vec<Tree>;

/// A rectangle of cells: its first row and column, counted from 0, and its size.
#[derive(Clone, Copy, Debug, PartialEq, Eq)]
pub struct Rect {
    pub row: u32,
    pub col: u32,
    pub width: u32,
    pub height: u32,
}

/// A window and its rectangle, whose last row is the window's status line.
#[derive(Clone, Copy, Debug, PartialEq, Eq)]
pub struct Placed {
    pub window: i64,
    pub rect: Rect,
}

/// The side of a window on which a new one is opened.
#[derive(Clone, Copy, Debug, PartialEq, Eq)]
pub enum Side {
    Left,
    Right,
    Above,
    Below,
}
