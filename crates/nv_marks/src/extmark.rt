//! A mark: where it starts and ends, and what it shows.

use nv_places::Pos;

/// The end of a mark, with its gravity.
#[derive(Clone, Copy, Debug, PartialEq, Eq)]
pub struct Far {
    pub pos: Pos,
    /// Whether the end goes along with text that is put at it (right gravity).
    pub right: bool,
}

/// How the text from a mark's start to its end is shown.
#[derive(Clone, Copy, Debug, PartialEq, Eq)]
pub struct Paint {
    /// The number of a highlight group.
    pub group: u32,
    /// Whether the rest of the screen row behind a line end is painted too.
    pub eol: bool,
}

/// An extmark (help: api-extended-marks). Namespace and id together name it.
#[derive(Clone, Copy, Debug, PartialEq, Eq)]
pub struct Mark {
    pub ns: u32,
    pub id: u32,
    pub start: Pos,
    /// Whether the start goes along with text that is put at it (right gravity).
    pub right: bool,
    pub stop: Option<Far>,
    pub paint: Option<Paint>,
    /// Of the marks that paint one place the one with the greatest priority counts most.
    pub priority: u32,
    /// Whether undo and redo put it back where it stood.
    pub restore: bool,
    /// Whether it is struck when the text from its start to its end is removed: hidden with
    /// `restore`, and else gone.
    pub invalidate: bool,
    /// Whether it was struck and not put back since.
    pub hidden: bool,
    /// The number of this setting among all of the set; `MarkSet::set` fills it in.
    pub set: u64,
}
