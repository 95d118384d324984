//! Parts of an editor that are the same in what is kept and in the model.

/// What a session has attached as its screen (help: nvim_ui_attach()).
#[derive(Clone, Copy, Debug, PartialEq, Eq)]
pub struct Ui {
    pub session: u64,
    /// The size that was asked for, in cells.
    pub width: u32,
    pub height: u32,
    /// Whether colours are given as 24 bits.
    pub rgb: bool,
    /// Whether each window has a grid of its own.
    pub many: bool,
}

/// How much an editor takes (own rule). Each is the greatest number that is allowed.
#[derive(Clone, Copy, Debug, PartialEq, Eq)]
pub struct Limits {
    /// Lines of a buffer.
    pub lines: u32,
    /// Bytes of a line.
    pub line_bytes: u32,
    /// Extmarks of a buffer.
    pub marks: u32,
    /// Live buffers.
    pub buffers: u32,
    /// Windows of all tabpages together.
    pub windows: u32,
    pub namespaces: u32,
    /// Highlight groups.
    pub groups: u32,
    /// Sessions with a UI.
    pub uis: u32,
    /// The changedtick of a buffer.
    pub ticks: i64,
    /// Entries of a history.
    pub entries: u64,
}
