//! The events of a redraw notification.

ghost use Rattle.std.specs.Prelude.{◌≡◌, [], ◌∷◌, ◌++◌, OnOk, OnErr};

use nv_hl::{Attr, CellText, Colours};
use std::alloc::{AllocError, Global};
use std::marker::Model;

/// Cells of a `grid_line`, as they are told (help: ui-event-grid_line).
#[derive(Drop)]
pub enum Run {
    /// A cell with the id that was told last in the same event.
    Same(CellText),
    /// A cell with its id.
    One(CellText, u64),
    /// So many equal cells with their id.
    Times(CellText, u64, u32),
}

/// Runs of cells, from the left.
#[derive(Drop)]
pub struct Runs {
    items: Vec<Run>,
}

impl Model for Runs {
    ghost use Rattle.std.specs.Prelude.{List};
    ghost use Rattle.nv_linegrid.specs.declared.event.Run.{Run};

    ghost Value = { List Run };

    ghost view = { λ r. r.items.items };
}

impl Runs {
    /// These runs.
    pub fn from_vec(items: Vec<Run>) -> Runs
        ensures { result ≡ items.items }
    {
        Runs { items }
    }

    /// The runs, lent.
    pub fn as_slice(&self) -> &[Run]
        ensures { result.now ≡ self.now }
    {
        self.items.as_slice()
    }
}

/// One event of a redraw notification (help: ui-events). Rows and columns are cells of the grid,
/// counted from 0.
#[derive(Drop)]
pub enum Redraw {
    /// The grid has this size in cells, and its cells are unknown (help: ui-event-grid_resize).
    Resize {
        grid: i64,
        width: u32,
        height: u32,
    },
    /// The default colours (help: ui-event-default_colors_set).
    DefaultColors {
        colours: Colours,
    },
    /// From now on the id stands for this attribute (help: ui-event-hl_attr_define).
    HlAttr {
        id: u64,
        attr: Attr,
    },
    /// All cells are spaces without an attribute (help: ui-event-grid_clear).
    Clear {
        grid: i64,
    },
    /// The rows from `top` to before `bot`, in the columns from `left` to before `right`, move up
    /// by
    /// `rows`, or down where that is below 0 (help: ui-event-grid_scroll).
    Scroll {
        grid: i64,
        top: u32,
        bot: u32,
        left: u32,
        right: u32,
        rows: i64,
    },
    /// Cells of a row from a column on (help: ui-event-grid_line).
    LineOf {
        grid: i64,
        row: u32,
        col: u32,
        cells: Runs,
    },
    /// The place of the cursor (help: ui-event-grid_cursor_goto).
    Goto {
        grid: i64,
        row: u32,
        col: u32,
    },
    /// What was told is a whole screen (help: ui-event-flush).
    Flush,
}
