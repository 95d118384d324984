//! The tables of what the server tells of its API (help: api-metadata, ui-events).
ghost use Rattle.std.specs.Prelude.{◌≡◌, map};
ghost use Rattle.nv_api_buf.specs.inside.Shapes.{form_of_row, event_shapes};

/// An event of a UI, as it is told.
#[derive(Clone, Copy)]
pub struct Told {
    pub name: &'static str,
    /// The type and the name of each parameter.
    pub parameters: &'static [(&'static str, &'static str)],
}

/// The events of a UI.
pub fn events() -> &'static [Told]
    ensures { map form_of_row result.now ≡ event_shapes }
{
    &EVENTS
}

static EVENTS: [Told; 8] = [
    Told {
        name: "grid_resize",
        parameters: &[
            ("Integer", "grid"),
            ("Integer", "width"),
            ("Integer", "height"),
        ],
    },
    Told {
        name: "default_colors_set",
        parameters: &[
            ("Integer", "rgb_fg"),
            ("Integer", "rgb_bg"),
            ("Integer", "rgb_sp"),
            ("Integer", "cterm_fg"),
            ("Integer", "cterm_bg"),
        ],
    },
    Told {
        name: "hl_attr_define",
        parameters: &[
            ("Integer", "id"),
            ("Dict", "rgb_attr"),
            ("Dict", "cterm_attr"),
            ("Array", "info"),
        ],
    },
    Told {
        name: "grid_clear",
        parameters: &[("Integer", "grid")],
    },
    Told {
        name: "grid_scroll",
        parameters: &[
            ("Integer", "grid"),
            ("Integer", "top"),
            ("Integer", "bot"),
            ("Integer", "left"),
            ("Integer", "right"),
            ("Integer", "rows"),
            ("Integer", "cols"),
        ],
    },
    Told {
        name: "grid_line",
        parameters: &[
            ("Integer", "grid"),
            ("Integer", "row"),
            ("Integer", "col_start"),
            ("Array", "cells"),
            ("Boolean", "wrap"),
        ],
    },
    Told {
        name: "grid_cursor_goto",
        parameters: &[("Integer", "grid"), ("Integer", "row"), ("Integer", "col")],
    },
    Told {
        name: "flush",
        parameters: &[],
    },
];
