//! The colours of text that has none of its own.

/// The default colours (help: ui-event-default_colors_set).
#[derive(Clone, Copy, PartialEq, Eq, Debug)]
pub struct Colours {
    /// The foreground as 0xrrggbb.
    pub fg: u32,
    /// The background as 0xrrggbb.
    pub bg: u32,
    /// The colour of underlines as 0xrrggbb.
    pub sp: u32,
    /// The foreground as a terminal's colour.
    pub cterm_fg: u32,
    /// The background as a terminal's colour.
    pub cterm_bg: u32,
}
