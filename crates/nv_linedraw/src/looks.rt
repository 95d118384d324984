//! What a line is drawn with.

use nv_hl::Attr;

/// Bytes of a line with an attribute: from `from` to before `to`, both counted from 0.
#[derive(Clone, Copy, PartialEq, Eq, Debug)]
pub struct Span {
    pub from: u32,
    pub to: u32,
    pub attr: Attr,
    /// Whether what follows the line in its last row is in it too, where the range holds the
    /// line's end.
    pub eol: bool,
}

/// The attributes of what isn't text.
#[derive(Clone, Copy, PartialEq, Eq, Debug)]
pub struct Looks {
    /// Of the filler `>` and of `@`.
    pub nontext: Attr,
    /// Below that of a control or an escape.
    pub special: Attr,
    /// Of the `~` past a text's end.
    pub beyond: Attr,
}
