//! A piece of a line and what it is.

/// What a piece is.
#[derive(Clone, Copy, Debug, PartialEq, Eq)]
pub enum Kind {
    /// The byte 09.
    Tab,
    /// A byte from 00 to 1f other than the Tab, or 7f.
    Control(u8),
    /// A byte at which no character begins in UTF-8, or a character from U+0080 to U+009F, by its
    /// number.
    Escape(u8),
    /// An extended grapheme cluster, with the cells that it takes: 1 or 2.
    Cluster(u8),
}

/// Bytes of a line that are drawn as one: from `from`, up to and without `to`, both from 0.
#[derive(Clone, Copy, Debug, PartialEq, Eq)]
pub struct Piece {
    pub from: usize,
    pub to: usize,
    pub kind: Kind,
}
