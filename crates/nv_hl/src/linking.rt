//! What a group stands for.

use crate::attribute::Attr;

/// What a highlight group stands for (help: nvim_set_hl()).
#[derive(Clone, Copy, PartialEq, Eq, Debug)]
pub enum Group {
    /// An attribute of its own.
    Plain(Attr),
    /// The group of this id.
    Link(u32),
}
