//! A splice, as places move by it.

use nv_places::{Extent, Pos};

/// The extent `old` from `start` on became the extent `new`.
#[derive(Clone, Copy)]
pub(crate) struct Move {
    pub start: Pos,
    pub old: Extent,
    pub new: Extent,
}
