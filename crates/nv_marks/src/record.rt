//! A record: the start or the end of a mark, with its place or as a chunk keeps it.

ghost use Rattle.nv_marks.specs.inside.Chunks.{kept_from, placed_record, reach};
ghost use Rattle.nv_marks.specs.inside.Records.{MovesInRange, is_key, moved_record, precedes};
ghost use Rattle.nv_marks.specs.inside.Restoring.{record_put_back};
ghost use Rattle.nv_places.specs.Places.{IsNarrow, further, is_before};
ghost use Rattle.std.specs.Prelude.{◌≡◌, nat_le};

use crate::extmark::Paint;
use crate::keeping::Kept;
use nv_places::{Extent, Pos};

/// What a splice leaves as it is in a record.
#[derive(Clone, Copy, Debug, PartialEq, Eq)]
pub(crate) struct Info {
    pub ns: u32,
    pub id: u32,
    pub right: bool,
    /// Whether this is the end of the mark, and not its start.
    pub is_end: bool,
    /// At a start: whether the mark has an end.
    pub has_end: bool,
    pub paint: Option<Paint>,
    pub priority: u32,
    /// At a start, as the three below: what the mark has under these names.
    pub restore: bool,
    pub invalidate: bool,
    pub hidden: bool,
    pub set: u64,
}

/// A record with its place.
#[derive(Clone, Copy, Debug, PartialEq, Eq)]
pub(crate) struct Record {
    pub pos: Pos,
    pub info: Info,
}

/// A record as a chunk keeps it, with its distance from the chunk's base.
#[derive(Clone, Copy, Debug, PartialEq, Eq)]
pub(crate) struct Relative {
    pub by: Extent,
    pub info: Info,
}

impl Info {
    /// Whether this is of the start, or of the end, of the mark of this namespace and id.
    pub(crate) fn is_key(&self, ns: u32, id: u32, end: bool) -> bool
        ensures { result ≡ is_key ns id end self.now }
    {
        if self.id != id {
            return false;
        }
        let is_part = if end { self.is_end } else { !self.is_end };
        is_part && self.ns == ns
    }
}

impl Record {
    /// What records are ordered by.
    pub(crate) fn order_key(&self) -> (u32, u32, bool, u32, u32, bool)
        ensures { result ≡ (
          self.now.pos.row,
          self.now.pos.col,
          self.now.info.right,
          self.now.info.ns,
          self.now.info.id,
          self.now.info.is_end,
        ) }
    {
        let Info {
            ns,
            id,
            right,
            is_end,
            ..
        } = self.info;
        (self.pos.row, self.pos.col, right, ns, id, is_end)
    }

    /// Whether this record stands before `other`.
    pub(crate) fn is_before(&self, other: &Record) -> bool
        ensures { result ≡ precedes self.now other.now }
    {
        self.order_key().cmp(&other.order_key()).is_lt()
    }

    /// This record after the extent `old` from `start` on was replaced by the extent `new`.
    pub(crate) fn moved(self, start: Pos, old: Extent, new: Extent) -> Record
        requires old_end { IsNarrow (further start old) }
        requires new_end { IsNarrow (further start new) }
        requires moved { MovesInRange start old new self }
        ensures { result ≡ moved_record start old new self }
    {
        Record {
            pos: self.pos.moved(self.info.right, start, old, new),
            ..self
        }
    }

    /// This record with what was kept of its mark put back, if it is of that mark.
    pub(crate) fn put_back(self, kept: &Kept) -> Record
        ensures put { result ≡ record_put_back kept.now self }
        ensures narrow { IsNarrow result.pos }
    {
        let Info { ns, id, is_end, .. } = self.info;
        if ns != kept.ns || id != kept.id {
            return self;
        }
        let place = if is_end { kept.stop } else { kept.start };
        let hidden = if is_end {
            self.info.hidden
        } else {
            kept.hidden
        };
        Record {
            pos: place.unwrap_or(self.pos),
            info: Info {
                hidden,
                ..self.info
            },
        }
    }

    /// This record as a chunk keeps it that begins at `base`.
    pub(crate) fn kept_from(self, base: Pos) -> Relative
        ensures { result ≡ kept_from base self }
    {
        Relative {
            by: distance(base, self.pos),
            info: self.info,
        }
    }
}

impl Relative {
    /// This record, kept by a chunk that begins at `base`, with its place.
    pub(crate) fn placed(self, base: Pos) -> Record
        requires { IsNarrow (further base self.by) }
        ensures { result ≡ placed_record base self }
    {
        Record {
            pos: base.further(self.by),
            info: self.info,
        }
    }

    /// Row and column of this record, kept by a chunk that begins at `base`, as numbers that have
    /// room for each sum.
    pub(crate) fn wide_place(&self, base: Pos) -> (u64, u64)
        ensures row { result.0 ≡ (further base self.now.by).row }
        ensures col { result.1 ≡ (further base self.now.by).col }
    {
        let Extent { rows, cols } = self.by;
        let row = u64::from(base.row) + u64::from(rows);
        if rows == 0 {
            (row, u64::from(base.col) + u64::from(cols))
        } else {
            (row, u64::from(cols))
        }
    }

    /// Whether this record, kept by a chunk that begins at `base`, stands before a place.
    pub(crate) fn stands_before(&self, base: Pos, at: Pos) -> bool
        ensures { result ≡ is_before (further base self.now.by) at }
    {
        let (row, col) = self.wide_place(base);
        let (at_row, at_col) = (u64::from(at.row), u64::from(at.col));
        row < at_row || row == at_row && col < at_col
    }

    /// Whether this record, kept by a chunk that begins at `base`, stands in a row or above it.
    pub(crate) fn stands_up_to(&self, base: Pos, row: u32) -> bool
        ensures { result ≡ nat_le (further base self.now.by).row row }
    {
        let (own, _) = self.wide_place(base);
        own <= u64::from(row)
    }

    /// Whether this record, kept by a chunk that begins at `base`, stands before `other` in order.
    pub(crate) fn is_before(&self, base: Pos, other: &Record) -> bool
        ensures { result ≡ precedes (placed_record base self.now) other.now }
    {
        let (row, col) = self.wide_place(base);
        let Info {
            ns,
            id,
            right,
            is_end,
            ..
        } = self.info;
        let (other_row, other_col) = (u64::from(other.pos.row), u64::from(other.pos.col));
        let rest = &other.info;
        (row, col, right, ns, id, is_end)
            .cmp(&(
                other_row,
                other_col,
                rest.right,
                rest.ns,
                rest.id,
                rest.is_end,
            ))
            .is_lt()
    }

    /// Whether this record, kept by a chunk that begins at `base`, stands behind a place.
    pub(crate) fn stands_behind(&self, base: Pos, at: Pos) -> bool
        ensures { result ≡ is_before at (further base self.now.by) }
    {
        let (row, col) = self.wide_place(base);
        let (at_row, at_col) = (u64::from(at.row), u64::from(at.col));
        at_row < row || at_row == row && at_col < col
    }
}

/// How far a place lies behind a base.
fn distance(base: Pos, pos: Pos) -> Extent
    ensures { result ≡ reach base pos }
{
    if pos.row == base.row {
        Extent {
            rows: 0,
            cols: pos.col.saturating_sub(base.col),
        }
    } else {
        Extent {
            rows: pos.row.saturating_sub(base.row),
            cols: pos.col,
        }
    }
}
