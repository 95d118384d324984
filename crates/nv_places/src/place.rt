//! A place, an extent, and their arithmetic.

ghost use Rattle.nv_places.specs.Moves.{carried_place, moved_place};
ghost use Rattle.nv_places.specs.Places.{IsNarrow, further, is_before};
ghost use Rattle.std.specs.Prelude.{◌≡◌, true};

/// A place in a text: row and column in bytes, both from 0.
#[derive(Clone, Copy, Debug, Default, PartialEq, Eq)]
pub struct Pos {
    pub row: u32,
    pub col: u32,
}

/// How far some bytes reach: the number of line ends in them, and of bytes after the last line end.
#[derive(Clone, Copy, Debug, Default, PartialEq, Eq)]
pub struct Extent {
    pub rows: u32,
    pub cols: u32,
}

impl Pos {
    /// The place that lies `extent` after this one.
    pub fn further(self, extent: Extent) -> Pos
        requires { IsNarrow (further self extent) }
        ensures { result ≡ further self extent }
    {
        if extent.rows == 0 {
            Pos {
                row: self.row,
                col: self.col + extent.cols,
            }
        } else {
            Pos {
                row: self.row + extent.rows,
                col: extent.cols,
            }
        }
    }

    /// Whether this place lies before `other`; no place lies before itself.
    pub fn is_before(self, other: Pos) -> bool
        ensures { result ≡ is_before self other }
    {
        self.row < other.row || self.row == other.row && self.col < other.col
    }

    /// Where this place stands after the extent `old` from `start` on was replaced by the extent
    /// `new`.
    ///
    /// A place before the replaced part stays, one behind it moves along with what follows. One in
    /// it, either end included, goes to the end of the new part if `right` is set, and to its start
    /// if not (help: api-extended-marks).
    pub fn moved(self, right: bool, start: Pos, old: Extent, new: Extent) -> Pos
        requires old_end { IsNarrow (further start old) }
        requires new_end { IsNarrow (further start new) }
        requires moved { IsNarrow (moved_place right start old new self) }
        ensures { result ≡ moved_place right start old new self }
    {
        let old_end = start.further(old);
        let new_end = start.further(new);
        if self.is_before(start) {
            self
        } else if old_end.is_before(self) {
            self.carried(old_end, new_end)
        } else if right {
            new_end
        } else {
            start
        }
    }

    /// Where this place, behind `old`, stands once `old` has moved to `new`.
    fn carried(self, old: Pos, new: Pos) -> Pos
        requires behind { is_before old self ≡ true }
        requires narrow { IsNarrow (carried_place old new self) }
        ensures { result ≡ carried_place old new self }
    {
        if self.row == old.row {
            Pos {
                row: new.row,
                col: self.col - old.col + new.col,
            }
        } else {
            Pos {
                row: self.row - old.row + new.row,
                col: self.col,
            }
        }
    }
}
