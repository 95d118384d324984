//! Which marks are asked for.

ghost use Rattle.nv_marks.specs.Queries.{is_meant, is_selected, stops_from};
ghost use Rattle.nv_marks.specs.inside.Stored.{first_start};
ghost use Rattle.std.specs.Prelude.{◌≡◌};

use crate::extmark::{Far, Mark};
use nv_places::Pos;

/// The marks of one namespace, or of all, that start from one place to another, both included, and
/// if wanted those that reach the first of the two.
#[derive(Clone, Copy, Debug, PartialEq, Eq)]
pub struct Query {
    pub ns: Option<u32>,
    pub from: Pos,
    pub to: Pos,
    /// Whether marks are asked for too that start before `from` and end at it or behind it.
    pub reaching: bool,
}

impl Query {
    /// Whether a mark is asked for.
    pub(crate) fn asks_for(&self, mark: &Mark) -> bool
        ensures { result ≡ is_selected self.now mark.now }
    {
        let reaches = !mark.start.is_before(self.from)
            || self.reaching && stops_from(self.from, mark.stop);
        is_meant(self.ns, mark.ns) && !self.to.is_before(mark.start) && reaches
    }

    /// The first place at which a mark that is asked for may start.
    pub(crate) fn first_start(&self) -> Pos
        ensures { result ≡ first_start self.now }
    {
        if self.reaching {
            Pos { row: 0, col: 0 }
        } else {
            self.from
        }
    }
}

/// Whether a namespace is the one that is meant, or any if none is named.
pub(crate) fn is_meant(meant: Option<u32>, ns: u32) -> bool
    ensures { result ≡ is_meant meant ns }
{
    match meant {
        Some(meant) => ns == meant,
        None => true,
    }
}

/// Whether an end is there and doesn't lie before a place.
fn stops_from(place: Pos, stop: Option<Far>) -> bool
    ensures { result ≡ stops_from place stop }
{
    match stop {
        Some(far) => !far.pos.is_before(place),
        None => false,
    }
}
