// The rectangle of one window of a tree, and what is divided where.

ghost use Rattle.std.specs.Prelude.{◌≡◌, ◌+◌, ◌-◌, ◌^◌, ◌<◌, ◌≤◌};
ghost use Rattle.nv_layout.specs.Content.{shape_of, shapes_of, group};
ghost use Rattle.nv_layout.specs.Least.{gaps, NoneEmpty};
ghost use Rattle.nv_layout.specs.Places.{extent, part, beyond, rects, rect_among, IsRoomy, IsOnScreen};

use crate::division::{Rooms, all_wish, counted_wish};
use crate::nodes::{Axis, Rect, Tree};
use crate::sizes::{gap_behind, least_along};

/// The rectangle of a window of a tree in an area, as `placed` gives it: of its first leaf, and
/// `None` where the window isn't there. No memory is taken, but each part of the tree is looked at
/// once for each row and column that it stands in. The area has at least the least size of the
/// tree.
#[cycle(rect)]
pub fn rect_of(tree: &Tree, area: Rect, window: i64) -> Option<Rect>
    requires filled { NoneEmpty (shape_of tree.now) }
    requires roomy { IsRoomy (shape_of tree.now) area }
    requires on_screen { IsOnScreen area }
    ensures { result ≡ rect_among window (rects (shape_of tree.now) area) }
{
    match tree {
        Tree::Leaf(leaf) if leaf.window == window => Some(area),
        Tree::Leaf(_) => None,
        Tree::Row(trees) => rect_in_group(trees, Axis::Across, area, window),
        Tree::Column(trees) => rect_in_group(trees, Axis::Down, area, window),
    }
}

// The same for the children of a row or a column.
#[cycle(rect)]
fn rect_in_group(trees: &[Tree], axis: Axis, area: Rect, window: i64) -> Option<Rect>
    requires filled { NoneEmpty (group axis (shapes_of trees.now)) }
    requires roomy { IsRoomy (group axis (shapes_of trees.now)) area }
    requires on_screen { IsOnScreen area }
    ensures { result ≡ rect_among window (rects (group axis (shapes_of trees.now)) area) }
{
    let all_wish = all_wish(trees, axis);
    let room = extent(area, axis) - gaps(trees, axis);
    let mut rooms = Rooms::new(trees, axis, all_wish, room, &[]);
    let mut rest = area;
    for (place, tree) in trees.iter().enumerate() {
        let wish = counted_wish(trees, place, axis, all_wish);
        let size = rooms.take(least_along(tree, axis), wish);
        let found = rect_of(tree, part(rest, axis, size), window);
        if found.is_some() {
            return found;
        }
        rest = beyond(rest, axis, size + gap_behind(trees, place, axis));
    }
    None
}

// The separators of children, together.
pub(crate) fn gaps(trees: &[Tree], axis: Axis) -> u32
    requires { gaps axis (shapes_of trees.now) < 2 ^ 32 }
    ensures { result ≡ gaps axis (shapes_of trees.now) }
{
    match axis {
        Axis::Across => trees.len().saturating_sub(1) as u32,
        Axis::Down => 0,
    }
}

// The width of an area, or its height.
pub(crate) fn extent(area: Rect, axis: Axis) -> u32
    ensures { result ≡ extent axis area }
{
    match axis {
        Axis::Across => area.width,
        Axis::Down => area.height,
    }
}

// The part of an area that is so wide from its left, or so high from its top.
pub(crate) fn part(area: Rect, axis: Axis, size: u32) -> Rect
    ensures { result ≡ part axis size area }
{
    match axis {
        Axis::Across => Rect {
            width: size,
            ..area
        },
        Axis::Down => Rect {
            height: size,
            ..area
        },
    }
}

// What is left of an area behind so much of it.
pub(crate) fn beyond(area: Rect, axis: Axis, size: u32) -> Rect
    requires within { size ≤ extent axis area }
    requires on_screen { IsOnScreen area }
    ensures { result ≡ beyond axis size area }
{
    match axis {
        Axis::Across => Rect {
            col: area.col + size,
            width: area.width - size,
            ..area
        },
        Axis::Down => Rect {
            row: area.row + size,
            height: area.height - size,
            ..area
        },
    }
}
