// The rectangles of all windows of a tree, in one walk down the tree behind one up it.

ghost use Rattle.std.specs.Prelude.{◌≡◌, ◌^◌, ◌<◌, ◌++◌, IfOk, OnOk};
ghost use Rattle.nv_layout.specs.Content.{shape_of, shapes_of, group};
ghost use Rattle.nv_layout.specs.Least.{along_or_across, least, least_sum, least_max, IsMeasurable, NoneEmpty};
ghost use Rattle.nv_layout.specs.Places.{rects, IsRoomy, IsOnScreen};
ghost use Rattle.nv_layout.specs.inside.Measured.{other, leasts_below, IsLed, zeros};
ghost use Rattle.nv_layout.specs.declared.nodes.Axis.TheVariants.{Across, Down};

use crate::division::{Rooms, all_wish, counted_wish, least_at};
use crate::nodes::{Axis, Leaf, Placed, Rect, Tree};
use crate::places::{beyond, extent, gaps, part};
use crate::sizes::{gap_behind, leaf_least};
use std::alloc::{AllocError, Global};

/// The windows of a tree with their rectangles in an area, in tree order.
///
/// A row divides its width without the separator columns between its children, a column its height.
/// First the children that wish for a size get it, in order, but at least their least size, and at
/// most what leaves each child not yet sized its least size. Then the others get, in order, an even
/// part of what is left, rounded up, within the same bounds. Where all children wish, the last
/// one's wish isn't counted. (own rule)
///
/// The area has at least the least size of the tree. Each part of the tree is looked at twice.
pub fn placed(alloc: Global, tree: &Tree, area: Rect) -> Result<Vec<Placed>, AllocError>
    requires filled { NoneEmpty (shape_of tree.now) }
    requires roomy { IsRoomy (shape_of tree.now) area }
    requires on_screen { IsOnScreen area }
    ensures { IfOk result (λ placed. placed.items ≡ rects (shape_of tree.now) area) }
{
    let mut known = Vec::new(alloc);
    measure(tree, &mut known)?;
    let mut all = Vec::new(alloc);
    place_tree(tree, area, known.as_slice(), &mut all)?;
    Ok(all)
}

// The least size of a tree. The least sizes of the parts of it are put behind others, each along
// the row or column that it stands in: those of the tree's children, and then what is below each.
#[cycle(measure)]
fn measure(tree: &Tree, into: &mut Vec<u32>) -> Result<(u32, u32), AllocError>
    requires { IsMeasurable (shape_of tree.now) }
    ensures width { IfOk result (λ size. size.0 ≡ least Across (shape_of tree.now)) }
    ensures height { IfOk result (λ size. size.1 ≡ least Down (shape_of tree.now)) }
    ensures below { OnOk result (into.new.items
        ≡ into.old.items ++ leasts_below (shape_of tree.now)) }
{
    match tree {
        Tree::Leaf(_) => Ok((leaf_least(Axis::Across), leaf_least(Axis::Down))),
        Tree::Row(trees) => measure_group(trees, Axis::Across, into),
        Tree::Column(trees) => {
            let (height, width) = measure_group(trees, Axis::Down, into)?;
            Ok((width, height))
        }
    }
}

// The same for the children of a row or a column: their least size along it, and across it.
#[cycle(measure)]
fn measure_group(trees: &[Tree], axis: Axis, into: &mut Vec<u32>) -> Result<(u32, u32), AllocError>
    requires along { least_sum axis (shapes_of trees.now) < 2 ^ 32 }
    requires across { least_max (other axis) (shapes_of trees.now) < 2 ^ 32 }
    ensures along { IfOk result (λ size. size.0 ≡ least_sum axis (shapes_of trees.now)) }
    ensures across { IfOk result (λ size. size.1 ≡ least_max (other axis) (shapes_of trees.now)) }
    ensures below { OnOk result (into.new.items
        ≡ into.old.items ++ leasts_below (group axis (shapes_of trees.now))) }
{
    let start = into.len();
    push_zeros(into, trees.len())?;
    let mut along = 0;
    let mut across = 0;
    for (place, tree) in trees.iter().enumerate() {
        let size = measure(tree, into)?;
        let least = size_along(size, axis);
        into[start + place] = least;
        along += least + gap_behind(trees, place, axis);
        across = size_across(size, axis).max(across);
    }
    Ok((along, across))
}

// Of a width and a height, the one along an axis.
fn size_along(size: (u32, u32), axis: Axis) -> u32
    ensures { result ≡ along_or_across Across axis size.0 size.1 }
{
    match axis {
        Axis::Across => size.0,
        Axis::Down => size.1,
    }
}

// The other one.
fn size_across(size: (u32, u32), axis: Axis) -> u32
    ensures { result ≡ along_or_across Down axis size.0 size.1 }
{
    match axis {
        Axis::Across => size.1,
        Axis::Down => size.0,
    }
}

// Puts so many zeros behind other numbers.
fn push_zeros(into: &mut Vec<u32>, count: usize) -> Result<(), AllocError>
    ensures { OnOk result (into.new.items ≡ into.old.items ++ zeros count) }
{
    for _ in 0..count {
        into.push(0)?;
    }
    Ok(())
}

// Puts the windows of a tree with their rectangles behind others. What is `known` begins with the
// least sizes of the tree's parts; what follows them is left.
#[cycle(place)]
fn place_tree<'a>(
    tree: &Tree,
    area: Rect,
    known: &'a [u32],
    into: &mut Vec<Placed>,
) -> Result<&'a [u32], AllocError>
    requires filled { NoneEmpty (shape_of tree.now) }
    requires roomy { IsRoomy (shape_of tree.now) area }
    requires on_screen { IsOnScreen area }
    requires known { IsLed (leasts_below (shape_of tree.now)) known.now }
    ensures left { IfOk result
        (λ left. known.now ≡ leasts_below (shape_of tree.now) ++ left.now) }
    ensures placed { OnOk result (into.new.items
        ≡ into.old.items ++ rects (shape_of tree.now) area) }
{
    match tree {
        Tree::Leaf(leaf) => {
            into.push(placed_leaf(*leaf, area))?;
            Ok(known)
        }
        Tree::Row(trees) => place_group(trees, Axis::Across, area, known, into),
        Tree::Column(trees) => place_group(trees, Axis::Down, area, known, into),
    }
}

// The same for the children of a row or a column.
#[cycle(place)]
fn place_group<'a>(
    trees: &[Tree],
    axis: Axis,
    area: Rect,
    known: &'a [u32],
    into: &mut Vec<Placed>,
) -> Result<&'a [u32], AllocError>
    requires filled { NoneEmpty (group axis (shapes_of trees.now)) }
    requires roomy { IsRoomy (group axis (shapes_of trees.now)) area }
    requires on_screen { IsOnScreen area }
    requires known { IsLed (leasts_below (group axis (shapes_of trees.now))) known.now }
    ensures left { IfOk result (λ left. known.now
        ≡ leasts_below (group axis (shapes_of trees.now)) ++ left.now) }
    ensures placed { OnOk result (into.new.items
        ≡ into.old.items ++ rects (group axis (shapes_of trees.now)) area) }
{
    let (leasts, below) = known.split_at(trees.len());
    let all_wish = all_wish(trees, axis);
    let room = extent(area, axis) - gaps(trees, axis);
    let mut rooms = Rooms::new(trees, axis, all_wish, room, leasts);
    let mut rest = area;
    let mut left = below;
    for (place, tree) in trees.iter().enumerate() {
        let wish = counted_wish(trees, place, axis, all_wish);
        let least = least_at(tree, place, axis, leasts);
        let size = rooms.take(least, wish);
        left = place_tree(tree, part(rest, axis, size), left, into)?;
        rest = beyond(rest, axis, size + gap_behind(trees, place, axis));
    }
    Ok(left)
}

// A window with its rectangle.
fn placed_leaf(leaf: Leaf, area: Rect) -> Placed
    ensures { result ≡ record { window = leaf.window; rect = area } }
{
    Placed {
        window: leaf.window,
        rect: area,
    }
}
