// The least size of a tree, and how many windows it has.

ghost use Rattle.std.specs.Prelude.{◌≡◌, ◌+◌, ◌^◌, ◌<◌, ◌++◌, ◌∷◌, [], length, drop, OnOk};
ghost use Rattle.nv_layout.specs.Content.{shape_of, shapes_of};
ghost use Rattle.nv_layout.specs.Least.{leaf_least, gap, least, least_sum, least_max, leaves_of, leaves_in, IsMeasurable};
ghost use Rattle.nv_layout.specs.Tiling.{windows};
ghost use Rattle.nv_layout.specs.declared.nodes.Axis.TheVariants.{Across, Down};

use crate::nodes::{Axis, Tree};
use std::alloc::AllocError;

/// The least width and the least height of a tree, in cells.
///
/// A window has one column, and two rows: text and its status line. A row adds the widths of its
/// children and a separator column between neighbours, a column their heights. (own rule)
pub fn least(tree: &Tree) -> (u32, u32)
    requires { IsMeasurable (shape_of tree.now) }
    ensures width { result.0 ≡ least Across (shape_of tree.now) }
    ensures height { result.1 ≡ least Down (shape_of tree.now) }
{
    (
        least_along(tree, Axis::Across),
        least_along(tree, Axis::Down),
    )
}

/// The number of windows of a tree.
pub fn leaves(tree: &Tree) -> usize
    requires { IsMeasurable (shape_of tree.now) }
    ensures { result ≡ length (leaves_of (shape_of tree.now)) }
{
    count_leaves(tree)
}

/// Puts the windows of a tree behind other handles, in tree order.
#[cycle(windows)]
pub fn push_windows(tree: &Tree, into: &mut Vec<i64>) -> Result<(), AllocError>
    ensures { OnOk result (into.new.items ≡ into.old.items
        ++ windows (leaves_of (shape_of tree.now))) }
{
    match tree {
        Tree::Leaf(leaf) => push_window(leaf.window, into),
        Tree::Row(trees) => push_windows_in(trees, into),
        Tree::Column(trees) => push_windows_in(trees, into),
    }
}

fn push_window(window: i64, into: &mut Vec<i64>) -> Result<(), AllocError>
    ensures { OnOk result (into.new.items ≡ into.old.items ++ window ∷ []) }
{
    into.push(window)?;
    Ok(())
}

// The same for children.
#[cycle(windows)]
fn push_windows_in(trees: &[Tree], into: &mut Vec<i64>) -> Result<(), AllocError>
    ensures { OnOk result (into.new.items
        ≡ into.old.items ++ windows (leaves_in (shapes_of trees.now))) }
{
    for tree in trees {
        push_windows(tree, into)?;
    }
    Ok(())
}

fn count_leaves(tree: &Tree) -> usize
    requires { length (leaves_of (shape_of tree.now)) < 2 ^ 64 }
    ensures { result ≡ length (leaves_of (shape_of tree.now)) }
{
    match tree {
        Tree::Leaf(_) => 1,
        Tree::Row(children) | Tree::Column(children) => {
            let mut count = 0;
            for child in children {
                count += count_leaves(child);
            }
            count
        }
    }
}

// The least size along one axis.
#[cycle(least)]
pub(crate) fn least_along(tree: &Tree, axis: Axis) -> u32
    requires { least axis (shape_of tree.now) < 2 ^ 32 }
    ensures { result ≡ least axis (shape_of tree.now) }
{
    match tree {
        Tree::Leaf(_) => leaf_least(axis),
        Tree::Row(children) => match axis {
            Axis::Across => least_sum(children, axis),
            Axis::Down => least_max(children, axis),
        },
        Tree::Column(children) => match axis {
            Axis::Across => least_max(children, axis),
            Axis::Down => least_sum(children, axis),
        },
    }
}

pub(crate) fn leaf_least(axis: Axis) -> u32
    ensures { result ≡ leaf_least axis }
{
    match axis {
        Axis::Across => 1,
        Axis::Down => 2,
    }
}

// Of children that follow one another, with what stands between them.
#[cycle(least)]
fn least_sum(children: &[Tree], axis: Axis) -> u32
    requires { least_sum axis (shapes_of children.now) < 2 ^ 32 }
    ensures { result ≡ least_sum axis (shapes_of children.now) }
{
    let mut sum = 0;
    for (place, child) in children.iter().enumerate() {
        sum += least_along(child, axis) + gap_behind(children, place, axis);
    }
    sum
}

// Of children side by side.
#[cycle(least)]
fn least_max(children: &[Tree], axis: Axis) -> u32
    requires { least_max axis (shapes_of children.now) < 2 ^ 32 }
    ensures { result ≡ least_max axis (shapes_of children.now) }
{
    let mut most = 0;
    for child in children {
        most = least_along(child, axis).max(most);
    }
    most
}

// What stands behind a child: a separator column where more children follow it in a row.
pub(crate) fn gap_behind(children: &[Tree], place: usize, axis: Axis) -> u32
    requires { place < length children.now }
    ensures { result ≡ gap axis (shapes_of (drop (place + 1) children.now)) }
{
    match axis {
        Axis::Across if place + 1 < children.len() => 1,
        _ => 0,
    }
}
