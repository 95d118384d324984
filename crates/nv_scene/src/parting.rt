//! The separators between the windows of a tree.
ghost use Rattle.std.specs.Prelude.{◌≡◌, ◌+◌, ◌<◌, ◌++◌, drop, length, IfOk, OnOk};
ghost use Rattle.nv_layout.specs.Content.{group, shape_of, shapes_of};
ghost use Rattle.nv_layout.specs.Places.{separators};
ghost use Rattle.nv_scene.specs.Separators.{AreWindowsOf, spanned_area};
ghost use Rattle.nv_scene.specs.inside.Parting.{HasSpan, column_behind, separator_between, windows_behind, windows_within};

use nv_layout::{Axis, Placed, Rect, Tree};
use std::alloc::{AllocError, Global};

/// The separators of a tree, in tree order: between neighbours in a row a column, as high as the
/// row (own rule). `placed` are the windows of the tree with their rectangles in an area, as
/// `nv_layout::placed` gives them.
pub fn separators(alloc: Global, tree: &Tree, placed: &[Placed]) -> Result<Vec<Rect>, AllocError>
    requires { AreWindowsOf (shape_of tree.now) placed.now }
    ensures { IfOk result
        (λ found. found.items ≡ separators (shape_of tree.now) (spanned_area placed.now)) }
{
    let mut found = Vec::new(alloc);
    push_separators(tree, placed, &mut found)?;
    Ok(found)
}

// Puts the separators of a tree behind others. The windows begin with those of the tree; what
// follows these is left.
#[cycle(separators)]
fn push_separators<'a>(
    tree: &Tree,
    placed: &'a [Placed],
    into: &mut Vec<Rect>,
) -> Result<&'a [Placed], AllocError>
    requires { AreWindowsOf (shape_of tree.now) (windows_within (shape_of tree.now) placed.now) }
    ensures left { IfOk result
        (λ left. left.now ≡ windows_behind (shape_of tree.now) placed.now) }
    ensures found { OnOk result (into.new.items ≡ into.old.items
        ++ separators (shape_of tree.now)
        (spanned_area (windows_within (shape_of tree.now) placed.now))) }
{
    match tree {
        Tree::Leaf(_) => Ok(&placed[1..]),
        Tree::Row(trees) => push_in_group(trees, Axis::Across, placed, into),
        Tree::Column(trees) => push_in_group(trees, Axis::Down, placed, into),
    }
}

// The same for the children of a row or a column.
#[cycle(separators)]
fn push_in_group<'a>(
    trees: &[Tree],
    axis: Axis,
    placed: &'a [Placed],
    into: &mut Vec<Rect>,
) -> Result<&'a [Placed], AllocError>
    requires { AreWindowsOf (group axis (shapes_of trees.now))
        (windows_within (group axis (shapes_of trees.now)) placed.now) }
    ensures left { IfOk result
        (λ left. left.now ≡ windows_behind (group axis (shapes_of trees.now)) placed.now) }
    ensures found { OnOk result (into.new.items ≡ into.old.items
        ++ separators (group axis (shapes_of trees.now))
        (spanned_area (windows_within (group axis (shapes_of trees.now)) placed.now))) }
{
    let mut left = placed;
    for (place, tree) in trees.iter().enumerate() {
        let others = push_separators(tree, left, into)?;
        let (here, _) = left.split_at(left.len() - others.len());
        push_separator(trees, place, axis, here, into)?;
        left = others;
    }
    Ok(left)
}

// Puts the separator behind the windows of a child, if others follow it in a row.
fn push_separator(
    trees: &[Tree],
    place: usize,
    axis: Axis,
    here: &[Placed],
    into: &mut Vec<Rect>,
) -> Result<(), AllocError>
    requires place { place < length trees.now }
    requires span { HasSpan here.now }
    ensures { OnOk result (into.new.items ≡ into.old.items
        ++ separator_between axis here.now (shapes_of (drop (place + 1) trees.now))) }
{
    match axis {
        Axis::Across if place + 1 < trees.len() => {
            into.push(column_behind(here))?;
            Ok(())
        }
        _ => Ok(()),
    }
}

// The column behind the area that windows span.
fn column_behind(placed: &[Placed]) -> Rect
    requires { HasSpan placed.now }
    ensures { result ≡ column_behind (spanned_area placed.now) }
{
    let first = placed[0].rect;
    let last = placed[placed.len() - 1].rect;
    Rect {
        row: first.row,
        col: last.col + last.width,
        width: 1,
        height: last.row + last.height - first.row,
    }
}
