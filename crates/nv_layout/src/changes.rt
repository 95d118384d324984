// Opening a window beside another, and closing one.
//
// Both calls build the new tree beside the old one and then put it in place, so that want of memory
// changes nothing.

ghost use Rattle.std.specs.Prelude.{◌≡◌, ◌+◌, ◌<◌, ◌≤◌, ◌++◌, ◌↔◌, length, take, slice_index_or, true, false, Some, IsTrue, IsFalse, IfOk, OnOk, OnErr};
ghost use Rattle.std.specs.Option.{option_map};
ghost use Rattle.nv_layout.specs.Content.{shape_of, shapes_of, leaf, group, more_shapes, no_shapes};
ghost use Rattle.nv_layout.specs.Changes.{holds, holds_among, append, put_before, axis_of, both, put_opened, split, split_among, group_left, put_left, close, close_among, with_wish, with_wish_among};
ghost use Rattle.nv_layout.specs.Least.{leaves_of, leaves_in};
ghost use Rattle.nv_layout.specs.inside.Paths.{path_among, path_of, LeadsTo};

use crate::nodes::{Axis, Leaf, Side, Tree};
use std::alloc::{AllocError, Global};

impl Tree {
    /// Opens a window on a side of another, whose first leaf it is put beside.
    ///
    /// Both stand in the row or column of the other window where that lies along the side, and else
    /// in a new one. Answers `false` exactly where the other window isn't there, and then changes
    /// nothing; nor does it where memory is wanting. (own rule; `nvim_open_win`)
    pub fn split(
        &mut self,
        alloc: Global,
        window: i64,
        side: Side,
        new: Leaf,
    ) -> Result<bool, AllocError>
        ensures found { IfOk result (λ found. found ≡ holds window (shape_of self.old)) }
        ensures ok { OnOk result (shape_of self.new ≡ split side window new (shape_of self.old)) }
        ensures missing { holds window (shape_of self.old) ≡ false
            → shape_of self.new ≡ shape_of self.old }
        ensures err { OnErr result (shape_of self.new ≡ shape_of self.old) }
    {
        if !self.holds(window) {
            return Ok(false);
        }
        *self = self.opened(alloc, window, side, new)?;
        Ok(true)
    }

    /// Closes a window, whose first leaf is taken away.
    ///
    /// A row or column with one child left is replaced by it, and a row in a row, or a column in a
    /// column, gives its children to it. Answers `false` exactly where the window isn't there or is
    /// the only one, and then changes nothing; nor does it where memory is wanting. (own rule;
    /// `nvim_win_close`)
    pub fn close(&mut self, alloc: Global, window: i64) -> Result<bool, AllocError>
        ensures closed { IfOk result (λ closed. IsTrue closed
            ↔ ((holds window (shape_of self.old) ≡ true)
            × (1 < length (leaves_of (shape_of self.old))))) }
        ensures after { IfOk result (λ closed. IsTrue closed
            → close window (shape_of self.old) ≡ Some (shape_of self.new)) }
        ensures kept { IfOk result (λ closed. IsFalse closed
            → shape_of self.new ≡ shape_of self.old) }
        ensures err { OnErr result (shape_of self.new ≡ shape_of self.old) }
    {
        if !self.holds(window) {
            return Ok(false);
        }
        let Some(tree) = self.closed(alloc, window)? else {
            return Ok(false);
        };
        if !tree.has_window() {
            return Ok(false);
        }
        *self = tree;
        Ok(true)
    }

    /// A tree with the same content.
    #[cycle(copy)]
    pub fn copy(&self, alloc: Global) -> Result<Tree, AllocError>
        ensures { IfOk result (λ tree. shape_of tree ≡ shape_of self.now) }
    {
        match self {
            Tree::Leaf(leaf) => Ok(Tree::Leaf(*leaf)),
            Tree::Row(trees) => Ok(Tree::Row(copies(alloc, trees)?)),
            Tree::Column(trees) => Ok(Tree::Column(copies(alloc, trees)?)),
        }
    }

    /// Puts the size that a window wishes for along an axis, 0 for none, in place of the wish that
    /// it had. A height counts the status line. No memory is taken. (own rule;
    /// `nvim_win_set_width`)
    #[cycle(wish)]
    pub fn put_wish(&mut self, window: i64, axis: Axis, wish: u32)
        ensures { shape_of self.new ≡ with_wish axis wish window (shape_of self.old) }
    {
        match self {
            Tree::Leaf(leaf) => put_leaf_wish(leaf, window, axis, wish),
            Tree::Row(trees) => put_wish_among(trees, window, axis, wish),
            Tree::Column(trees) => put_wish_among(trees, window, axis, wish),
        }
    }

    /// Whether a window is in the tree.
    #[cycle(holds)]
    pub fn holds(&self, window: i64) -> bool
        ensures { result ≡ holds window (shape_of self.now) }
    {
        match self {
            Tree::Leaf(leaf) => leaf.window == window,
            Tree::Row(trees) => place_of(trees, window) < trees.len(),
            Tree::Column(trees) => place_of(trees, window) < trees.len(),
        }
    }

    // Whether the tree has any window.
    #[cycle(has_window)]
    fn has_window(&self) -> bool
        ensures { IsTrue result ↔ (0 < length (leaves_of (shape_of self.now))) }
    {
        match self {
            Tree::Leaf(_) => true,
            Tree::Row(trees) => any_has_window(trees),
            Tree::Column(trees) => any_has_window(trees),
        }
    }

    /// The tree that it becomes where a window is opened on a side of one of its own, as by
    /// `split`.
    pub fn opened(
        &self,
        alloc: Global,
        window: i64,
        side: Side,
        new: Leaf,
    ) -> Result<Tree, AllocError>
        requires { holds window (shape_of self.now) ≡ true }
        ensures { IfOk result (λ tree. shape_of tree ≡ split side window new (shape_of self.now)) }
    {
        let mut path = Vec::new(alloc);
        push_path(self, window, &mut path)?;
        self.opened_at(alloc, path.as_slice(), window, side, new)
    }

    // The same by the path to the window.
    #[cycle(opened)]
    fn opened_at(
        &self,
        alloc: Global,
        path: &[usize],
        window: i64,
        side: Side,
        new: Leaf,
    ) -> Result<Tree, AllocError>
        requires held { holds window (shape_of self.now) ≡ true }
        requires path { path.now ≡ path_of window (shape_of self.now) }
        ensures { IfOk result (λ tree. shape_of tree ≡ split side window new (shape_of self.now)) }
    {
        match self {
            Tree::Leaf(leaf) => both(alloc, side, *leaf, new),
            Tree::Row(trees) => {
                Ok(Tree::Row(opened_among(alloc, trees, Axis::Across, path, window, side, new)?))
            }
            Tree::Column(trees) => {
                Ok(Tree::Column(opened_among(alloc, trees, Axis::Down, path, window, side, new)?))
            }
        }
    }

    // What is left of the tree without a window of its own.
    fn closed(&self, alloc: Global, window: i64) -> Result<Option<Tree>, AllocError>
        requires { holds window (shape_of self.now) ≡ true }
        ensures { IfOk result (λ left. option_map shape_of left
            ≡ close window (shape_of self.now)) }
    {
        let mut path = Vec::new(alloc);
        push_path(self, window, &mut path)?;
        self.closed_at(alloc, path.as_slice(), window)
    }

    // The same by the path to the window.
    #[cycle(closed)]
    fn closed_at(
        &self,
        alloc: Global,
        path: &[usize],
        window: i64,
    ) -> Result<Option<Tree>, AllocError>
        requires held { holds window (shape_of self.now) ≡ true }
        requires path { path.now ≡ path_of window (shape_of self.now) }
        ensures { IfOk result (λ left. option_map shape_of left
            ≡ close window (shape_of self.now)) }
    {
        match self {
            Tree::Leaf(_) => Ok(None),
            Tree::Row(trees) => {
                Ok(regrouped(
                    Axis::Across,
                    closed_among(alloc, trees, Axis::Across, path, window)?,
                ))
            }
            Tree::Column(trees) => {
                Ok(regrouped(
                    Axis::Down,
                    closed_among(alloc, trees, Axis::Down, path, window)?,
                ))
            }
        }
    }
}

// The place of the first child in which a window is, or the number of children.
#[cycle(holds)]
fn place_of(trees: &[Tree], window: i64) -> usize
    ensures within { result ≤ length trees.now }
    ensures before { holds_among window (shapes_of (take result trees.now)) ≡ false }
    ensures here { (d : Tree) → result < length trees.now
        → holds window (shape_of (slice_index_or trees.now result d)) ≡ true }
{
    for (place, tree) in trees.iter().enumerate() {
        if tree.holds(window) {
            return place;
        }
    }
    trees.len()
}

// Puts the path to a window behind other places: for each row and column that it stands in, from
// the root down, the place of the child that holds it. Answers whether it is there.
#[cycle(path)]
fn push_path(tree: &Tree, window: i64, into: &mut Vec<usize>) -> Result<bool, AllocError>
    ensures found { IfOk result (λ found. found ≡ holds window (shape_of tree.now)) }
    ensures path { OnOk result (into.new.items
        ≡ into.old.items ++ path_of window (shape_of tree.now)) }
{
    match tree {
        Tree::Leaf(leaf) => Ok(leaf.window == window),
        Tree::Row(trees) => push_path_among(trees, window, into),
        Tree::Column(trees) => push_path_among(trees, window, into),
    }
}

// The same for the children of a row or a column.
#[cycle(path)]
fn push_path_among(trees: &[Tree], window: i64, into: &mut Vec<usize>) -> Result<bool, AllocError>
    ensures found { IfOk result (λ found. found ≡ holds_among window (shapes_of trees.now)) }
    ensures path { OnOk result (into.new.items
        ≡ into.old.items ++ path_among window 0 (shapes_of trees.now)) }
{
    let start = into.len();
    for (place, tree) in trees.iter().enumerate() {
        into.push(place)?;
        let found = push_path(tree, window, into)?;
        if found {
            return Ok(true);
        }
        into.truncate(start);
    }
    Ok(false)
}

// The place of the child of a group that a path leads to first, and the path on from there.
fn way_on<'a>(trees: &[Tree], path: &'a [usize], window: i64) -> (usize, &'a [usize])
    requires held { holds_among window (shapes_of trees.now) ≡ true }
    requires path { path.now ≡ path_among window 0 (shapes_of trees.now) }
    ensures { LeadsTo window trees.now result.0 result.1.now }
{
    (path[0], &path[1..])
}

// The leaf wishes this where it is that of the window.
fn put_leaf_wish(own: &mut Leaf, window: i64, axis: Axis, wish: u32)
    ensures { leaf own.new ≡ with_wish axis wish window (leaf own.old) }
{
    if own.window == window {
        match axis {
            Axis::Across => own.width = wish,
            Axis::Down => own.height = wish,
        }
    }
}

// The same for children.
#[cycle(wish)]
fn put_wish_among(trees: &mut [Tree], window: i64, axis: Axis, wish: u32)
    ensures { shapes_of trees.new ≡ with_wish_among axis wish window (shapes_of trees.old) }
{
    for tree in trees.iter_mut() {
        tree.put_wish(window, axis, wish);
    }
}

#[cycle(has_window)]
fn any_has_window(trees: &[Tree]) -> bool
    ensures { IsTrue result ↔ (0 < length (leaves_in (shapes_of trees.now))) }
{
    for tree in trees {
        if tree.has_window() {
            return true;
        }
    }
    false
}

#[cycle(copy)]
fn copies(alloc: Global, trees: &[Tree]) -> Result<Vec<Tree>, AllocError>
    ensures { IfOk result (λ copies. shapes_of copies.items ≡ shapes_of trees.now) }
{
    let mut copies = Vec::with_capacity(alloc, trees.len())?;
    push_copies(alloc, trees, &mut copies)?;
    Ok(copies)
}

// Puts copies behind other trees.
#[cycle(copy)]
fn push_copies(alloc: Global, trees: &[Tree], all: &mut Vec<Tree>) -> Result<(), AllocError>
    ensures { OnOk result (shapes_of all.new.items
        ≡ append (shapes_of all.old.items) (shapes_of trees.now)) }
{
    for tree in trees {
        all.push(tree.copy(alloc)?)?;
    }
    Ok(())
}

// The row or column of a window and a new one on a side of it.
fn both(alloc: Global, side: Side, old: Leaf, new: Leaf) -> Result<Tree, AllocError>
    ensures { IfOk result (λ tree. shape_of tree ≡ group (axis_of side) (both side old new)) }
{
    match side {
        Side::Left => Ok(Tree::Row(pair(alloc, new, old)?)),
        Side::Right => Ok(Tree::Row(pair(alloc, old, new)?)),
        Side::Above => Ok(Tree::Column(pair(alloc, new, old)?)),
        Side::Below => Ok(Tree::Column(pair(alloc, old, new)?)),
    }
}

fn pair(alloc: Global, first: Leaf, second: Leaf) -> Result<Vec<Tree>, AllocError>
    ensures { IfOk result (λ trees. shapes_of trees.items
        ≡ more_shapes (leaf first) (more_shapes (leaf second) no_shapes)) }
{
    let mut trees = Vec::with_capacity(alloc, 2)?;
    trees.push(Tree::Leaf(first))?;
    trees.push(Tree::Leaf(second))?;
    Ok(trees)
}

// The children of a group in which a window is opened beside one of theirs.
#[cycle(opened)]
fn opened_among(
    alloc: Global,
    trees: &[Tree],
    axis: Axis,
    path: &[usize],
    window: i64,
    side: Side,
    new: Leaf,
) -> Result<Vec<Tree>, AllocError>
    requires held { holds_among window (shapes_of trees.now) ≡ true }
    requires path { path.now ≡ path_among window 0 (shapes_of trees.now) }
    ensures { IfOk result (λ all. shapes_of all.items
        ≡ split_among axis side window new (shapes_of trees.now)) }
{
    let (place, further) = way_on(trees, path, window);
    let mut all = copies(alloc, &trees[..place])?;
    let opened = trees[place].opened_at(alloc, further, window, side, new)?;
    put_opened(&mut all, axis, &trees[place], opened)?;
    push_copies(alloc, &trees[place + 1..], &mut all)?;
    Ok(all)
}

// The children of a group in which a window of theirs is closed.
#[cycle(closed)]
fn closed_among(
    alloc: Global,
    trees: &[Tree],
    axis: Axis,
    path: &[usize],
    window: i64,
) -> Result<Vec<Tree>, AllocError>
    requires held { holds_among window (shapes_of trees.now) ≡ true }
    requires path { path.now ≡ path_among window 0 (shapes_of trees.now) }
    ensures { IfOk result (λ all. shapes_of all.items
        ≡ close_among axis window (shapes_of trees.now)) }
{
    let (place, further) = way_on(trees, path, window);
    let mut all = copies(alloc, &trees[..place])?;
    let left = trees[place].closed_at(alloc, further, window)?;
    put_left(&mut all, axis, left)?;
    push_copies(alloc, &trees[place + 1..], &mut all)?;
    Ok(all)
}

// Puts a child in which a window was opened behind others.
fn put_opened(all: &mut Vec<Tree>, axis: Axis, was: &Tree, opened: Tree) -> Result<(), AllocError>
    ensures { OnOk result (shapes_of all.new.items
        ≡ append (shapes_of all.old.items)
        (put_opened axis (shape_of was.now) (shape_of opened) no_shapes)) }
{
    match was {
        Tree::Leaf(_) => put(all, axis, opened),
        Tree::Row(_) | Tree::Column(_) => push(all, opened),
    }
}

// Puts what is left of a child behind others.
fn put_left(all: &mut Vec<Tree>, axis: Axis, left: Option<Tree>) -> Result<(), AllocError>
    ensures { OnOk result (shapes_of all.new.items
        ≡ append (shapes_of all.old.items) (put_left axis (option_map shape_of left) no_shapes)) }
{
    match left {
        Some(tree) => put(all, axis, tree),
        None => Ok(()),
    }
}

// Puts a child of a group behind others. A group of the same kind gives its children.
fn put(all: &mut Vec<Tree>, axis: Axis, tree: Tree) -> Result<(), AllocError>
    ensures { OnOk result (shapes_of all.new.items
        ≡ append (shapes_of all.old.items) (put_before axis (shape_of tree) no_shapes)) }
{
    match axis {
        Axis::Across => match tree {
            Tree::Row(trees) => push_all(all, trees),
            tree => push(all, tree),
        },
        Axis::Down => match tree {
            Tree::Column(trees) => push_all(all, trees),
            tree => push(all, tree),
        },
    }
}

fn push(all: &mut Vec<Tree>, tree: Tree) -> Result<(), AllocError>
    ensures { OnOk result (shapes_of all.new.items
        ≡ append (shapes_of all.old.items) (more_shapes (shape_of tree) no_shapes)) }
{
    all.push(tree)?;
    Ok(())
}

fn push_all(all: &mut Vec<Tree>, mut trees: Vec<Tree>) -> Result<(), AllocError>
    ensures { OnOk result (shapes_of all.new.items
        ≡ append (shapes_of all.old.items) (shapes_of trees.items)) }
{
    all.append(&mut trees)
}

// A group with these children: none where there are none, and the child where there is one.
fn regrouped(axis: Axis, mut trees: Vec<Tree>) -> Option<Tree>
    ensures { option_map shape_of result ≡ group_left axis (shapes_of trees.items) }
{
    if trees.len() < 2 {
        return trees.pop();
    }
    match axis {
        Axis::Across => Some(Tree::Row(trees)),
        Axis::Down => Some(Tree::Column(trees)),
    }
}
