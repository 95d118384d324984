//! The tree of changes.

ghost use Rattle.nv_undo.specs.Tree.{IsTree, change_of, child_of, entered_child, gone_ahead, gone_back, last, no_changes, numbered, parent_of, path, pushed};
ghost use Rattle.std.specs.Io.BufRead.{Rests};
ghost use Rattle.std.specs.Prelude.{◌≡◌, ◌↔◌, ◌<◌, ◌≤◌, IfErr, IfOk, IfSome, IsNone, IsSome, MatchOption, None, OnErr, OnOk, Some, option_and_then, option_copied, suc, vec_capacity, vec_len};
ghost use Rattle.std.specs.Borrow.{sem};

use crate::legs::Leg;
use std::alloc::{AllocError, Global};
use std::marker::Model;

/// The changes of a text, numbered from 1 in the order in which they were made, and the number that
/// the text is at. 0 is the text at first. A change is a child of the number that the text was at
/// when it was made (help: undo-tree).
#[derive(Drop)]
pub struct UndoTree<E> {
    // Each change with the number of its parent; that of number n stands at n - 1.
    changes: Vec<(u64, E)>,
    // The number that the text is at.
    current: u64,
    // For each number from 0 the child last entered, and 0 where it has none.
    entered: Vec<u64>,
}

impl<E> Model for UndoTree<E> {
    ghost use Rattle.nv_undo.specs.Tree.{IsTree, Undo, tree_of, undo_code};

    ghost Value = { Undo E };

    ghost coded = { undo_code E.code };

    ghost view = { λ t. tree_of t.changes.items t.current t.entered.items };

    ghost invariant = { λ t. IsTree (tree_of t.changes.items t.current t.entered.items) };
}

impl<E> UndoTree<E> {
    ghost use Rattle.nv_undo.specs.contracts.tree.UndoTree.{the_row};

    /// A text without changes.
    pub fn new(alloc: Global) -> Result<UndoTree<E>, AllocError>
        ensures { IfOk result (λ tree. tree ≡ no_changes) }
    {
        let mut entered = Vec::new(alloc);
        entered.push(0)?;
        Ok(UndoTree {
            changes: Vec::new(alloc),
            current: 0,
            entered,
        })
    }

    /// The number that the text is at, and 0 for the text at first.
    pub fn current(&self) -> u64
        ensures number { result ≡ self.now.current }
        ensures tree { IsTree self.now }
    {
        self.current
    }

    /// The greatest number, that of the change made last, and 0 where none was made.
    pub fn last(&self) -> u64
        ensures number { result ≡ last self.now }
        ensures tree { IsTree self.now }
    {
        self.changes.len() as u64
    }

    /// The number that the next change gets.
    pub fn next(&self) -> u64
        ensures { result ≡ suc (last self.now) }
    {
        self.entered.len() as u64
    }

    /// Adds a change that leads from the number that the text is at to a new one, answers the new
    /// number, and the text is at it. Where memory is wanting nothing changes, and the change comes
    /// back.
    pub fn push(&mut self, change: E) -> Result<u64, (E, AllocError)>
        ensures number { IfOk result (λ n. n ≡ suc (last self.old)) }
        ensures ok { OnOk result (self.new ≡ pushed change self.old) }
        ensures err { OnErr result (self.new ≡ self.old) }
        ensures change_returned { IfErr result (λ e. e.0 ≡ change) }
    {
        if let Err(error) = make_room(&mut self.changes, &mut self.entered) {
            return Err((change, error));
        }
        self.changes.push_reserved((self.current, change));
        let number = self.changes.len() as u64;
        self.entered[self.current as usize] = number;
        self.entered.push_reserved(0);
        self.current = number;
        Ok(number)
    }

    /// Leaves the change that the text is at for its parent, and lends it. `None` exactly at 0, and
    /// then nothing changes.
    pub fn back(&mut self) -> Option<&E>
        // Once the change that is lent is let go.
        ensures* after { sem 𝓛 (Rests (the_row E.row) self.entry
            (λ new. new ≡ gone_back self.old)) }
        ensures change { option_copied result ≡ change_of self.old self.old.current }
        ensures start { IsNone result ↔ (self.old.current ≡ 0) }
    {
        let left = self.current;
        self.leave();
        self.change(left)
    }

    /// Enters the child last entered of the number that the text is at, and lends its change.
    /// `None` exactly where that number has no child, and then nothing changes.
    pub fn forward(&mut self) -> Option<&E>
        // Once the change that is lent is let go.
        ensures* after { sem 𝓛 (Rests (the_row E.row) self.entry
            (λ new. new ≡ gone_ahead self.old)) }
        ensures change { option_copied result
            ≡ option_and_then (change_of self.old) (child_of self.old self.old.current) }
        ensures child { IsSome result ↔ IsSome (child_of self.old self.old.current) }
    {
        let child = self.child()?;
        self.enter(child);
        self.change(child)
    }

    /// Enters the change `n`, a child of the number that the text is at, and lends it. `None`
    /// exactly where `n` isn't a child of that number, and then nothing changes.
    pub fn ahead(&mut self, n: u64) -> Option<&E>
        // Once the change that is lent is let go.
        ensures* after { sem 𝓛 (Rests (the_row E.row) self.entry
            (λ new. MatchOption result (new ≡ self.old) (λ _. new ≡ entered_child n self.old))) }
        ensures change { IfSome result (λ change. change_of self.old n ≡ Some change.now) }
        ensures child { IsSome result ↔ (parent_of self.old n ≡ Some self.old.current) }
    {
        if self.parent(n) != Some(self.current) {
            return None;
        }
        self.enter(n);
        self.change(n)
    }

    /// The child last entered of the number that the text is at. `None` exactly where that number
    /// has no child.
    pub fn child(&self) -> Option<u64>
        ensures number { result ≡ child_of self.now self.now.current }
        ensures child { IfSome result (λ k. parent_of self.now k ≡ Some self.now.current) }
    {
        let child = self.entered[self.current as usize];
        if child == 0 { None } else { Some(child) }
    }

    /// The parent of a change. `None` exactly where `n` is 0 or above the last number.
    pub fn parent(&self, n: u64) -> Option<u64>
        ensures number { result ≡ parent_of self.now n }
        ensures in_range { IsSome result ↔ ((0 < n) × (n ≤ last self.now)) }
        ensures below { IfSome result (λ parent. parent < n) }
    {
        Some(self.node(n)?.0)
    }

    /// The change of a number. `None` exactly where `n` is 0 or above the last number.
    pub fn change(&self, n: u64) -> Option<&E>
        ensures change { option_copied result ≡ change_of self.now n }
        ensures in_range { IsSome result ↔ ((0 < n) × (n ≤ last self.now)) }
    {
        Some(&self.node(n)?.1)
    }

    /// The way from the number that the text is at to `n`, by their nearest common ancestor. `None`
    /// exactly where `n` is above the last number.
    pub fn path_to(&self, alloc: Global, n: u64) -> Result<Option<Vec<Leg>>, AllocError>
        ensures { IfOk result (λ found.
            MatchOption found (last self.now < n)
            (λ legs. (n ≤ last self.now) × (legs.items ≡ path self.now self.now.current n))) }
    {
        if n > self.last() {
            return Ok(None);
        }
        Ok(Some(self.path_between(alloc, self.current, n)?))
    }

    // A change and its parent.
    fn node(&self, n: u64) -> Option<&(u64, E)>
        ensures node { option_copied result ≡ numbered self.now n }
        ensures tree { IsTree self.now }
    {
        let changes = &self.changes;
        let place = n.checked_sub(1)?;
        changes.get(place as usize)
    }

    // The parent of a change that is there.
    fn parent_below(&self, n: u64) -> u64
        requires some { 0 < n }
        requires within { n ≤ last self.now }
        ensures number { parent_of self.now n ≡ Some result }
        ensures below { result < n }
        ensures tree { IsTree self.now }
    {
        match self.node(n) {
            Some(node) => node.0,
            None => unreachable!(),
        }
    }

    // Leaves the change that the text is at for its parent, where there is one.
    fn leave(&mut self)
        ensures { self.new ≡ gone_back self.old }
    {
        if let Some(parent) = self.parent(self.current) {
            self.current = parent;
        }
    }

    // Enters a child of the number that the text is at.
    fn enter(&mut self, child: u64)
        requires { parent_of self.old child ≡ Some self.old.current }
        ensures { self.new ≡ entered_child child self.old }
    {
        self.entered[self.current as usize] = child;
        self.current = child;
    }

    // The way from one number to another. The greater of the two isn't an ancestor of the other, so
    // it is left, or entered last.
    fn path_between(&self, alloc: Global, from: u64, to: u64) -> Result<Vec<Leg>, AllocError>
        requires from { from ≤ last self.now }
        requires to { to ≤ last self.now }
        ensures { IfOk result (λ legs. legs.items ≡ path self.now from to) }
    {
        let mut legs = Vec::new(alloc);
        let mut ahead = Vec::new(alloc);
        let mut from = from;
        let mut to = to;
        while from != to {
            if from > to {
                legs.push(Leg::Back(from))?;
                from = self.parent_below(from);
            } else {
                ahead.push(Leg::Ahead(to))?;
                to = self.parent_below(to);
            }
        }
        ahead.reverse();
        legs.append(&mut ahead)?;
        Ok(legs)
    }
}

// Makes room for one more change.
fn make_room<E>(changes: &mut Vec<(u64, E)>, entered: &mut Vec<u64>) -> Result<(), AllocError>
    ensures changes { changes.new.items ≡ changes.old.items }
    ensures entered { entered.new.items ≡ entered.old.items }
    ensures changes_room { OnOk result (vec_len changes.new < vec_capacity changes.new) }
    ensures entered_room { OnOk result (vec_len entered.new < vec_capacity entered.new) }
{
    changes.reserve(1)?;
    entered.reserve(1)
}
