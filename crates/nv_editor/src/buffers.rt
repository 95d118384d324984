//! Buffers by rising handles.
ghost use Rattle.std.specs.Prelude.{◌≡◌, ℕ, ◌+◌, ◌^◌, ◌<◌, ◌≤◌, ◌∷◌, ◌++◌, ◌+ℤ◌, ◌<ℤ◌, ◌≤ℤ◌, [], length, take, pos, true, false, All, IfOk, IfSome, OnOk, OnErr, MatchOption, None, Some, List, bytes_eq, is_some, slice_get};
ghost use Rattle.std.specs.List.{list_any};
ghost use Rattle.nv_places.specs.Places.{is_before};
ghost use Rattle.nv_marks.specs.Marks.{mark_at};
ghost use Rattle.nv_undo.specs.Tree.{IsTree, tree_after_leg};
ghost use Rattle.nv_undo.specs.Ways.{IsNext};
ghost use Rattle.nv_buffer.specs.Changes.{Fits, text_at};
ghost use Rattle.nv_buffer.specs.Content.{after_edit, after_seal, event_at, fresh_content, next_part};
ghost use Rattle.nv_buffer.specs.Marks.{IsMarkIn, IsMarked, IsUnmarked, marks_cleared};
ghost use Rattle.nv_buffer.specs.Splices.{IsBufferText, IsInLine, IsNarrowLine, lines_between};
ghost use Rattle.nv_buffer.specs.Steps.{IsBuffer};
ghost use Rattle.nv_model.specs.Buffers.{rows_splice, text_splice};
ghost use Rattle.nv_model.specs.Deleting.{other_handles};
ghost use Rattle.nv_model.specs.Editors.{at_handle, handles_of};
ghost use Rattle.nv_windows.specs.Sound.{IsRisingFrom};
ghost use Rattle.nv_editor.specs.inside.Named.{AreNameCounts, is_of_name, is_other_named, number_named, with_one_of};
ghost use Rattle.nv_editor.specs.inside.Replacing.{IsTakenOut};
ghost use Rattle.nv_editor.specs.inside.Sealing.{HasSameEntries, after_seals, with_sealed};
ghost use Rattle.nv_editor.specs.inside.Table.{AreKeptBuffers, IsUpdatedAt, content_in};
ghost use Rattle.nv_editor.specs.inside.Splicing.{IsMadeOrLeft};

use crate::names::Names;
use nv_buffer::{Buffer, Edit, Line, LineList, Mark, Pos, Spliced};
use nv_undo::Leg;
use std::alloc::{AllocError, Global};
use std::collections::BTreeMap;
use std::collections::btree_map::Keys;
use std::marker::Model;

// Buffers under their handles.
type Items = BTreeMap<i64, Buffer>;

/// Buffers by rising handles, from 1.
#[derive(Drop)]
pub struct Buffers {
    items: Items,
    // How many of them have each name.
    names: Names,
}

impl Model for Buffers {
    ghost use Rattle.std.specs.Prelude.{List, ℤ};
    ghost use Rattle.nv_buffer.specs.Content.{Content};
    ghost use Rattle.nv_editor.specs.inside.Named.{AreNameCounts, number_named};

    ghost Value = { List (ℤ × Content) };

    ghost view = { λ b. b.items.entries };

    ghost invariant = { λ b. AreNameCounts b.names.counts (number_named b.items.entries) };
}

// The buffer of a handle.
fn find(buffers: &Items, handle: i64) -> Option<&Buffer>
    ensures { MatchOption result (at_handle buffers.now.entries handle ≡ None)
        (λ b. at_handle buffers.now.entries handle ≡ Some b.now) }
{
    buffers.get(&handle)
}

// The least handle of a buffer but one.
fn least_but(buffers: &Items, handle: i64) -> Option<i64>
    ensures { result ≡ slice_get (other_handles handle (handles_of buffers.now.entries)) 0 }
{
    for other in buffers.keys() {
        if *other != handle {
            return Some(*other);
        }
    }
    None
}

// The handle of a buffer that is looked for beside others.
#[derive(Clone, Copy)]
struct Handle {
    n: i64,
}

// Whether a buffer has a name.
fn has_name(buffer: &Buffer, name: &[u8]) -> bool
    ensures { result ≡ bytes_eq buffer.now.name name.now }
{
    buffer.name().as_slice() == name
}

// Whether a buffer but one has a name, by going over all.
fn any_other(buffers: &Items, one: Handle, name: &[u8]) -> bool
    ensures { result ≡ list_any (is_other_named one.n name.now) buffers.now.entries }
{
    for (handle, buffer) in buffers {
        if *handle != one.n && has_name(buffer, name) {
            return true;
        }
    }
    false
}

// Whether the buffer of a handle has a name.
fn is_own(buffers: &Items, one: Handle, name: &[u8]) -> bool
    ensures { result ≡ is_of_name name.now (at_handle buffers.now.entries one.n) }
{
    match find(buffers, one.n) {
        Some(buffer) => has_name(buffer, name),
        None => false,
    }
}

// Whether a buffer but one has a name that so many buffers have.
fn is_more(buffers: &Items, one: Handle, name: &[u8], number: u64) -> bool
    requires rising { IsRisingFrom (pos 1) (handles_of buffers.now.entries) }
    requires number { number ≡ number_named buffers.now.entries name.now }
    ensures { result ≡ list_any (is_other_named one.n name.now) buffers.now.entries }
{
    let own = is_own(buffers, one, name);
    number > u64::from(own)
}

// Whether a buffer but one has a name, of which so many buffers have it, where that is known.
fn is_other_among(buffers: &Items, one: Handle, name: &[u8], number: Option<u64>) -> bool
    requires rising { IsRisingFrom (pos 1) (handles_of buffers.now.entries) }
    requires number { IfSome number (λ number. number ≡ number_named buffers.now.entries name.now) }
    ensures { result ≡ list_any (is_other_named one.n name.now) buffers.now.entries }
{
    match number {
        Some(number) => is_more(buffers, one, name, number),
        None => any_other(buffers, one, name),
    }
}

// How many buffers have a name, where that is known. The empty name is looked up nowhere.
fn known_number(names: &Names, name: &[u8]) -> Option<u64>
    ensures { IfSome result (λ number. (numbers : List ℕ → ℕ)
        → AreNameCounts names.now.counts numbers → number ≡ numbers name.now) }
{
    if name.len() == 0 {
        return None;
    }
    names.number(name)
}

// A buffer gets another name.
fn rename(names: &mut Names, buffer: &Buffer, name: &Line)
    ensures { (numbers : List ℕ → ℕ)
        → AreNameCounts names.old.counts (with_one_of buffer.now.name numbers)
        → AreNameCounts names.new.counts (with_one_of name.now numbers) }
{
    names.take(buffer.name().as_slice());
    names.add(name.as_slice());
}

impl Buffers {
    /// Buffer 1, which is empty.
    pub fn new(alloc: Global) -> Result<Buffers, AllocError>
        ensures { IfOk result (λ b. b ≡ (pos 1, fresh_content (pos 1) true) ∷ []) }
    {
        let mut items = BTreeMap::new(alloc);
        items.insert(1, Buffer::new(alloc, 1)?)?;
        Ok(Buffers {
            items,
            names: Names::new(alloc),
        })
    }

    /// How many buffers there are.
    pub fn count(&self) -> usize
        ensures { result ≡ length self.now }
    {
        self.items.len()
    }

    /// The handles of the buffers, rising.
    pub fn handles(&self) -> Keys<'_, i64, Buffer>
        ensures { result ≡ handles_of self.now }
    {
        self.items.keys()
    }

    /// Whether a buffer but one has a name.
    pub fn is_named_other(&self, handle: i64, name: &[u8]) -> bool
        requires { IsRisingFrom (pos 1) (handles_of self.now) }
        ensures { result ≡ list_any (λ k. is_of_name name.now (at_handle self.now k))
            (other_handles handle (handles_of self.now)) }
    {
        let number = known_number(&self.names, name);
        is_other_among(&self.items, Handle { n: handle }, name, number)
    }

    /// Puts the name of a buffer that is there.
    pub fn put_name(&mut self, handle: i64, name: Line)
        requires there { is_some (at_handle self.old handle) ≡ true }
        ensures updated { IsUpdatedAt handle self.old self.new }
        ensures buffer { content_in self.new handle
            ≡ record (content_in self.old handle) { name = name } }
    {
        let Some(buffer) = self.items.get_mut(&handle) else {
            unreachable!();
        };
        rename(&mut self.names, buffer, &name);
        buffer.put_name(name);
    }

    /// Puts 'modifiable' of a buffer that is there.
    pub fn put_modifiable(&mut self, handle: i64, on: bool)
        requires there { is_some (at_handle self.old handle) ≡ true }
        ensures updated { IsUpdatedAt handle self.old self.new }
        ensures buffer { content_in self.new handle
            ≡ record (content_in self.old handle) { modifiable = on } }
    {
        let Some(buffer) = self.items.get_mut(&handle) else {
            unreachable!();
        };
        buffer.put_modifiable(on);
    }

    /// Puts 'modified' of a buffer that is there.
    pub fn put_modified(&mut self, handle: i64, on: bool)
        requires there { is_some (at_handle self.old handle) ≡ true }
        ensures updated { IsUpdatedAt handle self.old self.new }
        ensures buffer { content_in self.new handle
            ≡ record (content_in self.old handle) { modified = on } }
    {
        let Some(buffer) = self.items.get_mut(&handle) else {
            unreachable!();
        };
        buffer.put_modified(on);
    }

    /// Puts 'buflisted' of a buffer that is there.
    pub fn put_listed(&mut self, handle: i64, on: bool)
        requires there { is_some (at_handle self.old handle) ≡ true }
        ensures updated { IsUpdatedAt handle self.old self.new }
        ensures buffer { content_in self.new handle
            ≡ record (content_in self.old handle) { listed = on } }
    {
        let Some(buffer) = self.items.get_mut(&handle) else {
            unreachable!();
        };
        buffer.put_listed(on);
    }

    /// Puts 'tabstop' of a buffer that is there.
    pub fn put_tabstop(&mut self, handle: i64, cells: u32)
        requires there { is_some (at_handle self.old handle) ≡ true }
        requires least { 1 ≤ cells }
        requires greatest { cells ≤ 9999 }
        ensures updated { IsUpdatedAt handle self.old self.new }
        ensures buffer { content_in self.new handle
            ≡ record (content_in self.old handle) { tabstop = cells } }
    {
        let Some(buffer) = self.items.get_mut(&handle) else {
            unreachable!();
        };
        buffer.put_tabstop(cells);
    }

    /// Puts lines in place of rows of a buffer that is there, as `Buffer::put_lines`.
    pub fn splice_lines(
        &mut self,
        handle: i64,
        from: usize,
        to: usize,
        new: LineList,
    ) -> Result<Option<Spliced>, AllocError>
        requires there { is_some (at_handle self.old handle) ≡ true }
        requires order { from ≤ to }
        requires within { to ≤ length (content_in self.old handle).text }
        requires left { to < from + length new + length (content_in self.old handle).text }
        requires count { from + length new + length (content_in self.old handle).text
            < to + 2 ^ 32 }
        requires columns { All IsNarrowLine new }
        requires tick { ¬ ((from ≡ to) × (new ≡ []))
            → (content_in self.old handle).tick <ℤ i64.MAX }
        ensures updated { IsUpdatedAt handle self.old self.new }
        ensures made { IfOk result (λ made. IsMadeOrLeft made (content_in self.old handle)
            (content_in self.new handle)
            (rows_splice (next_part (content_in self.old handle))
            (content_in self.old handle).text from to new)) }
        ensures err { OnErr result
            (content_in self.new handle ≡ content_in self.old handle) }
    {
        let Some(buffer) = self.items.get_mut(&handle) else {
            unreachable!();
        };
        buffer.known();
        let made = buffer.put_lines(from, to, new);
        buffer.known();
        made
    }

    /// Puts lines between two places of a buffer that is there, as `Buffer::put_text`.
    pub fn splice_text(
        &mut self,
        handle: i64,
        start: Pos,
        stop: Pos,
        new: LineList,
    ) -> Result<Option<Spliced>, AllocError>
        requires there { is_some (at_handle self.old handle) ≡ true }
        requires start_in { IsInLine (content_in self.old handle).text start }
        requires stop_in { IsInLine (content_in self.old handle).text stop }
        requires order { is_before stop start ≡ false }
        requires some_line { 0 < length new }
        requires count { start.row + length new + length (content_in self.old handle).text
            < stop.row + 1 + 2 ^ 32 }
        requires columns { All IsNarrowLine
            (lines_between (content_in self.old handle).text start stop new) }
        requires tick { ¬ ((start ≡ stop) × (new ≡ [] ∷ []))
            → (content_in self.old handle).tick <ℤ i64.MAX }
        ensures updated { IsUpdatedAt handle self.old self.new }
        ensures made { IfOk result (λ made. IsMadeOrLeft made (content_in self.old handle)
            (content_in self.new handle)
            (text_splice (next_part (content_in self.old handle))
            (content_in self.old handle).text start stop new)) }
        ensures err { OnErr result
            (content_in self.new handle ≡ content_in self.old handle) }
    {
        let Some(buffer) = self.items.get_mut(&handle) else {
            unreachable!();
        };
        buffer.known();
        let made = buffer.put_text(start, stop, new);
        buffer.known();
        made
    }

    /// Makes an edit that fits a buffer that is there, as `Buffer::put_edit`.
    pub fn put_edit(&mut self, handle: i64, edit: Edit) -> Result<Spliced, AllocError>
        requires there { is_some (at_handle self.old handle) ≡ true }
        requires fits { Fits (content_in self.old handle).text edit }
        requires tick { (content_in self.old handle).tick <ℤ i64.MAX }
        ensures updated { IsUpdatedAt handle self.old self.new }
        ensures ok { OnOk result
            (content_in self.new handle ≡ after_edit (content_in self.old handle) edit) }
        ensures told { IfOk result
            (λ event. event ≡ event_at ((content_in self.old handle).tick +ℤ pos 1) edit) }
        ensures err { OnErr result
            (content_in self.new handle ≡ content_in self.old handle) }
    {
        let Some(buffer) = self.items.get_mut(&handle) else {
            unreachable!();
        };
        buffer.put_edit(edit)
    }

    /// Goes a leg in the tree of a buffer that is there, as `Buffer::arrive`.
    pub fn arrive(&mut self, handle: i64, leg: Leg)
        requires there { is_some (at_handle self.old handle) ≡ true }
        requires next { IsNext (content_in self.old handle).undo leg }
        requires text { (content_in self.old handle).text
            ≡ text_at (content_in self.old handle).undo
            (tree_after_leg leg (content_in self.old handle).undo).current }
        ensures updated { IsUpdatedAt handle self.old self.new }
        ensures buffer { content_in self.new handle ≡ record (content_in self.old handle) {
          modified = true;
          undo = tree_after_leg leg (content_in self.old handle).undo;
          unsealed = [];
        } }
    {
        let Some(buffer) = self.items.get_mut(&handle) else {
            unreachable!();
        };
        buffer.arrive(leg);
    }

    /// Closes the open change of a buffer that is there.
    pub fn seal(&mut self, handle: i64) -> Result<(), AllocError>
        requires there { is_some (at_handle self.old handle) ≡ true }
        ensures updated { IsUpdatedAt handle self.old self.new }
        ensures ok { OnOk result
            (content_in self.new handle ≡ after_seal (content_in self.old handle)) }
        ensures sealed { OnOk result ((content_in self.new handle).unsealed ≡ []) }
        ensures err { OnErr result
            (content_in self.new handle ≡ content_in self.old handle) }
        ensures known { let b = content_in self.old handle in
            IsBuffer b.text b.tick b.undo b.unsealed }
    {
        let Some(buffer) = self.items.get_mut(&handle) else {
            unreachable!();
        };
        buffer.known();
        buffer.seal()
    }

    /// Sets a mark of a buffer that is there, as `Buffer::set_mark`.
    pub fn set_mark(&mut self, handle: i64, mark: Mark) -> Result<(), AllocError>
        requires there { is_some (at_handle self.old handle) ≡ true }
        requires places { IsMarkIn (content_in self.old handle).text mark }
        ensures updated { IsUpdatedAt handle self.old self.new }
        ensures marks { OnOk result
            (IsMarked (content_in self.old handle).marks (content_in self.new handle).marks mark) }
        ensures rest { content_in self.new handle ≡ record (content_in self.old handle) {
          marks = (content_in self.new handle).marks;
        } }
        ensures err { OnErr result
            (content_in self.new handle ≡ content_in self.old handle) }
    {
        let Some(buffer) = self.items.get_mut(&handle) else {
            unreachable!();
        };
        buffer.set_mark(mark)
    }

    /// Removes a mark of a buffer that is there, as `Buffer::remove_mark`.
    pub fn remove_mark(&mut self, handle: i64, ns: u32, id: u32) -> Option<Mark>
        requires there { is_some (at_handle self.old handle) ≡ true }
        ensures updated { IsUpdatedAt handle self.old self.new }
        ensures taken { result ≡ mark_at (content_in self.old handle).marks.marks ns id }
        ensures marks { IsUnmarked (content_in self.old handle).marks
            (content_in self.new handle).marks ns id }
        ensures rest { content_in self.new handle ≡ record (content_in self.old handle) {
          marks = (content_in self.new handle).marks;
        } }
    {
        let Some(buffer) = self.items.get_mut(&handle) else {
            unreachable!();
        };
        buffer.remove_mark(ns, id)
    }

    /// Removes marks of a buffer that is there, as `Buffer::clear_marks`.
    pub fn clear_marks(
        &mut self,
        handle: i64,
        ns: Option<u32>,
        from: Pos,
        to: Pos,
    ) -> Result<(), AllocError>
        requires there { is_some (at_handle self.old handle) ≡ true }
        ensures updated { IsUpdatedAt handle self.old self.new }
        ensures ok { OnOk result (content_in self.new handle ≡ record (content_in self.old handle) {
          marks = marks_cleared ns from to (content_in self.old handle).marks;
        }) }
        ensures err { OnErr result
            (content_in self.new handle ≡ content_in self.old handle) }
    {
        let Some(buffer) = self.items.get_mut(&handle) else {
            unreachable!();
        };
        buffer.clear_marks(ns, from, to)
    }

    /// What is known of a buffer that is there. It does nothing.
    pub fn known(&self, handle: i64)
        requires { is_some (at_handle self.now handle) ≡ true }
        ensures buffer { IsBuffer (content_in self.now handle).text
            (content_in self.now handle).tick (content_in self.now handle).undo
            (content_in self.now handle).unsealed }
        ensures text { IsBufferText (content_in self.now handle).text }
    {
        match self.get(handle) {
            Some(buffer) => buffer.known(),
            None => unreachable!(),
        }
    }

    /// Closes the open change of a buffer, where the buffer is there.
    pub fn seal_there(&mut self, handle: i64) -> Result<(), AllocError>
        ensures ok { OnOk result (HasSameEntries self.new (with_sealed self.old handle)) }
        ensures err { OnErr result (HasSameEntries self.new self.old) }
        ensures tree { is_some (at_handle self.old handle) ≡ true
            → IsTree (content_in self.old handle).undo }
    {
        let Some(buffer) = self.items.get_mut(&handle) else {
            return Ok(());
        };
        buffer.known();
        buffer.seal()
    }

    /// Closes the open changes of buffers, where they are there.
    pub fn seal_each(&mut self, handles: &[i64]) -> Result<(), AllocError>
        requires { AreKeptBuffers handles.now self.old }
        ensures ok { OnOk result (HasSameEntries self.new (after_seals self.old handles.now)) }
        ensures partly { (n : ℕ) × HasSameEntries self.new
            (after_seals self.old (take n handles.now)) }
        ensures kept { AreKeptBuffers handles.now self.new }
    {
        for handle in handles {
            self.seal_there(*handle)?;
        }
        Ok(())
    }

    /// Makes an empty buffer of a handle above all others. Where memory is wanting nothing changes.
    pub fn make(&mut self, alloc: Global, handle: i64, listed: bool) -> Result<(), AllocError>
        requires least { pos 1 ≤ℤ handle }
        requires above { All (λ k. k <ℤ handle) (handles_of self.old) }
        ensures ok { OnOk result
            (self.new ≡ self.old ++ (handle, fresh_content handle listed) ∷ []) }
        ensures err { OnErr result (self.new ≡ self.old) }
    {
        let mut buffer = Buffer::new(alloc, handle)?;
        buffer.put_listed(listed);
        self.items.insert(handle, buffer)?;
        Ok(())
    }

    /// Takes a buffer out that is there.
    pub fn take_out(&mut self, handle: i64)
        requires { is_some (at_handle self.old handle) ≡ true }
        ensures { IsTakenOut self.old self.new handle }
    {
        if let Some(buffer) = self.items.remove(&handle) {
            self.names.take(buffer.name().as_slice());
        }
    }

    /// The least handle but one.
    pub fn least_other(&self, handle: i64) -> Option<i64>
        ensures { result ≡ slice_get (other_handles handle (handles_of self.now)) 0 }
    {
        least_but(&self.items, handle)
    }

    /// The buffer of a handle.
    pub fn get(&self, handle: i64) -> Option<&Buffer>
        ensures { MatchOption result (at_handle self.now handle ≡ None)
            (λ b. at_handle self.now handle ≡ Some b.now) }
    {
        find(&self.items, handle)
    }
}
