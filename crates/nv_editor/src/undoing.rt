//! Undo, redo, and undo to a number (help: undo-tree).
ghost use Rattle.std.specs.Prelude.{◌≡◌, ℕ, ℤ, ◌+◌, ◌^◌, ◌<◌, ◌≤◌, ◌≤ℤ◌, ◌<ℤ◌, ◌+ℤ◌, ◌++◌, ◌∷◌, [], pos, true, false, flat_map, length, map, slice_get, IfOk, IfSome, OnOk, Some, is_some};
ghost use Rattle.nv_value.specs.Content.{nil};
ghost use Rattle.nv_undo.specs.Tree.{last, parent_of, child_of, path, tree_after_leg};
ghost use Rattle.nv_undo.specs.Ways.{IsNext, Leads, undo_legs, redo_legs, legs_to};
ghost use Rattle.nv_buffer.specs.Changes.{Fits, leg_edits, text_at};
ghost use Rattle.nv_buffer.specs.Content.{IsAlong, after_seal, event_at, events_from, redo_edits, undo_edits, undo_to_edits};
ghost use Rattle.nv_buffer.specs.Splices.{IsBufferText};
ghost use Rattle.nv_buffer.specs.Steps.{IsBuffer};
ghost use Rattle.nv_model.specs.Editors.{at_handle};
ghost use Rattle.nv_model.specs.Seen.{sealed_undo};
ghost use Rattle.nv_model.specs.Standing.{IsEditOf, seen_buffer_now};
ghost use Rattle.nv_model.specs.Answers.{replied, edited, edits, undo_operations, undo_splices};
ghost use Rattle.nv_editor.specs.Doing.{Replies};
ghost use Rattle.nv_editor.specs.Sound.{IsSoundEditor, content_at, is_live_buffer};
ghost use Rattle.nv_editor.specs.inside.Kept.{AreKeptEdits};
ghost use Rattle.nv_editor.specs.inside.Table.{AreKeptBuffers, content_in, is_among};
ghost use Rattle.nv_editor.specs.inside.Walks.{IsArrived, IsEditMade, IsLegMade, IsSealedIn, IsWayGone, IsWayMade};

use crate::buffers::Buffers;
use crate::editor::Editor;
use crate::happened::{Fact, Happened};
use crate::stage::Stage;
use crate::views::carry_views;
use nv_buffer::{Buffer, Edit, Spliced};
use nv_undo::Leg;
use std::alloc::AllocError;

// Puts a handle among those of the buffers that may have an open change.
fn note_edited(noted: &mut Vec<i64>, buffer: i64) -> Result<(), AllocError>
    ensures noted { OnOk result (is_among buffer noted.new.items ≡ true) }
    ensures grows { (k : ℤ) → is_among k noted.new.items ≡ false
        → is_among k noted.old.items ≡ false }
{
    if noted.iter().any(|handle| *handle == buffer) {
        return Ok(());
    }
    noted.push(buffer)?;
    Ok(())
}

// Makes an edit that fits a buffer, and moves what its windows show.
fn make_edit(
    buffers: &mut Buffers,
    stage: &mut Stage,
    noted: &mut Vec<i64>,
    buffer: i64,
    edit: Edit,
) -> Result<Spliced, AllocError>
    requires there { is_some (at_handle buffers.old buffer) ≡ true }
    requires fits { Fits (content_in buffers.old buffer).text edit }
    requires edit { IsEditOf (content_in buffers.old buffer).text edit }
    requires tick { (content_in buffers.old buffer).tick <ℤ i64.MAX }
    requires known { let b = content_in buffers.old buffer in
        IsBuffer b.text b.tick b.undo b.unsealed }
    requires text { IsBufferText (content_in buffers.old buffer).text }
    requires sound { IsSoundEditor (record { buffers = buffers.old; stage = stage.old }) }
    requires kept { AreKeptBuffers noted.old.items buffers.old }
    ensures sound { IsSoundEditor (record { buffers = buffers.new; stage = stage.new }) }
    ensures kept { AreKeptBuffers noted.new.items buffers.new }
    ensures made { OnOk result (IsEditMade buffer edit
        (record { buffers = buffers.old; stage = stage.old })
        (record { buffers = buffers.new; stage = stage.new })) }
    ensures told { IfOk result
        (λ event. event ≡ event_at ((content_in buffers.old buffer).tick +ℤ pos 1) edit) }
{
    note_edited(noted, buffer)?;
    let spliced = buffers.put_edit(buffer, edit)?;
    carry_views(stage, buffers, buffer, &spliced.edit);
    Ok(spliced)
}

// The number of the last change of a buffer, once its open change is closed.
fn last_number(buffer: &Buffer) -> u64
    requires { length buffer.now.undo.changes < 2 ^ 63 }
    ensures { result ≡ last (after_seal buffer.now).undo }
{
    if buffer.unsealed_len() == 0 {
        return buffer.changes();
    }
    buffer.changes() + 1
}

impl Editor {
    // What is known of a live buffer.
    fn known_buffer(&self, buffer: i64)
        requires { is_live_buffer self.now buffer ≡ true }
        ensures buffer { let b = content_at self.now buffer in
            IsBuffer b.text b.tick b.undo b.unsealed }
        ensures text { IsBufferText (content_at self.now buffer).text }
        ensures edits { AreKeptEdits (content_at self.now buffer) }
        ensures small { length (content_at self.now buffer).undo.changes < 2 ^ 63 }
    {
        match self.buffers.get(buffer) {
            Some(content) => content.known(),
            None => unreachable!(),
        }
    }

    // Makes an edit that fits a live buffer, moves what its windows show, and tells it.
    fn make_edit(
        &mut self,
        buffer: i64,
        edit: Edit,
        happened: &mut Happened,
    ) -> Result<(), AllocError>
        requires live { is_live_buffer self.old buffer ≡ true }
        requires fits { Fits (content_at self.old buffer).text edit }
        requires edit { IsEditOf (content_at self.old buffer).text edit }
        requires tick { (content_at self.old buffer).tick <ℤ i64.MAX }
        requires known { let b = content_at self.old buffer in
            IsBuffer b.text b.tick b.undo b.unsealed }
        requires text { IsBufferText (content_at self.old buffer).text }
        ensures made { OnOk result (IsEditMade buffer edit self.old self.new) }
        ensures told { OnOk result (happened.new ≡ happened.old
            ++ edited buffer (event_at ((content_at self.old buffer).tick +ℤ pos 1) edit) ∷ []) }
    {
        let spliced = make_edit(
            &mut self.buffers,
            &mut self.stage,
            &mut self.edited,
            buffer,
            edit,
        )?;
        happened.push(Fact::Edited { buffer, spliced })?;
        Ok(())
    }

    // Closes the open change of a live buffer.
    fn seal_buffer(&mut self, buffer: i64) -> Result<(), AllocError>
        requires { is_live_buffer self.old buffer ≡ true }
        ensures sealed { OnOk result (IsSealedIn buffer self.old self.new) }
        ensures closed { OnOk result ((content_at self.new buffer).unsealed ≡ []) }
        ensures known { let b = content_at self.old buffer in
            IsBuffer b.text b.tick b.undo b.unsealed }
    {
        self.buffers.seal(buffer)?;
        Ok(())
    }

    // Goes a leg in the tree of a live buffer, once its edits are made.
    fn arrive(&mut self, buffer: i64, leg: Leg)
        requires live { is_live_buffer self.old buffer ≡ true }
        requires next { IsNext (content_at self.old buffer).undo leg }
        requires text { (content_at self.old buffer).text
            ≡ text_at (content_at self.old buffer).undo
            (tree_after_leg leg (content_at self.old buffer).undo).current }
        ensures { IsArrived buffer leg self.old self.new }
    {
        self.buffers.arrive(buffer, leg);
    }

    // How many edits a leg of a live buffer has.
    fn leg_len(&self, buffer: i64, leg: Leg) -> usize
        requires { is_live_buffer self.now buffer ≡ true }
        ensures len { result ≡ length (leg_edits (content_at self.now buffer).undo leg) }
        ensures known { let b = content_at self.now buffer in
            IsBuffer b.text b.tick b.undo b.unsealed }
        ensures edits { AreKeptEdits (content_at self.now buffer) }
    {
        match self.buffers.get(buffer) {
            Some(content) => {
                content.known();
                content.leg_len(leg)
            }
            None => unreachable!(),
        }
    }

    // An edit of a leg of a live buffer, by its place from 0, once those before it are made.
    fn leg_edit(&self, buffer: i64, leg: Leg, place: usize) -> Result<Edit, AllocError>
        requires live { is_live_buffer self.now buffer ≡ true }
        requires place { place < length (leg_edits (content_at self.now buffer).undo leg) }
        requires text { IsAlong (content_at self.now buffer) leg place }
        ensures edit { IfOk result (λ edit.
            slice_get (leg_edits (content_at self.now buffer).undo leg) place ≡ Some edit) }
        ensures known { let b = content_at self.now buffer in
            IsBuffer b.text b.tick b.undo b.unsealed }
        ensures text { IsBufferText (content_at self.now buffer).text }
    {
        match self.buffers.get(buffer) {
            Some(content) => {
                content.known();
                content.leg_edit(leg, place)
            }
            None => unreachable!(),
        }
    }

    // Goes a leg in the tree of a live buffer: makes its edits one after another, and tells them.
    fn go(&mut self, buffer: i64, leg: Leg, happened: &mut Happened) -> Result<(), AllocError>
        requires live { is_live_buffer self.old buffer ≡ true }
        requires closed { (content_at self.old buffer).unsealed ≡ [] }
        requires next { IsNext (content_at self.old buffer).undo leg }
        requires tick { let b = content_at self.old buffer in
            (b.tick +ℤ pos (length (leg_edits b.undo leg))) ≤ℤ i64.MAX }
        ensures gone { OnOk result (IsLegMade buffer leg self.old self.new) }
        ensures told { let b = content_at self.old buffer in
            OnOk result (happened.new ≡ happened.old
            ++ map (edited buffer) (events_from b.tick (leg_edits b.undo leg))) }
    {
        for place in 0..self.leg_len(buffer, leg) {
            let edit = self.leg_edit(buffer, leg, place)?;
            self.make_edit(buffer, edit, happened)?;
        }
        self.arrive(buffer, leg);
        Ok(())
    }

    // Goes a way in the tree of a live buffer.
    fn walk(&mut self, buffer: i64, legs: &[Leg], happened: &mut Happened) -> Result<(), AllocError>
        requires live { is_live_buffer self.old buffer ≡ true }
        requires closed { (content_at self.old buffer).unsealed ≡ [] }
        requires way { let b = content_at self.old buffer in
            (to : ℕ) × Leads b.undo b.undo.current legs.now to }
        requires tick { let b = content_at self.old buffer in
            (b.tick +ℤ pos (length (flat_map (leg_edits b.undo) legs.now))) ≤ℤ i64.MAX }
        requires known { let b = content_at self.old buffer in
            IsBuffer b.text b.tick b.undo b.unsealed }
        requires edits { AreKeptEdits (content_at self.old buffer) }
        ensures gone { OnOk result (IsWayMade buffer legs.now self.old self.new) }
        ensures told { let b = content_at self.old buffer in
            OnOk result (happened.new ≡ happened.old
            ++ map (edited buffer) (events_from b.tick (flat_map (leg_edits b.undo) legs.now))) }
    {
        for leg in legs {
            self.go(buffer, *leg, happened)?;
        }
        Ok(())
    }

    // Goes a way in the tree of a live buffer, as the model tells it.
    fn go_way(
        &mut self,
        buffer: i64,
        legs: &[Leg],
        happened: &mut Happened,
    ) -> Result<(), AllocError>
        requires live { is_live_buffer self.old buffer ≡ true }
        requires closed { (content_at self.old buffer).unsealed ≡ [] }
        requires way { let b = content_at self.old buffer in
            (to : ℕ) × Leads b.undo b.undo.current legs.now to }
        requires tick { let b = content_at self.old buffer in
            (b.tick +ℤ pos (length (flat_map (leg_edits b.undo) legs.now))) ≤ℤ i64.MAX }
        ensures { OnOk result (IsWayGone buffer legs.now self.old self.new
            happened.old happened.new) }
    {
        self.known_buffer(buffer);
        self.walk(buffer, legs, happened)?;
        Ok(())
    }

    // The current number of a live buffer.
    fn undone(&self, buffer: i64) -> u64
        requires { is_live_buffer self.now buffer ≡ true }
        ensures value { result ≡ (content_at self.now buffer).undo.current }
        ensures within { result ≤ last (content_at self.now buffer).undo }
    {
        match self.buffers.get(buffer) {
            Some(content) => content.undone(),
            None => unreachable!(),
        }
    }

    // The child last entered of the current number of a live buffer.
    fn child(&self, buffer: i64) -> Option<u64>
        requires { is_live_buffer self.now buffer ≡ true }
        ensures number { let b = content_at self.now buffer in
            result ≡ child_of b.undo b.undo.current }
        ensures child { let b = content_at self.now buffer in
            IfSome result (λ n. parent_of b.undo n ≡ Some b.undo.current) }
    {
        match self.buffers.get(buffer) {
            Some(content) => content.child(),
            None => unreachable!(),
        }
    }

    // The legs from the current number of a live buffer to another.
    fn legs_to(&self, buffer: i64, number: u64) -> Result<Vec<Leg>, AllocError>
        requires live { is_live_buffer self.now buffer ≡ true }
        requires within { number ≤ last (content_at self.now buffer).undo }
        ensures path { let b = content_at self.now buffer in
            IfOk result (λ legs. legs.items ≡ path b.undo b.undo.current number) }
        ensures way { let b = content_at self.now buffer in
            IfOk result (λ legs. Leads b.undo b.undo.current legs.items number) }
    {
        match self.buffers.get(buffer) {
            Some(content) => content.legs_to(number),
            None => unreachable!(),
        }
    }

    // The number of the last change of a live buffer, once its open change is closed.
    fn last_number(&self, buffer: i64) -> u64
        requires live { is_live_buffer self.now buffer ≡ true }
        requires small { length (content_at self.now buffer).undo.changes < 2 ^ 63 }
        ensures { result ≡ last (after_seal (content_at self.now buffer)).undo }
    {
        match self.buffers.get(buffer) {
            Some(content) => last_number(content),
            None => unreachable!(),
        }
    }

    // How many splices undo, redo, and undo to a number would make.
    fn splices_back(&self, buffer: i64) -> u64
        requires { is_live_buffer self.now buffer ≡ true }
        ensures count { result ≡ length (undo_edits (content_at self.now buffer)) }
        ensures known { let b = content_at self.now buffer in
            IsBuffer b.text b.tick b.undo b.unsealed }
    {
        match self.buffers.get(buffer) {
            Some(content) => {
                content.known();
                content.cost_back()
            }
            None => unreachable!(),
        }
    }

    fn splices_ahead(&self, buffer: i64) -> u64
        requires { is_live_buffer self.now buffer ≡ true }
        ensures count { result ≡ length (redo_edits (content_at self.now buffer)) }
        ensures known { let b = content_at self.now buffer in
            IsBuffer b.text b.tick b.undo b.unsealed }
    {
        match self.buffers.get(buffer) {
            Some(content) => {
                content.known();
                content.cost_ahead()
            }
            None => unreachable!(),
        }
    }

    fn splices_to(&self, buffer: i64, number: u64) -> u64
        requires live { is_live_buffer self.now buffer ≡ true }
        requires within { number ≤ last (after_seal (content_at self.now buffer)).undo }
        ensures { result ≡ length (undo_to_edits number (content_at self.now buffer)) }
    {
        match self.buffers.get(buffer) {
            Some(content) => content.cost_to(number),
            None => unreachable!(),
        }
    }

    /// The number of the last change of a live buffer, once its open change is closed. Changes are
    /// numbered from 1, and 0 is the text at first (help: undo-tree).
    pub fn changes(&self, buffer: i64) -> u64
        requires { is_live_buffer self.now buffer ≡ true }
        ensures { result ≡ last (sealed_undo (seen_buffer_now (content_at self.now buffer))) }
    {
        self.known_buffer(buffer);
        self.last_number(buffer)
    }

    /// How many splices `undo` would make.
    pub fn cost_back(&self, buffer: i64) -> u64
        requires { is_live_buffer self.now buffer ≡ true }
        ensures { let s = seen_buffer_now (content_at self.now buffer) in
            result ≡ length (undo_splices s (undo_legs (sealed_undo s))) }
    {
        self.splices_back(buffer)
    }

    /// How many splices `redo` would make.
    pub fn cost_ahead(&self, buffer: i64) -> u64
        requires { is_live_buffer self.now buffer ≡ true }
        ensures { let s = seen_buffer_now (content_at self.now buffer) in
            result ≡ length (undo_splices s (redo_legs (sealed_undo s))) }
    {
        self.splices_ahead(buffer)
    }

    /// How many splices `undo_to` would make.
    pub fn cost_to(&self, buffer: i64, number: u64) -> u64
        requires live { is_live_buffer self.now buffer ≡ true }
        requires within { number
            ≤ last (sealed_undo (seen_buffer_now (content_at self.now buffer))) }
        ensures { let s = seen_buffer_now (content_at self.now buffer) in
            result ≡ length (undo_splices s (legs_to number (sealed_undo s))) }
    {
        self.known_buffer(buffer);
        self.splices_to(buffer, number)
    }

    /// Takes the current change of a live buffer back, once its open change is closed (help:
    /// :undo). At 0 nothing more changes.
    pub fn undo(&mut self, buffer: i64, happened: &mut Happened) -> Result<(), AllocError>
        requires live { is_live_buffer self.old buffer ≡ true }
        requires tick { let b = content_at self.old buffer in let s = seen_buffer_now b in
            (b.tick +ℤ pos (length (undo_splices s (undo_legs (sealed_undo s))))) ≤ℤ i64.MAX }
        ensures { let s = seen_buffer_now (content_at self.old buffer) in
            let legs = undo_legs (sealed_undo s) in
            OnOk result (Replies
            (replied nil (undo_operations buffer s legs) (edits buffer s (undo_splices s legs)))
            nil self.old self.new happened.old happened.new) }
    {
        self.seal_buffer(buffer)?;
        match self.undone(buffer) {
            0 => {
                self.go_way(buffer, [].as_slice(), happened)?;
                Ok(())
            }
            current => {
                self.go_way(buffer, [Leg::Back(current)].as_slice(), happened)?;
                Ok(())
            }
        }
    }

    /// Makes the child last entered of the current change of a live buffer again, once its open
    /// change is closed (help: :redo). Where there is none nothing more changes.
    pub fn redo(&mut self, buffer: i64, happened: &mut Happened) -> Result<(), AllocError>
        requires live { is_live_buffer self.old buffer ≡ true }
        requires tick { let b = content_at self.old buffer in let s = seen_buffer_now b in
            (b.tick +ℤ pos (length (undo_splices s (redo_legs (sealed_undo s))))) ≤ℤ i64.MAX }
        ensures { let s = seen_buffer_now (content_at self.old buffer) in
            let legs = redo_legs (sealed_undo s) in
            OnOk result (Replies
            (replied nil (undo_operations buffer s legs) (edits buffer s (undo_splices s legs)))
            nil self.old self.new happened.old happened.new) }
    {
        self.seal_buffer(buffer)?;
        match self.child(buffer) {
            None => {
                self.go_way(buffer, [].as_slice(), happened)?;
                Ok(())
            }
            Some(child) => {
                self.go_way(buffer, [Leg::Ahead(child)].as_slice(), happened)?;
                Ok(())
            }
        }
    }

    /// Goes to a change of a live buffer by its number, or to its first text where that is 0, once
    /// its open change is closed (help: :undo).
    pub fn undo_to(
        &mut self,
        buffer: i64,
        number: u64,
        happened: &mut Happened,
    ) -> Result<(), AllocError>
        requires live { is_live_buffer self.old buffer ≡ true }
        requires within { number
            ≤ last (sealed_undo (seen_buffer_now (content_at self.old buffer))) }
        requires tick { let b = content_at self.old buffer in let s = seen_buffer_now b in
            (b.tick +ℤ pos (length (undo_splices s (legs_to number (sealed_undo s))))) ≤ℤ i64.MAX }
        ensures { let s = seen_buffer_now (content_at self.old buffer) in
            let legs = legs_to number (sealed_undo s) in
            OnOk result (Replies
            (replied nil (undo_operations buffer s legs) (edits buffer s (undo_splices s legs)))
            nil self.old self.new happened.old happened.new) }
    {
        self.seal_buffer(buffer)?;
        let legs = self.legs_to(buffer, number)?;
        self.go_way(buffer, legs.as_slice(), happened)?;
        Ok(())
    }
}
