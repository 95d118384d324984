// A buffer.
ghost use Rattle.std.specs.Prelude.{◌≡◌, ◌+◌, ◌-◌, ◌^◌, ◌<◌, ◌≤◌, ◌↔◌, ◌<ℤ◌, ◌+ℤ◌, pos, suc, true, false, [], ◌∷◌, filter, is_some, length, All, Some, slice_get, IsTrue, IsSome, IfSome, IfOk, OnOk, OnErr, vec_len, vec_capacity};
ghost use Rattle.std.specs.List.{join_with_byte};
ghost use Rattle.std.specs.Map.{lookup};
ghost use Rattle.nv_places.specs.Flat.{flat, IsLine};
ghost use Rattle.nv_places.specs.Places.{offset_of, is_before, further, IsNarrow};
ghost use Rattle.nv_lines.specs.Text.{IsText};
ghost use Rattle.nv_marks.specs.Keeping.{kept_marks};
ghost use Rattle.nv_marks.specs.Marks.{mark_at};
ghost use Rattle.nv_marks.specs.Moves.{MovesNarrowly};
ghost use Rattle.nv_marks.specs.Striking.{struck_of};
ghost use Rattle.nv_buffer.specs.Splices.{IsBufferText, IsInLine, IsNarrowLine, IsNarrowText, lines_between};
ghost use Rattle.nv_buffer.specs.Marks.{AreMarksIn, IsMarkIn, IsMarked, IsUnmarked, marks_after, marks_cleared};
ghost use Rattle.nv_buffer.specs.Changes.{rows_edit, text_edit, Fits, text_at, edits_of, leg_edits};
ghost use Rattle.nv_buffer.specs.Content.{IsEdit, fresh_content, after_edit, event_at, next_part, rows_event, text_event, after_seal, IsAlong};
ghost use Rattle.nv_buffer.specs.KeptMarks.{is_kept_in, is_of_part, kept_at, with_part};
ghost use Rattle.nv_buffer.specs.Rooms.{kept_entries};
ghost use Rattle.nv_buffer.specs.Steps.{IsBuffer, kept_count};
ghost use Rattle.nv_undo.specs.Tree.{last, tree_after_leg, parent_of, child_of, path};
ghost use Rattle.nv_undo.specs.Ways.{Leads, origin, IsNext};
ghost use Rattle.nv_undo.specs.declared.legs.Leg.TheVariants.{Back, Ahead};

use crate::edit::{ChangePart, Edit};
use crate::joining::{around, is_one_empty, joined};
use crate::kept_marks::{KeptMarks, keep_in};
use crate::patch::Patch;
use crate::reaching::{extent_between, flat_len_of, joined_reach, rows_reached};
use crate::step::{Change, Step};
use nv_lines::{Line, LineList, Lines};
use nv_marks::{Kept, Mark, MarkSet, Struck};
use nv_places::Pos;
use nv_undo::{Leg, UndoTree};
use std::alloc::{AllocError, Global};
use std::marker::Model;
use std::mem;

/// An edit of a buffer's text as it is told, with the part of a change that it is, and the
/// changedtick after it (help: nvim_buf_lines_event).
#[derive(Drop)]
pub struct Spliced {
    pub tick: i64,
    pub edit: Edit,
}

/// A buffer: its text, its changedtick, its name, its options and its handle, its marks and its
/// changes. The text has a line at least, and its rows and columns are numbers of 32 bits. Start
/// and end of each mark are places of the text.
#[derive(Drop)]
pub struct Buffer {
    alloc: Global,
    handle: i64,
    text: Lines,
    tick: i64,
    name: Line,
    modifiable: bool,
    modified: bool,
    listed: bool,
    tabstop: u32,
    marks: MarkSet,
    // What the last step of each part of each change kept of marks.
    kept: KeptMarks,
    tree: UndoTree<Change>,
    // The steps that were made since the last change was closed.
    unsealed: Vec<Step>,
}

impl Model for Buffer {
    ghost use Rattle.std.specs.Prelude.{◌≤◌};
    ghost use Rattle.nv_buffer.specs.Splices.{IsNarrowText};
    ghost use Rattle.nv_buffer.specs.Content.{Content};
    ghost use Rattle.nv_buffer.specs.Marks.{AreMarksIn};
    ghost use Rattle.nv_buffer.specs.Rooms.{kept_entries};
    ghost use Rattle.nv_buffer.specs.Steps.{tree_ahead, edits_since, IsBuffer, AllLeadBack};

    ghost Value = { Content };

    ghost view = { λ b. record {
      handle = b.handle;
      text = b.text;
      tick = b.tick;
      name = b.name;
      modifiable = b.modifiable;
      modified = b.modified;
      listed = b.listed;
      tabstop = b.tabstop;
      marks = b.marks;
      kept = kept_entries b.kept;
      undo = tree_ahead b.tree;
      unsealed = edits_since b.tree b.unsealed.items;
    } };

    ghost invariant = { λ b. IsNarrowText b.text × (1 ≤ b.tabstop) × (b.tabstop ≤ 9999)
        × IsBuffer b.text b.tick (tree_ahead b.tree) (edits_since b.tree b.unsealed.items)
        × AllLeadBack b.tree b.unsealed.items
        × AreMarksIn b.text b.marks };
}

impl Buffer {
    /// A buffer with one empty line, no name, changedtick 2, 'tabstop' 8, modifiable, not modified,
    /// listed, without marks and without changes.
    pub fn new(alloc: Global, handle: i64) -> Result<Buffer, AllocError>
        ensures { IfOk result (λ buffer. buffer ≡ fresh_content handle true) }
    {
        let text = Lines::new(alloc)?;
        let name = Line::new(alloc)?;
        let marks = MarkSet::new(alloc)?;
        Ok(Buffer {
            alloc,
            handle,
            text,
            tick: 2,
            name,
            modifiable: true,
            modified: false,
            listed: true,
            tabstop: 8,
            marks,
            kept: KeptMarks::new(alloc),
            tree: UndoTree::new(alloc)?,
            unsealed: Vec::new(alloc),
        })
    }

    /// The number that names this buffer in calls and events.
    pub fn handle(&self) -> i64
        ensures { result ≡ self.now.handle }
    {
        self.handle
    }

    /// The lines.
    pub fn text(&self) -> &Lines
        ensures value { result.now ≡ self.now.text }
        ensures narrow { IsNarrowText result.now }
    {
        &self.text
    }

    /// The changedtick: 2 at first, and one more after each splice.
    pub fn tick(&self) -> i64
        ensures { result ≡ self.now.tick }
    {
        self.tick
    }

    /// The name, which may be empty.
    pub fn name(&self) -> &Line
        ensures { result.now ≡ self.now.name }
    {
        &self.name
    }

    pub fn put_name(&mut self, name: Line)
        ensures { self.new ≡ record self.old { name = name } }
    {
        self.name = name;
    }

    /// Whether the text may be changed by a client (help: 'modifiable').
    pub fn modifiable(&self) -> bool
        ensures { result ≡ self.now.modifiable }
    {
        self.modifiable
    }

    pub fn put_modifiable(&mut self, on: bool)
        ensures { self.new ≡ record self.old { modifiable = on } }
    {
        self.modifiable = on;
    }

    /// Whether the text was changed since this was last unset (help: 'modified').
    pub fn modified(&self) -> bool
        ensures { result ≡ self.now.modified }
    {
        self.modified
    }

    pub fn put_modified(&mut self, on: bool)
        ensures { self.new ≡ record self.old { modified = on } }
    {
        self.modified = on;
    }

    /// Whether the buffer is shown in lists of buffers (help: 'buflisted').
    pub fn listed(&self) -> bool
        ensures { result ≡ self.now.listed }
    {
        self.listed
    }

    pub fn put_listed(&mut self, on: bool)
        ensures { self.new ≡ record self.old { listed = on } }
    {
        self.listed = on;
    }

    /// How many cells a tab reaches at most, from 1 to 9,999 (help: 'tabstop').
    pub fn tabstop(&self) -> u32
        ensures value { result ≡ self.now.tabstop }
        ensures least { 1 ≤ result }
        ensures greatest { result ≤ 9999 }
    {
        self.tabstop
    }

    pub fn put_tabstop(&mut self, cells: u32)
        requires least { 1 ≤ cells }
        requires greatest { cells ≤ 9999 }
        ensures { self.new ≡ record self.old { tabstop = cells } }
    {
        self.tabstop = cells;
    }

    /// The marks, in their order.
    pub fn marks(&self) -> &MarkSet
        ensures value { result.now ≡ self.now.marks }
        ensures places { AreMarksIn self.now.text result.now }
    {
        &self.marks
    }

    /// Sets a mark anew as a whole, where none of its namespace and id is or where it stands
    /// elsewhere (help: nvim_buf_set_extmark()). Where memory is wanting nothing changes.
    pub fn set_mark(&mut self, mark: Mark) -> Result<(), AllocError>
        requires places { IsMarkIn self.old.text mark }
        ensures marks { OnOk result (IsMarked self.old.marks self.new.marks mark) }
        ensures rest { self.new ≡ record self.old { marks = self.new.marks } }
        ensures err { OnErr result (self.new ≡ self.old) }
    {
        self.marks.set(mark)
    }

    /// Removes the mark of a namespace and id, and answers it. `None` exactly where there is none,
    /// and then nothing changes. Its id still counts for the next one.
    pub fn remove_mark(&mut self, ns: u32, id: u32) -> Option<Mark>
        ensures taken { result ≡ mark_at self.old.marks.marks ns id }
        ensures marks { IsUnmarked self.old.marks self.new.marks ns id }
        ensures rest { self.new ≡ record self.old { marks = self.new.marks } }
    {
        self.marks.remove(ns, id)
    }

    /// Removes the marks of a namespace, or of all, that start from `from` to `to`, both included
    /// (help: nvim_buf_clear_namespace()). Their ids still count for the next one. Where memory is
    /// wanting nothing changes.
    pub fn clear_marks(&mut self, ns: Option<u32>, from: Pos, to: Pos) -> Result<(), AllocError>
        ensures ok { OnOk result (self.new ≡ record self.old {
          marks = marks_cleared ns from to self.old.marks;
        }) }
        ensures err { OnErr result (self.new ≡ self.old) }
    {
        self.marks.clear(ns, from, to)
    }

    /// Puts `new` in place of the rows from `from` up to before `to` (help: nvim_buf_set_lines()).
    /// `None` exactly where no row is removed and no line put, and then nothing changes. Where
    /// memory is wanting nothing changes either.
    pub fn put_lines(
        &mut self,
        from: usize,
        to: usize,
        new: LineList,
    ) -> Result<Option<Spliced>, AllocError>
        requires order { from ≤ to }
        requires within { to ≤ length self.old.text }
        requires left { to < from + length new + length self.old.text }
        requires count { from + length new + length self.old.text < to + 2 ^ 32 }
        requires columns { All IsNarrowLine new }
        requires tick { ¬ ((from ≡ to) × (new ≡ [])) → self.old.tick <ℤ i64.MAX }
        ensures some { IfOk result (λ spliced. IsSome spliced ↔ ¬ ((from ≡ to) × (new ≡ []))) }
        ensures none { IfOk result (λ spliced. spliced ≡ None → self.new ≡ self.old) }
        ensures told { IfOk result (λ spliced.
            IfSome spliced (λ event. event ≡ rows_event self.old from to new)) }
        ensures edit { IfOk result (λ spliced.
            IfSome spliced (IsEdit self.old self.new (flat new))) }
        ensures err { OnErr result (self.new ≡ self.old) }
    {
        if from == to && new.is_empty() {
            return Ok(None);
        }
        let edit = self.rows_edit(from, to, new);
        Ok(Some(self.put_edit(edit)?))
    }

    // Lines put in place of rows, as an edit.
    fn rows_edit(&self, from: usize, to: usize, new: LineList) -> Edit
        requires order { from ≤ to }
        requires within { to ≤ length self.now.text }
        requires columns { All IsNarrowLine new }
        requires count { from + length new + length self.now.text < to + 2 ^ 32 }
        ensures edit { result ≡ rows_edit (next_part self.now) self.now.text from to new }
        ensures lines { All IsLine result.lines }
        ensures text { IsBufferText self.now.text }
    {
        self.known();
        let put = rows_reached(new.len());
        let bytes = flat_len_of(&new);
        let (at, old) = self.text.flat_span(from, to);
        Edit {
            first: from as u32,
            last: to as u32,
            lines: new,
            at,
            old,
            new: bytes,
            start: Pos {
                row: from as u32,
                col: 0,
            },
            removed: rows_reached(to - from),
            put,
            rows: true,
            part: self.next_part(),
        }
    }

    /// Puts `new` between two places, the second one exclusive (help: nvim_buf_set_text()): its
    /// first line joins what stands before `start`, its last line what stands from `stop` on.
    /// `None` exactly where the two places are one and
    /// `new` is one empty line, and then nothing changes. Where memory is wanting nothing changes
    /// either.
    pub fn put_text(
        &mut self,
        start: Pos,
        stop: Pos,
        new: LineList,
    ) -> Result<Option<Spliced>, AllocError>
        requires start_in { IsInLine self.old.text start }
        requires stop_in { IsInLine self.old.text stop }
        requires order { is_before stop start ≡ false }
        requires some_line { 0 < length new }
        requires count { start.row + length new + length self.old.text < stop.row + 1 + 2 ^ 32 }
        requires columns { All IsNarrowLine (lines_between self.old.text start stop new) }
        requires tick { ¬ ((start ≡ stop) × (new ≡ [] ∷ [])) → self.old.tick <ℤ i64.MAX }
        ensures some { IfOk result (λ spliced.
            IsSome spliced ↔ ¬ ((start ≡ stop) × (new ≡ [] ∷ []))) }
        ensures none { IfOk result (λ spliced. spliced ≡ None → self.new ≡ self.old) }
        ensures told { IfOk result (λ spliced.
            IfSome spliced (λ event. event ≡ text_event self.old start stop new)) }
        ensures edit { IfOk result (λ spliced.
            IfSome spliced (IsEdit self.old self.new (join_with_byte 10 new))) }
        ensures err { OnErr result (self.new ≡ self.old) }
    {
        if start == stop && is_one_empty(&new) {
            return Ok(None);
        }
        let edit = self.text_edit(start, stop, new)?;
        let spliced = self.put_edit(edit)?;
        Ok(Some(spliced))
    }

    // Lines put between two places, as an edit.
    fn text_edit(&self, start: Pos, stop: Pos, new: LineList) -> Result<Edit, AllocError>
        requires start_in { IsInLine self.now.text start }
        requires stop_in { IsInLine self.now.text stop }
        requires order { is_before stop start ≡ false }
        requires some_line { 0 < length new }
        requires count { start.row + length new + length self.now.text < stop.row + 1 + 2 ^ 32 }
        requires columns { All IsNarrowLine (lines_between self.now.text start stop new) }
        ensures edit { IfOk result
            (λ edit. edit ≡ text_edit (next_part self.now) self.now.text start stop new) }
        ensures lines { IfOk result (λ edit. All IsLine edit.lines) }
        ensures text { IsBufferText self.now.text }
    {
        self.known();
        let put = joined_reach(&new);
        let bytes = flat_len_of(&new) - 1;
        let lines = self.lines_between(start, stop, new)?;
        let _count = lines.len();
        Ok(Edit {
            first: start.row,
            last: stop.row + 1,
            lines,
            at: self.offset_of(start),
            old: self.bytes_between(start, stop),
            new: bytes,
            start,
            removed: extent_between(start, stop),
            put,
            rows: false,
            part: self.next_part(),
        })
    }

    // Which part of a change the next edit is.
    fn next_part(&self) -> ChangePart
        ensures { result ≡ next_part self.now }
    {
        ChangePart {
            change: self.next_change(),
            part: self.unsealed_len() as u64,
            back: false,
        }
    }

    /// Makes an edit that fits: in the text, the marks, and what is kept of it. Marks of which it
    /// removes all are struck, all others move, and those of which the step before of its part kept
    /// something are put back. Where memory is wanting nothing changes.
    pub fn put_edit(&mut self, edit: Edit) -> Result<Spliced, AllocError>
        requires fits { Fits self.old.text edit }
        requires tick { self.old.tick <ℤ i64.MAX }
        ensures ok { OnOk result (self.new ≡ after_edit self.old edit) }
        ensures told { IfOk result (λ event. event ≡ event_at (self.old.tick +ℤ pos 1) edit) }
        ensures err { OnErr result (self.new ≡ self.old) }
    {
        make_room(&mut self.unsealed)?;
        let met = marks_met(self.alloc, &self.marks, &mut self.kept, &edit)?;
        let told = edit.share()?;
        let patch = Patch::of(self.alloc, &self.text, &edit)?;
        let lines = edit.lines.share()?;
        let taken = self
            .text
            .replace(edit.first as usize, edit.last as usize, lines)?;
        carry_marks(&mut self.marks, &mut self.kept, &self.text, &edit, met);
        self.tick += 1;
        self.modified = true;
        self.unsealed.push_reserved(Step::new(patch, edit, taken));
        Ok(Spliced {
            tick: self.tick,
            edit: told,
        })
    }

    // The offset of a place in the flat text.
    fn offset_of(&self, place: Pos) -> u64
        requires { IsInLine self.now.text place }
        ensures { result ≡ offset_of self.now.text place }
    {
        self.text.offset(place.row as usize) + place.col as u64
    }

    // How many bytes of the flat text stand between two places.
    fn bytes_between(&self, start: Pos, stop: Pos) -> u64
        requires start_in { IsInLine self.now.text start }
        requires stop_in { IsInLine self.now.text stop }
        requires order { is_before stop start ≡ false }
        ensures { offset_of self.now.text start + result ≡ offset_of self.now.text stop }
    {
        let rows = self
            .text()
            .flat_len_between(start.row as usize, stop.row as usize);
        rows + stop.col as u64 - start.col as u64
    }

    // Lines put between two places, with what stands before and behind them in its rows.
    pub(crate) fn lines_between(
        &self,
        start: Pos,
        stop: Pos,
        new: LineList,
    ) -> Result<LineList, AllocError>
        requires start_in { IsInLine self.now.text start }
        requires stop_in { IsInLine self.now.text stop }
        requires some { 0 < length new }
        ensures { IfOk result (λ lines. lines ≡ lines_between self.now.text start stop new) }
    {
        let (front, back) = around(&self.text, start, stop);
        joined(self.alloc, front, new, back)
    }

    /// Closes the edits that were made since this was last called as one change: where there are
    /// any they are the next change, made at the current number, and that is current (help:
    /// undo-blocks). Where memory is wanting nothing changes.
    pub fn seal(&mut self) -> Result<(), AllocError>
        ensures ok { OnOk result (self.new ≡ after_seal self.old) }
        ensures sealed { OnOk result (self.new.unsealed ≡ []) }
        ensures err { OnErr result (self.new ≡ self.old) }
    {
        if self.unsealed.is_empty() {
            return Ok(());
        }
        let steps = mem::replace(&mut self.unsealed, Vec::new(self.alloc));
        match self.tree.push(Change::from_vec(steps)) {
            Ok(_) => Ok(()),
            Err((change, error)) => {
                self.unsealed = change.into_vec();
                Err(error)
            }
        }
    }

    /// The number of the current change: the text is that of this number with the edits made since
    /// the last change was closed. 0 is the text at first (help: undo-tree).
    pub fn undone(&self) -> u64
        ensures value { result ≡ self.now.undo.current }
        ensures within { result ≤ last self.now.undo }
    {
        self.tree.current()
    }

    /// The number of the last change. Changes are numbered from 1 in the order in which they were
    /// closed.
    pub fn changes(&self) -> u64
        ensures { result ≡ last self.now.undo }
    {
        self.tree.last()
    }

    // The number that the open change gets once it is closed.
    fn next_change(&self) -> u64
        ensures { result ≡ suc (last self.now.undo) }
    {
        self.tree.next()
    }

    /// What is known of each buffer, for callers whose proofs need it. It does nothing.
    pub fn known(&self)
        ensures buffer { IsBuffer self.now.text self.now.tick self.now.undo self.now.unsealed }
        ensures small { kept_count self.now.undo self.now.unsealed < 2 ^ 63 }
        ensures text { IsBufferText self.now.text }
    {
        let _ = &self.tree;
        let _tick = self.tick();
    }

    // What allocates.
    pub(crate) fn alloc(&self) -> Global {
        self.alloc
    }

    /// The number of edits since the last change was closed.
    pub fn unsealed_len(&self) -> usize
        ensures { result ≡ length self.now.unsealed }
    {
        self.unsealed.len()
    }

    // The number that a change was made at.
    pub(crate) fn origin(&self, n: u64) -> u64
        ensures { result ≡ origin self.now.undo n }
    {
        self.tree.parent(n).unwrap_or(0)
    }

    /// The child last entered of the current number (help: :redo).
    pub fn child(&self) -> Option<u64>
        ensures number { result ≡ child_of self.now.undo self.now.undo.current }
        ensures child { IfSome result
            (λ n. parent_of self.now.undo n ≡ Some self.now.undo.current) }
    {
        self.tree.child()
    }

    /// The legs from the current number to another, by their nearest common ancestor.
    pub fn legs_to(&self, n: u64) -> Result<Vec<Leg>, AllocError>
        requires { n ≤ last self.now.undo }
        ensures path { IfOk result (λ legs. legs.items
            ≡ path self.now.undo self.now.undo.current n) }
        ensures way { IfOk result (λ legs. Leads self.now.undo self.now.undo.current legs.items n) }
    {
        match self.tree.path_to(self.alloc, n)? {
            Some(legs) => Ok(legs),
            None => unreachable!(),
        }
    }

    // The number of edits of a change, and 0 where there is no such change.
    pub(crate) fn change_len(&self, n: u64) -> usize
        ensures { result ≡ length (edits_of self.now.undo n) }
    {
        match self.tree.change(n) {
            Some(change) => change.len(),
            None => 0,
        }
    }

    /// An edit of a leg once more, by its place from 0, once those before it are made.
    pub fn leg_edit(&self, leg: Leg, place: usize) -> Result<Edit, AllocError>
        requires place { place < length (leg_edits self.now.undo leg) }
        requires text { IsAlong self.now leg place }
        ensures { IfOk result (λ edit. slice_get (leg_edits self.now.undo leg) place ≡ Some edit) }
    {
        match leg {
            Leg::Back(n) => self.edit_back(n, place),
            Leg::Ahead(n) => self.edit_ahead(n, place),
        }
    }

    // An edit that takes a change back, by its place from 0: that of the last step comes first.
    fn edit_back(&self, n: u64, place: usize) -> Result<Edit, AllocError>
        requires place { place < length (edits_of self.now.undo n) }
        requires text { IsAlong self.now (Back n) place }
        ensures { IfOk result (λ edit.
            slice_get (leg_edits self.now.undo (Back n)) place ≡ Some edit) }
    {
        match self.tree.change(n) {
            Some(change) => change
                .step(change.len() - 1 - place)
                .back(self.alloc, &self.text),
            None => unreachable!(),
        }
    }

    // An edit of a change, by its place from 0.
    fn edit_ahead(&self, n: u64, place: usize) -> Result<Edit, AllocError>
        requires place { place < length (edits_of self.now.undo n) }
        requires text { IsAlong self.now (Ahead n) place }
        ensures { IfOk result (λ edit. slice_get (edits_of self.now.undo n) place ≡ Some edit) }
    {
        match self.tree.change(n) {
            Some(change) => change.step(place).ahead(self.alloc, &self.text),
            None => unreachable!(),
        }
    }

    /// Goes a leg in the tree, once its edits are made.
    pub fn arrive(&mut self, leg: Leg)
        requires next { IsNext self.old.undo leg }
        requires text { self.old.text
            ≡ text_at self.old.undo (tree_after_leg leg self.old.undo).current }
        ensures { self.new ≡ record self.old {
          modified = true;
          undo = tree_after_leg leg self.old.undo;
          unsealed = [];
        } }
    {
        go_leg(&mut self.tree, leg);
        self.modified = true;
        self.unsealed.clear();
    }
}

// Makes room for a step more. Most changes have one step, so the first makes room for one only.
fn make_room(steps: &mut Vec<Step>) -> Result<(), AllocError>
    ensures items { steps.new.items ≡ steps.old.items }
    ensures room { OnOk result (vec_len steps.new + 1 ≤ vec_capacity steps.new) }
{
    if steps.is_empty() {
        return steps.reserve_exact(1);
    }
    steps.reserve(1)
}

// Goes a leg in a tree.
fn go_leg(tree: &mut UndoTree<Change>, leg: Leg)
    requires { IsNext tree.old leg }
    ensures { tree.new ≡ tree_after_leg leg tree.old }
{
    match leg {
        Leg::Back(_) => {
            let _ = tree.back();
        }
        Leg::Ahead(n) => {
            let _ = tree.ahead(n);
        }
    }
}

// What an edit meets of the marks.
#[derive(Drop)]
struct MarksMet {
    // What is kept of them.
    found: Vec<Kept>,
    // Those of which it removes all.
    struck: Struck,
}

// What an edit meets of the marks. Room is made for what is kept of them.
fn marks_met(
    alloc: Global,
    marks: &MarkSet,
    before: &mut KeptMarks,
    by: &Edit,
) -> Result<MarksMet, AllocError>
    requires { IsNarrow (further by.now.start by.now.removed) }
    ensures same { kept_entries before.new ≡ kept_entries before.old }
    ensures found { IfOk result (λ met. met.found.items
        ≡ kept_marks by.now.start by.now.removed marks.now.marks) }
    ensures room { IfOk result (λ met. 0 < length met.found.items
        → is_some (lookup (is_of_part by.now.part) before.new) ≡ true) }
    ensures struck { IfOk result (λ met. met.struck
        ≡ struck_of by.now.start by.now.removed marks.now.marks) }
{
    let mut found = Vec::new(alloc);
    marks.keep(by.start, by.removed, &mut found)?;
    before.make_room(by.part, &found)?;
    let struck = marks.find_struck(by.start, by.removed)?;
    Ok(MarksMet { found, struck })
}

// Carries the marks over an edit of a text, which is lent as it is afterwards: what the step before
// of its part kept of them is put back where it has places there, and what this one met is kept.
fn carry_marks(marks: &mut MarkSet, kept: &mut KeptMarks, text: &Lines, by: &Edit, met: MarksMet)
    requires old_end { IsNarrow (further by.now.start by.now.removed) }
    requires new_end { IsNarrow (further by.now.start by.now.put) }
    requires moved { All (MovesNarrowly by.now.start by.now.removed by.now.put) marks.old.marks }
    requires struck { met.struck ≡ struck_of by.now.start by.now.removed marks.old.marks }
    requires room { 0 < length met.found.items
        → is_some (lookup (is_of_part by.now.part) kept.old) ≡ true }
    ensures marks { marks.new ≡ marks_after
        (filter (is_kept_in text.now) (kept_at (kept_entries kept.old) by.now.part))
        marks.old by.now }
    ensures kept { kept_entries kept.new
        ≡ with_part by.now.part met.found.items (kept_entries kept.old) }
{
    let MarksMet { found, struck } = met;
    let mut back = kept.put(by.part, found);
    keep_in(text, &mut back);
    move_marks(marks, by, &struck, &back);
}

// Strikes and moves the marks by an edit, and puts back what was kept of them before.
fn move_marks(marks: &mut MarkSet, by: &Edit, struck: &Struck, kept: &[Kept])
    requires old_end { IsNarrow (further by.now.start by.now.removed) }
    requires new_end { IsNarrow (further by.now.start by.now.put) }
    requires moved { All (MovesNarrowly by.now.start by.now.removed by.now.put) marks.old.marks }
    requires struck { struck.now ≡ struck_of by.now.start by.now.removed marks.old.marks }
    ensures { marks.new ≡ marks_after kept.now marks.old by.now }
{
    let count = marks.len();
    if count == 0 {
        return;
    }
    marks.strike(by.start, by.removed, struck);
    marks.splice(by.start, by.removed, by.put);
    marks.put_back(kept);
}
