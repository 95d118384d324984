// Undo, redo, and undo to a number.
ghost use Rattle.std.specs.Prelude.{◌≡◌, ℕ, ◌^◌, ◌<◌, ◌≤◌, ◌≤ℤ◌, ◌+ℤ◌, ◌++◌, pos, [], length, fold, flat_map, IfOk, OnOk};
ghost use Rattle.nv_undo.specs.Tree.{IsTree, last};
ghost use Rattle.nv_undo.specs.Ways.{Leads, legs_to, IsNext};
ghost use Rattle.nv_buffer.specs.Changes.{text_at, leg_edits};
ghost use Rattle.nv_buffer.specs.Steps.{kept_count};
ghost use Rattle.nv_buffer.specs.Content.{TellBytes, event_fold, events_from, after_seal, after_leg, after_undo, after_redo, after_undo_to, undo_edits, redo_edits, undo_to_edits};

use crate::buffer::{Buffer, Spliced};
use nv_undo::Leg;
use std::alloc::AllocError;

impl Buffer {
    /// Takes the current change back (help: :undo): first `seal`, and then the text is that of the
    /// change's parent. At 0 nothing more changes. The splices are those that take back the edits
    /// of the change, the last edit's first, each with its own changedtick. After an `Err` some of
    /// this may have been done.
    pub fn undo(&mut self) -> Result<Vec<Spliced>, AllocError>
        requires tick { (self.old.tick +ℤ pos (length (undo_edits self.old))) ≤ℤ i64.MAX }
        ensures state { OnOk result (self.new ≡ after_undo self.old) }
        ensures text { OnOk result (self.new.text ≡ text_at self.new.undo self.new.undo.current) }
        ensures told { IfOk result (λ events. events.items
            ≡ events_from self.old.tick (undo_edits self.old)) }
        ensures tick { IfOk result (λ events. self.new.tick
            ≡ self.old.tick +ℤ pos (length events.items)) }
        ensures lines { IfOk result (λ events. self.new.text
            ≡ fold event_fold self.old.text events.items) }
        ensures bytes { IfOk result (λ events. TellBytes self.old.text events.items) }
    {
        self.seal()?;
        match self.undone() {
            0 => self.walk([].as_slice()),
            current => self.walk([Leg::Back(current)].as_slice()),
        }
    }

    /// Makes the child last entered of the current change again (help: :redo): first `seal`, and
    /// then the text is that of this child. Where there is none nothing more changes. The splices
    /// are the edits of the change in their order, each with its own changedtick. After an `Err`
    /// some of this may have been done.
    pub fn redo(&mut self) -> Result<Vec<Spliced>, AllocError>
        requires tick { (self.old.tick +ℤ pos (length (redo_edits self.old))) ≤ℤ i64.MAX }
        ensures state { OnOk result (self.new ≡ after_redo self.old) }
        ensures text { OnOk result (self.new.text ≡ text_at self.new.undo self.new.undo.current) }
        ensures told { IfOk result (λ events. events.items
            ≡ events_from self.old.tick (redo_edits self.old)) }
        ensures tick { IfOk result (λ events. self.new.tick
            ≡ self.old.tick +ℤ pos (length events.items)) }
        ensures lines { IfOk result (λ events. self.new.text
            ≡ fold event_fold self.old.text events.items) }
        ensures bytes { IfOk result (λ events. TellBytes self.old.text events.items) }
    {
        self.seal()?;
        match self.child() {
            None => self.walk([].as_slice()),
            Some(child) => self.walk([Leg::Ahead(child)].as_slice()),
        }
    }

    /// Goes to the change `n`, or to the text at first where it is 0 (help: :undo): first `seal`,
    /// and then back to the nearest common ancestor and ahead to `n`, as by `undo` and `redo`.
    /// After an `Err` some of this may have been done.
    pub fn undo_to(&mut self, n: u64) -> Result<Vec<Spliced>, AllocError>
        requires within { n ≤ last (after_seal self.old).undo }
        requires tick { (self.old.tick +ℤ pos (length (undo_to_edits n self.old))) ≤ℤ i64.MAX }
        ensures state { OnOk result (self.new ≡ after_undo_to n self.old) }
        ensures number { OnOk result (self.new.undo.current ≡ n) }
        ensures text { OnOk result (self.new.text ≡ text_at self.new.undo n) }
        ensures told { IfOk result (λ events. events.items
            ≡ events_from self.old.tick (undo_to_edits n self.old)) }
        ensures tick { IfOk result (λ events. self.new.tick
            ≡ self.old.tick +ℤ pos (length events.items)) }
        ensures lines { IfOk result (λ events. self.new.text
            ≡ fold event_fold self.old.text events.items) }
        ensures bytes { IfOk result (λ events. TellBytes self.old.text events.items) }
    {
        self.seal()?;
        let legs = self.legs_to(n)?;
        self.walk(legs.as_slice())
    }

    // Goes legs one after another, and answers the splices that they make.
    fn walk(&mut self, legs: &[Leg]) -> Result<Vec<Spliced>, AllocError>
        requires sealed { self.old.unsealed ≡ [] }
        requires way { (to : ℕ) × Leads self.old.undo self.old.undo.current legs.now to }
        requires tick { (self.old.tick +ℤ pos
            (length (flat_map (leg_edits self.old.undo) legs.now))) ≤ℤ i64.MAX }
        ensures state { OnOk result (self.new ≡ fold after_leg self.old legs.now) }
        ensures number { (to : ℕ) → Leads self.old.undo self.old.undo.current legs.now to
            → OnOk result (self.new.undo.current ≡ to) }
        ensures told { IfOk result (λ events. events.items
            ≡ events_from self.old.tick (flat_map (leg_edits self.old.undo) legs.now)) }
        ensures text { OnOk result (self.new.text ≡ text_at self.new.undo self.new.undo.current) }
        ensures tick { IfOk result (λ events. self.new.tick
            ≡ self.old.tick +ℤ pos (length events.items)) }
        ensures lines { IfOk result (λ events. self.new.text
            ≡ fold event_fold self.old.text events.items) }
        ensures bytes { IfOk result (λ events. TellBytes self.old.text events.items) }
    {
        self.known();
        let mut events = Vec::new(self.alloc());
        for leg in legs {
            self.go(*leg, &mut events)?;
        }
        Ok(events)
    }

    // Goes a leg: makes its edits one after another, and then goes on in the tree. While they are
    // made they stand among the edits since the last change, so that the buffer is one at each
    // moment.
    fn go(&mut self, leg: Leg, events: &mut Vec<Spliced>) -> Result<(), AllocError>
        requires sealed { self.old.unsealed ≡ [] }
        requires next { IsNext self.old.undo leg }
        requires tick { (self.old.tick +ℤ pos (length (leg_edits self.old.undo leg))) ≤ℤ i64.MAX }
        ensures state { OnOk result (self.new ≡ after_leg self.old leg) }
        ensures told { OnOk result (events.new.items
            ≡ events.old.items ++ events_from self.old.tick (leg_edits self.old.undo leg)) }
    {
        self.known();
        for place in 0..self.leg_len(leg) {
            let edit = self.leg_edit(leg, place)?;
            let event = self.put_edit(edit)?;
            events.push(event)?;
        }
        self.arrive(leg);
        Ok(())
    }

    /// How many edits a leg has.
    pub fn leg_len(&self, leg: Leg) -> usize
        ensures { result ≡ length (leg_edits self.now.undo leg) }
    {
        match leg {
            Leg::Back(n) => self.change_len(n),
            Leg::Ahead(n) => self.change_len(n),
        }
    }

    /// How many splices `undo` would make.
    pub fn cost_back(&self) -> u64
        ensures { result ≡ length (undo_edits self.now) }
    {
        let unsealed = self.unsealed_len();
        if unsealed == 0 {
            self.change_len(self.undone()) as u64
        } else {
            unsealed as u64
        }
    }

    /// How many splices `redo` would make.
    pub fn cost_ahead(&self) -> u64
        ensures { result ≡ length (redo_edits self.now) }
    {
        self.known();
        if self.unsealed_len() > 0 {
            return 0;
        }
        match self.child() {
            Some(child) => self.change_len(child) as u64,
            None => 0,
        }
    }

    /// How many splices `undo_to` would make.
    pub fn cost_to(&self, n: u64) -> u64
        requires { n ≤ last (after_seal self.now).undo }
        ensures { result ≡ length (undo_to_edits n self.now) }
    {
        self.known();
        let unsealed = self.unsealed_len();
        if unsealed == 0 {
            return self.way_len(n);
        }
        if n > self.changes() {
            return 0;
        }
        unsealed as u64 + self.way_len(n)
    }

    // How many edits the way from the current number to another has. The greater of two numbers
    // isn't an ancestor of the other, so its change is left, or entered last.
    fn way_len(&self, n: u64) -> u64
        requires within { n ≤ last self.now.undo }
        requires tree { IsTree self.now.undo }
        requires small { kept_count self.now.undo self.now.unsealed < 2 ^ 63 }
        ensures { result ≡ length (flat_map (leg_edits self.now.undo) (legs_to n self.now.undo)) }
    {
        let mut count = 0;
        let mut from = self.undone();
        let mut to = n;
        while from != to {
            if from > to {
                count += self.change_len(from) as u64;
                from = self.origin(from);
            } else {
                count += self.change_len(to) as u64;
                to = self.origin(to);
            }
        }
        count
    }
}
