// Edits as they are kept, each with what it takes to take it back.
ghost use Rattle.std.specs.Prelude.{◌≡◌, ◌+◌, ◌^◌, ◌<◌, length, Some, IfOk, slice_get};
ghost use Rattle.nv_buffer.specs.Splices.{IsBufferText};
ghost use Rattle.nv_buffer.specs.Steps.{IsKept, IsPutIn, edit_ahead, edit_back, kept_step, swap_back};

use crate::edit::Edit;
use crate::patch::Patch;
use nv_lines::{LineList, Lines};
use std::alloc::{AllocError, Global};
use std::marker::Model;

/// An edit with the rows that it took.
#[derive(Drop)]
pub struct Swap {
    pub ahead: Edit,
    /// The rows that the edit took out of the text.
    pub taken: LineList,
}

impl Swap {
    /// The edit that takes this one back.
    fn back(&self) -> Result<Edit, AllocError>
        requires { self.now.ahead.first + length self.now.ahead.lines < 2 ^ 32 }
        ensures { IfOk result (λ edit. edit ≡ swap_back self.now) }
    {
        let edit = &self.ahead;
        let lines = self.taken.share()?;
        Ok(Edit {
            first: edit.first,
            last: edit.first + edit.lines.len() as u32,
            lines,
            at: edit.at,
            old: edit.new,
            new: edit.old,
            start: edit.start,
            removed: edit.put,
            put: edit.removed,
            rows: edit.rows,
            part: edit.part.turned(),
        })
    }
}

/// An edit as it is kept.
#[derive(Drop)]
pub enum Step {
    /// Rows in place of others.
    Rows(Swap),
    /// Bytes in place of others in a long row. The row itself isn't kept: it is made from that of
    /// the text before the edit, or after it.
    Bytes(Patch),
}

impl Step {
    /// What is kept of an edit: its patch where there is one, and else the rows that it put and
    /// took.
    pub fn new(patch: Option<Patch>, ahead: Edit, taken: LineList) -> Step
        ensures { result ≡ kept_step patch ahead taken }
    {
        match patch {
            Some(patch) => Step::Bytes(patch),
            None => Step::Rows(Swap { ahead, taken }),
        }
    }

    /// The edit once more, of the text before it.
    pub fn ahead(&self, alloc: Global, text: &Lines) -> Result<Edit, AllocError>
        requires text { IsBufferText text.now }
        requires kept { IsKept text.now self.now }
        ensures { IfOk result (λ edit. edit ≡ edit_ahead text.now self.now) }
    {
        match self {
            Step::Rows(swap) => swap.ahead.share(),
            Step::Bytes(patch) => patch.edit(alloc, text),
        }
    }

    /// The edit that takes this one back, of the text after it.
    pub fn back(&self, alloc: Global, text: &Lines) -> Result<Edit, AllocError>
        requires text { IsBufferText text.now }
        requires made { IsPutIn text.now self.now }
        ensures { IfOk result (λ edit. edit ≡ edit_back text.now self.now) }
    {
        match self {
            Step::Rows(swap) => swap.back(),
            Step::Bytes(patch) => patch.back()?.edit(alloc, text),
        }
    }
}

/// The steps of a change, in the order in which they were made.
#[derive(Drop)]
pub struct Change {
    steps: Vec<Step>,
}

impl Model for Change {
    ghost use Rattle.std.specs.Prelude.{List};
    ghost use Rattle.nv_buffer.specs.declared.step.Step.{Step};

    ghost Value = { List Step };

    ghost view = { λ change. change.steps.items };
}

impl Change {
    pub fn from_vec(steps: Vec<Step>) -> Change
        ensures { result ≡ steps.items }
    {
        Change { steps }
    }

    pub fn into_vec(self) -> Vec<Step>
        ensures { result.items ≡ self }
    {
        self.steps
    }

    /// The number of steps.
    pub fn len(&self) -> usize
        ensures { result ≡ length self.now }
    {
        self.steps.len()
    }

    /// The step at a place, from 0.
    pub fn step(&self, place: usize) -> &Step
        requires { place < length self.now }
        ensures { slice_get self.now place ≡ Some result.now }
    {
        &self.steps[place]
    }
}
