// A list of lines, as it is handed over.
ghost use Rattle.std.specs.Prelude.{◌≡◌, ◌^◌, ◌≤◌, ◌↔◌, [], ◌∷◌, ◌++◌, length, IsTrue, IfOk, OnOk, OnErr, IfErr, IfSome, MatchOption, All, slice_get, slice_range, option_copied};
ghost use Rattle.std.specs.List.{splice};
ghost use Rattle.nv_places.specs.Flat.{flat, IsLine};
ghost use Rattle.nv_lines.specs.inside.Held.{held_lines};

use crate::gathering::rows_within;
use crate::held::{Held, shares};
use crate::measuring::checked_flat_len;
use crate::single::Line;
use std::alloc::{AllocError, AllocFailed, Global};
use std::marker::Model;
use std::mem;

/// A list of lines, maybe empty. A single line takes no table.
#[derive(Drop)]
pub struct LineList {
    held: Held,
}

impl Model for LineList {
    ghost use Rattle.std.specs.Prelude.{List, ℕ, All};
    ghost use Rattle.nv_places.specs.Flat.{IsLine};
    ghost use Rattle.nv_lines.specs.inside.Held.{held_lines};

    ghost Value = { List (List ℕ) };

    ghost view = { λ list. held_lines list.held };

    ghost invariant = { λ list. All IsLine (held_lines list.held) };
}

impl LineList {
    /// A list without lines.
    pub fn new(alloc: Global) -> LineList
        ensures { result ≡ [] }
    {
        LineList {
            held: Held::Many(Vec::new(alloc)),
        }
    }

    /// A list of one line. It takes no memory.
    pub fn one(alloc: Global, line: Line) -> LineList
        ensures { result ≡ line ∷ [] }
    {
        let _ = line.len();
        LineList {
            held: Held::One(line, alloc),
        }
    }

    pub fn from_vec(lines: Vec<Line>) -> LineList
        ensures { result ≡ lines.items }
    {
        // What a line keeps is known where it is looked at.
        for line in &lines {
            let _ = line.len();
        }
        LineList {
            held: Held::Many(lines),
        }
    }

    /// The lines in a table, which takes memory where there is one line.
    pub fn into_vec(self) -> Result<Vec<Line>, AllocError>
        ensures value { IfOk result (λ lines. lines.items ≡ self) }
        ensures lines { IfOk result (λ lines. All IsLine lines.items) }
    {
        self.held.into_vec()
    }

    // The lines in a table of their own. Where memory is wanting they come back.
    pub(crate) fn into_table(self) -> Result<Vec<Line>, LineList>
        ensures ok { IfOk result (λ lines. lines.items ≡ self) }
        ensures err { IfErr result (λ list. list ≡ self) }
    {
        match self.held.into_table() {
            Ok(lines) => Ok(lines),
            Err(held) => Err(LineList { held }),
        }
    }

    /// The same lines, in a table that its shares have in common: what is shared from then on costs
    /// no more for many lines than for few.
    pub fn in_common(self) -> Result<LineList, AllocError>
        ensures { IfOk result (λ list. list ≡ self) }
    {
        let held = self.held.in_common()?;
        Ok(LineList { held })
    }

    /// Adds a line at the end.
    pub fn push(&mut self, line: Line) -> Result<(), AllocFailed<Line>>
        ensures ok { OnOk result (self.new ≡ self.old ++ line ∷ []) }
        ensures err { OnErr result (self.new ≡ self.old) }
        ensures line_returned { IfErr result (λ e. e.value ≡ line) }
    {
        let _ = line.len();
        self.held.push(line)
    }

    /// The same lines, shared: no bytes are copied, and no table of those of a text's chunk.
    pub fn share(&self) -> Result<LineList, AllocError>
        ensures { IfOk result (λ list. list ≡ self.now) }
    {
        let held = self.held.share()?;
        Ok(LineList { held })
    }

    // Those of the lines from `from` up to before `to` that there are, shared.
    pub(crate) fn share_part(&self, from: usize, to: usize) -> Result<LineList, AllocError>
        ensures { IfOk result (λ list. list ≡ slice_range self.now from to) }
    {
        if from == 0 && self.held.len() <= to {
            return self.share();
        }
        let lines = rows_within(self.held.as_slice(), from, to);
        let held = shares(self.held.alloc(), lines)?;
        Ok(LineList { held })
    }

    /// The number of lines.
    pub fn len(&self) -> usize
        ensures value { result ≡ length self.now }
        ensures lines { All IsLine self.now }
    {
        self.held.len()
    }

    /// Whether there is no line.
    pub fn is_empty(&self) -> bool
        ensures { IsTrue result ↔ (self.now ≡ []) }
    {
        self.held.as_slice().is_empty()
    }

    /// The line at a place, from 0. `None` exactly at or past the end.
    pub fn get(&self, place: usize) -> Option<&Line>
        ensures { option_copied result ≡ slice_get self.now place }
    {
        self.held.as_slice().get(place)
    }

    /// All lines, lent.
    pub fn as_slice(&self) -> &[Line]
        ensures value { result.now ≡ self.now }
        ensures lines { All IsLine result.now }
    {
        self.held.as_slice()
    }

    /// Puts `new` in place of the lines from `from` up to before `to`, and gives those back. Where
    /// memory is wanting nothing changes.
    pub fn replace(&mut self, from: usize, to: usize, new: LineList) -> Result<LineList, AllocError>
        requires order { from ≤ to }
        requires within { to ≤ length self.old }
        ensures ok { OnOk result (self.new ≡ splice self.old from to new) }
        ensures taken { IfOk result (λ taken. taken ≡ slice_range self.old from to) }
        ensures err { OnErr result (self.new ≡ self.old) }
    {
        if from == 0 && to == self.len() {
            return Ok(mem::replace(self, new.in_common()?));
        }
        let held = self.held.replace(from, to, new.held)?;
        Ok(LineList { held })
    }

    /// The number of bytes of the flat text of these lines. `None` exactly where it is 2^64 or
    /// more.
    pub fn flat_len(&self) -> Option<u64>
        ensures { MatchOption result (2 ^ 64 ≤ length (flat self.now))
            (λ n. n ≡ length (flat self.now)) }
    {
        checked_flat_len(self.held.as_slice())
    }
}
