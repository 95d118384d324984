//! Marks that are followed, and where splices leave them (help: api-extended-marks).
ghost use Rattle.std.specs.Prelude.{◌≡◌, ◌+◌, IfOk, IfSome, OnOk, false, filter, if◌then◌else◌, map, nat_le, nat_lt, not, option_and_then, option_map, true, unwrap_or};
ghost use Rattle.nv_places.specs.Moves.{moved_offset};
ghost use Rattle.nv_model.specs.Buffers.{is_removed, is_same_part, kept_state, kept_with, last_kept, offset_within, state_after, state_moved, state_put_back, state_struck};
ghost use Rattle.nv_watch.specs.FollowedMarks.{ends_kept, followed_after, followed_after_one, part_kept, reach_of_moved};

use nv_buffer::ChangePart;
use nv_world::Moved;
use std::alloc::{AllocError, Global};
use std::marker::Model;

/// What a splice kept of a mark: the offsets of its ends among the bytes that it replaced.
#[derive(Clone, Copy, Debug, PartialEq, Eq)]
pub struct KeptEnds {
    pub start: Option<u64>,
    pub stop: Option<u64>,
    pub hidden: bool,
}

/// What the last splice of a part of a change kept of a mark.
#[derive(Clone, Copy, Debug, PartialEq, Eq)]
pub struct KeptPart {
    pub part: ChangePart,
    pub ends: KeptEnds,
}

/// How a mark moves: the gravity of its start and of its end, whether undo and redo put it back,
/// and whether it is struck where all of it is removed.
#[derive(Clone, Copy, Debug, PartialEq, Eq)]
pub struct Keys {
    pub right: bool,
    pub stops_right: bool,
    pub restore: bool,
    pub invalidate: bool,
}

/// An extmark that is followed: whose it is, under which setting, whether that was made beside
/// splices, and where the splices since have left it, as offsets of the flat text of its buffer.
#[derive(Drop)]
pub struct FollowedMark {
    pub buffer: i64,
    pub ns: u32,
    pub id: u32,
    pub set: u64,
    pub is_left_out: bool,
    pub keys: Keys,
    pub start: u64,
    pub stop: Option<u64>,
    pub hidden: bool,
    pub gone: bool,
    pub kept: Vec<KeptPart>,
}

impl Model for FollowedMark {
    ghost use Rattle.nv_watch.specs.FollowedMarks.{Followed, part_kept, keys_seen};
    ghost use Rattle.std.specs.Prelude.{map};

    ghost Value = { Followed };

    ghost view = { λ m. record {
      buffer = m.buffer;
      ns = m.ns;
      id = m.id;
      set = m.set;
      is_left_out = m.is_left_out;
      keys = keys_seen m.keys;
      state = record {
        start = m.start;
        stop = m.stop;
        hidden = m.hidden;
        gone = m.gone;
        kept = map part_kept m.kept.items;
      };
    } };
}

// The part of a change that a splice is.
fn part_of(splice: Moved) -> ChangePart
    ensures { result ≡ (reach_of_moved splice).part }
{
    ChangePart {
        change: splice.change,
        part: splice.part,
        back: splice.back,
    }
}

// Whether two parts are the same one, whichever way they are gone.
fn is_same_part(part: ChangePart, other: ChangePart) -> bool
    ensures { result ≡ is_same_part part other }
{
    part.change == other.change && part.part == other.part
}

// What the last splice of a part kept, where it kept something.
fn last_kept_in(kept: &[KeptPart], part: ChangePart) -> Option<KeptEnds>
    ensures { option_map ends_kept result ≡ last_kept part (map part_kept kept.now) }
{
    for one in kept {
        if is_same_part(part, one.part) {
            return Some(one.ends);
        }
    }
    None
}

// Leaves out what was kept by a splice of a part.
fn leave_out(kept: &mut Vec<KeptPart>, part: ChangePart)
    ensures { kept.new.items ≡ filter (λ k. not (is_same_part part k.part)) kept.old.items }
{
    kept.retain(|one| !is_same_part(part, one.part));
}

// Whether an offset lies before the end of the bytes that a splice replaces, or there.
fn is_up_to_end(splice: Moved, offset: u64) -> bool
    ensures { result ≡ nat_le offset (splice.at + splice.old) }
{
    offset < splice.at || offset - splice.at <= splice.old
}

// Whether an offset lies before the end of the bytes that a splice replaces.
fn is_before_end(splice: Moved, offset: u64) -> bool
    ensures { result ≡ nat_lt offset (splice.at + splice.old) }
{
    offset < splice.at || offset - splice.at < splice.old
}

// An offset that lies from the first byte that a splice replaces to behind the last one.
fn offset_within(splice: Moved, offset: u64) -> Option<u64>
    ensures { result ≡ offset_within (reach_of_moved splice) offset }
{
    let is_within = splice.at <= offset && is_up_to_end(splice, offset);
    is_within.then_some(offset)
}

// That of an end that may be there.
fn stop_within(splice: Moved, stop: Option<u64>) -> Option<u64>
    ensures { result ≡ option_and_then (offset_within (reach_of_moved splice)) stop }
{
    match stop {
        Some(offset) => offset_within(splice, offset),
        None => None,
    }
}

// Where a splice moves an offset.
fn moved(splice: Moved, right: bool, offset: u64) -> Option<u64>
    ensures { IfSome result (λ moved. moved
        ≡ moved_offset right splice.at (splice.at + splice.old) splice.new offset) }
{
    let until = splice.at.checked_add(splice.old)?;
    if offset < splice.at {
        Some(offset)
    } else if until < offset {
        (offset - until)
            .checked_add(splice.at)?
            .checked_add(splice.new)
    } else if right {
        splice.at.checked_add(splice.new)
    } else {
        Some(splice.at)
    }
}

// Where it moves the start of a mark. `AllocError` where that passes 64 bits.
fn moved_start(splice: Moved, right: bool, offset: u64) -> Result<u64, AllocError>
    ensures { IfOk result (λ moved. moved
        ≡ moved_offset right splice.at (splice.at + splice.old) splice.new offset) }
{
    moved(splice, right, offset).ok_or(AllocError)
}

// Where it moves an end that may be there.
fn moved_stop(splice: Moved, right: bool, stop: Option<u64>) -> Result<Option<u64>, AllocError>
    ensures { IfOk result (λ moved. moved ≡ option_map
        (moved_offset right splice.at (splice.at + splice.old) splice.new) stop) }
{
    match stop {
        Some(offset) => Ok(Some(moved_start(splice, right, offset)?)),
        None => Ok(None),
    }
}

// An end at the offset that was kept of it, or where it is.
fn stop_put_back(kept: Option<u64>, stop: Option<u64>) -> Option<u64>
    ensures { result ≡ option_map (λ p. unwrap_or kept p) stop }
{
    match stop {
        Some(offset) => Some(kept.unwrap_or(offset)),
        None => None,
    }
}

impl FollowedMark {
    /// The same mark once more.
    pub fn copy(&self, alloc: Global) -> Result<FollowedMark, AllocError>
        ensures { IfOk result (λ copy. copy ≡ self.now) }
    {
        let mut kept = Vec::with_capacity(alloc, self.kept.len())?;
        kept.extend_from_slice(self.kept.as_slice())?;
        Ok(FollowedMark {
            buffer: self.buffer,
            ns: self.ns,
            id: self.id,
            set: self.set,
            is_left_out: self.is_left_out,
            keys: self.keys,
            start: self.start,
            stop: self.stop,
            hidden: self.hidden,
            gone: self.gone,
            kept,
        })
    }

    // What a splice keeps of a mark.
    fn kept_by(&self, splice: Moved) -> Option<KeptEnds>
        ensures { option_map ends_kept result
            ≡ kept_state self.now.keys self.now.state (reach_of_moved splice) }
    {
        let start = offset_within(splice, self.start);
        let stop = stop_within(splice, self.stop);
        let is_kept = self.keys.restore && (start.is_some() || stop.is_some());
        is_kept.then_some(KeptEnds {
            start,
            stop,
            hidden: self.hidden,
        })
    }

    // Whether a splice removes all of a mark.
    fn is_removed(&self, splice: Moved) -> bool
        ensures { result ≡ is_removed self.now.state (reach_of_moved splice) }
    {
        splice.at <= self.start
            && is_up_to_end(splice, self.stop.unwrap_or(self.start))
            && is_before_end(splice, self.start)
    }

    // Strikes a mark that has lost all of its text.
    fn strike(&mut self, splice: Moved)
        ensures { self.new ≡ record self.old {
          state = state_struck self.old.keys self.old.state (reach_of_moved splice);
        } }
    {
        if self.keys.invalidate && self.is_removed(splice) {
            self.hide();
        }
    }

    // Hides a mark that undo puts back, and takes away any other.
    fn hide(&mut self)
        ensures { self.new ≡ record self.old {
          state = if self.old.keys.restore then record self.old.state { hidden = true }
              else record self.old.state { gone = true };
        } }
    {
        if self.keys.restore {
            self.hidden = true;
        } else {
            self.gone = true;
        }
    }

    // Moves start and end by a splice.
    fn move_by(&mut self, splice: Moved) -> Result<(), AllocError>
        ensures { OnOk result (self.new ≡ record self.old {
          state = state_moved self.old.keys self.old.state (reach_of_moved splice);
        }) }
    {
        let start = moved_start(splice, self.keys.right, self.start)?;
        let stop = moved_stop(splice, self.keys.stops_right, self.stop)?;
        self.start = start;
        self.stop = stop;
        Ok(())
    }

    // What the last splice of a part kept of a mark, where it kept something.
    fn last_kept(&self, part: ChangePart) -> Option<KeptEnds>
        ensures { option_map ends_kept result ≡ last_kept part self.now.state.kept }
    {
        last_kept_in(self.kept.as_slice(), part)
    }

    // Puts what a splice of a part kept in the place of what the one before kept.
    fn keep(&mut self, part: ChangePart, ends: Option<KeptEnds>) -> Result<(), AllocError>
        ensures { OnOk result (self.new ≡ record self.old {
          state = record self.old.state {
            kept = kept_with part (option_map ends_kept ends) self.old.state.kept;
          };
        }) }
    {
        leave_out(&mut self.kept, part);
        if let Some(ends) = ends {
            self.kept.push(KeptPart { part, ends })?;
        }
        Ok(())
    }

    // Puts back what was kept of a mark.
    fn put_back(&mut self, ends: Option<KeptEnds>)
        ensures { self.new ≡ record self.old {
          state = state_put_back (option_map ends_kept ends) self.old.state;
        } }
    {
        let Some(ends) = ends else {
            return;
        };
        self.start = ends.start.unwrap_or(self.start);
        self.stop = stop_put_back(ends.stop, self.stop);
        self.hidden = ends.hidden;
    }

    // Follows a mark through a splice of its buffer. `AllocError` where an offset passes 64 bits.
    fn step_in(&mut self, splice: Moved) -> Result<(), AllocError>
        ensures { OnOk result (self.new ≡ record self.old {
          state = state_after self.old.keys self.old.state (reach_of_moved splice);
        }) }
    {
        let part = part_of(splice);
        let kept = self.kept_by(splice);
        let before = self.last_kept(part);
        self.strike(splice);
        self.move_by(splice)?;
        self.put_back(before);
        self.keep(part, kept)?;
        Ok(())
    }

    // Follows a mark through a splice, which may be one of another buffer.
    fn step(&mut self, splice: Moved) -> Result<(), AllocError>
        ensures { OnOk result (self.new ≡ followed_after_one self.old splice) }
    {
        if splice.buffer != self.buffer {
            return Ok(());
        }
        self.step_in(splice)?;
        Ok(())
    }

    /// Follows a mark through splices, one after another. `AllocError` where an offset passes 64
    /// bits.
    pub fn follow(&mut self, splices: &[Moved]) -> Result<(), AllocError>
        ensures { OnOk result (self.new ≡ followed_after splices.now self.old) }
    {
        for splice in splices {
            self.step(*splice)?;
        }
        Ok(())
    }
}
