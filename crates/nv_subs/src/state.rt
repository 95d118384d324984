//! What a follower knows of its buffer.
ghost use Rattle.std.specs.Prelude.{◌≡◌, is_some, unwrap_or, IfOk, OnOk, OnErr, option_and_then};
ghost use Rattle.nv_value.specs.View.{contents};
ghost use Rattle.nv_subs.specs.Mirrors.{event_lines, mirror_after_lines, mirror_with_lines};
ghost use Rattle.nv_subs.specs.inside.States.{mirror_at_tick, mirror_of_state};

use crate::received::lines_of;
use nv_lines::LineList;
use nv_value::Items;
use std::alloc::AllocError;

/// What a follower knows of its buffer: nothing, its changedtick alone, or its lines at a
/// changedtick.
#[derive(Drop)]
pub enum State {
    Absent,
    Ticking(i64),
    Holding(LineList, i64),
}

impl State {
    // What is known is of this changedtick.
    fn set_tick(&mut self, tick: i64)
        ensures { mirror_of_state self.new ≡ mirror_at_tick (mirror_of_state self.old) tick }
    {
        match self {
            State::Absent => {}
            State::Ticking(now) => {
                *now = tick;
            }
            State::Holding(_, now) => {
                *now = tick;
            }
        }
    }

    // Lines stand in place of those from `first` up to before `last`. `false` exactly where they
    // don't fit, and then nothing changes.
    fn put(
        &mut self,
        tick: i64,
        first: usize,
        last: usize,
        new: LineList,
    ) -> Result<bool, AllocError>
        ensures fits { IfOk result (λ fits. fits
            ≡ is_some (mirror_with_lines (mirror_of_state self.old) tick first last new)) }
        ensures ok { OnOk result (mirror_of_state self.new ≡ unwrap_or
            (mirror_with_lines (mirror_of_state self.old) tick first last new)
            (mirror_of_state self.old)) }
        ensures err { OnErr result (mirror_of_state self.new ≡ mirror_of_state self.old) }
    {
        if first > last {
            return Ok(false);
        }
        match self {
            State::Absent => Ok(false),
            State::Ticking(now) => {
                *now = tick;
                Ok(true)
            }
            State::Holding(lines, _) => {
                if last > lines.len() {
                    return Ok(false);
                }
                lines.replace(first, last, new)?;
                self.set_tick(tick);
                Ok(true)
            }
        }
    }

    // A lines event with these lines. `false` exactly where it doesn't fit, and then nothing
    // changes.
    fn take_list(
        &mut self,
        tick: i64,
        first: i64,
        last: i64,
        new: LineList,
    ) -> Result<bool, AllocError>
        ensures fits { IfOk result (λ fits. fits
            ≡ is_some (mirror_after_lines (mirror_of_state self.old) tick first last new)) }
        ensures ok { OnOk result (mirror_of_state self.new ≡ unwrap_or
            (mirror_after_lines (mirror_of_state self.old) tick first last new)
            (mirror_of_state self.old)) }
        ensures err { OnErr result (mirror_of_state self.new ≡ mirror_of_state self.old) }
    {
        if last == -1 {
            *self = State::Holding(new, tick);
            return Ok(true);
        }
        if last < 0 || first < 0 {
            return Ok(false);
        }
        self.put(tick, first as usize, last as usize, new)
    }

    /// A lines event. `false` exactly where it doesn't fit, and then nothing changes.
    pub fn take_lines(
        &mut self,
        tick: i64,
        first: i64,
        last: i64,
        lines: &Items,
    ) -> Result<bool, AllocError>
        ensures fits { IfOk result (λ fits. fits ≡ is_some (option_and_then
            (mirror_after_lines (mirror_of_state self.old) tick first last)
            (event_lines (contents lines.now.items)))) }
        ensures ok { OnOk result (mirror_of_state self.new ≡ unwrap_or (option_and_then
            (mirror_after_lines (mirror_of_state self.old) tick first last)
            (event_lines (contents lines.now.items))) (mirror_of_state self.old)) }
        ensures err { OnErr result (mirror_of_state self.new ≡ mirror_of_state self.old) }
    {
        match lines_of(lines)? {
            Some(new) => self.take_list(tick, first, last, new),
            None => Ok(false),
        }
    }
}
