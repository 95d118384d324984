//! Edits of a buffer's text, with the windows that show it.
ghost use Rattle.std.specs.Prelude.{◌≡◌, ◌+◌, ◌^◌, ◌<◌, ◌≤◌, ◌<ℤ◌, ◌++◌, true, false, [], ◌∷◌, length, All, OnOk, is_some};
ghost use Rattle.nv_value.specs.Content.{nil};
ghost use Rattle.nv_places.specs.Places.{IsNarrow, further, is_before};
ghost use Rattle.nv_buffer.specs.Content.{next_part};
ghost use Rattle.nv_buffer.specs.Splices.{IsInLine, IsNarrowLine, lines_between};
ghost use Rattle.nv_windows.specs.Views.{MovesNarrowlyIn};
ghost use Rattle.nv_model.specs.Answers.{edited};
ghost use Rattle.nv_model.specs.Editors.{at_handle};
ghost use Rattle.nv_model.specs.Buffers.{rows_splice, text_splice};
ghost use Rattle.nv_model.specs.Standing.{seen_buffer_now};
ghost use Rattle.nv_model.specs.Answering.{splice_answer};
ghost use Rattle.nv_editor.specs.Doing.{Replies};
ghost use Rattle.nv_editor.specs.Sound.{content_at, is_live_buffer};
ghost use Rattle.nv_editor.specs.inside.Table.{content_in};
ghost use Rattle.nv_editor.specs.inside.Views.{move_by, with_views};

use crate::buffers::Buffers;
use crate::editor::Editor;
use crate::happened::{Fact, Happened};
use crate::stage::Stage;
use crate::views::carry_views;
use nv_buffer::{LineList, Pos, Spliced};
use std::alloc::AllocError;

// Moves the windows that show a buffer in which a splice was made, and tells of it.
fn tell_splice(
    stage: &mut Stage,
    buffers: &Buffers,
    buffer: i64,
    spliced: Spliced,
    happened: &mut Happened,
) -> Result<(), AllocError>
    requires there { is_some (at_handle buffers.now buffer) ≡ true }
    requires old_end { IsNarrow (further spliced.edit.start spliced.edit.removed) }
    requires new_end { IsNarrow (further spliced.edit.start spliced.edit.put) }
    requires moved { All (MovesNarrowlyIn buffer
        (move_by spliced.edit (content_in buffers.now buffer).text)) stage.old.workspace.windows }
    ensures stage { stage.new ≡ record stage.old {
      workspace = with_views buffer spliced.edit (content_in buffers.now buffer).text
          stage.old.workspace;
    } }
    ensures told { OnOk result (happened.new ≡ happened.old ++ edited buffer spliced ∷ []) }
{
    carry_views(stage, buffers, buffer, &spliced.edit);
    happened.push(Fact::Edited { buffer, spliced })
}

impl Editor {
    /// Puts `new` in place of the rows of a live buffer from `from` up to before `to` (help:
    /// nvim_buf_set_lines()). Where no row is removed and no line put, nothing changes and nothing
    /// is told.
    pub fn put_lines(
        &mut self,
        buffer: i64,
        from: usize,
        to: usize,
        new: LineList,
        happened: &mut Happened,
    ) -> Result<(), AllocError>
        requires live { is_live_buffer self.old buffer ≡ true }
        requires order { from ≤ to }
        requires within { to ≤ length (content_at self.old buffer).text }
        requires left { to < from + length new + length (content_at self.old buffer).text }
        requires count { from + length new + length (content_at self.old buffer).text
            < to + 2 ^ 32 }
        requires columns { All IsNarrowLine new }
        requires tick { ¬ ((from ≡ to) × (new ≡ []))
            → (content_at self.old buffer).tick <ℤ i64.MAX }
        ensures { let b = content_at self.old buffer in
            OnOk result (Replies
            (splice_answer buffer (seen_buffer_now b)
            (rows_splice (next_part b) b.text from to new))
            nil self.old self.new happened.old happened.new) }
    {
        self.edited.push(buffer)?;
        match self.buffers.splice_lines(buffer, from, to, new)? {
            None => Ok(()),
            Some(spliced) => {
                tell_splice(&mut self.stage, &self.buffers, buffer, spliced, happened)
            }
        }
    }

    /// Puts `new` between two places of a live buffer, the second one exclusive (help:
    /// nvim_buf_set_text()). Where the two places are one and `new` is one empty line, nothing
    /// changes and nothing is told.
    pub fn put_text(
        &mut self,
        buffer: i64,
        start: Pos,
        stop: Pos,
        new: LineList,
        happened: &mut Happened,
    ) -> Result<(), AllocError>
        requires live { is_live_buffer self.old buffer ≡ true }
        requires start_in { IsInLine (content_at self.old buffer).text start }
        requires stop_in { IsInLine (content_at self.old buffer).text stop }
        requires order { is_before stop start ≡ false }
        requires some_line { 0 < length new }
        requires count { start.row + length new + length (content_at self.old buffer).text
            < stop.row + 1 + 2 ^ 32 }
        requires columns { All IsNarrowLine
            (lines_between (content_at self.old buffer).text start stop new) }
        requires tick { ¬ ((start ≡ stop) × (new ≡ [] ∷ []))
            → (content_at self.old buffer).tick <ℤ i64.MAX }
        ensures { let b = content_at self.old buffer in
            OnOk result (Replies
            (splice_answer buffer (seen_buffer_now b)
            (text_splice (next_part b) b.text start stop new))
            nil self.old self.new happened.old happened.new) }
    {
        self.edited.push(buffer)?;
        match self.buffers.splice_text(buffer, start, stop, new)? {
            None => Ok(()),
            Some(spliced) => {
                tell_splice(&mut self.stage, &self.buffers, buffer, spliced, happened)
            }
        }
    }
}
