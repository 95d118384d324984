//! Marks (help: api-extended-marks).
ghost use Rattle.std.specs.Prelude.{◌≡◌, ◌<◌, ◌∷◌, [], false, filter, true, OnOk, OnErr};
ghost use Rattle.nv_editor.specs.Doing.{Does};
ghost use Rattle.nv_editor.specs.Sound.{IsOfGroups, content_at, is_live_buffer};
ghost use Rattle.nv_buffer.specs.Marks.{IsMarkIn};
ghost use Rattle.nv_marks.specs.Marks.{mark_at};
ghost use Rattle.nv_marks.specs.Queries.{is_cleared};
ghost use Rattle.nv_model.specs.Answering.{removal_operations};
ghost use Rattle.nv_model.specs.Keeping.{most_settings};
ghost use Rattle.nv_model.specs.Operations.{mark_removed, mark_set};

use crate::editor::Editor;
use nv_buffer::{Mark, Pos};
use std::alloc::AllocError;

impl Editor {
    /// Sets a mark of a live buffer anew as a whole (help: nvim_buf_set_extmark()), in which fewer
    /// than 2^62 settings were made. Where memory is wanting nothing changes.
    pub fn set_mark(&mut self, buffer: i64, mark: Mark) -> Result<(), AllocError>
        requires live { is_live_buffer self.old buffer ≡ true }
        requires places { IsMarkIn (content_at self.old buffer).text mark }
        requires group { IsOfGroups self.old.stage.groups mark }
        requires shown { mark.hidden ≡ false }
        requires few { (content_at self.old buffer).marks.settings < most_settings }
        ensures done { OnOk result (Does (mark_set buffer mark ∷ []) self.old self.new) }
        ensures stage { OnOk result (self.new.stage ≡ self.old.stage) }
        ensures err { OnErr result (self.new ≡ self.old) }
    {
        self.buffers.set_mark(buffer, mark)?;
        Ok(())
    }

    /// Removes the mark of a namespace and id of a live buffer, and answers it. `None` comes
    /// exactly where there is none. Its id still counts for the next one.
    pub fn remove_mark(&mut self, buffer: i64, ns: u32, id: u32) -> Option<Mark>
        requires { is_live_buffer self.old buffer ≡ true }
        ensures taken { result ≡ mark_at (content_at self.old buffer).marks.marks ns id }
        ensures done { Does (mark_removed buffer ns id ∷ []) self.old self.new }
        ensures live { is_live_buffer self.new buffer ≡ true }
        ensures stage { self.new.stage ≡ self.old.stage }
    {
        self.buffers.remove_mark(buffer, ns, id)
    }

    /// Removes the marks of a namespace of a live buffer, or of all, that start from one place to
    /// another, both included (help: nvim_buf_clear_namespace()). Their ids still count for the
    /// next one. Where memory is wanting nothing changes.
    pub fn clear_marks(
        &mut self,
        buffer: i64,
        ns: Option<u32>,
        from: Pos,
        to: Pos,
    ) -> Result<(), AllocError>
        requires { is_live_buffer self.old buffer ≡ true }
        ensures done { OnOk result (Does (removal_operations buffer
            (filter (is_cleared ns from to) (content_at self.old buffer).marks.marks))
            self.old self.new) }
        ensures err { OnErr result (self.new ≡ self.old) }
    {
        self.buffers.clear_marks(buffer, ns, from, to)
    }
}
