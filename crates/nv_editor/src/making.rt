//! Making and deleting buffers.
ghost use Rattle.std.specs.Prelude.{◌≡◌, ◌==◌, ◌&&◌, ◌++◌, ◌+ℤ◌, ◌∷◌, [], pos, true, false, length, IfOk, OnOk};
ghost use Rattle.nv_buffer.specs.Content.{fresh_content};
ghost use Rattle.nv_model.specs.Deleting.{dropping_operations, least_other, no_buffer_left};
ghost use Rattle.nv_model.specs.Editors.{handles_of};
ghost use Rattle.nv_model.specs.Operations.{buffer_made};
ghost use Rattle.nv_model.specs.Standing.{seen_now};
ghost use Rattle.std.specs.Ordering.{int_eq};
ghost use Rattle.nv_editor.specs.inside.Replacing.{replacing_operations};
ghost use Rattle.nv_editor.specs.Doing.{Does};
ghost use Rattle.nv_editor.specs.Sound.{is_live_buffer};

use crate::editor::Editor;
use std::alloc::AllocError;

impl Editor {
    /// Makes the next buffer, which is empty, and answers its handle (help: nvim_create_buf()).
    pub fn make_buffer(&mut self, listed: bool) -> Result<i64, AllocError>
        requires room { no_buffer_left self.old.stage ≡ false }
        ensures handle { IfOk result (λ n. n ≡ self.old.stage.next_buffer) }
        ensures done { OnOk result (Does (buffer_made listed ∷ []) self.old self.new) }
        ensures live { IfOk result (λ n. is_live_buffer self.new n ≡ true) }
        ensures buffers { IfOk result
            (λ n. self.new.buffers ≡ self.old.buffers ++ (n, fresh_content n listed) ∷ []) }
        ensures stage { OnOk result (self.new.stage ≡ record self.old.stage {
          next_buffer = self.old.stage.next_buffer +ℤ pos 1;
        }) }
    {
        let handle = self.stage.next_buffer();
        self.buffers.make(self.alloc, handle, listed)?;
        self.stage.count_buffer();
        Ok(handle)
    }

    /// Deletes a live buffer. The windows that showed it show the least other one, or a new empty
    /// one where there is none, at row 0.
    pub fn drop_buffer(&mut self, buffer: i64) -> Result<(), AllocError>
        requires live { is_live_buffer self.old buffer ≡ true }
        requires room { (length (handles_of self.old.buffers) == 1
            && no_buffer_left self.old.stage) ≡ false }
        ensures done { OnOk result (Does
            (dropping_operations self.old.stage buffer (least_other (seen_now self.old) buffer))
            self.old self.new) }
    {
        if let Some(other) = self.buffers.least_other(buffer) {
            self.replace_buffer(buffer, other);
            return Ok(());
        }
        let made = self.make_buffer(true)?;
        self.replace_buffer(buffer, made);
        Ok(())
    }

    // Deletes a buffer whose windows show another one, at row 0.
    fn replace_buffer(&mut self, buffer: i64, other: i64)
        requires live { is_live_buffer self.old buffer ≡ true }
        requires other { is_live_buffer self.old other ≡ true }
        requires apart { int_eq other buffer ≡ false }
        ensures { Does (replacing_operations self.old.stage.workspace buffer other)
            self.old self.new }
    {
        self.buffers.known(other);
        self.stage.show_instead(buffer, other);
        self.buffers.take_out(buffer);
    }
}
