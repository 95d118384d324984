//! Virtual texts (help: nvim_buf_set_extmark(), virt_text).
ghost use Rattle.std.specs.Prelude.{◌≡◌, ◌∷◌, [], OnErr, OnOk, IfSome, option_map};
ghost use Rattle.nv_editor.specs.Doing.{Does};
ghost use Rattle.nv_model.specs.Operations.{note_put};
ghost use Rattle.nv_notes.specs.Notes.{IsNoteOf, note_at, notes_with};

use crate::editor::Editor;
use crate::stage::Stage;
use nv_notes::Note;
use std::alloc::AllocError;

impl Stage {
    fn put_note(&mut self, buffer: i64, set: u64, note: Note) -> Result<(), AllocError>
        requires { IsNoteOf self.old.groups note }
        ensures put { OnOk result (self.new
            ≡ record self.old { notes = notes_with buffer set note self.old.notes }) }
        ensures err { OnErr result (self.new ≡ self.old) }
    {
        self.notes.put(buffer, set, note)?;
        Ok(())
    }
}

impl Editor {
    /// Puts the virtual text of a buffer that comes with the setting of this number; its groups are
    /// there. Without memory nothing changes.
    pub fn put_note(&mut self, buffer: i64, set: u64, note: Note) -> Result<(), AllocError>
        requires { IsNoteOf self.old.stage.groups note }
        ensures done { OnOk result (Does (note_put buffer set note ∷ []) self.old self.new) }
        ensures err { OnErr result (self.new ≡ self.old) }
    {
        self.stage.put_note(buffer, set, note)?;
        Ok(())
    }

    /// The virtual text of a buffer that came with the setting of this number. `None` exactly where
    /// none did.
    pub fn note(&self, buffer: i64, set: u64) -> Option<&Note>
        ensures note { option_map (λ n. n.now) result ≡ note_at self.now.stage.notes buffer set }
        ensures groups { IfSome result (λ n. IsNoteOf self.now.stage.groups n.now) }
    {
        self.stage.notes().get(buffer, set)
    }
}
