//! The end of a call: open changes are closed.
ghost use Rattle.std.specs.Prelude.{map, OnOk};
ghost use Rattle.nv_model.specs.Editors.{handles_of};
ghost use Rattle.nv_model.specs.Operations.{sealed_in};
ghost use Rattle.nv_editor.specs.Doing.{Does};
ghost use Rattle.nv_editor.specs.Sound.{AllSealed};

use crate::editor::Editor;
use std::alloc::AllocError;

impl Editor {
    /// Closes the open change of each buffer (help: undo-blocks). Only buffers that were edited
    /// since this was last called are looked at.
    pub fn seal_all(&mut self) -> Result<(), AllocError>
        ensures done { OnOk result (Does (map sealed_in (handles_of self.old.buffers))
            self.old self.new) }
        ensures sealed { OnOk result (AllSealed self.new) }
    {
        self.buffers.seal_each(self.edited.as_slice())?;
        self.edited.clear();
        Ok(())
    }
}
