//! Voices: what shows scenes to a client.
ghost use Rattle.std.specs.Prelude.{◌≡◌, ◌++◌, OnOk};
ghost use Rattle.nv_linegrid.specs.Told.{Told};
ghost use Rattle.nv_painter.specs.Spoken.{IsSoundIfThere};
ghost use Rattle.nv_history.specs.Spoken.{bytes_of_scene, told_with};

use nv_painter::{Batch, Painter};
use nv_screen::HeldScene;
use std::alloc::{AllocError, Global};

/// What shows scenes to a client. Its meaning is what the client was told of the screen.
pub trait Voice {
    ghost told: { Self → Told };

    /// Writes the redraw notification that shows a scene to the client at the end of `into`, where
    /// there is one. Without memory the voice is spent.
    fn speak(
        &mut self,
        alloc: Global,
        scene: Option<HeldScene>,
        into: &mut Vec<u8>,
    ) -> Result<(), AllocError>
        requires { IsSoundIfThere scene }
        ensures spoken { OnOk result (into.new.items
            ≡ into.old.items ++ bytes_of_scene (told self.old) scene) }
        ensures after { OnOk result (told self.new ≡ told_with (told self.old) scene) };
}

impl Voice for Painter {
    ghost told = { λ p. p.told };

    fn speak(
        &mut self,
        alloc: Global,
        scene: Option<HeldScene>,
        into: &mut Vec<u8>,
    ) -> Result<(), AllocError> {
        let messages = Vec::new(alloc);
        Painter::speak(self, alloc, Batch { messages, scene }, into)
    }
}
