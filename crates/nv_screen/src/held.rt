//! A scene behind a pointer.
ghost use Rattle.std.specs.Prelude.{◌≡◌, IfOk};

use crate::scene::Scene;
use std::alloc::{AllocError, Global};
use std::marker::Model;

/// A scene that goes from hand to hand: it stands behind a pointer, and only that is moved.
#[derive(Drop)]
pub struct HeldScene {
    kept: Box<Scene>,
}

impl Model for HeldScene {
    ghost use Rattle.nv_screen.specs.declared.scene.Scene.{Scene};
    ghost use Rattle.nv_screen.specs.contracts.scene.Scene as shown;

    ghost Value = { Scene };

    ghost coded = { shown.the_row.coded };

    ghost view = { λ held. held.kept.value };
}

impl HeldScene {
    /// Holds a scene.
    pub fn new(alloc: Global, scene: Scene) -> Result<HeldScene, AllocError>
        ensures { IfOk result (λ held. held ≡ scene) }
    {
        let kept = Box::new(alloc, scene)?;
        Ok(HeldScene { kept })
    }

    /// The scene, lent.
    pub fn scene(&self) -> &Scene
        ensures { result.now ≡ self.now }
    {
        &self.kept
    }

    /// The scene, taken out.
    pub fn into_scene(self) -> Scene
        ensures { result ≡ self }
    {
        Box::into_inner(self.kept)
    }
}
