//! The law of scenes, as the contract of a function that does nothing.
ghost use Rattle.nv_scene_laws.specs.Laws.{EditorsHaveScenes, ModelsHaveScenes};

/// Each sound editor has a scene that can be drawn, once its windows are settled, and so has each
/// model editor that it stands for.
pub fn scenes_exist()
    ensures kept { EditorsHaveScenes }
    ensures models { ModelsHaveScenes }
{}
