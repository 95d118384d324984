//! The laws of settling and of scenes, as contracts of functions that do nothing.
ghost use Rattle.nv_scene.specs.Laws.{FirstSceneIsDrawn, RectsSpanTheirArea, ScenesAreDrawnAlike, SettledShowCursors, SettlingIsOnce, TwoScenesAreDrawn};

/// Settling twice is settling once, and then each window shows its cursor.
pub fn settling_laws()
    ensures once { SettlingIsOnce }
    ensures cursors { SettledShowCursors }
{}

/// The windows of a tree span the area that it divides. All scenes of one editor are drawn alike. A
/// fresh editor's scene on 12 by 4 cells, and that of two windows side by side on 80 by 24,
/// computed.
pub fn scene_laws()
    ensures span { RectsSpanTheirArea }
    ensures alike { ScenesAreDrawnAlike }
    ensures first { FirstSceneIsDrawn }
    ensures two { TwoScenesAreDrawn }
{}
